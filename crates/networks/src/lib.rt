//! Numbers the networks of a capture's packets, to distinguish connections with the same addresses
//! in several networks.
//!
//! A [`Network`] is a packet's VLANs and tunnels, or its tunnels alone. [`Networks`] gives each a
//! number that no other network ever gets. It remembers at most [`MAX_NETWORKS`]; a network that
//! was forgotten gets another number when it reappears.
//!
//! Promise: [`Networks::number`] returns what `Networks.number_of` in `specs/` defines. [`laws`]
//! proves that packets with the same number came in the same network.
#![tactic(auto)]

pub mod laws;
mod networks;

pub use networks::{MAX_NETWORKS, Network, Networks};
