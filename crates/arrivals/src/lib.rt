//! What a capture's packets bring to connections: TCP segments and UDP datagrams.
//!
//! [`ArrivalReader`] parses each packet down to its innermost datagram, in tunnels and fragments
//! too, and returns it as an [`Arrival`]. [`Counts`] has what was read and what was left out.
//!
//! Promise: `Reader.Reads` in `specs/` defines what a packet brings, and what is counted without an
//! arrival; `Fragments.Joins` and `ReadsWhole` what becomes of fragments; `Arrival` each field, and
//! `Counts` what counts as supported. Under which row an unsupported link type is counted has no
//! clause, only tests.
#![tactic(auto)]

mod arrival;
mod counts;
mod fragments;
mod links;
mod reader;

pub use arrival::{Arrival, Checksums};
pub use counts::{Counts, add_one};
pub use fragments::CompletedDatagram;
pub use reader::ArrivalReader;
