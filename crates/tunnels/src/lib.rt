//! Tunnels: finds the innermost datagram of a packet, behind the headers that carry one network
//! over another.
//!
//! [`innermost`] follows at most [`MAX_TUNNELS`] tunnels and returns them with the datagram. Each
//! tunnel header also has a parser. No call allocates memory. A payload that only looks like a
//! tunnel, by its port or protocol, is treated as an ordinary datagram.
//!
//! Promise: each parser returns what a layout in `specs/` allows, and nothing else, and
//! [`innermost`] what `Walk.unwrapped` defines. The layouts are in `Gre`, `Gtp`, `Labels`,
//! `Overlay`, `Teredo` and `Carriers`; `Fragments` and `Tags` define fragments and VLAN tags inside
//! tunnels. [`laws`] holds what follows from the definitions alone.
#![tactic(auto, using(layouts::proofs::OneAnswerLemmas::read_allowed))]

mod carriers;
mod fragments;
mod gre;
mod gtp;
mod labels;
pub mod laws;
mod overlay;
mod tags;
mod teredo;
mod tunnel;
mod walk;

pub use fragments::{fragment_in, innermost_fragment, inside_of};
pub use gre::parse_gre;
pub use gtp::parse_gtp;
pub use labels::{parse_backbone, parse_mpls};
pub use overlay::{parse_geneve, parse_vxlan};
pub use tags::vlan_tags;
pub use teredo::parse_teredo;
pub use tunnel::{ETHERNET, Endpoints, Header, MAX_TUNNELS, Tunnel, TunnelKind, Tunnels};
pub use walk::{Inside, Unwrapped, innermost, innermost_into, plain_segment};
