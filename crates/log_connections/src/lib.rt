//! Follows the TLS and DTLS connections of a capture, packet by packet.
//!
//! [`Log`] is a table of connections. Give it each packet by [`Log::packet`], and call
//! [`Log::finish`] at the end: it passes each connection that is over to a [`Sink`]. Each TCP
//! segment or UDP datagram that its reader ([`arrivals::ArrivalReader`]) finds in a packet goes to
//! its connection, whose analysis ([`TlsAnalysis`]) then processes the sender's new bytes. For
//! messages or certificates one by one, a [`PieceCollector`] collects them from each TLS or DTLS
//! connection.
//!
//! Promise: `Log` in `specs/` defines which connection an arrival changes and which bytes its
//! analysis gets, `TlsAnalysis` what the analysis does with them, `Fronts` where TLS begins in a
//! stream, `Tds` how it is taken out of packets, `Sink` which connections are passed on, and
//! `Packet` which are lent and counted. What a collector keeps of its pieces has no clauses, only
//! tests.
#![tactic(auto)]

mod analysis;
mod counting;
mod dialogue;
mod drive;
mod ending;
mod exchanges;
mod fit;
mod following;
mod found;
mod fronts;
pub mod laws;
mod log;
mod memory;
mod piece_observer;
mod sink;
mod tds;
mod turning;

pub use analysis::{ANALYSIS_COST, PieceCollector, PieceKind, TlsAnalysis};
pub use exchanges::Delivery;
pub use log::Log;
pub use sink::{LogError, Sink};
