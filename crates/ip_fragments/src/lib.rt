//! Reassembles IPv4 and IPv6 datagrams from their fragments, as Linux does (RFC 791, section 3.2;
//! RFC 8200, section 4.5; RFC 5722).
//!
//! [`FragmentTable`] is the table of datagrams in reassembly. [`FragmentTable::add`] takes a
//! fragment, as `capture` parses it, and returns its datagram once all bytes arrived, in any order
//! and with any repeats. A fragment that repeats bytes is ignored, but for a count of those that
//! differ; one that overlaps others, contradicts the end or has no bytes drops its datagram.
//!
//! A datagram waits at most [`WAIT_LIMIT`] or [`WAIT_LIMIT_V6`] for fragments, by their own times,
//! and all together take at most [`HELD_LIMIT`] bytes: beyond that the oldest are dropped.
//!
//! Promise: `Table.Adds` and `Waiting.received` in `specs/` define what a fragment does to the
//! table and to its datagram. [`laws`] proves that any order of fragments gives the same datagram.
//!
//! # Cost
//!
//! A fragment in order takes time by its own length; another looks at the runs of bytes behind it.
//! Memory follows the bytes that arrived: twice their number, [`RUN_COST`] for each run without a
//! gap and [`DATAGRAM_COST`] for each datagram.
#![tactic(auto)]

mod fragments;
mod key;
pub mod laws;
mod outcome;
mod runs;
mod waiting;

pub use fragments::{FragmentTable, HELD_LIMIT, WAIT_LIMIT, WAIT_LIMIT_V6};
pub use outcome::{FragmentOutcome, FragmentRefusal};
pub use runs::RUN_COST;
pub use waiting::{DATAGRAM_COST, ReassembledDatagram};
