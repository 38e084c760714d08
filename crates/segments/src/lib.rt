//! Reassembles one direction of a TCP connection (RFC 9293, section 3.4) from segments in any
//! order.
//!
//! The promise: as long as no bytes are skipped, the delivered bytes, followed by the available
//! ones, are the longest prefix of the stream of which each byte was received. That is so for any
//! order of the segments, for retransmissions, and however the stream is cut, if each segment
//! begins less than 2^31 bytes from the first missing byte.
//!
//! [`TcpReassembler`] keeps the bytes that were received and not yet delivered.
//!
//! - [`TcpReassembler::new`] takes the sequence number of the first byte: one more than the SYN's,
//!   or that of the first segment if the SYN wasn't captured.
//! - [`TcpReassembler::segment`] takes a segment by its sequence number, modulo 2^32;
//!   [`TcpReassembler::put`] takes bytes by their position in the stream. If a byte comes twice,
//!   the first one counts.
//! - [`TcpReassembler::available`] returns the next bytes, up to the first missing one;
//!   [`TcpReassembler::take`] consumes them.
//! - [`TcpReassembler::held_behind`] returns how many out-of-order bytes are buffered after the
//!   first missing one. A caller that no longer waits for that takes what is available and calls
//!   [`TcpReassembler::skip`], which returns how many bytes were skipped. If more bytes than the
//!   limit were lost, none after them can be buffered: a new [`TcpReassembler`] begins at the next
//!   segment.
//!
//! [`reassemble`] does this for a list of segments, [`replay`] for segments and deliveries in any
//! order. [`laws`] states theorems about streams of any length.
//!
//! - `specs/Cells.antt` defines what is buffered and what each call does to it.
//! - `specs/Law.antt` defines what is delivered, by the stream and its segments alone; `Steps` does
//!   so for [`replay`].
//! - `specs/Pages.antt` and `Places` define how bytes are stored.
//!
//! # Cost
//!
//! Out-of-order bytes are kept in pages of 1,024 positions. Only pages in which a byte was received
//! are allocated.
//!
//! - A segment costs time by its own length, and each out-of-order byte once more when it becomes
//!   in-order.
//! - Bytes are copied, compared and counted a page at a time. If some positions of a page were
//!   filled before, the others are filled one by one.
//! - A page is looked up once for all of its positions, up to three times when bytes are written to
//!   it, in time logarithmic in the number of pages. Nothing else is searched, in whatever order
//!   segments come.
//! - A gap that [`TcpReassembler::missing`] counts, or that is skipped, costs a look-up for each of
//!   its positions.
//!
//! After the first missing byte, memory grows with the bytes received, not with how far ahead they
//! are. The first byte in a page allocates the page, of 2,056 bytes, and its entry in a tree. If
//! all positions within the limit of [`TcpReassembler::new`] are filled, that is little more than 2
//! bytes for each byte of the limit. All of it is freed once no out-of-order byte is left. In-order
//! bytes wait for the caller to take them.
#![tactic(auto)]

pub mod laws;
mod marks;
mod page;
mod pages;
mod places;
mod reassembler;
mod steps;
mod whole;
mod window;

pub use reassembler::{SegmentError, TcpReassembler};
pub use steps::{Step, replay};
pub use whole::reassemble;
