//! Reads the packets of a capture, one after the other, from its bytes as they arrive.
//!
//! A [`Capture`] recognizes pcap and pcapng by the first bytes, and parses the next packet at the
//! front of the bytes that it gets. A [`Buffer`] keeps those bytes between reads. [`visit_packets`]
//! reads a source to its end with both, and passes each packet to a [`PacketVisitor`], keeping
//! none. [`read_packets`] collects the packets of a capture in memory.
//!
//! Promise: `Packets.packets_of` in `specs/` defines the packets of a capture and how it ends, for
//! whatever sizes the reads have; `Visit` defines what a visit of them does. [`laws`] proves that
//! the packets don't depend on the reads.
#![tactic(auto)]

mod buffer;
pub mod laws;
mod owned_packet;
mod reader;
mod section;
mod visit;

pub use buffer::Buffer;
pub use owned_packet::{OwnedPacket, read_packets};
pub use reader::{Capture, CaptureError, CaptureStep, Packet};
pub use visit::{PacketVisitor, VisitError, visit_packets};
