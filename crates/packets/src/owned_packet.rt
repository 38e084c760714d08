//! All packets of a capture in memory.
ghost use Rattle.std.specs.Prelude.{◌≡◌, Some, IfErr, IfOk, OnOk};
ghost use Rattle.packets.specs.Kept.{IsEndOf, kept};
ghost use Rattle.packets.specs.Packets.{Whole, packets_of};

use crate::reader::Packet;
use crate::visit::{PacketVisitor, VisitError, visit_packets};
use std::alloc::{AllocError, Global};

/// A packet with an own copy of its bytes.
#[derive(Debug, PartialEq, Drop)]
pub struct OwnedPacket {
    /// The capture time, in nanoseconds since 1970-01-01 00:00 UTC.
    pub time: u64,
    /// The packet's link type: a LINKTYPE value of tcpdump.org.
    pub link_type: u16,
    /// The packet's length on the wire, in bytes.
    pub original_length: u32,
    /// The captured bytes.
    pub bytes: Vec<u8>,
}

/// A visitor that collects all packets.
#[derive(Drop)]
struct OwningVisitor {
    alloc: Global,
    packets: Vec<OwnedPacket>,
}

impl PacketVisitor for OwningVisitor {
    type Error = AllocError;

    ghost taken = { λ k. Some (kept k.packets) };

    fn visit(&mut self, packet: Packet<'_>) -> Result<(), AllocError> {
        let bytes = Vec::from_slice(self.alloc, packet.bytes)?;
        let Packet {
            time,
            link_type,
            original_length,
            ..
        } = packet;
        let kept = OwnedPacket {
            time,
            link_type,
            original_length,
            bytes,
        };
        self.packets.push(kept)?;
        Ok(())
    }
}

/// Returns all packets of a capture in order, or the error that ends them. The error is `Visitor`
/// if memory runs out for the packets.
pub fn read_packets(
    alloc: Global,
    capture: &[u8],
) -> Result<Vec<OwnedPacket>, VisitError<AllocError>>
    ensures packets { IfOk result (λ v. kept v ≡ (packets_of capture.now).0) }
    ensures whole { OnOk result ((packets_of capture.now).1 ≡ Whole) }
    ensures cause { IfErr result (λ e. IsEndOf (packets_of capture.now) e) }
{
    let mut visitor = OwningVisitor {
        alloc,
        packets: Vec::new(alloc),
    };
    let mut reader = capture;
    visit_packets(alloc, &mut reader, &mut visitor)?;
    Ok(visitor.packets)
}
