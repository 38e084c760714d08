//! Packets in pcapng blocks (draft-ietf-opsawg-pcapng, sections 4.3 and 4.4, and appendix A).
#![tactic(auto, using(layouts::proofs::OneAnswerLemmas::read_allowed), unfolding(crate::specs::Pcapng::packet_of, crate::specs::Pcapng::enhanced_packet, crate::specs::Pcapng::obsolete_packet, crate::specs::Pcapng::simple_packet))]

ghost use Rattle.std.specs.Prelude.{◌≡◌};
ghost use Rattle.layouts.specs.Answers.{Gives};
ghost use Rattle.capture.specs.Pcapng.{packet_of as packet_of_layout, enhanced_packet, obsolete_packet};
ghost use Rattle.capture.specs.Pcapng.{simple_packet, view_packet, captured_of};

use crate::order::{Order, number2_by, number4_by};
use layouts::{IResult, block, parsed};

/// A packet read from a block.
#[derive(Clone, Copy, Debug, PartialEq)]
pub struct BlockPacket<'a> {
    /// The index of its interface in the section, counted from 0.
    pub interface: u32,
    /// The capture time, in the interface's units since 1970-01-01 00:00 UTC. A Simple Packet Block
    /// has no time: 0.
    pub units: u64,
    /// The packet's length on the wire, in bytes. If it exceeds the length of `bytes`, the packet
    /// was truncated.
    pub original_length: u32,
    /// The captured bytes.
    pub bytes: &'a [u8],
}

/// Parses the time, both lengths and the bytes, behind the interface's number.
fn packet_of(i: &[u8], order: Order, interface: u32) -> IResult<&[u8], BlockPacket>
    ensures { Gives view_packet (packet_of_layout order interface) i.now result }
{
    let (i, upper) = parsed!(number4_by(i, order));
    let (i, lower) = parsed!(number4_by(i, order));
    let (i, captured) = parsed!(number4_by(i, order));
    let (i, original_length) = parsed!(number4_by(i, order));
    let (i, bytes) = parsed!(block(i, captured as usize));
    let packet = BlockPacket {
        interface,
        units: upper as u64 * 4_294_967_296 + lower as u64,
        original_length,
        bytes,
    };
    Ok((i, packet))
}

/// Parses the body of an Enhanced Packet Block (type 6; draft-ietf-opsawg-pcapng, section 4.3). The
/// rest is padding and options.
///
/// `Incomplete`, with the count of missing bytes of the first field that isn't whole, if the body
/// is shorter than its fields and the captured length require.
pub fn parse_enhanced_packet(i: &[u8], order: Order) -> IResult<&[u8], BlockPacket>
    ensures { Gives view_packet (enhanced_packet order) i.now result }
{
    let (i, interface) = parsed!(number4_by(i, order));
    packet_of(i, order, interface)
}

/// Parses the body of a Packet Block (type 2; draft-ietf-opsawg-pcapng, appendix A), which is
/// obsolete. The rest is padding and options.
///
/// `Incomplete`, with the count of missing bytes of the first field that isn't whole, if the body
/// is shorter than its fields and the captured length require.
pub fn parse_obsolete_packet(i: &[u8], order: Order) -> IResult<&[u8], BlockPacket>
    ensures { Gives view_packet (obsolete_packet order) i.now result }
{
    let (i, interface) = parsed!(number2_by(i, order));
    let (i, _) = parsed!(block(i, 2));
    packet_of(i, order, interface as u32)
}

/// Returns how many bytes are captured of a packet of the length `original`. A snap length of 0
/// means no limit.
fn captured_len(original: u32, snap_length: u32) -> u32
    ensures { result ≡ captured_of original snap_length }
{
    if snap_length == 0 || original < snap_length {
        return original;
    }
    snap_length
}

/// Parses the body of a Simple Packet Block (type 3; draft-ietf-opsawg-pcapng, section 4.4).
/// `snap_length` is that of the section's interface 0. The rest is padding.
///
/// `Incomplete`, with the count of missing bytes of the length field or of the packet's bytes, if
/// the body is too short for them.
pub fn parse_simple_packet(i: &[u8], order: Order, snap_length: u32) -> IResult<&[u8], BlockPacket>
    ensures { Gives view_packet (simple_packet order snap_length) i.now result }
{
    let (i, original_length) = parsed!(number4_by(i, order));
    let (i, bytes) = parsed!(block(i, captured_len(original_length, snap_length) as usize));
    let packet = BlockPacket {
        interface: 0,
        units: 0,
        original_length,
        bytes,
    };
    Ok((i, packet))
}
