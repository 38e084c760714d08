//! Pcap files (draft-ietf-opsawg-pcap).
ghost use Rattle.std.specs.Prelude.{◌≡◌};
ghost use Rattle.layouts.specs.Meaning.{AllowsOne};
ghost use Rattle.layouts.specs.Answers.{Gives};
ghost use Rattle.capture.specs.Pcap.{format_of, view_format, header, view_header, packet, view_packet, nanoseconds};

use crate::order::{Order, number2_by, number4_by};
use layouts::{ErrorKind, IResult, block, number4, parsed, refused};

/// The longest packet in a file, in bytes (`MAXIMUM_SNAPLEN` of libpcap).
pub const MAX_PACKET_LEN: u32 = 262_144;

/// The unit of a time's fraction of a second.
#[derive(Clone, Copy, Debug, PartialEq, Eq)]
pub enum Unit {
    /// 1,000 nanoseconds.
    Microsecond,
    /// 1 nanosecond.
    Nanosecond,
}

/// The format that a file's magic number stands for (draft-ietf-opsawg-pcap, section 4).
#[derive(Clone, Copy, Debug, PartialEq, Eq)]
pub struct Format {
    /// The byte order of the file's headers.
    pub order: Order,
    /// The unit of the fraction of a second.
    pub unit: Unit,
}

/// A file header (draft-ietf-opsawg-pcap, section 4), 24 bytes.
#[derive(Clone, Copy, Debug, PartialEq, Eq)]
pub struct PcapHeader {
    /// The format of the packets' headers.
    pub format: Format,
    /// The length at which packets are truncated, in bytes.
    pub snap_length: u32,
    /// The link type of each packet: a LINKTYPE value of tcpdump.org.
    pub link_type: u16,
}

/// A captured packet.
#[derive(Clone, Copy, Debug, PartialEq)]
pub struct Captured<'a> {
    /// The capture time, in nanoseconds since 1970-01-01 00:00 UTC.
    pub time: u64,
    /// The packet's length on the wire, in bytes. If it exceeds the length of `bytes`, the packet
    /// was truncated.
    pub original_length: u32,
    /// The captured bytes.
    pub bytes: &'a [u8],
}

impl Unit {
    /// Returns how many nanoseconds the unit has.
    pub fn nanoseconds(self) -> u64
        ensures { result ≡ nanoseconds self }
    {
        match self {
            Unit::Microsecond => 1000,
            Unit::Nanosecond => 1,
        }
    }
}

/// Returns the format of a magic number.
#[tactic(auto, using(layouts::proofs::OneAnswerLemmas::read_allowed), unfolding(crate::specs::Pcap::format_of))]
fn format_by_magic(i: &[u8], magic: u32) -> IResult<&[u8], Format>
    ensures { Gives view_format (format_of magic) i.now result }
{
    let (order, unit) = match magic {
        0xa1b2_c3d4 => (Order::Big, Unit::Microsecond),
        0xd4c3_b2a1 => (Order::Little, Unit::Microsecond),
        0xa1b2_3c4d => (Order::Big, Unit::Nanosecond),
        0x4d3c_b2a1 => (Order::Little, Unit::Nanosecond),
        _ => return refused(i, ErrorKind::Tag),
    };
    Ok((i, Format { order, unit }))
}

/// Parses a file header (draft-ietf-opsawg-pcap, section 4), 24 bytes. The first packet follows.
///
/// - `Incomplete`, with the count of missing bytes of the first field that isn't whole.
/// - `Error` of kind `Tag` if the magic number is unknown: it is no pcap file.
/// - `Error` of kind `Verify` if the major version isn't 2.
#[tactic(auto, using(layouts::proofs::OneAnswerLemmas::read_allowed, layouts::proofs::OneAnswerLemmas::one_answer), unfolding(crate::specs::Pcap::header))]
pub fn parse_pcap_header(i: &[u8]) -> IResult<&[u8], PcapHeader>
    ensures gives { Gives view_header header i.now result }
    ensures only_one { AllowsOne header i.now }
{
    let (i, magic) = parsed!(number4(i));
    let (i, format) = parsed!(format_by_magic(i, magic));
    let (i, major) = parsed!(number2_by(i, format.order));
    if major != 2 {
        return refused(i, ErrorKind::Verify);
    }
    let (i, _) = parsed!(block(i, 10));
    let (i, snap_length) = parsed!(number4_by(i, format.order));
    let (i, link) = parsed!(number4_by(i, format.order));
    let header = PcapHeader {
        format,
        snap_length,
        link_type: (link % 65536) as u16,
    };
    Ok((i, header))
}

/// Parses a packet of a file of this format (draft-ietf-opsawg-pcap, section 5): a header of 16
/// bytes, and the captured bytes.
///
/// - `Incomplete`, with the count of missing bytes of the first header field that isn't whole, or
///   else of the packet's bytes.
/// - `Error` of kind `TooLarge` if the captured length exceeds [`MAX_PACKET_LEN`], even before
///   these bytes arrive.
#[tactic(auto, using(layouts::proofs::OneAnswerLemmas::read_allowed, layouts::proofs::OneAnswerLemmas::one_answer), unfolding(crate::specs::Pcap::packet))]
pub fn parse_pcap_packet(i: &[u8], format: Format) -> IResult<&[u8], Captured>
    ensures gives { Gives view_packet (packet (view_format format)) i.now result }
    ensures only_one { AllowsOne (packet (view_format format)) i.now }
{
    let (i, seconds) = parsed!(number4_by(i, format.order));
    let (i, fraction) = parsed!(number4_by(i, format.order));
    let (i, captured) = parsed!(number4_by(i, format.order));
    let (i, original_length) = parsed!(number4_by(i, format.order));
    if captured > MAX_PACKET_LEN {
        return refused(i, ErrorKind::TooLarge);
    }
    let (i, bytes) = parsed!(block(i, captured as usize));
    let time = seconds as u64 * 1_000_000_000 + fraction as u64 * format.unit.nanoseconds();
    Ok((
        i,
        Captured {
            time,
            original_length,
            bytes,
        },
    ))
}
