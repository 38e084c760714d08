//! The content of IP datagrams: TCP segments, UDP datagrams, other protocols.
ghost use Rattle.std.specs.Prelude.{◌≤◌, IfOk};
ghost use Rattle.layouts.specs.Answers.{Gives};
ghost use Rattle.capture.specs.Transport.{tcp as tcp_layout, view_segment, udp as udp_layout, view_datagram};
ghost use Rattle.capture.specs.Transport.{numbers as numbers_layout, view_numbers, control_fields as control_fields_layout, view_control};
ghost use Rattle.capture.specs.Transport.{transport as transport_layout, view_content};

use layouts::{ErrorKind, IResult, block, number1, number2, number4, parsed, refused, rest};

/// The protocol number of TCP.
pub(crate) const TCP: u8 = 6;

/// The protocol number of UDP.
pub(crate) const UDP: u8 = 17;

/// The first fields of a TCP header: ports, sequence and acknowledgment number.
#[derive(Clone, Copy)]
struct Numbers {
    source: u16,
    destination: u16,
    sequence: u32,
    acknowledgment: u32,
}

/// The fields of a TCP header behind these, up to the options.
#[derive(Clone, Copy)]
struct Control {
    offset: u8,
    flags: u8,
    window: u16,
    checksum: u16,
    urgent_pointer: u16,
}

/// A TCP segment (RFC 9293, section 3.1).
#[derive(Clone, Copy, Debug, PartialEq)]
pub struct TcpSegment<'a> {
    /// The source port.
    pub source: u16,
    /// The destination port.
    pub destination: u16,
    /// The sequence number of the first byte; with SYN, that of the SYN.
    pub sequence: u32,
    /// If ACK is set, the sequence number that the sender expects next.
    pub acknowledgment: u32,
    /// The data offset, in words of 4 bytes, in the upper 4 bits. The lower 4 bits are reserved.
    pub offset: u8,
    /// CWR, ECE, URG, ACK, PSH, RST, SYN, FIN, from bit 7 to bit 0.
    pub flags: u8,
    /// The receive window in bytes, from the acknowledged byte on, before scaling (RFC 7323,
    /// section 2).
    pub window: u16,
    /// The checksum, not verified.
    pub checksum: u16,
    /// If URG is set, the offset from the first byte to the end of urgent data.
    pub urgent_pointer: u16,
    /// The options, for [`option_of`] and the like.
    pub options: &'a [u8],
    /// The data.
    pub payload: &'a [u8],
}

/// A UDP datagram (RFC 768).
#[derive(Clone, Copy, Debug, PartialEq)]
pub struct UdpDatagram<'a> {
    /// The source port.
    pub source: u16,
    /// The destination port.
    pub destination: u16,
    /// The length of header and data, in bytes.
    pub length: u16,
    /// The checksum, not verified; 0 if there is none.
    pub checksum: u16,
    /// The data.
    pub payload: &'a [u8],
}

/// The content of a datagram.
#[derive(Clone, Copy, Debug, PartialEq)]
pub enum Content<'a> {
    /// A TCP segment (protocol 6).
    Tcp(TcpSegment<'a>),
    /// A UDP datagram (protocol 17).
    Udp(UdpDatagram<'a>),
    /// A part of a fragmented datagram; its content isn't read.
    Fragment,
    /// Another protocol: its number, and its bytes, which aren't read.
    Other(u8, &'a [u8]),
}

/// Parses the ports and numbers at the front of a TCP segment, 12 bytes.
#[tactic(auto, using(layouts::proofs::OneAnswerLemmas::read_allowed), unfolding(crate::specs::Transport::numbers))]
#[inline(always)]
fn read_numbers(i: &[u8]) -> IResult<&[u8], Numbers>
    ensures { Gives view_numbers numbers_layout i.now result }
{
    let (i, source) = parsed!(number2(i));
    let (i, destination) = parsed!(number2(i));
    let (i, sequence) = parsed!(number4(i));
    let (i, acknowledgment) = parsed!(number4(i));
    let numbers = Numbers {
        source,
        destination,
        sequence,
        acknowledgment,
    };
    Ok((i, numbers))
}

/// Parses the fields of a TCP header behind the numbers, up to the options, 8 bytes. `Error` of
/// kind `LengthValue` if the data offset is below 5 words.
#[tactic(auto, using(layouts::proofs::OneAnswerLemmas::read_allowed), unfolding(crate::specs::Transport::control_fields))]
#[inline(always)]
fn control_fields(i: &[u8]) -> IResult<&[u8], Control>
    ensures gives { Gives view_control control_fields_layout i.now result }
    ensures fits { IfOk result (λ x. 80 ≤ x.1.offset) }
{
    let (i, offset) = parsed!(number1(i));
    let (i, flags) = parsed!(number1(i));
    let (i, window) = parsed!(number2(i));
    let (i, checksum) = parsed!(number2(i));
    let (i, urgent_pointer) = parsed!(number2(i));
    if offset / 16 < 5 {
        return refused(i, ErrorKind::LengthValue);
    }
    let control = Control {
        offset,
        flags,
        window,
        checksum,
        urgent_pointer,
    };
    Ok((i, control))
}

/// Parses a TCP segment, all of `i` (RFC 9293, section 3.1): 20 bytes, options up to the data
/// offset, and the data.
///
/// - `Incomplete`, with the count of missing bytes of the header or the options.
/// - `Error` of kind `LengthValue` if the data offset is below 5 words.
#[tactic(auto, using(layouts::proofs::OneAnswerLemmas::read_allowed), unfolding(crate::specs::Transport::tcp))]
#[inline(always)]
pub fn parse_tcp(i: &[u8]) -> IResult<&[u8], TcpSegment>
    ensures { Gives view_segment tcp_layout i.now result }
{
    let (i, numbers) = parsed!(read_numbers(i));
    let (i, control) = parsed!(control_fields(i));
    let (i, options) = parsed!(block(i, (control.offset / 16) as usize * 4 - 20));
    let (i, payload) = parsed!(rest(i));
    let segment = TcpSegment {
        source: numbers.source,
        destination: numbers.destination,
        sequence: numbers.sequence,
        acknowledgment: numbers.acknowledgment,
        offset: control.offset,
        flags: control.flags,
        window: control.window,
        checksum: control.checksum,
        urgent_pointer: control.urgent_pointer,
        options,
        payload,
    };
    Ok((i, segment))
}

/// Parses a UDP datagram (RFC 768): a header of 8 bytes, and the data up to the header's length.
///
/// - `Incomplete`, with the count of missing bytes of the header or the data.
/// - `Error` of kind `LengthValue` if the length is below 8.
#[tactic(auto, using(layouts::proofs::OneAnswerLemmas::read_allowed), unfolding(crate::specs::Transport::udp))]
pub fn parse_udp(i: &[u8]) -> IResult<&[u8], UdpDatagram>
    ensures { Gives view_datagram udp_layout i.now result }
{
    let (i, source) = parsed!(number2(i));
    let (i, destination) = parsed!(number2(i));
    let (i, length) = parsed!(number2(i));
    let (i, checksum) = parsed!(number2(i));
    if length < 8 {
        return refused(i, ErrorKind::LengthValue);
    }
    let (i, payload) = parsed!(block(i, length as usize - 8));
    let datagram = UdpDatagram {
        source,
        destination,
        length,
        checksum,
        payload,
    };
    Ok((i, datagram))
}

/// Parses the content of a datagram, by its protocol number.
#[tactic(auto, using(layouts::proofs::OneAnswerLemmas::read_allowed), unfolding(crate::specs::Transport::transport))]
#[inline(always)]
pub(crate) fn transport(i: &[u8], protocol: u8) -> IResult<&[u8], Content>
    ensures { Gives view_content (transport_layout protocol) i.now result }
{
    match protocol {
        TCP => {
            let (i, segment) = parsed!(parse_tcp(i));
            Ok((i, Content::Tcp(segment)))
        }
        UDP => {
            let (i, datagram) = parsed!(parse_udp(i));
            Ok((i, Content::Udp(datagram)))
        }
        _ => {
            let (i, payload) = parsed!(rest(i));
            Ok((i, Content::Other(protocol, payload)))
        }
    }
}
