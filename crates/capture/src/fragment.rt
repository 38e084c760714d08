//! IP fragments (RFC 791, section 3.2; RFC 8200, section 4.5), and the content of reassembled
//! datagrams.
#![tactic(auto, using(layouts::proofs::OneAnswerLemmas::read_allowed), unfolding(crate::specs::Fragment::piece_step_at, crate::specs::Fragment::joined))]

ghost use Rattle.std.specs.Prelude.{◌≡◌};
ghost use Rattle.layouts.specs.Layout.{complete};
ghost use Rattle.layouts.specs.Answers.{Gives};
ghost use Rattle.capture.specs.Transport.{view_content};
ghost use Rattle.capture.specs.Ip.{view_address, view_datagram};
ghost use Rattle.capture.specs.Fragment.{fragment_v4, fragment_v6, joined, joined_content as joined_content_layout, piece as piece_layout, piece_behind as piece_behind_layout, piece_step_at as piece_step_layout, view_fragment, view_piece, view_piece_step};

use crate::checksum::{is_right, sum_of};
use crate::ip::{
    AUTHENTICATION, Address, IpDatagram, address_v6, fields_v4, front_v6, is_extension, lengths_v4,
    skipped, whole_protected, whole_v6,
};
use crate::transport::Content;
use layouts::{Err, ErrorKind, IResult, block, number1, number2, number4, parsed, refused, rest};

/// The protocol number of IPv6's Fragment header.
const FRAGMENT: u8 = 44;

/// A fragment of a datagram.
#[derive(Clone, Copy, Debug, PartialEq)]
pub struct IpFragment<'a> {
    /// The datagram's source.
    pub source: Address,
    /// The datagram's destination.
    pub destination: Address,
    /// The sender's identification of the datagram: 16 bits in IPv4, 32 in IPv6.
    pub identification: u32,
    /// In IPv4, the datagram's protocol. In IPv6, the number of the first header behind the
    /// Fragment header; only that of the fragment with offset 0 counts.
    pub protocol: u8,
    /// The offset of the payload in the datagram, in bytes: a multiple of 8, at most 65,528.
    pub offset: u16,
    /// Whether more fragments follow.
    pub has_more: bool,
    /// The length of the headers that count for the datagram's length and come before all
    /// fragments, in bytes. In IPv4 this is the header with its options. In IPv6 it is the
    /// extension headers between the IPv6 header and the Fragment header.
    pub in_front: usize,
    /// The ECN field, at most 3: the low two bits of the type of service or the traffic class (RFC
    /// 3168, section 5).
    pub ecn: u8,
    /// Whether the IPv4 header's checksum is correct; IPv6 has none.
    pub is_header_right: bool,
    /// The fragment's payload.
    pub payload: &'a [u8],
}

/// The fields of an IPv6 Fragment header, and the bytes behind it.
#[derive(Clone, Copy)]
struct Piece<'a> {
    next: u8,
    /// Offset, reserved bits, and the M flag (more fragments).
    offset: u16,
    identification: u32,
    payload: &'a [u8],
}

/// What follows an IPv6 header, in the search for a Fragment header.
#[derive(Clone, Copy)]
enum PieceStep<'a> {
    /// Another header, of this number.
    Further(u8),
    /// A fragment.
    Cut(Piece<'a>),
}

/// Parses an IPv4 fragment (RFC 791, section 3.1). It ends at the header's total length.
///
/// - `Incomplete`, with the count of missing bytes of the header, or of the total length.
/// - `Error` of kind `Verify` if the version isn't 4.
/// - `Error` of kind `LengthValue` if the header's length is below 5 words or above a total length
///   that isn't 0.
/// - `Error` of kind `Switch` if it is a whole datagram: its offset is 0 and no more fragments
///   follow.
#[tactic(auto, using(layouts::proofs::OneAnswerLemmas::read_allowed), unfolding(crate::specs::Fragment::fragment_v4, crate::specs::Ip::is_fragment_v4))]
pub fn parse_fragment_v4(i: &[u8]) -> IResult<&[u8], IpFragment>
    ensures { Gives view_fragment fragment_v4 i.now result }
{
    let (i, lengths) = parsed!(lengths_v4(i));
    let (_, identification) = parsed!(number2(i));
    let (i, fields) = parsed!(fields_v4(i));
    if fields.flags % 16384 < 1 {
        return refused(i, ErrorKind::Switch);
    }
    let (i, options) = parsed!(block(i, lengths.header - 20));
    let (i, payload) = parsed!(block(i, lengths.total.saturating_sub(lengths.header)));
    let fragment = IpFragment {
        source: Address::V4(fields.source),
        destination: Address::V4(fields.destination),
        identification: u32::from(identification),
        protocol: fields.protocol,
        offset: fields.flags % 8192 * 8,
        has_more: fields.flags / 8192 % 2 == 1,
        in_front: lengths.header,
        ecn: lengths.service % 4,
        is_header_right: is_right(lengths.words + fields.words + sum_of(options)),
        payload,
    };
    Ok((i, fragment))
}

/// Parses an IPv6 Fragment header. Its result is the next header if the fragment is the whole
/// datagram, or else the fragment's fields and the bytes behind them.
#[tactic(auto, using(layouts::proofs::OneAnswerLemmas::read_allowed), unfolding(crate::specs::Fragment::piece))]
fn cut_or_further(i: &[u8]) -> IResult<&[u8], PieceStep>
    ensures { Gives view_piece_step piece_layout i.now result }
{
    let (i, next) = parsed!(number1(i));
    let (i, _) = parsed!(block(i, 1));
    let (i, offset) = parsed!(number2(i));
    let (i, identification) = parsed!(number4(i));
    let (_, payload) = parsed!(rest(i));
    if offset / 8 == 0 && offset % 2 == 0 {
        return Ok((i, PieceStep::Further(next)));
    }
    let piece = Piece {
        next,
        offset,
        identification,
        payload,
    };
    Ok((i, PieceStep::Cut(piece)))
}

/// Parses a header of the number `next` in front of a Fragment header. `Error` of kind `Switch` if
/// it is neither an extension header nor a Fragment header.
fn piece_step(i: &[u8], next: u8) -> IResult<&[u8], PieceStep>
    ensures { Gives view_piece_step (piece_step_layout next) i.now result }
{
    if is_extension(next) {
        let (i, next) = parsed!(skipped(i, 8));
        return Ok((i, PieceStep::Further(next)));
    }
    if next == AUTHENTICATION {
        let (i, next) = parsed!(skipped(i, 4));
        return Ok((i, PieceStep::Further(next)));
    }
    if next == FRAGMENT {
        return cut_or_further(i);
    }
    refused(i, ErrorKind::Switch)
}

/// Parses the fragment behind at most `most` headers, the Fragment header among them.
#[tactic(auto, using(layouts::proofs::OneAnswerLemmas::read_allowed, crate::proofs::HeadersLemmas::no_piece_left, crate::proofs::HeadersLemmas::one_more_piece))]
fn piece_behind(i: &[u8], next: u8, most: u8) -> IResult<&[u8], Piece>
    ensures { Gives view_piece (piece_behind_layout most next) i.now result }
{
    if most == 0 {
        return refused(i, ErrorKind::Switch);
    }
    let (i, step) = parsed!(piece_step(i, next));
    match step {
        PieceStep::Further(further) => piece_behind(i, further, most - 1),
        PieceStep::Cut(piece) => Ok((i, piece)),
    }
}

/// Parses the fragment in `i`, which is the whole payload. A header that doesn't fit is an `Error`
/// of kind `Complete`.
fn whole_piece(i: &[u8], next: u8) -> IResult<&[u8], Piece>
    ensures { Gives view_piece (complete (piece_behind_layout 16 next)) i.now result }
{
    match piece_behind(i, next, 16) {
        Err(Err::Incomplete(_)) => refused(i, ErrorKind::Complete),
        answer => answer,
    }
}

/// Parses an IPv6 fragment (RFC 8200, section 4.5), behind at most 15 extension headers. It ends at
/// the payload length.
///
/// - `Incomplete`, with the count of missing bytes of the header, or of the payload length.
/// - `Error` of kind `Verify` if the version isn't 6.
/// - `Error` of kind `Complete` if a header doesn't fit in the payload length.
/// - `Error` of kind `Switch` if there is no Fragment header, or only such as mark the whole
///   datagram as one fragment.
#[tactic(auto, using(layouts::proofs::OneAnswerLemmas::read_allowed), unfolding(crate::specs::Fragment::fragment_v6))]
pub fn parse_fragment_v6(i: &[u8]) -> IResult<&[u8], IpFragment>
    ensures { Gives view_fragment fragment_v6 i.now result }
{
    let (i, front) = parsed!(front_v6(i));
    let len = front.len as usize;
    let (i, source) = parsed!(address_v6(i));
    let (i, destination) = parsed!(address_v6(i));
    let (i, held) = parsed!(block(i, len));
    let (_, piece) = parsed!(whole_piece(held, front.next));
    let in_front = len.saturating_sub(piece.payload.len()).saturating_sub(8);
    let fragment = IpFragment {
        source,
        destination,
        identification: piece.identification,
        protocol: piece.next,
        offset: piece.offset / 8 * 8,
        has_more: piece.offset % 2 == 1,
        in_front,
        ecn: front.ecn,
        is_header_right: true,
        payload: piece.payload,
    };
    Ok((i, fragment))
}

/// Parses the content of a reassembled datagram.
fn joined_content(i: &[u8], source: Address, protocol: u8) -> IResult<&[u8], Content>
    ensures { Gives view_content (joined_content_layout (view_address source) protocol)
        i.now result }
{
    match source {
        Address::V4(_) => whole_protected(i, protocol),
        Address::V6(_, _) => whole_v6(i, protocol),
    }
}

/// Parses the content of a reassembled datagram, all of `i`, between these addresses.
///
/// `protocol` is that of the fragment with offset 0. `is_header_right` is whether the checksums of
/// all the fragments' headers were correct.
///
/// - `Error` of kind `LengthValue` if a TCP segment's data offset is below 5 words, or a UDP
///   datagram's length below 8.
/// - `Error` of kind `Complete` if an extension header, a segment or a UDP datagram doesn't fit in
///   the bytes.
pub fn parse_joined(
    i: &[u8],
    source: Address,
    destination: Address,
    protocol: u8,
    is_header_right: bool,
) -> IResult<&[u8], IpDatagram>
    ensures { Gives view_datagram
        (joined (view_address source) (view_address destination) protocol is_header_right)
        i.now result }
{
    let (i, content) = parsed!(joined_content(i, source, protocol));
    let datagram = IpDatagram {
        source,
        destination,
        is_header_right,
        content,
    };
    Ok((i, datagram))
}
