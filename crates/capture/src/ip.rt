//! Datagrams of the Internet Protocol (RFC 791; RFC 8200).
#![tactic(auto, using(layouts::proofs::OneAnswerLemmas::read_allowed), unfolding(crate::specs::Ip::content_v4, crate::specs::Ip::front_v6, crate::specs::Ip::skipped, crate::specs::Ip::protected, crate::specs::Ip::fragment_header, crate::specs::Ip::step, crate::specs::Ip::address_v6))]

ghost use Rattle.std.specs.Prelude.{◌≡◌, ◌⊎◌, ◌<◌, ◌≤◌, ◌+◌, ◌*◌, ◌^◌, IfOk};
ghost use Rattle.layouts.specs.Layout.{complete};
ghost use Rattle.layouts.specs.Answers.{Gives};
ghost use Rattle.capture.specs.Transport.{view_content};
ghost use Rattle.capture.specs.Words.{words4 as words4_of};
ghost use Rattle.capture.specs.Ip.{content_v4 as content_v4_layout, ipv4, ipv6, view_datagram, view_address};
ghost use Rattle.capture.specs.Ip.{skipped as skipped_layout, protected as protected_layout, lengths_v4 as lengths_v4_layout, view_lengths_v4, fields_v4 as fields_v4_layout, view_fields_v4, held_v4 as held_v4_layout};
ghost use Rattle.capture.specs.Ip.{address_v6 as address_v6_layout, front_v6 as front_v6_layout, headers as headers_layout, step as step_layout, held_v6 as held_v6_layout};
ghost use Rattle.capture.specs.Ip.{fragment_header as fragment_header_layout, is_extension as is_extension_number};

use crate::checksum::{is_right, sum_of, words4};
use crate::jumbo::payload_length;
use crate::transport::{Content, TCP, transport};
use layouts::{
    Err, ErrorKind, IResult, block, number1, number2, number3, number4, number8, parsed, refused,
};

/// An IP address as big-endian numbers.
#[derive(Clone, Copy, Debug, PartialEq, Eq)]
pub enum Address {
    /// The 4 bytes of an IPv4 address.
    V4(u32),
    /// The upper 8 bytes of an IPv6 address, and the lower 8.
    V6(u64, u64),
}

/// An IPv4 or IPv6 datagram.
#[derive(Clone, Copy, Debug, PartialEq)]
pub struct IpDatagram<'a> {
    /// The source address.
    pub source: Address,
    /// The destination address.
    pub destination: Address,
    /// Whether the IPv4 header's checksum is correct; IPv6 has none.
    pub is_header_right: bool,
    /// The content.
    pub content: Content<'a>,
}

/// The lengths of an IPv4 header and of its datagram, in bytes, the type of service, and the sum of
/// the 16-bit words up to there.
#[derive(Clone, Copy)]
pub(crate) struct LengthsV4 {
    pub(crate) header: usize,
    pub(crate) service: u8,
    pub(crate) total: usize,
    pub(crate) words: u64,
}

/// The fields of an IPv4 header behind its lengths, and the sum of their words.
#[derive(Clone, Copy)]
pub(crate) struct FieldsV4 {
    /// The flags and the fragment offset.
    pub(crate) flags: u16,
    /// The protocol's number.
    pub(crate) protocol: u8,
    /// The source address.
    pub(crate) source: u32,
    /// The destination address.
    pub(crate) destination: u32,
    /// The sum of the 16-bit words.
    pub(crate) words: u64,
}

/// Fields of the first 8 bytes of an IPv6 header.
#[derive(Clone, Copy)]
pub(crate) struct FrontV6 {
    /// The payload length.
    pub(crate) len: u16,
    /// The number of the next header.
    pub(crate) next: u8,
    /// The ECN field.
    pub(crate) ecn: u8,
}

/// What follows an IPv6 header.
#[derive(Clone, Copy)]
enum Step {
    /// Another header, of this number.
    Next(u8),
    /// A fragment.
    Part,
    /// The datagram's content.
    Last,
}

/// The protocol number of the Authentication Header (RFC 4302, section 2).
pub(crate) const AUTHENTICATION: u8 = 51;

/// Parses the content of an unfragmented IPv4 datagram. An Authentication Header is skipped.
#[inline(always)]
fn protected(i: &[u8], protocol: u8) -> IResult<&[u8], Content>
    ensures { Gives view_content (protected_layout protocol) i.now result }
{
    if protocol == AUTHENTICATION {
        let (i, next) = parsed!(skipped(i, 4));
        return transport(i, next);
    }
    transport(i, protocol)
}

/// Parses the content of an unfragmented IPv4 datagram, all of `i`. If it doesn't fit, this is an
/// `Error` of kind `Complete`.
pub(crate) fn whole_protected(i: &[u8], protocol: u8) -> IResult<&[u8], Content>
    ensures { Gives view_content (complete (protected_layout protocol)) i.now result }
{
    match protected(i, protocol) {
        Err(Err::Incomplete(_)) => refused(i, ErrorKind::Complete),
        answer => answer,
    }
}

/// Parses the content of an IPv4 datagram. That of a fragment isn't read.
#[inline(always)]
fn content_v4(i: &[u8], flags: u16, protocol: u8) -> IResult<&[u8], Content>
    ensures { Gives view_content (content_v4_layout flags protocol) i.now result }
{
    if flags % 16384 >= 1 {
        return Ok((i, Content::Fragment));
    }
    protected(i, protocol)
}

/// Parses the content of an IPv4 datagram, all of `i`. If it doesn't fit, this is an `Error` of
/// kind `Complete`.
#[inline(always)]
fn whole_v4(i: &[u8], flags: u16, protocol: u8) -> IResult<&[u8], Content>
    ensures { Gives view_content (complete (content_v4_layout flags protocol)) i.now result }
{
    match content_v4(i, flags, protocol) {
        Err(Err::Incomplete(_)) => refused(i, ErrorKind::Complete),
        answer => answer,
    }
}

/// Parses the lengths of an IPv4 header and of its datagram, from the first 4 bytes.
#[tactic(auto, using(layouts::proofs::OneAnswerLemmas::read_allowed), unfolding(crate::specs::Ip::lengths_v4))]
#[inline(always)]
pub(crate) fn lengths_v4(i: &[u8]) -> IResult<&[u8], LengthsV4>
    ensures gives { Gives view_lengths_v4 lengths_v4_layout i.now result }
    ensures header { IfOk result (λ x. 20 ≤ x.1.header) }
    ensures total { IfOk result (λ x. (x.1.total ≡ 0) ⊎ (x.1.header ≤ x.1.total)) }
    ensures words { IfOk result (λ x. x.1.words < 2 ^ 20) }
{
    let (i, first) = parsed!(number1(i));
    if first / 16 != 4 {
        return refused(i, ErrorKind::Verify);
    }
    if first % 16 < 5 {
        return refused(i, ErrorKind::LengthValue);
    }
    let header = (first % 16) as usize * 4;
    let (i, service) = parsed!(number1(i));
    let (i, total) = parsed!(number2(i));
    if total != 0 && header > total as usize {
        return refused(i, ErrorKind::LengthValue);
    }
    let lengths = LengthsV4 {
        header,
        service,
        total: total as usize,
        words: u64::from(first) * 256 + u64::from(service) + u64::from(total),
    };
    Ok((i, lengths))
}

/// Returns the sum of the 16-bit words of an IPv4 header behind its lengths.
#[inline(always)]
fn words_v4(
    identification: u16,
    flags: u16,
    lifetime: u8,
    protocol: u8,
    checksum: u16,
    source: u32,
    destination: u32,
) -> u64
    ensures same { result ≡ identification + flags + (lifetime * 256 + protocol) + checksum
        + words4_of source + words4_of destination }
    ensures bound { result < 2 ^ 20 }
{
    let kind = u64::from(lifetime) * 256 + u64::from(protocol);
    u64::from(identification)
        + u64::from(flags)
        + kind
        + u64::from(checksum)
        + words4(source)
        + words4(destination)
}

/// Parses the fields of an IPv4 header behind its lengths, 16 bytes.
#[tactic(auto, using(layouts::proofs::OneAnswerLemmas::read_allowed), unfolding(crate::specs::Ip::fields_v4))]
#[inline(always)]
pub(crate) fn fields_v4(i: &[u8]) -> IResult<&[u8], FieldsV4>
    ensures gives { Gives view_fields_v4 fields_v4_layout i.now result }
    ensures words { IfOk result (λ x. x.1.words < 2 ^ 20) }
{
    let (i, identification) = parsed!(number2(i));
    let (i, flags) = parsed!(number2(i));
    let (i, lifetime) = parsed!(number1(i));
    let (i, protocol) = parsed!(number1(i));
    let (i, checksum) = parsed!(number2(i));
    let (i, source) = parsed!(number4(i));
    let (i, destination) = parsed!(number4(i));
    let fields = FieldsV4 {
        flags,
        protocol,
        source,
        destination,
        words: words_v4(
            identification,
            flags,
            lifetime,
            protocol,
            checksum,
            source,
            destination,
        ),
    };
    Ok((i, fields))
}

/// Parses the content of an IPv4 datagram behind its header. A total length of 0 means all of `i`.
#[tactic(auto, using(layouts::proofs::OneAnswerLemmas::read_allowed), unfolding(crate::specs::Ip::held_v4))]
#[inline(always)]
fn held_v4<'a>(i: &'a [u8], lengths: LengthsV4, fields: FieldsV4) -> IResult<&'a [u8], Content<'a>>
    requires { (lengths.total ≡ 0) ⊎ (lengths.header ≤ lengths.total) }
    ensures { Gives view_content
        (held_v4_layout lengths.header lengths.total
        (content_v4_layout fields.flags fields.protocol)) i.now result }
{
    if lengths.total == 0 {
        return whole_v4(i, fields.flags, fields.protocol);
    }
    let (i, held) = parsed!(block(i, lengths.total - lengths.header));
    let (_, content) = parsed!(whole_v4(held, fields.flags, fields.protocol));
    Ok((i, content))
}

/// Parses an IPv4 datagram (RFC 791, section 3.1): a header of 20 bytes, options, and the content
/// up to the total length. The rest is padding.
///
/// A total length of 0 comes from a datagram that was captured before the sender's network card
/// segmented it. It then ends with the captured bytes.
///
/// - `Incomplete`, with the count of missing bytes of the header or of the total length: the
///   datagram was truncated.
/// - `Error` of kind `Verify` if the version isn't 4.
/// - `Error` of kind `LengthValue` if the header's length is below 5 words or above the total
///   length, a TCP segment's data offset below 5 words, or a UDP datagram's length below 8.
/// - `Error` of kind `Complete` if a segment or UDP datagram doesn't fit in the total length.
#[tactic(auto, using(layouts::proofs::OneAnswerLemmas::read_allowed), unfolding(crate::specs::Ip::ipv4))]
#[inline(always)]
pub fn parse_ipv4(i: &[u8]) -> IResult<&[u8], IpDatagram>
    ensures { Gives view_datagram ipv4 i.now result }
{
    let (i, lengths) = parsed!(lengths_v4(i));
    let (i, fields) = parsed!(fields_v4(i));
    let (i, options) = parsed!(block(i, lengths.header - 20));
    let (i, content) = parsed!(held_v4(i, lengths, fields));
    let datagram = IpDatagram {
        source: Address::V4(fields.source),
        destination: Address::V4(fields.destination),
        is_header_right: is_right(lengths.words + fields.words + sum_of(options)),
        content,
    };
    Ok((i, datagram))
}

/// Skips an extension header, whose length counts words of `word` bytes. Returns the number of the
/// next header.
pub(crate) fn skipped(i: &[u8], word: usize) -> IResult<&[u8], u8>
    requires { word < 16 }
    ensures { Gives (λ v. v) (skipped_layout word) i.now result }
{
    let (i, next) = parsed!(number1(i));
    let (i, len) = parsed!(number1(i));
    let (i, _) = parsed!(block(i, len as usize * word + 6));
    Ok((i, next))
}

/// Parses an IPv6 Fragment header. If the fragment is the whole datagram, the next header follows.
fn fragment_header(i: &[u8]) -> IResult<&[u8], Step>
    ensures { Gives (λ v. v) fragment_header_layout i.now result }
{
    let (i, next) = parsed!(number1(i));
    let (i, _) = parsed!(block(i, 1));
    let (i, offset) = parsed!(number2(i));
    let (i, _) = parsed!(block(i, 4));
    if offset / 8 == 0 && offset % 2 == 0 {
        return Ok((i, Step::Next(next)));
    }
    Ok((i, Step::Part))
}

/// Returns whether a header of this number is an extension header whose length counts 8 bytes.
#[tactic(auto, unfolding(crate::specs::Ip::is_extension))]
pub(crate) fn is_extension(next: u8) -> bool
    ensures { result ≡ is_extension_number next }
{
    next == 0 || next == 43 || next == 60 || next == 135
}

/// Skips a header of the number `next` and returns what follows it.
fn step_at(i: &[u8], next: u8) -> IResult<&[u8], Step>
    ensures { Gives (λ v. v) (step_layout next) i.now result }
{
    if is_extension(next) {
        let (i, next) = parsed!(skipped(i, 8));
        return Ok((i, Step::Next(next)));
    }
    if next == AUTHENTICATION {
        let (i, next) = parsed!(skipped(i, 4));
        return Ok((i, Step::Next(next)));
    }
    if next == 44 {
        return fragment_header(i);
    }
    Ok((i, Step::Last))
}

/// Skips at most `most` extension headers and parses the content.
#[tactic(auto, using(layouts::proofs::OneAnswerLemmas::read_allowed, crate::proofs::HeadersLemmas::none_left, crate::proofs::HeadersLemmas::one_more))]
fn headers(i: &[u8], next: u8, most: u8) -> IResult<&[u8], Content>
    ensures { Gives view_content (headers_layout most next) i.now result }
{
    if most == 0 {
        return transport(i, next);
    }
    let (i, step) = parsed!(step_at(i, next));
    match step {
        Step::Next(further) => headers(i, further, most - 1),
        Step::Part => Ok((i, Content::Fragment)),
        Step::Last => transport(i, next),
    }
}

/// Skips at most 16 extension headers and parses the content, all of `i`. If it doesn't fit, this
/// is an `Error` of kind `Complete`.
pub(crate) fn whole_v6(i: &[u8], next: u8) -> IResult<&[u8], Content>
    ensures { Gives view_content (complete (headers_layout 16 next)) i.now result }
{
    match headers(i, next, 16) {
        Err(Err::Incomplete(_)) => refused(i, ErrorKind::Complete),
        answer => answer,
    }
}

/// Parses an IPv6 address, 16 bytes.
pub(crate) fn address_v6(i: &[u8]) -> IResult<&[u8], Address>
    ensures { Gives view_address address_v6_layout i.now result }
{
    let (i, upper) = parsed!(number8(i));
    let (i, lower) = parsed!(number8(i));
    Ok((i, Address::V6(upper, lower)))
}

/// Parses the first 8 bytes of an IPv6 header.
#[inline]
pub(crate) fn front_v6(i: &[u8]) -> IResult<&[u8], FrontV6>
    ensures { Gives (λ v. v) front_v6_layout i.now result }
{
    let (i, first) = parsed!(number1(i));
    if first / 16 != 6 {
        return refused(i, ErrorKind::Verify);
    }
    let (i, flow) = parsed!(number3(i));
    let (i, len) = parsed!(number2(i));
    let (i, next) = parsed!(number1(i));
    let (i, _) = parsed!(block(i, 1));
    let ecn = (flow / 1_048_576 % 4) as u8;
    Ok((i, FrontV6 { len, next, ecn }))
}

/// Parses the content of an IPv6 datagram, by the payload length and next header of its header.
#[tactic(auto, using(layouts::proofs::OneAnswerLemmas::read_allowed), unfolding(crate::specs::Ip::held_v6))]
fn held_v6(i: &[u8], len: u16, next: u8) -> IResult<&[u8], Content>
    ensures { Gives view_content (held_v6_layout len next) i.now result }
{
    if len == 0 && next == TCP {
        return whole_v6(i, next);
    }
    let (i, len) = parsed!(payload_length(i, len, next));
    let (i, held) = parsed!(block(i, len as usize));
    let (_, content) = parsed!(whole_v6(held, next));
    Ok((i, content))
}

/// Parses an IPv6 datagram (RFC 8200, section 3): a header of 40 bytes, at most 16 extension
/// headers, and the content up to the payload length. The rest is padding.
///
/// If the payload length is 0 and Hop-by-Hop Options follow, their jumbo payload option gives the
/// length (RFC 2675). A 17th extension header is read as `Other`. A payload length of 0 before TCP
/// comes from a datagram that was captured before the sender's network card segmented it. It then
/// ends with the captured bytes.
///
/// - `Incomplete`, with the count of missing bytes of the header or of the payload length: the
///   datagram was truncated.
/// - `Error` of kind `Verify` if the version isn't 6.
/// - `Error` of kind `LengthValue` if a TCP segment's data offset is below 5 words, a UDP
///   datagram's length below 8, or a jumbo payload option isn't 4 bytes long or gives less than
///   65,536.
/// - `Error` of kind `Complete` if an extension header, a segment or a UDP datagram doesn't fit in
///   the payload length, or if the options that should give the length have no jumbo payload.
#[tactic(auto, using(layouts::proofs::OneAnswerLemmas::read_allowed), unfolding(crate::specs::Ip::ipv6))]
pub fn parse_ipv6(i: &[u8]) -> IResult<&[u8], IpDatagram>
    ensures { Gives view_datagram ipv6 i.now result }
{
    let (i, front) = parsed!(front_v6(i));
    let (i, source) = parsed!(address_v6(i));
    let (i, destination) = parsed!(address_v6(i));
    let (i, content) = parsed!(held_v6(i, front.len, front.next));
    let datagram = IpDatagram {
        source,
        destination,
        is_header_right: true,
        content,
    };
    Ok((i, datagram))
}
