//! What a packet brings to a connection: a TCP segment or a UDP datagram.
ghost use Rattle.std.specs.Prelude.{◌≡◌, false, IfSome, Some};
ghost use Rattle.capture.specs.Checksum.{checksum_of as checksum_in};
ghost use Rattle.capture.specs.Ip.{view_address, view_datagram};
ghost use Rattle.capture.specs.Options.{timestamp as timestamp_in};
ghost use Rattle.arrivals.specs.Arrival.{IsAddress, counted_as, datagram_in, five_tuple_in, is_signed as is_signed_by, options_in, segment_in, source_of, time_of};
ghost use Rattle.arrivals.specs.Reader.{IsEnd};

use capture::{
    Address, TcpSegment, UdpDatagram, maximum_segment_size, option_of, timestamp, window_scale,
};
use connections::{Checksum, Datagram, End, FiveTuple, Options, Segment};
use std::net::{IpAddr, Ipv4Addr, Ipv6Addr};

/// The weight of the SYN flag (RFC 9293, section 3.1).
const SYN: u8 = 2;

/// The kind of SACK-Permitted, with which an end accepts selective acknowledgements (RFC 2018,
/// section 2).
const SACK_PERMITTED: u8 = 4;

/// The kinds of No-Operation (RFC 9293, section 3.2) and of Timestamps (RFC 7323, section 3.2).
const PADDING: u8 = 1;

const TIMESTAMPS: u8 = 8;

/// The kind of the option that signs a segment (RFC 2385, section 3).
const MD5_SIGNATURE: u8 = 19;

/// The length of a signature in bytes.
const SIGNATURE_LEN: usize = 16;

/// Which checksums count.
#[derive(Clone, Copy, Debug, PartialEq, Eq)]
pub enum Checksums {
    /// Those of a sender with a correct or partial one among its first packets.
    Auto,
    /// All.
    Check,
    /// None.
    Ignore,
}

/// What a packet brings to a connection.
#[derive(Clone, Copy)]
pub enum Arrival<'a> {
    /// A TCP segment.
    Segment(Segment<'a>),
    /// A UDP datagram.
    Datagram(Datagram<'a>),
}

impl<'a> Arrival<'a> {
    /// Returns the capture time, in nanoseconds since 1970-01-01 00:00 UTC.
    pub fn time(&self) -> u64
        ensures { result ≡ time_of self.now }
    {
        match self {
            Arrival::Segment(segment) => segment.time,
            Arrival::Datagram(datagram) => datagram.time,
        }
    }

    /// Returns the sender.
    pub fn source(&self) -> End
        ensures { result ≡ source_of self.now }
    {
        match self {
            Arrival::Segment(segment) => segment.source,
            Arrival::Datagram(datagram) => datagram.source,
        }
    }

    /// Returns the five-tuple.
    pub fn between(&self) -> FiveTuple
        ensures { result ≡ five_tuple_in self.now }
    {
        match self {
            Arrival::Segment(segment) => segment.between(),
            Arrival::Datagram(datagram) => datagram.between(),
        }
    }
}

/// Converts an address.
fn address(address: Address) -> IpAddr
    ensures { IsAddress (view_address address) result }
{
    match address {
        Address::V4(n) => IpAddr::V4(Ipv4Addr::from_bits(n)),
        Address::V6(upper, lower) => {
            IpAddr::V6(Ipv6Addr::from_bits(u128::from(upper) << 64 | u128::from(lower)))
        }
    }
}

/// Returns an end with this address and port.
pub(crate) fn end(address_there: Address, port: u16) -> End
    ensures { IsEnd (view_address address_there) port result }
{
    End {
        address: address(address_there),
        port,
    }
}

/// Returns the timestamp of a segment without other options, in the form that hosts send (RFC 7323,
/// appendix A). Most segments have it.
fn clock_alone(options: &[u8]) -> Option<u32>
    ensures clock { IfSome result (λ clock. timestamp_in options.now ≡ Some clock) }
    ensures alone { IfSome result (λ clock. is_signed_by options.now ≡ false) }
{
    match options {
        [PADDING, PADDING, TIMESTAMPS, 10, a, b, c, d, _, _, _, _] => {
            Some(u32::from_be_bytes([*a, *b, *c, *d]))
        }
        _ => None,
    }
}

/// Returns whether a segment is signed. An option of another length is no signature, and a host
/// without TCP-AO ignores its option (RFC 9293, section 3.1).
fn is_signed(options: &[u8]) -> bool
    ensures { result ≡ is_signed_by options.now }
{
    match option_of(options, MD5_SIGNATURE) {
        Some(content) => content.len() == SIGNATURE_LEN,
        None => false,
    }
}

/// Returns the options of a segment, each by a search. Those that only a SYN may have are looked up
/// only in a SYN (RFC 9293, section 3.7.1; RFC 7323, section 2.2; RFC 2018, section 2).
fn options_one_by_one(options: &[u8], is_syn: bool) -> Options
    ensures { result ≡ options_in is_syn options.now }
{
    let clock = timestamp(options);
    let is_signed = is_signed(options);
    if !is_syn {
        return Options {
            scale: None,
            clock,
            size: None,
            selects: false,
            is_signed,
        };
    }
    Options {
        scale: window_scale(options),
        clock,
        size: maximum_segment_size(options),
        selects: option_of(options, SACK_PERMITTED).is_some(),
        is_signed,
    }
}

/// Returns the options of a segment.
#[inline(always)]
fn options_of(options: &[u8], is_syn: bool) -> Options
    ensures { result ≡ options_in is_syn options.now }
{
    if let (false, Some(clock)) = (is_syn, clock_alone(options)) {
        return Options {
            scale: None,
            clock: Some(clock),
            size: None,
            selects: false,
            is_signed: false,
        };
    }
    // (field by field: as a whole they would go through memory)
    let Options {
        scale,
        clock,
        size,
        selects,
        is_signed,
    } = options_one_by_one(options, is_syn);
    Options {
        scale,
        clock,
        size,
        selects,
        is_signed,
    }
}

/// Returns the result for a packet's checksums, as far as they count.
pub(crate) fn checksum_of(datagram: &capture::IpDatagram<'_>, checksums: Checksums) -> Checksum
    ensures { result ≡ counted_as checksums (checksum_in (view_datagram datagram.now)) }
{
    if checksums == Checksums::Ignore {
        return Checksum::Right;
    }
    match (datagram.checksum(), checksums) {
        (capture::Checksum::Right, _) => Checksum::Right,
        (_, Checksums::Check) => Checksum::Refused,
        (capture::Checksum::Partial, _) => Checksum::Partial,
        (capture::Checksum::Wrong, _) => Checksum::Wrong,
    }
}

/// Returns a segment with its ends and its time.
#[inline(always)]
pub(crate) fn segment_of<'a>(
    time: u64,
    network: u64,
    source: End,
    destination: End,
    tcp: &TcpSegment<'a>,
    checksum: Checksum,
) -> Segment<'a>
    ensures { result ≡ segment_in time network source destination tcp.now checksum }
{
    Segment {
        time,
        network,
        source,
        destination,
        sequence: tcp.sequence,
        acknowledgment: tcp.acknowledgment,
        flags: tcp.flags,
        window: tcp.window,
        urgent_pointer: tcp.urgent_pointer,
        options: options_of(tcp.options, tcp.flags / SYN % 2 == 1),
        checksum,
        payload: tcp.payload,
    }
}

/// Returns a datagram with its ends and its time.
pub(crate) fn datagram_of<'a>(
    time: u64,
    network: u64,
    source: End,
    destination: End,
    udp: &UdpDatagram<'a>,
    checksum: Checksum,
) -> Datagram<'a>
    ensures { result ≡ datagram_in time network source destination udp.now checksum }
{
    Datagram {
        time,
        network,
        source,
        destination,
        checksum,
        payload: udp.payload,
    }
}
