//! The checksums of IPv4, TCP and UDP (RFC 1071).
ghost use Rattle.std.specs.Prelude.{◌≡◌, ◌<◌, ◌+◌, ◌*◌, ◌%◌, ◌^◌, ◌∷◌, [], length};
ghost use Rattle.std.specs.Int.{w32, from_le_bytes};
ghost use Rattle.capture.specs.Words.{words as words_of, words4 as words4_of, words8 as words8_of, is_right as is_sum_right};
ghost use Rattle.capture.specs.Checksum.{address_words as address_words_of, pseudo_words as pseudo_words_of, checksum_by as checksum_by_sums};
ghost use Rattle.capture.specs.Checksum.{segment_words as segment_words_of, segment_length as segment_length_of, user_words as user_words_of};
ghost use Rattle.capture.specs.Checksum.{checksum_without as checksum_without_of, content_checksum, checksum_of as checksum_in};
ghost use Rattle.capture.specs.Ip.{view_address, view_datagram as view};
ghost use Rattle.capture.specs.Transport.{Tcp, Udp, view_segment, view_datagram};

use crate::ip::{Address, IpDatagram};
use crate::transport::{Content, TCP, TcpSegment, UDP, UdpDatagram};

/// Returns whether words with this sum contain a correct checksum.
pub(crate) fn is_right(sum: u64) -> bool
    ensures { result ≡ is_sum_right sum }
{
    sum % 0xffff == 0
}

/// Adds the upper half of a sum to its lower half. The result is the same modulo 65,535.
#[inline]
fn folded(sum: u64) -> u64
    ensures same { result % 65535 ≡ sum % 65535 }
    ensures bound { result < 2 ^ 33 }
{
    sum / 0x1_0000_0000 + sum % 0x1_0000_0000
}

/// Inputs shorter than this, in bytes, are added up without an overflow check for each addition.
/// Every packet is shorter.
const MOST_BYTES: usize = 0x1_0000_0000;

/// Returns the number in 4 bytes, little-endian.
#[inline(always)]
fn four(a: u8, b: u8, c: u8, d: u8) -> u64
    ensures same { result ≡ from_le_bytes w32 (a ∷ b ∷ c ∷ d ∷ []) }
    ensures bound { result < 2 ^ 32 }
{
    u64::from(u32::from_le_bytes([a, b, c, d]))
}

/// Returns the byte-swapped sum of the words at the front (RFC 1071, section 2), and the bytes
/// behind them.
///
/// Two words are added at once, since 2^16 is 1 modulo 65,535. The four sums let LLVM use two
/// vector registers.
fn sum_of_sixteens(bytes: &[u8]) -> (u64, &[u8])
    ensures same { (result.0 * 256 + words_of result.1.now) % 65535 ≡ words_of bytes.now % 65535 }
    ensures bound { result.0 < 2 ^ 62 }
{
    if bytes.len() >= MOST_BYTES {
        return (0, bytes);
    }
    let (mut first, mut second, mut third, mut fourth) = (0_u64, 0_u64, 0_u64, 0_u64);
    let mut rest = bytes;
    'sixteens: while let [a, b, c, d, e, f, g, h, i, j, k, l, m, n, o, p, behind @ ..] = rest {
        first += four(*a, *b, *c, *d);
        second += four(*e, *f, *g, *h);
        third += four(*i, *j, *k, *l);
        fourth += four(*m, *n, *o, *p);
        rest = behind;
    }
    (first + second + third + fourth, rest)
}

/// Returns a number that equals the sum of the words of `bytes` modulo 65,535.
pub(crate) fn sum_of(bytes: &[u8]) -> u64
    ensures same { result % 65535 ≡ words_of bytes.now % 65535 }
    ensures bound { result < 2 ^ 34 }
{
    let (sum, mut rest) = sum_of_sixteens(bytes);
    let mut total = folded(folded(sum) * 256);
    'fours: while let [a, b, c, d, behind @ ..] = rest {
        total = folded(total + four(*a, *b, *c, *d) * 256);
        rest = behind;
    }
    'twos: while let [a, b, behind @ ..] = rest {
        total = folded(total + u64::from(u16::from_be_bytes([*a, *b])));
        rest = behind;
    }
    match rest {
        [a] => total + u64::from(*a) * 256,
        _ => total,
    }
}

/// Returns the sum of the two 16-bit words of `n`.
#[inline]
pub(crate) fn words4(n: u32) -> u64
    ensures { result ≡ words4_of n }
{
    u64::from(n / 0x1_0000) + u64::from(n % 0x1_0000)
}

/// Returns the sum of the four 16-bit words of `n`.
#[inline]
fn words8(n: u64) -> u64
    ensures same { result ≡ words8_of n }
    ensures bound { result < 2 ^ 18 }
{
    words4((n / 0x1_0000_0000) as u32) + words4((n % 0x1_0000_0000) as u32)
}

/// Returns the sum of the 16-bit words of an address.
fn address_words(address: Address) -> u64
    ensures same { result ≡ address_words_of (view_address address) }
    ensures bound { result < 2 ^ 19 }
{
    match address {
        Address::V4(n) => words4(n),
        Address::V6(upper, lower) => words8(upper) + words8(lower),
    }
}

/// The result of a checksum's verification.
#[derive(Clone, Copy, Debug, PartialEq, Eq)]
pub enum Checksum {
    /// The checksum is correct, or there is none to verify.
    Right,
    /// It equals the sum of the pseudo-header alone, which the sender's network card completes. The
    /// packet was captured before that, on the sender's own machine, or behind a network card that
    /// coalesces packets.
    Partial,
    /// The checksum is wrong, or the IPv4 header's is.
    Wrong,
}

/// Verifies a checksum, given the sum of the pseudo-header and the sum of the words of header and
/// data.
#[tactic(auto, unfolding(crate::specs::Checksum::checksum_by))]
fn checksum_by(pseudo: u64, words: u64, checksum: u16) -> Checksum
    requires { (pseudo < 2 ^ 40) × (words < 2 ^ 40) }
    ensures { result ≡ checksum_by_sums pseudo words checksum }
{
    if is_right(pseudo + words) {
        return Checksum::Right;
    }
    if u64::from(checksum) % 0xffff == pseudo % 0xffff {
        return Checksum::Partial;
    }
    Checksum::Wrong
}

/// Returns the result for a UDP datagram without a checksum, by the version of its source address.
fn checksum_without(source: Address) -> Checksum
    ensures { result ≡ checksum_without_of (view_address source) }
{
    match source {
        Address::V4(_) => Checksum::Right,
        Address::V6(_, _) => Checksum::Wrong,
    }
}

/// Returns a number that equals the sum of a segment's words modulo 65,535.
fn segment_words(segment: &TcpSegment<'_>) -> u64
    ensures same { result % 65535 ≡ segment_words_of (view_segment segment.now) % 65535 }
    ensures bound { result < 2 ^ 36 }
{
    let numbers = u64::from(segment.source)
        + u64::from(segment.destination)
        + words4(segment.sequence)
        + words4(segment.acknowledgment);
    let control = u64::from(segment.offset) * 256
        + u64::from(segment.flags)
        + u64::from(segment.window)
        + u64::from(segment.checksum)
        + u64::from(segment.urgent_pointer);
    numbers + control + sum_of(segment.options) + sum_of(segment.payload)
}

/// Returns a number that equals a segment's length in bytes modulo 65,535.
fn segment_length(segment: &TcpSegment<'_>) -> u64
    ensures same { result % 65535 ≡ segment_length_of (view_segment segment.now) % 65535 }
    ensures bound { result < 2 ^ 35 }
{
    20 + folded(segment.options.len() as u64) + folded(segment.payload.len() as u64)
}

/// Returns a number that equals the sum of a UDP datagram's words modulo 65,535.
fn user_words(datagram: &UdpDatagram<'_>) -> u64
    ensures same { result % 65535 ≡ user_words_of (view_datagram datagram.now) % 65535 }
    ensures bound { result < 2 ^ 35 }
{
    let header = u64::from(datagram.source)
        + u64::from(datagram.destination)
        + u64::from(datagram.length)
        + u64::from(datagram.checksum);
    header + sum_of(datagram.payload)
}

impl IpDatagram<'_> {
    /// Returns the sum of the pseudo-header's words: both addresses, the protocol, and the length
    /// of header and data.
    fn pseudo_words(&self, protocol: u8, length: u64) -> u64
        requires { length < 2 ^ 35 }
        ensures same { result ≡ pseudo_words_of (view self.now) protocol length }
        ensures bound { result < 2 ^ 36 }
    {
        let addresses = address_words(self.source) + address_words(self.destination);
        addresses + (u64::from(protocol) + (length / 0x1_0000 + length % 0x1_0000))
    }

    /// Verifies the checksum of a TCP segment in this datagram.
    fn checksum_of_segment(&self, segment: &TcpSegment<'_>) -> Checksum
        ensures { result ≡ content_checksum (view self.now) (Tcp (view_segment segment.now)) }
    {
        let pseudo = self.pseudo_words(TCP, segment_length(segment));
        checksum_by(pseudo, segment_words(segment), segment.checksum)
    }

    /// Verifies the checksum of a UDP datagram in this datagram.
    fn checksum_of_user_datagram(&self, datagram: &UdpDatagram<'_>) -> Checksum
        ensures { result ≡ content_checksum (view self.now) (Udp (view_datagram datagram.now)) }
    {
        if datagram.checksum == 0 {
            return checksum_without(self.source);
        }
        let pseudo = self.pseudo_words(UDP, u64::from(datagram.length));
        checksum_by(pseudo, user_words(datagram), datagram.checksum)
    }

    /// Verifies the checksums of the IPv4 header (RFC 791, section 3.1) and of the TCP segment (RFC
    /// 9293, section 3.1) or UDP datagram (RFC 768; RFC 8200, section 8.1) that it holds.
    ///
    /// A fragment and another protocol have no checksum to verify. A UDP datagram without one is
    /// `Right` over IPv4, and `Wrong` over IPv6, where hosts drop it.
    pub fn checksum(&self) -> Checksum
        ensures { result ≡ checksum_in (view self.now) }
    {
        if !self.is_header_right {
            return Checksum::Wrong;
        }
        match &self.content {
            Content::Tcp(segment) => self.checksum_of_segment(segment),
            Content::Udp(datagram) => self.checksum_of_user_datagram(datagram),
            Content::Fragment | Content::Other(_, _) => Checksum::Right,
        }
    }
}
