//! TCP segments.
ghost use Rattle.std.specs.Prelude.{◌≡◌, ◌<◌};
ghost use Rattle.connections.specs.Segment.{has_flag as is_set, ends, begins, breaks, acknowledges, asks, answers, first_of, behind_of, end_with_fin, five_tuple_of, begins_stream, begins_one, has_data, takes_numbers, urgent_of, data_of_syn, bytes_alone, without_flag as without_flag_of, header_of, without_fin as without_fin_of, IsWithoutData};

use crate::five_tuple::{End, FiveTuple, Protocol};

/// The sender's last segment (RFC 9293, section 3.1).
const FIN: u8 = 0x01;

/// The sender's first segment.
const SYN: u8 = 0x02;

/// The sender resets the connection.
const RST: u8 = 0x04;

/// The acknowledgement number is valid.
const ACK: u8 = 0x10;

/// The urgent pointer is valid.
const URG: u8 = 0x20;

/// The result for the checksums of a packet.
#[derive(Clone, Copy, Debug, PartialEq, Eq)]
pub enum Checksum {
    /// The checksums are correct.
    Right,
    /// The segment's checksum equals the sum of the pseudo-header. The sender's network card
    /// completes it behind the capture, or the receiver's coalesced several segments before it.
    Partial,
    /// A checksum is wrong.
    Wrong,
    /// A checksum is wrong, and counts as wrong whatever those of the sender's first packets were.
    Refused,
}

/// The options of a segment.
#[derive(Clone, Copy, Debug, PartialEq, Eq)]
pub struct Options {
    /// The window shift in bits (RFC 7323, section 2).
    pub scale: Option<u8>,
    /// The sender's timestamp (RFC 7323, section 3).
    pub clock: Option<u32>,
    /// The maximum segment size (RFC 9293, section 3.7.1).
    pub size: Option<u16>,
    /// Whether the sender accepts selective acknowledgements (RFC 2018, section 2).
    pub selects: bool,
    /// Whether the segment is signed (RFC 2385).
    pub is_signed: bool,
}

/// A captured TCP segment.
#[derive(Clone, Copy, Debug)]
pub struct Segment<'a> {
    /// The capture time, in nanoseconds since 1970-01-01 00:00 UTC.
    pub time: u64,
    /// The number of the packet's network; 0 if networks aren't distinguished.
    pub network: u64,
    /// The sender.
    pub source: End,
    /// The receiver.
    pub destination: End,
    /// The sequence number of the first byte; with SYN, that of the SYN.
    pub sequence: u32,
    /// If ACK is set, the sequence number that the sender expects next.
    pub acknowledgment: u32,
    /// CWR, ECE, URG, ACK, PSH, RST, SYN, FIN, from bit 7 to bit 0 (RFC 9293, section 3.1).
    pub flags: u8,
    /// The receive window in bytes, before scaling (RFC 7323, section 2).
    pub window: u16,
    /// With URG, the distance from the first byte's number to the one behind the urgent byte. 0 is
    /// treated as 1 (RFC 6093, section 3).
    pub urgent_pointer: u16,
    /// The options.
    pub options: Options,
    /// The result for its checksum and that of the IP header.
    pub checksum: Checksum,
    /// The data.
    pub payload: &'a [u8],
}

/// A segment without its data.
#[derive(Clone, Copy, Debug)]
pub(crate) struct Header {
    time: u64,
    network: u64,
    pub(crate) source: End,
    pub(crate) destination: End,
    pub(crate) sequence: u32,
    pub(crate) acknowledgment: u32,
    flags: u8,
    window: u16,
    urgent_pointer: u16,
    options: Options,
    checksum: Checksum,
}

impl Header {
    /// Returns a segment with this data.
    pub(crate) fn with_data(self, payload: &[u8]) -> Segment<'_>
        ensures header { header_of result ≡ self }
        ensures data { result.payload.now ≡ payload.now }
    {
        Segment {
            time: self.time,
            network: self.network,
            source: self.source,
            destination: self.destination,
            sequence: self.sequence,
            acknowledgment: self.acknowledgment,
            flags: self.flags,
            window: self.window,
            urgent_pointer: self.urgent_pointer,
            options: self.options,
            checksum: self.checksum,
            payload,
        }
    }

    /// Returns the header with FIN cleared.
    pub(crate) fn without_fin(self) -> Header
        ensures { result ≡ without_fin_of self }
    {
        Header {
            flags: self.flags - self.flags % 2,
            ..self
        }
    }
}

/// Returns whether the flag of this weight is set.
fn has_flag(segment: &Segment<'_>, weight: u8) -> bool
    requires { 0 < weight }
    ensures { result ≡ is_set weight segment.now }
{
    segment.flags / weight % 2 == 1
}

/// Returns flags with the one of this weight cleared.
fn without_flag(flags: u8, weight: u8) -> u8
    requires { 0 < weight }
    ensures { result ≡ without_flag_of weight flags }
{
    if flags / weight % 2 == 1 {
        flags.saturating_sub(weight)
    } else {
        flags
    }
}

impl<'a> Segment<'a> {
    /// Returns the five-tuple.
    pub fn between(&self) -> FiveTuple
        ensures { result ≡ five_tuple_of self.now }
    {
        FiveTuple::between(self.network, Protocol::Tcp, self.source, self.destination)
    }

    /// Returns whether SYN is set.
    pub fn begins(&self) -> bool
        ensures { result ≡ begins self.now }
    {
        has_flag(self, SYN)
    }

    /// Returns whether it asks for a connection: SYN without ACK.
    pub fn asks(&self) -> bool
        ensures { result ≡ asks self.now }
    {
        self.begins() && !self.acknowledges()
    }

    /// Returns whether it is a SYN-ACK.
    pub fn answers(&self) -> bool
        ensures { result ≡ answers self.now }
    {
        self.begins() && self.acknowledges()
    }

    /// Returns whether FIN is set.
    pub fn ends(&self) -> bool
        ensures { result ≡ ends self.now }
    {
        has_flag(self, FIN)
    }

    /// Returns whether RST is set.
    pub fn breaks(&self) -> bool
        ensures { result ≡ breaks self.now }
    {
        has_flag(self, RST)
    }

    /// Returns whether ACK is set.
    pub fn acknowledges(&self) -> bool
        ensures { result ≡ acknowledges self.now }
    {
        has_flag(self, ACK)
    }

    /// Returns whether a stream may begin with it: it has a SYN, or more than one byte of data. A
    /// single byte may be a keep-alive, which the receiver already has (RFC 9293, section 3.8.4).
    pub(crate) fn begins_stream(&self) -> bool
        ensures { result ≡ begins_stream self.now }
    {
        self.begins() || self.payload.len() > 1
    }

    /// Returns whether a connection may begin with it: it is a SYN or a SYN-ACK without FIN, or has
    /// data that its receiver may take.
    pub(crate) fn begins_one(&self) -> bool
        ensures { result ≡ begins_one self.now }
    {
        !self.breaks()
            && !(self.begins() && self.ends())
            && self.checksum != Checksum::Refused
            && (self.begins() || self.acknowledges())
            && self.begins_stream()
    }

    /// Returns the segment without its data.
    pub(crate) fn without_data(&self) -> Segment<'static>
        ensures { IsWithoutData self.now result }
    {
        self.header().with_data(&[])
    }

    /// Returns the header.
    pub(crate) fn header(&self) -> Header
        ensures { result ≡ header_of self.now }
    {
        Header {
            time: self.time,
            network: self.network,
            source: self.source,
            destination: self.destination,
            sequence: self.sequence,
            acknowledgment: self.acknowledgment,
            flags: self.flags,
            window: self.window,
            urgent_pointer: self.urgent_pointer,
            options: self.options,
            checksum: self.checksum,
        }
    }

    /// Returns whether it has data.
    pub fn has_data(&self) -> bool
        ensures { result ≡ has_data self.now }
    {
        !self.payload.is_empty()
    }

    /// Returns whether it occupies sequence numbers behind its first: it has data or a FIN.
    pub(crate) fn takes_numbers(&self) -> bool
        ensures { result ≡ takes_numbers self.now }
    {
        self.has_data() || self.ends()
    }

    /// Returns the number of the urgent byte if URG is set. It is the one before the number to
    /// which the pointer points, and is not part of the data (RFC 6093, section 3).
    pub(crate) fn urgent(&self) -> Option<u32>
        ensures { result ≡ urgent_of self.now }
    {
        if !has_flag(self, URG) {
            return None;
        }
        let ahead = u32::from(self.urgent_pointer).saturating_sub(1);
        Some(self.first().wrapping_add(ahead))
    }

    /// Returns the segment with FIN and URG cleared.
    pub(crate) fn bytes_alone(&self) -> Segment<'a>
        ensures { result ≡ bytes_alone self.now }
    {
        Segment {
            flags: without_flag(without_flag(self.flags, FIN), URG),
            ..*self
        }
    }

    /// Returns the data of a SYN as a separate segment.
    pub(crate) fn data_of_syn(&self) -> Segment<'a>
        ensures { result ≡ data_of_syn self.now }
    {
        Segment {
            sequence: self.first(),
            flags: ACK,
            ..*self
        }
    }

    /// Returns the number behind all that it occupies, a FIN included.
    pub fn end(&self) -> u32
        ensures { result ≡ end_with_fin self.now }
    {
        if self.ends() {
            return self.behind().wrapping_add(1);
        }
        self.behind()
    }

    /// Returns the number of the first data byte. A SYN occupies one number before it.
    pub fn first(&self) -> u32
        ensures { result ≡ first_of self.now }
    {
        if self.begins() {
            return self.sequence.wrapping_add(1);
        }
        self.sequence
    }

    /// Returns the number behind the last data byte.
    pub fn behind(&self) -> u32
        ensures { result ≡ behind_of self.now }
    {
        self.first()
            .wrapping_add((self.payload.len() % 0x1_0000_0000) as u32)
    }
}
