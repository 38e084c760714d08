//! UDP datagrams.
ghost use Rattle.std.specs.Prelude.{◌≡◌};
ghost use Rattle.connections.specs.Datagram.{five_tuple_of_datagram};

use crate::five_tuple::{End, FiveTuple, Protocol};
use crate::segment::Checksum;

/// A captured UDP datagram (RFC 768).
#[derive(Clone, Copy, Debug)]
pub struct Datagram<'a> {
    /// The capture time, in nanoseconds since 1970-01-01 00:00 UTC.
    pub time: u64,
    /// The number of the packet's network; 0 if networks aren't distinguished.
    pub network: u64,
    /// The sender.
    pub source: End,
    /// The receiver.
    pub destination: End,
    /// The result for its checksum and that of the IP header.
    pub checksum: Checksum,
    /// The data.
    pub payload: &'a [u8],
}

impl<'a> Datagram<'a> {
    /// Returns the five-tuple.
    pub fn between(&self) -> FiveTuple
        ensures { result ≡ five_tuple_of_datagram self.now }
    {
        FiveTuple::between(self.network, Protocol::Udp, self.source, self.destination)
    }
}
