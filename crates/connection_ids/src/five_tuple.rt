//! The input of the identifiers.
ghost use Rattle.std.specs.Prelude.{◌≡◌};
ghost use Rattle.connection_ids.specs.FiveTuple.{protocol_number as protocol_number_of};

use connections::Protocol;

/// Returns a protocol's number in the IP header (IANA's registry of protocol numbers).
pub(crate) fn protocol_number(protocol: Protocol) -> u8
    ensures { result ≡ protocol_number_of protocol }
{
    match protocol {
        Protocol::Tcp => 6,
        Protocol::Udp => 17,
    }
}
