//! Who sends a datagram, by the hello that it begins with.
ghost use Rattle.std.specs.Prelude.{◌≡◌};
ghost use Rattle.raw_records.specs.RawDtlsRecord.{view_raw_record};
ghost use Rattle.tls_summary.specs.HandshakeSummary.{view_summary};
ghost use Rattle.dtls_analyzer.specs.Datagrams.{first_fragment as first_in};
ghost use Rattle.dtls_analyzer.specs.Senders.{decides as decides_in, deciding as deciding_in, direction_of_fragment, direction_of_type as by_type, hello_direction as by_hello};

use crate::datagram_records::is_known;
use crate::datagram_side::first_fragment;
use raw_records::{DTLSRawRecord, read_record};
use tls_flow::Direction;
use tls_summary::HandshakeSummary;

/// The direction of a hello by its type.
fn direction_of_type(msg_type: u8) -> Option<Direction>
    ensures { result ≡ by_type msg_type }
{
    match msg_type {
        1 => Some(Direction::ToServer),
        2 | 3 => Some(Direction::FromServer),
        _ => None,
    }
}

/// The direction of the hello that a record begins with.
fn direction_of_record(record: &DTLSRawRecord<'_>) -> Option<Direction>
    ensures { result ≡ direction_of_fragment (first_in (view_raw_record record.now)) }
{
    match first_fragment(record) {
        Some(fragment) => direction_of_type(fragment.msg_type.0),
        None => None,
    }
}

/// Returns the direction of a datagram by the cleartext hello that it begins with: a ClientHello
/// goes to the server, a ServerHello or HelloVerifyRequest comes from it (RFC 6347, section 4.2.2).
/// `None` if it begins with anything else.
///
/// A caller that doesn't know which side is the client passes the first hello of a conversation,
/// even if other datagrams came before it, such as those of CAPWAP (RFC 5415) in the clear.
pub fn hello_direction(datagram: &[u8]) -> Option<Direction>
    ensures { result ≡ by_hello datagram.now }
{
    match read_record(datagram) {
        Ok((_, record)) => {
            if is_known(&record.header) && record.header.epoch == 0 {
                return direction_of_record(&record);
            }
            None
        }
        Err(_) => None,
    }
}

/// Whether a hello in this direction shows which side is the client, behind the messages of this
/// summary.
fn decides(direction: Direction, handshake: &HandshakeSummary) -> bool
    ensures { result ≡ decides_in direction (view_summary handshake.now) }
{
    match direction {
        Direction::ToServer => !handshake.client.is_some(),
        Direction::FromServer => !handshake.client.is_some() && !handshake.server.is_some(),
    }
}

/// The direction of a hello, if it shows which side is the client.
pub(crate) fn deciding(
    direction: Option<Direction>,
    handshake: &HandshakeSummary,
) -> Option<Direction>
    ensures { result ≡ deciding_in direction (view_summary handshake.now) }
{
    match direction {
        Some(direction) => {
            if decides(direction, handshake) {
                Some(direction)
            } else {
                None
            }
        }
        None => None,
    }
}
