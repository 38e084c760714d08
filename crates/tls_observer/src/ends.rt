//! How a handshake ended.
ghost use Rattle.std.specs.Prelude.{◌≡◌};
ghost use Rattle.std.specs.Option.{option_map};
ghost use Rattle.tls_summary.specs.HandshakeSummary.{view_summary};
ghost use Rattle.tls_stream.specs.FlowEvents.{view_stream_event};
ghost use Rattle.tls_observer.specs.Noting.{data_length, is_handshake as is_message, longest_after as longest_by, may_be_early as early_by, sealed_length};
ghost use Rattle.tls_observer.specs.Ends.{awaits as awaits_by, can_be_finished as can_be, finished_length, has_finished as finished_by, hash_length, is_13 as is_13_by, is_complete as complete_by, is_established as established_by, is_resumed as resumed_by, tag_length};

use tls_base::TlsCipherSuiteID;
use tls_flow::{Direction, Outcome};
use tls_stream::{Event, SideEvent};
use tls_summary::HandshakeSummary;

/// The header of a handshake message of TLS, in bytes (RFC 8446, section 4).
pub const MESSAGE_HEADER: u8 = 4;

/// The header of a handshake message of DTLS, in bytes (RFC 9147, section 5.2).
pub const DATAGRAM_MESSAGE_HEADER: u8 = 12;

/// Whether the visible part of a handshake is complete. In TLS 1.3 it ends with the ServerHello.
pub fn is_complete(outcome: Outcome) -> bool
    ensures { result ≡ complete_by outcome }
{
    matches!(
        outcome,
        Outcome::Full | Outcome::Resumed | Outcome::Tls13 { .. }
    )
}

/// Whether TLS 1.3 or DTLS 1.3 was negotiated.
pub fn is_13(outcome: Outcome) -> bool
    ensures { result ≡ is_13_by outcome }
{
    matches!(outcome, Outcome::Tls13 { .. })
}

/// The bytes of the hash of a TLS 1.3 suite.
fn hash_len(suite: u16) -> u8
    ensures { result ≡ hash_length suite }
{
    match suite {
        0x1302 | 0xc0b5 => 48,
        _ => 32,
    }
}

/// The bytes that the AEAD of a TLS 1.3 suite adds.
fn tag_len(suite: u16) -> u8
    ensures { result ≡ tag_length suite }
{
    match suite {
        0x1305 | 0xc104 | 0xc106 => 8,
        0xc0b4 => 32,
        0xc0b5 => 48,
        _ => 16,
    }
}

/// The bytes of the shortest encrypted record with a whole Finished of this suite.
fn finished_len(header: u8, suite: u16) -> usize
    ensures { result ≡ finished_length header suite }
{
    usize::from(header) + usize::from(hash_len(suite)) + 1 + usize::from(tag_len(suite))
}

/// Whether an encrypted record of this length can hold a Finished of this suite.
fn can_be_finished(header: u8, suite: Option<TlsCipherSuiteID>, longest: usize) -> bool
    ensures { result ≡ can_be header (option_map (λ c. c.0) suite) longest }
{
    match suite {
        Some(suite) => finished_len(header, suite.0) <= longest,
        None => false,
    }
}

/// Whether the client of TLS 1.3 can have sent its Finished (RFC 8446, section 4.4.4): its longest
/// encrypted record that answers the ServerHello is long enough. `header` is the length of a
/// message's header, [`MESSAGE_HEADER`] or [`DATAGRAM_MESSAGE_HEADER`].
pub fn has_finished(header: u8, handshake: &HandshakeSummary, longest: usize) -> bool
    ensures { result ≡ finished_by header (view_summary handshake.now) longest }
{
    can_be_finished(header, handshake.cipher(), longest)
}

/// Whether a handshake is complete, in TLS 1.3 with the client's Finished.
pub fn is_established(outcome: Outcome, has_finished: bool) -> bool
    ensures { result ≡ established_by outcome has_finished }
{
    match outcome {
        Outcome::Full | Outcome::Resumed => true,
        Outcome::Tls13 { .. } => has_finished,
        _ => false,
    }
}

/// Whether a side's further records matter: the handshake goes on, or the client's Finished is to
/// come.
pub fn awaits(side: Direction, outcome: Outcome, has_finished: bool) -> bool
    ensures { result ≡ awaits_by side outcome has_finished }
{
    match (side, outcome) {
        (_, Outcome::Waiting) => true,
        (Direction::ToServer, Outcome::Tls13 { .. }) => !has_finished,
        _ => false,
    }
}

/// Whether a session was resumed, or a pre-shared key accepted.
pub fn is_resumed(outcome: Outcome, handshake: &HandshakeSummary) -> bool
    ensures { result ≡ resumed_by outcome (view_summary handshake.now) }
{
    match outcome {
        Outcome::Resumed => true,
        Outcome::Tls13 { .. } => handshake.has_session(),
        _ => false,
    }
}

/// The bytes of a record's encrypted content, if its type is application_data.
fn data_len(record: &[u8]) -> usize
    ensures { result ≡ data_length record.now }
{
    match record {
        [kind, rest @ ..] => {
            if *kind == 23 {
                rest.len().saturating_sub(4)
            } else {
                0
            }
        }
        [] => 0,
    }
}

/// The bytes of an event's encrypted content; 0 if it has none.
fn sealed_len(sent: &SideEvent<'_>) -> usize
    ensures { result ≡ sealed_length (view_stream_event sent.now) }
{
    match sent {
        SideEvent::Event(Event::Encrypted(record)) => data_len(record),
        SideEvent::Event(Event::ApplicationData(content)) => content.len(),
        SideEvent::Event(_) | SideEvent::Fault(_) => 0,
    }
}

/// Whether an encrypted record of the client may be early data (RFC 8446, section 4.2.10).
fn may_be_early(handshake: &HandshakeSummary) -> bool
    ensures { result ≡ early_by (view_summary handshake.now) }
{
    handshake.offers_early_data() && !handshake.server.is_some()
}

/// Whether it is a handshake message in the clear.
fn is_handshake(sent: &SideEvent<'_>) -> bool
    ensures { result ≡ is_message (view_stream_event sent.now) }
{
    matches!(sent, SideEvent::Event(Event::Handshake(_)))
}

/// The length of the client's longest encrypted record that answers the ServerHello, after an event
/// of a side: behind the client's last ClientHello and its early data. `handshake` and `longest`
/// are from before the event.
pub fn longest_after(
    side: Direction,
    sent: &SideEvent<'_>,
    handshake: &HandshakeSummary,
    longest: usize,
) -> usize
    ensures { result ≡ longest_by side (view_stream_event sent.now)
        (view_summary handshake.now) longest }
{
    if matches!(side, Direction::FromServer) {
        return longest;
    }
    if is_handshake(sent) {
        return 0;
    }
    if may_be_early(handshake) {
        return longest;
    }
    longest.max(sealed_len(sent))
}
