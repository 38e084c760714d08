//! The events of a direction.
ghost use Rattle.std.specs.Prelude.{◌≡◌, ◌≤◌, length};
ghost use Rattle.std.proofs.Common.{lit<};
ghost use Rattle.tls_stream.specs.Item.{view_event};
ghost use Rattle.tls_stream.specs.Messages.{alerts, event_of};

use crate::frame::Frame;
use tls_base::{TlsAlertDescription, TlsAlertSeverity, TlsMessageAlert};

/// The next event of one direction. Its slices borrow from the direction's buffer.
#[derive(Clone, Debug, PartialEq, Drop)]
pub enum Event<'a> {
    /// A handshake message: all its bytes, with the header of 4 bytes.
    /// [`tls_hs::parse_tls_message_handshake`] parses or refuses it.
    Handshake(&'a [u8]),
    /// A ChangeCipherSpec (RFC 5246, section 7.1).
    ChangeCipherSpec,
    /// An alert (RFC 5246, section 7.2).
    Alert(TlsMessageAlert),
    /// A Heartbeat message (RFC 6520, section 4): the fragment of its record.
    /// [`tls_hs::parse_tls_message_heartbeat`] parses or refuses it.
    Heartbeat(&'a [u8]),
    /// Application data that isn't encrypted: the fragment of its record.
    ApplicationData(&'a [u8]),
    /// An encrypted record: all its bytes, with the header of 5 bytes. Its fragment, of up to 2^14
    /// + 2048 bytes (RFC 5246, section 6.2.3), isn't parsed.
    Encrypted(&'a [u8]),
}

/// Alerts as frames of two bytes each (RFC 5246, section 7.2).
pub struct Alerts;

impl Frame for Alerts {
    ghost kind = { alerts };

    ghost takes = { lit< tt };

    fn header_len() -> usize {
        2
    }

    fn body_len(_header: &[u8]) -> usize {
        0
    }
}

/// The event of a message with this content type.
pub fn message_event(kind: u8, message: &[u8]) -> Event<'_>
    requires { 2 ≤ length message.now }
    ensures { view_event result ≡ event_of kind message.now }
{
    if kind == 21 {
        return Event::Alert(TlsMessageAlert {
            severity: TlsAlertSeverity(message[0]),
            code: TlsAlertDescription(message[1]),
        });
    }
    Event::Handshake(message)
}
