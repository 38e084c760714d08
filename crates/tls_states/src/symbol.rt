//! The symbol of a message: its kind and its direction, which are all that the rules of a
//! conversation use.
ghost use Rattle.std.specs.Prelude.{◌≡◌, Some, slice_get};
ghost use Rattle.tls_hs.specs.Handshake.{view_handshake};
ghost use Rattle.tls_hs.specs.Message.{view_message};
ghost use Rattle.tls_states.specs.Symbols.{kind_by_variant, kind_of_handshake, kind_of_message, direction};

use tls_base::TlsAlertSeverity;
use tls_hs::{TlsMessage, TlsMessageHandshake};

/// The kind of a message. Kinds that no rule distinguishes are one.
#[derive(Clone, Copy, PartialEq)]
pub(crate) enum Kind {
    HelloRequest,
    /// A ClientHello without a session id.
    ClientHello,
    /// A ClientHello with a session id.
    ClientHelloWithId,
    ServerHello,
    ServerHelloV13Draft18,
    NewSessionTicket,
    Certificate,
    ServerKeyExchange,
    CertificateRequest,
    ServerDone,
    CertificateVerify,
    ClientKeyExchange,
    CertificateStatus,
    ChangeCipherSpec,
    /// An alert of severity 1.
    Warning,
    /// Any other alert.
    Fatal,
    /// Any other message.
    Other,
}

/// The side that a message goes to.
#[derive(Clone, Copy, PartialEq)]
pub(crate) enum Direction {
    FromServer,
    ToServer,
}

impl Direction {
    /// Returns the direction of a message that goes to the server, or to the client.
    #[inline]
    pub(crate) fn of(to_server: bool) -> Direction
        ensures { result ≡ direction to_server }
    {
        if to_server {
            Direction::ToServer
        } else {
            Direction::FromServer
        }
    }
}

/// The kind of each variant of handshake messages, by its position; the last is that of any other.
/// A look-up here is faster than a jump by variant.
static BY_VARIANT: [Kind; 17] = [
    Kind::HelloRequest,
    Kind::ClientHello,
    Kind::ServerHello,
    Kind::ServerHelloV13Draft18,
    Kind::NewSessionTicket,
    Kind::Other,
    Kind::Other,
    Kind::Certificate,
    Kind::ServerKeyExchange,
    Kind::CertificateRequest,
    Kind::ServerDone,
    Kind::CertificateVerify,
    Kind::ClientKeyExchange,
    Kind::Other,
    Kind::CertificateStatus,
    Kind::Other,
    Kind::Other,
];

/// Returns the position of a message's variant. It is the variant's tag, so the compiler computes
/// nothing.
#[inline]
fn place_of_variant(message: &TlsMessageHandshake<'_>) -> usize
    ensures { slice_get BY_VARIANT result ≡ Some (kind_by_variant (view_handshake message.now)) }
{
    match message {
        TlsMessageHandshake::HelloRequest => 0,
        TlsMessageHandshake::ClientHello(_) => 1,
        TlsMessageHandshake::ServerHello(_) => 2,
        TlsMessageHandshake::ServerHelloV13Draft18(_) => 3,
        TlsMessageHandshake::NewSessionTicket(_) => 4,
        TlsMessageHandshake::EndOfEarlyData => 5,
        TlsMessageHandshake::HelloRetryRequest(_) => 6,
        TlsMessageHandshake::Certificate(_) => 7,
        TlsMessageHandshake::ServerKeyExchange(_) => 8,
        TlsMessageHandshake::CertificateRequest(_) => 9,
        TlsMessageHandshake::ServerDone(_) => 10,
        TlsMessageHandshake::CertificateVerify(_) => 11,
        TlsMessageHandshake::ClientKeyExchange(_) => 12,
        TlsMessageHandshake::Finished(_) => 13,
        TlsMessageHandshake::CertificateStatus(_) => 14,
        TlsMessageHandshake::NextProtocol(_) => 15,
        _ => 16,
    }
}

impl Kind {
    /// Returns the kind of a handshake message by its variant alone: any ClientHello counts as one
    /// without a session id.
    #[inline]
    fn by_variant(message: &TlsMessageHandshake<'_>) -> Kind
        ensures { result ≡ kind_by_variant (view_handshake message.now) }
    {
        BY_VARIANT[place_of_variant(message)]
    }

    /// Returns the kind of a handshake message. The session id is checked separately, so that the
    /// rest is a look-up by variant.
    #[tactic(auto, using(crate::proofs::SymbolLemmas::viewed_is_some))]
    #[inline]
    fn of_handshake(message: &TlsMessageHandshake<'_>) -> Kind
        ensures { result ≡ kind_of_handshake (view_handshake message.now) }
    {
        if let TlsMessageHandshake::ClientHello(hello) = message {
            if hello.session_id.is_some() {
                return Kind::ClientHelloWithId;
            }
        }
        Kind::by_variant(message)
    }

    /// Returns the kind of a message.
    #[inline]
    pub(crate) fn of(message: &TlsMessage<'_>) -> Kind
        ensures { result ≡ kind_of_message (view_message message.now) }
    {
        match message {
            TlsMessage::Handshake(message) => Kind::of_handshake(message),
            TlsMessage::ChangeCipherSpec => Kind::ChangeCipherSpec,
            TlsMessage::Alert(alert) => {
                if alert.severity == TlsAlertSeverity::Warning {
                    Kind::Warning
                } else {
                    Kind::Fatal
                }
            }
            _ => Kind::Other,
        }
    }
}
