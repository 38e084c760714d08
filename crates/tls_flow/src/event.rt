//! What a flow takes as input: a symbol, and the code of an alert.
ghost use Rattle.std.specs.Prelude.{◌≡◌, Some, None};
ghost use Rattle.tls_base.specs.Alert.{view_alert};
ghost use Rattle.tls_flow.specs.Symbols.{symbol};
ghost use Rattle.tls_flow.specs.Messages.{kind_of_alert, symbol_of};
ghost use Rattle.tls_flow.specs.Bytes.{kind_of_bytes};

use crate::symbol::{Direction, Kind, Symbol};
use tls_base::{TlsAlertDescription, TlsMessageAlert};
use tls_hs::TlsMessage;

/// A message of a conversation, as far as a flow looks at it.
#[derive(Clone, Copy, Debug, PartialEq)]
pub struct FlowEvent {
    /// Its kind, and the side it goes to.
    pub symbol: Symbol,
    /// The description of an alert; `None` for other messages.
    pub alert: Option<TlsAlertDescription>,
}

impl FlowEvent {
    /// An event of this kind without an alert description.
    #[inline]
    pub fn new(kind: Kind, direction: Direction) -> FlowEvent
        ensures symbol { result.symbol ≡ symbol kind direction }
        ensures alert { result.alert ≡ None }
    {
        FlowEvent {
            symbol: Symbol { kind, direction },
            alert: None,
        }
    }

    /// The event of an alert in the clear.
    #[inline]
    pub fn of_alert(alert: &TlsMessageAlert, direction: Direction) -> FlowEvent
        ensures symbol { result.symbol ≡ symbol (kind_of_alert (view_alert alert.now)) direction }
        ensures alert { result.alert ≡ Some alert.now.code }
    {
        FlowEvent {
            symbol: Symbol {
                kind: Kind::of_alert(alert),
                direction,
            },
            alert: Some(alert.code),
        }
    }

    /// The event of a whole TLS handshake message, from its bytes with the header of 4 bytes. The
    /// type gives its kind; for a ServerHello the content does too. The kind is [`Kind::Unknown`]
    /// if the type isn't one that is parsed, or if a ServerHello is refused.
    #[inline]
    pub fn of_handshake(message: &[u8], direction: Direction) -> FlowEvent
        ensures symbol { result.symbol ≡ symbol (kind_of_bytes message.now) direction }
        ensures alert { result.alert ≡ None }
    {
        FlowEvent::new(Kind::of_bytes(message), direction)
    }

    /// The event of a parsed message that its sender sent before its ChangeCipherSpec; `to_server`
    /// is whether it goes to the server. After the ChangeCipherSpec use [`Kind::Encrypted`],
    /// whatever the bytes look like.
    #[inline]
    pub fn of(message: &TlsMessage<'_>, to_server: bool) -> FlowEvent
        ensures { result.symbol ≡ symbol_of message.now to_server }
    {
        let direction = Direction::of(to_server);
        match message {
            TlsMessage::Alert(alert) => FlowEvent::of_alert(alert, direction),
            _ => FlowEvent::new(Kind::of(message), direction),
        }
    }
}
