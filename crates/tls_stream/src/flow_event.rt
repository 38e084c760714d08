//! A side's events as input for a flow.
ghost use Rattle.std.specs.Prelude.{◌≡◌};
ghost use Rattle.std.specs.Option.{option_map};
ghost use Rattle.tls_flow.specs.Bytes.{view_handshake_message};
ghost use Rattle.tls_stream.specs.Item.{view_event};
ghost use Rattle.tls_stream.specs.FlowEvents.{chooses_tls13 as chooses, event_of, event_with, message_in, view_stream_event};

use crate::event::Event;
use crate::side_event::SideEvent;
use tls_flow::{Direction, FlowEvent, HandshakeMessage, Kind};

/// The flow event of an event of TLS. Application data counts as encrypted, since a handshake has
/// none in the clear.
pub fn tls_event(event: &Event<'_>, side: Direction) -> FlowEvent
    ensures { result ≡ event_of side (view_event event.now) }
{
    match event {
        Event::Handshake(message) => FlowEvent::of_handshake(message, side),
        Event::ChangeCipherSpec => FlowEvent::new(Kind::ChangeCipherSpec, side),
        Event::Alert(alert) => FlowEvent::of_alert(alert, side),
        Event::Heartbeat(_) => FlowEvent::new(Kind::Heartbeat, side),
        Event::ApplicationData(_) => FlowEvent::new(Kind::Encrypted, side),
        Event::Encrypted(_) => FlowEvent::new(Kind::Encrypted, side),
    }
}

/// The handshake message of an event, with its ServerHello parsed; `None` if the event is another
/// one.
pub fn stream_message<'a>(sent: &SideEvent<'a>) -> Option<HandshakeMessage<'a>>
    ensures { option_map view_handshake_message result ≡ message_in (view_stream_event sent.now) }
{
    match sent {
        SideEvent::Event(Event::Handshake(message)) => HandshakeMessage::read(message),
        SideEvent::Event(_) | SideEvent::Fault(_) => None,
    }
}

/// The flow event of a side's event, for a caller that has the `kind` of a handshake message, so
/// that it is parsed only once.
pub fn stream_event_with(sent: &SideEvent<'_>, kind: Kind, side: Direction) -> FlowEvent
    ensures { result ≡ event_with side (view_stream_event sent.now) kind }
{
    match sent {
        SideEvent::Event(Event::Handshake(_)) => FlowEvent::new(kind, side),
        SideEvent::Event(event) => tls_event(event, side),
        SideEvent::Fault(_) => FlowEvent::new(Kind::Unknown, side),
    }
}

/// The flow event of a side's event.
pub(crate) fn stream_event(sent: &SideEvent<'_>, side: Direction) -> FlowEvent
    ensures { result ≡ event_of side (view_stream_event sent.now) }
{
    let kind = Kind::of_message(stream_message(sent).as_ref());
    stream_event_with(sent, kind, side)
}

/// Whether the server chooses TLS 1.3 with this event: a ServerHello of TLS 1.3, or a
/// HelloRetryRequest.
pub fn chooses_tls13(event: &FlowEvent) -> bool
    ensures { result ≡ chooses event.now.symbol.kind event.now.symbol.direction }
{
    matches!(
        (event.symbol.direction, event.symbol.kind),
        (
            Direction::FromServer,
            Kind::ServerHello13 | Kind::HelloRetryRequest
        )
    )
}
