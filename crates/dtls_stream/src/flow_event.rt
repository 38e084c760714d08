//! A DTLS side's events as input for a flow.
ghost use Rattle.std.specs.Prelude.{◌≡◌};
ghost use Rattle.std.specs.Option.{option_map};
ghost use Rattle.tls_flow.specs.Bytes.{view_handshake_message};
ghost use Rattle.dtls_stream.specs.Messages.{view_event};
ghost use Rattle.dtls_stream.specs.FlowEvents.{event_in_datagram, event_in_datagram_with, message_in_datagram};

use crate::event::Event;
use tls_flow::{Direction, FlowEvent, HandshakeMessage, Kind};

/// The handshake message of an event, with its ServerHello parsed; `None` if the event is another
/// one.
pub fn datagram_message<'a>(event: &'a Event<'_>) -> Option<HandshakeMessage<'a>>
    ensures { option_map view_handshake_message result
        ≡ message_in_datagram (view_event event.now) }
{
    match event {
        Event::Handshake(message) => Some(HandshakeMessage::of_datagrams(
            message.msg_type,
            message.body.as_slice(),
        )),
        _ => None,
    }
}

/// The flow event of a DTLS event, where the caller gives the `kind` of a handshake message. `None`
/// as [`dtls_event`] has it.
pub fn dtls_event_with(event: &Event<'_>, kind: Kind, side: Direction) -> Option<FlowEvent>
    ensures { result ≡ event_in_datagram_with side (view_event event.now) kind }
{
    match event {
        Event::Handshake(_) => Some(FlowEvent::new(kind, side)),
        Event::ChangeCipherSpec => Some(FlowEvent::new(Kind::ChangeCipherSpec, side)),
        Event::Alert(alert) => Some(FlowEvent::of_alert(alert, side)),
        Event::Encrypted(_) => Some(FlowEvent::new(Kind::Encrypted, side)),
        Event::Refused(_, _) | Event::Fault(_) => None,
    }
}

/// The flow event of a DTLS event. `None` for what the peer drops: a record, or the rest of one,
/// that can't be parsed (RFC 6347, section 4.1.2.7), and a refused fragment, such as one of a
/// retransmitted message (section 4.2.4). The caller leaves out a retransmitted ChangeCipherSpec.
pub fn dtls_event(event: &Event<'_>, side: Direction) -> Option<FlowEvent>
    ensures { result ≡ event_in_datagram side (view_event event.now) }
{
    let kind = Kind::of_datagrams(datagram_message(event).as_ref());
    dtls_event_with(event, kind, side)
}
