//! The next event of a conversation's side, as a C struct.
ghost use Rattle.std.specs.Prelude.{◌≡◌};
ghost use Rattle.std.specs.Option.{option_map};
ghost use Rattle.tls_stream.specs.FlowEvents.{event_of};
ghost use Rattle.tls_stream.specs.Item.{Failed, view_event};
ghost use Rattle.tls_ext.specs.InPlace.{content_of};
ghost use Rattle.layouts.specs.Bytes.{Bytes};
ghost use Rattle.layouts.specs.Reading.{reading};
ghost use Rattle.layouts.specs.Text.{held};
ghost use Rattle.tls_flow.specs.Bytes.{kind_of_bytes};
ghost use Rattle.tls_hs.specs.InPlace.{raw_handshake};
ghost use Rattle.tls_hs.specs.ServerHello.{server_hello};
ghost use Rattle.wispuddera_c.specs.Place.{StandsAt};
ghost use Rattle.wispuddera_c.specs.EventContent.{AreBytesOf, Shows, fault_number, form_number, has_session_in, is_found, takes_session as takes_up_session, takes_session_in};

use crate::outcome::{kind_of_body, number_of};
use crate::place::Place;
use crate::status::status_of;
use layouts::InPlace;
use tls_base::{TlsExtensionType, TlsHandshakeType};
use tls_ext::{extensions, first_content};
use tls_flow::{Direction, FlowEvent, Kind};
use tls_hs::{RawHandshake, parse_tls_handshake_server_hello};
use tls_stream::{Event as StreamEvent, Fault};

/// An event of a side: its form, its event kind, and the place of its bytes in the side's buffer.
#[repr(C)]
#[derive(Clone, Copy)]
pub struct EventContent {
    /// A handshake message with its header of 4 bytes, the 2 bytes of an alert, or else a whole
    /// record with its header of 5 bytes. Empty for a fault.
    pub content: Place,
    /// The fault that ended the side, as a status; else 0.
    pub fault: u32,
    /// The number of its form.
    pub form: u8,
    /// The number of the event kind.
    pub kind: u8,
}

/// What a conversation learns from a side.
#[derive(Clone, Copy)]
pub struct ReadEvent {
    /// The struct for the caller.
    pub content: EventContent,
    /// The event for the flow.
    pub event: FlowEvent,
    /// Whether it is a ServerHello that resumes a session by pre_shared_key.
    pub takes_session: bool,
}

fn form_of(event: &StreamEvent<'_>) -> u8
    ensures { result ≡ form_number (view_event event.now) }
{
    match event {
        StreamEvent::Handshake(_) => 0,
        StreamEvent::ChangeCipherSpec => 1,
        StreamEvent::Alert(_) => 2,
        StreamEvent::Heartbeat(_) => 3,
        StreamEvent::ApplicationData(_) => 4,
        StreamEvent::Encrypted(_) => 5,
    }
}

fn number_of_fault(fault: Fault) -> u32
    ensures { result ≡ fault_number fault }
{
    match fault {
        Fault::Refused(kind) => status_of(kind),
        Fault::TooLarge => 11,
        Fault::Interrupted => 12,
    }
}

/// The kind of a whole handshake message, with its header of 4 bytes.
fn kind_of_message(message: &[u8]) -> Kind
    ensures { result ≡ kind_of_bytes message.now }
{
    match RawHandshake::read(message) {
        Ok((_, raw)) => kind_of_body(raw.msg_type, raw.body),
        Err(_) => Kind::Unknown,
    }
}

/// The flow event of a side's event. It doesn't call `tls_stream::tls_event`, so that only
/// [`kind_of_body`] calls the parser of a ServerHello.
fn event_shown(event: &StreamEvent<'_>, side: Direction) -> FlowEvent
    ensures { result ≡ event_of side (view_event event.now) }
{
    match event {
        StreamEvent::Handshake(message) => FlowEvent::new(kind_of_message(message), side),
        StreamEvent::ChangeCipherSpec => FlowEvent::new(Kind::ChangeCipherSpec, side),
        StreamEvent::Alert(alert) => FlowEvent::of_alert(alert, side),
        StreamEvent::Heartbeat(_) => FlowEvent::new(Kind::Heartbeat, side),
        StreamEvent::ApplicationData(_) => FlowEvent::new(Kind::Encrypted, side),
        StreamEvent::Encrypted(_) => FlowEvent::new(Kind::Encrypted, side),
    }
}

/// Whether the extensions of a ServerHello include a pre_shared_key (RFC 8446, section 4.2.11).
fn has_key(ext: Option<&[u8]>) -> bool
    ensures { result ≡ is_found (content_of 41 (held (option_map (λ x. x.now) ext.entry))) }
{
    match first_content(extensions(ext), TlsExtensionType::PreSharedKey) {
        Ok(Some(_)) => true,
        Ok(None) => false,
        Err(_) => false,
    }
}

/// Whether the body of a ServerHello has a pre_shared_key.
fn has_session(body: &[u8]) -> bool
    ensures { result ≡ has_session_in (reading server_hello body.now) }
{
    match parse_tls_handshake_server_hello(body) {
        Ok((_, hello)) => has_key(hello.ext),
        Err(_) => false,
    }
}

/// Whether a whole handshake message is a ServerHello with a pre_shared_key.
fn takes_session(message: &[u8]) -> bool
    ensures { result ≡ takes_session_in (reading raw_handshake message.now) }
{
    match RawHandshake::read(message) {
        Ok((_, raw)) => raw.msg_type == TlsHandshakeType::ServerHello && has_session(raw.body),
        Err(_) => false,
    }
}

/// Whether an event resumes a session.
fn takes_up(event: &StreamEvent<'_>) -> bool
    ensures { result ≡ takes_up_session (view_event event.now) }
{
    match event {
        StreamEvent::Handshake(message) => takes_session(message),
        StreamEvent::ChangeCipherSpec => false,
        StreamEvent::Alert(_) => false,
        StreamEvent::Heartbeat(_) => false,
        StreamEvent::ApplicationData(_) => false,
        StreamEvent::Encrypted(_) => false,
    }
}

/// What a conversation learns from an event whose bytes are at this place.
pub fn event_at(event: &StreamEvent<'_>, content: Place, side: Direction) -> ReadEvent
    ensures { (b x : Bytes) → StandsAt b content x → AreBytesOf (view_event event.now) x
        → Shows side b result (view_event event.now) }
{
    let followed = event_shown(event, side);
    ReadEvent {
        content: EventContent {
            content,
            fault: 0,
            form: form_of(event),
            kind: number_of(followed.symbol.kind),
        },
        event: followed,
        takes_session: takes_up(event),
    }
}

/// What a conversation learns from a fault, after which the side has no events. The flow follows it
/// as an unknown message.
pub fn event_of_fault(fault: Fault, side: Direction) -> ReadEvent
    ensures { (b : Bytes) → Shows side b result (Failed fault) }
{
    ReadEvent {
        content: EventContent {
            content: Place {
                offset: 0,
                length: 0,
            },
            fault: number_of_fault(fault),
            form: 6,
            kind: number_of(Kind::Unknown),
        },
        event: FlowEvent::new(Kind::Unknown, side),
        takes_session: false,
    }
}
