//! The outcome of a conversation from its events so far.
ghost use Rattle.std.specs.Prelude.{◌≡◌, None, map};
ghost use Rattle.tls_base.specs.Alert.{Alert};
ghost use Rattle.tls_flow.specs.Bytes.{kind_of_body as kind_of_body_in};
ghost use Rattle.tls_flow.specs.Messages.{kind_of_type};
ghost use Rattle.tls_flow.specs.Conversations.{IsOutcome};
ghost use Rattle.tls_flow.specs.Messages.{kind_of_alert};
ghost use Rattle.tls_flow.specs.Steps.{follow, silence};
ghost use Rattle.tls_flow.specs.declared.state.Outcome.{Outcome};
ghost use Rattle.tls_words.specs.Words.{run};
ghost use Rattle.wispuddera_c.specs.Outcome.{event_of, kind_of_number, symbol_of, outcome_number, word_of};

use tls_base::{TlsAlertDescription, TlsAlertSeverity, TlsHandshakeType, TlsMessageAlert};
use tls_flow::{Direction, Flow, FlowEvent, Kind, Outcome};

/// An event of a side: the number of its kind, and whether it goes to the server.
#[repr(C)]
#[derive(Clone, Copy)]
pub struct Event {
    /// The number of its kind.
    pub kind: u8,
    /// Whether it goes to the server.
    pub to_server: bool,
}

#[inline(always)]
fn kind_of(number: u8) -> Kind
    ensures { result ≡ kind_of_number number }
{
    match number {
        0 => Kind::HelloRequest,
        1 => Kind::ClientHello,
        2 => Kind::HelloVerifyRequest,
        3 => Kind::ServerHello,
        4 => Kind::HelloRetryRequest,
        5 => Kind::ServerHello13,
        6 => Kind::NewSessionTicket,
        7 => Kind::Certificate,
        8 => Kind::ServerKeyExchange,
        9 => Kind::CertificateRequest,
        10 => Kind::ServerDone,
        11 => Kind::CertificateVerify,
        12 => Kind::ClientKeyExchange,
        13 => Kind::CertificateStatus,
        14 => Kind::ChangeCipherSpec,
        15 => Kind::Encrypted,
        16 => Kind::Warning,
        17 => Kind::NoCertificate,
        18 => Kind::Fatal,
        19 => Kind::Heartbeat,
        20 => Kind::Other,
        _ => Kind::Unknown,
    }
}

/// The number of a kind.
#[inline(always)]
pub fn number_of(kind: Kind) -> u8
    ensures { kind_of_number result ≡ kind }
{
    match kind {
        Kind::HelloRequest => 0,
        Kind::ClientHello => 1,
        Kind::HelloVerifyRequest => 2,
        Kind::ServerHello => 3,
        Kind::HelloRetryRequest => 4,
        Kind::ServerHello13 => 5,
        Kind::NewSessionTicket => 6,
        Kind::Certificate => 7,
        Kind::ServerKeyExchange => 8,
        Kind::CertificateRequest => 9,
        Kind::ServerDone => 10,
        Kind::CertificateVerify => 11,
        Kind::ClientKeyExchange => 12,
        Kind::CertificateStatus => 13,
        Kind::ChangeCipherSpec => 14,
        Kind::Encrypted => 15,
        Kind::Warning => 16,
        Kind::NoCertificate => 17,
        Kind::Fatal => 18,
        Kind::Heartbeat => 19,
        Kind::Other => 20,
        Kind::Unknown => 21,
    }
}

/// The number of an outcome.
pub fn number_of_outcome(outcome: Outcome) -> u32
    ensures { result ≡ outcome_number outcome }
{
    match outcome {
        Outcome::Waiting => 0,
        Outcome::Full => 1,
        Outcome::Resumed => 2,
        Outcome::BrokenOff => 3,
        Outcome::Unknown => 4,
        Outcome::NoHandshake => 5,
        Outcome::Tls13 {
            retried: false,
            early_data: false,
        } => 6,
        Outcome::Tls13 {
            retried: true,
            early_data: false,
        } => 7,
        Outcome::Tls13 {
            retried: false,
            early_data: true,
        } => 8,
        Outcome::Tls13 {
            retried: true,
            early_data: true,
        } => 9,
    }
}

/// The kind of a handshake message with this type and body. Only this function calls the parser of
/// a ServerHello, which is inlined here. A second call would keep the drop of a message with lists
/// in the library, although none is ever made.
#[inline(never)]
pub fn kind_of_body(kind: TlsHandshakeType, body: &[u8]) -> Kind
    ensures { result ≡ kind_of_body_in kind.0 body.now }
{
    Kind::of_body(kind, body)
}

/// The event kind of a TLS handshake message with this HandshakeType and body.
#[unsafe(no_mangle)]
pub extern "C" fn wispuddera_event_of_message(body: &[u8], kind: u8) -> u8
    ensures { kind_of_number result ≡ kind_of_body_in kind body.now }
{
    number_of(kind_of_body(TlsHandshakeType(kind), body))
}

/// The event kind of a handshake message of DTLS up to 1.2 with this HandshakeType.
#[unsafe(no_mangle)]
pub extern "C" fn wispuddera_event_of_dtls_message(kind: u8) -> u8
    ensures { kind_of_number result ≡ kind_of_type kind }
{
    number_of(Kind::of_type(TlsHandshakeType(kind)))
}

/// The event kind of an alert in the clear (RFC 5246, section 7.2).
#[unsafe(no_mangle)]
pub extern "C" fn wispuddera_event_of_alert(level: u8, description: u8) -> u8
    ensures { kind_of_number result ≡ kind_of_alert
        (record { level = level; description = description }) }
{
    let alert = TlsMessageAlert {
        severity: TlsAlertSeverity(level),
        code: TlsAlertDescription(description),
    };
    number_of(Kind::of_alert(&alert))
}

/// The event for the flow.
#[inline(always)]
pub fn followed_event(event: Event) -> FlowEvent
    ensures symbol { result.symbol ≡ symbol_of event }
    ensures alert { result.alert ≡ None }
{
    FlowEvent::new(kind_of(event.kind), Direction::of(event.to_server))
}

/// The flow after these events.
fn flow_of(events: &[Event]) -> Flow
    ensures { result ≡ run follow silence (map event_of events.now) }
{
    let mut flow = Flow::new();
    for event in events {
        let direction = Direction::of(event.to_server);
        flow.update(FlowEvent::new(kind_of(event.kind), direction));
    }
    flow
}

/// The outcome of a conversation with these events: the number of the one outcome that holds.
#[unsafe(no_mangle)]
pub extern "C" fn wispuddera_outcome(events: &[Event]) -> u32
    ensures { (o : Outcome) × (result ≡ outcome_number o) × IsOutcome o (word_of events.now) }
{
    number_of_outcome(flow_of(events).outcome())
}
