//! The unencrypted messages of both sides, each kept until its line is written.
ghost use Rattle.std.specs.Prelude.{◌≡◌, [], IfOk, OnOk, is_some};
ghost use Rattle.std.specs.Result.{IsOkAnd};
ghost use Rattle.log_messages.specs.Messages.{Keeps, KeepsNext, count_of, counting, is_by_number, messages_of, one_more, sent_by_both, type_in_datagram, type_in_stream, type_of_side, writes_numbers};
ghost use Rattle.tls_flow.specs.declared.symbol.Direction.TheVariants.{ToServer, FromServer};

use serde::Serialize;
use std::alloc::{AllocError, Global};
use std::mem;
use tls_base::{TlsHandshakeType, TlsMessageAlert, TlsRecordType};
use tls_flow::{Direction, HandshakeMessage};
use tls_json::{
    AlertJson, ChangeCipherSpecJson, HandshakeJson, HeartbeatJson, NegotiatedParameters, SuiteText,
};
use tls_stream::SideEvent;

/// A message as JSON.
#[derive(Drop, Serialize)]
#[serde(untagged)]
pub enum MessageJson {
    /// A handshake message.
    Handshake(HandshakeJson),
    /// An alert.
    Alert(AlertJson),
    /// A ChangeCipherSpec.
    ChangeCipherSpec(ChangeCipherSpecJson),
    /// A heartbeat.
    Heartbeat(HeartbeatJson),
}

/// A message with its type and name.
#[derive(Drop)]
pub struct NamedMessage {
    /// The content type of its record (RFC 8446, section 5.1).
    pub content_type: TlsRecordType,
    /// Its name, if it is registered.
    pub name: Option<&'static str>,
    /// The message as JSON; `None` if its header isn't whole.
    pub json: Option<Box<MessageJson>>,
}

/// A message, its sender and its place.
#[derive(Drop)]
pub struct SentMessage {
    /// The direction in which it was sent.
    pub direction: Direction,
    /// The number of messages that its sender sent before it.
    pub place: u64,
    /// The number of messages that both sides sent before it.
    pub number: u64,
    /// The message.
    pub message: NamedMessage,
}

impl NamedMessage {
    fn new(
        alloc: Global,
        content_type: TlsRecordType,
        name: Option<&'static str>,
        json: MessageJson,
    ) -> Result<NamedMessage, AllocError>
        ensures { IfOk result (λ message. message.content_type ≡ content_type) }
    {
        Ok(NamedMessage {
            content_type,
            name,
            json: Some(Box::new(alloc, json)?),
        })
    }

    /// Returns a message that is named after its record's type.
    fn of_record(
        alloc: Global,
        content_type: TlsRecordType,
        json: MessageJson,
    ) -> Result<NamedMessage, AllocError>
        ensures { IfOk result (λ message. message.content_type ≡ content_type) }
    {
        NamedMessage::new(alloc, content_type, content_type.registered_name(), json)
    }
}

/// Returns a ChangeCipherSpec (RFC 5246, section 7.1).
fn change_message(alloc: Global) -> Result<NamedMessage, AllocError>
    ensures { IfOk result (λ message. message.content_type.0 ≡ 20) }
{
    NamedMessage::of_record(
        alloc,
        TlsRecordType::ChangeCipherSpec,
        MessageJson::ChangeCipherSpec(ChangeCipherSpecJson::ONLY),
    )
}

fn alert_message(alloc: Global, alert: &TlsMessageAlert) -> Result<NamedMessage, AllocError>
    ensures { IfOk result (λ message. message.content_type.0 ≡ 21) }
{
    let alert = AlertJson::new(alert.severity, alert.code);
    NamedMessage::of_record(alloc, TlsRecordType::Alert, MessageJson::Alert(alert))
}

/// Returns a heartbeat (RFC 6520, section 4), by the fragment of its record.
fn heartbeat_message(alloc: Global, fragment: &[u8]) -> Result<NamedMessage, AllocError>
    ensures { IfOk result (λ message. message.content_type.0 ≡ 24) }
{
    let heartbeat = HeartbeatJson::new(alloc, fragment)?;
    NamedMessage::of_record(
        alloc,
        TlsRecordType::Heartbeat,
        MessageJson::Heartbeat(heartbeat),
    )
}

/// Returns the name of a handshake message of TLS, given with its header.
fn handshake_name(message: &[u8]) -> Option<&'static str> {
    let kind = message.first()?;
    TlsHandshakeType(*kind).registered_name()
}

/// Returns a handshake message of TLS, given with its header and, if it is whole, parsed. If it is
/// a ServerHello, `negotiated` becomes what it chose.
fn handshake_message(
    alloc: Global,
    suite_text: SuiteText,
    negotiated: &mut Option<NegotiatedParameters>,
    bytes: &[u8],
    message: Option<&HandshakeMessage<'_>>,
) -> Result<NamedMessage, AllocError>
    ensures { IfOk result (λ named. named.content_type.0 ≡ 22) }
{
    let name = handshake_name(bytes);
    let Some(message) = message else {
        return Ok(NamedMessage {
            content_type: TlsRecordType::Handshake,
            name,
            json: None,
        });
    };
    if let Some(parameters) = NegotiatedParameters::of(message) {
        *negotiated = Some(parameters);
    }
    let json = HandshakeJson::of(alloc, suite_text, *negotiated, message)?;
    NamedMessage::new(
        alloc,
        TlsRecordType::Handshake,
        name,
        MessageJson::Handshake(json),
    )
}

/// Returns a handshake message of DTLS with its number. If it is a ServerHello, `negotiated`
/// becomes what it chose.
fn handshake_message_of_datagrams(
    alloc: Global,
    suite_text: SuiteText,
    negotiated: &mut Option<NegotiatedParameters>,
    message_seq: u16,
    message: &HandshakeMessage<'_>,
) -> Result<NamedMessage, AllocError>
    ensures { IfOk result (λ named. named.content_type.0 ≡ 22) }
{
    if let Some(parameters) = NegotiatedParameters::of(message) {
        *negotiated = Some(parameters);
    }
    let name = message.msg_type.registered_name();
    let json = HandshakeJson::of_datagram_message(
        alloc,
        suite_text,
        *negotiated,
        message_seq,
        message,
    )?;
    NamedMessage::new(
        alloc,
        TlsRecordType::Handshake,
        name,
        MessageJson::Handshake(json),
    )
}

/// Messages that are kept until they are taken, and what further ones depend on.
#[derive(Drop)]
struct CollectedMessages {
    suite_text: SuiteText,
    // The parameters of the last ServerHello, by which later key exchanges are parsed.
    negotiated: Option<NegotiatedParameters>,
    client_count: u64,
    server_count: u64,
    messages: Vec<SentMessage>,
}

impl CollectedMessages {
    /// Returns how many messages both sides have sent. The count saturates.
    fn count(&self) -> u64
        ensures { result ≡ sent_by_both self.now }
    {
        self.client_count.saturating_add(self.server_count)
    }

    /// Returns the place of the next message in that direction, and counts it.
    fn next_place(&mut self, direction: Direction) -> u64
        ensures place { result ≡ count_of direction self.old }
        ensures client { self.new.client_count ≡ counting direction
            (one_more (count_of direction self.old)) self.old.client_count self.old.server_count
            ToServer }
        ensures server { self.new.server_count ≡ counting direction
            (one_more (count_of direction self.old)) self.old.client_count self.old.server_count
            FromServer }
        ensures same { self.new ≡ record self.old {
          client_count = self.new.client_count;
          server_count = self.new.server_count;
        } }
    {
        match direction {
            Direction::ToServer => {
                let place = self.client_count;
                self.client_count = place.saturating_add(1);
                place
            }
            Direction::FromServer => {
                let place = self.server_count;
                self.server_count = place.saturating_add(1);
                place
            }
        }
    }

    /// Keeps the next message in that direction.
    fn keep(
        &mut self,
        direction: Direction,
        message: Result<NamedMessage, AllocError>,
    ) -> Result<(), AllocError>
        ensures { OnOk result (IsOkAnd message
            (λ message. KeepsNext direction message.content_type.0 self.old self.new)) }
    {
        let message = message?;
        let number = self.count();
        let place = self.next_place(direction);
        self.messages.push(SentMessage {
            direction,
            place,
            number,
            message,
        })?;
        Ok(())
    }

    /// Keeps an event of TLS, if it is an unencrypted message.
    fn add_stream_event(
        &mut self,
        alloc: Global,
        direction: Direction,
        event: &tls_stream::Event<'_>,
        message: Option<&HandshakeMessage<'_>>,
    ) -> Result<(), AllocError>
        ensures { OnOk result (Keeps direction (type_in_stream event.now) self.old self.new) }
    {
        match event {
            tls_stream::Event::Handshake(bytes) => {
                let named = handshake_message(
                    alloc,
                    self.suite_text,
                    &mut self.negotiated,
                    bytes,
                    message,
                );
                self.keep(direction, named)
            }
            tls_stream::Event::ChangeCipherSpec => self.keep(direction, change_message(alloc)),
            tls_stream::Event::Alert(alert) => self.keep(direction, alert_message(alloc, alert)),
            tls_stream::Event::Heartbeat(fragment) => {
                self.keep(direction, heartbeat_message(alloc, fragment))
            }
            tls_stream::Event::ApplicationData(_) => Ok(()),
            tls_stream::Event::Encrypted(_) => Ok(()),
        }
    }

    /// Keeps an event of DTLS, if it is an unencrypted message.
    fn add_datagram_event(
        &mut self,
        alloc: Global,
        direction: Direction,
        event: &dtls_stream::Event<'_>,
        message: Option<&HandshakeMessage<'_>>,
    ) -> Result<(), AllocError>
        ensures { OnOk result (Keeps direction
            (type_in_datagram event.now (is_some message.entry)) self.old self.new) }
    {
        match event {
            dtls_stream::Event::Handshake(whole) => {
                let Some(message) = message else {
                    return Ok(());
                };
                let number = whole.message_seq;
                let named = handshake_message_of_datagrams(
                    alloc,
                    self.suite_text,
                    &mut self.negotiated,
                    number,
                    message,
                );
                self.keep(direction, named)
            }
            dtls_stream::Event::ChangeCipherSpec => self.keep(direction, change_message(alloc)),
            dtls_stream::Event::Alert(alert) => self.keep(direction, alert_message(alloc, alert)),
            dtls_stream::Event::Encrypted(_) => Ok(()),
            dtls_stream::Event::Refused(_, _) | dtls_stream::Event::Fault(_) => Ok(()),
        }
    }
}

/// The messages of both sides in the order in which they came.
#[derive(Drop)]
pub struct MessageCollector {
    alloc: Global,
    kept: CollectedMessages,
}

impl MessageCollector {
    /// Returns one that keeps nothing yet. Cipher suites are written as `suite_text` says.
    pub fn new(alloc: Global, suite_text: SuiteText) -> MessageCollector
        ensures none { messages_of result ≡ [] }
        ensures numbers { writes_numbers result ≡ is_by_number suite_text }
    {
        MessageCollector {
            alloc,
            kept: CollectedMessages {
                suite_text,
                negotiated: None,
                client_count: 0,
                server_count: 0,
                messages: Vec::new(alloc),
            },
        }
    }

    /// Keeps an event of TLS, if it is an unencrypted message. `message` is the event's handshake
    /// message, parsed.
    pub fn on_stream_event(
        &mut self,
        direction: Direction,
        event: &SideEvent<'_>,
        message: Option<&HandshakeMessage<'_>>,
    ) -> Result<(), AllocError>
        ensures { OnOk result
            (Keeps direction (type_of_side event.now) self.old.kept self.new.kept) }
    {
        match event {
            SideEvent::Event(event) => self
                .kept
                .add_stream_event(self.alloc, direction, event, message),
            SideEvent::Fault(_) => Ok(()),
        }
    }

    /// Keeps an event of DTLS, if it is an unencrypted message. `message` is the event's handshake
    /// message, parsed.
    pub fn on_datagram_event(
        &mut self,
        direction: Direction,
        event: &dtls_stream::Event<'_>,
        message: Option<&HandshakeMessage<'_>>,
    ) -> Result<(), AllocError>
        ensures { OnOk result (Keeps direction
            (type_in_datagram event.now (is_some message.entry)) self.old.kept self.new.kept) }
    {
        self.kept
            .add_datagram_event(self.alloc, direction, event, message)
    }

    /// Returns how many messages both sides have sent. The count saturates.
    pub fn count(&self) -> u64
        ensures { result ≡ sent_by_both self.now.kept }
    {
        self.kept.count()
    }

    /// Removes the messages that are kept, and returns them.
    pub fn take(&mut self) -> Vec<SentMessage>
        ensures taken { result.items ≡ messages_of self.old }
        ensures none { messages_of self.new ≡ [] }
        ensures same { self.new ≡ record self.old {
          kept = record self.old.kept { messages = self.new.kept.messages };
        } }
    {
        mem::replace(&mut self.kept.messages, Vec::new(self.alloc))
    }
}
