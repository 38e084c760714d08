//! A conversation with its flow, summary and history.
ghost use Rattle.std.specs.Prelude.{◌≡◌, [], IfOk, OnOk};
ghost use Rattle.std.specs.Option.{option_map};
ghost use Rattle.ssl2_hello.specs.ClientHello.{view_client_hello as view_ssl2_hello};
ghost use Rattle.tls_stream.specs.Readers.{IsBegun, reader_of};
ghost use Rattle.tls_stream.specs.SideReaders.{IsReady, front_of};
ghost use Rattle.tls_stream.specs.FlowEvents.{event_of, view_stream_event};
ghost use Rattle.tls_flow.specs.Bytes.{view_handshake_message};
ghost use Rattle.tls_summary.specs.HandshakeSummary.{nothing, view_summary};
ghost use Rattle.tls_flow.specs.Steps.{silence};
ghost use Rattle.tls_observer.specs.Noting.{followed, is_sealed, noted, noted_with, stepped};
ghost use Rattle.tls_observer.specs.History.{letter_of, with_letter};
ghost use Rattle.tls_flow.specs.Table.{outcome_at};
ghost use Rattle.tls_observer.specs.Ends.{awaits as awaits_by};
ghost use Rattle.tls_analyzer.specs.Analyzers.{has_finished_by as finished_by};
ghost use Rattle.tls_analyzer.specs.Following.{IsFed, IsHelloNoted, IsNextTaken, known_of, with_fault};

use ssl2_hello::Ssl2ClientHello;
use std::alloc::{AllocError, Global};
use tls_flow::{Direction, Flow, FlowEvent, HandshakeMessage, Kind};
use tls_observer::Observer;
use tls_observer::ends::{MESSAGE_HEADER, awaits, has_finished, longest_after};
use tls_observer::history::{add_letter, stream_letter};
use tls_stream::{
    ConversationReader, DEFAULT_LIMIT, Event, SideEvent, stream_event_with, stream_message,
};
use tls_summary::{CertificateCache, HandshakeSummary};

/// A conversation, and what is derived from its events.
#[derive(Drop)]
pub(crate) struct ConversationState {
    // Both sides, as far as they were read.
    pub(crate) reader: ConversationReader,
    // The flow of the handshake, without hellos that don't belong to it.
    pub(crate) flow: Flow,
    // The summary of both sides.
    pub(crate) handshake: HandshakeSummary,
    // A letter for each event.
    pub(crate) history: Vec<u8>,
    // The length of the client's longest encrypted record that answers the ServerHello.
    pub(crate) longest: usize,
}

/// Whether what follows in this direction is encrypted.
fn is_encrypted(sent: &SideEvent<'_>) -> bool
    ensures { result ≡ is_sealed (view_stream_event sent.now) }
{
    match sent {
        SideEvent::Event(Event::Encrypted(_)) | SideEvent::Event(Event::ApplicationData(_)) => true,
        SideEvent::Event(_) | SideEvent::Fault(_) => false,
    }
}

/// Follows an event of a side, unless the summary before it shows that it is a hello that doesn't
/// belong to the handshake.
pub(crate) fn step(flow: &mut Flow, handshake: &HandshakeSummary, side: Direction, event: FlowEvent)
    ensures { flow.new ≡ stepped side flow.old (view_summary handshake.now) event }
{
    if !handshake.is_stray(side, event.symbol.kind) {
        flow.update(event);
    }
}

/// Updates the summary with an event of a side; `message` is its handshake message, if it is one.
fn note(
    handshake: &mut HandshakeSummary,
    alloc: Global,
    side: Direction,
    sent: &SideEvent<'_>,
    message: Option<&HandshakeMessage<'_>>,
    known: Option<&mut CertificateCache>,
) -> Result<(), AllocError>
    ensures { OnOk result
        (view_summary handshake.new ≡ noted_with side (view_summary handshake.old)
        (view_stream_event sent.now)
        (option_map (λ m. view_handshake_message m.now) message.entry)) }
{
    match sent {
        SideEvent::Event(Event::Handshake(_)) => {
            if let Some(message) = message {
                handshake.note_with(alloc, side, message, known)?;
            }
        }
        SideEvent::Event(Event::Alert(alert)) => handshake.note_alert(alert.code),
        SideEvent::Event(Event::ChangeCipherSpec)
        | SideEvent::Event(Event::Heartbeat(_))
        | SideEvent::Event(Event::ApplicationData(_))
        | SideEvent::Event(Event::Encrypted(_))
        | SideEvent::Fault(_) => {}
    }
    Ok(())
}

/// Follows an event of a side, updates the summary and appends its letter. Its message is parsed
/// once for these and the observer.
fn emit<W: Observer>(
    flow: &mut Flow,
    handshake: &mut HandshakeSummary,
    history: &mut Vec<u8>,
    alloc: Global,
    side: Direction,
    sent: &SideEvent<'_>,
    observer: &mut W,
) -> Result<FlowEvent, AllocError>
    ensures flow { OnOk result
        (flow.new ≡ followed side flow.old (view_summary handshake.old)
        (view_stream_event sent.now)) }
    ensures handshake { OnOk result
        (view_summary handshake.new
        ≡ noted side (view_summary handshake.old) (view_stream_event sent.now)) }
    ensures history { OnOk result
        (history.new.items ≡ with_letter side history.old.items
        (letter_of (view_stream_event sent.now))) }
    ensures event { IfOk result (λ e. e ≡ event_of side (view_stream_event sent.now)) }
{
    let message = stream_message(sent);
    let kind = Kind::of_message(message.as_ref());
    let event = stream_event_with(sent, kind, side);
    step(flow, handshake, side, event);
    let known = observer.certificate_cache();
    note(handshake, alloc, side, sent, message.as_ref(), known)?;
    add_letter(history, side, stream_letter(sent, kind))?;
    observer.on_stream_event(side, sent, message.as_ref())?;
    Ok(event)
}

impl ConversationState {
    /// An empty one. It doesn't allocate.
    pub(crate) fn new(alloc: Global) -> ConversationState
        ensures begun { IsBegun DEFAULT_LIMIT result.reader }
        ensures unfollowed { result.flow ≡ silence }
        ensures unknown { view_summary result.handshake ≡ nothing }
        ensures unlettered { result.history.items ≡ [] }
        ensures unsealed { result.longest ≡ 0 }
    {
        ConversationState {
            reader: ConversationReader::new(alloc),
            flow: Flow::new(),
            handshake: HandshakeSummary::new(),
            history: Vec::new(alloc),
            longest: 0,
        }
    }

    /// Whether the client of TLS 1.3 can have sent its Finished.
    pub(crate) fn has_finished(&self) -> bool
        ensures { result ≡ finished_by (known_of self.now) }
    {
        has_finished(MESSAGE_HEADER, &self.handshake, self.longest)
    }

    /// Whether a side's further records matter.
    pub(crate) fn awaits(&self, side: Direction) -> bool
        ensures { result ≡ awaits_by side (outcome_at self.now.flow.state)
            (finished_by (known_of self.now)) }
    {
        awaits(side, self.flow.outcome(), self.has_finished())
    }

    /// Appends a piece of this side's stream.
    pub(crate) fn feed(&mut self, side: Direction, piece: &[u8]) -> Result<(), AllocError>
        ensures fed { OnOk result (IsFed self.old side piece.now self.new) }
        ensures ready { OnOk result (IsReady (reader_of self.new.reader side)) }
    {
        self.reader.feed(side, piece).map_err(|_e| AllocError)
    }

    /// Follows and records a ClientHello of SSL 2.0's form, with which a side begins.
    pub(crate) fn analyze_ssl2(
        &mut self,
        alloc: Global,
        side: Direction,
        hello: &Ssl2ClientHello<'_>,
    ) -> Result<(), AllocError>
        ensures { OnOk result (IsHelloNoted self.old side (view_ssl2_hello hello.now) self.new) }
    {
        let event = FlowEvent::new(Kind::ClientHello, side);
        step(&mut self.flow, &self.handshake, side, event);
        self.handshake.note_ssl2_hello(alloc, side, hello)?;
        add_letter(&mut self.history, side, Some(b'c'))
    }

    /// Follows a fault of a side that doesn't speak TLS. Nothing is recorded.
    pub(crate) fn follow_fault(&mut self, side: Direction)
        ensures { self.new ≡ with_fault side self.old }
    {
        let event = FlowEvent::new(Kind::Unknown, side);
        step(&mut self.flow, &self.handshake, side, event);
    }

    /// Follows the side's next event, updates the summary and removes the event. Returns whether it
    /// is encrypted, and `None` if there is none.
    pub(crate) fn take_next<W: Observer>(
        &mut self,
        alloc: Global,
        side: Direction,
        observer: &mut W,
    ) -> Result<Option<bool>, AllocError>
        ensures taken { IfOk result
            (λ r. IsNextTaken (front_of
            (reader_of self.old.reader side)) self.old side r self.new) }
        ensures ready { OnOk result
            (IsReady (reader_of self.old.reader side) → IsReady (reader_of self.new.reader side)) }
    {
        let (event, is_encrypted) = match self.reader.front(side) {
            Some(sent) => {
                self.longest = longest_after(side, &sent, &self.handshake, self.longest);
                let (flow, handshake) = (&mut self.flow, &mut self.handshake);
                let event = emit(
                    flow,
                    handshake,
                    &mut self.history,
                    alloc,
                    side,
                    &sent,
                    observer,
                )?;
                (event, is_encrypted(&sent))
            }
            None => return Ok(None),
        };
        self.reader.take_front(side, event);
        Ok(Some(is_encrypted))
    }
}
