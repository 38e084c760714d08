//! What both sides of a DTLS conversation have sent.
ghost use Rattle.std.specs.Prelude.{◌≡◌, OnOk};
ghost use Rattle.std.specs.Option.{option_map};
ghost use Rattle.tls_flow.specs.Bytes.{view_handshake_message};
ghost use Rattle.dtls_stream.specs.Messages.{view_event, view_events};
ghost use Rattle.dtls_stream.specs.FlowEvents.{kind_in_datagram};
ghost use Rattle.tls_summary.specs.HandshakeSummary.{view_summary};
ghost use Rattle.tls_observer.specs.History.{letter_in_datagram, with_letter};
ghost use Rattle.tls_flow.specs.Table.{is_failed as is_failure, is_waiting as is_still};
ghost use Rattle.dtls_analyzer.specs.Datagrams.{advanced, advanced_with, asks_unseen as asks_unseen_by, is_question as asks_again, awaits_change as awaits, behind_change as stands_behind_change, followed, followed_with, has_come_to_change as comes_to_change, is_change as changes, is_sealed as seals, may_resume as takes_session, noted_in_datagram, noted_in_datagram_with, observed, observed_all, with_event, observed_of};

use dtls_stream::{Event, datagram_message, dtls_event_with};
use std::alloc::{AllocError, Global};
use tls_flow::{Direction, Flow, HandshakeMessage, Kind, Outcome};
use tls_observer::Observer;
use tls_observer::history::{add_letter, datagram_letter};
use tls_summary::{CertificateCache, HandshakeSummary};

/// How far a side has come.
#[derive(Clone, Copy, Debug, PartialEq, Eq)]
pub(crate) struct Progress {
    /// Whether it has sent its ChangeCipherSpec.
    pub(crate) has_changed: bool,
    /// Whether it has sent an encrypted record.
    pub(crate) is_encrypted: bool,
}

/// The flow, the summary and the history of both sides.
#[derive(Drop)]
pub(crate) struct Account {
    pub(crate) flow: Flow,
    pub(crate) handshake: HandshakeSummary,
    // A letter for each event.
    pub(crate) history: Vec<u8>,
}

fn is_change(event: &Event<'_>) -> bool
    ensures { result ≡ changes (view_event event.now) }
{
    matches!(event, Event::ChangeCipherSpec)
}

fn is_sealed(event: &Event<'_>) -> bool
    ensures { result ≡ seals (view_event event.now) }
{
    matches!(event, Event::Encrypted(_))
}

/// Updates the summary with an event of a side; `message` is its handshake message, if it is one.
fn note(
    handshake: &mut HandshakeSummary,
    alloc: Global,
    side: Direction,
    event: &Event<'_>,
    message: Option<&HandshakeMessage<'_>>,
    known: Option<&mut CertificateCache>,
) -> Result<(), AllocError>
    ensures { OnOk result
        (view_summary handshake.new ≡ noted_in_datagram_with side (view_summary handshake.old)
        (view_event event.now)
        (option_map (λ m. view_handshake_message m.now) message.entry)) }
{
    match event {
        Event::Handshake(_) => {
            if let Some(message) = message {
                handshake.note_datagrams_with(alloc, side, message, known)?;
            }
        }
        Event::Alert(alert) => handshake.note_alert(alert.code),
        Event::ChangeCipherSpec | Event::Encrypted(_) | Event::Refused(_, _) | Event::Fault(_) => {}
    }
    Ok(())
}

/// Follows an event that counts for the conversation; `kind` is the kind of its handshake message.
fn follow(flow: &mut Flow, event: &Event<'_>, kind: Kind, side: Direction)
    ensures { flow.new ≡ followed_with side flow.old (view_event event.now) kind }
{
    if let Some(event) = dtls_event_with(event, kind, side) {
        flow.update(event);
    }
}

/// Follows an event as [`follow`] does, unless the summary before it shows that it is a hello that
/// doesn't belong to the handshake.
fn advance(
    flow: &mut Flow,
    handshake: &HandshakeSummary,
    event: &Event<'_>,
    kind: Kind,
    side: Direction,
)
    ensures { flow.new ≡ advanced_with side flow.old (view_summary handshake.now)
        (view_event event.now) kind }
{
    if !handshake.is_stray(side, kind) {
        follow(flow, event, kind, side);
    }
}

/// The kind of an event's handshake message.
fn kind_of(event: &Event<'_>) -> Kind
    ensures { result ≡ kind_in_datagram (view_event event.now) }
{
    let message = datagram_message(event);
    let kind = Kind::of_datagrams(message.as_ref());
    kind
}

/// Whether a message asks for another ClientHello.
fn is_question(kind: Kind) -> bool
    ensures { result ≡ asks_again kind }
{
    matches!(kind, Kind::HelloVerifyRequest | Kind::HelloRetryRequest)
}

/// Whether a message of the server asks for another ClientHello when the first one wasn't captured.
fn asks_unseen(handshake: &HandshakeSummary, side: Direction, event: &Event<'_>) -> bool
    ensures { result ≡ asks_unseen_by side (view_summary handshake.now) (view_event event.now) }
{
    if matches!(side, Direction::ToServer) || handshake.client.is_some() {
        return false;
    }
    is_question(kind_of(event))
}

/// Whether the handshake hasn't ended yet.
fn is_waiting(outcome: Outcome) -> bool
    ensures { result ≡ is_still outcome }
{
    matches!(outcome, Outcome::Waiting)
}

/// Whether the handshake ended without success.
fn is_failed(outcome: Outcome) -> bool
    ensures { result ≡ is_failure outcome }
{
    matches!(
        outcome,
        Outcome::BrokenOff | Outcome::Unknown | Outcome::NoHandshake
    )
}

/// The outcome that a ChangeCipherSpec of this side would give.
#[tactic(auto, using(crate::proofs::ChangeLemmas::state_alone))]
fn behind_change(flow: &Flow, side: Direction) -> Outcome
    ensures { result ≡ stands_behind_change side flow.now }
{
    let mut next = Flow::at(flow.state());
    follow(&mut next, &Event::ChangeCipherSpec, Kind::Unknown, side);
    next.outcome()
}

/// Whether the server's hello resumes a session, or may.
fn may_resume(handshake: &HandshakeSummary) -> bool
    ensures { result ≡ takes_session (view_summary handshake.now) }
{
    match (handshake.client_session_id(), handshake.server_session_id()) {
        (None, _) => handshake.offers_ticket(),
        (Some(_), None) => false,
        (Some(id), Some(same)) => id == same,
    }
}

/// Whether the handshake has reached this side's ChangeCipherSpec.
fn has_come_to_change(flow: &Flow, handshake: &HandshakeSummary, side: Direction) -> bool
    ensures { result ≡ comes_to_change side flow.now (view_summary handshake.now) }
{
    let behind = behind_change(flow, side);
    if is_waiting(flow.outcome()) && is_failed(behind) {
        return false;
    }
    matches!(side, Direction::ToServer) || !is_waiting(behind) || may_resume(handshake)
}

impl Account {
    /// Whether this side's ChangeCipherSpec counts next.
    fn awaits_change(&self, side: Direction, progress: &Progress) -> bool
        ensures { result ≡ awaits side (observed_of self.now progress.now) }
    {
        !progress.has_changed
            && self.handshake.server.is_some()
            && has_come_to_change(&self.flow, &self.handshake, side)
    }

    /// Follows an event of a side, updates the summary and appends its letter. Its message is
    /// parsed once for these and the observer.
    fn emit<W: Observer>(
        &mut self,
        alloc: Global,
        side: Direction,
        event: &Event<'_>,
        observer: &mut W,
    ) -> Result<(), AllocError>
        ensures flow { OnOk result
            (self.new.flow ≡ advanced side self.old.flow (view_summary self.old.handshake)
            (view_event event.now)) }
        ensures handshake { OnOk result
            (view_summary self.new.handshake ≡ noted_in_datagram side
            (view_summary self.old.handshake) (view_event event.now)) }
        ensures history { OnOk result
            (self.new.history.items ≡ with_letter side self.old.history.items
            (letter_in_datagram (view_event event.now))) }
    {
        let message = datagram_message(event);
        let kind = Kind::of_datagrams(message.as_ref());
        advance(&mut self.flow, &self.handshake, event, kind, side);
        let known = observer.certificate_cache();
        note(
            &mut self.handshake,
            alloc,
            side,
            event,
            message.as_ref(),
            known,
        )?;
        add_letter(&mut self.history, side, datagram_letter(event, kind))?;
        observer.on_datagram_event(side, event, message.as_ref())?;
        Ok(())
    }

    /// Does what `emit` does, and updates the side's progress.
    fn observe<W: Observer>(
        &mut self,
        alloc: Global,
        side: Direction,
        progress: &mut Progress,
        event: &Event<'_>,
        observer: &mut W,
    ) -> Result<(), AllocError>
        ensures { OnOk result
            (observed_of self.new progress.new ≡ with_event side (observed_of self.old progress.old)
            (view_event event.now)) }
    {
        self.emit(alloc, side, event, observer)?;
        progress.has_changed = progress.has_changed || is_change(event);
        progress.is_encrypted = progress.is_encrypted || is_sealed(event);
        Ok(())
    }

    /// Adds an event of a side. A ChangeCipherSpec is dropped if the handshake hasn't reached it,
    /// or if it is a retransmission (RFC 6347, section 4.2.4). So is a HelloVerifyRequest or a
    /// HelloRetryRequest before any ClientHello.
    fn add<W: Observer>(
        &mut self,
        alloc: Global,
        side: Direction,
        progress: &mut Progress,
        event: &Event<'_>,
        observer: &mut W,
    ) -> Result<(), AllocError>
        ensures { OnOk result
            (observed_of self.new progress.new ≡ observed side (observed_of self.old progress.old)
            (view_event event.now)) }
    {
        if is_change(event) && !self.awaits_change(side, progress) {
            return Ok(());
        }
        if asks_unseen(&self.handshake, side, event) {
            return Ok(());
        }
        self.observe(alloc, side, progress, event, observer)
    }

    /// Adds the events of a side in order.
    pub(crate) fn add_all<W: Observer>(
        &mut self,
        alloc: Global,
        side: Direction,
        progress: &mut Progress,
        events: &[Event<'_>],
        observer: &mut W,
    ) -> Result<(), AllocError>
        ensures { OnOk result
            (observed_of self.new progress.new
            ≡ observed_all side (observed_of self.old progress.old)
            (view_events events.now)) }
    {
        for event in events {
            self.add(alloc, side, progress, event, observer)?;
        }
        Ok(())
    }
}
