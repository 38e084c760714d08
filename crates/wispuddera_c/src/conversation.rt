//! Both sides of a TLS conversation, joined: pieces in, events out, and the outcome. The caller
//! provides a buffer for each side.
ghost use Rattle.std.specs.Prelude.{◌≡◌, ◌≢◌, ◌≤◌, ◌<◌, ◌+◌, ◌||◌, ℕ, Bool, [], List, length, true, false, if◌then◌else◌};
ghost use Rattle.tls_stream.specs.Conversations.{IsBegun};
ghost use Rattle.tls_stream.specs.FlowEvents.{chooses_tls13 as chooses};
ghost use Rattle.layouts.specs.Bytes.{Bytes};
ghost use Rattle.tls_flow.specs.Conversations.{IsOutcome};
ghost use Rattle.tls_flow.specs.Symbols.{symbols_of};
ghost use Rattle.tls_flow.specs.Steps.{follow as follow_by};
ghost use Rattle.tls_flow.specs.Table.{is_failed, is_waiting, outcome_at};
ghost use Rattle.tls_flow.specs.declared.event.FlowEvent.{FlowEvent};
ghost use Rattle.tls_flow.specs.declared.state.Outcome.{Outcome};
ghost use Rattle.wispuddera_c.specs.Conversation.{AreEvents, IsGiven, IsNext, IsStopShown, IsWaiting, is_established, is_resumed, joined, known_of, side_at, with_side};
ghost use Rattle.wispuddera_c.specs.Course.{flow_of, state_in};
ghost use Rattle.wispuddera_c.specs.Outcome.{outcome_number};
ghost use Rattle.wispuddera_c.specs.Side.{IsWithin, count_held};
ghost use Rattle.wispuddera_c.specs.Status.{no_room, none, outside};

use crate::content::EventContent;
use crate::course::{Course, Stop};
use crate::outcome::number_of_outcome;
use crate::side::{ReadingState, Side};
use crate::status::{NO_ROOM, NONE, OUTSIDE, READ};
use tls_flow::{Direction, FlowEvent, Kind, Outcome};

/// A TLS conversation whose sides' bytes arrive in pieces.
#[repr(C)]
#[derive(Clone, Copy)]
pub struct Conversation {
    /// The side of the client.
    pub client: Side,
    /// The side of the server.
    pub server: Side,
    /// The limit for the body of a handshake message, in bytes.
    pub limit: usize,
    /// The flow of the handshake.
    pub course: Course,
    /// Whether TLS 1.3 was chosen.
    pub is_tls13: bool,
    /// Whether the handshake's last event resumes a session by pre_shared_key.
    pub has_session: bool,
}

impl Conversation {
    /// The state that decides how its sides are read.
    fn known(&self) -> ReadingState
        ensures { result ≡ known_of self.now }
    {
        ReadingState {
            limit: self.limit,
            is_tls13: self.is_tls13,
        }
    }

    /// The state of the stream to the server, or from it.
    fn side(&self, to_server: bool) -> Side
        ensures { result ≡ side_at to_server self.now }
    {
        if to_server { self.client } else { self.server }
    }

    /// Replaces the state of the stream to the server, or from it.
    fn put(&mut self, to_server: bool, side: Side)
        ensures { self.new ≡ with_side to_server side self.old }
    {
        if to_server {
            self.client = side;
        } else {
            self.server = side;
        }
    }

    /// Follows an event.
    fn follow(&mut self, event: FlowEvent, takes_session: bool)
        ensures sides { (self.new.client ≡ self.old.client) × (self.new.server ≡ self.old.server) }
        ensures limit { self.new.limit ≡ self.old.limit }
        ensures tls13 { self.new.is_tls13
            ≡ (self.old.is_tls13 || chooses event.symbol.kind event.symbol.direction) }
        ensures flow { flow_of self.new.course ≡ follow_by (flow_of self.old.course) event }
        ensures session { self.new.has_session
            ≡ (if is_waiting (outcome_at (state_in self.old.course.flow)) then
            takes_session else self.old.has_session) }
    {
        self.is_tls13 |= chooses_tls13(event);
        if is_under_way(self.course.state().outcome()) {
            self.has_session = takes_session;
        }
        self.course.follow(event);
    }
}

/// Whether a handshake can still complete.
fn is_under_way(outcome: Outcome) -> bool
    ensures { result ≡ is_waiting outcome }
{
    match outcome {
        Outcome::Waiting => true,
        Outcome::Full => false,
        Outcome::Resumed => false,
        Outcome::BrokenOff => false,
        Outcome::Unknown => false,
        Outcome::NoHandshake => false,
        Outcome::Tls13 { .. } => false,
    }
}

/// Whether the server chooses TLS 1.3 with this event.
fn chooses_tls13(event: FlowEvent) -> bool
    ensures { result ≡ chooses event.symbol.kind event.symbol.direction }
{
    matches!(
        (event.symbol.direction, event.symbol.kind),
        (
            Direction::FromServer,
            Kind::ServerHello13 | Kind::HelloRetryRequest
        )
    )
}

/// Begins an empty conversation, where the body of a handshake message may have at most `limit`
/// bytes.
#[unsafe(no_mangle)]
pub extern "C" fn wispuddera_conversation_start(conversation: &mut Conversation, limit: usize)
    ensures begun { (x y : Bytes) → IsBegun limit (joined x y conversation.new) }
    ensures within { (room : ℕ) (to_server : Bool)
        → IsWithin room (side_at to_server conversation.new) }
    ensures events { AreEvents [] conversation.new }
{
    *conversation = Conversation {
        client: Side::new(),
        server: Side::new(),
        limit,
        course: Course::new(),
        is_tls13: false,
        has_session: false,
    };
}

/// Appends a piece of a side's stream to its buffer. After a fault of that side the piece is
/// dropped.
#[unsafe(no_mangle)]
pub extern "C" fn wispuddera_conversation_feed(
    buffer: &mut [u8],
    conversation: &mut Conversation,
    to_server: bool,
    piece: &[u8],
) -> u32
    ensures fed { result ≡ 0
        → IsGiven to_server buffer.old buffer.new conversation.old conversation.new piece.now }
    ensures other { result ≢ 0 → (buffer.new ≡ buffer.old) × (conversation.new ≡ conversation.old) }
    ensures fits { IsWithin (length buffer.old) (side_at to_server conversation.old)
        → count_held (side_at to_server conversation.old) + length piece.now ≤ length buffer.old
        → result ≡ 0 }
    ensures full { IsWithin (length buffer.old) (side_at to_server conversation.old)
        → (side_at to_server conversation.old).is_over ≡ false
        → length buffer.old < count_held (side_at to_server conversation.old) + length piece.now
        → result ≡ no_room }
    ensures behind { (IsWithin (length buffer.old) (side_at to_server conversation.old) → ⊥)
        → result ≡ outside }
{
    let mut side = conversation.side(to_server);
    if !side.lies_within(buffer.len()) {
        return OUTSIDE;
    }
    if side.is_over {
        return READ;
    }
    if !side.fits(buffer.len(), piece.len()) {
        return NO_ROOM;
    }
    side.append(buffer, piece);
    conversation.put(to_server, side);
    READ
}

/// Returns a side's next event, removes it from the buffer, and follows it.
#[unsafe(no_mangle)]
pub extern "C" fn wispuddera_conversation_next(
    buffer: &mut [u8],
    conversation: &mut Conversation,
    to_server: bool,
    out: &mut EventContent,
) -> u32
    ensures read { result ≡ 0
        → IsNext to_server buffer.old buffer.new conversation.old conversation.new out.new }
    ensures waits { result ≡ none
        → IsWaiting to_server buffer.old buffer.new conversation.old conversation.new }
    ensures stays { result ≢ 0 → out.new ≡ out.old }
    ensures inside { IsWithin (length buffer.old) (side_at to_server conversation.old) → result ≢ 0
        → result ≡ none }
    ensures behind { (IsWithin (length buffer.old) (side_at to_server conversation.old) → ⊥)
        → (result ≡ outside) × (buffer.new ≡ buffer.old) × (conversation.new ≡ conversation.old) }
{
    let mut side = conversation.side(to_server);
    if !side.lies_within(buffer.len()) {
        return OUTSIDE;
    }
    if side.is_over {
        return NONE;
    }
    let received = side.next_event(buffer, conversation.known(), Direction::of(to_server));
    conversation.put(to_server, side);
    match received {
        Some(received) => {
            conversation.follow(received.event, received.takes_session);
            *out = received.content;
            READ
        }
        None => NONE,
    }
}

/// The outcome of a conversation, by all events that were returned.
#[unsafe(no_mangle)]
pub extern "C" fn wispuddera_conversation_outcome(conversation: &Conversation) -> u32
    ensures { (events : List FlowEvent) → AreEvents events conversation.now
        → (o : Outcome) × (result ≡ outcome_number o) × IsOutcome o (symbols_of events) }
{
    number_of_outcome(conversation.course.state().outcome())
}

/// Returns what ended a handshake without success.
#[unsafe(no_mangle)]
pub extern "C" fn wispuddera_conversation_stop(conversation: &Conversation, out: &mut Stop) -> u32
    ensures shown_by { (events : List FlowEvent) → AreEvents events conversation.now
        → IsStopShown events result out.new }
    ensures stays { result ≢ 0 → out.new ≡ out.old }
{
    if is_stopped(conversation.course.state().outcome()) {
        *out = conversation.course.stop;
        READ
    } else {
        NONE
    }
}

/// Whether the handshake ended without success.
fn is_stopped(outcome: Outcome) -> bool
    ensures { result ≡ is_failed outcome }
{
    match outcome {
        Outcome::BrokenOff => true,
        Outcome::Unknown => true,
        Outcome::NoHandshake => true,
        Outcome::Waiting => false,
        Outcome::Full => false,
        Outcome::Resumed => false,
        Outcome::Tls13 { .. } => false,
    }
}

/// Whether the visible part of the handshake is complete. In TLS 1.3 it ends with the ServerHello.
#[unsafe(no_mangle)]
pub extern "C" fn wispuddera_conversation_established(conversation: &Conversation) -> bool
    ensures { result ≡ is_established (outcome_at (state_in conversation.now.course.flow)) }
{
    match conversation.course.state().outcome() {
        Outcome::Full => true,
        Outcome::Resumed => true,
        Outcome::Tls13 { .. } => true,
        Outcome::Waiting => false,
        Outcome::BrokenOff => false,
        Outcome::Unknown => false,
        Outcome::NoHandshake => false,
    }
}

/// Whether a session was resumed; in TLS 1.3, by the ServerHello's pre_shared_key (RFC 8446,
/// section 4.2.11).
#[unsafe(no_mangle)]
pub extern "C" fn wispuddera_conversation_resumed(conversation: &Conversation) -> bool
    ensures { result ≡ is_resumed (outcome_at (state_in conversation.now.course.flow))
        conversation.now.has_session }
{
    match conversation.course.state().outcome() {
        Outcome::Resumed => true,
        Outcome::Tls13 { .. } => conversation.has_session,
        Outcome::Full => false,
        Outcome::Waiting => false,
        Outcome::BrokenOff => false,
        Outcome::Unknown => false,
        Outcome::NoHandshake => false,
    }
}
