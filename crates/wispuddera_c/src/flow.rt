//! A conversation followed event by event, for which the caller keeps just a number.
ghost use Rattle.std.specs.Prelude.{◌≡◌, ◌++◌, ◌∷◌, [], List, None, Some};
ghost use Rattle.tls_flow.specs.Conversations.{IsOutcome};
ghost use Rattle.tls_flow.specs.Table.{outcome_at};
ghost use Rattle.tls_flow.specs.declared.state.Outcome.{Outcome};
ghost use Rattle.wispuddera_c.specs.Flow.{IsBehind, state_at};
ghost use Rattle.wispuddera_c.specs.Outcome.{outcome_number, word_of};
ghost use Rattle.wispuddera_c.specs.declared.outcome.Event.{Event};

use crate::outcome::{Event, followed_event, number_of_outcome};
use tls_flow::{Flow as Followed, Outcome, State};

/// The state of a conversation, as a number.
#[repr(C)]
#[derive(Clone, Copy)]
pub struct Flow {
    /// The number of the state.
    pub state: u32,
}

/// The number of a state.
pub fn number_of_state(state: State) -> u32
    ensures { state_at result ≡ Some state }
{
    match state {
        State::Start => 0,
        State::Hello => 1,
        State::Verify => 2,
        State::VerifiedHello => 3,
        State::ChangedHello => 4,
        State::EarlyHello => 5,
        State::Retry => 6,
        State::EarlyRetry => 7,
        State::SecondHello => 8,
        State::EarlySecondHello => 9,
        State::ServerHello => 10,
        State::Certificate => 11,
        State::CertificateStatus => 12,
        State::CertifiedKeys => 13,
        State::Keys => 14,
        State::Request => 15,
        State::RequestDone => 16,
        State::ClientCertificate => 17,
        State::ClientKeys => 18,
        State::Done => 19,
        State::ClientDone => 20,
        State::ClientChange => 21,
        State::Ticket => 22,
        State::ResumedTicket => 23,
        State::ServerChange => 24,
        State::Full => 25,
        State::Resumed => 26,
        State::Tls13 => 27,
        State::EarlyTls13 => 28,
        State::RetriedTls13 => 29,
        State::EarlyRetriedTls13 => 30,
        State::BrokenOff => 31,
        State::Unknown => 32,
        State::NoHandshake => 33,
    }
}

/// The states in the order of their numbers.
const STATES: [State; 34] = [
    State::Start,
    State::Hello,
    State::Verify,
    State::VerifiedHello,
    State::ChangedHello,
    State::EarlyHello,
    State::Retry,
    State::EarlyRetry,
    State::SecondHello,
    State::EarlySecondHello,
    State::ServerHello,
    State::Certificate,
    State::CertificateStatus,
    State::CertifiedKeys,
    State::Keys,
    State::Request,
    State::RequestDone,
    State::ClientCertificate,
    State::ClientKeys,
    State::Done,
    State::ClientDone,
    State::ClientChange,
    State::Ticket,
    State::ResumedTicket,
    State::ServerChange,
    State::Full,
    State::Resumed,
    State::Tls13,
    State::EarlyTls13,
    State::RetriedTls13,
    State::EarlyRetriedTls13,
    State::BrokenOff,
    State::Unknown,
    State::NoHandshake,
];

/// The state with this number; `None` past the last.
#[inline(always)]
pub fn state_of(number: u32) -> Option<State>
    ensures { result ≡ state_at number }
{
    STATES.get(number as usize).copied()
}

/// Begins a conversation without events.
#[unsafe(no_mangle)]
pub extern "C" fn wispuddera_flow_start(flow: &mut Flow)
    ensures { IsBehind [] flow.new }
{
    *flow = Flow {
        state: number_of_state(State::Start),
    };
}

/// Follows one more event. An unknown number doesn't change.
#[unsafe(no_mangle)]
pub extern "C" fn wispuddera_flow_step(flow: &mut Flow, event: &Event)
    ensures follows { (events : List Event) → IsBehind events flow.old
        → IsBehind (events ++ event.now ∷ []) flow.new }
    ensures stays { state_at flow.old.state ≡ None → flow.new ≡ flow.old }
{
    if let Some(state) = state_of(flow.state) {
        let mut followed = Followed::at(state);
        followed.update(followed_event(*event));
        *flow = Flow {
            state: number_of_state(followed.state()),
        };
    }
}

/// The outcome of a conversation, as `wispuddera_outcome` returns it for the events. An unknown
/// number counts as no handshake.
#[unsafe(no_mangle)]
pub extern "C" fn wispuddera_flow_outcome(flow: &Flow) -> u32
    ensures shown_by { (events : List Event) → IsBehind events flow.now
        → (o : Outcome) × (result ≡ outcome_number o) × IsOutcome o (word_of events) }
    ensures other { state_at flow.now.state ≡ None → result ≡ 5 }
{
    match state_of(flow.state) {
        Some(state) => number_of_outcome(state.outcome()),
        None => number_of_outcome(Outcome::NoHandshake),
    }
}
