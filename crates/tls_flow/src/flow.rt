//! The state of one conversation.
ghost use Rattle.std.specs.Prelude.{◌≡◌, ◌↔◌, List, Contains};
ghost use Rattle.tls_flow.specs.Conversations.{IsOutcome, IsStop, IsAwaited};
ghost use Rattle.tls_flow.specs.Symbols.{symbols_of};
ghost use Rattle.tls_flow.specs.Steps.{silence, follow};
ghost use Rattle.tls_flow.specs.Table.{outcome_at, awaited_in};
ghost use Rattle.tls_words.specs.Words.{run as run_of};
ghost use Rattle.tls_flow.specs.declared.event.FlowEvent.{FlowEvent};
ghost use Rattle.tls_flow.specs.declared.symbol.Symbol.{Symbol};
ghost use Rattle.tls_flow.specs.declared.flow.Flow.{Flow};
ghost use Rattle.tls_flow.specs.declared.state.Outcome.{Outcome};
ghost use Rattle.tls_flow.specs.declared.table.TheConstants.{ROWS};

use crate::event::FlowEvent;
use crate::state::{Outcome, State};
use crate::step::{is_failed, is_waiting};
use crate::symbol::Symbol;
use crate::table::{awaited, next_state};

/// The event that ended a handshake without success, for the outcomes of [`Flow::stop`].
#[derive(Clone, Copy, Debug, PartialEq)]
pub struct Stop {
    /// The fatal alert, the unknown message, or the first message that didn't fit.
    pub event: FlowEvent,
    /// How many events came before it, saturating at 2^64 - 1.
    pub place: u64,
}

/// A conversation, followed from its first event.
#[derive(Clone, Debug, PartialEq, Drop)]
pub struct Flow {
    state: State,
    events: u64,
    stop: Option<Stop>,
}

impl Flow {
    /// A conversation without events.
    pub fn new() -> Flow
        ensures { result ≡ silence }
    {
        Flow {
            state: State::Start,
            events: 0,
            stop: None,
        }
    }

    /// A conversation in this state with its count of events at 0, for a caller that stores only
    /// the state.
    pub fn at(state: State) -> Flow
        ensures { result ≡ record silence { state = state } }
    {
        Flow {
            state,
            events: 0,
            stop: None,
        }
    }

    /// The state after the events so far.
    pub fn state(&self) -> State
        ensures { result ≡ self.now.state }
    {
        self.state
    }

    /// The outcome after the events so far.
    pub fn outcome(&self) -> Outcome
        ensures { result ≡ outcome_at self.now.state }
    {
        self.state.outcome()
    }

    /// The event that ended the handshake, if the outcome is [`Outcome::BrokenOff`],
    /// [`Outcome::Unknown`] or [`Outcome::NoHandshake`].
    pub fn stop(&self) -> Option<Stop>
        ensures { result ≡ self.now.stop }
    {
        self.stop
    }

    /// How many events came, including those after the end; saturates at 2^64 - 1.
    pub fn events(&self) -> u64
        ensures { result ≡ self.now.events }
    {
        self.events
    }

    /// The symbols that can come next in a handshake, or complete one; noise may come besides.
    /// Empty unless the outcome is [`Outcome::Waiting`].
    pub fn awaited(&self) -> &'static [Symbol]
        ensures rows { result.now ≡ awaited_in ROWS self.now.state }
        ensures by_grammar { (events : List FlowEvent) → self.now ≡ run_of follow silence events
            → (l : Symbol)
            → Contains result.now l ↔ IsAwaited l (symbols_of events) }
    {
        awaited(self.state)
    }

    /// Adds one event. After the end of the handshake it only counts the event.
    #[inline]
    pub fn update(&mut self, event: FlowEvent)
        ensures { self.new ≡ follow self.old event }
    {
        if is_waiting(self.state) {
            self.state = next_state(self.state, event.symbol);
            if is_failed(self.state) {
                self.stop = Some(Stop {
                    event,
                    place: self.events,
                });
            }
        }
        self.events = self.events.saturating_add(1);
    }

    /// Adds each event in turn. For a new conversation, the grammar in `specs/Grammar.antt` defines
    /// the outcome, without states. Noise (warnings, heartbeats, and the server's HelloRequests) is
    /// allowed anywhere.
    ///
    /// - [`Outcome::Full`] if the events begin with a full handshake, [`Outcome::Resumed`] with a
    ///   resumption, and [`Outcome::Tls13`] with one of TLS 1.3. What follows doesn't matter.
    /// - [`Outcome::Waiting`] if they begin with none of these and further events can still
    ///   complete one.
    /// - [`Outcome::BrokenOff`] if a fatal alert came in that phase, and [`Outcome::Unknown`] if an
    ///   unknown message did.
    /// - [`Outcome::NoHandshake`] if they neither begin with a handshake, nor can become one, nor
    ///   were stopped by such a message.
    ///
    /// [`Flow::stop`] is the event that made it one of the last three, and how many came before it.
    pub fn run(&mut self, events: &[FlowEvent])
        ensures by_steps { self.new ≡ run_of follow self.old events.now }
        ensures by_grammar { self.old ≡ silence → (o : Outcome) → (outcome_at self.new.state ≡ o)
            ↔ IsOutcome o (symbols_of events.now) }
        ensures stopped { self.old ≡ silence → IsStop self.new.stop events.now }
    {
        for i in 0..events.len() {
            self.update(events[i]);
        }
    }
}

/// The outcome of a whole conversation. Exactly one outcome holds for each.
pub fn outcome_of(events: &[FlowEvent]) -> Outcome
    ensures by_grammar { IsOutcome result (symbols_of events.now) }
    ensures alone { (o : Outcome) → IsOutcome o (symbols_of events.now) → o ≡ result }
{
    let mut flow = Flow::new();
    flow.run(events);
    flow.outcome()
}
