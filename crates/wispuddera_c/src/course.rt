//! The flow of a handshake, and what stopped it, in C structs.
ghost use Rattle.std.specs.Prelude.{◌≡◌, if◌then◌else◌};
ghost use Rattle.std.specs.Option.{option_map, unwrap_or};
ghost use Rattle.tls_flow.specs.Messages.{direction as direction_of};
ghost use Rattle.tls_flow.specs.Steps.{follow, silence};
ghost use Rattle.wispuddera_c.specs.Course.{flow_of, state_in, stop_of as stop_in};

use crate::flow::{Flow, number_of_state, state_of};
use crate::outcome::{Event, number_of};
use tls_base::TlsAlertDescription;
use tls_flow::{Direction, Flow as Followed, FlowEvent, State};

/// What ended a handshake without success, and how many events came before it.
#[repr(C)]
#[derive(Clone, Copy)]
pub struct Stop {
    /// How many events came before it, saturating at 2^64 - 1.
    pub events_before: u64,
    /// The event.
    pub event: Event,
    /// Whether it is an alert in the clear.
    pub is_alert: bool,
    /// The description of that alert; else 0.
    pub alert: u8,
}

/// The flow of a handshake.
#[repr(C)]
#[derive(Clone, Copy)]
pub struct Course {
    /// How many events came, saturating at 2^64 - 1.
    pub events: u64,
    /// What stopped it, if it is stopped.
    pub stop: Stop,
    /// Its state.
    pub flow: Flow,
}

/// Whether this direction is the one to the server.
fn goes_to_server(direction: Direction) -> bool
    ensures { direction_of result ≡ direction }
{
    match direction {
        Direction::ToServer => true,
        Direction::FromServer => false,
    }
}

/// The description of an alert; 0 for another event.
fn alert_of(alert: Option<TlsAlertDescription>) -> u8
    ensures { result ≡ unwrap_or (option_map (λ a. a.0) alert) 0 }
{
    match alert {
        Some(alert) => alert.0,
        None => 0,
    }
}

/// The stop at an event after this many.
fn stop_at(event: FlowEvent, events_before: u64) -> Stop
    ensures { stop_in result ≡ record { event = event; place = events_before } }
{
    Stop {
        events_before,
        event: Event {
            kind: number_of(event.symbol.kind),
            to_server: goes_to_server(event.symbol.direction),
        },
        is_alert: event.alert.is_some(),
        alert: alert_of(event.alert),
    }
}

impl Course {
    /// The flow without events.
    pub fn new() -> Course
        ensures { flow_of result ≡ silence }
    {
        Course {
            events: 0,
            stop: Stop {
                events_before: 0,
                event: Event {
                    kind: 0,
                    to_server: false,
                },
                is_alert: false,
                alert: 0,
            },
            flow: Flow {
                state: number_of_state(State::Start),
            },
        }
    }

    /// Its state. An unknown number counts as no handshake.
    pub fn state(&self) -> State
        ensures { result ≡ state_in self.now.flow }
    {
        match state_of(self.flow.state) {
            Some(state) => state,
            None => State::NoHandshake,
        }
    }

    /// The stop after an event, depending on whether the event stopped it.
    fn stop_behind(&self, is_stopped: bool, event: FlowEvent) -> Stop
        ensures { stop_in result ≡ (if is_stopped then
            record { event = event; place = self.now.events } else stop_in self.now.stop) }
    {
        if is_stopped {
            stop_at(event, self.events)
        } else {
            self.stop
        }
    }

    /// Follows one more event.
    pub fn follow(&mut self, event: FlowEvent)
        ensures { flow_of self.new ≡ follow (flow_of self.old) event }
    {
        let mut followed = Followed::at(self.state());
        followed.update(event);
        self.stop = self.stop_behind(followed.stop().is_some(), event);
        self.events = self.events.saturating_add(1);
        self.flow = Flow {
            state: number_of_state(followed.state()),
        };
    }
}
