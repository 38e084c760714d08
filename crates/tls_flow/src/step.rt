//! The outcome of each state.
ghost use Rattle.std.specs.Prelude.{◌≡◌};
ghost use Rattle.tls_flow.specs.Table.{is_failed as is_failed_at, is_waiting as is_waiting_at, outcome_at};

use crate::state::{Outcome, State};

impl State {
    /// The outcome of a conversation in this state.
    #[inline]
    pub fn outcome(self) -> Outcome
        ensures { result ≡ outcome_at self }
    {
        match self {
            State::Full => Outcome::Full,
            State::Resumed => Outcome::Resumed,
            State::Tls13 => Outcome::Tls13 {
                retried: false,
                early_data: false,
            },
            State::EarlyTls13 => Outcome::Tls13 {
                retried: false,
                early_data: true,
            },
            State::RetriedTls13 => Outcome::Tls13 {
                retried: true,
                early_data: false,
            },
            State::EarlyRetriedTls13 => Outcome::Tls13 {
                retried: true,
                early_data: true,
            },
            State::BrokenOff => Outcome::BrokenOff,
            State::Unknown => Outcome::Unknown,
            State::NoHandshake => Outcome::NoHandshake,
            _ => Outcome::Waiting,
        }
    }
}

/// Whether a handshake is under way in this state, or nothing was sent yet.
#[inline]
pub(crate) fn is_waiting(state: State) -> bool
    ensures { result ≡ is_waiting_at (outcome_at state) }
{
    !matches!(
        state,
        State::Full
            | State::Resumed
            | State::Tls13
            | State::EarlyTls13
            | State::RetriedTls13
            | State::EarlyRetriedTls13
            | State::BrokenOff
            | State::Unknown
            | State::NoHandshake
    )
}

/// Whether this state is an end without success.
#[inline]
pub(crate) fn is_failed(state: State) -> bool
    ensures { result ≡ is_failed_at (outcome_at state) }
{
    matches!(
        state,
        State::BrokenOff | State::Unknown | State::NoHandshake
    )
}
