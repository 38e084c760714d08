//! The step from a state to the next.
ghost use Rattle.std.specs.Prelude.{◌≡◌};
ghost use Rattle.tls_states.specs.Symbols.{symbol, symbol_of};
ghost use Rattle.tls_states.specs.Steps.{step, rule};

use crate::state::{StateChangeError, TlsState};
use crate::symbol::{Direction, Kind};
use crate::table::next_after;
use tls_hs::TlsMessage;

/// Returns the effect of a message of `kind` in `state` if the table has no row for it.
fn by_rule(state: TlsState, kind: Kind) -> Result<TlsState, StateChangeError>
    ensures { result ≡ rule state kind }
{
    match (state, kind) {
        (TlsState::Invalid | TlsState::SessionEncrypted, _) => Ok(state),
        (TlsState::Finished, _) => Ok(TlsState::Invalid),
        (TlsState::None, Kind::HelloRequest) => Err(StateChangeError::InvalidTransition),
        (_, Kind::HelloRequest | Kind::Warning) => Ok(state),
        (_, Kind::Fatal) => Ok(TlsState::Finished),
        _ => Err(StateChangeError::InvalidTransition),
    }
}

/// Returns the state after a symbol.
#[inline]
fn next_state(
    state: TlsState,
    kind: Kind,
    direction: Direction,
) -> Result<TlsState, StateChangeError>
    ensures { result ≡ step state (symbol kind direction) }
{
    match next_after(state, kind, direction) {
        Some(next) => Ok(next),
        None => by_rule(state, kind),
    }
}

/// Returns the state after a message (RFC 5246, section 7.3). `to_server` means that it goes from
/// the client to the server.
///
/// - A message that the state waits for, as [`TlsState`] describes, leads to the state in its row
///   of the table.
/// - Every message keeps [`TlsState::Invalid`] and [`TlsState::SessionEncrypted`], and
///   [`TlsState::Finished`] leads to `Invalid`.
/// - In other states, a HelloRequest keeps the state, except in [`TlsState::None`], where it is
///   refused. An alert of severity 1 keeps the state, and any other alert leads to `Finished`.
///
/// `InvalidTransition` if no row and no rule has the message. Only the kind of a message matters,
/// for a ClientHello also whether it has a session id, and for an alert its severity. Allocates
/// nothing.
pub fn tls_state_transition(
    state: TlsState,
    msg: &TlsMessage<'_>,
    to_server: bool,
) -> Result<TlsState, StateChangeError>
    ensures { result ≡ step state (symbol_of msg.now to_server) }
{
    next_state(state, Kind::of(msg), Direction::of(to_server))
}
