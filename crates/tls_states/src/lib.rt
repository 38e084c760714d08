//! The handshake's state machine (RFC 5246, section 7.3): which message may come in which state,
//! and where a conversation ends.
//!
//! [`tls_state_transition`] maps a message and its direction to a symbol, and looks it up in one
//! table. [`ParseContext`] keeps the state. The promise: the state after [`ParseContext::run`] is
//! that of a grammar of handshakes, which has no states.
//!
//! - `specs/Grammar.antt` defines the handshakes, `Conversations` what a conversation has become by
//!   the grammar.
//! - `specs/Symbols.antt` defines the symbol of a message, `Steps` the state after a symbol.
//! - `specs/Table.antt` defines look-ups in the table, `States` the states' names.
#![tactic(auto)]

mod context;
mod state;
mod symbol;
mod table;
mod transition;

pub use context::ParseContext;
pub use state::{StateChangeError, TlsState};
pub use transition::tls_state_transition;
