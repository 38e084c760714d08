//! Follows TLS 1.0 to 1.3 and DTLS 1.0 to 1.2 handshakes and decides how each one ends.
//!
//! A message with its direction is a [`Symbol`]. [`Flow`] is a state machine over symbols; nothing
//! here allocates. The contract of [`Flow::run`] states the outcome by a grammar of handshakes
//! (`specs/Grammar.antt` and `specs/Conversations.antt`), which has no states. The table of
//! transitions is proved to agree with it.
//!
//! What a side sends becomes a [`FlowEvent`]:
//!
//! | sent | event |
//! |---|---|
//! | a whole TLS handshake message in the clear | `FlowEvent::of_handshake(bytes, direction)` |
//! | a [`HandshakeMessage`] that is already parsed | `FlowEvent::new(message.kind(), direction)` |
//! | a whole DTLS handshake message, up to 1.2 | `FlowEvent::new(Kind::of_type(msg_type), direction)` |
//! | an alert in the clear | `FlowEvent::of_alert(&alert, direction)` |
//! | a ChangeCipherSpec, a heartbeat | `Kind::ChangeCipherSpec`, `Kind::Heartbeat` |
//! | an encrypted record: after a ChangeCipherSpec, or application data | `Kind::Encrypted` |
//! | a record or message that is refused | `Kind::Unknown` |
//! | a parsed message | `FlowEvent::of(&message, to_server)` |
//!
//! A DTLS message is one event, whatever the order of its fragments.
#![tactic(auto)]

mod bytes;
mod event;
mod flow;
mod handshake;
pub mod laws;
mod message;
mod state;
mod step;
mod symbol;
mod table;

pub use event::FlowEvent;
pub use flow::{Flow, Stop, outcome_of};
pub use handshake::{HandshakeMessage, ReadServerHello};
pub use message::{picks_tls13, symbol_of};
pub use state::{Outcome, State};
pub use symbol::{Direction, Kind, Symbol};
