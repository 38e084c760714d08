//! The events of both sides, and how the handshake ended. Conversations come from `tls_stream`;
//! `dtls_stream` makes the events of DTLS.

pub use dtls_stream::{datagram_message, dtls_event, dtls_event_with};
pub use tls_flow::{Direction, Flow, Kind, Outcome, Stop};
pub use tls_stream::{
    Conversation, DEFAULT_LIMIT, Event, Fault, SideEvent, chooses_tls13, outcome_of,
    stream_event_with, stream_message, tls_event,
};
