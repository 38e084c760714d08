//! The events of one direction of TLS, however its messages are cut, from `tls_stream`.

pub use tls_stream::{
    DEFAULT_LIMIT, Event, EventReader, Fault, Next, Source, StreamView, join_pieces, laws,
    take_messages,
};
