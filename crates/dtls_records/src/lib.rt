//! Parses records of DTLS with their messages (RFC 6347).
//!
//! The promises:
//!
//! - Each call returns the one answer of its layout: the value and the exact rest, or the refusal
//!   of the leftmost part that can't be read. Slices in a value are parts of the input.
//! - A record is incomplete exactly while its bytes aren't all present and its length isn't too
//!   large. Memory can't run out unless it is complete and not too large (`NeedsMore` and
//!   `HasNoRecord` of `raw_records`).
//!
//! `specs/DtlsRecord.antt`, `DtlsHandshake` and `DtlsHello` define the layouts, `DtlsInPlace`
//! records whose messages are parsed while they are walked. [`laws`] states what follows from the
//! layouts alone.
#![tactic(auto, using(layouts::proofs::OneAnswerLemmas::read_allowed))]

mod handshake;
mod handshake_view;
mod hello;
mod hello_view;
pub mod laws;
mod message;
mod record;
mod record_view;

pub use handshake::{DTLSMessageHandshake, DTLSMessageHandshakeBody};
pub use handshake_view::{DTLSBodyView, DTLSHandshakeView, DTLSRawHandshake};
pub use hello::{DTLSClientHello, DTLSHelloVerifyRequest};
pub use hello_view::DTLSClientHelloView;
pub use message::{
    DTLSMessage, parse_dtls_message_alert, parse_dtls_message_changecipherspec,
    parse_dtls_message_handshake,
};
pub use record::{
    DTLSPlaintext, parse_dtls_plaintext_record, parse_dtls_plaintext_records,
    parse_dtls_record_with_header,
};
pub use record_view::{
    DTLSMessages, DTLSPlaintextView, DTLSRawMessage, parse_dtls_plaintext_record_in_place,
    parse_dtls_record_with_header_in_place,
};
