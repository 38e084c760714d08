//! Parses records of TLS with their messages (RFC 5246 and RFC 8446), and writes them. Re-exports
//! raw records and those of DTLS.
//!
//! The promises:
//!
//! - Each parse call returns the one answer of its layout: the value and the exact rest, or the
//!   refusal of the leftmost part that can't be read. Slices in a value are parts of the input.
//! - A record is incomplete exactly while its bytes aren't all present and its length isn't too
//!   large. Memory can't run out unless it is complete and not too large (`NeedsMore` and
//!   `HasNoRecord` of `raw_records`).
//! - Each call that writes appends the encoding of the value. If it refuses the value, or runs out
//!   of memory, it doesn't call the `Write`. If the `Write` fails, how much it took is unknown.
//! - What is written reads back, and what was read is written back, under the conditions that
//!   `specs/RecordText.antt` and `RecordWriter` define.
//!
//! `specs/Record.antt` defines the layouts, `InPlace` records whose messages are parsed while they
//! are walked. [`laws`] states what follows from the layouts alone.
#![tactic(auto, using(layouts::proofs::OneAnswerLemmas::read_allowed))]

pub mod laws;
mod plaintext;
mod plaintext_view;
mod writer;

pub use dtls_records::{
    DTLSBodyView, DTLSClientHello, DTLSClientHelloView, DTLSHandshakeView, DTLSHelloVerifyRequest,
    DTLSMessage, DTLSMessageHandshake, DTLSMessageHandshakeBody, DTLSMessages, DTLSPlaintext,
    DTLSPlaintextView, DTLSRawHandshake, DTLSRawMessage, parse_dtls_message_alert,
    parse_dtls_message_changecipherspec, parse_dtls_message_handshake, parse_dtls_plaintext_record,
    parse_dtls_plaintext_record_in_place, parse_dtls_plaintext_records,
    parse_dtls_record_with_header, parse_dtls_record_with_header_in_place,
};
pub use plaintext::{
    TlsPlaintext, parse_tls_plaintext, parse_tls_record_with_header, tls_parser, tls_parser_many,
};
pub use plaintext_view::{
    PlaintextView, first_body, parse_tls_plaintext_in_place, parse_tls_record_with_header_in_place,
    server_name_of_record,
};
pub use raw_records::{
    DTLSRawRecord, DTLSRecordHeader, MAX_ENCRYPTED_LEN, MAX_RECORD_LEN, TlsEncrypted,
    TlsEncryptedContent, TlsRawRecord, TlsRecordHeader, parse_dtls_record_header,
    parse_tls_encrypted, parse_tls_raw_record, parse_tls_record_header,
};
pub use writer::{Serialize, gen_tls_changecipherspec, gen_tls_message, gen_tls_plaintext};
