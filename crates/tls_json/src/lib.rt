//! Messages of TLS and DTLS as JSON, each field by the name that its RFC gives it.
//!
//! [`HandshakeJson`] is a handshake message, [`AlertJson`] an alert, [`ChangeCipherSpecJson`] a
//! ChangeCipherSpec, and [`HeartbeatJson`] a heartbeat. `serde` writes them:
//!
//! - a cipher suite by its name in IANA's registry or by its number, as [`SuiteText`] says;
//! - other numbers of 2 bytes that stand for something, such as versions and groups, in
//!   hexadecimal, as `0xc02f`;
//! - counts and codes of one byte in decimal;
//! - bytes in hexadecimal without `0x`;
//! - names that a peer sent as text, in which a byte that isn't printable ASCII is escaped, as
//!   `\xff`.
//!
//! A message is a table of fields, which one printer writes. `specs/Tables.antt` defines the fields
//! of each message.
//!
//! The fields of key exchanges and signatures depend on the version and the cipher suite of the
//! ServerHello: [`NegotiatedParameters`].
//!
//! OCSP responses and certificate timestamps are bytes, with their fields beside them. Clauses on
//! these are about lists too (`specs/Whole.antt`).
//!
//! Nothing is left out. A body or an extension that can't be parsed is its bytes in hexadecimal.
//! Bytes after the last field of a body are in `rest` beside the body. Bytes that the last list of
//! a body leaves are in `rest` inside it.
#![tactic(auto)]

mod alert;
mod body;
mod certificate;
mod change;
mod content;
mod datagrams;
mod extension;
mod heartbeat;
mod hello;
mod json;
mod key_exchange;
mod message;
mod negotiated;
mod object;
mod offers;
mod responses;
mod suite;
mod table;
mod text;
mod timestamps;

pub use alert::AlertJson;
pub use change::ChangeCipherSpecJson;
pub use heartbeat::HeartbeatJson;
pub use message::HandshakeJson;
pub use negotiated::NegotiatedParameters;
pub use suite::SuiteText;
