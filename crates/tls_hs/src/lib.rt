//! Parses handshake messages, the content of records of type 22 (RFC 5246, section 7.4), and the
//! messages of other records.
//!
//! The promise: each parse call returns the one answer of its layout. That is the value and the
//! exact rest, or the refusal of the leftmost part that can't be read. Slices in a value are parts
//! of the input.
//!
//! - `specs/Message.antt` defines the messages of records, `Handshake` the body of each handshake
//!   type. `Hello`, `ServerHello`, `Certificate` and `Session` define the bodies' fields.
//! - `specs/InPlace.antt` and `Messages` define messages that are parsed while they are walked.
//! - `specs/HandshakeText.antt` defines the encoding, which `tls_hs_writer` writes.
//! - `specs/Places.antt` defines where the parts of a ClientHello are in its bytes.
#![tactic(auto, using(layouts::proofs::OneAnswerLemmas::read_allowed))]

mod bodies;
mod body_by_type;
mod certificate;
mod certificate_request;
mod certificate_view;
mod client_hello;
mod client_hello_places;
mod client_hello_trait;
mod client_hello_view;
mod handshake;
mod handshake_view;
mod hello_fields;
mod message;
mod message_view;
pub mod parts;
mod server_hello;
mod session;

pub use bodies::{
    parse_tls_handshake_msg_certificate, parse_tls_handshake_msg_certificaterequest,
    parse_tls_handshake_msg_certificatestatus, parse_tls_handshake_msg_certificateverify,
    parse_tls_handshake_msg_client_hello, parse_tls_handshake_msg_finished,
    parse_tls_handshake_msg_hello_request, parse_tls_handshake_msg_hello_retry_request,
    parse_tls_handshake_msg_server_hello, parse_tls_handshake_msg_server_hello_of_draft,
    parse_tls_handshake_msg_serverdone,
};
pub use certificate::{
    RawCertificate, TlsCertificateContents, TlsCertificateStatusContents,
    parse_tls_handshake_certificatestatus,
};
pub use certificate_request::{
    TlsCertificateRequestContents, parse_tls_handshake_certificaterequest,
};
pub use certificate_view::{CertificateRequestView, certificates};
pub use client_hello::{TlsClientHelloContents, parse_tls_handshake_client_hello};
pub use client_hello_places::ClientHelloPlaces;
pub use client_hello_trait::ClientHello;
pub use client_hello_view::ClientHelloView;
pub use handshake::TlsMessageHandshake;
pub use handshake_view::{HandshakeView, RawHandshake};
pub use message::{
    TlsMessage, TlsMessageApplicationData, TlsMessageHeartbeat, parse_tls_message_alert,
    parse_tls_message_applicationdata, parse_tls_message_changecipherspec,
    parse_tls_message_handshake, parse_tls_message_heartbeat,
};
pub use message_view::{Alert, ChangeCipherSpec, Messages, RawMessage, heartbeat};
pub use server_hello::{
    TlsHelloRetryRequestContents, TlsServerHelloContents, TlsServerHelloV13Draft18Contents,
    parse_tls_handshake_server_hello,
};
pub use session::{
    KeyUpdateRequest, TlsClientKeyExchangeContents, TlsNewSessionTicketContent,
    TlsNextProtocolContent, TlsServerKeyExchangeContents,
    parse_tls_handshake_msg_clientkeyexchange, parse_tls_handshake_msg_key_update,
    parse_tls_handshake_msg_newsessionticket, parse_tls_handshake_msg_next_protocol,
    parse_tls_handshake_msg_serverkeyexchange, parse_tls_handshake_next_protocol,
};
