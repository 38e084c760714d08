//! Re-exports the public calls, types and layouts of Wispuddera's crates for TLS, DTLS and
//! certificates, so that a program needs only one dependency. It defines nothing. `capture` and
//! `segments`, which read captured packets and reassemble TCP streams, are separate and not
//! included.
//!
//! | module | content |
//! |---|---|
//! | `tls` | records and messages of TLS and DTLS, extensions, views, the writer, `ParseContext` |
//! | `streams` | records and messages from a stream that arrives in pieces |
//! | `events` | the events of one direction of TLS, however its messages are cut |
//! | `datagrams` | the events of one direction of DTLS, from its datagrams |
//! | `fragments` | messages of DTLS, reassembled from their fragments |
//! | `conversations` | the events of both sides, and how the handshake ended |
//! | `detection` | whether bytes are TLS or DTLS, by how they begin |
//! | `places` | offsets and lengths of a message's parts |
//! | `flows` | how a handshake ended: full, resumed, TLS 1.3, broken off |
//! | `certificates` | X.509 certificates and their extensions |
//! | `certificate_texts` | certificates printed as text, and whether they are for a host |
//! | `certificate_places` | offsets and lengths of a certificate's fields |
//!
//! The definitions are under this crate's name too, such as `Rattle.wispuddera.specs.Layout`. If
//! two crates have a file of the same name, the layer comes first (`FlowGrammar`,
//! `HandshakeInPlace`, `X509Name`). Each promise is the contract of the call, in the crate that
//! defines it.
//!
//! The other modules are the crates below these. They are re-exported so that a program with this
//! one dependency has their impls too.
#![tactic(auto)]

pub mod conversations;
pub mod events;
pub mod fragments;

pub use der as elements;
pub use dtls_records as datagram_records;
pub use dtls_stream as datagrams;
pub use layouts as fields;
pub use raw_records as raw;
pub use tls_base as numbers;
pub use tls_detection as detection;
pub use tls_ext as extensions;
pub use tls_flow as flows;
pub use tls_hs as handshakes;
pub use tls_hs_writer as handshake_writers;
pub use tls_key_exchange as key_exchanges;
pub use tls_parser as tls;
pub use tls_places as places;
pub use tls_records as records;
pub use tls_states as states;
pub use tls_stream as streams;
pub use tls_words as words;
pub use x509 as certificates;
pub use x509_places as certificate_places;
pub use x509_text as certificate_texts;
