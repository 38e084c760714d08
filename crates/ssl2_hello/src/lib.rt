//! Parses the ClientHello in the form of SSL 2.0, which old clients also send to begin SSL 3.0 and
//! TLS (RFC 5246, appendix E.2).
//!
//! No other message of SSL 2.0 is parsed: a server of SSL 3.0 or TLS answers such a hello in its
//! usual records. [`laws`] states the promise: a stream that begins as such a hello is never
//! refused later. `specs/ClientHello.antt` and `specs/Front.antt` define the hello.
#![tactic(auto, using(layouts::proofs::OneAnswerLemmas::read_allowed))]

mod cipher_spec;
mod client_hello;
mod front;
pub mod laws;

pub use cipher_spec::CipherSpec;
pub use client_hello::{Ssl2ClientHello, parse_ssl2_client_hello};
pub use front::begins_ssl2_hello;
