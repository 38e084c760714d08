//! Writes handshake messages, the content of records of type 22 (RFC 5246, section 7.4).
//!
//! The promise: parsing a written message returns it, and writing a parsed message returns its
//! bytes, under the conditions that [`laws`] states. `HandshakeText` of `tls_hs` defines the
//! encoding, `specs/HandshakeWriter.antt` what the writers promise.
#![tactic(auto, using(layouts::proofs::OneAnswerLemmas::read_allowed))]

pub mod laws;
pub mod writer;

pub use writer::{
    gen_tls_clienthello, gen_tls_clientkeyexchange, gen_tls_finished, gen_tls_hellorequest,
    gen_tls_serverhello, gen_tls_serverhellodraft18,
};
