//! Computes fingerprints of hellos: JA3 and JA4 of a ClientHello, and JA3S of a ServerHello.
//!
//! Programs that use the same library with the same settings have the same fingerprint, whatever
//! host they connect to. A fingerprint uses the fields of a hello that are in the clear, without
//! the reserved GREASE values (RFC 8701). It equals what other tools print: JA3 and JA3S as in
//! Wireshark, JA4 as FoxIO defines it.
//!
//! A hello is passed as [`ClientHelloParts`] or [`ServerHelloParts`], which any view or copy of a
//! hello can fill. `specs/Ja3.antt` and `specs/Ja4.antt` define the fingerprints, and the calls are
//! proved to return them; [`laws`] states that JA4's digests don't depend on the order of suites
//! and extensions.
#![tactic(auto, using(layouts::proofs::OneAnswerLemmas::read_allowed))]

mod digest_cache;
mod digits;
mod feeding;
mod hellos;
mod ja3;
mod ja3_numbers;
mod ja4;
mod ja4_numbers;
pub mod laws;
mod numbers;
mod room;

pub use digest_cache::DigestCache;
pub use digits::MOST;
pub use hellos::{ClientHelloParts, ServerHelloParts, Transport};
pub use ja3::ja3_digest;
