//! Collects what a TLS or DTLS connection shows in the clear: its hellos, certificates and alerts.
//!
//! [`HandshakeSummary`] is the state of one connection. Each handshake message and alert of either
//! side updates it, and its methods return the fields.
//!
//! The promise is that no later message changes a hello: [`laws`] states it.
//! `specs/HandshakeSummary.antt` defines the updates, and `specs/Fields.antt` the fields.
#![tactic(auto, using(layouts::proofs::OneAnswerLemmas::read_allowed))]

mod certificate_cache;
mod chain_order;
mod drafts;
mod encrypted;
mod exchange;
mod fields;
mod hellos;
pub mod laws;
mod parts;
mod summary;

pub use certificate_cache::CertificateCache;
pub use drafts::{Draft, draft_of};
pub use encrypted::EncryptedClientHello;
pub use fields::{DELEGATED_CREDENTIAL, ENCRYPTED_CLIENT_HELLO};
pub use parts::{
    CertificateFault, CertificateSummary, ClientParts, ServerParts, certificate_fault,
};
pub use summary::HandshakeSummary;
