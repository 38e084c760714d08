//! Parses certificates with the offsets and lengths of their fields.
//!
//! [`certificate_with_places`] parses a certificate as [`x509::parse_certificate`] does, and
//! returns a [`layouts::Place`] for each field. [`extension_with_places`] and
//! [`general_name_with_place`] do so for one extension, and for one name of a subject or an issuer.
//! Nothing here allocates, and every refusal is that of `x509`.
//!
//! Each place is proved to lie within the certificate and to hold the field's bytes;
//! `specs/Certificate.antt` and `specs/Walk.antt` state it.
#![tactic(auto, using(layouts::proofs::OneAnswerLemmas::read_allowed))]

mod algorithm;
mod certificate;
mod extension;
mod general_name;
mod name;
mod part;
mod place;
mod tbs;
mod value;

pub use algorithm::{AlgorithmPlaces, KeyPlaces};
pub use certificate::{CertificatePlaces, certificate_with_places};
pub use extension::{ExtensionPlaces, extension_with_places};
pub use general_name::{general_name_with_place, general_names_with_place};
pub use tbs::TBSPlaces;
