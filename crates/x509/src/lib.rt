//! Parses X.509 certificates (RFC 5280) in DER (X.690), without copying.
//!
//! Each call parses one structure at the front of bytes and doesn't allocate. It returns what a
//! layout of `specs/` allows: the value and the exact rest, the kind of the broken rule, or the
//! exact count of missing bytes. `specs/Certificate.antt` has the layout of a certificate. Names
//! and extensions are lists whose items are parsed while iterating.
//!
//! Nothing is verified: no signature, no name against a host, no time against a clock.
#![tactic(auto, using(layouts::proofs::OneAnswerLemmas::read_allowed))]

mod access;
mod algorithm;
mod basic_constraints;
mod certificate;
mod extension;
mod general_name;
mod key_identifier;
mod key_parameters;
mod key_usage;
pub mod laws;
mod name;
mod name_places;
pub mod oid;
mod outline;
mod public_key;
mod tbs;
mod validity;

pub use access::{
    AccessDescription, AccessDescriptions, Policies, parse_authority_info_access,
    parse_certificate_policies,
};
pub use algorithm::{AlgorithmIdentifier, SubjectPublicKeyInfo, parse_algorithm_identifier};
pub use basic_constraints::{BasicConstraints, parse_basic_constraints};
pub use certificate::{Certificate, parse_certificate};
pub use extension::{Extension, Extensions, first_extension};
pub use general_name::{
    GeneralName, GeneralNames, OtherName, parse_general_names, parse_other_name,
};
pub use key_identifier::{
    AuthorityKeyIdentifier, parse_authority_key_identifier, parse_subject_key_identifier,
};
pub use key_usage::{
    KeyPurposeId, KeyPurposeIds, KeyUsage, parse_extended_key_usage, parse_key_usage,
};
pub use name::{
    AttributeTypeAndValue, Attributes, Name, RelativeDistinguishedName, RelativeDistinguishedNames,
    WholeSets, parse_name,
};
pub use name_places::{EncodedNames, NamePlaces, parse_name_places};
pub use outline::{Outline, ValidityElements, parse_outline, parse_validity_elements};
pub use public_key::{PublicKey, parse_rsa_public_key};
pub use tbs::TBSCertificate;
pub use validity::{Validity, parse_time};
