//! Parameters of key exchange (RFC 5246, section 7.4.3; RFC 8422, section 5.4), signatures (RFC
//! 5246, section 4.7) and certificate timestamps (RFC 6962, section 3.2).
//!
//! The promise: each parse call returns the one answer of its layout. `KeyExchange`, `Signature`
//! and `Timestamp` in `specs/` define the layouts.
#![tactic(auto, using(layouts::proofs::OneAnswerLemmas::read_allowed))]

mod dh;
mod ec;
mod signature;
mod timestamp;
mod timestamp_view;

pub use dh::{ServerDHParams, parse_dh_params};
pub use ec::{
    ECCurve, ECParameters, ECParametersContent, ExplicitPrimeContent, ServerECDHParams,
    parse_ec_parameters, parse_ecdh_params, parse_named_groups,
};
pub use signature::{
    DigitallySigned, SignatureAndHashAlgorithm, parse_content_and_signature,
    parse_digitally_signed, parse_digitally_signed_old,
};
pub use timestamp::{
    CtExtensions, CtLogID, SignedCertificateTimestamp, parse_ct_signed_certificate_timestamp,
    parse_ct_signed_certificate_timestamp_list,
};
pub use timestamp_view::certificate_timestamps;
