//! Parses OCSP responses (RFC 6960), as servers staple them (RFC 6066, section 8), without copying.
//!
//! [`parse_ocsp_response`] parses the response around, which says whether the responder answered;
//! [`parse_basic_ocsp_response`] what it answered: a list of [`SingleResponse`]s, one for each
//! certificate. [`response_for`] returns the one for a serial number. [`parse_timestamp_list`]
//! parses the signed certificate timestamps in an extension of a response or a certificate (RFC
//! 6962, section 3.3), up to their encoding in TLS.
//!
//! Each call parses the front of bytes and doesn't allocate. It returns what a layout of `specs/`
//! allows. Signatures aren't verified.
#![tactic(auto, using(layouts::proofs::OneAnswerLemmas::read_allowed))]

mod basic;
pub mod oid;
mod response;
mod single;
mod timestamps;

pub use basic::{
    BasicOcspResponse, Certificates, ResponderId, ResponseData, parse_basic_ocsp_response,
};
pub use response::{OcspResponse, OcspResponseStatus, ResponseBytes, parse_ocsp_response};
pub use single::{CertId, CertStatus, RevokedInfo, SingleResponse, SingleResponses, response_for};
pub use timestamps::parse_timestamp_list;
