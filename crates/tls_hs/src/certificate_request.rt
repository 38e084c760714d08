//! The CertificateRequest up to TLS 1.2, in its two forms (RFC 5246, section 7.4.4).
ghost use Rattle.std.specs.Prelude.{◌≡◌, map, IfOk};
ghost use Rattle.layouts.specs.Answers.{GivesOrMemory};
ghost use Rattle.tls_hs.specs.Certificate.{view_certificate_request, certificate_types as certificate_types_layout};
ghost use Rattle.tls_hs.specs.Certificate.{signature_algorithms as signature_algorithms_layout};
ghost use Rattle.tls_hs.specs.Certificate.{certificate_authorities as certificate_authorities_layout};
ghost use Rattle.tls_hs.specs.Certificate.{certificate_request_with_algorithms, certificate_request_without_algorithms};
ghost use Rattle.tls_hs.specs.Certificate.{certificate_request};

use layouts::{
    Counted2, Err, ErrorKind, IResult, Number2, OutOfMemory, counted1, counted2, items, parsed,
    refused,
};
use std::alloc::Global;

/// The body of a CertificateRequest up to TLS 1.2 (RFC 5246, section 7.4.4).
#[derive(Debug, PartialEq, Drop)]
pub struct TlsCertificateRequestContents<'a> {
    /// The types of certificates that the server accepts.
    pub cert_types: Vec<u8>,
    /// The signature algorithms that the server supports; `None` up to TLS 1.1.
    pub sig_hash_algs: Option<Vec<u16>>,
    /// The names of the certificate authorities that the server trusts, in DER.
    pub unparsed_ca: Vec<&'a [u8]>,
}

impl<'a> TlsCertificateRequestContents<'a> {
    /// Returns a copy with copied lists. The names' bytes are shared.
    ///
    /// `OutOfMemory` if a list can't be allocated.
    pub fn try_clone(&self, alloc: Global) -> Result<Self, OutOfMemory>
        ensures { IfOk result
            (λ r. view_certificate_request r ≡ view_certificate_request self.now) }
    {
        let sig_hash_algs = match &self.sig_hash_algs {
            Some(algorithms) => Some(Vec::from_slice(alloc, algorithms)?),
            None => None,
        };
        Ok(TlsCertificateRequestContents {
            cert_types: Vec::from_slice(alloc, &self.cert_types)?,
            sig_hash_algs,
            unparsed_ca: Vec::from_slice(alloc, &self.unparsed_ca)?,
        })
    }
}

/// Reads certificate types: 1 byte of length and that many types, 1 byte each.
#[tactic(auto, using(layouts::proofs::OneAnswerLemmas::read_allowed), unfolding(crate::specs::Certificate::certificate_types))]
fn certificate_types(alloc: Global, i: &[u8]) -> IResult<&[u8], Vec<u8>>
    ensures { GivesOrMemory (λ v. v.items) certificate_types_layout i.now result }
{
    let (i, types) = parsed!(counted1(i));
    Ok((i, Vec::from_slice(alloc, types)?))
}

/// Reads signature algorithms: 2 bytes of length and that many bytes of numbers, 2 bytes each.
#[tactic(auto, using(layouts::proofs::OneAnswerLemmas::read_allowed, layouts::proofs::ListLemmas::map_same), unfolding(crate::specs::Certificate::signature_algorithms))]
fn signature_algorithms(alloc: Global, i: &[u8]) -> IResult<&[u8], Vec<u16>>
    ensures { GivesOrMemory (λ v. v.items) signature_algorithms_layout i.now result }
{
    let (i, window) = parsed!(counted2(i));
    let (_, algorithms) = parsed!(items::<Number2>(alloc, window));
    Ok((i, algorithms))
}

/// Reads names of authorities: 2 bytes of length and that many bytes of names, each after 2 bytes
/// of length.
#[tactic(auto, using(layouts::proofs::OneAnswerLemmas::read_allowed), unfolding(crate::specs::Certificate::certificate_authorities))]
fn certificate_authorities(alloc: Global, i: &[u8]) -> IResult<&[u8], Vec<&[u8]>>
    ensures { GivesOrMemory (λ v. map (λ x. x.now) v.items) certificate_authorities_layout
        i.now result }
{
    let (i, window) = parsed!(counted2(i));
    let (_, authorities) = parsed!(items::<Counted2>(alloc, window));
    Ok((i, authorities))
}

/// Reads a request in the form of TLS 1.2.
#[tactic(auto, using(layouts::proofs::OneAnswerLemmas::read_allowed), unfolding(crate::specs::Certificate::certificate_request_with_algorithms))]
fn with_algorithms(alloc: Global, i: &[u8]) -> IResult<&[u8], TlsCertificateRequestContents>
    ensures { GivesOrMemory view_certificate_request certificate_request_with_algorithms
        i.now result }
{
    let (i, cert_types) = parsed!(certificate_types(alloc, i));
    let (i, algorithms) = parsed!(signature_algorithms(alloc, i));
    let (i, unparsed_ca) = parsed!(certificate_authorities(alloc, i));
    let request = TlsCertificateRequestContents {
        cert_types,
        sig_hash_algs: Some(algorithms),
        unparsed_ca,
    };
    Ok((i, request))
}

/// Reads a request in the form up to TLS 1.1.
#[tactic(auto, using(layouts::proofs::OneAnswerLemmas::read_allowed), unfolding(crate::specs::Certificate::certificate_request_without_algorithms))]
fn without_algorithms(alloc: Global, i: &[u8]) -> IResult<&[u8], TlsCertificateRequestContents>
    ensures { GivesOrMemory view_certificate_request certificate_request_without_algorithms
        i.now result }
{
    let (i, cert_types) = parsed!(certificate_types(alloc, i));
    let (i, unparsed_ca) = parsed!(certificate_authorities(alloc, i));
    let request = TlsCertificateRequestContents {
        cert_types,
        sig_hash_algs: None,
        unparsed_ca,
    };
    Ok((i, request))
}

/// Reads the body of a CertificateRequest up to TLS 1.2 (RFC 5246, section 7.4.4). All numbers are
/// big-endian.
///
/// - Certificate types of 1 byte each, after 1 byte of length;
/// - signature algorithms of 2 bytes each, after 2 bytes of length;
/// - names of authorities, each after 2 bytes of length; the list is after 2 bytes of length too.
///
/// If that can't be read, the form up to TLS 1.1 is tried, without the algorithms (RFC 4346,
/// section 7.4.4).
///
/// - `Error` of kind `Complete` if neither form can be read, even if only bytes are missing.
/// - `OutOfMemory` if a list of the form that is tried can't be allocated; the other form isn't
///   tried then.
#[tactic(auto, using(layouts::proofs::OneAnswerLemmas::read_allowed), unfolding(crate::specs::Certificate::certificate_request))]
pub fn parse_tls_handshake_certificaterequest(
    alloc: Global,
    i: &[u8],
) -> IResult<&[u8], TlsCertificateRequestContents>
    ensures { GivesOrMemory view_certificate_request certificate_request i.now result }
{
    match with_algorithms(alloc, i) {
        Ok(request) => Ok(request),
        Err(e) => match e {
            Err::OutOfMemory => Err(Err::OutOfMemory),
            _ => match without_algorithms(alloc, i) {
                Ok(request) => Ok(request),
                Err(e) => match e {
                    Err::OutOfMemory => Err(Err::OutOfMemory),
                    _ => refused(i, ErrorKind::Complete),
                },
            },
        },
    }
}
