//! Certificates and their status.
ghost use Rattle.std.specs.Prelude.{◌≡◌, IfOk};
ghost use Rattle.layouts.specs.Answers.{Gives, GivesOrMemory};
ghost use Rattle.tls_hs.specs.Certificate.{view_certificate, certificate as certificate_layout};
ghost use Rattle.tls_hs.specs.Certificate.{view_certificate_status, certificate_status};

use layouts::{IResult, OutOfMemory, Room, counted3, items, number1, parsed};
use std::alloc::Global;

/// A certificate, without its length (RFC 5246, section 7.4.2).
#[derive(Clone, Debug, PartialEq, Drop)]
pub struct RawCertificate<'a> {
    /// The certificate, in DER.
    pub bytes: &'a [u8],
}

impl<'a> Room for RawCertificate<'a> {}

/// The body of a Certificate up to TLS 1.2 (RFC 5246, section 7.4.2).
#[derive(Debug, PartialEq, Drop)]
pub struct TlsCertificateContents<'a> {
    /// The certificates; the sender's is first.
    pub cert_chain: Vec<RawCertificate<'a>>,
}

impl<'a> TlsCertificateContents<'a> {
    /// Returns a copy with a copied list. The certificates' bytes are shared.
    ///
    /// `OutOfMemory` if the list can't be allocated.
    pub fn try_clone(&self, alloc: Global) -> Result<Self, OutOfMemory>
        ensures { IfOk result (λ c. view_certificate c ≡ view_certificate self.now) }
    {
        Ok(TlsCertificateContents {
            cert_chain: self.cert_chain.to_vec(alloc)?,
        })
    }
}

/// Reads the body of a Certificate up to TLS 1.2 (RFC 5246, section 7.4.2): 3 bytes of length,
/// big-endian, and that many bytes of certificates, each after 3 bytes of length. The list ends
/// before the first incomplete certificate; the bytes from there are dropped.
///
/// - `Incomplete` with the number of missing bytes, if the list is incomplete.
/// - `OutOfMemory` if the list can't be allocated.
#[tactic(auto, using(layouts::proofs::OneAnswerLemmas::read_allowed), unfolding(crate::specs::Certificate::certificate))]
#[inline(always)]
pub fn certificate(alloc: Global, i: &[u8]) -> IResult<&[u8], TlsCertificateContents>
    ensures { GivesOrMemory view_certificate certificate_layout i.now result }
{
    let (i, window) = parsed!(counted3(i));
    let (_, cert_chain) = parsed!(items::<RawCertificate>(alloc, window));
    Ok((i, TlsCertificateContents { cert_chain }))
}

/// The body of a CertificateStatus (RFC 6066, section 8).
#[derive(Clone, Debug, PartialEq, Drop)]
pub struct TlsCertificateStatusContents<'a> {
    /// The type of the status: 1 for OCSP.
    pub status_type: u8,
    /// The response of the certificate authority.
    pub blob: &'a [u8],
}

/// Reads the body of a CertificateStatus (RFC 6066, section 8): 1 byte of type, 3 bytes of length,
/// big-endian, and that many bytes.
///
/// `Incomplete` with the number of missing bytes.
#[tactic(auto, using(layouts::proofs::OneAnswerLemmas::read_allowed), unfolding(crate::specs::Certificate::certificate_status))]
pub fn parse_tls_handshake_certificatestatus(
    i: &[u8],
) -> IResult<&[u8], TlsCertificateStatusContents>
    ensures { Gives view_certificate_status certificate_status i.now result }
{
    let (i, status_type) = parsed!(number1(i));
    let (i, blob) = parsed!(counted3(i));
    Ok((i, TlsCertificateStatusContents { status_type, blob }))
}
