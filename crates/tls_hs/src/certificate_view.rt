//! Certificates and certificate requests in place.
ghost use Rattle.layouts.specs.Answers.{Gives};
ghost use Rattle.layouts.specs.Bytes.{Bytes};
ghost use Rattle.layouts.specs.Items.{items_in};
ghost use Rattle.layouts.specs.Layout.{counted, number};
ghost use Rattle.tls_hs.specs.Certificate.{certificate, certificate_types as certificate_types_layout, signature_algorithms as signature_algorithms_layout, certificate_authorities as certificate_authorities_layout, certificate_request_with_algorithms, certificate_request_without_algorithms, certificate_request};
ghost use Rattle.tls_hs.specs.InPlace.{view_certificate_request_in_place};

use crate::certificate::RawCertificate;
use layouts::{
    Counted2, ErrorKind, IResult, InPlace, Items, counted1, counted2, counted3, parsed, refused,
};

impl<'a> InPlace<'a> for RawCertificate<'a> {
    type Read = Self;

    ghost Value = { Bytes };

    ghost view = { λ c. c.bytes.now };

    ghost layout = { counted 3 };

    #[inline(always)]
    fn read(i: &'a [u8]) -> IResult<&'a [u8], Self> {
        let (i, bytes) = parsed!(counted3(i));
        Ok((i, RawCertificate { bytes }))
    }
}

/// Reads the body of a Certificate up to TLS 1.2 in place (RFC 5246, section 7.4.2); the sender's
/// certificate is first. Gives the same answer as [`crate::parse_tls_handshake_msg_certificate`],
/// but allocates nothing.
///
/// The length of the list is checked at once. Each certificate is read when the walk reaches it.
#[tactic(auto, using(layouts::proofs::OneAnswerLemmas::read_allowed), unfolding(crate::specs::Certificate::certificate))]
#[inline(always)]
pub fn certificates(i: &[u8]) -> IResult<&[u8], Items<RawCertificate>>
    ensures { Gives (λ v. items_in (counted 3) v.bytes.now) certificate i.now result }
{
    let (i, window) = parsed!(counted3(i));
    Ok((i, Items::new(window)))
}

/// The body of a CertificateRequest up to TLS 1.2 (RFC 5246, section 7.4.4), as
/// [`crate::TlsCertificateRequestContents`], with its lists in place.
#[derive(Clone, Copy, Debug, PartialEq)]
pub struct CertificateRequestView<'a> {
    /// The types of certificates that the server accepts.
    pub cert_types: &'a [u8],
    /// The signature algorithms that the server supports; `None` up to TLS 1.1.
    pub sig_hash_algs: Option<Items<'a, u16>>,
    /// The names of the certificate authorities that the server trusts, in DER.
    pub unparsed_ca: Items<'a, Counted2>,
}

/// Reads signature algorithms in place: 2 bytes of length and that many bytes of numbers, 2 bytes
/// each.
#[tactic(auto, using(layouts::proofs::OneAnswerLemmas::read_allowed), unfolding(crate::specs::Certificate::signature_algorithms))]
#[inline(always)]
fn signature_algorithms(i: &[u8]) -> IResult<&[u8], Items<u16>>
    ensures { Gives (λ v. items_in (number 2) v.bytes.now) signature_algorithms_layout
        i.now result }
{
    let (i, window) = parsed!(counted2(i));
    Ok((i, Items::new(window)))
}

/// Reads names of authorities in place: 2 bytes of length and that many bytes of names, each after
/// 2 bytes of length.
#[tactic(auto, using(layouts::proofs::OneAnswerLemmas::read_allowed), unfolding(crate::specs::Certificate::certificate_authorities))]
#[inline(always)]
fn certificate_authorities(i: &[u8]) -> IResult<&[u8], Items<Counted2>>
    ensures { Gives (λ v. items_in (counted 2) v.bytes.now) certificate_authorities_layout
        i.now result }
{
    let (i, window) = parsed!(counted2(i));
    Ok((i, Items::new(window)))
}

/// Reads a request in the form of TLS 1.2.
#[tactic(auto, using(layouts::proofs::OneAnswerLemmas::read_allowed), unfolding(crate::specs::Certificate::certificate_request_with_algorithms, crate::specs::Certificate::certificate_types))]
#[inline(always)]
fn with_algorithms(i: &[u8]) -> IResult<&[u8], CertificateRequestView>
    ensures { Gives view_certificate_request_in_place certificate_request_with_algorithms
        i.now result }
{
    let (i, cert_types) = parsed!(counted1(i));
    let (i, algorithms) = parsed!(signature_algorithms(i));
    let (i, unparsed_ca) = parsed!(certificate_authorities(i));
    let request = CertificateRequestView {
        cert_types,
        sig_hash_algs: Some(algorithms),
        unparsed_ca,
    };
    Ok((i, request))
}

/// Reads a request in the form up to TLS 1.1.
#[tactic(auto, using(layouts::proofs::OneAnswerLemmas::read_allowed), unfolding(crate::specs::Certificate::certificate_request_without_algorithms, crate::specs::Certificate::certificate_types))]
#[inline(always)]
fn without_algorithms(i: &[u8]) -> IResult<&[u8], CertificateRequestView>
    ensures { Gives view_certificate_request_in_place certificate_request_without_algorithms
        i.now result }
{
    let (i, cert_types) = parsed!(counted1(i));
    let (i, unparsed_ca) = parsed!(certificate_authorities(i));
    let request = CertificateRequestView {
        cert_types,
        sig_hash_algs: None,
        unparsed_ca,
    };
    Ok((i, request))
}

impl<'a> CertificateRequestView<'a> {
    /// Reads the body of a CertificateRequest in place. Gives the same answer as
    /// [`crate::parse_tls_handshake_certificaterequest`], but allocates nothing.
    ///
    /// The lengths of the lists are checked at once. Their items are read when a walk reaches them.
    #[tactic(auto, using(layouts::proofs::OneAnswerLemmas::read_allowed), unfolding(crate::specs::Certificate::certificate_request))]
    pub fn parse(i: &'a [u8]) -> IResult<&'a [u8], Self>
        ensures { Gives view_certificate_request_in_place certificate_request i.now result }
    {
        match with_algorithms(i) {
            Ok(request) => Ok(request),
            Err(_) => match without_algorithms(i) {
                Ok(request) => Ok(request),
                Err(_) => refused(i, ErrorKind::Complete),
            },
        }
    }
}
