//! Certificates, with the places of their fields (RFC 5280, section 4.1).
#![tactic(auto, using(layouts::proofs::OneAnswerLemmas::read_allowed))]

ghost use Rattle.std.specs.Prelude.{IfOk};
ghost use Rattle.layouts.specs.Answers.{Gives};
ghost use Rattle.x509.specs.Certificate.{Certificate as PlainCertificate, view_certificate, certificate_content, certificate};
ghost use Rattle.x509_places.specs.Certificate.{CertificateStands};

use crate::algorithm::{AlgorithmPlaces, algorithm_at};
use crate::part::{Part, tagged_at};
use crate::place::taken;
use crate::tbs::{TBSCertificateAt, TBSPlaces};
use crate::value::BitStringAt;
use der::tag;
use layouts::{IResult, Place, rest as rest_of};
use x509::Certificate;

/// The places of a certificate's fields.
#[derive(Clone, Copy, Debug, PartialEq)]
pub struct CertificatePlaces {
    /// The bytes that are signed: the TBSCertificate with its tag and its length.
    pub signed_bytes: Place,
    /// The fields of the TBSCertificate.
    pub tbs_certificate: TBSPlaces,
    /// The algorithm of the signature.
    pub signature_algorithm: AlgorithmPlaces,
    /// The signature's bytes, without the number of unused bits.
    pub signature_value: Place,
}

/// The content of a certificate.
struct CertificateContentAt;

impl<'a> Part<'a> for CertificateContentAt {
    type Read = (Certificate<'a>, CertificatePlaces);

    ghost Value = { PlainCertificate };

    ghost view = { λ x. view_certificate x.0 };

    ghost layout = { certificate_content };

    ghost stands = { λ b x. CertificateStands b x.0 x.1 };

    #[tactic(auto, using(layouts::proofs::OneAnswerLemmas::read_allowed), unfolding(x509::specs::Certificate::certificate_content))]
    fn read_at(whole: &[u8], behind: usize, i: &'a [u8]) -> IResult<&'a [u8], Self::Read> {
        let (_, bytes) = rest_of(i)?;
        let (after, (tbs_certificate, tbs_places)) = tagged_at::<TBSCertificateAt>(
            whole,
            behind,
            i,
            tag::SEQUENCE,
        )?;
        let signed = taken(whole, behind, bytes, after);
        let (after_algorithm, (signature_algorithm, algorithm_places)) = algorithm_at(
            whole, behind, after,
        )?;
        let (rest, (signature_value, signature_place)) = tagged_at::<BitStringAt>(
            whole,
            behind,
            after_algorithm,
            tag::BIT_STRING,
        )?;
        let certificate = Certificate {
            signed_bytes: signed.0,
            tbs_certificate,
            signature_algorithm,
            signature_value,
        };
        let places = CertificatePlaces {
            signed_bytes: signed.1,
            tbs_certificate: tbs_places,
            signature_algorithm: algorithm_places,
            signature_value: signature_place,
        };
        Ok((rest, (certificate, places)))
    }
}

/// Parses a certificate, with the places of its fields in `whole`. The result and the refusals are
/// those of [`x509::parse_certificate`].
#[tactic(auto, using(layouts::proofs::OneAnswerLemmas::read_allowed), unfolding(x509::specs::Certificate::certificate))]
pub fn certificate_with_places(whole: &[u8]) -> IResult<&[u8], (Certificate, CertificatePlaces)>
    ensures gives { Gives (λ x. view_certificate x.0) certificate whole.now result }
    ensures places { IfOk result (λ x. CertificateStands whole.now x.1.0 x.1.1) }
{
    tagged_at::<CertificateContentAt>(whole, 0, whole, tag::SEQUENCE)
}
