//! Certificates (RFC 5280, section 4.1).
#![tactic(auto, using(layouts::proofs::OneAnswerLemmas::read_allowed))]

ghost use Rattle.std.specs.Prelude.{◌≡◌, ◌-◌, length, take};
ghost use Rattle.layouts.specs.Answers.{Gives};
ghost use Rattle.x509.specs.Certificate.{Certificate as PlainCertificate, view_certificate, certificate_content, certificate};

use crate::algorithm::{AlgorithmIdentifier, parse_algorithm_identifier};
use crate::tbs::TBSCertificate;
use der::{BitString, tag, tagged};
use layouts::{IResult, InPlace, parsed, rest};

/// A certificate.
#[derive(Clone, Copy, Debug, PartialEq)]
pub struct Certificate<'a> {
    /// The bytes that are signed: the TBSCertificate with its tag and its length.
    pub signed_bytes: &'a [u8],
    /// The TBSCertificate in these bytes.
    pub tbs_certificate: TBSCertificate<'a>,
    /// The algorithm of the signature. It should equal `signature` in the TBSCertificate, which
    /// isn't checked.
    pub signature_algorithm: AlgorithmIdentifier<'a>,
    /// The signature.
    pub signature_value: BitString<'a>,
}

/// The bytes before `behind`, which is the end of `i`.
fn front_of<'a>(i: &'a [u8], behind: &[u8]) -> &'a [u8]
    ensures { result.now ≡ take (length i.now - length behind.now) i.now }
{
    i.split_at(i.len().saturating_sub(behind.len())).0
}

/// The content of a certificate.
struct CertificateContent;

impl<'a> InPlace<'a> for CertificateContent {
    type Read = Certificate<'a>;

    ghost Value = { PlainCertificate };

    ghost view = { view_certificate };

    ghost layout = { certificate_content };

    #[tactic(auto, using(layouts::proofs::OneAnswerLemmas::read_allowed), unfolding(crate::specs::Certificate::certificate_content))]
    fn read(i: &'a [u8]) -> IResult<&'a [u8], Certificate<'a>> {
        let (_, whole) = parsed!(rest(i));
        let (behind, tbs_certificate) = parsed!(tagged::<TBSCertificate>(i, tag::SEQUENCE));
        let signed_bytes = front_of(whole, behind);
        let (i, signature_algorithm) = parsed!(parse_algorithm_identifier(behind));
        let (i, signature_value) = parsed!(tagged::<BitString>(i, tag::BIT_STRING));
        let certificate = Certificate {
            signed_bytes,
            tbs_certificate,
            signature_algorithm,
            signature_value,
        };
        Ok((i, certificate))
    }
}

/// Parses a certificate, without copying.
///
/// Names and extensions are lists: each item is parsed when the iterator reaches it, and
/// [`layouts::Items::refusal`] returns why an iterator ended early.
///
/// - `Incomplete` with the count of bytes missing of the certificate's tag, length or content.
/// - `Error` of kind `Tag` if an element has another tag than the one required.
/// - `Error` of kind `Complete` if an element doesn't fit in the one around it, or is missing
///   there.
/// - `Error` of kind `LengthValue` if bytes follow the last field of a structure, or an INTEGER or
///   an OBJECT IDENTIFIER is empty.
/// - `Error` of kind `Verify` if a value breaks its rule: a length, an INTEGER or an arc that isn't
///   the shortest, a negative version, a time that doesn't exist, unused bits that are set.
/// - `Error` of kind `Switch` if a length is indefinite, or the tag of an algorithm's parameters
///   has more than one byte.
/// - `Error` of kind `TooLarge` if a length has more than 3 bytes after its first.
#[tactic(auto, using(layouts::proofs::OneAnswerLemmas::read_allowed), unfolding(crate::specs::Certificate::certificate))]
pub fn parse_certificate(i: &[u8]) -> IResult<&[u8], Certificate>
    ensures { Gives view_certificate certificate i.now result }
{
    tagged::<CertificateContent>(i, tag::SEQUENCE)
}
