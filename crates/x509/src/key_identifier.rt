//! The keys that a certificate's signature and the certificate are about (RFC 5280, sections
//! 4.2.1.1 and 4.2.1.2).
#![tactic(auto, using(layouts::proofs::OneAnswerLemmas::read_allowed))]

ghost use Rattle.layouts.specs.Answers.{Gives};
ghost use Rattle.x509.specs.Extensions.{AuthorityKeyIdentifier as PlainKeyIdentifier, view_key_identifier, key_identifier_content, authority_key_identifier, subject_key_identifier};

use crate::general_name::GeneralNames;
use der::{AllBytes, Integer, ItemsOf, optional, tag, tagged};
use layouts::{IResult, InPlace, Items, parsed};

/// The key that signed a certificate: its identifier, or the issuer and serial number of its
/// certificate, or both.
#[derive(Clone, Copy, Debug, PartialEq)]
pub struct AuthorityKeyIdentifier<'a> {
    /// The identifier of the key.
    pub key_identifier: Option<&'a [u8]>,
    /// The issuer of the key's certificate.
    pub authority_cert_issuer: Option<Items<'a, GeneralNames>>,
    /// The serial number of that certificate: an INTEGER's bytes.
    pub authority_cert_serial_number: Option<&'a [u8]>,
}

/// The content of an AuthorityKeyIdentifier.
struct KeyIdentifierContent;

impl<'a> InPlace<'a> for KeyIdentifierContent {
    type Read = AuthorityKeyIdentifier<'a>;

    ghost Value = { PlainKeyIdentifier };

    ghost view = { view_key_identifier };

    ghost layout = { key_identifier_content };

    #[tactic(auto, using(layouts::proofs::OneAnswerLemmas::read_allowed), unfolding(crate::specs::Extensions::key_identifier_content))]
    fn read(i: &'a [u8]) -> IResult<&'a [u8], AuthorityKeyIdentifier<'a>> {
        let (i, key_identifier) = parsed!(optional::<AllBytes>(i, 0x80));
        let (i, authority_cert_issuer) = parsed!(optional::<ItemsOf<GeneralNames>>(i, 0xa1));
        let (i, authority_cert_serial_number) = parsed!(optional::<Integer>(i, 0x82));
        let identifier = AuthorityKeyIdentifier {
            key_identifier,
            authority_cert_issuer,
            authority_cert_serial_number,
        };
        Ok((i, identifier))
    }
}

/// Parses an AuthorityKeyIdentifier, the value of authorityKeyIdentifier.
///
/// It refuses what [`der::tagged`], [`der::optional`] and [`Integer`] do.
#[tactic(auto, using(layouts::proofs::OneAnswerLemmas::read_allowed), unfolding(crate::specs::Extensions::authority_key_identifier))]
pub fn parse_authority_key_identifier(i: &[u8]) -> IResult<&[u8], AuthorityKeyIdentifier>
    ensures { Gives view_key_identifier authority_key_identifier i.now result }
{
    tagged::<KeyIdentifierContent>(i, tag::SEQUENCE)
}

/// Parses a SubjectKeyIdentifier, the value of subjectKeyIdentifier: the identifier of the
/// certified key.
///
/// It refuses what [`der::tagged`] does if there is no OCTET STRING.
#[tactic(auto, using(layouts::proofs::OneAnswerLemmas::read_allowed), unfolding(crate::specs::Extensions::subject_key_identifier))]
pub fn parse_subject_key_identifier(i: &[u8]) -> IResult<&[u8], &[u8]>
    ensures { Gives (λ v. v.now) subject_key_identifier i.now result }
{
    tagged::<AllBytes>(i, tag::OCTET_STRING)
}
