//! Certificates whose fields can't all be read (RFC 5280, section 4.1).
#![tactic(auto, using(layouts::proofs::OneAnswerLemmas::read_allowed))]

ghost use Rattle.layouts.specs.Answers.{Gives};
ghost use Rattle.layouts.specs.Items.{Returns, items_in, value_of};
ghost use Rattle.layouts.specs.Reading.{reading};
ghost use Rattle.x509.specs.Certificate.{extension, view_algorithm, algorithm_identifier, view_key_info, subject_public_key_info};
ghost use Rattle.x509.specs.Name.{relative_distinguished_name, name as name_layout};
ghost use Rattle.x509.specs.Outline.{FirstElements as PlainFirst, view_first_elements, first_elements, TbsElements as PlainElements, view_tbs_elements, tbs_elements, Outline as PlainOutline, view_outline, outline_content, certificate_outline, version_of, serial_number_in, extensions_in, ValidityElements as PlainValidity, view_validity_elements, validity_elements_content, validity_elements};

use crate::algorithm::{
    AlgorithmIdentifier, SubjectPublicKeyInfo, parse_algorithm_identifier, parse_key_info,
};
use crate::extension::Extensions;
use crate::name::{Name, parse_name};
use crate::tbs::{Version, read_optional_fields};
use der::{AllBytes, Integer, element_bytes, optional, tag, tagged};
use layouts::{Err, Error, IResult, InPlace, Items, parsed, rest};

/// The elements of a TBSCertificate up to the issuer.
#[derive(Clone, Copy)]
struct FirstElements<'a> {
    version: Option<&'a [u8]>,
    serial_number: &'a [u8],
    signature: &'a [u8],
    issuer: &'a [u8],
}

/// Parses the elements up to the issuer.
#[tactic(auto, using(layouts::proofs::OneAnswerLemmas::read_allowed), unfolding(crate::specs::Outline::first_elements))]
fn read_first_elements(i: &[u8]) -> IResult<&[u8], FirstElements>
    ensures { Gives view_first_elements first_elements i.now result }
{
    let (i, version) = parsed!(optional::<AllBytes>(i, 0xa0));
    let (i, serial_number) = parsed!(element_bytes(i));
    let (i, signature) = parsed!(element_bytes(i));
    let (i, issuer) = parsed!(element_bytes(i));
    let elements = FirstElements {
        version,
        serial_number,
        signature,
        issuer,
    };
    Ok((i, elements))
}

/// The elements of a TBSCertificate.
#[derive(Clone, Copy)]
struct TbsElements<'a> {
    first: FirstElements<'a>,
    validity: &'a [u8],
    subject: &'a [u8],
    key: &'a [u8],
    others: &'a [u8],
}

impl<'a> InPlace<'a> for TbsElements<'a> {
    type Read = Self;

    ghost Value = { PlainElements };

    ghost view = { view_tbs_elements };

    ghost layout = { tbs_elements };

    #[tactic(auto, using(layouts::proofs::OneAnswerLemmas::read_allowed), unfolding(crate::specs::Outline::tbs_elements))]
    fn read(i: &'a [u8]) -> IResult<&'a [u8], Self> {
        let (i, first) = parsed!(read_first_elements(i));
        let (i, validity) = parsed!(element_bytes(i));
        let (i, subject) = parsed!(element_bytes(i));
        let (i, key) = parsed!(element_bytes(i));
        let (i, others) = parsed!(rest(i));
        let elements = TbsElements {
            first,
            validity,
            subject,
            key,
            others,
        };
        Ok((i, elements))
    }
}

/// A certificate whose fields aren't parsed yet, so that one that can't be read leaves the others.
/// Each field is its element, with tag and length.
#[derive(Clone, Copy, Debug, PartialEq)]
pub struct Outline<'a> {
    /// The content of the explicit tag of the version, if it is there.
    pub version: Option<&'a [u8]>,
    /// The serial number.
    pub serial_number: &'a [u8],
    /// The inner algorithm of the signature.
    pub signature: &'a [u8],
    /// The signer.
    pub issuer: &'a [u8],
    /// When it is valid.
    pub validity: &'a [u8],
    /// The owner of the key.
    pub subject: &'a [u8],
    /// The key.
    pub subject_public_key_info: &'a [u8],
    /// What follows the key: unique identifiers and extensions.
    pub others: &'a [u8],
    /// The algorithm of the signature.
    pub signature_algorithm: &'a [u8],
}

/// The content of a certificate.
struct OutlineContent;

impl<'a> InPlace<'a> for OutlineContent {
    type Read = Outline<'a>;

    ghost Value = { PlainOutline };

    ghost view = { view_outline };

    ghost layout = { outline_content };

    #[tactic(auto, using(layouts::proofs::OneAnswerLemmas::read_allowed), unfolding(crate::specs::Outline::outline_content))]
    fn read(i: &'a [u8]) -> IResult<&'a [u8], Outline<'a>> {
        let (i, tbs) = parsed!(tagged::<TbsElements>(i, tag::SEQUENCE));
        let (i, signature_algorithm) = parsed!(element_bytes(i));
        let (i, _) = parsed!(rest(i));
        let outline = Outline {
            version: tbs.first.version,
            serial_number: tbs.first.serial_number,
            signature: tbs.first.signature,
            issuer: tbs.first.issuer,
            validity: tbs.validity,
            subject: tbs.subject,
            subject_public_key_info: tbs.key,
            others: tbs.others,
            signature_algorithm,
        };
        Ok((i, outline))
    }
}

/// Parses a certificate as the elements of its fields, whatever these contain.
///
/// - `Incomplete` with the count of bytes missing of the certificate's tag, length or content.
/// - What [`der::tagged`] and [`der::element_bytes`] refuse.
#[tactic(auto, using(layouts::proofs::OneAnswerLemmas::read_allowed), unfolding(crate::specs::Outline::certificate_outline))]
pub fn parse_outline(i: &[u8]) -> IResult<&[u8], Outline>
    ensures { Gives view_outline certificate_outline i.now result }
{
    tagged::<OutlineContent>(i, tag::SEQUENCE)
}

/// The elements of a Validity.
#[derive(Clone, Copy, Debug, PartialEq)]
pub struct ValidityElements<'a> {
    /// The first second, for [`crate::parse_time`].
    pub not_before: &'a [u8],
    /// The last second, for [`crate::parse_time`].
    pub not_after: &'a [u8],
}

/// The content of a Validity.
struct ValidityContent;

impl<'a> InPlace<'a> for ValidityContent {
    type Read = ValidityElements<'a>;

    ghost Value = { PlainValidity };

    ghost view = { view_validity_elements };

    ghost layout = { validity_elements_content };

    #[tactic(auto, using(layouts::proofs::OneAnswerLemmas::read_allowed), unfolding(crate::specs::Outline::validity_elements_content))]
    fn read(i: &'a [u8]) -> IResult<&'a [u8], ValidityElements<'a>> {
        let (i, not_before) = parsed!(element_bytes(i));
        let (i, not_after) = parsed!(element_bytes(i));
        let validity = ValidityElements {
            not_before,
            not_after,
        };
        Ok((i, validity))
    }
}

/// Parses a Validity as the elements of its times, whatever these contain.
///
/// It refuses what [`der::tagged`] and [`der::element_bytes`] do.
#[tactic(auto, using(layouts::proofs::OneAnswerLemmas::read_allowed), unfolding(crate::specs::Outline::validity_elements))]
pub fn parse_validity_elements(i: &[u8]) -> IResult<&[u8], ValidityElements>
    ensures { Gives view_validity_elements validity_elements i.now result }
{
    tagged::<ValidityContent>(i, tag::SEQUENCE)
}

impl<'a> Outline<'a> {
    /// The version minus 1; 0 if the field is absent.
    pub fn version(self) -> Result<u8, Err<Error<&'a [u8]>>>
        ensures { Returns (λ v. v) (version_of (view_outline self.entry).version) result }
    {
        match self.version {
            Some(content) => {
                let (_, version) = parsed!(Version::read(content));
                Ok(version)
            }
            None => Ok(0),
        }
    }

    /// The serial number: an INTEGER's bytes.
    pub fn serial_number(self) -> Result<&'a [u8], Err<Error<&'a [u8]>>>
        ensures { Returns (λ v. v.now) (serial_number_in self.entry.serial_number.now) result }
    {
        let (_, number) = parsed!(tagged::<Integer>(self.serial_number, tag::INTEGER));
        Ok(number)
    }

    /// The signer.
    pub fn issuer(self) -> Result<Name<'a>, Err<Error<&'a [u8]>>>
        ensures { Returns (λ v. items_in relative_distinguished_name v.bytes.now)
            (value_of (reading name_layout self.entry.issuer.now)) result }
    {
        let (_, name) = parsed!(parse_name(self.issuer));
        Ok(name)
    }

    /// The owner of the key.
    pub fn subject(self) -> Result<Name<'a>, Err<Error<&'a [u8]>>>
        ensures { Returns (λ v. items_in relative_distinguished_name v.bytes.now)
            (value_of (reading name_layout self.entry.subject.now)) result }
    {
        let (_, name) = parsed!(parse_name(self.subject));
        Ok(name)
    }

    /// The times between which it is valid, as elements.
    pub fn validity(self) -> Result<ValidityElements<'a>, Err<Error<&'a [u8]>>>
        ensures { Returns view_validity_elements
            (value_of (reading validity_elements self.entry.validity.now)) result }
    {
        let (_, validity) = parsed!(parse_validity_elements(self.validity));
        Ok(validity)
    }

    /// The key.
    pub fn subject_public_key_info(self) -> Result<SubjectPublicKeyInfo<'a>, Err<Error<&'a [u8]>>>
        ensures { Returns view_key_info
            (value_of (reading subject_public_key_info self.entry.subject_public_key_info.now))
            result }
    {
        let (_, info) = parsed!(parse_key_info(self.subject_public_key_info));
        Ok(info)
    }

    /// The algorithm of the signature.
    pub fn signature_algorithm(self) -> Result<AlgorithmIdentifier<'a>, Err<Error<&'a [u8]>>>
        ensures { Returns view_algorithm
            (value_of (reading algorithm_identifier self.entry.signature_algorithm.now)) result }
    {
        let (_, algorithm) = parsed!(parse_algorithm_identifier(self.signature_algorithm));
        Ok(algorithm)
    }

    /// The extensions; empty if there is no list.
    pub fn extensions(self) -> Result<Items<'a, Extensions>, Err<Error<&'a [u8]>>>
        ensures { Returns (λ v. items_in extension v.bytes.now)
            (extensions_in self.entry.others.now) result }
    {
        let (_, fields) = parsed!(read_optional_fields(self.others));
        Ok(fields.extensions)
    }
}
