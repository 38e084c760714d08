//! The part of a certificate that is signed (RFC 5280, section 4.1.2).
#![tactic(auto, using(layouts::proofs::OneAnswerLemmas::read_allowed))]

ghost use Rattle.std.specs.Prelude.{ℕ};
ghost use Rattle.layouts.specs.Answers.{Gives};
ghost use Rattle.x509.specs.Certificate.{version_content, version as version_layout, view_first_fields, first_fields, view_name_fields, name_fields, view_optional_fields, optional_fields};
ghost use Rattle.x509.specs.Certificate.{TBSCertificate as PlainTBSCertificate, view_tbs_certificate, tbs_certificate};

use crate::algorithm::{
    AlgorithmIdentifier, SubjectPublicKeyInfo, parse_algorithm_identifier, parse_key_info,
};
use crate::extension::{ExtensionList, Extensions};
use crate::name::{Name, parse_name};
use crate::validity::{Validity, parse_validity};
use der::{BitString, Integer, optional, tag, tagged};
use layouts::{ErrorKind, IResult, InPlace, Items, number1, parsed, refused};

/// The content of a version's INTEGER.
struct VersionContent;

impl<'a> InPlace<'a> for VersionContent {
    type Read = u8;

    ghost Value = { ℕ };

    ghost view = { λ n. n };

    ghost layout = { version_content };

    #[tactic(auto, using(layouts::proofs::OneAnswerLemmas::read_allowed), unfolding(crate::specs::Certificate::version_content))]
    fn read(i: &'a [u8]) -> IResult<&'a [u8], u8> {
        let (i, n) = parsed!(number1(i));
        if n >= 128 {
            return refused(i, ErrorKind::Verify);
        }
        Ok((i, n))
    }
}

/// A version within its explicit tag.
pub(crate) struct Version;

impl<'a> InPlace<'a> for Version {
    type Read = u8;

    ghost Value = { ℕ };

    ghost view = { λ n. n };

    ghost layout = { version_layout };

    #[tactic(auto, using(layouts::proofs::OneAnswerLemmas::read_allowed), unfolding(crate::specs::Certificate::version))]
    fn read(i: &'a [u8]) -> IResult<&'a [u8], u8> {
        tagged::<VersionContent>(i, tag::INTEGER)
    }
}

/// The fields up to the signature's algorithm.
#[derive(Clone, Copy)]
struct FirstFields<'a> {
    version: u8,
    serial_number: &'a [u8],
    signature: AlgorithmIdentifier<'a>,
}

/// Parses the fields up to the signature's algorithm.
#[tactic(auto, using(layouts::proofs::OneAnswerLemmas::read_allowed), unfolding(crate::specs::Certificate::first_fields))]
fn read_first_fields(i: &[u8]) -> IResult<&[u8], FirstFields>
    ensures { Gives view_first_fields first_fields i.now result }
{
    let (i, version) = parsed!(optional::<Version>(i, 0xa0));
    let (i, serial_number) = parsed!(tagged::<Integer>(i, tag::INTEGER));
    let (i, signature) = parsed!(parse_algorithm_identifier(i));
    let version = match version {
        Some(n) => n,
        None => 0,
    };
    let fields = FirstFields {
        version,
        serial_number,
        signature,
    };
    Ok((i, fields))
}

/// The fields from the issuer to the key.
#[derive(Clone, Copy)]
struct NameFields<'a> {
    issuer: Name<'a>,
    validity: Validity,
    subject: Name<'a>,
    subject_public_key_info: SubjectPublicKeyInfo<'a>,
}

/// Parses the fields from the issuer to the key.
#[tactic(auto, using(layouts::proofs::OneAnswerLemmas::read_allowed), unfolding(crate::specs::Certificate::name_fields))]
fn read_name_fields(i: &[u8]) -> IResult<&[u8], NameFields>
    ensures { Gives view_name_fields name_fields i.now result }
{
    let (i, issuer) = parsed!(parse_name(i));
    let (i, validity) = parsed!(parse_validity(i));
    let (i, subject) = parsed!(parse_name(i));
    let (i, subject_public_key_info) = parsed!(parse_key_info(i));
    let fields = NameFields {
        issuer,
        validity,
        subject,
        subject_public_key_info,
    };
    Ok((i, fields))
}

/// The fields after the key.
#[derive(Clone, Copy)]
pub(crate) struct OptionalFields<'a> {
    issuer_unique_id: Option<BitString<'a>>,
    subject_unique_id: Option<BitString<'a>>,
    pub(crate) extensions: Items<'a, Extensions>,
}

/// Parses the fields after the key.
#[tactic(auto, using(layouts::proofs::OneAnswerLemmas::read_allowed, layouts::proofs::ItemsLemmas::none_in), unfolding(crate::specs::Certificate::optional_fields))]
pub(crate) fn read_optional_fields<'a>(i: &'a [u8]) -> IResult<&'a [u8], OptionalFields<'a>>
    ensures { Gives view_optional_fields optional_fields i.now result }
{
    let (i, issuer_unique_id) = parsed!(optional::<BitString>(i, 0x81));
    let (i, subject_unique_id) = parsed!(optional::<BitString>(i, 0x82));
    let (i, list) = parsed!(optional::<ExtensionList>(i, 0xa3));
    let extensions = match list {
        Some(extensions) => extensions,
        None => Items::new(&[]),
    };
    let fields = OptionalFields {
        issuer_unique_id,
        subject_unique_id,
        extensions,
    };
    Ok((i, fields))
}

/// The part of a certificate that is signed.
#[derive(Clone, Copy, Debug, PartialEq)]
pub struct TBSCertificate<'a> {
    /// The version minus 1: 0 for v1, also if the field is absent; 1 for v2, 2 for v3.
    pub version: u8,
    /// The serial number: an INTEGER's bytes.
    pub serial_number: &'a [u8],
    /// The algorithm of the certificate's signature.
    pub signature: AlgorithmIdentifier<'a>,
    /// The signer.
    pub issuer: Name<'a>,
    /// When it is valid.
    pub validity: Validity,
    /// The owner of the key.
    pub subject: Name<'a>,
    /// The key.
    pub subject_public_key_info: SubjectPublicKeyInfo<'a>,
    /// Which of the issuers with that name it is.
    pub issuer_unique_id: Option<BitString<'a>>,
    /// Which of the subjects with that name it is.
    pub subject_unique_id: Option<BitString<'a>>,
    /// The extensions; empty if there is no list.
    pub extensions: Items<'a, Extensions>,
}

impl<'a> InPlace<'a> for TBSCertificate<'a> {
    type Read = Self;

    ghost Value = { PlainTBSCertificate };

    ghost view = { view_tbs_certificate };

    ghost layout = { tbs_certificate };

    #[tactic(auto, using(layouts::proofs::OneAnswerLemmas::read_allowed), unfolding(crate::specs::Certificate::tbs_certificate))]
    fn read(i: &'a [u8]) -> IResult<&'a [u8], Self> {
        let (i, first) = parsed!(read_first_fields(i));
        let (i, names) = parsed!(read_name_fields(i));
        let (i, others) = parsed!(read_optional_fields(i));
        let certificate = TBSCertificate {
            version: first.version,
            serial_number: first.serial_number,
            signature: first.signature,
            issuer: names.issuer,
            validity: names.validity,
            subject: names.subject,
            subject_public_key_info: names.subject_public_key_info,
            issuer_unique_id: others.issuer_unique_id,
            subject_unique_id: others.subject_unique_id,
            extensions: others.extensions,
        };
        Ok((i, certificate))
    }
}
