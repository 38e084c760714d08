//! The part of a certificate that is signed, with the places of its fields.
#![tactic(auto, using(layouts::proofs::OneAnswerLemmas::read_allowed))]

ghost use Rattle.std.specs.Prelude.{◌≡◌, ℕ, IfOk, IfSome, List};
ghost use Rattle.std.specs.Option.{option_map};
ghost use Rattle.layouts.specs.Bytes.{Bytes};
ghost use Rattle.layouts.specs.Answers.{Gives};
ghost use Rattle.layouts.specs.Items.{items_in};
ghost use Rattle.x509.specs.Certificate.{Extension as PlainExtension, version_content, version as version_layout, validity_content, validity, extension, extensions as extensions_layout};
ghost use Rattle.x509.specs.Certificate.{first_fields, name_fields, optional_fields, or_none, or_v1, TBSCertificate as PlainTBSCertificate, view_tbs_certificate, tbs_certificate};
ghost use Rattle.x509_places.specs.Certificate.{TBSStands};
ghost use Rattle.x509_places.specs.Fields.{NamesStand, view_first, view_names, view_optional};
ghost use Rattle.x509_places.specs.Place.{IsBefore, Stands};

use crate::algorithm::{KeyPlaces, algorithm_at, key_at};
use crate::name::name_at;
use crate::part::{Part, optional_at, tagged_at};
use crate::value::{IntegerAt, ItemsAt};
use der::{BitString, optional, tag, tagged};
use layouts::{ErrorKind, IResult, InPlace, Items, Place, number1, refused};
use x509::{
    AlgorithmIdentifier, Extensions, Name, SubjectPublicKeyInfo, TBSCertificate, Validity,
    parse_time,
};

/// The content of a version's INTEGER.
struct VersionContent;

impl<'a> InPlace<'a> for VersionContent {
    type Read = u8;

    ghost Value = { ℕ };

    ghost view = { λ n. n };

    ghost layout = { version_content };

    #[tactic(auto, using(layouts::proofs::OneAnswerLemmas::read_allowed), unfolding(x509::specs::Certificate::version_content))]
    fn read(i: &'a [u8]) -> IResult<&'a [u8], u8> {
        let (i, n) = number1(i)?;
        if n >= 128 {
            return refused(i, ErrorKind::Verify);
        }
        Ok((i, n))
    }
}

/// A version with its explicit tag.
struct Version;

impl<'a> InPlace<'a> for Version {
    type Read = u8;

    ghost Value = { ℕ };

    ghost view = { λ n. n };

    ghost layout = { version_layout };

    #[tactic(auto, using(layouts::proofs::OneAnswerLemmas::read_allowed), unfolding(x509::specs::Certificate::version))]
    fn read(i: &'a [u8]) -> IResult<&'a [u8], u8> {
        tagged::<VersionContent>(i, tag::INTEGER)
    }
}

/// The fields up to the signature's algorithm, and the place of the serial number.
#[derive(Clone, Copy)]
struct FirstFields<'a> {
    version: u8,
    serial_number: &'a [u8],
    signature: AlgorithmIdentifier<'a>,
    serial_place: Place,
}

/// The version, or v1 if there is none.
#[inline(always)]
fn version_or_v1(version: Option<u8>) -> u8
    ensures { result ≡ or_v1 version }
{
    match version {
        Some(n) => n,
        None => 0,
    }
}

/// Parses the fields up to the signature's algorithm.
#[tactic(auto, using(layouts::proofs::OneAnswerLemmas::read_allowed), unfolding(x509::specs::Certificate::first_fields))]
fn first_fields_at<'a>(
    whole: &[u8],
    behind: usize,
    i: &'a [u8],
) -> IResult<&'a [u8], FirstFields<'a>>
    ensures gives { Gives view_first first_fields i.now result }
    ensures places { IsBefore whole.now behind i.now
        → IfOk result (λ x. Stands whole.now x.1.serial_place x.1.serial_number.now) }
{
    let (after_version, version) = optional::<Version>(i, 0xa0)?;
    let (after_serial, (serial_number, serial_place)) = tagged_at::<IntegerAt>(
        whole,
        behind,
        after_version,
        tag::INTEGER,
    )?;
    let (rest, (signature, _)) = algorithm_at(whole, behind, after_serial)?;
    let fields = FirstFields {
        version: version_or_v1(version),
        serial_number,
        signature,
        serial_place,
    };
    Ok((rest, fields))
}

/// The content of a Validity.
struct ValidityContent;

impl<'a> InPlace<'a> for ValidityContent {
    type Read = Validity;

    ghost use Rattle.x509.specs.declared.validity.Validity.{Validity as PlainValidity};

    ghost Value = { PlainValidity };

    ghost view = { λ v. v };

    ghost layout = { validity_content };

    #[tactic(auto, using(layouts::proofs::OneAnswerLemmas::read_allowed), unfolding(x509::specs::Certificate::validity_content))]
    fn read(i: &'a [u8]) -> IResult<&'a [u8], Validity> {
        let (i, not_before) = parse_time(i)?;
        let (i, not_after) = parse_time(i)?;
        let validity = Validity {
            not_before,
            not_after,
        };
        Ok((i, validity))
    }
}

/// Parses a Validity.
#[tactic(auto, using(layouts::proofs::OneAnswerLemmas::read_allowed), unfolding(x509::specs::Certificate::validity))]
fn read_validity(i: &[u8]) -> IResult<&[u8], Validity>
    ensures { Gives (λ v. v) validity i.now result }
{
    tagged::<ValidityContent>(i, tag::SEQUENCE)
}

/// The fields from the issuer to the key, and their places.
#[derive(Clone, Copy)]
struct NameFields<'a> {
    issuer: Name<'a>,
    validity: Validity,
    subject: Name<'a>,
    key: SubjectPublicKeyInfo<'a>,
    issuer_place: Place,
    subject_place: Place,
    key_places: KeyPlaces,
}

/// Parses the fields from the issuer to the key.
#[tactic(auto, using(layouts::proofs::OneAnswerLemmas::read_allowed), unfolding(x509::specs::Certificate::name_fields))]
fn name_fields_at<'a>(whole: &[u8], behind: usize, i: &'a [u8]) -> IResult<&'a [u8], NameFields<'a>>
    ensures gives { Gives view_names name_fields i.now result }
    ensures places { IsBefore whole.now behind i.now → IfOk result (λ x. NamesStand whole.now x.1) }
{
    let (after_issuer, (issuer, issuer_place)) = name_at(whole, behind, i)?;
    let (after_validity, validity) = read_validity(after_issuer)?;
    let (after_subject, (subject, subject_place)) = name_at(whole, behind, after_validity)?;
    let (rest, (key, key_places)) = key_at(whole, behind, after_subject)?;
    let fields = NameFields {
        issuer,
        validity,
        subject,
        key,
        issuer_place,
        subject_place,
        key_places,
    };
    Ok((rest, fields))
}

/// The list of extensions and its place, without the tag and the length of the list.
struct ExtensionListAt;

impl<'a> Part<'a> for ExtensionListAt {
    type Read = (Items<'a, Extensions>, Place);

    ghost Value = { List PlainExtension };

    ghost view = { λ x. items_in extension x.0.bytes.now };

    ghost layout = { extensions_layout };

    ghost stands = { λ b x. Stands b x.1 x.0.bytes.now };

    #[tactic(auto, using(layouts::proofs::OneAnswerLemmas::read_allowed), unfolding(x509::specs::Certificate::extensions))]
    fn read_at(whole: &[u8], behind: usize, i: &'a [u8]) -> IResult<&'a [u8], Self::Read> {
        tagged_at::<ItemsAt<Extensions>>(whole, behind, i, tag::SEQUENCE)
    }
}

/// The fields after the key, and the place of the extensions.
#[derive(Clone, Copy)]
struct OptionalFields<'a> {
    issuer_unique_id: Option<BitString<'a>>,
    subject_unique_id: Option<BitString<'a>>,
    extensions: Items<'a, Extensions>,
    extensions_place: Place,
}

/// The extensions and their place; an empty list if there are none.
#[tactic(auto, using(layouts::proofs::OneAnswerLemmas::read_allowed, layouts::proofs::ItemsLemmas::none_in))]
fn held_or_none<'a>(list: Option<(Items<'a, Extensions>, Place)>) -> (Items<'a, Extensions>, Place)
    ensures is { items_in extension result.0.bytes.now ≡ or_none
        (option_map (λ x. items_in extension x.0.bytes.now) list.entry) }
    ensures places { (b : Bytes) → IfSome list.entry (λ x. Stands b x.1 x.0.bytes.now)
        → Stands b result.1 result.0.bytes.now }
{
    match list {
        Some(list) => list,
        None => {
            let nothing = Place {
                offset: 0,
                length: 0,
            };
            (Items::new(&[]), nothing)
        }
    }
}

/// Parses the fields after the key.
#[tactic(auto, using(layouts::proofs::OneAnswerLemmas::read_allowed), unfolding(x509::specs::Certificate::optional_fields))]
fn optional_fields_at<'a>(
    whole: &[u8],
    behind: usize,
    i: &'a [u8],
) -> IResult<&'a [u8], OptionalFields<'a>>
    ensures gives { Gives view_optional optional_fields i.now result }
    ensures places { IsBefore whole.now behind i.now
        → IfOk result (λ x. Stands whole.now x.1.extensions_place x.1.extensions.bytes.now) }
{
    let (after_issuer, issuer_unique_id) = optional::<BitString>(i, 0x81)?;
    let (after_subject, subject_unique_id) = optional::<BitString>(after_issuer, 0x82)?;
    let (rest, list) = optional_at::<ExtensionListAt>(whole, behind, after_subject, 0xa3)?;
    let found = held_or_none(list);
    let fields = OptionalFields {
        issuer_unique_id,
        subject_unique_id,
        extensions: found.0,
        extensions_place: found.1,
    };
    Ok((rest, fields))
}

/// The places of the fields in a certificate's signed part.
#[derive(Clone, Copy, Debug, PartialEq)]
pub struct TBSPlaces {
    /// The serial number: an INTEGER's bytes.
    pub serial_number: Place,
    /// The issuer's name, with its tag and its length.
    pub issuer: Place,
    /// The subject's name, with its tag and its length.
    pub subject: Place,
    /// The key.
    pub key: KeyPlaces,
    /// The extensions, without the tag and the length of their list; an empty place if there is no
    /// list.
    pub extensions: Place,
}

/// The content of a TBSCertificate.
pub(crate) struct TBSCertificateAt;

impl<'a> Part<'a> for TBSCertificateAt {
    type Read = (TBSCertificate<'a>, TBSPlaces);

    ghost Value = { PlainTBSCertificate };

    ghost view = { λ x. view_tbs_certificate x.0 };

    ghost layout = { tbs_certificate };

    ghost stands = { λ b x. TBSStands b x.0 x.1 };

    #[tactic(auto, using(layouts::proofs::OneAnswerLemmas::read_allowed), unfolding(x509::specs::Certificate::tbs_certificate))]
    fn read_at(whole: &[u8], behind: usize, i: &'a [u8]) -> IResult<&'a [u8], Self::Read> {
        let (after_first, first) = first_fields_at(whole, behind, i)?;
        let (after_names, names) = name_fields_at(whole, behind, after_first)?;
        let (rest, others) = optional_fields_at(whole, behind, after_names)?;
        let certificate = TBSCertificate {
            version: first.version,
            serial_number: first.serial_number,
            signature: first.signature,
            issuer: names.issuer,
            validity: names.validity,
            subject: names.subject,
            subject_public_key_info: names.key,
            issuer_unique_id: others.issuer_unique_id,
            subject_unique_id: others.subject_unique_id,
            extensions: others.extensions,
        };
        let places = TBSPlaces {
            serial_number: first.serial_place,
            issuer: names.issuer_place,
            subject: names.subject_place,
            key: names.key_places,
            extensions: others.extensions_place,
        };
        Ok((rest, (certificate, places)))
    }
}
