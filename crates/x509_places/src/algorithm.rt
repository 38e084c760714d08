//! Algorithms and public keys, with the places of their parts.
#![tactic(auto, using(layouts::proofs::OneAnswerLemmas::read_allowed))]

ghost use Rattle.std.specs.Prelude.{IfOk};
ghost use Rattle.std.specs.Option.{option_map};
ghost use Rattle.layouts.specs.Answers.{Gives};
ghost use Rattle.der.specs.Element.{optional_element, view_element};
ghost use Rattle.x509.specs.Certificate.{AlgorithmIdentifier as PlainAlgorithm, view_algorithm, algorithm_content, algorithm_identifier};
ghost use Rattle.x509.specs.Certificate.{SubjectPublicKeyInfo as PlainKeyInfo, view_key_info, key_info_content, subject_public_key_info};
ghost use Rattle.x509_places.specs.Certificate.{AlgorithmStands, KeyStands};
ghost use Rattle.x509_places.specs.Place.{IsBefore, MayStand};

use crate::part::{Part, tagged_at};
use crate::place::place_before;
use crate::value::{BitStringAt, ObjectIdentifierAt};
use der::{Element, tag};
use layouts::{IResult, InPlace, Place};
use x509::{AlgorithmIdentifier, SubjectPublicKeyInfo};

/// The places of an AlgorithmIdentifier's parts.
#[derive(Clone, Copy, Debug, PartialEq)]
pub struct AlgorithmPlaces {
    /// The content of the object identifier.
    pub algorithm: Place,
    /// The content of the parameters' element; for an elliptic curve key, the curve's object
    /// identifier.
    pub parameters: Option<Place>,
}

/// Parses an element if bytes are left, with the place of its content.
#[tactic(auto, using(layouts::proofs::OneAnswerLemmas::read_allowed), unfolding(der::specs::Element::optional_element))]
fn optional_element_at<'a>(
    whole: &[u8],
    behind: usize,
    i: &'a [u8],
) -> IResult<&'a [u8], (Option<Element<'a>>, Option<Place>)>
    ensures gives { Gives (λ x. option_map view_element x.0) optional_element i.now result }
    ensures places { IsBefore whole.now behind i.now
        → IfOk result (λ x. MayStand whole.now x.1.1 (option_map (λ e. e.content.now) x.1.0)) }
{
    if i.is_empty() {
        return Ok((i, (None, None)));
    }
    let (rest, x) = Element::read(i)?;
    let place = place_before(whole, behind, x.content, rest);
    Ok((rest, (Some(x), Some(place))))
}

/// The content of an AlgorithmIdentifier.
struct AlgorithmContentAt;

impl<'a> Part<'a> for AlgorithmContentAt {
    type Read = (AlgorithmIdentifier<'a>, AlgorithmPlaces);

    ghost Value = { PlainAlgorithm };

    ghost view = { λ x. view_algorithm x.0 };

    ghost layout = { algorithm_content };

    ghost stands = { λ b x. AlgorithmStands b x.0 x.1 };

    #[tactic(auto, using(layouts::proofs::OneAnswerLemmas::read_allowed), unfolding(x509::specs::Certificate::algorithm_content, der::specs::ObjectIdentifier::object_identifier))]
    fn read_at(whole: &[u8], behind: usize, i: &'a [u8]) -> IResult<&'a [u8], Self::Read> {
        let (after, (algorithm, place)) = tagged_at::<ObjectIdentifierAt>(
            whole,
            behind,
            i,
            tag::OBJECT_IDENTIFIER,
        )?;
        let (rest, (parameters, parameters_place)) = optional_element_at(whole, behind, after)?;
        let identifier = AlgorithmIdentifier {
            algorithm,
            parameters,
        };
        let places = AlgorithmPlaces {
            algorithm: place,
            parameters: parameters_place,
        };
        Ok((rest, (identifier, places)))
    }
}

/// Parses an AlgorithmIdentifier, with the places of its parts.
#[tactic(auto, using(layouts::proofs::OneAnswerLemmas::read_allowed), unfolding(x509::specs::Certificate::algorithm_identifier))]
pub(crate) fn algorithm_at<'a>(
    whole: &[u8],
    behind: usize,
    i: &'a [u8],
) -> IResult<&'a [u8], (AlgorithmIdentifier<'a>, AlgorithmPlaces)>
    ensures gives { Gives (λ x. view_algorithm x.0) algorithm_identifier i.now result }
    ensures places { IsBefore whole.now behind i.now
        → IfOk result (λ x. AlgorithmStands whole.now x.1.0 x.1.1) }
{
    tagged_at::<AlgorithmContentAt>(whole, behind, i, tag::SEQUENCE)
}

/// The places of a public key's parts.
#[derive(Clone, Copy, Debug, PartialEq)]
pub struct KeyPlaces {
    /// The algorithm of the key.
    pub algorithm: AlgorithmPlaces,
    /// The key's bytes, without the number of unused bits.
    pub key: Place,
}

/// The content of a SubjectPublicKeyInfo.
struct KeyContentAt;

impl<'a> Part<'a> for KeyContentAt {
    type Read = (SubjectPublicKeyInfo<'a>, KeyPlaces);

    ghost Value = { PlainKeyInfo };

    ghost view = { λ x. view_key_info x.0 };

    ghost layout = { key_info_content };

    ghost stands = { λ b x. KeyStands b x.0 x.1 };

    #[tactic(auto, using(layouts::proofs::OneAnswerLemmas::read_allowed), unfolding(x509::specs::Certificate::key_info_content))]
    fn read_at(whole: &[u8], behind: usize, i: &'a [u8]) -> IResult<&'a [u8], Self::Read> {
        let (after, (algorithm, places)) = algorithm_at(whole, behind, i)?;
        let (rest, (subject_public_key, key)) = tagged_at::<BitStringAt>(
            whole,
            behind,
            after,
            tag::BIT_STRING,
        )?;
        let info = SubjectPublicKeyInfo {
            algorithm,
            subject_public_key,
        };
        let places = KeyPlaces {
            algorithm: places,
            key,
        };
        Ok((rest, (info, places)))
    }
}

/// Parses a SubjectPublicKeyInfo, with the places of its parts.
#[tactic(auto, using(layouts::proofs::OneAnswerLemmas::read_allowed), unfolding(x509::specs::Certificate::subject_public_key_info))]
pub(crate) fn key_at<'a>(
    whole: &[u8],
    behind: usize,
    i: &'a [u8],
) -> IResult<&'a [u8], (SubjectPublicKeyInfo<'a>, KeyPlaces)>
    ensures gives { Gives (λ x. view_key_info x.0) subject_public_key_info i.now result }
    ensures places { IsBefore whole.now behind i.now
        → IfOk result (λ x. KeyStands whole.now x.1.0 x.1.1) }
{
    tagged_at::<KeyContentAt>(whole, behind, i, tag::SEQUENCE)
}
