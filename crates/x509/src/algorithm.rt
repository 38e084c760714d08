//! Algorithms, and the keys for them (RFC 5280, sections 4.1.1.2 and 4.1.2.7).
#![tactic(auto, using(layouts::proofs::OneAnswerLemmas::read_allowed))]

ghost use Rattle.layouts.specs.Answers.{Gives};
ghost use Rattle.x509.specs.Certificate.{AlgorithmIdentifier as PlainAlgorithm, view_algorithm, algorithm_content, algorithm_identifier};
ghost use Rattle.x509.specs.Certificate.{SubjectPublicKeyInfo as PlainKeyInfo, view_key_info, key_info_content, subject_public_key_info};

use der::{BitString, Element, ObjectIdentifier, object_identifier, optional_element, tag, tagged};
use layouts::{IResult, InPlace, parsed};

/// An algorithm.
#[derive(Clone, Copy, Debug, PartialEq)]
pub struct AlgorithmIdentifier<'a> {
    /// The algorithm's identifier.
    pub algorithm: ObjectIdentifier<'a>,
    /// Its parameters, of a type that the algorithm defines.
    pub parameters: Option<Element<'a>>,
}

/// The content of an AlgorithmIdentifier.
struct AlgorithmContent;

impl<'a> InPlace<'a> for AlgorithmContent {
    type Read = AlgorithmIdentifier<'a>;

    ghost Value = { PlainAlgorithm };

    ghost view = { view_algorithm };

    ghost layout = { algorithm_content };

    #[tactic(auto, using(layouts::proofs::OneAnswerLemmas::read_allowed), unfolding(crate::specs::Certificate::algorithm_content))]
    fn read(i: &'a [u8]) -> IResult<&'a [u8], AlgorithmIdentifier<'a>> {
        let (i, algorithm) = parsed!(object_identifier(i));
        let (i, parameters) = parsed!(optional_element(i));
        let identifier = AlgorithmIdentifier {
            algorithm,
            parameters,
        };
        Ok((i, identifier))
    }
}

/// Parses an AlgorithmIdentifier.
///
/// It refuses what [`der::tagged`] does; also in its content, with kind `LengthValue` if more than
/// the parameters follow.
#[tactic(auto, using(layouts::proofs::OneAnswerLemmas::read_allowed), unfolding(crate::specs::Certificate::algorithm_identifier))]
pub fn parse_algorithm_identifier(i: &[u8]) -> IResult<&[u8], AlgorithmIdentifier>
    ensures { Gives view_algorithm algorithm_identifier i.now result }
{
    tagged::<AlgorithmContent>(i, tag::SEQUENCE)
}

/// A public key and its algorithm. [`SubjectPublicKeyInfo::public_key`] parses the key.
#[derive(Clone, Copy, Debug, PartialEq)]
pub struct SubjectPublicKeyInfo<'a> {
    /// The algorithm of the key.
    pub algorithm: AlgorithmIdentifier<'a>,
    /// The key, in a form that the algorithm defines.
    pub subject_public_key: BitString<'a>,
}

/// The content of a SubjectPublicKeyInfo.
struct KeyInfoContent;

impl<'a> InPlace<'a> for KeyInfoContent {
    type Read = SubjectPublicKeyInfo<'a>;

    ghost Value = { PlainKeyInfo };

    ghost view = { view_key_info };

    ghost layout = { key_info_content };

    #[tactic(auto, using(layouts::proofs::OneAnswerLemmas::read_allowed), unfolding(crate::specs::Certificate::key_info_content))]
    fn read(i: &'a [u8]) -> IResult<&'a [u8], SubjectPublicKeyInfo<'a>> {
        let (i, algorithm) = parsed!(parse_algorithm_identifier(i));
        let (i, subject_public_key) = parsed!(tagged::<BitString>(i, tag::BIT_STRING));
        let info = SubjectPublicKeyInfo {
            algorithm,
            subject_public_key,
        };
        Ok((i, info))
    }
}

/// Parses a SubjectPublicKeyInfo.
#[tactic(auto, using(layouts::proofs::OneAnswerLemmas::read_allowed), unfolding(crate::specs::Certificate::subject_public_key_info))]
pub(crate) fn parse_key_info(i: &[u8]) -> IResult<&[u8], SubjectPublicKeyInfo>
    ensures { Gives view_key_info subject_public_key_info i.now result }
{
    tagged::<KeyInfoContent>(i, tag::SEQUENCE)
}
