//! Signatures whose hash is broken.
#![tactic(auto, using(layouts::proofs::OneAnswerLemmas::read_allowed))]

ghost use Rattle.std.specs.Prelude.{◌≡◌, map};
ghost use Rattle.std.specs.List.{list_any};
ghost use Rattle.std.specs.Option.{option_map};
ghost use Rattle.std.specs.Str.{bytes_eq};
ghost use Rattle.layouts.specs.Answers.{Gives};
ghost use Rattle.der.specs.Element.{view_element};
ghost use Rattle.x509.specs.Certificate.{AlgorithmIdentifier as PlainAlgorithm, algorithm_identifier, view_algorithm};
ghost use Rattle.x509_text.specs.Signature.{has_weak_hash as has_weak_hash_of, is_weak_signature as is_weak_signature_of, pss_hash, weak_hashes, weak_pss, weak_signatures};

use crate::tables::{Algorithm, WEAK_HASHES, WEAK_SIGNATURES};
use der::{Element, optional, tag};
use layouts::{IResult, InPlace, parsed, rest};
use x509::{AlgorithmIdentifier, oid, parse_algorithm_identifier};

/// Whether a table has this content.
fn is_listed(table: &'static [Algorithm], content: &[u8]) -> bool
    ensures { result ≡ list_any (λ c. bytes_eq c content.now) (map (λ a. a.content.now) table.now) }
{
    for algorithm in table {
        if algorithm.content == content {
            return true;
        }
    }
    false
}

/// Whether a hash is broken.
#[tactic(auto, unfolding(crate::specs::Signature::weak_hashes))]
fn is_weak_hash(content: &[u8]) -> bool
    ensures { result ≡ list_any (λ c. bytes_eq c content.now) weak_hashes }
{
    is_listed(WEAK_HASHES, content)
}

/// Whether a signature has a broken hash, by its algorithm alone.
#[tactic(auto, unfolding(crate::specs::Signature::weak_signatures))]
fn is_weak_algorithm(content: &[u8]) -> bool
    ensures { result ≡ list_any (λ c. bytes_eq c content.now) weak_signatures }
{
    is_listed(WEAK_SIGNATURES, content)
}

/// An algorithm within an explicit tag.
struct Hash;

impl<'a> InPlace<'a> for Hash {
    type Read = AlgorithmIdentifier<'a>;

    ghost Value = { PlainAlgorithm };

    ghost view = { view_algorithm };

    ghost layout = { algorithm_identifier };

    fn read(i: &'a [u8]) -> IResult<&'a [u8], AlgorithmIdentifier<'a>> {
        parse_algorithm_identifier(i)
    }
}

/// Parses the content of RSASSA-PSS-params up to its hash.
#[tactic(auto, using(layouts::proofs::OneAnswerLemmas::read_allowed), unfolding(crate::specs::Signature::pss_hash))]
fn read_pss_hash(i: &[u8]) -> IResult<&[u8], Option<AlgorithmIdentifier>>
    ensures { Gives (λ v. option_map view_algorithm v) pss_hash i.now result }
{
    let (i, hash) = parsed!(optional::<Hash>(i, 0xa0));
    let (i, _) = parsed!(rest(i));
    Ok((i, hash))
}

/// Whether the hash in the parameters of RSASSA-PSS is broken, as is the default, SHA-1.
fn has_weak_hash(parameters: &[u8]) -> Option<bool>
    ensures { result ≡ has_weak_hash_of parameters.now }
{
    match read_pss_hash(parameters) {
        Ok((_, Some(hash))) => Some(is_weak_hash(hash.algorithm.content)),
        Ok((_, None)) => Some(true),
        Err(_) => None,
    }
}

/// Whether RSASSA-PSS with these parameters has a broken hash.
fn is_weak_pss(parameters: Option<Element>) -> Option<bool>
    ensures { result ≡ weak_pss (option_map view_element parameters.entry) }
{
    match parameters {
        Some(
            Element {
                tag: tag::SEQUENCE,
                content,
            },
        ) => has_weak_hash(content),
        _ => None,
    }
}

/// Whether the hash of a signature is broken: MD2, MD4, MD5, SHA or SHA-1 (RFC 6151, RFC 9155),
/// also in the parameters of RSASSA-PSS (RFC 4055, section 3.1).
///
/// `None` if the parameters of RSASSA-PSS can't be read. `false` for algorithms that it doesn't
/// know.
pub fn is_weak_signature(algorithm: AlgorithmIdentifier) -> Option<bool>
    ensures { result ≡ is_weak_signature_of (view_algorithm algorithm.entry) }
{
    let content = algorithm.algorithm.content;
    if content == oid::RSASSA_PSS.content {
        return is_weak_pss(algorithm.parameters);
    }
    Some(is_weak_algorithm(content))
}
