//! The parameters of DSA keys, and of elliptic curves that aren't named (RFC 3279, sections 2.3.2
//! and 2.3.5).
#![tactic(auto, using(layouts::proofs::OneAnswerLemmas::read_allowed))]

ghost use Rattle.std.specs.Prelude.{◌≡◌};
ghost use Rattle.std.specs.Option.{option_map};
ghost use Rattle.layouts.specs.Answers.{Gives};
ghost use Rattle.der.specs.Element.{view_element};
ghost use Rattle.x509.specs.Certificate.{view_key_info};
ghost use Rattle.x509.specs.KeyParameters.{dsa_parameters, explicit_curve, bits_by, parameter_bits as parameter_bits_of};

use crate::algorithm::SubjectPublicKeyInfo;
use crate::oid;
use crate::public_key::PositiveBits;
use der::{AllBytes, Element, Integer, tag, tagged};
use layouts::{IResult, InPlace, parsed, rest};

/// Parses the content of Dss-Parms, and returns the bit length of its prime p.
#[tactic(auto, using(layouts::proofs::OneAnswerLemmas::read_allowed), unfolding(crate::specs::KeyParameters::dsa_parameters))]
fn dsa_prime_bits(i: &[u8]) -> IResult<&[u8], u32>
    ensures { Gives (λ v. v) dsa_parameters i.now result }
{
    let (i, bits) = parsed!(tagged::<PositiveBits>(i, tag::INTEGER));
    let (i, _) = parsed!(tagged::<Integer>(i, tag::INTEGER));
    let (i, _) = parsed!(tagged::<Integer>(i, tag::INTEGER));
    Ok((i, bits))
}

/// Parses the content of ECParameters, and returns the bit length of the order of its base point.
#[tactic(auto, using(layouts::proofs::OneAnswerLemmas::read_allowed), unfolding(crate::specs::KeyParameters::explicit_curve))]
fn curve_order_bits(i: &[u8]) -> IResult<&[u8], u32>
    ensures { Gives (λ v. v) explicit_curve i.now result }
{
    let (i, _) = parsed!(tagged::<Integer>(i, tag::INTEGER));
    let (i, _) = parsed!(tagged::<AllBytes>(i, tag::SEQUENCE));
    let (i, _) = parsed!(tagged::<AllBytes>(i, tag::SEQUENCE));
    let (i, _) = parsed!(tagged::<AllBytes>(i, tag::OCTET_STRING));
    let (i, order) = parsed!(tagged::<PositiveBits>(i, tag::INTEGER));
    let (i, _) = parsed!(rest(i));
    Ok((i, order))
}

/// The bits of a key that parameters in a SEQUENCE describe, by the key's algorithm.
fn bits_in(algorithm: &[u8], parameters: &[u8]) -> Option<u32>
    ensures { result ≡ bits_by algorithm.now parameters.now }
{
    let read = if algorithm == oid::DSA.content {
        dsa_prime_bits(parameters)
    } else if algorithm == oid::EC_PUBLIC_KEY.content {
        curve_order_bits(parameters)
    } else {
        return None;
    };
    match read {
        Ok((_, bits)) => Some(bits),
        Err(_) => None,
    }
}

impl<'a> SubjectPublicKeyInfo<'a> {
    /// The bits of a key that its parameters describe: of the prime p of a DSA key, or of the order
    /// of the base point of an elliptic curve with explicit parameters.
    ///
    /// `None` for other keys, and if the parameters can't be read.
    pub fn parameter_bits(self) -> Option<u32>
        ensures { result ≡ parameter_bits_of (view_key_info self.entry) }
    {
        match self.algorithm.parameters {
            Some(
                Element {
                    tag: tag::SEQUENCE,
                    content,
                },
            ) => bits_in(self.algorithm.algorithm.content, content),
            _ => None,
        }
    }
}
