//! Elliptic curves by their parameters (RFC 3279, section 2.3.5).
#![tactic(auto, using(layouts::proofs::OneAnswerLemmas::read_allowed))]

ghost use Rattle.std.specs.Prelude.{◌≡◌, map};
ghost use Rattle.std.specs.Option.{option_map};
ghost use Rattle.layouts.specs.Answers.{Gives};
ghost use Rattle.layouts.specs.Bytes.{Bytes};
ghost use Rattle.layouts.specs.Items.{value_of};
ghost use Rattle.layouts.specs.Reading.{reading};
ghost use Rattle.x509.specs.Certificate.{view_algorithm};
ghost use Rattle.x509_text.specs.KnownCurves.{known_curves, view_known};
ghost use Rattle.x509_text.specs.Parameters.{Coefficients as PlainCoefficients, coefficients};
ghost use Rattle.x509_text.specs.Parameters.{curve_in, curve_parameters};
ghost use Rattle.x509_text.specs.Parameters.{described_curve as described_curve_of, has_parameters as has_parameters_of};
ghost use Rattle.x509_text.specs.Parameters.{known_by, prime_field, view_coefficients, view_parameters};

use crate::tables::{KNOWN_CURVES, KnownCurve};
use der::{AllBytes, Element, Integer, ObjectIdentifier, object_identifier, tag, tagged};
use layouts::{ErrorKind, IResult, InPlace, parsed, refused, rest};
use x509::{AlgorithmIdentifier, oid};

/// The content of the object identifier of prime fields: 1.2.840.10045.1.1.
const PRIME_FIELD: &[u8] = b"\x2a\x86\x48\xce\x3d\x01\x01";

/// The content of the FieldID of a prime field. Reading it returns the prime: an INTEGER's bytes.
struct PrimeField;

impl<'a> InPlace<'a> for PrimeField {
    type Read = &'a [u8];

    ghost Value = { Bytes };

    ghost view = { λ v. v.now };

    ghost layout = { prime_field };

    #[tactic(auto, using(layouts::proofs::OneAnswerLemmas::read_allowed), unfolding(crate::specs::Parameters::prime_field))]
    fn read(i: &'a [u8]) -> IResult<&'a [u8], &'a [u8]> {
        let (i, kind) = parsed!(object_identifier(i));
        if kind.content != PRIME_FIELD {
            return refused(i, ErrorKind::Switch);
        }
        tagged::<Integer>(i, tag::INTEGER)
    }
}

/// The coefficients of a curve: an element of the field each.
#[derive(Clone, Copy)]
struct Coefficients<'a> {
    /// That of x.
    a: &'a [u8],
    /// The constant.
    b: &'a [u8],
}

impl<'a> InPlace<'a> for Coefficients<'a> {
    type Read = Self;

    ghost Value = { PlainCoefficients };

    ghost view = { view_coefficients };

    ghost layout = { coefficients };

    #[tactic(auto, using(layouts::proofs::OneAnswerLemmas::read_allowed), unfolding(crate::specs::Parameters::coefficients))]
    fn read(i: &'a [u8]) -> IResult<&'a [u8], Self> {
        let (i, a) = parsed!(tagged::<AllBytes>(i, tag::OCTET_STRING));
        let (i, b) = parsed!(tagged::<AllBytes>(i, tag::OCTET_STRING));
        let (i, _) = parsed!(rest(i));
        Ok((i, Coefficients { a, b }))
    }
}

/// The parameters of a curve over a prime field.
#[derive(Clone, Copy)]
struct CurveParameters<'a> {
    /// The prime: an INTEGER's bytes.
    prime: &'a [u8],
    /// The coefficients.
    curve: Coefficients<'a>,
    /// The base point.
    base: &'a [u8],
    /// The order of the base point: an INTEGER's bytes.
    order: &'a [u8],
}

/// Parses the content of ECParameters. The cofactor follows from the others, and isn't read.
#[tactic(auto, using(layouts::proofs::OneAnswerLemmas::read_allowed), unfolding(crate::specs::Parameters::curve_parameters))]
fn read_parameters<'a>(i: &'a [u8]) -> IResult<&'a [u8], CurveParameters<'a>>
    ensures { Gives view_parameters curve_parameters i.now result }
{
    let (i, _) = parsed!(tagged::<Integer>(i, tag::INTEGER));
    let (i, prime) = parsed!(tagged::<PrimeField>(i, tag::SEQUENCE));
    let (i, curve) = parsed!(tagged::<Coefficients>(i, tag::SEQUENCE));
    let (i, base) = parsed!(tagged::<AllBytes>(i, tag::OCTET_STRING));
    let (i, order) = parsed!(tagged::<Integer>(i, tag::INTEGER));
    let (i, _) = parsed!(rest(i));
    let parameters = CurveParameters {
        prime,
        curve,
        base,
        order,
    };
    Ok((i, parameters))
}

/// Whether a curve has these parameters, whatever the form of its base point.
fn has_parameters(curve: &KnownCurve, parameters: CurveParameters) -> bool
    ensures { result ≡ has_parameters_of (view_parameters parameters.entry) (view_known curve.now) }
{
    curve.prime == parameters.prime
        && curve.a == parameters.curve.a
        && curve.b == parameters.curve.b
        && curve.order == parameters.order
        && (curve.base == parameters.base || curve.compressed == parameters.base)
}

/// The first curve in a table that has these parameters: the content of its object identifier.
fn find_curve(table: &'static [KnownCurve], parameters: CurveParameters) -> Option<&'static [u8]>
    ensures { option_map (λ c. c.now) result
        ≡ curve_in (map view_known table.now) (view_parameters parameters.entry) }
{
    for curve in table {
        if has_parameters(curve, parameters) {
            return Some(curve.content);
        }
    }
    None
}

/// The curve that has these parameters: the content of its object identifier.
#[tactic(auto, unfolding(crate::specs::KnownCurves::known_curves))]
fn known_curve(parameters: CurveParameters) -> Option<&'static [u8]>
    ensures { option_map (λ c. c.now) result
        ≡ curve_in known_curves (view_parameters parameters.entry) }
{
    find_curve(KNOWN_CURVES, parameters)
}

/// The curve that the content of ECParameters describes, if it has a name.
fn described_in(content: &[u8]) -> Option<ObjectIdentifier<'static>>
    ensures { option_map (λ o. o.content.now) result
        ≡ known_by (value_of (reading curve_parameters content.now)) }
{
    match read_parameters(content) {
        Ok((_, parameters)) => {
            let content = known_curve(parameters)?;
            Some(ObjectIdentifier { content })
        }
        Err(_) => None,
    }
}

/// The curve that the parameters of a key describe, if it has a name.
pub(crate) fn described_curve(algorithm: AlgorithmIdentifier) -> Option<ObjectIdentifier<'static>>
    ensures { option_map (λ o. o.content.now) result
        ≡ described_curve_of (view_algorithm algorithm.entry) }
{
    if algorithm.algorithm.content != oid::EC_PUBLIC_KEY.content {
        return None;
    }
    match algorithm.parameters {
        Some(
            Element {
                tag: tag::SEQUENCE,
                content,
            },
        ) => described_in(content),
        _ => None,
    }
}
