//! Parameters of elliptic-curve Diffie-Hellman.
#![tactic(auto, using(layouts::proofs::OneAnswerLemmas::read_allowed), unfolding(crate::specs::KeyExchange::curve, crate::specs::KeyExchange::explicit_prime, crate::specs::KeyExchange::curve_parameters, crate::specs::KeyExchange::ec_parameters, crate::specs::KeyExchange::ecdh_params))]

ghost use Rattle.std.specs.Prelude.{map};
ghost use Rattle.layouts.specs.Answers.{Gives, GivesOrMemory};
ghost use Rattle.layouts.specs.Layout.{pairs as pairs_layout};
ghost use Rattle.tls_key_exchange.specs.KeyExchange.{view_curve, curve as curve_layout, view_explicit_prime, explicit_prime, view_curve_parameters, curve_parameters, view_ec_parameters, ec_parameters, view_ecdh_params, ecdh_params};

use layouts::{ErrorKind, IResult, counted1, pairs, parsed, refused};
use std::alloc::Global;
use std::fmt;
use tls_base::{ECCurveType, ECPoint, NamedGroup};

/// The coefficients of an elliptic curve (RFC 4492, section 5.4). RFC 8422 deprecates curves given
/// by parameters.
#[derive(Debug, PartialEq, Drop)]
pub struct ECCurve<'a> {
    /// The coefficient a of the curve, big-endian.
    pub a: &'a [u8],
    /// The coefficient b of the curve, big-endian.
    pub b: &'a [u8],
}

impl<'a> ECCurve<'a> {
    /// Reads the two coefficients, each a block after 1 byte of length. Accepts empty blocks.
    ///
    /// `Incomplete` with the bytes missing from the first incomplete length or block.
    pub fn parse(i: &'a [u8]) -> IResult<&'a [u8], Self>
        ensures { Gives view_curve curve_layout i.now result }
    {
        let (i, a) = parsed!(counted1(i));
        let (i, b) = parsed!(counted1(i));
        Ok((i, ECCurve { a, b }))
    }
}

/// A curve over a prime field, given by its parameters (RFC 4492, section 5.4; RFC 8422 deprecates
/// it).
#[derive(Debug, PartialEq, Drop)]
pub struct ExplicitPrimeContent<'a> {
    /// The prime.
    pub prime_p: &'a [u8],
    /// The coefficients.
    pub curve: ECCurve<'a>,
    /// The base point.
    pub base: ECPoint<'a>,
    /// The order of the base point.
    pub order: &'a [u8],
    /// The cofactor of that order.
    pub cofactor: &'a [u8],
}

impl<'a> ExplicitPrimeContent<'a> {
    /// Reads six blocks, each after 1 byte of length: the prime, the two coefficients, the base
    /// point, its order, its cofactor. Accepts empty blocks.
    ///
    /// `Incomplete` with the bytes missing from the first incomplete length or block.
    pub fn parse(i: &'a [u8]) -> IResult<&'a [u8], Self>
        ensures { Gives view_explicit_prime explicit_prime i.now result }
    {
        let (i, prime_p) = parsed!(counted1(i));
        let (i, curve) = parsed!(ECCurve::parse(i));
        let (i, base) = parsed!(ECPoint::parse(i));
        let (i, order) = parsed!(counted1(i));
        let (i, cofactor) = parsed!(counted1(i));
        let content = ExplicitPrimeContent {
            prime_p,
            curve,
            base,
            order,
            cofactor,
        };
        Ok((i, content))
    }
}

/// The curve of a key exchange, given by its parameters (RFC 4492, section 5.4) or its number (RFC
/// 8422, section 5.4).
#[derive(Debug, PartialEq, Drop)]
pub enum ECParametersContent<'a> {
    ExplicitPrime(ExplicitPrimeContent<'a>),
    NamedGroup(NamedGroup),
}

impl<'a> ECParametersContent<'a> {
    /// Reads the curve for a type: an [`ExplicitPrimeContent`] for an explicit prime, 2 bytes
    /// (big-endian) for a named curve.
    ///
    /// `Error` of kind `Switch` for any other type, else `Incomplete` with the number of missing
    /// bytes.
    pub fn parse(i: &'a [u8], curve_type: ECCurveType) -> IResult<&'a [u8], Self>
        ensures { Gives view_curve_parameters (curve_parameters curve_type.0) i.now result }
    {
        match curve_type {
            ECCurveType::ExplicitPrime => {
                let (i, content) = parsed!(ExplicitPrimeContent::parse(i));
                Ok((i, ECParametersContent::ExplicitPrime(content)))
            }
            ECCurveType::NamedGroup => {
                let (i, group) = parsed!(NamedGroup::parse(i));
                Ok((i, ECParametersContent::NamedGroup(group)))
            }
            _ => refused(i, ErrorKind::Switch),
        }
    }
}

/// The curve of a key exchange, with its type (RFC 8422, section 5.4).
#[derive(PartialEq, Drop)]
pub struct ECParameters<'a> {
    /// How the curve is given.
    pub curve_type: ECCurveType,
    /// The curve, in the form of its type.
    pub params_content: ECParametersContent<'a>,
}

impl<'a> ECParameters<'a> {
    /// Reads 1 byte, the curve's type, then the curve, as [`ECParametersContent::parse`].
    ///
    /// `Incomplete(1)` if there is no byte; further refusals are those of that call.
    pub fn parse(i: &'a [u8]) -> IResult<&'a [u8], Self>
        ensures { Gives view_ec_parameters ec_parameters i.now result }
    {
        let (i, curve_type) = parsed!(ECCurveType::parse(i));
        let (i, params_content) = parsed!(ECParametersContent::parse(i, curve_type));
        let parameters = ECParameters {
            curve_type,
            params_content,
        };
        Ok((i, parameters))
    }
}

/// Shows the curve's type as its number.
impl fmt::Debug for ECParameters<'_> {
    fn fmt<W: fmt::Write>(&self, f: &mut fmt::Formatter<W>) -> fmt::Result {
        f.debug_struct("ECParameters")
            .field("curve_type", &self.curve_type.0)
            .field("params_content", &self.params_content)
            .finish()
    }
}

/// The server's elliptic-curve Diffie-Hellman parameters (RFC 8422, section 5.4).
#[derive(Debug, PartialEq, Drop)]
pub struct ServerECDHParams<'a> {
    /// The curve.
    pub curve_params: ECParameters<'a>,
    /// The server's public value.
    pub public: ECPoint<'a>,
}

impl<'a> ServerECDHParams<'a> {
    /// Reads an [`ECParameters`] and an [`ECPoint`].
    ///
    /// Returns the refusal of the first of these that can't be read.
    pub fn parse(i: &'a [u8]) -> IResult<&'a [u8], Self>
        ensures { Gives view_ecdh_params ecdh_params i.now result }
    {
        let (i, curve_params) = parsed!(ECParameters::parse(i));
        let (i, public) = parsed!(ECPoint::parse(i));
        let params = ServerECDHParams {
            curve_params,
            public,
        };
        Ok((i, params))
    }
}

/// Reads the curve of a key exchange, as [`ECParameters::parse`].
pub fn parse_ec_parameters(i: &[u8]) -> IResult<&[u8], ECParameters>
    ensures { Gives view_ec_parameters ec_parameters i.now result }
{
    ECParameters::parse(i)
}

/// Reads the server's elliptic-curve Diffie-Hellman parameters, as [`ServerECDHParams::parse`].
pub fn parse_ecdh_params(i: &[u8]) -> IResult<&[u8], ServerECDHParams>
    ensures { Gives view_ecdh_params ecdh_params i.now result }
{
    ServerECDHParams::parse(i)
}

/// Reads all bytes as numbers of groups, 2 bytes each, big-endian (RFC 8446, section 4.2.7).
///
/// `Error` of kind `LengthValue` if the number of bytes is odd. `OutOfMemory` if the list can't be
/// allocated.
pub fn parse_named_groups(alloc: Global, i: &[u8]) -> IResult<&[u8], Vec<NamedGroup>>
    ensures { GivesOrMemory (λ v. map (λ g. g.0) v.items) pairs_layout i.now result }
{
    pairs::<NamedGroup>(alloc, i)
}
