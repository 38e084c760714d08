//! Parameters of finite-field Diffie-Hellman.
ghost use Rattle.layouts.specs.Answers.{Gives};
ghost use Rattle.tls_key_exchange.specs.KeyExchange.{view_dh_params, dh_params};

use layouts::{IResult, counted2, parsed};

/// The server's Diffie-Hellman parameters (RFC 5246, section 7.4.3). All numbers are big-endian, of
/// any length.
#[derive(Debug, PartialEq, Drop)]
pub struct ServerDHParams<'a> {
    /// The prime modulus.
    pub dh_p: &'a [u8],
    /// The generator.
    pub dh_g: &'a [u8],
    /// The server's public value.
    pub dh_ys: &'a [u8],
}

impl<'a> ServerDHParams<'a> {
    /// Reads the modulus, the generator and the public value: three blocks, each after 2 bytes of
    /// length, big-endian. Accepts empty blocks.
    ///
    /// `Incomplete` with the bytes missing from the first incomplete length or block.
    #[tactic(auto, using(layouts::proofs::OneAnswerLemmas::read_allowed), unfolding(crate::specs::KeyExchange::dh_params))]
    pub fn parse(i: &'a [u8]) -> IResult<&'a [u8], Self>
        ensures { Gives view_dh_params dh_params i.now result }
    {
        let (i, dh_p) = parsed!(counted2(i));
        let (i, dh_g) = parsed!(counted2(i));
        let (i, dh_ys) = parsed!(counted2(i));
        Ok((i, ServerDHParams { dh_p, dh_g, dh_ys }))
    }
}

/// Reads the server's Diffie-Hellman parameters, as [`ServerDHParams::parse`].
pub fn parse_dh_params(i: &[u8]) -> IResult<&[u8], ServerDHParams>
    ensures { Gives view_dh_params dh_params i.now result }
{
    ServerDHParams::parse(i)
}
