//! The group in a ServerKeyExchange, or the length of its prime.
ghost use Rattle.std.specs.Prelude.{◌≡◌, ◌≤◌};
ghost use Rattle.std.specs.Option.{option_map};
ghost use Rattle.layouts.specs.Answers.{Gives, answer_of};
ghost use Rattle.tls_key_exchange.specs.KeyExchange.{view_dh_params, view_ec_parameters};
ghost use Rattle.tls_summary.specs.Exchange.{bits_behind as bits_behind_of, bits_of as bits_by, byte_bits as byte_bits_of, curve_by, hinted_parameters as hinted_layout, hinted_primes as hinted_primes_layout, named, prime_bits as prime_bits_in, prime_bits_by};

use layouts::{IResult, counted2, parsed};
use tls_base::{KeyExchange, NamedGroup, Public, TlsCipherSuiteID};
use tls_key_exchange::{
    ECParameters, ECParametersContent, ServerDHParams, parse_dh_params, parse_ec_parameters,
};

/// Parses a PSK identity hint, and the curve's parameters after it (RFC 5489, section 2).
#[tactic(auto, using(layouts::proofs::OneAnswerLemmas::read_allowed), unfolding(crate::specs::Exchange::hinted_parameters))]
fn hinted_parameters(i: &[u8]) -> IResult<&[u8], ECParameters>
    ensures { Gives view_ec_parameters hinted_layout i.now result }
{
    let (i, _) = parsed!(counted2(i));
    parse_ec_parameters(i)
}

/// The named group of parsed parameters, if they have one.
fn named_group(answer: IResult<&[u8], ECParameters>) -> Option<NamedGroup>
    ensures { option_map (λ g. g.0) result ≡ named (answer_of view_ec_parameters answer.entry) }
{
    match answer {
        Ok((_, parameters)) => match parameters.params_content {
            ECParametersContent::NamedGroup(group) => Some(group),
            ECParametersContent::ExplicitPrime(_) => None,
        },
        Err(_) => None,
    }
}

/// The curve in a ServerKeyExchange of the chosen suite; `known` if the suite's key exchange has no
/// curve.
pub(crate) fn curve_of(
    suite: TlsCipherSuiteID,
    body: &[u8],
    known: Option<NamedGroup>,
) -> Option<NamedGroup>
    ensures { option_map (λ g. g.0) result ≡ curve_by suite.0 body.now
        (option_map (λ g. g.0) known) }
{
    match KeyExchange::of(suite) {
        Some(exchange) if exchange.is_over_curves() => {
            if exchange.has_identity {
                named_group(hinted_parameters(body))
            } else {
                named_group(parse_ec_parameters(body))
            }
        }
        _ => known,
    }
}

/// The length of a byte above 0 without its leading zeros, in bits.
fn byte_bits(n: u8) -> u32
    ensures is { result ≡ byte_bits_of n }
    ensures fits { result ≤ 8 }
{
    match n {
        0..=1 => 1,
        2..=3 => 2,
        4..=7 => 3,
        8..=15 => 4,
        16..=31 => 5,
        32..=63 => 6,
        64..=127 => 7,
        _ => 8,
    }
}

/// The length in bits of a number that begins with this byte, above 0, and has these behind it.
fn bits_behind(first: u8, behind: &[u8]) -> u32
    ensures { result ≡ bits_behind_of first behind.now }
{
    if behind.len() < 0x1000_0000 {
        return behind.len() as u32 * 8 + byte_bits(first);
    }
    u32::MAX
}

/// The length in bits of a number, big-endian, without its leading zeros.
fn bits_of(number: &[u8]) -> u32
    ensures { result ≡ bits_by number.now }
{
    let mut left = number;
    for i in 0..number.len() {
        match left {
            [0, behind @ ..] => left = behind,
            [first, behind @ ..] => return bits_behind(*first, behind),
            [] => return 0,
        }
    }
    0
}

/// Parses a PSK identity hint, and the parameters of Diffie-Hellman after it (RFC 4279, section 3).
#[tactic(auto, using(layouts::proofs::OneAnswerLemmas::read_allowed), unfolding(crate::specs::Exchange::hinted_primes))]
fn hinted_primes(i: &[u8]) -> IResult<&[u8], ServerDHParams>
    ensures { Gives view_dh_params hinted_primes_layout i.now result }
{
    let (i, _) = parsed!(counted2(i));
    parse_dh_params(i)
}

/// The length in bits of the prime of parsed parameters.
fn prime_bits(answer: IResult<&[u8], ServerDHParams>) -> Option<u32>
    ensures { result ≡ prime_bits_in (answer_of view_dh_params answer.entry) }
{
    match answer {
        Ok((_, parameters)) => Some(bits_of(parameters.dh_p)),
        Err(_) => None,
    }
}

/// The length in bits of the prime in a ServerKeyExchange of the chosen suite; `known` if the
/// suite's key exchange has no prime.
pub(crate) fn prime_bits_of(suite: TlsCipherSuiteID, body: &[u8], known: Option<u32>) -> Option<u32>
    ensures { result ≡ prime_bits_by suite.0 body.now known }
{
    match KeyExchange::of(suite) {
        Some(exchange) if matches!(exchange.public, Public::Dh) => {
            if exchange.has_identity {
                prime_bits(hinted_primes(body))
            } else {
                prime_bits(parse_dh_params(body))
            }
        }
        _ => known,
    }
}
