//! Numbers in the byte order of the machine that wrote a file.
#![tactic(auto, using(layouts::proofs::GivesLemmas::reads), unfolding(layouts::specs::Reading::split_at, crate::specs::Order::little))]

ghost use Rattle.layouts.specs.Answers.{Gives};
ghost use Rattle.std.specs.Prelude.{◌≡◌, length};
ghost use Rattle.capture.specs.Order.{little, little_of, number_by};

use layouts::{Err, IResult, Needed, number2, number4, number8};

/// A byte order.
#[derive(Clone, Copy, Debug, PartialEq, Eq)]
pub enum Order {
    /// Most significant byte first.
    Big,
    /// Least significant byte first.
    Little,
}

/// Parses a little-endian number of 2 bytes.
fn little2(i: &[u8]) -> IResult<&[u8], u16>
    ensures { Gives (λ v. v) (little 2) i.now result }
{
    match i {
        [a, b, rest @ ..] => Ok((rest, u16::from_le_bytes([*a, *b]))),
        _ => Err(Err::Incomplete(Needed::Size(2 - i.len()))),
    }
}

/// Parses a little-endian number of 4 bytes.
fn little4(i: &[u8]) -> IResult<&[u8], u32>
    ensures { Gives (λ v. v) (little 4) i.now result }
{
    match i {
        [a, b, c, d, rest @ ..] => Ok((rest, u32::from_le_bytes([*a, *b, *c, *d]))),
        _ => Err(Err::Incomplete(Needed::Size(4 - i.len()))),
    }
}

/// Returns the little-endian number in 8 bytes.
#[tactic(auto)]
fn little_number(bytes: &[u8]) -> u64
    requires { length bytes.now ≡ 8 }
    ensures { result ≡ little_of bytes.now }
{
    u64::from_le_bytes([
        bytes[0], bytes[1], bytes[2], bytes[3], bytes[4], bytes[5], bytes[6], bytes[7],
    ])
}

/// Parses a little-endian number of 8 bytes.
fn little8(i: &[u8]) -> IResult<&[u8], u64>
    ensures { Gives (λ v. v) (little 8) i.now result }
{
    if i.len() < 8 {
        return Err(Err::Incomplete(Needed::Size(8 - i.len())));
    }
    let (front, rest) = i.split_at(8);
    Ok((rest, little_number(front)))
}

/// Parses a number of 2 bytes in this byte order.
///
/// `Incomplete`, with the count of missing bytes, if there are fewer than 2.
#[tactic(auto, using(layouts::proofs::OneAnswerLemmas::read_allowed), unfolding(crate::specs::Order::number_by))]
pub fn number2_by(i: &[u8], order: Order) -> IResult<&[u8], u16>
    ensures { Gives (λ v. v) (number_by order 2) i.now result }
{
    match order {
        Order::Big => number2(i),
        Order::Little => little2(i),
    }
}

/// Parses a number of 4 bytes in this byte order.
///
/// `Incomplete`, with the count of missing bytes, if there are fewer than 4.
#[tactic(auto, using(layouts::proofs::OneAnswerLemmas::read_allowed), unfolding(crate::specs::Order::number_by))]
pub fn number4_by(i: &[u8], order: Order) -> IResult<&[u8], u32>
    ensures { Gives (λ v. v) (number_by order 4) i.now result }
{
    match order {
        Order::Big => number4(i),
        Order::Little => little4(i),
    }
}

/// Parses a number of 8 bytes in this byte order.
///
/// `Incomplete`, with the count of missing bytes, if there are fewer than 8.
#[tactic(auto, using(layouts::proofs::OneAnswerLemmas::read_allowed), unfolding(crate::specs::Order::number_by))]
pub fn number8_by(i: &[u8], order: Order) -> IResult<&[u8], u64>
    ensures { Gives (λ v. v) (number_by order 8) i.now result }
{
    match order {
        Order::Big => number8(i),
        Order::Little => little8(i),
    }
}
