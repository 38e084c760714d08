//! Numbers of 1 to 8 bytes, big-endian.
#![tactic(auto, using(crate::proofs::GivesLemmas::reads), unfolding(crate::specs::Reading::split_at, crate::specs::Reading::number_at))]

ghost use Rattle.std.specs.Prelude.{◌≡◌, ◌+◌, ◌≤◌, ℕ, Ok, length};
ghost use Rattle.layouts.specs.Layout.{number};
ghost use Rattle.layouts.specs.Answers.{Gives};

use crate::result::{Err, IResult, Needed};

/// A type whose values are numbers of a fixed width.
///
/// [`Number::read_present`] has no bounds check, so that the compiler can swap the bytes of many
/// numbers at once.
pub trait Number: Drop {
    /// The width in bytes.
    ghost WIDTH: { ℕ };

    const WIDTH: usize;

    /// The number as a natural number.
    ghost value: { Self → ℕ };

    /// Reads a number from the start of `i`, big-endian. The caller ensures that its bytes are
    /// present.
    fn read_present(i: &[u8]) -> (&[u8], Self)
        requires { WIDTH ≤ length i.now }
        ensures read { Gives value (number WIDTH) i.now (Ok result) }
        ensures behind { WIDTH + length result.0.now ≡ length i.now };
}

/// Reads a number of 1 byte (`uint8`; RFC 8446, section 3.3).
///
/// `Incomplete` with 1 if there is no byte.
pub fn number1(i: &[u8]) -> IResult<&[u8], u8>
    ensures { Gives (λ v. v) (number 1) i.now result }
{
    match i {
        [a, rest @ ..] => Ok((rest, *a)),
        [] => Err(Err::Incomplete(Needed::Size(1))),
    }
}

/// Reads a number of 2 bytes, big-endian (`uint16`; RFC 8446, section 3.3).
///
/// `Incomplete` with the number of missing bytes if there are fewer than 2.
pub fn number2(i: &[u8]) -> IResult<&[u8], u16>
    ensures { Gives (λ v. v) (number 2) i.now result }
{
    match i {
        [a, b, rest @ ..] => Ok((rest, u16::from_be_bytes([*a, *b]))),
        _ => Err(Err::Incomplete(Needed::Size(2 - i.len()))),
    }
}

impl Number for u8 {
    ghost WIDTH = { 1 };

    const WIDTH: usize = 1;

    ghost value = { λ n. n };

    #[inline(always)]
    fn read_present(i: &[u8]) -> (&[u8], u8) {
        let (front, rest) = i.split_at(1);
        (rest, front[0])
    }
}

impl Number for u16 {
    ghost WIDTH = { 2 };

    const WIDTH: usize = 2;

    ghost value = { λ n. n };

    #[inline(always)]
    fn read_present(i: &[u8]) -> (&[u8], u16) {
        let (front, rest) = i.split_at(2);
        (rest, u16::from_be_bytes([front[0], front[1]]))
    }
}

/// Reads a number of 3 bytes, big-endian (`uint24`; RFC 8446, section 3.3).
///
/// `Incomplete` with the number of missing bytes if there are fewer than 3.
pub fn number3(i: &[u8]) -> IResult<&[u8], u32>
    ensures { Gives (λ v. v) (number 3) i.now result }
{
    match i {
        [a, b, c, rest @ ..] => Ok((rest, u32::from_be_bytes([0, *a, *b, *c]))),
        _ => Err(Err::Incomplete(Needed::Size(3 - i.len()))),
    }
}

/// Reads a number of 4 bytes, big-endian (`uint32`; RFC 8446, section 3.3).
///
/// `Incomplete` with the number of missing bytes if there are fewer than 4.
pub fn number4(i: &[u8]) -> IResult<&[u8], u32>
    ensures { Gives (λ v. v) (number 4) i.now result }
{
    match i {
        [a, b, c, d, rest @ ..] => Ok((rest, u32::from_be_bytes([*a, *b, *c, *d]))),
        _ => Err(Err::Incomplete(Needed::Size(4 - i.len()))),
    }
}

/// Reads a number of 8 bytes, big-endian (`uint64`; RFC 8446, section 3.3).
///
/// `Incomplete` with the number of missing bytes if there are fewer than 8.
pub fn number8(i: &[u8]) -> IResult<&[u8], u64>
    ensures { Gives (λ v. v) (number 8) i.now result }
{
    if i.len() < 8 {
        return Err(Err::Incomplete(Needed::Size(8 - i.len())));
    }
    let (front, rest) = i.split_at(8);
    let n = u64::from_be_bytes([
        front[0], front[1], front[2], front[3], front[4], front[5], front[6], front[7],
    ]);
    Ok((rest, n))
}
