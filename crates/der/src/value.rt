//! The contents of BOOLEAN, INTEGER and BIT STRING.
#![tactic(auto, using(layouts::proofs::OneAnswerLemmas::read_allowed))]

ghost use Rattle.std.specs.Prelude.{◌≡◌, ◌+◌, ◌*◌, ◌^◌, ◌≤◌, Bool, length, nat_lt};
ghost use Rattle.layouts.specs.Bytes.{Bytes};
ghost use Rattle.layouts.specs.Answers.{Gives};
ghost use Rattle.der.specs.Values.{ber_boolean, boolean, default_false as default_false_layout, integer, is_shortest as is_shortest_of, BitString as PlainBitString, view_bit_string, bit_string, is_padding as is_padding_of, bit_of};

use crate::element::optional;
use crate::tag;
use layouts::{ErrorKind, IResult, InPlace, number1, parsed, refused, rest};

/// The content of a BOOLEAN (X.690, sections 8.2 and 11.1).
///
/// - `Error` of kind `Verify` if it is neither 0 nor 255.
/// - `Incomplete` with count 1 if it is empty.
pub struct Boolean;

impl<'a> InPlace<'a> for Boolean {
    type Read = bool;

    ghost Value = { Bool };

    ghost view = { λ v. v };

    ghost layout = { boolean };

    #[tactic(auto, using(layouts::proofs::OneAnswerLemmas::read_allowed), unfolding(crate::specs::Values::boolean))]
    fn read(i: &'a [u8]) -> IResult<&'a [u8], bool> {
        let (i, n) = parsed!(number1(i));
        if n != 0 && n != 255 {
            return refused(i, ErrorKind::Verify);
        }
        Ok((i, n == 255))
    }
}

/// The content of a BOOLEAN in BER: TRUE is any byte but 0 (X.690, section 8.2.2).
///
/// `Incomplete` with count 1 if it is empty.
pub struct BerBoolean;

impl<'a> InPlace<'a> for BerBoolean {
    type Read = bool;

    ghost Value = { Bool };

    ghost view = { λ v. v };

    ghost layout = { ber_boolean };

    #[tactic(auto, using(layouts::proofs::OneAnswerLemmas::read_allowed), unfolding(crate::specs::Values::ber_boolean))]
    fn read(i: &'a [u8]) -> IResult<&'a [u8], bool> {
        let (i, n) = parsed!(number1(i));
        Ok((i, n != 0))
    }
}

/// Parses a BOOLEAN DEFAULT FALSE: `false` if no BOOLEAN is next.
///
/// An explicit FALSE and BER's other bytes for TRUE are accepted: DER forbids them (X.690, sections
/// 11.1 and 11.5), but certificates have them. It refuses what [`crate::tagged`] and [`BerBoolean`]
/// do.
#[tactic(auto, using(layouts::proofs::OneAnswerLemmas::read_allowed), unfolding(crate::specs::Values::default_false))]
pub fn default_false(i: &[u8]) -> IResult<&[u8], bool>
    ensures { Gives (λ v. v) default_false_layout i.now result }
{
    let (i, value) = parsed!(optional::<BerBoolean>(i, tag::BOOLEAN));
    match value {
        Some(value) => Ok((i, value)),
        None => Ok((i, false)),
    }
}

/// Whether no fewer bytes encode this INTEGER.
fn is_shortest(bytes: &[u8]) -> bool
    ensures { result ≡ is_shortest_of bytes.now }
{
    match bytes {
        [0, b, ..] => *b >= 128,
        [255, b, ..] => *b < 128,
        _ => true,
    }
}

/// The content of an INTEGER: its bytes in two's complement, big-endian (X.690, section 8.3).
///
/// - `Error` of kind `LengthValue` if it is empty.
/// - `Error` of kind `Verify` if fewer bytes could encode it.
pub struct Integer;

impl<'a> InPlace<'a> for Integer {
    type Read = &'a [u8];

    ghost Value = { Bytes };

    ghost view = { λ bytes. bytes.now };

    ghost layout = { integer };

    #[tactic(auto, using(layouts::proofs::OneAnswerLemmas::read_allowed), unfolding(crate::specs::Values::integer))]
    fn read(i: &'a [u8]) -> IResult<&'a [u8], &'a [u8]> {
        if i.is_empty() {
            return refused(i, ErrorKind::LengthValue);
        }
        let (i, bytes) = parsed!(rest(i));
        if !is_shortest(bytes) {
            return refused(i, ErrorKind::Verify);
        }
        Ok((i, bytes))
    }
}

/// 2 to the power of `k`.
fn power_of_two(k: u8) -> u8
    requires { k ≤ 7 }
    ensures { result ≡ 2 ^ k }
{
    match k {
        0 => 1,
        1 => 2,
        2 => 4,
        3 => 8,
        4 => 16,
        5 => 32,
        6 => 64,
        _ => 128,
    }
}

/// A BIT STRING (X.690, section 8.6).
#[derive(Clone, Copy, Debug, PartialEq)]
pub struct BitString<'a> {
    /// How many bits of the last byte are unused, at most 7.
    pub unused: u8,
    /// The bytes of its bits.
    pub bytes: &'a [u8],
}

impl<'a> BitString<'a> {
    /// Whether it has a bit `k`.
    fn has_bit(self, k: usize) -> bool
        ensures { result ≡ nat_lt (k + self.entry.unused) (length self.entry.bytes.now * 8) }
    {
        let past = k % 8 + self.unused as usize;
        k / 8 + past / 8 < self.bytes.len()
    }

    /// Bit `k`, where bit 0 is the highest of the first byte; `false` past the last bit.
    pub fn bit(self, k: usize) -> bool
        ensures { result ≡ bit_of (view_bit_string self.entry) k }
    {
        if !self.has_bit(k) {
            return false;
        }
        let shift = power_of_two(7 - (k % 8) as u8);
        self.bytes[k / 8] / shift % 2 == 1
    }
}

/// Whether the unused bits exist and are 0.
fn is_padding(unused: u8, bytes: &[u8]) -> bool
    requires { unused ≤ 7 }
    ensures { result ≡ is_padding_of unused bytes.now }
{
    if bytes.is_empty() {
        return unused == 0;
    }
    bytes[bytes.len() - 1] % power_of_two(unused) == 0
}

/// Parses the content of a BIT STRING.
///
/// - `Incomplete` with count 1 if it is empty.
/// - `Error` of kind `Verify` if more than 7 bits are unused, if there is no byte for them, or if
///   one of them isn't 0 (sections 8.6.2.3 and 11.2.1).
impl<'a> InPlace<'a> for BitString<'a> {
    type Read = Self;

    ghost Value = { PlainBitString };

    ghost view = { view_bit_string };

    ghost layout = { bit_string };

    #[tactic(auto, using(layouts::proofs::OneAnswerLemmas::read_allowed), unfolding(crate::specs::Values::bit_string))]
    fn read(i: &'a [u8]) -> IResult<&'a [u8], Self> {
        let (i, unused) = parsed!(number1(i));
        if unused > 7 {
            return refused(i, ErrorKind::Verify);
        }
        let (i, bytes) = parsed!(rest(i));
        if !is_padding(unused, bytes) {
            return refused(i, ErrorKind::Verify);
        }
        Ok((i, BitString { unused, bytes }))
    }
}
