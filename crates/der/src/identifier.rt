//! OBJECT IDENTIFIER (X.690, section 8.19).
#![tactic(auto, using(layouts::proofs::OneAnswerLemmas::read_allowed))]

ghost use Rattle.std.specs.Prelude.{◌≡◌, ℕ, Option};
ghost use Rattle.layouts.specs.Bytes.{Bytes};
ghost use Rattle.layouts.specs.Answers.{Gives};
ghost use Rattle.der.specs.ObjectIdentifier.{leading_byte, subidentifier, object_identifier_content, object_identifier as object_identifier_layout, view_object_identifier};
ghost use Rattle.der.specs.ObjectIdentifier.{base128_from, in_range, first_arc as first_arc_of, second_arc as second_arc_of, view_arc, arcs_of, arcs_left};

use crate::element::tagged;
use crate::tag;
use layouts::{ErrorKind, IResult, InPlace, Items, block, number1, parsed, refused, rest};

/// A byte of a subidentifier that another byte follows.
struct LeadingByte;

impl<'a> InPlace<'a> for LeadingByte {
    type Read = u8;

    ghost Value = { ℕ };

    ghost view = { λ n. n };

    ghost layout = { leading_byte };

    #[tactic(auto, using(layouts::proofs::OneAnswerLemmas::read_allowed), unfolding(crate::specs::ObjectIdentifier::leading_byte))]
    fn read(i: &'a [u8]) -> IResult<&'a [u8], u8> {
        let (i, n) = parsed!(number1(i));
        if n < 128 {
            return refused(i, ErrorKind::Verify);
        }
        Ok((i, n))
    }
}

/// The bytes of a subidentifier: one number of an object identifier, in base 128.
struct Subidentifier;

impl<'a> InPlace<'a> for Subidentifier {
    type Read = &'a [u8];

    ghost Value = { Bytes };

    ghost view = { λ bytes. bytes.now };

    ghost layout = { subidentifier };

    #[tactic(auto, using(layouts::proofs::OneAnswerLemmas::read_allowed, crate::proofs::LeadingLemmas::with_last), unfolding(crate::specs::ObjectIdentifier::subidentifier))]
    fn read(i: &'a [u8]) -> IResult<&'a [u8], &'a [u8]> {
        let (_, first) = parsed!(number1(i));
        if first == 0x80 {
            return refused(i, ErrorKind::Verify);
        }
        let last = Items::<LeadingByte>::new(i).rest();
        let (behind, _) = parsed!(number1(last));
        block(i, i.len().saturating_sub(behind.len()))
    }
}

/// An object identifier.
#[derive(Clone, Copy, Debug, PartialEq)]
pub struct ObjectIdentifier<'a> {
    /// The content of its element.
    pub content: &'a [u8],
}

/// Parses the content of an OBJECT IDENTIFIER.
///
/// - `Error` of kind `LengthValue` if it has no bytes.
/// - `Error` of kind `Verify` if an arc begins with a byte 0x80, or the last one doesn't end.
impl<'a> InPlace<'a> for ObjectIdentifier<'a> {
    type Read = Self;

    ghost Value = { Bytes };

    ghost view = { view_object_identifier };

    ghost layout = { object_identifier_content };

    #[tactic(auto, using(layouts::proofs::OneAnswerLemmas::read_allowed), unfolding(crate::specs::ObjectIdentifier::object_identifier_content))]
    fn read(i: &'a [u8]) -> IResult<&'a [u8], Self> {
        if i.is_empty() {
            return refused(i, ErrorKind::LengthValue);
        }
        if !Items::<Subidentifier>::new(i).rest().is_empty() {
            return refused(i, ErrorKind::Verify);
        }
        let (i, content) = parsed!(rest(i));
        Ok((i, ObjectIdentifier { content }))
    }
}

/// Parses an OBJECT IDENTIFIER.
///
/// It refuses what [`tagged`] does, and what parsing an [`ObjectIdentifier`] does in its content.
#[tactic(auto, using(layouts::proofs::OneAnswerLemmas::read_allowed), unfolding(crate::specs::ObjectIdentifier::object_identifier))]
pub fn object_identifier(i: &[u8]) -> IResult<&[u8], ObjectIdentifier>
    ensures { Gives view_object_identifier object_identifier_layout i.now result }
{
    tagged::<ObjectIdentifier>(i, tag::OBJECT_IDENTIFIER)
}

/// An arc of an object identifier.
#[derive(Clone, Copy, Debug, PartialEq, Eq)]
pub enum ArcNumber {
    /// The arc's number.
    Fits(u128),
    /// The subidentifier is 2^128 or above: an arc of that number, or a second arc 80 below it.
    TooLarge,
}

/// The number of a subidentifier.
#[tactic(auto, using(crate::proofs::Base128Lemmas::number_steps))]
fn number_of(bytes: &[u8]) -> ArcNumber
    ensures { view_arc result ≡ in_range (base128_from 0 bytes.now) }
{
    let mut n: u128 = 0;
    for &byte in bytes {
        if n >= 1 << 121 {
            return ArcNumber::TooLarge;
        }
        n = n * 128 + (byte % 128) as u128;
    }
    ArcNumber::Fits(n)
}

/// The first two arcs, from the first number.
fn first_arcs(number: ArcNumber) -> (ArcNumber, ArcNumber)
    ensures first { view_arc result.0 ≡ first_arc_of (view_arc number) }
    ensures second { view_arc result.1 ≡ second_arc_of (view_arc number) }
{
    match number {
        ArcNumber::Fits(n) => {
            let root = if n < 40 {
                0
            } else if n < 80 {
                1
            } else {
                2
            };
            (ArcNumber::Fits(root), ArcNumber::Fits(n - 40 * root))
        }
        ArcNumber::TooLarge => (ArcNumber::Fits(2), ArcNumber::TooLarge),
    }
}

/// Which arc is next: the first, the second, which came with the first, or one with its
/// subidentifier.
#[derive(Clone, Copy, Debug, PartialEq, Eq)]
enum Next {
    First,
    Second(ArcNumber),
    Further,
}

/// An iterator over the arcs of an object identifier, from the root.
#[derive(Clone, Copy, Debug, PartialEq)]
pub struct Arcs<'a> {
    next: Next,
    numbers: Items<'a, Subidentifier>,
}

impl<'a> ObjectIdentifier<'a> {
    /// The arcs: 1, 2, 840 and so on for 1.2.840.
    pub fn arcs(self) -> Arcs<'a>
        ensures { arcs_left result.next result.numbers.bytes.now ≡ arcs_of self.entry.content.now }
    {
        Arcs {
            next: Next::First,
            numbers: Items::new(self.content),
        }
    }
}

impl<'a> Iterator for Arcs<'a> {
    ghost use Rattle.std.specs.Iterator.{YieldsFirstBy, item_count};

    type Item = ArcNumber;

    ghost next_gives = { YieldsFirstBy view_arc (λ s. arcs_left s.next s.numbers.bytes.now) };

    ghost remaining = { item_count (λ s. arcs_left s.next s.numbers.bytes.now) };

    fn next(&mut self) -> Option<ArcNumber> {
        if let Next::Second(arc) = self.next {
            self.next = Next::Further;
            return Some(arc);
        }
        let number = number_of(self.numbers.next()?);
        if let Next::Further = self.next {
            return Some(number);
        }
        let (first, second) = first_arcs(number);
        self.next = Next::Second(second);
        Some(first)
    }
}
