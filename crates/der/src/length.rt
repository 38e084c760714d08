//! Lengths (X.690, sections 8.1.3 and 10.1).
#![tactic(auto, using(layouts::proofs::OneAnswerLemmas::read_allowed))]

ghost use Rattle.layouts.specs.Answers.{Gives};
ghost use Rattle.der.specs.Element.{long_length, length_by as length_by_layout, der_length as der_length_layout};

use layouts::{ErrorKind, IResult, number1, number2, number3, parsed, refused};

/// Parses the rest of a length after its first byte.
#[tactic(auto, using(layouts::proofs::OneAnswerLemmas::read_allowed), unfolding(crate::specs::Element::long_length, crate::specs::Element::length_by))]
fn length_by(i: &[u8], first: u8) -> IResult<&[u8], usize>
    ensures { Gives (λ v. v) (length_by_layout first) i.now result }
{
    match first {
        0x80 => refused(i, ErrorKind::Switch),
        0x81 => {
            let (i, n) = parsed!(number1(i));
            if n < 0x80 {
                return refused(i, ErrorKind::Verify);
            }
            Ok((i, n as usize))
        }
        0x82 => {
            let (i, n) = parsed!(number2(i));
            if n < 0x100 {
                return refused(i, ErrorKind::Verify);
            }
            Ok((i, n as usize))
        }
        0x83 => {
            let (i, n) = parsed!(number3(i));
            if n < 0x1_0000 {
                return refused(i, ErrorKind::Verify);
            }
            Ok((i, n as usize))
        }
        _ => {
            if first > 0x80 {
                return refused(i, ErrorKind::TooLarge);
            }
            Ok((i, first as usize))
        }
    }
}

/// Parses the length of a content, in bytes: 1 byte, or 0x81, 0x82 or 0x83 and 1 to 3 bytes after
/// it.
///
/// - `Incomplete` with the count of missing bytes.
/// - `Error` of kind `Switch` for the indefinite form, which DER forbids.
/// - `Error` of kind `Verify` if fewer bytes could encode it.
/// - `Error` of kind `TooLarge` if more than 3 bytes follow the first.
#[tactic(auto, using(layouts::proofs::OneAnswerLemmas::read_allowed), unfolding(crate::specs::Element::der_length))]
pub fn der_length(i: &[u8]) -> IResult<&[u8], usize>
    ensures { Gives (λ v. v) der_length_layout i.now result }
{
    let (i, first) = parsed!(number1(i));
    length_by(i, first)
}
