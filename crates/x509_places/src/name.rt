//! Names, with their places.
#![tactic(auto, using(layouts::proofs::OneAnswerLemmas::read_allowed))]

ghost use Rattle.std.specs.Prelude.{IfOk};
ghost use Rattle.layouts.specs.Answers.{Gives};
ghost use Rattle.layouts.specs.Items.{items_in};
ghost use Rattle.x509.specs.Name.{name, relative_distinguished_name};
ghost use Rattle.x509_places.specs.Place.{IsBefore, NameStands};

use crate::place::taken;
use layouts::{IResult, Place};
use x509::{Name, parse_name};

/// Parses a Name, with its place including its tag and its length.
pub(crate) fn name_at<'a>(
    whole: &[u8],
    behind: usize,
    i: &'a [u8],
) -> IResult<&'a [u8], (Name<'a>, Place)>
    ensures gives { Gives
        (λ x. items_in relative_distinguished_name x.0.bytes.now) name i.now result }
    ensures places { IsBefore whole.now behind i.now
        → IfOk result
        (λ x. NameStands whole.now x.1.1 (items_in relative_distinguished_name x.1.0.bytes.now)) }
{
    let (rest, x) = parse_name(i)?;
    let element = taken(whole, behind, i, rest);
    Ok((rest, (x, element.1)))
}
