//! A trait for parts that are parsed with places, and the elements of such parts.
#![tactic(auto, using(layouts::proofs::OneAnswerLemmas::read_allowed))]

ghost use Rattle.std.specs.Prelude.{IfOk, IfSome};
ghost use Rattle.std.specs.Option.{option_map};
ghost use Rattle.layouts.specs.Bytes.{Bytes};
ghost use Rattle.layouts.specs.Answers.{Gives};
ghost use Rattle.layouts.specs.Layout.{Layout, complete};
ghost use Rattle.der.specs.Element.{whole as whole_layout, tagged, optional};
ghost use Rattle.x509_places.specs.Place.{IsBefore};

use crate::place::behind_part;
use der::der_length;
use layouts::{Err, ErrorKind, IResult, block, number1, refused};

/// How a part is parsed with the places of its fields.
pub(crate) trait Part<'a> {
    /// The value, and its places.
    type Read: Drop;

    ghost Value: { Type 0 };

    ghost view: { Self.Read → Value };

    ghost layout: { Layout Value };

    ghost stands: { Bytes → Self.Read → Type 0 };

    /// Parses one at the front of `i`, with its places in `whole`, if `behind` bytes of `whole`
    /// follow `i`.
    fn read_at(whole: &[u8], behind: usize, i: &'a [u8]) -> IResult<&'a [u8], Self::Read>
        ensures gives { Gives view layout i.now result }
        ensures places { IsBefore whole.now behind i.now
            → IfOk result (λ x. stands whole.now x.1) };
}

/// Parses `T`, which must consume all bytes.
#[tactic(auto, using(layouts::proofs::OneAnswerLemmas::read_allowed), unfolding(der::specs::Element::whole))]
fn whole_at<'a, T: Part<'a>>(whole: &[u8], behind: usize, i: &'a [u8]) -> IResult<&'a [u8], T::Read>
    ensures gives { Gives T.view (whole_layout T.layout) i.now result }
    ensures places { IsBefore whole.now behind i.now → IfOk result (λ x. T.stands whole.now x.1) }
{
    let (i, x) = T::read_at(whole, behind, i)?;
    if !i.is_empty() {
        return refused(i, ErrorKind::LengthValue);
    }
    Ok((i, x))
}

/// Parses `T` in a whole content: it must consume all bytes, and missing ones won't come.
fn content_at<'a, T: Part<'a>>(
    whole: &[u8],
    behind: usize,
    i: &'a [u8],
) -> IResult<&'a [u8], T::Read>
    ensures gives { Gives T.view (complete (whole_layout T.layout)) i.now result }
    ensures places { IsBefore whole.now behind i.now → IfOk result (λ x. T.stands whole.now x.1) }
{
    match whole_at::<T>(whole, behind, i) {
        Err(Err::Incomplete(_)) => refused(i, ErrorKind::Complete),
        answer => answer,
    }
}

/// Parses an element with this tag, whose whole content `T` parses. The result and the refusals are
/// those of [`der::tagged`].
#[tactic(auto, using(layouts::proofs::OneAnswerLemmas::read_allowed), unfolding(der::specs::Element::tagged))]
pub(crate) fn tagged_at<'a, T: Part<'a>>(
    whole: &[u8],
    behind: usize,
    i: &'a [u8],
    tag: u8,
) -> IResult<&'a [u8], T::Read>
    ensures gives { Gives T.view (tagged tag T.layout) i.now result }
    ensures places { IsBefore whole.now behind i.now → IfOk result (λ x. T.stands whole.now x.1) }
{
    let (after_tag, t) = number1(i)?;
    if t != tag {
        return refused(after_tag, ErrorKind::Tag);
    }
    let (after_length, n) = der_length(after_tag)?;
    let (rest, content) = block(after_length, n)?;
    let inside = behind_part(whole, behind, rest);
    let (_, x) = content_at::<T>(whole, inside, content)?;
    Ok((rest, x))
}

/// Parses an element with this tag as [`tagged_at`] does; `None` without consuming anything if no
/// such element is next, as [`der::optional`].
#[tactic(auto, using(layouts::proofs::OneAnswerLemmas::read_allowed), unfolding(der::specs::Element::optional))]
pub(crate) fn optional_at<'a, T: Part<'a>>(
    whole: &[u8],
    behind: usize,
    i: &'a [u8],
    tag: u8,
) -> IResult<&'a [u8], Option<T::Read>>
    ensures gives { Gives (λ v. option_map T.view v) (optional tag T.layout) i.now result }
    ensures places { IsBefore whole.now behind i.now
        → IfOk result (λ x. IfSome x.1 (λ y. T.stands whole.now y)) }
{
    if i.is_empty() {
        return Ok((i, None));
    }
    let (_, t) = number1(i)?;
    if t == tag {
        let (i, x) = tagged_at::<T>(whole, behind, i, tag)?;
        return Ok((i, Some(x)));
    }
    Ok((i, None))
}
