//! Items that end in bytes, with the place of these.
ghost use Rattle.std.specs.Prelude.{◌≡◌, IfOk};
ghost use Rattle.layouts.specs.Answers.{Gives};
ghost use Rattle.layouts.specs.Bytes.{Bytes};
ghost use Rattle.layouts.specs.Items.{items_in};
ghost use Rattle.layouts.specs.Meaning.{EndsWith};
ghost use Rattle.tls_places.specs.Place.{IsEnd, Stands, YieldsPlaced};
ghost use Rattle.tls_places.specs.Last.{StandsLast};

use crate::place::place_before;
use layouts::{IResult, InPlace, Items, Place};
use std::marker::PhantomData;

/// An item that ends in a sequence of bytes: the content of an extension, the body of a message, a
/// name after its length.
pub trait ContentItem<'a>: InPlace<'a> {
    ghost content: { Self.Read → Bytes };

    /// These bytes. In the parsed bytes they come right before the rest.
    fn content(read: &Self::Read) -> &'a [u8]
        ensures is { result.now ≡ content read.now }
        ensures last { StandsLast Self.layout (Self.view read.now) (content read.now) };
}

/// Parses one item at the front of `i`, with the place of its content in `whole`, if `i` is an end
/// of `whole`.
///
/// It refuses what the item's parser refuses in `i`.
#[tactic(auto, using(layouts::proofs::OneAnswerLemmas::read_allowed))]
#[inline(always)]
pub fn frame_at<'a, T: ContentItem<'a>>(
    whole: &[u8],
    i: &'a [u8],
) -> IResult<&'a [u8], (T::Read, Place)>
    ensures gives { Gives (λ x. T.view x.0) T.layout i.now result }
    ensures stands { EndsWith whole.now i.now
        → IfOk result (λ x. Stands whole.now x.1.1 (T.content x.1.0)) }
    ensures ends { EndsWith whole.now i.now → IfOk result (λ x. EndsWith whole.now x.0.now) }
{
    let (rest, item) = T::read(i)?;
    let place = place_before(whole, T::content(&item), rest);
    Ok((rest, (item, place)))
}

/// An iterator over the items in bytes, each with the place of its content in these bytes.
///
/// It yields the items of [`Items`], and ends where that ends.
#[derive(Drop)]
pub struct Placed<'a, T> {
    whole: &'a [u8],
    rest: &'a [u8],
    item: PhantomData<T>,
    ghost ends: { IsEnd whole.now rest.now },
}

impl<'a, T> Placed<'a, T> {
    /// The items of `bytes`.
    #[tactic(auto, using(crate::proofs::PlaceLemmas::whole_is_end))]
    #[inline(always)]
    pub fn new(bytes: &'a [u8]) -> Self
        ensures whole { result.whole.now ≡ bytes.now }
        ensures rest { result.rest.now ≡ bytes.now }
    {
        Placed {
            whole: bytes,
            rest: bytes,
            item: PhantomData,
        }
    }

    /// The items that weren't iterated yet, without places: [`Items::refusal`] returns why they end
    /// where they do.
    #[inline(always)]
    pub fn items(&self) -> Items<'a, T>
        ensures { result.bytes.now ≡ self.now.rest.now }
    {
        Items::new(self.rest)
    }
}

impl<'a, T: ContentItem<'a>> Iterator for Placed<'a, T> {
    ghost use Rattle.std.specs.Iterator.{item_count};

    type Item = (T::Read, Place);

    ghost next_gives = { YieldsPlaced T.view T.content (λ s. s.whole.now)
        (λ s. items_in T.layout s.rest.now) };

    ghost remaining = { item_count (λ s. items_in T.layout s.rest.now) };

    #[tactic(auto, using(layouts::proofs::ItemsLemmas::items_first, layouts::proofs::ItemsLemmas::items_none, layouts::proofs::ItemsLemmas::items_still, layouts::proofs::ItemsLemmas::items_shorter))]
    #[inline(always)]
    fn next(&mut self) -> Option<(T::Read, Place)> {
        match frame_at::<T>(self.whole, self.rest) {
            Ok((rest, item)) if rest.len() < self.rest.len() => {
                self.rest = rest;
                Some(item)
            }
            _ => None,
        }
    }
}
