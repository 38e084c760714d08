//! Lists in place: items are parsed while the list is walked, and nothing is allocated.
//!
//! A list in place keeps only its bytes. It holds what the layout `list` reads there, so a
//! structure with such a list has the same layout as one with a `Vec`. Nothing is checked before
//! the walk reaches it: a walk ends before the first item that can't be read, or at the end of the
//! bytes. [`Items::refusal`] returns which.
ghost use Rattle.std.specs.Prelude.{◌≡◌, ◌*◌, ◌<◌, ◌≤◌, ℕ, length, slice_get, IfSome};
ghost use Rattle.std.specs.Option.{option_map};
ghost use Rattle.layouts.specs.Layout.{Layout, number, pairs_of, times};
ghost use Rattle.layouts.specs.Answers.{Gives, IsRefusal, refusal_of};
ghost use Rattle.layouts.specs.Items.{items_in, left_in, refusal_in};

use crate::number::Number;
use crate::result::{Err, Error, ErrorKind, IResult, Needed, refused};
use std::marker::PhantomData;

/// An item of a list in place: its layout, and a reader that allocates nothing.
///
/// Numbers of a fixed width are items of themselves; other types name what they read.
pub trait InPlace<'a> {
    /// The type of an item that was read.
    type Read: Drop;

    /// The item's value, regardless of its place in memory.
    ghost Value: { Type 0 };

    ghost view: { Self.Read → Value };

    ghost layout: { Layout Value };

    /// Reads one item from the start of `i`.
    fn read(i: &'a [u8]) -> IResult<&'a [u8], Self::Read>
        ensures { Gives view layout i.now result };
}

impl<'a, T: Number> InPlace<'a> for T {
    type Read = T;

    ghost Value = { ℕ };

    ghost view = { T.value };

    ghost layout = { number T.WIDTH };

    #[tactic(auto, using(crate::proofs::GivesLemmas::reads), unfolding(crate::specs::Reading::split_at, crate::specs::Reading::number_at))]
    #[inline(always)]
    fn read(i: &'a [u8]) -> IResult<&'a [u8], T> {
        if i.len() < T::WIDTH {
            return Err(Err::Incomplete(Needed::Size(T::WIDTH - i.len())));
        }
        let (rest, number) = T::read_present(i);
        Ok((rest, number))
    }
}

/// Walks the items in a slice of bytes, up to the first that can't be read. Each is parsed when the
/// walk reaches it.
///
/// Two are equal if their bytes are.
#[derive_where(Clone, Copy, Debug, PartialEq)]
pub struct Items<'a, T> {
    bytes: &'a [u8],
    #[derive_where(skip)]
    item: PhantomData<T>,
}

impl<'a, T> Items<'a, T> {
    /// Returns a walk over the items in `bytes`.
    #[inline(always)]
    pub fn new(bytes: &'a [u8]) -> Self
        ensures { result.bytes.now ≡ bytes.now }
    {
        Items {
            bytes,
            item: PhantomData,
        }
    }

    /// Returns the bytes that the walk hasn't reached yet.
    #[inline(always)]
    pub fn bytes(self) -> &'a [u8]
        ensures { result.now ≡ self.entry.bytes.now }
    {
        self.bytes
    }
}

impl<'a, T: InPlace<'a>> Items<'a, T> {
    /// Returns the bytes after the items: none, or those from the first item that can't be read.
    #[tactic(auto, using(crate::proofs::ItemsLemmas::left_first, crate::proofs::ItemsLemmas::left_none, crate::proofs::ItemsLemmas::left_still, crate::proofs::ItemsLemmas::left_over))]
    pub fn rest(self) -> &'a [u8]
        ensures { result.now ≡ left_in T.layout self.entry.bytes.now }
    {
        let mut rest = self.bytes;
        while !rest.is_empty() {
            match T::read(rest) {
                Ok((after, _)) if after.len() < rest.len() => rest = after,
                _ => return rest,
            }
        }
        rest
    }

    /// Returns why the items end: the refusal of the next item, or `None` if no bytes are left.
    ///
    /// Also `None` if the next item would be empty, which no item of TLS is.
    #[inline(always)]
    pub fn refusal(self) -> Option<Err<Error<&'a [u8]>>>
        ensures why { option_map refusal_of result ≡ refusal_in T.layout self.entry.bytes.now }
        ensures refuses { IfSome result IsRefusal }
    {
        let rest = self.rest();
        if rest.is_empty() {
            return None;
        }
        match T::read(rest) {
            Ok(_) => None,
            Err(e) => Some(e),
        }
    }
}

impl<'a, T: InPlace<'a>> Iterator for Items<'a, T> {
    ghost use Rattle.std.specs.Iterator.{YieldsFirstBy, item_count};

    type Item = T::Read;

    ghost next_gives = { YieldsFirstBy T.view (λ s. items_in T.layout s.bytes.now) };

    ghost remaining = { item_count (λ s. items_in T.layout s.bytes.now) };

    #[tactic(auto, using(crate::proofs::ItemsLemmas::items_first, crate::proofs::ItemsLemmas::items_none, crate::proofs::ItemsLemmas::items_still, crate::proofs::ItemsLemmas::items_shorter))]
    #[inline(always)]
    fn next(&mut self) -> Option<T::Read> {
        match T::read(self.bytes) {
            Ok((rest, item)) if rest.len() < self.bytes.len() => {
                self.bytes = rest;
                Some(item)
            }
            _ => None,
        }
    }
}

impl<'a, T: Number> Items<'a, T> {
    /// Returns how many numbers the bytes hold. Bytes left over at the end don't count.
    #[tactic(auto, using(crate::proofs::NumbersLemmas::numbers_count, crate::proofs::NumbersLemmas::no_width))]
    #[inline(always)]
    pub fn len(self) -> usize
        ensures { result ≡ length (items_in (number T.WIDTH) self.entry.bytes.now) }
    {
        if T::WIDTH == 0 {
            return 0;
        }
        self.bytes.len() / T::WIDTH
    }

    /// Returns the number at position `i`, counted from 0; `None` beyond the last one.
    #[tactic(auto, using(crate::proofs::NumbersLemmas::place_fits, crate::proofs::NumbersLemmas::number_at_place))]
    #[inline(always)]
    pub fn get(self, i: usize) -> Option<T>
        ensures { option_map T.value result ≡ slice_get
            (items_in (number T.WIDTH) self.entry.bytes.now) i }
    {
        if i >= self.len() {
            return None;
        }
        let (_, there) = self.bytes.split_at(T::WIDTH * i);
        let (_, number) = T::read_present(there);
        Some(number)
    }
}

/// Reads `count` numbers in place. The caller ensures that their bytes are present.
#[tactic(auto, using(crate::proofs::OneAnswerLemmas::read_allowed, crate::proofs::NumbersLemmas::numbers_in))]
#[inline(always)]
pub fn numbers_in_place<T: Number>(i: &[u8], count: usize) -> IResult<&[u8], Items<T>>
    requires some { 0 < T.WIDTH }
    requires fits { T.WIDTH * count ≤ length i.now }
    ensures { Gives (λ v. items_in (number T.WIDTH) v.bytes.now) (times count (number T.WIDTH))
        i.now result }
{
    let (numbers, rest) = i.split_at(T::WIDTH * count);
    Ok((rest, Items::new(numbers)))
}

/// Reads all bytes of `i` as 2-byte numbers, big-endian, in place.
///
/// `Error` of kind `LengthValue` if the number of bytes is odd.
#[inline(always)]
pub fn pairs_in_place<T: Number>(i: &[u8]) -> IResult<&[u8], Items<T>>
    requires { T.WIDTH ≡ 2 }
    ensures { Gives (λ v. items_in (number T.WIDTH) v.bytes.now) (pairs_of (number T.WIDTH))
        i.now result }
{
    if i.len() % 2 != 0 {
        return refused(i, ErrorKind::LengthValue);
    }
    numbers_in_place::<T>(i, i.len() / 2)
}
