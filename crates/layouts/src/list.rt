//! Lists, read item by item.
ghost use Rattle.std.specs.Prelude.{◌≡◌, ◌*◌, ◌≤◌, length, map};
ghost use Rattle.layouts.specs.Layout.{behind, list, list1, number, pairs_of, times};
ghost use Rattle.layouts.specs.Answers.{GivesOrMemory};

use crate::item::Item;
use crate::number::Number;
use crate::result::{Err, ErrorKind, IResult, refused};
use crate::room::room_at_first;
use std::alloc::Global;

/// Appends the items in `i` to `first`, read as [`items`] reads them.
fn further_items<'a, T: Item<'a>>(
    alloc: Global,
    i: &'a [u8],
    first: Vec<T::Read>,
) -> IResult<&'a [u8], Vec<T::Read>>
    ensures { GivesOrMemory (λ v. map T.view v.items)
        (behind (map T.view first.items) (list T.layout)) i.now result }
{
    let mut items = first;
    let mut rest = i;
    while !rest.is_empty() {
        match T::read(alloc, rest) {
            Ok((after, item)) if after.len() < rest.len() => {
                items.push(item)?;
                rest = after;
            }
            Err(Err::OutOfMemory) => return Err(Err::OutOfMemory),
            _ => return Ok((rest, items)),
        }
    }
    Ok((rest, items))
}

/// Appends the items in `i` to `first`, as [`further_items`]. Returns at once if no bytes are left,
/// which is most common.
#[inline(always)]
fn items_behind<'a, T: Item<'a>>(
    alloc: Global,
    i: &'a [u8],
    first: Vec<T::Read>,
) -> IResult<&'a [u8], Vec<T::Read>>
    ensures { GivesOrMemory (λ v. map T.view v.items)
        (behind (map T.view first.items) (list T.layout)) i.now result }
{
    if i.is_empty() {
        return Ok((i, first));
    }
    further_items::<T>(alloc, i, first)
}

/// Reads zero or more items into a vector. It ends before the first item that is refused (`Error`
/// or `Incomplete`) or empty. The rest begins there.
///
/// `OutOfMemory` if the list or an item can't be allocated. Refuses nothing else.
#[inline(always)]
pub fn items<'a, T: Item<'a>>(alloc: Global, i: &'a [u8]) -> IResult<&'a [u8], Vec<T::Read>>
    ensures { GivesOrMemory (λ v. map T.view v.items) (list T.layout) i.now result }
{
    further_items::<T>(alloc, i, Vec::with_capacity(alloc, room_at_first::<T>(i))?)
}

/// Reads one or more items into a vector, up to the first that can't be read.
///
/// If the first item is refused, returns that refusal, with `Incomplete` turned into `Error` of
/// kind `Complete`. `OutOfMemory` if the list or an item can't be allocated.
pub fn items1<'a, T: Item<'a>>(alloc: Global, i: &'a [u8]) -> IResult<&'a [u8], Vec<T::Read>>
    ensures { GivesOrMemory (λ v. map T.view v.items) (list1 T.layout) i.now result }
{
    match T::read(alloc, i) {
        Ok((rest, item)) => {
            let mut first = Vec::with_capacity(alloc, room_at_first::<T>(rest) + 1)?;
            first.push_reserved(item);
            items_behind::<T>(alloc, rest, first)
        }
        Err(Err::Incomplete(_)) => refused(i, ErrorKind::Complete),
        Err(e) => Err(e),
    }
}

/// Reads `count` numbers into a vector, which is allocated once. The caller ensures that their
/// bytes are present.
///
/// `OutOfMemory` if the vector can't be allocated. Refuses nothing else.
#[inline(always)]
pub fn numbers<T: Number>(alloc: Global, i: &[u8], count: usize) -> IResult<&[u8], Vec<T>>
    requires { T.WIDTH * count ≤ length i.now }
    ensures { GivesOrMemory (λ v. map T.value v.items) (times count (number T.WIDTH)) i.now result }
{
    let mut numbers = Vec::with_capacity(alloc, count)?;
    let mut rest = i;
    for _ in 0..count {
        let (after, number) = T::read_present(rest);
        numbers.push_reserved(number);
        rest = after;
    }
    Ok((rest, numbers))
}

/// Reads all bytes of `i` as 2-byte numbers, big-endian, into a vector.
///
/// `Error` of kind `LengthValue` if the number of bytes is odd. `OutOfMemory` if the vector can't
/// be allocated.
pub fn pairs<T: Number>(alloc: Global, i: &[u8]) -> IResult<&[u8], Vec<T>>
    requires { T.WIDTH ≡ 2 }
    ensures { GivesOrMemory (λ v. map T.value v.items) (pairs_of (number T.WIDTH)) i.now result }
{
    if i.len() % 2 != 0 {
        return refused(i, ErrorKind::LengthValue);
    }
    numbers::<T>(alloc, i, i.len() / 2)
}
