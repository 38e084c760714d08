//! Items of lists.
ghost use Rattle.std.specs.Prelude.{◌≤◌, ℕ, length};
ghost use Rattle.layouts.specs.Bytes.{Bytes};
ghost use Rattle.layouts.specs.Layout.{Layout, counted, number};
ghost use Rattle.layouts.specs.Answers.{GivesOrMemory};

use crate::bytes::{counted1, counted2};
use crate::in_place::InPlace;
use crate::number::number2;
use crate::result::IResult;
use crate::room::{Room, hops1, hops2};
use std::alloc::Global;

/// An item of a list: its layout, and a reader. Most types that are parsed are items of themselves.
pub trait Item<'a>: Room {
    /// The type of an item that was read.
    type Read: Drop;

    /// The item's value, regardless of its place in memory.
    ghost Value: { Type 0 };

    ghost view: { Self.Read → Value };

    ghost layout: { Layout Value };

    /// Reads one item from the start of `i`.
    fn read(alloc: Global, i: &'a [u8]) -> IResult<&'a [u8], Self::Read>
        ensures { GivesOrMemory view layout i.now result };
}

/// 2-byte numbers, big-endian.
pub struct Number2;

impl<'a> InPlace<'a> for Number2 {
    type Read = u16;

    ghost Value = { ℕ };

    ghost view = { λ n. n };

    ghost layout = { number 2 };

    fn read(i: &'a [u8]) -> IResult<&'a [u8], u16> {
        number2(i)
    }
}

impl Room for Number2 {
    fn room(i: &[u8]) -> usize
        ensures { result ≤ length i.now }
    {
        i.len() / 2
    }
}

/// Blocks of bytes, each after a length of 1 byte.
pub struct Counted1;

impl<'a> InPlace<'a> for Counted1 {
    type Read = &'a [u8];

    ghost Value = { Bytes };

    ghost view = { λ bytes. bytes.now };

    ghost layout = { counted 1 };

    fn read(i: &'a [u8]) -> IResult<&'a [u8], &'a [u8]> {
        counted1(i)
    }
}

impl Room for Counted1 {
    fn room(i: &[u8]) -> usize
        ensures { result ≤ length i.now }
    {
        hops1(i)
    }
}

/// Blocks of bytes, each after a length of 2 bytes, big-endian.
pub struct Counted2;

impl<'a> InPlace<'a> for Counted2 {
    type Read = &'a [u8];

    ghost Value = { Bytes };

    ghost view = { λ bytes. bytes.now };

    ghost layout = { counted 2 };

    fn read(i: &'a [u8]) -> IResult<&'a [u8], &'a [u8]> {
        counted2(i)
    }
}

impl Room for Counted2 {
    fn room(i: &[u8]) -> usize
        ensures { result ≤ length i.now }
    {
        hops2(i, 0)
    }
}

impl<'a, T: InPlace<'a> + Room> Item<'a> for T {
    type Read = <T as InPlace<'a>>::Read;

    ghost Value = { T.InPlace.Value };

    ghost view = { T.InPlace.view };

    ghost layout = { T.InPlace.layout };

    fn read(_alloc: Global, i: &'a [u8]) -> IResult<&'a [u8], <T as InPlace<'a>>::Read> {
        <T as InPlace<'a>>::read(i)
    }
}
