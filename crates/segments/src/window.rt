//! The buffer of out-of-order bytes.
ghost use Rattle.std.specs.Prelude.{◌≡◌, ◌≤◌, ◌<◌, ◌+◌, ◌^◌, ◌++◌, [], length, drop, OnOk, OnErr};
ghost use Rattle.segments.specs.Cells.{Bytes, cell, differing, fill_at, known, run};
ghost use Rattle.segments.specs.Places.{over};

use crate::pages::{
    Pages, append_front, append_over, byte_at, count_known, count_unlike, make_pages, remove_pages,
    write_bytes,
};
use std::alloc::{AllocError, Global};
use std::collections::BTreeMap;
use std::marker::Model;

/// The maximum cost of a page, in bytes: its own 2,056, the allocator's overhead, and its share of
/// a tree whose nodes are half full.
const PAGE_COST: usize = 2_128;

/// The additional cost of a tree of one page, in bytes.
const TREE_COST: usize = 256;

/// The positions from the first one on, up to the last byte received.
///
/// Memory is allocated for the pages in which a byte was received, however far ahead they are.
#[derive(Drop)]
pub(crate) struct Window {
    alloc: Global,
    pages: Pages,
    // The position in `pages` of the first one, the number of positions, and how many bytes are
    // present.
    begin: u64,
    len: usize,
    held: usize,
}

impl Model for Window {
    ghost use Rattle.segments.specs.Cells.{Cells};
    ghost use Rattle.segments.specs.Pages.{IsPaged, places};

    ghost Value = { Cells };

    ghost view = { λ w. places w.len w.begin w.pages };

    ghost invariant = { λ w. IsPaged w.begin w.len w.held w.pages };
}

impl Window {
    /// Returns a window without positions. Allocates nothing.
    pub(crate) fn new(alloc: Global) -> Self
        ensures { result ≡ [] }
    {
        Window {
            alloc,
            pages: BTreeMap::new(alloc),
            begin: 0,
            len: 0,
            held: 0,
        }
    }

    /// Returns the number of positions.
    pub(crate) fn len(&self) -> usize
        ensures { result ≡ length self.now }
    {
        self.len
    }

    /// Returns the byte at a position, if one is present.
    pub(crate) fn place(&self, at: usize) -> Option<u8>
        requires { at < length self.now }
        ensures { result ≡ cell self.now at }
    {
        byte_at(&self.pages, self.begin + at as u64)
    }

    /// Returns how many bytes are present.
    pub(crate) fn held(&self) -> usize
        ensures is { result ≡ known self.now }
        ensures within { result ≤ length self.now }
    {
        self.held
    }

    /// Returns an upper bound of the memory of the pages, in bytes.
    pub(crate) fn capacity(&self) -> usize {
        if self.pages.is_empty() {
            return 0;
        }
        let pages = self.pages.len().saturating_mul(PAGE_COST);
        pages.saturating_add(TREE_COST)
    }

    /// Returns at how many positions from `at` on a byte is present that differs from the given
    /// one.
    pub(crate) fn differing(&self, at: usize, bytes: &[u8]) -> usize
        requires { at + length bytes.now ≤ length self.now }
        ensures is { result ≡ differing at bytes.now self.now }
        ensures within { result ≤ length bytes.now }
    {
        count_unlike(&self.pages, self.begin + at as u64, bytes)
    }

    /// Appends the bytes to `out`, but a byte that is present in place of the given one.
    pub(crate) fn append_over(&self, bytes: &[u8], out: &mut Vec<u8>) -> Result<(), AllocError>
        requires { length bytes.now ≤ length self.now }
        ensures out { OnOk result (out.new.items ≡ out.old.items ++ over self.now bytes.now) }
        ensures err { OnErr result ((s : Bytes) × (out.new.items ≡ out.old.items ++ s)) }
    {
        append_over(&self.pages, self.begin, bytes, out)
    }

    /// Appends the bytes from a position up to the first empty one to `out`.
    pub(crate) fn append_run(&self, from: usize, out: &mut Vec<u8>) -> Result<(), AllocError>
        requires { from ≤ length self.now }
        ensures out { OnOk result (out.new.items ≡ out.old.items ++ run (drop from self.now)) }
        ensures err { OnErr result ((s : Bytes) × (out.new.items ≡ out.old.items ++ s)) }
    {
        append_front(&self.pages, self.begin + from as u64, self.len - from, out)
    }

    /// Removes the first `n` positions, and frees their pages.
    pub(crate) fn drop_front(&mut self, n: usize)
        requires { n ≤ length self.old }
        ensures { self.new ≡ drop n self.old }
    {
        if n == self.len {
            *self = Window::new(self.alloc);
            return;
        }
        let begin = self.begin + n as u64;
        self.held -= count_known(&self.pages, self.begin, n);
        remove_pages(&mut self.pages, self.begin, begin);
        self.begin = begin;
        self.len -= n;
    }

    /// Writes the bytes to the empty positions from `at` on.
    pub(crate) fn fill(&mut self, at: usize, bytes: &[u8]) -> Result<(), AllocError>
        requires some { 0 < length bytes.now }
        requires small { at + length bytes.now ≤ 2 ^ 62 }
        ensures ok { OnOk result (self.new ≡ fill_at at self.old bytes.now) }
        ensures err { OnErr result (self.new ≡ self.old) }
    {
        let end = at + bytes.len();
        // Never fails: a stream has at most 2^62 bytes.
        let Some(end_place) = self.begin.checked_add(end as u64) else {
            return Err(AllocError);
        };
        let first = self.begin + at as u64;
        make_pages(self.alloc, &mut self.pages, first, end_place - 1)?;
        self.held += write_bytes(&mut self.pages, first, bytes);
        self.len = self.len.max(end);
        Ok(())
    }
}
