//! A page of positions, with the bytes that are present there.
ghost use Rattle.std.specs.Prelude.{◌≡◌, ◌<◌, ◌≤◌, ◌+◌, ◌++◌, None, length, replicate, take, drop, OnOk, OnErr};
ghost use Rattle.segments.specs.Cells.{Bytes, cell, differing, known, put, run};
ghost use Rattle.segments.specs.Pages.{page_length};
ghost use Rattle.segments.specs.Places.{over};

use crate::marks::{append_standing, count_marks, count_unlike, fill_empty, front_before_gap};
use std::alloc::AllocError;
use std::marker::Model;

/// The number of positions of a page.
pub(crate) const PAGE: usize = 1024;

/// Positions with a byte each, which is present if the mark is set.
#[derive(Drop)]
pub(crate) struct Page {
    marks: [bool; PAGE],
    bytes: [u8; PAGE],
    // How many marks are set. The marks of an empty or full page needn't be read.
    held: usize,
}

impl Model for Page {
    ghost use Rattle.segments.specs.Cells.{Cells};
    ghost use Rattle.segments.specs.Pages.{IsMarked, marked};

    ghost Value = { Cells };

    ghost view = { λ p. marked p.marks p.bytes };

    ghost invariant = { λ p. IsMarked p.marks p.bytes p.held };
}

impl Page {
    /// Returns a page without bytes.
    pub(crate) fn new() -> Self
        ensures { result ≡ replicate page_length None }
    {
        Page {
            marks: [false; PAGE],
            bytes: [0; PAGE],
            held: 0,
        }
    }

    /// Returns the byte at a position, if one is present.
    pub(crate) fn place(&self, at: usize) -> Option<u8>
        requires { at < page_length }
        ensures { result ≡ cell self.now at }
    {
        if self.marks[at] {
            Some(self.bytes[at])
        } else {
            None
        }
    }

    /// Returns how many bytes are present at `n` positions from `from` on.
    pub(crate) fn known(&self, from: usize, n: usize) -> usize
        requires { from + n ≤ page_length }
        ensures is { result ≡ known (take n (drop from self.now)) }
        ensures within { result ≤ n }
    {
        if self.held == 0 {
            return 0;
        }
        if self.held == PAGE {
            return n;
        }
        count_marks(&self.marks[from..from + n])
    }

    /// Returns the bytes at `n` positions from `from` on, up to the first empty one.
    pub(crate) fn front(&self, from: usize, n: usize) -> &[u8]
        requires { from + n ≤ page_length }
        ensures { result.now ≡ run (take n (drop from self.now)) }
    {
        let bytes = &self.bytes[from..from + n];
        if self.known(from, n) == n {
            return bytes;
        }
        front_before_gap(&self.marks[from..from + n], bytes)
    }

    /// Returns at how many positions from `at` on a byte is present that differs from the new one.
    pub(crate) fn unlike(&self, at: usize, new: &[u8]) -> usize
        requires { at + length new.now ≤ page_length }
        ensures is { result ≡ differing 0 new.now (take (length new.now) (drop at self.now)) }
        ensures within { result ≤ length new.now }
    {
        let end = at + new.len();
        count_unlike(&self.marks[at..end], &self.bytes[at..end], new)
    }

    /// Appends the new bytes, for the positions from `at` on, to `out`, but a byte that is present
    /// in place of the new one.
    pub(crate) fn append_over(
        &self,
        at: usize,
        new: &[u8],
        out: &mut Vec<u8>,
    ) -> Result<(), AllocError>
        requires { at + length new.now ≤ page_length }
        ensures out { OnOk result
            (out.new.items ≡ out.old.items ++ over
            (take (length new.now) (drop at self.now)) new.now) }
        ensures err { OnErr result ((s : Bytes) × (out.new.items ≡ out.old.items ++ s)) }
    {
        let end = at + new.len();
        let standing = self.known(at, new.len());
        append_standing(
            standing,
            out,
            &self.marks[at..end],
            &self.bytes[at..end],
            new,
        )
    }

    /// Writes the bytes to the empty positions from `at` on, and returns how many it wrote.
    pub(crate) fn write(&mut self, at: usize, new: &[u8]) -> usize
        requires { at + length new.now ≤ page_length }
        ensures put { self.new ≡ put at new.now self.old }
        ensures counted { known (take (length new.now) (drop at self.new)) ≡ known
            (take (length new.now) (drop at self.old)) + result }
        ensures within { result ≤ length new.now }
    {
        let end = at + new.len();
        let standing = self.known(at, new.len());
        let count = fill_empty(
            standing,
            &mut self.marks[at..end],
            &mut self.bytes[at..end],
            new,
        );
        self.held += count;
        count
    }
}
