//! The bytes of a datagram that arrived, in runs without a gap.
ghost use Rattle.std.specs.Prelude.{◌≡◌, ◌≤◌, ◌<◌, ◌+◌, ◌-◌, ◌++◌, length, drop, true, IfOk, OnOk, OnErr};
ghost use Rattle.ip_fragments.specs.Runs.{cost_of, count_behind as count_behind_of, end_of_run, follows as follows_of, index_of, joined, landing_at, placed, placing_of, run_at, runs_with, unlike, IsGap, IsPlace};

use std::alloc::{AllocError, Global};
use std::marker::Model;

/// What a run counts besides twice its bytes, in bytes: its row in a vector, which may have as much
/// room again, and the overhead of an allocation.
pub const RUN_COST: usize = 128;

/// Bytes without a gap.
#[derive(Drop)]
pub struct Run {
    start: u16,
    bytes: Vec<u8>,
}

impl Model for Run {
    ghost use Rattle.ip_fragments.specs.Runs.{Run};

    ghost Value = { Run };

    ghost view = { λ r. record { start = r.start; bytes = r.bytes.items } };
}

/// Where bytes fit among the runs of a datagram, that with the highest offset first.
#[derive(Clone, Copy)]
pub enum Gap {
    /// Directly behind the first run, and so behind all.
    End,
    /// In a gap, or behind all others: as a run with this index.
    At(usize),
}

impl Gap {
    /// Returns how many runs are behind bytes there; those of the first run are in front.
    fn index(self) -> usize
        ensures { result ≡ index_of self }
    {
        match self {
            Gap::End => 0,
            Gap::At(place) => place,
        }
    }

    /// Returns what bytes there count besides twice their number.
    pub(crate) fn cost(self) -> usize
        ensures { result ≡ cost_of self }
    {
        match self {
            Gap::End => 0,
            Gap::At(_) => RUN_COST,
        }
    }
}

/// What the bytes of a fragment are to the runs of its datagram.
#[derive(Clone, Copy)]
pub enum Place {
    /// None of them arrived before.
    Fits(Gap),
    /// All of them are in a run, where so many differ.
    Repeats(usize),
    /// They overlap a run.
    Overlaps,
}

/// Returns at how many positions two slices differ, up to the shorter one's end.
fn count_unlike(bytes: &[u8], others: &[u8]) -> usize
    ensures is { result ≡ unlike bytes.now others.now }
    ensures within { result ≤ length others.now }
{
    let common = bytes.len().min(others.len());
    let mut count = 0;
    for i in 0..common {
        if bytes[i] != others[i] {
            count += 1;
        }
    }
    count
}

impl Run {
    /// Returns a run with these bytes.
    fn new(alloc: Global, start: u16, bytes: &[u8]) -> Result<Run, AllocError>
        ensures { IfOk result (λ run. run ≡ run_at start bytes.now) }
    {
        let mut held = Vec::with_capacity(alloc, bytes.len())?;
        held.extend_from_slice(bytes)?;
        Ok(Run { start, bytes: held })
    }

    /// Returns the offset of the first byte.
    fn start(&self) -> u16
        ensures { result ≡ self.now.start }
    {
        self.start
    }

    /// Returns the bytes.
    fn as_slice(&self) -> &[u8]
        ensures { result.now ≡ self.now.bytes }
    {
        &self.bytes
    }

    /// Returns the offset behind the last byte.
    fn end(&self) -> usize
        ensures { result ≡ end_of_run self.now }
    {
        self.start as usize + self.bytes.len()
    }

    /// Appends bytes.
    fn extend(&mut self, bytes: &[u8]) -> Result<(), AllocError>
        ensures extended { OnOk result
            (self.new ≡ run_at self.old.start (self.old.bytes ++ bytes.now)) }
        ensures err { OnErr result (self.new ≡ self.old) }
    {
        self.bytes.extend_from_slice(bytes)?;
        Ok(())
    }

    /// Returns how many of the bytes from this offset on differ from the given ones.
    fn count_unlike(&self, offset: u16, bytes: &[u8]) -> usize
        requires from { self.now.start ≤ offset }
        requires within { offset + length bytes.now ≤ end_of_run self.now }
        ensures { result ≡ unlike (drop (offset - self.now.start) self.now.bytes) bytes.now }
    {
        let from = (offset - self.start) as usize;
        count_unlike(&self.bytes[from..], bytes)
    }
}

/// Returns whether bytes at this offset come directly behind all others.
fn follows(runs: &[Run], offset: u16) -> bool
    ensures is { result ≡ follows_of offset runs.now }
    ensures some { result ≡ true → 0 < length runs.now }
{
    match runs.first() {
        Some(run) => run.end() == offset as usize,
        None => false,
    }
}

/// Returns how many runs begin at this offset or behind it.
fn count_behind(runs: &[Run], end: usize) -> usize
    ensures is { result ≡ count_behind_of end runs.now }
    ensures within { result ≤ length runs.now }
{
    for place in 0..runs.len() {
        if end > runs[place].start() as usize {
            return place;
        }
    }
    runs.len()
}

/// Returns the place of bytes in front of the first `k` runs, and not in front of the next.
fn place_at(runs: &[Run], k: usize, offset: u16, bytes: &[u8]) -> Place
    requires { k ≤ length runs.now }
    ensures is { placing_of result offset bytes.now runs.now
        ≡ landing_at k offset bytes.now runs.now }
    ensures within { IsPlace result runs.now }
{
    if k == runs.len() {
        return Place::Fits(Gap::At(k));
    }
    let run = &runs[k];
    if run.end() <= offset as usize {
        return Place::Fits(Gap::At(k));
    }
    if run.start() <= offset && offset as usize + bytes.len() <= run.end() {
        return Place::Repeats(run.count_unlike(offset, bytes));
    }
    Place::Overlaps
}

/// Returns the place of a fragment's bytes among the runs of its datagram. Bytes in order take
/// constant time, others look at the runs behind them.
pub(crate) fn place_of(runs: &[Run], offset: u16, bytes: &[u8]) -> Place
    ensures is { placing_of result offset bytes.now runs.now ≡ placed offset bytes.now runs.now }
    ensures within { IsPlace result runs.now }
{
    if follows(runs, offset) {
        return Place::Fits(Gap::End);
    }
    let behind = count_behind(runs, offset as usize + bytes.len());
    place_at(runs, behind, offset, bytes)
}

/// Adds bytes where they fit.
pub(crate) fn put(
    runs: &mut Vec<Run>,
    alloc: Global,
    gap: Gap,
    offset: u16,
    bytes: &[u8],
) -> Result<(), AllocError>
    requires { IsGap gap runs.old.items }
    ensures ok { OnOk result
        (runs.new.items ≡ runs_with gap offset bytes.now runs.old.items) }
    ensures err { OnErr result (runs.new.items ≡ runs.old.items) }
{
    match gap {
        Gap::End => runs[0].extend(bytes),
        Gap::At(place) => {
            let run = Run::new(alloc, offset, bytes)?;
            runs.insert(place, run)?;
            Ok(())
        }
    }
}

/// Appends the bytes of all runs, from the last one to the first.
fn append_joined(out: &mut Vec<u8>, runs: &[Run]) -> Result<(), AllocError>
    ensures { OnOk result (out.new.items ≡ out.old.items ++ joined runs.now) }
{
    let mut left = runs.len();
    while left > 0 {
        left -= 1;
        out.extend_from_slice(runs[left].as_slice())?;
    }
    Ok(())
}

/// Returns the bytes of all runs, and of those that fit at this place, in order: `len` bytes.
#[tactic(auto, using(crate::proofs::RunLemmas::index_low, crate::proofs::RunLemmas::joined_with))]
pub(crate) fn join(
    alloc: Global,
    runs: &[Run],
    gap: Gap,
    offset: u16,
    bytes: &[u8],
    len: usize,
) -> Result<Vec<u8>, AllocError>
    requires { IsGap gap runs.now }
    ensures { IfOk result (λ out. out.items ≡ joined (runs_with gap offset bytes.now runs.now)) }
{
    let (high, low) = runs.split_at(gap.index());
    let mut out = Vec::with_capacity(alloc, len)?;
    append_joined(&mut out, low)?;
    out.extend_from_slice(bytes)?;
    append_joined(&mut out, high)?;
    Ok(out)
}
