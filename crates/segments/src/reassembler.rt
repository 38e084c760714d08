//! The reassembler of one direction of a stream.
ghost use Rattle.std.specs.Prelude.{◌≡◌, ◌≤◌, ◌<◌, ◌+◌, ◌^◌, ◌↔◌, [], length, Err, IfErr, IfOk, OnOk, OnErr};
ghost use Rattle.segments.specs.Cells.{ahead, differing_in, differing_located, gap, known_behind, located, placed, run, wanted, with_located, with_part, with_segment, without_front, IsBeyond, IsTooMuch};
ghost use Rattle.segments.specs.declared.reassembler.SegmentError.TheVariants as segment_error;

use crate::places::{append_joined, count_differing, count_empty, drop_first};
use crate::window::Window;
use std::alloc::{AllocError, Global};
use std::error::Error;
use std::fmt;
use std::marker::Model;

/// Why a segment is refused. A refusal changes nothing.
#[derive(Debug, PartialEq, Drop)]
pub enum SegmentError {
    /// The segment ends too far after the first missing byte.
    TooMuch,
    /// The bytes can't be allocated.
    OutOfMemory,
}

impl From<AllocError> for SegmentError {
    ghost from_gives = { λ _ e. e ≡ segment_error.OutOfMemory };

    fn from(_e: AllocError) -> SegmentError {
        SegmentError::OutOfMemory
    }
}

impl fmt::Display for SegmentError {
    fn fmt<W: fmt::Write>(&self, f: &mut fmt::Formatter<W>) -> fmt::Result {
        match self {
            SegmentError::TooMuch => write!(f, "too far ahead of what is missing"),
            SegmentError::OutOfMemory => write!(f, "out of memory"),
        }
    }
}

impl Error for SegmentError {}

/// The bytes of a stream that were received and not yet delivered.
///
/// Its value in a contract: at each position after the delivered bytes, the byte received there, if
/// any.
#[derive(Drop)]
pub struct TcpReassembler {
    first: u32,
    limit: u32,
    // How many bytes were delivered or skipped.
    taken: u64,
    // The in-order bytes, after `start` bytes that were delivered.
    front: Vec<u8>,
    start: usize,
    // The bytes received from the first missing byte on.
    window: Window,
}

impl Model for TcpReassembler {
    ghost use Rattle.segments.specs.Cells.{Held};
    ghost use Rattle.segments.specs.Places.{IsSound, held_of};

    ghost Value = { Held };

    ghost view = { λ s. held_of s.first s.limit s.start s.taken s.front.items s.window };

    ghost invariant = { λ s. IsSound s.start s.taken s.limit s.front.items s.window };
}

/// Returns how far a sequence number is ahead of that of a position, modulo 2^32.
fn distance(first: u32, place: u64, seq: u32) -> u32
    ensures { result ≡ ahead first place seq }
{
    let next = first.wrapping_add((place % 0x1_0000_0000) as u32);
    seq.wrapping_sub(next)
}

/// Returns how far ahead of the next expected position the bytes begin, and those of them that
/// aren't before it.
fn locate(distance: u32, bytes: &[u8]) -> (u32, &[u8])
    ensures place { result.0 ≡ (located distance bytes.now).0 }
    ensures bytes { result.1.now ≡ (located distance bytes.now).1 }
    ensures small { result.0 < 2 ^ 31 }
{
    if distance < 0x8000_0000 {
        (distance, bytes)
    } else {
        let behind = (0xffff_ffff - distance) as usize + 1;
        (0, &bytes[behind.min(bytes.len())..])
    }
}

/// Returns how far ahead of the next expected position bytes at a position begin, and those of them
/// that aren't before it.
fn place_at(wanted: u64, place: u32, bytes: &[u8]) -> (u32, &[u8])
    ensures place { result.0 ≡ (placed wanted place bytes.now).0 }
    ensures bytes { result.1.now ≡ (placed wanted place bytes.now).1 }
{
    let place = u64::from(place);
    if place < wanted {
        let behind = (wanted - place).min(bytes.len() as u64) as usize;
        (0, &bytes[behind..])
    } else {
        ((place - wanted) as u32, bytes)
    }
}

impl TcpReassembler {
    /// Returns an empty reassembler, without allocating. `first_place` is the sequence number of
    /// the stream's first byte: one more than the SYN's. An out-of-order segment may end at most
    /// `limit` bytes after the first missing byte.
    pub fn new(alloc: Global, first_place: u32, limit: u32) -> Self
        ensures { result ≡ record { first = first_place; limit = limit; taken = 0; cells = [] } }
    {
        TcpReassembler {
            first: first_place,
            limit,
            taken: 0,
            front: Vec::new(alloc),
            start: 0,
            window: Window::new(alloc),
        }
    }

    /// Returns the next bytes, up to the first missing one.
    pub fn available(&self) -> &[u8]
        ensures { result.now ≡ run self.now.cells }
    {
        &self.front[self.start..]
    }

    /// Consumes the first `n` available bytes. The caller ensures that there are as many.
    pub fn take(&mut self, n: usize)
        requires { n ≤ length (run self.old.cells) }
        ensures { self.new ≡ without_front n self.old }
    {
        self.start += n;
        self.taken += n as u64;
    }

    /// Moves the in-order bytes to the start of the buffer, if they are at most as long as the
    /// delivered part. So a byte is moved no more often than another is delivered.
    fn make_room(&mut self)
        ensures { self.new ≡ self.old }
    {
        let held = self.front.len() - self.start;
        if held <= self.start {
            self.front.copy_within(self.start.., 0);
            self.front.truncate(held);
            self.start = 0;
        }
    }

    /// Returns the position of the first missing byte.
    fn wanted(&self) -> u64
        ensures is { result ≡ wanted self.now }
        ensures small { result ≤ 2 ^ 62 }
    {
        self.taken + (self.front.len() - self.start) as u64
    }

    /// Adds bytes at the next expected position.
    fn append(&mut self, bytes: &[u8]) -> Result<(), AllocError>
        requires { wanted self.old + length bytes.now ≤ 2 ^ 62 }
        ensures ok { OnOk result (self.new ≡ with_located (0, bytes.now) self.old) }
        ensures err { OnErr result (self.new ≡ self.old) }
    {
        self.make_room();
        let held = self.front.len();
        match append_joined(&mut self.front, bytes, &self.window) {
            Ok(()) => {
                let added = self.front.len() - held;
                let count = added.min(self.window.len());
                self.window.drop_front(count);
                Ok(())
            }
            Err(e) => {
                self.front.truncate(held);
                Err(e)
            }
        }
    }

    /// Buffers out-of-order bytes, which begin `ahead` bytes after the first missing one.
    fn hold(&mut self, ahead: u32, bytes: &[u8]) -> Result<(), AllocError>
        requires some { 0 < length bytes.now }
        requires ahead { 0 < ahead }
        requires near { ahead + length bytes.now ≤ self.old.limit }
        requires small { wanted self.old + ahead + length bytes.now ≤ 2 ^ 62 }
        ensures ok { OnOk result (self.new ≡ with_located (ahead, bytes.now) self.old) }
        ensures err { OnErr result (self.new ≡ self.old) }
    {
        self.window.fill(ahead as usize, bytes)?;
        Ok(())
    }

    /// Moves the bytes after a gap of `missed` positions to the in-order buffer, which is empty.
    fn pass(&mut self, missed: usize) -> Result<(), AllocError>
        requires empty { run self.old.cells ≡ [] }
        requires within { missed ≤ length self.old.cells }
        ensures ok { OnOk result (self.new ≡ without_front missed self.old) }
        ensures err { OnErr result (self.new ≡ self.old) }
    {
        let held = self.front.len();
        let from = missed.min(self.window.len());
        match self.window.append_run(from, &mut self.front) {
            Ok(()) => {
                let added = self.front.len() - held;
                self.window.drop_front(missed + added);
                self.taken += missed as u64;
                Ok(())
            }
            Err(e) => {
                self.front.truncate(held);
                Err(e)
            }
        }
    }

    /// Takes a segment whose first byte has the sequence number `seq`. A byte that was received
    /// before isn't replaced. Bytes before the first missing one were received before, and are
    /// dropped.
    ///
    /// - `TooMuch` exactly if the segment isn't empty, and either begins after the first missing
    ///   byte and ends more than the limit after it, or makes the stream longer than 2^62 bytes.
    ///   Changes nothing.
    /// - `OutOfMemory` if its bytes can't be allocated. Changes nothing.
    pub fn segment(&mut self, seq: u32, bytes: &[u8]) -> Result<(), SegmentError>
        ensures ok { OnOk result (self.new ≡ with_segment seq bytes.now self.old) }
        ensures err { OnErr result (self.new ≡ self.old) }
        ensures too_much { (result ≡ Err segment_error.TooMuch) ↔ IsTooMuch seq bytes.now self.old }
    {
        let at = self.wanted();
        let (ahead, rest) = locate(distance(self.first, at, seq), bytes);
        self.add(ahead, rest)
    }

    /// Takes bytes at a position of the stream, whose first byte is at 0: as
    /// [`TcpReassembler::segment`], with a position in place of the sequence number.
    ///
    /// - `TooMuch` exactly if there are any bytes, and they either begin after the first missing
    ///   byte and end more than the limit after it, or make the stream longer than 2^62 bytes.
    ///   Changes nothing.
    /// - `OutOfMemory` if they can't be allocated. Changes nothing.
    pub fn put(&mut self, place: u32, bytes: &[u8]) -> Result<(), SegmentError>
        ensures ok { OnOk result (self.new ≡ with_part place bytes.now self.old) }
        ensures err { OnErr result (self.new ≡ self.old) }
        ensures too_much { (result ≡ Err segment_error.TooMuch)
            ↔ IsBeyond (placed (wanted self.old) place bytes.now) self.old }
    {
        let (ahead, rest) = place_at(self.wanted(), place, bytes);
        self.add(ahead, rest)
    }

    /// Takes bytes that begin `ahead` bytes after the first missing one.
    fn add(&mut self, ahead: u32, bytes: &[u8]) -> Result<(), SegmentError>
        ensures ok { OnOk result (self.new ≡ with_located (ahead, bytes.now) self.old) }
        ensures err { OnErr result (self.new ≡ self.old) }
        ensures too_much { (result ≡ Err segment_error.TooMuch)
            ↔ IsBeyond (ahead, bytes.now) self.old }
    {
        if bytes.is_empty() {
            return Ok(());
        }
        if ahead > 0 && u64::from(ahead) + bytes.len() as u64 > u64::from(self.limit) {
            return Err(SegmentError::TooMuch);
        }
        if self.wanted() + u64::from(ahead) + bytes.len() as u64 > 0x4000_0000_0000_0000 {
            return Err(SegmentError::TooMuch);
        }
        if ahead == 0 {
            self.append(bytes)?;
        } else {
            self.hold(ahead, bytes)?;
        }
        Ok(())
    }

    /// Returns at how many positions a buffered byte differs from that of a segment whose first
    /// byte has the sequence number `seq`. Bytes that were delivered, or are available, aren't
    /// compared.
    pub fn differing(&self, seq: u32, bytes: &[u8]) -> usize
        ensures is { result ≡ differing_in seq bytes.now self.now }
        ensures within { result ≤ length bytes.now }
    {
        let (ahead, rest) = locate(distance(self.first, self.wanted(), seq), bytes);
        self.differing_at(ahead, rest)
    }

    /// Returns at how many positions a buffered byte differs from the given ones, which begin
    /// `ahead` bytes after the first missing one.
    fn differing_at(&self, ahead: u32, bytes: &[u8]) -> usize
        ensures is { result ≡ differing_located (ahead, bytes.now) self.now }
        ensures within { result ≤ length bytes.now }
    {
        count_differing(&self.window, ahead as usize, bytes)
    }

    /// Returns how many out-of-order bytes are buffered after the first missing one, at most the
    /// limit; 0 if nothing shows that one is missing. Takes constant time.
    pub fn held_behind(&self) -> usize
        ensures is { result ≡ known_behind self.now.cells }
        ensures within { result ≤ self.now.limit }
    {
        self.window.held()
    }

    /// Returns an upper bound of the memory in bytes that it has allocated: the capacity for
    /// in-order bytes, and the pages of out-of-order ones. It is at least the number of buffered
    /// bytes.
    pub fn capacity(&self) -> usize
        ensures { length (run self.now.cells) + known_behind self.now.cells ≤ result }
    {
        let front = self.front.capacity().max(self.available().len());
        let behind = self.window.capacity().max(self.window.held());
        front.saturating_add(behind)
    }

    /// Returns how many bytes are missing before the next buffered one; 0 if bytes are available,
    /// or no out-of-order bytes are buffered. Takes time proportional to the result.
    pub fn missing(&self) -> usize
        ensures { result ≡ gap self.now.cells }
    {
        if self.front.len() > self.start {
            return 0;
        }
        if self.window.held() == 0 {
            return 0;
        }
        count_empty(&self.window)
    }

    /// Skips the missing bytes, and returns how many there are. The buffered bytes after them are
    /// available then.
    ///
    /// If bytes are available, or no out-of-order bytes are buffered, skips none, and changes
    /// nothing.
    ///
    /// - `OutOfMemory` if the bytes that become available can't be allocated. Changes nothing.
    pub fn skip(&mut self) -> Result<usize, SegmentError>
        ensures missed { IfOk result (λ n. n ≡ gap self.old.cells) }
        ensures ok { OnOk result (self.new ≡ without_front (gap self.old.cells) self.old) }
        ensures err { OnErr result (self.new ≡ self.old) }
        ensures memory { IfErr result (λ e. e ≡ segment_error.OutOfMemory) }
    {
        let missed = self.missing();
        if missed == 0 {
            return Ok(0);
        }
        self.pass(missed)?;
        Ok(missed)
    }

    /// Returns the next bytes, up to the first missing one, and frees the out-of-order ones.
    /// Allocates nothing.
    pub fn into_available(self) -> Vec<u8>
        ensures { result.items ≡ run self.cells }
    {
        let mut front = self.front;
        drop_first(&mut front, self.start);
        front
    }
}
