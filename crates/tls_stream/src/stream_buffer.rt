//! The buffer of one direction.
ghost use Rattle.std.specs.Prelude.{◌≡◌, ◌≤◌, ◌+◌, ◌-◌, ◌++◌, [], length, take, drop, is_ok, if◌then◌else◌};
ghost use Rattle.tls_stream.specs.Held.{Held as Bytes, joined};

use std::alloc::{AllocError, Global};
use std::marker::Model;

/// The bytes of a stream that were fed and not yet taken: the part of a message that was joined
/// from fragments, and the stream after the records that were read.
///
/// Both lie in one buffer, so joining doesn't allocate: it moves either the part to the fragment or
/// the fragment to the part, whichever is shorter.
#[derive(Drop)]
pub struct StreamBuffer {
    bytes: Vec<u8>,
    part: usize,
    part_end: usize,
    unread: usize,
}

impl Model for StreamBuffer {
    ghost Value = { Bytes };

    ghost view = { λ h.
        record {
          part = take (h.part_end - h.part) (drop h.part h.bytes.items);
          unread =
              drop h.unread h.bytes.items;
        } };

    ghost invariant = { λ h. (h.part ≤ h.part_end) × (h.part_end ≤ h.unread)
        × (h.unread ≤ length h.bytes.items) };
}

impl StreamBuffer {
    /// An empty buffer. It doesn't allocate.
    pub fn new(alloc: Global) -> Self
        ensures { result ≡ record { part = []; unread = [] } }
    {
        StreamBuffer {
            bytes: Vec::new(alloc),
            part: 0,
            part_end: 0,
            unread: 0,
        }
    }

    /// The joined bytes that weren't taken yet.
    pub fn part(&self) -> &[u8]
        ensures { result.now ≡ self.now.part }
    {
        &self.bytes[self.part..self.part_end]
    }

    /// The stream after the records that were read.
    pub fn unread(&self) -> &[u8]
        ensures { result.now ≡ self.now.unread }
    {
        &self.bytes[self.unread..]
    }

    /// Removes the first `n` bytes of the part.
    pub fn take_part(&mut self, n: usize)
        requires { n ≤ length self.old.part }
        ensures { self.new ≡ record { part = drop n self.old.part; unread = self.old.unread } }
    {
        self.part += n;
    }

    /// Removes the first `n` bytes of the stream.
    pub fn take_unread(&mut self, n: usize)
        requires { n ≤ length self.old.unread }
        ensures { self.new ≡ record { part = self.old.part; unread = drop n self.old.unread } }
    {
        self.unread += n;
    }

    /// Appends a record's fragment of `n` bytes to the part, and removes the record from the
    /// stream.
    // Not inlined: this runs once a record, and inlined it would take registers from code in the
    // callers that runs once a message.
    #[inline(never)]
    pub fn join(&mut self, n: usize)
        requires { 5 + n ≤ length self.old.unread }
        ensures { self.new ≡ joined self.old n }
    {
        let from = self.unread + 5;
        if self.part == self.part_end {
            self.part = from;
            self.part_end = from + n;
            self.unread = from + n;
            return;
        }
        let open = self.part_end - self.part;
        if open < n {
            self.bytes
                .copy_within(self.part..self.part_end, from - open);
            self.part = from - open;
            self.part_end = from + n;
            self.unread = from + n;
            return;
        }
        self.bytes.copy_within(from..from + n, self.part_end);
        self.part_end += n;
        self.unread = from + n;
    }

    /// Moves the buffered bytes to the beginning of the buffer, if they are at most as many as the
    /// bytes taken before them. So each byte is moved at most as often as another is taken.
    fn make_room(&mut self)
        ensures { self.new ≡ self.old }
    {
        let part = self.part_end - self.part;
        let held = part + (self.bytes.len() - self.unread);
        if held <= self.bytes.len() - held {
            self.bytes.copy_within(self.part..self.part_end, 0);
            self.bytes.copy_within(self.unread.., part);
            self.bytes.truncate(held);
            self.part = 0;
            self.part_end = part;
            self.unread = part;
        }
    }

    /// Appends the piece. `AllocError` if there is no memory for it: then nothing changes.
    pub fn append(&mut self, piece: &[u8]) -> Result<(), AllocError>
        ensures { self.new
            ≡ (if is_ok result then
            record { part = self.old.part; unread = self.old.unread ++ piece.now } else
            self.old) }
    {
        self.make_room();
        self.bytes.extend_from_slice(piece)
    }
}
