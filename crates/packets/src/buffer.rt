//! The bytes of a source that weren't parsed yet.
ghost use Rattle.std.specs.Prelude.{◌≡◌, ◌≤◌, ◌-◌, List, [], ℕ, drop, take, length, IfOk, OnErr};
ghost use Rattle.std.specs.Io.KnownBytes.{Keeps};
ghost use Rattle.packets.specs.Held.{Came};

use std::io::{self, Read};
use std::marker::Model;

/// How many bytes are read at once: so few that what the kernel copies is still in the processor's
/// cache when it is parsed.
const PIECE: usize = 65_536;

/// Moves `bytes[start..end]` to the front. (Most often these bytes are the begun packet behind many
/// whole ones. `copy_within` would move it byte by byte.)
fn move_to_front(bytes: &mut [u8], start: usize, end: usize)
    requires ordered { start ≤ end }
    requires within { end ≤ length bytes.old }
    ensures moved { take (end - start) bytes.new ≡ drop start (take end bytes.old) }
    ensures len { length bytes.new ≡ length bytes.old }
{
    let count = end - start;
    if count > start {
        bytes.copy_within(start..end, 0);
        return;
    }
    let (front, behind) = bytes.split_at_mut(start);
    front[..count].copy_from_slice(&behind[..count]);
}

/// A buffer between a source and a parser, which takes bytes off the front.
///
/// Its value in a contract is the bytes in the buffer.
#[derive(Drop)]
pub struct Buffer {
    // The bytes in the buffer are `bytes[start..end]`; the others have no meaning.
    bytes: Vec<u8>,
    start: usize,
    end: usize,
}

impl Model for Buffer {
    ghost Value = { List ℕ };

    ghost view = { λ b. drop b.start (take b.end b.bytes.items) };

    ghost invariant = { λ b. (b.start ≤ b.end) × (b.end ≤ length b.bytes.items) };
}

impl Buffer {
    /// Returns an empty buffer. It allocates nothing.
    pub fn new(alloc: std::alloc::Global) -> Buffer
        ensures { result ≡ [] }
    {
        Buffer {
            bytes: Vec::new(alloc),
            start: 0,
            end: 0,
        }
    }

    /// Returns the bytes in the buffer.
    pub fn held(&self) -> &[u8]
        ensures { result.now ≡ self.now }
    {
        &self.bytes[self.start..self.end]
    }

    /// Takes bytes off the front until `n` are left. A buffer with fewer stays as it is.
    pub fn keep_last(&mut self, n: usize)
        ensures { self.new ≡ drop (length self.old - n) self.old }
    {
        let held = self.end - self.start;
        self.start += held - n.min(held);
    }

    /// Moves the bytes to the front of the memory.
    fn make_room(&mut self)
        ensures { self.new ≡ self.old }
    {
        if self.start > 0 {
            move_to_front(&mut self.bytes, self.start, self.end);
            self.end -= self.start;
            self.start = 0;
        }
    }

    /// Reads once from the source and appends the bytes. Returns their count, which is 0 at the end
    /// of the source.
    ///
    /// It fails if the read fails or memory runs out. The bytes in the buffer stay.
    pub fn fill<R: Read>(&mut self, reader: &mut R) -> io::Result<usize>
        ensures ok { IfOk result
            (λ n. Came self.old self.new (R.remaining reader.old) (R.remaining reader.new) n) }
        ensures held { OnErr result (self.new ≡ self.old) }
        ensures kept { OnErr result (Keeps (R.remaining reader.old) (R.remaining reader.new)) }
    {
        self.make_room();
        let Some(whole) = self.end.checked_add(PIECE) else {
            return Err(io::ErrorKind::OutOfMemory.into());
        };
        let len = self.bytes.len().max(whole);
        self.bytes.resize(len, 0)?;
        let n = reader.read(&mut self.bytes[self.end..])?;
        self.end += n;
        Ok(n)
    }
}
