//! One side's stream, in a buffer of the caller's.
ghost use Rattle.std.specs.Prelude.{◌≡◌, ◌↔◌, ◌≤◌, ◌+◌, length, true, false, Some, None, IfSome, IfNone};
ghost use Rattle.tls_stream.specs.Item.{Event as StreamEvent, view_event};
ghost use Rattle.tls_stream.specs.Stream.{IsReady, ReadsTheSame, behind, fed, first, joined_to, view_source};
ghost use Rattle.wispuddera_c.specs.Place.{StandsAt};
ghost use Rattle.wispuddera_c.specs.EventContent.{Shows};
ghost use Rattle.wispuddera_c.specs.Side.{IsNextEvent, IsWithin, StandInFront, Waits, bytes_of, count_held, side_reader_of, held_in, silent_side, stream_of};

use crate::content::{ReadEvent, event_at, event_of_fault};
use crate::place::Place;
use tls_flow::Direction;
use tls_stream::{Fault, Next, Source, StreamView};

/// The state of one side's buffer: the part of a message that is joined from fragments, and after
/// it the unread bytes. The offsets are those of the buffer.
#[repr(C)]
#[derive(Clone, Copy)]
pub struct Side {
    /// Where the part begins.
    pub part: usize,
    /// Where the part ends.
    pub part_end: usize,
    /// Where the unread bytes begin, after the records that were read.
    pub unread: usize,
    /// Where the unread bytes end.
    pub end: usize,
    /// The type of the records that the part is joined from.
    pub kind: u8,
    /// Whether the side has sent its ChangeCipherSpec.
    pub has_changed: bool,
    /// Whether a fault ended it.
    pub is_over: bool,
}

/// The state of a conversation that decides how its sides are read.
#[derive(Clone, Copy)]
pub struct ReadingState {
    /// The limit for the body of a handshake message, in bytes.
    pub limit: usize,
    /// Whether TLS 1.3 was chosen.
    pub is_tls13: bool,
}

impl Side {
    /// A side without bytes.
    pub fn new() -> Side
        ensures { result ≡ silent_side }
    {
        Side {
            part: 0,
            part_end: 0,
            unread: 0,
            end: 0,
            kind: 22,
            has_changed: false,
            is_over: false,
        }
    }

    /// Whether the offsets lie within a buffer of `room` bytes.
    pub fn lies_within(&self, room: usize) -> bool
        ensures { (result ≡ true) ↔ IsWithin room self.now }
    {
        self.part <= self.part_end
            && self.part_end <= self.unread
            && self.unread <= self.end
            && self.end <= room
    }

    /// Whether `n` more bytes fit in a buffer of `room` bytes.
    pub fn fits(&self, room: usize, n: usize) -> bool
        requires { IsWithin room self.now }
        ensures { (result ≡ true) ↔ count_held self.now + n ≤ room }
    {
        n <= room - (self.part_end - self.part) - (self.end - self.unread)
    }

    /// Moves the bytes in use to the beginning of the buffer.
    fn make_room(&mut self, buffer: &mut [u8])
        requires { IsWithin (length buffer.old) self.old }
        ensures same { (k : ReadingState)
            → stream_of k buffer.new self.new ≡ stream_of k buffer.old self.old }
        ensures front { self.new.end ≡ count_held self.old }
        ensures within { IsWithin (length buffer.new) self.new }
        ensures over { self.new.is_over ≡ self.old.is_over }
    {
        let open = self.part_end - self.part;
        let left = self.end - self.unread;
        buffer.copy_within(self.part..self.part_end, 0);
        buffer.copy_within(self.unread..self.end, open);
        self.part = 0;
        self.part_end = open;
        self.unread = open;
        self.end = open + left;
    }

    /// Moves the bytes in use to the beginning of the buffer if `n` bytes don't fit after them.
    fn make_room_for(&mut self, buffer: &mut [u8], n: usize)
        requires within { IsWithin (length buffer.old) self.old }
        requires fits { count_held self.old + n ≤ length buffer.old }
        ensures same { (k : ReadingState)
            → stream_of k buffer.new self.new ≡ stream_of k buffer.old self.old }
        ensures room { self.new.end + n ≤ length buffer.new }
        ensures within { IsWithin (length buffer.new) self.new }
        ensures over { self.new.is_over ≡ self.old.is_over }
    {
        if n > buffer.len() - self.end {
            self.make_room(buffer);
        }
    }

    /// Appends a piece.
    pub fn append(&mut self, buffer: &mut [u8], piece: &[u8])
        requires within { IsWithin (length buffer.old) self.old }
        requires room { count_held self.old + length piece.now ≤ length buffer.old }
        ensures fed { (k : ReadingState)
            → stream_of k buffer.new self.new ≡ fed (stream_of k buffer.old self.old) piece.now }
        ensures within { IsWithin (length buffer.new) self.new }
        ensures over { self.new.is_over ≡ self.old.is_over }
    {
        self.make_room_for(buffer, piece.len());
        let end = self.end + piece.len();
        buffer[self.end..end].copy_from_slice(piece);
        self.end = end;
    }

    /// A view of the stream, which decides what comes next.
    fn view<'a>(&self, buffer: &'a [u8], known: ReadingState) -> StreamView<'a>
        requires { IsWithin (length buffer.now) self.now }
        ensures { result ≡ stream_of known buffer.now self.now }
    {
        StreamView {
            limit: known.limit,
            is_tls13: known.is_tls13,
            has_changed: self.has_changed,
            kind: self.kind,
            part: &buffer[self.part..self.part_end],
            unread: &buffer[self.unread..self.end],
        }
    }

    /// Joins a record's fragment of this type, of `n` bytes, to the part, and removes the record
    /// from the stream.
    fn join(&mut self, buffer: &mut [u8], kind: u8, n: usize)
        requires within { IsWithin (length buffer.old) self.old }
        requires whole { self.old.unread + 5 + n ≤ self.old.end }
        ensures joined { (k : ReadingState) → stream_of k buffer.new self.new ≡ joined_to
            (stream_of k buffer.old self.old) kind n }
        ensures within { IsWithin (length buffer.new) self.new }
        ensures over { self.new.is_over ≡ self.old.is_over }
    {
        let from = self.unread + 5;
        buffer.copy_within(from..from + n, self.part_end);
        self.part_end += n;
        self.unread = from + n;
        self.kind = kind;
    }

    /// Joins fragments until an event is available: true; or false if more bytes are needed. An
    /// `Err` is the fault that is the next event and the last.
    fn settle(&mut self, buffer: &mut [u8], known: ReadingState) -> Result<bool, Fault>
        requires { IsWithin (length buffer.old) self.old }
        ensures same { ReadsTheSame (stream_of known buffer.new self.new)
            (stream_of known buffer.old self.old) }
        ensures next { IsReady (stream_of known buffer.new self.new) result }
        ensures within { IsWithin (length buffer.new) self.new }
        ensures over { self.new.is_over ≡ self.old.is_over }
    {
        'fragments: loop {
            match self.view(buffer, known).next() {
                Next::Ready => return Ok(true),
                Next::Waits => return Ok(false),
                Next::Fails(fault) => return Err(fault),
                Next::Joins(kind, n) => self.join(buffer, kind, n),
            }
        }
    }

    /// Removes the event with these bytes, and returns their place.
    fn take_off(&mut self, buffer: &[u8], source: Source<'_>) -> Place
        requires within { IsWithin (length buffer.now) self.old }
        requires front { StandInFront (held_in buffer.now self.old) (view_source source) }
        ensures taken { (k : ReadingState) → stream_of k buffer.now self.new ≡ behind
            (stream_of k buffer.now self.old) (view_source source.entry) }
        ensures stands { StandsAt buffer.now result (bytes_of (view_source source.entry)) }
        ensures within { IsWithin (length buffer.now) self.new }
        ensures over { self.new.is_over ≡ self.old.is_over }
    {
        match source {
            Source::Message(message) => {
                let place = Place {
                    offset: self.part,
                    length: message.len(),
                };
                self.part += message.len();
                place
            }
            Source::Record(bytes) => {
                let place = Place {
                    offset: self.unread,
                    length: bytes.len(),
                };
                self.unread += bytes.len();
                self.has_changed |= bytes[0] == 20;
                place
            }
        }
    }

    /// Returns the next event and removes it; `None` if there is none.
    fn take_first(
        &mut self,
        buffer: &[u8],
        known: ReadingState,
        side: Direction,
    ) -> Option<ReadEvent>
        requires { IsWithin (length buffer.now) self.old }
        ensures some { IfSome result
            (λ h. (v : StreamEvent)
            × (first (stream_of known buffer.now self.old) ≡ Some
            (v, stream_of known buffer.now self.new)) × Shows side buffer.now h v) }
        ensures none { IfNone result (first (stream_of known buffer.now self.old) ≡ None) }
        ensures within { IsWithin (length buffer.now) self.new }
        ensures over { self.new.is_over ≡ self.old.is_over }
    {
        match self.view(buffer, known).first() {
            Some((event, source)) => {
                let content = self.take_off(buffer, source);
                Some(event_at(&event, content, side))
            }
            None => None,
        }
    }

    /// Returns the side's next event or fault, and removes it; `None` if more bytes are needed.
    pub fn next_event(
        &mut self,
        buffer: &mut [u8],
        known: ReadingState,
        side: Direction,
    ) -> Option<ReadEvent>
        requires within { IsWithin (length buffer.old) self.old }
        requires is_active { self.old.is_over ≡ false }
        ensures some { IfSome result
            (λ h. IsNextEvent side known buffer.old self.old buffer.new self.new h) }
        ensures none { IfNone result (Waits known buffer.old self.old buffer.new self.new) }
        ensures within { IsWithin (length buffer.new) self.new }
    {
        match self.settle(buffer, known) {
            Ok(true) => self.take_first(buffer, known, side),
            Ok(false) => None,
            Err(fault) => {
                self.is_over = true;
                Some(event_of_fault(fault, side))
            }
        }
    }
}
