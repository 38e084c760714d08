//! One direction of a connection.
ghost use Rattle.std.specs.Prelude.{◌≡◌, ◌≤◌, ◌%◌, ◌^◌, length, max, false, IfOk, OnOk, OnErr};
ghost use Rattle.connections.specs.Segment.{breaks, first_of};
ghost use Rattle.connections.specs.Stream.{begun_at, came, counts_fin as is_counted, differing_in_order, end_of, forgetting, front_of, handed_on, handing_on, has_urgent_next, held_in, is_cut_short, is_missing, is_over, lacks, lacks_next as lacks_by_number, next_bytes, not_skipping, noted, passed, passed_before, passing_behind, passing_urgent, silent_stream, skipped_in, skipping, stopped, unread_from, unlike, with_more_disagreeing, with_numbers, with_urgent, HasPut, HasTaken};

use crate::numbers::{HALF, advance, is_behind};
use crate::segment::Segment;
use segments::{SegmentError, TcpReassembler};
use std::alloc::{AllocError, Global};

/// How far behind the first missing byte a segment may end. The bytes of one that ends further are
/// left out.
pub const HELD_LIMIT: u32 = 262_144;

/// How many bytes are kept after they were read, until they are acknowledged.
pub const KEPT_LIMIT: usize = 16_384;

/// The state of a direction.
#[derive(Drop)]
enum Reading {
    /// No segment of it came.
    Unbegun,
    /// The bytes are reassembled here.
    Open(TcpReassembler),
    /// The stream isn't read further.
    Over,
}

/// How far a direction came.
#[derive(Clone, Copy, Debug, PartialEq, Eq)]
pub struct Front {
    /// The number behind all in-order bytes, if it is known.
    pub reached: Option<u32>,
    /// Whether the bytes are read.
    pub is_read: bool,
}

/// One direction of a connection, reassembled in order.
#[derive(Drop)]
pub struct Stream {
    reading: Reading,
    // The number of the first kept byte, in order.
    next: u32,
    // How many of the kept bytes were read. Until they are acknowledged, others may still arrive at
    // their numbers.
    received: usize,
    // The number of the urgent byte, which isn't part of the stream.
    urgent: Option<u32>,
    // The number behind the last byte that came.
    last: u32,
    fin: Option<u32>,
    is_broken: bool,
    // The distance from the first byte to behind the last.
    length: u64,
    // How many bytes were retransmitted.
    repeated: u64,
    // How many retransmitted bytes had another value than the one that is kept.
    disagreeing: u64,
    // Once it is read no further: the number of the next byte to pass on, until one is missing.
    passing: Option<u32>,
    // Whether missing bytes were skipped.
    has_skipped: bool,
}

/// Returns how many bytes are stored, in order and out of order.
fn held(segments: &TcpReassembler) -> u64
    ensures { result ≡ came segments.now }
{
    let in_order = segments.available().len() as u64;
    in_order.saturating_add(segments.held_behind() as u64)
}

/// Returns at how many positions two slices differ, up to the shorter one's end.
fn count_unlike(bytes: &[u8], others: &[u8]) -> usize
    ensures is { result ≡ unlike bytes.now others.now }
    ensures within { result ≤ length bytes.now }
{
    let common = bytes.len().min(others.len());
    let mut count = 0;
    for i in 0..common {
        if bytes[i] != others[i] {
            count += 1;
        }
    }
    count
}

/// Returns at how many numbers a segment's byte differs from the bytes in `standing`, whose first
/// has the number `next`.
pub(crate) fn count_differing(next: u32, standing: &[u8], segment: &Segment<'_>) -> usize
    ensures { result ≡ differing_in_order next standing.now segment.now }
{
    let first = segment.first();
    let ahead = first.wrapping_sub(next);
    if ahead < HALF {
        return count_unlike(
            &standing[standing.len().min(ahead as usize)..],
            segment.payload,
        );
    }
    let behind = next.wrapping_sub(first) as usize;
    count_unlike(
        standing,
        &segment.payload[segment.payload.len().min(behind)..],
    )
}

/// Returns a slice's length as a sequence number.
fn count(bytes: &[u8]) -> u32
    ensures { result ≡ length bytes.now % 2 ^ 32 }
{
    (bytes.len() % 0x1_0000_0000) as u32
}

impl Stream {
    /// Returns an empty stream. It allocates nothing.
    pub fn new() -> Stream
        ensures { result ≡ silent_stream }
    {
        Stream {
            reading: Reading::Unbegun,
            next: 0,
            received: 0,
            urgent: None,
            last: 0,
            fin: None,
            is_broken: false,
            length: 0,
            repeated: 0,
            disagreeing: 0,
            passing: None,
            has_skipped: false,
        }
    }

    /// Begins the stream with this number, if it is known and nothing came before.
    pub(crate) fn begin(&mut self, alloc: Global, start: Option<u32>)
        ensures { self.new ≡ begun_at start self.old }
    {
        if let (Reading::Unbegun, Some(number)) = (&self.reading, start) {
            self.next = number;
            self.last = number;
            self.reading = Reading::Open(TcpReassembler::new(alloc, number, HELD_LIMIT));
        }
    }

    /// Returns the number behind the last data byte of a segment. There is no data behind a FIN,
    /// which occupies a number too.
    fn end_of(&self, segment: &Segment<'_>) -> u32
        ensures { result ≡ end_of self.now.fin segment.now }
    {
        match self.fin {
            Some(fin) if is_behind(segment.behind(), fin) => fin,
            _ => segment.behind(),
        }
    }

    /// Returns whether the number of this FIN counted as a byte: its sender went on from behind it,
    /// in a segment that came before it.
    fn counts_fin(&self, segment: &Segment<'_>) -> bool
        ensures { result ≡ is_counted segment.now self.now }
    {
        segment.ends() && self.last == segment.behind().wrapping_add(1)
    }

    /// Notes where a segment ends.
    fn note_numbers(&mut self, segment: &Segment<'_>)
        ensures { self.new ≡ with_numbers segment.now self.old }
    {
        if self.counts_fin(segment) {
            self.last = segment.behind();
            self.length = self.length.saturating_sub(1);
        }
        let end = self.end_of(segment);
        let further = advance(end, self.last);
        self.length = self.length.saturating_add(u64::from(further));
        if is_behind(end, self.last) {
            self.last = end;
        }
        if segment.ends() {
            self.fin = Some(segment.behind());
        }
    }

    /// Notes the urgent byte of a segment with URG. It counts if it didn't come yet and is behind
    /// the last known one. It is the byte before the number to which the pointer points, as in
    /// Linux (RFC 6093, section 3).
    fn note_urgent(&mut self, segment: &Segment<'_>)
        ensures { self.new ≡ with_urgent segment.now self.old }
    {
        let Reading::Open(segments) = &self.reading else {
            return;
        };
        let Some(number) = segment.urgent() else {
            return;
        };
        let reached = self.next.wrapping_add(count(segments.available()));
        let is_newer = match self.urgent {
            Some(other) => is_behind(number, other),
            None => true,
        };
        if is_newer && !is_behind(reached, number) {
            self.urgent = Some(number);
        }
    }

    /// Frees bytes that were read: those before the acknowledged number, and those with
    /// [`KEPT_LIMIT`] or more read bytes behind them.
    pub(crate) fn forget(&mut self, acknowledged: Option<u32>)
        ensures { self.new ≡ forgetting acknowledged self.old }
    {
        let known = match acknowledged {
            Some(number) => advance(number, self.next) as usize,
            None => 0,
        };
        let many = self.received.saturating_sub(KEPT_LIMIT);
        let n = self.received.min(known.max(many));
        if let Reading::Open(segments) = &mut self.reading {
            let n = n.min(segments.available().len());
            self.next = self.next.wrapping_add((n % 0x1_0000_0000) as u32);
            self.received = self.received.saturating_sub(n);
            segments.take(n);
        }
    }

    /// Counts the bytes of a segment before the next one to pass on as retransmitted.
    fn count_passed(&mut self, segment: &Segment<'_>)
        ensures { self.new ≡ record self.old
            { repeated = passed_before self.old.passing segment.now self.old.repeated } }
    {
        let Some(next) = self.passing else {
            return;
        };
        let begun = next.wrapping_sub(segment.first());
        let again = if begun < HALF {
            (begun as usize).min(segment.payload.len())
        } else {
            0
        };
        self.repeated = self.repeated.saturating_add(again as u64);
    }

    /// Adds a segment's bytes, and counts those that were there already.
    fn put(&mut self, segment: &Segment<'_>) -> Result<(), AllocError>
        ensures put { OnOk result (HasPut segment.now self.old self.new) }
        ensures err { OnErr result (self.new ≡ self.old) }
    {
        match &mut self.reading {
            Reading::Open(segments) => {
                let before = held(segments);
                let in_order = count_differing(self.next, segments.available(), segment);
                let differing = segments.differing(segment.first(), segment.payload);
                match segments.segment(segment.first(), segment.payload) {
                    Ok(()) => {
                        let new = held(segments).saturating_sub(before);
                        let again = (segment.payload.len() as u64).saturating_sub(new);
                        self.repeated = self.repeated.saturating_add(again);
                        self.disagreeing = self.disagreeing.saturating_add(in_order as u64);
                        self.disagreeing = self.disagreeing.saturating_add(differing as u64);
                    }
                    Err(SegmentError::TooMuch) => {}
                    Err(SegmentError::OutOfMemory) => return Err(AllocError),
                }
            }
            Reading::Unbegun => {}
            Reading::Over => self.count_passed(segment),
        }
        Ok(())
    }

    /// Adds a segment's bytes. Those of a segment that ends more than [`HELD_LIMIT`] behind the
    /// first missing byte are left out.
    ///
    /// `AllocError` if there is no memory for the bytes. They are left out then too.
    pub fn accept(&mut self, segment: &Segment<'_>) -> Result<(), AllocError>
        ensures taken { OnOk result (HasTaken segment.now self.old self.new) }
        ensures left_out { OnErr result
            ((breaks segment.now ≡ false) × (self.new ≡ noted segment.now self.old)) }
    {
        if segment.breaks() {
            self.is_broken = true;
            return Ok(());
        }
        if let Reading::Unbegun = self.reading {
            return Ok(());
        }
        self.note_numbers(segment);
        self.note_urgent(segment);
        self.put(segment)
    }

    /// Returns the number of the first unread byte.
    fn first_unread(&self) -> u32
        ensures { result ≡ unread_from self.now }
    {
        self.next
            .wrapping_add((self.received % 0x1_0000_0000) as u32)
    }

    /// Returns the unread in-order bytes, up to the first missing byte or the urgent one. None if
    /// the stream is read no further.
    pub fn available(&self) -> &[u8]
        ensures { result.now ≡ next_bytes self.now self.now.reading }
    {
        let Reading::Open(segments) = &self.reading else {
            return &[];
        };
        let bytes = segments.available();
        let rest = &bytes[bytes.len().min(self.received)..];
        match self.urgent {
            Some(number) => {
                let ahead = number.wrapping_sub(self.first_unread()) as usize;
                &rest[..rest.len().min(ahead)]
            }
            None => rest,
        }
    }

    /// Marks `n` of the available bytes as read, or all if there are fewer. They are kept until
    /// they are acknowledged, so that retransmitted bytes with other values are counted.
    pub fn take(&mut self, n: usize)
        ensures { self.new ≡ handing_on n self.old }
    {
        let n = n.min(self.available().len());
        self.received = self.received.saturating_add(n);
    }

    /// Returns whether the available bytes end at the urgent byte, and that has come.
    pub fn is_cut(&self) -> bool
        ensures { result ≡ is_cut_short self.now self.now.reading }
    {
        match (&self.reading, self.urgent) {
            (Reading::Open(segments), Some(number)) => {
                let reached = self.next.wrapping_add(count(segments.available()));
                is_behind(reached, number) && !is_behind(self.first_unread(), number)
            }
            _ => false,
        }
    }

    /// Skips the urgent byte if it comes next. Returns whether it did.
    pub fn pass_urgent(&mut self) -> bool
        ensures next { result ≡ has_urgent_next self.old }
        ensures passed { self.new ≡ passing_urgent self.old }
    {
        if self.urgent != Some(self.first_unread()) || !self.is_cut() {
            return false;
        }
        self.received = self.received.saturating_add(1);
        self.urgent = None;
        true
    }

    /// Returns the number behind the last byte that came.
    pub fn last(&self) -> u32
        ensures { result ≡ self.now.last }
    {
        self.last
    }

    /// Returns how many bytes its sender sent, by the sequence numbers of its segments. Missing
    /// bytes count, and retransmitted ones count once. Segments 2^31 or more bytes ahead of the
    /// others don't count.
    pub fn length(&self) -> u64
        ensures { result ≡ self.now.length }
    {
        self.length
    }

    /// Returns how many bytes were retransmitted. They are counted as long as the stream is read or
    /// its bytes are passed on.
    pub fn repeated(&self) -> u64
        ensures { result ≡ self.now.repeated }
    {
        self.repeated
    }

    /// Returns how many bytes arrived with another value than the one that is kept: out-of-order
    /// ones, and up to [`KEPT_LIMIT`] read ones that aren't acknowledged. The first ones stay.
    pub fn disagreeing(&self) -> u64
        ensures { result ≡ self.now.disagreeing }
    {
        self.disagreeing
    }

    /// Counts bytes that disagreed before they got here, such as those of a datagram's overlapping
    /// fragments.
    pub fn add_disagreeing(&mut self, count: u64)
        ensures { self.new ≡ with_more_disagreeing count self.old }
    {
        self.disagreeing = self.disagreeing.saturating_add(count);
    }

    /// Stops reading: frees the bytes and ignores later ones. If it was read so far,
    /// [`Stream::pass`] passes on what comes next.
    pub fn stop(&mut self)
        ensures { self.new ≡ stopped self.old self.old.reading }
    {
        match &self.reading {
            Reading::Open(_) => self.passing = Some(self.first_unread()),
            Reading::Unbegun => {}
            Reading::Over => return,
        }
        self.reading = Reading::Over;
    }

    /// Returns the next bytes, in a segment, of a stream that is read no further: those behind all
    /// that were read or passed on. None is kept. Once bytes are missing before a segment, nothing
    /// more is passed on.
    pub fn pass<'a>(&mut self, segment: &Segment<'a>) -> &'a [u8]
        ensures bytes { result.now ≡ passed self.old.passing segment.now }
        ensures passing { self.new
            ≡ record self.old { passing = passing_behind self.old.passing segment.now } }
    {
        let Some(next) = self.passing else {
            return &[];
        };
        let begun = next.wrapping_sub(segment.first());
        if begun >= HALF {
            self.passing = None;
            return &[];
        }
        let bytes = &segment.payload[segment.payload.len().min(begun as usize)..];
        self.passing = Some(next.wrapping_add(count(bytes)));
        bytes
    }

    /// Returns whether its sender reset the connection.
    pub(crate) fn is_broken(&self) -> bool
        ensures { result ≡ self.now.is_broken }
    {
        self.is_broken
    }

    /// Returns whether bytes are missing before this number, as far as it is known.
    pub(crate) fn lacks(&self, number: u32) -> bool
        ensures { result ≡ is_missing number self.now }
    {
        match self.front().reached {
            Some(reached) => is_behind(number, reached),
            None => matches!(self.reading, Reading::Unbegun),
        }
    }

    /// Returns whether it is closed: its sender reset the connection, or all bytes before its FIN
    /// came.
    pub fn is_closed(&self) -> bool
        ensures { result ≡ is_over self.now }
    {
        if self.is_broken {
            return true;
        }
        let Some(fin) = self.fin else {
            return false;
        };
        match &self.reading {
            Reading::Open(segments) => self.next.wrapping_add(count(segments.available())) == fin,
            Reading::Unbegun | Reading::Over => true,
        }
    }

    /// Returns how far it came.
    pub(crate) fn front(&self) -> Front
        ensures { result ≡ front_of self.now self.now.reading }
    {
        let reached = match &self.reading {
            Reading::Open(segments) => { Some(self.next.wrapping_add(count(segments.available()))) }
            Reading::Unbegun => None,
            Reading::Over => self.passing,
        };
        Front {
            reached,
            is_read: matches!(self.reading, Reading::Open(_)),
        }
    }

    /// Returns an upper bound for its memory besides itself, in bytes. It is at most `most`, unless
    /// more bytes than that are stored.
    pub(crate) fn capacity(&self, most: usize) -> usize
        ensures enough { held_in self.now.reading ≤ result }
        ensures within { result ≤ max most (held_in self.now.reading) }
    {
        match &self.reading {
            Reading::Open(segments) => {
                let in_order = segments.available().len();
                let stored = in_order.saturating_add(segments.held_behind());
                segments.capacity().min(most.max(stored))
            }
            Reading::Unbegun | Reading::Over => 0,
        }
    }

    /// Skips the next missing bytes, and the unread bytes before them, if any came behind them.
    /// Returns how many bytes it skipped, at least one; or 0, and nothing changes.
    ///
    /// `AllocError` if there is no memory for the bytes behind them. Then only the bytes before
    /// them are left out.
    pub fn skip_gap(&mut self) -> Result<usize, AllocError>
        ensures count { IfOk result (λ n. n ≡ skipped_in self.old self.old.reading) }
        ensures skipped { OnOk result (self.new ≡ skipping self.old self.old.reading) }
        ensures left_out { OnErr result (self.new ≡ not_skipping self.old self.old.reading) }
    {
        let Reading::Open(segments) = &mut self.reading else {
            return Ok(0);
        };
        if segments.held_behind() == 0 {
            return Ok(0);
        }
        let in_order = segments.available().len();
        let unread = in_order.saturating_sub(self.received);
        self.next = self.next.wrapping_add(count(segments.available()));
        self.received = 0;
        segments.take(in_order);
        let Ok(missing) = segments.skip() else {
            return Err(AllocError);
        };
        self.next = self.next.wrapping_add((missing % 0x1_0000_0000) as u32);
        self.has_skipped = true;
        Ok(unread.saturating_add(missing))
    }

    /// Returns whether bytes are missing before others that came, or before a FIN, or were skipped
    /// as missing.
    pub fn has_gap(&self) -> bool
        ensures { result ≡ lacks self.now self.now.reading }
    {
        self.has_skipped || self.lacks_next()
    }

    /// Returns whether bytes are missing before others that came, or before a FIN.
    fn lacks_next(&self) -> bool
        ensures { result ≡ lacks_by_number self.now self.now.reading }
    {
        match &self.reading {
            Reading::Open(segments) => {
                is_behind(
                    self.last,
                    self.next.wrapping_add(count(segments.available())),
                )
            }
            Reading::Unbegun | Reading::Over => false,
        }
    }
}
