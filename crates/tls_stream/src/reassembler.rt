//! The buffer of a stream of frames.
ghost use Rattle.std.specs.Prelude.{◌≡◌, ◌≤◌, ◌↔◌, ◌++◌, ◌-◌, ◌+◌, List, [], ℕ, length, drop, Ok, Err, is_ok, IsOk, OnOk, true, if◌then◌else◌};
ghost use Rattle.std.specs.Option.{option_map};
ghost use Rattle.layouts.specs.Answers.{Gives};
ghost use Rattle.layouts.specs.Meaning.{AllowsOne};
ghost use Rattle.raw_records.specs.RawRecord.{view_raw_record, raw_record};
ghost use Rattle.tls_stream.specs.Frames.{FrontTaken, IsTooLarge, frame_of, front, frames, left, up_to};
ghost use Rattle.tls_stream.specs.Records.{IsRefusedAsTooLarge};
ghost use Rattle.raw_records.specs.Framing as framing;
ghost use Rattle.raw_records.specs.Framing.{IsIncomplete};
ghost use Rattle.tls_stream.specs.declared.reassembler.FeedError.TheVariants as feed_error;

use crate::frame::{Frame, MessageFrame, RecordFrame, frame_in_front, is_too_large};
use layouts::IResult;
use raw_records::{MAX_RECORD_LEN, TlsRawRecord, parse_tls_raw_record};
use std::alloc::{AllocError, Global};
use std::error::Error;
use std::fmt;
use std::marker::{Model, PhantomData};

/// Why a piece isn't taken. The buffered bytes stay.
#[derive(Debug, PartialEq, Drop)]
pub enum FeedError {
    /// The next header's length is above the limit. Every later piece is refused too.
    TooLarge,
    /// There is no memory for the piece. Nothing changes.
    OutOfMemory,
}

impl From<AllocError> for FeedError {
    ghost from_gives = { λ _ e. e ≡ feed_error.OutOfMemory };

    fn from(_e: AllocError) -> FeedError {
        FeedError::OutOfMemory
    }
}

impl fmt::Display for FeedError {
    fn fmt<W: fmt::Write>(&self, f: &mut fmt::Formatter<W>) -> fmt::Result {
        match self {
            FeedError::TooLarge => write!(f, "the length of the next record is too large"),
            FeedError::OutOfMemory => write!(f, "out of memory"),
        }
    }
}

impl Error for FeedError {}

/// The bytes of a stream of frames that were fed and not yet taken. At most `LIMIT` bytes may
/// follow a header.
///
/// Its value in a contract is these bytes, in order. A length in a header never reserves memory.
#[derive(Drop)]
pub struct Frames<F, const LIMIT: usize> {
    bytes: Vec<u8>,
    // Where the bytes that weren't taken begin.
    start: usize,
    of: PhantomData<F>,
}

pub(crate) const RECORD_LIMIT: usize = MAX_RECORD_LEN as usize;

/// The records of a stream, as [`parse_tls_raw_record`] parses them.
pub type Reassembler = Frames<RecordFrame, RECORD_LIMIT>;

/// The handshake messages in the fragments of records, with bodies of at most `LIMIT` bytes.
pub type Joiner<const LIMIT: usize> = Frames<MessageFrame, LIMIT>;

impl<F, const LIMIT: usize> Model for Frames<F, LIMIT> {
    ghost Value = { List ℕ };

    ghost view = { λ r. drop r.start r.bytes.items };

    ghost invariant = { λ r. r.start ≤ length r.bytes.items };
}

impl<F, const LIMIT: usize> Frames<F, LIMIT> {
    /// An empty buffer. It doesn't allocate.
    pub fn new(alloc: Global) -> Self
        ensures { result ≡ [] }
    {
        Frames {
            bytes: Vec::new(alloc),
            start: 0,
            of: PhantomData,
        }
    }

    /// The buffered bytes.
    pub fn held(&self) -> &[u8]
        ensures { result.now ≡ self.now }
    {
        &self.bytes[self.start..]
    }

    /// Removes the first `n` bytes. They stay in memory until a later piece needs the room.
    fn take_off(&mut self, n: usize)
        requires { n ≤ length self.old }
        ensures { self.new ≡ drop n self.old }
    {
        self.start += n;
    }

    /// Moves the buffered bytes to the beginning of the buffer, if they are at most as many as the
    /// bytes taken before them. So each byte is moved at most as often as another is taken.
    fn make_room(&mut self)
        ensures { self.new ≡ self.old }
    {
        let held = self.bytes.len() - self.start;
        if held <= self.start {
            self.bytes.copy_within(self.start.., 0);
            self.bytes.truncate(held);
            self.start = 0;
        }
    }

    fn append(&mut self, piece: &[u8]) -> Result<(), AllocError>
        ensures { self.new ≡ (if is_ok result then self.old ++ piece.now else self.old) }
    {
        self.make_room();
        self.bytes.extend_from_slice(piece)
    }
}

impl<F: Frame, const LIMIT: usize> Frames<F, LIMIT> {
    /// Whether the next header's length is above the limit.
    pub fn is_too_large(&self) -> bool
        ensures { (result ≡ true) ↔ IsTooLarge (up_to F.kind LIMIT) self.now }
    {
        is_too_large::<F>(LIMIT, self.held())
    }

    /// The bytes of the next frame, with its header, if it is whole and its length isn't too large.
    pub fn front_bytes(&self) -> Option<&[u8]>
        ensures { option_map (λ b. b.now) result ≡ frame_of (front (up_to F.kind LIMIT) self.now) }
    {
        frame_in_front::<F>(LIMIT, self.held())
    }

    /// Removes the next frame. Returns false, and changes nothing, if there is none.
    #[tactic(auto, using(crate::proofs::FrontLemmas::taken_off, crate::proofs::FrontLemmas::none_off, crate::proofs::FrontLemmas::shorter_frame))]
    pub fn take_front(&mut self) -> bool
        ensures { FrontTaken (front (up_to F.kind LIMIT) self.old) self.old result self.new }
    {
        let n = match self.front_bytes() {
            Some(bytes) => bytes.len(),
            None => return false,
        };
        self.take_off(n);
        true
    }

    /// Appends a piece of the stream.
    ///
    /// - `TooLarge` exactly if the next header's length is above the limit. The buffered bytes
    ///   stay, and every later call returns the same.
    /// - `OutOfMemory` if there is no memory for the piece. The buffered bytes stay.
    #[tactic(auto, using(crate::proofs::FrameLemmas::more_fed))]
    pub fn feed(&mut self, piece: &[u8]) -> Result<(), FeedError>
        ensures too_large { (result ≡ Err feed_error.TooLarge)
            ↔ IsTooLarge (up_to F.kind LIMIT) self.old }
        ensures held { self.new ≡ (if is_ok result then self.old ++ piece.now else self.old) }
        ensures frames { let f = up_to F.kind LIMIT in
            OnOk result (frames f self.new ≡ frames f self.old ++ frames f
            (left f self.old ++ piece.now)) }
    {
        if self.is_too_large() {
            return Err(FeedError::TooLarge);
        }
        self.append(piece)?;
        Ok(())
    }
}

impl Reassembler {
    /// The next record: the answer of [`parse_tls_raw_record`] on the buffered bytes.
    ///
    /// - `Error` of kind `TooLarge` exactly if the buffer starts with a header of 5 bytes whose
    ///   length is above [`raw_records::MAX_RECORD_LEN`].
    /// - `Incomplete` with the count of missing bytes exactly while the next record isn't whole and
    ///   its header has no such length.
    #[tactic(auto, using(crate::proofs::RawRecordLemmas::front_rules))]
    pub fn front(&self) -> IResult<&[u8], TlsRawRecord>
        ensures gives { Gives view_raw_record raw_record self.now result }
        ensures only_one { AllowsOne raw_record self.now }
        ensures too_large { IsRefusedAsTooLarge result ↔ framing.IsTooLarge 5 self.now }
        ensures incomplete { IsIncomplete result ↔ framing.NeedsMore 5 self.now }
        ensures whole { IsOk result
            ↔ (framing.IsWhole 5 self.now × (framing.IsTooLarge 5 self.now → ⊥)) }
    {
        parse_tls_raw_record(self.held())
    }
}
