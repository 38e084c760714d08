//! Fragments of a DTLS handshake message (RFC 6347, section 4.2.3).
ghost use Rattle.std.specs.Prelude.{◌≡◌, ◌↔◌, ◌⊎◌, ◌+◌, ◌≤◌, ℕ, length, Err, None, IsErr, IsSome, IfSome, OnOk};
ghost use Rattle.layouts.specs.Answers.{Gives};
ghost use Rattle.segments.specs.Cells.{cell, known_behind, run};
ghost use Rattle.dtls_stream.specs.Fragments.{Fragment as Value, fragment as fragment_layout, Held, IsAdded, IsBegun, IsBody, IsComplete, byte, given, judged, or_else, view_fragment};
ghost use Rattle.dtls_stream.specs.Messages.{view_message};
ghost use Rattle.dtls_stream.specs.declared.fragments.FragmentError.TheVariants as fragment_error;

use crate::event::Message;
use layouts::{IResult, Item, Room, block, number2, number3, parsed};
use segments::TcpReassembler;
use std::alloc::{AllocError, Global};
use std::marker::Model;
use tls_base::TlsHandshakeType;

/// Why a fragment is refused. The buffer doesn't change.
#[derive(Clone, Copy, Debug, PartialEq)]
pub enum FragmentError {
    /// Its message was delivered already: it is a retransmission.
    Old,
    /// Its message is further ahead of the next one than the limit allows.
    TooFarAhead,
    /// The whole message is longer than the limit allows.
    TooLarge,
    /// The fragment belongs to another message.
    OtherMessage,
    /// Its message's type differs from the first fragment's. No call returns this: the first type
    /// is kept, and the bytes are added.
    OtherType,
    /// Its message's length differs from the first fragment's.
    OtherLength,
    /// The fragment ends after its message.
    Outside,
    /// There is no memory for its bytes.
    OutOfMemory,
}

impl From<AllocError> for FragmentError {
    ghost from_gives = { λ _ e. e ≡ fragment_error.OutOfMemory };

    fn from(_e: AllocError) -> FragmentError {
        FragmentError::OutOfMemory
    }
}

/// A fragment of a DTLS handshake message, or the whole message (RFC 6347, section 4.2.2).
#[derive(Clone, Debug, PartialEq, Drop)]
pub struct Fragment<'a> {
    /// The HandshakeType.
    pub msg_type: TlsHandshakeType,
    /// The length of the whole message's body, in bytes.
    pub length: u32,
    /// The message's sequence number.
    pub message_seq: u16,
    /// Where the fragment begins in the body, in bytes.
    pub fragment_offset: u32,
    /// The fragment's bytes of the body.
    pub body: &'a [u8],
}

/// Parses a DTLS handshake message or a fragment of one (RFC 6347, section 4.2.2), with its body
/// unparsed: 1 byte of type, 3 of length, 2 of message number, 3 of fragment offset and 3 of
/// fragment length, all big-endian, and as many bytes as the fragment length says.
///
/// `Incomplete` with the count of missing bytes.
#[tactic(auto, using(layouts::proofs::OneAnswerLemmas::read_allowed), unfolding(crate::specs::Fragments::fragment))]
pub fn parse_dtls_fragment(i: &[u8]) -> IResult<&[u8], Fragment>
    ensures { Gives view_fragment fragment_layout i.now result }
{
    let (i, msg_type) = parsed!(TlsHandshakeType::parse(i));
    let (i, length) = parsed!(number3(i));
    let (i, message_seq) = parsed!(number2(i));
    let (i, fragment_offset) = parsed!(number3(i));
    let (i, fragment_length) = parsed!(number3(i));
    let (i, body) = parsed!(block(i, fragment_length as usize));
    let fragment = Fragment {
        msg_type,
        length,
        message_seq,
        fragment_offset,
        body,
    };
    Ok((i, fragment))
}

impl<'a> Room for Fragment<'a> {}

impl<'a> Item<'a> for Fragment<'a> {
    type Read = Self;

    ghost Value = { Value };

    ghost view = { view_fragment };

    ghost layout = { fragment_layout };

    fn read(_alloc: Global, i: &'a [u8]) -> IResult<&'a [u8], Self> {
        parse_dtls_fragment(i)
    }
}

/// A message that is being reassembled.
///
/// Its value in a contract is the fields that the fragments give, and at each place the byte that
/// arrived there first. A length in a header never allocates: memory grows with the bytes that
/// arrived, in pages of 1,024 places behind the first missing byte. No clause says so.
#[derive(Drop)]
pub struct Fragments {
    msg_type: TlsHandshakeType,
    message_seq: u16,
    size: usize,
    segments: TcpReassembler,
}

impl Model for Fragments {
    ghost Value = { Held };

    ghost view = { λ s. record {
      msg_type = s.msg_type.0;
      message_seq = s.message_seq;
      size = s.size;
      cells = s.segments.cells;
    } };

    ghost invariant = { λ s. (s.segments.taken ≡ 0) × (cell s.segments.cells s.size ≡ None) };
}

impl Fragments {
    /// An empty message with the fields of this fragment. It doesn't allocate.
    pub fn new(alloc: Global, first: &Fragment) -> Fragments
        ensures { IsBegun result (view_fragment first.now) }
    {
        Fragments {
            msg_type: first.msg_type,
            message_seq: first.message_seq,
            size: first.length as usize,
            segments: TcpReassembler::new(alloc, 0, first.length),
        }
    }

    /// Adds the bytes of a fragment where none are known yet. The first bytes are kept, and so is
    /// the first type.
    ///
    /// It is refused, and nothing changes, if its message number or length differs from the first
    /// fragment's, if it reaches past the end of the message, or if there is no memory for its
    /// bytes.
    pub fn add(&mut self, fragment: &Fragment) -> Result<(), FragmentError>
        ensures answer { (result ≡ Err fragment_error.OutOfMemory)
            ⊎ (result ≡ judged self.old (view_fragment fragment.now)) }
        ensures added { OnOk result (IsAdded self.old (view_fragment fragment.now) self.new) }
        ensures refused { IsErr result → self.new ≡ self.old }
    {
        if self.message_seq != fragment.message_seq {
            return Err(FragmentError::OtherMessage);
        }
        if self.size != fragment.length as usize {
            return Err(FragmentError::OtherLength);
        }
        let end = fragment.fragment_offset as usize + fragment.body.len();
        if end > self.size {
            return Err(FragmentError::Outside);
        }
        self.put(fragment.fragment_offset, fragment.body)?;
        Ok(())
    }

    /// Copies bytes to `offset` where none are known yet.
    #[tactic(auto, using(crate::proofs::HeldLemmas::put_given, crate::proofs::HeldLemmas::put_inside))]
    fn put(&mut self, offset: u32, bytes: &[u8]) -> Result<(), AllocError>
        requires inside { offset + length bytes.now ≤ self.old.size }
        ensures same { OnOk result ((self.new.msg_type ≡ self.old.msg_type)
            × (self.new.size ≡ self.old.size) × (self.new.message_seq ≡ self.old.message_seq)) }
        ensures bytes { OnOk result ((i : ℕ) → byte self.new i ≡ or_else (byte self.old i)
            (given offset bytes.now (length bytes.now) i)) }
        ensures refused { IsErr result → self.new ≡ self.old }
    {
        // (no fragment exceeds the reassembler's limit, so only memory can fail)
        if self.segments.put(offset, bytes).is_err() {
            return Err(AllocError);
        }
        Ok(())
    }

    /// An upper bound for the memory that it uses besides itself, in bytes: at least one for each
    /// byte that arrived.
    pub fn capacity(&self) -> usize
        ensures { length (run self.now.cells) + known_behind self.now.cells ≤ result }
    {
        self.segments.capacity()
    }

    /// The message's body, exactly if all its bytes are known.
    #[tactic(auto, using(crate::proofs::HeldLemmas::body_complete, crate::proofs::HeldLemmas::complete_full))]
    pub fn body(&self) -> Option<&[u8]>
        ensures complete { IsSome result ↔ IsComplete self.now }
        ensures body { IfSome result (λ b. IsBody self.now b.now) }
        ensures front { IfSome result (λ b. b.now ≡ run self.now.cells) }
    {
        let front = self.segments.available();
        if front.len() < self.size {
            return None;
        }
        Some(front)
    }

    /// The message with the bytes that arrived in order.
    pub(crate) fn into_message(self) -> Message
        ensures { view_message result ≡ record {
          msg_type = self.msg_type;
          message_seq =
              self.message_seq;
          body = run self.cells;
        } }
    {
        Message {
            msg_type: self.msg_type,
            message_seq: self.message_seq,
            body: self.segments.into_available(),
        }
    }
}
