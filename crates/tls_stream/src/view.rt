//! Decides what comes next in a direction that isn't at fault, from two slices, wherever these are
//! stored.
ghost use Rattle.std.specs.Prelude.{◌≡◌, ◌≢◌, ◌≤◌, ◌↔◌, [], length, true, false, None};
ghost use Rattle.std.specs.Option.{option_map};
ghost use Rattle.tls_stream.specs.Frames.{IsTooLarge, frame_of, front};
ghost use Rattle.tls_stream.specs.Stream.{IsNext, alone_record, first, first_source, standing, view_source};
ghost use Rattle.tls_stream.specs.Messages.{messages_of};
ghost use Rattle.tls_stream.specs.Item.{is_encrypted, is_sealed, item_of, refused, view_event, view_item, wide_record};
ghost use Rattle.tls_stream.specs.declared.stream.Stream.{Stream};

use crate::event::{Alerts, Event, message_event};
use crate::fault::Fault;
use crate::frame::{Frame, MessageFrame, RecordFrame, frame_in_front, is_too_large};
use crate::item::{Item, is_sealed_alert, read_record, refuse};
use layouts::ErrorKind;
use raw_records::MAX_ENCRYPTED_LEN;
use std::marker::Model;

/// The next step in a direction.
#[derive(Clone, Copy)]
pub enum Next {
    /// An event is available.
    Ready,
    /// More bytes are needed.
    Waits,
    /// The direction is at fault.
    Fails(Fault),
    /// A fragment is to be joined: its content type, and its length in bytes.
    Joins(u8, usize),
}

/// The bytes of an event.
#[derive(Clone, Copy)]
pub enum Source<'a> {
    /// A message, at the beginning of the part.
    Message(&'a [u8]),
    /// A record with its header of 5 bytes, at the beginning of the unread stream.
    Record(&'a [u8]),
}

/// The bytes of a direction's stream that were fed and not yet taken as events, in two slices.
#[derive(Drop)]
pub struct StreamView<'a> {
    /// The limit for the body of a handshake message, in bytes.
    pub limit: usize,
    /// Whether TLS 1.3 was chosen.
    pub is_tls13: bool,
    /// Whether the direction has sent its ChangeCipherSpec.
    pub has_changed: bool,
    /// The content type of the fragments that the part is joined from.
    pub kind: u8,
    /// The joined fragments, without the messages that were taken.
    pub part: &'a [u8],
    /// The stream after the records that were read.
    pub unread: &'a [u8],
}

impl<'a> Model for StreamView<'a> {
    ghost Value = { Stream };

    ghost view = { λ v.
        record {
          limit = v.limit;
          is_tls13 = v.is_tls13;
          has_changed = v.has_changed;
          kind = v.kind;
          held = record { part = v.part.now; unread = v.unread.now };
        } };
}

impl<'a> StreamView<'a> {
    /// The whole message that the part starts with, with its header, if there is one.
    fn message(&self) -> Option<&'a [u8]>
        ensures { option_map (λ b. b.now) result
            ≡ frame_of (front (messages_of self.now.limit self.now.kind) self.now.held.part) }
    {
        if self.kind == 21 {
            frame_in_front::<Alerts>(0, self.part)
        } else {
            frame_in_front::<MessageFrame>(self.limit, self.part)
        }
    }

    /// Whether the length of the open message is above the limit.
    fn is_too_large(&self) -> bool
        ensures { (result ≡ true)
            ↔ IsTooLarge (messages_of self.now.limit self.now.kind) self.now.held.part }
    {
        if self.kind == 21 {
            is_too_large::<Alerts>(0, self.part)
        } else {
            is_too_large::<MessageFrame>(self.limit, self.part)
        }
    }

    /// Whether a record of this content type is encrypted.
    fn is_encrypted(&self, kind: u8) -> bool
        ensures { result ≡ is_encrypted (standing self.now) kind }
    {
        if self.is_tls13 {
            kind == 23
        } else {
            self.has_changed
        }
    }

    /// The next record, with its header, if it is whole.
    fn record(&self) -> Option<&'a [u8]>
        ensures { option_map (λ b. b.now) result ≡ frame_of
            (front wide_record self.now.held.unread) }
    {
        frame_in_front::<RecordFrame>(MAX_ENCRYPTED_LEN as usize, self.unread)
    }

    /// Why the record's header is refused, if it is.
    fn refused(&self, record: &[u8]) -> Option<ErrorKind>
        requires { 5 ≤ length record.now }
        ensures { result ≡ refused (standing self.now) record.now }
    {
        let kind = record[0];
        refuse(
            self.is_encrypted(kind),
            kind,
            RecordFrame::body_len(&record[..5]),
        )
    }

    /// Whether a record is encrypted, by its header or because its content is no alert.
    #[tactic(auto, unfolding(crate::specs::Item::is_sealed))]
    fn is_sealed(&self, record: &[u8]) -> bool
        requires { 5 ≤ length record.now }
        ensures { result ≡ is_sealed (standing self.now) record.now }
    {
        self.is_encrypted(record[0]) || is_sealed_alert(record)
    }

    /// What a whole record contains.
    fn read<'r>(&self, record: &'r [u8]) -> Item<'r>
        requires { 5 ≤ length record.now }
        ensures { view_item result ≡ item_of (standing self.now) record.now }
    {
        match self.refused(record) {
            Some(kind) => Item::Broken(kind),
            None => read_record(self.is_sealed(record), record),
        }
    }
}

impl<'a> StreamView<'a> {
    /// Whether no message is open.
    fn is_closed(&self) -> bool
        ensures none { result ≡ true → self.now.held.part ≡ [] }
        ensures some { result ≡ false → self.now.held.part ≢ [] }
    {
        self.part.is_empty()
    }

    /// The next step, if no message in the part is whole or too large.
    #[tactic(auto, using(crate::proofs::StreamLemmas::next_rules))]
    fn next_record(&self) -> Next
        requires none { None ≡ frame_of
            (front (messages_of self.now.limit self.now.kind) self.now.held.part) }
        requires small { IsTooLarge (messages_of self.now.limit self.now.kind) self.now.held.part
            → ⊥ }
        ensures { IsNext self.now result }
    {
        let is_closed = self.is_closed();
        let unread = self.unread;
        let Some(record) = self.record() else {
            if unread.len() < 5 {
                return Next::Waits;
            }
            return match self.refused(unread) {
                Some(kind) => Next::Fails(Fault::Refused(kind)),
                None => Next::Waits,
            };
        };
        match self.read(record) {
            Item::Broken(kind) => Next::Fails(Fault::Refused(kind)),
            Item::Alone(_) if is_closed => Next::Ready,
            Item::Alone(_) => Next::Fails(Fault::Interrupted),
            Item::Fragment(kind, bytes) if is_closed => Next::Joins(kind, bytes.len()),
            Item::Fragment(kind, bytes) if kind == self.kind => Next::Joins(kind, bytes.len()),
            Item::Fragment(_, _) => Next::Fails(Fault::Interrupted),
        }
    }

    /// The next step.
    #[tactic(auto, using(crate::proofs::StreamLemmas::next_rules))]
    pub fn next(&self) -> Next
        ensures { IsNext self.now result }
    {
        match self.message() {
            Some(_) => Next::Ready,
            None if self.is_too_large() => Next::Fails(Fault::TooLarge),
            None => self.next_record(),
        }
    }

    /// The event and the bytes of the next record, if it is an event by itself and no message is
    /// open.
    #[tactic(auto, using(crate::proofs::StreamLemmas::front_rules))]
    fn alone(&self) -> Option<(Event<'a>, &'a [u8])>
        ensures { option_map (λ x. (view_event x.0, x.1.now)) result ≡ alone_record self.now }
    {
        let record = match self.record() {
            Some(record) => record,
            None => return None,
        };
        if !self.part.is_empty() {
            return None;
        }
        match self.read(record) {
            Item::Alone(event) => Some((event, record)),
            Item::Fragment(_, _) => None,
            Item::Broken(_) => None,
        }
    }

    /// The next event, and its bytes.
    #[tactic(auto, using(crate::proofs::StreamLemmas::front_rules))]
    // Inlined, since each caller uses half of the answer and the compiler then drops the other
    // half.
    #[inline(always)]
    pub fn first(&self) -> Option<(Event<'a>, Source<'a>)>
        ensures { option_map (λ x. (view_event x.0, view_source x.1))
            result ≡ first_source self.now }
    {
        if let Some(message) = self.message() {
            return Some((message_event(self.kind, message), Source::Message(message)));
        }
        match self.alone() {
            Some((event, record)) => Some((event, Source::Record(record))),
            None => None,
        }
    }
}
