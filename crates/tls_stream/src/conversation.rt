//! Both sides of a TLS conversation, joined.
ghost use Rattle.std.specs.Prelude.{◌≡◌, List, IfOk, IsErr, OnOk};
ghost use Rattle.std.specs.Option.{option_map};
ghost use Rattle.tls_stream.specs.Item.{Event as EventSpec};
ghost use Rattle.tls_flow.specs.Table.{outcome_at};
ghost use Rattle.tls_stream.specs.Conversations.{IsBegun, IsFedBy, IsPieceFollowed, IsOutcomeOf, IsTakenBy, Drains, reader_of as side_reader_of, views};
ghost use Rattle.tls_stream.specs.Readers.{IsEventOf};
ghost use Rattle.tls_stream.specs.SideReaders.{IsReady, front_of};
ghost use Rattle.tls_stream.specs.FlowEvents.{view_stream_event};

use crate::conversation_reader::ConversationReader;
use crate::event_reader::DEFAULT_LIMIT;
use crate::flow_event::stream_event;
use crate::side_event::SideEvent;
use layouts::OutOfMemory;
use std::alloc::Global;
use tls_flow::{Direction, Flow, FlowEvent, Outcome};

/// A TLS conversation, fed with the pieces of both sides' streams in order of arrival.
#[derive(Drop)]
pub struct Conversation {
    reader: ConversationReader,
    flow: Flow,
}

impl Conversation {
    /// An empty conversation with the limit [`DEFAULT_LIMIT`]. It doesn't allocate.
    pub fn new(alloc: Global) -> Conversation
        ensures { IsBegun DEFAULT_LIMIT result }
    {
        Conversation::with_limit(alloc, DEFAULT_LIMIT)
    }

    /// An empty conversation whose handshake messages have bodies of at most `limit` bytes. It
    /// doesn't allocate.
    pub fn with_limit(alloc: Global, limit: usize) -> Conversation
        ensures { IsBegun limit result }
    {
        Conversation {
            reader: ConversationReader::with_limit(alloc, limit),
            flow: Flow::new(),
        }
    }

    /// The flow of the events so far: the state, and what stopped it.
    pub fn flow(&self) -> &Flow
        ensures { result.now ≡ self.now.flow }
    {
        &self.flow
    }

    /// The outcome of the events so far.
    pub fn outcome(&self) -> Outcome
        ensures { result ≡ outcome_at self.now.flow.state }
    {
        self.flow.outcome()
    }

    /// Appends a piece of the stream in this direction. The piece is dropped if that side is at
    /// fault. `OutOfMemory` if there is no memory for it: then nothing changes.
    pub fn feed(&mut self, side: Direction, piece: &[u8]) -> Result<(), OutOfMemory>
        ensures fed { OnOk result (IsFedBy self.old side piece.now self.new) }
        ensures ready { OnOk result (IsReady (side_reader_of self.new side)) }
        ensures memory { IsErr result → self.new ≡ self.old }
    {
        self.reader.feed(side, piece)
    }

    /// The side's next event, or its fault; `None` if more bytes are needed, or if the fault that
    /// ended the side was taken.
    pub fn front(&self, side: Direction) -> Option<SideEvent<'_>>
        ensures { option_map view_stream_event result ≡ front_of (side_reader_of self.now side) }
    {
        self.reader.front(side)
    }

    /// Removes the side's next event and follows `event` in its place, for a caller that has built
    /// the event already. Returns false, and changes nothing, if there is none.
    ///
    /// If it is the first message that chooses TLS 1.3, both sides are read as TLS 1.3 from there
    /// on.
    pub fn take_front_as(&mut self, side: Direction, event: FlowEvent) -> bool
        ensures taken { IsEventOf event side (front_of (side_reader_of self.old side))
            → IsTakenBy (front_of (side_reader_of self.old side)) self.old side result self.new }
        ensures ready { IsReady (side_reader_of self.old side)
            → IsReady (side_reader_of self.new side) }
    {
        if !self.reader.take_front(side, event) {
            return false;
        }
        self.flow.update(event);
        true
    }

    /// Removes the side's next event and follows it. Returns false, and changes nothing, if there
    /// is none.
    ///
    /// If it is the first message that chooses TLS 1.3, both sides are read as TLS 1.3 from there
    /// on.
    pub fn take_front(&mut self, side: Direction) -> bool
        ensures taken { IsTakenBy
            (front_of (side_reader_of self.old side)) self.old side result self.new }
        ensures ready { IsReady (side_reader_of self.old side)
            → IsReady (side_reader_of self.new side) }
    {
        let event = match self.front(side) {
            Some(sent) => stream_event(&sent, side),
            None => return false,
        };
        self.take_front_as(side, event)
    }

    /// Removes and follows every event that the side has.
    fn take_all(&mut self, side: Direction)
        requires { IsReady (side_reader_of self.old side) }
        ensures { (vs : List EventSpec) × Drains self.old side vs self.new }
    {
        'tls12: while !self.reader.is_tls13() {
            if !self.take_front(side) {
                return;
            }
        }
        'tls13: while self.take_front(side) {}
    }

    /// Appends a piece of that direction, then removes and follows every event that the side has.
    ///
    /// `OutOfMemory` if there is no memory for the piece: then nothing changes.
    pub fn follow_piece(&mut self, side: Direction, piece: &[u8]) -> Result<(), OutOfMemory>
        ensures followed { OnOk result (IsPieceFollowed self.old side piece.now self.new) }
        ensures memory { IsErr result → self.new ≡ self.old }
    {
        self.feed(side, piece)?;
        self.take_all(side);
        Ok(())
    }
}

/// The outcome of a conversation whose pieces arrive in this order, each with its direction. A
/// handshake message's body may have at most `limit` bytes.
///
/// It is the outcome of the events in both sides' bytes. `OutOfMemory` if there is no memory for a
/// piece.
pub fn outcome_of(
    alloc: Global,
    limit: usize,
    pieces: &[(Direction, &[u8])],
) -> Result<Outcome, OutOfMemory>
    ensures { IfOk result (λ o. IsOutcomeOf o limit (views pieces.now)) }
{
    let mut conversation = Conversation::with_limit(alloc, limit);
    for (side, piece) in pieces {
        conversation.follow_piece(*side, piece)?;
    }
    Ok(conversation.outcome())
}
