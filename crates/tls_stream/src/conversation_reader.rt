//! Both sides of a TLS conversation, read event by event.
ghost use Rattle.std.specs.Prelude.{◌≡◌, IsErr, OnOk};
ghost use Rattle.std.specs.Option.{option_map};
ghost use Rattle.tls_stream.specs.Readers.{IsBegun, IsEventOf, IsFedBy, IsSwitched, IsTakenBy, reader_of as side_reader_of};
ghost use Rattle.tls_stream.specs.SideReaders.{IsReady, front_of};
ghost use Rattle.tls_stream.specs.FlowEvents.{view_stream_event};

use crate::event_reader::DEFAULT_LIMIT;
use crate::flow_event::chooses_tls13;
use crate::side_event::SideEvent;
use crate::side_reader::SideReader;
use layouts::OutOfMemory;
use std::alloc::Global;
use tls_flow::{Direction, FlowEvent};

/// Both sides of a TLS conversation, fed with the pieces of their streams in order of arrival and
/// read event by event.
///
/// It follows no handshake, for a caller that does: a [`Conversation`](crate::Conversation) is this
/// reader with a [`tls_flow::Flow`].
#[derive(Drop)]
pub struct ConversationReader {
    client: SideReader,
    server: SideReader,
    is_tls13: bool,
}

impl ConversationReader {
    /// A reader of two empty sides with the limit [`DEFAULT_LIMIT`]. It doesn't allocate.
    pub fn new(alloc: Global) -> ConversationReader
        ensures { IsBegun DEFAULT_LIMIT result }
    {
        ConversationReader::with_limit(alloc, DEFAULT_LIMIT)
    }

    /// A reader of two empty sides whose handshake messages have bodies of at most `limit` bytes.
    /// It doesn't allocate.
    pub fn with_limit(alloc: Global, limit: usize) -> ConversationReader
        ensures { IsBegun limit result }
    {
        ConversationReader {
            client: SideReader::new(alloc, limit),
            server: SideReader::new(alloc, limit),
            is_tls13: false,
        }
    }

    /// Whether an event that was taken chooses TLS 1.3.
    pub fn is_tls13(&self) -> bool
        ensures { result ≡ self.now.is_tls13 }
    {
        self.is_tls13
    }

    /// Appends a piece of the stream in this direction. The piece is dropped if that side is at
    /// fault. `OutOfMemory` if there is no memory for it: then nothing changes.
    pub fn feed(&mut self, side: Direction, piece: &[u8]) -> Result<(), OutOfMemory>
        ensures fed { OnOk result (IsFedBy self.old side piece.now self.new) }
        ensures ready { OnOk result (IsReady (side_reader_of self.new side)) }
        ensures memory { IsErr result → self.new ≡ self.old }
    {
        match side {
            Direction::ToServer => self.client.feed(piece),
            Direction::FromServer => self.server.feed(piece),
        }
    }

    /// The side's next event, or its fault; `None` if more bytes are needed, or if the fault that
    /// ended the side was taken.
    pub fn front(&self, side: Direction) -> Option<SideEvent<'_>>
        ensures { option_map view_stream_event result ≡ front_of (side_reader_of self.now side) }
    {
        match side {
            Direction::ToServer => self.client.front(),
            Direction::FromServer => self.server.front(),
        }
    }

    /// Switches both sides to TLS 1.3 if this is the first event that chooses it.
    fn switch_at(&mut self, event: FlowEvent)
        ensures { IsSwitched self.old event self.new }
    {
        if !self.is_tls13 && chooses_tls13(&event) {
            self.client.switch_to_tls13();
            self.server.switch_to_tls13();
            self.is_tls13 = true;
        }
    }

    /// Removes the side's next event, whose flow event is `event`. Returns false, and changes
    /// nothing, if there is none.
    ///
    /// If it is the first message that chooses TLS 1.3, both sides are read as TLS 1.3 from there
    /// on.
    pub fn take_front(&mut self, side: Direction, event: FlowEvent) -> bool
        ensures taken { IsEventOf event side (front_of (side_reader_of self.old side))
            → IsTakenBy (front_of (side_reader_of self.old side)) self.old side result self.new }
        ensures ready { IsReady (side_reader_of self.old side)
            → IsReady (side_reader_of self.new side) }
    {
        let is_taken = match side {
            Direction::ToServer => self.client.take_front(),
            Direction::FromServer => self.server.take_front(),
        };
        if !is_taken {
            return false;
        }
        self.switch_at(event);
        true
    }
}
