//! The stream of a direction that isn't at fault.
ghost use Rattle.std.specs.Prelude.{◌≡◌, is_ok, if◌then◌else◌};
ghost use Rattle.std.specs.Option.{option_map};
ghost use Rattle.tls_stream.specs.Stream.{FirstTaken, IsReady, ReadsTheSame, fed, first, silent, switched_to_tls13};
ghost use Rattle.tls_stream.specs.Item.{view_event};

use crate::event::Event;
use crate::fault::Fault;
use crate::stream_buffer::StreamBuffer;
use crate::view::{Next, Source, StreamView};
use layouts::OutOfMemory;
use std::alloc::Global;

/// The bytes of a direction's stream that were fed and not yet taken as events.
#[derive(Drop)]
pub struct Stream {
    limit: usize,
    is_tls13: bool,
    has_changed: bool,
    // The content type of the fragments that the part is joined from.
    kind: u8,
    held: StreamBuffer,
}

impl Stream {
    /// An empty stream whose handshake messages have bodies of at most `limit` bytes.
    pub fn new(alloc: Global, limit: usize) -> Self
        ensures { result ≡ silent limit }
    {
        Stream {
            limit,
            is_tls13: false,
            has_changed: false,
            kind: 22,
            held: StreamBuffer::new(alloc),
        }
    }

    /// Switches the stream to TLS 1.3.
    pub fn switch_to_tls13(&mut self)
        ensures { self.new ≡ switched_to_tls13 self.old }
    {
        self.is_tls13 = true;
    }

    /// Appends the piece. `OutOfMemory` if there is no memory for it: then nothing changes.
    pub fn feed(&mut self, piece: &[u8]) -> Result<(), OutOfMemory>
        ensures { self.new ≡ (if is_ok result then fed self.old piece.now else self.old) }
    {
        self.held.append(piece)?;
        Ok(())
    }

    /// A view of the stream, which decides what comes next.
    fn view(&self) -> StreamView<'_>
        ensures { result ≡ self.now }
    {
        StreamView {
            limit: self.limit,
            is_tls13: self.is_tls13,
            has_changed: self.has_changed,
            kind: self.kind,
            part: self.held.part(),
            unread: self.held.unread(),
        }
    }

    /// Joins fragments until an event is available: true; or false if more bytes are needed. An
    /// `Err` is the fault that is the next event and the last, whatever is fed.
    pub fn ready(&mut self) -> Result<bool, Fault>
        ensures same { ReadsTheSame self.new self.old }
        ensures next { IsReady self.new result }
    {
        'fragments: loop {
            match self.view().next() {
                Next::Ready => return Ok(true),
                Next::Waits => return Ok(false),
                Next::Fails(fault) => return Err(fault),
                Next::Joins(kind, len) => {
                    self.held.join(len);
                    self.kind = kind;
                }
            }
        }
    }

    /// The next event, once [`Stream::ready`] has returned true.
    #[tactic(auto, using(crate::proofs::SourceLemmas::source_rules))]
    pub fn front(&self) -> Option<Event<'_>>
        ensures { option_map view_event result ≡ option_map (λ x. x.0) (first self.now) }
    {
        match self.view().first() {
            Some((event, _)) => Some(event),
            None => None,
        }
    }

    /// Removes the next event. Returns false, and changes nothing, if there is none.
    #[tactic(auto, using(crate::proofs::SourceLemmas::source_rules))]
    pub fn take_front(&mut self) -> bool
        ensures { FirstTaken (first self.old) self.old result self.new }
    {
        match self.view().first() {
            Some((_, Source::Message(message))) => {
                let n = message.len();
                self.held.take_part(n);
                true
            }
            Some((_, Source::Record(record))) => {
                let (n, changes) = (record.len(), record[0] == 20);
                self.held.take_unread(n);
                self.has_changed |= changes;
                true
            }
            None => false,
        }
    }
}
