//! One direction of a TLS conversation.
ghost use Rattle.std.specs.Prelude.{◌≡◌, IsOk, IsSome, is_ok, if◌then◌else◌};
ghost use Rattle.std.specs.Option.{option_map};
ghost use Rattle.tls_stream.specs.Stream.{FirstTaken};
ghost use Rattle.tls_stream.specs.Events.{IsReady, ReadsTheSame, fault_in, fed, first, silent, switched_to_tls13};
ghost use Rattle.tls_stream.specs.Item.{view_event};

use crate::event::Event;
use crate::fault::Fault;
use crate::stream::Stream;
use layouts::OutOfMemory;
use std::alloc::Global;

/// The default limit for the body of a handshake message, in bytes.
pub const DEFAULT_LIMIT: usize = 131_072;

/// One direction of a conversation: the bytes of its stream that were fed and not yet taken as
/// events.
///
/// The events depend on the bytes alone, not on how these are cut into pieces or how messages are
/// cut into records. A handshake message becomes an event once it is whole.
#[derive(Drop)]
pub struct EventReader {
    stream: Stream,
    // The fault that ended it.
    fault: Option<Fault>,
}

impl EventReader {
    /// An empty direction with the limit [`DEFAULT_LIMIT`]. It doesn't allocate.
    pub fn new(alloc: Global) -> Self
        ensures { result ≡ silent DEFAULT_LIMIT }
    {
        EventReader::with_limit(alloc, DEFAULT_LIMIT)
    }

    /// An empty direction whose handshake messages have bodies of at most `limit` bytes. It doesn't
    /// allocate.
    pub fn with_limit(alloc: Global, limit: usize) -> Self
        ensures { result ≡ silent limit }
    {
        EventReader {
            stream: Stream::new(alloc, limit),
            fault: None,
        }
    }

    /// Switches the direction to TLS 1.3. Call it after the ServerHello or HelloRetryRequest that
    /// chooses TLS 1.3, before the next event is read. From here on records of application data are
    /// encrypted, and a ChangeCipherSpec only serves middleboxes (RFC 8446, section D.4).
    pub fn switch_to_tls13(&mut self)
        ensures { self.new ≡ switched_to_tls13 self.old }
    {
        self.stream.switch_to_tls13();
    }

    /// Appends a piece of the stream. Once [`EventReader::ready`] has returned a fault, the piece
    /// is dropped and the call returns `Ok`.
    ///
    /// `OutOfMemory` if there is no memory for the piece: then nothing changes.
    pub fn feed(&mut self, piece: &[u8]) -> Result<(), OutOfMemory>
        ensures held { self.new ≡ (if is_ok result then fed self.old piece.now else self.old) }
        ensures ended { IsSome self.old.fault → IsOk result }
    {
        if self.fault.is_some() {
            return Ok(());
        }
        self.stream.feed(piece)
    }

    /// Joins fragments until an event is available: true; or false if more bytes are needed. The
    /// events stay the same, and so do those still to come.
    ///
    /// An `Err` is the fault that ends the direction: it is the next event and the last, whatever
    /// is fed. The buffered bytes stay, and every later call returns the same fault.
    pub fn ready(&mut self) -> Result<bool, Fault>
        ensures same { ReadsTheSame self.new self.old }
        ensures next { IsReady self.new result }
        ensures ended { self.new.fault ≡ fault_in result }
    {
        if let Some(fault) = self.fault {
            return Err(fault);
        }
        match self.stream.ready() {
            Ok(is_ready) => Ok(is_ready),
            Err(fault) => {
                self.fault = Some(fault);
                Err(fault)
            }
        }
    }

    /// The next event, once [`EventReader::ready`] has returned true; `None` if it returned false
    /// or a fault.
    #[tactic(auto, using(crate::proofs::DirectionLemmas::front_before))]
    pub fn front(&self) -> Option<Event<'_>>
        ensures { option_map view_event result ≡ option_map (λ x. x.0) (first self.now) }
    {
        match self.fault {
            Some(_) => None,
            None => self.stream.front(),
        }
    }

    /// Removes the next event. Returns false, and changes nothing, if there is none.
    pub fn take_front(&mut self) -> bool
        ensures { FirstTaken (first self.old) self.old result self.new }
    {
        if self.fault.is_some() {
            return false;
        }
        self.stream.take_front()
    }
}
