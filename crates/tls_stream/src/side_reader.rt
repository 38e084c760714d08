//! One side of a conversation.
ghost use Rattle.std.specs.Prelude.{◌≡◌, IsErr, OnOk};
ghost use Rattle.std.specs.Option.{option_map};
ghost use Rattle.tls_stream.specs.SideReaders.{IsFed, IsReady, IsSilent, IsTaken, ReadsAs, front_of, switched};
ghost use Rattle.tls_stream.specs.FlowEvents.{view_stream_event};

use crate::event_reader::EventReader;
use crate::fault::Fault;
use crate::side_event::SideEvent;
use layouts::OutOfMemory;
use std::alloc::Global;

/// Whether a side goes on.
#[derive(Clone, Copy)]
pub(crate) enum Standing {
    /// More events may come.
    Active,
    /// Its next event is this fault, and the last.
    AtFault(Fault),
    /// No more events come.
    Over,
}

/// One side of a conversation, with its fragments joined up to its next event.
#[derive(Drop)]
pub(crate) struct SideReader {
    direction: EventReader,
    standing: Standing,
}

impl SideReader {
    /// A side without any bytes read. It doesn't allocate.
    pub(crate) fn new(alloc: Global, limit: usize) -> SideReader
        ensures { IsSilent limit result }
    {
        SideReader {
            direction: EventReader::with_limit(alloc, limit),
            standing: Standing::Active,
        }
    }

    /// Joins fragments up to the next event.
    fn settle(&mut self)
        ensures same { ReadsAs self.old self.new }
        ensures ready { IsReady self.new }
    {
        if let Standing::Active = self.standing {
            if let Err(fault) = self.direction.ready() {
                self.standing = Standing::AtFault(fault);
            }
        }
    }

    /// Appends the piece, unless the side is at fault. `OutOfMemory` if there is no memory for it:
    /// then nothing changes.
    #[tactic(auto, using(crate::proofs::SideReaderLemmas::reader_rules))]
    pub(crate) fn feed(&mut self, piece: &[u8]) -> Result<(), OutOfMemory>
        ensures fed { OnOk result (IsFed self.old piece.now self.new) }
        ensures ready { OnOk result (IsReady self.new) }
        ensures memory { IsErr result → self.new ≡ self.old }
    {
        if let Standing::Active = self.standing {
            self.direction.feed(piece)?;
            self.settle();
        }
        Ok(())
    }

    /// The next event, or the fault.
    pub(crate) fn front(&self) -> Option<SideEvent<'_>>
        ensures { option_map view_stream_event result ≡ front_of self.now }
    {
        match self.standing {
            Standing::Active => match self.direction.front() {
                Some(event) => Some(SideEvent::Event(event)),
                None => None,
            },
            Standing::AtFault(fault) => Some(SideEvent::Fault(fault)),
            Standing::Over => None,
        }
    }

    /// Removes the next event. Returns false if there is none.
    pub(crate) fn take_front(&mut self) -> bool
        ensures taken { IsTaken (front_of self.old) self.old result self.new }
        ensures ready { IsReady self.old → IsReady self.new }
    {
        match self.standing {
            Standing::Active => {
                let taken = self.direction.take_front();
                if taken {
                    self.settle();
                }
                taken
            }
            Standing::AtFault(_) => {
                self.standing = Standing::Over;
                true
            }
            Standing::Over => false,
        }
    }

    /// Switches the side to TLS 1.3.
    pub(crate) fn switch_to_tls13(&mut self)
        ensures same { ReadsAs (switched self.old) self.new }
        ensures ready { IsReady self.new }
    {
        self.direction.switch_to_tls13();
        self.settle();
    }
}
