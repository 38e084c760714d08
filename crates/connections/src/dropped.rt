//! Counts of dropped packets.
ghost use Rattle.std.specs.Prelude.{◌≡◌};
ghost use Rattle.connections.specs.Dropped.{none_dropped, has_reason, with_damaged, with_dropped};

use crate::receiver::DropReason;

/// How many packets of a side its receiver dropped, and why.
#[derive(Clone, Copy, Debug, PartialEq, Eq)]
pub struct Dropped {
    /// The number of packets; it saturates at 2^64 - 1.
    pub packets: u64,
    checksum: bool,
    no_ack: bool,
    acknowledgment: bool,
    window: bool,
    clock: bool,
    signature: bool,
    syn: bool,
    reset: bool,
    fin: bool,
}

impl Dropped {
    /// Returns the count of nothing.
    pub(crate) fn new() -> Dropped
        ensures { result ≡ none_dropped }
    {
        Dropped {
            packets: 0,
            checksum: false,
            no_ack: false,
            acknowledgment: false,
            window: false,
            clock: false,
            signature: false,
            syn: false,
            reset: false,
            fin: false,
        }
    }

    /// Counts one packet, dropped for this reason.
    pub(crate) fn add(&mut self, reason: DropReason)
        ensures { self.new ≡ with_dropped reason self.old }
    {
        self.packets = self.packets.saturating_add(1);
        match reason {
            DropReason::Checksum => self.checksum = true,
            DropReason::NoAck => self.no_ack = true,
            DropReason::Acknowledgment => self.acknowledgment = true,
            DropReason::Window => self.window = true,
            DropReason::Clock => self.clock = true,
            DropReason::Signature => self.signature = true,
            DropReason::Syn => self.syn = true,
            DropReason::Reset => self.reset = true,
            DropReason::Fin => self.fin = true,
        }
    }

    /// Counts this many packets with a wrong checksum.
    pub(crate) fn add_damaged(&mut self, packets: u64)
        ensures { self.new ≡ with_damaged packets self.old }
    {
        if packets > 0 {
            self.packets = self.packets.saturating_add(packets);
            self.checksum = true;
        }
    }

    /// Returns whether a packet was dropped for this reason.
    pub fn has(&self, reason: DropReason) -> bool
        ensures { result ≡ has_reason self.now reason }
    {
        match reason {
            DropReason::Checksum => self.checksum,
            DropReason::NoAck => self.no_ack,
            DropReason::Acknowledgment => self.acknowledgment,
            DropReason::Window => self.window,
            DropReason::Clock => self.clock,
            DropReason::Signature => self.signature,
            DropReason::Syn => self.syn,
            DropReason::Reset => self.reset,
            DropReason::Fin => self.fin,
        }
    }
}
