//! Counts of waiting segments that were dropped.
ghost use Rattle.std.specs.Prelude.{◌≡◌};
ghost use Rattle.tcp_acceptance.specs.Tally.{one_more as one_more_than, with_dropped, with_reasons};

use crate::segment::{DoubtfulSegment, Reasons, Side};

/// How many segments of a side were dropped, by the first of their reasons. The counts saturate at
/// 2^64 - 1.
#[derive(Clone, Copy, Debug, PartialEq, Eq)]
pub struct Counts {
    /// A checksum was wrong.
    pub checksum: u64,
    /// The signature was missing in the SYN.
    pub signature: u64,
    /// The timestamp was old.
    pub clock: u64,
    /// The acknowledged bytes weren't sent.
    pub acknowledgment: u64,
    /// The bytes were beyond the window.
    pub window: u64,
    /// The receiver hadn't answered.
    pub opening: u64,
}

/// How many segments of each side were dropped.
#[derive(Clone, Copy, Debug, PartialEq, Eq)]
pub struct Tally {
    /// Of the side that asked for the connection.
    pub originator: Counts,
    /// Of the other side.
    pub responder: Counts,
}

/// Returns a count plus one, saturating.
fn one_more(count: u64) -> u64
    ensures { result ≡ one_more_than count }
{
    count.saturating_add(1)
}

impl Counts {
    /// Counts a segment for the first of its reasons.
    fn add(&mut self, reasons: Reasons)
        ensures { self.new ≡ with_reasons reasons self.old }
    {
        if reasons.checksum {
            self.checksum = one_more(self.checksum);
        } else if reasons.signature {
            self.signature = one_more(self.signature);
        } else if reasons.clock {
            self.clock = one_more(self.clock);
        } else if reasons.acknowledgment {
            self.acknowledgment = one_more(self.acknowledgment);
        } else if reasons.window {
            self.window = one_more(self.window);
        } else if reasons.opening {
            self.opening = one_more(self.opening);
        }
    }
}

impl Tally {
    /// Counts a segment of its side.
    pub(crate) fn add(&mut self, segment: &DoubtfulSegment)
        ensures { self.new ≡ with_dropped segment.now self.old }
    {
        match segment.sender() {
            Side::Originator => self.originator.add(segment.reasons()),
            Side::Responder => self.responder.add(segment.reasons()),
        }
    }
}
