//! Counts the segments that no connection takes, and bytes that disagreed in fragments.
ghost use Rattle.std.specs.Prelude.{◌≡◌, IfOk, is_some};
ghost use Rattle.std.specs.Option.{option_map};
ghost use Rattle.arrivals.specs.Arrival.{five_tuple_in};
ghost use Rattle.connections.specs.Connection.{side_of};
ghost use Rattle.connections.specs.Memory.{IsAccounted};
ghost use Rattle.connections.specs.Segment.{five_tuple_of};
ghost use Rattle.connections.specs.Table.{at};
ghost use Rattle.log_connections.specs.Log.{EndsAfter, KeepsOthers, counting, disagreeing_from, stray_unless, with_disagreeing, with_dropped, with_stray};

use crate::analysis::{PieceCollector, TlsAnalysis};
use crate::log::Log;
use arrivals::{Arrival, add_one};
use connections::{Checksum, Connection, DropReason, End, Segment, Side};
use std::alloc::AllocError;

/// Counts bytes that disagreed in the fragments of a packet of this sender.
fn count_disagreeing<K: PieceCollector>(
    connection: &mut Connection<TlsAnalysis<K>>,
    sender: End,
    count: u64,
)
    ensures { connection.new
        ≡ disagreeing_from (side_of connection.old sender) count connection.old }
{
    match connection.side_of(sender) {
        Side::Originator => connection.from_originator.add_disagreeing(count),
        Side::Responder => connection.from_responder.add_disagreeing(count),
    }
}

impl<K: PieceCollector> Log<K> {
    /// Counts a segment that belongs to no connection, as damaged or stray. (The last
    /// acknowledgement of a closed connection loses nothing.)
    pub(crate) fn count_stray(&mut self, segment: &Segment<'_>)
        ensures { self.new ≡ record self.old
            { arrivals = counting (with_stray segment.now) self.old.arrivals } }
    {
        if segment.checksum == Checksum::Refused {
            add_one(&mut self.arrivals.counts.damaged);
        } else if segment.has_data() {
            add_one(&mut self.arrivals.counts.stray_segments);
        }
    }

    /// Counts a segment as damaged if its checksum is the reason against it.
    pub(crate) fn count_dropped(&mut self, reason: DropReason)
        ensures { self.new ≡ record self.old
            { arrivals = counting (with_dropped reason) self.old.arrivals } }
    {
        if reason == DropReason::Checksum {
            add_one(&mut self.arrivals.counts.damaged);
        }
    }

    /// Adds a count of bytes that disagreed in a datagram's fragments to the sender of the arrival
    /// inside, if its connection is open. Returns whether it is.
    pub(crate) fn note_disagreeing(&mut self, arrival: &Arrival<'_>, count: u64) -> bool
        ensures noted { self.new.connections
            ≡ with_disagreeing arrival.now count self.old.connections }
        ensures is_open { result
            ≡ is_some (at (five_tuple_in arrival.now) self.old.connections.live) }
        ensures accounted { IsAccounted self.old.connections
            → IsAccounted self.new.connections }
        ensures memory { self.new.memory ≡ self.old.memory }
        ensures kept { self.new.kept ≡ self.old.kept }
        ensures arrivals { self.new.arrivals ≡ self.old.arrivals }
    {
        let Some(connection) = self.connections.get_mut(&arrival.between()) else {
            return false;
        };
        count_disagreeing(connection, arrival.source(), count);
        true
    }

    /// Removes and returns the connection of an analyzed segment if it is closed. A segment without
    /// a connection is counted.
    pub(crate) fn end_or_count(
        &mut self,
        segment: &Segment<'_>,
        analysis: Option<bool>,
    ) -> Result<Option<Box<Connection<TlsAnalysis<K>>>>, AllocError>
        ensures ended { IfOk result (λ over. EndsAfter analysis segment.now self.old.connections
            self.new.connections (option_map (λ b. b.value) over)) }
        ensures others { KeepsOthers (five_tuple_of segment.now) self.old.connections.live
            self.new.connections.live }
        ensures unsettled { self.new.is_unsettled ≡ self.old.is_unsettled }
        ensures accounted { IsAccounted self.old.connections
            → IsAccounted self.new.connections }
        ensures memory { self.new.memory ≡ self.old.memory }
        ensures kept { self.new.kept ≡ self.old.kept }
        ensures counted { self.new.arrivals
            ≡ counting (stray_unless (is_some analysis) segment.now) self.old.arrivals }
    {
        match analysis {
            Some(_) => self.end_analyzed(segment, analysis),
            None => {
                self.count_stray(segment);
                Ok(None)
            }
        }
    }
}
