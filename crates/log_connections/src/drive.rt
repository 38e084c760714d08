//! What drives a log: [`Log::packet`] for each packet, and [`Log::finish`] at the end.
ghost use Rattle.std.specs.Prelude.{◌≡◌, ◌≤◌, ◌++◌, ⊤, false, true, [], IfErr, IfOk, OnErr, OnOk, is_some};
ghost use Rattle.std.specs.Option.{option_map};
ghost use Rattle.packets.specs.Section.{view_packet};
ghost use Rattle.arrivals.specs.Arrival.{five_tuple_in};
ghost use Rattle.arrivals.specs.Fragments.{counting_cut, fragment_in};
ghost use Rattle.connections.specs.Memory.{FitsClosed, IsAccounted, open_part, total};
ghost use Rattle.connections.specs.Table.{IsForgotten, NoneIsOver, NoneToForget, at};
ghost use Rattle.log_connections.specs.Found.{AreCounted, HasCut, IsCounted};
ghost use Rattle.log_connections.specs.Log.{uncounted};
ghost use Rattle.log_connections.specs.Packet.{Arrives, CountsArrival, CountsProcessed, Handles, HandlesBy, HandlesInside, IsLent, Lending, Processes, Stops, StopsArriving, StopsBy, StopsHandling, lent_at, lent_before, lent_by, lent_if, lent_in, lent_until, noted_if, passes_on};
ghost use Rattle.log_connections.specs.Reading.{HoldsFragment, HoldsInside, HoldsWhole};
ghost use Rattle.log_connections.specs.Sink.{Adds, EndsAfterRefusal, EndsRefused, IsOverLimit, IsIdle, IsOfSink, IsOpen, PassesAllButLast, PassesEnded, Receives, StaysSound, StopsAfterRefusal, StopsRefused, as_list};

use crate::analysis::{PieceCollector, TlsAnalysis};
use crate::found::add_connection;
use crate::log::Log;
use crate::sink::{LogError, Sink, hand_over, hand_pieces};
use arrivals::{Arrival, CompletedDatagram};
use connections::Connection;
use packets::Packet;
use tunnels::MAX_TUNNELS;

impl<K: PieceCollector> Log<K> {
    /// Processes the next packet of the capture, and passes the connections that are over by it to
    /// the sink: idle ones, the one that it ends or replaces, and the longest-idle ones while the
    /// connections exceed the memory limit. Then come the pieces that it completed.
    ///
    /// If the system refuses memory, the packet's connection and the longest-idle one are ended
    /// early. `OutOfMemory` if there is neither.
    pub fn packet<S: Sink<K>>(
        &mut self,
        packet: Packet<'_>,
        sink: &mut S,
    ) -> Result<(), LogError<S::Error>>
        ensures handled { OnOk result (Lending
            (Handles K.most_bytes (view_packet packet.entry) self.old.memory self.old.arrivals
            self.new.arrivals self.old.connections self.new.connections (S.received sink.old)
            (S.received sink.new)) (lent_by (passes_on self.old.kept))
            (S.lent sink.old) (S.lent sink.new)) }
        ensures stopped { IfErr result (λ error. Lending
            (StopsHandling K.most_bytes (view_packet packet.entry) self.old.memory
            self.old.arrivals error self.old.connections self.new.connections
            (S.received sink.old) (S.received sink.new)) (lent_before (passes_on self.old.kept))
            (S.lent sink.old) (S.lent sink.new)) }
        ensures accounted { IsAccounted self.old.connections
            → IsAccounted self.new.connections }
        ensures memory { self.new.memory ≡ self.old.memory }
        ensures kept { self.new.kept ≡ self.old.kept }
        ensures sound { StaysSound (S.is_sound sink.old) (S.is_sound sink.new) result }
    {
        if let Some(arrival) = self.arrivals.plain_arrival(packet) {
            return self.process(&arrival, sink);
        }
        self.other_packet(packet, sink)
    }

    /// Processes a packet that isn't plain TCP: tunnels, fragments, UDP. (Not inlined: its large
    /// locals are zeroed at entry.)
    #[inline(never)]
    fn other_packet<S: Sink<K>>(
        &mut self,
        packet: Packet<'_>,
        sink: &mut S,
    ) -> Result<(), LogError<S::Error>>
        ensures handled { OnOk result (Lending
            (Handles K.most_bytes (view_packet packet.entry) self.old.memory self.old.arrivals
            self.new.arrivals self.old.connections self.new.connections (S.received sink.old)
            (S.received sink.new)) (lent_by (passes_on self.old.kept))
            (S.lent sink.old) (S.lent sink.new)) }
        ensures stopped { IfErr result (λ error. Lending
            (StopsHandling K.most_bytes (view_packet packet.entry) self.old.memory
            self.old.arrivals error self.old.connections self.new.connections
            (S.received sink.old) (S.received sink.new)) (lent_before (passes_on self.old.kept))
            (S.lent sink.old) (S.lent sink.new)) }
        ensures accounted { IsAccounted self.old.connections
            → IsAccounted self.new.connections }
        ensures memory { self.new.memory ≡ self.old.memory }
        ensures kept { self.new.kept ≡ self.old.kept }
        ensures sound { StaysSound (S.is_sound sink.old) (S.is_sound sink.new) result }
    {
        match self.arrivals.arrival(packet)? {
            Some(arrival) => self.process(&arrival, sink),
            None if self.arrivals.has_fragment() => self.join_fragments(packet, sink),
            None => Ok(()),
        }
    }

    /// Processes the datagram that a packet's fragment completes, if it does.
    fn join_fragments<S: Sink<K>>(
        &mut self,
        packet: Packet<'_>,
        sink: &mut S,
    ) -> Result<(), LogError<S::Error>>
        ensures handled { OnOk result (Lending
            (HandlesBy K.most_bytes (HoldsFragment (view_packet packet.entry) self.old.arrivals)
            self.old.memory self.new.arrivals self.old.connections self.new.connections
            (S.received sink.old) (S.received sink.new)) (lent_by (passes_on self.old.kept))
            (S.lent sink.old) (S.lent sink.new)) }
        ensures stopped { IfErr result (λ error. Lending
            (StopsBy K.most_bytes (HoldsFragment (view_packet packet.entry) self.old.arrivals)
            (is_some (fragment_in (view_packet packet.entry)) ≡ true) self.old.memory error
            self.old.connections self.new.connections (S.received sink.old)
            (S.received sink.new)) (lent_before (passes_on self.old.kept))
            (S.lent sink.old) (S.lent sink.new)) }
        ensures accounted { IsAccounted self.old.connections
            → IsAccounted self.new.connections }
        ensures memory { self.new.memory ≡ self.old.memory }
        ensures kept { self.new.kept ≡ self.old.kept }
        ensures sound { StaysSound (S.is_sound sink.old) (S.is_sound sink.new) result }
    {
        let whole = self.arrivals.join(packet)?;
        self.process_joined(packet, whole, sink)
    }

    /// Processes a reassembled datagram. It may hold another fragment, in a tunnel.
    fn process_joined<S: Sink<K>>(
        &mut self,
        packet: Packet<'_>,
        joined: Option<CompletedDatagram>,
        sink: &mut S,
    ) -> Result<(), LogError<S::Error>>
        ensures handled { OnOk result (Lending
            (HandlesBy K.most_bytes
            (HoldsWhole (view_packet packet.entry) self.old.arrivals joined) self.old.memory
            self.new.arrivals self.old.connections self.new.connections (S.received sink.old)
            (S.received sink.new)) (lent_by (passes_on self.old.kept))
            (S.lent sink.old) (S.lent sink.new)) }
        ensures stopped { IfErr result (λ error. Lending
            (StopsBy K.most_bytes
            (HoldsWhole (view_packet packet.entry) self.old.arrivals joined)
            (is_some joined ≡ true) self.old.memory error self.old.connections
            self.new.connections (S.received sink.old) (S.received sink.new))
            (lent_before (passes_on self.old.kept)) (S.lent sink.old) (S.lent sink.new)) }
        ensures accounted { IsAccounted self.old.connections
            → IsAccounted self.new.connections }
        ensures memory { self.new.memory ≡ self.old.memory }
        ensures kept { self.new.kept ≡ self.old.kept }
        ensures sound { StaysSound (S.is_sound sink.old) (S.is_sound sink.new) result }
    {
        let mut whole = joined;
        'inside: for count in 0..MAX_TUNNELS + 1 {
            let Some(joined) = whole else {
                return Ok(());
            };
            if self.process_inside(packet, &joined, sink)? {
                return Ok(());
            }
            whole = self.arrivals.join_inner(&joined)?;
        }
        Ok(())
    }

    /// Processes what a reassembled datagram holds. Returns whether it holds a segment or datagram.
    fn process_inside<S: Sink<K>>(
        &mut self,
        packet: Packet<'_>,
        joined: &CompletedDatagram,
        sink: &mut S,
    ) -> Result<bool, LogError<S::Error>>
        ensures processed { IfOk result
            (λ holds_one. HandlesInside K.most_bytes (passes_on self.old.kept) holds_one
            (view_packet packet.entry) joined.now self.old.memory self.old.arrivals
            self.new.arrivals self.old.connections self.new.connections (S.received sink.old)
            (S.received sink.new) (S.lent sink.old) (S.lent sink.new)) }
        ensures stopped { IfErr result (λ error. Lending
            (StopsBy K.most_bytes
            (HoldsInside (view_packet packet.entry) joined.now self.old.arrivals) ⊤
            self.old.memory error self.old.connections self.new.connections
            (S.received sink.old) (S.received sink.new)) (lent_before (passes_on self.old.kept))
            (S.lent sink.old) (S.lent sink.new)) }
        ensures accounted { IsAccounted self.old.connections
            → IsAccounted self.new.connections }
        ensures memory { self.new.memory ≡ self.old.memory }
        ensures kept { self.new.kept ≡ self.old.kept }
        ensures sound { StaysSound (S.is_sound sink.old) (S.is_sound sink.new) result }
    {
        let Some(arrival) = self.arrivals.arrival_in(packet, joined)? else {
            return Ok(false);
        };
        let count = joined.disagreeing();
        let is_noted = self.note_disagreeing(&arrival, count);
        self.process(&arrival, sink)?;
        self.note_unless(is_noted, &arrival, count);
        Ok(true)
    }

    /// Adds a count of bytes that disagreed to the sender of an arrival, unless it is noted.
    fn note_unless(&mut self, is_noted: bool, arrival: &Arrival<'_>, count: u64)
        ensures noted { self.new.connections
            ≡ noted_if is_noted arrival.now count self.old.connections }
        ensures accounted { IsAccounted self.old.connections
            → IsAccounted self.new.connections }
        ensures memory { self.new.memory ≡ self.old.memory }
        ensures kept { self.new.kept ≡ self.old.kept }
        ensures arrivals { self.new.arrivals ≡ self.old.arrivals }
    {
        if !is_noted {
            self.note_disagreeing(arrival, count);
        }
    }

    /// Processes a segment or datagram, after the connections that timed out before it.
    fn process<S: Sink<K>>(
        &mut self,
        arrival: &Arrival<'_>,
        sink: &mut S,
    ) -> Result<(), LogError<S::Error>>
        ensures processed { OnOk result
            ((processes : Processes K.most_bytes arrival.now self.old.memory self.old.connections
            self.new.connections (S.received sink.old) (S.received sink.new))
            × CountsProcessed processes self.old.arrivals.counts self.new.arrivals.counts
            × Adds (S.lent sink.old) (S.lent sink.new)
            (lent_in (passes_on self.old.kept) processes.arrives)) }
        ensures stopped { IfErr result (λ error. Lending
            (Stops K.most_bytes arrival.now self.old.memory error self.old.connections
            self.new.connections (S.received sink.old) (S.received sink.new))
            (lent_until (passes_on self.old.kept)) (S.lent sink.old) (S.lent sink.new)) }
        ensures accounted { IsAccounted self.old.connections
            → IsAccounted self.new.connections }
        ensures memory { self.new.memory ≡ self.old.memory }
        ensures kept { self.new.kept ≡ self.old.kept }
        ensures reader { uncounted self.new.arrivals ≡ uncounted self.old.arrivals }
        ensures sound { StaysSound (S.is_sound sink.old) (S.is_sound sink.new) result }
    {
        self.end_idle(arrival.time(), sink)?;
        self.process_arrival(arrival, sink)?;
        self.evict(arrival.time(), sink)
    }

    /// Adds a segment or datagram to its connection. Passes the connection that is over by it to
    /// the sink, or else the pieces that it completed.
    fn process_arrival<S: Sink<K>>(
        &mut self,
        arrival: &Arrival<'_>,
        sink: &mut S,
    ) -> Result<(), LogError<S::Error>>
        ensures arrives { OnOk result
            ((arrives : Arrives K.most_bytes arrival.now self.old.connections self.new.connections
            (S.received sink.old) (S.received sink.new))
            × CountsArrival arrives self.old.arrivals.counts self.new.arrivals.counts
            × Adds (S.lent sink.old) (S.lent sink.new)
            (lent_in (passes_on self.old.kept) arrives)) }
        ensures stopped { IfErr result (λ error. Lending
            (StopsArriving K.most_bytes arrival.now error self.old.connections
            self.new.connections (S.received sink.old) (S.received sink.new))
            (lent_at (passes_on self.old.kept)) (S.lent sink.old) (S.lent sink.new)) }
        ensures accounted { IsAccounted self.old.connections
            → IsAccounted self.new.connections }
        ensures memory { self.new.memory ≡ self.old.memory }
        ensures kept { self.new.kept ≡ self.old.kept }
        ensures reader { uncounted self.new.arrivals ≡ uncounted self.old.arrivals }
        ensures sound { StaysSound (S.is_sound sink.old) (S.is_sound sink.new) result }
    {
        match self.accept(arrival) {
            Ok(Some(over)) => self.end_connection(over, arrival.time(), sink),
            Ok(None) => self.pass_pieces(arrival, sink),
            Err(refused) => self.end_after(arrival, refused.over, sink),
        }
    }

    /// Counts a connection that is over, and passes it to the sink.
    fn end_connection<S: Sink<K>>(
        &mut self,
        over: Box<Connection<TlsAnalysis<K>>>,
        time: u64,
        sink: &mut S,
    ) -> Result<(), LogError<S::Error>>
        ensures received { Receives (S.received sink.old) (S.received sink.new) result over.value }
        ensures lent { Adds (S.lent sink.old) (S.lent sink.new) [] }
        ensures counted { IsCounted over.value self.old.arrivals.counts self.new.arrivals.counts }
        ensures same { self.new ≡ record self.old
            { arrivals = self.new.arrivals; spare = self.new.spare } }
        ensures reader { uncounted self.new.arrivals ≡ uncounted self.old.arrivals }
        ensures failed { IfErr result (λ error. IsOfSink error) }
        ensures sound { StaysSound (S.is_sound sink.old) (S.is_sound sink.new) result }
    {
        add_connection(&mut self.arrivals.counts, &over);
        hand_over(over, time, sink)?;
        let _ = self.spare();
        Ok(())
    }

    /// Ends the connections that timed out by this time.
    fn end_idle<S: Sink<K>>(&mut self, time: u64, sink: &mut S) -> Result<(), LogError<S::Error>>
        ensures ended { OnOk result
            ((ended : PassesEnded false (IsIdle time) self.old.connections.live
            self.new.connections.live (S.received sink.old) (S.received sink.new))
            × AreCounted ended.outs self.old.arrivals.counts self.new.arrivals.counts) }
        ensures none { OnOk result (NoneIsOver time self.new.connections.live) }
        ensures stopped { OnErr result
            (PassesAllButLast false (IsIdle time) self.old.connections.live
            self.new.connections.live
            (S.received sink.old) (S.received sink.new)) }
        ensures lent { Adds (S.lent sink.old) (S.lent sink.new) [] }
        ensures failed { IfErr result (λ error. IsOfSink error) }
        ensures forgotten { IsForgotten time self.old.connections.closed
            self.new.connections.closed }
        ensures none_to_forget { OnOk result (NoneToForget time self.new.connections.closed) }
        ensures accounted { IsAccounted self.old.connections
            → IsAccounted self.new.connections }
        ensures memory { self.new.memory ≡ self.old.memory }
        ensures kept { self.new.kept ≡ self.old.kept }
        ensures reader { uncounted self.new.arrivals ≡ uncounted self.old.arrivals }
        ensures sound { StaysSound (S.is_sound sink.old) (S.is_sound sink.new) result }
    {
        while let Some(over) = self.take_over(time) {
            let last = over.last_time;
            self.end_connection(over, last, sink)?;
        }
        Ok(())
    }

    /// Passes the pieces that an arrival completed to the sink, if messages or certificates are
    /// kept.
    fn pass_pieces<S: Sink<K>>(
        &mut self,
        arrival: &Arrival<'_>,
        sink: &mut S,
    ) -> Result<(), LogError<S::Error>>
        ensures received { Adds (S.received sink.old) (S.received sink.new) [] }
        ensures lends { Adds (S.lent sink.old) (S.lent sink.new)
            (lent_if (passes_on self.old.kept)
            (at (five_tuple_in arrival.now) self.old.connections.live)) }
        ensures lent { IsLent (five_tuple_in arrival.now)
            (at (five_tuple_in arrival.now) self.old.connections.live) self.old.connections
            self.new.connections }
        ensures accounted { IsAccounted self.old.connections
            → IsAccounted self.new.connections }
        ensures memory { self.new.memory ≡ self.old.memory }
        ensures kept { self.new.kept ≡ self.old.kept }
        ensures arrivals { self.new.arrivals ≡ self.old.arrivals }
        ensures failed { IfErr result (λ error. IsOfSink error) }
        ensures sound { StaysSound (S.is_sound sink.old) (S.is_sound sink.new) result }
    {
        if !self.passes_pieces() {
            return Ok(());
        }
        match self.connections.get_mut(&arrival.between()) {
            Some(open) => hand_pieces(open, arrival.time(), sink),
            None => Ok(()),
        }
    }

    /// Ends the longest-idle connections until the rest fit the memory limit.
    fn evict<S: Sink<K>>(&mut self, time: u64, sink: &mut S) -> Result<(), LogError<S::Error>>
        ensures ended { OnOk result
            ((ended : PassesEnded true (IsOverLimit self.old.connections self.old.memory)
            self.old.connections.live self.new.connections.live
            (S.received sink.old) (S.received sink.new))
            × AreCounted ended.outs self.old.arrivals.counts self.new.arrivals.counts) }
        ensures stopped { OnErr result
            (PassesAllButLast true (IsOverLimit self.old.connections self.old.memory)
            self.old.connections.live self.new.connections.live
            (S.received sink.old) (S.received sink.new)) }
        ensures lent { Adds (S.lent sink.old) (S.lent sink.new) [] }
        ensures failed { IfErr result (λ error. IsOfSink error) }
        ensures closed { OnOk result (FitsClosed self.old.memory self.old.connections.closed
            self.new.connections.closed) }
        ensures accounted { IsAccounted self.old.connections
            → IsAccounted self.new.connections }
        ensures memory { self.new.memory ≡ self.old.memory }
        ensures kept { self.new.kept ≡ self.old.kept }
        ensures reader { uncounted self.new.arrivals ≡ uncounted self.old.arrivals }
        ensures within { OnOk result (IsAccounted self.old.connections
            → total self.new.connections.live ≤ open_part self.old.memory) }
        ensures sound { StaysSound (S.is_sound sink.old) (S.is_sound sink.new) result }
    {
        while let Some(over) = self.take_evicted() {
            self.end_connection(over, time, sink)?;
        }
        Ok(())
    }

    /// Ends a connection that was removed, and returns whether there was one.
    fn end_removed<S: Sink<K>>(
        &mut self,
        removed: Option<Box<Connection<TlsAnalysis<K>>>>,
        time: u64,
        sink: &mut S,
    ) -> Result<bool, LogError<S::Error>>
        ensures received { OnOk result (Adds (S.received sink.old) (S.received sink.new)
            (as_list (option_map (λ b. b.value) removed))) }
        ensures counted { AreCounted (as_list (option_map (λ b. b.value) removed))
            self.old.arrivals.counts self.new.arrivals.counts }
        ensures was { IfOk result (λ was_one. was_one ≡ is_some removed) }
        ensures stopped { OnErr result (is_some removed ≡ true
            × Adds (S.received sink.old) (S.received sink.new) []) }
        ensures lent { Adds (S.lent sink.old) (S.lent sink.new) [] }
        ensures failed { IfErr result (λ error. IsOfSink error) }
        ensures same { self.new ≡ record self.old
            { arrivals = self.new.arrivals; spare = self.new.spare } }
        ensures reader { uncounted self.new.arrivals ≡ uncounted self.old.arrivals }
        ensures sound { StaysSound (S.is_sound sink.old) (S.is_sound sink.new) result }
    {
        match removed {
            Some(over) => {
                self.end_connection(over, time, sink)?;
                Ok(true)
            }
            None => Ok(false),
        }
    }

    /// Ends the connection that another one replaced before memory was refused for an arrival, and
    /// those that end then.
    fn end_after<S: Sink<K>>(
        &mut self,
        arrival: &Arrival<'_>,
        over: Option<Box<Connection<TlsAnalysis<K>>>>,
        sink: &mut S,
    ) -> Result<(), LogError<S::Error>>
        ensures ended { OnOk result
            ((ended : EndsAfterRefusal (five_tuple_in arrival.now)
            (option_map (λ b. b.value) over) self.old.connections.live self.new.connections.live
            (S.received sink.old) (S.received sink.new))
            × AreCounted (as_list (option_map (λ b. b.value) over)
            ++ (as_list ended.2.own ++ as_list ended.2.oldest))
            self.old.arrivals.counts self.new.arrivals.counts) }
        ensures stopped { IfErr result
            (λ error. StopsAfterRefusal (five_tuple_in arrival.now)
            (option_map (λ b. b.value) over) self.old.connections self.new.connections
            (S.received sink.old) (S.received sink.new) error) }
        ensures lent { Adds (S.lent sink.old) (S.lent sink.new) [] }
        ensures accounted { IsAccounted self.old.connections
            → IsAccounted self.new.connections }
        ensures memory { self.new.memory ≡ self.old.memory }
        ensures kept { self.new.kept ≡ self.old.kept }
        ensures reader { uncounted self.new.arrivals ≡ uncounted self.old.arrivals }
        ensures sound { StaysSound (S.is_sound sink.old) (S.is_sound sink.new) result }
    {
        self.end_removed(over, arrival.time(), sink)?;
        self.end_refused(arrival, sink)
    }

    /// Ends the connection of an arrival that memory was refused for, and the longest-idle one.
    /// Without either, memory ran out.
    fn end_refused<S: Sink<K>>(
        &mut self,
        arrival: &Arrival<'_>,
        sink: &mut S,
    ) -> Result<(), LogError<S::Error>>
        ensures ended { OnOk result
            ((ended : EndsRefused (five_tuple_in arrival.now) self.old.connections.live
            self.new.connections.live (S.received sink.old) (S.received sink.new))
            × AreCounted (as_list ended.own ++ as_list ended.oldest)
            self.old.arrivals.counts self.new.arrivals.counts) }
        ensures stopped { IfErr result
            (λ error. StopsRefused (five_tuple_in arrival.now) self.old.connections.live
            self.new.connections.live (S.received sink.old) (S.received sink.new) error) }
        ensures lent { Adds (S.lent sink.old) (S.lent sink.new) [] }
        ensures accounted { IsAccounted self.old.connections
            → IsAccounted self.new.connections }
        ensures memory { self.new.memory ≡ self.old.memory }
        ensures kept { self.new.kept ≡ self.old.kept }
        ensures reader { uncounted self.new.arrivals ≡ uncounted self.old.arrivals }
        ensures sound { StaysSound (S.is_sound sink.old) (S.is_sound sink.new) result }
    {
        let time = arrival.time();
        let own = self.take_refused(arrival);
        let has_own = self.end_removed(own, time, sink)?;
        let oldest = self.take_oldest();
        let has_oldest = self.end_removed(oldest, time, sink)?;
        if !has_own && !has_oldest {
            return Err(LogError::OutOfMemory);
        }
        Ok(())
    }

    /// Passes the connections that are still open to the sink, the longest-idle one first. Call it
    /// at the end of the capture.
    pub fn finish<S: Sink<K>>(&mut self, sink: &mut S) -> Result<(), LogError<S::Error>>
        ensures ended { OnOk result
            ((ended : PassesEnded false IsOpen self.old.connections.live
            self.new.connections.live (S.received sink.old) (S.received sink.new))
            × AreCounted ended.outs (counting_cut self.old.arrivals).counts
            self.new.arrivals.counts) }
        ensures none { OnOk result (self.new.connections.live ≡ []) }
        ensures cut { HasCut self.old.arrivals self.new.arrivals.counts }
        ensures stopped { OnErr result
            (PassesAllButLast false IsOpen self.old.connections.live self.new.connections.live
            (S.received sink.old) (S.received sink.new)) }
        ensures lent { Adds (S.lent sink.old) (S.lent sink.new) [] }
        ensures failed { IfErr result (λ error. IsOfSink error) }
        ensures sound { StaysSound (S.is_sound sink.old) (S.is_sound sink.new) result }
        ensures accounted { IsAccounted self.old.connections
            → IsAccounted self.new.connections }
    {
        self.arrivals.count_cut();
        while let Some(over) = self.take_remaining() {
            let last = over.last_time;
            self.end_connection(over, last, sink)?;
        }
        Ok(())
    }
}
