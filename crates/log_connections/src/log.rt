//! What a capture's arrivals add to the log.
ghost use Rattle.std.specs.Prelude.{◌≡◌, ◌≤◌, ◌-◌, ◌^◌, [], IfErr, IfNone, IfOk, IfSome, OnErr, OnOk, Some, None, false, is_some, true, vec_capacity};
ghost use Rattle.std.specs.Option.{option_map};
ghost use Rattle.arrivals.specs.Arrival.{five_tuple_in};
ghost use Rattle.arrivals.specs.Reader.{IsNew};
ghost use Rattle.connections.specs.Connection.{lets_in, side_of};
ghost use Rattle.connections.specs.Memory.{IsAccounted};
ghost use Rattle.connections.specs.Segment.{begins, five_tuple_of};
ghost use Rattle.connections.specs.Table.{belongs, with_dropped_segment, with_waiting_segment};
ghost use Rattle.log_connections.specs.Analysis.{AnalyzesNext, AnalyzesOn, IsPrepared};
ghost use Rattle.log_connections.specs.Log.{Accepts, AcceptsBy, AcceptsJudged, AcceptsSegment, EndsAfter, EndsClosed, IsWeighedUnless, AnalyzesAllAcknowledged, AnalyzesOne, AnalyzesPending, AnalyzesSide, IsClosedAs, IsReceived, KeepsOthers, Logs, LogsOpen, Refuses, RefusesIf, RefusesInAnother, RefusesSegment, Settles, Takes, TakesAnew, TakesBehind, TakesIn, TakesInAnother, WhereBegun, WhereJudged, WhereReceived, WhereSegment, WhereWeighed, counting, is_closed_in, verdict_in, with_arrival, with_dropped, with_judged, with_segment, with_verdict, AnalyzesSender, IsPreparedIf, IsReady, is_received};
ghost use Rattle.log_connections.specs.Packet.{passes_on};
ghost use Rattle.log_connections.specs.declared.memory.TheConstants.{SPARE};

use crate::analysis::{PieceCollector, PieceKind, TlsAnalysis};
use crate::following::follow_front;
use crate::memory::SPARE;
use arrivals::{Arrival, ArrivalReader};
use connections::{
    Connection, Connections, DropReason, FiveTuple, Judgement, MAX_PENDING, PendingOutcome,
    PendingSegment, Segment, Side, Stream, Verdict,
};
use std::alloc::{AllocError, Global};
use std::hash::RandomState;
use tls_summary::CertificateCache;
use tunnels::Tunnels;

/// The log of one capture, with its open connections.
#[derive(Drop)]
pub struct Log<K> {
    pub(crate) alloc: Global,
    pub(crate) connections: Connections<TlsAnalysis<K>>,
    // The pieces of connections that are kept until they are taken.
    pub(crate) kept: Option<PieceKind>,
    // The memory limit for connections in bytes, and whether the accounted memory of the last
    // arrival's connection may have changed.
    pub(crate) memory: usize,
    pub(crate) is_unsettled: bool,
    // Memory that is freed when the system refuses more, so that connections can be ended.
    pub(crate) spare: Vec<u8>,
    // The latest certificates of all connections, whose digests aren't computed again.
    pub(crate) known: CertificateCache,
    /// Finds the arrival of each packet, and counts.
    pub arrivals: ArrivalReader,
}

/// The system refused memory for an arrival.
#[derive(Drop)]
pub(crate) struct Refused<K> {
    /// The connection that another one replaced before, if one did. It was removed.
    pub(crate) over: Option<Box<Connection<TlsAnalysis<K>>>>,
}

impl<K> From<AllocError> for Refused<K> {
    ghost use Rattle.std.specs.Prelude.{◌≡◌, None};

    ghost from_gives = { λ _ r. r ≡ record { over = None } };

    fn from(_e: AllocError) -> Refused<K> {
        Refused { over: None }
    }
}

/// What happened to a segment.
enum Reception {
    /// Its connection analyzed it, and is closed or not.
    Received(bool),
    /// Its connection didn't change; this is its verdict.
    Judged(Verdict),
    /// There is no open connection.
    NoneOpen,
}

/// Analyzes the next bytes of a side's stream, on both sides of an urgent byte.
#[inline(always)]
fn analyze_next<K: PieceCollector>(
    analysis: &mut TlsAnalysis<K>,
    stream: &mut Stream,
    side: Side,
    is_opened: bool,
    known: &mut CertificateCache,
) -> Result<(), AllocError>
    ensures { OnOk result
        (AnalyzesNext side is_opened stream.old stream.new analysis.old analysis.new) }
{
    analysis.analyze_stream(stream, side, is_opened, false, known)?;
    if stream.pass_urgent() {
        analysis.analyze_stream(stream, side, is_opened, false, known)?;
    }
    Ok(())
}

/// Analyzes the next bytes of a side's stream. In a stream that is analyzed no further, counts the
/// segment's records.
#[inline(always)]
pub(crate) fn analyze_side<K: PieceCollector>(
    analysis: &mut TlsAnalysis<K>,
    stream: &mut Stream,
    side: Side,
    is_opened: bool,
    segment: &Segment<'_>,
    known: &mut CertificateCache,
) -> Result<(), AllocError>
    ensures { OnOk result
        (AnalyzesOn side is_opened segment.now stream.old stream.new analysis.old analysis.new) }
{
    analyze_next(analysis, stream, side, is_opened, known)?;
    if segment.has_data() {
        analysis.count_records(side, stream.pass(segment));
    }
    Ok(())
}

/// Analyzes the next bytes of the segment's sender. Keeps the pieces if they are to be taken.
#[inline(always)]
fn analyze_sender<K: PieceCollector>(
    connection: &mut Connection<TlsAnalysis<K>>,
    segment: &Segment<'_>,
    kept: Option<PieceKind>,
    tunnels: &Tunnels,
    known: &mut CertificateCache,
) -> Result<(), AllocError>
    ensures analysis { OnOk result
        (AnalyzesSender (IsPrepared tunnels.now kept) segment.now
        (side_of connection.old segment.now.source) connection.old connection.new) }
    ensures weight { connection.new.weight ≡ connection.old.weight }
{
    let (side, is_opened) = (connection.side_of(segment.source), connection.has_opening());
    let analysis = &mut connection.attachment;
    analysis.prepare(tunnels, kept)?;
    match side {
        Side::Originator => {
            let stream = &mut connection.from_originator;
            analyze_side(analysis, stream, side, is_opened, segment, known)
        }
        Side::Responder => {
            let stream = &mut connection.from_responder;
            analyze_side(analysis, stream, side, is_opened, segment, known)
        }
    }
}

/// Follows the dialogue in front of TLS by the data of a segment, if one goes on, and analyzes the
/// next bytes of its sender.
#[inline(always)]
fn analyze<K: PieceCollector>(
    connection: &mut Connection<TlsAnalysis<K>>,
    segment: &Segment<'_>,
    kept: Option<PieceKind>,
    tunnels: &Tunnels,
    known: &mut CertificateCache,
) -> Result<(), AllocError>
    ensures prepared { OnOk result
        (AnalyzesSide (IsPrepared tunnels.now kept) segment.now
        (side_of connection.old segment.now.source) connection.old connection.new) }
    ensures analysis { OnOk result
        (AnalyzesSide IsReady segment.now (side_of connection.old segment.now.source)
        connection.old connection.new) }
    ensures weight { connection.new.weight ≡ connection.old.weight }
{
    follow_front(connection, segment, known)?;
    analyze_sender(connection, segment, kept, tunnels, known)
}

impl<K: PieceCollector> Log<K> {
    /// Returns a log for a new capture. `keys` keys the hashes of its tables. Pieces of connections
    /// of the kind `kept` are kept until they are taken.
    pub fn new(
        alloc: Global,
        keys: RandomState,
        kept: Option<PieceKind>,
    ) -> Result<Log<K>, AllocError>
        ensures empty { IfOk result
            (λ log. log.connections ≡ record { live = []; closed = []; held = 0 }) }
        ensures kept { IfOk result (λ log. log.kept ≡ kept) }
        ensures memory { IfOk result (λ log. log.memory ≡ 2 ^ 64 - 1) }
        ensures arrivals { IfOk result (λ log. IsNew log.arrivals) }
        ensures reserve { IfOk result (λ log. SPARE ≤ vec_capacity log.spare) }
    {
        Ok(Log {
            alloc,
            connections: Connections::new(alloc, keys)?,
            kept,
            memory: usize::MAX,
            is_unsettled: false,
            spare: Vec::with_capacity(alloc, SPARE)?,
            known: CertificateCache::new(alloc),
            arrivals: ArrivalReader::new(alloc, keys)?,
        })
    }

    /// Adds an arrival to its connection and analyzes the bytes that it completes. Removes and
    /// returns a connection that is over then.
    ///
    /// [`Refused`] if there is no memory for it. [`Log::take_refused`] then ends its connection.
    pub(crate) fn accept(
        &mut self,
        arrival: &Arrival<'_>,
    ) -> Result<Option<Box<Connection<TlsAnalysis<K>>>>, Refused<K>>
        ensures accepted { IfOk result
            (λ over. Accepts K.most_bytes arrival.now self.old.connections
            self.new.connections (option_map (λ b. b.value) over)) }
        ensures refused { IfErr result (λ refused. Refuses arrival.now self.old.connections
            self.new.connections (option_map (λ b. b.value) refused.over)) }
        ensures others { KeepsOthers (five_tuple_in arrival.now) self.old.connections.live
            self.new.connections.live }
        ensures accounted { IsAccounted self.old.connections
            → IsAccounted self.new.connections }
        ensures memory { self.new.memory ≡ self.old.memory }
        ensures kept { self.new.kept ≡ self.old.kept }
        ensures counted { self.new.arrivals
            ≡ counting (with_arrival arrival.now self.old.connections) self.old.arrivals }
    {
        self.is_unsettled = false;
        let over = self.analyze_arrival(arrival)?;
        self.settle(arrival);
        Ok(over)
    }

    /// Updates the memory that is accounted for an arrival's connection, if that may have changed.
    fn settle(&mut self, arrival: &Arrival<'_>)
        ensures settled { Settles K.most_bytes self.old.is_unsettled (five_tuple_in arrival.now)
            self.old.connections self.new.connections }
        ensures accounted { IsAccounted self.old.connections
            → IsAccounted self.new.connections }
        ensures memory { self.new.memory ≡ self.old.memory }
        ensures kept { self.new.kept ≡ self.old.kept }
        ensures arrivals { self.new.arrivals ≡ self.old.arrivals }
    {
        if !self.is_unsettled {
            return;
        }
        self.connections.settle(&arrival.between());
    }

    /// Adds an arrival to its connection and analyzes it, and notes whether the accounted memory
    /// may have changed.
    fn analyze_arrival(
        &mut self,
        arrival: &Arrival<'_>,
    ) -> Result<Option<Box<Connection<TlsAnalysis<K>>>>, Refused<K>>
        ensures taken { IfOk result (λ over. Takes arrival.now self.old.connections
            self.new.connections (option_map (λ b. b.value) over)) }
        ensures refused { IfErr result (λ refused. Refuses arrival.now self.old.connections
            self.new.connections (option_map (λ b. b.value) refused.over)) }
        ensures others { KeepsOthers (five_tuple_in arrival.now) self.old.connections.live
            self.new.connections.live }
        ensures weighed { IfOk result (λ over. WhereWeighed arrival.now self.old.connections
            (option_map (λ b. b.value) over) (IsWeighedUnless K.most_bytes self.new.is_unsettled
            (five_tuple_in arrival.now) self.new.connections)) }
        ensures accounted { IsAccounted self.old.connections
            → IsAccounted self.new.connections }
        ensures memory { self.new.memory ≡ self.old.memory }
        ensures kept { self.new.kept ≡ self.old.kept }
        ensures counted { self.new.arrivals
            ≡ counting (with_arrival arrival.now self.old.connections) self.old.arrivals }
    {
        match arrival {
            Arrival::Segment(segment) => self.accept_segment(segment),
            Arrival::Datagram(datagram) => self.accept_user_datagram(datagram),
        }
    }

    /// Adds the segment to its connection and analyzes the bytes that it completes. Returns whether
    /// both sides closed the connection, or `None` if the segment belongs to none.
    fn analyze_segment(&mut self, segment: &Segment<'_>) -> Result<Option<bool>, AllocError>
        ensures logged { IfOk result
            (λ analyzed. Logs (is_some analyzed) segment.now self.old.connections
            self.new.connections) }
        ensures prepared { IfOk result
            (λ analyzed. IsPreparedIf (is_some analyzed)
            (IsPrepared self.old.arrivals.tunnels self.old.kept) segment.now
            self.old.connections self.new.connections) }
        ensures belongs { IfOk result
            (λ analyzed. is_some analyzed ≡ belongs segment.now self.old.connections) }
        ensures closed { IfOk result (λ analyzed. IfSome analyzed
            (λ closed. closed ≡ is_closed_in segment.now self.new.connections)) }
        ensures others { KeepsOthers (five_tuple_of segment.now) self.old.connections.live
            self.new.connections.live }
        ensures weighed { OnOk result (IsWeighedUnless K.most_bytes self.new.is_unsettled
            (five_tuple_of segment.now) self.new.connections) }
        ensures accounted { IsAccounted self.old.connections
            → IsAccounted self.new.connections }
        ensures memory { self.new.memory ≡ self.old.memory }
        ensures kept { self.new.kept ≡ self.old.kept }
        ensures arrivals { self.new.arrivals ≡ self.old.arrivals }
    {
        // (mostly there is a connection already, which is looked up once)
        if let Some(connection) = self.connections.get_first_mut(&segment.between()) {
            connection.accept(self.alloc, segment)?;
            analyze(
                connection,
                segment,
                self.kept,
                &self.arrivals.tunnels,
                &mut self.known,
            )?;
            self.is_unsettled = connection.changed_weight().is_some();
            return Ok(Some(connection.is_closed()));
        }
        self.analyze_first(segment)
    }

    /// Adds a segment that may begin a connection, and analyzes the bytes that it completes.
    fn analyze_first(&mut self, segment: &Segment<'_>) -> Result<Option<bool>, AllocError>
        ensures logged { IfOk result
            (λ analyzed. Logs (is_some analyzed) segment.now self.old.connections
            self.new.connections) }
        ensures prepared { IfOk result
            (λ analyzed. IsPreparedIf (is_some analyzed)
            (IsPrepared self.old.arrivals.tunnels self.old.kept) segment.now
            self.old.connections self.new.connections) }
        ensures belongs { IfOk result
            (λ analyzed. is_some analyzed ≡ belongs segment.now self.old.connections) }
        ensures refused { OnErr result (belongs segment.now self.old.connections ≡ true) }
        ensures closed { IfOk result (λ analyzed. IfSome analyzed
            (λ closed. closed ≡ is_closed_in segment.now self.new.connections)) }
        ensures others { KeepsOthers (five_tuple_of segment.now) self.old.connections.live
            self.new.connections.live }
        ensures weighed { OnOk result (IsWeighedUnless K.most_bytes self.new.is_unsettled
            (five_tuple_of segment.now) self.new.connections) }
        ensures accounted { IsAccounted self.old.connections
            → IsAccounted self.new.connections }
        ensures memory { self.new.memory ≡ self.old.memory }
        ensures kept { self.new.kept ≡ self.old.kept }
        ensures arrivals { self.new.arrivals ≡ self.old.arrivals }
    {
        if !self.connections.accept(segment)? {
            return Ok(None);
        }
        match self.connections.get_mut(&segment.between()) {
            Some(connection) => {
                analyze(
                    connection,
                    segment,
                    self.kept,
                    &self.arrivals.tunnels,
                    &mut self.known,
                )?;
                self.is_unsettled = connection.changed_weight().is_some();
                Ok(Some(connection.is_closed()))
            }
            None => Ok(None),
        }
    }

    /// Adds a pending segment that its receiver took to the stream of its connection, and analyzes
    /// the bytes that it completes.
    fn analyze_pending(
        &mut self,
        five_tuple: &FiveTuple,
        kept: &PendingSegment,
    ) -> Result<(), AllocError>
        ensures prepared { OnOk result
            (AnalyzesPending (IsPrepared self.old.arrivals.tunnels self.old.kept) five_tuple.now
            kept.now self.old.connections self.new.connections) }
        ensures analysis { OnOk result
            (AnalyzesPending IsReady five_tuple.now kept.now self.old.connections
            self.new.connections) }
        ensures others { KeepsOthers five_tuple.now self.old.connections.live
            self.new.connections.live }
        ensures accounted { IsAccounted self.old.connections
            → IsAccounted self.new.connections }
        ensures memory { self.new.memory ≡ self.old.memory }
        ensures kept { self.new.kept ≡ self.old.kept }
        ensures arrivals { self.new.arrivals ≡ self.old.arrivals }
    {
        let Some(connection) = self.connections.get_first_mut(five_tuple) else {
            return Ok(());
        };
        connection.accept_pending(self.alloc, kept)?;
        analyze(
            connection,
            &kept.segment(),
            self.kept,
            &self.arrivals.tunnels,
            &mut self.known,
        )
    }

    /// Analyzes the pending segments that this segment acknowledges.
    fn analyze_acknowledged(&mut self, segment: &Segment<'_>) -> Result<(), AllocError>
        ensures analysis { OnOk result
            (AnalyzesAllAcknowledged segment.now self.old.connections self.new.connections) }
        ensures others { KeepsOthers (five_tuple_of segment.now) self.old.connections.live
            self.new.connections.live }
        ensures accounted { IsAccounted self.old.connections
            → IsAccounted self.new.connections }
        ensures memory { self.new.memory ≡ self.old.memory }
        ensures kept { self.new.kept ≡ self.old.kept }
        ensures arrivals { self.new.arrivals ≡ self.old.arrivals }
    {
        self.is_unsettled = true;
        'waiting: for count in 0..MAX_PENDING {
            if !self.analyze_one_acknowledged(segment)? {
                return Ok(());
            }
        }
        Ok(())
    }

    /// Removes a pending segment that this segment acknowledges, and analyzes it if its receiver
    /// took it. Returns whether there was one.
    fn analyze_one_acknowledged(&mut self, segment: &Segment<'_>) -> Result<bool, AllocError>
        ensures analysis { IfOk result
            (λ was_one. AnalyzesOne segment.now self.old.connections self.new.connections was_one) }
        ensures others { KeepsOthers (five_tuple_of segment.now) self.old.connections.live
            self.new.connections.live }
        ensures accounted { IsAccounted self.old.connections
            → IsAccounted self.new.connections }
        ensures memory { self.new.memory ≡ self.old.memory }
        ensures kept { self.new.kept ≡ self.old.kept }
        ensures arrivals { self.new.arrivals ≡ self.old.arrivals }
    {
        match self.connections.take_pending(segment) {
            Some(PendingOutcome::Taken(kept)) => {
                self.analyze_pending(&segment.between(), &kept)?;
                Ok(true)
            }
            Some(PendingOutcome::Had) => Ok(true),
            None => Ok(false),
        }
    }

    /// Adds a segment that its receiver takes to its connection, and removes and returns that if it
    /// is closed then.
    fn take_segment(
        &mut self,
        segment: &Segment<'_>,
    ) -> Result<Option<Box<Connection<TlsAnalysis<K>>>>, AllocError>
        ensures taken { IfOk result (λ over. TakesIn segment.now self.old.connections
            self.new.connections (option_map (λ b. b.value) over)) }
        ensures others { KeepsOthers (five_tuple_of segment.now) self.old.connections.live
            self.new.connections.live }
        ensures weighed { IfOk result (λ over. IfNone (option_map (λ b. b.value) over)
            (IsWeighedUnless K.most_bytes self.new.is_unsettled
            (five_tuple_of segment.now) self.new.connections)) }
        ensures accounted { IsAccounted self.old.connections
            → IsAccounted self.new.connections }
        ensures memory { self.new.memory ≡ self.old.memory }
        ensures kept { self.new.kept ≡ self.old.kept }
        ensures arrivals { self.new.arrivals ≡ self.old.arrivals }
    {
        let analysis = self.analyze_segment(segment)?;
        self.end_analyzed(segment, analysis)
    }

    /// Removes and returns the connection of an analyzed segment if it is closed.
    pub(crate) fn end_analyzed(
        &mut self,
        segment: &Segment<'_>,
        analysis: Option<bool>,
    ) -> Result<Option<Box<Connection<TlsAnalysis<K>>>>, AllocError>
        ensures ended { IfOk result (λ over. EndsAfter analysis segment.now self.old.connections
            self.new.connections (option_map (λ b. b.value) over)) }
        ensures others { KeepsOthers (five_tuple_of segment.now) self.old.connections.live
            self.new.connections.live }
        ensures unsettled { self.new.is_unsettled ≡ self.old.is_unsettled }
        ensures accounted { IsAccounted self.old.connections
            → IsAccounted self.new.connections }
        ensures memory { self.new.memory ≡ self.old.memory }
        ensures kept { self.new.kept ≡ self.old.kept }
        ensures arrivals { self.new.arrivals ≡ self.old.arrivals }
    {
        match analysis {
            Some(true) => self.take_closed(segment),
            Some(false) => Ok(None),
            None => Ok(None),
        }
    }

    /// Removes and returns the connection that a segment closed.
    fn take_closed(
        &mut self,
        segment: &Segment<'_>,
    ) -> Result<Option<Box<Connection<TlsAnalysis<K>>>>, AllocError>
        ensures ended { IfOk result (λ over. EndsClosed segment.now self.old.connections
            self.new.connections (option_map (λ b. b.value) over)) }
        ensures others { KeepsOthers (five_tuple_of segment.now) self.old.connections.live
            self.new.connections.live }
        ensures unsettled { self.new.is_unsettled ≡ self.old.is_unsettled }
        ensures accounted { IsAccounted self.old.connections
            → IsAccounted self.new.connections }
        ensures memory { self.new.memory ≡ self.old.memory }
        ensures kept { self.new.kept ≡ self.old.kept }
        ensures arrivals { self.new.arrivals ≡ self.old.arrivals }
    {
        let taken = self.connections.take_closed(segment)?;
        Ok(self.with_last(taken))
    }

    /// Removes and returns the connection that another one replaces, and analyzes the segment in
    /// that.
    fn take_replaced(
        &mut self,
        segment: &Segment<'_>,
    ) -> Result<Option<Box<Connection<TlsAnalysis<K>>>>, Refused<K>>
        ensures replaced { IfOk result (λ over. TakesInAnother segment.now self.old.connections
            self.new.connections (option_map (λ b. b.value) over)) }
        ensures refused { IfErr result (λ refused. RefusesInAnother segment.now
            self.old.connections self.new.connections (option_map (λ b. b.value) refused.over)) }
        ensures others { KeepsOthers (five_tuple_of segment.now) self.old.connections.live
            self.new.connections.live }
        ensures weighed { OnOk result (IsWeighedUnless K.most_bytes self.new.is_unsettled
            (five_tuple_of segment.now) self.new.connections) }
        ensures accounted { IsAccounted self.old.connections
            → IsAccounted self.new.connections }
        ensures memory { self.new.memory ≡ self.old.memory }
        ensures kept { self.new.kept ≡ self.old.kept }
        ensures arrivals { self.new.arrivals ≡ self.old.arrivals }
    {
        let taken = self.connections.take_replaced(segment)?;
        let over = self.with_last(taken);
        match self.analyze_segment(segment) {
            Ok(_) => Ok(over),
            Err(_) => Err(Refused { over }),
        }
    }

    /// Adds a segment that its receiver takes to its open connection, and analyzes the bytes that
    /// it completes. If something has to be done first, nothing changes. The connection is looked
    /// up once, and looks at the segment once.
    fn analyze_open(&mut self, segment: &Segment<'_>) -> Result<Reception, AllocError>
        ensures logged { IfOk result
            (λ reception. LogsOpen reception segment.now self.old.connections
            self.new.connections) }
        ensures prepared { IfOk result
            (λ reception. IsPreparedIf (is_received reception)
            (IsPrepared self.old.arrivals.tunnels self.old.kept) segment.now
            self.old.connections self.new.connections) }
        ensures judged { IfOk result
            (λ reception. IsReceived reception (verdict_in segment.now self.old.connections)) }
        ensures refused { OnErr result
            (option_map lets_in (verdict_in segment.now self.old.connections) ≡ Some true) }
        ensures closed { IfOk result
            (λ reception. IsClosedAs reception (is_closed_in segment.now self.new.connections)) }
        ensures others { KeepsOthers (five_tuple_of segment.now) self.old.connections.live
            self.new.connections.live }
        ensures weighed { IfOk result (λ reception. WhereReceived reception
            (IsWeighedUnless K.most_bytes self.new.is_unsettled
            (five_tuple_of segment.now) self.new.connections) segment.now) }
        ensures accounted { IsAccounted self.old.connections
            → IsAccounted self.new.connections }
        ensures memory { self.new.memory ≡ self.old.memory }
        ensures kept { self.new.kept ≡ self.old.kept }
        ensures arrivals { self.new.arrivals ≡ self.old.arrivals }
    {
        let five_tuple = segment.between();
        let Some(connection) = self.connections.get_mut(&five_tuple) else {
            return Ok(Reception::NoneOpen);
        };
        if let Some(verdict) = connection.accept_or_judge(self.alloc, segment)? {
            return Ok(Reception::Judged(verdict));
        }
        analyze(
            connection,
            segment,
            self.kept,
            &self.arrivals.tunnels,
            &mut self.known,
        )?;
        // (without data the memory doesn't grow)
        self.is_unsettled = segment.has_data() && connection.changed_weight().is_some();
        let is_closed = connection.is_closed();
        self.connections.promote(&five_tuple);
        Ok(Reception::Received(is_closed))
    }

    /// Processes a TCP segment by what its receiver does with it. Removes and returns its
    /// connection if it is closed then.
    fn accept_segment(
        &mut self,
        segment: &Segment<'_>,
    ) -> Result<Option<Box<Connection<TlsAnalysis<K>>>>, Refused<K>>
        ensures accepted { IfOk result (λ over. AcceptsSegment segment.now self.old.connections
            self.new.connections (option_map (λ b. b.value) over)) }
        ensures refused { IfErr result (λ refused. RefusesSegment segment.now self.old.connections
            self.new.connections (option_map (λ b. b.value) refused.over)) }
        ensures others { KeepsOthers (five_tuple_of segment.now) self.old.connections.live
            self.new.connections.live }
        ensures weighed { IfOk result (λ over. WhereSegment (option_map (λ b. b.value) over)
            (IsWeighedUnless K.most_bytes self.new.is_unsettled
            (five_tuple_of segment.now) self.new.connections)
            (verdict_in segment.now self.old.connections) segment.now) }
        ensures counted { self.new.arrivals ≡ counting (with_segment
            (verdict_in segment.now self.old.connections)
            (belongs segment.now self.old.connections) segment.now) self.old.arrivals }
        ensures accounted { IsAccounted self.old.connections
            → IsAccounted self.new.connections }
        ensures memory { self.new.memory ≡ self.old.memory }
        ensures kept { self.new.kept ≡ self.old.kept }
    {
        match self.analyze_open(segment)? {
            Reception::Received(false) => Ok(None),
            Reception::Received(true) => Ok(self.take_closed(segment)?),
            Reception::NoneOpen => {
                let analysis = self.analyze_first(segment)?;
                Ok(self.end_or_count(segment, analysis)?)
            }
            Reception::Judged(verdict) => self.accept_by(segment, verdict),
        }
    }

    /// Processes a segment by its connection's verdict, when it isn't simply taken.
    fn accept_by(
        &mut self,
        segment: &Segment<'_>,
        verdict: Verdict,
    ) -> Result<Option<Box<Connection<TlsAnalysis<K>>>>, Refused<K>>
        ensures accepted { IfOk result (λ over. AcceptsBy verdict segment.now self.old.connections
            self.new.connections (option_map (λ b. b.value) over)) }
        ensures refused { IfErr result (λ refused. RefusesIf verdict.shows_damage
            verdict.begins_another segment.now self.old.connections self.new.connections
            (option_map (λ b. b.value) refused.over)) }
        ensures others { KeepsOthers (five_tuple_of segment.now) self.old.connections.live
            self.new.connections.live }
        ensures weighed { IfOk result (λ over. WhereBegun (option_map (λ b. b.value) over)
            (IsWeighedUnless K.most_bytes self.new.is_unsettled
            (five_tuple_of segment.now) self.new.connections)
            verdict.shows_damage verdict.begins_another verdict.judgement segment.now) }
        ensures counted { self.new.arrivals
            ≡ counting (with_verdict verdict) self.old.arrivals }
        ensures accounted { IsAccounted self.old.connections
            → IsAccounted self.new.connections }
        ensures memory { self.new.memory ≡ self.old.memory }
        ensures kept { self.new.kept ≡ self.old.kept }
    {
        if verdict.shows_damage {
            return Ok(self.take_anew(segment)?);
        }
        if verdict.begins_another {
            return self.take_replaced(segment);
        }
        Ok(self.accept_judged(segment, verdict.judgement, verdict.acknowledges)?)
    }

    /// Restarts the connection of a segment, since everything before it was damaged, and analyzes
    /// the segment.
    fn take_anew(
        &mut self,
        segment: &Segment<'_>,
    ) -> Result<Option<Box<Connection<TlsAnalysis<K>>>>, AllocError>
        ensures taken { IfOk result (λ over. TakesAnew segment.now self.old.connections
            self.new.connections (option_map (λ b. b.value) over)) }
        ensures others { KeepsOthers (five_tuple_of segment.now) self.old.connections.live
            self.new.connections.live }
        ensures weighed { IfOk result (λ over. IfNone (option_map (λ b. b.value) over)
            (IsWeighedUnless K.most_bytes self.new.is_unsettled
            (five_tuple_of segment.now) self.new.connections)) }
        ensures accounted { IsAccounted self.old.connections
            → IsAccounted self.new.connections }
        ensures memory { self.new.memory ≡ self.old.memory }
        ensures kept { self.new.kept ≡ self.old.kept }
        ensures arrivals { self.new.arrivals ≡ self.old.arrivals }
    {
        self.connections.restart(segment);
        self.take_segment(segment)
    }

    /// Processes a segment by what its receiver does with it. It `acknowledges` if it may
    /// acknowledge pending segments.
    fn accept_judged(
        &mut self,
        segment: &Segment<'_>,
        judgement: Judgement,
        acknowledges: bool,
    ) -> Result<Option<Box<Connection<TlsAnalysis<K>>>>, AllocError>
        ensures accepted { IfOk result (λ over. AcceptsJudged judgement acknowledges segment.now
            self.old.connections self.new.connections (option_map (λ b. b.value) over)) }
        ensures others { KeepsOthers (five_tuple_of segment.now) self.old.connections.live
            self.new.connections.live }
        ensures weighed { IfOk result (λ over. WhereJudged (option_map (λ b. b.value) over)
            (IsWeighedUnless K.most_bytes self.new.is_unsettled
            (five_tuple_of segment.now) self.new.connections)
            judgement segment.now) }
        ensures counted { self.new.arrivals
            ≡ counting (with_judged judgement) self.old.arrivals }
        ensures accounted { IsAccounted self.old.connections
            → IsAccounted self.new.connections }
        ensures memory { self.new.memory ≡ self.old.memory }
        ensures kept { self.new.kept ≡ self.old.kept }
    {
        match judgement {
            Judgement::Dropped(reason) => {
                self.drop_segment(segment, reason)?;
                Ok(None)
            }
            Judgement::Waiting(reason) => {
                self.keep_waiting(segment, reason)?;
                Ok(None)
            }
            Judgement::Taken => self.take_behind(segment, acknowledges),
            Judgement::Again => self.take_behind(segment, acknowledges),
        }
    }

    /// Counts a segment that its receiver drops for this reason.
    fn drop_segment(&mut self, segment: &Segment<'_>, reason: DropReason) -> Result<(), AllocError>
        ensures dropped { OnOk result
            (self.new.connections ≡ with_dropped_segment reason segment.now self.old.connections) }
        ensures others { KeepsOthers (five_tuple_of segment.now) self.old.connections.live
            self.new.connections.live }
        ensures due { self.new.is_unsettled ≡ begins segment.now }
        ensures damaged { self.new.arrivals
            ≡ counting (with_dropped reason) self.old.arrivals }
        ensures accounted { IsAccounted self.old.connections
            → IsAccounted self.new.connections }
        ensures memory { self.new.memory ≡ self.old.memory }
        ensures kept { self.new.kept ≡ self.old.kept }
    {
        self.count_dropped(reason);
        self.is_unsettled = segment.begins();
        self.connections.drop_segment(segment, reason)
    }

    /// Keeps a segment until its receiver shows whether it took it, or counts it as dropped for
    /// this reason. A wrong checksum counts as one, whichever it is.
    fn keep_waiting(&mut self, segment: &Segment<'_>, reason: DropReason) -> Result<(), AllocError>
        ensures waits { OnOk result
            (self.new.connections ≡ with_waiting_segment reason segment.now self.old.connections) }
        ensures others { KeepsOthers (five_tuple_of segment.now) self.old.connections.live
            self.new.connections.live }
        ensures due { self.new.is_unsettled ≡ true }
        ensures damaged { self.new.arrivals
            ≡ counting (with_dropped reason) self.old.arrivals }
        ensures accounted { IsAccounted self.old.connections
            → IsAccounted self.new.connections }
        ensures memory { self.new.memory ≡ self.old.memory }
        ensures kept { self.new.kept ≡ self.old.kept }
    {
        self.count_dropped(reason);
        self.is_unsettled = true;
        self.connections.wait(segment, reason)
    }

    /// Analyzes a segment, behind the pending segments that it acknowledges if it `acknowledges` of
    /// any.
    fn take_behind(
        &mut self,
        segment: &Segment<'_>,
        acknowledges: bool,
    ) -> Result<Option<Box<Connection<TlsAnalysis<K>>>>, AllocError>
        ensures taken { IfOk result
            (λ over. TakesBehind acknowledges segment.now self.old.connections
            self.new.connections (option_map (λ b. b.value) over)) }
        ensures others { KeepsOthers (five_tuple_of segment.now) self.old.connections.live
            self.new.connections.live }
        ensures weighed { IfOk result (λ over. IfNone (option_map (λ b. b.value) over)
            (IsWeighedUnless K.most_bytes self.new.is_unsettled
            (five_tuple_of segment.now) self.new.connections)) }
        ensures accounted { IsAccounted self.old.connections
            → IsAccounted self.new.connections }
        ensures memory { self.new.memory ≡ self.old.memory }
        ensures kept { self.new.kept ≡ self.old.kept }
        ensures arrivals { self.new.arrivals ≡ self.old.arrivals }
    {
        if !acknowledges {
            return self.take_segment(segment);
        }
        self.analyze_acknowledged(segment)?;
        self.take_segment(segment)
    }

    /// Returns whether pieces are passed on with each packet.
    pub(crate) fn passes_pieces(&self) -> bool
        ensures { result ≡ passes_on self.now.kept }
    {
        match self.kept {
            Some(pieces) => pieces.are_passed(),
            None => false,
        }
    }
}
