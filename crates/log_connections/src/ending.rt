//! How connections end: what still counts of those that are removed from the table.
ghost use Rattle.std.specs.Prelude.{◌≡◌, ◌<◌, ◌≤◌, IfOk, IfSome, OnErr, OnOk, false, length, true, vec_capacity};
ghost use Rattle.std.specs.Option.{option_map};
ghost use Rattle.connections.specs.Connection.{side_of};
ghost use Rattle.connections.specs.Memory.{IsAccounted};
ghost use Rattle.connections.specs.Table.{IsForgotten, NoneToForget};
ghost use Rattle.log_connections.specs.AtEnd.{AnalyzesAllAtEnd, AnalyzesOneAtEnd, RefusesKept, RefusesOneAtEnd, RefusesSomeAtEnd};
ghost use Rattle.log_connections.specs.Sides.{AnalyzesKept, AnalyzesSender, ChangesAnalysis, IsOnItsOwn};
ghost use Rattle.log_connections.specs.Sink.{AnalyzesLast, AnalyzesRest, EndsAs, EndsIdle, EndsLast, IsCutOff, IsCutShort, IsEnded};

use crate::analysis::{PieceCollector, TlsAnalysis};
use crate::following::follow_front;
use crate::log::{Log, analyze_side};
use connections::{Connection, MAX_PENDING, PendingOutcome, PendingSegment, Segment, Side};
use std::alloc::AllocError;
use tls_summary::CertificateCache;

/// Analyzes the next bytes of a segment's sender, in a connection that is over.
fn analyze_sender_at_end<K: PieceCollector>(
    connection: &mut Connection<TlsAnalysis<K>>,
    segment: &Segment<'_>,
    known: &mut CertificateCache,
) -> Result<(), AllocError>
    ensures analysis { OnOk result
        (AnalyzesSender IsOnItsOwn segment.now (side_of connection.old segment.now.source)
        connection.old connection.new) }
    ensures same { ChangesAnalysis connection.old connection.new }
{
    let (side, is_opened) = (connection.side_of(segment.source), connection.has_opening());
    let analysis = &mut connection.attachment;
    match side {
        Side::Originator => {
            let stream = &mut connection.from_originator;
            analyze_side(analysis, stream, side, is_opened, segment, known)
        }
        Side::Responder => {
            let stream = &mut connection.from_responder;
            analyze_side(analysis, stream, side, is_opened, segment, known)
        }
    }
}

/// Adds a pending segment that counts as taken to the stream of its connection, which is over, and
/// analyzes the bytes that it completes.
fn analyze_taken<K: PieceCollector>(
    connection: &mut Connection<TlsAnalysis<K>>,
    kept: &PendingSegment,
    known: &mut CertificateCache,
) -> Result<(), AllocError>
    ensures analysis { OnOk result
        (AnalyzesKept IsOnItsOwn kept.now connection.old connection.new) }
    ensures refused { OnErr result (RefusesKept kept.now connection.old connection.new) }
{
    let alloc = connection.attachment.alloc;
    connection.accept_pending(alloc, kept)?;
    let segment = kept.segment();
    follow_front(connection, &segment, known)?;
    analyze_sender_at_end(connection, &segment, known)
}

/// Removes a pending segment that counts as taken, now that its connection is over, and analyzes it
/// if bytes of it are missing. Returns whether there was one.
fn analyze_one_at_end<K: PieceCollector>(
    connection: &mut Connection<TlsAnalysis<K>>,
    known: &mut CertificateCache,
) -> Result<bool, AllocError>
    ensures analysis { IfOk result
        (λ was_one. AnalyzesOneAtEnd connection.old connection.new was_one) }
    ensures refused { OnErr result (RefusesOneAtEnd connection.old connection.new) }
{
    match connection.take_at_end() {
        Some(PendingOutcome::Taken(kept)) => {
            analyze_taken(connection, &kept, known)?;
            Ok(true)
        }
        Some(PendingOutcome::Had) => Ok(true),
        None => Ok(false),
    }
}

/// Analyzes the pending segments that count as taken, now that their connection is over.
fn analyze_pending_at_end<K: PieceCollector>(
    connection: &mut Connection<TlsAnalysis<K>>,
    known: &mut CertificateCache,
) -> Result<(), AllocError>
    ensures analysis { OnOk result (AnalyzesAllAtEnd connection.old connection.new) }
    ensures refused { OnErr result (RefusesSomeAtEnd connection.old connection.new) }
{
    'waiting: for count in 0..MAX_PENDING {
        if !analyze_one_at_end(connection, known)? {
            return Ok(());
        }
    }
    Ok(())
}

/// Analyzes the last bytes of both streams, which were held back while more could come.
fn analyze_last_bytes<K: PieceCollector>(
    connection: &mut Connection<TlsAnalysis<K>>,
    known: &mut CertificateCache,
) -> Result<(), AllocError>
    ensures analysis { OnOk result (AnalyzesLast connection.old connection.new) }
    ensures cut { OnErr result (IsCutOff connection.old connection.new) }
{
    let is_opened = connection.has_opening();
    let analysis = &mut connection.attachment;
    analysis.end_dialogue();
    let stream = &mut connection.from_originator;
    analysis.analyze_stream(stream, Side::Originator, is_opened, true, known)?;
    let stream = &mut connection.from_responder;
    analysis.analyze_stream(stream, Side::Responder, is_opened, true, known)
}

/// Analyzes the pending segments that count as taken at the end, and then the last bytes.
fn analyze_last<K: PieceCollector>(
    connection: &mut Connection<TlsAnalysis<K>>,
    known: &mut CertificateCache,
) -> Result<(), AllocError>
    ensures analysis { OnOk result (AnalyzesRest connection.old connection.new) }
    ensures cut { OnErr result (IsCutShort connection.old connection.new) }
{
    analyze_pending_at_end(connection, known)?;
    analyze_last_bytes(connection, known)
}

impl<K: PieceCollector> Log<K> {
    /// Removes and returns a connection that timed out by this time.
    pub(crate) fn take_over(&mut self, time: u64) -> Option<Box<Connection<TlsAnalysis<K>>>>
        ensures idle { EndsIdle time self.old.connections.live self.new.connections.live
            (option_map (λ b. b.value) result) }
        ensures fewer { IfSome result (λ _.
            length self.new.connections.live < length self.old.connections.live) }
        ensures forgotten { IsForgotten time self.old.connections.closed
            self.new.connections.closed }
        ensures none_to_forget { NoneToForget time self.new.connections.closed }
        ensures accounted { IsAccounted self.old.connections
            → IsAccounted self.new.connections }
        ensures memory { self.new.memory ≡ self.old.memory }
        ensures kept { self.new.kept ≡ self.old.kept }
        ensures arrivals { self.new.arrivals ≡ self.old.arrivals }
    {
        if !self.connections.has_idle(time) {
            return None;
        }
        self.take_idle(time)
    }

    /// Removes and returns an idle connection, when there may be one.
    fn take_idle(&mut self, time: u64) -> Option<Box<Connection<TlsAnalysis<K>>>>
        ensures idle { EndsIdle time self.old.connections.live self.new.connections.live
            (option_map (λ b. b.value) result) }
        ensures fewer { IfSome result (λ _.
            length self.new.connections.live < length self.old.connections.live) }
        ensures forgotten { IsForgotten time self.old.connections.closed
            self.new.connections.closed }
        ensures none_to_forget { NoneToForget time self.new.connections.closed }
        ensures accounted { IsAccounted self.old.connections
            → IsAccounted self.new.connections }
        ensures memory { self.new.memory ≡ self.old.memory }
        ensures kept { self.new.kept ≡ self.old.kept }
        ensures arrivals { self.new.arrivals ≡ self.old.arrivals }
    {
        let taken = self.connections.take_idle(time);
        self.with_last(taken)
    }

    /// Removes and returns one of the remaining connections, and analyzes the rest of it.
    pub(crate) fn take_remaining(&mut self) -> Option<Box<Connection<TlsAnalysis<K>>>>
        ensures last { EndsLast false self.old.connections.live self.new.connections.live
            (option_map (λ b. b.value) result) }
        ensures arrivals { self.new.arrivals ≡ self.old.arrivals }
        ensures fewer { IfSome result (λ _.
            length self.new.connections.live < length self.old.connections.live) }
        ensures accounted { IsAccounted self.old.connections
            → IsAccounted self.new.connections }
    {
        let taken = self.connections.take_remaining();
        self.with_last(taken)
    }

    /// Analyzes the rest of a removed connection, and returns it. If the system refuses memory for
    /// that, the connection ended early, and the reserve is freed for its sink.
    pub(crate) fn with_last(
        &mut self,
        taken: Option<Box<Connection<TlsAnalysis<K>>>>,
    ) -> Option<Box<Connection<TlsAnalysis<K>>>>
        ensures ended { EndsAs false (option_map (λ b. b.value) taken)
            (option_map (λ b. b.value) result) }
        ensures freed { IfSome result (λ over. over.value.attachment.is_ended_early ≡ true
            → vec_capacity self.new.spare ≡ 0) }
        ensures spare { vec_capacity self.new.spare ≤ vec_capacity self.old.spare }
        ensures connections { self.new.connections ≡ self.old.connections }
        ensures unsettled { self.new.is_unsettled ≡ self.old.is_unsettled }
        ensures memory { self.new.memory ≡ self.old.memory }
        ensures kept { self.new.kept ≡ self.old.kept }
        ensures arrivals { self.new.arrivals ≡ self.old.arrivals }
    {
        let mut over = taken?;
        self.analyze_removed(&mut over);
        Some(over)
    }

    /// Analyzes the rest of a connection that was removed from the table.
    fn analyze_removed(&mut self, over: &mut Connection<TlsAnalysis<K>>)
        ensures ended { IsEnded false over.old over.new }
        ensures freed { over.new.attachment.is_ended_early ≡ true
            → vec_capacity self.new.spare ≡ 0 }
        ensures spare { vec_capacity self.new.spare ≤ vec_capacity self.old.spare }
        ensures connections { self.new.connections ≡ self.old.connections }
        ensures unsettled { self.new.is_unsettled ≡ self.old.is_unsettled }
        ensures memory { self.new.memory ≡ self.old.memory }
        ensures kept { self.new.kept ≡ self.old.kept }
        ensures arrivals { self.new.arrivals ≡ self.old.arrivals }
    {
        match analyze_last(over, &mut self.known) {
            Ok(()) => over.attachment.is_ended_early = false,
            Err(_) => {
                self.spare = Vec::new(self.alloc);
                over.attachment.is_ended_early = true;
            }
        }
    }
}
