//! The dialogue in front of TLS, as segments lead it on.
ghost use Rattle.std.specs.Prelude.{◌≡◌, ◌==◌, ◌&&◌, IfOk, OnOk, not};
ghost use Rattle.connections.specs.Connection.{has_opening, side_of};
ghost use Rattle.connections.specs.Segment.{has_data};
ghost use Rattle.log_connections.specs.Analysis.{is_followed_in, is_front_in};
ghost use Rattle.log_connections.specs.Sides.{AnalyzesIf, AnalyzesWaiting, ChangesAnalysis, FollowsDialogue, FollowsFront, FollowsFrontIf, FollowsIf, FollowsOpened, SkipsMissing, missing_of, other_of};

use crate::analysis::{PieceCollector, TlsAnalysis};
use connections::{Connection, Segment, Side};
use std::alloc::AllocError;
use tls_summary::CertificateCache;

/// Analyzes the bytes of the other side than this one, which waited for this side's.
fn analyze_waiting<K: PieceCollector>(
    connection: &mut Connection<TlsAnalysis<K>>,
    side: Side,
    known: &mut CertificateCache,
) -> Result<(), AllocError>
    ensures dialogue { OnOk result (AnalyzesWaiting side connection.old connection.new) }
    ensures same { ChangesAnalysis connection.old connection.new }
    ensures weight { connection.new.weight ≡ connection.old.weight }
{
    let is_opened = connection.has_opening();
    let analysis = &mut connection.attachment;
    match side {
        Side::Originator => {
            let stream = &mut connection.from_responder;
            analysis.analyze_stream(stream, Side::Responder, is_opened, false, known)
        }
        Side::Responder => {
            let stream = &mut connection.from_originator;
            analysis.analyze_stream(stream, Side::Originator, is_opened, false, known)
        }
    }
}

/// Follows the dialogue in front of TLS through the next bytes of both sides, and the next dialogue
/// behind a tunnel. Then analyzes the bytes of the other side that waited for this one's.
fn follow_opened<K: PieceCollector>(
    connection: &mut Connection<TlsAnalysis<K>>,
    side: Side,
    known: &mut CertificateCache,
) -> Result<(), AllocError>
    ensures dialogue { OnOk result (FollowsDialogue side connection.old connection.new) }
    ensures same { ChangesAnalysis connection.old connection.new }
    ensures weight { connection.new.weight ≡ connection.old.weight }
{
    let analysis = &mut connection.attachment;
    analysis.follow(
        &mut connection.from_originator,
        &mut connection.from_responder,
    );
    analysis.follow(
        &mut connection.from_originator,
        &mut connection.from_responder,
    );
    analyze_waiting(connection, side, known)
}

/// Follows the dialogue in front of TLS, unless the connection's opening wasn't captured.
fn follow_dialogue<K: PieceCollector>(
    connection: &mut Connection<TlsAnalysis<K>>,
    side: Side,
    known: &mut CertificateCache,
) -> Result<(), AllocError>
    ensures dialogue { OnOk result
        (FollowsOpened (has_opening connection.old) side connection.old connection.new) }
    ensures same { ChangesAnalysis connection.old connection.new }
    ensures weight { connection.new.weight ≡ connection.old.weight }
{
    if connection.has_opening() {
        return follow_opened(connection, side, known);
    }
    connection.attachment.end_dialogue();
    Ok(())
}

/// Returns the other side.
fn other_side(side: Side) -> Side
    ensures { result ≡ other_of side }
{
    match side {
        Side::Originator => Side::Responder,
        Side::Responder => Side::Originator,
    }
}

/// Skips missing bytes of a side in front of its TLS, if its receiver acknowledged them, and no
/// pending segment that begins `before` a number may hold them. Returns whether there were any.
fn skip_missing<K: PieceCollector>(
    connection: &mut Connection<TlsAnalysis<K>>,
    side: Side,
    before: u32,
) -> Result<bool, AllocError>
    ensures skips { OnOk result (SkipsMissing side before connection.old connection.new) }
    ensures any { IfOk result (λ any. any ≡ not (missing_of side before connection.old == 0)) }
    ensures same { ChangesAnalysis connection.old connection.new }
    ensures weight { connection.new.weight ≡ connection.old.weight }
{
    if !connection.attachment.awaits(side) {
        return Ok(false);
    }
    let skipped = connection.skip_lost(side, before)?;
    if skipped == 0 {
        return Ok(false);
    }
    connection.attachment.pass_missing(side, skipped);
    Ok(true)
}

/// Searches for TLS in the other side's bytes behind missing ones, if it `has_missing` ones and no
/// dialogue is followed.
fn search_behind<K: PieceCollector>(
    connection: &mut Connection<TlsAnalysis<K>>,
    side: Side,
    has_missing: bool,
    known: &mut CertificateCache,
) -> Result<(), AllocError>
    ensures searches { OnOk result (AnalyzesIf
        (has_missing && not (is_followed_in connection.old.attachment.transport)) side
        connection.old connection.new) }
    ensures same { ChangesAnalysis connection.old connection.new }
    ensures weight { connection.new.weight ≡ connection.old.weight }
{
    if has_missing && !connection.attachment.is_followed() {
        return analyze_waiting(connection, side, known);
    }
    Ok(())
}

/// Follows the dialogue in front of TLS, if one goes on.
fn follow_if_any<K: PieceCollector>(
    connection: &mut Connection<TlsAnalysis<K>>,
    side: Side,
    known: &mut CertificateCache,
) -> Result<(), AllocError>
    ensures follows { OnOk result (FollowsIf
        (is_followed_in connection.old.attachment.transport) side connection.old
        connection.new) }
    ensures same { ChangesAnalysis connection.old connection.new }
    ensures weight { connection.new.weight ≡ connection.old.weight }
{
    if connection.attachment.is_followed() {
        return follow_dialogue(connection, side, known);
    }
    Ok(())
}

/// Skips missing bytes of both sides in front of TLS, and follows the dialogue behind them, or
/// searches for the other side's TLS. (Not inlined: few segments come before TLS.)
#[inline(never)]
fn follow_in_front<K: PieceCollector>(
    connection: &mut Connection<TlsAnalysis<K>>,
    segment: &Segment<'_>,
    side: Side,
    known: &mut CertificateCache,
) -> Result<(), AllocError>
    ensures front { OnOk result
        (FollowsFront segment.now side connection.old connection.new) }
    ensures same { ChangesAnalysis connection.old connection.new }
    ensures weight { connection.new.weight ≡ connection.old.weight }
{
    let other = other_side(side);
    let last = connection.stream(other).last();
    let has_missing = skip_missing(connection, other, last)?;
    skip_missing(connection, side, segment.first())?;
    search_behind(connection, side, has_missing, known)?;
    follow_if_any(connection, side, known)
}

/// Follows what is in front of TLS by the data of a segment.
#[inline(always)]
pub(crate) fn follow_front<K: PieceCollector>(
    connection: &mut Connection<TlsAnalysis<K>>,
    segment: &Segment<'_>,
    known: &mut CertificateCache,
) -> Result<(), AllocError>
    ensures front { OnOk result
        (FollowsFrontIf (has_data segment.now && is_front_in connection.old.attachment.transport)
        segment.now (side_of connection.old segment.now.source) connection.old connection.new) }
    ensures same { ChangesAnalysis connection.old connection.new }
    ensures weight { connection.new.weight ≡ connection.old.weight }
{
    if segment.has_data() && connection.attachment.is_in_front() {
        let side = connection.side_of(segment.source);
        return follow_in_front(connection, segment, side, known);
    }
    Ok(())
}
