//! Counts the connections that are over.
ghost use Rattle.std.specs.Prelude.{◌≡◌};
ghost use Rattle.log_connections.specs.Found.{HasGap, IsCounted, with_early, with_gap, with_outcome, with_protocol};

use crate::analysis::{PieceCollector, TlsAnalysis};
use arrivals::{Counts, add_one};
use connections::{Connection, Protocol, Side};
use tls_flow::Outcome;

/// Returns whether bytes of a connection, or its first messages, are missing.
fn has_gap<K: PieceCollector>(connection: &Connection<TlsAnalysis<K>>) -> bool
    ensures { HasGap result connection.now }
{
    let analysis = &connection.attachment;
    let one = analysis.lacks_front(Side::Originator);
    let other = analysis.lacks_front(Side::Responder);
    let streams = connection.from_originator.has_gap() || connection.from_responder.has_gap();
    streams || one || other
}

/// Counts a connection by its protocol.
fn add_protocol(counts: &mut Counts, protocol: Protocol)
    ensures { counts.new ≡ with_protocol protocol counts.old }
{
    match protocol {
        Protocol::Tcp => add_one(&mut counts.tls),
        Protocol::Udp => add_one(&mut counts.dtls),
    }
}

/// Counts a handshake that isn't successful, by its outcome.
fn add_outcome(counts: &mut Counts, outcome: Outcome)
    ensures { counts.new ≡ with_outcome outcome counts.old }
{
    match outcome {
        Outcome::BrokenOff => add_one(&mut counts.broken_off),
        Outcome::Waiting => add_one(&mut counts.waiting),
        Outcome::Unknown => add_one(&mut counts.unknown),
        Outcome::NoHandshake => add_one(&mut counts.no_handshake),
        Outcome::Full | Outcome::Resumed | Outcome::Tls13 { .. } => {}
    }
}

/// Counts a connection with missing bytes.
fn add_gap(counts: &mut Counts, has_gap: bool)
    ensures { counts.new ≡ with_gap has_gap counts.old }
{
    if has_gap {
        add_one(&mut counts.gaps);
    }
}

/// Counts a connection that ended early, for lack of memory.
fn add_early(counts: &mut Counts, is_ended_early: bool)
    ensures { counts.new ≡ with_early is_ended_early counts.old }
{
    if is_ended_early {
        add_one(&mut counts.ended_early);
    }
}

/// Counts a connection that is over, by its protocol and outcome.
pub(crate) fn add_connection<K: PieceCollector>(
    counts: &mut Counts,
    connection: &Connection<TlsAnalysis<K>>,
)
    ensures { IsCounted connection.now counts.old counts.new }
{
    let analysis = &connection.attachment;
    add_early(counts, analysis.is_ended_early);
    if !analysis.is_tls_or_dtls() {
        add_one(&mut counts.other_connections);
        return;
    }
    add_protocol(counts, connection.protocol);
    add_outcome(counts, analysis.outcome());
    add_gap(counts, has_gap(connection));
}
