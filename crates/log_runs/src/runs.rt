//! Runs a log over the packets of a capture.
ghost use Rattle.std.specs.Prelude.{IfErr, OnOk, map};
ghost use Rattle.log_connections.specs.Sink.{StaysSound};
ghost use Rattle.log_runs.specs.Runs.{IsRun, StopsRun};
ghost use Rattle.packets.specs.Section.{view_packet};

use log_connections::{Log, LogError, PieceCollector, Sink};
use packets::Packet;

/// Processes these packets, and ends all connections behind them. The sink receives each connection
/// that is over.
///
/// The first error ends the run. The log then has the connections that are open.
pub fn run<K: PieceCollector, S: Sink<K>>(
    log: &mut Log<K>,
    packets: &[Packet<'_>],
    sink: &mut S,
) -> Result<(), LogError<S::Error>>
    ensures run { OnOk result
        (IsRun K.most_bytes log.old.memory (map view_packet packets.now) log.old.arrivals
        log.old.connections log.new.connections (S.received sink.old) (S.received sink.new)) }
    ensures stopped { IfErr result
        (λ error. StopsRun K.most_bytes log.old.memory (map view_packet packets.now)
        log.old.arrivals error log.old.connections log.new.connections (S.received sink.old)
        (S.received sink.new)) }
    ensures sound { StaysSound (S.is_sound sink.old) (S.is_sound sink.new) result }
{
    for packet in packets {
        log.packet(*packet, sink)?;
    }
    log.finish(sink)
}
