//! What a run logs, and the empty log that it begins with.
ghost use Rattle.std.specs.Prelude.{◌≡◌, ◌&&◌, ◌||◌, is_some, IfOk};
ghost use Rattle.std.specs.Option.{option_or};
ghost use Rattle.log_captures.specs.Options.{IsLogBy, counts_vlans, tells_networks};
ghost use Rattle.log_io.specs.Run.{HasFailed};

use arrivals::{ArrivalReader, Checksums};
use connection_parts::Part;
use log_connections::{Log, PieceCollector, PieceKind};
use log_io::{Exit, Failure, report};
use std::alloc::{AllocError, Global};
use std::hash::RandomState;
use std::random::RandomSource;
use std::rt::Runtime;

/// What separates connections with the same addresses and ports.
#[derive(Clone, Copy, Debug, PartialEq, Eq)]
pub enum Separation {
    /// Their tunnels.
    Tunnels,
    /// Their VLAN tags, their tunnels and all identifiers of these.
    Networks,
    /// Nothing.
    Nothing,
}

/// What a run logs, and how much memory it takes.
#[derive(Drop)]
pub struct RunOptions {
    /// Which pieces of connections are kept until they are printed, if any.
    pub pieces: Option<PieceKind>,
    /// Which wrong checksums drop a packet.
    pub checksums: Checksums,
    /// The part of the connections that is logged; all without one.
    pub part: Option<Part>,
    /// What separates connections with the same addresses and ports.
    pub separation: Separation,
    /// How many bytes of memory connections may take.
    pub memory: usize,
}

/// Limits the log to a part of the connections, if there is one.
fn set_part(reader: &mut ArrivalReader, part: Option<Part>)
    ensures { reader.new ≡ record reader.old { part = option_or part reader.old.part } }
{
    if let Some(part) = part {
        reader.set_part(part);
    }
}

/// Sets what separates connections. A new reader separates them by their tunnels.
fn set_separation(reader: &mut ArrivalReader, separation: Separation)
    ensures networks { is_some reader.new.networks
        ≡ (is_some reader.old.networks && tells_networks separation) }
    ensures vlans { reader.new.counts_vlans
        ≡ (reader.old.counts_vlans || counts_vlans separation) }
    ensures others { reader.new ≡ record reader.old {
      networks = reader.new.networks;
      counts_vlans = reader.new.counts_vlans;
    } }
{
    match separation {
        Separation::Tunnels => {}
        Separation::Networks => reader.separate_by_vlans(),
        Separation::Nothing => reader.merge_networks(),
    }
}

/// Returns an empty log by the options, with these keys for the hashes of its tables.
fn log_of<K: PieceCollector>(
    alloc: Global,
    options: &RunOptions,
    keys: RandomState,
) -> Result<Log<K>, AllocError>
    ensures { IfOk result (IsLogBy options.now) }
{
    let mut log = Log::new(alloc, keys, options.pieces)?;
    log.set_memory(options.memory);
    log.arrivals.set_checksums(options.checksums);
    set_part(&mut log.arrivals, options.part);
    set_separation(&mut log.arrivals, options.separation);
    Ok(log)
}

/// Returns an empty log by the options, or reports why there is none.
pub(crate) fn begin_log<R: Runtime + AllocGlobal + RandomSource, K: PieceCollector>(
    rt: &R,
    options: &RunOptions,
    name: &str,
) -> Result<Log<K>, Exit>
    ensures failed { HasFailed result }
    ensures begun { IfOk result (IsLogBy options.now) }
{
    let keys = match RandomState::new(rt) {
        Ok(keys) => keys,
        Err(e) => {
            return Err(report(rt, "the system's random numbers", Failure::Reading(e), 0));
        }
    };
    match log_of(rt.alloc(), options, keys) {
        Ok(log) => Ok(log),
        Err(_) => Err(report(rt, name, Failure::OutOfMemory, 0)),
    }
}
