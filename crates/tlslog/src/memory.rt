//! The memory limit of connections, and the limit of their lines.
ghost use Rattle.std.specs.Prelude.{◌≡◌};
ghost use Rattle.tlslog.specs.Memory.{connection_memory, line_limit};

use connections::{CONNECTION_COST, Connection, FiveTuple};
use ip_fragments::HELD_LIMIT;
use log_connections::ANALYSIS_COST;
use log_summaries::Analysis;
use std::mem::size_of;

/// The most that the buffers of captures, lines and the program itself take, in bytes.
const REST: usize = 8_388_608;

// A connection with its entry in the table takes no more than is accounted for: the entry has its
// ends and their hash, two links, a pointer to the connection and a place in a map, and each of
// both blocks what the allocator adds.
const _: () = prove!(
    size_of::<Connection<Analysis>>() + size_of::<FiveTuple>() + 192
        <= CONNECTION_COST + ANALYSIS_COST
);

/// Returns how many bytes of the limit are left for connections. Fragments have their own limit.
pub fn part_of_connections(limit: Option<usize>) -> usize
    ensures { result ≡ connection_memory limit }
{
    match limit {
        Some(size) => size.saturating_sub(HELD_LIMIT).saturating_sub(REST),
        None => usize::MAX,
    }
}

/// How many messages or certificates of a connection have a line, if memory is limited.
const MOST_LINES: u64 = 65_536;

/// Returns how many lines a connection may have, by the limit of memory.
pub fn most_lines(limit: Option<usize>) -> u64
    ensures { result ≡ line_limit limit }
{
    match limit {
        Some(_) => MOST_LINES,
        None => u64::MAX,
    }
}
