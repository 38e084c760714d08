//! Counts of connections with many lines, and of lines that were left out.
ghost use Rattle.std.specs.Prelude.{◌≡◌};
ghost use Rattle.log_captures.specs.LineCounts.{no_lines, with_connection};

use std::fmt::{self, Display, Formatter};
use std::io;
use std::rt::Runtime;

/// A connection with more lines than this is reported.
const MANY_LINES: u64 = 10_000;

/// How many lines connections gave whose messages or certificates have a line each.
#[derive(Drop)]
pub(crate) struct LineCounts {
    /// How many connections gave more than 10,000 lines.
    pub(crate) long: u64,
    /// How many lines the longest of them gave.
    pub(crate) longest: u64,
    /// How many lines were left out, since their connections had reached the limit.
    pub(crate) left_out: u64,
}

impl LineCounts {
    /// Returns the counts before there is a line.
    pub(crate) fn new() -> LineCounts
        ensures { result ≡ no_lines }
    {
        LineCounts {
            long: 0,
            longest: 0,
            left_out: 0,
        }
    }

    /// Counts a connection that is over and had this many messages or certificates. At most
    /// `most_lines` of them had a line.
    pub(crate) fn add(&mut self, pieces: u64, most_lines: u64)
        ensures { self.new ≡ with_connection pieces most_lines self.old }
    {
        let lines = pieces.min(most_lines);
        self.left_out = self.left_out.saturating_add(pieces - lines);
        if lines > MANY_LINES {
            self.long = self.long.saturating_add(1);
            self.longest = self.longest.max(lines);
        }
    }

    /// Writes to standard error how many connections gave many lines, and how many lines were left
    /// out, if there are any.
    pub(crate) fn report<R: Runtime>(&self, rt: &R, name: &str) -> io::Result<()> {
        if self.long > 0 {
            eprintln!(rt;
                "{name}: {}, one of them {}",
                ManyLines(self.long),
                self.longest
            )?;
        }
        if self.left_out > 0 {
            eprintln!(rt;
                "{name}: left out: {} lines of connections that had reached their limit",
                self.left_out
            )?;
        }
        Ok(())
    }
}

/// Displays how many connections gave many lines.
#[derive(Drop)]
struct ManyLines(u64);

impl Display for ManyLines {
    fn fmt<W: fmt::Write>(&self, f: &mut Formatter<W>) -> fmt::Result {
        let connections = match self.0 {
            1 => "connection",
            _ => "connections",
        };
        write!(
            f,
            "{} {connections} gave more than {MANY_LINES} lines",
            self.0
        )
    }
}
