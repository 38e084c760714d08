//! Prints what a log finds.
ghost use Rattle.std.specs.Prelude.{◌≡◌, ℕ, true, not, None, OnOk};
ghost use Rattle.connections.specs.declared.connection.Connection.{Connection};
ghost use Rattle.log_captures.specs.LineCounts.{with_connection};
ghost use Rattle.log_connections.specs.Sink.{Receives, TakesPieces};
ghost use Rattle.log_connections.specs.declared.analysis.TlsAnalysis.{TlsAnalysis};
ghost use Rattle.log_io.specs.Output.{TracksFailure};

use crate::line_counts::LineCounts;
use connections::Connection;
use log_connections::{PieceCollector, Sink, TlsAnalysis};
use log_io::{LineError, Output};
use std::alloc::Global;
use std::io::Write;

/// Prints the lines of connections. `K` collects a connection's pieces until they are printed.
pub trait LinePrinter<K> {
    // How many messages or certificates of a connection were sent, if each has a line.
    ghost pieces: { Self → Connection (TlsAnalysis K) → ℕ };

    // How many lines a connection may have.
    ghost most: { Self → ℕ };

    /// Returns how many messages or certificates of a connection were sent, if each has a line.
    fn piece_count(&self, connection: &Connection<TlsAnalysis<K>>) -> u64
        ensures { result ≡ pieces self.now connection.now };

    /// Returns how many lines a connection may have.
    fn most_lines(&self) -> u64
        ensures { result ≡ most self.now };

    /// Prints the messages or certificates of an open connection that were complete at this time,
    /// if those are logged. Nothing of the connection changes but its collector.
    fn print_pieces<W: Write>(
        &self,
        alloc: Global,
        connection: &mut Connection<TlsAnalysis<K>>,
        time: u64,
        out: &mut Output<W>,
    ) -> Result<(), LineError>
        ensures failure { TracksFailure out.old.has_failed out.new.has_failed result }
        ensures taken { TakesPieces connection.old connection.new };

    /// Prints the last messages or certificates of a connection that is over, or its line.
    fn print_last<W: Write>(
        &self,
        alloc: Global,
        connection: &mut Connection<TlsAnalysis<K>>,
        time: u64,
        out: &mut Output<W>,
    ) -> Result<(), LineError>
        ensures { TracksFailure out.old.has_failed out.new.has_failed result };
}

/// Prints what a log finds.
#[derive(Drop)]
pub(crate) struct Printer<'a, L, W> {
    pub(crate) alloc: Global,
    pub(crate) lines: &'a L,
    pub(crate) out: Output<W>,
    pub(crate) counts: LineCounts,
}

impl<'a, K: PieceCollector, L: LinePrinter<K>, W: Write> Sink<K> for Printer<'a, L, W> {
    type Error = LineError;

    ghost use Rattle.std.specs.Prelude.{not};

    // No write failed.
    ghost is_sound = { λ p. not p.out.has_failed };

    // (`drop` by hand: freeing at each exit of the body would triple its code)
    fn connection(
        &mut self,
        over: Box<Connection<TlsAnalysis<K>>>,
        time: u64,
    ) -> Result<(), LineError>
        ensures received { Receives None None result over.value }
        ensures sound { not self.old.out.has_failed ≡ true
            → OnOk result (not self.new.out.has_failed ≡ true) }
        ensures counted { self.new.counts ≡ with_connection (L.pieces self.old.lines.now over.value)
            (L.most self.old.lines.now) self.old.counts }
    {
        let mut over = over;
        self.counts
            .add(self.lines.piece_count(&over), self.lines.most_lines());
        let printed = self
            .lines
            .print_last(self.alloc, &mut over, time, &mut self.out);
        drop(over);
        printed
    }

    fn pieces(&mut self, open: &mut Connection<TlsAnalysis<K>>, time: u64) -> Result<(), LineError>
        ensures sound { not self.old.out.has_failed ≡ true
            → OnOk result (not self.new.out.has_failed ≡ true) }
        ensures uncounted { self.new.counts ≡ self.old.counts }
        ensures taken { TakesPieces open.old open.new }
    {
        self.lines
            .print_pieces(self.alloc, open, time, &mut self.out)
    }
}
