//! Logs each packet of a capture.
ghost use Rattle.std.specs.Prelude.{◌≡◌};
ghost use Rattle.log_captures.specs.Failures.{line_error_of};
ghost use Rattle.log_io.specs.Run.{EndsBy, Exits, HasWritten, IsNotOfCapture, StaysSound};

use crate::line_counts::LineCounts;
use crate::printer::{LinePrinter, Printer};
use log_connections::{Log, LogError, PieceCollector};
use log_io::{CaptureInput, Exit, Failure, LineError, Output, report};
use packets::{Packet, PacketVisitor, visit_packets};
use std::alloc::Global;
use std::io::{Read, Write};
use std::rt::Runtime;

/// Returns why a packet wasn't logged.
fn line_error(e: LogError<LineError>) -> LineError
    ensures { result ≡ line_error_of e }
{
    match e {
        LogError::OutOfMemory => LineError::OutOfMemory,
        LogError::Sink(e) => e,
    }
}

/// Logs each packet of a capture.
#[derive(Drop)]
pub(crate) struct Logger<'a, K, L, W> {
    pub(crate) log: Log<K>,
    pub(crate) printer: Printer<'a, L, W>,
}

impl<'a, K: PieceCollector, L: LinePrinter<K>, W: Write> Logger<'a, K, L, W> {
    /// Returns a logger that writes to `out`.
    pub(crate) fn new(
        alloc: Global,
        lines: &'a L,
        log: Log<K>,
        out: Output<W>,
    ) -> Logger<'a, K, L, W>
        ensures { result.printer.out ≡ out }
    {
        Logger {
            log,
            printer: Printer {
                alloc,
                lines,
                out,
                counts: LineCounts::new(),
            },
        }
    }
}

impl<'a, K: PieceCollector, L: LinePrinter<K>, W: Write> PacketVisitor for Logger<'a, K, L, W> {
    type Error = LineError;

    ghost use Rattle.std.specs.Prelude.{not};

    // No write failed.
    ghost is_sound = { λ l. not l.printer.out.has_failed };

    fn visit(&mut self, packet: Packet<'_>) -> Result<(), LineError> {
        match self.log.packet(packet, &mut self.printer) {
            Ok(()) => Ok(()),
            Err(e) => Err(line_error(e)),
        }
    }
}

/// Logs the packets of a source.
fn log_packets<I: Read, K: PieceCollector, L: LinePrinter<K>, W: Write>(
    logger: &mut Logger<'_, K, L, W>,
    reader: &mut I,
) -> Result<(), Failure>
    ensures ends { EndsBy (I.remaining reader.old) (I.remaining reader.new) result }
    ensures sound { StaysSound logger.old.printer.out.has_failed
        logger.new.printer.out.has_failed result }
{
    match visit_packets(logger.printer.alloc, reader, logger) {
        Ok(()) => Ok(()),
        Err(e) => Err(Failure::from(e)),
    }
}

/// Logs the packets of a source, and reports a failure.
pub(crate) fn log_source<
    R: Runtime + AllocGlobal,
    I: Read + CaptureInput,
    K: PieceCollector,
    L: LinePrinter<K>,
    W: Write,
>(rt: &R, name: &str, logger: &mut Logger<'_, K, L, W>, reader: &mut I) -> Exit
    ensures exits { Exits (I.remaining reader.old) (I.remaining reader.new) result }
    ensures written { HasWritten logger.old.printer.out.has_failed result
        logger.new.printer.out.has_failed }
{
    match log_packets(logger, reader) {
        Ok(()) => Exit::Clean,
        Err(failure) => {
            let failure = failure.of_source(reader.front());
            report(rt, name, failure, logger.log.arrivals.counts.packets)
        }
    }
}

/// Logs the connections that are still open at the end, and reports a failure.
pub(crate) fn log_left<R: Runtime + AllocGlobal, K: PieceCollector, L: LinePrinter<K>, W: Write>(
    rt: &R,
    name: &str,
    logger: &mut Logger<'_, K, L, W>,
) -> Exit
    ensures cause { IsNotOfCapture result }
    ensures written { HasWritten logger.old.printer.out.has_failed result
        logger.new.printer.out.has_failed }
{
    match logger.log.finish(&mut logger.printer) {
        Ok(()) => Exit::Clean,
        Err(e) => {
            let failure = Failure::from(line_error(e));
            report(rt, name, failure, logger.log.arrivals.counts.packets)
        }
    }
}

/// Logs the packets of a source, and the connections that are still open at its end.
pub(crate) fn log_whole<
    R: Runtime + AllocGlobal,
    I: Read + CaptureInput,
    K: PieceCollector,
    L: LinePrinter<K>,
    W: Write,
>(rt: &R, name: &str, logger: &mut Logger<'_, K, L, W>, reader: &mut I) -> Exit
    ensures exits { Exits (I.remaining reader.old) (I.remaining reader.new) result }
    ensures written { HasWritten logger.old.printer.out.has_failed result
        logger.new.printer.out.has_failed }
{
    let exit = log_source(rt, name, logger, reader);
    if matches!(exit, Exit::Failed | Exit::Closed) {
        return exit;
    }
    exit.and(log_left(rt, name, logger))
}
