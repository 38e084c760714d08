//! Logs the captures in files, on standard input, or joined.
ghost use Rattle.std.specs.Prelude.{Bool};
ghost use Rattle.log_io.specs.Run.{Exits, HasWritten, IsAsBefore};

use crate::line_counts::LineCounts;
use crate::logger::{Logger, log_left, log_source, log_whole};
use crate::options::{RunOptions, begin_log};
use crate::printer::LinePrinter;
use arrivals::Counts;
use log_connections::{Log, PieceCollector};
use log_io::{
    CaptureInput, Exit, Failure, Opener, Output, ProgressReader, STANDARD_INPUT,
    STANDARD_INPUT_NAME, report,
};
use std::fs;
use std::io::{Read, Write};
use std::random::RandomSource;
use std::rt::Runtime;

/// The name in messages of captures that are logged as one.
const JOINED_NAME: &str = "all captures";

/// Prints what was found and left out, and which connections gave many lines, unless the output was
/// closed, or the source failed before its first packet. If that can't be printed, the run fails.
fn report_counts<R: Runtime>(
    rt: &R,
    name: &str,
    counts: &Counts,
    lines: &LineCounts,
    exit: Exit,
) -> Exit
    ensures { IsAsBefore exit result }
{
    let is_of_none = counts.packets == 0 && !matches!(exit, Exit::Clean);
    if is_of_none || matches!(exit, Exit::Closed) {
        return exit;
    }
    if counts.report(rt, name).is_err() || lines.report(rt, name).is_err() {
        return Exit::Failed;
    }
    exit
}

/// Logs the capture of a source, whose name appears in messages, and hands back the output.
///
/// The exit is
/// - `Clean` if the source has a whole capture, all of it was read, and every line was written,
/// - `Broken` if the source has no capture, or a truncated one,
/// - `Closed` if the reader of the output closed it,
/// - `Failed` if memory ran out, or a read or a write failed.
pub fn log_input<
    R: Runtime + AllocGlobal + RandomSource,
    I: Read + CaptureInput,
    K: PieceCollector,
    L: LinePrinter<K>,
    W: Write,
>(
    rt: &R,
    options: &RunOptions,
    lines: &L,
    name: &str,
    reader: &mut I,
    out: Output<W>,
) -> (Exit, Output<W>)
    ensures exits { Exits (I.remaining reader.old) (I.remaining reader.new) result.0 }
    ensures written { HasWritten out.has_failed result.0 result.1.has_failed }
{
    let log: Log<K> = match begin_log(rt, options, name) {
        Ok(log) => log,
        Err(exit) => return (exit, out),
    };
    let mut logger = Logger::new(rt.alloc(), lines, log, out);
    let exit = log_whole(rt, name, &mut logger, reader);
    let Logger { log, printer } = logger;
    let exit = report_counts(rt, name, &log.arrivals.counts, &printer.counts, exit);
    drop(log);
    (exit, printer.out)
}

/// Opens and logs the next of the captures that are logged as one.
fn log_next<R: Runtime + AllocGlobal, O: Opener, K: PieceCollector, L: LinePrinter<K>, W: Write>(
    rt: &R,
    opener: &O,
    number: usize,
    name: &str,
    logger: &mut Logger<'_, K, L, W>,
) -> Exit
    ensures { HasWritten logger.old.printer.out.has_failed result
        logger.new.printer.out.has_failed }
{
    match opener.open(number) {
        Ok(mut reader) => log_source(rt, name, logger, &mut reader),
        Err(e) => report(rt, name, Failure::Opening(e), 0),
    }
}

/// Logs the connections that are still open after the last capture, unless a write failed.
fn log_last<R: Runtime + AllocGlobal, K: PieceCollector, L: LinePrinter<K>, W: Write>(
    rt: &R,
    exit: Exit,
    logger: &mut Logger<'_, K, L, W>,
) -> Exit
    ensures { (was : Bool) → HasWritten was exit logger.old.printer.out.has_failed
        → HasWritten was result logger.new.printer.out.has_failed }
{
    if matches!(exit, Exit::Closed) || logger.printer.out.has_failed() {
        return exit;
    }
    exit.and(log_left(rt, JOINED_NAME, logger))
}

/// Logs captures as one, in order: open connections continue in the next capture. If one can't be
/// read whole, the next one still is.
pub fn log_joined<
    R: Runtime + AllocGlobal + RandomSource,
    O: Opener,
    K: PieceCollector,
    L: LinePrinter<K>,
    W: Write,
>(rt: &R, options: &RunOptions, lines: &L, opener: &O, out: Output<W>) -> (Exit, Output<W>)
    ensures { HasWritten out.has_failed result.0 result.1.has_failed }
{
    let log: Log<K> = match begin_log(rt, options, JOINED_NAME) {
        Ok(log) => log,
        Err(exit) => return (exit, out),
    };
    let mut logger = Logger::new(rt.alloc(), lines, log, out);
    let mut exit = Exit::Clean;
    'captures: for number in 0..usize::MAX {
        let Some(name) = opener.name(number) else {
            break;
        };
        exit = exit.and(log_next(rt, opener, number, name, &mut logger));
        if matches!(exit, Exit::Closed) {
            break;
        }
    }
    let exit = log_last(rt, exit, &mut logger);
    let Logger { log, printer } = logger;
    let exit = report_counts(rt, JOINED_NAME, &log.arrivals.counts, &printer.counts, exit);
    drop(log);
    (exit, printer.out)
}

/// Logs the capture in a file. Its progress is shown on a terminal.
pub fn log_file<
    R: Runtime + AllocGlobal + RandomSource,
    K: PieceCollector,
    L: LinePrinter<K>,
    W: Write,
>(rt: &R, options: &RunOptions, lines: &L, path: &str, out: Output<W>) -> (Exit, Output<W>)
    ensures { HasWritten out.has_failed result.0 result.1.has_failed }
{
    match fs::open(rt, path) {
        Ok(file) => {
            let mut reader = ProgressReader::new(rt, path, path, file);
            log_input(rt, options, lines, path, &mut reader, out)
        }
        Err(e) => (report(rt, path, Failure::Opening(e), 0), out),
    }
}

/// Logs the capture on standard input.
pub fn log_standard_input<
    R: Runtime + AllocGlobal + RandomSource,
    K: PieceCollector,
    L: LinePrinter<K>,
    W: Write,
>(rt: &R, options: &RunOptions, lines: &L, out: Output<W>) -> (Exit, Output<W>)
    ensures { HasWritten out.has_failed result.0 result.1.has_failed }
{
    let mut reader = ProgressReader::new(rt, STANDARD_INPUT_NAME, STANDARD_INPUT, rt.reader());
    log_input(rt, options, lines, STANDARD_INPUT_NAME, &mut reader, out)
}
