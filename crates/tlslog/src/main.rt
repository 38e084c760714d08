//! Logs the TLS and DTLS connections of packet captures: a line for each when it ends, or a line
//! for each message or certificate as it arrives.
//!
//! It reads the named files or standard input, prints JSON or another format, with Zeek's names for
//! fields, and reports on standard error what it found and left out.
//!
//! | exit status | when |
//! |---|---|
//! | 0 | everything was read, or the reader of the output closed it |
//! | 1 | an input is no capture, or is truncated |
//! | 2 | the arguments are wrong |
//! | 3 | memory ran out, or a file can't be opened, read or written |
#![tactic(auto)]

mod arguments;
mod memory;
mod printer;

ghost use Rattle.std.specs.Prelude.{Bool};
ghost use Rattle.log_io.specs.Run.{HasWritten};

use crate::arguments::{Options, choices, options_of};
use clap::ArgMatches;
use log_captures::{log_file, log_joined, log_standard_input};
use log_io::{DASH, Exit, Failure, Files, Output, STANDARD_OUTPUT, report};
use log_lines::Style;
use log_options::{matches, report_error};
use log_summaries::CollectedPieces;
use log_writer::{ConfigurationError, write_footer, write_header};
use std::io::{self, Write};
use std::process::ExitCode;
use std::random::RandomSource;
use std::rt::Runtime;
use std::time::{SystemTime, UNIX_EPOCH};

/// Returns the seconds since 1970-01-01 00:00 UTC by the system's clock; 0 if it can't be read.
fn now<R: Runtime>(rt: &R) -> i64 {
    let Ok(time) = SystemTime::now(rt) else {
        return 0;
    };
    match time.duration_since(UNIX_EPOCH) {
        Ok(since) => i64::try_from(since.as_secs()).unwrap_or(0),
        Err(_) => 0,
    }
}

/// Logs the capture with that path; `-` is standard input.
fn log_one<R: Runtime + AllocGlobal + RandomSource, W: Write>(
    rt: &R,
    options: &Options,
    path: &str,
    out: Output<W>,
) -> (Exit, Output<W>)
    ensures { HasWritten out.has_failed result.0 result.1.has_failed }
{
    if path == DASH {
        log_standard_input::<_, CollectedPieces, _, _>(rt, &options.run, &options.printer, out)
    } else {
        log_file::<_, CollectedPieces, _, _>(rt, &options.run, &options.printer, path, out)
    }
}

/// Logs each named capture, or all as one by `--join`, or standard input if none is named. Stops
/// when the output is closed.
fn log_each<R: Runtime + AllocGlobal + RandomSource, W: Write>(
    rt: &R,
    options: &Options,
    matches: &ArgMatches<'_>,
    out: Output<W>,
) -> (Exit, Output<W>)
    ensures { HasWritten out.has_failed result.0 result.1.has_failed }
{
    let Some(paths) = matches.get_strs("captures") else {
        return log_standard_input::<_, CollectedPieces, _, _>(
            rt,
            &options.run,
            &options.printer,
            out,
        );
    };
    if matches.get_flag("join") {
        return log_joined::<_, _, CollectedPieces, _, _>(
            rt,
            &options.run,
            &options.printer,
            &Files { rt, paths },
            out,
        );
    }
    let mut out = out;
    let mut exit = Exit::Clean;
    'paths: for path in paths {
        let (of_path, behind) = log_one(rt, options, path, out);
        exit = exit.and(of_path);
        out = behind;
        if matches!(exit, Exit::Closed) {
            break;
        }
    }
    (exit, out)
}

/// Ends the log after its last line, unless a write failed, and returns how the run exits.
fn end_log<R: Runtime + AllocGlobal, W: Write>(
    rt: &R,
    style: &Style,
    exit: Exit,
    out: Output<W>,
) -> (Exit, Output<W>)
    ensures { (was : Bool) → HasWritten was exit out.has_failed
        → HasWritten was result.0 result.1.has_failed }
{
    let mut out = out;
    if matches!(exit, Exit::Closed) || out.has_failed() {
        return (exit, out);
    }
    match write_footer(rt.alloc(), style, now(rt), &mut out) {
        Ok(()) => (exit, out),
        Err(e) => (
            exit.and(report(rt, STANDARD_OUTPUT, Failure::from(e), 0)),
            out,
        ),
    }
}

/// Logs all captures, between the format's header and footer.
fn log_all<R: Runtime + AllocGlobal + RandomSource, W: Write>(
    rt: &R,
    options: &Options,
    matches: &ArgMatches<'_>,
    out: Output<W>,
) -> (Exit, Output<W>)
    ensures { HasWritten out.has_failed result.0 result.1.has_failed }
{
    let mut out = out;
    if let Err(e) = write_header(rt.alloc(), &options.printer.style, now(rt), &mut out) {
        return (report(rt, STANDARD_OUTPUT, Failure::from(e), 0), out);
    }
    let (exit, out) = log_each(rt, options, matches, out);
    end_log(rt, &options.printer.style, exit, out)
}

/// Prints why the arguments are refused, and returns the exit status.
fn refuse<R: Runtime + AllocGlobal>(rt: &R, error: ConfigurationError<'_>) -> u8 {
    match eprintln!(rt; "tlslog: {error}") {
        Ok(()) => error.status(),
        Err(_) => 3,
    }
}

/// Runs as the arguments ask, and returns the exit status.
fn run_by<R: Runtime + AllocGlobal + RandomSource>(rt: &R, matches: &ArgMatches<'_>) -> u8 {
    match options_of(rt, matches) {
        Ok(options) => {
            let (exit, _out) = log_all(
                rt,
                &options,
                matches,
                Output::new(rt.alloc(), io::writer(rt)),
            );
            u8::from(exit)
        }
        Err(error) => refuse(rt, error),
    }
}

/// Parses the command line and runs by it. Returns the exit status.
fn run<R: Runtime + AllocGlobal + RandomSource>(rt: &R, words: &[String]) -> u8 {
    match matches(rt.alloc(), words, choices()) {
        Ok(matches) => run_by(rt, &matches),
        Err(error) => report_error(rt, &error, words),
    }
}

fn main(rt: HostRuntime) -> ExitCode {
    let words = match std::env::args(&rt) {
        Ok(words) => words.collect::<Vec<String>>(rt.alloc()),
        Err(_) => return ExitCode::from(3),
    };
    match words {
        Ok(words) => ExitCode::from(run(&rt, words.as_slice())),
        Err(_) => ExitCode::from(3),
    }
}
