//! Writes the lines of a log: its header, its connections, messages or certificates, its footer.
ghost use Rattle.std.specs.Prelude.{◌≡◌, OnOk};
ghost use Rattle.log_io.specs.Output.{AppendsLine, TracksFailure};

use crate::format::{connection_line, footer, header};
use log_fields::summary::Summary;
use log_io::{LineError, Output};
use log_lines::Style;
use log_messages::{SentCertificate, SentMessage};
use std::alloc::Global;
use std::io::Write;

/// Writes the format's header, if it has one.
pub fn write_header<W: Write>(
    alloc: Global,
    style: &Style,
    opened: i64,
    out: &mut Output<W>,
) -> Result<(), LineError>
    ensures { TracksFailure out.old.has_failed out.new.has_failed result }
{
    match header(alloc, style, opened)? {
        Some(line) => out.write_line(line),
        None => Ok(()),
    }
}

/// Writes the format's footer, if it has one.
pub fn write_footer<W: Write>(
    alloc: Global,
    style: &Style,
    closed: i64,
    out: &mut Output<W>,
) -> Result<(), LineError>
    ensures { TracksFailure out.old.has_failed out.new.has_failed result }
{
    match footer(alloc, style, closed)? {
        Some(line) => out.write_line(line),
        None => Ok(()),
    }
}

/// Prints the line of a connection.
pub fn print_row<W: Write>(
    alloc: Global,
    style: &Style,
    places: &[usize],
    summary: &Summary<'_>,
    out: &mut Output<W>,
) -> Result<(), LineError>
    ensures written { OnOk result
        (AppendsLine (W.contents out.old.writer) (W.contents out.new.writer)) }
    ensures failure { TracksFailure out.old.has_failed out.new.has_failed result }
{
    let buffer = out.take_buffer();
    out.write_formatted(connection_line(alloc, style, places, summary, buffer))
}

/// Prints the line of a message that was complete at this time.
pub fn print_message<W: Write>(
    alloc: Global,
    style: &Style,
    places: &[usize],
    summary: &Summary<'_>,
    time: u64,
    sent: SentMessage,
    out: &mut Output<W>,
) -> Result<(), LineError>
    ensures written { OnOk result
        (AppendsLine (W.contents out.old.writer) (W.contents out.new.writer)) }
    ensures failure { TracksFailure out.old.has_failed out.new.has_failed result }
{
    out.write_formatted(style.message_line(alloc, places, summary, time, sent))
}

/// Prints the line of a certificate that arrived at this time.
pub fn print_certificate<W: Write>(
    alloc: Global,
    style: &Style,
    places: &[usize],
    summary: &Summary<'_>,
    time: u64,
    sent: &SentCertificate,
    out: &mut Output<W>,
) -> Result<(), LineError>
    ensures written { OnOk result
        (AppendsLine (W.contents out.old.writer) (W.contents out.new.writer)) }
    ensures failure { TracksFailure out.old.has_failed out.new.has_failed result }
{
    out.write_formatted(style.certificate_line(alloc, places, summary, time, sent))
}
