//! Prints the lines of connections, messages and certificates.
ghost use Rattle.std.specs.Prelude.{◌≡◌, true, OnOk};
ghost use Rattle.std.specs.Io.KnownBytes.{Keeps};
ghost use Rattle.log_connections.specs.Sink.{TakesPieces};
ghost use Rattle.log_io.specs.Output.{TracksFailure};
ghost use Rattle.tlslog.specs.Lines.{LogsConnection, are_connections};
ghost use Rattle.tlslog.specs.Pieces.{piece_kind};

use connections::Connection;
use log_captures::LinePrinter;
use log_connections::PieceKind;
use log_io::{LineError, Output};
use log_lines::{Lines, Style};
use log_summaries::{
    Analysis, CollectedPieces, piece_count, summary, take_certificates, take_messages,
};
use log_writer::{print_certificate, print_message, print_row};
use std::alloc::Global;
use std::io::Write;

/// Prints the line of a connection that is over, if it speaks TLS or DTLS and connections are
/// logged.
#[tactic(auto, using(crate::proofs::LineLemmas::logs_none, crate::proofs::LineLemmas::logs_one))]
fn print_line<W: Write>(
    alloc: Global,
    style: &Style,
    connection: &Connection<Analysis>,
    out: &mut Output<W>,
) -> Result<(), LineError>
    ensures logged { LogsConnection style.now.lines connection.now (W.contents out.old.writer)
        (W.contents out.new.writer) result }
    ensures failure { TracksFailure out.old.has_failed out.new.has_failed result }
{
    if !connection.attachment.is_tls_or_dtls() {
        return Ok(());
    }
    match &style.lines {
        Lines::Connections(places) => {
            print_row(alloc, style, places.as_slice(), &summary(connection), out)
        }
        Lines::Messages(_) | Lines::Certificates(_) => Ok(()),
    }
}

/// Prints and forgets the messages of a connection that were complete at this time, up to the limit
/// of its lines.
fn print_messages<W: Write>(
    alloc: Global,
    printer: &StylePrinter,
    places: &[usize],
    connection: &mut Connection<Analysis>,
    time: u64,
    out: &mut Output<W>,
) -> Result<(), LineError>
    ensures failure { TracksFailure out.old.has_failed out.new.has_failed result }
    ensures taken { TakesPieces connection.old connection.new }
{
    let all = take_messages(alloc, &mut connection.attachment);
    let summary = summary(connection);
    'messages: for sent in all {
        if sent.number < printer.most_lines {
            print_message(alloc, &printer.style, places, &summary, time, sent, out)?;
        }
    }
    Ok(())
}

/// Prints and forgets the certificates of a connection that arrived at this time, up to the limit
/// of its lines.
fn print_certificates<W: Write>(
    alloc: Global,
    printer: &StylePrinter,
    places: &[usize],
    connection: &mut Connection<Analysis>,
    time: u64,
    out: &mut Output<W>,
) -> Result<(), LineError>
    ensures failure { TracksFailure out.old.has_failed out.new.has_failed result }
    ensures taken { TakesPieces connection.old connection.new }
{
    let all = take_certificates(alloc, &mut connection.attachment);
    let summary = summary(connection);
    'certificates: for sent in &all {
        if sent.number < printer.most_lines {
            print_certificate(alloc, &printer.style, places, &summary, time, sent, out)?;
        }
    }
    Ok(())
}

/// Prints the connection's messages or certificates that were complete at this time, if those are
/// logged.
#[tactic(auto, using(log_io::proofs::WriteLemmas::keeps_itself))]
fn print_pieces<W: Write>(
    alloc: Global,
    printer: &StylePrinter,
    connection: &mut Connection<Analysis>,
    time: u64,
    out: &mut Output<W>,
) -> Result<(), LineError>
    ensures none { are_connections printer.now.style.lines ≡ true
        → OnOk result (Keeps (W.contents out.old.writer) (W.contents out.new.writer)) }
    ensures failure { TracksFailure out.old.has_failed out.new.has_failed result }
    ensures taken { TakesPieces connection.old connection.new }
{
    match &printer.style.lines {
        Lines::Connections(_) => Ok(()),
        Lines::Messages(places) => {
            print_messages(alloc, printer, places.as_slice(), connection, time, out)
        }
        Lines::Certificates(places) => {
            print_certificates(alloc, printer, places.as_slice(), connection, time, out)
        }
    }
}

/// Prints the last messages or certificates of a connection that is over, or its line.
fn print_last<W: Write>(
    alloc: Global,
    printer: &StylePrinter,
    connection: &mut Connection<Analysis>,
    time: u64,
    out: &mut Output<W>,
) -> Result<(), LineError>
    ensures { TracksFailure out.old.has_failed out.new.has_failed result }
{
    print_pieces(alloc, printer, connection, time, out)?;
    print_line(alloc, &printer.style, connection, out)
}

/// Prints lines in a style.
#[derive(Drop)]
pub struct StylePrinter {
    /// How lines are written.
    pub style: Style,
    /// How many lines of messages or certificates a connection may have.
    pub most_lines: u64,
}

impl LinePrinter<CollectedPieces> for StylePrinter {
    ghost use Rattle.log_summaries.specs.Pieces.{collector_of, piece_count_in};

    ghost pieces = { λ _ c. piece_count_in (collector_of c.attachment) };

    ghost most = { λ p. p.most_lines };

    fn piece_count(&self, connection: &Connection<Analysis>) -> u64 {
        piece_count(&connection.attachment)
    }

    fn most_lines(&self) -> u64 {
        self.most_lines
    }

    fn print_pieces<W: Write>(
        &self,
        alloc: Global,
        connection: &mut Connection<Analysis>,
        time: u64,
        out: &mut Output<W>,
    ) -> Result<(), LineError> {
        print_pieces(alloc, self, connection, time, out)
    }

    fn print_last<W: Write>(
        &self,
        alloc: Global,
        connection: &mut Connection<Analysis>,
        time: u64,
        out: &mut Output<W>,
    ) -> Result<(), LineError> {
        print_last(alloc, self, connection, time, out)
    }
}

/// Returns which pieces of connections are kept until they are printed.
pub fn piece_kind_of(style: &Style) -> Option<PieceKind>
    ensures { result ≡ piece_kind style.now }
{
    match &style.lines {
        Lines::Connections(_) if style.has_chains() => Some(PieceKind::Chains),
        Lines::Connections(_) => None,
        Lines::Messages(_) if style.suites.are_numbered() => Some(PieceKind::NumberedMessages),
        Lines::Messages(_) => Some(PieceKind::Messages),
        Lines::Certificates(_) => Some(PieceKind::Certificates),
    }
}
