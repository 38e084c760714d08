//! Connections as readable text: one a line, in aligned columns, at most 160 characters. Values
//! longer than their column are truncated.
use connections::End;
use log_fields::connection::{cell_of, microseconds};
use log_fields::context::FieldContext;
use log_fields::fields::{Field, Fingerprint, Lifecycle, Negotiation};
use log_fields::summary::Summary;
use log_formats::cell::Cell;
use log_formats::objects::json_text;
use std::alloc::{AllocError, Global};
use std::net::IpAddr;
use x509_text::time_text;

/// A missing value.
const UNSET: &str = "-";

/// What stands for the truncated part of a value.
const ELLIPSIS: &str = "..";

/// The value of a column.
#[derive(Clone, Copy)]
enum ColumnValue {
    /// A field of the connection's line.
    Field(Field),
    /// The start time.
    Time,
    /// The originator's address.
    Client,
    /// The responder's address and port.
    Server,
    /// The cipher suite without its `TLS_` prefix.
    Suite,
    /// The duration in seconds.
    Duration,
}

/// Which end of a truncated value is kept.
#[derive(Clone, Copy)]
enum KeptEnd {
    Front,
    Back,
}

/// The columns: the name, the width in characters, which end of a truncated value is kept, and the
/// value.
static COLUMNS: [(&str, usize, KeptEnd, ColumnValue); 10] = [
    ("time (UTC)", 14, KeptEnd::Front, ColumnValue::Time),
    ("client", 15, KeptEnd::Back, ColumnValue::Client),
    ("server", 21, KeptEnd::Back, ColumnValue::Server),
    (
        "host",
        18,
        KeptEnd::Back,
        ColumnValue::Field(Field::Negotiation(Negotiation::ServerName)),
    ),
    (
        "version",
        7,
        KeptEnd::Front,
        ColumnValue::Field(Field::Negotiation(Negotiation::Version)),
    ),
    ("suite", 18, KeptEnd::Back, ColumnValue::Suite),
    (
        "alpn",
        6,
        KeptEnd::Front,
        ColumnValue::Field(Field::Negotiation(Negotiation::NextProtocol)),
    ),
    (
        "ja4",
        36,
        KeptEnd::Front,
        ColumnValue::Field(Field::Fingerprint(Fingerprint::Ja4)),
    ),
    ("secs", 6, KeptEnd::Front, ColumnValue::Duration),
    (
        "outcome",
        10,
        KeptEnd::Front,
        ColumnValue::Field(Field::Lifecycle(Lifecycle::Outcome)),
    ),
];

/// Returns a value as text.
fn cell_text(alloc: Global, cell: Option<Cell<'_>>) -> Result<String, AllocError> {
    match cell {
        None => String::from_str(alloc, UNSET),
        Some(Cell::Text(text)) => text.to_string(alloc),
        Some(other) => json_text(alloc, &other, 32),
    }
}

/// Returns the month, day and time of day of the first packet.
fn time_of(alloc: Global, summary: &Summary<'_>) -> Result<String, AllocError> {
    let seconds = (summary.first_time / 1_000_000_000) as i64;
    let Some(whole) = time_text(alloc, seconds)? else {
        return String::from_str(alloc, UNSET);
    };
    let mut text = String::new(alloc);
    for byte in whole.as_bytes().iter().skip(5).take(14) {
        text.push(match *byte {
            b'T' => ' ',
            other => char::from(other),
        })?;
    }
    Ok(text)
}

/// Returns an address and port, with an IPv6 address in brackets (RFC 3986, section 3.2.2).
fn end_text(alloc: Global, end: End) -> Result<String, AllocError> {
    match end.address {
        IpAddr::V4(address) => format!(in alloc; "{address}:{}", end.port),
        IpAddr::V6(address) => format!(in alloc; "[{address}]:{}", end.port),
    }
}

/// Returns the duration of a connection in seconds, in at most 6 characters up to 11 days.
fn duration_text(alloc: Global, summary: &Summary<'_>) -> Result<String, AllocError> {
    let duration = summary.last_time.saturating_sub(summary.first_time);
    let milliseconds = microseconds(duration) / 1000;
    let (seconds, part) = (milliseconds / 1000, milliseconds % 1000);
    match seconds {
        0..=99 => format!(in alloc; "{seconds}.{part:03}"),
        100..=999 => format!(in alloc; "{seconds}.{:02}", part / 10),
        _ => format!(in alloc; "{seconds}"),
    }
}

/// Returns the cipher suite without its `TLS_` prefix.
fn suite_text(alloc: Global, context: &mut FieldContext<'_>) -> Result<String, AllocError> {
    let text = cell_text(
        alloc,
        cell_of(context, &Field::Negotiation(Negotiation::Cipher))?,
    )?;
    match text.as_str().strip_prefix("TLS_") {
        Some(name) => String::from_str(alloc, name),
        None => Ok(text),
    }
}

/// Returns the text of a column for a connection.
fn column_text(
    alloc: Global,
    context: &mut FieldContext<'_>,
    value: ColumnValue,
) -> Result<String, AllocError> {
    let summary = context.summary;
    match value {
        ColumnValue::Field(field) => cell_text(alloc, cell_of(context, &field)?),
        ColumnValue::Time => time_of(alloc, summary),
        ColumnValue::Client => format!(in alloc; "{}", summary.originator.end.address),
        ColumnValue::Server => end_text(alloc, summary.responder.end),
        ColumnValue::Suite => suite_text(alloc, context),
        ColumnValue::Duration => duration_text(alloc, summary),
    }
}

/// Escapes each byte that isn't printable ASCII, so that no text contains a terminal's control
/// sequences.
fn printable(alloc: Global, text: &str) -> Result<String, AllocError> {
    let mut escaped = String::new(alloc);
    for byte in text.as_bytes() {
        match *byte {
            b' '..=b'~' => escaped.push(char::from(*byte))?,
            other => escaped.push_str(format!(in alloc; "\\x{other:02x}")?.as_str())?,
        }
    }
    Ok(escaped)
}

/// Appends these bytes, which are printable ASCII.
fn add_bytes(line: &mut String, bytes: &[u8]) -> Result<(), AllocError> {
    for byte in bytes {
        line.push(char::from(*byte))?;
    }
    Ok(())
}

/// Appends a text of printable ASCII. If it has more than `width` characters, an ellipsis replaces
/// the end that isn't kept.
fn add_truncated(
    line: &mut String,
    text: &[u8],
    width: usize,
    end: KeptEnd,
) -> Result<(), AllocError> {
    let room = width.saturating_sub(ELLIPSIS.len());
    if text.len() <= width {
        return add_bytes(line, text);
    }
    match end {
        KeptEnd::Front => {
            add_bytes(line, text.get(..room).unwrap_or(&[]))?;
            line.push_str(ELLIPSIS)
        }
        KeptEnd::Back => {
            let begin = text.len().saturating_sub(room);
            line.push_str(ELLIPSIS)?;
            add_bytes(line, text.get(begin..).unwrap_or(&[]))
        }
    }
}

/// Appends a text as the next column, `width` characters wide, behind a space.
fn add_column(
    alloc: Global,
    line: &mut String,
    text: &str,
    width: usize,
    end: KeptEnd,
) -> Result<(), AllocError> {
    let text = printable(alloc, text)?;
    if !line.is_empty() {
        line.push(' ')?;
    }
    add_truncated(line, text.as_bytes(), width, end)?;
    for _ in text.len()..width {
        line.push(' ')?;
    }
    Ok(())
}

/// Returns the line without the spaces at its end.
fn without_end(line: String) -> Vec<u8> {
    let mut bytes = line.into_bytes();
    'blanks: for _ in 0..bytes.len() {
        match bytes.last() {
            Some(b' ') => bytes.pop(),
            _ => break,
        };
    }
    bytes
}

/// Returns the line of column names, without a line break.
pub fn header(alloc: Global) -> Result<Vec<u8>, AllocError> {
    let mut line = String::new(alloc);
    for (name, width, end, _value) in &COLUMNS {
        add_column(alloc, &mut line, name, *width, *end)?;
    }
    Ok(without_end(line))
}

/// Returns the line of a connection, without a line break.
pub fn line(context: FieldContext<'_>) -> Result<Vec<u8>, AllocError> {
    let alloc = context.alloc;
    let mut context = context;
    let mut line = String::new(alloc);
    for (_name, width, end, value) in &COLUMNS {
        let text = column_text(alloc, &mut context, *value)?;
        add_column(alloc, &mut line, text.as_str(), *width, *end)?;
    }
    Ok(without_end(line))
}
