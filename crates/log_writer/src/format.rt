//! The header and footer of a log, and the line of a connection, in each format.
use log_fields::summary::Summary;
use log_formats::zeek;
use log_lines::{LineFormat, Style, json_line};
use std::alloc::{AllocError, Global};

/// Returns what comes before all lines, without its last line break, if there is something.
/// `opened` is the log's start, in seconds since 1970-01-01 00:00 UTC.
pub fn header(alloc: Global, style: &Style, opened: i64) -> Result<Option<Vec<u8>>, AllocError> {
    match style.format {
        LineFormat::Json | LineFormat::Suricata | LineFormat::Ecs => Ok(None),
        LineFormat::Text => Ok(Some(log_text::header(alloc)?)),
        LineFormat::Csv => Ok(Some(style.lines.csv_header(alloc)?)),
        LineFormat::Zeek => Ok(Some(style.lines.zeek_header(alloc, opened)?.into_bytes())),
    }
}

/// Returns what comes behind all lines, without its last line break, if there is something.
/// `closed` is the log's end, in seconds since 1970-01-01 00:00 UTC.
pub fn footer(alloc: Global, style: &Style, closed: i64) -> Result<Option<Vec<u8>>, AllocError> {
    match style.format {
        LineFormat::Zeek => Ok(Some(zeek::footer(alloc, closed)?.into_bytes())),
        LineFormat::Json
        | LineFormat::Csv
        | LineFormat::Text
        | LineFormat::Suricata
        | LineFormat::Ecs => Ok(None),
    }
}

/// Returns the line of a connection, without its line break: with the fields at these places of the
/// log's fields, unless the format has its own. A JSON line reuses the memory of `room`.
pub fn connection_line(
    alloc: Global,
    style: &Style,
    places: &[usize],
    summary: &Summary<'_>,
    room: Vec<u8>,
) -> Result<Vec<u8>, AllocError> {
    match style.format {
        LineFormat::Text => log_text::line(style.context(alloc, summary)),
        LineFormat::Suricata => log_suricata::line(style.context(alloc, summary)),
        LineFormat::Ecs => log_ecs::line(style.context(alloc, summary)),
        LineFormat::Json => json_line(alloc, style, places, summary, room),
        LineFormat::Csv | LineFormat::Zeek => style.row_line(alloc, places, summary),
    }
}
