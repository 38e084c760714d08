//! Times as text, to the microsecond.
use crate::connection::microseconds;
use log_formats::cell::Cell;
use log_formats::text::Text;
use std::alloc::{AllocError, Global};
use x509_text::time_text;

/// Returns a time in nanoseconds since 1970-01-01 00:00 UTC as 2026-11-26T17:00:00.000000 with the
/// time zone behind it; `None` if the calendar doesn't have it.
pub fn timestamp_cell(
    alloc: Global,
    time: u64,
    zone: &str,
) -> Result<Option<Cell<'static>>, AllocError> {
    let Some(mut text) = time_text(alloc, (time / 1_000_000_000) as i64)? else {
        return Ok(None);
    };
    text.pop();
    let part = microseconds(time) % 1_000_000;
    text.push_str(format!(in alloc; ".{part:06}{zone}")?.as_str())?;
    Ok(Some(Cell::Text(Text::Owned(text))))
}
