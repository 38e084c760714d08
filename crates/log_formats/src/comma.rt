//! Comma-separated values (RFC 4180).
use crate::cell::{Cell, Row};
use crate::column::Column;
use crate::objects::json_text;
use crate::text::add_text;
use csv::WriterBuilder;
use std::alloc::{AllocError, Global};

/// Converts an error that can only be a lack of memory.
fn in_memory<T, E: Drop>(made: Result<T, E>) -> Result<T, AllocError> {
    match made {
        Ok(value) => Ok(value),
        Err(_) => Err(AllocError),
    }
}

/// How texts are written that a spreadsheet takes for formulas.
#[derive(Clone, Copy, Debug, PartialEq, Eq)]
pub enum Formulas {
    /// With a `'` in front, so that a spreadsheet shows them.
    Marked,
    /// Unchanged.
    Raw,
}

/// Returns whether a spreadsheet takes a text for a formula.
fn is_formula(text: &str) -> bool {
    matches!(
        text.as_bytes().first(),
        Some(b'=' | b'+' | b'-' | b'@' | b'\t' | b'\r')
    )
}

/// Returns a text as a spreadsheet's cell.
fn cell_text(alloc: Global, text: String, formulas: Formulas) -> Result<String, AllocError> {
    if formulas == Formulas::Raw || !is_formula(text.as_str()) {
        return Ok(text);
    }
    let mut marked = String::from_str(alloc, "'")?;
    marked.push_str(text.as_str())?;
    Ok(marked)
}

/// Returns a cell as a comma-separated value: empty if it is missing, text unchanged, or else JSON.
fn field_text(
    alloc: Global,
    cell: &Option<Cell<'_>>,
    formulas: Formulas,
) -> Result<String, AllocError> {
    match cell {
        None => Ok(String::new(alloc)),
        Some(Cell::Text(text)) => cell_text(alloc, text.to_string(alloc)?, formulas),
        Some(Cell::Json(text)) => String::from_str(alloc, text.as_str()),
        Some(other) => json_text(alloc, other, 32),
    }
}

/// Returns a record of comma-separated values, without its line break.
fn record(alloc: Global, fields: &[String]) -> Result<Vec<u8>, AllocError> {
    let mut writer = WriterBuilder::new().from_writer(Vec::new(alloc));
    for field in fields {
        in_memory(writer.write_field(field.as_bytes()))?;
    }
    in_memory(writer.end_record())?;
    let mut line = in_memory(writer.into_inner())?;
    line.pop();
    Ok(line)
}

/// Returns a row as a record of comma-separated values, without its line break.
pub fn line(alloc: Global, row: &Row<'_>, formulas: Formulas) -> Result<Vec<u8>, AllocError> {
    let mut fields = Vec::new(alloc);
    for (_name, cell) in &row.cells {
        add_text(&mut fields, field_text(alloc, cell, formulas))?;
    }
    record(alloc, fields.as_slice())
}

fn names_of<T>(
    alloc: Global,
    table: &[Column<T>],
    places: &[usize],
) -> Result<Vec<String>, AllocError> {
    let mut names = Vec::new(alloc);
    for place in places {
        if let Some(column) = table.get(*place) {
            add_text(&mut names, String::from_str(alloc, column.0))?;
        }
    }
    Ok(names)
}

/// Returns the line with the names of the fields at these places.
pub fn header<T>(
    alloc: Global,
    table: &[Column<T>],
    places: &[usize],
) -> Result<Vec<u8>, AllocError> {
    let names = names_of(alloc, table, places)?;
    record(alloc, names.as_slice())
}
