//! Rows as nested objects.
use log_formats::cell::Row;
use serde::{Described, Serialize, Serializer};

/// The names of the objects around a value, outermost first.
pub type Path = &'static [&'static str];

/// Rows, each in the object at its path. Paths with the same beginning are adjacent, so that each
/// object is opened once.
#[derive(Drop)]
pub struct Nested<'a> {
    /// The rows with their paths.
    pub rows: Vec<(Path, Row<'a>)>,
}

impl Described for Nested<'_> {}

/// Returns how many names both paths have in common at their beginning.
fn shared_by(one: Path, other: Path) -> usize {
    let mut shared: usize = 0;
    for (name, its) in one.iter().zip(other.iter()) {
        if *name != *its {
            break;
        }
        shared = shared.saturating_add(1);
    }
    shared
}

/// Closes this many objects.
fn end_objects<S: Serializer>(count: usize, out: &mut S) -> Result<(), S::Error> {
    for _ in 0..count {
        out.end_map()?;
    }
    Ok(())
}

/// Closes the objects of one path and opens those of another, except the common ones.
fn go_to<S: Serializer>(from: Path, to: Path, out: &mut S) -> Result<(), S::Error> {
    let shared = shared_by(from, to);
    end_objects(from.len().saturating_sub(shared), out)?;
    for name in to.iter().skip(shared) {
        out.key(name)?;
        out.begin_map(None)?;
    }
    Ok(())
}

/// Returns whether a row has a field that isn't missing.
fn has_field(row: &Row<'_>) -> bool {
    for (_name, cell) in &row.cells {
        if cell.is_some() {
            return true;
        }
    }
    false
}

/// An object without missing fields and empty objects.
impl Serialize for Nested<'_> {
    fn serialize<S: Serializer>(&self, out: &mut S) -> Result<(), S::Error> {
        let mut open: Path = &[];
        out.begin_map(None)?;
        for (path, row) in &self.rows {
            if has_field(row) {
                go_to(open, *path, out)?;
                row.serialize_fields(out)?;
                open = *path;
            }
        }
        end_objects(open.len(), out)?;
        out.end_map()
    }
}
