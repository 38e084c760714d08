//! Several lists of a line joined into one.
use crate::connection::cell_of;
use crate::context::FieldContext;
use crate::fields::Field;
use log_formats::cell::Cell;
use log_formats::lists::{Texts, some_texts};
use std::alloc::AllocError;

/// Appends the texts of a field that is a list.
fn add_texts(
    context: &mut FieldContext<'_>,
    field: &Field,
    all: &mut Vec<String>,
) -> Result<(), AllocError> {
    if let Some(Cell::Texts(Texts::Owned(texts))) = cell_of(context, field)? {
        'texts: for text in texts {
            all.push(text)?;
        }
    }
    Ok(())
}

/// Returns the texts of several list fields as one list; `None` if there are none.
pub fn joined_list_cell<'a>(
    context: &mut FieldContext<'_>,
    fields: &[Field],
) -> Result<Option<Cell<'a>>, AllocError> {
    let mut all = Vec::new(context.alloc);
    for field in fields {
        add_texts(context, field, &mut all)?;
    }
    Ok(some_texts(Texts::Owned(all)))
}
