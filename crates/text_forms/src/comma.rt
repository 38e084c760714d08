//! Comma-separated values (RFC 4180).
ghost use Rattle.std.specs.Prelude.{◌≡◌, IfOk, map};
ghost use Rattle.std.specs.String.{string_bytes};
ghost use Rattle.text_forms.specs.Comma.{IsRecord};
ghost use Rattle.csv.specs.Writing.{default_writer, row_text};

use csv::{Error, WriterBuilder};
use std::alloc::{AllocError, Global};

/// Returns a record with its line break.
fn row(alloc: Global, fields: &[&[u8]]) -> Result<Vec<u8>, Error>
    ensures { IfOk result (λ row.
        row.items ≡ row_text default_writer (map (λ f. f.now) fields.now)) }
{
    let mut writer = WriterBuilder::new().from_writer(Vec::new(alloc));
    writer.write_fields(fields)?;
    match writer.into_inner() {
        Ok(row) => Ok(row),
        Err(e) => Err(e.into_error()),
    }
}

/// Returns the bytes of each text.
fn bytes_of<'a>(alloc: Global, texts: &'a [String]) -> Result<Vec<&'a [u8]>, AllocError>
    ensures { IfOk result (λ all. map (λ f. f.now) all.items ≡ map string_bytes texts.now) }
{
    let mut all = Vec::new(alloc);
    for text in texts {
        all.push(text.as_bytes())?;
    }
    Ok(all)
}

/// Returns a record of these fields, without its line break.
pub fn record(alloc: Global, fields: &[String]) -> Result<Vec<u8>, AllocError>
    ensures { IfOk result (λ line. IsRecord (map string_bytes fields.now) line.items) }
{
    let fields = bytes_of(alloc, fields)?;
    match row(alloc, fields.as_slice()) {
        Ok(mut line) => {
            line.pop();
            Ok(line)
        }
        Err(_) => Err(AllocError),
    }
}
