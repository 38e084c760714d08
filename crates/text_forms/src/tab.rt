//! Values in Zeek's logs, which have tabs between them (docs.zeek.org, "Zeek Log Formats and
//! Inspection").
ghost use Rattle.std.specs.Prelude.{◌≡◌, ◌++◌, ◌==◌, OnOk, flat_map, length};
ghost use Rattle.std.specs.String.{string_bytes};
ghost use Rattle.text_forms.specs.Tab.{begins_with_hash, byte_text, is_ambiguous};
ghost use Rattle.text_forms.specs.Tab.{is_unprintable, value_text};

use crate::hexadecimal::push_code;
use std::alloc::{AllocError, Global};

/// A missing value.
pub const UNSET: &str = "-";

/// An empty text or list.
pub const EMPTY: &str = "(empty)";

/// Returns whether a byte of a text, or of a text in a list, is written in hexadecimal.
fn is_escaped(byte: u8, is_listed: bool) -> bool
    ensures { result ≡ is_unprintable is_listed byte }
{
    !(b' ' <= byte && byte <= b'~') || (is_listed && byte == b',')
}

/// Appends a byte of a text, or of a text in a list.
fn push_byte(alloc: Global, line: &mut String, byte: u8, is_listed: bool) -> Result<(), AllocError>
    ensures { OnOk result
        (string_bytes line.new ≡ string_bytes line.old ++ byte_text is_listed byte) }
{
    if byte == b'\\' {
        line.push_str("\\\\")
    } else if is_escaped(byte, is_listed) {
        push_code(alloc, line, byte)
    } else {
        line.push(char::from(byte))
    }
}

/// Returns whether a text begins like the lines of Zeek's own.
fn begins_meta(text: &[u8]) -> bool
    ensures { result ≡ begins_with_hash text.now }
{
    match text.first() {
        Some(byte) => *byte == b'#',
        None => false,
    }
}

/// Returns whether a text could be taken for something else.
fn is_other(text: &[u8], is_at_start: bool) -> bool
    ensures { result ≡ is_ambiguous is_at_start text.now }
{
    (is_at_start && begins_meta(text)) || text == UNSET.as_bytes() || text == EMPTY.as_bytes()
}

/// Appends the bytes of a text behind its first.
fn push_rest(
    alloc: Global,
    line: &mut String,
    rest: &[u8],
    is_listed: bool,
) -> Result<(), AllocError>
    ensures { OnOk result (string_bytes line.new
        ≡ string_bytes line.old ++ flat_map (byte_text is_listed) rest.now) }
{
    for byte in rest {
        push_byte(alloc, line, *byte, is_listed)?;
    }
    Ok(())
}

/// Appends a text to a line, alone or as one of a list.
pub fn push_value(
    alloc: Global,
    line: &mut String,
    text: &str,
    is_listed: bool,
) -> Result<(), AllocError>
    ensures { OnOk result (string_bytes line.new ≡ string_bytes line.old
        ++ value_text (length (string_bytes line.old) == 0) is_listed text.now) }
{
    let bytes = text.as_bytes();
    let Some((first, rest)) = bytes.split_first() else {
        return line.push_str(EMPTY);
    };
    if is_other(bytes, line.is_empty()) {
        push_code(alloc, line, *first)?;
    } else {
        push_byte(alloc, line, *first, is_listed)?;
    }
    push_rest(alloc, line, rest, is_listed)
}
