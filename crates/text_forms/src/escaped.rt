//! Bytes that a peer sent, as printable ASCII.
ghost use Rattle.std.specs.Prelude.{◌≡◌, ◌++◌, IfOk, OnOk, flat_map};
ghost use Rattle.std.specs.String.{string_bytes};
ghost use Rattle.std.specs.Char.Escape.{short_escape};
ghost use Rattle.text_forms.specs.Escaped.{escaped_byte, escaped_text as escaped_text_of};

use crate::hexadecimal::push_code;
use std::alloc::{AllocError, Global};

/// Returns the letter that is written behind a `\` for a byte; 0 for a byte without one.
fn letter(byte: u8) -> u8
    ensures { result ≡ short_escape byte }
{
    match byte {
        b'\t' => b't',
        b'\r' => b'r',
        b'\n' => b'n',
        b'\'' | b'"' | b'\\' => byte,
        _ => 0,
    }
}

/// Appends a byte that is escaped if it isn't printable ASCII, a quote or `\`.
fn push_byte(alloc: Global, text: &mut String, byte: u8) -> Result<(), AllocError>
    ensures { OnOk result (string_bytes text.new ≡ string_bytes text.old ++ escaped_byte byte) }
{
    let letter = letter(byte);
    if letter > 0 {
        text.push('\\')?;
        text.push(char::from(letter))
    } else if b' ' <= byte && byte <= b'~' {
        text.push(char::from(byte))
    } else {
        push_code(alloc, text, byte)
    }
}

/// Returns bytes as printable ASCII. All others are escaped as `\xff`, some as `\n`; quotes and `\`
/// have a `\` in front.
pub fn escaped_text(alloc: Global, bytes: &[u8]) -> Result<String, AllocError>
    ensures { IfOk result (λ text. string_bytes text ≡ escaped_text_of bytes.now) }
{
    let mut text = String::new(alloc);
    for byte in bytes {
        push_byte(alloc, &mut text, *byte)?;
    }
    Ok(text)
}
