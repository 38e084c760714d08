//! Bytes in hexadecimal.
ghost use Rattle.std.specs.Prelude.{◌≡◌, ◌++◌, ◌<◌, IfOk, OnOk};
ghost use Rattle.std.specs.Char.{digit_char};
ghost use Rattle.std.specs.String.{string_bytes};
ghost use Rattle.der.specs.Element.{view_element};
ghost use Rattle.der.specs.Text.{element_text, length_text};
ghost use Rattle.hex.specs.Hex.{encode_upper};
ghost use Rattle.x509_text.specs.Hexadecimal.{dump_text, hex_digit as hex_digit_of};

use der::Element;
use std::alloc::{AllocError, Global};

/// A hexadecimal digit, in upper case.
pub(crate) fn hex_digit(digit: u8) -> char
    requires { digit < 16 }
    ensures is { result ≡ hex_digit_of digit }
    ensures ascii { result < 128 }
{
    if digit < 10 {
        char::from(b'0' + digit)
    } else {
        char::from(b'A' + (digit - 10))
    }
}

/// A hexadecimal digit, in lower case.
pub(crate) fn lower_hex_digit(digit: u8) -> char
    requires { digit < 16 }
    ensures is { result ≡ digit_char digit }
    ensures ascii { result < 128 }
{
    if digit < 10 {
        char::from(b'0' + digit)
    } else {
        char::from(b'a' + (digit - 10))
    }
}

/// Appends bytes in upper-case hexadecimal.
pub(crate) fn add_hex(alloc: Global, text: &mut String, bytes: &[u8]) -> Result<(), AllocError>
    ensures { OnOk result
        (string_bytes text.new ≡ string_bytes text.old ++ encode_upper bytes.now) }
{
    let digits = hex::encode_upper(alloc, bytes)?;
    text.push_str(digits.as_str())
}

/// Appends a length in DER.
fn add_length(bytes: &mut Vec<u8>, n: usize) -> Result<(), AllocError>
    ensures { OnOk result (bytes.new.items ≡ bytes.old.items ++ length_text n) }
{
    let low = (n % 0x100) as u8;
    let middle = (n / 0x100 % 0x100) as u8;
    let high = (n / 0x100 / 0x100 % 0x100) as u8;
    if n < 0x80 {
        bytes.extend_from_slice(&[n as u8])
    } else if n < 0x100 {
        bytes.extend_from_slice(&[0x81, low])
    } else if n < 0x1_0000 {
        bytes.extend_from_slice(&[0x82, middle, low])
    } else {
        bytes.extend_from_slice(&[0x83, high, middle, low])
    }
}

/// The bytes of an element in DER.
fn element_bytes(alloc: Global, element: Element) -> Result<Vec<u8>, AllocError>
    ensures { IfOk result (λ v. v.items ≡ element_text (view_element element.entry)) }
{
    let mut bytes = Vec::new(alloc);
    bytes.push(element.tag)?;
    add_length(&mut bytes, element.content.len())?;
    bytes.extend_from_slice(element.content)?;
    Ok(bytes)
}

/// Appends `#` and the bytes of an element in hexadecimal.
pub(crate) fn add_dump(alloc: Global, text: &mut String, element: Element) -> Result<(), AllocError>
    ensures { OnOk result
        (string_bytes text.new ≡ string_bytes text.old ++ dump_text (view_element element.entry)) }
{
    let bytes = element_bytes(alloc, element)?;
    text.push('#')?;
    add_hex(alloc, text, bytes.as_slice())
}
