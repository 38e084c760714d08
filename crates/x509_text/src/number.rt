//! Serial numbers as texts (RFC 5280, section 4.1.2.2).
ghost use Rattle.std.specs.Prelude.{◌≡◌, ◌-◌, ◌%◌, ◌++◌, true, IfOk, if◌then◌else◌};
ghost use Rattle.std.specs.String.{string_bytes};
ghost use Rattle.x509_text.specs.Number.{is_negative as is_negative_number, negated as negated_of, serial_number_text as serial_number_text_of, without_padding as without_padding_of};

use crate::hexadecimal::add_hex;
use std::alloc::{AllocError, Global};

/// Whether an INTEGER is negative.
pub(crate) fn is_negative(number: &[u8]) -> bool
    ensures { result ≡ is_negative_number number.now }
{
    match number {
        [first, ..] => *first >= 128,
        [] => false,
    }
}

/// The bytes of a number without the leading 0 that keeps it from being negative.
pub(crate) fn without_padding(number: &[u8]) -> &[u8]
    ensures { result.now ≡ without_padding_of number.now }
{
    match number {
        [0, _, ..] => &number[1..],
        _ => number,
    }
}

/// A byte of a negative number's absolute value. `zeros` is whether all lower bytes are 0.
fn negated_byte(byte: u8, zeros: bool) -> u8
    ensures { result ≡ (if zeros then (256 - byte) % 256 else 255 - byte) }
{
    if zeros {
        return ((256 - byte as u16) % 256) as u8;
    }
    255 - byte
}

/// The bytes of the absolute value of a negative number.
fn negated(alloc: Global, number: &[u8]) -> Result<Vec<u8>, AllocError>
    ensures { IfOk result (λ v. v.items ≡ negated_of number.now) }
{
    let mut from_lowest = Vec::from_slice(alloc, number)?;
    from_lowest.as_mut_slice().reverse();
    let mut negated = Vec::new(alloc);
    let mut zeros = true;
    for byte in from_lowest.as_slice() {
        negated.push(negated_byte(*byte, zeros))?;
        zeros = zeros && *byte == 0;
    }
    negated.as_mut_slice().reverse();
    Ok(negated)
}

/// A serial number as text, from the bytes of its INTEGER: in upper-case hexadecimal, two digits a
/// byte, after `-` if it is negative.
///
/// The leading 0 that keeps a number from being negative is left out. OpenSSL prints the same
/// (`i2a_ASN1_INTEGER`), except that it breaks more than 35 bytes into lines. `AllocError` if there
/// is no memory for the text.
pub fn serial_number_text(alloc: Global, serial_number: &[u8]) -> Result<String, AllocError>
    ensures { IfOk result (λ text. string_bytes text ≡ serial_number_text_of serial_number.now) }
{
    let mut text = String::new(alloc);
    if is_negative(serial_number) {
        let magnitude = negated(alloc, serial_number)?;
        text.push('-')?;
        add_hex(alloc, &mut text, without_padding(magnitude.as_slice()))?;
    } else {
        add_hex(alloc, &mut text, without_padding(serial_number))?;
    }
    Ok(text)
}
