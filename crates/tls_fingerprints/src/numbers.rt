//! Lists of numbers as fingerprints use them.
ghost use Rattle.std.specs.Prelude.{◌≡◌, ◌++◌, ◌∷◌, [], ◌<◌, ◌+◌, map, true, IfOk, OnOk};
ghost use Rattle.std.specs.List.{join_with_byte};
ghost use Rattle.std.specs.String.{string_bytes};
ghost use Rattle.layouts.specs.Items.{items_in};
ghost use Rattle.layouts.specs.Layout.{number};
ghost use Rattle.tls_ext.specs.InPlace.{extension_type};
ghost use Rattle.tls_fingerprints.specs.Numbers.{four_digits as four_digits_of, hex_digit as hex_digit_of, hex_list, is_grease as is_grease_number, rising, without_grease};

use itoa::{Buffer, Integer};
use layouts::Items;
use std::alloc::{AllocError, Global};
use tls_ext::ExtensionType;

/// Whether a number is a GREASE value, which peers must ignore (RFC 8701, section 2): its two bytes
/// are equal, and end in the hexadecimal digit a.
pub(crate) fn is_grease(n: u16) -> bool
    ensures { result ≡ is_grease_number n }
{
    n / 256 == n % 256 && n % 16 == 10
}

/// The numbers without GREASE, in order.
pub(crate) fn kept(alloc: Global, numbers: Items<u16>) -> Result<Vec<u16>, AllocError>
    ensures { IfOk result
        (λ v. v.items ≡ without_grease (items_in (number 2) numbers.entry.bytes.now)) }
{
    let mut kept = Vec::with_capacity(alloc, numbers.len())?;
    for n in numbers {
        if is_grease(n) {
            continue;
        }
        kept.push(n)?;
    }
    Ok(kept)
}

/// The initial capacity; most hellos have no more extensions.
const MOST_TYPES: usize = 32;

/// The types without GREASE, in order.
pub(crate) fn kept_types(alloc: Global, types: Items<ExtensionType>) -> Result<Vec<u16>, AllocError>
    ensures { IfOk result
        (λ v. v.items ≡ without_grease (items_in extension_type types.entry.bytes.now)) }
{
    let mut kept = Vec::with_capacity(alloc, MOST_TYPES)?;
    for kind in types {
        if is_grease(kind.0) {
            continue;
        }
        kept.push(kind.0)?;
    }
    Ok(kept)
}

/// Whether the numbers without GREASE are these. The comparison stops at the first difference.
pub(crate) fn are_kept(numbers: Items<u16>, known: &[u16]) -> bool
    ensures { result ≡ true
        → without_grease (items_in (number 2) numbers.entry.bytes.now) ≡ known.now }
{
    let mut left = known;
    for n in numbers {
        if is_grease(n) {
            continue;
        }
        let Some((first, others)) = left.split_first() else {
            return false;
        };
        if n != *first {
            return false;
        }
        left = others;
    }
    left.is_empty()
}

/// Whether the types without GREASE are these. The comparison stops at the first difference.
pub(crate) fn are_kept_types(types: Items<ExtensionType>, known: &[u16]) -> bool
    ensures { result ≡ true
        → without_grease (items_in extension_type types.entry.bytes.now) ≡ known.now }
{
    let mut types_left = known;
    for kind in types {
        let number = kind.0;
        if is_grease(number) {
            continue;
        }
        let Some((first, others)) = types_left.split_first() else {
            return false;
        };
        if number != *first {
            return false;
        }
        types_left = others;
    }
    types_left.is_empty()
}

/// Sorts the numbers.
pub(crate) fn rise(numbers: &mut Vec<u16>)
    ensures { numbers.new.items ≡ rising numbers.old.items }
{
    numbers.sort_unstable();
}

/// Appends a number in decimal.
pub(crate) fn add_decimal<N: Integer>(text: &mut String, n: N) -> Result<(), AllocError>
    ensures { OnOk result (string_bytes text.new ≡ string_bytes text.old ++ N.text n) }
{
    let mut buffer = Buffer::new();
    text.push_str(buffer.format(n))
}

/// Appends numbers in decimal, separated by `-`.
#[tactic(auto, using(crate::proofs::JoinLemmas::each_next))]
pub(crate) fn add_dashed<N: Integer>(text: &mut String, numbers: &[N]) -> Result<(), AllocError>
    ensures { OnOk result
        (string_bytes text.new ≡ string_bytes text.old ++ join_with_byte 45
        (map N.text numbers.now)) }
{
    let Some((first, others)) = numbers.split_first() else {
        return Ok(());
    };
    add_decimal(text, *first)?;
    for n in others {
        text.push('-')?;
        add_decimal(text, *n)?;
    }
    Ok(())
}

/// A hexadecimal digit.
pub(crate) fn hex_digit(digit: u8) -> char
    requires { digit < 16 }
    ensures is { result ≡ hex_digit_of digit }
    ensures ascii { result < 128 }
{
    if digit < 10 {
        char::from(b'0' + digit)
    } else {
        char::from(b'a' + (digit - 10))
    }
}

/// The four hexadecimal digits of a number.
pub(crate) fn four_digits(n: u16) -> [u8; 4]
    ensures { result ≡ four_digits_of n }
{
    [
        hex_digit((n / 4096) as u8) as u8,
        hex_digit((n / 256 % 16) as u8) as u8,
        hex_digit((n / 16 % 16) as u8) as u8,
        hex_digit((n % 16) as u8) as u8,
    ]
}

/// A character, and the four hexadecimal digits of a number.
pub(crate) fn led_digits(lead: u8, n: u16) -> [u8; 5]
    ensures { result ≡ lead ∷ four_digits_of n }
{
    [
        lead,
        hex_digit((n / 4096) as u8) as u8,
        hex_digit((n / 256 % 16) as u8) as u8,
        hex_digit((n / 16 % 16) as u8) as u8,
        hex_digit((n % 16) as u8) as u8,
    ]
}

/// Appends numbers as four hexadecimal digits each, separated by `,`, to a text that will be
/// hashed. The text is bytes, so that five can be copied at a time.
#[tactic(auto, using(crate::proofs::JoinLemmas::each_next))]
pub(crate) fn push_hex_list(text: &mut Vec<u8>, numbers: &[u16]) -> Result<(), AllocError>
    ensures { OnOk result (text.new.items ≡ text.old.items ++ hex_list numbers.now) }
{
    let Some((first, others)) = numbers.split_first() else {
        return Ok(());
    };
    text.extend_from_slice(&four_digits(*first))?;
    for n in others {
        text.extend_from_slice(&led_digits(b',', *n))?;
    }
    Ok(())
}

/// Appends the four hexadecimal digits of a number.
fn add_four_digits(text: &mut String, n: u16) -> Result<(), AllocError>
    ensures { OnOk result (string_bytes text.new ≡ string_bytes text.old ++ four_digits_of n) }
{
    text.push(hex_digit((n / 4096) as u8))?;
    text.push(hex_digit((n / 256 % 16) as u8))?;
    text.push(hex_digit((n / 16 % 16) as u8))?;
    text.push(hex_digit((n % 16) as u8))
}

/// Appends numbers as four hexadecimal digits each, separated by `,`.
#[tactic(auto, using(crate::proofs::JoinLemmas::each_next))]
pub(crate) fn add_hex_list(text: &mut String, numbers: &[u16]) -> Result<(), AllocError>
    ensures { OnOk result (string_bytes text.new ≡ string_bytes text.old ++ hex_list numbers.now) }
{
    let Some((first, others)) = numbers.split_first() else {
        return Ok(());
    };
    add_four_digits(text, *first)?;
    for n in others {
        text.push(',')?;
        add_four_digits(text, *n)?;
    }
    Ok(())
}
