//! Hashes texts while they are produced, so that none is stored.
ghost use Rattle.std.specs.Prelude.{◌≡◌, ◌++◌, ◌∷◌, List, ℕ, map};
ghost use Rattle.std.specs.List.{join_with_byte};
ghost use Rattle.md5.specs.Md5.{Holds};
ghost use Rattle.sha2.specs.Hashers.{Holds256};
ghost use Rattle.layouts.specs.Items.{items_in};
ghost use Rattle.layouts.specs.Layout.{number};
ghost use Rattle.tls_ext.specs.InPlace.{extension_type};
ghost use Rattle.tls_fingerprints.specs.Ja4.{with_algorithms};
ghost use Rattle.tls_fingerprints.specs.Numbers.{behind_others, dashed, has_any, lead_byte, hex_list, without_grease};

use crate::numbers::{four_digits, is_grease, led_digits};
use itoa::{Buffer, Integer};
use layouts::Items;
use md5::{Digest as Md5Digest, Md5};
use sha2::{Digest as Sha2Digest, Sha256};
use tls_ext::ExtensionType;

/// Hashes a number in decimal.
pub(crate) fn feed_decimal<N: Integer>(text: &mut Md5, n: N)
    ensures { (m : List ℕ) → Holds text.old m → Holds text.new (m ++ N.text n) }
{
    let mut buffer = Buffer::new();
    let digits = buffer.format(n);
    text.update(digits.as_bytes());
}

/// Hashes a number in decimal, after `-` unless it is the first of its list.
fn feed_next<N: Integer>(text: &mut Md5, is_first: bool, n: N)
    ensures { (m : List ℕ) → Holds text.old m
        → Holds text.new (m ++ behind_others 45 is_first (N.text n)) }
{
    if !is_first {
        text.update(b"-");
    }
    feed_decimal(text, n);
}

/// Hashes the numbers without GREASE in decimal, separated by `-`.
pub(crate) fn feed_kept(text: &mut Md5, numbers: Items<u16>)
    ensures { (m : List ℕ) → Holds text.old m
        → Holds text.new
        (m ++ dashed (without_grease (items_in (number 2) numbers.entry.bytes.now))) }
{
    let mut is_first = true;
    for n in numbers {
        if is_grease(n) {
            continue;
        }
        feed_next(text, is_first, n);
        is_first = false;
    }
}

/// Hashes the extension types without GREASE in decimal, separated by `-`.
pub(crate) fn feed_types(text: &mut Md5, types: Items<ExtensionType>)
    ensures { (m : List ℕ) → Holds text.old m
        → Holds text.new
        (m ++ dashed (without_grease (items_in extension_type types.entry.bytes.now))) }
{
    let mut is_first = true;
    for kind in types {
        if is_grease(kind.0) {
            continue;
        }
        feed_next(text, is_first, kind.0);
        is_first = false;
    }
}

/// Hashes numbers in decimal, separated by `-`.
pub(crate) fn feed_dashed(text: &mut Md5, numbers: &[u8])
    ensures { (m : List ℕ) → Holds text.old m → Holds text.new (m ++ dashed numbers.now) }
{
    let Some((first, others)) = numbers.split_first() else {
        return;
    };
    feed_decimal(text, *first);
    for n in others {
        feed_next(text, false, *n);
    }
}

/// Hashes numbers as four hexadecimal digits each, separated by `,`.
pub(crate) fn feed_hex_list(text: &mut Sha256, numbers: &[u16])
    ensures { (m : List ℕ) → Holds256 text.old m → Holds256 text.new (m ++ hex_list numbers.now) }
{
    let Some((first, others)) = numbers.split_first() else {
        return;
    };
    let digits = four_digits(*first);
    text.update(&digits);
    for n in others {
        let digits = led_digits(b',', *n);
        text.update(&digits);
    }
}

/// The character before an algorithm.
fn lead_of(is_first: bool) -> u8
    ensures { result ≡ lead_byte is_first }
{
    if is_first { b'_' } else { b',' }
}

/// Hashes `_` and the algorithms without GREASE, as four hexadecimal digits each, separated by `,`;
/// nothing if there are none. Returns whether there are any.
pub(crate) fn feed_algorithms(text: &mut Sha256, algorithms: Items<u16>) -> bool
    ensures text { (m : List ℕ) → Holds256 text.old m
        → Holds256 text.new
        (with_algorithms m (without_grease (items_in (number 2) algorithms.entry.bytes.now))) }
    ensures any { result ≡ has_any
        (without_grease (items_in (number 2) algorithms.entry.bytes.now)) }
{
    let mut is_first = true;
    for n in algorithms {
        if is_grease(n) {
            continue;
        }
        let lead = lead_of(is_first);
        let digits = led_digits(lead, n);
        text.update(&digits);
        is_first = false;
    }
    !is_first
}
