//! Seconds, with digits behind the point down to the microsecond.
ghost use Rattle.std.specs.Prelude.{◌≡◌, ◌<◌, ◌++◌, ◌∷◌, [], IfOk, OnOk};
ghost use Rattle.std.specs.String.{string_bytes};
ghost use Rattle.json_objects.specs.Seconds.{digit, fraction, seconds_text as seconds_text_of};
ghost use Rattle.json_objects.specs.Data.{WritesData, plain, seconds};

use json::Writer;
use std::alloc::{AllocError, Global};

/// Appends the decimal digit of a number at the place of this worth.
fn push_digit(text: &mut String, number: u64, worth: u64) -> Result<(), AllocError>
    requires { 0 < worth }
    ensures { OnOk result
        (string_bytes text.new ≡ string_bytes text.old ++ digit number worth ∷ []) }
{
    text.push(char::from(b'0' + (number / worth % 10) as u8))
}

/// Appends the digits behind the point, without zeros at the end but the first digit.
fn push_fraction(text: &mut String, millionths: u64) -> Result<(), AllocError>
    ensures { OnOk result
        (string_bytes text.new ≡ string_bytes text.old ++ fraction millionths) }
{
    push_digit(text, millionths, 100_000)?;
    if millionths % 100_000 == 0 {
        return Ok(());
    }
    push_digit(text, millionths, 10_000)?;
    if millionths % 10_000 == 0 {
        return Ok(());
    }
    push_digit(text, millionths, 1000)?;
    if millionths % 1000 == 0 {
        return Ok(());
    }
    push_digit(text, millionths, 100)?;
    if millionths % 100 == 0 {
        return Ok(());
    }
    push_digit(text, millionths, 10)?;
    if millionths % 10 == 0 {
        return Ok(());
    }
    push_digit(text, millionths, 1)
}

/// Returns microseconds as seconds, such as `1795470258.908144`, `5.0` or `0.000001`.
pub fn seconds_text(alloc: Global, microseconds: u64) -> Result<String, AllocError>
    ensures { IfOk result (λ text. string_bytes text ≡ seconds_text_of microseconds) }
{
    let mut text = String::new(alloc);
    let mut buffer = itoa::Buffer::new();
    text.push_str(buffer.format(microseconds / 1_000_000))?;
    text.push_str(".")?;
    push_fraction(&mut text, microseconds % 1_000_000)?;
    Ok(text)
}

/// Writes microseconds as a JSON number of seconds.
pub fn write_seconds(alloc: Global, microseconds: u64, out: &mut Writer) -> Result<(), AllocError>
    ensures ok { OnOk result (WritesData (plain (seconds microseconds)) out.old out.new) }
    ensures before { out.new.before ≡ out.old.before }
{
    let text = seconds_text(alloc, microseconds)?;
    out.number(text.as_str())
}
