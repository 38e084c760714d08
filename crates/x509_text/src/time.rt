//! Times as texts (RFC 3339, section 5.6).
ghost use Rattle.std.specs.Prelude.{◌≡◌, ◌++◌, ◌∷◌, [], ◌+◌, ◌%◌, ◌<◌, IfOk, OnOk};
ghost use Rattle.std.specs.String.{string_bytes};
ghost use Rattle.x509_text.specs.Time.{IsTextOf, clock_text, date_text, date_time_text, day_text, four_digits, minute_text, two_digits, year_text};

use jiff_core::civil::{Date, DateTime, Time};
use std::alloc::{AllocError, Global};

/// The last digit of a number.
fn digit(n: u16) -> char
    ensures is { result ≡ 48 + n % 10 }
    ensures ascii { result < 128 }
{
    char::from(b'0' + (n % 10) as u8)
}

/// Appends the last two digits of a number.
fn add_two(text: &mut String, n: u16) -> Result<(), AllocError>
    ensures { OnOk result (string_bytes text.new ≡ string_bytes text.old ++ two_digits n) }
{
    text.push(digit(n / 10))?;
    text.push(digit(n))
}

/// Appends the last four digits of a number.
fn add_four(text: &mut String, n: u16) -> Result<(), AllocError>
    ensures { OnOk result (string_bytes text.new ≡ string_bytes text.old ++ four_digits n) }
{
    add_two(text, n / 100)?;
    add_two(text, n)
}

/// Appends the last two digits of a number, and a sign after them.
fn add_part(text: &mut String, n: u8, sign: char) -> Result<(), AllocError>
    requires { sign < 128 }
    ensures { OnOk result
        (string_bytes text.new ≡ string_bytes text.old ++ two_digits n ++ sign ∷ []) }
{
    add_two(text, u16::from(n))?;
    text.push(sign)
}

/// Appends a month and its day, such as 11-25T.
fn add_day(text: &mut String, month: u8, day: u8) -> Result<(), AllocError>
    ensures { OnOk result (string_bytes text.new ≡ string_bytes text.old ++ day_text month day) }
{
    add_part(text, month, '-')?;
    add_part(text, day, 'T')
}

/// Appends a year, such as 2026-.
fn add_year(text: &mut String, date: Date) -> Result<(), AllocError>
    ensures { OnOk result (string_bytes text.new ≡ string_bytes text.old ++ year_text date.year) }
{
    if date.year < 0 {
        text.push('-')?;
    }
    add_four(text, date.year.unsigned_abs())?;
    text.push('-')
}

/// Appends a day, such as 2026-11-25T.
fn add_date(text: &mut String, date: Date) -> Result<(), AllocError>
    ensures { OnOk result (string_bytes text.new ≡ string_bytes text.old ++ date_text date) }
{
    add_year(text, date)?;
    add_day(text, date.month, date.day)
}

/// Appends a minute and its second, such as 00:00Z.
fn add_minute(text: &mut String, minute: u8, second: u8) -> Result<(), AllocError>
    ensures { OnOk result
        (string_bytes text.new ≡ string_bytes text.old ++ minute_text minute second) }
{
    add_part(text, minute, ':')?;
    add_part(text, second, 'Z')
}

/// Appends a time of the day, such as 12:00:00Z.
fn add_clock(text: &mut String, time: Time) -> Result<(), AllocError>
    ensures { OnOk result (string_bytes text.new ≡ string_bytes text.old ++ clock_text time) }
{
    add_part(text, time.hour, ':')?;
    add_minute(text, time.minute, time.second)
}

/// Appends a day and its time.
fn add_date_time(text: &mut String, time: DateTime) -> Result<(), AllocError>
    ensures { OnOk result (string_bytes text.new ≡ string_bytes text.old ++ date_time_text time) }
{
    add_date(text, time.date)?;
    add_clock(text, time.time)
}

/// The time `seconds` after 1970-01-01 00:00:00 UTC, such as 2026-11-25T12:00:00Z.
///
/// `None` outside the years from -9999 to 9999. `AllocError` if there is no memory for the text.
pub fn time_text(alloc: Global, seconds: i64) -> Result<Option<String>, AllocError>
    ensures { IfOk result (IsTextOf seconds) }
{
    let Ok(time) = DateTime::from_nanosecond(i128::from(seconds) * 1_000_000_000) else {
        return Ok(None);
    };
    let mut text = String::new(alloc);
    add_date_time(&mut text, time)?;
    Ok(Some(text))
}
