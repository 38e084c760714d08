//! UTCTime and GeneralizedTime as in certificates (RFC 5280, section 4.1.2.5), in seconds since
//! 1970-01-01 00:00:00 UTC.
#![tactic(auto, using(layouts::proofs::OneAnswerLemmas::read_allowed))]

ghost use Rattle.std.specs.Prelude.{◌≡◌, ◌<◌, ◌≤◌, ℤ, pos, ◌+ℤ◌, ◌*ℤ◌, IfOk, true};
ghost use Rattle.jiff_core.specs.Calendar.{days_from_civil, IsEpochDay};
ghost use Rattle.layouts.specs.Answers.{Gives};
ghost use Rattle.der.specs.Time.{digit as digit_layout, two_digits as two_digits_layout, short_year as short_year_layout, full_year as full_year_layout};
ghost use Rattle.der.specs.Time.{is_day as is_day_of, is_clock as is_clock_of, day_of as day_layout, clock as clock_layout, behind_year as behind_year_layout, utc_time, generalized_time};

use jiff_core::civil::{Date, days_in_month};
use layouts::{ErrorKind, IResult, InPlace, number1, parsed, refused};

/// Parses an ASCII digit.
#[tactic(auto, using(layouts::proofs::OneAnswerLemmas::read_allowed), unfolding(crate::specs::Time::digit))]
fn digit(i: &[u8]) -> IResult<&[u8], u8>
    ensures gives { Gives (λ v. v) digit_layout i.now result }
    ensures fits { IfOk result (λ x. x.1 ≤ 9) }
{
    let (i, c) = parsed!(number1(i));
    if c < 0x30 || c > 0x39 {
        return refused(i, ErrorKind::Verify);
    }
    Ok((i, c - 0x30))
}

/// Parses a number of two digits.
#[tactic(auto, using(layouts::proofs::OneAnswerLemmas::read_allowed), unfolding(crate::specs::Time::two_digits))]
fn two_digits(i: &[u8]) -> IResult<&[u8], u8>
    ensures gives { Gives (λ v. v) two_digits_layout i.now result }
    ensures fits { IfOk result (λ x. x.1 ≤ 99) }
{
    let (i, tens) = parsed!(digit(i));
    let (i, ones) = parsed!(digit(i));
    Ok((i, tens * 10 + ones))
}

/// Parses a year from 1950 to 2049, of two digits.
#[tactic(auto, using(layouts::proofs::OneAnswerLemmas::read_allowed), unfolding(crate::specs::Time::short_year))]
fn short_year(i: &[u8]) -> IResult<&[u8], u16>
    ensures gives { Gives (λ v. v) short_year_layout i.now result }
    ensures fits { IfOk result (λ x. x.1 ≤ 9999) }
{
    let (i, n) = parsed!(two_digits(i));
    if n < 50 {
        return Ok((i, 2000 + n as u16));
    }
    Ok((i, 1900 + n as u16))
}

/// Parses a year of four digits.
#[tactic(auto, using(layouts::proofs::OneAnswerLemmas::read_allowed), unfolding(crate::specs::Time::full_year))]
fn full_year(i: &[u8]) -> IResult<&[u8], u16>
    ensures gives { Gives (λ v. v) full_year_layout i.now result }
    ensures fits { IfOk result (λ x. x.1 ≤ 9999) }
{
    let (i, hundreds) = parsed!(two_digits(i));
    let (i, years) = parsed!(two_digits(i));
    Ok((i, hundreds as u16 * 100 + years as u16))
}

/// Whether the calendar has this day.
fn is_day(year: u16, month: u8, day: u8) -> bool
    requires { year ≤ 9999 }
    ensures { result ≡ is_day_of year month day }
{
    month >= 1 && month <= 12 && day >= 1 && day <= days_in_month(year as i16, month)
}

/// The number of a day; 1970-01-01 is 0.
fn day_number(year: u16, month: u8, day: u8) -> i32
    requires fits { year ≤ 9999 }
    requires there { is_day_of year month day ≡ true }
    ensures is { result ≡ days_from_civil (pos year) month day }
    ensures bound { IsEpochDay result }
{
    match Date::new(year as i16, month as i8, day as i8) {
        Ok(date) => date.to_unix_epoch_day(),
        Err(_) => unreachable!(),
    }
}

/// Parses month and day, as the number of the day.
#[tactic(auto, using(layouts::proofs::OneAnswerLemmas::read_allowed), unfolding(crate::specs::Time::day_of))]
fn day_of(i: &[u8], year: u16) -> IResult<&[u8], i32>
    requires { year ≤ 9999 }
    ensures gives { Gives (λ v. v) (day_layout year) i.now result }
    ensures bound { IfOk result (λ x. IsEpochDay x.1) }
{
    let (i, month) = parsed!(two_digits(i));
    let (i, day) = parsed!(two_digits(i));
    if !is_day(year, month, day) {
        return refused(i, ErrorKind::Verify);
    }
    Ok((i, day_number(year, month, day)))
}

/// Whether a clock shows this time.
fn is_clock(hour: u8, minute: u8, second: u8) -> bool
    ensures { result ≡ is_clock_of hour minute second }
{
    hour < 24 && minute < 60 && second < 60
}

/// Parses hour, minute and second, as seconds of the day.
#[tactic(auto, using(layouts::proofs::OneAnswerLemmas::read_allowed), unfolding(crate::specs::Time::clock))]
fn clock(i: &[u8]) -> IResult<&[u8], u32>
    ensures gives { Gives (λ v. v) clock_layout i.now result }
    ensures fits { IfOk result (λ x. x.1 < 86400) }
{
    let (i, hour) = parsed!(two_digits(i));
    let (i, minute) = parsed!(two_digits(i));
    let (i, second) = parsed!(two_digits(i));
    if !is_clock(hour, minute, second) {
        return refused(i, ErrorKind::Verify);
    }
    Ok((i, hour as u32 * 3600 + minute as u32 * 60 + second as u32))
}

/// The seconds since 1970-01-01 00:00:00 UTC.
fn seconds_of(day: i32, seconds: u32) -> i64
    requires there { IsEpochDay day }
    requires fits { seconds < 86400 }
    ensures { result ≡ (day *ℤ pos 86400) +ℤ pos seconds }
{
    day as i64 * 86_400 + seconds as i64
}

/// Parses what follows a year, including the Z.
#[tactic(auto, using(layouts::proofs::OneAnswerLemmas::read_allowed), unfolding(crate::specs::Time::behind_year))]
fn behind_year(i: &[u8], year: u16) -> IResult<&[u8], i64>
    requires { year ≤ 9999 }
    ensures { Gives (λ v. v) (behind_year_layout year) i.now result }
{
    let (i, day) = parsed!(day_of(i, year));
    let (i, seconds) = parsed!(clock(i));
    let (i, zone) = parsed!(number1(i));
    if zone != 0x5a {
        return refused(i, ErrorKind::Verify);
    }
    Ok((i, seconds_of(day, seconds)))
}

/// The content of a UTCTime, `YYMMDDHHMMSSZ` with a year from 1950 to 2049, in seconds since
/// 1970-01-01 00:00:00 UTC (RFC 5280, section 4.1.2.5.1).
///
/// - `Incomplete` with the count of missing bytes.
/// - `Error` of kind `Verify` if a digit or the Z isn't there, or if the date or the time doesn't
///   exist; a second 60 is refused.
pub struct UtcTime;

impl<'a> InPlace<'a> for UtcTime {
    type Read = i64;

    ghost Value = { ℤ };

    ghost view = { λ v. v };

    ghost layout = { utc_time };

    #[tactic(auto, using(layouts::proofs::OneAnswerLemmas::read_allowed), unfolding(crate::specs::Time::utc_time))]
    fn read(i: &'a [u8]) -> IResult<&'a [u8], i64> {
        let (i, year) = parsed!(short_year(i));
        behind_year(i, year)
    }
}

/// The content of a GeneralizedTime, `YYYYMMDDHHMMSSZ`, in seconds since 1970-01-01 00:00:00 UTC
/// (RFC 5280, section 4.1.2.5.2).
///
/// It refuses what [`UtcTime`] does, including fractions of a second.
pub struct GeneralizedTime;

impl<'a> InPlace<'a> for GeneralizedTime {
    type Read = i64;

    ghost Value = { ℤ };

    ghost view = { λ v. v };

    ghost layout = { generalized_time };

    #[tactic(auto, using(layouts::proofs::OneAnswerLemmas::read_allowed), unfolding(crate::specs::Time::generalized_time))]
    fn read(i: &'a [u8]) -> IResult<&'a [u8], i64> {
        let (i, year) = parsed!(full_year(i));
        behind_year(i, year)
    }
}
