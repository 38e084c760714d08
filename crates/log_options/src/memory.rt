//! The size that `--memory` names.
use crate::error::OptionError;
use clap::ArgMatches;

/// The smallest limit: 64 MiB.
const SMALLEST: usize = 67_108_864;

/// The letters of units, in either case, and the bytes of each unit.
static UNITS: [(char, char, usize); 4] = [
    ('k', 'K', 1 << 10),
    ('m', 'M', 1 << 20),
    ('g', 'G', 1 << 30),
    ('t', 'T', 1 << 40),
];

/// Returns ten to the power of the number of digits; `None` if there are more than 6 or none.
fn parts_of(digits: &str) -> Option<usize> {
    match digits.len() {
        1 => Some(10),
        2 => Some(100),
        3 => Some(1_000),
        4 => Some(10_000),
        5 => Some(100_000),
        6 => Some(1_000_000),
        _ => None,
    }
}

/// Returns the text without a letter at its end, in either case.
fn front_of(text: &str, small: char, large: char) -> Option<&str> {
    match text.strip_suffix(small) {
        Some(front) => Some(front),
        None => text.strip_suffix(large),
    }
}

/// Parses a text of digits only.
fn number_in(digits: &str) -> Option<usize> {
    if digits.starts_with('+') {
        return None;
    }
    match digits.parse::<usize>() {
        Ok(number) => Some(number),
        Err(_) => None,
    }
}

/// Returns how many bytes a number of units is, like `512` or `0.5`, rounded down.
fn scaled(number: &str, unit: usize) -> Option<usize> {
    let Some((whole, rest)) = number.split_once('.') else {
        return number_in(number)?.checked_mul(unit);
    };
    let (whole, part) = (number_in(whole)?, number_in(rest)?);
    let part = part.checked_mul(unit)?.checked_div(parts_of(rest)?)?;
    whole.checked_mul(unit)?.checked_add(part)
}

/// Splits a text into its number and unit; without a unit the number counts bytes.
fn number_and_unit(text: &str) -> (&str, usize) {
    for (small, large, size) in &UNITS {
        if let Some(number) = front_of(text, *small, *large) {
            return (number, *size);
        }
    }
    (text, 1)
}

/// Parses a size in bytes, like `512M`, `512MB`, `0.5G` or a count of bytes.
fn size_in(text: &str) -> Option<usize> {
    let (number, unit) = number_and_unit(front_of(text, 'b', 'B').unwrap_or(text));
    scaled(number, unit)
}

/// Returns the limit of memory by `--memory`, in bytes; `None` if there is none.
pub fn memory_of<'a>(matches: &ArgMatches<'a>) -> Result<Option<usize>, OptionError<'a>> {
    let Some(text) = matches.get_str("memory") else {
        return Ok(None);
    };
    if text == "none" {
        return Ok(None);
    }
    match size_in(text) {
        Some(size) if size >= SMALLEST => Ok(Some(size)),
        _ => Err(OptionError::NoSize(text)),
    }
}
