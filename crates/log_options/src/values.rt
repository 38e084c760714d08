//! The values of options.
use crate::error::OptionError;
use clap::ArgMatches;
use connection_parts::Part;
use log_formats::comma::Formulas;
use log_formats::suites::{OtherSuites, Suites};
use std::fs;
use std::rt::Runtime;

/// Returns how cipher suites are written that no file names.
fn other_suites(matches: &ArgMatches<'_>) -> OtherSuites {
    if matches.get_flag("numbers") {
        OtherSuites::Numbered
    } else {
        OtherSuites::Named
    }
}

/// Reads the names of cipher suites from a file.
fn suites_in<'a, R: Runtime + AllocGlobal>(
    rt: &R,
    others: OtherSuites,
    path: &'a str,
) -> Result<Suites, OptionError<'a>> {
    let list = match fs::read_to_string(rt, path) {
        Ok(list) => list,
        Err(e) => return Err(OptionError::Reading(path, e)),
    };
    match Suites::read(rt.alloc(), others, list.as_str())? {
        Some(suites) => Ok(suites),
        None => Err(OptionError::NoList(path)),
    }
}

/// Returns the names of cipher suites, by `--ciphers` and `--numbers`.
pub fn suites_of<'a, R: Runtime + AllocGlobal>(
    rt: &R,
    matches: &ArgMatches<'a>,
) -> Result<Suites, OptionError<'a>> {
    let others = other_suites(matches);
    match matches.get_str("ciphers") {
        Some(path) => suites_in(rt, others, path),
        None => Ok(Suites::new(rt.alloc(), others)),
    }
}

/// Returns how CSV writes text that a spreadsheet would run as a formula, by `--csv-raw`.
pub fn formulas_of(matches: &ArgMatches<'_>) -> Formulas {
    if matches.get_flag("csv-raw") {
        Formulas::Raw
    } else {
        Formulas::Marked
    }
}

/// Parses a part like `2/4`.
fn part_in(text: &str) -> Option<Part> {
    let (number, count) = text.split_once('/')?;
    match (number.parse::<u32>(), count.parse::<u32>()) {
        (Ok(number), Ok(count)) => Part::new(number, count),
        _ => None,
    }
}

/// Returns the part of the connections to log, by `--part`; `None` if all are logged.
pub fn part_of<'a>(matches: &ArgMatches<'a>) -> Result<Option<Part>, OptionError<'a>> {
    let Some(text) = matches.get_str("part") else {
        return Ok(None);
    };
    match part_in(text) {
        Some(part) => Ok(Some(part)),
        None => Err(OptionError::NoPart(text)),
    }
}
