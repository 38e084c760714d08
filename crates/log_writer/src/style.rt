//! The style of lines that the options choose.
use crate::configuration_error::ConfigurationError;
use clap::ArgMatches;
use log_lines::{DEFAULT_FORMAT, LineFormat, LineKind, Style, StyleError};
use log_options::{formulas_of, suites_of};
use std::rt::Runtime;

/// Returns the format of lines, by `--format`.
fn format_of(matches: &ArgMatches<'_>) -> LineFormat {
    let name = matches.get_str("format").unwrap_or(DEFAULT_FORMAT.name());
    LineFormat::from_name(name).unwrap_or(DEFAULT_FORMAT)
}

/// Returns what is logged, by `--messages` and `--certificates`.
fn kind_of<'a>(matches: &ArgMatches<'a>) -> Result<LineKind, StyleError<'a>> {
    match (
        matches.get_flag("messages"),
        matches.get_flag("certificates"),
    ) {
        (false, false) => Ok(LineKind::Connections),
        (true, false) => Ok(LineKind::Messages),
        (false, true) => Ok(LineKind::Certificates),
        (true, true) => Err(StyleError::TwoKinds),
    }
}

/// Returns which lines are written, and how.
pub fn style_of<'a, R: Runtime + AllocGlobal>(
    rt: &R,
    matches: &ArgMatches<'a>,
) -> Result<Style, ConfigurationError<'a>> {
    let kind = kind_of(matches)?;
    let suites = suites_of(rt, matches)?;
    let (format, fields) = (format_of(matches), matches.get_str("fields"));
    let formulas = formulas_of(matches);
    Ok(Style::new(rt.alloc(), format, formulas, kind, fields, suites)?)
}
