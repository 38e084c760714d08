//! Turns the command line into the options of a run.
ghost use Rattle.std.specs.Prelude.{◌≡◌, IfOk};
ghost use Rattle.tlslog.specs.Pieces.{piece_kind};

use crate::memory::{most_lines, part_of_connections};
use crate::printer::{StylePrinter, piece_kind_of};
use arrivals::Checksums;
use clap::ArgMatches;
use log_captures::{RunOptions, Separation};
use log_lines::FORMAT_NAMES;
use log_options::{Choices, memory_of, part_of};
use log_writer::{ConfigurationError, style_of};
use std::rt::Runtime;

/// The values of `--checksums`, handed to the macro that is named, with what else is passed. A row
/// has a name and its variant; the first is the default.
macro_rules! checksums {
    ($then:ident $($given:tt)*) => {
        $then! {
            $($given)*
            "auto" Auto;
            "check" Check;
            "ignore" Ignore;
        }
    };
}

/// The names of the rows.
macro_rules! names_of {
    ($($name:literal $which:ident;)*) => {
        &[$($name),*]
    };
}

/// The variants of the rows.
macro_rules! variants_of {
    ($($name:literal $which:ident;)*) => {
        &[$(Checksums::$which),*]
    };
}

/// The name of a variant. One without a row doesn't compile.
macro_rules! name_of {
    ($of:tt; $($name:literal $which:ident;)*) => {
        match $of {
            $(Checksums::$which => $name,)*
        }
    };
}

static CHECKSUM_NAMES: &[&str] = checksums!(names_of);

static CHECKSUMS: &[Checksums] = checksums!(variants_of);

/// Returns the name of a value of `--checksums`.
fn checksums_name(checksums: Checksums) -> &'static str {
    checksums!(name_of checksums;)
}

/// Returns the values that `--format` and `--checksums` may have.
pub fn choices() -> Choices<'static> {
    Choices {
        formats: FORMAT_NAMES,
        checksums: CHECKSUM_NAMES,
    }
}

/// Returns which wrong checksums drop a packet, by `--checksums`.
fn checksums_of(matches: &ArgMatches<'_>) -> Checksums {
    let name = matches.get_str("checksums").unwrap_or("auto");
    let found = CHECKSUMS.iter().find(|it| checksums_name(**it) == name);
    found.copied().unwrap_or(Checksums::Auto)
}

/// Returns what separates connections, by `--by-network` and `--merge-networks`.
fn separation_of(matches: &ArgMatches<'_>) -> Separation {
    if matches.get_flag("by-network") {
        Separation::Networks
    } else if matches.get_flag("merge-networks") {
        Separation::Nothing
    } else {
        Separation::Tunnels
    }
}

/// What the arguments ask for.
#[derive(Drop)]
pub struct Options {
    /// Prints the lines.
    pub printer: StylePrinter,
    /// What is logged.
    pub run: RunOptions,
}

/// Reads all options that a run needs. The pieces that are kept are those that the style prints.
pub fn options_of<'a, R: Runtime + AllocGlobal>(
    rt: &R,
    matches: &ArgMatches<'a>,
) -> Result<Options, ConfigurationError<'a>>
    ensures { IfOk result (λ options. options.run.pieces ≡ piece_kind options.printer.style) }
{
    let part = part_of(matches)?;
    let limit = memory_of(matches)?;
    let style = style_of(rt, matches)?;
    let run = RunOptions {
        pieces: piece_kind_of(&style),
        checksums: checksums_of(matches),
        part,
        separation: separation_of(matches),
        memory: part_of_connections(limit),
    };
    Ok(Options {
        printer: StylePrinter {
            style,
            most_lines: most_lines(limit),
        },
        run,
    })
}
