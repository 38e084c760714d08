//! The arguments of the command line.
use crate::help::AFTER_OPTIONS;
use clap::{Arg, ArgAction, ArgMatches, Command};
use std::alloc::{AllocError, Global};

/// The version, as it is in the file VERSION.
const VERSION: &str = "0.1.0";

/// The values of the options that take one of a few, each list with the default first.
#[derive(Clone, Copy)]
pub struct Choices<'a> {
    /// Those of `--format`.
    pub formats: &'a [&'a str],
    /// Those of `--checksums`.
    pub checksums: &'a [&'a str],
}

/// The kind of an option's value. A value has a name in the help.
enum ValueKind {
    /// No value: the option is a flag.
    Flag,
    /// A flag that can't be used with this option.
    FlagWithout(&'static str),
    /// Any value.
    Any(&'static str),
    /// Any value, and the default.
    WithDefault(&'static str, &'static str),
    /// One of the formats.
    Format(&'static str),
    /// One of the ways to treat checksums.
    Checksums(&'static str),
}

/// The options in the order of the help: the name, the kind of value, and the help.
static OPTIONS: [(&str, ValueKind, &str); 13] = [
    (
        "messages",
        ValueKind::Flag,
        "Print a line per message, as it arrives, instead of per connection",
    ),
    (
        "certificates",
        ValueKind::Flag,
        "Print a line per certificate, as it arrives, instead of per connection",
    ),
    ("format", ValueKind::Format("FORMAT"), "Output format"),
    (
        "fields",
        ValueKind::Any("A,B,.."),
        "Print these fields, in this order; all by default",
    ),
    (
        "ciphers",
        ValueKind::Any("FILE"),
        "Name cipher suites by this file, with lines like ff01:OUR_SUITE, before IANA's registry",
    ),
    (
        "numbers",
        ValueKind::Flag,
        "Print cipher suites as numbers, like 0xc02f, unless --ciphers names them",
    ),
    (
        "csv-raw",
        ValueKind::Flag,
        "With --format csv: omit the ' before text that a spreadsheet would run as a formula",
    ),
    (
        "checksums",
        ValueKind::Checksums("WHICH"),
        concat!(
            "Which packets with wrong checksums to drop: all (check), none (ignore), ",
            "or all but those of a sender whose first packets are all wrong (auto)",
        ),
    ),
    (
        "join",
        ValueKind::Flag,
        "Read all captures, in this order, as one that was split into files",
    ),
    (
        "part",
        ValueKind::Any("K/N"),
        "Log only part K of N of the connections, chosen by addresses and ports",
    ),
    (
        "by-network",
        ValueKind::Flag,
        "Separate connections whose VLAN tags or tunnels differ, by all their numbers",
    ),
    (
        "merge-networks",
        ValueKind::FlagWithout("by-network"),
        "Don't separate connections whose tunnels differ",
    ),
    (
        "memory",
        ValueKind::WithDefault("SIZE", "1G"),
        "Memory limit, like 512M or 2G, or none; over it, the longest-idle connections are closed",
    ),
];

/// The argument that names captures.
fn captures<'a>(alloc: Global) -> Arg<'a> {
    Arg::new(alloc, "captures")
        .help("Captures, pcap or pcapng; standard input if none is named, or for -")
        .num_args(0..)
        .action(ArgAction::Append)
}

/// An option with a value of that name.
fn option_with_value<'a>(alloc: Global, name: &'a str, value: &'a str, help: &'a str) -> Arg<'a> {
    Arg::new(alloc, name)
        .long(name)
        .value_name(value)
        .help(help)
        .action(ArgAction::Set)
}

/// An option without a value.
fn flag<'a>(alloc: Global, name: &'a str, help: &'a str) -> Arg<'a> {
    Arg::new(alloc, name)
        .long(name)
        .help(help)
        .action(ArgAction::SetTrue)
}

/// The option, which takes one of these values. The first is its default.
fn with_choices<'a>(option: Arg<'a>, choices: &'a [&'a str]) -> Arg<'a> {
    let option = option.value_parser(choices);
    match choices.first() {
        Some(default) => option.default_value(default),
        None => option,
    }
}

/// The option of a row of [`OPTIONS`].
fn option<'a>(
    alloc: Global,
    name: &'a str,
    kind: &ValueKind,
    help: &'a str,
    choices: Choices<'a>,
) -> Result<Arg<'a>, AllocError> {
    let option = match kind {
        ValueKind::Flag => flag(alloc, name, help),
        ValueKind::FlagWithout(other) => flag(alloc, name, help).conflicts_with(other)?,
        ValueKind::Any(value) => option_with_value(alloc, name, value, help),
        ValueKind::WithDefault(value, default) => {
            option_with_value(alloc, name, value, help).default_value(default)
        }
        ValueKind::Format(value) => {
            with_choices(option_with_value(alloc, name, value, help), choices.formats)
        }
        ValueKind::Checksums(value) => {
            with_choices(
                option_with_value(alloc, name, value, help),
                choices.checksums,
            )
        }
    };
    Ok(option)
}

/// The command with all its options.
fn command<'a>(alloc: Global, choices: Choices<'a>) -> Result<Command<'a>, AllocError> {
    let mut command = Command::new(alloc, "tlslog")
        .version(VERSION)
        .about("Logs the TLS and DTLS connections of packet captures, a line for each")
        .after_help(AFTER_OPTIONS)
        .arg(captures(alloc))?;
    for (name, kind, help) in &OPTIONS {
        command = command.arg(option(alloc, name, kind, help, choices)?)?;
    }
    Ok(command)
}

/// Parses the command line.
pub fn matches<'a>(
    alloc: Global,
    words: &'a [String],
    choices: Choices<'a>,
) -> Result<ArgMatches<'a>, clap::Error> {
    command(alloc, choices)?.try_get_matches_from(words)
}
