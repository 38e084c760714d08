//! Prints help, the version, and what is wrong with the command line.
use clap::error::ErrorKind;
use std::io;
use std::rt::Runtime;

/// Options of other programs, and what to write instead.
static HINTS: [(&str, &str); 3] = [
    ("-r", "name the capture without -r: tlslog FILE"),
    (
        "-i",
        "to read an interface, use tcpdump: tcpdump -U -i INTERFACE -w - | tlslog -",
    ),
    (
        "-w",
        "to write a file, redirect the output: tlslog FILE > LOG",
    ),
];

/// Prints what to write instead of these words that are options of other programs.
fn print_hints<R: Runtime + AllocGlobal>(rt: &R, words: &[String]) -> io::Result<()> {
    for (option, hint) in &HINTS {
        if words.iter().any(|word| word.as_str().starts_with(*option)) {
            eprintln!(rt; "\n  tip: {hint}")?;
        }
    }
    Ok(())
}

/// Prints the error, with hints if an option is unknown.
fn print_error<R: Runtime + AllocGlobal>(
    rt: &R,
    error: &clap::Error,
    words: &[String],
) -> io::Result<()> {
    error.print(rt)?;
    match error.kind() {
        ErrorKind::UnknownArgument => print_hints(rt, words),
        _ => Ok(()),
    }
}

/// Prints the error, or the help or version that was asked for, and returns the exit status: 0
/// for help and version, 2 for wrong arguments, 3 if memory ran out or nothing can be printed.
pub fn report_error<R: Runtime + AllocGlobal>(rt: &R, error: &clap::Error, words: &[String]) -> u8 {
    let is_printed = print_error(rt, error, words).is_ok();
    match error.kind() {
        ErrorKind::DisplayHelp | ErrorKind::DisplayVersion if is_printed => 0,
        ErrorKind::DisplayHelp | ErrorKind::DisplayVersion | ErrorKind::OutOfMemory => 3,
        _ if is_printed => 2,
        _ => 3,
    }
}
