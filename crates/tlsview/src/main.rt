//! Prints the names of the TLS messages in a log of a conversation, and the state that the
//! handshake reached. It reads standard input and writes standard output.
//!
//! A line of the log is `> ` (to the server) or `< ` (from the server), and then bytes in
//! hexadecimal. The bytes of a direction are one stream of records; how they are cut into lines
//! doesn't matter. After a ChangeCipherSpec the records of its direction are encrypted: they are
//! reported, and not parsed.
//!
//! The promise is that output and status are those of `out` in `specs/Out.antt`, for any reader and
//! writer; the contract of `view` states it.
#![tactic(auto)]

mod checked_writer;
mod conversation;
mod direction;
mod exit;
mod fault;
mod laws;
mod lines;
mod names;
mod program;
mod records;
mod report;
mod statement;
mod tally;
mod transfer;

use crate::program::view;
use std::process::ExitCode;

fn main(rt: HostRuntime) -> ExitCode {
    let mut input = rt.stdin();
    let mut output = rt.stdout();
    ExitCode::from(view(rt.alloc(), &mut input, &mut output))
}
