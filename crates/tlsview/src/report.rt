//! The text that is printed for an input.
ghost use Rattle.std.specs.Prelude.{◌≡◌, ◌≢◌, length, Some, None, Ok, IfOk, IsSome};
ghost use Rattle.std.specs.String.{string_bytes};
ghost use Rattle.tlsview.specs.Out.{missing, out};
ghost use Rattle.tlsview.specs.Shown.{IsEndShown, IsLineShown};
ghost use Rattle.tlsview.specs.Exit.{status_of};

use crate::conversation::{ViewedConversation, ViewedSide};
use crate::direction::LineDirection;
use crate::exit::ViewExit;
use crate::fault::ViewFault;
use crate::lines::{first_line, without_return};
use crate::records::show_bytes;
use crate::statement::parse_line;
use layouts::{Err, Needed};
use std::alloc::{AllocError, Global};

/// The printed text, and how the run ends.
#[derive(Drop)]
pub struct Report {
    pub text: String,
    pub exit: ViewExit,
}

/// Prints the messages of a line, and returns the fault that ends the run there. The line's bytes
/// are left in `bytes`, whose capacity is reused for each line.
fn show_line(
    alloc: Global,
    text: &mut String,
    conversation: &mut ViewedConversation,
    bytes: &mut Vec<u8>,
    line: &[u8],
) -> Result<Option<ViewFault>, AllocError>
    ensures { IfOk result
        (IsLineShown line.now (string_bytes text.old) conversation.old (string_bytes text.new)
        conversation.new) }
{
    if line.is_empty() {
        return Ok(None);
    }
    let Some(direction) = parse_line(line, bytes)? else {
        return Ok(Some(ViewFault::BadLine));
    };
    let bytes = bytes.as_slice();
    match direction {
        LineDirection::ToServer => show_bytes(
            alloc,
            text,
            direction,
            &mut conversation.to_server,
            &mut conversation.context,
            bytes,
        ),
        LineDirection::FromServer => show_bytes(
            alloc,
            text,
            direction,
            &mut conversation.from_server,
            &mut conversation.context,
            bytes,
        ),
    }
}

/// How many bytes the direction's unfinished record lacks.
fn missing_of(side: &ViewedSide) -> Option<usize>
    ensures { result ≡ missing side.now.stream }
{
    if side.stream.held().is_empty() {
        return None;
    }
    match side.stream.front() {
        Err(Err::Incomplete(Needed::Size(missing))) => Some(missing),
        _ => None,
    }
}

/// Prints the end of a run that had no fault before.
fn show_end(text: &mut String, conversation: &ViewedConversation) -> Result<ViewExit, AllocError>
    ensures { IfOk result
        (IsEndShown (string_bytes text.old) (string_bytes text.new) conversation.now) }
{
    let missing = match missing_of(&conversation.to_server) {
        Some(missing) => Some(missing),
        None => missing_of(&conversation.from_server),
    };
    match missing {
        Some(missing) => {
            let fault = ViewFault::Incomplete(missing);
            writeln!(text, "end: {fault}")?;
            Ok(ViewExit::Fault)
        }
        None => {
            let name = conversation.context.state().name();
            writeln!(text, "state {name}")?;
            Ok(ViewExit::Clean)
        }
    }
}

/// The printed text for an input, and how the run ends. It never returns [`ViewExit::Failed`].
pub fn report_of(alloc: Global, input: &[u8]) -> Result<Report, AllocError>
    ensures exit { IfOk result (λ report. report.exit ≢ ViewExit.Failed) }
    ensures shown { IfOk result
        (λ report. (string_bytes report.text, status_of report.exit) ≡ out input.now) }
{
    let mut text = String::new(alloc);
    let mut conversation = ViewedConversation::new(alloc);
    let mut bytes = Vec::new(alloc);
    let mut rest = input;
    let mut number: usize = 1;
    'lines: while let Some((line, others)) = first_line(rest) {
        let line = without_return(line);
        if let Some(fault) = show_line(alloc, &mut text, &mut conversation, &mut bytes, line)? {
            writeln!(text, "line {number}: {fault}")?;
            let exit = fault.exit();
            return Ok(Report { text, exit });
        }
        number += 1;
        rest = others;
    }
    let exit = show_end(&mut text, &conversation)?;
    Ok(Report { text, exit })
}
