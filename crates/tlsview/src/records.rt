//! Prints the records of one direction.
ghost use Rattle.std.specs.Prelude.{◌≡◌, ◌∷◌, ◌++◌, Ok, codes, flat_map, map, IfOk, OnOk};
ghost use Rattle.std.specs.List.{list_any};
ghost use Rattle.std.specs.String.{string_bytes};
ghost use Rattle.tls_hs.specs.Message.{view_message};
ghost use Rattle.tls_records.specs.Record.{view_raw_record};
ghost use Rattle.tls_states.specs.Symbols as symbols;
ghost use Rattle.tls_states.specs.Steps.{run};
ghost use Rattle.tlsview.specs.Direction.{sign_of};
ghost use Rattle.tlsview.specs.Shown.{AreShown, IsNextShown, IsRecordShown};
ghost use Rattle.tlsview.specs.Out.{message_line, fed, half};
ghost use Rattle.tlsview.specs.Transition.{changes_cipher};

use crate::conversation::ViewedSide;
use crate::direction::LineDirection;
use crate::fault::ViewFault;
use crate::names::add_message_name;
use layouts::{Err, ErrorKind};
use std::alloc::{AllocError, Global};
use tls_hs::TlsMessage;
use tls_records::{TlsRawRecord, parse_tls_record_with_header};
use tls_states::ParseContext;
use tls_stream::FeedError;

/// What comes next in a direction.
pub enum NextRecord {
    /// A record, which is printed; the bool is whether the direction's next records are encrypted.
    Record(bool),
    /// No whole record.
    Nothing,
    /// A fault, which ends the run.
    Fault(ViewFault),
}

/// Prints a line of the direction.
fn add_line(text: &mut String, direction: LineDirection, name: &str) -> Result<(), AllocError>
    ensures { OnOk result (string_bytes text.new
        ≡ string_bytes text.old ++ (sign_of direction ∷ 32 ∷ (name.now ++ codes "\n"))) }
{
    text.push_str(direction.mark())?;
    text.push_str(name)?;
    text.push('\n')
}

/// Prints a line for a message.
fn show_message(
    text: &mut String,
    direction: LineDirection,
    message: &TlsMessage,
) -> Result<(), AllocError>
    ensures { OnOk result
        (string_bytes text.new ≡ string_bytes text.old ++ message_line direction
        (view_message message.now)) }
{
    text.push_str(direction.mark())?;
    add_message_name(text, message)?;
    text.push('\n')
}

/// Prints a line for each message.
fn show_messages(
    text: &mut String,
    direction: LineDirection,
    messages: &[TlsMessage],
) -> Result<(), AllocError>
    ensures { OnOk result (string_bytes text.new
        ≡ string_bytes text.old ++ flat_map (message_line direction)
        (map view_message messages.now)) }
{
    for message in messages {
        show_message(text, direction, message)?;
    }
    Ok(())
}

/// Follows each message in order.
fn follow_messages(context: &mut ParseContext, to_server: bool, messages: &[TlsMessage])
    ensures { context.new ≡ run context.old
        (map (λ m. symbols.symbol_of m to_server) messages.now) }
{
    for i in 0..messages.len() {
        let _ = context.update(&messages[i], to_server);
    }
}

/// Whether the records after this message are encrypted.
fn is_change_cipher_spec(message: &TlsMessage) -> bool
    ensures { result ≡ changes_cipher (view_message message.now) }
{
    match message {
        TlsMessage::ChangeCipherSpec => true,
        _ => false,
    }
}

/// Whether the records after one of these messages are encrypted.
fn change_cipher(messages: &[TlsMessage]) -> bool
    ensures { result ≡ list_any (λ m. changes_cipher (view_message m)) messages.now }
{
    messages
        .iter()
        .any(|message| is_change_cipher_spec(message))
}

/// Prints a record: its messages, which are followed, or that it is encrypted.
fn show_record(
    alloc: Global,
    text: &mut String,
    direction: LineDirection,
    is_encrypted: bool,
    context: &mut ParseContext,
    raw: &TlsRawRecord,
) -> Result<NextRecord, AllocError>
    ensures { IfOk result
        (IsRecordShown direction (string_bytes text.old) context.old (string_bytes text.new)
        context.new
        is_encrypted (view_raw_record raw.now)) }
{
    if is_encrypted {
        add_line(text, direction, "Encrypted")?;
        return Ok(NextRecord::Record(true));
    }
    match parse_tls_record_with_header(alloc, raw.bytes, &raw.hdr) {
        Ok((_, messages)) => {
            show_messages(text, direction, messages.as_slice())?;
            follow_messages(context, direction.goes_to_server(), messages.as_slice());
            let is_encrypted = change_cipher(messages.as_slice());
            Ok(NextRecord::Record(is_encrypted))
        }
        Err(refusal) => Ok(NextRecord::Fault(ViewFault::of_refusal(refusal)?)),
    }
}

/// Prints the next record, if it is whole.
fn show_next(
    alloc: Global,
    text: &mut String,
    direction: LineDirection,
    side: &ViewedSide,
    context: &mut ParseContext,
) -> Result<NextRecord, AllocError>
    ensures { IfOk result
        (IsNextShown direction (string_bytes text.old) context.old (string_bytes text.new)
        context.new
        side.now.is_encrypted side.now.stream) }
{
    match side.stream.front() {
        Ok((_, raw)) => show_record(alloc, text, direction, side.is_encrypted, context, &raw),
        Err(Err::Incomplete(_)) => Ok(NextRecord::Nothing),
        Err(Err::Error(error)) => Ok(NextRecord::Fault(ViewFault::Error(error.code))),
        Err(Err::Failure(_) | Err::OutOfMemory) => unreachable!(),
    }
}

/// Prints each whole record, and returns the fault that ends them.
fn show_records(
    alloc: Global,
    text: &mut String,
    direction: LineDirection,
    side: &mut ViewedSide,
    context: &mut ParseContext,
) -> Result<Option<ViewFault>, AllocError>
    ensures { IfOk result
        (AreShown direction (string_bytes text.old) (half side.old context.old)
        (string_bytes text.new) (half side.new context.new)) }
{
    'records: loop {
        let next = show_next(alloc, text, direction, side, context)?;
        match next {
            NextRecord::Record(is_encrypted) => {
                side.is_encrypted = is_encrypted;
                side.stream.take_front();
            }
            NextRecord::Nothing => return Ok(None),
            NextRecord::Fault(fault) => return Ok(Some(fault)),
        }
    }
}

/// Prints the records in what the direction has left followed by these bytes, and returns the fault
/// that ends them.
pub fn show_bytes(
    alloc: Global,
    text: &mut String,
    direction: LineDirection,
    side: &mut ViewedSide,
    context: &mut ParseContext,
    bytes: &[u8],
) -> Result<Option<ViewFault>, AllocError>
    ensures { IfOk result
        (AreShown direction (string_bytes text.old) (half (fed side.old bytes.now) context.old)
        (string_bytes text.new) (half side.new context.new)) }
{
    match side.stream.feed(bytes) {
        Ok(()) => show_records(alloc, text, direction, side, context),
        Err(FeedError::TooLarge) => Ok(Some(ViewFault::Error(ErrorKind::TooLarge))),
        Err(FeedError::OutOfMemory) => Err(AllocError),
    }
}
