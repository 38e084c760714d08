//! The records of a datagram, and their events.
ghost use Rattle.std.specs.Prelude.{◌≡◌, ◌++◌, OnErr, OnOk, map};
ghost use Rattle.layouts.specs.Answers.{refusal_of};
ghost use Rattle.raw_records.specs.RawDtlsRecord.{view_raw_record};
ghost use Rattle.dtls_records.specs.DtlsRecord.{view_message as view_content};
ghost use Rattle.std.specs.Option.{option_map};
ghost use Rattle.dtls_records.specs.DtlsHandshake.{view_handshake};
ghost use Rattle.dtls_stream.specs.Fragments.{view_fragment};
ghost use Rattle.dtls_stream.specs.Messages.{Received, Limits as Allowed, Stands, view_event, view_events};
ghost use Rattle.dtls_stream.specs.Datagrams.{AreEmittedInPart, IsCut, IsRecordCut, IsStep, content_bytes as content_bytes_of, content_record_step, event_of, fragment_in, fragment_record_step, fragments_in_content, kind_of as kind_emitted, left_over, record_step, unread};

use crate::event::{EncryptedRecord, Event};
use crate::fragments::Fragment;
use crate::messages::Messages;
use crate::read::read_all;
use dtls_records::{
    DTLSMessage, DTLSMessageHandshake, DTLSMessageHandshakeBody, parse_dtls_record_with_header,
};
use layouts::{Err as Refused, Error, ErrorKind, OutOfMemory, items1};
use raw_records::DTLSRawRecord;
use std::alloc::Global;
use tls_base::{TlsMessageAlert, TlsRecordType};

/// The fragment in a parsed message. `None` if the message was parsed whole: its value doesn't keep
/// the bytes of the body.
pub fn fragment_of<'a>(message: &DTLSMessageHandshake<'a>) -> Option<Fragment<'a>>
    ensures { option_map view_fragment result ≡ fragment_in (view_handshake message.now) }
{
    match message.body {
        DTLSMessageHandshakeBody::Fragment(body) => Some(Fragment {
            msg_type: message.msg_type,
            length: message.length,
            message_seq: message.message_seq,
            fragment_offset: message.fragment_offset,
            body,
        }),
        _ => None,
    }
}

/// The event of a message.
fn emitted_as<'a>(message: &DTLSMessage<'a>) -> Event<'a>
    ensures { view_event result ≡ event_of (view_content message.now) }
{
    match message {
        DTLSMessage::ChangeCipherSpec => Event::ChangeCipherSpec,
        DTLSMessage::Alert(alert) => Event::Alert(TlsMessageAlert {
            severity: alert.severity,
            code: alert.code,
        }),
        _ => Event::Fault(ErrorKind::Switch),
    }
}

/// The fault of a refusal. A datagram is whole, so missing bytes won't come.
fn kind_of(error: Refused<Error<&[u8]>>) -> ErrorKind
    ensures { result ≡ kind_emitted (refusal_of error.entry) }
{
    match error {
        Refused::Error(error) => error.code,
        _ => ErrorKind::Complete,
    }
}

/// Appends a fault if bytes are left after what was parsed.
fn emit_left_over(rest: &[u8], events: &mut Vec<Event>) -> Result<(), OutOfMemory>
    ensures emitted { OnOk result
        (view_events events.new.items ≡ view_events events.old.items ++ left_over rest.now) }
    ensures stopped { OnErr result (view_events events.new.items ≡ view_events events.old.items) }
{
    if !rest.is_empty() {
        events.push(Event::Fault(ErrorKind::Complete))?;
    }
    Ok(())
}

/// Appends a fault if no record can be parsed from the rest of a datagram.
pub(crate) fn emit_unread(
    left: &[u8],
    error: Refused<Error<&[u8]>>,
    events: &mut Vec<Event>,
) -> Result<(), OutOfMemory>
    ensures emitted { OnOk result
        (view_events events.new.items ≡ view_events events.old.items ++ unread left.now
        (refusal_of error.entry)) }
    ensures stopped { OnErr result (view_events events.new.items ≡ view_events events.old.items) }
{
    if !left.is_empty() {
        events.push(Event::Fault(kind_of(error)))?;
    }
    Ok(())
}

/// Appends the events of messages.
fn emit_messages<'a>(
    messages: &[DTLSMessage<'a>],
    events: &mut Vec<Event<'a>>,
) -> Result<(), OutOfMemory>
    ensures emitted { OnOk result
        (view_events events.new.items ≡ view_events events.old.items ++ map
        (λ m. event_of (view_content m)) messages.now) }
    ensures stopped { OnErr result
        (AreEmittedInPart (map (λ m. event_of (view_content m)) messages.now)
        (view_events events.old.items) (view_events events.new.items)) }
{
    for message in messages {
        events.push(emitted_as(message))?;
    }
    Ok(())
}

/// The version that OpenSSL used before RFC 4347.
const BEFORE_RFC: u16 = 0x0100;

/// The bytes that a record's messages are parsed from: the whole fragment, except that in version
/// 0x0100 a ChangeCipherSpec is followed by a message number.
#[tactic(auto, unfolding(crate::specs::Datagrams::content_bytes))]
fn content_bytes<'a>(raw: &DTLSRawRecord<'a>) -> &'a [u8]
    ensures { result.now ≡ content_bytes_of (view_raw_record raw.now) }
{
    let is_numbered = raw.header.version.0 == BEFORE_RFC
        && raw.header.content_type.0 == TlsRecordType::ChangeCipherSpec.0
        && raw.fragment.len() == 3;
    if is_numbered {
        &raw.fragment[..1]
    } else {
        raw.fragment
    }
}

/// Appends the events of a record that isn't of type handshake.
fn emit_content<'a>(
    alloc: Global,
    raw: &DTLSRawRecord<'a>,
    events: &mut Vec<Event<'a>>,
) -> Result<(), OutOfMemory>
    ensures emitted { (h : Received)
        → OnOk result
        (view_events events.new.items ≡ view_events
        events.old.items ++ (content_record_step (view_raw_record raw.now) h).1) }
    ensures stopped { (h : Received)
        → OnErr result
        (AreEmittedInPart (content_record_step (view_raw_record raw.now) h).1
        (view_events events.old.items) (view_events events.new.items)) }
{
    match parse_dtls_record_with_header(alloc, content_bytes(raw), &raw.header) {
        Ok((rest, messages)) => {
            emit_messages(&messages, events)?;
            emit_left_over(rest, events)
        }
        Err(Refused::OutOfMemory) => Err(OutOfMemory),
        Err(error) => {
            events.push(Event::Fault(kind_of(error)))?;
            Ok(())
        }
    }
}

/// Adds the fragments in a record and appends their events.
fn read_handshake(
    alloc: Global,
    bytes: &[u8],
    messages: &mut Messages,
    events: &mut Vec<Event>,
) -> Result<(), OutOfMemory>
    ensures emitted { (l : Allowed) (h : Received) → Stands l h messages.old
        → OnOk result
        (IsStep l (fragment_record_step bytes.now l h) (view_events events.old.items)
        (view_events events.new.items) messages.new) }
    ensures stopped { (l : Allowed) (h : Received) → Stands l h messages.old
        → OnErr result
        (IsCut l h (fragments_in_content bytes.now) (fragment_record_step bytes.now l h).1
        (view_events events.old.items) (view_events events.new.items) messages.new) }
{
    match items1::<Fragment>(alloc, bytes) {
        Ok((rest, fragments)) => {
            read_all(messages, &fragments, events)?;
            emit_left_over(rest, events)
        }
        Err(Refused::OutOfMemory) => Err(OutOfMemory),
        Err(error) => {
            events.push(Event::Fault(kind_of(error)))?;
            Ok(())
        }
    }
}

/// Reads a record of one direction and appends its events to `events`. `messages` holds the state
/// of that direction.
///
/// `OutOfMemory` if there is no memory for a fragment or an event, as in
/// [`read_datagram`](crate::read_datagram).
pub fn read_record_events<'a>(
    alloc: Global,
    raw: DTLSRawRecord<'a>,
    messages: &mut Messages,
    events: &mut Vec<Event<'a>>,
) -> Result<(), OutOfMemory>
    ensures emitted { (l : Allowed) (h : Received) → Stands l h messages.old
        → OnOk result
        (IsStep l (record_step l h (view_raw_record raw.entry)) (view_events events.old.items)
        (view_events events.new.items) messages.new) }
    ensures stopped { (l : Allowed) (h : Received) → Stands l h messages.old
        → OnErr result
        (IsRecordCut l h (view_raw_record raw.entry) (view_events events.old.items)
        (view_events events.new.items) messages.new) }
{
    if raw.header.epoch > 0 {
        events.push(Event::Encrypted(EncryptedRecord {
            content_type: raw.header.content_type,
            version: raw.header.version,
            epoch: raw.header.epoch,
            sequence_number: raw.header.sequence_number,
            fragment: raw.fragment,
        }))?;
        return Ok(());
    }
    if raw.header.content_type.0 == TlsRecordType::Handshake.0 {
        return read_handshake(alloc, raw.fragment, messages, events);
    }
    emit_content(alloc, &raw, events)
}
