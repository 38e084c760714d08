//! The datagrams of one direction.
ghost use Rattle.std.specs.Prelude.{◌≡◌, OnErr, OnOk, IfOk};
ghost use Rattle.dtls_stream.specs.Messages.{Received, Limits as Allowed, Stands, nothing, view_events, view_limits};
ghost use Rattle.dtls_stream.specs.Datagrams.{IsDatagramCut, IsStep, datagram as datagram_step, datagrams as datagrams_step, views};

use crate::event::Event;
use crate::messages::{Limits, Messages};
use crate::records::{emit_unread, read_record_events};
use layouts::OutOfMemory;
use raw_records::read_record;
use std::alloc::Global;

/// Reads a datagram of one direction and appends its events to `events`. `messages` holds the state
/// of that direction.
///
/// A record that can't be parsed is reported as a fault. If its length is too large, or the
/// datagram ends within it, the rest of the datagram is skipped.
///
/// `OutOfMemory` if there is no memory for a fragment or an event. Earlier events stay, and a
/// prefix of this datagram's events follows them. A prefix of its fragments was added, and no
/// message is lost: each that they complete is either reported or still buffered whole as the next
/// one. It is delivered with the next fragment, or by `Messages::take_front`.
pub fn read_datagram<'a>(
    alloc: Global,
    messages: &mut Messages,
    datagram: &'a [u8],
    events: &mut Vec<Event<'a>>,
) -> Result<(), OutOfMemory>
    ensures emitted { (l : Allowed) (h : Received) → Stands l h messages.old
        → OnOk result
        (IsStep l (datagram_step l h datagram.now) (view_events events.old.items)
        (view_events events.new.items) messages.new) }
    ensures stopped { (l : Allowed) (h : Received) → Stands l h messages.old
        → OnErr result
        (IsDatagramCut l h datagram.now (view_events events.old.items)
        (view_events events.new.items) messages.new) }
{
    let mut left = datagram;
    'records: for taken in 0..datagram.len() {
        match read_record(left) {
            Ok((rest, raw)) => {
                read_record_events(alloc, raw, messages, events)?;
                left = rest;
            }
            Err(error) => return emit_unread(left, error, events),
        }
    }
    Ok(())
}

/// The events of one direction's datagrams, in order.
///
/// `OutOfMemory` if there is no memory for a fragment or an event.
pub fn read_datagrams<'a>(
    alloc: Global,
    limits: Limits,
    datagrams: &[&'a [u8]],
) -> Result<Vec<Event<'a>>, OutOfMemory>
    ensures { IfOk result
        (λ es. view_events es.items
        ≡ (datagrams_step (view_limits limits) nothing (views datagrams.now)).1) }
{
    let mut messages = Messages::new(alloc, limits);
    let mut events = Vec::new(alloc);
    for datagram in datagrams {
        read_datagram(alloc, &mut messages, datagram, &mut events)?;
    }
    Ok(events)
}
