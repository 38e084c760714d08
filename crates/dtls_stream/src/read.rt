//! The events of fragments, in order.
ghost use Rattle.std.specs.Prelude.{◌≡◌, ◌∷◌, [], OnOk, OnErr, IfOk};
ghost use Rattle.dtls_stream.specs.Fragments.{view_fragment, view_fragments};
ghost use Rattle.dtls_stream.specs.Messages.{AreHandedOut, AreReceived, AreKept, Received, IsReceived, IsStopped, Limits as Allowed, Stands, events as events_of, nothing, view_events, view_limits};

use crate::event::Event;
use crate::fragments::{Fragment, FragmentError};
use crate::messages::{Limits, Messages};
use std::alloc::Global;
use tls_base::OutOfMemory;

/// Delivers the next messages as long as they are whole. It reserves room for each before removing
/// it, so that a message stays buffered if memory runs out.
fn hand_out(messages: &mut Messages, events: &mut Vec<Event>) -> Result<(), OutOfMemory>
    ensures emitted { (l : Allowed) (h : Received) → Stands l h messages.old
        → OnOk result
        (AreHandedOut l h (view_events events.old.items) (view_events events.new.items)
        messages.new) }
    ensures stopped { (l : Allowed) (h : Received) → Stands l h messages.old
        → OnErr result
        (AreKept l h (view_events events.old.items) (view_events events.new.items) messages.new) }
{
    'whole: while messages.is_front_whole() {
        events.reserve(1)?;
        let Some(message) = messages.take_front() else {
            return Ok(());
        };
        events.push(Event::Handshake(message))?;
    }
    Ok(())
}

/// Adds a fragment and appends its events.
fn receive(
    messages: &mut Messages,
    fragment: &Fragment,
    events: &mut Vec<Event>,
) -> Result<(), OutOfMemory>
    ensures emitted { (l : Allowed) (h : Received) → Stands l h messages.old
        → OnOk result
        (IsReceived l h (view_fragment fragment.now) (view_events events.old.items)
        (view_events events.new.items) messages.new) }
    ensures stopped { (l : Allowed) (h : Received) → Stands l h messages.old
        → OnErr result
        (IsStopped l h (view_fragment fragment.now ∷ []) (view_events events.old.items)
        (view_events events.new.items) messages.new) }
{
    match messages.add(fragment) {
        Ok(()) => hand_out(messages, events),
        Err(FragmentError::OutOfMemory) => Err(OutOfMemory),
        Err(error) => {
            events.push(Event::Refused(fragment.message_seq, error))?;
            Ok(())
        }
    }
}

/// Adds fragments in order and appends their events to `events`.
///
/// `OutOfMemory` if there is no memory for a fragment or an event. Then a prefix of the fragments
/// was added, their events stay, and no message is lost: one that couldn't be reported is still
/// buffered. It is delivered with the next fragment, or by `Messages::take_front`.
pub fn read_all(
    messages: &mut Messages,
    fragments: &[Fragment],
    events: &mut Vec<Event>,
) -> Result<(), OutOfMemory>
    ensures emitted { (l : Allowed) (h : Received) → Stands l h messages.old
        → OnOk result
        (AreReceived l h (view_fragments fragments.now) (view_events events.old.items)
        (view_events events.new.items) messages.new) }
    ensures stopped { (l : Allowed) (h : Received) → Stands l h messages.old
        → OnErr result
        (IsStopped l h (view_fragments fragments.now) (view_events events.old.items)
        (view_events events.new.items) messages.new) }
{
    for fragment in fragments {
        receive(messages, fragment, events)?;
    }
    Ok(())
}

/// The events of one direction's fragments, in order.
///
/// `OutOfMemory` if there is no memory for a fragment or an event.
pub fn read_fragments(
    alloc: Global,
    limits: Limits,
    fragments: &[Fragment],
) -> Result<Vec<Event<'static>>, OutOfMemory>
    ensures { IfOk result
        (λ es. view_events es.items ≡ events_of (view_limits limits) nothing
        (view_fragments fragments.now)) }
{
    let mut messages = Messages::new(alloc, limits);
    let mut events = Vec::new(alloc);
    read_all(&mut messages, fragments, &mut events)?;
    Ok(events)
}
