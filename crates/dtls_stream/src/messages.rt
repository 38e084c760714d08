//! The messages of one direction, in order.
ghost use Rattle.std.specs.Prelude.{◌≡◌, ◌+◌, ◌≤◌, ◌<◌, ℕ, length, take, max, Err, None, IsErr, IsOk, IfOk, OnOk, is_some, get_or, if◌then◌else◌};
ghost use Rattle.std.specs.Option.{option_map};
ghost use Rattle.dtls_stream.specs.Fragments.{view_fragment};
ghost use Rattle.dtls_stream.specs.Messages.{Received, IsChangedAt, IsOrMemory, IsSlotAdded, Kept, Limits as Allowed, Stands, message_of, nothing, nothing_from, of_message, slot, slot_judged, verdict, view_limits, view_message, with_taken};

use crate::event::Message;
use crate::fragments::{Fragment, FragmentError, Fragments};
use std::alloc::{AllocError, Global};
use std::marker::Model;
use std::mem::size_of;

/// The limits that a caller sets.
#[derive(Clone, Copy, Debug, PartialEq)]
pub struct Limits {
    /// The longest body of a message, in bytes.
    pub message: usize,
    /// How many messages may be buffered at a time, including the next one.
    pub ahead: u16,
}

/// The default limits: a body of 131,072 bytes, and 16 messages.
pub const DEFAULT_LIMITS: Limits = Limits {
    message: 131_072,
    ahead: 16,
};

/// The reassembly buffer of one direction: fragments of the next message and of those ahead of it.
#[derive(Drop)]
pub struct Messages {
    alloc: Global,
    limits: Limits,
    next: u32,
    slots: Vec<Option<Fragments>>,
}

impl Model for Messages {
    ghost Value = { Kept };

    ghost view = { λ s. record { limits = s.limits; next = s.next; slots = s.slots.items } };

    ghost invariant = { λ s. (length s.slots.items ≤ s.limits.ahead)
        × (s.next + length s.slots.items ≤ 65536) };
}

/// Appends empty slots, up to n of them.
fn widen(slots: &mut Vec<Option<Fragments>>, n: usize) -> Result<(), AllocError>
    ensures refused { IsErr result → slots.new.items ≡ slots.old.items }
    ensures kept { (k : ℕ) → get_or slots.new.items k None ≡ get_or slots.old.items k None }
    ensures front { take (length slots.old.items) slots.new.items ≡ slots.old.items }
    ensures room { OnOk result (length slots.new.items ≡ max (length slots.old.items) n) }
{
    let held = slots.len();
    while slots.len() < n {
        if let Err(error) = slots.push(None) {
            slots.truncate(held);
            return Err(AllocError::from(error));
        }
    }
    Ok(())
}

/// Adds a fragment to its message's slot.
fn add_to(
    alloc: Global,
    slot: &mut Option<Fragments>,
    fragment: &Fragment,
) -> Result<(), FragmentError>
    ensures answer { IsOrMemory result (slot_judged slot.old (view_fragment fragment.now)) }
    ensures added { OnOk result (IsSlotAdded slot.old (view_fragment fragment.now) slot.new) }
    ensures refused { IsErr result → slot.new ≡ slot.old }
{
    match slot {
        Some(part) => part.add(fragment),
        None => {
            let mut part = Fragments::new(alloc, fragment);
            part.add(fragment)?;
            *slot = Some(part);
            Ok(())
        }
    }
}

impl Messages {
    /// An empty buffer, whose next message is number 0. It doesn't allocate.
    pub fn new(alloc: Global, limits: Limits) -> Messages
        ensures { Stands (view_limits limits) nothing result }
    {
        Messages {
            alloc,
            limits,
            next: 0,
            slots: Vec::new(alloc),
        }
    }

    /// An empty buffer, whose next message is number `first`: the earlier ones were not captured.
    /// It doesn't allocate.
    pub fn beginning_at(alloc: Global, limits: Limits, first: u16) -> Messages
        ensures { Stands (view_limits limits) (nothing_from first) result }
    {
        Messages {
            alloc,
            limits,
            next: first as u32,
            slots: Vec::new(alloc),
        }
    }

    /// The number of the next message.
    pub fn next_number(&self) -> u32
        ensures { (l : Allowed) (h : Received) → Stands l h self.now → result ≡ h.next }
    {
        self.next
    }

    /// An upper bound for the memory that it uses besides itself, in bytes: the buffered fragments
    /// and the slots.
    pub fn capacity(&self) -> usize {
        let mut bytes = self
            .slots
            .capacity()
            .saturating_mul(size_of::<Option<Fragments>>());
        for slot in &self.slots {
            if let Some(part) = slot {
                bytes = bytes.saturating_add(part.capacity());
            }
        }
        bytes
    }

    /// Adds a fragment to a slot.
    fn add_at(&mut self, index: usize, fragment: &Fragment) -> Result<(), FragmentError>
        requires near { index < self.old.limits.ahead }
        requires number { self.old.next + index < 65536 }
        ensures answer { IsOrMemory result
            (slot_judged (slot self.old index) (view_fragment fragment.now)) }
        ensures added { OnOk result
            (IsSlotAdded (slot self.old index) (view_fragment fragment.now) (slot self.new index)) }
        ensures changed { OnOk result (IsChangedAt self.old index self.new) }
        ensures refused { IsErr result → self.new ≡ self.old }
    {
        let held = self.slots.len();
        widen(&mut self.slots, index + 1)?;
        let answer = add_to(self.alloc, &mut self.slots[index], fragment);
        if answer.is_err() {
            self.slots.truncate(held);
        }
        answer
    }

    /// Adds a fragment, or returns why it is refused; then nothing changes.
    pub fn add(&mut self, fragment: &Fragment) -> Result<(), FragmentError>
        ensures answer { (l : Allowed) (h : Received) → Stands l h self.old
            → IsOrMemory result (verdict l h (view_fragment fragment.now)) }
        ensures taken { (l : Allowed) (h : Received) → Stands l h self.old
            → OnOk result
            (Stands l (record h { taken = with_taken h (view_fragment fragment.now) }) self.new) }
        ensures refused { IsErr result → self.new ≡ self.old }
    {
        let seq = fragment.message_seq as u32;
        if seq < self.next {
            return Err(FragmentError::Old);
        }
        let index = (seq - self.next) as usize;
        if index >= self.limits.ahead as usize {
            return Err(FragmentError::TooFarAhead);
        }
        if fragment.length as usize > self.limits.message {
            return Err(FragmentError::TooLarge);
        }
        self.add_at(index, fragment)
    }

    /// Whether the next message is whole.
    pub fn is_front_whole(&self) -> bool
        ensures { (l : Allowed) (h : Received) → Stands l h self.now
            → result ≡ is_some (message_of (of_message h.next h.taken)) }
    {
        let Some(Some(part)) = self.slots.first() else {
            return false;
        };
        part.body().is_some()
    }

    /// Removes and returns the next message, if it is whole. It doesn't allocate.
    pub fn take_front(&mut self) -> Option<Message>
        ensures places { length self.new.slots + (if is_some result then 1 else 0)
            ≡ length self.old.slots }
        ensures message { (l : Allowed) (h : Received) → Stands l h self.old
            → option_map view_message result ≡ message_of (of_message h.next h.taken) }
        ensures stands { (l : Allowed) (h : Received) → Stands l h self.old
            → Stands l (record h { next = (if is_some result then h.next + 1 else h.next) })
            self.new }
    {
        let Some(Some(part)) = self.slots.first() else {
            return None;
        };
        if part.body().is_none() {
            return None;
        }
        let part = self.slots.remove(0)?;
        self.next += 1;
        Some(part.into_message())
    }
}
