//! The memory of the connections, and which of them are evicted over a limit.
ghost use Rattle.std.specs.Prelude.{◌≡◌, ◌<◌, ◌≤◌, ◌^◌, IfSome, IfNone, true};
ghost use Rattle.connections.specs.Connection.{held_by};
ghost use Rattle.std.specs.Option.{option_map};
ghost use Rattle.connections.specs.Table.{at, others};
ghost use Rattle.connections.specs.Memory.{closed_count, closed_part, is_over_limit as over_limit, most_of, most_weight, open_part, total, FitsClosed, IsAccounted, IsChangedWeight, IsSettled, IsTakenOut};

use crate::by_five_tuple::ByFiveTuple;
use crate::connection::{Attachment, CONNECTION_COST, Connection};
use crate::five_tuple::FiveTuple;
use crate::table::{CLOSED_COST, CLOSED_SHARE, Connections};
use crate::traffic::Traffic;

/// An upper bound for a stream's memory for each byte and for each packet that was captured, and
/// for what it takes besides, in bytes.
const BYTE_COST: usize = 5;

const PACKET_COST: usize = 4608;

const STREAM_COST: usize = 512;

/// The most bytes that are accounted for all connections: more than any machine has.
const MAX_HELD: usize = 0x7fff_ffff_ffff_ffff;

/// Returns the part of a memory limit for closed connections, in bytes.
fn part_of_closed(limit: usize) -> usize
    ensures { result ≡ closed_part limit }
{
    limit / CLOSED_SHARE
}

/// Returns the part of a memory limit for open connections, in bytes.
fn part_of_open(limit: usize) -> usize
    ensures { result ≡ open_part limit }
{
    limit - part_of_closed(limit)
}

/// Returns how many closed connections fit in a memory limit.
fn count_of_closed(limit: usize) -> usize
    ensures { result ≡ closed_count limit }
{
    part_of_closed(limit) / CLOSED_COST
}

/// Forgets the connections that were closed first, until the others fit in a limit.
fn evict_closed(closed: &mut ByFiveTuple<u64>, limit: usize)
    ensures fits { FitsClosed limit closed.old.entries closed.new.entries }
    ensures cap { closed.new.cap ≡ closed.old.cap }
{
    let most = count_of_closed(limit);
    while closed.len() > most {
        closed.pop_lru();
    }
}

/// Returns an upper bound for the memory of a stream in bytes, by what was captured of it. In-order
/// bytes are in a vector, which doubles when it is full. Out-of-order bytes are in pages of 1,024
/// bytes, each of which costs about as much again, and a packet reaches two that it doesn't fill.
fn most_of_stream(sent: Traffic) -> usize
    ensures { result ≡ most_of sent }
{
    let bytes = (sent.bytes as usize).saturating_mul(BYTE_COST);
    let packets = (sent.packets as usize).saturating_mul(PACKET_COST);
    bytes.saturating_add(packets).saturating_add(STREAM_COST)
}

impl<T: Attachment> Connection<T> {
    /// Returns an upper bound for the connection's memory in bytes, its streams included.
    fn capacity(&self) -> usize
        ensures enough { held_by self.now < 2 ^ 64 → held_by self.now ≤ result }
        ensures within { result ≤ most_weight T.most_bytes self.now }
    {
        let streams = self
            .from_originator
            .capacity(most_of_stream(self.originator_sent))
            .saturating_add(
                self.from_responder
                    .capacity(most_of_stream(self.responder_sent)),
            );
        let others = self
            .waiting
            .capacity()
            .saturating_add(self.attachment.capacity())
            .saturating_add(CONNECTION_COST);
        streams.saturating_add(others)
    }

    /// Returns the memory that it takes in bytes, if the table accounts for another number.
    pub fn changed_weight(&self) -> Option<usize>
        ensures { IsChangedWeight T.most_bytes self.now result }
    {
        let weight = self.capacity();
        if weight == self.weight {
            None
        } else {
            Some(weight)
        }
    }

    /// Updates the memory that the table accounts for it, up to `room`.
    pub(crate) fn settle(&mut self, room: usize)
        ensures settled { self.new ≡ record self.old { weight = self.new.weight } }
        ensures within { self.new.weight ≤ room }
        ensures enough { held_by self.new ≤ room → held_by self.new ≤ self.new.weight }
        ensures bounded { self.new.weight ≤ most_weight T.most_bytes self.new }
    {
        self.weight = self.capacity().min(room);
    }
}

impl<T: Attachment> Connections<T> {
    /// Returns the memory that is accounted for the open connections, in bytes.
    pub fn held(&self) -> usize
        ensures { result ≡ self.now.held }
    {
        self.held
    }

    /// Updates the memory that is accounted for a connection. Call it after each packet that
    /// changes that ([`Connection::changed_weight`]).
    pub fn settle(&mut self, five_tuple: &FiveTuple)
        ensures settled { IsSettled T.most_bytes five_tuple.now
            (at five_tuple.now self.old.live) self.old self.new }
        ensures accounted { IsAccounted self.old → IsAccounted self.new }
    {
        let Some(connection) = self.live.peek_mut(five_tuple) else {
            return;
        };
        let connection = connection.get_mut();
        let others = self.held.saturating_sub(connection.weight);
        connection.settle(MAX_HELD - others);
        self.held = others + connection.weight;
    }

    /// Returns whether the accounted memory exceeds `limit`, in bytes. Closed connections may take
    /// an eighth of it.
    pub fn is_over_limit(&self, limit: usize) -> bool
        ensures { result ≡ over_limit limit self.now }
    {
        self.held > part_of_open(limit) || self.closed.len() > count_of_closed(limit)
    }

    /// Removes and returns the longest-idle connection if the open ones exceed their part of
    /// `limit`. Closed connections that exceed theirs are forgotten, the first closed first.
    ///
    /// Call it until it returns `None`. Then the open connections are within the limit.
    pub fn take_evicted(&mut self, limit: usize) -> Option<Box<Connection<T>>>
        ensures taken { IfSome result (λ b. IsTakenOut self.old self.new b.value) }
        ensures evicted { IfSome result (λ b. open_part limit < self.old.held) }
        ensures none { IfNone result
            ((self.new.live ≡ self.old.live) × (self.new.held ≡ self.old.held)) }
        ensures within { IfNone result
            (IsAccounted self.old → total self.new.live ≤ open_part limit) }
        ensures closed { FitsClosed limit self.old.closed self.new.closed }
        ensures accounted { IsAccounted self.old → IsAccounted self.new }
    {
        evict_closed(&mut self.closed, limit);
        if self.held <= part_of_open(limit) {
            return None;
        }
        self.take_remaining()
    }

    /// Removes and returns the connection of a five-tuple.
    pub fn take(&mut self, five_tuple: &FiveTuple) -> Option<Box<Connection<T>>>
        ensures taken { option_map (λ b. b.value) result ≡ at five_tuple.now self.old.live }
        ensures others { self.new.live ≡ others five_tuple.now self.old.live }
        ensures closed { self.new.closed ≡ self.old.closed }
        ensures accounted { IsAccounted self.old → IsAccounted self.new }
    {
        let connection = self.live.pop(five_tuple)?;
        let over = connection.into_box();
        self.held = self.held.saturating_sub(over.weight);
        Some(over)
    }
}
