//! The table of connections.
ghost use Rattle.std.specs.Prelude.{◌≡◌, ◌-◌, ◌^◌, ◌≤◌, length, true, false, None, IfOk, IfSome, IfNone, IsNone, OnErr, OnOk, [], ◌∷◌};
ghost use Rattle.std.specs.Borrow.{sem};
ghost use Rattle.std.specs.Option.{option_copied_mut, option_map};
ghost use Rattle.connections.specs.Segment.{five_tuple_of};
ghost use Rattle.connections.specs.Table.{at, belongs, closed_behind, ended, others, promoting, pending_outcome_in, with_dropped_segment, with_waiting_segment, without_earlier_syn, without_ended, without_pending_segment, AcceptsPending, BeginsAfter, BeginsFirst, HasBegun, HasBegunBy, IsForgotten, IsOver, IsOverAmong, IsPut, LeavesOutAt, LeavesOutPending, NoneIsOver, NoneToForget, Puts, Replaced, Restarts, TakesDatagram, WasLast};
ghost use Rattle.connections.specs.Memory.{IsAccounted};
ghost use Rattle.connections.specs.declared.five_tuple.Protocol.TheVariants.{Tcp, Udp};
ghost use Rattle.connections.specs.Datagram.{five_tuple_of_datagram};
ghost use Rattle.connections.specs.Lends.{lends_connection, lends_first};

use crate::boxed::Boxed;
use crate::by_five_tuple::ByFiveTuple;
use crate::connection::{Attachment, Connection};
use crate::datagram::Datagram;
use crate::five_tuple::FiveTuple;
use crate::pending::{PendingOutcome, PendingSegment};
use crate::receiver::DropReason;
use crate::segment::Segment;
use std::alloc::{AllocError, Global};
use std::hash::RandomState;
use std::marker::Model;
use std::mem;

/// How long a connection may be idle, in nanoseconds of the capture's clock: 300 seconds.
pub const IDLE_LIMIT: u64 = 300_000_000_000;

/// The most connections. Beyond that the longest-idle ones are evicted.
pub const MAX_CONNECTIONS: usize = 1_048_576;

/// The share of a memory limit that closed connections may take: one part in this many.
pub const CLOSED_SHARE: usize = 8;

/// An upper bound for a closed connection's memory, in bytes: its table entry, with a share of a
/// growing map.
pub const CLOSED_COST: usize = 256;

/// The open connections, each with a caller's value, most recent packet first.
#[derive(Drop)]
pub struct Connections<T> {
    alloc: Global,
    pub(crate) live: ByFiveTuple<Boxed<T>>,
    // The connections that both sides closed, each with its last time. Later packets of them are
    // ignored.
    pub(crate) closed: ByFiveTuple<u64>,
    // The memory accounted for the open connections, in bytes.
    pub(crate) held: usize,
}

impl<T> Model for Connections<T> {
    ghost use Rattle.std.specs.Prelude.{◌≡◌, ◌-◌, ◌^◌, ◌<◌};
    ghost use Rattle.connections.specs.Table.{Table};

    ghost Value = { Table T };

    ghost view = { λ c.
        record { live = c.live.entries; closed = c.closed.entries; held = c.held } };

    ghost invariant = { λ c. (c.live.cap ≡ 2 ^ 64 - 1) × (c.closed.cap ≡ 2 ^ 64 - 1)
        × (c.held < 2 ^ 63) };
}

/// Sets the value of a five-tuple.
fn put_under<X: Drop>(
    table: &mut ByFiveTuple<X>,
    five_tuple: FiveTuple,
    value: X,
) -> Result<(), AllocError>
    requires { table.old.cap ≡ 2 ^ 64 - 1 }
    ensures put { OnOk result
        (table.new.entries ≡ (five_tuple, value) ∷ others five_tuple table.old.entries) }
    ensures err { OnErr result (table.new ≡ table.old) }
    ensures cap { table.new.cap ≡ table.old.cap }
{
    prove!(table.len() < usize::MAX);
    table.put(five_tuple, value)?;
    Ok(())
}

/// Returns whether a connection with this last time was idle for more than [`IDLE_LIMIT`], or there
/// are more than [`MAX_CONNECTIONS`].
fn is_over(time: u64, last_time: u64, count: usize) -> bool
    ensures over { result ≡ true → IsOverAmong count time last_time }
    ensures not_over { result ≡ false → ¬ IsOverAmong count time last_time }
{
    time.saturating_sub(last_time) > IDLE_LIMIT || count > MAX_CONNECTIONS
}

/// Forgets the closed connections that were idle for more than [`IDLE_LIMIT`], and the oldest
/// beyond [`MAX_CONNECTIONS`].
fn forget_idle(closed: &mut ByFiveTuple<u64>, time: u64)
    ensures forgotten { IsForgotten time closed.old.entries closed.new.entries }
    ensures none_to_forget { NoneToForget time closed.new.entries }
    ensures cap { closed.new.cap ≡ closed.old.cap }
{
    while let Some((_, last_time)) = closed.peek_lru() {
        if !is_over(time, *last_time, closed.len()) {
            break;
        }
        closed.pop_lru();
    }
}

impl<T: Attachment> Connections<T> {
    /// Returns an empty table. `keys` keys its hashes, so that nobody without the keys can choose
    /// five-tuples whose hashes collide.
    pub fn new(alloc: Global, keys: RandomState) -> Result<Connections<T>, AllocError>
        ensures { IfOk result (λ c. c ≡ record { live = []; closed = []; held = 0 }) }
    {
        Ok(Connections {
            alloc,
            live: ByFiveTuple::new(alloc, keys)?,
            closed: ByFiveTuple::new(alloc, keys)?,
            held: 0,
        })
    }

    /// Counts a segment that its receiver drops, in the connection between its ends. Nothing else
    /// changes, not even the order of use. A SYN is kept, since another connection may begin with
    /// it.
    ///
    /// `AllocError` if there is no memory for it.
    pub fn drop_segment(
        &mut self,
        segment: &Segment<'_>,
        reason: DropReason,
    ) -> Result<(), AllocError>
        ensures counted { OnOk result
            (self.new ≡ with_dropped_segment reason segment.now self.old) }
        ensures err { OnErr result (self.new ≡ without_earlier_syn reason segment.now self.old) }
        ensures accounted { IsAccounted self.old → IsAccounted self.new }
    {
        let (alloc, five_tuple) = (self.alloc, segment.between());
        if let Some(connection) = self.live.peek_mut(&five_tuple) {
            return connection.get_mut().drop_segment(alloc, segment, reason);
        }
        Ok(())
    }

    /// Restarts the connection between a segment's ends, when the segment shows that everything
    /// before it was damaged and nobody took it.
    pub fn restart(&mut self, segment: &Segment<'_>)
        ensures restarts { Restarts segment.now self.old self.new }
        ensures attached { IfSome (at (five_tuple_of segment.now) self.old.live)
            (λ c. HasBegun T.IsBegun c.protocol (five_tuple_of segment.now) self.new.live) }
        ensures accounted { IsAccounted self.old → IsAccounted self.new }
    {
        let (alloc, five_tuple) = (self.alloc, segment.between());
        let Some(connection) = self.live.peek_mut(&five_tuple) else {
            return;
        };
        connection.get_mut().restart(alloc, segment.time);
    }

    /// Keeps a segment as pending in its connection, until its receiver shows whether it took it.
    /// If more than [`MAX_PENDING`] are pending, it counts as dropped for this reason.
    ///
    /// `AllocError` if there is no memory for it.
    pub fn wait(&mut self, segment: &Segment<'_>, reason: DropReason) -> Result<(), AllocError>
        ensures waits { OnOk result (self.new ≡ with_waiting_segment reason segment.now self.old) }
        ensures err { OnErr result (self.new ≡ self.old) }
        ensures accounted { IsAccounted self.old → IsAccounted self.new }
    {
        let (alloc, five_tuple) = (self.alloc, segment.between());
        if let Some(connection) = self.live.peek_mut(&five_tuple) {
            return connection.get_mut().wait(alloc, segment, reason);
        }
        Ok(())
    }

    /// Removes and returns a pending segment that this segment acknowledges. One whose bytes all
    /// arrived otherwise counts as dropped.
    ///
    /// Call it before this segment is accepted, until it returns `None`.
    pub fn take_pending(&mut self, segment: &Segment<'_>) -> Option<PendingOutcome>
        ensures outcome { result ≡ pending_outcome_in segment.now self.old }
        ensures left { self.new ≡ without_pending_segment segment.now self.old }
        ensures accounted { IsAccounted self.old → IsAccounted self.new }
    {
        let five_tuple = segment.between();
        if let Some(connection) = self.live.peek_mut(&five_tuple) {
            return connection.get_mut().take_pending(segment);
        }
        None
    }

    /// Adds a pending segment to its connection's stream.
    ///
    /// `AllocError` if there is no memory for its bytes. They are left out then.
    pub fn accept_pending(&mut self, kept: &PendingSegment) -> Result<(), AllocError>
        ensures taken { OnOk result (AcceptsPending kept.now self.old self.new) }
        ensures left_out { OnErr result (LeavesOutPending kept.now self.old self.new) }
        ensures accounted { IsAccounted self.old → IsAccounted self.new }
    {
        let (alloc, five_tuple) = (self.alloc, kept.between());
        if let Some(connection) = self.live.get_mut(&five_tuple) {
            return connection.get_mut().accept_pending(alloc, kept);
        }
        Ok(())
    }

    /// Adds a connection that begins with a segment.
    fn begin(&mut self, five_tuple: FiveTuple, segment: &Segment<'_>) -> Result<(), AllocError>
        ensures begun { OnOk result (BeginsFirst segment.now five_tuple self.old self.new) }
        ensures attached { OnOk result (HasBegun T.IsBegun Tcp five_tuple self.new.live) }
        ensures err { OnErr result (self.new ≡ self.old) }
        ensures accounted { at five_tuple self.old.live ≡ None → IsAccounted self.old
            → IsAccounted self.new }
    {
        let alloc = self.alloc;
        let mut connection = Boxed::new(alloc, Connection::of_segment(alloc, segment))?;
        connection.get_mut().accept(alloc, segment)?;
        put_under(&mut self.live, five_tuple, connection)?;
        self.closed.pop(&five_tuple);
        Ok(())
    }

    /// Adds the segment to its connection, and returns whether there is one. There is none if the
    /// segment neither begins one nor has data, or if the last one was closed.
    ///
    /// `AllocError` if there is no memory for a new connection or the segment's bytes. These are
    /// left out then.
    pub fn accept(&mut self, segment: &Segment<'_>) -> Result<bool, AllocError>
        ensures belongs { IfOk result
            (λ belongs_to_one. belongs_to_one ≡ belongs segment.now self.old) }
        ensures put { IfOk result
            (λ belongs_to_one. Puts belongs_to_one segment.now self.old self.new) }
        ensures others { others (five_tuple_of segment.now) self.new.live
            ≡ others (five_tuple_of segment.now) self.old.live }
        ensures refused { OnErr result (belongs segment.now self.old ≡ true) }
        ensures left_out { OnErr result
            (LeavesOutAt segment.now (at (five_tuple_of segment.now) self.old.live) self.old.live
            self.new.live) }
        ensures attached { OnOk result (at (five_tuple_of segment.now) self.old.live ≡ None
            → HasBegun T.IsBegun Tcp (five_tuple_of segment.now) self.new.live) }
        ensures closed { IfOk result
            (λ belongs_to_one.
            self.new.closed ≡ closed_behind belongs_to_one segment.now self.old) }
        ensures accounted { IsAccounted self.old → IsAccounted self.new }
    {
        let five_tuple = segment.between();
        let alloc = self.alloc;
        if let Some(connection) = self.live.get_mut(&five_tuple) {
            connection.get_mut().accept(alloc, segment)?;
            return Ok(true);
        }
        if !segment.begins_one() || (!segment.begins() && self.closed.contains(&five_tuple)) {
            return Ok(false);
        }
        self.begin(five_tuple, segment)?;
        Ok(true)
    }

    /// Counts the datagram, and notes its time, in the exchange between its ends. Without one it
    /// begins an exchange.
    ///
    /// `AllocError` if there is no memory for a new one. The datagram is left out then.
    pub fn accept_datagram(&mut self, datagram: &Datagram<'_>) -> Result<(), AllocError>
        ensures put { OnOk result
            (IsPut (five_tuple_of_datagram datagram.now) (TakesDatagram datagram.now) self.old.live
            self.new.live) }
        ensures attached { OnOk result (HasBegunBy T.IsBegun datagram.now
            (at (five_tuple_of_datagram datagram.now) self.old.live) self.new.live) }
        ensures err { OnErr result (self.new.live ≡ self.old.live) }
        ensures closed { self.new.closed ≡ self.old.closed }
        ensures accounted { IsAccounted self.old → IsAccounted self.new }
    {
        let five_tuple = datagram.between();
        let alloc = self.alloc;
        if let Some(exchange) = self.live.get_mut(&five_tuple) {
            exchange.get_mut().take_datagram(alloc, datagram);
            return Ok(());
        }
        let exchange = Boxed::new(alloc, Connection::of_datagram(alloc, datagram))?;
        put_under(&mut self.live, five_tuple, exchange)?;
        Ok(())
    }

    /// Returns the connection of a five-tuple for writing. The order of use doesn't change.
    pub fn get_mut(&mut self, five_tuple: &FiveTuple) -> Option<&mut Connection<T>>
        ensures* writes_back { sem 𝓛 (lends_connection T.row self.entry five_tuple.now result) }
        ensures value { option_copied_mut result ≡ at five_tuple.now self.old.live }
    {
        let connection = self.live.peek_mut(five_tuple)?;
        Some(connection.get_mut())
    }

    /// Returns the connection of a five-tuple for writing, and makes it the most recently used.
    pub fn get_first_mut(&mut self, five_tuple: &FiveTuple) -> Option<&mut Connection<T>>
        ensures* writes_back { sem 𝓛 (lends_first T.row self.entry five_tuple.now result) }
        ensures value { option_copied_mut result ≡ at five_tuple.now self.old.live }
    {
        let connection = self.live.get_mut(five_tuple)?;
        Some(connection.get_mut())
    }

    /// Makes a connection the most recently used. Packets mostly come several in a row, so the
    /// table is searched only if it isn't first already.
    pub fn promote(&mut self, five_tuple: &FiveTuple)
        ensures promoted { self.new ≡ promoting five_tuple.now self.old }
        ensures accounted { IsAccounted self.old → IsAccounted self.new }
    {
        if !self.is_first(five_tuple) {
            self.live.promote(five_tuple);
        }
    }

    /// Returns whether the connection of a five-tuple is the most recently used.
    fn is_first(&self, five_tuple: &FiveTuple) -> bool
        ensures { result ≡ true → promoting five_tuple.now self.now ≡ self.now }
    {
        match self.live.peek_mru() {
            Some((latest, _)) => *five_tuple == *latest,
            None => false,
        }
    }

    /// Removes and returns the exchange between a datagram's ends, and begins another one in its
    /// place. The datagram isn't counted yet. What is known about both ends' checksums stays.
    ///
    /// `AllocError` if there is no memory for the other one. Nothing changes then.
    pub fn take_exchange(
        &mut self,
        datagram: &Datagram<'_>,
    ) -> Result<Option<Box<Connection<T>>>, AllocError>
        ensures taken { IfOk result
            (λ taken. option_map (λ b. b.value) taken ≡ at (five_tuple_of_datagram datagram.now)
            self.old.live) }
        ensures left { OnOk result
            (BeginsAfter datagram.now (at (five_tuple_of_datagram datagram.now) self.old.live)
            self.old self.new) }
        ensures attached { OnOk result
            (HasBegun T.IsBegun Udp (five_tuple_of_datagram datagram.now) self.new.live) }
        ensures err { OnErr result (self.new ≡ self.old) }
        ensures accounted { IsAccounted self.old → IsAccounted self.new }
    {
        let (alloc, five_tuple) = (self.alloc, datagram.between());
        let Some(exchange) = self.live.peek_mut(&five_tuple) else {
            return Ok(None);
        };
        let another = Boxed::new(alloc, exchange.get().after(alloc, datagram))?;
        let over = mem::replace(exchange, another).into_box();
        self.held = self.held.saturating_sub(over.weight);
        Ok(Some(over))
    }

    /// Returns whether a connection is over at this time, or a closed one is to be forgotten. If
    /// not, [`Connections::take_idle`] changes nothing.
    pub fn has_idle(&self, time: u64) -> bool
        ensures none { result ≡ false
            → NoneIsOver time self.now.live × NoneToForget time self.now.closed }
        ensures one { NoneIsOver time self.now.live → NoneToForget time self.now.closed
            → result ≡ false }
    {
        let is_live_over = match self.live.peek_lru() {
            Some((_, oldest)) => is_over(time, oldest.get().last_time, self.live.len()),
            None => false,
        };
        let is_closed_over = match self.closed.peek_lru() {
            Some((_, last_time)) => is_over(time, *last_time, self.closed.len()),
            None => false,
        };
        is_live_over || is_closed_over
    }

    /// Removes and returns the longest-idle connection if it is over at this time: it was idle for
    /// more than [`IDLE_LIMIT`], or there are more than [`MAX_CONNECTIONS`].
    ///
    /// Call it until it returns `None`.
    pub fn take_idle(&mut self, time: u64) -> Option<Box<Connection<T>>>
        ensures taken { IfSome result (λ b. WasLast self.old.live self.new.live b.value
            × IsOver time self.old.live b.value.last_time) }
        ensures none { IfNone result
            ((self.new.live ≡ self.old.live) × NoneIsOver time self.old.live) }
        ensures closed { IsForgotten time self.old.closed self.new.closed }
        ensures none_to_forget { NoneToForget time self.new.closed }
        ensures held { IfSome result (λ b. self.new.held ≡ self.old.held - b.value.weight) }
        ensures kept { IfNone result (self.new.held ≡ self.old.held) }
        ensures accounted { IsAccounted self.old → IsAccounted self.new }
    {
        forget_idle(&mut self.closed, time);
        let (_, oldest) = self.live.peek_lru()?;
        if !is_over(time, oldest.get().last_time, self.live.len()) {
            return None;
        }
        let (_, connection) = self.live.pop_lru()?;
        let over = connection.into_box();
        self.held = self.held.saturating_sub(over.weight);
        Some(over)
    }

    /// Removes and returns the connection between the segment's ends if the segment shows that
    /// another one began, and puts that in its place. A SYN in the middle of a connection is only
    /// counted, until the other end answers it.
    ///
    /// `AllocError` if there is no memory for the other one. Nothing changes then.
    pub fn take_replaced(
        &mut self,
        segment: &Segment<'_>,
    ) -> Result<Option<Box<Connection<T>>>, AllocError>
        ensures replaced { IfOk result
            (λ taken. Replaced segment.now self.old self.new (option_map (λ b. b.value) taken)) }
        ensures attached { IfOk result (λ taken. IfSome taken
            (λ b. HasBegun T.IsBegun Tcp (five_tuple_of segment.now) self.new.live)) }
        ensures err { OnErr result (self.new ≡ self.old) }
        ensures accounted { IsAccounted self.old → IsAccounted self.new }
    {
        let five_tuple = segment.between();
        let Some(connection) = self.live.peek(&five_tuple) else {
            return Ok(None);
        };
        let Some(beginning) = connection.get().another(segment) else {
            return Ok(None);
        };
        let another = Boxed::of_beginning(self.alloc, &beginning)?;
        let Some(place) = self.live.get_mut(&five_tuple) else {
            return Ok(None);
        };
        let mut over = mem::replace(place, another).into_box();
        over.forget_syns();
        self.held = self.held.saturating_sub(over.weight);
        Ok(Some(over))
    }

    /// Removes and returns the connection between the segment's ends if both sides closed it. Later
    /// packets of it are ignored, until a segment asks for a new one.
    ///
    /// `AllocError` if there is no memory to remember that it is closed. Nothing changes then.
    pub fn take_closed(
        &mut self,
        segment: &Segment<'_>,
    ) -> Result<Option<Box<Connection<T>>>, AllocError>
        ensures taken { IfOk result
            (λ taken.
            option_map (λ b. b.value) taken ≡ ended (five_tuple_of segment.now) self.old) }
        ensures left { OnOk result
            (self.new ≡ without_ended (five_tuple_of segment.now) segment.now.time self.old) }
        ensures err { OnErr result (self.new ≡ self.old) }
        ensures accounted { IsAccounted self.old → IsAccounted self.new }
    {
        let five_tuple = segment.between();
        match self.live.peek(&five_tuple) {
            Some(connection) if connection.get().is_closed() => {}
            _ => return Ok(None),
        }
        put_under(&mut self.closed, five_tuple, segment.time)?;
        let Some(connection) = self.live.pop(&five_tuple) else {
            return Ok(None);
        };
        let over = connection.into_box();
        self.held = self.held.saturating_sub(over.weight);
        Ok(Some(over))
    }

    /// Removes and returns the longest-idle of the remaining connections. At the end of the
    /// capture, call it until it returns `None`.
    pub fn take_remaining(&mut self) -> Option<Box<Connection<T>>>
        ensures taken { IfSome result (λ b. WasLast self.old.live self.new.live b.value) }
        ensures none { IfNone result (self.old.live ≡ []) }
        ensures same { IfNone result (self.new ≡ self.old) }
        ensures closed { self.new.closed ≡ self.old.closed }
        ensures held { IfSome result (λ b. self.new.held ≡ self.old.held - b.value.weight) }
        ensures accounted { IsAccounted self.old → IsAccounted self.new }
    {
        let (_, connection) = self.live.pop_lru()?;
        let over = connection.into_box();
        self.held = self.held.saturating_sub(over.weight);
        Some(over)
    }
}
