//! Evicts connections when memory runs short.
ghost use Rattle.std.specs.Prelude.{◌≡◌, ◌<◌, ◌≤◌, IfSome, OnErr, OnOk, length, true, vec_capacity};
ghost use Rattle.std.specs.Option.{option_map};
ghost use Rattle.arrivals.specs.Arrival.{five_tuple_in};
ghost use Rattle.connections.specs.Memory.{FitsClosed, IsAccounted};
ghost use Rattle.connections.specs.Table.{at, others};
ghost use Rattle.log_connections.specs.Sink.{EndsAs, Evicts, EndsLast, marked};
ghost use Rattle.log_connections.specs.declared.memory.TheConstants.{SPARE};

use crate::analysis::{PieceCollector, TlsAnalysis};
use crate::log::Log;
use arrivals::Arrival;
use connections::Connection;
use std::alloc::AllocError;

/// The memory reserved for ending connections when the system refuses more, in bytes: enough for a
/// line and its parts.
pub(crate) const SPARE: usize = 1_048_576;

/// Marks a connection as ended early.
fn mark_early<K>(over: &mut Connection<TlsAnalysis<K>>)
    ensures { over.new ≡ marked true over.old }
{
    over.attachment.is_ended_early = true;
}

impl<K: PieceCollector> Log<K> {
    /// Sets the memory limit for connections in bytes. The default is none.
    pub fn set_memory(&mut self, memory: usize)
        ensures { self.new ≡ record self.old { memory = memory } }
    {
        self.memory = memory;
    }

    /// Marks a removed connection as ended early, and analyzes the rest of it.
    fn end_early(
        &mut self,
        taken: Option<Box<Connection<TlsAnalysis<K>>>>,
    ) -> Option<Box<Connection<TlsAnalysis<K>>>>
        ensures ended { EndsAs true (option_map (λ b. b.value) taken)
            (option_map (λ b. b.value) result) }
        ensures connections { self.new.connections ≡ self.old.connections }
        ensures spare { vec_capacity self.new.spare ≤ vec_capacity self.old.spare }
        ensures memory { self.new.memory ≡ self.old.memory }
        ensures kept { self.new.kept ≡ self.old.kept }
        ensures arrivals { self.new.arrivals ≡ self.old.arrivals }
    {
        let mut over = self.with_last(taken)?;
        mark_early(&mut over);
        Some(over)
    }

    /// Removes and returns the longest-idle connection if all exceed the memory limit.
    pub(crate) fn take_evicted(&mut self) -> Option<Box<Connection<TlsAnalysis<K>>>>
        ensures evicted { Evicts self.old.memory self.old.connections self.new.connections
            (option_map (λ b. b.value) result) }
        ensures fewer { IfSome result (λ _.
            length self.new.connections.live < length self.old.connections.live) }
        ensures closed { FitsClosed self.old.memory self.old.connections.closed
            self.new.connections.closed }
        ensures accounted { IsAccounted self.old.connections → IsAccounted self.new.connections }
        ensures memory { self.new.memory ≡ self.old.memory }
        ensures kept { self.new.kept ≡ self.old.kept }
        ensures arrivals { self.new.arrivals ≡ self.old.arrivals }
    {
        if !self.connections.is_over_limit(self.memory) {
            return None;
        }
        let taken = self.connections.take_evicted(self.memory);
        self.end_early(taken)
    }

    /// Removes and returns the connection of an arrival for which there was no memory. Frees the
    /// reserve, until [`Log::spare`] allocates it again.
    pub(crate) fn take_refused(
        &mut self,
        arrival: &Arrival<'_>,
    ) -> Option<Box<Connection<TlsAnalysis<K>>>>
        ensures own { EndsAs true (at (five_tuple_in arrival.now) self.old.connections.live)
            (option_map (λ b. b.value) result) }
        ensures others { self.new.connections.live ≡ others (five_tuple_in arrival.now)
            self.old.connections.live }
        ensures freed { vec_capacity self.new.spare ≡ 0 }
        ensures accounted { IsAccounted self.old.connections
            → IsAccounted self.new.connections }
        ensures memory { self.new.memory ≡ self.old.memory }
        ensures kept { self.new.kept ≡ self.old.kept }
        ensures arrivals { self.new.arrivals ≡ self.old.arrivals }
    {
        self.spare = Vec::new(self.alloc);
        let taken = self.connections.take(&arrival.between());
        self.end_early(taken)
    }

    /// Removes and returns the longest-idle connection, when the system refuses memory.
    pub(crate) fn take_oldest(&mut self) -> Option<Box<Connection<TlsAnalysis<K>>>>
        ensures oldest { EndsLast true self.old.connections.live self.new.connections.live
            (option_map (λ b. b.value) result) }
        ensures accounted { IsAccounted self.old.connections
            → IsAccounted self.new.connections }
        ensures memory { self.new.memory ≡ self.old.memory }
        ensures kept { self.new.kept ≡ self.old.kept }
        ensures arrivals { self.new.arrivals ≡ self.old.arrivals }
    {
        let taken = self.connections.take_remaining();
        self.end_early(taken)
    }

    /// Allocates the reserve again if it was freed. If there isn't enough memory, nothing changes.
    pub(crate) fn spare(&mut self) -> Result<(), AllocError>
        ensures enough { OnOk result (SPARE ≤ vec_capacity self.new.spare) }
        ensures lacks { OnErr result (vec_capacity self.old.spare < SPARE) }
        ensures refused { OnErr result (self.new ≡ self.old) }
        ensures same { self.new ≡ record self.old { spare = self.new.spare } }
    {
        if self.spare.capacity() < SPARE {
            self.spare = Vec::with_capacity(self.alloc, SPARE)?;
        }
        Ok(())
    }
}
