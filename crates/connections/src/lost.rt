//! Missing bytes that their receiver acknowledged: it took them, and the capture lost them.
ghost use Rattle.std.specs.Prelude.{◌≡◌, IfOk, OnErr, OnOk};
ghost use Rattle.connections.specs.Lost.{begins_before as begins_before_number, end_of_side, keeping_lost, keeping_lost_of, keeping_on, lost_in, lost_of, lost_on, skipping_lost, skipping_lost_of, skipping_on, waits_before as waits_before_number};

use crate::connection::{Attachment, Connection, Side};
use crate::five_tuple::End;
use crate::numbers::is_behind;
use crate::pending::PendingSegment;
use crate::stream::Stream;
use std::alloc::AllocError;

/// Skips missing bytes of a stream if its receiver acknowledged a number behind the first of them.
fn skip_in(stream: &mut Stream, acknowledged: Option<u32>) -> Result<usize, AllocError>
    ensures count { IfOk result (λ n. n ≡ lost_in acknowledged stream.old) }
    ensures skipped { OnOk result (stream.new ≡ skipping_lost acknowledged stream.old) }
    ensures kept { OnErr result (stream.new ≡ keeping_lost acknowledged stream.old) }
{
    let Some(number) = acknowledged else {
        return Ok(0);
    };
    if stream.lacks(number) {
        return stream.skip_gap();
    }
    Ok(0)
}

/// Returns whether a pending segment of this sender begins before a number.
fn begins_before(kept: &PendingSegment, sender: End, number: u32) -> bool
    ensures { result ≡ begins_before_number sender number kept.now }
{
    kept.header.source == sender && is_behind(number, kept.first())
}

/// Returns whether one of these pending segments does.
fn waits_before(list: &[PendingSegment], sender: End, number: u32) -> bool
    ensures { result ≡ waits_before_number sender number list.now }
{
    for kept in list {
        if begins_before(kept, sender, number) {
            return true;
        }
    }
    false
}

impl<T: Attachment> Connection<T> {
    /// Returns a side's address and port.
    fn end_of_side(&self, side: Side) -> End
        ensures { result ≡ end_of_side side self.now }
    {
        match side {
            Side::Originator => self.originator,
            Side::Responder => self.responder,
        }
    }

    /// Skips missing bytes of a side that its receiver acknowledged.
    fn skip_on(&mut self, side: Side) -> Result<usize, AllocError>
        ensures count { IfOk result (λ n. n ≡ lost_on side self.old) }
        ensures skipped { OnOk result (self.new ≡ skipping_on side self.old) }
        ensures kept { OnErr result (self.new ≡ keeping_on side self.old) }
    {
        match side {
            Side::Originator => skip_in(
                &mut self.from_originator,
                self.responder_host.acknowledged,
            ),
            Side::Responder => skip_in(&mut self.from_responder, self.originator_host.acknowledged),
        }
    }

    /// Skips the next missing bytes of a side, and its unread bytes before them, if its receiver
    /// acknowledged a number behind the first of them, and others came behind them. Returns how
    /// many bytes it skipped; 0 if nothing changed. While a pending segment of the side begins
    /// `before` a number, it skips none: that segment may hold them.
    ///
    /// `AllocError` if there is no memory for the bytes behind them. Then only the bytes before
    /// them are left out.
    pub fn skip_lost(&mut self, side: Side, before: u32) -> Result<usize, AllocError>
        ensures count { IfOk result (λ n. n ≡ lost_of side before self.old) }
        ensures skipped { OnOk result (self.new ≡ skipping_lost_of side before self.old) }
        ensures kept { OnErr result (self.new ≡ keeping_lost_of side before self.old) }
        ensures weight { self.new.weight ≡ self.old.weight }
    {
        let sender = self.end_of_side(side);
        if waits_before(self.waiting.kept.as_slice(), sender, before) {
            return Ok(0);
        }
        self.skip_on(side)
    }
}
