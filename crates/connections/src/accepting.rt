//! How a connection accepts a segment: it is counted, and its bytes go to its sender's stream.
ghost use Rattle.std.specs.Prelude.{◌≡◌, IfNone, IfOk, IfSome, OnErr, OnOk, is_none, true};
ghost use Rattle.connections.specs.Connection.{adds_nothing as adds_none, begun_for, counted_from, judgement_of, lets_in as lets_it_in, noting_from, part_by, side_of, start_of, verdict_of, without_bytes, Accepts, IsKept, LeavesOut, LeavesOutSyn, Puts, PutsData, PutsSyn};
ghost use Rattle.connections.specs.Stream.{noted, HasTaken};

use crate::connection::{Attachment, Connection, Side, Verdict};
use crate::host::{Host, later};
use crate::receiver::Judgement;
use crate::segment::Segment;
use crate::stream::Stream;
use std::alloc::{AllocError, Global};

/// Returns where the stream of a segment's sender begins if nothing of it came before: behind
/// the SYN, or else at the later of the receiver's acknowledgement and the segment's first
/// number. `None` if neither is known to be its beginning.
fn start(receiver: &Host, segment: &Segment<'_>) -> Option<u32>
    ensures { result ≡ start_of receiver.now segment.now }
{
    if segment.begins() {
        return Some(segment.first());
    }
    match receiver.acknowledged {
        Some(number) => Some(later(Some(number), segment.first())),
        None if segment.begins_stream() => Some(segment.first()),
        None => None,
    }
}

/// Adds a segment's bytes to its sender's stream, which begins with it if nothing came before.
/// Bytes that the receiver acknowledged aren't kept any longer.
fn put_in(
    stream: &mut Stream,
    alloc: Global,
    receiver: &Host,
    segment: &Segment<'_>,
) -> Result<(), AllocError>
    ensures taken { OnOk result
        (HasTaken segment.now (begun_for receiver.now segment.now stream.old) stream.new) }
    ensures left_out { OnErr result
        (stream.new ≡ noted segment.now (begun_for receiver.now segment.now stream.old)) }
{
    stream.begin(alloc, start(receiver, segment));
    stream.forget(receiver.acknowledged);
    stream.accept(segment)
}

impl<T: Attachment> Connection<T> {
    /// Updates the sender's state by this side's segment, unless the receiver has all of it
    /// already.
    fn note(&mut self, side: Side, segment: &Segment<'_>, judgement: Judgement)
        ensures noted { self.new ≡ noting_from side judgement segment.now self.old }
        ensures weight { self.new.weight ≡ self.old.weight }
        ensures attachment { self.new.attachment ≡ self.old.attachment }
    {
        let is_new = judgement != Judgement::Again;
        let checksum = segment.checksum;
        match side {
            Side::Originator => {
                let wrong = self.originator_host.note_checksum(checksum);
                self.originator_dropped.add_damaged(u64::from(wrong));
                if is_new {
                    self.originator_host.note(&self.responder_host, segment);
                }
            }
            Side::Responder => {
                let wrong = self.responder_host.note_checksum(checksum);
                self.responder_dropped.add_damaged(u64::from(wrong));
                if is_new {
                    self.responder_host.note(&self.originator_host, segment);
                }
            }
        }
    }

    /// Adds a segment's bytes to its sender's stream.
    pub(crate) fn put(&mut self, alloc: Global, segment: &Segment<'_>) -> Result<(), AllocError>
        ensures taken { OnOk result (Puts segment.now self.old self.new) }
        ensures left_out { OnErr result (self.new ≡ without_bytes segment.now self.old) }
        ensures weight { self.new.weight ≡ self.old.weight }
        ensures attachment { self.new.attachment ≡ self.old.attachment }
    {
        match self.side_of(segment.source) {
            Side::Originator => {
                put_in(
                    &mut self.from_originator,
                    alloc,
                    &self.responder_host,
                    segment,
                )
            }
            Side::Responder => {
                put_in(
                    &mut self.from_responder,
                    alloc,
                    &self.originator_host,
                    segment,
                )
            }
        }
    }

    /// Counts this side's segment, and notes its time.
    fn count(&mut self, side: Side, segment: &Segment<'_>)
        ensures counted { self.new ≡ counted_from side segment.now self.old }
        ensures weight { self.new.weight ≡ self.old.weight }
        ensures attachment { self.new.attachment ≡ self.old.attachment }
    {
        self.last_time = segment.time;
        match side {
            Side::Originator => self.originator_sent.add(segment.payload),
            Side::Responder => self.responder_sent.add(segment.payload),
        }
    }

    /// Adds the segment to its sender's stream, counts it, and updates its sender's state.
    ///
    /// `AllocError` if there is no memory for its bytes. They are left out then.
    pub fn accept(&mut self, alloc: Global, segment: &Segment<'_>) -> Result<(), AllocError>
        ensures taken { OnOk result (Accepts segment.now self.old self.new) }
        ensures left_out { OnErr result (LeavesOut segment.now self.old self.new) }
        ensures weight { self.new.weight ≡ self.old.weight }
        ensures attachment { self.new.attachment ≡ self.old.attachment }
    {
        let side = self.side_of(segment.source);
        let judgement = self.judge_from(side, segment);
        self.accept_judged(alloc, side, segment, judgement)
    }

    /// Accepts the segment, as [`Connection::accept`] does, if its receiver takes or already has it
    /// and nothing has to be done first. Otherwise the connection doesn't change, and `Some` is the
    /// segment's verdict.
    pub fn accept_or_judge(
        &mut self,
        alloc: Global,
        segment: &Segment<'_>,
    ) -> Result<Option<Verdict>, AllocError>
        ensures taken { IfOk result
            (λ outcome. IfNone outcome
            (IsKept (judgement_of segment.now self.old) × Accepts segment.now self.old self.new)) }
        ensures judged { IfOk result
            (λ outcome. IfSome outcome (λ verdict. verdict ≡ verdict_of segment.now self.old)) }
        ensures let_in { IfOk result
            (λ outcome. is_none outcome ≡ lets_it_in (verdict_of segment.now self.old)) }
        ensures is_let_in { OnErr result (lets_it_in (verdict_of segment.now self.old) ≡ true) }
        ensures stays { IfOk result (λ outcome. IfSome outcome (λ verdict. self.new ≡ self.old)) }
        ensures left_out { OnErr result (LeavesOut segment.now self.old self.new) }
        ensures weight { self.new.weight ≡ self.old.weight }
        ensures attachment { self.new.attachment ≡ self.old.attachment }
    {
        let side = self.side_of(segment.source);
        let verdict = self.verdict_from(side, segment);
        if !verdict.lets_in() {
            return Ok(Some(verdict));
        }
        self.accept_judged(alloc, side, segment, verdict.judgement)?;
        Ok(None)
    }

    /// Accepts this side's segment by what its receiver does with it.
    fn accept_judged(
        &mut self,
        alloc: Global,
        side: Side,
        segment: &Segment<'_>,
        judgement: Judgement,
    ) -> Result<(), AllocError>
        requires sent { side ≡ side_of self.old segment.now.source }
        requires judged { judgement ≡ judgement_of segment.now self.old }
        ensures taken { OnOk result (Accepts segment.now self.old self.new) }
        ensures left_out { OnErr result (LeavesOut segment.now self.old self.new) }
        ensures weight { self.new.weight ≡ self.old.weight }
        ensures attachment { self.new.attachment ≡ self.old.attachment }
    {
        self.count(side, segment);
        self.note(side, segment, judgement);
        if segment.begins() {
            return self.put_syn(alloc, segment, judgement);
        }
        self.put_part(alloc, segment, judgement)
    }

    /// Adds a segment's new bytes to its sender's stream.
    fn put_part(
        &mut self,
        alloc: Global,
        segment: &Segment<'_>,
        judgement: Judgement,
    ) -> Result<(), AllocError>
        ensures taken { OnOk result
            (PutsData (adds_none judgement segment.now) (part_by judgement segment.now)
            self.old self.new) }
        ensures left_out { OnErr result
            (self.new ≡ without_bytes (part_by judgement segment.now) self.old) }
        ensures weight { self.new.weight ≡ self.old.weight }
        ensures attachment { self.new.attachment ≡ self.old.attachment }
    {
        match judgement {
            Judgement::Again if !segment.has_data() => Ok(()),
            Judgement::Again => self.put(alloc, &segment.bytes_alone()),
            Judgement::Taken | Judgement::Waiting(_) | Judgement::Dropped(_) => {
                self.put(alloc, segment)
            }
        }
    }

    /// Begins the sender's stream behind its SYN. The SYN's data becomes pending.
    fn put_syn(
        &mut self,
        alloc: Global,
        segment: &Segment<'_>,
        judgement: Judgement,
    ) -> Result<(), AllocError>
        ensures taken { OnOk result (PutsSyn judgement segment.now self.old self.new) }
        ensures left_out { OnErr result (LeavesOutSyn judgement segment.now self.old self.new) }
        ensures weight { self.new.weight ≡ self.old.weight }
        ensures attachment { self.new.attachment ≡ self.old.attachment }
    {
        self.keep_data_of_syn(alloc, segment, judgement)?;
        self.put(alloc, &segment.without_data())
    }
}
