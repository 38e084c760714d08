//! What is known of both sides when waiting segments are judged.
ghost use Rattle.std.specs.Prelude.{◌≡◌, ◌<◌, not};
ghost use Rattle.tcp_acceptance.specs.Known.{is_claim_of_end as claims_end, is_claimed as is_claimed_by, is_contradicted as contradicts, is_explained as is_explained_by, is_inside as lies_inside, is_number as is_known_number, is_reached as is_reached_by, missing_from as missing_of, end_of_certain, other_in, side_in};
ghost use Rattle.tcp_acceptance.specs.Doubtful.{behind_of};
ghost use Rattle.tcp_acceptance.specs.Taking.{has_missing as lacks_in, is_acknowledged as acknowledges, is_over as goes_over, is_ahead as comes_ahead, is_beyond as beyond_of, is_outside as outside_of, is_unsent as unsent_of, judged_again, rank as rank_of, takes_fin as fin_is_taken};

use crate::numbers::{is_behind, later, number_after};
use crate::segment::{DoubtfulSegment, Reasons, Side};

/// A doubtful segment acknowledges bytes that aren't known to be sent.
#[derive(Clone, Copy, Debug, PartialEq, Eq)]
pub struct Claim {
    /// Its sender.
    pub sender: Side,
    /// The number that it acknowledges.
    pub acknowledgment: u32,
    /// Its own number.
    pub sequence: u32,
    /// How many segments of its connection came before it.
    pub arrival: u64,
}

/// A certain acknowledgement. It denies earlier claims that acknowledge more.
#[derive(Clone, Copy, Debug, PartialEq, Eq)]
pub struct Denial {
    /// The number that it acknowledges.
    pub acknowledgment: u32,
    /// How many segments of its connection came before it.
    pub arrival: u64,
}

/// What is known of a side.
#[derive(Clone, Copy, Debug, PartialEq, Eq)]
pub struct SideKnown {
    /// The number behind all that it sent for certain.
    pub next: Option<u32>,
    /// The number behind its certain bytes without a gap, and its FIN.
    pub reached: Option<u32>,
    /// Whether a certain segment with data had a right checksum.
    pub has_right_data: bool,
    /// When its last segment with ACK came.
    pub last: Option<u64>,
    /// Its last certain acknowledgement.
    pub denial: Option<Denial>,
}

/// What is known of both sides.
#[derive(Clone, Copy, Debug)]
pub struct Known<'a> {
    /// Of the side that asked for the connection.
    pub originator: SideKnown,
    /// Of the other side.
    pub responder: SideKnown,
    /// What doubtful segments claim.
    pub claims: &'a [Claim],
}

/// What is known of a receiver that is heard for the first time.
#[derive(Clone, Copy, Debug, PartialEq, Eq)]
pub struct Heard {
    /// The receiver.
    pub receiver: Side,
    /// Its own first number.
    pub first: Option<u32>,
    /// The number behind all that it sent.
    pub sent: u32,
    /// The first number that it awaits of the other side.
    pub begin: Option<u32>,
    /// The right edge of its window.
    pub edge: Option<u32>,
}

/// Certain bytes of a side.
#[derive(Clone, Copy, Debug)]
pub struct Certain<'a> {
    /// Their sender.
    pub sender: Side,
    /// The number of the first byte.
    pub first: u32,
    /// The bytes.
    pub payload: &'a [u8],
    /// Whether a FIN is behind them.
    pub has_fin: bool,
    /// The number behind all certain bytes of the sender without a gap, these included.
    pub reached: Option<u32>,
}

/// Returns whether a known number comes after another.
fn is_ahead(known: Option<u32>, number: u32) -> bool
    ensures { result ≡ comes_ahead known number }
{
    match known {
        Some(other) => is_behind(other, number),
        None => false,
    }
}

/// Returns whether a known number is this one.
fn is_number(known: Option<u32>, number: u32) -> bool
    ensures { result ≡ is_known_number known number }
{
    known == Some(number)
}

/// Returns whether an acknowledgement goes beyond the certain bytes without a gap.
fn is_over(reached: Option<u32>, ack: u32) -> bool
    ensures { result ≡ goes_over reached ack }
{
    match reached {
        Some(reached) => is_behind(ack, reached),
        None => true,
    }
}

impl Claim {
    /// Returns whether it comes from the other side, later, and acknowledges a segment's end.
    fn is_of_end(&self, segment: &DoubtfulSegment) -> bool
        ensures { result ≡ claims_end segment.now self.now }
    {
        !self.sender.is(segment.sender())
            && segment.arrival() < self.arrival
            && self.acknowledgment == segment.end()
    }
}

/// Returns whether one of these claims acknowledges exactly a segment's end.
fn is_claimed(claims: &[Claim], segment: &DoubtfulSegment) -> bool
    ensures { result ≡ is_claimed_by claims.now segment.now }
{
    for claim in claims {
        if claim.is_of_end(segment) {
            return true;
        }
    }
    false
}

impl Known<'_> {
    /// Returns what is known of a side.
    fn side(&self, side: Side) -> SideKnown
        ensures { result ≡ side_in self.now side }
    {
        match side {
            Side::Originator => self.originator,
            Side::Responder => self.responder,
        }
    }

    /// Returns what is known of the other side.
    pub(crate) fn other(&self, side: Side) -> SideKnown
        ensures { result ≡ other_in self.now side }
    {
        match side {
            Side::Originator => self.responder,
            Side::Responder => self.originator,
        }
    }

    /// Returns whether a number is the one behind all that a side sent for certain.
    pub(crate) fn has_next(&self, side: Side, number: u32) -> bool
        ensures { result ≡ is_known_number (side_in self.now side).next number }
    {
        is_number(self.side(side).next, number)
    }

    /// Returns whether a segment begins behind all that its sender sent for certain.
    pub(crate) fn is_next(&self, segment: &DoubtfulSegment) -> bool
        ensures { result ≡ is_known_number (side_in self.now segment.now.sender).next
            segment.now.first }
    {
        self.has_next(segment.sender(), segment.first())
    }

    /// Returns the number of a segment's first byte or FIN that didn't come in a certain one.
    pub(crate) fn missing_from(&self, segment: &DoubtfulSegment) -> u32
        ensures { result ≡ missing_of self.now segment.now }
    {
        later(self.side(segment.sender()).reached, segment.first())
    }

    /// Returns whether an acknowledgement is in front of a missing number of a segment, which the
    /// segment has.
    fn has_missing(&self, ack: u32, segment: &DoubtfulSegment) -> bool
        ensures { result ≡ lacks_in ack self.now segment.now }
    {
        let missing = self.missing_from(segment);
        is_behind(ack, missing) && is_behind(segment.end(), missing)
    }

    /// Returns whether the other side acknowledges missing numbers of a segment by this number.
    pub(crate) fn is_acknowledged(&self, sender: Side, ack: u32, segment: &DoubtfulSegment) -> bool
        ensures { result ≡ acknowledges sender ack self.now segment.now }
    {
        segment.sender().is(sender)
            && is_over(self.side(sender).reached, ack)
            && self.has_missing(ack, segment)
    }

    /// Returns whether a segment's FIN is taken with an acknowledgement.
    pub(crate) fn takes_fin(&self, ack: u32, segment: &DoubtfulSegment) -> bool
        ensures { result ≡ fin_is_taken ack self.now segment.now }
    {
        segment.has_fin() && ack == segment.end() && self.is_last(segment)
    }

    /// Returns whether nothing of a segment's sender came behind its bytes.
    pub(crate) fn is_last(&self, segment: &DoubtfulSegment) -> bool
        ensures { not result
            ≡ comes_ahead (side_in self.now segment.now.sender).next (behind_of segment.now) }
    {
        !is_ahead(self.side(segment.sender()).next, segment.behind())
    }

    /// Returns whether lost packets explain all of a segment's reasons.
    pub(crate) fn explains(&self, segment: &DoubtfulSegment) -> bool
        ensures { result ≡ is_explained_by self.now segment.now }
    {
        let reasons = segment.reasons();
        !reasons.signature
            && !reasons.clock
            && (!reasons.checksum || !self.side(segment.sender()).has_right_data)
    }

    /// Returns a segment's rank among several that were taken: the least is first.
    pub(crate) fn rank(&self, segment: &DoubtfulSegment) -> u32
        ensures is { result ≡ rank_of self.now segment.now }
        ensures within { result < 32 }
    {
        let unexplained = if self.explains(segment) { 0 } else { 16 };
        let unclaimed = if self.is_claimed(segment) { 0 } else { 8 };
        unexplained + (unclaimed + segment.reasons().count())
    }

    /// Returns whether a later claim acknowledges exactly a segment's end.
    pub(crate) fn is_claimed(&self, segment: &DoubtfulSegment) -> bool
        ensures { result ≡ is_claimed_by self.now.claims.now segment.now }
    {
        is_claimed(self.claims, segment)
    }
}

impl Heard {
    /// Returns whether a segment acknowledges what the receiver didn't send.
    fn is_unsent(&self, segment: &DoubtfulSegment) -> bool
        ensures { result ≡ unsent_of self.now segment.now }
    {
        let ack = segment.fields().acknowledgment;
        is_behind(ack, self.sent) || is_ahead(self.first, ack)
    }

    /// Returns whether a segment begins or ends beyond the receiver's window.
    fn is_beyond(&self, segment: &DoubtfulSegment) -> bool
        ensures { result ≡ beyond_of self.now.edge segment.now }
    {
        let Some(edge) = self.edge else {
            return false;
        };
        if segment.bytes().is_empty() {
            is_behind(segment.first(), edge)
        } else {
            !is_behind(edge, segment.first()) || is_behind(segment.behind(), edge)
        }
    }

    /// Returns whether a segment is outside of the receiver's window.
    fn is_outside(&self, segment: &DoubtfulSegment) -> bool
        ensures { result ≡ outside_of self.now segment.now }
    {
        is_ahead(self.begin, segment.first()) || self.is_beyond(segment)
    }

    /// Judges a segment to the receiver again, if it came before anything of the receiver.
    pub(crate) fn judge_again(&self, segment: &mut DoubtfulSegment)
        ensures { segment.new ≡ judged_again self.now segment.old }
    {
        if segment.sender().is(self.receiver) || !segment.reasons().opening {
            return;
        }
        let reasons = Reasons {
            acknowledgment: self.is_unsent(segment),
            window: self.is_outside(segment),
            opening: false,
            ..segment.reasons()
        };
        segment.set_reasons(reasons);
    }
}

impl Certain<'_> {
    /// Returns the number behind them and their FIN.
    fn end(&self) -> u32
        ensures { result ≡ end_of_certain self.now }
    {
        let behind = number_after(self.first, self.payload.len());
        if self.has_fin {
            behind.wrapping_add(1)
        } else {
            behind
        }
    }

    /// Returns whether they have a byte at each number of a segment.
    fn has_all_of(&self, segment: &DoubtfulSegment) -> bool
        ensures { result ≡ lies_inside self.now segment.now }
    {
        !is_behind(self.first, segment.first()) && !is_behind(segment.end(), self.end())
    }

    /// Returns whether the certain bytes without a gap go up to a segment's end.
    fn reach(&self, segment: &DoubtfulSegment) -> bool
        ensures { result ≡ is_reached_by self.now.reached segment.now }
    {
        match self.reached {
            Some(reached) => !is_behind(segment.end(), reached),
            None => false,
        }
    }

    /// Returns whether they refute a segment of their sender, or nothing of it is missing.
    pub(crate) fn contradict(&self, segment: &DoubtfulSegment) -> bool
        ensures { result ≡ contradicts self.now segment.now }
    {
        segment.sender().is(self.sender)
            && (segment.differs_from(self.first, self.payload)
                || self.has_all_of(segment)
                || self.reach(segment))
    }
}
