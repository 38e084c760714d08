//! Which pending segments count as taken once their connection is over.
ghost use Rattle.std.specs.Prelude.{◌≡◌, ◌<◌, length, IfSome};
ghost use Rattle.connections.specs.Ending.{claims as claims_sent, ends_at as ends_at_number, goes_on as goes_on_behind, is_claimed_by_any as is_claimed_by_one, is_end_of_any as is_end_of_one, is_explained as is_explained_reason, is_taken_at_end as is_taken_in_the_end, is_up_to as is_up_to_known, left_at_end, meets as meets_other, meets_any as meets_one, outcome_at_end, place_at_end as place_in_the_end, sent_in, sent_to as sent_to_it};
ghost use Rattle.connections.specs.Waiting.{kept_at, without_at};

use crate::connection::{Attachment, Connection};
use crate::five_tuple::End;
use crate::numbers::is_behind;
use crate::pending::{PendingOutcome, PendingSegment, PendingSegments, remove_at};
use crate::receiver::DropReason;

/// Returns whether a packet that the capture lacks explains this reason, or a network card that
/// writes checksums behind the capture.
fn is_explained(reason: Option<DropReason>) -> bool
    ensures { result ≡ is_explained_reason reason }
{
    matches!(
        reason,
        Some(DropReason::Acknowledgment | DropReason::Checksum | DropReason::Window)
    )
}

/// Returns whether another pending segment of the same sender ends at a number.
fn ends_at(kept: &PendingSegment, number: u32, other: &PendingSegment) -> bool
    ensures { result ≡ ends_at_number kept.now number other.now }
{
    other.header.source == kept.header.source && other.end() == number
}

/// Returns whether one of these, of the sender of `kept`, ends at a number.
fn is_end_of_any(list: &[PendingSegment], kept: &PendingSegment, number: u32) -> bool
    ensures { result ≡ is_end_of_one kept.now number list.now }
{
    for other in list {
        if ends_at(kept, number, other) {
            return true;
        }
    }
    false
}

/// Returns whether `other`, of the receiver of `kept`, acknowledges all of `kept`, exactly up to
/// where one of these ends.
fn claims(list: &[PendingSegment], kept: &PendingSegment, other: &PendingSegment) -> bool
    ensures { result ≡ claims_sent list.now kept.now other.now }
{
    let number = other.header.acknowledgment;
    other.header.source == kept.header.destination
        && !other.begins()
        && !is_behind(kept.end(), number)
        && is_end_of_any(list, kept, number)
}

/// Returns whether one of these acknowledges all of `kept`, exactly up to where one of them ends.
fn is_claimed_by_any(list: &[PendingSegment], kept: &PendingSegment) -> bool
    ensures { result ≡ is_claimed_by_one list.now kept.now list.now }
{
    for other in list {
        if claims(list, kept, other) {
            return true;
        }
    }
    false
}

/// The numbers behind all that both ends are known to have sent.
#[derive(Clone, Copy)]
struct SentNumbers {
    originator: End,
    by_originator: Option<u32>,
    by_responder: Option<u32>,
}

impl SentNumbers {
    /// Returns the number behind all that the receiver of a pending segment is known to have sent.
    fn to(self, kept: &PendingSegment) -> Option<u32>
        ensures { result ≡ sent_to_it self kept.now }
    {
        if kept.header.source == self.originator {
            self.by_responder
        } else {
            self.by_originator
        }
    }
}

/// Returns whether a number isn't beyond a known one.
fn is_up_to(known: Option<u32>, number: u32) -> bool
    ensures { result ≡ is_up_to_known known number }
{
    match known {
        Some(next) => !is_behind(number, next),
        None => false,
    }
}

/// Returns whether another pending segment, of its receiver, begins or ends where `kept`
/// acknowledges.
fn meets(kept: &PendingSegment, other: &PendingSegment) -> bool
    ensures { result ≡ meets_other kept.now other.now }
{
    let number = kept.header.acknowledgment;
    other.header.source == kept.header.destination
        && (other.first() == number || other.end() == number)
}

/// Returns whether one of these, of the receiver of `kept`, begins or ends where it acknowledges.
fn meets_any(list: &[PendingSegment], kept: &PendingSegment) -> bool
    ensures { result ≡ meets_one kept.now list.now }
{
    for other in list {
        if meets(kept, other) {
            return true;
        }
    }
    false
}

/// Returns whether what a pending segment acknowledges was sent, as far as is known or by one of
/// these.
fn goes_on(list: &[PendingSegment], kept: &PendingSegment, sent: SentNumbers) -> bool
    ensures { result ≡ goes_on_behind sent list.now kept.now }
{
    is_up_to(sent.to(kept), kept.header.acknowledgment) || meets_any(list, kept)
}

/// Returns whether a pending segment counts as taken, now that its connection is over.
fn is_taken_at_end(list: &[PendingSegment], kept: &PendingSegment, sent: SentNumbers) -> bool
    ensures { result ≡ is_taken_in_the_end sent list.now kept.now }
{
    kept.takes_numbers()
        && !kept.begins()
        && is_explained(kept.reason())
        && goes_on(list, kept, sent)
        && is_claimed_by_any(list, kept)
}

/// Returns the index of the first pending segment that counts as taken then.
fn place_at_end(list: &[PendingSegment], sent: SentNumbers) -> Option<usize>
    ensures is { result ≡ place_in_the_end sent list.now }
    ensures within { IfSome result (λ place. place < length list.now) }
{
    for place in 0..list.len() {
        if is_taken_at_end(list, &list[place], sent) {
            return Some(place);
        }
    }
    None
}

impl PendingSegments {
    /// Removes and returns the first segment that counts as taken, now that the connection is over.
    fn take_at_end(&mut self, sent: SentNumbers) -> Option<PendingSegment>
        ensures taken { result ≡ kept_at (place_in_the_end sent self.old) self.old }
        ensures left { self.new ≡ without_at (place_in_the_end sent self.old) self.old }
    {
        let place = place_at_end(self.kept.as_slice(), sent)?;
        Some(remove_at(&mut self.kept, place))
    }
}

impl<T: Attachment> Connection<T> {
    /// Returns the numbers behind all that both ends are known to have sent.
    fn sent_numbers(&self) -> SentNumbers
        ensures { result ≡ sent_in self.now }
    {
        SentNumbers {
            originator: self.originator,
            by_originator: self.originator_host.next,
            by_responder: self.responder_host.next,
        }
    }

    /// Removes a pending segment that counts as taken, now that the connection is over, and returns
    /// it. If all its bytes arrived otherwise, it counts as dropped.
    ///
    /// Call it until it returns `None`. Then all others count as dropped.
    pub fn take_at_end(&mut self) -> Option<PendingOutcome>
        ensures outcome { result ≡ outcome_at_end self.old }
        ensures left { self.new ≡ left_at_end self.old }
        ensures weight { self.new.weight ≡ self.old.weight }
    {
        let sent = self.sent_numbers();
        let mut kept = self.waiting.take_at_end(sent)?;
        let side = self.side_of(kept.source());
        kept.cut_at_known(self.hosts_from(side).0.fin);
        Some(self.outcome(kept))
    }
}
