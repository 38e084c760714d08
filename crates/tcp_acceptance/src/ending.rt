//! What counts as taken once the connection is over.
ghost use Rattle.std.specs.Prelude.{◌≡◌, ◌<◌, length, IfSome};
ghost use Rattle.tcp_acceptance.specs.Ending.{acknowledges_sent as sent_is_acknowledged, goes_on as goes_on_in, is_after as comes_after, is_begun as is_begun_in, is_confirmed as is_confirmed_in, is_confirmed_by as confirms_in, is_covered as covers_in, is_denied as is_denied_in, is_denied_by as denies, is_edge as is_edge_in, is_edge_of as is_edge_at, is_last_word as is_last_word_in, is_taken_at_end as is_taken_in, place_at_end as place_of_end};
ghost use Rattle.tcp_acceptance.specs.Room.{has_any};

use crate::known::{Claim, Denial, Known};
use crate::numbers::is_behind;
use crate::room::{is_in_row, number_if};
use crate::segment::{DoubtfulSegment, Side};

/// A claim that far ahead of a segment doesn't count.
const FAR: u32 = 0x100_0000;

/// Returns whether a later claim of the other side acknowledges missing numbers of a segment.
fn is_covered(known: &Known<'_>, segment: &DoubtfulSegment, claim: &Claim) -> bool
    ensures { result ≡ covers_in known.now segment.now claim.now }
{
    let (number, missing) = (claim.acknowledgment, known.missing_from(segment));
    !claim.sender.is(segment.sender())
        && segment.arrival() < claim.arrival
        && is_behind(number, missing)
        && number.wrapping_sub(missing) < FAR
}

/// Returns whether a certain acknowledgement, later than a claim, doesn't cover missing numbers.
fn is_denied_by(denial: Option<Denial>, missing: u32, claim: &Claim) -> bool
    ensures { result ≡ denies denial missing claim.now }
{
    match denial {
        Some(denial) => {
            claim.arrival < denial.arrival && !is_behind(denial.acknowledgment, missing)
        }
        None => false,
    }
}

/// Returns whether what the other side acknowledged later denies a claim.
fn is_denied(known: &Known<'_>, segment: &DoubtfulSegment, claim: &Claim) -> bool
    ensures { result ≡ is_denied_in known.now segment.now claim.now }
{
    let other = known.other(segment.sender());
    is_denied_by(other.denial, known.missing_from(segment), claim)
}

/// Returns whether a waiting segment of a side begins or ends at a number.
fn is_edge_of(list: &[DoubtfulSegment], side: Side, number: u32) -> bool
    ensures { result ≡ has_any (is_edge_at side number) list.now }
{
    for kept in list {
        if kept.has_edge(side, number) {
            return true;
        }
    }
    false
}

/// Returns whether a segment with one of these claims begins at a number.
fn is_begun(claims: &[Claim], side: Side, number: u32) -> bool
    ensures { result ≡ is_begun_in side number claims.now }
{
    for claim in claims {
        if claim.sender.is(side) && claim.sequence == number {
            return true;
        }
    }
    false
}

/// Returns whether a segment of a side begins or ends at a number.
fn is_edge(known: &Known<'_>, list: &[DoubtfulSegment], side: Side, number: u32) -> bool
    ensures { result ≡ is_edge_in known.now list.now side number }
{
    known.has_next(side, number)
        || is_begun(known.claims, side, number)
        || is_edge_of(list, side, number)
}

/// Returns whether a segment acknowledges no more than is known to be sent.
fn acknowledges_sent(next: Option<u32>, segment: &DoubtfulSegment) -> bool
    ensures { result ≡ sent_is_acknowledged next segment.now }
{
    match next {
        Some(next) => !is_behind(segment.fields().acknowledgment, next),
        None => true,
    }
}

/// Returns whether a segment goes on with others, and acknowledges what is known to be sent.
fn goes_on(known: &Known<'_>, list: &[DoubtfulSegment], segment: &DoubtfulSegment) -> bool
    ensures { result ≡ goes_on_in known.now list.now segment.now }
{
    acknowledges_sent(known.other(segment.sender()).next, segment)
        && is_in_row(list, segment, known)
}

/// Returns whether a claim confirms a segment.
fn is_confirmed_by(
    known: &Known<'_>,
    list: &[DoubtfulSegment],
    segment: &DoubtfulSegment,
    claim: &Claim,
) -> bool
    ensures { result ≡ confirms_in known.now list.now segment.now claim.now }
{
    is_covered(known, segment, claim)
        && !is_denied(known, segment, claim)
        && (is_edge(known, list, segment.sender(), claim.acknowledgment)
            || goes_on(known, list, segment))
}

/// Returns whether one of these claims confirms a segment.
fn is_confirmed(
    known: &Known<'_>,
    list: &[DoubtfulSegment],
    segment: &DoubtfulSegment,
    claims: &[Claim],
) -> bool
    ensures { result ≡ is_confirmed_in known.now list.now segment.now claims.now }
{
    for claim in claims {
        if is_confirmed_by(known, list, segment, claim) {
            return true;
        }
    }
    false
}

/// Returns whether a segment came after the last one of the other side.
fn is_after(last: Option<u64>, arrival: u64) -> bool
    ensures { result ≡ comes_after last arrival }
{
    match last {
        Some(last) => last < arrival,
        None => true,
    }
}

/// Returns whether nothing of the other side came after a segment, and lost packets explain it.
fn is_last_word(known: &Known<'_>, segment: &DoubtfulSegment) -> bool
    ensures { result ≡ is_last_word_in known.now segment.now }
{
    is_after(known.other(segment.sender()).last, segment.arrival()) && known.explains(segment)
}

/// Returns whether a segment counts as taken.
fn is_taken(known: &Known<'_>, list: &[DoubtfulSegment], segment: &DoubtfulSegment) -> bool
    ensures { result ≡ is_taken_in known.now list.now segment.now }
{
    is_confirmed(known, list, segment, known.claims) || is_last_word(known, segment)
}

/// Returns the index of the first segment that counts as taken, by rank.
pub(crate) fn place_at_end(list: &[DoubtfulSegment], known: &Known<'_>) -> Option<usize>
    ensures is { result ≡ place_of_end known.now list.now }
    ensures within { IfSome result (λ place. place < length list.now) }
{
    let mut best = 32_u32;
    let mut place = None;
    for index in 0..list.len() {
        let number = number_if(is_taken(known, list, &list[index]), known, &list[index]);
        if number < best {
            best = number;
            place = Some(index);
        }
    }
    place
}
