//! The waiting room of a connection.
ghost use Rattle.std.specs.Prelude.{◌≡◌, ◌≤◌, ◌<◌, ◌+◌, length, IfOk, IfSome, OnErr, OnOk, Some, [], true, if◌then◌else◌, nat_le, remove, slice_get};
ghost use Rattle.std.specs.Option.{option_map};
ghost use Rattle.tcp_acceptance.specs.Taking.{acknowledged, first_certain, left_at, opened, part_of, place_acknowledged as place_of_acknowledged, place_certain as place_of_certain, rank, unacknowledged, without_first_certain};
ghost use Rattle.tcp_acceptance.specs.Doubtful.{doubtful_of, is_before, is_copy_of};
ghost use Rattle.tcp_acceptance.specs.Known.{is_contradicted};
ghost use Rattle.tcp_acceptance.specs.Ending.{is_any, left_at_end, taken_at_end, whole_of};
ghost use Rattle.tcp_acceptance.specs.Room.{bytes_in, enters, expendability as expendability_of, fits as fits_in, has_any, is_in_row as stands_in_row, place_out as place_of_out, reduced, reduced_tally, tally_after, waiting_after, with_one_counted, without, without_one, IsWithin};
ghost use Rattle.tcp_acceptance.specs.Tally.{with_counted};

use crate::ending::place_at_end;
use crate::known::{Certain, Heard, Known};
use crate::segment::{Arrived, DoubtfulSegment, Side};
use crate::tally::Tally;
use std::alloc::{AllocError, Global};
use std::marker::Model;

/// The most segments that wait.
pub const MAX_SEGMENTS: usize = 32;

/// The most bytes that they have.
pub const MAX_BYTES: usize = 0x1_0000;

/// Returns how many bytes these have.
fn count_bytes(list: &[DoubtfulSegment]) -> usize
    requires { bytes_in list.now ≤ MAX_BYTES }
    ensures { result ≡ bytes_in list.now }
{
    let mut bytes = 0_usize;
    for kept in list {
        bytes += kept.bytes().len();
    }
    bytes
}

/// Returns whether these have no more bytes than the room has space for.
#[tactic(auto, using(crate::proofs::RoomLemmas::too_many, crate::proofs::RoomLemmas::all_fit))]
fn bytes_fit(list: &[DoubtfulSegment]) -> bool
    ensures { result ≡ nat_le (bytes_in list.now) MAX_BYTES }
{
    let mut left = MAX_BYTES;
    for kept in list {
        let count = kept.bytes().len();
        if count > left {
            return false;
        }
        left -= count;
    }
    true
}

/// Returns whether these are no more than the room has space for.
fn fits(list: &[DoubtfulSegment]) -> bool
    ensures { result ≡ fits_in list.now }
{
    list.len() <= MAX_SEGMENTS && bytes_fit(list)
}

/// Returns whether one of these is a copy of a segment that comes.
fn has_copy(list: &[DoubtfulSegment], arrived: &Arrived<'_>) -> bool
    ensures { result ≡ has_any (is_copy_of (doubtful_of arrived.now)) list.now }
{
    for kept in list {
        if kept.has_copy(arrived) {
            return true;
        }
    }
    false
}

/// Returns whether one of these ends where a segment of the same sender begins.
fn has_before(list: &[DoubtfulSegment], segment: &DoubtfulSegment) -> bool
    ensures { result ≡ has_any (is_before segment.now) list.now }
{
    for kept in list {
        if segment.is_before(kept) {
            return true;
        }
    }
    false
}

/// Returns whether a segment goes on with what was sent, or with another that waits.
pub(crate) fn is_in_row(
    list: &[DoubtfulSegment],
    segment: &DoubtfulSegment,
    known: &Known<'_>,
) -> bool
    ensures { result ≡ stands_in_row known.now list.now segment.now }
{
    known.is_next(segment) || has_before(list, segment)
}

/// Returns how little is lost with a segment that goes out: more if nothing claims it, if it isn't
/// in a row, and for each reason.
fn expendability(list: &[DoubtfulSegment], segment: &DoubtfulSegment, known: &Known<'_>) -> u32
    ensures { result ≡ expendability_of known.now list.now segment.now }
{
    let unclaimed = if known.is_claimed(segment) { 0 } else { 16 };
    let apart = if is_in_row(list, segment, known) {
        0
    } else {
        8
    };
    unclaimed + (apart + segment.reasons().count())
}

/// Returns a segment's rank, and more than any if it wasn't taken.
pub(crate) fn number_if(is_taken: bool, known: &Known<'_>, segment: &DoubtfulSegment) -> u32
    ensures { result ≡ (if is_taken then rank known.now segment.now else 32) }
{
    if is_taken { known.rank(segment) } else { 32 }
}

/// Returns the index of the one that goes out of a full room.
fn place_out(list: &[DoubtfulSegment], known: &Known<'_>) -> usize
    requires { 0 < length list.now }
    ensures is { result ≡ place_of_out known.now list.now }
    ensures within { result < length list.now }
{
    let mut best = 0_u32;
    let mut place = 0_usize;
    for index in 0..list.len() {
        let number = expendability(list, &list[index], known);
        if best <= number {
            best = number;
            place = index;
        }
    }
    place
}

/// Removes and returns the segment at an index.
fn remove_at(list: &mut Vec<DoubtfulSegment>, place: usize) -> DoubtfulSegment
    requires { place < length list.old.items }
    ensures taken { slice_get list.old.items place ≡ Some result }
    ensures left { list.new.items ≡ remove list.old.items place }
    ensures len { length list.new.items + 1 ≡ length list.old.items }
{
    list.remove(place)
}

/// Removes the one that goes out of a full room, and counts it as dropped.
fn remove_one(list: &mut Vec<DoubtfulSegment>, known: &Known<'_>, dropped: &mut Tally)
    requires { 0 < length list.old.items }
    ensures left { list.new.items ≡ without_one known.now list.old.items }
    ensures counted { dropped.new ≡ with_one_counted known.now list.old.items dropped.old }
    ensures len { length list.new.items + 1 ≡ length list.old.items }
{
    let place = place_out(list.as_slice(), known);
    let out = remove_at(list, place);
    dropped.add(&out);
}

/// Removes one after the other until the others fit.
#[tactic(auto, using(crate::proofs::RoomLemmas::goes_on, crate::proofs::RoomLemmas::goes_on_counted, crate::proofs::RoomLemmas::ends_with, crate::proofs::RoomLemmas::ends_counted, crate::proofs::RoomLemmas::none_fits, crate::proofs::RoomLemmas::fits_within))]
fn reduce(list: &mut Vec<DoubtfulSegment>, known: &Known<'_>, dropped: &mut Tally)
    ensures left { list.new.items ≡ reduced (length list.old.items) known.now list.old.items }
    ensures counted { dropped.new
        ≡ reduced_tally (length list.old.items) known.now list.old.items dropped.old }
    ensures within { IsWithin list.new.items }
{
    for turn in 0..list.len() {
        if fits(list.as_slice()) {
            return;
        }
        remove_one(list, known, dropped);
    }
}

/// Counts those that certain bytes contradict.
fn count_contradicted(list: &[DoubtfulSegment], certain: &Certain<'_>, dropped: &mut Tally)
    ensures { dropped.new ≡ with_counted (is_contradicted certain.now) list.now dropped.old }
{
    for kept in list {
        if certain.contradict(kept) {
            dropped.add(kept);
        }
    }
}

/// Removes those that certain bytes contradict.
fn remove_contradicted(list: &mut Vec<DoubtfulSegment>, certain: &Certain<'_>)
    ensures { list.new.items ≡ without (is_contradicted certain.now) list.old.items }
{
    list.retain(|kept| !certain.contradict(kept));
}

/// Returns the index of the segment that an acknowledgement takes first.
fn place_acknowledged(
    list: &[DoubtfulSegment],
    sender: Side,
    ack: u32,
    known: &Known<'_>,
) -> Option<usize>
    ensures is { result ≡ place_of_acknowledged sender ack known.now list.now }
    ensures within { IfSome result (λ place. place < length list.now) }
{
    let mut best = 32_u32;
    let mut place = None;
    for index in 0..list.len() {
        let number = number_if(
            known.is_acknowledged(sender, ack, &list[index]),
            known,
            &list[index],
        );
        if number < best {
            best = number;
            place = Some(index);
        }
    }
    place
}

/// Judges the segments to a receiver again that came before anything of it.
fn judge_each(list: &mut Vec<DoubtfulSegment>, heard: &Heard)
    ensures { list.new.items ≡ opened heard.now list.old.items }
{
    for segment in list.iter_mut() {
        heard.judge_again(segment);
    }
}

/// Returns the index of the first segment that has no reason left.
fn place_certain(list: &[DoubtfulSegment]) -> Option<usize>
    ensures is { result ≡ place_of_certain list.now }
    ensures within { IfSome result (λ place. place < length list.now) }
{
    for place in 0..list.len() {
        if list[place].is_certain() {
            return Some(place);
        }
    }
    None
}

/// Removes the part of a segment that is acknowledged.
fn take_part(
    list: &mut Vec<DoubtfulSegment>,
    alloc: Global,
    place: usize,
    ack: u32,
    known: &Known<'_>,
) -> Result<DoubtfulSegment, AllocError>
    requires { place < length list.old.items }
    ensures taken { IfOk result (λ part. Some part
        ≡ option_map (part_of ack known.now) (slice_get list.old.items place)) }
    ensures left { OnOk result
        (list.new.items ≡ left_at ack (Some place) list.old.items) }
    ensures err { OnErr result (list.new.items ≡ list.old.items) }
{
    if list[place].is_cut(ack) {
        return list[place].split(alloc, ack);
    }
    let mut segment = remove_at(list, place);
    let takes_fin = known.takes_fin(ack, &segment);
    segment.set_fin(takes_fin);
    Ok(segment)
}

/// Removes a segment that counts as taken at the connection's end.
fn take_whole(list: &mut Vec<DoubtfulSegment>, place: usize, known: &Known<'_>) -> DoubtfulSegment
    requires { place < length list.old.items }
    ensures taken { Some result
        ≡ option_map (whole_of known.now) (slice_get list.old.items place) }
    ensures left { list.new.items ≡ remove list.old.items place }
{
    let mut segment = remove_at(list, place);
    let has_fin = segment.has_fin() && known.is_last(&segment);
    segment.set_fin(has_fin);
    segment
}

/// Counts all of these.
fn count_all(list: &[DoubtfulSegment], dropped: &mut Tally)
    ensures { dropped.new ≡ with_counted is_any list.now dropped.old }
{
    for kept in list {
        dropped.add(kept);
    }
}

/// The doubtful segments of a connection, in the order of arrival: at most [`MAX_SEGMENTS`], with
/// [`MAX_BYTES`] bytes.
#[derive(Debug, Drop)]
pub struct WaitingRoom {
    kept: Vec<DoubtfulSegment>,
}

impl Model for WaitingRoom {
    ghost use Rattle.std.specs.Prelude.{◌≤◌, List};
    ghost use Rattle.tcp_acceptance.specs.Doubtful.{Doubtful};
    ghost use Rattle.tcp_acceptance.specs.Room.{IsWithin};

    ghost Value = { List Doubtful };

    ghost view = { λ r. r.kept.items };

    ghost invariant = { λ r. IsWithin r.kept.items };
}

impl WaitingRoom {
    /// Returns an empty room.
    pub fn new(alloc: Global) -> WaitingRoom
        ensures { result ≡ [] }
    {
        WaitingRoom {
            kept: Vec::new(alloc),
        }
    }

    /// Returns the segments that wait.
    pub fn segments(&self) -> &[DoubtfulSegment]
        ensures { result.now ≡ self.now }
    {
        self.kept.as_slice()
    }

    /// Returns how many bytes wait, exactly.
    pub fn held(&self) -> usize
        ensures is { result ≡ bytes_in self.now }
        ensures within { result ≤ MAX_BYTES }
    {
        count_bytes(self.kept.as_slice())
    }

    /// Lets a doubtful segment wait, and returns whether it entered. An equal copy doesn't wait
    /// twice. If more wait than there is space for, those go out that are the least likely to be
    /// taken, and count as dropped.
    pub fn wait(
        &mut self,
        alloc: Global,
        arrived: &Arrived<'_>,
        known: &Known<'_>,
        dropped: &mut Tally,
    ) -> Result<bool, AllocError>
        ensures enters { IfOk result (λ entered. entered ≡ enters arrived.now self.old) }
        ensures waits { OnOk result (self.new ≡ waiting_after known.now arrived.now self.old) }
        ensures counted { OnOk result
            (dropped.new ≡ tally_after known.now arrived.now self.old dropped.old) }
        ensures err { OnErr result ((self.new ≡ self.old) × (dropped.new ≡ dropped.old)) }
    {
        if has_copy(self.kept.as_slice(), arrived) || arrived.payload.len() > MAX_BYTES {
            return Ok(false);
        }
        let segment = DoubtfulSegment::new(alloc, arrived)?;
        match self.kept.push(segment) {
            Ok(()) => {}
            Err(_) => return Err(AllocError),
        }
        reduce(&mut self.kept, known, dropped);
        Ok(true)
    }

    /// Drops each segment whose bytes differ from certain bytes of its sender, or are all known by
    /// now. The others wait on.
    pub fn contradicted_by(&mut self, certain: &Certain<'_>, dropped: &mut Tally)
        ensures left { self.new ≡ without (is_contradicted certain.now) self.old }
        ensures counted { dropped.new
            ≡ with_counted (is_contradicted certain.now) self.old dropped.old }
    {
        count_contradicted(self.kept.as_slice(), certain, dropped);
        remove_contradicted(&mut self.kept, certain);
    }

    /// Removes and returns what a certain acknowledgement of the other side takes first of a
    /// sender's segments: the part in front of this number, if bytes in front of it are missing.
    /// The rest waits on. A FIN is part of it only if exactly it is acknowledged. Call it until it
    /// returns `None`. Without memory nothing changes.
    pub fn take_acknowledged(
        &mut self,
        alloc: Global,
        sender: Side,
        ack: u32,
        known: &Known<'_>,
    ) -> Result<Option<DoubtfulSegment>, AllocError>
        ensures taken { IfOk result
            (λ part. part ≡ acknowledged sender ack known.now self.old) }
        ensures left { OnOk result (self.new ≡ unacknowledged sender ack known.now self.old) }
        ensures err { OnErr result (self.new ≡ self.old) }
    {
        let Some(place) = place_acknowledged(self.kept.as_slice(), sender, ack, known) else {
            return Ok(None);
        };
        Ok(Some(take_part(&mut self.kept, alloc, place, ack, known)?))
    }

    /// Judges the segments to a receiver again that came before anything of it.
    pub fn open(&mut self, heard: &Heard)
        ensures { self.new ≡ opened heard.now self.old }
    {
        judge_each(&mut self.kept, heard);
    }

    /// Removes and returns the first segment that has no reason left.
    pub fn take_certain(&mut self) -> Option<DoubtfulSegment>
        ensures taken { result ≡ first_certain self.old }
        ensures left { self.new ≡ without_first_certain self.old }
    {
        let place = place_certain(self.kept.as_slice())?;
        Some(remove_at(&mut self.kept, place))
    }

    /// Removes and returns the first segment that counts as taken, once the connection is over.
    /// Call it until it returns `None`.
    pub fn take_at_end(&mut self, known: &Known<'_>) -> Option<DoubtfulSegment>
        ensures taken { result ≡ taken_at_end known.now self.old }
        ensures left { self.new ≡ left_at_end known.now self.old }
    {
        let place = place_at_end(self.kept.as_slice(), known)?;
        Some(take_whole(&mut self.kept, place, known))
    }

    /// Drops all that wait.
    pub fn drop_all(&mut self, dropped: &mut Tally)
        ensures left { self.new ≡ [] }
        ensures counted { dropped.new ≡ with_counted is_any self.old dropped.old }
    {
        count_all(self.kept.as_slice(), dropped);
        self.kept.clear();
    }
}
