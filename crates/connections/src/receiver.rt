//! What the receiver of a segment does with it (RFC 9293, section 3.10.7.4; RFC 5961; RFC 7323).
ghost use Rattle.std.specs.Prelude.{◌≡◌};
ghost use Rattle.connections.specs.Receiver.{answers_to as answers_to_sent, awaited as awaited_by, edge_of as edge_for, has_old_clock as has_old_clock_at, is_ahead_by as is_ahead_of_by, is_behind_fin as is_behind_fin_at, is_beyond as is_beyond_edge, is_damaged as is_damaged_at, is_far_before as is_far_before_known, is_known as is_known_to, is_of_unsent as is_of_unsent_by, is_past_edge as is_past_edge_of, is_reset_taken, judge_reset as judged_reset, is_signed_apart as is_signed_apart_by, is_stale as is_stale_at, doubting as doubted_by, judge as judged, judge_damaged as judged_damaged, judge_data as judged_data, judge_numbers as judged_numbers, judge_first_syn as judged_first_syn, judge_open as judged_open, judge_syn as judged_syn, judge_syn_again as judged_syn_again};
ghost use Rattle.std.specs.Prelude.{length};

use crate::host::{Host, later};
use crate::numbers::{advance, is_behind};
use crate::segment::{Checksum, Segment};
use crate::stream::{Front, HELD_LIMIT};

/// The default maximum segment size, in bytes (RFC 9293, section 3.7.1).
const DEFAULT_SIZE: u16 = 536;

/// The largest unscaled window.
const MAX_WINDOW: u32 = 0xffff;

/// Why a receiver drops a packet.
#[derive(Clone, Copy, Debug, PartialEq, Eq)]
pub enum DropReason {
    /// A checksum is wrong.
    Checksum,
    /// The segment has no ACK (RFC 9293, section 3.10.7.4, fifth).
    NoAck,
    /// The acknowledgement is old (RFC 5961, section 5.2), or of bytes that the receiver never
    /// sent.
    Acknowledgment,
    /// The segment is outside the receiver's window (RFC 9293, section 3.10.7.4, first).
    Window,
    /// The timestamp is older than an accepted one (RFC 7323, section 5).
    Clock,
    /// It is signed, and its sender's SYN wasn't (RFC 2385, section 2).
    Signature,
    /// A SYN in the middle of a connection (RFC 5961, section 4.2), or one with FIN.
    Syn,
    /// An RST with a number other than the next (RFC 5961, section 3.2).
    Reset,
    /// It has data after its sender's FIN.
    Fin,
}

/// What a receiver does with a segment.
#[derive(Clone, Copy, Debug, PartialEq, Eq)]
pub enum Judgement {
    /// The receiver accepts the segment.
    Taken,
    /// The segment is a retransmission or has no bytes, and the receiver takes nothing of it.
    Again,
    /// The receiver accepts the segment if it knows more than was captured, or if the network card
    /// changed the checksum, and else drops it for this reason. Its next acknowledgement shows
    /// which.
    Waiting(DropReason),
    /// The receiver drops the segment.
    Dropped(DropReason),
}

/// Returns whether a known number is more than `least` ahead of another.
fn is_ahead_by(least: u32, known: Option<u32>, number: u32) -> bool
    ensures { result ≡ is_ahead_of_by least known number }
{
    match known {
        Some(other) => advance(other, number) > least,
        None => false,
    }
}

/// Returns whether a packet's checksum counts as wrong:
///
/// - [`Checksum::Refused`] always does.
/// - Any other incorrect one does, unless its sender's were so from its first packet on.
/// - A partial one doesn't if the packet has more data than the receiver's maximum segment size:
///   several segments were coalesced.
pub(crate) fn is_damaged(sender: &Host, receiver: &Host, checksum: Checksum, len: usize) -> bool
    ensures { result ≡ is_damaged_at sender.now receiver.now checksum len }
{
    match (checksum, sender.checksums) {
        (Checksum::Refused, _) => true,
        (Checksum::Right, _) | (_, None | Some(Checksum::Wrong)) => false,
        (Checksum::Partial, Some(Checksum::Partial)) => false,
        (Checksum::Partial, Some(Checksum::Right)) => {
            len <= receiver.offers.size.unwrap_or(DEFAULT_SIZE) as usize
        }
        (_, Some(_)) => true,
    }
}

/// Returns whether the segment is signed and its sender's SYN wasn't.
fn is_signed_apart(sender: &Host, segment: &Segment<'_>) -> bool
    ensures { result ≡ is_signed_apart_by sender.now segment.now }
{
    segment.options.is_signed && sender.first.is_some() && !sender.offers.is_signed
}

/// Returns whether both ends use timestamps, and the segment's is older than the last that was
/// taken, if that isn't 0.
fn has_old_clock(sender: &Host, receiver: &Host, segment: &Segment<'_>) -> bool
    ensures { result ≡ has_old_clock_at sender.now receiver.now segment.now }
{
    if sender.offers.clock.is_none() || receiver.offers.clock.is_none() {
        return false;
    }
    match (sender.clock, segment.options.clock) {
        (Some(recent), Some(clock)) => recent != 0 && advance(recent, clock) > 1,
        _ => false,
    }
}

/// Returns the number that the receiver expects next, by its acknowledgements. After the SYNs alone
/// it is the sender's first.
fn awaited(sender: &Host, receiver: &Host) -> Option<u32>
    ensures { result ≡ awaited_by sender.now receiver.now }
{
    match (receiver.acknowledged, receiver.first) {
        (None, Some(_)) => sender.first,
        (number, _) => number,
    }
}

/// Returns the right edge of the receiver's window. After the SYNs alone the window in its SYN
/// counts, from the sender's first number on.
pub(crate) fn edge(sender: &Host, receiver: &Host) -> Option<u32>
    ensures { result ≡ edge_for sender.now receiver.now }
{
    match (receiver.edge, receiver.first, sender.first) {
        (None, Some(_), Some(first)) => Some(first.wrapping_add(receiver.widest)),
        (number, _, _) => number,
    }
}

/// Returns whether the segment begins at or beyond the right edge of the receiver's window.
pub(crate) fn is_beyond(edge: Option<u32>, segment: &Segment<'_>) -> bool
    ensures { result ≡ is_beyond_edge edge segment.now }
{
    match edge {
        Some(edge) if segment.has_data() => !is_behind(edge, segment.first()),
        Some(edge) => is_behind(segment.first(), edge),
        None => false,
    }
}

/// Returns whether the segment ends beyond the receiver's window. If the window's scale isn't
/// known, the limit is [`HELD_LIMIT`] behind the in-order data.
fn is_past_edge(sender: &Host, receiver: &Host, front: Front, segment: &Segment<'_>) -> bool
    ensures { result ≡ is_past_edge_of sender.now receiver.now front segment.now }
{
    if let (Some(_), Some(_), Some(edge)) = (sender.first, receiver.first, edge(sender, receiver)) {
        return is_behind(segment.behind(), edge);
    }
    match front.reached {
        Some(reached) if front.is_read => advance(segment.end(), reached) > HELD_LIMIT,
        _ => false,
    }
}

/// Returns whether the segment ends before the receiver's last acknowledgement by more than a
/// window.
fn is_far_before(sender: &Host, receiver: &Host, segment: &Segment<'_>) -> bool
    ensures { result ≡ is_far_before_known sender.now receiver.now segment.now }
{
    let number = awaited(sender, receiver);
    is_ahead_by(receiver.widest.max(MAX_WINDOW), number, segment.end())
}

/// Returns whether the segment ends before the receiver's last acknowledgement.
pub(crate) fn is_known(sender: &Host, receiver: &Host, segment: &Segment<'_>) -> bool
    ensures { result ≡ is_known_to sender.now receiver.now segment.now }
{
    is_ahead_by(0, awaited(sender, receiver), segment.end())
}

/// Returns whether the segment has data after its sender's FIN, or a FIN at a later number.
pub(crate) fn is_behind_fin(sender: &Host, segment: &Segment<'_>) -> bool
    ensures { result ≡ is_behind_fin_at sender.now.fin segment.now }
{
    match sender.fin {
        Some(fin) if segment.has_data() => !is_behind(fin, segment.first()),
        Some(fin) => segment.ends() && is_behind(segment.behind(), fin),
        None => false,
    }
}

/// Returns whether the segment acknowledges less than its sender did before, by more than the
/// largest window that the sender offered (RFC 5961, section 5.2).
fn is_stale(sender: &Host, receiver: &Host, segment: &Segment<'_>) -> bool
    ensures { result ≡ is_stale_at sender.now receiver.now segment.now }
{
    let number = segment.acknowledgment;
    is_ahead_by(0, receiver.first, number)
        || is_ahead_by(sender.widest, sender.acknowledged, number)
}

/// Returns whether the segment acknowledges what its receiver isn't known to have sent.
fn is_of_unsent(receiver: &Host, segment: &Segment<'_>) -> bool
    ensures { result ≡ is_of_unsent_by receiver.now segment.now }
{
    match receiver.next {
        Some(next) => is_behind(segment.acknowledgment, next),
        None => false,
    }
}

/// Returns what the receiver does with a segment in its window, without SYN and RST.
fn judge_data(sender: &Host, receiver: &Host, front: Front, segment: &Segment<'_>) -> Judgement
    ensures { result ≡ judged_data sender.now receiver.now front segment.now }
{
    if is_behind_fin(sender, segment) {
        return Judgement::Dropped(DropReason::Fin);
    }
    if is_known(sender, receiver, segment) {
        return Judgement::Again;
    }
    if is_stale(sender, receiver, segment) {
        return Judgement::Dropped(DropReason::Acknowledgment);
    }
    if is_of_unsent(receiver, segment) {
        return if segment.takes_numbers() {
            Judgement::Waiting(DropReason::Acknowledgment)
        } else {
            Judgement::Again
        };
    }
    if segment.has_data() && is_past_edge(sender, receiver, front, segment) {
        return Judgement::Waiting(DropReason::Window);
    }
    Judgement::Taken
}

/// Returns what the receiver does with a segment without SYN and RST, by its numbers alone.
fn judge_numbers(sender: &Host, receiver: &Host, front: Front, segment: &Segment<'_>) -> Judgement
    ensures { result ≡ judged_numbers sender.now receiver.now front segment.now }
{
    if is_far_before(sender, receiver, segment) {
        return Judgement::Dropped(DropReason::Window);
    }
    if is_beyond(edge(sender, receiver), segment) {
        return if segment.has_data() {
            Judgement::Waiting(DropReason::Window)
        } else {
            Judgement::Dropped(DropReason::Window)
        };
    }
    judge_data(sender, receiver, front, segment)
}

/// Returns what the receiver does with a segment that has a reason against it, and else would be
/// judged so. If it has new bytes or a FIN, the receiver's acknowledgements show whether it took
/// them.
fn doubting(reason: DropReason, segment: &Segment<'_>, otherwise: Judgement) -> Judgement
    ensures { result ≡ doubted_by reason segment.now otherwise }
{
    match otherwise {
        Judgement::Taken | Judgement::Waiting(_) if segment.takes_numbers() => {
            Judgement::Waiting(reason)
        }
        _ => Judgement::Dropped(reason),
    }
}

/// Returns what the receiver does with a segment without SYN and RST.
fn judge_open(sender: &Host, receiver: &Host, front: Front, segment: &Segment<'_>) -> Judgement
    ensures { result ≡ judged_open sender.now receiver.now front segment.now }
{
    if !segment.acknowledges() {
        return Judgement::Dropped(DropReason::NoAck);
    }
    let otherwise = judge_numbers(sender, receiver, front, segment);
    if is_signed_apart(sender, segment) {
        return doubting(DropReason::Signature, segment, otherwise);
    }
    if has_old_clock(sender, receiver, segment) {
        return doubting(DropReason::Clock, segment, otherwise);
    }
    otherwise
}

/// Returns what the receiver does with a segment whose checksum counts as wrong. It may have taken
/// the data of one that is right otherwise: the network card wrote the checksum behind the capture,
/// or merged segments before it.
fn judge_damaged(sender: &Host, receiver: &Host, front: Front, segment: &Segment<'_>) -> Judgement
    ensures { result ≡ judged_damaged sender.now receiver.now front segment.now }
{
    if segment.checksum == Checksum::Refused || segment.breaks() || segment.begins() {
        return Judgement::Dropped(DropReason::Checksum);
    }
    let otherwise = judge_open(sender, receiver, front, segment);
    doubting(DropReason::Checksum, segment, otherwise)
}

/// Returns whether the receiver takes an RST: it has the next sequence number, in which a SYN flag
/// doesn't count. If both sides agreed on selective acknowledgements, the number behind all that
/// came is taken too.
fn takes_reset(sender: &Host, receiver: &Host, front: Front, segment: &Segment<'_>) -> bool
    ensures { result ≡ is_reset_taken sender.now receiver.now front segment.now }
{
    let Some(next) = sender.next else {
        return match receiver.next {
            Some(number) => segment.acknowledges() && segment.acknowledgment == number,
            None => true,
        };
    };
    let reached = front.reached.unwrap_or(next);
    let selects = sender.offers.selects && receiver.offers.selects;
    let number = segment.sequence;
    number == later(receiver.acknowledged, reached) || (selects && number == next)
}

/// Returns what the receiver does with an RST.
fn judge_reset(sender: &Host, receiver: &Host, front: Front, segment: &Segment<'_>) -> Judgement
    ensures { result ≡ judged_reset sender.now receiver.now front segment.now }
{
    if is_signed_apart(sender, segment) {
        return Judgement::Dropped(DropReason::Signature);
    }
    if takes_reset(sender, receiver, front, segment) {
        Judgement::Taken
    } else {
        Judgement::Dropped(DropReason::Reset)
    }
}

/// Returns whether a SYN-ACK acknowledges what the receiver sent.
fn answers_to(receiver: &Host, segment: &Segment<'_>) -> bool
    ensures { result ≡ answers_to_sent receiver.now segment.now }
{
    !is_ahead_by(0, receiver.first, segment.acknowledgment) && !is_of_unsent(receiver, segment)
}

/// Returns what the receiver does with a sender's first SYN.
fn judge_first_syn(sender: &Host, receiver: &Host, segment: &Segment<'_>) -> Judgement
    ensures { result ≡ judged_first_syn sender.now receiver.now segment.now }
{
    let is_late = match receiver.first {
        Some(_) => receiver.is_open,
        None => sender.next.is_some() || (receiver.next.is_some() && !segment.answers()),
    };
    if is_late {
        return Judgement::Dropped(DropReason::Syn);
    }
    if segment.answers() && !answers_to(receiver, segment) {
        return Judgement::Dropped(DropReason::Acknowledgment);
    }
    Judgement::Taken
}

/// Returns what the receiver does with a SYN with the number of one that it took: a retransmission,
/// unless the ACK is new.
fn judge_syn_again(sender: &Host, receiver: &Host, segment: &Segment<'_>) -> Judgement
    ensures { result ≡ judged_syn_again sender.now receiver.now segment.now }
{
    if sender.is_open || receiver.is_open {
        return Judgement::Dropped(DropReason::Syn);
    }
    if segment.answers() && sender.acknowledged.is_none() {
        return Judgement::Taken;
    }
    Judgement::Again
}

/// Returns what the receiver does with a SYN. It drops one with FIN.
fn judge_syn(sender: &Host, receiver: &Host, segment: &Segment<'_>) -> Judgement
    ensures { result ≡ judged_syn sender.now receiver.now segment.now }
{
    if segment.ends() {
        return Judgement::Dropped(DropReason::Syn);
    }
    match sender.first {
        None => judge_first_syn(sender, receiver, segment),
        Some(first) if segment.first() == first => judge_syn_again(sender, receiver, segment),
        Some(_) => Judgement::Dropped(DropReason::Syn),
    }
}

/// Returns what the receiver does with a segment, by what was captured of both ends before, and by
/// how far the sender's stream came.
///
/// A wrong checksum counts only after a correct or partial one among the sender's first segments.
/// Until then the capture is assumed to be on the sender's own machine, whose network card writes
/// the checksums behind the capture. A later data segment with one waits for an acknowledgement.
pub fn judge(sender: &Host, receiver: &Host, front: Front, segment: &Segment<'_>) -> Judgement
    ensures { result ≡ judged sender.now receiver.now front segment.now }
{
    if is_damaged(sender, receiver, segment.checksum, segment.payload.len()) {
        return judge_damaged(sender, receiver, front, segment);
    }
    if segment.breaks() {
        return judge_reset(sender, receiver, front, segment);
    }
    if segment.begins() {
        return judge_syn(sender, receiver, segment);
    }
    judge_open(sender, receiver, front, segment)
}
