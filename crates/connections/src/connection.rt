//! A TCP connection or a UDP exchange.
ghost use Rattle.std.specs.Prelude.{◌≡◌, ◌≤◌, ◌^◌, ℕ, IfSome, true, false, [], ◌&&◌, is_some, ⊤};
ghost use Rattle.std.specs.Option.{option_map};
ghost use Rattle.connections.specs.Segment.{header_of};
ghost use Rattle.connections.specs.Waiting.{syn_in};
ghost use Rattle.connections.specs.declared.five_tuple.Protocol.{Protocol};
ghost use Rattle.connections.specs.declared.five_tuple.Protocol.TheVariants.{Tcp};
ghost use Rattle.connections.specs.Connection.{another_of, answers_this as answers_it, confirms as confirms_answer, dropped_by, dropped_from, goes_on_behind, has_opening, hosts_from as hosts_at, hosts_of, is_alone, is_apart as is_apart_from, is_closed, is_far as is_far_from, is_heeded as is_heeded_by, judgement_from, judgement_of, last_of, lets_in as lets_it_in, opening_by, opening_of, sent_by, shows_damage as is_shown_damaged, side_of, silent, stream_of, verdict_from, IsAnew, IsBare, IsBegunBy, IsKept, Shows};

use crate::dropped::Dropped;
use crate::five_tuple::{End, Protocol};
use crate::host::Host;
use crate::pending::PendingSegments;
use crate::receiver::{DropReason, Judgement, is_known, judge};
use crate::segment::{Checksum, Segment};
use crate::stream::Stream;
use crate::traffic::Traffic;
use std::alloc::Global;

/// A caller's value that goes with a connection.
pub trait Attachment: Drop {
    /// What the value of a new connection is, by protocol.
    ghost IsBegun: { Protocol → Self → Type 0 } = { λ _ _. ⊤ };

    /// Returns the value for a new connection.
    fn begin(alloc: Global, protocol: Protocol) -> Self
        ensures { IsBegun protocol result };

    /// The most bytes of memory that it may take, itself included.
    ghost most_bytes: { Self → ℕ } = { λ _. 2 ^ 64 };

    /// Returns an upper bound for its memory in bytes, itself included.
    fn capacity(&self) -> usize
        ensures { result ≤ most_bytes self.now };
}

/// The sender of a packet.
#[derive(Clone, Copy, Debug, PartialEq, Eq)]
pub enum Side {
    /// The side that asked for the connection. If that wasn't captured, the sender of its first
    /// packet.
    Originator,
    /// The other side.
    Responder,
}

/// A TCP connection or a UDP exchange, as far as it was captured.
#[derive(Drop)]
pub struct Connection<T> {
    /// The transport protocol.
    pub protocol: Protocol,
    /// The end that asked for the connection. If that wasn't captured, and over UDP, the sender of
    /// its first packet.
    pub originator: End,
    /// The other end.
    pub responder: End,
    /// When its first packet was captured, in nanoseconds since 1970-01-01 00:00 UTC.
    pub first_time: u64,
    /// When its last packet was captured, in nanoseconds since 1970-01-01 00:00 UTC.
    pub last_time: u64,
    // The TCP state of both ends.
    pub(crate) originator_host: Host,
    pub(crate) responder_host: Host,
    // Pending segments, for which the receiver's acknowledgements will show whether it took them;
    // and SYNs, with which another connection between the same ends may begin.
    pub(crate) waiting: PendingSegments,
    /// The originator's TCP stream.
    pub from_originator: Stream,
    /// The responder's TCP stream.
    pub from_responder: Stream,
    /// What the originator sent and the responder took.
    pub originator_sent: Traffic,
    /// What the responder sent and the originator took.
    pub responder_sent: Traffic,
    /// What the originator sent over TCP and the responder dropped.
    pub originator_dropped: Dropped,
    /// What the responder sent over TCP and the originator dropped.
    pub responder_dropped: Dropped,
    // The memory that the table accounts for it, in bytes.
    pub(crate) weight: usize,
    /// The caller's value.
    pub attachment: T,
}

/// The segments with which a connection began: the SYN and the SYN-ACK, or the one of them that was
/// captured.
#[derive(Clone, Copy)]
pub(crate) struct Beginning {
    /// The first segment.
    pub(crate) first: Segment<'static>,
    /// The SYN-ACK behind it.
    pub(crate) answer: Option<Segment<'static>>,
}

/// An upper bound for a connection's memory besides its attachment and its buffers, in bytes: its
/// fields, its table entry with a share of a growing map, and the allocator's overhead for both.
pub const CONNECTION_COST: usize = 1024;

/// How far sequence numbers of one connection may be apart. Beyond that they may be another
/// connection's.
const FAR: u32 = 0x1_0000;

/// Returns whether a number is far from a known one.
fn is_far(known: Option<u32>, number: u32) -> bool
    ensures { result ≡ is_far_from known number }
{
    match known {
        Some(other) => number.wrapping_sub(other) > FAR && other.wrapping_sub(number) > FAR,
        None => false,
    }
}

/// What a segment means for the connection between its ends.
#[derive(Clone, Copy, Debug, PartialEq, Eq)]
pub struct Verdict {
    /// What the segment's receiver does with it.
    pub judgement: Judgement,
    /// Whether it shows that another connection between the same ends began.
    pub begins_another: bool,
    /// Whether segments are pending that it may acknowledge.
    pub acknowledges: bool,
    /// Whether it shows that everything before it had a wrong checksum, so that nobody took it.
    pub shows_damage: bool,
}

impl Verdict {
    /// Returns whether the receiver takes the segment or already has it, and nothing has to be done
    /// first.
    pub(crate) fn lets_in(&self) -> bool
        ensures is { result ≡ lets_it_in self.now }
        ensures kept { result ≡ true → IsKept self.now.judgement }
    {
        matches!(self.judgement, Judgement::Taken | Judgement::Again)
            && !self.begins_another
            && !self.acknowledges
            && !self.shows_damage
    }
}

/// Returns whether a SYN-ACK answers this SYN.
fn answers_this(answering: &Segment<'_>, asking: &Segment<'_>) -> bool
    ensures { result ≡ answers_it (header_of answering.now) (header_of asking.now) }
{
    answering.source == asking.destination && answering.acknowledgment == asking.first()
}

/// Returns whether a segment follows its sender's SYN directly.
fn is_first_behind(segment: &Segment<'_>, asking: &Segment<'_>) -> bool
    ensures { result ≡ goes_on_behind segment.now (header_of asking.now) }
{
    segment.source == asking.source
        && segment.acknowledges()
        && !segment.begins()
        && segment.sequence == asking.first()
}

/// Returns whether a segment shows that its sender accepted the SYN-ACK `answering`.
fn confirms(segment: &Segment<'_>, answering: &Segment<'_>) -> bool
    ensures { result ≡ confirms_answer segment.now (header_of answering.now) }
{
    segment.source == answering.destination
        && segment.acknowledges()
        && !segment.begins()
        && segment.sequence == answering.acknowledgment
        && segment.acknowledgment == answering.first()
}

impl<T: Attachment> Connection<T> {
    /// Returns a new connection between these ends.
    pub(crate) fn new(
        alloc: Global,
        protocol: Protocol,
        originator: End,
        responder: End,
        time: u64,
    ) -> Connection<T>
        ensures is { result ≡ silent protocol originator responder time result.attachment }
        ensures attached { T.IsBegun protocol result.attachment }
    {
        Connection {
            protocol,
            originator,
            responder,
            first_time: time,
            last_time: time,
            originator_host: Host::new(),
            responder_host: Host::new(),
            waiting: PendingSegments::new(alloc),
            from_originator: Stream::new(),
            from_responder: Stream::new(),
            originator_sent: Traffic::new(),
            responder_sent: Traffic::new(),
            originator_dropped: Dropped::new(),
            responder_dropped: Dropped::new(),
            weight: 0,
            attachment: T::begin(alloc, protocol),
        }
    }

    /// Returns a connection that begins with this segment, whose data isn't added yet. The sender
    /// of a SYN-ACK is the responder.
    pub(crate) fn of_segment(alloc: Global, segment: &Segment<'_>) -> Connection<T>
        ensures begun { IsBegunBy segment.now result }
        ensures attached { T.IsBegun Tcp result.attachment }
    {
        let (originator, responder) = if segment.answers() {
            (segment.destination, segment.source)
        } else {
            (segment.source, segment.destination)
        };
        Connection::new(alloc, Protocol::Tcp, originator, responder, segment.time)
    }

    /// Returns whether a SYN of the connection was captured.
    pub fn has_opening(&self) -> bool
        ensures { result ≡ has_opening self.now }
    {
        self.originator_host.first.is_some() || self.responder_host.first.is_some()
    }

    /// Returns the side of a packet's sender.
    #[inline(always)]
    pub fn side_of(&self, sender: End) -> Side
        ensures { result ≡ side_of self.now sender }
    {
        if sender == self.originator {
            Side::Originator
        } else {
            Side::Responder
        }
    }

    /// Returns a side's TCP stream.
    pub fn stream(&self, side: Side) -> &Stream
        ensures { result.now ≡ stream_of side self.now }
    {
        match side {
            Side::Originator => &self.from_originator,
            Side::Responder => &self.from_responder,
        }
    }

    /// Returns what a side sent.
    pub fn sent(&self, side: Side) -> Traffic
        ensures { result ≡ sent_by side self.now }
    {
        match side {
            Side::Originator => self.originator_sent,
            Side::Responder => self.responder_sent,
        }
    }

    /// Returns the states of a side's end and of the other end.
    pub(crate) fn hosts_from(&self, side: Side) -> (&Host, &Host)
        ensures { (result.0.now, result.1.now) ≡ hosts_at side self.now }
    {
        match side {
            Side::Originator => (&self.originator_host, &self.responder_host),
            Side::Responder => (&self.responder_host, &self.originator_host),
        }
    }

    /// Returns the states of a segment's sender and of its receiver.
    pub(crate) fn hosts(&self, segment: &Segment<'_>) -> (&Host, &Host)
        ensures { (result.0.now, result.1.now) ≡ hosts_of segment.now self.now }
    {
        self.hosts_from(self.side_of(segment.source))
    }

    /// Returns what the receiver of a segment does with it.
    pub(crate) fn judge(&self, segment: &Segment<'_>) -> Judgement
        ensures { result ≡ judgement_of segment.now self.now }
    {
        self.judge_from(self.side_of(segment.source), segment)
    }

    /// Returns what the receiver of this side's segment does with it.
    pub(crate) fn judge_from(&self, side: Side, segment: &Segment<'_>) -> Judgement
        ensures { result ≡ judgement_from side segment.now self.now }
    {
        let (sender, receiver) = self.hosts_from(side);
        judge(sender, receiver, self.stream(side).front(), segment)
    }

    /// Returns whether a segment's acknowledgement counts for pending segments. It does if the
    /// receiver takes the segment, or if the segment isn't old, and without data acknowledges what
    /// the receiver isn't known to have sent.
    fn is_heeded(&self, segment: &Segment<'_>, judgement: Judgement) -> bool
        ensures { result ≡ is_heeded_by judgement segment.now self.now }
    {
        let (sender, receiver) = self.hosts(segment);
        let is_new = judgement == Judgement::Taken
            || (judgement == Judgement::Again
                && !segment.begins()
                && !is_known(sender, receiver, segment));
        segment.acknowledges() && is_new
    }

    /// Returns what this side's segment means for the connection.
    pub(crate) fn verdict_from(&self, side: Side, segment: &Segment<'_>) -> Verdict
        ensures { result ≡ verdict_from side segment.now self.now }
    {
        let has_waiting = !self.waiting.is_empty();
        let judgement = self.judge_from(side, segment);
        Verdict {
            judgement,
            begins_another: has_waiting && self.shows_another(segment),
            acknowledges: has_waiting && self.is_heeded(segment, judgement),
            shows_damage: self.shows_damage(side, segment.checksum),
        }
    }

    /// Returns whether a segment's numbers are far from this connection's, so that it may be
    /// another's.
    pub(crate) fn is_apart(&self, segment: &Segment<'_>) -> bool
        ensures { result ≡ is_apart_from segment.now self.now }
    {
        let (sender, receiver) = self.hosts(segment);
        is_far(sender.next, segment.sequence) || is_far(receiver.next, segment.acknowledgment)
    }

    /// Returns the segments with which another connection began, by its SYN-ACK.
    fn beginning(&self, answering: &Segment<'static>) -> Beginning
        ensures last { last_of result.first result.answer ≡ answering.now }
        ensures is { opening_of result ≡ opening_by (header_of answering.now)
            (syn_in false self.now.waiting) }
        ensures bare { answering.now.payload.now ≡ [] → IsBare result }
    {
        match self.waiting.syn(false) {
            Some(asking) if answers_this(answering, &asking) => Beginning {
                first: asking,
                answer: Some(*answering),
            },
            _ => Beginning {
                first: *answering,
                answer: None,
            },
        }
    }

    /// Returns the segments with which another connection between the same ends began, if this
    /// segment shows one. It does if its sender accepts a SYN-ACK, or continues behind a SYN whose
    /// receiver wasn't captured.
    pub(crate) fn another(&self, segment: &Segment<'_>) -> Option<Beginning>
        ensures shows { IfSome result (λ beginning. Shows segment.now beginning) }
        ensures is { option_map opening_of result ≡ another_of segment.now self.now }
        ensures bare { IfSome result (λ beginning. IsBare beginning) }
    {
        if !self.is_apart(segment) {
            return None;
        }
        match (self.waiting.syn(true), self.waiting.syn(false)) {
            (Some(answering), _) if confirms(segment, &answering) => {
                Some(self.beginning(&answering))
            }
            (_, Some(asking)) if self.goes_on_alone(segment, &asking) => Some(Beginning {
                first: asking,
                answer: None,
            }),
            _ => None,
        }
    }

    /// Returns whether a segment shows that another connection began. (Not inlined: the segments
    /// need much stack, and few packets get here.)
    #[inline(never)]
    fn shows_another(&self, segment: &Segment<'_>) -> bool
        ensures { result ≡ is_some (another_of segment.now self.now) }
    {
        self.another(segment).is_some()
    }

    /// Returns whether a segment continues behind its sender's SYN, and nothing of the receiver was
    /// captured.
    fn goes_on_alone(&self, segment: &Segment<'_>, asking: &Segment<'_>) -> bool
        ensures is { result ≡ (is_alone segment.now self.now
            && goes_on_behind segment.now (header_of asking.now)) }
        ensures behind { result ≡ true → goes_on_behind segment.now (header_of asking.now) ≡ true }
    {
        let (sender, receiver) = self.hosts(segment);
        receiver.next.is_none() && sender.next.is_some() && is_first_behind(segment, asking)
    }

    /// Returns whether this side's packet shows by its checksum that everything before it was
    /// damaged: all of it came from this side, and none had a correct checksum.
    #[inline(always)]
    pub(crate) fn shows_damage(&self, side: Side, checksum: Checksum) -> bool
        ensures { result ≡ is_shown_damaged side checksum self.now }
    {
        let (host, other) = match side {
            Side::Originator => (&self.originator_host, self.responder_sent),
            Side::Responder => (&self.responder_host, self.originator_sent),
        };
        host.is_damaged() && checksum != Checksum::Wrong && other.packets == 0
    }

    /// Restarts the connection, since nobody took what came before. That is counted; the accounted
    /// memory stays.
    pub(crate) fn restart(&mut self, alloc: Global, time: u64)
        ensures anew { IsAnew time self.old self.new }
        ensures attached { T.IsBegun self.old.protocol self.new.attachment }
    {
        let mut fresh = Connection::new(
            alloc,
            self.protocol,
            self.originator,
            self.responder,
            time,
        );
        let damaged = u64::from(self.originator_host.unchecked);
        fresh.originator_dropped.add_damaged(damaged.saturating_add(
            self.dropped(Side::Originator).packets,
        ));
        let damaged = u64::from(self.responder_host.unchecked);
        fresh.responder_dropped.add_damaged(damaged.saturating_add(
            self.dropped(Side::Responder).packets,
        ));
        fresh.weight = self.weight;
        *self = fresh;
    }

    /// Counts a packet that its receiver drops.
    pub(crate) fn count_dropped(&mut self, side: Side, reason: DropReason)
        ensures { self.new ≡ dropped_from side reason self.old }
    {
        match side {
            Side::Originator => self.originator_dropped.add(reason),
            Side::Responder => self.responder_dropped.add(reason),
        }
    }

    /// Returns what a side sent over TCP and the other side dropped, pending segments included.
    pub fn dropped(&self, side: Side) -> Dropped
        ensures { result ≡ dropped_by side self.now }
    {
        let (mut dropped, end) = match side {
            Side::Originator => (self.originator_dropped, self.originator),
            Side::Responder => (self.responder_dropped, self.responder),
        };
        self.waiting.count(end, &mut dropped);
        dropped
    }

    /// Returns whether it is closed: one side sent RST, or both sent all their data and FIN, and
    /// each acknowledged the other's FIN.
    pub fn is_closed(&self) -> bool
        ensures { result ≡ is_closed self.now }
    {
        if self.from_originator.is_broken() || self.from_responder.is_broken() {
            return true;
        }
        self.from_originator.is_closed()
            && self.from_responder.is_closed()
            && self.responder_host.has_fin_of(&self.originator_host)
            && self.originator_host.has_fin_of(&self.responder_host)
    }
}
