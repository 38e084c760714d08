//! A datagram in reassembly.
ghost use Rattle.std.specs.Prelude.{◌≡◌, ◌≤◌, ◌<◌, ◌+◌, ◌*◌, ◌^◌, ◌==◌, ◌&&◌, ◌||◌, if◌then◌else◌, not, max, nat_lt, length, is_some, false, Some, IfNone, IfOk, IfSome, OnErr, OnOk};
ghost use Rattle.ip_fragments.specs.Runs.{placing_of, runs_with, IsGap, IsPlace};
ghost use Rattle.ip_fragments.specs.Waiting.{begun, by_placing, bytes_of as bytes_of_fragment, completed_or_not, end_of, first_protocol, is_not_ect as is_not_ect_by, is_other_end as is_other_end_of, most_of as most_of_fragment, received, refused_alone as refused_alone_by, weight_of, with_repeat, with_runs, Receives};

use crate::outcome::{FragmentOutcome, FragmentRefusal};
use crate::runs::{Gap, Place, RUN_COST, Run, join, place_of, put};
use capture::{Address, IpFragment};
use std::alloc::{AllocError, Global};
use std::marker::Model;

/// The longest datagram in bytes, header included.
const MAX_DATAGRAM: usize = 65_535;

/// The bytes that a datagram counts besides its runs: its entry in the table, which may have as
/// much room again, and the first rows of its vector of runs.
pub const DATAGRAM_COST: usize = 640;

/// A reassembled datagram.
#[derive(Debug, PartialEq, Drop)]
pub struct ReassembledDatagram {
    /// The source address.
    pub source: Address,
    /// The destination address.
    pub destination: Address,
    /// The protocol of the fragment with offset 0; in IPv6 the number of the first header in the
    /// payload.
    pub protocol: u8,
    /// Whether the header checksums of its fragments were correct: of all or of none.
    pub is_header_right: bool,
    /// The reassembled payload.
    pub payload: Vec<u8>,
    /// How many bytes arrived again with another value; the first ones stay.
    pub disagreeing: usize,
}

/// What the headers of the fragments that arrived say of their datagram.
#[derive(Clone, Copy)]
pub struct Extent {
    // The offset behind the last byte that arrived, and whether the datagram ends there.
    reach: usize,
    is_ended: bool,
    // Those of the fragment with offset 0, if it arrived.
    protocol: Option<u8>,
    in_front: usize,
    // Whether some are Not-ECT, and whether some aren't.
    has_not_ect: bool,
    has_ect: bool,
}

/// The bytes of a datagram that arrived, and the fields of its fragments.
#[derive(Drop)]
pub struct Waiting {
    runs: Vec<Run>,
    extent: Extent,
    // How many bytes the runs have, and the memory that they count.
    filled: usize,
    weight: usize,
    disagreeing: usize,
    since: u64,
}

impl Model for Waiting {
    ghost use Rattle.std.specs.Prelude.{◌≡◌};
    ghost use Rattle.ip_fragments.specs.Runs.{filled as filled_in, weight_in};
    ghost use Rattle.ip_fragments.specs.Waiting.{Waiting};

    ghost Value = { Waiting };

    ghost view = { λ w. record {
      runs = w.runs.items;
      reach = w.extent.reach;
      is_ended = w.extent.is_ended;
      protocol = w.extent.protocol;
      in_front = w.extent.in_front;
      has_not_ect = w.extent.has_not_ect;
      has_ect = w.extent.has_ect;
      disagreeing = w.disagreeing;
      since = w.since;
    } };

    ghost invariant = { λ w. (w.filled ≡ filled_in w.runs.items)
        × (w.weight ≡ weight_in w.runs.items) };
}

/// Returns a fragment's bytes: in IPv4 their number is rounded down to a multiple of 8, except in
/// the last fragment, as in Linux.
fn bytes_of<'a>(fragment: &IpFragment<'a>) -> &'a [u8]
    ensures is { result.now ≡ bytes_of_fragment fragment.now }
    ensures within { length result.now ≤ length fragment.now.payload.now }
{
    let payload = fragment.payload;
    match fragment.source {
        Address::V4(_) => {
            if fragment.has_more {
                &payload[..payload.len() / 8 * 8]
            } else {
                payload
            }
        }
        Address::V6(_, _) => payload,
    }
}

/// Returns why a fragment is dropped alone, whatever arrived before.
pub(crate) fn refused_alone(fragment: &IpFragment<'_>) -> Option<FragmentRefusal>
    ensures is { result ≡ refused_alone_by fragment.now }
    ensures short { IfNone result (length fragment.now.payload.now < 2 ^ 16) }
{
    let len = fragment.payload.len();
    match fragment.source {
        Address::V4(_) => {
            if len > MAX_DATAGRAM {
                return Some(FragmentRefusal::TooLong);
            }
        }
        Address::V6(_, _) => {
            if fragment.offset as usize + len > MAX_DATAGRAM {
                return Some(FragmentRefusal::TooLong);
            }
            if fragment.has_more && len % 8 != 0 {
                return Some(FragmentRefusal::Uneven);
            }
        }
    }
    None
}

/// Returns the most memory that a fragment adds to what its datagram counts, in bytes.
pub(crate) fn most_of(fragment: &IpFragment<'_>) -> usize
    requires { length fragment.now.payload.now < 2 ^ 16 }
    ensures { result ≡ most_of_fragment fragment.now }
{
    fragment.payload.len() * 2 + RUN_COST + DATAGRAM_COST
}

/// Returns whether a fragment's sender doesn't support ECN (Not-ECT; RFC 3168, section 5).
fn is_not_ect(fragment: &IpFragment<'_>) -> bool
    ensures { result ≡ is_not_ect_by fragment.now }
{
    fragment.ecn == 0
}

impl Extent {
    /// Returns the extent with a fragment of `count` bytes.
    fn with(self, fragment: &IpFragment<'_>, count: usize) -> Extent
        requires { count < 2 ^ 16 }
        ensures reach { result.reach ≡ max self.reach (fragment.now.offset + count) }
        ensures ended { result.is_ended ≡ (self.is_ended || not fragment.now.has_more) }
        ensures protocol { result.protocol ≡ first_protocol self.protocol fragment.now }
        ensures in_front { result.in_front
            ≡ (if fragment.now.offset == 0 then fragment.now.in_front else self.in_front) }
        ensures has_not_ect { result.has_not_ect
            ≡ (self.has_not_ect || is_not_ect_by fragment.now) }
        ensures has_ect { result.has_ect ≡ (self.has_ect || not (is_not_ect_by fragment.now)) }
    {
        let is_first = fragment.offset == 0;
        Extent {
            reach: self.reach.max(fragment.offset as usize + count),
            is_ended: self.is_ended || !fragment.has_more,
            protocol: match self.protocol {
                Some(protocol) => Some(protocol),
                None => is_first.then_some(fragment.protocol),
            },
            in_front: if is_first {
                fragment.in_front
            } else {
                self.in_front
            },
            has_not_ect: self.has_not_ect || is_not_ect(fragment),
            has_ect: self.has_ect || !is_not_ect(fragment),
        }
    }

    /// Returns the protocol if a datagram of this extent is whole once so many bytes arrived.
    fn protocol_if_whole(&self, filled: usize) -> Option<u8>
        ensures whole { is_some result ≡ (self.now.is_ended
            && ((filled == self.now.reach) && is_some self.now.protocol)) }
        ensures is { IfSome result (λ protocol. self.now.protocol ≡ Some protocol) }
    {
        if self.is_ended && filled == self.reach {
            self.protocol
        } else {
            None
        }
    }

    /// Returns whether some fragments are Not-ECT and others aren't.
    fn is_ecn_mixed(&self) -> bool
        ensures { result ≡ (self.now.has_not_ect && self.now.has_ect) }
    {
        self.has_not_ect && self.has_ect
    }

    /// Returns whether the datagram exceeds 65,535 bytes.
    fn is_too_long(&self) -> bool
        ensures { result ≡ nat_lt 65535 (self.now.in_front + self.now.reach) }
    {
        self.in_front > MAX_DATAGRAM || self.reach > MAX_DATAGRAM - self.in_front
    }
}

impl Waiting {
    /// Returns an empty datagram whose first fragment arrived at `time`.
    pub(crate) fn new(alloc: Global, time: u64) -> Waiting
        ensures { result ≡ begun time }
    {
        Waiting {
            runs: Vec::new(alloc),
            extent: Extent {
                reach: 0,
                is_ended: false,
                protocol: None,
                in_front: 0,
                has_not_ect: false,
                has_ect: false,
            },
            filled: 0,
            weight: 0,
            disagreeing: 0,
            since: time,
        }
    }

    /// Returns when the first fragment arrived.
    pub(crate) fn since(&self) -> u64
        ensures { result ≡ self.now.since }
    {
        self.since
    }

    /// Returns the memory that the datagram counts, in bytes.
    pub(crate) fn weight(&self) -> usize
        requires { weight_of self.now < 2 ^ 40 }
        ensures { result ≡ weight_of self.now }
    {
        self.weight + DATAGRAM_COST
    }

    /// Returns whether a fragment's end contradicts those of others, or it goes past the end.
    fn is_other_end(&self, fragment: &IpFragment<'_>, end: usize) -> bool
        requires { end ≡ end_of fragment.now }
        ensures { result ≡ is_other_end_of fragment.now self.now }
    {
        let ends_before = !fragment.has_more && end < self.extent.reach;
        let goes_behind = self.extent.is_ended && self.extent.reach < end;
        ends_before || goes_behind
    }

    /// Notes a fragment that ends here and repeats bytes, `count` of them with another value.
    fn repeat(&mut self, fragment: &IpFragment<'_>, end: usize, count: usize)
        requires { end ≡ end_of fragment.now }
        ensures { self.new ≡ with_repeat fragment.now count self.old }
    {
        self.extent.reach = self.extent.reach.max(end);
        self.extent.is_ended = self.extent.is_ended || !fragment.has_more;
        self.disagreeing = self.disagreeing.saturating_add(count);
    }

    /// Adds a fragment's bytes where they fit. The datagram is of this extent then.
    #[tactic(auto, using(crate::proofs::RunLemmas::filled_with, crate::proofs::RunLemmas::weight_with_run, crate::proofs::RunLemmas::filled_low))]
    fn hold(
        &mut self,
        alloc: Global,
        fragment: &IpFragment<'_>,
        bytes: &[u8],
        gap: Gap,
    ) -> Result<(), AllocError>
        requires bytes { bytes.now ≡ bytes_of_fragment fragment.now }
        requires short { length bytes.now < 2 ^ 16 }
        requires gap { IsGap gap self.old.runs }
        requires light { weight_of self.old < 2 ^ 40 }
        ensures ok { OnOk result (self.new ≡ with_runs fragment.now
            (runs_with gap fragment.now.offset bytes.now self.old.runs) self.old) }
        ensures err { OnErr result (self.new ≡ self.old) }
    {
        put(&mut self.runs, alloc, gap, fragment.offset, bytes)?;
        self.extent = self.extent.with(fragment, bytes.len());
        self.filled += bytes.len();
        self.weight += bytes.len() * 2 + gap.cost();
        Ok(())
    }

    /// Adds a fragment's bytes where they fit, or returns the datagram that they complete.
    fn receive_bytes(
        &mut self,
        alloc: Global,
        fragment: &IpFragment<'_>,
        bytes: &[u8],
        gap: Gap,
    ) -> Result<FragmentOutcome, AllocError>
        requires bytes { bytes.now ≡ bytes_of_fragment fragment.now }
        requires short { length bytes.now < 2 ^ 16 }
        requires gap { IsGap gap self.old.runs }
        requires light { weight_of self.old < 2 ^ 40 }
        ensures receives { IfOk result
            (λ outcome. Receives fragment.now outcome self.old self.new
            (completed_or_not (with_runs fragment.now
            (runs_with gap fragment.now.offset bytes.now self.old.runs) self.old))) }
        ensures err { OnErr result (self.new ≡ self.old) }
        ensures grows { weight_of self.old ≤ weight_of self.new }
        ensures most { weight_of self.new ≤ weight_of self.old + length bytes.now * 2 + 128 }
    {
        let extent = self.extent.with(fragment, bytes.len());
        let Some(protocol) = extent.protocol_if_whole(self.filled + bytes.len()) else {
            self.hold(alloc, fragment, bytes, gap)?;
            return Ok(FragmentOutcome::Waits);
        };
        if extent.is_ecn_mixed() {
            return Ok(FragmentOutcome::Refused(FragmentRefusal::MixedEcn));
        }
        if extent.is_too_long() {
            return Ok(FragmentOutcome::Refused(FragmentRefusal::TooLong));
        }
        let payload = join(alloc, &self.runs, gap, fragment.offset, bytes, extent.reach)?;
        Ok(FragmentOutcome::Whole(ReassembledDatagram {
            source: fragment.source,
            destination: fragment.destination,
            protocol,
            is_header_right: fragment.is_header_right,
            payload,
            disagreeing: self.disagreeing,
        }))
    }

    /// Receives a fragment whose bytes have this place.
    fn receive_at(
        &mut self,
        alloc: Global,
        fragment: &IpFragment<'_>,
        bytes: &[u8],
        place: Place,
    ) -> Result<FragmentOutcome, AllocError>
        requires bytes { bytes.now ≡ bytes_of_fragment fragment.now }
        requires short { length bytes.now < 2 ^ 16 }
        requires place { IsPlace place self.old.runs }
        requires light { weight_of self.old < 2 ^ 40 }
        ensures receives { IfOk result
            (λ outcome. Receives fragment.now outcome self.old self.new
            (by_placing fragment.now self.old
            (placing_of place fragment.now.offset bytes.now self.old.runs))) }
        ensures err { OnErr result (self.new ≡ self.old) }
        ensures grows { weight_of self.old ≤ weight_of self.new }
        ensures most { weight_of self.new ≤ weight_of self.old + length bytes.now * 2 + 128 }
    {
        match place {
            Place::Fits(gap) => self.receive_bytes(alloc, fragment, bytes, gap),
            Place::Repeats(count) => {
                let end = fragment.offset as usize + bytes.len();
                self.repeat(fragment, end, count);
                Ok(FragmentOutcome::Waits)
            }
            Place::Overlaps => Ok(FragmentOutcome::Refused(FragmentRefusal::Overlap)),
        }
    }

    /// Receives a fragment. It changes the datagram only if this waits for more: on any other
    /// outcome the datagram is over.
    ///
    /// `AllocError` if there is no memory for the bytes. Nothing changes then.
    pub(crate) fn receive(
        &mut self,
        alloc: Global,
        fragment: &IpFragment<'_>,
    ) -> Result<FragmentOutcome, AllocError>
        requires short { length fragment.now.payload.now < 2 ^ 16 }
        requires light { weight_of self.old < 2 ^ 40 }
        ensures receives { IfOk result
            (λ outcome. Receives fragment.now outcome self.old self.new
            (received fragment.now self.old)) }
        ensures err { OnErr result (self.new ≡ self.old) }
        ensures agrees { OnErr result (is_other_end_of fragment.now self.old ≡ false) }
        ensures grows { weight_of self.old ≤ weight_of self.new }
        ensures most { weight_of self.new
            ≤ weight_of self.old + length fragment.now.payload.now * 2 + 128 }
    {
        let bytes = bytes_of(fragment);
        if self.is_other_end(fragment, fragment.offset as usize + bytes.len()) {
            return Ok(FragmentOutcome::Refused(FragmentRefusal::OtherEnd));
        }
        if bytes.is_empty() {
            return Ok(FragmentOutcome::Refused(FragmentRefusal::Empty));
        }
        let place = place_of(&self.runs, fragment.offset, bytes);
        self.receive_at(alloc, fragment, bytes, place)
    }
}
