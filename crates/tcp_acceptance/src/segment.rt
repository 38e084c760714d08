//! Segments that their receiver may have dropped.
ghost use Rattle.std.specs.Prelude.{◌≡◌, ◌≤◌, ◌+◌, IfOk, OnErr, OnOk};
ghost use Rattle.tcp_acceptance.specs.Numbers.{ahead_of};
ghost use Rattle.tcp_acceptance.specs.Ending.{is_edge_of};
ghost use Rattle.tcp_acceptance.specs.Taking.{front_of, is_certain as is_certain_now, is_cut as is_cut_by, rest_of};
ghost use Rattle.tcp_acceptance.specs.Doubtful.{behind_of, differ as some_differ, differ_at, doubtful_of, end_of, is_before as comes_before, is_copy_of, is_flag, is_side, reason_count};

use crate::numbers::{is_behind, number_after};
use std::alloc::{AllocError, Global};
use std::marker::Model;

/// The sender of a segment.
#[derive(Clone, Copy, Debug, PartialEq, Eq)]
pub enum Side {
    /// The side that asked for the connection.
    Originator,
    /// The other side.
    Responder,
}

impl Side {
    /// Returns whether two are the same.
    pub(crate) fn is(self, other: Side) -> bool
        ensures { result ≡ is_side self other }
    {
        match (self, other) {
            (Side::Originator, Side::Originator) | (Side::Responder, Side::Responder) => true,
            _ => false,
        }
    }
}

/// Why a receiver may have dropped a segment.
#[derive(Clone, Copy, Debug, PartialEq, Eq)]
pub struct Reasons {
    /// A checksum is wrong.
    pub checksum: bool,
    /// It is signed, and its sender's SYN isn't (RFC 2385, section 2).
    pub signature: bool,
    /// Its timestamp is older than one that its receiver took (RFC 7323, section 5.3).
    pub clock: bool,
    /// It acknowledges bytes that aren't known to be sent.
    pub acknowledgment: bool,
    /// It begins or ends beyond its receiver's window.
    pub window: bool,
    /// It came before anything of its receiver.
    pub opening: bool,
}

impl Reasons {
    /// Returns how many there are.
    pub(crate) fn count(self) -> u32
        ensures is { result ≡ reason_count self }
        ensures within { result ≤ 6 }
    {
        u32::from(self.checksum)
            + (u32::from(self.signature)
                + (u32::from(self.clock)
                    + (u32::from(self.acknowledgment)
                        + (u32::from(self.window) + u32::from(self.opening)))))
    }
}

/// What a segment says besides its data.
#[derive(Clone, Copy, Debug, PartialEq, Eq)]
pub struct Fields {
    /// The number that its sender expects next.
    pub acknowledgment: u32,
    /// The receive window in bytes, before scaling.
    pub window: u16,
    /// The sender's timestamp.
    pub clock: Option<u32>,
    /// With URG, the urgent pointer.
    pub urgent_pointer: Option<u16>,
}

/// A doubtful segment as it comes.
#[derive(Clone, Copy, Debug)]
pub struct Arrived<'a> {
    /// Its sender.
    pub sender: Side,
    /// The number of its first byte; without bytes, that of its FIN.
    pub first: u32,
    /// Its bytes.
    pub payload: &'a [u8],
    /// Whether it has a FIN behind them.
    pub has_fin: bool,
    /// Why its receiver may have dropped it.
    pub reasons: Reasons,
    /// What else it says.
    pub fields: Fields,
    /// How many segments of its connection came before it.
    pub arrival: u64,
}

/// A segment that its receiver may have dropped.
#[derive(Debug, Drop)]
pub struct DoubtfulSegment {
    sender: Side,
    first: u32,
    bytes: Vec<u8>,
    has_fin: bool,
    reasons: Reasons,
    fields: Fields,
    arrival: u64,
}

impl Model for DoubtfulSegment {
    ghost use Rattle.tcp_acceptance.specs.Doubtful.{Doubtful};

    ghost Value = { Doubtful };

    ghost view = { λ k. record {
      sender = k.sender;
      first = k.first;
      bytes = k.bytes.items;
      has_fin = k.has_fin;
      reasons = k.reasons;
      fields = k.fields;
      arrival = k.arrival;
    } };
}

/// Returns whether two are the same.
fn is_same(one: bool, other: bool) -> bool
    ensures { result ≡ is_flag one other }
{
    if one { other } else { !other }
}

/// Returns whether a byte differs from that at the same place of another list.
fn differ(bytes: &[u8], others: &[u8]) -> bool
    ensures { result ≡ some_differ bytes.now others.now }
{
    for place in 0..bytes.len().min(others.len()) {
        if bytes[place] != others[place] {
            return true;
        }
    }
    false
}

/// Returns whether a byte differs from that at the same number of others, which are so far ahead.
fn differ_from(bytes: &[u8], ahead: u32, others: &[u8]) -> bool
    ensures { result ≡ differ_at ahead bytes.now others.now }
{
    if ahead < 0x8000_0000 {
        differ(&bytes[(ahead as usize).min(bytes.len())..], others)
    } else {
        let behind = (0xffff_ffff - ahead) as usize + 1;
        differ(bytes, &others[behind.min(others.len())..])
    }
}

impl DoubtfulSegment {
    /// Returns a segment with a copy of its bytes.
    pub(crate) fn new(alloc: Global, arrived: &Arrived<'_>) -> Result<Self, AllocError>
        ensures { IfOk result (λ k. k ≡ doubtful_of arrived.now) }
    {
        let bytes = Vec::from_slice(alloc, arrived.payload)?;
        Ok(DoubtfulSegment {
            sender: arrived.sender,
            first: arrived.first,
            bytes,
            has_fin: arrived.has_fin,
            reasons: arrived.reasons,
            fields: arrived.fields,
            arrival: arrived.arrival,
        })
    }

    /// Returns its sender.
    pub fn sender(&self) -> Side
        ensures { result ≡ self.now.sender }
    {
        self.sender
    }

    /// Returns the number of its first byte; without bytes, that of its FIN.
    pub fn first(&self) -> u32
        ensures { result ≡ self.now.first }
    {
        self.first
    }

    /// Returns its bytes.
    pub fn bytes(&self) -> &[u8]
        ensures { result.now ≡ self.now.bytes }
    {
        self.bytes.as_slice()
    }

    /// Returns whether it has a FIN behind its bytes.
    pub fn has_fin(&self) -> bool
        ensures { result ≡ self.now.has_fin }
    {
        self.has_fin
    }

    /// Returns why its receiver may have dropped it.
    pub fn reasons(&self) -> Reasons
        ensures { result ≡ self.now.reasons }
    {
        self.reasons
    }

    /// Returns what else it says.
    pub fn fields(&self) -> Fields
        ensures { result ≡ self.now.fields }
    {
        self.fields
    }

    /// Returns how many segments of its connection came before it.
    pub fn arrival(&self) -> u64
        ensures { result ≡ self.now.arrival }
    {
        self.arrival
    }

    /// Returns the number behind its last byte.
    pub(crate) fn behind(&self) -> u32
        ensures { result ≡ behind_of self.now }
    {
        number_after(self.first, self.bytes.len())
    }

    /// Returns the number behind all that it takes, a FIN included.
    pub(crate) fn end(&self) -> u32
        ensures { result ≡ end_of self.now }
    {
        let behind = self.behind();
        if self.has_fin {
            behind.wrapping_add(1)
        } else {
            behind
        }
    }

    /// Returns whether it has the bytes of a segment that comes, at the same number, and no more
    /// reasons.
    pub(crate) fn has_copy(&self, arrived: &Arrived<'_>) -> bool
        ensures { result ≡ is_copy_of (doubtful_of arrived.now) self.now }
    {
        self.sender.is(arrived.sender)
            && self.first == arrived.first
            && is_same(self.has_fin, arrived.has_fin)
            && self.reasons.count() <= arrived.reasons.count()
            && self.bytes.len() == arrived.payload.len()
            && !differ(self.bytes.as_slice(), arrived.payload)
    }

    /// Returns whether another one of its sender has bytes, and ends where this one begins.
    pub(crate) fn is_before(&self, other: &DoubtfulSegment) -> bool
        ensures { result ≡ comes_before self.now other.now }
    {
        other.sender.is(self.sender) && !other.bytes.is_empty() && other.behind() == self.first
    }

    /// Returns whether it is of a side, and begins or ends at a number.
    pub(crate) fn has_edge(&self, side: Side, number: u32) -> bool
        ensures { result ≡ is_edge_of side number self.now }
    {
        self.sender.is(side)
            && (self.first == number || self.behind() == number || self.end() == number)
    }

    /// Returns whether one of its bytes differs from that at the same number of others.
    pub(crate) fn differs_from(&self, first: u32, others: &[u8]) -> bool
        ensures { result ≡ differ_at (ahead_of first self.now.first) self.now.bytes others.now }
    {
        let ahead = first.wrapping_sub(self.first);
        differ_from(self.bytes.as_slice(), ahead, others)
    }

    /// Returns whether no reason is left.
    pub(crate) fn is_certain(&self) -> bool
        ensures { result ≡ is_certain_now self.now }
    {
        self.reasons.count() == 0
    }

    /// Sets its reasons.
    pub(crate) fn set_reasons(&mut self, reasons: Reasons)
        ensures { self.new ≡ record self.old { reasons = reasons } }
    {
        self.reasons = reasons;
    }

    /// Sets whether it has a FIN.
    pub(crate) fn set_fin(&mut self, has_fin: bool)
        ensures { self.new ≡ record self.old { has_fin = has_fin } }
    {
        self.has_fin = has_fin;
    }

    /// Returns whether an acknowledgement covers less than all of it.
    pub(crate) fn is_cut(&self, ack: u32) -> bool
        ensures { result ≡ is_cut_by ack self.now }
    {
        is_behind(self.end(), ack)
    }

    /// Removes the bytes in front of a number, and returns them as a segment without FIN.
    pub(crate) fn split(&mut self, alloc: Global, ack: u32) -> Result<Self, AllocError>
        ensures front { IfOk result (λ front. front ≡ front_of ack self.old) }
        ensures rest { OnOk result (self.new ≡ rest_of ack self.old) }
        ensures err { OnErr result (self.new ≡ self.old) }
    {
        let count = (ack.wrapping_sub(self.first) as usize).min(self.bytes.len());
        let bytes = Vec::from_slice(alloc, &self.bytes[..count])?;
        self.bytes.drain(..count);
        let first = self.first;
        self.first = ack;
        Ok(DoubtfulSegment {
            sender: self.sender,
            first,
            bytes,
            has_fin: false,
            reasons: self.reasons,
            fields: self.fields,
            arrival: self.arrival,
        })
    }
}
