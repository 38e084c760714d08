//! Visits all packets of a source.
ghost use Rattle.std.specs.Prelude.{◌≡◌, Bool, true, List, Option, None, IfSome, IfErr, OnOk};
ghost use Rattle.std.specs.Io.KnownBytes.{IsAtEnd};
ghost use Rattle.packets.specs.Section.{Packet as PacketValue, view_packet};
ghost use Rattle.packets.specs.Front.{front};
ghost use Rattle.packets.specs.Packets.{Whole, end_of, packets_of};
ghost use Rattle.packets.specs.Visit.{as_visited, visit_error, AddsAll, Goes, IsCause, IsEnd, StaysSound, Visits};

use crate::buffer::Buffer;
use crate::reader::{Capture, CaptureError, CaptureStep, Packet};
use std::alloc::Global;
use std::io::{self, Read};

/// A consumer of a capture's packets.
pub trait PacketVisitor {
    /// Why it takes no more packets.
    type Error;

    // The packets that it took, if a contract needs them.
    ghost taken: { Self → Option (List PacketValue) } = { λ _. None };

    // Whether it is sound, if a contract needs that. It stays so as long as it refuses no packet.
    ghost is_sound: { Self → Bool } = { λ _. true };

    /// Takes the next packet. An error refuses it and ends the visit.
    fn visit(&mut self, packet: Packet<'_>) -> Result<(), Self::Error>
        ensures visits { Visits (taken self.old) (taken self.new) result
            (view_packet packet.entry) }
        ensures sound { is_sound self.old ≡ true → OnOk result (is_sound self.new ≡ true) };
}

/// Why a visit ended before the end of a capture.
#[derive(Debug, Drop)]
pub enum VisitError<E> {
    /// It isn't a capture, a rule is broken, or memory ran out.
    Capture(CaptureError),
    /// The bytes end within a packet or a block.
    BrokenOff,
    /// A read failed, or there was no memory for its bytes.
    Reading(io::Error),
    /// There was no end after 2^64 - 1 steps, each a packet, a block or a read.
    Endless,
    /// The visitor refused a packet.
    Visitor(E),
}

/// Why the item at the front can't be visited. Every packet's visit returns it, so it has no room
/// for an `io::Error`, which is large.
#[derive(Drop)]
enum FrontError<E> {
    Capture(CaptureError),
    Visitor(E),
}

/// Converts to the error of the whole visit.
fn visit_error<E>(e: FrontError<E>) -> VisitError<E>
    ensures { result ≡ visit_error e }
{
    match e {
        FrontError::Capture(e) => VisitError::Capture(e),
        FrontError::Visitor(e) => VisitError::Visitor(e),
    }
}

/// Visits the item at the front of the buffer and takes it off. Returns false if it isn't all
/// there.
fn visit_front<V: PacketVisitor>(
    capture: &mut Capture,
    buffer: &mut Buffer,
    visitor: &mut V,
) -> Result<bool, FrontError<V::Error>>
    ensures goes { Goes (front capture.old buffer.old) (V.taken visitor.old) (V.taken visitor.new)
        capture.old capture.new
        buffer.old buffer.new (as_visited result) }
    ensures sound { StaysSound (V.is_sound visitor.old) (V.is_sound visitor.new)
        (as_visited result) }
{
    match capture.step(buffer.held()) {
        Ok(CaptureStep::Packet(packet, rest)) => {
            let left = rest.len();
            match visitor.visit(packet) {
                Ok(()) => {
                    buffer.keep_last(left);
                    Ok(true)
                }
                Err(e) => Err(FrontError::Visitor(e)),
            }
        }
        Ok(CaptureStep::Other(rest)) => {
            let left = rest.len();
            buffer.keep_last(left);
            Ok(true)
        }
        Ok(CaptureStep::Wait) => Ok(false),
        Err(e) => Err(FrontError::Capture(e)),
    }
}

/// Returns how a capture ends with these unparsed bytes.
fn end_in<E>(capture: &Capture, held: &[u8]) -> Result<(), VisitError<E>>
    ensures { IsEnd (end_of capture.now held.now) result }
{
    if !capture.is_known() {
        return Err(VisitError::Capture(CaptureError::NoCapture));
    }
    if !held.is_empty() {
        return Err(VisitError::BrokenOff);
    }
    Ok(())
}

/// Reads a source to its end, and passes each packet of the capture to the visitor, in order.
///
/// The sizes of the reads don't matter: the packets are those of all the bytes together. The end is
/// where a read returns no bytes.
pub fn visit_packets<R: Read, V: PacketVisitor>(
    alloc: Global,
    reader: &mut R,
    visitor: &mut V,
) -> Result<(), VisitError<V::Error>>
    // All packets of all bytes were visited, and the source is at its end.
    ensures all { OnOk result (IfSome (R.remaining reader.old) (λ x.
        AddsAll (V.taken visitor.old) (V.taken visitor.new) (packets_of x) Whole
        × IsAtEnd (R.remaining reader.new))) }
    ensures cause { IfErr result (λ e. IfSome (R.remaining reader.old) (λ x.
        IsCause (packets_of x) (V.taken visitor.old) (V.taken visitor.new)
        (R.remaining reader.new) e)) }
    ensures sound { StaysSound (V.is_sound visitor.old) (V.is_sound visitor.new) result }
{
    let mut capture = Capture::new(alloc);
    let mut buffer = Buffer::new(alloc);
    'steps: for _ in 0..u64::MAX {
        match visit_front(&mut capture, &mut buffer, visitor) {
            Ok(true) => continue,
            Ok(false) => match buffer.fill(reader) {
                Ok(0) => return end_in(&capture, buffer.held()),
                Ok(_) => continue,
                Err(e) => return Err(VisitError::Reading(e)),
            },
            Err(e) => return Err(visit_error(e)),
        }
    }
    Err(VisitError::Endless)
}
