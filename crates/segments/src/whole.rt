//! Reassembles a whole stream from a list of segments.
ghost use Rattle.std.specs.Prelude.{◌≡◌, IfOk};
ghost use Rattle.segments.specs.Law.{IsReassembled};

use crate::reassembler::{SegmentError, TcpReassembler};
use std::alloc::Global;

/// Returns all bytes delivered if each segment is taken in turn, and everything available is
/// delivered after each.
///
/// A segment is the sequence number of its first byte, and its bytes. If the segments are parts of
/// a stream of fewer than 2^31 bytes, the result is the longest prefix of that stream of which each
/// byte is in a segment.
///
/// Returns the refusal of the first segment that [`TcpReassembler::segment`] refuses; `OutOfMemory`
/// also if the delivered bytes can't be allocated.
pub fn reassemble(
    alloc: Global,
    first_place: u32,
    limit: u32,
    segments: &[(u32, &[u8])],
) -> Result<Vec<u8>, SegmentError>
    ensures { IfOk result (λ out. IsReassembled first_place segments.now out.items) }
{
    let mut stream = TcpReassembler::new(alloc, first_place, limit);
    let mut out = Vec::new(alloc);
    for segment in segments {
        let (seq, bytes) = *segment;
        stream.segment(seq, bytes)?;
        let front = stream.available();
        let len = front.len();
        out.extend_from_slice(front)?;
        stream.take(len);
    }
    Ok(out)
}
