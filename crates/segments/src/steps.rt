//! Calls on a stream, in any order.
ghost use Rattle.std.specs.Prelude.{◌≡◌, ◌++◌, [], IfOk, OnOk};
ghost use Rattle.segments.specs.Steps.{IsReplayed, handed, stepped, emitted};

use crate::reassembler::{SegmentError, TcpReassembler};
use std::alloc::Global;

/// One call on a stream.
#[derive(Drop)]
pub enum Step<'a> {
    /// A segment: the sequence number of its first byte, and its bytes.
    Segment(u32, &'a [u8]),
    /// Delivers at most this many of the available bytes.
    Take(usize),
}

/// Takes one step, and appends the bytes that it delivers to `out`.
fn take_step(
    stream: &mut TcpReassembler,
    step: &Step,
    out: &mut Vec<u8>,
) -> Result<(), SegmentError>
    ensures stream { OnOk result (stream.new ≡ stepped step.now stream.old) }
    ensures out { OnOk result (out.new.items ≡ out.old.items ++ emitted step.now stream.old) }
{
    match step {
        Step::Segment(seq, bytes) => stream.segment(*seq, bytes),
        Step::Take(most) => {
            let front = stream.available();
            let n = front.len().min(*most);
            out.extend_from_slice(&front[..n])?;
            stream.take(n);
            Ok(())
        }
    }
}

/// Returns the bytes delivered by a list of steps, and those available after the last step.
///
/// The stream may have any length below 2^62. Each segment must begin less than 2^31 bytes from the
/// byte that is the first missing one when it comes.
///
/// - `TooMuch` if [`TcpReassembler::segment`] refuses a segment so.
/// - `OutOfMemory` if memory ran out.
pub fn replay(
    alloc: Global,
    first_place: u32,
    limit: u32,
    steps: &[Step],
) -> Result<(Vec<u8>, Vec<u8>), SegmentError>
    ensures front { IfOk result (λ r. IsReplayed first_place steps.now r.0.items r.1.items) }
    ensures emitted { IfOk result
        (λ r. r.0.items ≡ handed steps.now
        record { first = first_place; limit = limit; taken = 0; cells = [] }) }
{
    let mut stream = TcpReassembler::new(alloc, first_place, limit);
    let mut out = Vec::new(alloc);
    for step in steps {
        take_step(&mut stream, step, &mut out)?;
    }
    Ok((out, stream.into_available()))
}
