//! Cuts a whole stream into its frames.
ghost use Rattle.std.specs.Prelude.{◌≡◌, ◌++◌, OnOk, IfOk};
ghost use Rattle.tls_stream.specs.Frames.{IsSplit, elements, frames, joined, left, up_to};
ghost use Rattle.tls_stream.specs.Records.{message_frame, record_frame};

use crate::frame::{Frame, MessageFrame, RecordFrame};
use crate::reassembler::{FeedError, Frames, Joiner, RECORD_LIMIT, Reassembler};
use layouts::OutOfMemory;
use std::alloc::Global;

/// Removes each whole frame from the stream and appends its bytes to `taken`.
fn take_frames<F: Frame, const LIMIT: usize>(
    alloc: Global,
    stream: &mut Frames<F, LIMIT>,
    taken: &mut Vec<Vec<u8>>,
) -> Result<(), OutOfMemory>
    ensures { let f = up_to F.kind LIMIT in
        OnOk result ((elements taken.new.items ≡ elements taken.old.items ++ frames f stream.old)
        × (stream.new ≡ left f stream.old)) }
{
    while let Some(bytes) = stream.front_bytes() {
        let frame = Vec::from_slice(alloc, bytes)?;
        taken.push(frame)?;
        stream.take_front();
    }
    Ok(())
}

/// The bytes of each frame in a stream that arrives in these pieces, with its header, and the
/// buffer after the last one.
///
/// Each frame is taken as soon as its last byte arrives. It stops at a header whose length is too
/// large: the buffer then has that header, and perhaps not all bytes that follow.
///
/// `OutOfMemory` if there is no memory for a piece, a frame or the list.
pub fn split_frames<F: Frame, const LIMIT: usize>(
    alloc: Global,
    pieces: &[&[u8]],
) -> Result<(Vec<Vec<u8>>, Frames<F, LIMIT>), OutOfMemory>
    ensures { IfOk result
        (λ r. IsSplit (up_to F.kind LIMIT) (joined pieces.now) (elements r.0.items) r.1) }
{
    let mut stream = Frames::<F, LIMIT>::new(alloc);
    let mut taken = Vec::new(alloc);
    for piece in pieces {
        match stream.feed(piece) {
            Ok(()) => take_frames::<F, LIMIT>(alloc, &mut stream, &mut taken)?,
            Err(FeedError::TooLarge) => return Ok((taken, stream)),
            Err(FeedError::OutOfMemory) => return Err(OutOfMemory),
        }
    }
    Ok((taken, stream))
}

/// The bytes of each record in a stream that arrives in these pieces, with its header, and the
/// buffer after the last one. It stops and fails as [`split_frames`] does.
pub fn split_pieces(
    alloc: Global,
    pieces: &[&[u8]],
) -> Result<(Vec<Vec<u8>>, Reassembler), OutOfMemory>
    ensures { IfOk result (λ r. IsSplit record_frame (joined pieces.now) (elements r.0.items) r.1) }
{
    split_frames::<RecordFrame, RECORD_LIMIT>(alloc, pieces)
}

/// The bytes of each handshake message in these fragments of records, with its header, and the
/// buffer after the last one. How the messages are cut into fragments doesn't matter. It stops and
/// fails as [`split_frames`] does.
pub fn join_messages<const LIMIT: usize>(
    alloc: Global,
    fragments: &[&[u8]],
) -> Result<(Vec<Vec<u8>>, Joiner<LIMIT>), OutOfMemory>
    ensures { IfOk result
        (λ r. IsSplit (message_frame LIMIT) (joined fragments.now) (elements r.0.items) r.1) }
{
    split_frames::<MessageFrame, LIMIT>(alloc, fragments)
}
