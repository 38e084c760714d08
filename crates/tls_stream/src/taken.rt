//! The handshake messages of a direction.
ghost use Rattle.std.specs.Prelude.{◌≡◌, ◌<◌, [], IfOk, IsSome, OnOk, length};
ghost use Rattle.std.specs.Option.{option_map};
ghost use Rattle.tls_stream.specs.Frames.{elements, joined};
ghost use Rattle.tls_stream.specs.Events.{events, fed, first, silent};
ghost use Rattle.tls_stream.specs.Taken.{AreTaken, TakesSame, handshake_in, handshakes};

use crate::event::Event;
use crate::event_reader::EventReader;
use layouts::OutOfMemory;
use std::alloc::Global;

/// The next event's bytes, if it is a handshake message.
fn front_message(direction: &EventReader) -> Option<&[u8]>
    ensures { option_map (λ b. b.now) result ≡ handshake_in
        (option_map (λ x. x.0) (first direction.now)) }
{
    match direction.front() {
        Some(Event::Handshake(message)) => Some(message),
        Some(
            Event::ChangeCipherSpec
            | Event::Alert(_)
            | Event::Heartbeat(_)
            | Event::ApplicationData(_)
            | Event::Encrypted(_),
        ) => None,
        None => None,
    }
}

/// Removes the next event. If it is a handshake message, its bytes are appended to `taken`.
fn take_event(
    alloc: Global,
    direction: &mut EventReader,
    taken: &mut Vec<Vec<u8>>,
) -> Result<(), OutOfMemory>
    requires { IsSome (first direction.old) }
    ensures same { OnOk result
        (TakesSame (elements taken.old.items) direction.old (elements taken.new.items)
        direction.new) }
    ensures fewer { OnOk result
        (length (events (fed direction.new [])) < length (events (fed direction.old []))) }
{
    if let Some(message) = front_message(direction) {
        let message = Vec::from_slice(alloc, message)?;
        taken.push(message)?;
        direction.take_front();
        return Ok(());
    }
    direction.take_front();
    Ok(())
}

/// Removes every event that is available, and appends the bytes of each handshake message, with its
/// header, to `taken`. Returns whether the direction is at fault: then no message follows, whatever
/// is fed.
///
/// `OutOfMemory` if there is no memory for a message or the list. `taken` then has the messages
/// before it, and the call can be repeated. No clause says so; `tests/faults/refusals/run` tests
/// it.
pub fn take_messages(
    alloc: Global,
    direction: &mut EventReader,
    taken: &mut Vec<Vec<u8>>,
) -> Result<bool, OutOfMemory>
    ensures { IfOk result
        (AreTaken (elements taken.old.items) direction.old
        (elements taken.new.items) direction.new) }
{
    'events: loop {
        match direction.ready() {
            Ok(true) => take_event(alloc, direction, taken)?,
            Ok(false) => return Ok(false),
            Err(_) => return Ok(true),
        }
    }
}

/// The bytes of each handshake message in one direction's stream that arrives in these pieces, with
/// its header, and the direction after them. A message's body may have at most `limit` bytes.
///
/// The messages depend on the joined bytes alone. They stop where the direction is at fault. The
/// direction isn't switched to TLS 1.3: what follows its ChangeCipherSpec counts as encrypted.
///
/// `OutOfMemory` if there is no memory for a piece, a message or the list.
pub fn join_pieces(
    alloc: Global,
    limit: usize,
    pieces: &[&[u8]],
) -> Result<(Vec<Vec<u8>>, EventReader), OutOfMemory>
    ensures { IfOk result
        (λ r. elements r.0.items ≡ handshakes (events (fed (silent limit) (joined pieces.now)))) }
{
    let mut direction = EventReader::with_limit(alloc, limit);
    let mut taken = Vec::new(alloc);
    for piece in pieces {
        direction.feed(piece)?;
        if take_messages(alloc, &mut direction, &mut taken)? {
            return Ok((taken, direction));
        }
    }
    Ok((taken, direction))
}
