//! Streams that arrive in pieces: the unread bytes are in a buffer of the caller's, at a place that
//! the caller keeps.
ghost use Rattle.std.specs.Prelude.{◌≡◌, ◌≢◌, IfSome, IfNone, length};
ghost use Rattle.layouts.specs.Meaning.{EndsWith};
ghost use Rattle.tls_hs.specs.InPlace.{raw_handshake};
ghost use Rattle.tls_records.specs.Record.{raw_record};
ghost use Rattle.tls_places.specs.Place.{Lies, Stands};
ghost use Rattle.wispuddera_c.specs.Place.{StandsAt, place_of};
ghost use Rattle.wispuddera_c.specs.Status.{outside};
ghost use Rattle.wispuddera_c.specs.Stream.{IsFed, IsTaken, LiesBehind, TakesPart, TakesRecord};

use crate::part::Part;
use crate::place::{Place, in_c};
use crate::record::Record;
use crate::status::{OUTSIDE, READ, Refusal};
use layouts::Place as Within;
use tls_hs::RawHandshake;
use tls_places::{frame_at, place_within};

/// Appends as much of `piece` as there is room for to the bytes in `buffer`, which are moved to its
/// beginning.
#[unsafe(no_mangle)]
pub extern "C" fn wispuddera_feed(
    buffer: &mut [u8],
    held: &mut Place,
    piece: &[u8],
    taken: &mut usize,
) -> u32
    ensures room { length buffer.new ≡ length buffer.old }
    ensures fed { Lies buffer.old (place_of held.old)
        → IsFed buffer.old buffer.new held.old held.new piece.now taken.new }
    ensures inside { Lies buffer.old (place_of held.old) → result ≡ 0 }
    ensures behind { LiesBehind buffer.old held.old → (result ≡ outside) × (buffer.new ≡ buffer.old)
        × (held.new ≡ held.old) × (taken.new ≡ 0) }
{
    *taken = 0;
    if held.offset > buffer.len() || held.length > buffer.len() - held.offset {
        return OUTSIDE;
    }
    let start = held.length;
    buffer.copy_within(held.offset..held.offset + start, 0);
    let count = piece.len().min(buffer.len() - start);
    buffer[start..start + count].copy_from_slice(&piece[..count]);
    *held = Place {
        offset: 0,
        length: start + count,
    };
    *taken = count;
    READ
}

/// The bytes in `buffer`; `None` if they don't lie within it.
#[inline(always)]
fn held_bytes(buffer: &[u8], held: Place) -> Option<&[u8]>
    ensures some { IfSome result (λ x. Stands buffer.now (place_of held) x.now) }
    ensures none { IfNone result (LiesBehind buffer.now held) }
{
    if held.offset > buffer.len() || held.length > buffer.len() - held.offset {
        return None;
    }
    Some(&buffer[held.offset..held.offset + held.length])
}

/// The place of `rest`, the end of `bytes`, which are at the place `held` of `buffer`.
#[tactic(auto, using(crate::proofs::StreamLemmas::rest_stands))]
#[inline(always)]
fn place_of_rest(buffer: &[u8], held: Place, bytes: &[u8], rest: &[u8]) -> Place
    ensures { Stands buffer.now (place_of held) bytes.now → EndsWith bytes.now rest.now
        → StandsAt buffer.now result rest.now }
{
    let outer = Within {
        offset: held.offset,
        length: held.length,
    };
    let inner = Within {
        offset: bytes.len().saturating_sub(rest.len()),
        length: rest.len(),
    };
    in_c(place_within(buffer, outer, inner))
}

/// Parses the record at the front of the bytes in `buffer`, and removes it from them.
#[tactic(auto, using(layouts::proofs::OneAnswerLemmas::read_allowed, layouts::proofs::PlaceLemmas::ends_here, crate::proofs::StatusLemmas::answered))]
#[unsafe(no_mangle)]
pub extern "C" fn wispuddera_next_record(buffer: &[u8], held: &mut Place, out: &mut Record) -> u32
    ensures read { IsTaken raw_record (TakesRecord buffer.now held.new out.new) buffer.now held.old
        result out.new.missing }
    ensures stays { result ≢ 0 → held.new ≡ held.old }
    ensures behind { LiesBehind buffer.now held.old → (result ≡ outside) × (out.new.missing ≡ 0) }
{
    let Some(bytes) = held_bytes(buffer, *held) else {
        out.missing = 0;
        return OUTSIDE;
    };
    match frame_at::<tls_places::Record>(bytes, bytes) {
        Ok((rest, (record, fragment))) => {
            let outer = Within {
                offset: held.offset,
                length: held.length,
            };
            let left = place_of_rest(buffer, *held, bytes, rest);
            *out = Record {
                missing: 0,
                fragment: in_c(place_within(buffer, outer, fragment)),
                next: left.offset,
                version: record.hdr.version.0,
                length: record.hdr.len,
                content_type: record.hdr.record_type.0,
            };
            *held = left;
            READ
        }
        Err(e) => {
            let refusal = Refusal::of(e);
            out.missing = refusal.missing;
            refusal.status
        }
    }
}

/// Parses the handshake message at the front of the bytes in `buffer`, which are joined fragments
/// of records, and removes it from them.
#[tactic(auto, using(layouts::proofs::OneAnswerLemmas::read_allowed, layouts::proofs::PlaceLemmas::ends_here, crate::proofs::StatusLemmas::answered))]
#[unsafe(no_mangle)]
pub extern "C" fn wispuddera_next_message(buffer: &[u8], held: &mut Place, out: &mut Part) -> u32
    ensures read { IsTaken raw_handshake (TakesPart buffer.now held.new out.new) buffer.now held.old
        result out.new.missing }
    ensures stays { result ≢ 0 → held.new ≡ held.old }
    ensures behind { LiesBehind buffer.now held.old → (result ≡ outside) × (out.new.missing ≡ 0) }
{
    let Some(bytes) = held_bytes(buffer, *held) else {
        out.missing = 0;
        return OUTSIDE;
    };
    match frame_at::<RawHandshake>(bytes, bytes) {
        Ok((rest, (message, body))) => {
            let outer = Within {
                offset: held.offset,
                length: held.length,
            };
            let left = place_of_rest(buffer, *held, bytes, rest);
            *out = Part {
                missing: 0,
                content: in_c(place_within(buffer, outer, body)),
                next: left.offset,
                kind: u16::from(message.msg_type.0),
            };
            *held = left;
            READ
        }
        Err(e) => {
            let refusal = Refusal::of(e);
            out.missing = refusal.missing;
            refusal.status
        }
    }
}
