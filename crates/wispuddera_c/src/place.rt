//! The places of parts in the caller's bytes.
ghost use Rattle.std.specs.Prelude.{◌≡◌, ◌≤◌, ◌<◌, Option, IfSome, IfNone, length, drop, List, ℕ};
ghost use Rattle.std.specs.Borrow.{Bor};
ghost use Rattle.std.specs.Option.{option_map};
ghost use Rattle.layouts.specs.Bytes.{Bytes};
ghost use Rattle.layouts.specs.Meaning.{EndsWith};
ghost use Rattle.layouts.specs.Place.{bytes_at};
ghost use Rattle.layouts.specs.Text.{held};
ghost use Rattle.tls_hs.specs.Places.{StandsAt as MayStandAt};
ghost use Rattle.tls_places.specs.Place.{Lies, MayStand};
ghost use Rattle.wispuddera_c.specs.Place.{Follows, StandsAt, place_of};

use layouts::Place as Within;

/// A range of the caller's bytes.
#[repr(C)]
#[derive(Clone, Copy)]
pub struct Place {
    /// How many bytes come before it.
    pub offset: usize,
    /// How many bytes it has.
    pub length: usize,
}

/// A place, as a C struct.
#[inline(always)]
pub fn in_c(place: Within) -> Place
    ensures { place_of result ≡ place }
{
    Place {
        offset: place.offset,
        length: place.length,
    }
}

/// The place of an optional part; empty if it is missing.
#[tactic(auto, using(crate::proofs::PlaceLemmas::held_some, crate::proofs::PlaceLemmas::held_none))]
#[inline(always)]
pub fn held_in_c(place: Option<Within>) -> Place
    ensures { (b : Bytes) (x : Option Bytes) → MayStand b place x → StandsAt b result (held x) }
{
    match place {
        Some(place) => in_c(place),
        None => Place {
            offset: 0,
            length: 0,
        },
    }
}

/// A place, cut to the part that lies within `whole`.
#[tactic(auto, using(crate::proofs::PlaceLemmas::cut_is))]
#[inline(always)]
pub fn within(whole: &[u8], place: Within) -> Place
    ensures is { bytes_at whole.now (place_of result) ≡ bytes_at whole.now place }
    ensures lies { Lies whole.now (place_of result) }
{
    let offset = place.offset.min(whole.len());
    Place {
        offset,
        length: place.length.min(whole.len() - offset),
    }
}

/// The place of an optional part, cut to the part that lies within `whole`; empty if it is missing.
#[tactic(auto, using(crate::proofs::PlaceLemmas::cut_some, crate::proofs::PlaceLemmas::cut_none))]
#[inline(always)]
pub fn held_within(whole: &[u8], place: Option<Within>) -> Place
    ensures { (x : Option (Bor (List ℕ))) → MayStandAt whole.now place x
        → StandsAt whole.now result (held (option_map (λ y. y.now) x)) }
{
    match place {
        Some(place) => within(whole, place),
        None => Place {
            offset: 0,
            length: 0,
        },
    }
}

/// The bytes from this offset on; `None` if it is past the end.
#[tactic(auto, using(crate::proofs::PlaceLemmas::ends_from))]
#[inline(always)]
pub fn bytes_from(whole: &[u8], offset: usize) -> Option<&[u8]>
    ensures is { IfSome result (λ x. x.now ≡ drop offset whole.now) }
    ensures ends { IfSome result (λ x. EndsWith whole.now x.now) }
    ensures inside { IfSome result (λ _. offset ≤ length whole.now) }
    ensures behind { IfNone result (length whole.now < offset) }
{
    if offset > whole.len() {
        return None;
    }
    let (_, behind) = whole.split_at(offset);
    Some(behind)
}

/// The offset of `rest`, which is the end of `whole`.
#[tactic(auto, using(crate::proofs::PlaceLemmas::rest_follows))]
#[inline(always)]
pub fn offset_of(whole: &[u8], rest: &[u8]) -> usize
    ensures { EndsWith whole.now rest.now → Follows whole.now result rest.now }
{
    whole.len().saturating_sub(rest.len())
}
