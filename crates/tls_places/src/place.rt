//! The places of parts in the bytes that they were parsed from.
ghost use Rattle.std.specs.Prelude.{◌≡◌, ◌++◌};
ghost use Rattle.layouts.specs.Bytes.{Bytes};
ghost use Rattle.std.specs.Option.{option_map};
ghost use Rattle.layouts.specs.Meaning.{EndsWith};
ghost use Rattle.layouts.specs.Place.{bytes_at as bytes_there};
ghost use Rattle.tls_places.specs.Place.{EndsIn, IsWithin, Lies, MayBeginAt, MayStand, Stands, FindsTheSame};

use layouts::{Err, Error, Place};

/// The place of `part` in `whole`, which ends with `part` and then `rest`.
#[tactic(auto, using(crate::proofs::PlaceLemmas::stands_before))]
#[inline(always)]
pub fn place_before(whole: &[u8], part: &[u8], rest: &[u8]) -> Place
    ensures { EndsWith whole.now (part.now ++ rest.now) → Stands whole.now result part.now }
{
    let behind = whole.len().saturating_sub(rest.len());
    let offset = behind.saturating_sub(part.len());
    Place {
        offset,
        length: part.len(),
    }
}

/// The place in `whole` of bytes at the place `inner` of a part, which is at the place `outer` of
/// `whole`.
#[tactic(auto, using(crate::proofs::PlaceLemmas::stands_within))]
#[inline(always)]
pub fn place_within(whole: &[u8], outer: Place, inner: Place) -> Place
    ensures { (x y : Bytes) → Stands whole.now outer x → Stands x inner y
        → Stands whole.now result y }
{
    let offset = outer.offset.saturating_add(inner.offset).min(whole.len());
    Place {
        offset,
        length: inner.length,
    }
}

/// The bytes at this place of `whole`; fewer if the place doesn't lie within it.
#[tactic(auto, using(crate::proofs::PlaceLemmas::cut_there))]
#[inline(always)]
pub fn bytes_at(whole: &[u8], place: Place) -> &[u8]
    ensures { result.now ≡ bytes_there whole.now place }
{
    let (_, behind) = whole.split_at(place.offset.min(whole.len()));
    let (part, _) = behind.split_at(place.length.min(behind.len()));
    part
}

/// The place of an optional part in `whole`, which ends with the part and then `rest`.
#[inline(always)]
pub(crate) fn held_before(whole: &[u8], part: Option<&[u8]>, rest: &[u8]) -> Option<Place>
    ensures { EndsIn whole.now (option_map (λ x. x.now) part.entry) rest.now
        → MayStand whole.now result (option_map (λ x. x.now) part.entry) }
{
    match part {
        Some(bytes) => Some(place_before(whole, bytes, rest)),
        None => None,
    }
}

/// The place of an optional part in `whole`, if it begins at `offset`.
#[inline(always)]
pub(crate) fn held_from(whole: &[u8], offset: usize, part: Option<&[u8]>) -> Option<Place>
    ensures { MayBeginAt whole.now offset (option_map (λ x. x.now) part.entry)
        → MayStand whole.now result (option_map (λ x. x.now) part.entry) }
{
    match part {
        Some(bytes) => Some(Place {
            offset,
            length: bytes.len(),
        }),
        None => None,
    }
}

/// A place found in the bytes at `outer` of `whole`, as a place in `whole`.
#[tactic(auto, using(crate::proofs::OutwardLemmas::some_found, crate::proofs::OutwardLemmas::some_within))]
#[inline(always)]
pub(crate) fn outward<'a>(
    whole: &[u8],
    outer: Place,
    found: Result<Option<Place>, Err<Error<&'a [u8]>>>,
) -> Result<Option<Place>, Err<Error<&'a [u8]>>>
    ensures finds { FindsTheSame whole.now outer found.entry result }
    ensures within { Lies whole.now outer → IsWithin (bytes_there whole.now outer) found.entry
        → IsWithin whole.now result }
{
    match found? {
        Some(inner) => Ok(Some(place_within(whole, outer, inner))),
        None => Ok(None),
    }
}
