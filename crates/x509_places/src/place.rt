//! The places of parts in the bytes of a certificate.
//!
//! An element's content is parsed separately, so its end isn't the end of the certificate: `behind`
//! is how many bytes of `whole` follow it.

ghost use Rattle.std.specs.Prelude.{◌≡◌, ◌++◌, ◌-◌, length, take};
ghost use Rattle.layouts.specs.Bytes.{Bytes};
ghost use Rattle.layouts.specs.Meaning.{EndsWith};
ghost use Rattle.x509_places.specs.Place.{IsBefore, Stands};

use layouts::Place;

/// The place of `part` in `whole`, where `rest` and then `behind` bytes follow it.
#[inline(always)]
pub(crate) fn place_before(whole: &[u8], behind: usize, part: &[u8], rest: &[u8]) -> Place
    ensures { IsBefore whole.now behind (part.now ++ rest.now) → Stands whole.now result part.now }
{
    let end = whole.len().saturating_sub(behind);
    let after = end.saturating_sub(rest.len());
    let offset = after.saturating_sub(part.len());
    Place {
        offset,
        length: part.len(),
    }
}

/// How many bytes of `whole` follow a part, where `rest` and then `behind` bytes follow it.
#[inline(always)]
pub(crate) fn behind_part(whole: &[u8], behind: usize, rest: &[u8]) -> usize
    ensures { (x : Bytes) → IsBefore whole.now behind (x ++ rest.now)
        → IsBefore whole.now result x }
{
    let end = whole.len().saturating_sub(behind);
    let after = end.saturating_sub(rest.len());
    whole.len().saturating_sub(after)
}

/// The bytes of `i` before `rest`, and their place in `whole`.
#[tactic(auto, using(crate::proofs::PlaceLemmas::taken_before))]
#[inline(always)]
pub(crate) fn taken<'a>(whole: &[u8], behind: usize, i: &'a [u8], rest: &[u8]) -> (&'a [u8], Place)
    ensures is { result.0.now ≡ take (length i.now - length rest.now) i.now }
    ensures stands { IsBefore whole.now behind i.now → EndsWith i.now rest.now
        → Stands whole.now result.1 result.0.now }
{
    let (front, _) = i.split_at(i.len().saturating_sub(rest.len()));
    (front, place_before(whole, behind, front, rest))
}
