//! Positions of parts within the bytes that they were read from.
ghost use Rattle.std.specs.Prelude.{◌≡◌, ◌++◌, length};
ghost use Rattle.layouts.specs.Meaning.{EndsWith};
ghost use Rattle.layouts.specs.Place.{bytes_at};

/// A range within a slice of bytes.
#[derive(Clone, Copy, Debug, PartialEq)]
pub struct Place {
    /// The number of bytes before the range.
    pub offset: usize,
    /// The number of bytes in the range.
    pub length: usize,
}

impl Place {
    /// Returns where `part` is within `whole`, if `whole` ends with `part` and then `rest`: as
    /// after a reader that returned `part` and `rest`.
    #[tactic(auto, using(crate::proofs::PlaceLemmas::place_is))]
    #[inline(always)]
    pub fn before(whole: &[u8], part: &[u8], rest: &[u8]) -> Place
        ensures place { EndsWith whole.now (part.now ++ rest.now)
            → bytes_at whole.now result ≡ part.now }
        ensures size { result.length ≡ length part.now }
    {
        Place {
            offset: whole
                .len()
                .saturating_sub(rest.len())
                .saturating_sub(part.len()),
            length: part.len(),
        }
    }
}
