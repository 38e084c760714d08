//! The first item of a fragment, which is complete.
ghost use Rattle.std.specs.Prelude.{◌≡◌};
ghost use Rattle.layouts.specs.Answers.{IsRefusal, refusal_of};
ghost use Rattle.layouts.specs.Items.{Returns};
ghost use Rattle.raw_records.specs.First.{as_complete, first_judged as first_judged_of};

use layouts::{Err, Error, ErrorKind, InPlace};

/// Returns the refusal of a part that is complete: `Incomplete` becomes `Complete`, since no
/// further bytes can follow.
#[inline(always)]
pub fn completed<'a>(i: &'a [u8], e: Err<Error<&'a [u8]>>) -> Err<Error<&'a [u8]>>
    ensures { IsRefusal e.entry
        → IsRefusal result × (refusal_of result ≡ as_complete (refusal_of e.entry)) }
{
    match e {
        Err::Incomplete(_) => Err::Error(Error {
            input: i,
            code: ErrorKind::Complete,
        }),
        e => e,
    }
}

/// Checks the first item of `i`, which is complete. Refuses as the item, with `Incomplete` turned
/// into `Error` of kind `Complete`.
#[tactic(auto, using(crate::proofs::FirstLemmas::first_is_read, crate::proofs::FirstLemmas::first_is_refused))]
#[inline(always)]
pub fn first_judged<'a, T: InPlace<'a>>(i: &'a [u8]) -> Result<(), Err<Error<&'a [u8]>>>
    ensures { Returns (λ u. tt) (first_judged_of T.layout i.now) result }
{
    match T::read(i) {
        Ok(_) => Ok(()),
        Err(e) => Err(completed(i, e)),
    }
}
