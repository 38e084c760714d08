//! Laws about where TLS begins, however a stream is cut. Each is the contract of a function with an
//! empty body.
ghost use Rattle.std.specs.Prelude.{◌≡◌, ◌++◌, ◌+◌, ◌-◌, Bool, drop, length, Option, Some, None, ℕ, List};
ghost use Rattle.std.specs.Option.{option_map};
ghost use Rattle.tls_detection.specs.Place.{place_behind};

/// A place that was found stays the same when more bytes follow.
#[tactic(auto, using(crate::proofs::PlaceLemmas::place_stands))]
pub fn place_stays()
    ensures { (answers : Bool) (b more : List ℕ) (n : ℕ) → place_behind answers b ≡ Some n
        → place_behind answers (b ++ more) ≡ Some n }
{}

/// If there is no place yet, all but the last 10 bytes can be skipped: a place in the bytes to come
/// lies after them.
#[tactic(auto, using(crate::proofs::PlaceLemmas::place_moves))]
pub fn bytes_are_passed_over()
    ensures { (answers : Bool) (b more : List ℕ) → place_behind answers b ≡ None
        → place_behind answers (b ++ more)
        ≡ option_map (λ n. (length b - 10) + n)
        (place_behind answers (drop (length b - 10) b ++ more)) }
{}
