//! Theorems about streams and their segments. Each function's contract is one law; its body is
//! empty.
ghost use Rattle.std.specs.Prelude.{ℕ, List};
ghost use Rattle.segments.specs.Cells.{Bytes, Held};
ghost use Rattle.segments.specs.Law.{EndsTheLongestFront, HandsOutTheSame, KeepsWhatIsKnown, MakesItsPlacesKnown, Segment};

/// Two lists of segments of one stream that cover the same positions deliver the same bytes: in any
/// order, with any retransmissions, and however the stream is cut.
#[tactic(auto, using(crate::proofs::LawLemmas::same_covered))]
pub fn two_orders_hand_out_the_same()
    ensures { (stream : Bytes) (first : ℕ) (p q : List Segment) → HandsOutTheSame stream first p q }
{}

/// For a stream of any length, of which some ranges were received: a segment of the stream near the
/// next expected byte makes its own positions known, and nothing else.
#[tactic(auto, using(crate::proofs::LawLemmas::made_among))]
pub fn a_segment_makes_its_places_known()
    ensures { (stream : Bytes) (known : List (ℕ × Bytes)) (h : Held)
        → MakesItsPlacesKnown stream known h }
{}

/// Delivering bytes changes nothing about which bytes are known.
#[tactic(auto, using(crate::proofs::LawLemmas::fewer_among))]
pub fn handing_out_keeps_what_is_known()
    ensures { (stream : Bytes) (known : List (ℕ × Bytes)) (h : Held)
        → KeepsWhatIsKnown stream known h }
{}

/// The delivered bytes, followed by the available ones, are the longest known prefix of the stream.
#[tactic(auto, using(crate::proofs::LawLemmas::front_among))]
pub fn what_is_available_ends_the_longest_front()
    ensures { (stream : Bytes) (known : List (ℕ × Bytes)) (h : Held)
        → EndsTheLongestFront stream known h }
{}
