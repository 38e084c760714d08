//! Theorems about the layout of any structure. Each function's contract is one law; its body is
//! empty.
//!
//! Because of the first two, a new structure needs no proof of its own: on any bytes its layout
//! allows exactly one answer, and reading gives that answer.

ghost use Rattle.std.specs.Prelude.{◌≡◌, ◌<◌, ◌↔◌, ℕ, Ok};
ghost use Rattle.layouts.specs.Bytes.{Bytes, AreBytes};
ghost use Rattle.layouts.specs.Items.{items_in, left_in};
ghost use Rattle.layouts.specs.Layout.{Layout, list};
ghost use Rattle.layouts.specs.Meaning.{Answer, Allows, AllowsOne, EndsWith, Lacks, Refuses, Spells};
ghost use Rattle.layouts.specs.Reading.{reading};
ghost use Rattle.layouts.specs.Stable.{CountsDown, CountsMissing, Decides, IsStable};

/// Any structure: the type of its values, and its layout.
pub trait Structure {
    ghost Value: { Type 0 };

    ghost layout: { Layout Value };
}

/// A layout allows exactly one answer on any bytes.
#[tactic(auto, using(crate::proofs::OneAnswerLemmas::one_answer))]
pub fn one_answer_is_allowed<S: Structure>()
    ensures { (b : Bytes) → AreBytes b → AllowsOne S.layout b }
{}

/// Reading gives the one answer that the layout allows.
#[tactic(auto, using(crate::proofs::OneAnswerLemmas::allowed_is_reading))]
pub fn reading_is_the_answer<S: Structure>()
    ensures { (b : Bytes) → AreBytes b → (x : Answer S.Value) → Allows S.layout b x
        ↔ (x ≡ reading S.layout b) }
{}

/// The rest in an answer is a suffix of the bytes.
#[tactic(auto, using(crate::proofs::EndLemmas::ends))]
pub fn rest_is_an_end<S: Structure>()
    ensures { (b : Bytes) (v : S.Value) (r d : Bytes) → Spells S.layout b v r d → EndsWith b r }
{}

/// If bytes are missing, at least one is.
#[tactic(auto, using(crate::proofs::LackingLemmas::lacks_some))]
pub fn missing_bytes_are_some<S: Structure>()
    ensures { (b : Bytes) (n : ℕ) → Refuses S.layout b (Lacks n) → 0 < n }
{}

/// Further bytes change neither the value nor the broken rule of a stable layout. They are appended
/// to the rest.
#[tactic(auto, using(crate::proofs::StableLemmas::decides))]
pub fn more_bytes_change_no_decision<S: Structure>()
    ensures { IsStable S.layout → (b s : Bytes) → AreBytes b → AreBytes s → Decides S.layout b s }
{}

/// If `n` bytes are missing and fewer are appended, exactly the others are still missing.
#[tactic(auto, using(crate::proofs::StableLemmas::counts_down))]
pub fn more_bytes_are_counted<S: Structure>()
    ensures { CountsMissing S.layout → (b s : Bytes) → AreBytes b → AreBytes s
        → CountsDown S.layout b s }
{}

/// A layout that counts its missing bytes is stable.
#[tactic(auto, using(crate::proofs::StableLemmas::counting_is_stable))]
pub fn counting_is_stable<S: Structure>()
    ensures { CountsMissing S.layout → IsStable S.layout }
{}

/// Walking items in place yields the items of the list, and leaves the same rest.
pub fn walk_is_the_list<S: Structure>()
    ensures { (b : Bytes)
        → reading (list S.layout) b ≡ Ok (items_in S.layout b, left_in S.layout b) }
{}
