//! Laws about the layouts. Each is the contract of a function with an empty body.

ghost use Rattle.std.specs.Prelude.{◌≡◌, ◌++◌, ℕ, Ok};
ghost use Rattle.layouts.specs.Bytes.{Bytes, AreBytes};
ghost use Rattle.layouts.specs.Reading.{reading};
ghost use Rattle.der.specs.Element.{Element, der_length, element};
ghost use Rattle.der.specs.Text.{length_text, element_text};

/// A length has one encoding: the bytes that it parses from.
#[tactic(auto, using(crate::proofs::EncodingLemmas::length_is_its_text))]
pub fn length_is_its_text()
    ensures { (b r : Bytes) (n : ℕ) → AreBytes b → reading der_length b ≡ Ok (n, r)
        → b ≡ length_text n ++ r }
{}

/// An element has one encoding: the bytes that it parses from.
#[tactic(auto, using(crate::proofs::EncodingLemmas::element_is_its_text))]
pub fn element_is_its_text()
    ensures { (b r : Bytes) (e : Element) → AreBytes b → reading element b ≡ Ok (e, r)
        → b ≡ element_text e ++ r }
{}

/// Bytes that parse as the same tag, content and rest are the same bytes.
#[tactic(auto, using(crate::proofs::EncodingLemmas::element_has_one_text))]
pub fn element_has_one_text()
    ensures { (b c r : Bytes) (e : Element) → AreBytes b → AreBytes c
        → reading element b ≡ Ok (e, r) → reading element c ≡ Ok (e, r) → b ≡ c }
{}
