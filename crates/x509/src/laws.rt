//! Laws about the layouts. Each is the contract of a function with an empty body.

ghost use Rattle.std.specs.Prelude.{◌≡◌, ℕ, Ok};
ghost use Rattle.layouts.specs.Bytes.{Bytes, AreBytes, number_of};
ghost use Rattle.layouts.specs.Reading.{reading};
ghost use Rattle.x509.specs.PublicKey.{bit_length, HasBits};

/// The bit length returned for a modulus is that of the number in its bytes.
#[tactic(auto, using(crate::proofs::BitsLemmas::bits_are_right))]
pub fn bits_are_of_the_number()
    ensures { (b r : Bytes) (k : ℕ) → AreBytes b → reading bit_length b ≡ Ok (k, r)
        → HasBits k (number_of b) }
{}
