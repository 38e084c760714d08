//! Laws of a capture's packets. Each function's contract is one law; its body is empty.
ghost use Rattle.std.specs.Prelude.{◌≡◌, ◌++◌};
ghost use Rattle.layouts.specs.Bytes.{Bytes};
ghost use Rattle.packets.specs.Front.{Longer, State, front};
ghost use Rattle.packets.specs.Packets.{followed, packets_from};

/// The packets of bytes are the first item's, and then those of the bytes behind it.
#[tactic(auto, using(crate::proofs::PacketsLemmas::one_step))]
pub fn packets_stand_one_by_one()
    ensures { (s : State) (b : Bytes) → packets_from s b ≡ followed (front s b) b packets_from }
{}

/// The first item of bytes stays the same when more bytes follow.
#[tactic(auto, using(crate::proofs::FrontLemmas::front_longer))]
pub fn front_with_further_bytes()
    ensures { (s : State) (b x : Bytes) → Longer x (front s b) (front s (b ++ x)) }
{}
