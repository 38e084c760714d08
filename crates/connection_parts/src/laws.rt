//! A law of parts. The function's contract is the law; its body is empty.
ghost use Rattle.std.specs.Prelude.{◌≡◌};
ghost use Rattle.connection_parts.specs.Part.{falls_to};
ghost use Rattle.connection_parts.specs.declared.part.Part.{Part};
ghost use Rattle.connections.specs.declared.five_tuple.End.{End};
ghost use Rattle.connections.specs.declared.five_tuple.Protocol.{Protocol};

/// Both directions of a connection fall to the same part.
#[tactic(auto, using(crate::proofs::HashLemmas::both_directions))]
pub fn both_directions_fall_to_one_part()
    ensures { (p : Protocol) (a b : End) (part : Part) → falls_to p a b part ≡ falls_to p b a part }
{}
