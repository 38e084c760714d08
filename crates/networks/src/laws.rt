//! A law of the definitions alone. The function's contract is the law; its body is empty.
ghost use Rattle.std.specs.Prelude.{◌≡◌, List, Contains};
ghost use Rattle.networks.specs.Networks.{IsSame, Numbered, none_held, numbered};
ghost use Rattle.networks.specs.declared.networks.Network.{Network};

/// Two packets of a capture have the same number only if they came in the same network.
pub fn packets_of_one_number_are_of_one_network()
    ensures { (ns : List Network) (a b : Numbered) → Contains (numbered none_held ns) a
        → Contains (numbered none_held ns) b → a.1 ≡ b.1 → IsSame a.0 b.0 }
{}
