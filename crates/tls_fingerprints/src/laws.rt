//! Laws about the definitions. Each is the contract of a function with an empty body.
ghost use Rattle.std.specs.Prelude.{◌≡◌, ℕ, List};
ghost use Rattle.std.specs.List.Sorted.{IsNonDecreasing, IsPermutation};
ghost use Rattle.tls_ext.specs.Offered.{algorithms_in};
ghost use Rattle.tls_fingerprints.specs.Hellos.{Client, SendSameTypes};
ghost use Rattle.tls_fingerprints.specs.Numbers.{rising};
ghost use Rattle.tls_fingerprints.specs.Ja4.{ja4_suites_of, ja4_types_of};

/// A list that never falls and is a permutation of another is that list in rising order.
pub fn rising_order_is_the_only_one()
    ensures { (ns ms : List ℕ) → IsPermutation ns ms → IsNonDecreasing ms → ms ≡ rising ns }
{}

/// Clients that offer the same cipher suites, in any order, have the same second part of JA4.
pub fn ja4_suites_in_any_order()
    ensures { (g h : Client) → IsPermutation g.suites h.suites → ja4_suites_of g ≡ ja4_suites_of h }
{}

/// Clients that send the same extension types, in any order, and the same signature algorithms, in
/// the same order, have the same third part of JA4.
pub fn ja4_types_in_any_order()
    ensures { (g h : Client) → SendSameTypes g h → algorithms_in g.extensions ≡ algorithms_in
        h.extensions → ja4_types_of g ≡ ja4_types_of h }
{}
