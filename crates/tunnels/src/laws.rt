//! Laws of the definitions alone. Each function's contract is one law; its body is empty.

ghost use Rattle.std.specs.Prelude.{◌≡◌, ℕ};
ghost use Rattle.layouts.specs.Bytes.{Bytes};
ghost use Rattle.capture.specs.Ip.{Address, Datagram};
ghost use Rattle.tunnels.specs.Tunnel.{Header, carried_between};
ghost use Rattle.tunnels.specs.Walk.{IsReadAlone};

/// A datagram found outside all tunnels is the one that [`capture::parse_packet`] returns.
#[tactic(auto, using(crate::proofs::PlainLemmas::plain))]
pub fn what_is_in_no_tunnel_is_read_alone()
    ensures { (link_type : ℕ) (b : Bytes) (d : Datagram) → IsReadAlone link_type b d }
{}

/// A header that a datagram carries from one address to another is the same tunnel in the other
/// direction.
#[tactic(auto, using(crate::proofs::DirectionLemmas::either_way))]
pub fn a_tunnel_is_the_same_in_both_directions()
    ensures { (a b : Address) (h : Header) → carried_between a b h ≡ carried_between b a h }
{}
