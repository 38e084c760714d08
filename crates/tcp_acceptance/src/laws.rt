//! Theorems about waiting segments. Each function's contract is one law; its body is empty.
ghost use Rattle.std.specs.Prelude.{ℕ, Bool, List};
ghost use Rattle.tcp_acceptance.specs.Doubtful.{Doubtful};
ghost use Rattle.tcp_acceptance.specs.Law.{RefutesWhereDifferent, TakesNothing, TakesTheSame, WaitAsBefore};
ghost use Rattle.tcp_acceptance.specs.declared.known.Known.{Known};
ghost use Rattle.tcp_acceptance.specs.declared.segment.Arrived.{Arrived};
ghost use Rattle.tcp_acceptance.specs.declared.segment.Side.{Side};

/// Certain bytes refute a segment where one of its bytes differs from that at the same sequence
/// number, and nowhere else.
pub fn a_segment_is_refuted_where_a_byte_differs()
    ensures { (first : ℕ) (bytes : List ℕ) (other : ℕ) (others : List ℕ)
        → RefutesWhereDifferent first bytes other others }
{}

/// An acknowledgement of what came for certain, without a gap, takes nothing, whatever waits.
pub fn what_came_for_certain_takes_nothing()
    ensures { (sender : Side) (ack : ℕ) (known : Known) (ks : List Doubtful)
        → TakesNothing sender ack known ks }
{}

/// What an acknowledgement takes is the same whatever else waits.
pub fn others_do_not_change_what_is_taken()
    ensures { (sender : Side) (ack : ℕ) (known : Known) (test : Doubtful → Bool)
        (ks : List Doubtful) → TakesTheSame sender ack known test ks }
{}

/// A full room decides nothing: those that stay wait as they did, in their order.
pub fn a_full_room_decides_nothing()
    ensures { (known : Known) (arrived : Arrived) (ks : List Doubtful)
        → WaitAsBefore known arrived ks }
{}
