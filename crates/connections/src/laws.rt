//! Laws of five-tuples, of a stream's numbers, and of dropped packets. Each function's contract is
//! one law.
ghost use Rattle.std.specs.Prelude.{◌≡◌, ◌⊎◌, ◌<◌, ◌^◌, ℕ, List, Option, Some};
ghost use Rattle.std.specs.Cmp.{IsPartialOrder, IsTotalOrder, Agrees};
ghost use Rattle.connections.specs.FiveTuple.{five_tuple_between};
ghost use Rattle.connections.specs.declared.five_tuple.Protocol.{Protocol};
ghost use Rattle.connections.specs.declared.five_tuple.End.{End as AnEnd};
ghost use Rattle.connections.specs.Table.{at, others};
ghost use Rattle.connections.specs.declared.five_tuple.FiveTuple.{FiveTuple};
ghost use Rattle.connections.specs.Connection.{dropping, judgement_of, stream_of, with_waiting, without_pending, ChangesCountsAlone};
ghost use Rattle.connections.specs.declared.connection.Connection.{Connection};
ghost use Rattle.connections.specs.declared.connection.Side.{Side};
ghost use Rattle.connections.specs.declared.receiver.DropReason.{DropReason};
ghost use Rattle.connections.specs.declared.segment.Segment.{Segment};
ghost use Rattle.connections.specs.declared.stream.Stream.{Stream};
ghost use Rattle.connections.specs.declared.stream.Reading.{Reading};
ghost use Rattle.connections.specs.Stream.{begun_at, forgetting, handing_on, passing_urgent, silent_stream, not_skipping, noted, skipping, stopped, HasTaken, IsNumberOf};

use crate::five_tuple::End;

/// The order of a type is total.
fn is_ordered<T: Ord>()
    ensures agrees { Agrees T.partial_cmp T.cmp }
    ensures total { IsTotalOrder T.cmp }
    ensures partial { IsPartialOrder T.eq T.partial_cmp }
{}

/// Both directions of a connection have the same five-tuple.
pub fn both_directions_have_the_same_ends()
    ensures { (n : ℕ) (p : Protocol) (a b : AnEnd)
        → five_tuple_between n p a b ≡ five_tuple_between n p b a }
{
    is_ordered::<End>();
}

/// Packets with the same five-tuple have the same protocol and network, and the same two ends, in
/// this direction or the other.
pub fn no_other_packets_have_these_ends()
    ensures { (m n : ℕ) (p q : Protocol) (a b c d : AnEnd)
        → five_tuple_between m p a b ≡ five_tuple_between n q c d
        → (m ≡ n) × (p ≡ q) × (((a ≡ c) × (b ≡ d)) ⊎ ((a ≡ d) × (b ≡ c))) }
{}

/// Removing a five-tuple from a table leaves the values of all others.
pub fn what_stands_under_other_ends_stays<T>()
    ensures { (e f : FiveTuple) → (e ≡ f → ⊥) → (xs : List (FiveTuple × T))
        → at f (others e xs) ≡ at f xs }
{}

/// A stream's next sequence number is that of the first byte that it holds, at first and after each
/// call.
pub fn the_next_number_is_that_of_what_is_held()
    ensures silent { IsNumberOf silent_stream.next silent_stream.reading }
    ensures begun { (n : ℕ) (t : Stream) → n < 2 ^ 32 → IsNumberOf t.next t.reading
        → IsNumberOf (begun_at (Some n) t).next (begun_at (Some n) t).reading }
    ensures accepted { (s : Segment) (old new : Stream) → HasTaken s old new
        → IsNumberOf old.next old.reading → IsNumberOf new.next new.reading }
    ensures noted { (s : Segment) (t : Stream) → IsNumberOf t.next t.reading
        → IsNumberOf (noted s t).next (noted s t).reading }
    ensures handed_on { (n : ℕ) (t : Stream) → IsNumberOf t.next t.reading
        → IsNumberOf (handing_on n t).next (handing_on n t).reading }
    ensures urgent { (t : Stream) → IsNumberOf t.next t.reading
        → IsNumberOf (passing_urgent t).next (passing_urgent t).reading }
    ensures forgotten { (acknowledged : Option ℕ) (t : Stream) → IsNumberOf t.next t.reading
        → IsNumberOf (forgetting acknowledged t).next (forgetting acknowledged t).reading }
    ensures stopped { (t : Stream) → IsNumberOf t.next t.reading
        → IsNumberOf (stopped t t.reading).next (stopped t t.reading).reading }
    ensures skipped { (t : Stream) → IsNumberOf t.next t.reading
        → IsNumberOf (skipping t t.reading).next (skipping t t.reading).reading }
    ensures not_skipped { (t : Stream) → IsNumberOf t.next t.reading
        → IsNumberOf (not_skipping t t.reading).next (not_skipping t t.reading).reading }
{}

/// Dropped and pending packets change nothing that is read: only counts and the pending segments.
/// So what a receiver does with later segments, and which streams it reads, stays the same.
pub fn dropped_packets_change_nothing_that_is_read<T>()
    ensures judgement { (s : Segment) (old new : Connection T) → ChangesCountsAlone old new
        → judgement_of s new ≡ judgement_of s old }
    ensures streams { (side : Side) (old new : Connection T) → ChangesCountsAlone old new
        → stream_of side new ≡ stream_of side old }
    ensures attachment { (old new : Connection T) → ChangesCountsAlone old new
        → new.attachment ≡ old.attachment }
    ensures many { (old mid new : Connection T) → ChangesCountsAlone old mid
        → ChangesCountsAlone mid new → ChangesCountsAlone old new }
    ensures dropped { (r : DropReason) (s : Segment) (c : Connection T)
        → ChangesCountsAlone c (dropping r s c) }
    ensures waiting { (r : DropReason) (s : Segment) (c : Connection T)
        → ChangesCountsAlone c (with_waiting r s c) }
    ensures acknowledged { (s : Segment) (c : Connection T)
        → ChangesCountsAlone c (without_pending s c) }
{}
