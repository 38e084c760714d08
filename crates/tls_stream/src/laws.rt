//! Laws about the frames of streams and the events of directions. Each is the contract of a
//! function with an empty body.
ghost use Rattle.std.specs.Prelude.{◌≡◌, ◌↔◌, ◌<◌, ◌++◌, ◌∷◌, [], ℕ, List, Some, None, IsSome, Err};
ghost use Rattle.std.specs.List.{concat};
ghost use Rattle.layouts.specs.Bytes.{Bytes};
ghost use Rattle.layouts.specs.Meaning.{Lacks};
ghost use Rattle.layouts.specs.Reading.{reading};
ghost use Rattle.raw_records.specs.Framing as framing;
ghost use Rattle.raw_records.specs.RawRecord.{raw_record};
ghost use Rattle.tls_hs.specs.Message.{handshake};
ghost use Rattle.tls_stream.specs.Records.{front_of, message_frame, record_frame, with_rest};
ghost use Rattle.tls_stream.specs.Frames.{CuttingsHoldTheSame, CuttingsTakeTheSame, IsTooLarge, IsWhole, NeedsMore, Shape, front, frames, left};
ghost use Rattle.tls_stream.specs.Item.{Event, Item};
ghost use Rattle.tls_stream.specs.Events.{events, fed, fed_all, first, items_with};
ghost use Rattle.tls_stream.specs.Stream.{events_of, joined_items};
ghost use Rattle.tls_stream.specs.declared.event_reader.EventReader.{EventReader};

/// The frames are the first one and then those of the rest. If there is no first one, there are no
/// frames and all bytes are left.
#[tactic(auto, using(crate::proofs::FrameLemmas::first_frame, crate::proofs::FrameLemmas::no_frame))]
pub fn frames_stand_one_by_one()
    ensures first { (f : Shape) (b y r : Bytes) → 0 < f.header → front f b ≡ Some (y, r)
        → (frames f b ≡ y ∷ frames f r) × (left f b ≡ left f r) }
    ensures none { (f : Shape) (b : Bytes) → 0 < f.header → front f b ≡ None
        → (frames f b ≡ []) × (left f b ≡ b) }
{}

/// The frames, joined, followed by what is left, are the bytes.
#[tactic(auto, using(crate::proofs::FrameLemmas::frames_joined))]
pub fn frames_are_cut_off_the_front()
    ensures { (f : Shape) (b : Bytes) → 0 < f.header → concat (frames f b) ++ left f b ≡ b }
{}

/// What is left starts with no frame.
#[tactic(auto, using(crate::proofs::FrameLemmas::left_has_none))]
pub fn no_frame_is_left()
    ensures { (f : Shape) (b : Bytes) → 0 < f.header → front f (left f b) ≡ None }
{}

/// The frames of bytes in two pieces are those of the first piece, and then those of what it leaves
/// followed by the second.
#[tactic(auto, using(crate::proofs::FrameLemmas::more_frames, crate::proofs::FrameLemmas::more_left))]
pub fn frames_with_further_bytes()
    ensures more { (f : Shape) (b s : Bytes) → 0 < f.header
        → frames f (b ++ s) ≡ frames f b ++ frames f (left f b ++ s) }
    ensures rest { (f : Shape) (b s : Bytes) → 0 < f.header
        → left f (b ++ s) ≡ left f (left f b ++ s) }
{}

/// Bytes start with a frame exactly if it is whole and its length isn't too large. More bytes don't
/// change that, nor a length that is too large.
#[tactic(auto, using(crate::proofs::FrontLemmas::some_front, crate::proofs::FrontLemmas::front_stays, crate::proofs::FrontLemmas::large_longer))]
pub fn what_stands_in_front()
    ensures there { (f : Shape) (b : Bytes) → IsSome (front f b)
        ↔ (IsWhole f b × (IsTooLarge f b → ⊥)) }
    ensures stays { (f : Shape) (b s y r : Bytes) → front f b ≡ Some (y, r)
        → front f (b ++ s) ≡ Some (y, r ++ s) }
    ensures too_large { (f : Shape) (b s : Bytes) → IsTooLarge f b → IsTooLarge f (b ++ s) }
{}

/// Two ways to cut the same bytes give the same frames: records of a stream in pieces, or messages
/// in the fragments of records. The buffered rest is the same too, unless the next header's length
/// is too large.
#[tactic(auto, using(crate::proofs::PieceLemmas::same_taken, crate::proofs::PieceLemmas::same_held))]
pub fn two_cuttings_have_the_same_frames()
    ensures taken { (f : Shape) → CuttingsTakeTheSame f }
    ensures held { (f : Shape) → CuttingsHoldTheSame f }
{}

/// A record is a frame exactly if [`raw_records::parse_tls_raw_record`] parses it, and the frame is
/// the bytes that the parser consumes.
#[tactic(auto, using(crate::proofs::RawRecordLemmas::front_is_read, crate::proofs::RawRecordLemmas::large_is, crate::proofs::RawRecordLemmas::whole_is))]
pub fn records_are_what_is_read()
    ensures front { (b : Bytes) → front record_frame b ≡ front_of (reading raw_record b) b }
    ensures too_large { (b : Bytes) → IsTooLarge record_frame b ↔ framing.IsTooLarge 5 b }
    ensures whole { (b : Bytes) → IsWhole record_frame b ↔ framing.IsWhole 5 b }
{}

/// A message parses by itself as it does in its stream: the same message or the same refusal, and
/// the same rest.
#[tactic(auto, using(crate::proofs::MessageLemmas::message_is_read))]
pub fn messages_are_read_alone()
    ensures { (limit : ℕ) (b y r : Bytes) → front (message_frame limit) b ≡ Some (y, r)
        → reading handshake b ≡ with_rest r (reading handshake y) }
{}

/// If a message isn't whole, [`tls_hs::parse_tls_message_handshake`] returns `Incomplete`.
pub fn messages_that_are_not_whole_are_incomplete()
    ensures { (limit : ℕ) (b : Bytes) → (IsWhole (message_frame limit) b → ⊥)
        → (n : ℕ) × (reading handshake b ≡ Err (Lacks n)) }
{}

/// The next event is the first of all events, whatever is fed. The direction after it has the other
/// events.
#[tactic(auto, using(crate::proofs::DirectionLemmas::first_event))]
pub fn the_event_in_front_is_the_first()
    ensures { (d e : EventReader) (v : Event) (s : Bytes) → first d ≡ Some (v, e)
        → events (fed d s) ≡ v ∷ events (fed e s) }
{}

/// A direction's state depends on the bytes fed, not on how they are cut into pieces.
#[tactic(auto, using(crate::proofs::DirectionLemmas::fed_twice, crate::proofs::DirectionLemmas::fed_joined))]
pub fn pieces_count_as_they_are_joined()
    ensures two { (d : EventReader) (s t : Bytes) → fed (fed d s) t ≡ fed d (s ++ t) }
    ensures all { (d : EventReader) (ps qs : List Bytes) → concat ps ≡ concat qs
        → fed_all d ps ≡ fed_all d qs }
{}

/// Records have the same events if their message fragments, joined between the same other records,
/// are the same. Two streams of such records have the same events too.
#[tactic(auto, using(crate::proofs::EventLemmas::same_joined, crate::proofs::DirectionLemmas::same_streams))]
pub fn fragments_count_as_they_are_joined()
    ensures items { (limit kind : ℕ) (part : Bytes) (is js : List Item)
        → joined_items is ≡ joined_items js
        → events_of limit kind part is ≡ events_of limit kind part js }
    ensures streams { (d : EventReader) (x y : Bytes)
        → joined_items (items_with d x) ≡ joined_items (items_with d y)
        → events (fed d x) ≡ events (fed d y) }
{}
