//! Laws about the messages of one direction. Each is the contract of a function with an empty body.
ghost use Rattle.std.specs.Prelude.{◌≡◌, ℕ, ◌≤◌, ◌++◌, List, length};
ghost use Rattle.dtls_stream.specs.Fragments.{Fragment};
ghost use Rattle.dtls_stream.specs.Messages.{Received, Limits, after, events, messages, nothing};
ghost use Rattle.dtls_stream.specs.Sent.{AreOf, AreSmall, IsHandedOut, Sent};

/// For all messages that a peer sends, and all their fragments, cut in any way, in any order, mixed
/// and repeated: the messages delivered are the longest prefix of those that the added fragments
/// cover.
#[tactic(auto, using(crate::proofs::OutLemmas::taken_hand_out))]
pub fn messages_are_handed_out_in_order()
    ensures { (ms : List Sent) (l : Limits) (fs : List Fragment) → AreOf ms fs
        → IsHandedOut ms (after l nothing fs).taken (messages (events l nothing fs)) }
{}

/// If the peer sends at most as many messages as the limit allows at a time, and none that is too
/// large: the messages delivered are the longest prefix of those that all these fragments cover. So
/// each message is delivered as soon as it and all before it are covered.
#[tactic(auto, using(crate::proofs::OutLemmas::all_hand_out))]
pub fn all_fragments_count()
    ensures { (ms : List Sent) (l : Limits) (fs : List Fragment) → length ms ≤ l.ahead
        → AreSmall l ms → AreOf ms fs
        → IsHandedOut ms fs (messages (events l nothing fs)) }
{}
