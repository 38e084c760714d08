//! Theorems about the layouts alone. Each function's contract is one law; its body is empty.

ghost use Rattle.std.specs.Prelude.{◌≡◌, ◌↔◌, ◌<◌, ℕ, length, Ok, Err};
ghost use Rattle.layouts.specs.Bytes.{Bytes, AreBytes};
ghost use Rattle.layouts.specs.Meaning.{Allows, Lacks};
ghost use Rattle.layouts.specs.Reading.{reading, ◌and_then◌};
ghost use Rattle.layouts.specs.Stable.{NeverLacks, Decides, CountsDown};
ghost use Rattle.raw_records.specs.Framing.{NeedsMore};
ghost use Rattle.dtls_records.specs.DtlsRecord as dtls;

/// A DTLS record is a raw record, then its fragment: the messages are those of the fragment alone,
/// and the rest is that of the raw record.
#[tactic(auto, using(crate::proofs::ContentLemmas::dtls_plaintext_is_raw_then_content))]
pub fn dtls_plaintext_is_raw_record_then_content()
    ensures { (b : Bytes)
        → reading dtls.plaintext b ≡ (reading dtls.raw_record b and_then dtls.read_content) }
{}

/// No DTLS fragment is refused for missing bytes: it is complete, so no further bytes could supply
/// them.
#[tactic(auto, using(crate::proofs::FurtherLemmas::content_never_lacks))]
pub fn dtls_record_content_is_never_incomplete()
    ensures { (header : dtls.RecordHeader) → NeverLacks (dtls.record_content header) }
{}

/// Further bytes after a DTLS record with its messages change neither its value nor a refusal other
/// than for missing bytes; they are appended to the rest. If bytes are missing, and fewer follow,
/// exactly the others are still missing.
#[tactic(auto, using(crate::proofs::FurtherLemmas::plaintext_decides, crate::proofs::FurtherLemmas::plaintext_counts_down))]
pub fn dtls_plaintext_with_further_bytes()
    ensures decides { (b s : Bytes) → AreBytes b → AreBytes s → Decides dtls.plaintext b s }
    ensures counts_down { (b s : Bytes) → AreBytes b → AreBytes s → CountsDown dtls.plaintext b s }
{}

/// A DTLS record is incomplete exactly if not all of its bytes are present, and the length in its
/// header of 13 bytes isn't too large.
#[tactic(auto, using(crate::proofs::IncompleteLemmas::dtls_plaintext_lacks))]
pub fn dtls_plaintext_is_incomplete_while_not_whole()
    ensures { (b : Bytes) → AreBytes b → ((n : ℕ) × Allows dtls.plaintext b (Err (Lacks n)))
        ↔ NeedsMore 13 b }
{}

/// A DTLS record that is read consumes bytes, so a list of records ends exactly where none can be
/// read.
#[tactic(auto, using(crate::proofs::IncompleteLemmas::dtls_plaintext_takes))]
pub fn dtls_plaintext_takes_bytes()
    ensures { (b r : Bytes) (p : dtls.Plaintext) → reading dtls.plaintext b ≡ Ok (p, r)
        → length r < length b }
{}
