//! Theorems about the layouts alone. Each function's contract is one law; its body is empty.

ghost use Rattle.std.specs.Prelude.{◌≡◌, ◌↔◌, ◌<◌, ℕ, length, Ok, Err};
ghost use Rattle.layouts.specs.Bytes.{Bytes, AreBytes};
ghost use Rattle.layouts.specs.Meaning.{Allows, Lacks};
ghost use Rattle.layouts.specs.Reading.{reading, ◌and_then◌};
ghost use Rattle.layouts.specs.Stable.{NeverLacks, Decides, CountsDown};
ghost use Rattle.raw_records.specs.Framing.{NeedsMore};
ghost use Rattle.tls_records.specs.Record as tls;

pub use dtls_records::laws::{
    dtls_plaintext_is_incomplete_while_not_whole, dtls_plaintext_is_raw_record_then_content,
    dtls_plaintext_takes_bytes, dtls_plaintext_with_further_bytes,
    dtls_record_content_is_never_incomplete,
};
pub use raw_records::laws::{
    dtls_record_header_with_further_bytes, raw_record_is_incomplete_while_not_whole,
    raw_record_is_refused_by_its_length, raw_record_stands_in_front, raw_record_with_further_bytes,
    record_header_with_further_bytes,
};

/// A record is a raw record, then its fragment: the messages are those of the fragment alone, and
/// the rest is that of the raw record.
#[tactic(auto, using(crate::proofs::ContentLemmas::plaintext_is_raw_then_content))]
pub fn plaintext_is_raw_record_then_content()
    ensures { (b : Bytes)
        → reading tls.plaintext b ≡ (reading tls.raw_record b and_then tls.read_content) }
{}

/// No fragment is refused for missing bytes: it is complete, so no further bytes could supply them.
#[tactic(auto, using(crate::proofs::FurtherLemmas::content_never_lacks))]
pub fn record_content_is_never_incomplete()
    ensures { (header : tls.RecordHeader) → NeverLacks (tls.record_content header) }
{}

/// Further bytes after a record with its messages change neither its value nor a refusal other than
/// for missing bytes; they are appended to the rest. If bytes are missing, and fewer follow,
/// exactly the others are still missing.
#[tactic(auto, using(crate::proofs::FurtherLemmas::plaintext_decides, crate::proofs::FurtherLemmas::plaintext_counts_down))]
pub fn plaintext_with_further_bytes()
    ensures decides { (b s : Bytes) → AreBytes b → AreBytes s → Decides tls.plaintext b s }
    ensures counts_down { (b s : Bytes) → AreBytes b → AreBytes s → CountsDown tls.plaintext b s }
{}

/// A record is incomplete exactly if not all of its bytes are present, and the length in its header
/// of 5 bytes isn't too large.
#[tactic(auto, using(crate::proofs::IncompleteLemmas::plaintext_lacks))]
pub fn plaintext_is_incomplete_while_not_whole()
    ensures { (b : Bytes) → AreBytes b → ((n : ℕ) × Allows tls.plaintext b (Err (Lacks n)))
        ↔ NeedsMore 5 b }
{}

/// A record that is read consumes bytes, so a list of records ends exactly where none can be read.
#[tactic(auto, using(crate::proofs::IncompleteLemmas::plaintext_takes))]
pub fn plaintext_takes_bytes()
    ensures { (b r : Bytes) (p : tls.Plaintext) → reading tls.plaintext b ≡ Ok (p, r)
        → length r < length b }
{}
