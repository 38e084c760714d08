//! Theorems about the layouts alone. Each function's contract is one law; its body is empty.

ghost use Rattle.std.specs.Prelude.{◌≡◌, ◌↔◌, ℕ, Ok, Err};
ghost use Rattle.layouts.specs.Bytes.{Bytes, AreBytes};
ghost use Rattle.layouts.specs.Meaning.{Allows, Broken, Lacks};
ghost use Rattle.layouts.specs.Reading.{reading};
ghost use Rattle.layouts.specs.Stable.{Decides, CountsDown};
ghost use Rattle.layouts.specs.declared.result.ErrorKind.TheVariants.{TooLarge};
ghost use Rattle.raw_records.specs.Framing.{IsTooLarge, NeedsMore};
ghost use Rattle.raw_records.specs.RawRecord as tls;
ghost use Rattle.raw_records.specs.RawDtlsRecord as dtls;

/// The bytes begin with the raw record that is read from them: the 5 bytes of its header, and as
/// many as the length there, which are its fragment. The others are the rest.
pub fn raw_record_stands_in_front()
    ensures { (b r : Bytes) (v : tls.RawRecord) → reading tls.raw_record b ≡ Ok (v, r)
        → tls.IsInFront v b r }
{}

/// A raw record is incomplete exactly if not all of its bytes are present, and the length in its
/// header of 5 bytes isn't too large.
#[tactic(auto, using(crate::proofs::RawRecordLemmas::raw_record_lacks))]
pub fn raw_record_is_incomplete_while_not_whole()
    ensures { (b : Bytes) → AreBytes b → ((n : ℕ) × Allows tls.raw_record b (Err (Lacks n)))
        ↔ NeedsMore 5 b }
{}

/// A raw record is refused as too large exactly if the 5 bytes of a header are present, and the
/// length there is too large.
#[tactic(auto, using(crate::proofs::RawRecordLemmas::raw_record_too_large))]
pub fn raw_record_is_refused_by_its_length()
    ensures { (b : Bytes) → (reading tls.raw_record b ≡ Err (Broken TooLarge)) ↔ IsTooLarge 5 b }
{}

/// Further bytes after the header of a record change neither its value nor a refusal other than for
/// missing bytes; they are appended to the rest. If bytes are missing, and fewer follow, exactly
/// the others are still missing.
#[tactic(auto, using(crate::proofs::FurtherLemmas::header_decides, crate::proofs::FurtherLemmas::header_counts_down))]
pub fn record_header_with_further_bytes()
    ensures decides { (b s : Bytes) → AreBytes b → AreBytes s → Decides tls.record_header b s }
    ensures counts_down { (b s : Bytes) → AreBytes b → AreBytes s
        → CountsDown tls.record_header b s }
{}

/// Further bytes after a record whose fragment isn't parsed, encrypted or not, change neither its
/// value nor a refusal other than for missing bytes; they are appended to the rest. If bytes are
/// missing, and fewer follow, exactly the others are still missing.
#[tactic(auto, using(crate::proofs::FurtherLemmas::raw_record_decides, crate::proofs::FurtherLemmas::raw_record_counts_down))]
pub fn raw_record_with_further_bytes()
    ensures decides { (b s : Bytes) → AreBytes b → AreBytes s → Decides tls.raw_record b s }
    ensures counts_down { (b s : Bytes) → AreBytes b → AreBytes s → CountsDown tls.raw_record b s }
{}

/// Further bytes after the header of a DTLS record change neither its value nor a refusal other
/// than for missing bytes; they are appended to the rest. If bytes are missing, and fewer follow,
/// exactly the others are still missing.
#[tactic(auto, using(crate::proofs::DtlsFurtherLemmas::header_decides, crate::proofs::DtlsFurtherLemmas::header_counts_down))]
pub fn dtls_record_header_with_further_bytes()
    ensures decides { (b s : Bytes) → AreBytes b → AreBytes s → Decides dtls.record_header b s }
    ensures counts_down { (b s : Bytes) → AreBytes b → AreBytes s
        → CountsDown dtls.record_header b s }
{}
