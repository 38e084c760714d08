//! Laws about the layouts. Each is the contract of a function with an empty body.
ghost use Rattle.std.specs.Prelude.{◌≡◌, ◌+◌, ◌≤◌, ◌↔◌, ◌++◌, length, Ok, Err, IsTrue, IsOk};
ghost use Rattle.layouts.specs.Bytes.{Bytes, AreBytes};
ghost use Rattle.layouts.specs.Meaning.{Broken};
ghost use Rattle.layouts.specs.Reading.{reading};
ghost use Rattle.layouts.specs.Stable.{Decides, CountsDown};
ghost use Rattle.layouts.specs.declared.result.ErrorKind.{ErrorKind};
ghost use Rattle.ssl2_hello.specs.Front.{begins_ssl2_hello_in, HasWholeRecord};
ghost use Rattle.ssl2_hello.specs.ClientHello.{ClientHello, client_hello, hello_length, HasAllowedLengths};

/// A hello parses exactly if the stream begins with one by its first bytes, and its record is
/// whole.
#[tactic(auto, using(crate::proofs::HelloLemmas::hello_read))]
pub fn hello_is_read_where_it_begins()
    ensures { (b : Bytes) → IsOk (reading client_hello b)
        ↔ (IsTrue (begins_ssl2_hello_in b) × HasWholeRecord b) }
{}

/// If a stream begins with a hello, it parses or bytes are missing: no rule is broken.
#[tactic(auto, using(crate::proofs::HelloLemmas::begun_not_refused))]
pub fn what_begins_is_not_refused()
    ensures { (b : Bytes) (k : ErrorKind) → IsTrue (begins_ssl2_hello_in b)
        → reading client_hello b ≡ Err (Broken k) → ⊥ }
{}

/// Fewer than 11 bytes never begin a hello; beyond that, the first 11 decide.
#[tactic(auto, using(crate::proofs::HelloLemmas::begins_long, crate::proofs::HelloLemmas::begins_still))]
pub fn first_11_bytes_decide()
    ensures long { (b : Bytes) → IsTrue (begins_ssl2_hello_in b) → 11 ≤ length b }
    ensures still { (b s : Bytes) → 11 ≤ length b
        → begins_ssl2_hello_in (b ++ s) ≡ begins_ssl2_hello_in b }
{}

/// A hello consumes all bytes of its record. It has at least one CipherSpec, a session ID of at
/// most 32 bytes, and a challenge of 16 to 32.
#[tactic(auto, using(crate::proofs::LengthLemmas::hello_fills, crate::proofs::LengthLemmas::hello_allowed))]
pub fn hello_fills_its_record()
    ensures fills { (b : Bytes) (h : ClientHello) (r : Bytes) → reading client_hello b ≡ Ok (h, r)
        → length b ≡ hello_length h + length r }
    ensures allowed { (b : Bytes) (h : ClientHello) (r : Bytes) → reading client_hello b ≡ Ok (h, r)
        → HasAllowedLengths h }
{}

/// More bytes change neither a value nor a refusal, except for missing bytes, and follow the rest.
/// If bytes are missing, adding some of them reduces the count by as many.
#[tactic(auto, using(crate::proofs::HelloLemmas::hello_decides, crate::proofs::HelloLemmas::hello_counts_down))]
pub fn hello_with_further_bytes()
    ensures decides { (b s : Bytes) → AreBytes b → AreBytes s → Decides client_hello b s }
    ensures counts_down { (b s : Bytes) → AreBytes b → AreBytes s → CountsDown client_hello b s }
{}
