//! The C interface, which Python uses too: each exported function is one call of the library, and
//! restates the library's clauses in terms of C structs.
//!
//! Bytes come as a pointer and a count, a parsed value goes into a struct of the caller's, and the
//! call returns a status. Places and offsets count from the beginning of the caller's bytes. A
//! cursor is an offset that the caller keeps: pass the field `next` as `offset` to parse what
//! follows. Nothing here allocates, and nothing is kept between calls.
//!
//! Each function's promise is its contract. The `Shows..` definitions of specs/, such as
//! `specs/Record.antt` and `specs/Hello.antt`, say what the fields of a struct mean, and
//! `specs/Status.antt` what a status means.
#![tactic(auto, using(layouts::proofs::OneAnswerLemmas::read_allowed))]

mod certificate;
mod client_hello;
mod content;
mod conversation;
mod course;
mod detection;
mod dtls;
mod fingerprint;
mod flow;
mod found;
mod layout;
mod number;
mod outcome;
mod part;
mod place;
mod record;
mod server_hello;
mod side;
mod status;
mod stream;
