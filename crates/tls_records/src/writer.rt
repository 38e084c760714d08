//! Writes messages and records, to a vector or to a `Write`.
//!
//! Each call first checks all that it is given without allocating, then builds the encoding in one
//! allocation. A call with a `Write` hands the encoding to it and doesn't flush; no clause can
//! state that there is no flush after the last write.
//!
//! - `NotYetImplemented` if the writer doesn't know the kind of a message, and `BadLength` if a
//!   length doesn't fit its field. The `Write` isn't called. Of several messages the first that is
//!   refused decides.
//! - `OutOfMemory` if the encoding can't be allocated. The `Write` isn't called.
//! - `Io` if a write fails (also if it is interrupted), or takes no bytes. How much was written is
//!   unknown.
ghost use Rattle.std.specs.Prelude.{◌≡◌, IfOk, ⊤};
ghost use Rattle.std.specs.Result.{result_map_both};
ghost use Rattle.layouts.specs.Bytes.{Bytes};
ghost use Rattle.layouts.specs.Writer.{Builds, Writes};
ghost use Rattle.layouts.specs.declared.writer.GenError.{GenError as Cause};
ghost use Rattle.tls_hs.specs.Handshake.{view_handshake};
ghost use Rattle.tls_hs.specs.HandshakeText.{handshake_text, FitsHandshake, InRangeHandshake, refusal_of_handshake};
ghost use Rattle.tls_hs_writer.specs.HandshakeWriter.{BuildsHandshake};
ghost use Rattle.tls_hs.specs.Message.{view_message, ChangeCipherSpec};
ghost use Rattle.tls_records.specs.Record.{view_plaintext};
ghost use Rattle.tls_records.specs.RecordText.{message_text, FitsMessage, refusal_of_message, plaintext_text};
ghost use Rattle.tls_records.specs.RecordText.{FitsPlaintext, RefusesPlaintext, InRangePlaintext};
ghost use Rattle.tls_records.specs.RecordWriter.{BuildsMessage, WritesMessage, BuildsPlaintext, WritesPlaintext};
ghost use Rattle.tls_records.specs.RecordWriter.{HandshakeReadsBack, PlaintextReadsBack};

use crate::plaintext::TlsPlaintext;
use crate::writer::builder::{append_message, append_messages};
use crate::writer::judge::{fragment_len, message_len};
use layouts::writer::builder::{append1, append2};
use layouts::{GenError, write_whole};
use std::alloc::Global;
use std::io::Write;
use tls_hs::{TlsMessage, TlsMessageHandshake};
use tls_hs_writer::writer::builder::append_handshake;
use tls_hs_writer::writer::judge::handshake_len;

mod builder;
mod judge;

/// A value that can be written to a vector.
pub trait Serialize {
    /// The value can be written.
    ghost Fits: { Self → Type 0 };

    /// Why the value can't be written.
    ghost Refused: { Self → Cause → Type 0 };

    /// The encoding of the value.
    ghost text: { Self → Bytes };

    /// Returns the encoding of the value. Never refuses with `Io`.
    fn serialize(&self, alloc: Global) -> Result<Vec<u8>, GenError>
        ensures { Builds (Fits self.now) (Refused self.now) (text self.now)
            (result_map_both (λ v. v.items) (λ e. e) result) };
}

/// Returns the encoding of a handshake message.
fn handshake_bytes(alloc: Global, m: &TlsMessageHandshake) -> Result<Vec<u8>, GenError>
    ensures builds { BuildsHandshake (view_handshake m.now)
        (result_map_both (λ v. v.items) (λ e. e) result) }
    ensures range { IfOk result (λ _. InRangeHandshake (view_handshake m.now)) }
{
    let n = handshake_len(m)?;
    let mut out = Vec::with_capacity(alloc, n)?;
    append_handshake(&mut out, m);
    Ok(out)
}

/// Returns the encoding of a message.
fn message_bytes(alloc: Global, m: &TlsMessage) -> Result<Vec<u8>, GenError>
    ensures { BuildsMessage (view_message m.now) (result_map_both (λ v. v.items) (λ e. e) result) }
{
    let n = message_len(m)?;
    let mut out = Vec::with_capacity(alloc, n)?;
    append_message(&mut out, m);
    Ok(out)
}

/// Returns the encoding of a record.
#[tactic(auto, unfolding(crate::specs::RecordText::plaintext_text))]
fn plaintext_bytes(alloc: Global, p: &TlsPlaintext) -> Result<Vec<u8>, GenError>
    ensures builds { BuildsPlaintext (view_plaintext p.now)
        (result_map_both (λ v. v.items) (λ e. e) result) }
    ensures range { IfOk result (λ _. InRangePlaintext (view_plaintext p.now)) }
{
    let n = fragment_len(&p.msg)?;
    let mut out = Vec::with_capacity(alloc, 5 + n)?;
    append1(&mut out, p.hdr.record_type.0);
    append2(&mut out, p.hdr.version.0);
    append2(&mut out, n as u16);
    append_messages(&mut out, &p.msg);
    Ok(out)
}

impl<'a> Serialize for TlsMessageHandshake<'a> {
    ghost Fits = { λ m. FitsHandshake (view_handshake m) };

    ghost Refused = { λ m e. e ≡ refusal_of_handshake (view_handshake m) };

    ghost text = { λ m. handshake_text (view_handshake m) };

    /// Returns the encoding of the whole message.
    ///
    /// - `NotYetImplemented` if it is of another kind than HelloRequest, ClientHello, ServerHello,
    ///   ServerHelloV13Draft18, ClientKeyExchange or Finished.
    /// - `BadLength` if a length doesn't fit its field; the writer of each kind lists which.
    /// - `OutOfMemory` if the encoding can't be allocated.
    ///
    /// [`tls_hs::parse_tls_message_handshake`] reads it back, if a ServerHello has a version from
    /// 0x0300 to 0x0303, and that of draft 18 of TLS 1.3 has 0x7f12.
    fn serialize(&self, alloc: Global) -> Result<Vec<u8>, GenError>
        ensures text { BuildsHandshake (view_handshake self.now)
            (result_map_both (λ v. v.items) (λ e. e) result) }
        ensures read_back { IfOk result
            (λ v. HandshakeReadsBack (view_handshake self.now) v.items) }
    {
        handshake_bytes(alloc, self)
    }
}

impl<'a> Serialize for TlsMessage<'a> {
    ghost Fits = { λ m. FitsMessage (view_message m) };

    ghost Refused = { λ m e. e ≡ refusal_of_message (view_message m) };

    ghost text = { λ m. message_text (view_message m) };

    /// Returns the bytes that [`gen_tls_message`] writes, with its refusals.
    fn serialize(&self, alloc: Global) -> Result<Vec<u8>, GenError> {
        message_bytes(alloc, self)
    }
}

impl<'a> Serialize for TlsPlaintext<'a> {
    ghost Fits = { λ p. FitsPlaintext (view_plaintext p) };

    ghost Refused = { λ p e. RefusesPlaintext (view_plaintext p) e };

    ghost text = { λ p. plaintext_text (view_plaintext p) };

    /// Returns the bytes that [`gen_tls_plaintext`] writes, with its refusals. They read back as
    /// described there.
    #[tactic(auto, using(crate::proofs::RecordTextLemmas::built_reads))]
    fn serialize(&self, alloc: Global) -> Result<Vec<u8>, GenError>
        ensures builds { BuildsPlaintext (view_plaintext self.now)
            (result_map_both (λ v. v.items) (λ e. e) result) }
        ensures read_back { IfOk result
            (λ v. PlaintextReadsBack (view_plaintext self.now) v.items) }
    {
        plaintext_bytes(alloc, self)
    }
}

/// Writes a ChangeCipherSpec (RFC 5246, section 7.1): the byte 1. Never refuses with
/// `NotYetImplemented` or `BadLength`.
pub fn gen_tls_changecipherspec<W: Write>(alloc: Global, w: &mut W) -> Result<(), GenError>
    ensures { Writes ⊤ (λ _. ⊥) (message_text ChangeCipherSpec) W.contents w.old w.new result }
{
    let text = message_bytes(alloc, &TlsMessage::ChangeCipherSpec)?;
    write_whole(w, &text)
}

/// Writes a message of a record: a handshake message (RFC 5246, section 7.4), or a ChangeCipherSpec
/// (section 7.1).
///
/// - `NotYetImplemented` if it is another message, or a handshake message of another kind than
///   HelloRequest, ClientHello, ServerHello, ServerHelloV13Draft18, ClientKeyExchange or Finished.
/// - `BadLength` if a length doesn't fit its field; the writer of each kind lists which.
pub fn gen_tls_message<W: Write>(alloc: Global, m: &TlsMessage, w: &mut W) -> Result<(), GenError>
    ensures { WritesMessage (view_message m.now) W.contents w.old w.new result }
{
    let text = message_bytes(alloc, m)?;
    write_whole(w, &text)
}

/// Writes a record (RFC 5246, section 6.2.1): its type, its version, the length of its fragment in
/// 2 bytes, big-endian, and its messages. `hdr.len` is ignored.
///
/// Returns the refusal of the first message that can't be written, as [`gen_tls_message`];
/// `BadLength` if all can, but are longer than 65535 bytes together.
///
/// [`crate::parse_tls_plaintext`] reads the record back if all of this holds:
///
/// - it has at least one message, and its messages have the record's type;
/// - each ServerHello has a version from 0x0300 to 0x0303, that of draft 18 of TLS 1.3 has 0x7f12;
/// - its fragment has at most [`crate::MAX_RECORD_LEN`] bytes.
#[tactic(auto, using(crate::proofs::RecordTextLemmas::written_reads))]
pub fn gen_tls_plaintext<W: Write>(
    alloc: Global,
    p: &TlsPlaintext,
    w: &mut W,
) -> Result<(), GenError>
    ensures writes { WritesPlaintext (view_plaintext p.now) W.contents w.old w.new result }
    ensures read_back { IfOk result
        (λ _. PlaintextReadsBack (view_plaintext p.now) (plaintext_text (view_plaintext p.now))) }
{
    let text = plaintext_bytes(alloc, p)?;
    write_whole(w, &text)
}
