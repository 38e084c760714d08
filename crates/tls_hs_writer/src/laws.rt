//! Theorems about encodings alone: which messages read back from their encoding, and which bytes
//! are the encoding of the message that they are read as. Each function's contract is one law; its
//! body is empty.

ghost use Rattle.std.specs.Prelude.{[]};
ghost use Rattle.layouts.specs.Bytes.{Bytes};
ghost use Rattle.layouts.specs.Meaning.{Spells};
ghost use Rattle.tls_hs.specs.Handshake.{Handshake};
ghost use Rattle.tls_hs.specs.HandshakeText.{IsWrittenBack};
ghost use Rattle.tls_hs_writer.specs.HandshakeWriter.{IsReadBack, HasText};
ghost use Rattle.tls_hs.specs.Message.{Handshake as handshake_message, handshake};

/// A handshake message that fits reads back from its encoding as its normal form, whatever bytes
/// follow. A ServerHello does if its version is 0x0300 to 0x0303, one of draft 18 if it is 0x7f12.
#[tactic(auto, using(crate::proofs::HandshakeTextLemmas::handshake_allowed))]
pub fn handshake_is_read_back()
    ensures { (m : Handshake) (r : Bytes) → IsReadBack m r }
{}

/// Bytes that are read as a handshake message with nothing dropped are its encoding, if the writer
/// knows its kind and a hello has extensions.
#[tactic(auto, using(crate::proofs::HandshakeTextLemmas::handshake_written_back))]
pub fn handshake_is_written_back()
    ensures { (b r : Bytes) (m : Handshake) → IsWrittenBack m
        → Spells handshake b (handshake_message m) r [] → HasText m b r }
{}
