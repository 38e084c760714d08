//! Messages of DTLS records.
#![tactic(auto, using(layouts::proofs::OneAnswerLemmas::read_allowed), unfolding(crate::specs::DtlsRecord::handshake, crate::specs::DtlsRecord::change_cipher_spec, crate::specs::DtlsRecord::alert))]

ghost use Rattle.std.specs.Prelude.{◌↔◌, IsTrue};
ghost use Rattle.layouts.specs.Answers.{Gives, GivesOrMemory};
ghost use Rattle.dtls_records.specs.DtlsRecord.{Message, view_message, change_cipher_spec, alert as alert_layout};
ghost use Rattle.dtls_records.specs.DtlsRecord.{handshake as handshake_layout, IsFragment};

use crate::handshake::{DTLSMessageHandshake, DTLSMessageHandshakeBody, handshake};
use layouts::{IResult, parsed};
use std::alloc::Global;
use tls_base::TlsMessageAlert;
use tls_hs::{TlsMessageApplicationData, TlsMessageHeartbeat, parse_tls_message_changecipherspec};

/// A message of a DTLS record.
///
/// The calls of this crate return `Handshake`, `ChangeCipherSpec` and `Alert`.
#[derive(Debug, PartialEq, Drop)]
pub enum DTLSMessage<'a> {
    /// A handshake message, or a fragment of one (RFC 6347, section 4.2.2).
    Handshake(DTLSMessageHandshake<'a>),
    /// The sender's next records use the new keys (RFC 5246, section 7.1).
    ChangeCipherSpec,
    /// An alert (RFC 5246, section 7.2).
    Alert(TlsMessageAlert),
    /// Application data (RFC 5246, section 10). No call returns it.
    ApplicationData(TlsMessageApplicationData<'a>),
    /// A HeartbeatMessage (RFC 6520, section 4). No call returns it.
    Heartbeat(TlsMessageHeartbeat<'a>),
}

impl<'a> DTLSMessage<'a> {
    /// Returns whether this is a fragment of a handshake message, to be reassembled with the
    /// others.
    pub fn is_fragment(&self) -> bool
        ensures { IsTrue result ↔ IsFragment (view_message self.now) }
    {
        match self {
            DTLSMessage::Handshake(h) => matches!(h.body, DTLSMessageHandshakeBody::Fragment(_)),
            _ => false,
        }
    }
}

/// Reads a handshake message of DTLS (RFC 6347, section 4.2.2): 1 byte of type, 3 of length, 2 of
/// message number, 3 of fragment offset and 3 of fragment length, all big-endian, then a body of
/// fragment length bytes. The body is read within these bytes, and what it leaves of them is
/// dropped.
///
/// If the offset is above 0, or the fragment length below the length, the body is a `Fragment`, for
/// any type. A fragment length above the length isn't refused: the body is read as a whole one,
/// within the fragment's bytes.
///
/// - `Incomplete` with the number of missing bytes, if the message is incomplete.
/// - `Error` of kind `Switch` if the body is whole, and its type isn't 1, 2, 3, 11, 14 or 16.
/// - The refusal of the body, which may be `Incomplete` too.
/// - `OutOfMemory` if a list can't be allocated.
#[inline(always)]
pub fn parse_dtls_message_handshake(alloc: Global, i: &[u8]) -> IResult<&[u8], DTLSMessage>
    ensures { GivesOrMemory view_message handshake_layout i.now result }
{
    let (i, message) = parsed!(handshake(alloc, i));
    Ok((i, DTLSMessage::Handshake(message)))
}

/// Reads a ChangeCipherSpec (RFC 5246, section 7.1): 1 byte, which is 1.
///
/// `Incomplete` with 1 if there is no byte; `Error` of kind `Verify` if it isn't 1.
pub fn parse_dtls_message_changecipherspec(i: &[u8]) -> IResult<&[u8], DTLSMessage>
    ensures { Gives view_message change_cipher_spec i.now result }
{
    let (i, _) = parsed!(parse_tls_message_changecipherspec(i));
    Ok((i, DTLSMessage::ChangeCipherSpec))
}

/// Reads an alert (RFC 5246, section 7.2): 1 byte of severity, then 1 of description.
///
/// `Incomplete` with 1 if either is missing.
pub fn parse_dtls_message_alert(i: &[u8]) -> IResult<&[u8], DTLSMessage>
    ensures { Gives view_message alert_layout i.now result }
{
    let (i, alert) = parsed!(TlsMessageAlert::parse(i));
    Ok((i, DTLSMessage::Alert(alert)))
}
