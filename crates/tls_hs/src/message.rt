//! Messages of records.
ghost use Rattle.std.specs.Prelude.{◌≡◌, map, IfOk};
ghost use Rattle.layouts.specs.Answers.{Gives, GivesOrMemory};
ghost use Rattle.tls_hs.specs.Message.{view_message, handshake, change_cipher_spec, alert as alert_layout};
ghost use Rattle.tls_hs.specs.Message.{application_data, heartbeat};

use crate::body_by_type::handshake_body;
use crate::handshake::TlsMessageHandshake;
use crate::message_view::heartbeat as heartbeat_in_place;
use layouts::{ErrorKind, IResult, OutOfMemory, block, number1, number3, parsed, refused, rest};
use std::alloc::Global;
use tls_base::{TlsHandshakeType, TlsHeartbeatMessageType, TlsMessageAlert};

/// Application data (RFC 5246, section 10).
#[derive(Clone, Debug, PartialEq, Drop)]
pub struct TlsMessageApplicationData<'a> {
    /// The data of the record.
    pub blob: &'a [u8],
}

/// A Heartbeat message (RFC 6520, section 4).
#[derive(Clone, Debug, PartialEq, Drop)]
pub struct TlsMessageHeartbeat<'a> {
    /// The message's type: request or response.
    pub heartbeat_type: TlsHeartbeatMessageType,
    /// The length of `payload`, in bytes.
    pub payload_len: u16,
    /// The payload, which a response must repeat.
    pub payload: &'a [u8],
}

/// A message of a record.
#[derive(Debug, PartialEq, Drop)]
pub enum TlsMessage<'a> {
    /// A handshake message (RFC 5246, section 7.4).
    Handshake(TlsMessageHandshake<'a>),
    /// The sender's next records use the new keys (RFC 5246, section 7.1).
    ChangeCipherSpec,
    /// An alert (RFC 5246, section 7.2).
    Alert(TlsMessageAlert),
    /// Application data (RFC 5246, section 10).
    ApplicationData(TlsMessageApplicationData<'a>),
    /// A Heartbeat message (RFC 6520, section 4).
    Heartbeat(TlsMessageHeartbeat<'a>),
}

impl<'a> TlsMessage<'a> {
    /// Returns a copy of the message with copied lists. Slices are shared.
    ///
    /// `OutOfMemory` if a list can't be allocated.
    pub fn try_clone(&self, alloc: Global) -> Result<Self, OutOfMemory>
        ensures { IfOk result (λ m. view_message m ≡ view_message self.now) }
    {
        let message = match self {
            TlsMessage::Handshake(h) => TlsMessage::Handshake(h.try_clone(alloc)?),
            TlsMessage::ChangeCipherSpec => TlsMessage::ChangeCipherSpec,
            TlsMessage::Alert(a) => TlsMessage::Alert(a.clone()?),
            TlsMessage::ApplicationData(d) => TlsMessage::ApplicationData(d.clone()?),
            TlsMessage::Heartbeat(h) => TlsMessage::Heartbeat(h.clone()?),
        };
        Ok(message)
    }
}

/// Reads a handshake message (RFC 5246, section 7.4): 1 byte of type, 3 bytes of length,
/// big-endian, and a body of that many bytes. The body is read within these bytes, and what it
/// leaves of them is dropped.
///
/// - `Incomplete` with the number of missing bytes, if the message is incomplete.
/// - `Error` of kind `Switch` if the message is complete and no body has its type.
/// - The refusal of the body's call, which may be `Incomplete` too.
/// - `OutOfMemory` if a list can't be allocated.
#[tactic(auto, using(layouts::proofs::OneAnswerLemmas::read_allowed), unfolding(crate::specs::Message::handshake))]
pub fn parse_tls_message_handshake(alloc: Global, i: &[u8]) -> IResult<&[u8], TlsMessage>
    ensures { GivesOrMemory view_message handshake i.now result }
{
    let (i, msg_type) = parsed!(TlsHandshakeType::parse(i));
    let (i, n) = parsed!(number3(i));
    let (i, window) = parsed!(block(i, n as usize));
    let (_, message) = parsed!(handshake_body(alloc, window, msg_type, n as usize));
    Ok((i, TlsMessage::Handshake(message)))
}

/// Reads a ChangeCipherSpec (RFC 5246, section 7.1): 1 byte, which is 1.
///
/// `Incomplete` with 1 if there is no byte; `Error` of kind `Verify` if it isn't 1.
#[tactic(auto, using(layouts::proofs::OneAnswerLemmas::read_allowed), unfolding(crate::specs::Message::change_cipher_spec))]
pub fn parse_tls_message_changecipherspec(i: &[u8]) -> IResult<&[u8], TlsMessage>
    ensures { Gives view_message change_cipher_spec i.now result }
{
    let (after, n) = parsed!(number1(i));
    if n != 1 {
        return refused(i, ErrorKind::Verify);
    }
    Ok((after, TlsMessage::ChangeCipherSpec))
}

/// Reads an alert (RFC 5246, section 7.2): 1 byte of severity, then 1 of description.
///
/// `Incomplete` with 1 if either is missing.
#[tactic(auto, using(layouts::proofs::OneAnswerLemmas::read_allowed), unfolding(crate::specs::Message::alert))]
pub fn parse_tls_message_alert(i: &[u8]) -> IResult<&[u8], TlsMessage>
    ensures { Gives view_message alert_layout i.now result }
{
    let (i, alert) = parsed!(TlsMessageAlert::parse(i));
    Ok((i, TlsMessage::Alert(alert)))
}

/// Reads application data (RFC 5246, section 10): all bytes, possibly none. Never refuses.
#[tactic(auto, using(layouts::proofs::OneAnswerLemmas::read_allowed), unfolding(crate::specs::Message::application_data))]
pub fn parse_tls_message_applicationdata(i: &[u8]) -> IResult<&[u8], TlsMessage>
    ensures { Gives view_message application_data i.now result }
{
    let (i, blob) = parsed!(rest(i));
    Ok((
        i,
        TlsMessage::ApplicationData(TlsMessageApplicationData { blob }),
    ))
}

/// Reads a Heartbeat message (RFC 6520, section 4) of a record whose length is `tls_plaintext_len`
/// bytes: 1 byte of type, 2 of payload length, big-endian, and the payload. Returns a list of one
/// message; the padding is the rest.
///
/// - `Incomplete` with the number of missing bytes.
/// - `Error` of kind `Verify` if `tls_plaintext_len` is below 3, once the type and the length are
///   present.
/// - `OutOfMemory` if the list can't be allocated.
pub fn parse_tls_message_heartbeat(
    alloc: Global,
    i: &[u8],
    tls_plaintext_len: u16,
) -> IResult<&[u8], Vec<TlsMessage>>
    ensures { GivesOrMemory (λ v. map view_message v.items) (heartbeat tls_plaintext_len)
        i.now result }
{
    let (i, message) = parsed!(heartbeat_in_place(i, tls_plaintext_len));
    let mut messages = Vec::new(alloc);
    messages.push(TlsMessage::Heartbeat(message))?;
    Ok((i, messages))
}
