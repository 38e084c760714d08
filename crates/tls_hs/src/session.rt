//! Tickets, key exchanges, key updates and next protocol negotiation: their bodies, also as
//! messages.
//!
//! Where a call takes `len`, that is the length of the body in bytes, whatever the length of `i`.
#![tactic(auto, using(layouts::proofs::OneAnswerLemmas::read_allowed), unfolding(crate::specs::Session::new_session_ticket, crate::specs::Session::next_protocol))]

ghost use Rattle.layouts.specs.Answers.{Gives};
ghost use Rattle.tls_hs.specs.Session.{view_new_session_ticket, new_session_ticket as new_session_ticket_layout};
ghost use Rattle.tls_hs.specs.Session.{view_next_protocol, next_protocol};
ghost use Rattle.tls_hs.specs.Handshake.{view_handshake, new_session_ticket_body, server_key_exchange_body, client_key_exchange_body};
ghost use Rattle.tls_hs.specs.Handshake.{key_update_body, next_protocol_body};

use crate::handshake::TlsMessageHandshake;
use layouts::{ErrorKind, IResult, block, counted1, number1, number4, parsed, refused};
use tls_base::ECPoint;

/// The body of a NewSessionTicket up to TLS 1.2 (RFC 5077, section 3.3).
#[derive(Clone, Debug, PartialEq, Drop)]
pub struct TlsNewSessionTicketContent<'a> {
    /// The lifetime of the ticket in seconds; 0 leaves it unspecified.
    pub ticket_lifetime_hint: u32,
    /// All bytes after the hint: the ticket's own 2 bytes of length, then the ticket.
    pub ticket: &'a [u8],
}

/// The body of a ServerKeyExchange (RFC 5246, section 7.4.3).
#[derive(Clone, Debug, PartialEq, Drop)]
pub struct TlsServerKeyExchangeContents<'a> {
    /// The parameters. Their form depends on the cipher suite.
    pub parameters: &'a [u8],
}

/// The body of a ClientKeyExchange (RFC 5246, section 7.4.7). Its form depends on the cipher suite,
/// so the parser returns `Unknown`.
#[derive(Clone, Debug, PartialEq, Drop)]
pub enum TlsClientKeyExchangeContents<'a> {
    /// The client's public value.
    Dh(&'a [u8]),
    /// The client's public point (RFC 8422, section 5.7).
    Ecdh(ECPoint<'a>),
    /// The whole body.
    Unknown(&'a [u8]),
}

/// The body of a NextProtocol (draft-agl-tls-nextprotoneg-04, section 3).
#[derive(Clone, Debug, PartialEq, Drop)]
pub struct TlsNextProtocolContent<'a> {
    /// The protocol's name.
    pub selected_protocol: &'a [u8],
    /// Padding that hides the length of the name.
    pub padding: &'a [u8],
}

/// Whether a KeyUpdate requests one from its receiver (RFC 8446, section 4.6.3).
#[derive(Clone, Copy, PartialEq, Eq)]
pub struct KeyUpdateRequest(pub u8);

impl KeyUpdateRequest {
    /// The receiver may keep its keys.
    pub const NotRequested: KeyUpdateRequest = KeyUpdateRequest(0);

    /// The receiver must update its keys too.
    pub const Requested: KeyUpdateRequest = KeyUpdateRequest(1);
}

/// Reads the body of a NewSessionTicket of `len` bytes (RFC 5077, section 3.3): 4 bytes of hint,
/// big-endian, then `len - 4` bytes.
///
/// `Error` of kind `Verify` if `len` is below 4, else `Incomplete` with the number of missing
/// bytes.
pub(crate) fn new_session_ticket(i: &[u8], len: usize) -> IResult<&[u8], TlsNewSessionTicketContent>
    ensures { Gives view_new_session_ticket (new_session_ticket_layout len) i.now result }
{
    if len < 4 {
        return refused(i, ErrorKind::Verify);
    }
    let (i, ticket_lifetime_hint) = parsed!(number4(i));
    let (i, ticket) = parsed!(block(i, len - 4));
    let content = TlsNewSessionTicketContent {
        ticket_lifetime_hint,
        ticket,
    };
    Ok((i, content))
}

/// Reads the body of a NextProtocol (draft-agl-tls-nextprotoneg-04, section 3): the protocol and
/// the padding, each after 1 byte of length.
///
/// `Incomplete` with the number of missing bytes.
pub fn parse_tls_handshake_next_protocol(i: &[u8]) -> IResult<&[u8], TlsNextProtocolContent>
    ensures { Gives view_next_protocol next_protocol i.now result }
{
    let (i, selected_protocol) = parsed!(counted1(i));
    let (i, padding) = parsed!(counted1(i));
    let content = TlsNextProtocolContent {
        selected_protocol,
        padding,
    };
    Ok((i, content))
}

/// Reads the body of a NewSessionTicket of `len` bytes, in the form up to TLS 1.2 (RFC 5077,
/// section 3.3): 4 bytes of hint, big-endian, then `len - 4` bytes, which begin with the ticket's
/// own 2 bytes of length.
///
/// `Error` of kind `Verify` if `len` is below 4, else `Incomplete` with the number of missing
/// bytes.
#[tactic(auto, using(layouts::proofs::OneAnswerLemmas::read_allowed), unfolding(crate::specs::Handshake::new_session_ticket_body))]
pub fn parse_tls_handshake_msg_newsessionticket(
    i: &[u8],
    len: usize,
) -> IResult<&[u8], TlsMessageHandshake>
    ensures { Gives view_handshake (new_session_ticket_body len) i.now result }
{
    let (i, ticket) = parsed!(new_session_ticket(i, len));
    Ok((i, TlsMessageHandshake::NewSessionTicket(ticket)))
}

/// Reads the body of a ServerKeyExchange (RFC 5246, section 7.4.3): `len` bytes.
///
/// `Incomplete` with the number of missing bytes.
#[tactic(auto, using(layouts::proofs::OneAnswerLemmas::read_allowed), unfolding(crate::specs::Handshake::server_key_exchange_body))]
pub fn parse_tls_handshake_msg_serverkeyexchange(
    i: &[u8],
    len: usize,
) -> IResult<&[u8], TlsMessageHandshake>
    ensures { Gives view_handshake (server_key_exchange_body len) i.now result }
{
    let (i, parameters) = parsed!(block(i, len));
    let content = TlsServerKeyExchangeContents { parameters };
    Ok((i, TlsMessageHandshake::ServerKeyExchange(content)))
}

/// Reads the body of a ClientKeyExchange (RFC 5246, section 7.4.7): `len` bytes, as `Unknown`,
/// since they don't reveal their form.
///
/// `Incomplete` with the number of missing bytes.
#[tactic(auto, using(layouts::proofs::OneAnswerLemmas::read_allowed), unfolding(crate::specs::Handshake::client_key_exchange_body))]
pub fn parse_tls_handshake_msg_clientkeyexchange(
    i: &[u8],
    len: usize,
) -> IResult<&[u8], TlsMessageHandshake>
    ensures { Gives view_handshake (client_key_exchange_body len) i.now result }
{
    let (i, bytes) = parsed!(block(i, len));
    let content = TlsClientKeyExchangeContents::Unknown(bytes);
    Ok((i, TlsMessageHandshake::ClientKeyExchange(content)))
}

/// Reads the body of a KeyUpdate (RFC 8446, section 4.6.3): 1 byte, whose values
/// [`crate::KeyUpdateRequest`] names.
///
/// `Incomplete` with 1 if there is no byte.
#[tactic(auto, using(layouts::proofs::OneAnswerLemmas::read_allowed), unfolding(crate::specs::Handshake::key_update_body))]
pub fn parse_tls_handshake_msg_key_update(i: &[u8]) -> IResult<&[u8], TlsMessageHandshake>
    ensures { Gives view_handshake key_update_body i.now result }
{
    let (i, update) = parsed!(number1(i));
    Ok((i, TlsMessageHandshake::KeyUpdate(update)))
}

/// Reads the body of a NextProtocol (draft-agl-tls-nextprotoneg-04, section 3), as
/// [`parse_tls_handshake_next_protocol`].
#[tactic(auto, using(layouts::proofs::OneAnswerLemmas::read_allowed), unfolding(crate::specs::Handshake::next_protocol_body))]
pub fn parse_tls_handshake_msg_next_protocol(i: &[u8]) -> IResult<&[u8], TlsMessageHandshake>
    ensures { Gives view_handshake next_protocol_body i.now result }
{
    let (i, protocol) = parsed!(parse_tls_handshake_next_protocol(i));
    Ok((i, TlsMessageHandshake::NextProtocol(protocol)))
}
