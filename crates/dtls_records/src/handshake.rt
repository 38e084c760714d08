//! Handshake messages of DTLS, and their fragments.
ghost use Rattle.layouts.specs.Answers.{Gives, GivesOrMemory};
ghost use Rattle.dtls_records.specs.DtlsHandshake.{view_body, whole_body as whole_body_layout, body as body_layout};
ghost use Rattle.dtls_records.specs.DtlsHandshake.{listless_body as listless_body_layout};
ghost use Rattle.dtls_records.specs.DtlsHandshake.{view_handshake, handshake as handshake_layout};

use crate::handshake_view::DTLSRawHandshake;
use crate::hello::{DTLSClientHello, DTLSHelloVerifyRequest, client_hello, hello_verify_request};
use layouts::{ErrorKind, IResult, InPlace, block, parsed, refused, rest};
use std::alloc::Global;
use tls_base::TlsHandshakeType;
use tls_hs::parts::{certificate, server_hello_any};
use tls_hs::{
    TlsCertificateContents, TlsCertificateRequestContents, TlsCertificateStatusContents,
    TlsClientKeyExchangeContents, TlsHelloRetryRequestContents, TlsNewSessionTicketContent,
    TlsNextProtocolContent, TlsServerHelloContents, TlsServerKeyExchangeContents,
};

/// A handshake message of DTLS (RFC 6347, section 4.2.2), or a fragment of one.
#[derive(Debug, PartialEq, Drop)]
pub struct DTLSMessageHandshake<'a> {
    /// The type of the message.
    pub msg_type: TlsHandshakeType,
    /// The length of the whole body, in bytes.
    pub length: u32,
    /// The message's number among those of its sender.
    pub message_seq: u16,
    /// The offset of the fragment within the whole body, in bytes.
    pub fragment_offset: u32,
    /// The length of the fragment, in bytes. It isn't compared with `length`: if it is greater, and
    /// the offset is 0, the body is read as a whole one, within the fragment's bytes.
    pub fragment_length: u32,
    /// The body, or a fragment of it.
    pub body: DTLSMessageHandshakeBody<'a>,
}

/// The body of a handshake message of DTLS, or a fragment of it.
///
/// [`crate::parse_dtls_message_handshake`] returns `ClientHello`, `HelloVerifyRequest`,
/// `ServerHello`, `Certificate`, `ServerDone`, `ClientKeyExchange` and `Fragment`.
#[derive(Debug, PartialEq, Drop)]
pub enum DTLSMessageHandshakeBody<'a> {
    /// The server requests a ClientHello (RFC 5246, section 7.4.1.1). No call returns it.
    HelloRequest,
    /// The client's offer (RFC 6347, section 4.2.1).
    ClientHello(DTLSClientHello<'a>),
    /// The server requests a ClientHello with its cookie (RFC 6347, section 4.2.1).
    HelloVerifyRequest(DTLSHelloVerifyRequest<'a>),
    /// The server's choice (RFC 5246, section 7.4.1.3).
    ServerHello(TlsServerHelloContents<'a>),
    /// A ticket that resumes the session (RFC 5077, section 3.3). No call returns it.
    NewSessionTicket(TlsNewSessionTicketContent<'a>),
    /// The server requests another ClientHello (drafts of TLS 1.3). No call returns it.
    HelloRetryRequest(TlsHelloRetryRequestContents<'a>),
    /// The sender's certificates (RFC 5246, section 7.4.2).
    Certificate(TlsCertificateContents<'a>),
    /// The server's part of the key exchange (RFC 5246, section 7.4.3). No call returns it.
    ServerKeyExchange(TlsServerKeyExchangeContents<'a>),
    /// The server requests the client's certificate (RFC 5246, section 7.4.4). No call returns it.
    CertificateRequest(TlsCertificateRequestContents<'a>),
    /// The end of the server's first messages, with its body, which should be empty (RFC 5246,
    /// section 7.4.5).
    ServerDone(&'a [u8]),
    /// A signature over the handshake (RFC 5246, section 7.4.8). No call returns it.
    CertificateVerify(&'a [u8]),
    /// The client's part of the key exchange (RFC 5246, section 7.4.7).
    ClientKeyExchange(TlsClientKeyExchangeContents<'a>),
    /// The end of a handshake, with a MAC over it (RFC 5246, section 7.4.9). No call returns it.
    Finished(&'a [u8]),
    /// The status of the server's certificate (RFC 6066, section 8). No call returns it.
    CertificateStatus(TlsCertificateStatusContents<'a>),
    /// The protocol that the client chose (a draft, Next Protocol Negotiation). No call returns it.
    NextProtocol(TlsNextProtocolContent<'a>),
    /// A fragment of a body of any type.
    Fragment(&'a [u8]),
}

/// Reads a body without lists, of type `msg_type` and `length` bytes, from the start of `i`.
///
/// `Error` of kind `Switch` if no such body has this type, else the refusal of the body.
#[tactic(auto, using(layouts::proofs::OneAnswerLemmas::read_allowed), unfolding(crate::specs::DtlsHandshake::listless_body, crate::specs::DtlsHandshake::server_hello_body, crate::specs::DtlsHandshake::hello_verify_request_body, crate::specs::DtlsHandshake::server_done_body, crate::specs::DtlsHandshake::client_key_exchange_body))]
#[inline(always)]
pub(crate) fn listless_body(
    i: &[u8],
    msg_type: TlsHandshakeType,
    length: usize,
) -> IResult<&[u8], DTLSMessageHandshakeBody>
    ensures { Gives view_body (listless_body_layout msg_type.0 length) i.now result }
{
    match msg_type {
        TlsHandshakeType::ServerHello => {
            let (i, hello) = parsed!(server_hello_any(i));
            Ok((i, DTLSMessageHandshakeBody::ServerHello(hello)))
        }
        TlsHandshakeType::HelloVerifyRequest => {
            let (i, request) = parsed!(hello_verify_request(i));
            Ok((i, DTLSMessageHandshakeBody::HelloVerifyRequest(request)))
        }
        TlsHandshakeType::ServerDone => {
            let (i, bytes) = parsed!(block(i, length));
            Ok((i, DTLSMessageHandshakeBody::ServerDone(bytes)))
        }
        TlsHandshakeType::ClientKeyExchange => {
            let (i, bytes) = parsed!(block(i, length));
            let content = TlsClientKeyExchangeContents::Unknown(bytes);
            Ok((i, DTLSMessageHandshakeBody::ClientKeyExchange(content)))
        }
        _ => refused(i, ErrorKind::Switch),
    }
}

/// Reads a whole body of type `msg_type` and `length` bytes from the start of `i`.
///
/// `Error` of kind `Switch` if no body has this type, else the refusal of the body.
#[tactic(auto, using(layouts::proofs::OneAnswerLemmas::read_allowed), unfolding(crate::specs::DtlsHandshake::whole_body, crate::specs::DtlsHandshake::client_hello_body, crate::specs::DtlsHandshake::certificate_body))]
#[inline(always)]
fn whole_body(
    alloc: Global,
    i: &[u8],
    msg_type: TlsHandshakeType,
    length: usize,
) -> IResult<&[u8], DTLSMessageHandshakeBody>
    ensures { GivesOrMemory view_body (whole_body_layout msg_type.0 length) i.now result }
{
    match msg_type {
        TlsHandshakeType::ClientHello => {
            let (i, hello) = parsed!(client_hello(alloc, i));
            Ok((i, DTLSMessageHandshakeBody::ClientHello(hello)))
        }
        TlsHandshakeType::Certificate => {
            let (i, certificate) = parsed!(certificate(alloc, i));
            Ok((i, DTLSMessageHandshakeBody::Certificate(certificate)))
        }
        _ => listless_body(i, msg_type, length),
    }
}

/// Reads a body of type `msg_type` and `length` bytes: as [`whole_body`], or all of `i` as a
/// fragment if `is_fragment`.
#[tactic(auto, using(layouts::proofs::OneAnswerLemmas::read_allowed), unfolding(crate::specs::DtlsHandshake::body))]
#[inline(always)]
fn body(
    alloc: Global,
    i: &[u8],
    msg_type: TlsHandshakeType,
    length: usize,
    is_fragment: bool,
) -> IResult<&[u8], DTLSMessageHandshakeBody>
    ensures { GivesOrMemory view_body (body_layout msg_type.0 length is_fragment) i.now result }
{
    if is_fragment {
        let (i, bytes) = parsed!(rest(i));
        return Ok((i, DTLSMessageHandshakeBody::Fragment(bytes)));
    }
    whole_body(alloc, i, msg_type, length)
}

/// Reads a handshake message, as [`crate::parse_dtls_message_handshake`].
#[tactic(auto, using(layouts::proofs::OneAnswerLemmas::read_allowed, crate::proofs::DtlsInPlaceLemmas::handshake_is_raw_then_body))]
pub(crate) fn handshake(alloc: Global, i: &[u8]) -> IResult<&[u8], DTLSMessageHandshake>
    ensures { GivesOrMemory view_handshake handshake_layout i.now result }
{
    let (i, raw) = parsed!(DTLSRawHandshake::read(i));
    let length = raw.length as usize;
    let (_, body) = parsed!(body(alloc, raw.body, raw.msg_type, length, raw.is_fragment()));
    let message = DTLSMessageHandshake {
        msg_type: raw.msg_type,
        length: raw.length,
        message_seq: raw.message_seq,
        fragment_offset: raw.fragment_offset,
        fragment_length: raw.fragment_length,
        body,
    };
    Ok((i, message))
}
