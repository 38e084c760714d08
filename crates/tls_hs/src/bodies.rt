//! Parses the bodies of handshake messages as messages (RFC 5246, section 7.4). The other bodies
//! are in `session`.
//!
//! Where a call takes `len`, that is the length of the body in bytes, whatever the length of `i`.
ghost use Rattle.layouts.specs.Answers.{Gives, GivesOrMemory};
ghost use Rattle.tls_hs.specs.Handshake.{view_handshake, hello_request_body, client_hello_body, server_hello_body, server_hello_of_draft_body};
ghost use Rattle.tls_hs.specs.Handshake.{end_of_early_data_body, hello_retry_request_body, certificate_body, certificate_request_body};
ghost use Rattle.tls_hs.specs.Handshake.{server_done_body, certificate_verify_body, finished_body, certificate_status_body};

use crate::certificate::{certificate, parse_tls_handshake_certificatestatus};
use crate::certificate_request::parse_tls_handshake_certificaterequest;
use crate::client_hello::parse_tls_handshake_client_hello;
use crate::handshake::TlsMessageHandshake;
use crate::server_hello::{
    hello_retry_request, parse_tls_handshake_server_hello, server_hello_draft18,
};
use layouts::{ErrorKind, IResult, block, parsed, refused};
use std::alloc::Global;
use tls_base::TlsVersion;

/// Reads the body of a HelloRequest (RFC 5246, section 7.4.1.1): no bytes. Never refuses.
#[tactic(auto, using(layouts::proofs::OneAnswerLemmas::read_allowed), unfolding(crate::specs::Handshake::hello_request_body))]
pub fn parse_tls_handshake_msg_hello_request(i: &[u8]) -> IResult<&[u8], TlsMessageHandshake>
    ensures { Gives view_handshake hello_request_body i.now result }
{
    Ok((i, TlsMessageHandshake::HelloRequest))
}

/// Reads the body of a ClientHello (RFC 5246, section 7.4.1.2), as
/// [`parse_tls_handshake_client_hello`].
#[tactic(auto, using(layouts::proofs::OneAnswerLemmas::read_allowed), unfolding(crate::specs::Handshake::client_hello_body))]
#[inline(always)]
pub fn parse_tls_handshake_msg_client_hello(
    alloc: Global,
    i: &[u8],
) -> IResult<&[u8], TlsMessageHandshake>
    ensures { GivesOrMemory view_handshake client_hello_body i.now result }
{
    let (i, hello) = parsed!(parse_tls_handshake_client_hello(alloc, i));
    Ok((i, TlsMessageHandshake::ClientHello(hello)))
}

/// Reads the body of a ServerHello. If its version, the first 2 bytes, is 0x7f12, it has the form
/// of draft 18 of TLS 1.3 (draft-ietf-tls-tls13-18, section 4.1.3): 2 bytes of version, 32 of
/// random, 2 of cipher suite, and optional extensions after 2 bytes of length. Else it is read as
/// by [`parse_tls_handshake_server_hello`].
///
/// `Incomplete` with the number of missing bytes, if they are missing before the extensions; else
/// the refusal of that call.
#[tactic(auto, using(layouts::proofs::OneAnswerLemmas::read_allowed), unfolding(crate::specs::Handshake::server_hello_body))]
pub fn parse_tls_handshake_msg_server_hello(i: &[u8]) -> IResult<&[u8], TlsMessageHandshake>
    ensures { Gives view_handshake server_hello_body i.now result }
{
    let (_, version) = parsed!(TlsVersion::parse(i));
    match version {
        TlsVersion::Tls13Draft18 => {
            let (i, hello) = parsed!(server_hello_draft18(i));
            Ok((i, TlsMessageHandshake::ServerHelloV13Draft18(hello)))
        }
        _ => {
            let (i, hello) = parsed!(parse_tls_handshake_server_hello(i));
            Ok((i, TlsMessageHandshake::ServerHello(hello)))
        }
    }
}

/// Reads the body of a ServerHello of drafts 14 to 21 of TLS 1.3. Its version, the first 2 bytes,
/// is 0x7f and the draft's number. Each is read in the form of draft 18 (draft-ietf-tls-tls13-18,
/// section 4.1.3). Later drafts have the form of RFC 8446.
///
/// - `Incomplete` with the number of missing bytes, if they are missing before the extensions.
/// - `Error` of kind `Tag` for any other version, whatever follows it.
#[tactic(auto, using(layouts::proofs::OneAnswerLemmas::read_allowed), unfolding(crate::specs::Handshake::server_hello_of_draft_body))]
pub fn parse_tls_handshake_msg_server_hello_of_draft(
    i: &[u8],
) -> IResult<&[u8], TlsMessageHandshake>
    ensures { Gives view_handshake server_hello_of_draft_body i.now result }
{
    let (_, version) = parsed!(TlsVersion::parse(i));
    match version.0 {
        0x7f0e..=0x7f15 => {
            let (i, hello) = parsed!(server_hello_draft18(i));
            Ok((i, TlsMessageHandshake::ServerHelloV13Draft18(hello)))
        }
        _ => refused(i, ErrorKind::Tag),
    }
}

/// Reads the body of an EndOfEarlyData (RFC 8446, section 4.5): no bytes. Never refuses.
#[tactic(auto, using(layouts::proofs::OneAnswerLemmas::read_allowed), unfolding(crate::specs::Handshake::end_of_early_data_body))]
#[inline(always)]
pub(crate) fn end_of_early_data(i: &[u8]) -> IResult<&[u8], TlsMessageHandshake>
    ensures { Gives view_handshake end_of_early_data_body i.now result }
{
    Ok((i, TlsMessageHandshake::EndOfEarlyData))
}

/// Reads the body of a HelloRetryRequest of drafts of TLS 1.3 (draft-ietf-tls-tls13-19, section
/// 4.1.4): 2 bytes of version, 2 of cipher suite, and optional extensions after 2 bytes of length.
///
/// `Incomplete` with the number of missing bytes, if they are missing before the extensions.
#[tactic(auto, using(layouts::proofs::OneAnswerLemmas::read_allowed), unfolding(crate::specs::Handshake::hello_retry_request_body))]
#[inline(always)]
pub fn parse_tls_handshake_msg_hello_retry_request(i: &[u8]) -> IResult<&[u8], TlsMessageHandshake>
    ensures { Gives view_handshake hello_retry_request_body i.now result }
{
    let (i, request) = parsed!(hello_retry_request(i));
    Ok((i, TlsMessageHandshake::HelloRetryRequest(request)))
}

/// Reads the body of a Certificate up to TLS 1.2 (RFC 5246, section 7.4.2), as
/// [`crate::parts::certificate`].
#[tactic(auto, using(layouts::proofs::OneAnswerLemmas::read_allowed), unfolding(crate::specs::Handshake::certificate_body))]
pub fn parse_tls_handshake_msg_certificate(
    alloc: Global,
    i: &[u8],
) -> IResult<&[u8], TlsMessageHandshake>
    ensures { GivesOrMemory view_handshake certificate_body i.now result }
{
    let (i, certificate) = parsed!(certificate(alloc, i));
    Ok((i, TlsMessageHandshake::Certificate(certificate)))
}

/// Reads the body of a CertificateRequest up to TLS 1.2 (RFC 5246, section 7.4.4), as
/// [`parse_tls_handshake_certificaterequest`].
#[tactic(auto, using(layouts::proofs::OneAnswerLemmas::read_allowed), unfolding(crate::specs::Handshake::certificate_request_body))]
pub fn parse_tls_handshake_msg_certificaterequest(
    alloc: Global,
    i: &[u8],
) -> IResult<&[u8], TlsMessageHandshake>
    ensures { GivesOrMemory view_handshake certificate_request_body i.now result }
{
    let (i, request) = parsed!(parse_tls_handshake_certificaterequest(alloc, i));
    Ok((i, TlsMessageHandshake::CertificateRequest(request)))
}

/// Reads the body of a ServerHelloDone (RFC 5246, section 7.4.5): `len` bytes, which the message
/// keeps.
///
/// `Incomplete` with the number of missing bytes.
#[tactic(auto, using(layouts::proofs::OneAnswerLemmas::read_allowed), unfolding(crate::specs::Handshake::server_done_body))]
pub fn parse_tls_handshake_msg_serverdone(
    i: &[u8],
    len: usize,
) -> IResult<&[u8], TlsMessageHandshake>
    ensures { Gives view_handshake (server_done_body len) i.now result }
{
    let (i, bytes) = parsed!(block(i, len));
    Ok((i, TlsMessageHandshake::ServerDone(bytes)))
}

/// Reads the body of a CertificateVerify (RFC 5246, section 7.4.8): `len` bytes.
///
/// `Incomplete` with the number of missing bytes.
#[tactic(auto, using(layouts::proofs::OneAnswerLemmas::read_allowed), unfolding(crate::specs::Handshake::certificate_verify_body))]
pub fn parse_tls_handshake_msg_certificateverify(
    i: &[u8],
    len: usize,
) -> IResult<&[u8], TlsMessageHandshake>
    ensures { Gives view_handshake (certificate_verify_body len) i.now result }
{
    let (i, bytes) = parsed!(block(i, len));
    Ok((i, TlsMessageHandshake::CertificateVerify(bytes)))
}

/// Reads the body of a Finished (RFC 5246, section 7.4.9): `len` bytes.
///
/// `Incomplete` with the number of missing bytes.
#[tactic(auto, using(layouts::proofs::OneAnswerLemmas::read_allowed), unfolding(crate::specs::Handshake::finished_body))]
pub fn parse_tls_handshake_msg_finished(i: &[u8], len: usize) -> IResult<&[u8], TlsMessageHandshake>
    ensures { Gives view_handshake (finished_body len) i.now result }
{
    let (i, bytes) = parsed!(block(i, len));
    Ok((i, TlsMessageHandshake::Finished(bytes)))
}

/// Reads the body of a CertificateStatus (RFC 6066, section 8), as
/// [`parse_tls_handshake_certificatestatus`].
#[tactic(auto, using(layouts::proofs::OneAnswerLemmas::read_allowed), unfolding(crate::specs::Handshake::certificate_status_body))]
pub fn parse_tls_handshake_msg_certificatestatus(i: &[u8]) -> IResult<&[u8], TlsMessageHandshake>
    ensures { Gives view_handshake certificate_status_body i.now result }
{
    let (i, status) = parsed!(parse_tls_handshake_certificatestatus(i));
    Ok((i, TlsMessageHandshake::CertificateStatus(status)))
}
