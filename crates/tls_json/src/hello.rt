//! ClientHello and ServerHello.
ghost use Rattle.std.specs.Prelude.{IfOk, ◌≡◌};
ghost use Rattle.tls_json.specs.Outline.{Shows};
ghost use Rattle.tls_json.specs.Tables.{id_bytes, client_hello_fields, server_hello_fields, draft_hello_fields, retry_fields};

use crate::content::Sender;
use crate::extension::with_extensions;
use crate::json::Value;
use crate::suite::{SuiteText, suite_values};
use crate::table::Table;
use crate::text::codes;
use std::alloc::{AllocError, Global};
use tls_hs::{
    ClientHelloView, TlsHelloRetryRequestContents, TlsServerHelloContents,
    TlsServerHelloV13Draft18Contents,
};

/// Returns a session's id, empty if there is none.
fn id<'a>(session_id: Option<&'a [u8]>) -> &'a [u8]
    ensures { result.now ≡ id_bytes session_id.entry }
{
    match session_id {
        Some(bytes) => bytes,
        None => &[],
    }
}

/// Writes a ClientHello (RFC 5246, section 7.4.1.2). One of DTLS has a cookie (RFC 6347, section
/// 4.2.1).
pub fn client_hello(
    alloc: Global,
    suite_text: SuiteText,
    hello: &ClientHelloView<'_>,
    cookie: Option<&[u8]>,
) -> Result<Value, AllocError>
    ensures { IfOk result (Shows (client_hello_fields hello.now cookie.entry)) }
{
    let table = Table::new(alloc)
        .hexadecimal("client_version", hello.version.0)
        .bytes("random", hello.random)
        .bytes("session_id", id(hello.session_id))
        .bytes_if("cookie", cookie)
        .add(
            "cipher_suites",
            suite_values(alloc, suite_text, hello.ciphers),
        )
        .add("compression_methods", codes(alloc, hello.comp.bytes()));
    with_extensions(alloc, table, Sender::Client, hello.ext).finish()
}

/// Writes a ServerHello of SSL 3.0 to TLS 1.3, and of DTLS (RFC 5246, section 7.4.1.3).
pub fn server_hello(
    alloc: Global,
    suite_text: SuiteText,
    hello: &TlsServerHelloContents<'_>,
) -> Result<Value, AllocError>
    ensures { IfOk result (Shows (server_hello_fields suite_text hello.now)) }
{
    let table = Table::new(alloc)
        .hexadecimal("server_version", hello.version.0)
        .bytes("random", hello.random)
        .bytes("session_id", id(hello.session_id))
        .suite("cipher_suite", suite_text, hello.cipher)
        .decimal("compression_method", u64::from(hello.compression.0));
    with_extensions(alloc, table, Sender::Server, hello.ext).finish()
}

/// Writes a ServerHello of draft 18 of TLS 1.3, which has no session id and no compression method.
pub fn server_hello_of_draft(
    alloc: Global,
    suite_text: SuiteText,
    hello: &TlsServerHelloV13Draft18Contents<'_>,
) -> Result<Value, AllocError>
    ensures { IfOk result (Shows (draft_hello_fields suite_text hello.now)) }
{
    let table = Table::new(alloc)
        .hexadecimal("server_version", hello.version.0)
        .bytes("random", hello.random)
        .suite("cipher_suite", suite_text, hello.cipher);
    with_extensions(alloc, table, Sender::Server, hello.ext).finish()
}

/// Writes a HelloRetryRequest of drafts of TLS 1.3 (draft-ietf-tls-tls13-19, section 4.1.4).
pub fn hello_retry_request(
    alloc: Global,
    suite_text: SuiteText,
    request: &TlsHelloRetryRequestContents<'_>,
) -> Result<Value, AllocError>
    ensures { IfOk result (Shows (retry_fields suite_text request.now)) }
{
    let table = Table::new(alloc)
        .hexadecimal("server_version", request.version.0)
        .suite("cipher_suite", suite_text, request.cipher);
    with_extensions(alloc, table, Sender::Server, request.ext).finish()
}
