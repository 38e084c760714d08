//! Writes handshake messages (RFC 5246, section 7.4): HelloRequest, ClientHello, ServerHello, also
//! that of draft 18 of TLS 1.3, ClientKeyExchange and Finished.
//!
//! Each call writes the whole message: 1 byte of type, 3 bytes of length, big-endian, and the body.
//! It first checks the message without allocating, then builds the encoding in one allocation, and
//! hands it to the `Write`, which it doesn't flush. No clause about a generic `Write` can see a
//! flush after the last write; a test shows that there is none.
//!
//! - `BadLength` if a length doesn't fit its field; each call lists which. The `Write` isn't
//!   called.
//! - `OutOfMemory` if the encoding can't be allocated. The `Write` isn't called.
//! - `Io` if a write fails (also if it is interrupted), or takes no bytes. How much was written is
//!   unknown.
ghost use Rattle.std.specs.Prelude.{◌≡◌, IfOk, MatchOption};
ghost use Rattle.std.specs.Result.{result_map_both};
ghost use Rattle.tls_hs.specs.Hello.{view_client_hello};
ghost use Rattle.tls_hs.specs.ServerHello.{view_server_hello, view_server_hello_draft18};
ghost use Rattle.tls_hs.specs.Session.{view_client_key_exchange};
ghost use Rattle.tls_hs.specs.Handshake.{view_handshake, HelloRequest, ClientHello, ServerHello, ServerHelloV13Draft18};
ghost use Rattle.tls_hs.specs.Handshake.{ClientKeyExchange, Finished};
ghost use Rattle.tls_hs.specs.HandshakeText.{InRangeHandshake, IsUnknown, IsKnown};
ghost use Rattle.tls_hs_writer.specs.HandshakeWriter.{BuildsHandshake, WritesHandshake};
ghost use Rattle.tls_hs_writer.specs.Writable.{view_writable};

use layouts::{GenError, write_whole};
use std::alloc::Global;
use std::io::Write;
use tls_hs::{
    TlsClientHelloContents, TlsClientKeyExchangeContents, TlsMessageHandshake,
    TlsServerHelloContents, TlsServerHelloV13Draft18Contents,
};

pub mod builder;
pub mod judge;

/// A borrowed handshake message of a kind that the writer knows.
#[derive(Clone, Copy)]
pub(crate) enum Writable<'b, 'a> {
    HelloRequest,
    ClientHello(&'b TlsClientHelloContents<'a>),
    ServerHello(&'b TlsServerHelloContents<'a>),
    ServerHelloV13Draft18(&'b TlsServerHelloV13Draft18Contents<'a>),
    ClientKeyExchange(&'b TlsClientKeyExchangeContents<'a>),
    Finished(&'b [u8]),
}

/// Returns the message, if the writer knows its kind.
fn writable_of<'b, 'a>(m: &'b TlsMessageHandshake<'a>) -> Option<Writable<'b, 'a>>
    ensures { MatchOption result (IsUnknown (view_handshake m.now))
        (λ k. (view_writable k ≡ view_handshake m.now) × IsKnown (view_handshake m.now)) }
{
    match m {
        TlsMessageHandshake::HelloRequest => Some(Writable::HelloRequest),
        TlsMessageHandshake::ClientHello(h) => Some(Writable::ClientHello(h)),
        TlsMessageHandshake::ServerHello(h) => Some(Writable::ServerHello(h)),
        TlsMessageHandshake::ServerHelloV13Draft18(h) => Some(Writable::ServerHelloV13Draft18(h)),
        TlsMessageHandshake::ClientKeyExchange(k) => Some(Writable::ClientKeyExchange(k)),
        TlsMessageHandshake::Finished(b) => Some(Writable::Finished(b)),
        _ => None,
    }
}

impl Writable<'_, '_> {
    /// Returns the encoding, in an allocation of exactly its length.
    fn to_bytes(&self, alloc: Global) -> Result<Vec<u8>, GenError>
        ensures text { BuildsHandshake (view_writable self.now)
            (result_map_both (λ v. v.items) (λ e. e) result) }
        ensures range { IfOk result (λ _. InRangeHandshake (view_writable self.now)) }
    {
        let n = self.body_len()?;
        let mut out = Vec::with_capacity(alloc, 4 + n)?;
        self.append(&mut out, n);
        Ok(out)
    }

    /// Writes the encoding.
    fn write<W: Write>(&self, alloc: Global, w: &mut W) -> Result<(), GenError>
        ensures { WritesHandshake (view_writable self.now) W.contents w.old w.new result }
    {
        let text = self.to_bytes(alloc)?;
        write_whole(w, &text)
    }
}

/// Writes a HelloRequest (RFC 5246, section 7.4.1.1): 4 bytes. Never refuses with `BadLength`.
pub fn gen_tls_hellorequest<W: Write>(alloc: Global, w: &mut W) -> Result<(), GenError>
    ensures { WritesHandshake HelloRequest W.contents w.old w.new result }
{
    Writable::HelloRequest.write(alloc, w)
}

/// Writes a ClientHello (RFC 5246, section 7.4.1.2). A `session_id` of `None` is written as an
/// empty one, and an `ext` of `None` as an empty block of extensions.
///
/// `BadLength` if `random` isn't 32 bytes, `session_id` is longer than 32, there are more than
/// 32767 ciphers or 255 compression methods, or `ext` is longer than 65535 bytes.
pub fn gen_tls_clienthello<W: Write>(
    alloc: Global,
    m: &TlsClientHelloContents,
    w: &mut W,
) -> Result<(), GenError>
    ensures { WritesHandshake (ClientHello (view_client_hello m.now)) W.contents w.old
        w.new result }
{
    Writable::ClientHello(m).write(alloc, w)
}

/// Writes a ServerHello up to TLS 1.2 (RFC 5246, section 7.4.1.3), whatever its version. A
/// `session_id` of `None` is written as an empty one, and an `ext` of `None` as an empty block of
/// extensions.
///
/// `BadLength` if `random` isn't 32 bytes, `session_id` is longer than 32, or `ext` is longer than
/// 65535 bytes.
pub fn gen_tls_serverhello<W: Write>(
    alloc: Global,
    m: &TlsServerHelloContents,
    w: &mut W,
) -> Result<(), GenError>
    ensures { WritesHandshake (ServerHello (view_server_hello m.now)) W.contents w.old
        w.new result }
{
    Writable::ServerHello(m).write(alloc, w)
}

/// Writes a ServerHello of draft 18 of TLS 1.3 (draft-ietf-tls-tls13-18, section 4.1.3), whatever
/// its version. An `ext` of `None` is written as an empty block of extensions.
///
/// `BadLength` if `random` isn't 32 bytes, or `ext` is longer than 65535.
pub fn gen_tls_serverhellodraft18<W: Write>(
    alloc: Global,
    m: &TlsServerHelloV13Draft18Contents,
    w: &mut W,
) -> Result<(), GenError>
    ensures { WritesHandshake (ServerHelloV13Draft18 (view_server_hello_draft18 m.now)) W.contents
        w.old w.new result }
{
    Writable::ServerHelloV13Draft18(m).write(alloc, w)
}

/// Writes a ClientKeyExchange (RFC 5246, section 7.4.7): the bytes of `Unknown` as they are, those
/// of `Dh` after their length of 2 bytes, the point of `Ecdh` after its length of 1 byte (RFC 8422,
/// section 5.7).
///
/// `BadLength` if the bytes of `Unknown` are longer than 16777215, those of `Dh` than 65535, or the
/// point than 255.
pub fn gen_tls_clientkeyexchange<W: Write>(
    alloc: Global,
    m: &TlsClientKeyExchangeContents,
    w: &mut W,
) -> Result<(), GenError>
    ensures { WritesHandshake (ClientKeyExchange (view_client_key_exchange m.now)) W.contents w.old
        w.new result }
{
    Writable::ClientKeyExchange(m).write(alloc, w)
}

/// Writes a Finished with the body `m` (RFC 5246, section 7.4.9).
///
/// `BadLength` if it is longer than 16777215 bytes.
pub fn gen_tls_finished<W: Write>(alloc: Global, m: &[u8], w: &mut W) -> Result<(), GenError>
    ensures { WritesHandshake (Finished m.now) W.contents w.old w.new result }
{
    Writable::Finished(m).write(alloc, w)
}
