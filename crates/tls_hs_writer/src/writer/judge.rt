//! Computes the lengths of handshake messages (RFC 5246, section 7.4), or why they can't be
//! written, without allocating.
ghost use Rattle.tls_hs.specs.Hello.{view_client_hello};
ghost use Rattle.tls_hs.specs.ServerHello.{view_server_hello, view_server_hello_draft18};
ghost use Rattle.tls_hs.specs.Session.{view_client_key_exchange};
ghost use Rattle.tls_hs.specs.Handshake.{view_handshake, ClientHello, ServerHello, ServerHelloV13Draft18};
ghost use Rattle.tls_hs.specs.Handshake.{ClientKeyExchange};
ghost use Rattle.tls_hs_writer.specs.HandshakeWriter.{JudgesBody, JudgesCountedBody, JudgesHandshake};
ghost use Rattle.tls_hs_writer.specs.Writable.{view_writable};

use crate::writer::{Writable, writable_of};
use layouts::GenError;
use layouts::writer::builder::held;
use tls_hs::{
    TlsClientHelloContents, TlsClientKeyExchangeContents, TlsMessageHandshake,
    TlsServerHelloContents, TlsServerHelloV13Draft18Contents,
};

/// The maximum length of a handshake message's body, in bytes: its length field has 3 bytes.
const MAX_BODY_LEN: usize = 16777215;

/// Returns the length of the body of a ClientHello, in bytes.
///
/// `BadLength` if the random isn't 32 bytes, the session id is longer than 32, there are more than
/// 32767 suites or 255 methods, or the extensions are longer than 65535 bytes.
#[tactic(auto, using(crate::proofs::LengthLemmas::client_hello_length))]
fn client_hello_len(h: &TlsClientHelloContents) -> Result<usize, GenError>
    ensures { JudgesBody (ClientHello (view_client_hello h.now)) result }
{
    let id = held(h.session_id).len();
    let ext = held(h.ext).len();
    let random = h.random.len();
    let suites = h.ciphers.len();
    let methods = h.comp.len();
    if random != 32 || id > 32 || suites > 32767 || methods > 255 || ext > 65535 {
        return Err(GenError::BadLength);
    }
    Ok(2 + random + 1 + id + 2 + 2 * suites + 1 + methods + 2 + ext)
}

/// Returns the length of the body of a ServerHello, in bytes.
///
/// `BadLength` if the random isn't 32 bytes, the session id is longer than 32, or the extensions
/// are longer than 65535 bytes.
#[tactic(auto, using(crate::proofs::LengthLemmas::server_hello_length))]
fn server_hello_len(h: &TlsServerHelloContents) -> Result<usize, GenError>
    ensures { JudgesBody (ServerHello (view_server_hello h.now)) result }
{
    let id = held(h.session_id).len();
    let ext = held(h.ext).len();
    let random = h.random.len();
    if random != 32 || id > 32 || ext > 65535 {
        return Err(GenError::BadLength);
    }
    Ok(2 + random + 1 + id + 2 + 1 + 2 + ext)
}

/// Returns the length of the body of a ServerHello of draft 18 of TLS 1.3, in bytes.
///
/// `BadLength` if the random isn't 32 bytes, or the extensions are longer than 65535 bytes.
#[tactic(auto, using(crate::proofs::LengthLemmas::server_hello_draft18_length))]
fn server_hello_draft18_len(h: &TlsServerHelloV13Draft18Contents) -> Result<usize, GenError>
    ensures { JudgesBody (ServerHelloV13Draft18 (view_server_hello_draft18 h.now)) result }
{
    let ext = held(h.ext).len();
    let random = h.random.len();
    if random != 32 || ext > 65535 {
        return Err(GenError::BadLength);
    }
    Ok(2 + random + 2 + 2 + ext)
}

/// Returns the length of the body of a ClientKeyExchange, in bytes.
///
/// `BadLength` if the public value is longer than 65535 bytes, or the point longer than 255.
fn client_key_exchange_len(k: &TlsClientKeyExchangeContents) -> Result<usize, GenError>
    ensures { JudgesBody (ClientKeyExchange (view_client_key_exchange k.now)) result }
{
    match k {
        TlsClientKeyExchangeContents::Dh(b) if b.len() > 65535 => Err(GenError::BadLength),
        TlsClientKeyExchangeContents::Dh(b) => Ok(2 + b.len()),
        TlsClientKeyExchangeContents::Ecdh(p) if p.point.len() > 255 => Err(GenError::BadLength),
        TlsClientKeyExchangeContents::Ecdh(p) => Ok(1 + p.point.len()),
        TlsClientKeyExchangeContents::Unknown(b) => Ok(b.len()),
    }
}

impl Writable<'_, '_> {
    /// Returns the length of the body in bytes, if its fields fit. Whether it fits the length field
    /// of the message isn't checked.
    fn fields_len(&self) -> Result<usize, GenError>
        ensures { JudgesBody (view_writable self.now) result }
    {
        match self {
            Writable::HelloRequest => Ok(0),
            Writable::ClientHello(h) => client_hello_len(h),
            Writable::ServerHello(h) => server_hello_len(h),
            Writable::ServerHelloV13Draft18(h) => server_hello_draft18_len(h),
            Writable::ClientKeyExchange(k) => client_key_exchange_len(k),
            Writable::Finished(b) => Ok(b.len()),
        }
    }

    /// Returns the length of the body in bytes.
    ///
    /// `BadLength` if a length doesn't fit its field. The fields in the body are checked first,
    /// then the body's own length.
    pub(crate) fn body_len(&self) -> Result<usize, GenError>
        ensures { JudgesCountedBody (view_writable self.now) result }
    {
        let n = self.fields_len()?;
        if n > MAX_BODY_LEN {
            return Err(GenError::BadLength);
        }
        Ok(n)
    }
}

/// Returns the length of a handshake message in bytes, including its type and length.
///
/// `NotYetImplemented` if the writer doesn't know its kind; `BadLength` if a length doesn't fit its
/// field.
pub fn handshake_len(m: &TlsMessageHandshake) -> Result<usize, GenError>
    ensures { JudgesHandshake (view_handshake m.now) result }
{
    match writable_of(m) {
        Some(message) => {
            let n = message.body_len()?;
            Ok(4 + n)
        }
        None => Err(GenError::NotYetImplemented),
    }
}
