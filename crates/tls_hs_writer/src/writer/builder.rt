//! Appends the encodings of handshake messages (RFC 5246, section 7.4), part by part, to a vector
//! with enough capacity.
ghost use Rattle.std.specs.Prelude.{◌≡◌, ◌≤◌, ◌<◌, ◌+◌, ◌*◌, ◌^◌, ◌++◌, length, map, vec_len, vec_capacity};
ghost use Rattle.std.specs.List.{All};
ghost use Rattle.layouts.specs.Text.{counted_text, numbers_text};
ghost use Rattle.tls_hs.specs.Hello.{view_client_hello};
ghost use Rattle.tls_hs.specs.ServerHello.{view_server_hello, view_server_hello_draft18};
ghost use Rattle.tls_hs.specs.Session.{view_client_key_exchange};
ghost use Rattle.tls_hs.specs.Handshake.{view_handshake};
ghost use Rattle.tls_hs.specs.HandshakeText.{client_hello_text, FitsClientHello, InRangeClientHello, server_hello_text};
ghost use Rattle.tls_hs.specs.HandshakeText.{FitsServerHello, InRangeServerHello};
ghost use Rattle.tls_hs.specs.HandshakeText.{server_hello_draft18_text, FitsServerHelloDraft18};
ghost use Rattle.tls_hs.specs.HandshakeText.{InRangeServerHelloDraft18, client_key_exchange_text};
ghost use Rattle.tls_hs.specs.HandshakeText.{FitsClientKeyExchange};
ghost use Rattle.tls_hs.specs.HandshakeText.{body_text, handshake_text, FitsBody, FitsHandshake, InRangeHandshake};
ghost use Rattle.tls_hs.specs.HandshakeText.{msg_type_of};
ghost use Rattle.tls_hs_writer.specs.Writable.{view_writable};

use crate::writer::{Writable, writable_of};
use layouts::writer::builder::{append_bytes, append1, append2, append3, held};
use tls_base::{TlsCipherSuiteID, TlsCompressionID, TlsHandshakeType};
use tls_hs::{
    TlsClientHelloContents, TlsClientKeyExchangeContents, TlsMessageHandshake,
    TlsServerHelloContents, TlsServerHelloV13Draft18Contents,
};

/// Appends `b` after its length of 1 byte.
fn append_counted1(out: &mut Vec<u8>, b: &[u8])
    requires fits { length b.now ≤ 255 }
    requires room { vec_len out.old + 1 + length b.now ≤ vec_capacity out.old }
    ensures items { out.new.items ≡ out.old.items ++ counted_text 1 b.now }
    ensures len { vec_len out.new ≡ vec_len out.old + 1 + length b.now }
    ensures capacity { vec_capacity out.old ≤ vec_capacity out.new }
{
    append1(out, b.len() as u8);
    append_bytes(out, b);
}

/// Appends `b` after its length of 2 bytes, big-endian.
fn append_counted2(out: &mut Vec<u8>, b: &[u8])
    requires fits { length b.now ≤ 65535 }
    requires room { vec_len out.old + 2 + length b.now ≤ vec_capacity out.old }
    ensures items { out.new.items ≡ out.old.items ++ counted_text 2 b.now }
    ensures len { vec_len out.new ≡ vec_len out.old + 2 + length b.now }
    ensures capacity { vec_capacity out.old ≤ vec_capacity out.new }
{
    append2(out, b.len() as u16);
    append_bytes(out, b);
}

/// Appends cipher suites, 2 bytes each.
fn append_each_suite(out: &mut Vec<u8>, suites: &[TlsCipherSuiteID])
    requires { vec_len out.old + 2 * length suites.now ≤ vec_capacity out.old }
    ensures items { out.new.items ≡ out.old.items ++ numbers_text 2 (map (λ x. x.0) suites.now) }
    ensures range { All (λ x. x < 256 ^ 2) (map (λ x. x.0) suites.now) }
    ensures len { vec_len out.new ≡ vec_len out.old + 2 * length suites.now }
    ensures capacity { vec_capacity out.old ≤ vec_capacity out.new }
{
    for suite in suites {
        append2(out, suite.0);
    }
}

/// Appends compression methods, 1 byte each.
fn append_each_method(out: &mut Vec<u8>, methods: &[TlsCompressionID])
    requires { vec_len out.old + length methods.now ≤ vec_capacity out.old }
    ensures items { out.new.items ≡ out.old.items ++ numbers_text 1 (map (λ x. x.0) methods.now) }
    ensures range { All (λ x. x < 256 ^ 1) (map (λ x. x.0) methods.now) }
    ensures len { vec_len out.new ≡ vec_len out.old + length methods.now }
    ensures capacity { vec_capacity out.old ≤ vec_capacity out.new }
{
    for method in methods {
        append1(out, method.0);
    }
}

/// Appends cipher suites after their length in bytes, which has 2 bytes.
fn append_suites(out: &mut Vec<u8>, suites: &[TlsCipherSuiteID])
    requires fits { length suites.now ≤ 32767 }
    requires room { vec_len out.old + 2 + 2 * length suites.now ≤ vec_capacity out.old }
    ensures items { out.new.items ≡ out.old.items ++ counted_text 2
        (numbers_text 2 (map (λ x. x.0) suites.now)) }
    ensures range { All (λ x. x < 256 ^ 2) (map (λ x. x.0) suites.now) }
    ensures len { vec_len out.new ≡ vec_len out.old + 2 + 2 * length suites.now }
    ensures capacity { vec_capacity out.old ≤ vec_capacity out.new }
{
    append2(out, (2 * suites.len()) as u16);
    append_each_suite(out, suites);
}

/// Appends compression methods after their length, which has 1 byte.
fn append_methods(out: &mut Vec<u8>, methods: &[TlsCompressionID])
    requires fits { length methods.now ≤ 255 }
    requires room { vec_len out.old + 1 + length methods.now ≤ vec_capacity out.old }
    ensures items { out.new.items ≡ out.old.items ++ counted_text 1
        (numbers_text 1 (map (λ x. x.0) methods.now)) }
    ensures range { All (λ x. x < 256 ^ 1) (map (λ x. x.0) methods.now) }
    ensures len { vec_len out.new ≡ vec_len out.old + 1 + length methods.now }
    ensures capacity { vec_capacity out.old ≤ vec_capacity out.new }
{
    append1(out, methods.len() as u8);
    append_each_method(out, methods);
}

/// Appends the body of a ClientHello.
#[tactic(auto, using(crate::proofs::LengthLemmas::client_hello_length))]
fn append_client_hello(out: &mut Vec<u8>, h: &TlsClientHelloContents)
    requires fits { FitsClientHello (view_client_hello h.now) }
    requires room { vec_len out.old + length (client_hello_text (view_client_hello h.now)) ≤
        vec_capacity out.old }
    ensures items { out.new.items ≡ out.old.items ++ client_hello_text (view_client_hello h.now) }
    ensures range { InRangeClientHello (view_client_hello h.now) }
    ensures len { vec_len out.new ≡ vec_len out.old + length
        (client_hello_text (view_client_hello h.now)) }
    ensures capacity { vec_capacity out.old ≤ vec_capacity out.new }
{
    append2(out, h.version.0);
    append_bytes(out, h.random);
    append_counted1(out, held(h.session_id));
    append_suites(out, &h.ciphers);
    append_methods(out, &h.comp);
    append_counted2(out, held(h.ext));
}

/// Appends the body of a ServerHello.
#[tactic(auto, using(crate::proofs::LengthLemmas::server_hello_length))]
fn append_server_hello(out: &mut Vec<u8>, h: &TlsServerHelloContents)
    requires fits { FitsServerHello (view_server_hello h.now) }
    requires room { vec_len out.old + length (server_hello_text (view_server_hello h.now)) ≤
        vec_capacity out.old }
    ensures items { out.new.items ≡ out.old.items ++ server_hello_text (view_server_hello h.now) }
    ensures range { InRangeServerHello (view_server_hello h.now) }
    ensures len { vec_len out.new ≡ vec_len out.old + length
        (server_hello_text (view_server_hello h.now)) }
    ensures capacity { vec_capacity out.old ≤ vec_capacity out.new }
{
    append2(out, h.version.0);
    append_bytes(out, h.random);
    append_counted1(out, held(h.session_id));
    append2(out, h.cipher.0);
    append1(out, h.compression.0);
    append_counted2(out, held(h.ext));
}

/// Appends the body of a ServerHello of draft 18 of TLS 1.3.
#[tactic(auto, using(crate::proofs::LengthLemmas::server_hello_draft18_length))]
fn append_server_hello_draft18(out: &mut Vec<u8>, h: &TlsServerHelloV13Draft18Contents)
    requires fits { FitsServerHelloDraft18 (view_server_hello_draft18 h.now) }
    requires room { vec_len out.old +
        length (server_hello_draft18_text (view_server_hello_draft18 h.now)) ≤
        vec_capacity out.old }
    ensures items { out.new.items ≡ out.old.items ++ server_hello_draft18_text
        (view_server_hello_draft18 h.now) }
    ensures range { InRangeServerHelloDraft18 (view_server_hello_draft18 h.now) }
    ensures len { vec_len out.new ≡ vec_len out.old + length
        (server_hello_draft18_text (view_server_hello_draft18 h.now)) }
    ensures capacity { vec_capacity out.old ≤ vec_capacity out.new }
{
    append2(out, h.version.0);
    append_bytes(out, h.random);
    append2(out, h.cipher.0);
    append_counted2(out, held(h.ext));
}

/// Appends the body of a ClientKeyExchange.
fn append_client_key_exchange(out: &mut Vec<u8>, k: &TlsClientKeyExchangeContents)
    requires fits { FitsClientKeyExchange (view_client_key_exchange k.now) }
    requires room { vec_len out.old +
        length (client_key_exchange_text (view_client_key_exchange k.now)) ≤
        vec_capacity out.old }
    ensures items { out.new.items ≡ out.old.items ++ client_key_exchange_text
        (view_client_key_exchange k.now) }
    ensures len { vec_len out.new ≡ vec_len out.old + length
        (client_key_exchange_text (view_client_key_exchange k.now)) }
    ensures capacity { vec_capacity out.old ≤ vec_capacity out.new }
{
    match k {
        TlsClientKeyExchangeContents::Dh(b) => append_counted2(out, b),
        TlsClientKeyExchangeContents::Ecdh(p) => append_counted1(out, p.point),
        TlsClientKeyExchangeContents::Unknown(b) => append_bytes(out, b),
    }
}

impl Writable<'_, '_> {
    /// Returns the type of the message.
    fn msg_type(&self) -> TlsHandshakeType
        ensures { result.0 ≡ msg_type_of (view_writable self.now) }
    {
        match self {
            Writable::HelloRequest => TlsHandshakeType::HelloRequest,
            Writable::ClientHello(_) => TlsHandshakeType::ClientHello,
            Writable::ServerHello(_) => TlsHandshakeType::ServerHello,
            Writable::ServerHelloV13Draft18(_) => TlsHandshakeType::ServerHello,
            Writable::ClientKeyExchange(_) => TlsHandshakeType::ClientKeyExchange,
            Writable::Finished(_) => TlsHandshakeType::Finished,
        }
    }

    /// Appends the body of the message.
    fn append_body(&self, out: &mut Vec<u8>)
        requires fits { FitsBody (view_writable self.now) }
        requires room { vec_len out.old + length (body_text (view_writable self.now))
            ≤ vec_capacity out.old }
        ensures items { out.new.items ≡ out.old.items ++ body_text (view_writable self.now) }
        ensures range { InRangeHandshake (view_writable self.now) }
        ensures len { vec_len out.new ≡ vec_len out.old + length
            (body_text (view_writable self.now)) }
        ensures capacity { vec_capacity out.old ≤ vec_capacity out.new }
    {
        match self {
            Writable::HelloRequest => {}
            Writable::ClientHello(h) => append_client_hello(out, h),
            Writable::ServerHello(h) => append_server_hello(out, h),
            Writable::ServerHelloV13Draft18(h) => append_server_hello_draft18(out, h),
            Writable::ClientKeyExchange(k) => append_client_key_exchange(out, k),
            Writable::Finished(b) => append_bytes(out, b),
        }
    }

    /// Appends the message: its type, the length of its body, which is `n`, and the body.
    pub(crate) fn append(&self, out: &mut Vec<u8>, n: usize)
        requires fits { FitsHandshake (view_writable self.now) }
        requires count { n ≡ length (body_text (view_writable self.now)) }
        requires room { vec_len out.old + 4 + n ≤ vec_capacity out.old }
        ensures items { out.new.items ≡ out.old.items ++ handshake_text (view_writable self.now) }
        ensures range { InRangeHandshake (view_writable self.now) }
        ensures len { vec_len out.new ≡ vec_len out.old + 4 + n }
        ensures capacity { vec_capacity out.old ≤ vec_capacity out.new }
    {
        append1(out, self.msg_type().0);
        append3(out, n as u32);
        self.append_body(out);
    }
}

/// Appends a handshake message that fits to a vector with enough capacity.
pub fn append_handshake(out: &mut Vec<u8>, m: &TlsMessageHandshake)
    requires fits { FitsHandshake (view_handshake m.now) }
    requires room { vec_len out.old + length (handshake_text (view_handshake m.now))
        ≤ vec_capacity out.old }
    ensures items { out.new.items ≡ out.old.items ++ handshake_text (view_handshake m.now) }
    ensures range { InRangeHandshake (view_handshake m.now) }
    ensures len { vec_len out.new ≡ vec_len out.old + length
        (handshake_text (view_handshake m.now)) }
    ensures capacity { vec_capacity out.old ≤ vec_capacity out.new }
{
    if let Some(message) = writable_of(m) {
        if let Ok(n) = message.body_len() {
            message.append(out, n);
        }
    }
}
