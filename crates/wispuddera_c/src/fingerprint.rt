//! Fingerprints of hellos, written to a buffer of the caller's.
ghost use Rattle.std.specs.Prelude.{◌≡◌, ◌≤◌, ◌++◌, drop, length};
ghost use Rattle.layouts.specs.Reading.{reading};
ghost use Rattle.tls_fingerprints.specs.Hellos.{view_client, view_server};
ghost use Rattle.tls_fingerprints.specs.Ja3.{ja3_of, ja3s_of};
ghost use Rattle.tls_fingerprints.specs.Ja4.{IsTooLong, ja4_of};
ghost use Rattle.tls_fingerprints.specs.declared.hellos.Transport.TheVariants.{Quic, Tcp, Udp};
ghost use Rattle.tls_hs.specs.Hello.{client_hello};
ghost use Rattle.tls_hs.specs.InPlace.{view_client_hello_in_place};
ghost use Rattle.tls_hs.specs.ServerHello.{server_hello, server_hello_any, view_server_hello};
ghost use Rattle.tls_records.specs.DtlsHello.{client_hello as dtls_client_hello};
ghost use Rattle.tls_records.specs.DtlsInPlace.{view_client_hello_in_place as view_dtls_client_hello_in_place};
ghost use Rattle.wispuddera_c.specs.Fingerprint.{BeginsWith, IsAnswered, client_of, server_of};

use crate::status::{NO_ROOM, READ, Refusal, TOO_LARGE};
use tls_fingerprints::{ClientHelloParts, ServerHelloParts, Transport};
use tls_hs::parts::server_hello_any as read_server_hello_any;
use tls_hs::{ClientHelloView, TlsServerHelloContents, parse_tls_handshake_server_hello};
use tls_records::DTLSClientHelloView;

/// The length of JA3 and JA3S, in characters.
const DIGITS: usize = 32;
/// The length of JA4, in characters.
const CHARACTERS: usize = 36;

/// Writes a text to the beginning of the buffer.
fn write_front(buffer: &mut [u8], text: &[u8])
    requires { length text.now ≤ length buffer.old }
    ensures { buffer.new ≡ text.now ++ drop (length text.now) buffer.old }
{
    buffer[..text.len()].copy_from_slice(text);
}

/// The fields of a ClientHello that fingerprints use.
fn client_parts<'a>(hello: &ClientHelloView<'a>) -> ClientHelloParts<'a>
    ensures { view_client result ≡ client_of (view_client_hello_in_place hello.now) }
{
    ClientHelloParts {
        version: hello.version,
        ciphers: hello.ciphers,
        ext: hello.ext,
    }
}

/// The fields of a DTLS ClientHello that fingerprints use.
fn dtls_client_parts<'a>(hello: &DTLSClientHelloView<'a>) -> ClientHelloParts<'a>
    ensures { view_client result ≡ client_of (view_dtls_client_hello_in_place hello.now).hello }
{
    ClientHelloParts {
        version: hello.version,
        ciphers: hello.ciphers,
        ext: hello.ext,
    }
}

/// The fields of a ServerHello that fingerprints use.
fn server_parts<'a>(hello: &TlsServerHelloContents<'a>) -> ServerHelloParts<'a>
    ensures { view_server result ≡ server_of (view_server_hello hello.now) }
{
    ServerHelloParts {
        version: hello.version,
        cipher: hello.cipher,
        ext: hello.ext,
    }
}

/// Writes JA4 to the beginning of the buffer. A hello with more suites or extensions than are
/// possible is refused.
fn write_ja4(hello: ClientHelloParts, transport: Transport, text: &mut [u8]) -> u32
    requires { 36 ≤ length text.old }
    ensures { (IsTooLong 32767 (view_client hello.entry) → ⊥)
        → (result ≡ 0) × BeginsWith (ja4_of transport (view_client hello.entry)) 36
        text.old text.new }
{
    match hello.ja4_characters(transport) {
        Some(characters) => {
            write_front(text, &characters);
            READ
        }
        None => TOO_LARGE,
    }
}

/// Writes JA3 of a ClientHello, from its body (RFC 5246, section 7.4.1.2).
#[unsafe(no_mangle)]
pub extern "C" fn wispuddera_ja3(bytes: &[u8], digits: &mut [u8], missing: &mut usize) -> u32
    ensures { IsAnswered (λ h. ja3_of (client_of h)) 32 (reading client_hello bytes.now) digits.old
        digits.new result missing.new }
{
    *missing = 0;
    if digits.len() < DIGITS {
        return NO_ROOM;
    }
    match ClientHelloView::parse(bytes) {
        Ok((_, hello)) => {
            write_front(digits, &client_parts(&hello).ja3_digits());
            READ
        }
        Err(e) => {
            let refusal = Refusal::of(e);
            *missing = refusal.missing;
            refusal.status
        }
    }
}

/// Writes JA3 of a DTLS ClientHello, from its body (RFC 6347, section 4.2.1).
#[unsafe(no_mangle)]
pub extern "C" fn wispuddera_dtls_ja3(bytes: &[u8], digits: &mut [u8], missing: &mut usize) -> u32
    ensures { IsAnswered (λ h. ja3_of (client_of h.hello)) 32 (reading dtls_client_hello bytes.now)
        digits.old digits.new result missing.new }
{
    *missing = 0;
    if digits.len() < DIGITS {
        return NO_ROOM;
    }
    match DTLSClientHelloView::parse(bytes) {
        Ok((_, hello)) => {
            write_front(digits, &dtls_client_parts(&hello).ja3_digits());
            READ
        }
        Err(e) => {
            let refusal = Refusal::of(e);
            *missing = refusal.missing;
            refusal.status
        }
    }
}

/// Writes JA3S of a ServerHello, from its body (RFC 5246, section 7.4.1.3).
#[unsafe(no_mangle)]
pub extern "C" fn wispuddera_ja3s(bytes: &[u8], digits: &mut [u8], missing: &mut usize) -> u32
    ensures { IsAnswered (λ h. ja3s_of (server_of h)) 32 (reading server_hello bytes.now) digits.old
        digits.new result missing.new }
{
    *missing = 0;
    if digits.len() < DIGITS {
        return NO_ROOM;
    }
    match parse_tls_handshake_server_hello(bytes) {
        Ok((_, hello)) => {
            write_front(digits, &server_parts(&hello).ja3s_digits());
            READ
        }
        Err(e) => {
            let refusal = Refusal::of(e);
            *missing = refusal.missing;
            refusal.status
        }
    }
}

/// Writes JA3S of a DTLS ServerHello of any version, from its body (RFC 6347, section 4.3.2).
#[unsafe(no_mangle)]
pub extern "C" fn wispuddera_dtls_ja3s(bytes: &[u8], digits: &mut [u8], missing: &mut usize) -> u32
    ensures { IsAnswered (λ h. ja3s_of (server_of h)) 32
        (reading server_hello_any bytes.now) digits.old
        digits.new result missing.new }
{
    *missing = 0;
    if digits.len() < DIGITS {
        return NO_ROOM;
    }
    match read_server_hello_any(bytes) {
        Ok((_, hello)) => {
            write_front(digits, &server_parts(&hello).ja3s_digits());
            READ
        }
        Err(e) => {
            let refusal = Refusal::of(e);
            *missing = refusal.missing;
            refusal.status
        }
    }
}

/// Writes JA4 of a ClientHello over this transport, from its body.
fn ja4_over(bytes: &[u8], transport: Transport, text: &mut [u8], missing: &mut usize) -> u32
    ensures { IsAnswered (λ h. ja4_of transport (client_of h)) 36 (reading client_hello bytes.now)
        text.old text.new result missing.new }
{
    *missing = 0;
    if text.len() < CHARACTERS {
        return NO_ROOM;
    }
    match ClientHelloView::parse(bytes) {
        Ok((_, hello)) => write_ja4(client_parts(&hello), transport, text),
        Err(e) => {
            let refusal = Refusal::of(e);
            *missing = refusal.missing;
            refusal.status
        }
    }
}

/// Writes JA4 of a ClientHello over TCP, from its body (RFC 5246, section 7.4.1.2).
#[unsafe(no_mangle)]
pub extern "C" fn wispuddera_ja4(bytes: &[u8], text: &mut [u8], missing: &mut usize) -> u32
    ensures { IsAnswered (λ h. ja4_of Tcp (client_of h)) 36
        (reading client_hello bytes.now) text.old
        text.new result missing.new }
{
    ja4_over(bytes, Transport::Tcp, text, missing)
}

/// Writes JA4 of a ClientHello over QUIC (RFC 9001), from its body.
#[unsafe(no_mangle)]
pub extern "C" fn wispuddera_quic_ja4(bytes: &[u8], text: &mut [u8], missing: &mut usize) -> u32
    ensures { IsAnswered (λ h. ja4_of Quic (client_of h)) 36
        (reading client_hello bytes.now) text.old
        text.new result missing.new }
{
    ja4_over(bytes, Transport::Quic, text, missing)
}

/// Writes JA4 of a DTLS ClientHello, from its body (RFC 6347, section 4.2.1).
#[unsafe(no_mangle)]
pub extern "C" fn wispuddera_dtls_ja4(bytes: &[u8], text: &mut [u8], missing: &mut usize) -> u32
    ensures { IsAnswered (λ h. ja4_of Udp (client_of h.hello)) 36
        (reading dtls_client_hello bytes.now)
        text.old text.new result missing.new }
{
    *missing = 0;
    if text.len() < CHARACTERS {
        return NO_ROOM;
    }
    match DTLSClientHelloView::parse(bytes) {
        Ok((_, hello)) => write_ja4(dtls_client_parts(&hello), Transport::Udp, text),
        Err(e) => {
            let refusal = Refusal::of(e);
            *missing = refusal.missing;
            refusal.status
        }
    }
}
