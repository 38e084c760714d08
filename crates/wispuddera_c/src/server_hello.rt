//! ServerHellos.
ghost use Rattle.std.specs.Prelude.{◌≡◌};
ghost use Rattle.layouts.specs.Meaning.{EndsWith};
ghost use Rattle.layouts.specs.Reading.{reading};
ghost use Rattle.tls_hs.specs.ServerHello.{server_hello, server_hello_any, view_server_hello};
ghost use Rattle.tls_places.specs.Hello.{ServerHelloStands};
ghost use Rattle.wispuddera_c.specs.Hello.{ShowsServerHello};
ghost use Rattle.wispuddera_c.specs.Status.{IsAnswered};

use crate::place::{Place, held_in_c, in_c, offset_of};
use crate::status::{READ, Refusal};
use tls_hs::TlsServerHelloContents;
use tls_places::{ServerHelloPlaces, dtls_server_hello_with_places, server_hello_with_places};

/// A ServerHello (RFC 5246, section 7.4.1.3): its numbers, the places of its parts in its body, and
/// the offset of what follows it.
#[repr(C)]
#[derive(Clone, Copy)]
pub struct ServerHello {
    /// How many bytes are missing, if the status is `INCOMPLETE`; else 0.
    pub missing: usize,
    /// The 32 bytes of the random.
    pub random: Place,
    /// The session ID, without its length; empty if there is none.
    pub session_id: Place,
    /// The extensions, without their length; empty if no whole block follows.
    pub extensions: Place,
    /// The offset of what follows.
    pub next: usize,
    /// The version field.
    pub version: u16,
    /// The cipher suite that the server chose.
    pub cipher_suite: u16,
    /// The compression method that the server chose.
    pub compression_method: u8,
    /// Whether a whole block of extensions follows.
    pub has_extensions: bool,
}

/// The struct of a hello parsed from `bytes`, with its places and the offset of `rest`.
#[tactic(auto, using(layouts::proofs::OneAnswerLemmas::read_allowed))]
#[inline(always)]
fn in_numbers(
    bytes: &[u8],
    hello: &TlsServerHelloContents,
    places: ServerHelloPlaces,
    rest: &[u8],
) -> ServerHello
    ensures shows { ServerHelloStands bytes.now hello.now places → EndsWith bytes.now rest.now
        → ShowsServerHello bytes.now result (view_server_hello hello.now) rest.now }
    ensures missing { result.missing ≡ 0 }
{
    ServerHello {
        missing: 0,
        random: in_c(places.random),
        session_id: held_in_c(places.session_id),
        extensions: held_in_c(places.ext),
        next: offset_of(bytes, rest),
        version: hello.version.0,
        cipher_suite: hello.cipher.0,
        compression_method: hello.compression.0,
        has_extensions: hello.ext.is_some(),
    }
}

/// Parses the body of a ServerHello.
#[tactic(auto, using(layouts::proofs::OneAnswerLemmas::read_allowed, layouts::proofs::PlaceLemmas::ends_here, layouts::proofs::PlaceLemmas::ends_read))]
#[unsafe(no_mangle)]
pub extern "C" fn wispuddera_read_server_hello(bytes: &[u8], out: &mut ServerHello) -> u32
    ensures { IsAnswered (ShowsServerHello bytes.now out.new) (reading server_hello bytes.now)
        result out.new.missing }
{
    match server_hello_with_places(bytes) {
        Ok((rest, (hello, places))) => {
            *out = in_numbers(bytes, &hello, places, rest);
            READ
        }
        Err(e) => {
            let refusal = Refusal::of(e);
            out.missing = refusal.missing;
            refusal.status
        }
    }
}

/// Parses the body of a DTLS ServerHello (RFC 6347, section 4.3.2). It has the form of TLS, with
/// any version.
#[tactic(auto, using(layouts::proofs::OneAnswerLemmas::read_allowed, layouts::proofs::PlaceLemmas::ends_here, layouts::proofs::PlaceLemmas::ends_read))]
#[unsafe(no_mangle)]
pub extern "C" fn wispuddera_read_dtls_server_hello(bytes: &[u8], out: &mut ServerHello) -> u32
    ensures { IsAnswered (ShowsServerHello bytes.now out.new) (reading server_hello_any bytes.now)
        result out.new.missing }
{
    match dtls_server_hello_with_places(bytes) {
        Ok((rest, (hello, places))) => {
            *out = in_numbers(bytes, &hello, places, rest);
            READ
        }
        Err(e) => {
            let refusal = Refusal::of(e);
            out.missing = refusal.missing;
            refusal.status
        }
    }
}
