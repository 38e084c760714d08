//! ClientHellos.
ghost use Rattle.layouts.specs.Reading.{reading};
ghost use Rattle.tls_hs.specs.Hello.{client_hello};
ghost use Rattle.wispuddera_c.specs.Hello.{ShowsClientHello};
ghost use Rattle.wispuddera_c.specs.Status.{IsAnswered};

use crate::place::{Place, held_within, offset_of, within};
use crate::status::{READ, Refusal};
use tls_hs::ClientHelloView;

/// A ClientHello (RFC 5246, section 7.4.1.2): its version, the places of its parts in its body, and
/// the offset of what follows it.
#[repr(C)]
#[derive(Clone, Copy)]
pub struct ClientHello {
    /// How many bytes are missing, if the status is `INCOMPLETE`; else 0.
    pub missing: usize,
    /// The 32 bytes of the random.
    pub random: Place,
    /// The session ID, without its length; empty if there is none.
    pub session_id: Place,
    /// The cipher suites, 2 bytes each, without their length.
    pub cipher_suites: Place,
    /// The compression methods, 1 byte each, without their length.
    pub compression_methods: Place,
    /// The extensions, without their length; empty if no whole block follows.
    pub extensions: Place,
    /// The offset of what follows.
    pub next: usize,
    /// The version field.
    pub version: u16,
    /// Whether a whole block of extensions follows.
    pub has_extensions: bool,
}

/// Parses the body of a ClientHello.
#[tactic(auto, using(layouts::proofs::OneAnswerLemmas::read_allowed, layouts::proofs::PlaceLemmas::ends_here, layouts::proofs::PlaceLemmas::ends_read))]
#[unsafe(no_mangle)]
pub extern "C" fn wispuddera_read_client_hello(bytes: &[u8], out: &mut ClientHello) -> u32
    ensures { IsAnswered (ShowsClientHello bytes.now out.new) (reading client_hello bytes.now)
        result out.new.missing }
{
    match ClientHelloView::parse_with_places(bytes) {
        Ok((rest, (hello, places))) => {
            *out = ClientHello {
                missing: 0,
                random: within(bytes, places.random),
                session_id: held_within(bytes, places.session_id),
                cipher_suites: within(bytes, places.ciphers),
                compression_methods: within(bytes, places.comp),
                extensions: held_within(bytes, places.ext),
                next: offset_of(bytes, rest),
                version: hello.version.0,
                has_extensions: hello.ext.is_some(),
            };
            READ
        }
        Err(e) => {
            let refusal = Refusal::of(e);
            out.missing = refusal.missing;
            refusal.status
        }
    }
}
