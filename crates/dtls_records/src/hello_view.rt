//! The ClientHello of DTLS in place (RFC 6347, section 4.2.1).
ghost use Rattle.std.specs.Prelude.{◌≡◌};
ghost use Rattle.std.specs.Option.{option_map};
ghost use Rattle.layouts.specs.Answers.{Gives};
ghost use Rattle.layouts.specs.Text.{held};
ghost use Rattle.dtls_records.specs.DtlsHello.{client_hello};
ghost use Rattle.dtls_records.specs.DtlsInPlace.{view_client_hello_in_place};

use layouts::{IResult, Items, parsed};
use tls_base::{TlsCipherSuiteID, TlsCompressionID, TlsVersion};
use tls_hs::ClientHelloView;
use tls_hs::parts::{client_hello_fields, held_bytes};

/// The body of a ClientHello of DTLS (RFC 6347, section 4.2.1), as [`crate::DTLSClientHello`], with
/// its lists in place.
#[derive(Clone, Copy, Debug, PartialEq)]
pub struct DTLSClientHelloView<'a> {
    /// The version that the client offers.
    pub version: TlsVersion,
    /// The random, 32 bytes.
    pub random: &'a [u8],
    /// The session id, 1 to 32 bytes; `None` if it is empty.
    pub session_id: Option<&'a [u8]>,
    /// The cookie from the server's HelloVerifyRequest; empty in a first ClientHello.
    pub cookie: &'a [u8],
    /// The cipher suites that the client offers, in its order.
    pub ciphers: Items<'a, TlsCipherSuiteID>,
    /// The compression methods that the client offers, in its order.
    pub comp: Items<'a, TlsCompressionID>,
    /// The extensions, without their length; `None` if no complete block follows.
    pub ext: Option<&'a [u8]>,
}

impl<'a> DTLSClientHelloView<'a> {
    /// Returns the hello with the fields that TLS has too and this cookie, which is empty if it is
    /// `None`.
    #[inline(always)]
    pub fn with_cookie(hello: ClientHelloView<'a>, cookie: Option<&'a [u8]>) -> Self
        ensures version { result.version ≡ hello.entry.version }
        ensures random { result.random ≡ hello.entry.random }
        ensures session_id { result.session_id ≡ hello.entry.session_id }
        ensures cookie { result.cookie.now ≡ held (option_map (λ x. x.now) cookie.entry) }
        ensures ciphers { result.ciphers ≡ hello.entry.ciphers }
        ensures comp { result.comp ≡ hello.entry.comp }
        ensures ext { result.ext ≡ hello.entry.ext }
    {
        DTLSClientHelloView {
            version: hello.version,
            random: hello.random,
            session_id: hello.session_id,
            cookie: held_bytes(cookie),
            ciphers: hello.ciphers,
            comp: hello.comp,
            ext: hello.ext,
        }
    }

    /// Reads the body of a ClientHello of DTLS in place: as that of TLS, with a cookie after 1 byte
    /// of length before the cipher suites.
    ///
    /// The whole body is checked, except for the content of the extensions. The refusals are those
    /// of [`crate::parse_dtls_message_handshake`] on such a body.
    #[tactic(auto, using(layouts::proofs::OneAnswerLemmas::read_allowed), unfolding(crate::specs::DtlsHello::client_hello))]
    #[inline(always)]
    pub fn parse(i: &'a [u8]) -> IResult<&'a [u8], Self>
        ensures { Gives view_client_hello_in_place client_hello i.now result }
    {
        let (i, (hello, cookie)) = parsed!(client_hello_fields(i, true));
        Ok((i, DTLSClientHelloView::with_cookie(hello, cookie)))
    }
}
