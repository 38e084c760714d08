//! The ClientHello in place (RFC 5246, section 7.4.1.2).
ghost use Rattle.std.specs.Prelude.{IfOk, None, Some};
ghost use Rattle.std.specs.Option.{option_map};
ghost use Rattle.layouts.specs.Answers.{Gives};
ghost use Rattle.layouts.specs.Layout.{choose, counted, done, mapped};
ghost use Rattle.tls_hs.specs.Hello.{client_hello, client_hello_with};
ghost use Rattle.tls_hs.specs.InPlace.{view_client_hello_in_place, view_fields_in_place};
ghost use Rattle.tls_hs.specs.Places.{LiesAsClientHello};

use crate::hello_fields::{
    cipher_suites_in_place, compressions_in_place, extension_block, session_id,
};
use layouts::{IResult, Items, block, counted1};
use tls_base::{TlsCipherSuiteID, TlsCompressionID, TlsVersion};

/// The body of a ClientHello (RFC 5246, section 7.4.1.2), as [`crate::TlsClientHelloContents`],
/// with its lists in place.
#[derive(Clone, Copy, Debug, PartialEq)]
pub struct ClientHelloView<'a> {
    /// The version that the client offers up to TLS 1.2. In TLS 1.3 it is 0x0303, and the offered
    /// versions are in the extension supported_versions (RFC 8446, section 4.2.1).
    pub version: TlsVersion,
    /// The random, 32 bytes.
    pub random: &'a [u8],
    /// The session id, 1 to 32 bytes; `None` if it is empty.
    pub session_id: Option<&'a [u8]>,
    /// The cipher suites that the client offers, in its order.
    pub ciphers: Items<'a, TlsCipherSuiteID>,
    /// The compression methods that the client offers, in its order.
    pub comp: Items<'a, TlsCompressionID>,
    /// The extensions, without their length; `None` if no complete block follows.
    pub ext: Option<&'a [u8]>,
}

/// Reads the cookie of a ClientHello of DTLS (RFC 6347, section 4.2.1), 1 byte of length and that
/// many bytes, if `has_cookie`.
#[inline(always)]
fn cookie_where(i: &[u8], has_cookie: bool) -> IResult<&[u8], Option<&[u8]>>
    ensures { Gives (option_map (λ x. x.now))
        (choose has_cookie (mapped Some (counted 1)) (done None)) i.now result }
{
    if !has_cookie {
        return Ok((i, None));
    }
    let (i, cookie) = counted1(i)?;
    Ok((i, Some(cookie)))
}

/// Reads the fields of a ClientHello in place (RFC 5246, section 7.4.1.2). If `has_cookie`, as in
/// DTLS, a cookie follows the session id.
///
/// - `Incomplete` with the number of missing bytes, if they are missing before the extensions, but
///   not in a list.
/// - `Error` of kind `Verify` if the session id is longer than 32 bytes.
/// - `Error` of kind `LengthValue` if the length of the suites is odd, or if that of the suites or
///   of the methods is greater than the number of remaining bytes.
#[tactic(auto, using(layouts::proofs::OneAnswerLemmas::read_allowed), unfolding(crate::specs::Hello::client_hello_with))]
#[inline(always)]
pub fn client_hello_fields(
    i: &[u8],
    has_cookie: bool,
) -> IResult<&[u8], (ClientHelloView, Option<&[u8]>)>
    ensures gives { Gives view_fields_in_place
        (client_hello_with (choose has_cookie (mapped Some (counted 1)) (done None))) i.now result }
    ensures lies { IfOk result
        (λ x. LiesAsClientHello i.now x.1.0 (option_map (λ c. c.now) x.1.1)) }
{
    let (i, version) = TlsVersion::parse(i)?;
    let (i, random) = block(i, 32)?;
    let (i, session_id) = session_id(i)?;
    let (i, cookie) = cookie_where(i, has_cookie)?;
    let (i, ciphers) = cipher_suites_in_place(i)?;
    let (i, comp) = compressions_in_place(i)?;
    let (i, ext) = extension_block(i);
    let hello = ClientHelloView {
        version,
        random,
        session_id,
        ciphers,
        comp,
        ext,
    };
    Ok((i, (hello, cookie)))
}

impl<'a> ClientHelloView<'a> {
    /// Reads the body of a ClientHello in place. Gives the same answer as
    /// [`crate::parse_tls_handshake_client_hello`], but allocates nothing.
    ///
    /// The whole body is checked, except for the content of the extensions, which that call doesn't
    /// check either.
    #[tactic(auto, using(layouts::proofs::OneAnswerLemmas::read_allowed), unfolding(crate::specs::Hello::client_hello))]
    #[inline(always)]
    pub fn parse(i: &'a [u8]) -> IResult<&'a [u8], Self>
        ensures { Gives view_client_hello_in_place client_hello i.now result }
    {
        let (i, (hello, _)) = client_hello_fields(i, false)?;
        Ok((i, hello))
    }
}
