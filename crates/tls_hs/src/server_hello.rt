//! The ServerHello (RFC 5246, section 7.4.1.3), and its forms in drafts of TLS 1.3.
ghost use Rattle.std.specs.Option.{option_map};
ghost use Rattle.std.specs.Prelude.{◌≡◌, None};
ghost use Rattle.layouts.specs.Answers.{Gives};
ghost use Rattle.layouts.specs.Layout.{choose, counted, done, maybe};
ghost use Rattle.tls_base.specs.CipherTable.{suite_of_id};
ghost use Rattle.tls_hs.specs.ServerHello.{is_retry_request, view_server_hello, server_hello as server_hello_layout};
ghost use Rattle.tls_hs.specs.ServerHello.{server_hello_any as server_hello_any_layout};
ghost use Rattle.tls_hs.specs.ServerHello.{server_hello_ssl30 as server_hello_ssl30_layout, server_hello_with};
ghost use Rattle.tls_hs.specs.ServerHello.{view_server_hello_draft18};
ghost use Rattle.tls_hs.specs.ServerHello.{server_hello_draft18 as server_hello_draft18_layout};
ghost use Rattle.tls_hs.specs.ServerHello.{view_hello_retry_request, hello_retry_request as hello_retry_request_layout};

use crate::hello_fields::{extension_block, session_id};
use layouts::{ErrorKind, IResult, block, parsed, refused};
use tls_base::{CipherTable, TlsCipherSuite, TlsCipherSuiteID, TlsCompressionID, TlsVersion};

/// The random of a ServerHello that is a HelloRetryRequest (RFC 8446, section 4.1.3).
static HELLO_RETRY_RANDOM: [u8; 32] = [
    0xcf, 0x21, 0xad, 0x74, 0xe5, 0x9a, 0x61, 0x11, 0xbe, 0x1d, 0x8c, 0x02, 0x1e, 0x65, 0xb8, 0x91,
    0xc2, 0xa2, 0x11, 0x16, 0x7a, 0xbb, 0x8c, 0x5e, 0x07, 0x9e, 0x09, 0xe2, 0xc8, 0xa8, 0x33, 0x9c,
];

/// The body of a ServerHello (RFC 5246, section 7.4.1.3).
#[derive(Clone, Debug, PartialEq, Drop)]
pub struct TlsServerHelloContents<'a> {
    /// The version that the server chose up to TLS 1.2. In TLS 1.3 it is 0x0303, and the chosen
    /// version is in the extension supported_versions (RFC 8446, section 4.2.1).
    pub version: TlsVersion,
    /// The random, 32 bytes.
    pub random: &'a [u8],
    /// The session id, 1 to 32 bytes; `None` if it is empty.
    pub session_id: Option<&'a [u8]>,
    /// The cipher suite that the server chose.
    pub cipher: TlsCipherSuiteID,
    /// The compression method that the server chose.
    pub compression: TlsCompressionID,
    /// The extensions, without their length; `None` if no complete block follows, and in SSL 3.0.
    pub ext: Option<&'a [u8]>,
}

impl<'a> TlsServerHelloContents<'a> {
    /// Returns a ServerHello with these fields, in the order of the type.
    pub fn new(
        v: u16,
        random: &'a [u8],
        sid: Option<&'a [u8]>,
        c: u16,
        co: u8,
        e: Option<&'a [u8]>,
    ) -> Self
        ensures version { result.version.0 ≡ v }
        ensures random { result.random ≡ random.entry }
        ensures session_id { result.session_id ≡ sid.entry }
        ensures cipher { result.cipher.0 ≡ c }
        ensures compression { result.compression.0 ≡ co }
        ensures ext { result.ext ≡ e.entry }
    {
        TlsServerHelloContents {
            version: TlsVersion(v),
            random,
            session_id: sid,
            cipher: TlsCipherSuiteID(c),
            compression: TlsCompressionID(co),
            ext: e,
        }
    }

    /// Returns the field `version`.
    pub fn get_version(&self) -> TlsVersion
        ensures { result ≡ self.now.version }
    {
        self.version
    }

    /// Returns whether this is a HelloRetryRequest of TLS 1.3, which has a fixed random (RFC 8446,
    /// section 4.1.3).
    pub fn is_retry_request(&self) -> bool
        ensures { result ≡ is_retry_request (view_server_hello self.now) }
    {
        self.random == HELLO_RETRY_RANDOM.as_slice()
    }

    /// Returns the table's suite for the cipher suite that the server chose, if there is one.
    pub fn get_cipher<'t>(&self, table: &'t CipherTable) -> Option<&'t TlsCipherSuite>
        ensures { option_map (λ s. s.now) result ≡ suite_of_id table.now self.now.cipher.0 }
    {
        table.by_id(self.cipher.0)
    }
}

/// The body of a ServerHello of draft 18 of TLS 1.3 (draft-ietf-tls-tls13-18, section 4.1.3).
#[derive(Clone, Debug, PartialEq, Drop)]
pub struct TlsServerHelloV13Draft18Contents<'a> {
    /// The version that the server chose.
    pub version: TlsVersion,
    /// The random, 32 bytes.
    pub random: &'a [u8],
    /// The cipher suite that the server chose.
    pub cipher: TlsCipherSuiteID,
    /// The extensions, without their length; `None` if no complete block follows.
    pub ext: Option<&'a [u8]>,
}

/// The body of a HelloRetryRequest of drafts of TLS 1.3 (draft-ietf-tls-tls13-19, section 4.1.4).
#[derive(Clone, Debug, PartialEq, Drop)]
pub struct TlsHelloRetryRequestContents<'a> {
    /// The version that the server chose.
    pub version: TlsVersion,
    /// The cipher suite that the server chose.
    pub cipher: TlsCipherSuiteID,
    /// The extensions, without their length; `None` if no complete block follows.
    pub ext: Option<&'a [u8]>,
}

/// Reads the fields of a ServerHello; extensions may follow if `extensible`.
#[inline(always)]
fn server_hello_fields(i: &[u8], extensible: bool) -> IResult<&[u8], TlsServerHelloContents>
    ensures { Gives view_server_hello
        (server_hello_with (choose extensible (maybe (counted 2)) (done None))) i.now result }
{
    let (i, version) = parsed!(TlsVersion::parse(i));
    let (i, random) = parsed!(block(i, 32));
    let (i, session_id) = parsed!(session_id(i));
    let (i, cipher) = parsed!(TlsCipherSuiteID::parse(i));
    let (i, compression) = parsed!(TlsCompressionID::parse(i));
    let (i, ext) = if extensible {
        extension_block(i)
    } else {
        (i, None)
    };
    let hello = TlsServerHelloContents {
        version,
        random,
        session_id,
        cipher,
        compression,
        ext,
    };
    Ok((i, hello))
}

/// Reads the body of a ServerHello of any version (RFC 5246, section 7.4.1.3). All numbers are
/// big-endian.
///
/// - 2 bytes of version, 32 of random;
/// - a session id, after 1 byte of length;
/// - 2 bytes of cipher suite, 1 of compression method;
/// - optional extensions, after 2 bytes of length.
///
/// The refusals:
///
/// - `Incomplete` with the number of missing bytes, if they are missing before the extensions.
/// - `Error` of kind `Verify` if the session id is longer than 32 bytes.
///
/// Incomplete extensions aren't refused: `ext` is `None`, and they are the rest.
#[tactic(auto, using(layouts::proofs::OneAnswerLemmas::read_allowed), unfolding(crate::specs::ServerHello::server_hello_any))]
pub fn server_hello_any(i: &[u8]) -> IResult<&[u8], TlsServerHelloContents>
    ensures { Gives view_server_hello server_hello_any_layout i.now result }
{
    server_hello_fields(i, true)
}

/// Reads the body of a ServerHello of SSL 3.0 (RFC 6101, section 5.6.1.3): as [`server_hello_any`],
/// without extensions. `ext` is `None`.
#[tactic(auto, using(layouts::proofs::OneAnswerLemmas::read_allowed), unfolding(crate::specs::ServerHello::server_hello_ssl30))]
fn server_hello_ssl30(i: &[u8]) -> IResult<&[u8], TlsServerHelloContents>
    ensures { Gives view_server_hello server_hello_ssl30_layout i.now result }
{
    server_hello_fields(i, false)
}

/// Reads the body of a ServerHello up to TLS 1.2 (RFC 5246, section 7.4.1.3), by its version, the
/// first 2 bytes: as [`crate::parts::server_hello_any`] for 0x0301 to 0x0303, and without the
/// extensions for 0x0300.
///
/// - `Incomplete` with the number of missing bytes, if they are missing before the extensions.
/// - `Error` of kind `Tag` for any other version, whatever follows it.
/// - `Error` of kind `Verify` if the session id is longer than 32 bytes.
#[tactic(auto, using(layouts::proofs::OneAnswerLemmas::read_allowed), unfolding(crate::specs::ServerHello::server_hello))]
pub fn parse_tls_handshake_server_hello(i: &[u8]) -> IResult<&[u8], TlsServerHelloContents>
    ensures { Gives view_server_hello server_hello_layout i.now result }
{
    let (_, version) = parsed!(TlsVersion::parse(i));
    match version.0 {
        0x0300 => server_hello_ssl30(i),
        0x0301..=0x0303 => server_hello_any(i),
        _ => refused(i, ErrorKind::Tag),
    }
}

/// Reads the body of a ServerHello of draft 18 of TLS 1.3 (draft-ietf-tls-tls13-18, section 4.1.3):
/// 2 bytes of version, 32 of random, 2 of cipher suite, and optional extensions after 2 bytes of
/// length.
///
/// `Incomplete` with the number of missing bytes, if they are missing before the extensions.
#[tactic(auto, using(layouts::proofs::OneAnswerLemmas::read_allowed), unfolding(crate::specs::ServerHello::server_hello_draft18))]
pub(crate) fn server_hello_draft18(i: &[u8]) -> IResult<&[u8], TlsServerHelloV13Draft18Contents>
    ensures { Gives view_server_hello_draft18 server_hello_draft18_layout i.now result }
{
    let (i, version) = parsed!(TlsVersion::parse(i));
    let (i, random) = parsed!(block(i, 32));
    let (i, cipher) = parsed!(TlsCipherSuiteID::parse(i));
    let (i, ext) = extension_block(i);
    let hello = TlsServerHelloV13Draft18Contents {
        version,
        random,
        cipher,
        ext,
    };
    Ok((i, hello))
}

/// Reads the body of a HelloRetryRequest (draft-ietf-tls-tls13-19, section 4.1.4): 2 bytes of
/// version, 2 of cipher suite, and optional extensions after 2 bytes of length.
///
/// `Incomplete` with the number of missing bytes, if they are missing before the extensions.
#[tactic(auto, using(layouts::proofs::OneAnswerLemmas::read_allowed), unfolding(crate::specs::ServerHello::hello_retry_request))]
pub(crate) fn hello_retry_request(i: &[u8]) -> IResult<&[u8], TlsHelloRetryRequestContents>
    ensures { Gives view_hello_retry_request hello_retry_request_layout i.now result }
{
    let (i, version) = parsed!(TlsVersion::parse(i));
    let (i, cipher) = parsed!(TlsCipherSuiteID::parse(i));
    let (i, ext) = extension_block(i);
    let request = TlsHelloRetryRequestContents {
        version,
        cipher,
        ext,
    };
    Ok((i, request))
}
