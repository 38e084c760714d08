//! Hellos of DTLS.
#![tactic(auto, using(layouts::proofs::OneAnswerLemmas::read_allowed), unfolding(crate::specs::DtlsHello::hello_verify_request))]

ghost use Rattle.layouts.specs.Answers.{Gives, GivesOrMemory};
ghost use Rattle.dtls_records.specs.DtlsHello.{view_client_hello, client_hello as client_hello_layout};
ghost use Rattle.dtls_records.specs.DtlsHello.{view_hello_verify_request};
ghost use Rattle.dtls_records.specs.DtlsHello.{hello_verify_request as hello_verify_request_layout};

use crate::hello_view::DTLSClientHelloView;
use layouts::{IResult, OutOfMemory, counted1, parsed};
use std::alloc::Global;
use tls_base::{CipherTable, TlsCipherSuite, TlsCipherSuiteID, TlsCompressionID, TlsVersion};
use tls_hs::ClientHello;
use tls_hs::parts::{listed, random_bytes, random_time, suites};

/// The body of a ClientHello of DTLS (RFC 6347, section 4.2.1).
#[derive(Debug, PartialEq, Drop)]
pub struct DTLSClientHello<'a> {
    /// The version that the client offers.
    pub version: TlsVersion,
    /// The random, 32 bytes.
    pub random: &'a [u8],
    /// The session id, 1 to 32 bytes; `None` if it is empty.
    pub session_id: Option<&'a [u8]>,
    /// The cookie from the server's HelloVerifyRequest; empty in a first ClientHello.
    pub cookie: &'a [u8],
    /// The cipher suites that the client offers, in its order.
    pub ciphers: Vec<TlsCipherSuiteID>,
    /// The compression methods that the client offers, in its order.
    pub comp: Vec<TlsCompressionID>,
    /// The extensions, without their length; `None` if no complete block follows.
    pub ext: Option<&'a [u8]>,
}

impl<'a> ClientHello<'a> for DTLSClientHello<'a> {
    ghost hello = { λ h. (view_client_hello h).hello };

    fn version(&self) -> TlsVersion {
        self.version
    }

    fn random(&self) -> &'a [u8] {
        self.random
    }

    fn rand_time(&self) -> u32 {
        random_time(self.random)
    }

    fn rand_bytes(&self) -> &'a [u8] {
        random_bytes(self.random)
    }

    fn session_id(&self) -> Option<&'a [u8]> {
        self.session_id
    }

    fn ciphers(&self) -> &Vec<TlsCipherSuiteID> {
        &self.ciphers
    }

    fn cipher_suites<'t>(
        &self,
        alloc: Global,
        table: &'t CipherTable,
    ) -> Result<Vec<Option<&'t TlsCipherSuite>>, OutOfMemory> {
        suites(alloc, table, &self.ciphers)
    }

    fn comp(&self) -> &Vec<TlsCompressionID> {
        &self.comp
    }

    fn ext(&self) -> Option<&'a [u8]> {
        self.ext
    }
}

/// The body of a HelloVerifyRequest (RFC 6347, section 4.2.1).
#[derive(Debug, PartialEq, Drop)]
pub struct DTLSHelloVerifyRequest<'a> {
    /// The version that the server uses.
    pub server_version: TlsVersion,
    /// The cookie that the client must send back.
    pub cookie: &'a [u8],
}

/// Reads the body of a ClientHello of DTLS (RFC 6347, section 4.2.1): as that of TLS, with a cookie
/// after 1 byte of length before the cipher suites.
///
/// - `Incomplete` with the number of missing bytes, if they are missing before the extensions, but
///   not in a list.
/// - `Error` of kind `Verify` if the session id is longer than 32 bytes.
/// - `Error` of kind `LengthValue` if the length of the suites is odd, or if that of the suites or
///   of the methods is greater than the number of remaining bytes.
/// - `OutOfMemory` if a list can't be allocated.
#[inline(always)]
pub(crate) fn client_hello(alloc: Global, i: &[u8]) -> IResult<&[u8], DTLSClientHello>
    ensures { GivesOrMemory view_client_hello client_hello_layout i.now result }
{
    let (i, view) = parsed!(DTLSClientHelloView::parse(i));
    let hello = DTLSClientHello {
        version: view.version,
        random: view.random,
        session_id: view.session_id,
        cookie: view.cookie,
        ciphers: listed(alloc, view.ciphers)?,
        comp: listed(alloc, view.comp)?,
        ext: view.ext,
    };
    Ok((i, hello))
}

/// Reads the body of a HelloVerifyRequest (RFC 6347, section 4.2.1): 2 bytes of version, and a
/// cookie after 1 byte of length.
///
/// `Incomplete` with the number of missing bytes.
pub(crate) fn hello_verify_request(i: &[u8]) -> IResult<&[u8], DTLSHelloVerifyRequest>
    ensures { Gives view_hello_verify_request hello_verify_request_layout i.now result }
{
    let (i, server_version) = parsed!(TlsVersion::parse(i));
    let (i, cookie) = parsed!(counted1(i));
    let request = DTLSHelloVerifyRequest {
        server_version,
        cookie,
    };
    Ok((i, request))
}
