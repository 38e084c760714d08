//! The ClientHello of TLS (RFC 5246, section 7.4.1.2): its body and its reader.
ghost use Rattle.std.specs.Prelude.{◌≡◌, map, IfOk};
ghost use Rattle.layouts.specs.Answers.{GivesOrMemory};
ghost use Rattle.tls_base.specs.CipherTable.{suite_of_id};
ghost use Rattle.std.specs.Option.{option_map};
ghost use Rattle.tls_hs.specs.Hello.{view_client_hello, client_hello};

use crate::client_hello_trait::ClientHello;
use crate::client_hello_view::ClientHelloView;
use crate::hello_fields::{listed, random_bytes, random_time, suites};
use layouts::{IResult, OutOfMemory, parsed};
use std::alloc::Global;
use tls_base::{CipherTable, TlsCipherSuite, TlsCipherSuiteID, TlsCompressionID, TlsVersion};

/// The body of a ClientHello (RFC 5246, section 7.4.1.2).
#[derive(Debug, PartialEq, Drop)]
pub struct TlsClientHelloContents<'a> {
    /// The version that the client offers up to TLS 1.2. In TLS 1.3 it is 0x0303, and the offered
    /// versions are in the extension supported_versions (RFC 8446, section 4.2.1).
    pub version: TlsVersion,
    /// The random, 32 bytes.
    pub random: &'a [u8],
    /// The session id, 1 to 32 bytes; `None` if it is empty.
    pub session_id: Option<&'a [u8]>,
    /// The cipher suites that the client offers, in its order.
    pub ciphers: Vec<TlsCipherSuiteID>,
    /// The compression methods that the client offers, in its order.
    pub comp: Vec<TlsCompressionID>,
    /// The extensions, without their length; `None` if no complete block follows.
    pub ext: Option<&'a [u8]>,
}

impl<'a> TlsClientHelloContents<'a> {
    /// Returns a ClientHello with these fields, in the order of the type.
    pub fn new(
        v: u16,
        random: &'a [u8],
        sid: Option<&'a [u8]>,
        c: Vec<TlsCipherSuiteID>,
        co: Vec<TlsCompressionID>,
        e: Option<&'a [u8]>,
    ) -> Self
        ensures version { result.version.0 ≡ v }
        ensures random { result.random ≡ random.entry }
        ensures session_id { result.session_id ≡ sid.entry }
        ensures ciphers { result.ciphers ≡ c }
        ensures comp { result.comp ≡ co }
        ensures ext { result.ext ≡ e.entry }
    {
        TlsClientHelloContents {
            version: TlsVersion(v),
            random,
            session_id: sid,
            ciphers: c,
            comp: co,
            ext: e,
        }
    }

    /// Returns the field `version`.
    pub fn get_version(&self) -> TlsVersion
        ensures { result ≡ self.now.version }
    {
        self.version
    }

    /// Returns the table's suite for each cipher suite that the client offers, in its order; `None`
    /// if the table has none.
    ///
    /// `OutOfMemory` if the list can't be allocated.
    pub fn get_ciphers<'t>(
        &self,
        alloc: Global,
        table: &'t CipherTable,
    ) -> Result<Vec<Option<&'t TlsCipherSuite>>, OutOfMemory>
        ensures { IfOk result
            (λ v. map (option_map (λ s. s.now)) v.items ≡ map (suite_of_id table.now)
            (view_client_hello self.now).cipher_suites) }
    {
        suites(alloc, table, &self.ciphers)
    }

    /// Returns a copy with copied lists. Slices are shared.
    ///
    /// `OutOfMemory` if a list can't be allocated.
    pub fn try_clone(&self, alloc: Global) -> Result<Self, OutOfMemory>
        ensures { IfOk result (λ h. view_client_hello h ≡ view_client_hello self.now) }
    {
        Ok(TlsClientHelloContents {
            version: self.version,
            random: self.random,
            session_id: self.session_id,
            ciphers: Vec::from_slice(alloc, &self.ciphers)?,
            comp: Vec::from_slice(alloc, &self.comp)?,
            ext: self.ext,
        })
    }
}

impl<'a> ClientHello<'a> for TlsClientHelloContents<'a> {
    ghost hello = { view_client_hello };

    fn version(&self) -> TlsVersion {
        self.version
    }

    fn random(&self) -> &'a [u8] {
        self.random
    }

    fn rand_time(&self) -> u32 {
        random_time(self.random)
    }

    fn rand_bytes(&self) -> &'a [u8] {
        random_bytes(self.random)
    }

    fn session_id(&self) -> Option<&'a [u8]> {
        self.session_id
    }

    fn ciphers(&self) -> &Vec<TlsCipherSuiteID> {
        &self.ciphers
    }

    fn cipher_suites<'t>(
        &self,
        alloc: Global,
        table: &'t CipherTable,
    ) -> Result<Vec<Option<&'t TlsCipherSuite>>, OutOfMemory> {
        self.get_ciphers(alloc, table)
    }

    fn comp(&self) -> &Vec<TlsCompressionID> {
        &self.comp
    }

    fn ext(&self) -> Option<&'a [u8]> {
        self.ext
    }
}

/// Reads the body of a ClientHello (RFC 5246, section 7.4.1.2). All numbers are big-endian.
///
/// - 2 bytes of version, 32 of random;
/// - a session id, after 1 byte of length;
/// - cipher suites of 2 bytes each, after 2 bytes of length;
/// - compression methods of 1 byte each, after 1 byte of length;
/// - optional extensions, after 2 bytes of length.
///
/// The refusals:
///
/// - `Incomplete` with the number of missing bytes, if the version, the random, the session id or
///   one of these lengths is incomplete.
/// - `Error` of kind `Verify` if the session id is longer than 32 bytes.
/// - `Error` of kind `LengthValue` if the length of the suites is odd, or if that of the suites or
///   of the methods is greater than the number of remaining bytes.
/// - `OutOfMemory` if a list can't be allocated.
///
/// Incomplete extensions aren't refused: `ext` is `None`, and they are the rest. Any list may be
/// empty.
#[inline(always)]
pub fn parse_tls_handshake_client_hello(
    alloc: Global,
    i: &[u8],
) -> IResult<&[u8], TlsClientHelloContents>
    ensures { GivesOrMemory view_client_hello client_hello i.now result }
{
    let (i, view) = parsed!(ClientHelloView::parse(i));
    let hello = TlsClientHelloContents {
        version: view.version,
        random: view.random,
        session_id: view.session_id,
        ciphers: listed(alloc, view.ciphers)?,
        comp: listed(alloc, view.comp)?,
        ext: view.ext,
    };
    Ok((i, hello))
}
