//! Versions of TLS and DTLS.
ghost use Rattle.std.specs.Prelude.{Some, codes, ◌≡◌, IfOk, string_bytes};
ghost use Rattle.layouts.specs.Layout.{number};
ghost use Rattle.layouts.specs.Answers.{Gives};
ghost use Rattle.tls_base.specs.Names.{name, hexadecimal};
ghost use Rattle.tls_base.specs.Constants.{protocol_versions};
ghost use Rattle.layouts.specs.Bytes.{bytes_of};

use crate::name::{names, write_name};
use layouts::{IResult, Number, OutOfMemory, number2, parsed};
use std::alloc::Global;
use std::fmt;

/// A version of TLS or DTLS: the ProtocolVersion of RFC 5246, section 6.2.1, 2 bytes, big-endian.
///
/// The version in a record may be older than the one in use. Up to TLS 1.2 the version in use is
/// that of the ServerHello. In TLS 1.3 both hellos have 0x0303, and the version is in their
/// extension supported_versions (RFC 8446, section 4.2.1).
#[derive(Clone, Copy, Debug, Default, PartialEq, Eq)]
pub struct TlsVersion(pub u16);

impl TlsVersion {
    /// SSL 3.0 (RFC 6101).
    pub const Ssl30: TlsVersion = TlsVersion(0x0300);

    /// TLS 1.0 (RFC 2246).
    pub const Tls10: TlsVersion = TlsVersion(0x0301);

    /// TLS 1.1 (RFC 4346).
    pub const Tls11: TlsVersion = TlsVersion(0x0302);

    /// TLS 1.2 (RFC 5246).
    pub const Tls12: TlsVersion = TlsVersion(0x0303);

    /// TLS 1.3 (RFC 8446).
    pub const Tls13: TlsVersion = TlsVersion(0x0304);

    /// TLS 1.3 of draft-ietf-tls-tls13-18.
    pub const Tls13Draft18: TlsVersion = TlsVersion(0x7f12);

    /// TLS 1.3 of draft-ietf-tls-tls13-19.
    pub const Tls13Draft19: TlsVersion = TlsVersion(0x7f13);

    /// TLS 1.3 of draft-ietf-tls-tls13-20.
    pub const Tls13Draft20: TlsVersion = TlsVersion(0x7f14);

    /// TLS 1.3 of draft-ietf-tls-tls13-21.
    pub const Tls13Draft21: TlsVersion = TlsVersion(0x7f15);

    /// TLS 1.3 of draft-ietf-tls-tls13-22.
    pub const Tls13Draft22: TlsVersion = TlsVersion(0x7f16);

    /// TLS 1.3 of draft-ietf-tls-tls13-23.
    pub const Tls13Draft23: TlsVersion = TlsVersion(0x7f17);

    /// DTLS 1.0 (RFC 4347).
    pub const DTls10: TlsVersion = TlsVersion(0xfeff);

    /// The number that DTLS 1.1 would have. There is no such version (RFC 6347, section 1).
    pub const DTls11: TlsVersion = TlsVersion(0xfefe);

    /// DTLS 1.2 (RFC 6347).
    pub const DTls12: TlsVersion = TlsVersion(0xfefd);

    /// Returns the two bytes of the number, big-endian.
    pub const fn to_be_bytes(&self) -> [u8; 2]
        ensures { result ≡ bytes_of 2 self.now.0 }
    {
        self.0.to_be_bytes()
    }

    /// Returns the number in lower-case hexadecimal, without prefix and leading zeros.
    ///
    /// Fails only if memory runs out.
    pub fn lower_hex(&self, alloc: Global) -> Result<String, OutOfMemory>
        ensures { IfOk result (λ s. string_bytes s ≡ hexadecimal self.now.0) }
    {
        let n = self.0;
        Ok(format!(in alloc; "{n:x}")?)
    }

    /// Reads 2 bytes, big-endian. `Incomplete` with the number of missing bytes, 2 or 1.
    pub fn parse(i: &[u8]) -> IResult<&[u8], Self>
        ensures { Gives (λ v. v.0) (number 2) i.now result }
    {
        let (i, n) = parsed!(number2(i));
        Ok((i, TlsVersion(n)))
    }
}

impl Number for TlsVersion {
    ghost WIDTH = { 2 };

    const WIDTH: usize = 2;

    ghost value = { λ v. v.0 };

    #[inline(always)]
    fn read_present(i: &[u8]) -> (&[u8], Self) {
        let (i, n) = u16::read_present(i);
        (i, TlsVersion(n))
    }
}

/// The constants, each as its number and its name.
static NAMES: &[(u16, &str)] = names!(
    TlsVersion: Ssl30, Tls10, Tls11, Tls12, Tls13, Tls13Draft18, Tls13Draft19, Tls13Draft20,
    Tls13Draft21, Tls13Draft22, Tls13Draft23, DTls10, DTls11, DTls12
);

impl fmt::Display for TlsVersion {
    ghost output = { λ v. Some (name (codes "TlsVersion") protocol_versions v.0) };

    fn fmt<W: fmt::Write>(&self, f: &mut fmt::Formatter<W>) -> fmt::Result {
        write_name(f, "TlsVersion", NAMES, self.0)
    }
}

impl From<TlsVersion> for u16 {
    ghost from_gives = { λ v n. n ≡ v.0 };

    fn from(v: TlsVersion) -> u16 {
        v.0
    }
}
