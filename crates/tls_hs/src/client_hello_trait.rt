//! The common interface of the ClientHellos of TLS and of DTLS.
ghost use Rattle.std.specs.Prelude.{◌≡◌, map, IfOk};
ghost use Rattle.std.specs.Option.{option_map};
ghost use Rattle.tls_base.specs.CipherTable.{suite_of_id};
ghost use Rattle.tls_hs.specs.Hello.{ClientHello as Hello, random_time as time_of, random_bytes as bytes_of};

use layouts::OutOfMemory;
use std::alloc::Global;
use tls_base::{CipherTable, TlsCipherSuite, TlsCipherSuiteID, TlsCompressionID, TlsVersion};

/// A ClientHello of TLS or of DTLS (RFC 5246, section 7.4.1.2).
pub trait ClientHello<'a> {
    /// The hello's value, regardless of its place in memory.
    ghost hello: { Self → Hello };

    /// Returns the version that the client offers up to TLS 1.2. In TLS 1.3 it is 0x0303, and the
    /// offered versions are in the extension supported_versions (RFC 8446, section 4.2.1).
    fn version(&self) -> TlsVersion
        ensures { result.0 ≡ (hello self.now).client_version };

    /// Returns the client's random, including the time.
    fn random(&self) -> &'a [u8]
        ensures { result.now ≡ (hello self.now).random };

    /// Returns the first 4 bytes of the random as a number, big-endian, which some clients set to
    /// the time in seconds; 0 if there are fewer.
    fn rand_time(&self) -> u32
        ensures { result ≡ time_of (hello self.now).random };

    /// Returns the random after its first 4 bytes; empty if there are fewer.
    fn rand_bytes(&self) -> &'a [u8]
        ensures { result.now ≡ bytes_of (hello self.now).random };

    /// Returns the id of the session that the client would resume.
    fn session_id(&self) -> Option<&'a [u8]>
        ensures { option_map (λ x. x.now) result ≡ (hello self.now).session_id };

    /// Returns the cipher suites that the client offers, in its order.
    fn ciphers(&self) -> &Vec<TlsCipherSuiteID>
        ensures { map (λ x. x.0) result.now.items ≡ (hello self.now).cipher_suites };

    /// Returns the table's suite for each offered cipher suite; `None` if the table has none.
    ///
    /// `OutOfMemory` if the list can't be allocated.
    fn cipher_suites<'t>(
        &self,
        alloc: Global,
        table: &'t CipherTable,
    ) -> Result<Vec<Option<&'t TlsCipherSuite>>, OutOfMemory>
        ensures { IfOk result
            (λ v. map (option_map (λ s. s.now)) v.items ≡ map (suite_of_id table.now)
            (hello self.now).cipher_suites) };

    /// Returns the compression methods that the client offers, in its order.
    fn comp(&self) -> &Vec<TlsCompressionID>
        ensures { map (λ x. x.0) result.now.items ≡ (hello self.now).compression_methods };

    /// Returns the extensions, without their length.
    fn ext(&self) -> Option<&'a [u8]>
        ensures { option_map (λ x. x.now) result ≡ (hello self.now).extensions };
}
