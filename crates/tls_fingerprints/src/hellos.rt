//! The fields of a hello that a fingerprint uses.
use layouts::Items;
use tls_base::{TlsCipherSuiteID, TlsVersion};

/// The transport of a ClientHello.
#[derive(Clone, Copy, Debug, PartialEq)]
pub enum Transport {
    /// TLS over TCP.
    Tcp,
    /// DTLS over UDP.
    Udp,
    /// QUIC (RFC 9001).
    Quic,
}

/// The fields of a ClientHello that its fingerprints use (RFC 8446, section 4.1.2).
#[derive(Clone, Copy, Debug, PartialEq)]
pub struct ClientHelloParts<'a> {
    /// The version field of the hello: 0x0303 in TLS 1.3.
    pub version: TlsVersion,
    /// The cipher suites that the client offers, in its order.
    pub ciphers: Items<'a, TlsCipherSuiteID>,
    /// The bytes of the extensions, without their length; `None` if there are none.
    pub ext: Option<&'a [u8]>,
}

/// The fields of a ServerHello that its fingerprint uses (RFC 8446, section 4.1.3).
#[derive(Clone, Copy, Debug, PartialEq)]
pub struct ServerHelloParts<'a> {
    /// The version field of the hello: 0x0303 in TLS 1.3.
    pub version: TlsVersion,
    /// The cipher suite that the server chose.
    pub cipher: TlsCipherSuiteID,
    /// The bytes of the extensions, without their length; `None` if there are none.
    pub ext: Option<&'a [u8]>,
}
