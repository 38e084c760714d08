//! The symbols of the grammar: a message's kind and its direction.

/// The kind of a message. Messages that no rule distinguishes share a kind.
#[derive(Clone, Copy, Debug, PartialEq)]
pub enum Kind {
    /// The server asks for a ClientHello (RFC 5246, section 7.4.1.1).
    HelloRequest,
    /// A ClientHello of TLS or DTLS, of whatever version.
    ClientHello,
    /// The server asks for the client's cookie (RFC 6347, section 4.2.1).
    HelloVerifyRequest,
    /// The ServerHello of a version below TLS 1.3.
    ServerHello,
    /// The server asks for another ClientHello (RFC 8446, section 4.1.4). It is a ServerHello with
    /// a fixed random; drafts of TLS 1.3 have a message type for it.
    HelloRetryRequest,
    /// The ServerHello of TLS 1.3 (RFC 8446, section 4.1.3): its extension supported_versions names
    /// TLS 1.3, a draft of it, or DTLS 1.3 (RFC 9147, section 5.4). Those of drafts 14 to 21 count
    /// too.
    ServerHello13,
    /// A session ticket (RFC 5077, section 3.3).
    NewSessionTicket,
    /// The sender's certificates.
    Certificate,
    /// The server's part of the key exchange.
    ServerKeyExchange,
    /// The server asks for a certificate.
    CertificateRequest,
    /// The end of the server's hello.
    ServerDone,
    /// The client's signature.
    CertificateVerify,
    /// The client's part of the key exchange.
    ClientKeyExchange,
    /// The status of the server's certificate (RFC 6066, section 8).
    CertificateStatus,
    /// The sender's ChangeCipherSpec.
    ChangeCipherSpec,
    /// A record after the sender's ChangeCipherSpec, or application data.
    Encrypted,
    /// An alert of level 1, except for the two kinds that follow.
    Warning,
    /// The warning no_certificate, which a client of SSL 3.0 sends when it has no certificate (RFC
    /// 6101, section 5.6.6).
    NoCertificate,
    /// Any other alert, and close_notify, after which its sender sends nothing more (RFC 5246,
    /// section 7.2.1).
    Fatal,
    /// A heartbeat (RFC 6520).
    Heartbeat,
    /// A message of a type that isn't parsed, such as SupplementalData (RFC 4680) and
    /// CertificateURL (RFC 6066, section 5), or a record or ServerHello that is refused.
    Unknown,
    /// Any other message. No handshake has one in the clear before its end.
    Other,
}

/// The side that a message goes to.
#[derive(Clone, Copy, Debug, PartialEq)]
pub enum Direction {
    /// To the client.
    FromServer,
    /// To the server.
    ToServer,
}

/// A message of a conversation.
#[derive(Clone, Copy, Debug, PartialEq)]
pub struct Symbol {
    /// The message's kind.
    pub kind: Kind,
    /// The side it goes to.
    pub direction: Direction,
}
