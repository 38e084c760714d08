//! The kind of a handshake message, from its bytes and without allocation.
ghost use Rattle.std.specs.Prelude.{◌≡◌};
ghost use Rattle.tls_flow.specs.Bytes.{kind_of_bytes, kind_of_body, kind_of_datagram_body};
ghost use Rattle.tls_flow.specs.Messages.{kind_of_type};

use crate::handshake::HandshakeMessage;
use crate::symbol::Kind;
use tls_base::TlsHandshakeType;
use tls_hs::TlsMessageHandshake;

impl Kind {
    /// The kind of a handshake message by its type alone. A ServerHello counts as one below TLS
    /// 1.3.
    pub fn of_type(msg_type: TlsHandshakeType) -> Kind
        ensures { result ≡ kind_of_type msg_type.0 }
    {
        match msg_type {
            TlsHandshakeType::HelloRequest => Kind::HelloRequest,
            TlsHandshakeType::ClientHello => Kind::ClientHello,
            TlsHandshakeType::ServerHello => Kind::ServerHello,
            TlsHandshakeType::HelloVerifyRequest => Kind::HelloVerifyRequest,
            TlsHandshakeType::NewSessionTicket => Kind::NewSessionTicket,
            TlsHandshakeType::HelloRetryRequest => Kind::HelloRetryRequest,
            TlsHandshakeType::Certificate => Kind::Certificate,
            TlsHandshakeType::ServerKeyExchange => Kind::ServerKeyExchange,
            TlsHandshakeType::CertificateRequest => Kind::CertificateRequest,
            TlsHandshakeType::ServerDone => Kind::ServerDone,
            TlsHandshakeType::CertificateVerify => Kind::CertificateVerify,
            TlsHandshakeType::ClientKeyExchange => Kind::ClientKeyExchange,
            TlsHandshakeType::CertificateStatus => Kind::CertificateStatus,
            TlsHandshakeType::EncryptedExtensions => Kind::Other,
            _ if TlsMessageHandshake::is_read(msg_type) => Kind::Other,
            _ => Kind::Unknown,
        }
    }

    /// The kind of a TLS handshake message with this type and body. A ServerHello is parsed,
    /// including those of the drafts of TLS 1.3.
    pub fn of_body(msg_type: TlsHandshakeType, body: &[u8]) -> Kind
        ensures { result ≡ kind_of_body msg_type.0 body.now }
    {
        HandshakeMessage::of_stream(msg_type, body).kind()
    }

    /// The kind of a DTLS handshake message with this type and body. A ServerHello is parsed
    /// whatever its version.
    pub fn of_datagram_body(msg_type: TlsHandshakeType, body: &[u8]) -> Kind
        ensures { result ≡ kind_of_datagram_body msg_type.0 body.now }
    {
        HandshakeMessage::of_datagrams(msg_type, body).datagram_kind()
    }

    /// The kind of a TLS handshake message that starts with its header of 4 bytes;
    /// [`Kind::Unknown`] if it isn't whole.
    pub fn of_bytes(message: &[u8]) -> Kind
        ensures { result ≡ kind_of_bytes message.now }
    {
        Kind::of_message(HandshakeMessage::read(message).as_ref())
    }
}
