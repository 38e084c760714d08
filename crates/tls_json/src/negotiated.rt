//! What a ServerHello chose. The fields of key exchanges and signatures after it depend on that.
use tls_base::{TlsCipherSuiteID, TlsHandshakeType, TlsVersion};
use tls_flow::HandshakeMessage;
use tls_hs::TlsMessageHandshake;

/// The version and the cipher suite of a ServerHello.
#[derive(Clone, Copy)]
pub struct NegotiatedParameters {
    pub(crate) version: TlsVersion,
    pub(crate) cipher: TlsCipherSuiteID,
}

impl NegotiatedParameters {
    /// Returns what a message chose; `None` if it isn't a ServerHello, or can't be parsed.
    pub fn of(message: &HandshakeMessage<'_>) -> Option<NegotiatedParameters> {
        let Some(read) = &message.server_hello else {
            return None;
        };
        match &read.message {
            TlsMessageHandshake::ServerHello(hello) => Some(NegotiatedParameters {
                version: hello.version,
                cipher: hello.cipher,
            }),
            _ => None,
        }
    }

    /// Returns what a whole message of TLS chose, given with its header of 4 bytes (RFC 5246,
    /// section 7.4.1.3); `None` if it isn't a ServerHello, or can't be parsed.
    pub fn new(message: &[u8]) -> Option<NegotiatedParameters> {
        let message = HandshakeMessage::read(message)?;
        NegotiatedParameters::of(&message)
    }

    /// Returns what a whole message of DTLS chose, given by type and body; `None` if it isn't a
    /// ServerHello, or can't be parsed.
    pub fn of_datagrams(msg_type: TlsHandshakeType, body: &[u8]) -> Option<NegotiatedParameters> {
        NegotiatedParameters::of(&HandshakeMessage::of_datagrams(msg_type, body))
    }
}
