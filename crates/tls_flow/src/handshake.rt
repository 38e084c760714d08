//! Handshake messages whose ServerHello is parsed once and shared by every consumer.
ghost use Rattle.std.specs.Prelude.{◌≡◌};
ghost use Rattle.std.specs.Option.{option_map};
ghost use Rattle.tls_hs.specs.Handshake.{view_handshake};
ghost use Rattle.tls_hs.specs.Handshake as handshakes;
ghost use Rattle.layouts.specs.Reading.{reading};
ghost use Rattle.tls_flow.specs.Bytes.{datagram_hello_in, datagram_message, draft_hello, kind_in_datagrams, kind_in_stream, kind_of_datagrams, kind_of_message, message_of, server_hello_in, stream_message, view_handshake_message};

use crate::symbol::Kind;
use layouts::InPlace;
use tls_base::TlsHandshakeType;
use tls_hs::parts::server_hello_any;
use tls_hs::{
    RawHandshake, TlsMessageHandshake, parse_tls_handshake_msg_server_hello,
    parse_tls_handshake_msg_server_hello_of_draft,
};

/// A parsed ServerHello, and the bytes that follow it in the message's body.
#[derive(Debug, PartialEq, Drop)]
pub struct ReadServerHello<'a> {
    /// The ServerHello, in the form of its version.
    pub message: TlsMessageHandshake<'a>,
    /// The rest of the body.
    pub rest: &'a [u8],
}

/// A whole handshake message. A ServerHello is parsed; the body of any other message is not.
#[derive(Debug, PartialEq, Drop)]
pub struct HandshakeMessage<'a> {
    /// The HandshakeType.
    pub msg_type: TlsHandshakeType,
    /// The body, without the header.
    pub body: &'a [u8],
    /// The ServerHello; `None` if the message is another one, or if its ServerHello is refused.
    pub server_hello: Option<ReadServerHello<'a>>,
}

/// The ServerHello of a draft of TLS 1.3, if this body has one.
fn draft_hello_of(body: &[u8]) -> Option<ReadServerHello<'_>>
    ensures { option_map (λ h. view_handshake h.message) result ≡ draft_hello
        (reading handshakes.server_hello_of_draft_body body.now) }
{
    match parse_tls_handshake_msg_server_hello_of_draft(body) {
        Ok((rest, message)) => Some(ReadServerHello { message, rest }),
        Err(_) => None,
    }
}

/// The ServerHello of TLS or of a draft of TLS 1.3, if this body has one.
fn server_hello_of(body: &[u8]) -> Option<ReadServerHello<'_>>
    ensures { option_map (λ h. view_handshake h.message) result ≡ server_hello_in body.now }
{
    match parse_tls_handshake_msg_server_hello(body) {
        Ok((rest, message)) => Some(ReadServerHello { message, rest }),
        Err(_) => draft_hello_of(body),
    }
}

/// The ServerHello of DTLS, whatever its version, if this body has one.
fn datagram_hello_of(body: &[u8]) -> Option<ReadServerHello<'_>>
    ensures { option_map (λ h. view_handshake h.message) result ≡ datagram_hello_in body.now }
{
    match server_hello_any(body) {
        Ok((rest, hello)) => Some(ReadServerHello {
            message: TlsMessageHandshake::ServerHello(hello),
            rest,
        }),
        Err(_) => None,
    }
}

impl<'a> HandshakeMessage<'a> {
    /// A TLS handshake message with this type and body. A ServerHello is parsed, including those of
    /// the drafts of TLS 1.3.
    pub fn of_stream(msg_type: TlsHandshakeType, body: &'a [u8]) -> HandshakeMessage<'a>
        ensures { view_handshake_message result ≡ stream_message msg_type.0 body.now }
    {
        let server_hello = if msg_type == TlsHandshakeType::ServerHello {
            server_hello_of(body)
        } else {
            None
        };
        HandshakeMessage {
            msg_type,
            body,
            server_hello,
        }
    }

    /// A DTLS handshake message with this type and body. A ServerHello is parsed whatever its
    /// version.
    pub fn of_datagrams(msg_type: TlsHandshakeType, body: &'a [u8]) -> HandshakeMessage<'a>
        ensures { view_handshake_message result ≡ datagram_message msg_type.0 body.now }
    {
        let server_hello = if msg_type == TlsHandshakeType::ServerHello {
            datagram_hello_of(body)
        } else {
            None
        };
        HandshakeMessage {
            msg_type,
            body,
            server_hello,
        }
    }

    /// The TLS handshake message in bytes that start with its header of 4 bytes (RFC 8446, section
    /// 4); `None` if it isn't whole.
    pub fn read(message: &'a [u8]) -> Option<HandshakeMessage<'a>>
        ensures { option_map view_handshake_message result ≡ message_of message.now }
    {
        match RawHandshake::read(message) {
            Ok((_, raw)) => Some(HandshakeMessage::of_stream(raw.msg_type, raw.body)),
            Err(_) => None,
        }
    }

    /// Its kind as a message of TLS: [`Kind::Unknown`] if the type isn't one that is parsed, or if
    /// a ServerHello is refused.
    pub fn kind(&self) -> Kind
        ensures { result ≡ kind_in_stream (view_handshake_message self.now) }
    {
        if self.msg_type != TlsHandshakeType::ServerHello {
            return Kind::of_type(self.msg_type);
        }
        match &self.server_hello {
            Some(hello) => Kind::of_handshake(&hello.message),
            None => Kind::Unknown,
        }
    }

    /// Its kind as a message of DTLS. A refused ServerHello counts by its type.
    pub fn datagram_kind(&self) -> Kind
        ensures { result ≡ kind_in_datagrams (view_handshake_message self.now) }
    {
        if self.msg_type != TlsHandshakeType::ServerHello {
            return Kind::of_type(self.msg_type);
        }
        match &self.server_hello {
            Some(hello) => Kind::of_handshake(&hello.message),
            None => Kind::ServerHello,
        }
    }
}

impl Kind {
    /// The kind of a TLS message; [`Kind::Unknown`] for `None`.
    pub fn of_message(message: Option<&HandshakeMessage<'_>>) -> Kind
        ensures { result ≡ kind_of_message
            (option_map (λ m. view_handshake_message m.now) message.entry) }
    {
        match message {
            Some(message) => message.kind(),
            None => Kind::Unknown,
        }
    }

    /// The kind of a DTLS message; [`Kind::Unknown`] for `None`.
    pub fn of_datagrams(message: Option<&HandshakeMessage<'_>>) -> Kind
        ensures { result ≡ kind_of_datagrams
            (option_map (λ m. view_handshake_message m.now) message.entry) }
    {
        match message {
            Some(message) => message.datagram_kind(),
            None => Kind::Unknown,
        }
    }
}
