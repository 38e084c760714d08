//! Handshake messages (RFC 5246, section 7.4).
ghost use Rattle.std.specs.Prelude.{◌≡◌, IfOk};
ghost use Rattle.tls_hs.specs.Handshake.{view_handshake, is_read as is_read_type};
ghost use Rattle.tls_hs.specs.HandshakeText.{msg_type_of};

use crate::body_by_type::{every_row, rows};
use crate::certificate::{TlsCertificateContents, TlsCertificateStatusContents};
use crate::certificate_request::TlsCertificateRequestContents;
use crate::client_hello::TlsClientHelloContents;
use crate::server_hello::{
    TlsHelloRetryRequestContents, TlsServerHelloContents, TlsServerHelloV13Draft18Contents,
};
use crate::session::{
    TlsClientKeyExchangeContents, TlsNewSessionTicketContent, TlsNextProtocolContent,
    TlsServerKeyExchangeContents,
};
use layouts::OutOfMemory;
use std::alloc::Global;
use tls_base::TlsHandshakeType;

/// A handshake message (RFC 5246, section 7.4).
#[derive(Debug, PartialEq, Drop)]
pub enum TlsMessageHandshake<'a> {
    /// The server requests a ClientHello (RFC 5246, section 7.4.1.1).
    HelloRequest,
    /// The client's offer (RFC 5246, section 7.4.1.2).
    ClientHello(TlsClientHelloContents<'a>),
    /// The server's choice (RFC 5246, section 7.4.1.3).
    ServerHello(TlsServerHelloContents<'a>),
    /// The server's choice, in draft 18 of TLS 1.3 (draft-ietf-tls-tls13-18, section 4.1.3).
    ServerHelloV13Draft18(TlsServerHelloV13Draft18Contents<'a>),
    /// A ticket that resumes the session, in the form up to TLS 1.2 (RFC 5077, section 3.3).
    NewSessionTicket(TlsNewSessionTicketContent<'a>),
    /// Early data has ended (RFC 8446, section 4.5).
    EndOfEarlyData,
    /// The server requests another ClientHello, in drafts of TLS 1.3 (draft-ietf-tls-tls13-19,
    /// section 4.1.4).
    HelloRetryRequest(TlsHelloRetryRequestContents<'a>),
    /// The sender's certificates, in the form up to TLS 1.2 (RFC 5246, section 7.4.2).
    Certificate(TlsCertificateContents<'a>),
    /// The server's part of the key exchange (RFC 5246, section 7.4.3).
    ServerKeyExchange(TlsServerKeyExchangeContents<'a>),
    /// The server requests a certificate, in the form up to TLS 1.2 (RFC 5246, section 7.4.4).
    CertificateRequest(TlsCertificateRequestContents<'a>),
    /// The end of the server's first messages, with its body, which should be empty (RFC 5246,
    /// section 7.4.5).
    ServerDone(&'a [u8]),
    /// A signature over the handshake, as bytes (RFC 5246, section 7.4.8).
    CertificateVerify(&'a [u8]),
    /// The client's part of the key exchange (RFC 5246, section 7.4.7).
    ClientKeyExchange(TlsClientKeyExchangeContents<'a>),
    /// A MAC over the handshake (RFC 5246, section 7.4.9).
    Finished(&'a [u8]),
    /// The status of the server's certificate (RFC 6066, section 8).
    CertificateStatus(TlsCertificateStatusContents<'a>),
    /// The protocol that the client chose (draft-agl-tls-nextprotoneg-04, section 3).
    NextProtocol(TlsNextProtocolContent<'a>),
    /// The sender updated its keys; the number is that of a [`crate::KeyUpdateRequest`] (RFC 8446,
    /// section 4.6.3).
    KeyUpdate(u8),
}

/// Expands to a match with an arm for each row of the table: the type of its variant.
macro_rules! type_of {
    ([$message:ident]
        $($form:ident $name:ident $(($view:path))?: $module:ident::$read:ident
        $arguments:tt;)*) => {
        match $message {
            $(TlsMessageHandshake::$name { .. } => TlsHandshakeType::$name,)*
            TlsMessageHandshake::ServerHelloV13Draft18(_) => TlsHandshakeType::ServerHello,
        }
    };
}

/// Expands to whether a row has the type.
macro_rules! has_row {
    ([$msg_type:ident]
        $($form:ident $name:ident $(($view:path))?: $module:ident::$read:ident
        $arguments:tt;)*) => {
        match $msg_type {
            $(TlsHandshakeType::$name => true,)*
            _ => false,
        }
    };
}

/// Expands to a match with an arm for each row of the table: a copy of its variant, by its form.
macro_rules! copy_of {
    ([$message:ident $alloc:ident]
        $($(empty $empty:ident)? $(value $value:ident)? $(contents $contents:ident)?
        $(lists $lists:ident($view:path))?: $module:ident::$read:ident $arguments:tt;)*) => {
        match $message {
            $($(TlsMessageHandshake::$empty => TlsMessageHandshake::$empty,)?)*
            $($(TlsMessageHandshake::$value(value) => TlsMessageHandshake::$value(*value),)?)*
            $($(TlsMessageHandshake::$contents(contents) =>
                TlsMessageHandshake::$contents(contents.clone()?),)?)*
            $($(TlsMessageHandshake::$lists(lists) =>
                TlsMessageHandshake::$lists(lists.try_clone($alloc)?),)?)*
            TlsMessageHandshake::ServerHelloV13Draft18(hello) => {
                TlsMessageHandshake::ServerHelloV13Draft18(hello.clone()?)
            }
        }
    };
}

impl<'a> TlsMessageHandshake<'a> {
    /// Returns the type of the message (RFC 5246, section 7.4). The ServerHello of draft 18 of TLS
    /// 1.3 has that of a ServerHello.
    #[inline]
    pub fn msg_type(&self) -> TlsHandshakeType
        ensures { result.0 ≡ msg_type_of (view_handshake self.now) }
    {
        rows!(every_row type_of self)
    }

    /// Returns whether bodies of this type are parsed. Others are refused as `Switch`.
    #[tactic(auto, unfolding(crate::specs::Handshake::is_read, crate::specs::Handshake::handshake_body, crate::specs::Handshake::body_from_certificate, crate::specs::Handshake::body_from_finished, crate::specs::Handshake::hello_request_body, crate::specs::Handshake::client_hello_body, crate::specs::Handshake::server_hello_body, crate::specs::Handshake::new_session_ticket_body, crate::specs::Handshake::end_of_early_data_body, crate::specs::Handshake::hello_retry_request_body, crate::specs::Handshake::certificate_body, crate::specs::Handshake::server_key_exchange_body, crate::specs::Handshake::certificate_request_body, crate::specs::Handshake::server_done_body, crate::specs::Handshake::certificate_verify_body, crate::specs::Handshake::client_key_exchange_body, crate::specs::Handshake::finished_body, crate::specs::Handshake::certificate_status_body, crate::specs::Handshake::key_update_body, crate::specs::Handshake::next_protocol_body))]
    #[inline]
    pub fn is_read(msg_type: TlsHandshakeType) -> bool
        ensures { result ≡ is_read_type msg_type.0 }
    {
        rows!(every_row has_row msg_type)
    }

    /// Returns a copy of the message with copied lists. Slices are shared.
    ///
    /// `OutOfMemory` if a list can't be allocated.
    pub fn try_clone(&self, alloc: Global) -> Result<Self, OutOfMemory>
        ensures { IfOk result (λ m. view_handshake m ≡ view_handshake self.now) }
    {
        Ok(rows!(every_row copy_of self alloc))
    }
}
