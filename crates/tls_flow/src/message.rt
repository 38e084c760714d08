//! The symbol of a parsed message.
ghost use Rattle.std.specs.Prelude.{◌≡◌};
ghost use Rattle.tls_base.specs.Alert.{view_alert};
ghost use Rattle.tls_ext.specs.InPlace.{view_raw_extension};
ghost use Rattle.tls_hs.specs.ServerHello.{view_server_hello};
ghost use Rattle.tls_hs.specs.Handshake.{view_handshake};
ghost use Rattle.tls_hs.specs.Message.{view_message};
ghost use Rattle.tls_flow.specs.Messages.{is_earlier as is_earlier_by, is_tls13_version, picks_tls13 as picks, picks_in, kind_of_server_hello, kind_of_handshake, kind_of_alert, kind_of, direction, symbol_of as symbol_is};

use crate::symbol::{Direction, Kind, Symbol};
use layouts::Items;
use tls_base::{TlsAlertDescription, TlsAlertSeverity, TlsExtensionType, TlsMessageAlert};
use tls_ext::RawExtension;
use tls_hs::{TlsMessage, TlsMessageHandshake, TlsServerHelloContents};

/// Whether a version is earlier than TLS 1.3: SSL 3.0 to TLS 1.2, or DTLS 1.0 or 1.2.
fn is_earlier(major: u8, minor: u8) -> bool
    ensures { result ≡ is_earlier_by major minor }
{
    (major == 3 && minor <= 3) || (major == 0xfe && (minor == 0xff || minor == 0xfd))
}

/// Whether the content of a ServerHello's supported_versions is TLS 1.3, DTLS 1.3, or a draft of
/// these: any version that isn't earlier (RFC 8446, section 4.2.1).
fn is_tls13(content: &[u8]) -> bool
    ensures { result ≡ is_tls13_version content.now }
{
    match content {
        [major, minor] => !is_earlier(*major, *minor),
        _ => false,
    }
}

/// Whether an extension is a supported_versions that names such a version.
fn is_pick(extension: &RawExtension<'_>) -> bool
    ensures { result ≡ picks (view_raw_extension extension.now) }
{
    extension.extension_type == TlsExtensionType::SupportedVersions && is_tls13(extension.content)
}

/// Whether a ServerHello's block of extensions picks TLS 1.3, DTLS 1.3 or a draft of these, in
/// supported_versions. It stops at bytes that are no extension.
pub fn picks_tls13(block: &[u8]) -> bool
    ensures { result ≡ picks_in block.now }
{
    let walk: Items<RawExtension> = Items::new(block);
    for extension in walk {
        if is_pick(&extension) {
            return true;
        }
    }
    false
}

/// The kind of a ServerHello: a HelloRetryRequest by its random, one of TLS 1.3 by its
/// supported_versions.
#[inline(never)]
fn kind_of_hello(hello: &TlsServerHelloContents<'_>) -> Kind
    ensures { result ≡ kind_of_server_hello (view_server_hello hello.now) }
{
    if hello.is_retry_request() {
        return Kind::HelloRetryRequest;
    }
    match hello.ext {
        Some(block) if picks_tls13(block) => Kind::ServerHello13,
        _ => Kind::ServerHello,
    }
}

impl Kind {
    /// The kind of a handshake message: by its type, and for a ServerHello by its content.
    #[inline]
    pub fn of_handshake(message: &TlsMessageHandshake<'_>) -> Kind
        ensures { result ≡ kind_of_handshake (view_handshake message.now) }
    {
        match message {
            TlsMessageHandshake::ServerHello(hello) => kind_of_hello(hello),
            TlsMessageHandshake::ServerHelloV13Draft18(_) => Kind::ServerHello13,
            _ => Kind::of_type(message.msg_type()),
        }
    }

    /// The kind of an alert.
    pub fn of_alert(alert: &TlsMessageAlert) -> Kind
        ensures { result ≡ kind_of_alert (view_alert alert.now) }
    {
        if alert.severity != TlsAlertSeverity::Warning {
            return Kind::Fatal;
        }
        match alert.code {
            TlsAlertDescription::CloseNotify => Kind::Fatal,
            TlsAlertDescription::NoCertificate => Kind::NoCertificate,
            _ => Kind::Warning,
        }
    }

    /// The kind of a parsed message that is in the clear.
    #[inline]
    pub fn of(message: &TlsMessage<'_>) -> Kind
        ensures { result ≡ kind_of (view_message message.now) }
    {
        match message {
            TlsMessage::Handshake(message) => Kind::of_handshake(message),
            TlsMessage::ChangeCipherSpec => Kind::ChangeCipherSpec,
            TlsMessage::Alert(alert) => Kind::of_alert(alert),
            TlsMessage::ApplicationData(_) => Kind::Encrypted,
            TlsMessage::Heartbeat(_) => Kind::Heartbeat,
        }
    }
}

impl Direction {
    /// [`Direction::ToServer`] if `to_server`, else [`Direction::FromServer`].
    #[inline]
    pub fn of(to_server: bool) -> Direction
        ensures { result ≡ direction to_server }
    {
        if to_server {
            Direction::ToServer
        } else {
            Direction::FromServer
        }
    }
}

/// The symbol of a message that its sender sent before its ChangeCipherSpec; `to_server` is whether
/// it goes to the server. After the ChangeCipherSpec use [`Kind::Encrypted`], whatever the bytes
/// look like.
pub fn symbol_of(message: &TlsMessage<'_>, to_server: bool) -> Symbol
    ensures { result ≡ symbol_is message.now to_server }
{
    Symbol {
        kind: Kind::of(message),
        direction: Direction::of(to_server),
    }
}
