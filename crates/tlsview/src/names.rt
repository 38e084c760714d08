//! The names that are printed.
ghost use Rattle.std.specs.Prelude.{◌≡◌, ◌++◌, OnOk};
ghost use Rattle.std.specs.String.{string_bytes};
ghost use Rattle.tls_hs.specs.Handshake.{view_handshake};
ghost use Rattle.tls_hs.specs.Message.{view_message};
ghost use Rattle.tlsview.specs.Names.{handshake_name, message_name};

use std::alloc::AllocError;
use tls_hs::{TlsMessage, TlsMessageHandshake};

/// Appends the name of a handshake message: that of its type, or of the draft that its ServerHello
/// belongs to.
fn add_handshake_name(text: &mut String, message: &TlsMessageHandshake) -> Result<(), AllocError>
    ensures { OnOk result
        (string_bytes text.new ≡ string_bytes text.old ++ handshake_name
        (view_handshake message.now)) }
{
    match message {
        TlsMessageHandshake::ServerHelloV13Draft18(_) => text.push_str("ServerHelloV13Draft18"),
        _ => {
            let msg_type = message.msg_type();
            write!(text, "{msg_type}")
        }
    }
}

/// Appends the name of a message's kind; for a handshake message, its name.
pub fn add_message_name(text: &mut String, message: &TlsMessage) -> Result<(), AllocError>
    ensures { OnOk result
        (string_bytes text.new ≡ string_bytes text.old ++ message_name (view_message message.now)) }
{
    match message {
        TlsMessage::Handshake(message) => add_handshake_name(text, message),
        TlsMessage::ChangeCipherSpec => text.push_str("ChangeCipherSpec"),
        TlsMessage::Alert(_) => text.push_str("Alert"),
        TlsMessage::ApplicationData(_) => text.push_str("ApplicationData"),
        TlsMessage::Heartbeat(_) => text.push_str("Heartbeat"),
    }
}
