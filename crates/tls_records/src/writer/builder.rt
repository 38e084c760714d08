//! Appends the encodings of messages, one by one, to a vector with enough capacity.
ghost use Rattle.std.specs.Prelude.{◌≡◌, ◌≤◌, ◌+◌, ◌++◌, length, map, vec_len, vec_capacity};
ghost use Rattle.std.specs.List.{All};
ghost use Rattle.tls_hs.specs.Message.{view_message};
ghost use Rattle.tls_records.specs.RecordText.{message_text, FitsMessage, InRangeMessage, fragment_text};

use layouts::writer::builder::append1;
use tls_hs::TlsMessage;
use tls_hs_writer::writer::builder::append_handshake;

/// Appends a message.
pub(crate) fn append_message(out: &mut Vec<u8>, m: &TlsMessage)
    requires fits { FitsMessage (view_message m.now) }
    requires room { vec_len out.old + length (message_text (view_message m.now))
        ≤ vec_capacity out.old }
    ensures items { out.new.items ≡ out.old.items ++ message_text (view_message m.now) }
    ensures range { InRangeMessage (view_message m.now) }
    ensures len { vec_len out.new ≡ vec_len out.old + length (message_text (view_message m.now)) }
    ensures capacity { vec_capacity out.old ≤ vec_capacity out.new }
{
    match m {
        TlsMessage::Handshake(h) => append_handshake(out, h),
        TlsMessage::ChangeCipherSpec => append1(out, 1),
        TlsMessage::Alert(_) | TlsMessage::ApplicationData(_) | TlsMessage::Heartbeat(_) => {}
    }
}

/// Appends messages, one after another.
pub(crate) fn append_messages(out: &mut Vec<u8>, messages: &[TlsMessage])
    requires fits { All FitsMessage (map view_message messages.now) }
    requires room { vec_len out.old + length (fragment_text (map view_message messages.now)) ≤
        vec_capacity out.old }
    ensures items { out.new.items ≡ out.old.items ++ fragment_text (map view_message messages.now) }
    ensures range { All InRangeMessage (map view_message messages.now) }
{
    for message in messages {
        append_message(out, message);
    }
}
