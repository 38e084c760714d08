//! Computes the lengths of messages and of fragments, or why they can't be written, without
//! allocating.
ghost use Rattle.std.specs.Prelude.{map};
ghost use Rattle.tls_hs.specs.Message.{view_message};
ghost use Rattle.tls_records.specs.RecordWriter.{JudgesMessage, JudgesFragment};

use layouts::GenError;
use tls_hs::TlsMessage;
use tls_hs_writer::writer::judge::handshake_len;

/// The maximum length of a fragment that can be written, in bytes: its length field has 2 bytes.
const MAX_FRAGMENT_LEN: usize = 65535;

/// Returns the length of a message in bytes.
///
/// `NotYetImplemented` if the writer doesn't know its kind; `BadLength` if a length doesn't fit its
/// field.
pub(crate) fn message_len(m: &TlsMessage) -> Result<usize, GenError>
    ensures { JudgesMessage (view_message m.now) result }
{
    match m {
        TlsMessage::Handshake(h) => handshake_len(h),
        TlsMessage::ChangeCipherSpec => Ok(1),
        TlsMessage::Alert(_) | TlsMessage::ApplicationData(_) | TlsMessage::Heartbeat(_) => {
            Err(GenError::NotYetImplemented)
        }
    }
}

/// Returns the length of a record's messages in bytes. All messages are checked before their length
/// together.
pub(crate) fn fragment_len(messages: &[TlsMessage]) -> Result<usize, GenError>
    ensures { JudgesFragment (map view_message messages.now) result }
{
    let mut len: usize = 0;
    for message in messages {
        len = len.saturating_add(message_len(message)?);
    }
    if len > MAX_FRAGMENT_LEN {
        return Err(GenError::BadLength);
    }
    Ok(len)
}
