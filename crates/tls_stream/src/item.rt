//! What a record contains, given the state of its direction.
ghost use Rattle.std.specs.Prelude.{◌≡◌, ◌≤◌, length};
ghost use Rattle.tls_stream.specs.Item.{Standing, change_in, is_alert as is_alert_in, is_sealed_alert as is_alert_sealed, item_of, plain_item, read_item, refusal, view_item};

use crate::event::Event;
use layouts::ErrorKind;
use raw_records::{MAX_ENCRYPTED_LEN, MAX_RECORD_LEN};

/// What a record contains.
#[derive(Drop)]
pub enum Item<'a> {
    /// A fragment of messages with this content type.
    Fragment(u8, &'a [u8]),
    /// An event by itself.
    Alone(Event<'a>),
    /// A record that is refused.
    Broken(ErrorKind),
}

/// Why a record with this header is refused, if it is.
pub fn refuse(is_encrypted: bool, kind: u8, len: usize) -> Option<ErrorKind>
    ensures { result ≡ refusal is_encrypted kind len }
{
    if is_encrypted {
        return if len <= MAX_ENCRYPTED_LEN as usize {
            None
        } else {
            Some(ErrorKind::TooLarge)
        };
    }
    if kind < 20 || kind > 24 {
        return Some(ErrorKind::Switch);
    }
    if len <= MAX_RECORD_LEN as usize {
        None
    } else {
        Some(ErrorKind::TooLarge)
    }
}

/// Parses a ChangeCipherSpec: the one byte 1.
fn read_change(fragment: &[u8]) -> Item<'_>
    ensures { view_item result ≡ change_in fragment.now }
{
    if fragment.len() == 1 && fragment[0] == 1 {
        Item::Alone(Event::ChangeCipherSpec)
    } else {
        Item::Broken(ErrorKind::Verify)
    }
}

/// Whether a fragment is an alert in the clear: two bytes, of level 1 or 2.
fn is_alert(fragment: &[u8]) -> bool
    ensures { result ≡ is_alert_in fragment.now }
{
    fragment.len() == 2 && (fragment[0] == 1 || fragment[0] == 2)
}

/// Whether this is an alert record whose content is no alert, so that it must be encrypted. The
/// state of its direction doesn't matter.
pub fn is_sealed_alert(record: &[u8]) -> bool
    requires { 5 ≤ length record.now }
    ensures { result ≡ is_alert_sealed record.now }
{
    record[0] == 21 && !is_alert(&record[5..])
}

/// What a record that isn't encrypted contains.
fn read_plain(kind: u8, fragment: &[u8]) -> Item<'_>
    ensures { view_item result ≡ plain_item kind fragment.now }
{
    match kind {
        20 => read_change(fragment),
        23 => Item::Alone(Event::ApplicationData(fragment)),
        24 => Item::Alone(Event::Heartbeat(fragment)),
        _ => Item::Fragment(kind, fragment),
    }
}

/// What a whole record contains. The caller has checked its header with [`refuse`].
pub fn read_record(is_encrypted: bool, record: &[u8]) -> Item<'_>
    requires { 5 ≤ length record.now }
    ensures { view_item result ≡ read_item is_encrypted record.now }
{
    if is_encrypted {
        return Item::Alone(Event::Encrypted(record));
    }
    read_plain(record[0], &record[5..])
}
