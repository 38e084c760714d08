//! The history of both sides, a string of letters.
ghost use Rattle.std.specs.Prelude.{◌≡◌, [], OnOk};
ghost use Rattle.tls_stream.specs.Item.{view_event};
ghost use Rattle.tls_stream.specs.FlowEvents.{view_stream_event};
ghost use Rattle.dtls_stream.specs.Messages.{view_event as view_in_datagram};
ghost use Rattle.tls_observer.specs.History.{cased as cased_of, letter_in_datagram_with, letter_of_datagram_message, letter_of_message, letter_of_type as letter_by_type, letter_with, with_letter};

use std::alloc::AllocError;
use tls_flow::{Direction, Kind};
use tls_stream::{Event, SideEvent};

/// How many letters of a connection are kept, since a peer may send messages without end.
pub const HISTORY_LIMIT: usize = 100;

/// The letter of a handshake message by its type, in the server's lower case.
fn letter_of_type(msg_type: u8) -> u8
    ensures { result ≡ letter_by_type msg_type }
{
    match msg_type {
        0 => b'h',
        1 => b'c',
        2 => b's',
        3 => b'v',
        4 => b't',
        5 => b'e',
        6 => b'j',
        8 => b'o',
        11 => b'x',
        12 => b'k',
        13 => b'r',
        14 => b'n',
        15 => b'y',
        16 => b'g',
        20 => b'f',
        21 => b'w',
        22 => b'u',
        23 => b'a',
        24 => b'p',
        254 => b'm',
        _ => b'z',
    }
}

/// The letter of a whole TLS handshake message of this kind.
fn message_letter(kind: Kind, message: &[u8]) -> u8
    ensures { result ≡ letter_of_message kind message.now }
{
    if matches!(kind, Kind::HelloRetryRequest) {
        return b'j';
    }
    match message {
        [msg_type, ..] => letter_of_type(*msg_type),
        [] => b'z',
    }
}

/// The letter of a whole DTLS handshake message of this kind and type.
fn datagram_message_letter(kind: Kind, msg_type: u8) -> u8
    ensures { result ≡ letter_of_datagram_message kind msg_type }
{
    if matches!(kind, Kind::HelloRetryRequest) {
        return b'j';
    }
    letter_of_type(msg_type)
}

/// The letter of a TLS side's event; `kind` is the kind of its handshake message.
pub fn stream_letter(sent: &SideEvent<'_>, kind: Kind) -> Option<u8>
    ensures { result ≡ letter_with kind (view_stream_event sent.now) }
{
    match sent {
        SideEvent::Event(Event::Handshake(message)) => Some(message_letter(kind, message)),
        SideEvent::Event(Event::ChangeCipherSpec) => Some(b'i'),
        SideEvent::Event(Event::Alert(_)) => Some(b'l'),
        SideEvent::Event(Event::Heartbeat(_)) => Some(b'b'),
        SideEvent::Event(Event::ApplicationData(_)) => Some(b'd'),
        SideEvent::Event(Event::Encrypted(_)) | SideEvent::Fault(_) => None,
    }
}

/// The letter of a DTLS side's event; `kind` is the kind of its handshake message.
pub fn datagram_letter(event: &dtls_stream::Event<'_>, kind: Kind) -> Option<u8>
    ensures { result ≡ letter_in_datagram_with kind (view_in_datagram event.now) }
{
    match event {
        dtls_stream::Event::Handshake(message) => {
            Some(datagram_message_letter(kind, message.msg_type.0))
        }
        dtls_stream::Event::ChangeCipherSpec => Some(b'i'),
        dtls_stream::Event::Alert(_) => Some(b'l'),
        dtls_stream::Event::Encrypted(_)
        | dtls_stream::Event::Refused(_, _)
        | dtls_stream::Event::Fault(_) => None,
    }
}

/// The letter in upper case for the client.
fn cased(side: Direction, letter: u8) -> u8
    ensures { result ≡ cased_of side letter }
{
    match side {
        Direction::ToServer => letter.saturating_sub(32),
        Direction::FromServer => letter,
    }
}

/// Appends a side's letter, up to [`HISTORY_LIMIT`] letters.
pub fn add_letter(
    history: &mut Vec<u8>,
    side: Direction,
    letter: Option<u8>,
) -> Result<(), AllocError>
    ensures { OnOk result (history.new.items ≡ with_letter side history.old.items letter) }
{
    let Some(letter) = letter else {
        return Ok(());
    };
    if history.len() < HISTORY_LIMIT {
        history.push(cased(side, letter))?;
    }
    Ok(())
}
