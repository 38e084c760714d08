//! The events of a direction.

use crate::fragments::FragmentError;
use tls_base::{ErrorKind, TlsHandshakeType, TlsMessageAlert, TlsRecordType, TlsVersion};

/// A handshake message, reassembled from its fragments.
#[derive(Debug, PartialEq, Drop)]
pub struct Message {
    /// The HandshakeType.
    pub msg_type: TlsHandshakeType,
    /// The message's sequence number.
    pub message_seq: u16,
    /// The whole body.
    pub body: Vec<u8>,
}

/// A DTLS record of an epoch above 0 (RFC 6347, section 4.1), which is encrypted: its header, and
/// its fragment unparsed.
#[derive(Debug, PartialEq, Drop)]
pub struct EncryptedRecord<'a> {
    /// The content type.
    pub content_type: TlsRecordType,
    /// The version in the record's header.
    pub version: TlsVersion,
    /// The epoch: how often the sender has changed its cipher.
    pub epoch: u16,
    /// The record's number within its epoch, below 2^48.
    pub sequence_number: u64,
    /// The fragment, unparsed.
    pub fragment: &'a [u8],
}

/// An event of one direction.
#[derive(Debug, PartialEq, Drop)]
pub enum Event<'a> {
    /// A whole handshake message. Messages come in the order of their numbers, each once.
    Handshake(Message),
    /// The sender changes its cipher (RFC 5246, section 7.1).
    ChangeCipherSpec,
    /// An alert (RFC 5246, section 7.2).
    Alert(TlsMessageAlert),
    /// A record of an epoch above 0, which is encrypted and isn't parsed.
    Encrypted(EncryptedRecord<'a>),
    /// A fragment of the message with this number is refused. The buffer doesn't change.
    Refused(u16, FragmentError),
    /// A record, or the rest of one or of a datagram, can't be parsed. The next datagram is read as
    /// usual.
    Fault(ErrorKind),
}
