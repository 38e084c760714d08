//! Reads one direction of a DTLS conversation from its datagrams (RFC 6347, sections 4.1 and 4.2).
//!
//! A handshake message is reassembled from its fragments, which may arrive in any order,
//! refragmented, repeated or overlapping. Messages are delivered in the order of their numbers,
//! each once (RFC 6347, sections 4.2.2 to 4.2.4). Records of an epoch above 0 are encrypted and
//! aren't parsed. [`dtls_event`] turns the events into those of a flow.
//!
//! [`laws`] states the promise: whatever the order and overlap of the fragments, the messages
//! delivered are the longest prefix of those that the accepted fragments cover.
//! `specs/Messages.antt`, `specs/Datagrams.antt` and `specs/Sent.antt` define it.
//!
//! It also parses ACKs of DTLS 1.3 (RFC 9147, section 7), and re-exports what parses a datagram's
//! records in every form up to DTLS 1.3.
#![tactic(auto)]

mod ack;
mod datagrams;
mod event;
mod flow_event;
mod fragments;
pub mod laws;
mod messages;
mod read;
mod records;

pub use ack::{RecordNumber, parse_dtls13_ack};
pub use datagrams::{read_datagram, read_datagrams};
pub use event::{EncryptedRecord, Event, Message};
pub use flow_event::{datagram_message, dtls_event, dtls_event_with};
pub use fragments::{Fragment, FragmentError, Fragments, parse_dtls_fragment};
pub use messages::{DEFAULT_LIMITS, Limits, Messages};
pub use raw_records::{
    ConnectionIdHeader, ConnectionIdRecord, DTLSCiphertext, DatagramRecord, DatagramRecords,
    MAX_ENCRYPTED_LEN, SequenceNumber, UnifiedHeader, parse_dtls13_ciphertext,
    read_datagram_record, read_record,
};
pub use read::{read_all, read_fragments};
pub use records::{fragment_of, read_record_events};
