//! Parses records of TLS and DTLS, up to DTLS 1.3, without their content (RFC 5246, RFC 6347, RFC
//! 8446 and RFC 9147): the header, and the fragment as bytes.
//!
//! The promises:
//!
//! - Each parse call returns the one answer of its layout: the value and the exact rest, or the
//!   refusal of the leftmost part that can't be read. Slices in a value are parts of the input.
//! - A record is incomplete exactly while its bytes aren't all present and its length isn't too
//!   large (`NeedsMore` in `specs/Framing.antt`).
//!
//! `specs/RawRecord.antt` defines the layouts of TLS, `RawDtlsRecord` those of DTLS, `Ciphertext`
//! those of DTLS 1.3, and `DatagramRecord` the records of a datagram in every form. [`laws`] states
//! what follows from the layouts alone. [`content`] and [`first_judged`] are what both protocols
//! share in parsing a fragment.
#![tactic(auto, using(layouts::proofs::OneAnswerLemmas::read_allowed))]

mod ciphertext;
pub mod content;
mod datagram_record;
mod datagram_records;
mod dtls_record;
mod first;
pub mod laws;
mod record;

pub use ciphertext::{DTLSCiphertext, SequenceNumber, UnifiedHeader, parse_dtls13_ciphertext};
pub use datagram_record::{
    ConnectionIdHeader, ConnectionIdRecord, DatagramRecord, read_datagram_record, read_record,
};
pub use datagram_records::DatagramRecords;
pub use dtls_record::{
    DTLSRawRecord, DTLSRecordHeader, parse_dtls_raw_record, parse_dtls_record_header,
};
pub use first::{completed, first_judged};
pub use record::{
    MAX_ENCRYPTED_LEN, MAX_RECORD_LEN, TlsEncrypted, TlsEncryptedContent, TlsRawRecord,
    TlsRecordHeader, parse_tls_encrypted, parse_tls_raw_record, parse_tls_record_header,
};
