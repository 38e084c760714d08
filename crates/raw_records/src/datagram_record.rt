//! The records of a datagram, of versions up to DTLS 1.3 (RFC 9147, section 4.1).
ghost use Rattle.std.specs.Prelude.{◌≡◌};
ghost use Rattle.layouts.specs.Answers.{Gives};
ghost use Rattle.raw_records.specs.DatagramRecord.{connection_id_header as connection_id_header_layout, view_connection_id_header};
ghost use Rattle.raw_records.specs.DatagramRecord.{connection_id_record as connection_id_record_layout, view_connection_id_record};
ghost use Rattle.raw_records.specs.DatagramRecord.{content as content_layout, datagram_record, datagram_record13, limit, view_datagram_record};
ghost use Rattle.raw_records.specs.RawDtlsRecord.{view_header, view_raw_record};

use crate::ciphertext::{DTLSCiphertext, parse_dtls13_ciphertext};
use crate::dtls_record::{DTLSRawRecord, DTLSRecordHeader, parse_dtls_record_header};
use crate::record::{MAX_ENCRYPTED_LEN, MAX_RECORD_LEN};
use layouts::{ErrorKind, IResult, block, number1, number2, number8, parsed, refused};
use tls_base::{TlsRecordType, TlsVersion};

/// The header of a DTLS 1.2 record with a connection ID (RFC 9146, section 4).
#[derive(Debug, PartialEq, Drop)]
pub struct ConnectionIdHeader<'a> {
    /// The fields of every DTLS 1.2 record; the type is 25, tls12_cid.
    pub fields: DTLSRecordHeader,
    /// The connection ID, of at least 1 byte, between the sequence number and the length.
    pub connection_id: &'a [u8],
}

/// A DTLS 1.2 record with a connection ID (RFC 9146, section 4). Its content is encrypted.
#[derive(Debug, PartialEq, Drop)]
pub struct ConnectionIdRecord<'a> {
    /// The header.
    pub header: ConnectionIdHeader<'a>,
    /// `header.fields.length` bytes.
    pub fragment: &'a [u8],
}

/// A record of a datagram, with its content unparsed (RFC 9147, section 4.1).
#[derive(Debug, PartialEq, Drop)]
pub enum DatagramRecord<'a> {
    /// A record in the form of DTLSPlaintext, of type 20 to 24, or 26 (ACK). Up to DTLS 1.2
    /// encrypted records have this form too.
    Plaintext(DTLSRawRecord<'a>),
    /// A DTLS 1.2 record with a connection ID, of type 25 (tls12_cid).
    ConnectionId(ConnectionIdRecord<'a>),
    /// An encrypted record of DTLS 1.3.
    Ciphertext(DTLSCiphertext<'a>),
}

/// The limit for the length in this header, in bytes.
fn limit_of(header: &DTLSRecordHeader) -> u16
    ensures { result ≡ limit (view_header header.now) }
{
    if header.epoch > 0 {
        MAX_ENCRYPTED_LEN
    } else {
        MAX_RECORD_LEN
    }
}

/// Parses the content of a record with this header as bytes.
#[tactic(auto, using(layouts::proofs::OneAnswerLemmas::read_allowed), unfolding(crate::specs::DatagramRecord::content))]
fn content<'a>(i: &'a [u8], header: &DTLSRecordHeader) -> IResult<&'a [u8], &'a [u8]>
    ensures { Gives (λ b. b.now) (content_layout (view_header header.now)) i.now result }
{
    if header.length > limit_of(header) {
        return refused(i, ErrorKind::TooLarge);
    }
    block(i, header.length as usize)
}

/// Parses a record of a datagram, with its content unparsed (RFC 6347, section 4.1).
///
/// `Incomplete` if the datagram ends within it; `TooLarge` if its length is above the limit.
#[tactic(auto, using(layouts::proofs::OneAnswerLemmas::read_allowed), unfolding(crate::specs::DatagramRecord::datagram_record))]
pub fn read_record(i: &[u8]) -> IResult<&[u8], DTLSRawRecord>
    ensures { Gives view_raw_record datagram_record i.now result }
{
    let (i, header) = parsed!(parse_dtls_record_header(i));
    let (i, fragment) = parsed!(content(i, &header));
    Ok((i, DTLSRawRecord { header, fragment }))
}

/// Parses the header of a DTLS 1.2 record with a connection ID of this length.
#[tactic(auto, using(layouts::proofs::OneAnswerLemmas::read_allowed), unfolding(crate::specs::DatagramRecord::connection_id_header))]
fn connection_id_header(i: &[u8], connection_id_len: usize) -> IResult<&[u8], ConnectionIdHeader>
    ensures { Gives view_connection_id_header (connection_id_header_layout connection_id_len)
        i.now result }
{
    if connection_id_len == 0 {
        return refused(i, ErrorKind::Verify);
    }
    let (i, content_type) = parsed!(TlsRecordType::parse(i));
    let (i, version) = parsed!(TlsVersion::parse(i));
    let (i, counter) = parsed!(number8(i));
    let (i, connection_id) = parsed!(block(i, connection_id_len));
    let (i, length) = parsed!(number2(i));
    let fields = DTLSRecordHeader {
        content_type,
        version,
        epoch: (counter / (1 << 48)) as u16,
        sequence_number: counter % (1 << 48),
        length,
    };
    let header = ConnectionIdHeader {
        fields,
        connection_id,
    };
    Ok((i, header))
}

/// Parses a DTLS 1.2 record with a connection ID of this length.
#[tactic(auto, using(layouts::proofs::OneAnswerLemmas::read_allowed), unfolding(crate::specs::DatagramRecord::connection_id_record))]
fn connection_id_record(i: &[u8], connection_id_len: usize) -> IResult<&[u8], ConnectionIdRecord>
    ensures { Gives view_connection_id_record (connection_id_record_layout connection_id_len)
        i.now result }
{
    let (i, header) = parsed!(connection_id_header(i, connection_id_len));
    if header.fields.length > MAX_ENCRYPTED_LEN {
        return refused(i, ErrorKind::TooLarge);
    }
    let (i, fragment) = parsed!(block(i, header.fields.length as usize));
    Ok((i, ConnectionIdRecord { header, fragment }))
}

/// Parses a record from the rest of a datagram. Its first byte gives its form (RFC 9147, section
/// 4.1, figure 5):
///
/// | first byte | parsed as |
/// |---|---|
/// | 20 to 24, 26 | [`read_record`] |
/// | 25 | a DTLS 1.2 record with an ID of `connection_id_len` bytes (RFC 9146, section 4) |
/// | 32 to 63 | [`parse_dtls13_ciphertext`] |
///
/// To parse every record of a datagram, call it on the returned rest until that is empty.
/// `connection_id_len` is the length of the IDs that the receiver asked for in its hello, 0 if
/// there are none.
///
/// - `Incomplete` with the count of bytes missing of the first field that isn't whole, or else of
///   the record.
/// - `Error` of kind `Switch` if the first byte is another: receivers drop it.
/// - `Error` of kind `Verify` if there is a connection ID and `connection_id_len` is 0.
/// - `Error` of kind `TooLarge` if the length is above the limit of such a record: 16640 bytes in
///   epoch 0 and in DTLS 1.3, else 18432.
/// - `Error` of kind `LengthValue` if an encrypted record of DTLS 1.3 has fewer than 16 bytes.
#[tactic(auto, using(layouts::proofs::OneAnswerLemmas::read_allowed), unfolding(crate::specs::DatagramRecord::datagram_record13))]
pub fn read_datagram_record(i: &[u8], connection_id_len: usize) -> IResult<&[u8], DatagramRecord>
    ensures { Gives view_datagram_record (datagram_record13 connection_id_len) i.now result }
{
    let (_, first) = parsed!(number1(i));
    match first {
        20..=24 | 26 => {
            let (i, record) = parsed!(read_record(i));
            Ok((i, DatagramRecord::Plaintext(record)))
        }
        25 => {
            let (i, record) = parsed!(connection_id_record(i, connection_id_len));
            Ok((i, DatagramRecord::ConnectionId(record)))
        }
        _ if first / 32 == 1 => {
            let (i, record) = parsed!(parse_dtls13_ciphertext(i, connection_id_len));
            Ok((i, DatagramRecord::Ciphertext(record)))
        }
        _ => refused(i, ErrorKind::Switch),
    }
}
