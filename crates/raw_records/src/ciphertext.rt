//! Encrypted records of DTLS 1.3 (RFC 9147, section 4).
ghost use Rattle.std.specs.Prelude.{◌≡◌};
ghost use Rattle.std.specs.Option.{option_map};
ghost use Rattle.layouts.specs.Answers.{Gives};
ghost use Rattle.raw_records.specs.Ciphertext.{connection_id as connection_id_layout, sequence_number as sequence_number_layout, view_sequence_number};
ghost use Rattle.raw_records.specs.Ciphertext.{length_field as length_field_layout, unified_hdr, view_unified_header};
ghost use Rattle.raw_records.specs.Ciphertext.{encrypted_record_of as encrypted_record_of_layout, encrypted_record as encrypted_record_layout, ciphertext, view_ciphertext};

use crate::record::MAX_RECORD_LEN;
use layouts::{ErrorKind, IResult, block, number1, number2, parsed, refused};

/// Bit C of the first byte: a connection ID is present.
const C_BIT: u8 = 0x10;

/// Bit S: the sequence number has 16 bits.
const S_BIT: u8 = 0x08;

/// Bit L: the length is present.
const L_BIT: u8 = 0x04;

/// The longest encrypted record, in bytes (RFC 8446, section 5.2).
const MAX_ENCRYPTED_RECORD_LEN: usize = MAX_RECORD_LEN as usize;

/// The shortest encrypted record: this many bytes of it are used to encrypt the sequence number
/// (RFC 9147, section 4.2.3).
const MIN_ENCRYPTED_RECORD_LEN: usize = 16;

/// The low bits of a record's number, encrypted (RFC 9147, section 4.2.3).
#[derive(Clone, Copy, Debug, PartialEq, Eq)]
pub enum SequenceNumber {
    /// The low 8 bits.
    Bits8(u8),
    /// The low 16 bits.
    Bits16(u16),
}

/// The header of an encrypted record (RFC 9147, section 4, figure 3).
#[derive(Clone, Copy, Debug, PartialEq)]
pub struct UnifiedHeader<'a> {
    /// The connection ID, of at least 1 byte; `None` if bit C isn't set.
    pub connection_id: Option<&'a [u8]>,
    /// The low bits of the record's number.
    pub sequence_number: SequenceNumber,
    /// The length of the encrypted record, in bytes; `None` if the record takes the rest of its
    /// datagram.
    pub length: Option<u16>,
    /// The low 2 bits of the epoch.
    pub epoch_bits: u8,
}

/// An encrypted record of DTLS 1.3 (RFC 9147, section 4, figure 2).
#[derive(Clone, Copy, Debug, PartialEq)]
pub struct DTLSCiphertext<'a> {
    /// The header.
    pub header: UnifiedHeader<'a>,
    /// 16 to 16640 bytes: content, content type and padding, encrypted.
    pub encrypted_record: &'a [u8],
}

/// Parses the connection ID, if it is present.
#[tactic(auto, using(layouts::proofs::OneAnswerLemmas::read_allowed), unfolding(crate::specs::Ciphertext::connection_id))]
fn connection_id(i: &[u8], is_present: bool, len: usize) -> IResult<&[u8], Option<&[u8]>>
    ensures { Gives (λ v. option_map (λ x. x.now) v) (connection_id_layout is_present len)
        i.now result }
{
    if !is_present {
        return Ok((i, None));
    }
    if len == 0 {
        return refused(i, ErrorKind::Verify);
    }
    let (i, id) = parsed!(block(i, len));
    Ok((i, Some(id)))
}

/// Parses the sequence number, of 16 or of 8 bits.
#[tactic(auto, using(layouts::proofs::OneAnswerLemmas::read_allowed), unfolding(crate::specs::Ciphertext::sequence_number))]
fn sequence_number(i: &[u8], is_long: bool) -> IResult<&[u8], SequenceNumber>
    ensures { Gives view_sequence_number (sequence_number_layout is_long) i.now result }
{
    if is_long {
        let (i, n) = parsed!(number2(i));
        return Ok((i, SequenceNumber::Bits16(n)));
    }
    let (i, n) = parsed!(number1(i));
    Ok((i, SequenceNumber::Bits8(n)))
}

/// Parses the length, if it is present.
#[tactic(auto, using(layouts::proofs::OneAnswerLemmas::read_allowed), unfolding(crate::specs::Ciphertext::length_field))]
fn length_field(i: &[u8], is_present: bool) -> IResult<&[u8], Option<u16>>
    ensures { Gives (λ v. v) (length_field_layout is_present) i.now result }
{
    if !is_present {
        return Ok((i, None));
    }
    let (i, n) = parsed!(number2(i));
    Ok((i, Some(n)))
}

/// Parses the header, with connection IDs of this length.
#[tactic(auto, using(layouts::proofs::OneAnswerLemmas::read_allowed), unfolding(crate::specs::Ciphertext::unified_hdr))]
fn unified_header(i: &[u8], connection_id_len: usize) -> IResult<&[u8], UnifiedHeader>
    ensures { Gives view_unified_header (unified_hdr connection_id_len) i.now result }
{
    let (i, first) = parsed!(number1(i));
    if first / 32 != 1 {
        return refused(i, ErrorKind::Tag);
    }
    let (i, connection_id) = parsed!(connection_id(i, first / C_BIT % 2 == 1, connection_id_len));
    let (i, sequence_number) = parsed!(sequence_number(i, first / S_BIT % 2 == 1));
    let (i, length) = parsed!(length_field(i, first / L_BIT % 2 == 1));
    let header = UnifiedHeader {
        connection_id,
        sequence_number,
        length,
        epoch_bits: first % 4,
    };
    Ok((i, header))
}

/// Parses an encrypted record of `len` bytes.
#[tactic(auto, using(layouts::proofs::OneAnswerLemmas::read_allowed), unfolding(crate::specs::Ciphertext::encrypted_record_of))]
fn encrypted_record_of(i: &[u8], len: usize) -> IResult<&[u8], &[u8]>
    ensures { Gives (λ v. v.now) (encrypted_record_of_layout len) i.now result }
{
    if len > MAX_ENCRYPTED_RECORD_LEN {
        return refused(i, ErrorKind::TooLarge);
    }
    if len < MIN_ENCRYPTED_RECORD_LEN {
        return refused(i, ErrorKind::LengthValue);
    }
    block(i, len)
}

/// Parses an encrypted record of this length, or without a length.
#[tactic(auto, using(layouts::proofs::OneAnswerLemmas::read_allowed), unfolding(crate::specs::Ciphertext::encrypted_record))]
fn encrypted_record(i: &[u8], length: Option<u16>) -> IResult<&[u8], &[u8]>
    ensures { Gives (λ v. v.now) (encrypted_record_layout length) i.now result }
{
    match length {
        Some(n) => encrypted_record_of(i, n as usize),
        None => encrypted_record_of(i, i.len()),
    }
}

/// Parses an encrypted record of DTLS 1.3 (RFC 9147, section 4) from the rest of a datagram: 1 byte
/// 001CSLEE; if C is set, a connection ID of `connection_id_len` bytes; a sequence number of 2
/// bytes if S is set, else of 1; if L is set, 2 bytes of length; and the encrypted record, of that
/// length, or else all of `i`. All numbers are big-endian.
///
/// `connection_id_len` is the length of the IDs that the receiver asked for in its hello (RFC 9146,
/// section 3), 0 if there are none. A record without an ID is accepted even if IDs are expected:
/// each datagram must have one (RFC 9147, section 4), which a caller that follows both sides can
/// check across the records of the datagram.
///
/// Without L a record ends its datagram, so `i` must end where the datagram does.
///
/// - `Incomplete` with the count of bytes missing of the first field that isn't whole, or else of
///   the encrypted record.
/// - `Error` of kind `Tag` if the upper 3 bits of the first byte aren't 001: it is another kind of
///   record.
/// - `Error` of kind `Verify` if C is set and `connection_id_len` is 0.
/// - `Error` of kind `TooLarge` if the encrypted record has more than 16640 bytes, even if they
///   aren't there yet.
/// - `Error` of kind `LengthValue` if it has fewer than 16 bytes (RFC 9147, section 4.2.3).
#[tactic(auto, using(layouts::proofs::OneAnswerLemmas::read_allowed), unfolding(crate::specs::Ciphertext::ciphertext))]
pub fn parse_dtls13_ciphertext(i: &[u8], connection_id_len: usize) -> IResult<&[u8], DTLSCiphertext>
    ensures { Gives view_ciphertext (ciphertext connection_id_len) i.now result }
{
    let (i, header) = parsed!(unified_header(i, connection_id_len));
    let (i, encrypted_record) = parsed!(encrypted_record(i, header.length));
    let record = DTLSCiphertext {
        header,
        encrypted_record,
    };
    Ok((i, record))
}
