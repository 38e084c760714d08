//! Records of TLS with unparsed fragments: their header, and the bytes after it.
ghost use Rattle.std.specs.Prelude.{IfOk};
ghost use Rattle.layouts.specs.Meaning.{AllowsOne};
ghost use Rattle.layouts.specs.Answers.{Gives};
ghost use Rattle.raw_records.specs.RawRecord.{view_header, record_header, view_raw_record, view_encrypted, raw_record};
ghost use Rattle.raw_records.specs.RawRecord.{IsInFront};

use layouts::{ErrorKind, IResult, block, number2, parsed, refused};
use tls_base::{TlsRecordType, TlsVersion};

/// The maximum length of a record's fragment here, in bytes, for TLS and DTLS, encrypted or not:
/// 2^14 + 256 (RFC 8446, section 5.2, for encrypted records).
///
/// RFC 5246, section 6.2, and RFC 6347, section 4.1, have other limits: 2^14 for a record that
/// isn't encrypted, and 2^14 + 2048 for one that is. So a record of TLS 1.2 of 16641 to 18432
/// bytes, which encryption may produce, is refused here, and an unencrypted one of 16385 to 16640
/// bytes is accepted.
pub const MAX_RECORD_LEN: u16 = 16640;

/// The maximum length in bytes of an encrypted record's fragment up to TLS 1.2, and in DTLS: 2^14 +
/// 2048 (RFC 5246, section 6.2.3). No reader of records accepts more than [`MAX_RECORD_LEN`]; the
/// reassembly of a stream's messages does.
pub const MAX_ENCRYPTED_LEN: u16 = 18_432;

/// The header of a record (RFC 5246, section 6.2.1), 5 bytes.
#[derive(Clone, Copy, Debug, PartialEq)]
pub struct TlsRecordHeader {
    /// The type of the fragment's content.
    pub record_type: TlsRecordType,
    /// The version that the sender uses, or a lower one that it may put here.
    pub version: TlsVersion,
    /// The length of the fragment that follows, in bytes.
    pub len: u16,
}

/// A record whose fragment isn't parsed, encrypted or not.
#[derive(Clone, Debug, PartialEq, Drop)]
pub struct TlsRawRecord<'a> {
    /// The header of the record.
    pub hdr: TlsRecordHeader,
    /// The fragment, `hdr.len` bytes.
    pub bytes: &'a [u8],
}

/// The fragment of an encrypted record.
#[derive(Clone, Debug, PartialEq, Drop)]
pub struct TlsEncryptedContent<'a> {
    /// The encrypted bytes, with all that the cipher adds.
    pub blob: &'a [u8],
}

/// An encrypted record (RFC 5246, section 6.2.3).
#[derive(Clone, Debug, PartialEq, Drop)]
pub struct TlsEncrypted<'a> {
    /// The header of the record.
    pub hdr: TlsRecordHeader,
    /// The fragment, `hdr.len` bytes.
    pub msg: TlsEncryptedContent<'a>,
}

impl TlsRecordHeader {
    /// Reads 1 byte of type, 2 of version and 2 of length, all big-endian.
    ///
    /// `Incomplete` with the bytes missing from the first incomplete field.
    #[tactic(auto, using(layouts::proofs::OneAnswerLemmas::read_allowed), unfolding(crate::specs::RawRecord::record_header))]
    pub fn parse(i: &[u8]) -> IResult<&[u8], Self>
        ensures { Gives view_header record_header i.now result }
    {
        let (i, record_type) = parsed!(TlsRecordType::parse(i));
        let (i, version) = parsed!(TlsVersion::parse(i));
        let (i, len) = parsed!(number2(i));
        let header = TlsRecordHeader {
            record_type,
            version,
            len,
        };
        Ok((i, header))
    }
}

/// Reads the header of a record, as [`TlsRecordHeader::parse`].
#[tactic(auto, using(layouts::proofs::OneAnswerLemmas::read_allowed, layouts::proofs::OneAnswerLemmas::one_answer))]
pub fn parse_tls_record_header(i: &[u8]) -> IResult<&[u8], TlsRecordHeader>
    ensures gives { Gives view_header record_header i.now result }
    ensures only_one { AllowsOne record_header i.now }
{
    TlsRecordHeader::parse(i)
}

/// Reads a record (RFC 5246, section 6.2.1) without parsing its fragment.
///
/// - The refusals of [`parse_tls_record_header`].
/// - `Error` of kind `TooLarge` if the length in the header is above [`MAX_RECORD_LEN`], in a
///   record of any version, even if the fragment isn't there yet.
/// - `Incomplete` with the number of bytes missing from the fragment.
#[tactic(auto, using(layouts::proofs::OneAnswerLemmas::read_allowed, layouts::proofs::OneAnswerLemmas::one_answer), unfolding(crate::specs::RawRecord::raw_record))]
pub fn parse_tls_raw_record(i: &[u8]) -> IResult<&[u8], TlsRawRecord>
    ensures gives { Gives view_raw_record raw_record i.now result }
    ensures only_one { AllowsOne raw_record i.now }
    // The input begins with the record's bytes, and the rest follows them.
    ensures in_front { IfOk result (λ x. IsInFront (view_raw_record x.1) i.now x.0.now) }
{
    let (i, hdr) = parse_tls_record_header(i)?;
    if hdr.len > MAX_RECORD_LEN {
        return refused(i, ErrorKind::TooLarge);
    }
    let (i, bytes) = block(i, hdr.len as usize)?;
    Ok((i, TlsRawRecord { hdr, bytes }))
}

/// Reads an encrypted record (RFC 5246, section 6.2.3) of any type, as [`parse_tls_raw_record`],
/// with its refusals. Decrypts nothing.
#[tactic(auto, using(layouts::proofs::OneAnswerLemmas::read_allowed, layouts::proofs::OneAnswerLemmas::one_answer))]
pub fn parse_tls_encrypted(i: &[u8]) -> IResult<&[u8], TlsEncrypted>
    ensures gives { Gives view_encrypted raw_record i.now result }
    ensures only_one { AllowsOne raw_record i.now }
{
    let (i, TlsRawRecord { hdr, bytes }) = parsed!(parse_tls_raw_record(i));
    let msg = TlsEncryptedContent { blob: bytes };
    Ok((i, TlsEncrypted { hdr, msg }))
}
