//! Records of DTLS with unparsed fragments: their header, and the bytes after it.
ghost use Rattle.layouts.specs.Meaning.{AllowsOne};
ghost use Rattle.layouts.specs.Answers.{Gives};
ghost use Rattle.raw_records.specs.RawDtlsRecord.{view_header, record_header, view_raw_record, raw_record};

use crate::record::MAX_RECORD_LEN;
use layouts::{ErrorKind, IResult, block, number2, number8, parsed, refused};
use tls_base::{TlsRecordType, TlsVersion};

/// The header of a DTLS record (RFC 6347, section 4.1), 13 bytes.
#[derive(Debug, PartialEq, Drop)]
pub struct DTLSRecordHeader {
    /// The type of the fragment's content.
    pub content_type: TlsRecordType,
    /// The version that the sender uses, or a lower one that it may put here.
    pub version: TlsVersion,
    /// The epoch: how often the sender has changed its cipher.
    pub epoch: u16,
    /// The record's sequence number in its epoch, below 2^48.
    pub sequence_number: u64,
    /// The length of the fragment that follows, in bytes.
    pub length: u16,
}

/// A DTLS record whose fragment isn't parsed.
#[derive(Debug, PartialEq, Drop)]
pub struct DTLSRawRecord<'a> {
    /// The header of the record.
    pub header: DTLSRecordHeader,
    /// The fragment, `header.length` bytes.
    pub fragment: &'a [u8],
}

/// Reads the header of a DTLS record (RFC 6347, section 4.1): 1 byte of type, 2 of version, 8 of
/// which the upper 2 are the epoch and the others the sequence number, and 2 of length, all
/// big-endian.
///
/// `Incomplete` with the bytes missing from the first incomplete one of these four.
#[tactic(auto, using(layouts::proofs::OneAnswerLemmas::read_allowed, layouts::proofs::OneAnswerLemmas::one_answer, crate::proofs::CounterLemmas::low_bits), unfolding(crate::specs::RawDtlsRecord::record_header))]
pub fn parse_dtls_record_header(i: &[u8]) -> IResult<&[u8], DTLSRecordHeader>
    ensures gives { Gives view_header record_header i.now result }
    ensures only_one { AllowsOne record_header i.now }
{
    let (i, content_type) = parsed!(TlsRecordType::parse(i));
    let (i, version) = parsed!(TlsVersion::parse(i));
    let (i, counter) = parsed!(number8(i));
    let (i, length) = parsed!(number2(i));
    let header = DTLSRecordHeader {
        content_type,
        version,
        epoch: (counter >> 48) as u16,
        sequence_number: counter & 0xffff_ffff_ffff,
        length,
    };
    Ok((i, header))
}

/// Reads a DTLS record (RFC 6347, section 4.1) without parsing its fragment.
///
/// - The refusals of [`parse_dtls_record_header`].
/// - `Error` of kind `TooLarge` if the length in the header is above [`MAX_RECORD_LEN`], even if
///   the fragment isn't there yet.
/// - `Incomplete` with the number of bytes missing from the fragment.
#[tactic(auto, using(layouts::proofs::OneAnswerLemmas::read_allowed), unfolding(crate::specs::RawDtlsRecord::raw_record))]
pub fn parse_dtls_raw_record(i: &[u8]) -> IResult<&[u8], DTLSRawRecord>
    ensures { Gives view_raw_record raw_record i.now result }
{
    let (i, header) = parsed!(parse_dtls_record_header(i));
    if header.length > MAX_RECORD_LEN {
        return refused(i, ErrorKind::TooLarge);
    }
    let (i, fragment) = parsed!(block(i, header.length as usize));
    Ok((i, DTLSRawRecord { header, fragment }))
}
