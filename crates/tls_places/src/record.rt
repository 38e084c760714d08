//! Records of TLS and DTLS, and messages of DTLS, as items with the place of their last bytes.
#![tactic(auto, using(layouts::proofs::OneAnswerLemmas::read_allowed))]

ghost use Rattle.layouts.specs.Answers.{Gives};
ghost use Rattle.tls_records.specs.Record as tls;
ghost use Rattle.dtls_records.specs.DtlsRecord as dtls;

use crate::frame::ContentItem;
use layouts::{ErrorKind, IResult, InPlace, block, refused};
use tls_records::{
    DTLSRawHandshake, DTLSRawRecord, MAX_RECORD_LEN, TlsRawRecord, parse_dtls_record_header,
    parse_tls_raw_record,
};

/// A record as [`parse_tls_raw_record`] parses it, with its fragment unparsed.
#[derive(Clone, Copy)]
pub struct Record;

impl<'a> InPlace<'a> for Record {
    type Read = TlsRawRecord<'a>;

    ghost Value = { tls.RawRecord };

    ghost view = { tls.view_raw_record };

    ghost layout = { tls.raw_record };

    #[inline(always)]
    fn read(i: &'a [u8]) -> IResult<&'a [u8], TlsRawRecord<'a>> {
        parse_tls_raw_record(i)
    }
}

/// The fragment of a record.
impl<'a> ContentItem<'a> for Record {
    ghost content = { λ r. r.bytes.now };

    #[tactic(auto, using(crate::proofs::RecordLemmas::fragment_is_last))]
    #[inline(always)]
    fn content(read: &TlsRawRecord<'a>) -> &'a [u8] {
        read.bytes
    }
}

/// A record of DTLS (RFC 6347, section 4.1), with its fragment unparsed.
///
/// `TooLarge` if its length is above [`MAX_RECORD_LEN`]; `Incomplete` with the count of bytes
/// missing of its header, or else of its fragment.
#[derive(Clone, Copy)]
pub struct DtlsRecord;

impl<'a> InPlace<'a> for DtlsRecord {
    type Read = DTLSRawRecord<'a>;

    ghost Value = { dtls.RawRecord };

    ghost view = { dtls.view_raw_record };

    ghost layout = { dtls.raw_record };

    #[tactic(auto, using(layouts::proofs::OneAnswerLemmas::read_allowed), unfolding(raw_records::specs::RawDtlsRecord::raw_record))]
    #[inline(always)]
    fn read(i: &'a [u8]) -> IResult<&'a [u8], DTLSRawRecord<'a>> {
        let (i, header) = parse_dtls_record_header(i)?;
        if header.length > MAX_RECORD_LEN {
            return refused(i, ErrorKind::TooLarge);
        }
        let (i, fragment) = block(i, header.length as usize)?;
        Ok((i, DTLSRawRecord { header, fragment }))
    }
}

/// The fragment of a record of DTLS.
impl<'a> ContentItem<'a> for DtlsRecord {
    ghost content = { λ r. r.fragment.now };

    #[tactic(auto, using(crate::proofs::RecordLemmas::dtls_fragment_is_last))]
    #[inline(always)]
    fn content(read: &DTLSRawRecord<'a>) -> &'a [u8] {
        read.fragment
    }
}

/// The body of a DTLS handshake message, or the fragment's part of it.
impl<'a> ContentItem<'a> for DTLSRawHandshake<'a> {
    ghost content = { λ m. m.body.now };

    #[tactic(auto, using(crate::proofs::RecordLemmas::dtls_body_is_last))]
    #[inline(always)]
    fn content(read: &Self) -> &'a [u8] {
        read.body
    }
}
