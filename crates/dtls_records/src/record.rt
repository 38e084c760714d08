//! Records of DTLS.
ghost use Rattle.std.specs.Prelude.{◌↔◌, ◌≤◌, length, map};
ghost use Rattle.std.specs.Result.{IsErr};
ghost use Rattle.layouts.specs.Layout.{list1};
ghost use Rattle.layouts.specs.Meaning.{AllowsOne};
ghost use Rattle.layouts.specs.Reading.{reading};
ghost use Rattle.layouts.specs.Answers.{GivesOrMemory, MemorySufficed};
ghost use Rattle.raw_records.specs.RawDtlsRecord.{raw_record, view_header};
ghost use Rattle.dtls_records.specs.DtlsRecord.{Plaintext, view_message, record_content, view_plaintext};
ghost use Rattle.dtls_records.specs.DtlsRecord.{plaintext, Message, change_cipher_spec, alert, handshake};
ghost use Rattle.raw_records.specs.Framing.{AsksNoMore, HasNoRecord, NeedsMore, IsIncomplete};

use crate::message::{
    DTLSMessage, parse_dtls_message_alert, parse_dtls_message_changecipherspec,
    parse_dtls_message_handshake,
};
use layouts::{ErrorKind, IResult, Item, Room, hops2, items1, parsed, refused};
use raw_records::content::{Alert, ChangeCipherSpec, Handshake, Protocol};
use raw_records::{DTLSRawRecord, DTLSRecordHeader, parse_dtls_raw_record};
use std::alloc::Global;
use tls_base::TlsRecordType;

/// The messages of DTLS.
struct Dtls;

impl<'a> Protocol<'a> for Dtls {
    type Message = DTLSMessage<'a>;

    ghost Value = { Message };

    ghost view = { view_message };

    ghost cipher_change = { change_cipher_spec };

    ghost alert_message = { alert };

    ghost handshake_message = { handshake };

    fn read_change_cipher_spec(i: &'a [u8]) -> IResult<&'a [u8], DTLSMessage<'a>> {
        parse_dtls_message_changecipherspec(i)
    }

    fn read_alert(i: &'a [u8]) -> IResult<&'a [u8], DTLSMessage<'a>> {
        parse_dtls_message_alert(i)
    }

    #[inline(always)]
    fn read_handshake(alloc: Global, i: &'a [u8]) -> IResult<&'a [u8], DTLSMessage<'a>> {
        parse_dtls_message_handshake(alloc, i)
    }
}

/// A DTLS record that isn't encrypted (RFC 6347, section 4.1), with its messages, at least one.
#[derive(Debug, PartialEq, Drop)]
pub struct DTLSPlaintext<'a> {
    /// The header of the record.
    pub header: DTLSRecordHeader,
    /// The messages, in their order.
    pub messages: Vec<DTLSMessage<'a>>,
}

/// Reads the fragment `i` of a DTLS record with the header `hdr` (RFC 6347, section 4.1): one or
/// more messages of the header's type. They end before the first that can't be read; bytes from
/// there aren't refused.
///
/// - 20: ChangeCipherSpecs, as [`crate::parse_dtls_message_changecipherspec`];
/// - 21: alerts, as [`crate::parse_dtls_message_alert`];
/// - 22: handshake messages, as [`crate::parse_dtls_message_handshake`].
///
/// Never returns `Incomplete`. The refusals:
///
/// - `Error` of kind `Switch` for another type.
/// - The refusal of the first message, with `Incomplete` turned into `Error` of kind `Complete`:
///   the fragment is complete.
/// - `OutOfMemory` if a list can't be allocated.
#[tactic(auto, using(layouts::proofs::OneAnswerLemmas::read_allowed, raw_records::proofs::NoMoreLemmas::list_asks), unfolding(crate::specs::DtlsRecord::record_content))]
pub fn parse_dtls_record_with_header<'a>(
    alloc: Global,
    i: &'a [u8],
    hdr: &DTLSRecordHeader,
) -> IResult<&'a [u8], Vec<DTLSMessage<'a>>>
    ensures gives { GivesOrMemory (λ v. map view_message v.items)
        (record_content (view_header hdr.now)) i.now result }
    ensures never_incomplete { AsksNoMore result }
{
    match hdr.content_type {
        TlsRecordType::ChangeCipherSpec => items1::<ChangeCipherSpec<Dtls>>(alloc, i),
        TlsRecordType::Alert => items1::<Alert<Dtls>>(alloc, i),
        TlsRecordType::Handshake => items1::<Handshake<Dtls>>(alloc, i),
        _ => refused(i, ErrorKind::Switch),
    }
}

/// Reads a raw record, then its fragment by its header.
#[tactic(auto, using(layouts::proofs::OneAnswerLemmas::read_allowed, crate::proofs::ContentLemmas::dtls_plaintext_is_raw_then_content))]
#[inline(never)]
fn record_with_messages(alloc: Global, i: &[u8]) -> IResult<&[u8], DTLSPlaintext>
    ensures gives { GivesOrMemory view_plaintext plaintext i.now result }
    ensures never_out_of_memory_without_raw_record { IsErr (reading raw_record i.now)
        → MemorySufficed result }
{
    let (i, DTLSRawRecord { header, fragment }) = parsed!(parse_dtls_raw_record(i));
    let (_, messages) = parsed!(parse_dtls_record_with_header(alloc, fragment, &header));
    Ok((i, DTLSPlaintext { header, messages }))
}

/// Reads a DTLS record and its messages (RFC 6347, section 4.1): its header, then a fragment of the
/// length there, which [`parse_dtls_record_with_header`] reads. What the messages leave of the
/// fragment is dropped.
///
/// - The refusals of [`raw_records::parse_dtls_record_header`].
/// - `Error` of kind `TooLarge` if the length is above [`raw_records::MAX_RECORD_LEN`], in a record
///   of any version, even if the fragment isn't there yet.
/// - `Incomplete` with the number of bytes missing from the fragment.
/// - The refusals of [`parse_dtls_record_with_header`].
/// - `OutOfMemory` only if the record is complete and not too large.
#[tactic(auto, using(layouts::proofs::OneAnswerLemmas::one_answer, crate::proofs::IncompleteLemmas::dtls_plaintext_memory, crate::proofs::IncompleteLemmas::dtls_plaintext_incomplete))]
#[inline(always)]
pub fn parse_dtls_plaintext_record(alloc: Global, i: &[u8]) -> IResult<&[u8], DTLSPlaintext>
    ensures gives { GivesOrMemory view_plaintext plaintext i.now result }
    ensures only_one { AllowsOne plaintext i.now }
    ensures never_out_of_memory_without_record { HasNoRecord 13 i.now → MemorySufficed result }
    ensures incomplete_while_more_is_needed { IsIncomplete result ↔ NeedsMore 13 i.now }
{
    record_with_messages(alloc, i)
}

impl<'a> Room for DTLSPlaintext<'a> {
    fn room(i: &[u8]) -> usize
        ensures { result ≤ length i.now }
    {
        hops2(i, 11)
    }
}

impl<'a> Item<'a> for DTLSPlaintext<'a> {
    type Read = Self;

    ghost Value = { Plaintext };

    ghost view = { view_plaintext };

    ghost layout = { plaintext };

    fn read(alloc: Global, i: &'a [u8]) -> IResult<&'a [u8], Self> {
        parse_dtls_plaintext_record(alloc, i)
    }
}

/// Reads one or more DTLS records, as [`parse_dtls_plaintext_record`], up to the first that can't
/// be read. The rest begins there. A datagram may hold several records (RFC 6347, section 4.1.1).
///
/// - The refusal of the first record, with `Incomplete` turned into `Error` of kind `Complete`.
/// - `OutOfMemory` if a list can't be allocated.
pub fn parse_dtls_plaintext_records(alloc: Global, i: &[u8]) -> IResult<&[u8], Vec<DTLSPlaintext>>
    ensures { GivesOrMemory (λ v. map view_plaintext v.items) (list1 plaintext) i.now result }
{
    items1::<DTLSPlaintext>(alloc, i)
}
