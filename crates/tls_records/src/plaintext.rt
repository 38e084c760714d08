//! Records of TLS with their messages.
ghost use Rattle.std.specs.Prelude.{◌≡◌, ◌↔◌, ◌≤◌, length, map, [], ◌∷◌, IfOk};
ghost use Rattle.std.specs.Result.{IsErr};
ghost use Rattle.layouts.specs.Layout.{complete, list1, mapped};
ghost use Rattle.layouts.specs.Meaning.{AllowsOne};
ghost use Rattle.layouts.specs.Reading.{reading};
ghost use Rattle.layouts.specs.Answers.{Gives, GivesOrMemory, MemorySufficed};
ghost use Rattle.tls_hs.specs.Message.{Message, view_message, change_cipher_spec, alert, handshake, application_data, heartbeat};
ghost use Rattle.raw_records.specs.Framing.{AsksNoMore, HasNoRecord, NeedsMore, IsIncomplete};
ghost use Rattle.tls_records.specs.RecordText.{WritesBack};
ghost use Rattle.raw_records.specs.RawRecord.{view_header, raw_record};
ghost use Rattle.tls_records.specs.Record.{Plaintext, record_content, view_plaintext, plaintext};

use layouts::{Err, ErrorKind, IResult, Item, OutOfMemory, Room, hops2, items1, parsed, refused};
use raw_records::content::{Alert, ChangeCipherSpec, Handshake, Protocol};
use raw_records::{TlsRawRecord, TlsRecordHeader, parse_tls_raw_record};
use std::alloc::Global;
use tls_base::TlsRecordType;
use tls_hs::{
    TlsMessage, parse_tls_message_alert, parse_tls_message_applicationdata,
    parse_tls_message_changecipherspec, parse_tls_message_handshake, parse_tls_message_heartbeat,
};

/// A record that isn't encrypted (RFC 5246, section 6.2.1), with its messages, at least one.
#[derive(Debug, PartialEq, Drop)]
pub struct TlsPlaintext<'a> {
    /// The header of the record.
    pub hdr: TlsRecordHeader,
    /// The messages, in their order.
    pub msg: Vec<TlsMessage<'a>>,
}

impl<'a> TlsPlaintext<'a> {
    /// Returns a copy of the record with copied lists. Slices are shared.
    ///
    /// `OutOfMemory` if a list can't be allocated.
    pub fn try_clone(&self, alloc: Global) -> Result<Self, OutOfMemory>
        ensures { IfOk result (λ p. view_plaintext p ≡ view_plaintext self.now) }
    {
        let mut msg = Vec::with_capacity(alloc, self.msg.len())?;
        for message in &self.msg {
            msg.push_reserved(message.try_clone(alloc)?);
        }
        Ok(TlsPlaintext { hdr: self.hdr, msg })
    }
}

/// The messages of TLS.
struct Tls;

impl<'a> Protocol<'a> for Tls {
    type Message = TlsMessage<'a>;

    ghost Value = { Message };

    ghost view = { view_message };

    ghost cipher_change = { change_cipher_spec };

    ghost alert_message = { alert };

    ghost handshake_message = { handshake };

    fn read_change_cipher_spec(i: &'a [u8]) -> IResult<&'a [u8], TlsMessage<'a>> {
        parse_tls_message_changecipherspec(i)
    }

    fn read_alert(i: &'a [u8]) -> IResult<&'a [u8], TlsMessage<'a>> {
        parse_tls_message_alert(i)
    }

    fn read_handshake(alloc: Global, i: &'a [u8]) -> IResult<&'a [u8], TlsMessage<'a>> {
        parse_tls_message_handshake(alloc, i)
    }
}

/// Reads application data as a list of one message.
fn application_data_alone(alloc: Global, i: &[u8]) -> IResult<&[u8], Vec<TlsMessage>>
    ensures { GivesOrMemory (λ v. map view_message v.items) (mapped (λ m. m ∷ []) application_data)
        i.now result }
{
    let (i, data) = parsed!(parse_tls_message_applicationdata(i));
    let mut messages = Vec::new(alloc);
    messages.push(data)?;
    Ok((i, messages))
}

/// Reads a Heartbeat message as a list of one. Missing bytes are refused as `Complete`: no further
/// bytes could supply them.
fn heartbeat_alone(alloc: Global, i: &[u8], len: u16) -> IResult<&[u8], Vec<TlsMessage>>
    ensures { GivesOrMemory (λ v. map view_message v.items) (complete (heartbeat len))
        i.now result }
{
    match parse_tls_message_heartbeat(alloc, i, len) {
        Err(Err::Incomplete(_)) => refused(i, ErrorKind::Complete),
        result => result,
    }
}

/// Reads the fragment `i` of a record with the header `hdr` (RFC 5246, section 6.2.1), as messages
/// of the header's type:
///
/// - 20, 21, 22: one or more ChangeCipherSpecs, alerts or handshake messages, each as by its
///   `parse_tls_message_..`. They end before the first that can't be read; bytes from there aren't
///   refused.
/// - 23: all bytes, possibly none, as one ApplicationData.
/// - 24: one Heartbeat, as [`parse_tls_message_heartbeat`] with the length in the header.
///
/// Never returns `Incomplete`. The refusals:
///
/// - `Error` of kind `Switch` for another type.
/// - The refusal of the first message, with `Incomplete` turned into `Error` of kind `Complete`:
///   the fragment is complete.
/// - `OutOfMemory` if a list can't be allocated.
#[tactic(auto, using(layouts::proofs::OneAnswerLemmas::read_allowed, crate::proofs::NoMoreLemmas::never_asked), unfolding(crate::specs::Record::record_content))]
pub fn parse_tls_record_with_header<'a>(
    alloc: Global,
    i: &'a [u8],
    hdr: &TlsRecordHeader,
) -> IResult<&'a [u8], Vec<TlsMessage<'a>>>
    ensures gives { GivesOrMemory (λ v. map view_message v.items)
        (record_content (view_header hdr.now))
        i.now result }
    ensures never_incomplete { AsksNoMore result }
{
    match hdr.record_type {
        TlsRecordType::ChangeCipherSpec => items1::<ChangeCipherSpec<Tls>>(alloc, i),
        TlsRecordType::Alert => items1::<Alert<Tls>>(alloc, i),
        TlsRecordType::Handshake => items1::<Handshake<Tls>>(alloc, i),
        TlsRecordType::ApplicationData => application_data_alone(alloc, i),
        TlsRecordType::Heartbeat => heartbeat_alone(alloc, i, hdr.len),
        _ => refused(i, ErrorKind::Switch),
    }
}

/// Reads a raw record, then its fragment by its header.
#[tactic(auto, using(layouts::proofs::OneAnswerLemmas::read_allowed, crate::proofs::ContentLemmas::plaintext_is_raw_then_content))]
#[inline(never)]
fn record_with_messages(alloc: Global, i: &[u8]) -> IResult<&[u8], TlsPlaintext>
    ensures gives { GivesOrMemory view_plaintext plaintext i.now result }
    ensures never_out_of_memory_without_raw_record { IsErr (reading raw_record i.now)
        → MemorySufficed result }
{
    let (i, TlsRawRecord { hdr, bytes }) = parsed!(parse_tls_raw_record(i));
    let (_, msg) = parsed!(parse_tls_record_with_header(alloc, bytes, &hdr));
    Ok((i, TlsPlaintext { hdr, msg }))
}

/// Reads a record and its messages (RFC 5246, section 6.2.1): as [`parse_tls_raw_record`], and then
/// [`parse_tls_record_with_header`] on the fragment. What the messages leave of the fragment is
/// dropped.
///
/// - `Incomplete` with the bytes missing from the first incomplete field of the header, or else
///   from the fragment; never for other reasons.
/// - `Error` of kind `TooLarge` if the length is above [`crate::MAX_RECORD_LEN`], in a record of
///   any version, even if the fragment isn't there yet.
/// - The refusals of [`parse_tls_record_with_header`].
/// - `OutOfMemory` only if the record is complete and not too large.
///
/// [`crate::gen_tls_plaintext`] writes what was read as the same bytes, if none of them was
/// dropped, the writer knows the kinds of the messages, and each hello has `ext`.
#[tactic(auto, using(layouts::proofs::OneAnswerLemmas::one_answer, crate::proofs::IncompleteLemmas::plaintext_memory, crate::proofs::IncompleteLemmas::plaintext_incomplete))]
#[inline(always)]
pub fn parse_tls_plaintext(alloc: Global, i: &[u8]) -> IResult<&[u8], TlsPlaintext>
    ensures gives { GivesOrMemory view_plaintext plaintext i.now result }
    ensures only_one { AllowsOne plaintext i.now }
    ensures never_out_of_memory_without_record { HasNoRecord 5 i.now → MemorySufficed result }
    ensures incomplete_while_more_is_needed { IsIncomplete result ↔ NeedsMore 5 i.now }
    ensures written_back { IfOk result (λ x. WritesBack (view_plaintext x.1) i.now x.0.now) }
{
    record_with_messages(alloc, i)
}

/// Reads a record and its messages, as [`parse_tls_plaintext`].
///
/// Deprecated: use [`parse_tls_plaintext`].
pub fn tls_parser(alloc: Global, i: &[u8]) -> IResult<&[u8], TlsPlaintext>
    ensures gives { GivesOrMemory view_plaintext plaintext i.now result }
    ensures never_out_of_memory_without_record { HasNoRecord 5 i.now → MemorySufficed result }
    ensures incomplete_while_more_is_needed { IsIncomplete result ↔ NeedsMore 5 i.now }
{
    parse_tls_plaintext(alloc, i)
}

impl<'a> Room for TlsPlaintext<'a> {
    fn room(i: &[u8]) -> usize
        ensures { result ≤ length i.now }
    {
        hops2(i, 3)
    }
}

impl<'a> Item<'a> for TlsPlaintext<'a> {
    type Read = Self;

    ghost Value = { Plaintext };

    ghost view = { view_plaintext };

    ghost layout = { plaintext };

    fn read(alloc: Global, i: &'a [u8]) -> IResult<&'a [u8], Self> {
        parse_tls_plaintext(alloc, i)
    }
}

/// Reads one or more records, as [`parse_tls_plaintext`], up to the first that can't be read. The
/// rest begins there.
///
/// - The refusal of the first record, with `Incomplete` turned into `Error` of kind `Complete`.
/// - `OutOfMemory` if a list can't be allocated.
pub fn tls_parser_many(alloc: Global, i: &[u8]) -> IResult<&[u8], Vec<TlsPlaintext>>
    ensures { GivesOrMemory (λ v. map view_plaintext v.items) (list1 plaintext) i.now result }
{
    items1::<TlsPlaintext>(alloc, i)
}
