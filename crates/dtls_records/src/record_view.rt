//! Records of DTLS with their messages in place (RFC 6347, section 4.1).
#![tactic(auto, using(layouts::proofs::OneAnswerLemmas::read_allowed))]

ghost use Rattle.std.specs.Prelude.{◌≡◌};
ghost use Rattle.tls_base.specs.Alert as base_alert;
ghost use Rattle.layouts.specs.Answers.{Gives};
ghost use Rattle.layouts.specs.Items.{Returns, decode_while, value_of};
ghost use Rattle.layouts.specs.Reading.{reading};
ghost use Rattle.dtls_records.specs.DtlsInPlace.{message_of, messages_of_type, raw_messages, view_plaintext_in_place, view_raw};
ghost use Rattle.dtls_records.specs.DtlsRecord as dtls_record;
ghost use Rattle.raw_records.specs.RawDtlsRecord.{view_header};
ghost use Rattle.dtls_records.specs.DtlsRecord.{Message, plaintext, record_content};

use crate::handshake_view::{DTLSHandshakeView, DTLSRawHandshake};
use layouts::{Err, Error, ErrorKind, IResult, InPlace, Items, parsed};
use raw_records::{DTLSRawRecord, DTLSRecordHeader, first_judged, parse_dtls_raw_record};
use tls_base::{TlsMessageAlert, TlsRecordType};

/// ChangeCipherSpecs of DTLS as items of a list.
pub(crate) struct ChangeCipherSpec;

impl<'a> InPlace<'a> for ChangeCipherSpec {
    type Read = tls_hs::ChangeCipherSpec;

    ghost Value = { Message };

    ghost view = { λ _. dtls_record.ChangeCipherSpec };

    ghost layout = { dtls_record.change_cipher_spec };

    #[tactic(auto, using(layouts::proofs::OneAnswerLemmas::read_allowed), unfolding(crate::specs::DtlsRecord::change_cipher_spec))]
    #[inline(always)]
    fn read(i: &'a [u8]) -> IResult<&'a [u8], tls_hs::ChangeCipherSpec> {
        let (i, message) = parsed!(tls_hs::ChangeCipherSpec::read(i));
        Ok((i, message))
    }
}

/// Alerts of DTLS as items of a list.
pub(crate) struct Alert;

impl<'a> InPlace<'a> for Alert {
    type Read = TlsMessageAlert;

    ghost Value = { Message };

    ghost view = { λ a. dtls_record.Alert (base_alert.view_alert a) };

    ghost layout = { dtls_record.alert };

    #[tactic(auto, using(layouts::proofs::OneAnswerLemmas::read_allowed), unfolding(crate::specs::DtlsRecord::alert))]
    #[inline(always)]
    fn read(i: &'a [u8]) -> IResult<&'a [u8], TlsMessageAlert> {
        let (i, alert) = parsed!(TlsMessageAlert::parse(i));
        Ok((i, alert))
    }
}

/// A message of a DTLS record, as [`crate::DTLSMessage`], with the body of a handshake message
/// unparsed.
#[derive(Debug, PartialEq, Drop)]
pub enum DTLSRawMessage<'a> {
    /// A handshake message, or a fragment of one (RFC 6347, section 4.2.2).
    Handshake(DTLSRawHandshake<'a>),
    /// The sender's next records use the new keys (RFC 5246, section 7.1).
    ChangeCipherSpec,
    /// An alert (RFC 5246, section 7.2).
    Alert(TlsMessageAlert),
}

/// Walks the messages of a DTLS record. Each is parsed when the walk reaches it.
///
/// The walk doesn't check the bodies of handshake messages. So it continues after one that
/// [`DTLSRawHandshake::parse_body`] refuses, where the calls that make lists end.
#[derive(Clone, Copy, Debug, PartialEq)]
pub struct DTLSMessages<'a> {
    content_type: TlsRecordType,
    bytes: &'a [u8],
}

impl<'a> DTLSMessages<'a> {
    /// Returns a walk over the messages in the fragment `bytes` of a record of this type.
    #[inline(always)]
    pub fn new(content_type: TlsRecordType, bytes: &'a [u8]) -> Self
        ensures { raw_messages result ≡ messages_of_type content_type.0 bytes.now }
    {
        DTLSMessages {
            content_type,
            bytes,
        }
    }

    /// Returns the bytes that the walk hasn't reached yet.
    #[inline(always)]
    pub fn bytes(self) -> &'a [u8]
        ensures { result.now ≡ self.entry.bytes.now }
    {
        self.bytes
    }
}

impl<'a> Iterator for DTLSMessages<'a> {
    ghost use Rattle.std.specs.Iterator.{YieldsFirstBy, item_count};

    type Item = DTLSRawMessage<'a>;

    ghost next_gives = { YieldsFirstBy view_raw raw_messages };

    ghost remaining = { item_count raw_messages };

    #[inline(always)]
    fn next(&mut self) -> Option<DTLSRawMessage<'a>> {
        match self.content_type {
            TlsRecordType::ChangeCipherSpec => {
                let mut items: Items<ChangeCipherSpec> = Items::new(self.bytes);
                let _ = items.next()?;
                self.bytes = items.bytes();
                Some(DTLSRawMessage::ChangeCipherSpec)
            }
            TlsRecordType::Alert => {
                let mut items: Items<Alert> = Items::new(self.bytes);
                let alert = items.next()?;
                self.bytes = items.bytes();
                Some(DTLSRawMessage::Alert(alert))
            }
            TlsRecordType::Handshake => {
                let mut items: Items<DTLSRawHandshake> = Items::new(self.bytes);
                let message = items.next()?;
                self.bytes = items.bytes();
                Some(DTLSRawMessage::Handshake(message))
            }
            _ => None,
        }
    }
}

/// A DTLS record that isn't encrypted (RFC 6347, section 4.1), as [`crate::DTLSPlaintext`], with
/// its messages in place.
#[derive(Debug, PartialEq, Drop)]
pub struct DTLSPlaintextView<'a> {
    /// The header of the record.
    pub header: DTLSRecordHeader,
    /// The messages. The first is checked, with its body. The others aren't checked until the walk
    /// reaches them.
    pub messages: DTLSMessages<'a>,
}

/// Checks the first message of the fragment `i` of a record with the header `hdr`. Refuses as
/// [`crate::parse_dtls_record_with_header`].
#[tactic(auto, using(crate::proofs::DtlsInPlaceLemmas::judges_change_cipher_specs, crate::proofs::DtlsInPlaceLemmas::judges_alerts, crate::proofs::DtlsInPlaceLemmas::judges_handshakes), unfolding(crate::specs::DtlsRecord::record_content))]
fn fragment_judged<'a>(i: &'a [u8], hdr: &DTLSRecordHeader) -> Result<(), Err<Error<&'a [u8]>>>
    ensures { Returns (λ u. decode_while message_of (messages_of_type hdr.now.content_type.0 i.now))
        (value_of (reading (record_content (view_header hdr.now)) i.now)) result }
{
    match hdr.content_type {
        TlsRecordType::ChangeCipherSpec => first_judged::<ChangeCipherSpec>(i),
        TlsRecordType::Alert => first_judged::<Alert>(i),
        TlsRecordType::Handshake => first_judged::<DTLSHandshakeView>(i),
        _ => Err(Err::Error(Error {
            input: i,
            code: ErrorKind::Switch,
        })),
    }
}

/// Returns the messages of the fragment `i` of a DTLS record with the header `hdr`, in place. Gives
/// the same answer as [`crate::parse_dtls_record_with_header`], also if that refuses, but allocates
/// nothing.
///
/// The first message is checked, with its body. The others are read when the walk reaches them.
#[inline(always)]
pub fn parse_dtls_record_with_header_in_place<'a>(
    i: &'a [u8],
    hdr: &DTLSRecordHeader,
) -> Result<DTLSMessages<'a>, Err<Error<&'a [u8]>>>
    ensures { Returns (λ m. decode_while message_of (raw_messages m))
        (value_of (reading (record_content (view_header hdr.now)) i.now)) result }
{
    fragment_judged(i, hdr)?;
    Ok(DTLSMessages::new(hdr.content_type, i))
}

/// Reads a DTLS record and its messages in place (RFC 6347, section 4.1). Gives the same answer as
/// [`crate::parse_dtls_plaintext_record`], also if that refuses, but allocates nothing.
///
/// Only the header, its length and the first message are checked.
#[tactic(auto, using(layouts::proofs::OneAnswerLemmas::read_allowed, crate::proofs::ContentLemmas::dtls_plaintext_is_raw_then_content, crate::proofs::DtlsInPlaceLemmas::content_read, crate::proofs::DtlsInPlaceLemmas::content_refused))]
#[inline(always)]
pub fn parse_dtls_plaintext_record_in_place(i: &[u8]) -> IResult<&[u8], DTLSPlaintextView>
    ensures { Gives view_plaintext_in_place plaintext i.now result }
{
    let (i, DTLSRawRecord { header, fragment }) = parsed!(parse_dtls_raw_record(i));
    let messages = parse_dtls_record_with_header_in_place(fragment, &header)?;
    Ok((i, DTLSPlaintextView { header, messages }))
}
