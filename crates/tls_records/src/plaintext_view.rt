//! Records of TLS with their messages in place (RFC 5246, section 6.2.1).
#![tactic(auto, using(layouts::proofs::OneAnswerLemmas::read_allowed))]

ghost use Rattle.std.specs.Prelude.{◌≡◌};
ghost use Rattle.std.specs.Option.{option_map};
ghost use Rattle.layouts.specs.Answers.{Gives};
ghost use Rattle.layouts.specs.Items.{Returns, decode_while, value_of};
ghost use Rattle.layouts.specs.Reading.{reading};
ghost use Rattle.tls_hs.specs.Message.{heartbeat as heartbeat_layout};
ghost use Rattle.tls_hs.specs.Messages.{message_of, raw_messages};
ghost use Rattle.raw_records.specs.First.{first_judged as first_judged_of};
ghost use Rattle.raw_records.specs.RawRecord.{view_header};
ghost use Rattle.tls_records.specs.InPlace.{body_of_type, host_name_of_record, messages_of_fragment, view_plaintext_in_place};
ghost use Rattle.tls_records.specs.Record.{plaintext, record_content};

use layouts::{Err, Error, ErrorKind, IResult, Items, parsed};
use raw_records::{TlsRawRecord, TlsRecordHeader, completed, first_judged, parse_tls_raw_record};
use tls_base::{TlsHandshakeType, TlsRecordType};
use tls_ext::server_name;
use tls_hs::{
    Alert, ChangeCipherSpec, ClientHelloView, HandshakeView, Messages, RawHandshake, heartbeat,
};

/// A record that isn't encrypted (RFC 5246, section 6.2.1), as [`crate::TlsPlaintext`], with its
/// messages in place.
#[derive(Clone, Copy, Debug, PartialEq)]
pub struct PlaintextView<'a> {
    /// The header of the record.
    pub hdr: TlsRecordHeader,
    /// The messages. The first is checked, with its body. The others aren't checked until the walk
    /// reaches them, and the body of a handshake message not until it is parsed.
    pub msg: Messages<'a>,
}

/// Checks a Heartbeat message in a record of this length, as [`first_judged`].
#[tactic(auto, using(raw_records::proofs::FirstLemmas::first_is_read, raw_records::proofs::FirstLemmas::first_is_refused))]
#[inline(always)]
fn heartbeat_judged(i: &[u8], len: u16) -> Result<(), Err<Error<&[u8]>>>
    ensures { Returns (λ u. tt) (first_judged_of (heartbeat_layout len) i.now) result }
{
    match heartbeat(i, len) {
        Ok(_) => Ok(()),
        Err(e) => Err(completed(i, e)),
    }
}

/// Checks the first message of the fragment `i` of a record with the header `hdr`. Refuses as
/// [`crate::parse_tls_record_with_header`].
#[tactic(auto, using(crate::proofs::InPlaceLemmas::judges_change_cipher_specs, crate::proofs::InPlaceLemmas::judges_alerts, crate::proofs::InPlaceLemmas::judges_handshakes, crate::proofs::InPlaceLemmas::all_data, crate::proofs::InPlaceLemmas::judges_heartbeat), unfolding(crate::specs::Record::record_content))]
fn fragment_judged<'a>(i: &'a [u8], hdr: &TlsRecordHeader) -> Result<(), Err<Error<&'a [u8]>>>
    ensures { Returns (λ u. messages_of_fragment hdr.now i.now)
        (value_of (reading (record_content (view_header hdr.now)) i.now)) result }
{
    match hdr.record_type {
        TlsRecordType::ChangeCipherSpec => first_judged::<ChangeCipherSpec>(i),
        TlsRecordType::Alert => first_judged::<Alert>(i),
        TlsRecordType::Handshake => first_judged::<HandshakeView>(i),
        TlsRecordType::ApplicationData => Ok(()),
        TlsRecordType::Heartbeat => heartbeat_judged(i, hdr.len),
        _ => Err(Err::Error(Error {
            input: i,
            code: ErrorKind::Switch,
        })),
    }
}

/// Returns the messages of the fragment `i` of a record with the header `hdr`, in place. Gives the
/// same answer as [`crate::parse_tls_record_with_header`], also if that refuses, but allocates
/// nothing.
///
/// The first message is checked, with its body. The others are read when the walk reaches them.
#[inline(always)]
pub fn parse_tls_record_with_header_in_place<'a>(
    i: &'a [u8],
    hdr: &TlsRecordHeader,
) -> Result<Messages<'a>, Err<Error<&'a [u8]>>>
    ensures { Returns (λ m. decode_while message_of (raw_messages m))
        (value_of (reading (record_content (view_header hdr.now)) i.now)) result }
{
    fragment_judged(i, hdr)?;
    Ok(Messages::new(hdr.record_type, hdr.len, i))
}

/// Reads a record and its messages in place (RFC 5246, section 6.2.1). Gives the same answer as
/// [`crate::parse_tls_plaintext`], also if that refuses, but allocates nothing.
///
/// Only the header, its length and the first message are checked. [`crate::parse_tls_plaintext`]
/// checks no more: it ends its list before a later message that is refused. Here the walk continues
/// after such a message if its end is in the fragment; its body is checked when it is parsed.
#[tactic(auto, using(layouts::proofs::OneAnswerLemmas::read_allowed, crate::proofs::ContentLemmas::plaintext_is_raw_then_content, crate::proofs::InPlaceLemmas::content_read, crate::proofs::InPlaceLemmas::content_refused))]
#[inline(always)]
pub fn parse_tls_plaintext_in_place(i: &[u8]) -> IResult<&[u8], PlaintextView>
    ensures { Gives view_plaintext_in_place plaintext i.now result }
{
    let (i, TlsRawRecord { hdr, bytes }) = parsed!(parse_tls_raw_record(i));
    let msg = parse_tls_record_with_header_in_place(bytes, &hdr)?;
    Ok((i, PlaintextView { hdr, msg }))
}

/// Returns the body of the first handshake message in `fragment` with this type.
///
/// If there is none: `None` if the walk reached the end of the fragment, else the refusal of the
/// message that the walk ended at, `Incomplete` if it isn't complete.
pub fn first_body<'a>(
    fragment: &'a [u8],
    kind: TlsHandshakeType,
) -> Result<Option<&'a [u8]>, Err<Error<&'a [u8]>>>
    ensures { Returns (option_map (λ x. x.now)) (body_of_type kind.0 fragment.now) result }
{
    let walk: Items<RawHandshake> = Items::new(fragment);
    for message in walk {
        if message.msg_type == kind {
            return Ok(Some(message.body));
        }
    }
    let whole: Items<RawHandshake> = Items::new(fragment);
    match whole.refusal() {
        Some(e) => Err(e),
        None => Ok(None),
    }
}

/// Returns the host name that the first ClientHello in the record at the start of `i` requests (RFC
/// 6066, section 3).
///
/// `None` if the record has no handshake messages, if none of them is a ClientHello, or if its
/// extensions have no name. No other message, and no other extension, is checked. The refusals:
///
/// - the refusal of the record, of the ClientHello's body, or of its extension server_name;
/// - if no ClientHello is found, the refusal of an incomplete message at the end;
/// - if the ClientHello has no server_name, the refusal of an incomplete extension at the end.
pub fn server_name_of_record(i: &[u8]) -> Result<Option<&[u8]>, Err<Error<&[u8]>>>
    ensures { Returns (option_map (λ x. x.now)) (host_name_of_record i.now) result }
{
    let (_, record) = parsed!(parse_tls_raw_record(i));
    if record.hdr.record_type != TlsRecordType::Handshake {
        return Ok(None);
    }
    let Some(body) = first_body(record.bytes, TlsHandshakeType::ClientHello)? else {
        return Ok(None);
    };
    let (_, hello) = parsed!(ClientHelloView::parse(body));
    server_name(hello.ext)
}
