//! Records and handshake messages of DTLS.
ghost use Rattle.layouts.specs.Reading.{reading};
ghost use Rattle.tls_records.specs.DtlsHello.{client_hello};
ghost use Rattle.tls_records.specs.DtlsInPlace.{raw_handshake};
ghost use Rattle.tls_records.specs.DtlsRecord.{raw_record};
ghost use Rattle.wispuddera_c.specs.Dtls.{ShowsDtlsClientHello, ShowsDtlsMessage, ShowsDtlsRecord};
ghost use Rattle.wispuddera_c.specs.Status.{IsAnswered, IsAnsweredAt};

use crate::place::{Place, bytes_from, held_in_c, in_c, offset_of};
use crate::status::{OUTSIDE, READ, Refusal};
use tls_places::{dtls_client_hello_with_places, frame_at};
use tls_records::DTLSRawHandshake;

/// A record of DTLS (RFC 6347, section 4.1): its header, the place of its fragment, and the offset
/// of what follows it.
#[repr(C)]
#[derive(Clone, Copy)]
pub struct DtlsRecord {
    /// How many bytes are missing, if the status is `INCOMPLETE`; else 0.
    pub missing: usize,
    /// The place of the fragment.
    pub fragment: Place,
    /// The offset of what follows.
    pub next: usize,
    /// The record's number within its epoch, below 2^48.
    pub sequence_number: u64,
    /// The version field.
    pub version: u16,
    /// The epoch: how often the sender has changed its cipher.
    pub epoch: u16,
    /// The length of the fragment, in bytes.
    pub length: u16,
    /// The content type.
    pub content_type: u8,
}

/// A handshake message of DTLS, or a fragment of one (RFC 6347, section 4.2.2).
#[repr(C)]
#[derive(Clone, Copy)]
pub struct DtlsMessage {
    /// How many bytes are missing, if the status is `INCOMPLETE`; else 0.
    pub missing: usize,
    /// The place of the body, or of the fragment's part of it.
    pub body: Place,
    /// The offset of what follows.
    pub next: usize,
    /// The length of the whole body, in bytes.
    pub length: u32,
    /// Where the fragment begins in the whole body, in bytes.
    pub fragment_offset: u32,
    /// The length of the fragment, in bytes.
    pub fragment_length: u32,
    /// The message's sequence number.
    pub message_seq: u16,
    /// The HandshakeType.
    pub kind: u8,
    /// Whether this is only a part of the body.
    pub is_part: bool,
}

/// A ClientHello of DTLS (RFC 6347, section 4.2.1): its version, and the places of its parts in its
/// body.
#[repr(C)]
#[derive(Clone, Copy)]
pub struct DtlsClientHello {
    /// How many bytes are missing, if the status is `INCOMPLETE`; else 0.
    pub missing: usize,
    /// The 32 bytes of the random.
    pub random: Place,
    /// The session ID, without its length; empty if there is none.
    pub session_id: Place,
    /// The cookie, without its length.
    pub cookie: Place,
    /// The cipher suites, 2 bytes each, without their length.
    pub cipher_suites: Place,
    /// The compression methods, 1 byte each, without their length.
    pub compression_methods: Place,
    /// The extensions, without their length; empty if no whole block follows.
    pub extensions: Place,
    /// The offset of what follows.
    pub next: usize,
    /// The version field.
    pub version: u16,
    /// Whether a whole block of extensions follows.
    pub has_extensions: bool,
}

/// Parses the DTLS record at this offset of a datagram.
#[tactic(auto, using(layouts::proofs::OneAnswerLemmas::read_allowed, crate::proofs::StatusLemmas::shown_by, crate::proofs::StatusLemmas::refused, crate::proofs::StatusLemmas::behind))]
#[unsafe(no_mangle)]
pub extern "C" fn wispuddera_read_dtls_record(
    bytes: &[u8],
    offset: usize,
    out: &mut DtlsRecord,
) -> u32
    ensures { IsAnsweredAt raw_record (ShowsDtlsRecord bytes.now out.new) bytes.now offset result
        out.new.missing }
{
    let Some(i) = bytes_from(bytes, offset) else {
        out.missing = 0;
        return OUTSIDE;
    };
    match frame_at::<tls_places::DtlsRecord>(bytes, i) {
        Ok((rest, (record, fragment))) => {
            *out = DtlsRecord {
                missing: 0,
                fragment: in_c(fragment),
                next: offset_of(bytes, rest),
                sequence_number: record.header.sequence_number,
                version: record.header.version.0,
                epoch: record.header.epoch,
                length: record.header.length,
                content_type: record.header.content_type.0,
            };
            READ
        }
        Err(e) => {
            let refusal = Refusal::of(e);
            out.missing = refusal.missing;
            refusal.status
        }
    }
}

/// Parses the handshake message, or the fragment of one, at this offset of a record's fragment.
#[tactic(auto, using(layouts::proofs::OneAnswerLemmas::read_allowed, crate::proofs::StatusLemmas::shown_by, crate::proofs::StatusLemmas::refused, crate::proofs::StatusLemmas::behind))]
#[unsafe(no_mangle)]
pub extern "C" fn wispuddera_read_dtls_message(
    bytes: &[u8],
    offset: usize,
    out: &mut DtlsMessage,
) -> u32
    ensures { IsAnsweredAt raw_handshake (ShowsDtlsMessage bytes.now out.new) bytes.now offset
        result out.new.missing }
{
    let Some(i) = bytes_from(bytes, offset) else {
        out.missing = 0;
        return OUTSIDE;
    };
    match frame_at::<DTLSRawHandshake>(bytes, i) {
        Ok((rest, (message, body))) => {
            *out = DtlsMessage {
                missing: 0,
                body: in_c(body),
                next: offset_of(bytes, rest),
                length: message.length,
                fragment_offset: message.fragment_offset,
                fragment_length: message.fragment_length,
                message_seq: message.message_seq,
                kind: message.msg_type.0,
                is_part: message.is_fragment(),
            };
            READ
        }
        Err(e) => {
            let refusal = Refusal::of(e);
            out.missing = refusal.missing;
            refusal.status
        }
    }
}

/// Parses the body of a DTLS ClientHello.
#[tactic(auto, using(layouts::proofs::OneAnswerLemmas::read_allowed, layouts::proofs::PlaceLemmas::ends_here, layouts::proofs::PlaceLemmas::ends_read))]
#[unsafe(no_mangle)]
pub extern "C" fn wispuddera_read_dtls_client_hello(bytes: &[u8], out: &mut DtlsClientHello) -> u32
    ensures { IsAnswered (ShowsDtlsClientHello bytes.now out.new) (reading client_hello bytes.now)
        result out.new.missing }
{
    match dtls_client_hello_with_places(bytes) {
        Ok((rest, (hello, places))) => {
            *out = DtlsClientHello {
                missing: 0,
                random: in_c(places.random),
                session_id: held_in_c(places.session_id),
                cookie: in_c(places.cookie),
                cipher_suites: in_c(places.ciphers),
                compression_methods: in_c(places.comp),
                extensions: held_in_c(places.ext),
                next: offset_of(bytes, rest),
                version: hello.version.0,
                has_extensions: hello.ext.is_some(),
            };
            READ
        }
        Err(e) => {
            let refusal = Refusal::of(e);
            out.missing = refusal.missing;
            refusal.status
        }
    }
}
