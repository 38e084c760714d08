//! Parts with a kind and a length: handshake messages, extensions, key shares; and names after
//! their length.
ghost use Rattle.tls_ext.specs.InPlace.{key_share_entry, raw_extension};
ghost use Rattle.layouts.specs.Layout.{counted};
ghost use Rattle.tls_hs.specs.InPlace.{raw_handshake};
ghost use Rattle.wispuddera_c.specs.Part.{ShowsBytes, ShowsPart};
ghost use Rattle.wispuddera_c.specs.Status.{IsAnsweredAt};

use crate::place::{Place, bytes_from, in_c, offset_of};
use crate::status::{OUTSIDE, READ, Refusal};
use layouts::Counted1;
use tls_ext::{KeyShareEntry, RawExtension};
use tls_hs::{RawCertificate, RawHandshake};
use tls_places::frame_at;

/// A part: its kind, the place of its content, and the offset of what follows it.
#[repr(C)]
#[derive(Clone, Copy)]
pub struct Part {
    /// How many bytes are missing, if the status is `INCOMPLETE`; else 0.
    pub missing: usize,
    /// The place of its content, without kind and length.
    pub content: Place,
    /// The offset of what follows.
    pub next: usize,
    /// Its number; 0 if such parts have none.
    pub kind: u16,
}

/// Parses the handshake message at this offset of a record's fragment (RFC 5246, section 7.4).
#[tactic(auto, using(layouts::proofs::OneAnswerLemmas::read_allowed, crate::proofs::StatusLemmas::shown_by, crate::proofs::StatusLemmas::refused, crate::proofs::StatusLemmas::behind))]
#[unsafe(no_mangle)]
pub extern "C" fn wispuddera_read_message(bytes: &[u8], offset: usize, out: &mut Part) -> u32
    ensures { IsAnsweredAt raw_handshake (ShowsPart bytes.now out.new) bytes.now offset result
        out.new.missing }
{
    let Some(i) = bytes_from(bytes, offset) else {
        out.missing = 0;
        return OUTSIDE;
    };
    match frame_at::<RawHandshake>(bytes, i) {
        Ok((rest, (message, body))) => {
            *out = Part {
                missing: 0,
                content: in_c(body),
                next: offset_of(bytes, rest),
                kind: u16::from(message.msg_type.0),
            };
            READ
        }
        Err(e) => {
            let refusal = Refusal::of(e);
            out.missing = refusal.missing;
            refusal.status
        }
    }
}

/// Parses the extension at this offset of a block of extensions (RFC 8446, section 4.2).
#[tactic(auto, using(layouts::proofs::OneAnswerLemmas::read_allowed, crate::proofs::StatusLemmas::shown_by, crate::proofs::StatusLemmas::refused, crate::proofs::StatusLemmas::behind))]
#[unsafe(no_mangle)]
pub extern "C" fn wispuddera_read_extension(bytes: &[u8], offset: usize, out: &mut Part) -> u32
    ensures { IsAnsweredAt raw_extension (ShowsPart bytes.now out.new) bytes.now offset result
        out.new.missing }
{
    let Some(i) = bytes_from(bytes, offset) else {
        out.missing = 0;
        return OUTSIDE;
    };
    match frame_at::<RawExtension>(bytes, i) {
        Ok((rest, (extension, content))) => {
            *out = Part {
                missing: 0,
                content: in_c(content),
                next: offset_of(bytes, rest),
                kind: extension.extension_type.0,
            };
            READ
        }
        Err(e) => {
            let refusal = Refusal::of(e);
            out.missing = refusal.missing;
            refusal.status
        }
    }
}

/// Parses the key share at this offset of a list of key shares (RFC 8446, section 4.2.8). Its kind
/// is its group.
#[tactic(auto, using(layouts::proofs::OneAnswerLemmas::read_allowed, crate::proofs::StatusLemmas::shown_by, crate::proofs::StatusLemmas::refused, crate::proofs::StatusLemmas::behind))]
#[unsafe(no_mangle)]
pub extern "C" fn wispuddera_read_key_share(bytes: &[u8], offset: usize, out: &mut Part) -> u32
    ensures { IsAnsweredAt key_share_entry (ShowsPart bytes.now out.new) bytes.now offset result
        out.new.missing }
{
    let Some(i) = bytes_from(bytes, offset) else {
        out.missing = 0;
        return OUTSIDE;
    };
    match frame_at::<KeyShareEntry>(bytes, i) {
        Ok((rest, (share, value))) => {
            *out = Part {
                missing: 0,
                content: in_c(value),
                next: offset_of(bytes, rest),
                kind: share.group.0,
            };
            READ
        }
        Err(e) => {
            let refusal = Refusal::of(e);
            out.missing = refusal.missing;
            refusal.status
        }
    }
}

/// Parses the protocol name at this offset of a list of names (RFC 7301, section 3.1).
#[tactic(auto, using(layouts::proofs::OneAnswerLemmas::read_allowed, crate::proofs::StatusLemmas::shown_by, crate::proofs::StatusLemmas::refused, crate::proofs::StatusLemmas::behind))]
#[unsafe(no_mangle)]
pub extern "C" fn wispuddera_read_protocol(bytes: &[u8], offset: usize, out: &mut Part) -> u32
    ensures { IsAnsweredAt (counted 1) (ShowsBytes bytes.now out.new) bytes.now offset result
        out.new.missing }
{
    let Some(i) = bytes_from(bytes, offset) else {
        out.missing = 0;
        return OUTSIDE;
    };
    match frame_at::<Counted1>(bytes, i) {
        Ok((rest, (_, name))) => {
            *out = Part {
                missing: 0,
                content: in_c(name),
                next: offset_of(bytes, rest),
                kind: 0,
            };
            READ
        }
        Err(e) => {
            let refusal = Refusal::of(e);
            out.missing = refusal.missing;
            refusal.status
        }
    }
}

/// Parses the certificate at this offset of a list of certificates (RFC 5246, section 7.4.2).
#[tactic(auto, using(layouts::proofs::OneAnswerLemmas::read_allowed, crate::proofs::StatusLemmas::shown_by, crate::proofs::StatusLemmas::refused, crate::proofs::StatusLemmas::behind))]
#[unsafe(no_mangle)]
pub extern "C" fn wispuddera_read_certificate(bytes: &[u8], offset: usize, out: &mut Part) -> u32
    ensures { IsAnsweredAt (counted 3) (ShowsBytes bytes.now out.new) bytes.now offset result
        out.new.missing }
{
    let Some(i) = bytes_from(bytes, offset) else {
        out.missing = 0;
        return OUTSIDE;
    };
    match frame_at::<RawCertificate>(bytes, i) {
        Ok((rest, (_, certificate))) => {
            *out = Part {
                missing: 0,
                content: in_c(certificate),
                next: offset_of(bytes, rest),
                kind: 0,
            };
            READ
        }
        Err(e) => {
            let refusal = Refusal::of(e);
            out.missing = refusal.missing;
            refusal.status
        }
    }
}
