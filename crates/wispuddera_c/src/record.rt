//! Records of TLS.
ghost use Rattle.tls_records.specs.Record.{raw_record};
ghost use Rattle.wispuddera_c.specs.Record.{ShowsRecord};
ghost use Rattle.wispuddera_c.specs.Status.{IsAnsweredAt};

use crate::place::{Place, bytes_from, in_c, offset_of};
use crate::status::{OUTSIDE, READ, Refusal};
use tls_places::frame_at;

/// A record (RFC 5246, section 6.2.1): its header, the place of its fragment, and the offset of
/// what follows it.
#[repr(C)]
#[derive(Clone, Copy)]
pub struct Record {
    /// How many bytes are missing, if the status is `INCOMPLETE`; else 0.
    pub missing: usize,
    /// The place of the fragment.
    pub fragment: Place,
    /// The offset of what follows.
    pub next: usize,
    /// The version field.
    pub version: u16,
    /// The length of the fragment, in bytes.
    pub length: u16,
    /// The content type.
    pub content_type: u8,
}

/// Parses the record at this offset.
#[tactic(auto, using(layouts::proofs::OneAnswerLemmas::read_allowed, crate::proofs::StatusLemmas::shown_by, crate::proofs::StatusLemmas::refused, crate::proofs::StatusLemmas::behind))]
#[unsafe(no_mangle)]
pub extern "C" fn wispuddera_read_record(bytes: &[u8], offset: usize, out: &mut Record) -> u32
    ensures { IsAnsweredAt raw_record (ShowsRecord bytes.now out.new) bytes.now offset result
        out.new.missing }
{
    let Some(i) = bytes_from(bytes, offset) else {
        out.missing = 0;
        return OUTSIDE;
    };
    match frame_at::<tls_places::Record>(bytes, i) {
        Ok((rest, (record, fragment))) => {
            *out = Record {
                missing: 0,
                fragment: in_c(fragment),
                next: offset_of(bytes, rest),
                version: record.hdr.version.0,
                length: record.hdr.len,
                content_type: record.hdr.record_type.0,
            };
            READ
        }
        Err(e) => {
            let refusal = Refusal::of(e);
            out.missing = refusal.missing;
            refusal.status
        }
    }
}
