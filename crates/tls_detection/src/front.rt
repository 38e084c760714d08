//! Whether bytes begin like TLS or DTLS.
ghost use Rattle.std.specs.Prelude.{◌≡◌};
ghost use Rattle.layouts.specs.Reading.{reading};
ghost use Rattle.raw_records.specs.RawDtlsRecord as datagram;
ghost use Rattle.raw_records.specs.RawRecord as stream;
ghost use Rattle.tls_detection.specs.Front.{begins_tls as begins, epoch_in, has_capwap_header as has_capwap_header_in, held_datagram as held_datagram_of, is_front, is_datagram_version as is_version_of_datagrams, is_front_of_datagram, first_message as first, looks_like_tls as looks};

use raw_records::{
    DTLSRecordHeader, MAX_RECORD_LEN, TlsRecordHeader, parse_dtls_record_header,
    parse_tls_record_header,
};

/// How many bytes decide whether a side speaks TLS: the header of a record (RFC 8446, section 5.1).
pub const HEADER_LEN: usize = 5;

/// The content type of handshake records.
const HANDSHAKE: u8 = 22;

/// Whether this is the header of a TLS record: a known content type, the major version 3, and a
/// length within the limit. The minor version is ignored (RFC 8446, section 5.1).
fn is_header(header: &TlsRecordHeader) -> bool
    ensures { result ≡ is_front (stream.view_header header.now) }
{
    header.record_type.0 >= 20
        && header.record_type.0 <= 24
        && header.version.0 >= 0x0300
        && header.version.0 <= 0x03ff
        && header.len <= MAX_RECORD_LEN
}

/// Whether a stream begins with the header of a TLS record.
pub fn begins_tls(bytes: &[u8]) -> bool
    ensures { result ≡ begins bytes.now }
{
    match parse_tls_record_header(bytes) {
        Ok((_, header)) => is_header(&header),
        Err(_) => false,
    }
}

/// Whether a stream begins as TLS: with the header of a record (RFC 8446, section 5.1) whose
/// content type is 20 to 24, whose major version is 3 with any minor one, and whose length is at
/// most 16,640 bytes. `None` for fewer than 5 bytes, which don't decide it.
///
/// `tlslog` uses this rule to recognize TLS.
pub fn looks_like_tls(bytes: &[u8]) -> Option<bool>
    ensures { result ≡ looks bytes.now }
{
    if bytes.len() < HEADER_LEN {
        return None;
    }
    Some(begins_tls(bytes))
}

/// The type of the handshake message that a stream begins with (RFC 8446, sections 4 and 5.1): 1
/// for a ClientHello, 2 for a ServerHello. `None` if the stream begins otherwise, or has fewer than
/// 6 bytes.
pub fn first_message(bytes: &[u8]) -> Option<u8>
    ensures { result ≡ first bytes.now }
{
    match parse_tls_record_header(bytes) {
        Ok((rest, header)) if is_header(&header) && header.record_type.0 == HANDSHAKE => {
            rest.first().copied()
        }
        _ => None,
    }
}

/// Whether a record of this version is one of DTLS. The major version is 254. The minor one is
/// ignored: at the beginning of an association it gives the layout of records, and not the version
/// that is spoken (RFC 6347, section 4.2.1). 0x0100 counts too; OpenSSL used it before RFC 4347.
#[tactic(auto, unfolding(crate::specs::Front::is_datagram_version))]
pub fn is_datagram_version(version: u16) -> bool
    ensures { result ≡ is_version_of_datagrams version }
{
    version >= 0xfe00 && version <= 0xfeff || version == 0x0100
}

/// Whether this is the header of a DTLS record: a known content type, a version of DTLS, and a
/// length that fits in the datagram.
fn is_header_of_datagram(header: &DTLSRecordHeader, rest: &[u8]) -> bool
    ensures { result ≡ is_front_of_datagram (datagram.view_header header.now) rest.now }
{
    header.content_type.0 >= 20
        && header.content_type.0 <= 24
        && is_datagram_version(header.version.0)
        && header.length as usize <= rest.len()
}

/// The epoch of the DTLS record that a datagram begins with; `None` if it begins otherwise.
pub fn front_epoch(bytes: &[u8]) -> Option<u16>
    ensures { result ≡ epoch_in (reading datagram.record_header bytes.now) }
{
    match parse_dtls_record_header(bytes) {
        Ok((rest, header)) => {
            if is_header_of_datagram(&header, rest) {
                return Some(header.epoch);
            }
            None
        }
        Err(_) => None,
    }
}

/// Whether bytes begin with the CAPWAP header of an encrypted payload (RFC 5415, section 4.2):
/// version 0, type 1, and 3 bytes of 0.
fn has_capwap_header(bytes: &[u8]) -> bool
    ensures { result ≡ has_capwap_header_in bytes.now }
{
    bytes.len() >= 4 && bytes[0] == 1 && bytes[1] == 0 && bytes[2] == 0 && bytes[3] == 0
}

/// The DTLS datagram inside a UDP datagram: the bytes after a CAPWAP header of 4 bytes (RFC 5415,
/// section 4.2) if DTLS begins there, else all bytes.
pub fn held_datagram(bytes: &[u8]) -> &[u8]
    ensures { result.now ≡ held_datagram_of bytes.now }
{
    if has_capwap_header(bytes) && front_epoch(&bytes[4..]).is_some() {
        &bytes[4..]
    } else {
        bytes
    }
}
