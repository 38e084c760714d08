//! Reassembled messages of DTLS.
use tls_base::TlsHandshakeType;
use tls_records::DTLSRawHandshake;

/// Returns a whole message as one fragment; `None` if its length doesn't fit 4 bytes.
pub fn whole_message<'a>(
    msg_type: TlsHandshakeType,
    body: &'a [u8],
) -> Option<DTLSRawHandshake<'a>> {
    let Ok(length) = u32::try_from(body.len()) else {
        return None;
    };
    Some(DTLSRawHandshake {
        msg_type,
        length,
        message_seq: 0,
        fragment_offset: 0,
        fragment_length: length,
        body,
    })
}
