//! Frames: a header, and a body of the length that the header gives.
ghost use Rattle.std.specs.Prelude.{◌≡◌, ◌<◌, ◌↔◌, length, true};
ghost use Rattle.std.specs.Option.{option_map};
ghost use Rattle.std.proofs.Common.{lit<};
ghost use Rattle.tls_stream.specs.Frames.{IsTooLarge, Kind, frame_of, front, up_to};
ghost use Rattle.tls_stream.specs.Records.{messages, records};

/// A kind of frame: a header, and as many bytes as its length field gives.
pub trait Frame {
    /// The layout of the header.
    ghost kind: { Kind };

    /// The length of a header, in bytes.
    fn header_len() -> usize
        ensures { result ≡ kind.header };

    /// The length of the body after this header, in bytes.
    fn body_len(header: &[u8]) -> usize
        requires { length header.now ≡ kind.header }
        ensures { result ≡ kind.body_in header.now };

    /// A header isn't empty, so a stream has no more frames than bytes.
    ghost takes: { 0 < kind.header };
}

/// Records of TLS (RFC 5246, section 6.2).
pub struct RecordFrame;

impl Frame for RecordFrame {
    ghost kind = { records };

    ghost takes = { lit< tt };

    fn header_len() -> usize {
        5
    }

    fn body_len(header: &[u8]) -> usize {
        header[3] as usize * 256 + header[4] as usize
    }
}

/// Handshake messages (RFC 5246, section 7.4).
pub struct MessageFrame;

impl Frame for MessageFrame {
    ghost kind = { messages };

    ghost takes = { lit< tt };

    fn header_len() -> usize {
        4
    }

    fn body_len(header: &[u8]) -> usize {
        (header[1] as usize * 256 + header[2] as usize) * 256 + header[3] as usize
    }
}

/// Whether these bytes start with a whole header whose length is above `limit`.
#[tactic(auto, using(crate::proofs::FrontLemmas::what_is_too_large, crate::proofs::FrontLemmas::not_large))]
pub fn is_too_large<F: Frame>(limit: usize, bytes: &[u8]) -> bool
    ensures { (result ≡ true) ↔ IsTooLarge (up_to F.kind limit) bytes.now }
{
    bytes.len() >= F::header_len() && F::body_len(&bytes[..F::header_len()]) > limit
}

/// The frame that these bytes start with, with its header, if it is whole and its length is at most
/// `limit`.
#[tactic(auto, using(crate::proofs::FrontLemmas::front_rules))]
pub fn frame_in_front<F: Frame>(limit: usize, bytes: &[u8]) -> Option<&[u8]>
    ensures { option_map (λ b. b.now) result ≡ frame_of (front (up_to F.kind limit) bytes.now) }
{
    if bytes.len() < F::header_len() {
        return None;
    }
    let body = F::body_len(&bytes[..F::header_len()]);
    if body > limit || bytes.len() - F::header_len() < body {
        return None;
    }
    Some(&bytes[..F::header_len() + body])
}
