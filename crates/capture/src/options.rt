//! TCP options (RFC 9293, section 3.1; RFC 7323).
ghost use Rattle.std.specs.Prelude.{◌≡◌};
ghost use Rattle.std.specs.Option.{option_map};
ghost use Rattle.capture.specs.Options.{maximum_segment_size as maximum_segment_size_in, option_in as option_among, option_of as option_in_all, timestamp as timestamp_in, window_scale as window_scale_in};

/// The largest window shift (RFC 7323, section 2.3).
const MAX_SHIFT: u8 = 14;

/// The most options that fit in a header, at a byte each.
const MAX_OPTIONS: u8 = 40;

/// The kind of End of Option List.
const END: u8 = 0;

/// The kind of No-Operation, which pads options.
const PADDING: u8 = 1;

/// The kind of Maximum Segment Size.
const MAXIMUM_SEGMENT_SIZE: u8 = 2;

/// The kind of Window Scale.
const WINDOW_SCALE: u8 = 3;

/// The kind of Timestamps.
const TIMESTAMPS: u8 = 8;

/// Returns the content of the first option of this kind among the first `most`.
fn option_in(options: &[u8], kind: u8, most: u8) -> Option<&[u8]>
    ensures { option_map (λ x. x.now) result ≡ option_among most kind options.now }
{
    if most == 0 {
        return None;
    }
    let [found, len, behind @ ..] = options else {
        return None;
    };
    if *found == END {
        return None;
    }
    if *found == PADDING {
        return option_in(&options[1..], kind, most - 1);
    }
    if *len < 2 || behind.len() < *len as usize - 2 {
        return None;
    }
    let (content, behind) = behind.split_at(*len as usize - 2);
    if *found == kind {
        return Some(content);
    }
    option_in(behind, kind, most - 1)
}

/// Returns the content of the first option of this kind, without its kind and length bytes (RFC
/// 9293, section 3.1). `None` if there is none before the end of the options or before a truncated
/// option.
pub fn option_of(options: &[u8], kind: u8) -> Option<&[u8]>
    ensures { option_map (λ x. x.now) result ≡ option_in_all kind options.now }
{
    option_in(options, kind, MAX_OPTIONS)
}

/// Returns the maximum segment size that the sender accepts, in bytes (RFC 9293, section 3.7.1).
/// `None` without the option, or if its content isn't 2 bytes.
pub fn maximum_segment_size(options: &[u8]) -> Option<u16>
    ensures { result ≡ maximum_segment_size_in options.now }
{
    match option_of(options, MAXIMUM_SEGMENT_SIZE) {
        Some([upper, lower]) => Some(u16::from_be_bytes([*upper, *lower])),
        _ => None,
    }
}

/// Returns the shift of the sender's windows, in bits, at most 14 (RFC 7323, section 2.2). `None`
/// without the option, or if its content isn't 1 byte.
pub fn window_scale(options: &[u8]) -> Option<u8>
    ensures { result ≡ window_scale_in options.now }
{
    match option_of(options, WINDOW_SCALE) {
        Some([shift]) => Some((*shift).min(MAX_SHIFT)),
        _ => None,
    }
}

/// Returns the sender's timestamp, TSval (RFC 7323, section 3.2). `None` without the option, or if
/// its content isn't 8 bytes.
pub fn timestamp(options: &[u8]) -> Option<u32>
    ensures { result ≡ timestamp_in options.now }
{
    match option_of(options, TIMESTAMPS) {
        Some([a, b, c, d, _, _, _, _]) => Some(u32::from_be_bytes([*a, *b, *c, *d])),
        _ => None,
    }
}
