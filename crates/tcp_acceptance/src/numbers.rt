//! Sequence numbers, modulo 2^32 (RFC 9293, section 3.4).
ghost use Rattle.std.specs.Prelude.{◌≡◌};
ghost use Rattle.tcp_acceptance.specs.Numbers.{is_behind as comes_behind, later as later_of, number_after as number_behind};

/// Half of all numbers. A number less than this ahead of another comes after it.
const HALF: u32 = 0x8000_0000;

/// Returns whether a number comes after another, among the numbers around it.
pub(crate) fn is_behind(number: u32, other: u32) -> bool
    ensures { result ≡ comes_behind number other }
{
    let ahead = number.wrapping_sub(other);
    ahead > 0 && ahead < HALF
}

/// Returns the number a count of bytes after another.
pub(crate) fn number_after(number: u32, count: usize) -> u32
    ensures { result ≡ number_behind number count }
{
    number.wrapping_add((count % 0x1_0000_0000) as u32)
}

/// Returns the later of a number and a known one.
pub(crate) fn later(known: Option<u32>, number: u32) -> u32
    ensures { result ≡ later_of known number }
{
    match known {
        Some(other) if is_behind(other, number) => other,
        _ => number,
    }
}
