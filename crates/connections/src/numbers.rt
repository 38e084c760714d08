//! Sequence numbers, modulo 2^32 (RFC 9293, section 3.4).
ghost use Rattle.std.specs.Prelude.{◌≡◌};
ghost use Rattle.connections.specs.Numbers.{advance as advance_of, is_behind as comes_behind};

/// Half of all numbers. A number less than this ahead of another comes after it.
pub(crate) const HALF: u32 = 0x8000_0000;

/// Returns whether a number comes after another, among the numbers around it.
pub(crate) fn is_behind(number: u32, other: u32) -> bool
    ensures { result ≡ comes_behind number other }
{
    let ahead = number.wrapping_sub(other);
    ahead > 0 && ahead < HALF
}

/// Returns how far a number comes after another; 0 if it doesn't.
pub(crate) fn advance(number: u32, other: u32) -> u32
    ensures { result ≡ advance_of number other }
{
    if is_behind(number, other) {
        number.wrapping_sub(other)
    } else {
        0
    }
}
