//! Estimates of how many items a slice holds, so that a list allocates its capacity at once.
//!
//! An estimate is at most the number of bytes, whatever lengths a sender wrote, and no answer
//! depends on it. Before the first item is read, a list allocates for [`MOST_AT_FIRST`] items at
//! most, so bytes whose first item is refused cost no more than that.
ghost use Rattle.std.specs.Prelude.{◌≤◌, length};

/// The most items that a list allocates for before it reads the first.
const MOST_AT_FIRST: usize = 32;

/// An item type that estimates how many items a slice holds. If items have length fields, the
/// estimate follows these.
pub trait Room {
    /// Returns an estimate of how many items `i` holds, at most its number of bytes.
    fn room(i: &[u8]) -> usize
        ensures { result ≤ length i.now }
    {
        at_most(i, 4)
    }
}

/// Returns how many blocks follow one another, each a length of 1 byte and that many bytes.
#[inline(always)]
pub fn hops1(i: &[u8]) -> usize
    ensures { result ≤ length i.now }
{
    let mut rest = i;
    for n in 0..i.len() {
        match rest {
            [a, tail @ ..] if tail.len() >= *a as usize => rest = tail.split_at(*a as usize).1,
            _ => return n,
        }
    }
    i.len()
}

/// Returns how many blocks follow one another, each `front` bytes, a length of 2 bytes
/// (big-endian), and that many bytes.
#[inline(always)]
pub fn hops2(i: &[u8], front: usize) -> usize
    ensures { result ≤ length i.now }
{
    let mut rest = i;
    for n in 0..i.len() {
        if rest.len() < front {
            return n;
        }
        match rest.split_at(front).1 {
            [a, b, tail @ ..] => {
                let k = u16::from_be_bytes([*a, *b]) as usize;
                if tail.len() < k {
                    return n;
                }
                rest = tail.split_at(k).1;
            }
            _ => return n,
        }
    }
    i.len()
}

/// Returns the number of bytes, at most `most`.
#[inline(always)]
pub fn at_most(i: &[u8], most: usize) -> usize
    ensures { result ≤ length i.now }
{
    if i.len() < most { i.len() } else { most }
}

/// Returns for how many items a list of `T` allocates before it reads the first item of `i`.
#[inline(always)]
pub(crate) fn room_at_first<T: Room>(i: &[u8]) -> usize
    ensures { result ≤ 32 }
{
    let room = T::room(i);
    if room < MOST_AT_FIRST {
        room
    } else {
        MOST_AT_FIRST
    }
}
