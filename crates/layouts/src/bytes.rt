//! Blocks of bytes, blocks after their length, and tags.
ghost use Rattle.std.specs.Option.{option_map};
ghost use Rattle.layouts.specs.Bytes.{bytes_of};
ghost use Rattle.layouts.specs.Layout.{block as block_of, counted, maybe, rest as rest_of, tag as tag_of};
ghost use Rattle.layouts.specs.Answers.{Gives};

use crate::number::{number1, number2, number3};
use crate::parsed;
use crate::result::{Err, ErrorKind, IResult, Needed, refused};

/// Reads the first `n` bytes (`opaque[n]`; RFC 8446, section 3.4).
///
/// `Incomplete` with the number of missing bytes if there are fewer.
#[tactic(auto, using(crate::proofs::GivesLemmas::reads), unfolding(crate::specs::Reading::split_at))]
pub fn block(i: &[u8], n: usize) -> IResult<&[u8], &[u8]>
    ensures { Gives (λ v. v.now) (block_of n) i.now result }
{
    if i.len() < n {
        return Err(Err::Incomplete(Needed::Size(n - i.len())));
    }
    let (front, rest) = i.split_at(n);
    Ok((rest, front))
}

/// Reads all remaining bytes (an `opaque` that reaches to the end of the structure around it).
///
/// Never refuses.
#[inline(always)]
pub fn rest(i: &[u8]) -> IResult<&[u8], &[u8]>
    ensures { Gives (λ v. v.now) rest_of i.now result }
{
    block(i, i.len())
}

/// Reads a length of 1 byte, then that many bytes (`opaque<0..2^8-1>`; RFC 8446, section 3.4).
///
/// `Incomplete` with the bytes missing from the length, or else from the block.
pub fn counted1(i: &[u8]) -> IResult<&[u8], &[u8]>
    ensures { Gives (λ v. v.now) (counted 1) i.now result }
{
    let (i, n) = parsed!(number1(i));
    block(i, n as usize)
}

/// Reads a length of 2 bytes, big-endian, then that many bytes (`opaque<0..2^16-1>`; RFC 8446,
/// section 3.4).
///
/// `Incomplete` with the bytes missing from the length, or else from the block.
pub fn counted2(i: &[u8]) -> IResult<&[u8], &[u8]>
    ensures { Gives (λ v. v.now) (counted 2) i.now result }
{
    let (i, n) = parsed!(number2(i));
    block(i, n as usize)
}

/// Reads a length of 3 bytes, big-endian, then that many bytes (`opaque<0..2^24-1>`; RFC 8446,
/// section 3.4).
///
/// `Incomplete` with the bytes missing from the length, or else from the block.
pub fn counted3(i: &[u8]) -> IResult<&[u8], &[u8]>
    ensures { Gives (λ v. v.now) (counted 3) i.now result }
{
    let (i, n) = parsed!(number3(i));
    block(i, n as usize)
}

/// Reads a block after 2 bytes of length, as [`counted2`], if it is whole. Else returns `None` and
/// consumes nothing.
///
/// The extensions at the end of a hello are such an optional block (RFC 5246, section 7.4.1.2).
/// Never refuses.
pub fn maybe2(i: &[u8]) -> IResult<&[u8], Option<&[u8]>>
    ensures { Gives (λ v. option_map (λ x. x.now) v) (maybe (counted 2)) i.now result }
{
    match counted2(i) {
        Ok((rest, x)) => Ok((rest, Some(x))),
        Err(_) => Ok((i, None)),
    }
}

/// Reads the 2 bytes of the number `t`, big-endian.
///
/// `Error` of kind `Tag` if a byte that is present differs, else `Incomplete` with the number of
/// missing bytes.
#[tactic(auto, using(crate::proofs::GivesLemmas::reads), unfolding(crate::specs::Reading::tag_at))]
pub fn tag(i: &[u8], t: u16) -> IResult<&[u8], ()>
    ensures { Gives (λ v. v) (tag_of (bytes_of 2 t)) i.now result }
{
    let [first, second] = t.to_be_bytes();
    match i {
        [] => Err(Err::Incomplete(Needed::Size(2))),
        [x] if *x == first => Err(Err::Incomplete(Needed::Size(1))),
        [x, y, rest @ ..] if *x == first && *y == second => Ok((rest, ())),
        _ => refused(i, ErrorKind::Tag),
    }
}
