//! Pcapng blocks (draft-ietf-opsawg-pcapng).
#![tactic(auto, using(layouts::proofs::OneAnswerLemmas::read_allowed), unfolding(crate::specs::Pcapng::order_of, crate::specs::Pcapng::section_order, crate::specs::Pcapng::order_next, crate::specs::Pcapng::block_by))]

ghost use Rattle.layouts.specs.Meaning.{AllowsOne};
ghost use Rattle.layouts.specs.Answers.{Gives};
ghost use Rattle.capture.specs.Pcapng.{order_of, section_order as section_order_layout};
ghost use Rattle.capture.specs.Pcapng.{order_next as order_next_layout};
ghost use Rattle.capture.specs.Pcapng.{block_by as block_by_layout, next_block, view_block};

use crate::order::{Order, number4_by};
use layouts::{ErrorKind, IResult, block, number4, parsed, refused};

/// The longest block, in bytes.
pub const MAX_BLOCK_LEN: u32 = 16_777_216;

/// The type of a Section Header Block (draft-ietf-opsawg-pcapng, section 4.1).
pub const SECTION_HEADER: u32 = 0x0a0d_0d0a;

/// The type of an Interface Description Block (section 4.2).
pub const INTERFACE_DESCRIPTION: u32 = 1;

/// The type of a Packet Block, which is obsolete (appendix A).
pub const OBSOLETE_PACKET: u32 = 2;

/// The type of a Simple Packet Block, which has no time (section 4.4).
pub const SIMPLE_PACKET: u32 = 3;

/// The type of an Enhanced Packet Block (section 4.3).
pub const ENHANCED_PACKET: u32 = 6;

/// A block (draft-ietf-opsawg-pcapng, section 3.1).
#[derive(Clone, Copy, Debug, PartialEq)]
pub struct Block<'a> {
    /// The byte order of its numbers, and of the following blocks in the section.
    pub order: Order,
    /// The block type: [`SECTION_HEADER`], [`INTERFACE_DESCRIPTION`], [`OBSOLETE_PACKET`],
    /// [`SIMPLE_PACKET`], [`ENHANCED_PACKET`], or another.
    pub kind: u32,
    /// The body.
    pub body: &'a [u8],
}

/// Returns the byte order of a byte-order magic.
fn order_by_magic(i: &[u8], magic: u32) -> IResult<&[u8], Order>
    ensures { Gives (λ v. v) (order_of magic) i.now result }
{
    match magic {
        0x1a2b_3c4d => Ok((i, Order::Big)),
        0x4d3c_2b1a => Ok((i, Order::Little)),
        _ => refused(i, ErrorKind::Tag),
    }
}

/// Returns the byte order of the section whose header is at the front.
fn section_order(i: &[u8]) -> IResult<&[u8], Order>
    ensures { Gives (λ v. v) section_order_layout i.now result }
{
    let (i, _) = parsed!(block(i, 8));
    let (i, magic) = parsed!(number4(i));
    order_by_magic(i, magic)
}

/// Returns the byte order of the block at the front. It takes no bytes.
fn order_next(i: &[u8], order: Order) -> IResult<&[u8], Order>
    ensures { Gives (λ v. v) (order_next_layout order) i.now result }
{
    let (_, kind) = parsed!(number4(i));
    if kind == SECTION_HEADER {
        let (_, order) = parsed!(section_order(i));
        return Ok((i, order));
    }
    Ok((i, order))
}

/// Parses a block in this byte order.
fn block_by(i: &[u8], order: Order) -> IResult<&[u8], Block>
    ensures { Gives view_block (block_by_layout order) i.now result }
{
    let (i, kind) = parsed!(number4_by(i, order));
    let (i, total) = parsed!(number4_by(i, order));
    if total < 12 || total % 4 != 0 {
        return refused(i, ErrorKind::LengthValue);
    }
    if total > MAX_BLOCK_LEN {
        return refused(i, ErrorKind::TooLarge);
    }
    let (i, body) = parsed!(block(i, total as usize - 12));
    let (i, again) = parsed!(number4_by(i, order));
    if again != total {
        return refused(i, ErrorKind::LengthValue);
    }
    Ok((i, Block { order, kind, body }))
}

/// Parses a block of a section in this byte order (draft-ietf-opsawg-pcapng, section 3.1). A
/// Section Header Block has a byte order itself. A file begins with one, so any order will do for
/// the first block.
///
/// - `Incomplete`, with the count of missing bytes of the first field that isn't whole, or else of
///   the body.
/// - `Error` of kind `Tag` if the byte-order magic of a Section Header Block is neither of the two.
/// - `Error` of kind `LengthValue` if the length is below 12, no multiple of 4, or differs from the
///   one behind the body.
/// - `Error` of kind `TooLarge` if the length exceeds [`MAX_BLOCK_LEN`], even before the body
///   arrives.
#[tactic(auto, using(layouts::proofs::OneAnswerLemmas::read_allowed, layouts::proofs::OneAnswerLemmas::one_answer), unfolding(crate::specs::Pcapng::next_block))]
pub fn parse_block(i: &[u8], order: Order) -> IResult<&[u8], Block>
    ensures gives { Gives view_block (next_block order) i.now result }
    ensures only_one { AllowsOne (next_block order) i.now }
{
    let (i, order) = parsed!(order_next(i, order));
    block_by(i, order)
}
