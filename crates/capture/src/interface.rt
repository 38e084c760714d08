//! Interfaces of a pcapng section (draft-ietf-opsawg-pcapng, section 4.2).
#![tactic(auto, using(layouts::proofs::OneAnswerLemmas::read_allowed), unfolding(crate::specs::Pcapng::option_but, crate::specs::Pcapng::option_front, crate::specs::Pcapng::resolution_option, crate::specs::Pcapng::offset_option, crate::specs::Pcapng::units_of))]

ghost use Rattle.std.specs.Prelude.{◌≡◌, ◌<◌, ◌^◌, pos};
ghost use Rattle.layouts.specs.Layout.{either, done};
ghost use Rattle.layouts.specs.Items.{left_in};
ghost use Rattle.layouts.specs.Answers.{Gives};
ghost use Rattle.capture.specs.declared.order.Order.TheVariants.{Big, Little};
ghost use Rattle.capture.specs.Pcapng.{option_but as option_but_layout, option_front as option_front_layout};
ghost use Rattle.capture.specs.Pcapng.{resolution_option as resolution_option_layout, offset_option as offset_option_layout};
ghost use Rattle.capture.specs.Pcapng.{units_of, interface, view_interface, moved_by as moved_by_seconds, nanoseconds_of};

use crate::order::{Order, number2_by, number4_by, number8_by};
use layouts::{ErrorKind, IResult, InPlace, Items, block, number1, parsed, refused};

/// An interface of a pcapng section.
#[derive(Clone, Copy, Debug, PartialEq, Eq)]
pub struct Interface {
    /// The link type of its packets: a LINKTYPE value of tcpdump.org.
    pub link_type: u16,
    /// The length at which packets are truncated, in bytes; 0 for no limit.
    pub snap_length: u32,
    /// Units of time per second.
    pub units: u64,
    /// Seconds added to each time.
    pub offset: i64,
}

/// Returns `nanoseconds` plus `offset` seconds, or `None` if that is below 0.
fn moved_by(offset: i64, nanoseconds: u128) -> Option<u128>
    requires { nanoseconds < 2 ^ 94 }
    ensures { result ≡ moved_by_seconds offset nanoseconds }
{
    let distance = offset.unsigned_abs() as u128 * 1_000_000_000;
    if offset >= 0 {
        return Some(nanoseconds + distance);
    }
    nanoseconds.checked_sub(distance)
}

impl Interface {
    /// Returns a time in the interface's units as nanoseconds since 1970-01-01 00:00 UTC, rounded
    /// down.
    ///
    /// `None` if it is before 1970, or needs 2^64 nanoseconds or more (in the year 2554), or if a
    /// second has no units.
    pub fn nanoseconds(self, units: u64) -> Option<u64>
        ensures { result ≡ nanoseconds_of (view_interface self) units }
    {
        if self.units == 0 {
            return None;
        }
        let time = moved_by(
            self.offset,
            units as u128 * 1_000_000_000 / self.units as u128,
        )?;
        if time >= 18_446_744_073_709_551_616 {
            return None;
        }
        Some(time as u64)
    }
}

/// Skips an option. `Error` of kind `Tag` if it ends the options, or has this code and this length.
fn option_but(i: &[u8], order: Order, code: u16, size: u16) -> IResult<&[u8], ()>
    ensures { Gives (λ v. v) (option_but_layout order code size) i.now result }
{
    let (i, other) = parsed!(number2_by(i, order));
    let (i, len) = parsed!(number2_by(i, order));
    if other == 0 || (other == code && len == size) {
        return refused(i, ErrorKind::Tag);
    }
    let (i, _) = parsed!(block(i, (len as usize + 3) / 4 * 4));
    Ok((i, ()))
}

/// Parses the code and length of an option. `Error` of kind `Tag` if they aren't these.
fn option_front(i: &[u8], order: Order, code: u16, size: u16) -> IResult<&[u8], ()>
    ensures { Gives (λ v. v) (option_front_layout order code size) i.now result }
{
    let (i, other) = parsed!(number2_by(i, order));
    let (i, len) = parsed!(number2_by(i, order));
    if other != code || len != size {
        return refused(i, ErrorKind::Tag);
    }
    Ok((i, ()))
}

/// A big-endian option of another code or length.
struct BigBut<const CODE: u16, const SIZE: u16>;

/// A little-endian option of another code or length.
struct LittleBut<const CODE: u16, const SIZE: u16>;

impl<'a, const CODE: u16, const SIZE: u16> InPlace<'a> for BigBut<CODE, SIZE> {
    type Read = ();

    ghost Value = { Unit };

    ghost view = { λ v. v };

    ghost layout = { option_but_layout Big CODE SIZE };

    fn read(i: &'a [u8]) -> IResult<&'a [u8], ()> {
        option_but(i, Order::Big, CODE, SIZE)
    }
}

impl<'a, const CODE: u16, const SIZE: u16> InPlace<'a> for LittleBut<CODE, SIZE> {
    type Read = ();

    ghost Value = { Unit };

    ghost view = { λ v. v };

    ghost layout = { option_but_layout Little CODE SIZE };

    fn read(i: &'a [u8]) -> IResult<&'a [u8], ()> {
        option_but(i, Order::Little, CODE, SIZE)
    }
}

/// Returns the bytes from the first option of this code and length on, or from where the options
/// end or are truncated.
fn behind_options<const CODE: u16, const SIZE: u16>(i: &[u8], order: Order) -> &[u8]
    ensures { result.now ≡ left_in (option_but_layout order CODE SIZE) i.now }
{
    match order {
        Order::Big => Items::<BigBut<CODE, SIZE>>::new(i).rest(),
        Order::Little => Items::<LittleBut<CODE, SIZE>>::new(i).rest(),
    }
}

/// Parses the first if_tsresol option of 1 byte.
fn resolution_option(i: &[u8], order: Order) -> IResult<&[u8], u8>
    ensures { Gives (λ v. v) (resolution_option_layout order) i.now result }
{
    let (i, ()) = parsed!(option_front(behind_options::<9, 1>(i, order), order, 9, 1));
    number1(i)
}

/// Parses the first if_tsresol option of 1 byte. The default is 6, for microseconds.
fn resolution(i: &[u8], order: Order) -> IResult<&[u8], u8>
    ensures { Gives (λ v. v) (either (resolution_option_layout order) (done 6)) i.now result }
{
    match resolution_option(i, order) {
        Ok((rest, resolution)) => Ok((rest, resolution)),
        Err(_) => Ok((i, 6)),
    }
}

/// Parses the first if_tsoffset option of 8 bytes.
fn offset_option(i: &[u8], order: Order) -> IResult<&[u8], i64>
    ensures { Gives (λ v. v) (offset_option_layout order) i.now result }
{
    let (i, ()) = parsed!(option_front(behind_options::<14, 8>(i, order), order, 14, 8));
    let (i, offset) = parsed!(number8_by(i, order));
    Ok((i, offset.cast_signed()))
}

/// Parses the first if_tsoffset option of 8 bytes. The default is 0.
fn offset(i: &[u8], order: Order) -> IResult<&[u8], i64>
    ensures { Gives (λ v. v) (either (offset_option_layout order) (done (pos 0))) i.now result }
{
    match offset_option(i, order) {
        Ok((rest, offset)) => Ok((rest, offset)),
        Err(_) => Ok((i, 0)),
    }
}

/// Returns the units of time per second, by the value of if_tsresol.
fn units(i: &[u8], resolution: u8) -> IResult<&[u8], u64>
    ensures { Gives (λ v. v) (units_of resolution) i.now result }
{
    if resolution <= 18 {
        return Ok((i, 10u64.pow(resolution as u32)));
    }
    if resolution >= 128 && resolution <= 191 {
        return Ok((i, 2u64.pow(resolution as u32 - 128)));
    }
    refused(i, ErrorKind::Verify)
}

/// Parses the body of an Interface Description Block (type 1; draft-ietf-opsawg-pcapng, section
/// 4.2).
///
/// Of its options only if_tsresol and if_tsoffset are read: the first of each with the correct
/// length. Without them a second has 10^6 units, and nothing is added to a time. The rest is all
/// the options.
///
/// - `Incomplete`, with the count of missing bytes of the link type, the 2 reserved bytes or the
///   snap length.
/// - `Error` of kind `Verify` if if_tsresol gives a second more than 10^18 units (a power of 10) or
///   more than 2^63 (a power of 2).
#[tactic(auto, using(layouts::proofs::OneAnswerLemmas::read_allowed), unfolding(crate::specs::Pcapng::interface))]
pub fn parse_interface(i: &[u8], order: Order) -> IResult<&[u8], Interface>
    ensures { Gives view_interface (interface order) i.now result }
{
    let (i, link_type) = parsed!(number2_by(i, order));
    let (i, _) = parsed!(block(i, 2));
    let (i, snap_length) = parsed!(number4_by(i, order));
    let (_, resolution) = parsed!(resolution(i, order));
    let (_, offset) = parsed!(offset(i, order));
    let (i, units) = parsed!(units(i, resolution));
    let interface = Interface {
        link_type,
        snap_length,
        units,
        offset,
    };
    Ok((i, interface))
}
