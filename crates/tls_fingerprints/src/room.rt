//! Lists of numbers in a buffer of the caller's.
ghost use Rattle.std.specs.Prelude.{◌≡◌, ◌<◌, length, IfSome, IfNone};
ghost use Rattle.layouts.specs.Items.{items_in};
ghost use Rattle.layouts.specs.Layout.{number};
ghost use Rattle.tls_ext.specs.InPlace.{extension_type};
ghost use Rattle.tls_fingerprints.specs.Ja4.{is_in_first_part as is_part_of_front, other_types};
ghost use Rattle.tls_fingerprints.specs.Numbers.{IsFilled, without_grease};

use crate::numbers::is_grease;
use layouts::Items;
use tls_ext::ExtensionType;

#[tactic(auto, using(crate::proofs::RoomLemmas::room_ends, crate::proofs::RoomLemmas::room_full))]
/// Copies the numbers without GREASE to the beginning of `room`, in order, and returns their count;
/// `None` if there are more than fit.
pub(crate) fn kept_in(numbers: Items<u16>, room: &mut [u16]) -> Option<usize>
    ensures size { length room.new ≡ length room.old }
    ensures some { IfSome result
        (λ n. IsFilled room.new n (without_grease (items_in (number 2) numbers.entry.bytes.now))) }
    ensures none { IfNone result
        (length room.old < length (without_grease (items_in (number 2) numbers.entry.bytes.now))) }
{
    let mut count = 0;
    for n in numbers {
        if is_grease(n) {
            continue;
        }
        if count == room.len() {
            return None;
        }
        room[count] = n;
        count += 1;
    }
    Some(count)
}

/// Whether the first part of JA4 covers this type.
fn is_in_first_part(kind: u16) -> bool
    ensures { result ≡ is_part_of_front kind }
{
    kind == 0 || kind == 16
}

/// Counts of extension types.
#[derive(Clone, Copy)]
pub(crate) struct Types {
    /// The types without GREASE.
    pub(crate) all: usize,
    /// Those that the first part of JA4 doesn't cover.
    pub(crate) others: usize,
}

#[tactic(auto, using(crate::proofs::RoomLemmas::room_ends, crate::proofs::RoomLemmas::counted_full, crate::proofs::RoomLemmas::counted_all))]
/// Copies the types without GREASE that the first part of JA4 doesn't cover to the beginning of
/// `room`, in order, and returns the counts; `None` if there are more than fit, including those
/// that it covers.
pub(crate) fn other_types_in(types: Items<ExtensionType>, room: &mut [u16]) -> Option<Types>
    ensures size { length room.new ≡ length room.old }
    ensures some { IfSome result
        (λ t. (t.all ≡ length (without_grease (items_in extension_type types.entry.bytes.now)))
        × IsFilled room.new t.others
        (other_types (without_grease (items_in extension_type types.entry.bytes.now)))) }
    ensures none { IfNone result
        (length room.old
        < length (without_grease (items_in extension_type types.entry.bytes.now))) }
{
    let mut all = 0;
    let mut others = 0;
    for kind in types {
        if is_grease(kind.0) {
            continue;
        }
        if all == room.len() {
            return None;
        }
        all += 1;
        if is_in_first_part(kind.0) {
            continue;
        }
        room[others] = kind.0;
        others += 1;
    }
    Some(Types { all, others })
}
