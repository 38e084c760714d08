//! The VLAN tags of link headers.
#![tactic(auto, using(layouts::proofs::OneAnswerLemmas::read_allowed))]

ghost use Rattle.std.specs.Prelude.{◌≡◌, ◌<◌, ◌++◌, ◌∷◌, [], take};
ghost use Rattle.layouts.specs.Answers.{Gives};
ghost use Rattle.layouts.specs.Items.{items_in};
ghost use Rattle.capture.specs.Vlan.{found_in, hdlc_front as hdlc_front_layout, link_vlans, no_tags as no_tags_layout, sll2_front as sll2_front_layout, tags_behind as tags_behind_layout, tags_front as tags_front_layout, vlan as vlan_layout};

use crate::link::is_vlan;
use crate::links::links;
use layouts::{ErrorKind, IResult, block, number2, parsed, refused};

/// The most VLAN tags that are returned for a packet.
pub const MAX_VLAN_TAGS: usize = 16;

/// The VLAN identifiers of a packet's tags, outermost first, up to the first [`MAX_VLAN_TAGS`].
#[derive(Clone, Copy, Debug, PartialEq, Eq, Hash)]
pub struct VlanTags {
    slots: [u16; MAX_VLAN_TAGS],
    count: usize,
}

/// Parses a VLAN tag: returns its VLAN identifier.
#[tactic(auto, using(layouts::proofs::OneAnswerLemmas::read_allowed), unfolding(crate::specs::Vlan::vlan))]
fn vlan(i: &[u8]) -> IResult<&[u8], u16>
    ensures { Gives (λ v. v) vlan_layout i.now result }
{
    let (i, kind) = parsed!(number2(i));
    if !is_vlan(kind) {
        return refused(i, ErrorKind::Tag);
    }
    let (i, control) = parsed!(number2(i));
    Ok((i, control % 4096))
}

/// Parses a LINKTYPE_LINUX_SLL2 header up to its second tag: returns the VLAN identifier of the
/// first.
#[tactic(auto, using(layouts::proofs::OneAnswerLemmas::read_allowed), unfolding(crate::specs::Vlan::sll2_front))]
fn sll2_front(i: &[u8]) -> IResult<&[u8], Option<u16>>
    ensures { Gives (λ v. v) sll2_front_layout i.now result }
{
    let (i, kind) = parsed!(number2(i));
    if !is_vlan(kind) {
        return refused(i, ErrorKind::Tag);
    }
    let (i, _) = parsed!(block(i, 18));
    let (i, control) = parsed!(number2(i));
    Ok((i, Some(control % 4096)))
}

/// Skips the 2 bytes before the tags in Cisco HDLC.
#[tactic(auto, using(layouts::proofs::OneAnswerLemmas::read_allowed), unfolding(crate::specs::Vlan::hdlc_front))]
fn hdlc_front(i: &[u8]) -> IResult<&[u8], Option<u16>>
    ensures { Gives (λ v. v) hdlc_front_layout i.now result }
{
    let (i, front) = parsed!(number2(i));
    if front != 0x0f00 && front != 0x8f00 {
        return refused(i, ErrorKind::Switch);
    }
    Ok((i, None))
}

/// Skips the `count` bytes before the tags.
#[tactic(auto, using(layouts::proofs::OneAnswerLemmas::read_allowed), unfolding(crate::specs::Vlan::tags_behind))]
fn tags_behind(i: &[u8], count: usize) -> IResult<&[u8], Option<u16>>
    ensures { Gives (λ v. v) (tags_behind_layout count) i.now result }
{
    let (i, _) = parsed!(block(i, count));
    Ok((i, None))
}

/// Refuses a link that has no tags.
#[tactic(auto, using(layouts::proofs::OneAnswerLemmas::read_allowed), unfolding(crate::specs::Vlan::no_tags))]
fn no_tags(i: &[u8]) -> IResult<&[u8], Option<u16>>
    ensures { Gives (λ v. v) no_tags_layout i.now result }
{
    refused(i, ErrorKind::Switch)
}

/// Expands to a match that parses what comes before the VLAN tags, for each link type in the table.
macro_rules! front {
    ($i:ident, $link_type:ident: $($number:literal $name:ident => $read:ident($($of:expr)?),
        $front:ident($($count:expr)?);)*) => {
        match $link_type {
            $($number => $front($i $(, $count)?),)*
            _ => no_tags($i),
        }
    };
}

/// Skips what comes before a link's tags. If a link type's first tag is apart from the others, it
/// is skipped too and its VLAN identifier returned.
#[tactic(auto, using(layouts::proofs::OneAnswerLemmas::read_allowed), unfolding(crate::specs::Vlan::tags_front))]
fn tags_front(i: &[u8], link_type: u16) -> IResult<&[u8], Option<u16>>
    ensures { Gives (λ v. v) (tags_front_layout link_type) i.now result }
{
    links!(front i, link_type)
}

impl VlanTags {
    /// Returns an empty list.
    pub fn new() -> VlanTags
        ensures { found_in result ≡ [] }
    {
        VlanTags {
            slots: [0; MAX_VLAN_TAGS],
            count: 0,
        }
    }

    /// Returns the VLAN identifiers, outermost first.
    pub fn as_slice(&self) -> &[u16]
        ensures { result.now ≡ found_in self.now }
    {
        match self.slots.get(..self.count) {
            Some(tags) => tags,
            None => &self.slots,
        }
    }

    /// Appends a VLAN identifier.
    fn push(&mut self, vlan: u16)
        requires { self.old.count < 16 }
        ensures { found_in self.new ≡ found_in self.old ++ vlan ∷ [] }
    {
        self.slots[self.count] = vlan;
        self.count += 1;
    }

    /// Appends a VLAN identifier if there is room.
    #[tactic(auto, using(crate::proofs::VlanLemmas::fits, crate::proofs::VlanLemmas::is_full))]
    fn add(&mut self, vlan: u16)
        ensures { found_in self.new ≡ take 16 (found_in self.old ++ vlan ∷ []) }
    {
        if self.count < MAX_VLAN_TAGS {
            self.push(vlan);
        }
    }

    /// Appends the VLAN identifiers of the tags at the front of `i`, while there is room.
    #[tactic(auto, using(crate::proofs::VlanLemmas::is_full, crate::proofs::VlanLemmas::first, crate::proofs::VlanLemmas::ended, crate::proofs::VlanLemmas::still))]
    fn add_all(&mut self, i: &[u8])
        ensures { found_in self.new ≡ take 16 (found_in self.old ++ items_in vlan_layout i.now) }
    {
        if self.count >= MAX_VLAN_TAGS {
            return;
        }
        match vlan(i) {
            Ok((rest, id)) if rest.len() < i.len() => {
                self.add(id);
                self.add_all(rest);
            }
            _ => {}
        }
    }

    /// Appends the VLAN identifiers of the tags in the link header of the packet `i`.
    /// [`crate::parse_packet`] lists the link types. A link without EtherTypes has no tags.
    #[tactic(auto, using(crate::proofs::VlanLemmas::none_behind, crate::proofs::VlanLemmas::joined))]
    pub fn add_of_link(&mut self, i: &[u8], link_type: u16)
        ensures { found_in self.new ≡ take 16 (found_in self.old ++ link_vlans link_type i.now) }
    {
        let Ok((i, first)) = tags_front(i, link_type) else {
            return;
        };
        if let Some(id) = first {
            self.add(id);
        }
        self.add_all(i);
    }
}
