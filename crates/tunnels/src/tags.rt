//! The VLAN tags of a packet and of the frames in its tunnels.
#![tactic(auto, using(layouts::proofs::OneAnswerLemmas::read_allowed))]

ghost use Rattle.std.specs.Prelude.{◌≡◌, ◌≤◌, ◌++◌, length, take};
ghost use Rattle.layouts.specs.Answers.{IsAnswer, answer_of};
ghost use Rattle.capture.specs.Vlan.{found_in};
ghost use Rattle.tunnels.specs.Tags.{frame_vlans, inner_vlans, vlans_of};
ghost use Rattle.tunnels.specs.Tunnel.{view_header};
ghost use Rattle.tunnels.specs.Walk.{view_layer};

use crate::tunnel::{ETHERNET, Header, MAX_TUNNELS};
use crate::walk::{LINK_ETHERNET, Layer, inner_layer, packet_layer};
use capture::VlanTags;
use layouts::IResult;

/// Appends the VLAN identifiers of a tunnel's frame.
#[tactic(auto, using(crate::proofs::TagLemmas::none))]
fn add_of_frame(header: &Header<'_>, tags: &mut VlanTags)
    requires { length (found_in tags.old) ≤ 16 }
    ensures { found_in tags.new ≡ take 16
        (found_in tags.old ++ frame_vlans (view_header header.now)) }
{
    if header.kind == ETHERNET {
        tags.add_of_link(header.inside, LINK_ETHERNET);
    }
}

/// Appends the VLAN identifiers of the frames behind the header at the front, through at most
/// `most` tunnels.
#[tactic(auto, using(crate::proofs::TagLemmas::refused, crate::proofs::TagLemmas::unknown, crate::proofs::TagLemmas::holds, crate::proofs::TagLemmas::deeper, crate::proofs::TagLemmas::wrapped, crate::proofs::TagLemmas::bounded))]
fn add_inner(read: IResult<&[u8], Layer>, tags: &mut VlanTags, most: u8)
    requires is_answer { IsAnswer read }
    requires fits { length (found_in tags.old) ≤ 16 }
    ensures { found_in tags.new ≡ take 16
        (found_in tags.old ++ inner_vlans most (answer_of view_layer read.entry)) }
{
    match read {
        Ok((_, Layer::Wraps(header, _))) if most > 0 => {
            add_of_frame(&header, tags);
            add_inner(inner_layer(header.inside, header.kind), tags, most - 1);
        }
        _ => {}
    }
}

/// Returns the VLAN identifiers of the packet `i` of a capture with this link type, outermost
/// first: those of its link's tags, and of the frames in its tunnels, as [`crate::innermost`]
/// follows them. At most the first [`capture::MAX_VLAN_TAGS`] are returned.
#[tactic(auto, using(crate::proofs::TagLemmas::both, crate::proofs::TagLemmas::bounded))]
pub fn vlan_tags(i: &[u8], link_type: u16) -> VlanTags
    ensures { found_in result ≡ vlans_of link_type i.now }
{
    let mut tags = VlanTags::new();
    tags.add_of_link(i, link_type);
    add_inner(packet_layer(i, link_type), &mut tags, MAX_TUNNELS as u8);
    tags
}
