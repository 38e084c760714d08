//! Fragments inside tunnels, and the content of reassembled datagrams.
#![tactic(auto, using(layouts::proofs::OneAnswerLemmas::read_allowed), unfolding(crate::specs::Fragments::fragment_of_type, crate::specs::Fragments::packet_fragment, crate::specs::Fragments::inner_fragment))]

ghost use Rattle.std.specs.Prelude.{◌≡◌, ◌≤◌, [], Ok};
ghost use Rattle.std.specs.Option.{option_map};
ghost use Rattle.layouts.specs.Answers.{Gives, IsAnswer, answer_of};
ghost use Rattle.capture.specs.Fragment.{view_fragment};
ghost use Rattle.capture.specs.Ip.{view_datagram};
ghost use Rattle.tunnels.specs.Walk.{view_layer, view_unwrapped};
ghost use Rattle.tunnels.specs.Fragments.{found, fragment_in_datagram, fragment_in_packet, fragment_of_type as fragment_of_type_layout, inner_fragment as inner_fragment_layout, packet_fragment as packet_fragment_layout, unwrapped_in};

use crate::tunnel::{ETHERNET, IPV4, IPV6, MAX_TUNNELS, Tunnels};
use crate::walk::{
    Inside, LINK_ETHERNET, Layer, Unwrapped, datagram_layer, follow, inner_layer, packet_layer,
};
use capture::{IpDatagram, IpFragment, parse_fragment_v4, parse_fragment_v6, parse_link};
use layouts::{ErrorKind, IResult, parsed, refused};

/// Parses a fragment of this EtherType.
fn fragment_of_type(i: &[u8], kind: u16) -> IResult<&[u8], IpFragment>
    ensures { Gives view_fragment (fragment_of_type_layout kind) i.now result }
{
    match kind {
        IPV4 => parse_fragment_v4(i),
        IPV6 => parse_fragment_v6(i),
        _ => refused(i, ErrorKind::Switch),
    }
}

/// Parses the fragment in a packet of this link type.
fn packet_fragment(i: &[u8], link_type: u16) -> IResult<&[u8], IpFragment>
    ensures { Gives view_fragment (packet_fragment_layout link_type) i.now result }
{
    let (i, kind) = parsed!(parse_link(i, link_type));
    fragment_of_type(i, kind)
}

/// Parses the fragment in a tunnel that carries this EtherType.
fn inner_fragment(i: &[u8], kind: u16) -> IResult<&[u8], IpFragment>
    ensures { Gives view_fragment (inner_fragment_layout kind) i.now result }
{
    if kind == ETHERNET {
        return packet_fragment(i, LINK_ETHERNET);
    }
    fragment_of_type(i, kind)
}

/// Returns the fragment at the front, or else the one behind the tunnel header at the front and at
/// most `most - 1` further tunnels.
#[tactic(auto, using(crate::proofs::WalkLemmas::in_front, crate::proofs::WalkLemmas::no_more, crate::proofs::WalkLemmas::found_behind, crate::proofs::WalkLemmas::not_behind, crate::proofs::WalkLemmas::none_behind, crate::proofs::WalkLemmas::unread_behind))]
fn find<'a>(
    fragment: IResult<&'a [u8], IpFragment<'a>>,
    read: IResult<&'a [u8], Layer<'a>>,
    most: u8,
) -> Option<IpFragment<'a>>
    requires is_fragment { IsAnswer fragment }
    requires is_answer { IsAnswer read }
    ensures { found most (answer_of view_fragment fragment.entry) (answer_of view_layer read.entry)
        ≡ option_map view_fragment result }
{
    if let Ok((_, fragment)) = fragment {
        return Some(fragment);
    }
    if most == 0 {
        return None;
    }
    match read {
        Ok((_, Layer::Wraps(header, _))) => find(
            inner_fragment(header.inside, header.kind),
            inner_layer(header.inside, header.kind),
            most - 1,
        ),
        _ => None,
    }
}

/// Returns the fragment in the packet `i` of a capture with this link type, behind its tunnels. It
/// is the datagram for which [`innermost`](crate::innermost) returns a fragment. `None` if that
/// isn't a fragment: no outer datagram is tried.
pub fn innermost_fragment(i: &[u8], link_type: u16) -> Option<IpFragment>
    ensures { option_map view_fragment result ≡ fragment_in_packet link_type i.now }
{
    find(
        packet_fragment(i, link_type),
        packet_layer(i, link_type),
        MAX_TUNNELS as u8,
    )
}

/// Returns the fragment in a reassembled datagram, behind its tunnels. `tunnels` are those in which
/// its fragments came.
pub fn fragment_in<'a>(datagram: IpDatagram<'a>, tunnels: &Tunnels) -> Option<IpFragment<'a>>
    ensures { option_map view_fragment result ≡ fragment_in_datagram tunnels.now
        (view_datagram datagram.entry) }
{
    match datagram_layer(datagram) {
        Layer::Wraps(header, _) => find(
            inner_fragment(header.inside, header.kind),
            inner_layer(header.inside, header.kind),
            7_usize.saturating_sub(tunnels.count) as u8,
        ),
        _ => None,
    }
}

/// Returns the innermost datagram in a reassembled datagram, and all the tunnels around it.
/// `tunnels` are those in which its fragments came.
pub fn inside_of<'a>(datagram: IpDatagram<'a>, tunnels: &Tunnels) -> Unwrapped<'a>
    ensures { tunnels.now.count ≤ 8
        → view_unwrapped result ≡ unwrapped_in tunnels.now (view_datagram datagram.entry) }
{
    let mut tunnels = *tunnels;
    if tunnels.count > MAX_TUNNELS {
        let inside = Inside::Deeper;
        return Unwrapped { tunnels, inside };
    }
    let most = MAX_TUNNELS - tunnels.count;
    let none: &[u8] = &[];
    let inside = follow(
        Ok((none, datagram_layer(datagram))),
        &mut tunnels,
        most as u8,
    );
    Unwrapped { tunnels, inside }
}
