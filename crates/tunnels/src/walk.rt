//! The walk from a packet's link header to its innermost datagram.
#![tactic(auto, using(layouts::proofs::OneAnswerLemmas::read_allowed), unfolding(crate::specs::Walk::layer_of_type, crate::specs::Walk::packet_layer, crate::specs::Walk::inner_layer))]

ghost use Rattle.std.specs.Prelude.{◌≡◌, ◌≤◌, ◌+◌, [], false, IfSome};
ghost use Rattle.layouts.specs.Answers.{Gives, IsAnswer, answer_of};
ghost use Rattle.layouts.specs.Reading.{reading};
ghost use Rattle.capture.specs.Ip.{view_datagram};
ghost use Rattle.tunnels.specs.Tunnel.{listed, view_header};
ghost use Rattle.tunnels.specs.Walk.{Held, Holds, datagram_layer as datagram_layer_of, followed, inner_layer as inner_layer_layout, layer_of_type as layer_of_type_layout, packet_layer as packet_layer_layout, unwrapped, view_inside, view_layer, view_unwrapped, wrapped_or as wrapped_or_by};

use crate::carriers::{TEREDO, by_ports, by_protocol};
use crate::labels::{parse_backbone, parse_mpls};
use crate::tunnel::{Carrier, ETHERNET, Header, IPV4, IPV6, MAX_TUNNELS, Tunnels};
use capture::{Content, IpDatagram, parse_ipv4, parse_ipv6, parse_link};
use layouts::{IResult, parsed};

/// The EtherTypes of MPLS: unicast and multicast.
const MPLS: u16 = 0x8847;

const MPLS_TO_MANY: u16 = 0x8848;

/// The EtherType of an I-TAG.
const BACKBONE: u16 = 0x88e7;

/// The link type of Ethernet.
pub(crate) const LINK_ETHERNET: u16 = 1;

/// The IP protocol number of TCP.
const TCP: u8 = 6;

/// The length of an IPv4 header without options and of a TCP header, in bytes.
const HEADERS_LEN: u16 = 40;

/// One layer of a packet.
#[derive(Drop)]
pub(crate) enum Layer<'a> {
    /// A tunnel header, and what carries it.
    Wraps(Header<'a>, Carrier),
    /// A datagram without a tunnel header in it.
    Holds(IpDatagram<'a>),
    /// Another protocol.
    Unknown,
}

/// What a packet holds behind all headers.
#[derive(Clone, Copy, Debug, PartialEq)]
pub enum Inside<'a> {
    /// The innermost datagram.
    Datagram(IpDatagram<'a>),
    /// Another protocol, not parsed.
    Other,
    /// Truncated, or a header breaks a rule.
    Unread,
    /// More than [`MAX_TUNNELS`] tunnels.
    Deeper,
}

/// A packet's tunnels and its content.
#[derive(Clone, Copy, Debug)]
pub struct Unwrapped<'a> {
    /// The tunnels, outermost first.
    pub tunnels: Tunnels,
    /// The content of the innermost tunnel.
    pub inside: Inside<'a>,
}

/// Returns the tunnel header parsed in a datagram, or the datagram if there is none.
#[inline(always)]
fn wrapped_or<'a>(datagram: IpDatagram<'a>, header: IResult<&'a [u8], Header<'a>>) -> Layer<'a>
    requires { IsAnswer header }
    ensures { view_layer result ≡ wrapped_or_by (view_datagram datagram.entry)
        (answer_of view_header header.entry) }
{
    match header {
        Ok((_, header)) => Layer::Wraps(header, Some((datagram.source, datagram.destination))),
        Err(_) => Layer::Holds(datagram),
    }
}

/// Returns the tunnel header in a datagram, or the datagram if there is none.
#[inline(always)]
pub(crate) fn datagram_layer(datagram: IpDatagram<'_>) -> Layer<'_>
    ensures { view_layer result ≡ datagram_layer_of (view_datagram datagram.entry) }
{
    match &datagram.content {
        Content::Udp(udp) => {
            let header = by_ports(udp.payload, udp.source, udp.destination);
            wrapped_or(datagram, header)
        }
        Content::Other(protocol, payload) => {
            wrapped_or(datagram, by_protocol(payload, *protocol))
        }
        Content::Tcp(_) | Content::Fragment => Layer::Holds(datagram),
    }
}

/// Parses one layer, by its EtherType.
#[inline(always)]
fn layer_of_type(i: &[u8], kind: u16) -> IResult<&[u8], Layer>
    ensures { Gives view_layer (layer_of_type_layout kind) i.now result }
{
    match kind {
        IPV4 => {
            let (i, datagram) = parsed!(parse_ipv4(i));
            Ok((i, datagram_layer(datagram)))
        }
        IPV6 => {
            let (i, datagram) = parsed!(parse_ipv6(i));
            Ok((i, datagram_layer(datagram)))
        }
        MPLS | MPLS_TO_MANY => {
            let (i, header) = parsed!(parse_mpls(i));
            Ok((i, Layer::Wraps(header, None)))
        }
        BACKBONE => {
            let (i, header) = parsed!(parse_backbone(i));
            Ok((i, Layer::Wraps(header, None)))
        }
        _ => Ok((i, Layer::Unknown)),
    }
}

/// Parses the first layer of a packet of this link type.
#[inline(always)]
pub(crate) fn packet_layer(i: &[u8], link_type: u16) -> IResult<&[u8], Layer>
    ensures { Gives view_layer (packet_layer_layout link_type) i.now result }
{
    let (i, kind) = parsed!(parse_link(i, link_type));
    layer_of_type(i, kind)
}

/// Parses the layer in a tunnel that carries this EtherType.
pub(crate) fn inner_layer(i: &[u8], kind: u16) -> IResult<&[u8], Layer>
    ensures { Gives view_layer (inner_layer_layout kind) i.now result }
{
    if kind == ETHERNET {
        return packet_layer(i, LINK_ETHERNET);
    }
    layer_of_type(i, kind)
}

/// Returns what a packet holds behind the layer at the front, through at most `most` further
/// tunnels, which are appended to `tunnels`.
#[tactic(auto, using(crate::proofs::WalkLemmas::refused, crate::proofs::WalkLemmas::unknown, crate::proofs::WalkLemmas::holds, crate::proofs::WalkLemmas::deeper, crate::proofs::WalkLemmas::one_more))]
pub(crate) fn follow<'a>(
    read: IResult<&'a [u8], Layer<'a>>,
    tunnels: &mut Tunnels,
    most: u8,
) -> Inside<'a>
    requires is_answer { IsAnswer read }
    requires fits { tunnels.old.count + most ≤ 8 }
    ensures { followed most (listed tunnels.old) (answer_of view_layer read.entry)
        ≡ record { tunnels = listed tunnels.new; inside = view_inside result } }
{
    match read {
        Err(_) => Inside::Unread,
        Ok((_, Layer::Unknown)) => Inside::Other,
        Ok((_, Layer::Holds(datagram))) => Inside::Datagram(datagram),
        Ok((_, Layer::Wraps(header, carrier))) => {
            if most == 0 {
                return Inside::Deeper;
            }
            tunnels.push(header.tunnel_in(carrier));
            follow(inner_layer(header.inside, header.kind), tunnels, most - 1)
        }
    }
}

/// Returns the innermost datagram of the packet `i` of a capture with this link type, and its
/// tunnels. [`capture::parse_packet`] lists the link types, and the rules for links and datagrams.
///
/// Tunnels:
///
/// - IPv4 and IPv6 in IP (protocols 4 and 41).
/// - GRE (protocol 47), with or without ERSPAN.
/// - MPLS (EtherTypes 0x8847 and 0x8848, protocol 137).
/// - Provider backbones (EtherType 0x88e7).
/// - VXLAN (UDP destination ports 4789 and 8472), GENEVE (6081), GTP-U (2152), Teredo (3544, or
///   from it).
///
/// If the content of a datagram isn't such a header, the datagram is the innermost.
pub fn innermost(i: &[u8], link_type: u16) -> Unwrapped
    ensures { view_unwrapped result ≡ unwrapped link_type i.now }
{
    let mut tunnels = Tunnels::new();
    let inside = innermost_into(i, link_type, &mut tunnels);
    Unwrapped { tunnels, inside }
}

/// Returns whether a datagram may carry a tunnel, by its protocol or ports.
#[tactic(auto, unfolding(crate::specs::Carriers::by_protocol, crate::specs::Carriers::by_ports))]
#[inline(always)]
fn may_carry(datagram: &IpDatagram<'_>) -> bool
    ensures { result ≡ false → datagram_layer_of (view_datagram datagram.now)
        ≡ Holds (view_datagram datagram.now) }
{
    match &datagram.content {
        Content::Udp(udp) => match udp.destination {
            4789 | 8472 | 6081 | 2152 | TEREDO => true,
            _ => udp.source == TEREDO,
        },
        Content::Other(protocol, _) => matches!(*protocol, 4 | 41 | 47 | 137),
        Content::Tcp(_) | Content::Fragment => false,
    }
}

/// Returns what a packet holds whose IPv4 datagram is at the front. `tunnels` is empty. Most
/// datagrams carry no tunnel, and aren't copied into a layer.
#[tactic(auto, using(crate::proofs::WalkLemmas::refused, crate::proofs::WalkLemmas::holds), unfolding(crate::specs::Walk::layer_of_type))]
#[inline(always)]
fn inside_ipv4<'a>(i: &'a [u8], tunnels: &mut Tunnels) -> Inside<'a>
    requires { tunnels.old.count ≡ 0 }
    ensures { followed 8 (listed tunnels.old) (reading (layer_of_type_layout 0x0800) i.now)
        ≡ record { tunnels = listed tunnels.new; inside = view_inside result } }
{
    let Ok((i, datagram)) = parse_ipv4(i) else {
        return Inside::Unread;
    };
    if !may_carry(&datagram) {
        return Inside::Datagram(datagram);
    }
    follow(
        Ok((i, datagram_layer(datagram))),
        tunnels,
        MAX_TUNNELS as u8,
    )
}

/// Returns what a packet holds whose IPv6 datagram is at the front. `tunnels` is empty.
#[tactic(auto, using(crate::proofs::WalkLemmas::refused, crate::proofs::WalkLemmas::holds), unfolding(crate::specs::Walk::layer_of_type))]
fn inside_ipv6<'a>(i: &'a [u8], tunnels: &mut Tunnels) -> Inside<'a>
    requires { tunnels.old.count ≡ 0 }
    ensures { followed 8 (listed tunnels.old) (reading (layer_of_type_layout 0x86dd) i.now)
        ≡ record { tunnels = listed tunnels.new; inside = view_inside result } }
{
    let Ok((i, datagram)) = parse_ipv6(i) else {
        return Inside::Unread;
    };
    if !may_carry(&datagram) {
        return Inside::Datagram(datagram);
    }
    follow(
        Ok((i, datagram_layer(datagram))),
        tunnels,
        MAX_TUNNELS as u8,
    )
}

/// Returns what a packet holds whose layer of another EtherType is at the front. `tunnels` is
/// empty.
fn inside_other<'a>(i: &'a [u8], kind: u16, tunnels: &mut Tunnels) -> Inside<'a>
    requires { tunnels.old.count ≡ 0 }
    ensures { followed 8 (listed tunnels.old) (reading (layer_of_type_layout kind) i.now)
        ≡ record { tunnels = listed tunnels.new; inside = view_inside result } }
{
    follow(layer_of_type(i, kind), tunnels, MAX_TUNNELS as u8)
}

/// Returns whether `i` may be an IPv4 datagram without options that holds a TCP segment. Both
/// headers are then in `i`.
#[inline(always)]
fn may_be_plain(i: &[u8]) -> bool {
    match i {
        [0x45, _, upper, lower, _, _, _, _, _, TCP, ..] => {
            let len = u16::from_be_bytes([*upper, *lower]);
            len >= HEADERS_LEN && i.len() >= HEADERS_LEN as usize
        }
        _ => false,
    }
}

/// Parses the IPv4 datagram at the front if it has no options and holds TCP.
#[tactic(auto, using(crate::proofs::WalkLemmas::holds), unfolding(crate::specs::Walk::layer_of_type))]
#[inline(always)]
fn plain_ipv4(i: &[u8]) -> Option<IpDatagram>
    ensures { IfSome result
        (λ datagram. followed 8 [] (reading (layer_of_type_layout 0x0800) i.now)
        ≡ record { tunnels = []; inside = Held (view_datagram datagram) }) }
{
    // (once this is tested, the compiler drops the length test for each field)
    if !may_be_plain(i) {
        return None;
    }
    let Ok((_, datagram)) = parse_ipv4(i) else {
        return None;
    };
    if !matches!(datagram.content, Content::Tcp(_)) {
        return None;
    }
    Some(datagram)
}

/// Returns the datagram of the packet `i` by a fast path for most packets: TCP over IPv4 without
/// options, on Ethernet and in no tunnel. For any other packet it returns `None`, and
/// [`innermost_into`] has the answer. Both empty `tunnels`.
#[tactic(auto, unfolding(crate::specs::Walk::packet_layer))]
#[inline(always)]
pub fn plain_segment<'a>(
    i: &'a [u8],
    link_type: u16,
    tunnels: &mut Tunnels,
) -> Option<IpDatagram<'a>>
    ensures datagram { IfSome result
        (λ datagram. unwrapped link_type i.now
        ≡ record { tunnels = []; inside = Held (view_datagram datagram) }) }
    ensures tunnels { listed tunnels.new ≡ [] }
{
    tunnels.clear();
    if link_type != LINK_ETHERNET {
        return None;
    }
    let Ok((i, kind)) = parse_link(i, LINK_ETHERNET) else {
        return None;
    };
    if kind != IPV4 {
        return None;
    }
    plain_ipv4(i)
}

/// Returns the innermost datagram of the packet `i`, as [`innermost`] does, and replaces `tunnels`
/// by its tunnels. One list serves for all packets.
#[tactic(auto, using(crate::proofs::WalkLemmas::refused), unfolding(crate::specs::Walk::packet_layer))]
#[inline]
pub fn innermost_into<'a>(i: &'a [u8], link_type: u16, tunnels: &mut Tunnels) -> Inside<'a>
    ensures { unwrapped link_type
        i.now ≡ record { tunnels = listed tunnels.new; inside = view_inside result } }
{
    tunnels.clear();
    let Ok((i, kind)) = parse_link(i, link_type) else {
        return Inside::Unread;
    };
    match kind {
        IPV4 => inside_ipv4(i, tunnels),
        IPV6 => inside_ipv6(i, tunnels),
        _ => inside_other(i, kind, tunnels),
    }
}
