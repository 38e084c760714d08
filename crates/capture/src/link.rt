//! Link headers, by the link type of the capture (the LINKTYPE pages of tcpdump.org).
#![tactic(auto, using(layouts::proofs::OneAnswerLemmas::read_allowed))]

ghost use Rattle.layouts.specs.Meaning.{AllowsOne};
ghost use Rattle.layouts.specs.Answers.{Gives};
ghost use Rattle.capture.specs.Link.{vlan_tag, view_packet, ether_type as ether_type_layout};
ghost use Rattle.capture.specs.Link.{loopback as loopback_layout, behind_type as behind_type_layout, sll2 as sll2_layout};
ghost use Rattle.capture.specs.Link.{raw_ip as raw_ip_layout, ppp as ppp_layout, ppp_by as ppp_by_layout, ppp_link as ppp_link_layout};
ghost use Rattle.capture.specs.Link.{behind as behind_layout, link as link_layout, datagram as datagram_layout};
ghost use Rattle.layouts.specs.Layout.{done, refuse};
ghost use Rattle.layouts.specs.declared.result.ErrorKind.TheVariants.{Switch};
ghost use Rattle.capture.specs.Link.{pppoe as pppoe_layout, network as network_layout, carried, packet};
ghost use Rattle.capture.specs.Link.{family as type_of_family, type_of_ppp, is_vlan as is_vlan_type};
ghost use Rattle.std.specs.Prelude.{◌≡◌};

use crate::ip::{IpDatagram, parse_ipv4, parse_ipv6};
use crate::links::links;
use layouts::{
    ErrorKind, IResult, InPlace, Items, block, number1, number2, number4, parsed, refused,
};

/// The EtherType of IPv4.
const IPV4: u16 = 0x0800;

/// The EtherType of IPv6.
const IPV6: u16 = 0x86dd;

/// The EtherType of a PPPoE session.
const PPPOE: u16 = 0x8864;

/// Returns whether an EtherType is that of a VLAN tag.
#[inline]
pub(crate) fn is_vlan(kind: u16) -> bool
    ensures { result ≡ is_vlan_type kind }
{
    kind == 0x8100 || kind == 0x88a8 || kind == 0x9100
}

/// A VLAN tag.
struct VlanTag;

impl<'a> InPlace<'a> for VlanTag {
    type Read = ();

    ghost Value = { Unit };

    ghost view = { λ v. v };

    ghost layout = { vlan_tag };

    #[tactic(auto, using(layouts::proofs::OneAnswerLemmas::read_allowed), unfolding(crate::specs::Link::vlan_tag))]
    fn read(i: &'a [u8]) -> IResult<&'a [u8], ()> {
        let (i, kind) = parsed!(number2(i));
        if !is_vlan(kind) {
            return refused(i, ErrorKind::Tag);
        }
        let (i, _) = parsed!(block(i, 2));
        Ok((i, ()))
    }
}

/// Skips any number of VLAN tags. Returns the EtherType behind them.
#[tactic(auto, using(layouts::proofs::OneAnswerLemmas::read_allowed), unfolding(crate::specs::Link::ether_type))]
fn ether_type(i: &[u8]) -> IResult<&[u8], u16>
    ensures { Gives (λ v. v) ether_type_layout i.now result }
{
    number2(Items::<VlanTag>::new(i).rest())
}

/// Returns the EtherType of an address family; 0 for an unknown one.
fn family_type(family: u32) -> u16
    ensures { result ≡ type_of_family family }
{
    match family {
        2 | 0x0200_0000 => IPV4,
        24 | 28 | 30 | 0x1800_0000 | 0x1c00_0000 | 0x1e00_0000 => IPV6,
        _ => 0,
    }
}

/// Parses a LINKTYPE_NULL or LINKTYPE_LOOP header: returns the EtherType of its address family.
#[tactic(auto, using(layouts::proofs::OneAnswerLemmas::read_allowed), unfolding(crate::specs::Link::loopback))]
fn loopback(i: &[u8]) -> IResult<&[u8], u16>
    ensures { Gives (λ v. v) loopback_layout i.now result }
{
    let (i, n) = parsed!(number4(i));
    Ok((i, family_type(n)))
}

/// Returns the EtherType behind VLAN tags. `kind`, the type of the first one, was already read.
#[tactic(auto, using(layouts::proofs::OneAnswerLemmas::read_allowed), unfolding(crate::specs::Link::behind_type))]
fn behind_type(i: &[u8], kind: u16) -> IResult<&[u8], u16>
    ensures { Gives (λ v. v) (behind_type_layout kind) i.now result }
{
    if is_vlan(kind) {
        let (i, _) = parsed!(block(i, 2));
        return ether_type(i);
    }
    Ok((i, kind))
}

/// Parses a LINKTYPE_LINUX_SLL2 header: returns the EtherType behind it.
#[tactic(auto, using(layouts::proofs::OneAnswerLemmas::read_allowed), unfolding(crate::specs::Link::sll2))]
fn sll2(i: &[u8]) -> IResult<&[u8], u16>
    ensures { Gives (λ v. v) sll2_layout i.now result }
{
    let (i, kind) = parsed!(number2(i));
    let (i, _) = parsed!(block(i, 18));
    behind_type(i, kind)
}

/// Returns the EtherType of a raw IP packet, by its version. It takes no bytes.
#[tactic(auto, using(layouts::proofs::OneAnswerLemmas::read_allowed), unfolding(crate::specs::Link::raw_ip))]
fn raw_ip(i: &[u8]) -> IResult<&[u8], u16>
    ensures { Gives (λ v. v) raw_ip_layout i.now result }
{
    let (_, first) = parsed!(number1(i));
    match first / 16 {
        4 => Ok((i, IPV4)),
        6 => Ok((i, IPV6)),
        _ => refused(i, ErrorKind::Verify),
    }
}

/// Returns the EtherType of a PPP protocol; 0 for an unknown one.
fn ppp_type(protocol: u16) -> u16
    ensures { result ≡ type_of_ppp protocol }
{
    match protocol {
        0x0021 => IPV4,
        0x0057 => IPV6,
        _ => 0,
    }
}

/// Parses a PPP protocol, of 1 or 2 bytes: returns the EtherType of what follows.
#[tactic(auto, using(layouts::proofs::OneAnswerLemmas::read_allowed), unfolding(crate::specs::Link::ppp))]
fn ppp(i: &[u8]) -> IResult<&[u8], u16>
    ensures { Gives (λ v. v) ppp_layout i.now result }
{
    let (_, first) = parsed!(number1(i));
    if first % 2 == 1 {
        let (i, protocol) = parsed!(number1(i));
        return Ok((i, ppp_type(protocol as u16)));
    }
    let (i, protocol) = parsed!(number2(i));
    Ok((i, ppp_type(protocol)))
}

/// Parses a PPP or Cisco HDLC header, whose first 2 bytes are `front`: returns the EtherType of
/// what follows.
#[tactic(auto, using(layouts::proofs::OneAnswerLemmas::read_allowed), unfolding(crate::specs::Link::ppp_by))]
fn ppp_by(i: &[u8], front: u16) -> IResult<&[u8], u16>
    ensures { Gives (λ v. v) (ppp_by_layout front) i.now result }
{
    match front {
        0xff03 => {
            let (i, _) = parsed!(block(i, 2));
            ppp(i)
        }
        0x0f00 | 0x8f00 => {
            let (i, _) = parsed!(block(i, 2));
            ether_type(i)
        }
        _ => ppp(i),
    }
}

/// Parses a LINKTYPE_PPP or LINKTYPE_PPP_HDLC header: returns the EtherType of what follows.
#[tactic(auto, using(layouts::proofs::OneAnswerLemmas::read_allowed), unfolding(crate::specs::Link::ppp_link))]
fn ppp_link(i: &[u8]) -> IResult<&[u8], u16>
    ensures { Gives (λ v. v) ppp_link_layout i.now result }
{
    let (_, front) = parsed!(number2(i));
    ppp_by(i, front)
}

/// Returns `kind`, taking no bytes: the link has no header, or an outer layer has read it.
fn carries(i: &[u8], kind: u16) -> IResult<&[u8], u16>
    ensures { Gives (λ v. v) (done kind) i.now result }
{
    Ok((i, kind))
}

/// Skips `count` bytes and VLAN tags. Returns the EtherType behind them.
#[tactic(auto, using(layouts::proofs::OneAnswerLemmas::read_allowed), unfolding(crate::specs::Link::behind))]
fn behind(i: &[u8], count: usize) -> IResult<&[u8], u16>
    ensures { Gives (λ v. v) (behind_layout count) i.now result }
{
    let (i, _) = parsed!(block(i, count));
    ether_type(i)
}

/// Refuses a packet of an unknown link type.
fn no_link(i: &[u8]) -> IResult<&[u8], u16>
    ensures { Gives (λ v. v) (refuse Switch) i.now result }
{
    refused(i, ErrorKind::Switch)
}

/// Expands to a match that parses the header of each link type in the table.
macro_rules! header {
    ($i:ident, $link_type:ident: $($number:literal $name:ident => $read:ident($($of:expr)?),
        $front:ident($($count:expr)?);)*) => {
        match $link_type {
            $($number => $read($i $(, $of)?),)*
            _ => no_link($i),
        }
    };
}

/// Parses a link header: returns the EtherType of what follows.
#[tactic(auto, using(layouts::proofs::OneAnswerLemmas::read_allowed), unfolding(crate::specs::Link::link))]
#[inline(always)]
fn link(i: &[u8], link_type: u16) -> IResult<&[u8], u16>
    ensures { Gives (λ v. v) (link_layout link_type) i.now result }
{
    links!(header i, link_type)
}

/// Parses the header of a PPPoE session packet (RFC 2516, section 4): returns the EtherType of what
/// it carries.
#[tactic(auto, using(layouts::proofs::OneAnswerLemmas::read_allowed), unfolding(crate::specs::Link::pppoe))]
fn pppoe(i: &[u8]) -> IResult<&[u8], u16>
    ensures { Gives (λ v. v) pppoe_layout i.now result }
{
    let (i, front) = parsed!(number2(i));
    if front != 0x1100 {
        return refused(i, ErrorKind::Verify);
    }
    let (i, _) = parsed!(block(i, 4));
    ppp(i)
}

/// Returns the EtherType of what follows, behind a PPPoE session header if `kind` is that.
#[tactic(auto, using(layouts::proofs::OneAnswerLemmas::read_allowed), unfolding(crate::specs::Link::network))]
fn network(i: &[u8], kind: u16) -> IResult<&[u8], u16>
    ensures { Gives (λ v. v) (network_layout kind) i.now result }
{
    if kind == PPPOE {
        return pppoe(i);
    }
    Ok((i, kind))
}

/// Parses the link header at the front of the packet `i`. Returns the EtherType of what it carries,
/// such as 0x0800 for IPv4 and 0x86dd for IPv6. It is 0 if the link has other protocol numbers, and
/// carries neither. [`parse_packet`] lists the link types.
///
/// - `Incomplete`, with the count of missing bytes of the first field that isn't whole.
/// - `Error` of kind `Switch` if the link type is unknown.
/// - `Error` of kind `Verify` if a PPPoE packet isn't part of a session, or the version of raw IP
///   isn't 4 or 6.
#[tactic(auto, using(layouts::proofs::OneAnswerLemmas::read_allowed), unfolding(crate::specs::Link::carried))]
#[inline(always)]
pub fn parse_link(i: &[u8], link_type: u16) -> IResult<&[u8], u16>
    ensures { Gives (λ v. v) (carried link_type) i.now result }
{
    let (i, kind) = parsed!(link(i, link_type));
    network(i, kind)
}

/// Parses a datagram of this EtherType; `None` if it is neither IPv4 nor IPv6.
#[tactic(auto, using(layouts::proofs::OneAnswerLemmas::read_allowed), unfolding(crate::specs::Link::datagram))]
fn datagram(i: &[u8], kind: u16) -> IResult<&[u8], Option<IpDatagram>>
    ensures { Gives view_packet (datagram_layout kind) i.now result }
{
    match kind {
        IPV4 => {
            let (i, datagram) = parsed!(parse_ipv4(i));
            Ok((i, Some(datagram)))
        }
        IPV6 => {
            let (i, datagram) = parsed!(parse_ipv6(i));
            Ok((i, Some(datagram)))
        }
        _ => Ok((i, None)),
    }
}

/// Parses the packet `i` of a capture with this link type: the link header, and the IPv4 or IPv6
/// datagram behind it. `None` if it carries another protocol. The rest is padding, or the bytes of
/// that protocol.
///
/// Link types (LINKTYPE of tcpdump.org):
///
/// - 1 Ethernet, 113 Linux cooked (SLL) and 276 SLL2, each with any number of VLAN tags.
/// - 0 null, 108 loopback, 9 PPP, 50 PPP in HDLC, 51 PPPoE, 101 raw IP, 228 IPv4, 229 IPv6.
///
/// Links with EtherTypes may also carry PPPoE sessions.
///
/// Refusals:
///
/// - `Incomplete`, with the count of missing bytes of the first field that isn't whole: the packet
///   was truncated.
/// - `Error` of kind `Switch` if the link type is unknown.
/// - `Error` of kind `Verify` if a PPPoE packet isn't part of a session, or the version of raw IP
///   isn't 4 or 6.
/// - What [`parse_ipv4`] and [`parse_ipv6`] refuse.
#[tactic(auto, using(layouts::proofs::OneAnswerLemmas::read_allowed, layouts::proofs::OneAnswerLemmas::one_answer), unfolding(crate::specs::Link::packet))]
pub fn parse_packet(i: &[u8], link_type: u16) -> IResult<&[u8], Option<IpDatagram>>
    ensures gives { Gives view_packet (packet link_type) i.now result }
    ensures only_one { AllowsOne (packet link_type) i.now }
{
    let (i, kind) = parsed!(parse_link(i, link_type));
    datagram(i, kind)
}
