//! Tunnel headers, by IP protocol and UDP port.
#![tactic(auto, using(layouts::proofs::OneAnswerLemmas::read_allowed), unfolding(crate::specs::Carriers::by_protocol, crate::specs::Carriers::by_ports))]

ghost use Rattle.layouts.specs.Answers.{Gives};
ghost use Rattle.tunnels.specs.Tunnel.{view_header};
ghost use Rattle.tunnels.specs.Carriers.{by_protocol as by_protocol_layout, by_ports as by_ports_layout};

use crate::gre::parse_gre;
use crate::gtp::parse_gtp;
use crate::labels::parse_mpls;
use crate::overlay::{parse_geneve, parse_vxlan};
use crate::teredo::parse_teredo;
use crate::tunnel::{Header, IPV4, IPV6, TunnelKind, carrying};
use layouts::{ErrorKind, IResult, refused};

/// The UDP port of Teredo.
pub(crate) const TEREDO: u16 = 3544;

/// Parses the tunnel header that an IP protocol carries.
pub(crate) fn by_protocol(i: &[u8], protocol: u8) -> IResult<&[u8], Header>
    ensures { Gives view_header (by_protocol_layout protocol) i.now result }
{
    match protocol {
        4 => carrying(i, TunnelKind::Ipv4, None, IPV4),
        41 => carrying(i, TunnelKind::Ipv6, None, IPV6),
        47 => parse_gre(i),
        137 => parse_mpls(i),
        _ => refused(i, ErrorKind::Switch),
    }
}

/// Parses the tunnel header that a UDP datagram carries, by its source and destination port.
pub(crate) fn by_ports(i: &[u8], source: u16, destination: u16) -> IResult<&[u8], Header>
    ensures { Gives view_header (by_ports_layout source destination) i.now result }
{
    match destination {
        4789 | 8472 => parse_vxlan(i),
        6081 => parse_geneve(i),
        2152 => parse_gtp(i),
        TEREDO => parse_teredo(i),
        _ if source == TEREDO => parse_teredo(i),
        _ => refused(i, ErrorKind::Switch),
    }
}
