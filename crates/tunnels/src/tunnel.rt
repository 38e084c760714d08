//! Tunnels and the headers that begin them.
#![tactic(auto, using(layouts::proofs::OneAnswerLemmas::read_allowed), unfolding(crate::specs::Tunnel::carrying, crate::specs::Tunnel::skipped_if, crate::specs::Tunnel::version_type))]

ghost use Rattle.std.specs.Prelude.{◌≡◌, ◌≤◌, ◌<◌, ◌+◌, ◌++◌, ◌∷◌, ◌==◌, [], length, map};
ghost use Rattle.layouts.specs.Answers.{Gives};
ghost use Rattle.capture.specs.Ip.{view_address};
ghost use Rattle.tunnels.specs.Tunnel.{address_number as number_of_address, carrying as carrying_layout, endpoints_between, listed, shared as shared_of, shared_id as shared_id_of, skipped_if as skipped_if_layout, tunnel_of, version_type as version_type_layout, type_of_version as type_of_version_number, view_carried, view_header};

use capture::Address;
use layouts::{IResult, block, number1, parsed, rest};

/// The most nested tunnels that are followed.
pub const MAX_TUNNELS: usize = 8;

/// The EtherType of an Ethernet frame inside another header (Transparent Ethernet Bridging; RFC
/// 1701, section 1).
pub const ETHERNET: u16 = 0x6558;

/// The EtherType of IPv4.
pub(crate) const IPV4: u16 = 0x0800;

/// The EtherType of IPv6.
pub(crate) const IPV6: u16 = 0x86dd;

/// The protocol of a tunnel.
#[derive(Clone, Copy, Debug, PartialEq, Eq, Hash)]
pub enum TunnelKind {
    /// IPv4 in IP (RFC 2003; RFC 2473), without a tunnel header.
    Ipv4,
    /// IPv6 in IP (RFC 2473; RFC 4213), without a tunnel header.
    Ipv6,
    /// Generic Routing Encapsulation (RFC 2784; RFC 2890). The identifier is the key.
    Gre,
    /// A switch's copy of a frame, in GRE (draft-foschiano-erspan). The identifier is the session.
    Erspan,
    /// MPLS labels (RFC 3032). The identifier is the last label.
    Mpls,
    /// VXLAN (RFC 7348). The identifier is the network (VNI).
    Vxlan,
    /// GENEVE (RFC 8926). The identifier is the network (VNI).
    Geneve,
    /// GTP-U (3GPP TS 29.281). The identifier is the tunnel endpoint (TEID).
    GtpU,
    /// Teredo (RFC 4380).
    Teredo,
    /// A provider's backbone (IEEE 802.1Q, section 9.7). The identifier is the service (I-SID).
    Backbone,
}

/// The endpoints of a tunnel: the addresses of the datagram that carries it, as numbers of 128
/// bits, in which an IPv4 address is `::ffff:a.b.c.d`. Both are 0 if no datagram carries the
/// tunnel.
#[derive(Clone, Copy, Debug, PartialEq, Eq, Hash)]
pub struct Endpoints {
    /// The lower address.
    pub lower: u128,
    /// The upper address.
    pub upper: u128,
}

/// Returns an address as a number.
fn address_number(address: Address) -> u128
    ensures { result ≡ number_of_address (view_address address) }
{
    match address {
        Address::V4(n) => 0xffff_0000_0000 + u128::from(n),
        Address::V6(upper, lower) => {
            u128::from(upper) * 0x1_0000_0000_0000_0000 + u128::from(lower)
        }
    }
}

impl Endpoints {
    /// Returns the endpoints of a tunnel in a datagram between these addresses, in either
    /// direction.
    pub fn between(source: Address, destination: Address) -> Endpoints
        ensures is { result ≡ endpoints_between (view_address source)
            (view_address destination) }
        ensures swapped { result ≡ endpoints_between (view_address destination)
            (view_address source) }
    {
        let source = address_number(source);
        let destination = address_number(destination);
        if source <= destination {
            return Endpoints {
                lower: source,
                upper: destination,
            };
        }
        Endpoints {
            lower: destination,
            upper: source,
        }
    }
}

/// A tunnel.
#[derive(Clone, Copy, Debug, PartialEq, Eq, Hash)]
pub struct Tunnel {
    /// The tunnel's protocol.
    pub kind: TunnelKind,
    /// The tunnel's identifier, if its header has one.
    pub id: Option<u32>,
    /// Its endpoints.
    pub endpoints: Endpoints,
}

/// Returns the identifier of a tunnel of this kind, if both directions of a conversation have it.
fn shared_id(kind: TunnelKind, id: Option<u32>) -> Option<u32>
    ensures { result ≡ shared_id_of kind id }
{
    match kind {
        TunnelKind::Vxlan | TunnelKind::Geneve | TunnelKind::Backbone => id,
        _ => None,
    }
}

impl Tunnel {
    /// Returns a tunnel by its header, which doesn't have the endpoints.
    pub fn new(kind: TunnelKind, id: Option<u32>) -> Tunnel
        ensures { result ≡ tunnel_of kind id }
    {
        let endpoints = Endpoints { lower: 0, upper: 0 };
        Tunnel {
            kind,
            id,
            endpoints,
        }
    }

    /// Returns what both directions of a conversation have in common of the tunnel. That is the
    /// same for both directions: `endpoints` are in no order.
    pub fn shared(self) -> Tunnel
        ensures { result ≡ shared_of self }
    {
        Tunnel {
            id: shared_id(self.kind, self.id),
            ..self
        }
    }
}

/// The source and destination of the datagram that carries a tunnel, if one does.
pub(crate) type Carrier = Option<(Address, Address)>;

/// A tunnel header and its payload.
#[derive(Clone, Copy, Debug, PartialEq)]
pub struct Header<'a> {
    /// The tunnel's protocol.
    pub tunnel: TunnelKind,
    /// The tunnel's identifier, if the header has one.
    pub id: Option<u32>,
    /// The payload's EtherType: 0x0800 for IPv4, 0x86dd for IPv6, [`ETHERNET`] for a frame; 0 if
    /// unknown.
    pub kind: u16,
    /// The payload.
    pub inside: &'a [u8],
}

impl Header<'_> {
    /// Returns the tunnel that begins with this header in this carrier.
    pub(crate) fn tunnel_in(&self, carrier: Carrier) -> Tunnel
        ensures { result ≡ (view_carried self.now carrier).tunnel }
    {
        let tunnel = Tunnel::new(self.tunnel, self.id);
        let Some((source, destination)) = carrier else {
            return tunnel;
        };
        let endpoints = Endpoints::between(source, destination);
        Tunnel {
            endpoints,
            ..tunnel
        }
    }
}

/// The tunnels of a packet, outermost first, at most [`MAX_TUNNELS`].
#[derive(Clone, Copy, Debug, PartialEq, Eq, Hash)]
pub struct Tunnels {
    pub(crate) slots: [Tunnel; MAX_TUNNELS],
    pub(crate) count: usize,
}

impl Tunnels {
    /// Returns an empty list.
    pub fn new() -> Tunnels
        ensures listed { listed result ≡ [] }
        ensures count { result.count ≡ 0 }
    {
        let none = Tunnel::new(TunnelKind::Ipv4, None);
        Tunnels {
            slots: [none; MAX_TUNNELS],
            count: 0,
        }
    }

    /// Empties the list.
    pub(crate) fn clear(&mut self)
        ensures listed { listed self.new ≡ [] }
        ensures count { self.new.count ≡ 0 }
    {
        if self.count != 0 {
            *self = Tunnels::new();
        }
    }

    /// Appends a tunnel, inside the others.
    pub(crate) fn push(&mut self, tunnel: Tunnel)
        requires { self.old.count < 8 }
        ensures listed { listed self.new ≡ listed self.old ++ tunnel ∷ [] }
        ensures count { self.new.count ≡ self.old.count + 1 }
    {
        self.slots[self.count] = tunnel;
        self.count += 1;
    }

    /// Returns what both directions of a conversation have in common of each tunnel.
    pub fn shared(&self) -> Tunnels
        ensures { listed result ≡ map shared_of (listed self.now) }
    {
        let tunnels = self.as_slice();
        let mut shared = Tunnels::new();
        for tunnel in tunnels {
            shared.push(tunnel.shared());
        }
        shared
    }

    /// Returns whether there are no tunnels.
    pub fn is_empty(&self) -> bool
        ensures { result ≡ (length (listed self.now) == 0) }
    {
        self.count == 0
    }

    /// Returns the tunnels, outermost first.
    pub fn as_slice(&self) -> &[Tunnel]
        ensures tunnels { result.now ≡ listed self.now }
        ensures count { length result.now ≤ 8 }
    {
        match self.slots.get(..self.count) {
            Some(tunnels) => tunnels,
            None => &self.slots,
        }
    }
}

/// Takes all of `i` as the payload of a tunnel.
pub(crate) fn carrying(
    i: &[u8],
    tunnel: TunnelKind,
    id: Option<u32>,
    kind: u16,
) -> IResult<&[u8], Header>
    ensures { Gives view_header (carrying_layout (tunnel_of tunnel id) kind) i.now result }
{
    let (i, inside) = parsed!(rest(i));
    Ok((
        i,
        Header {
            tunnel,
            id,
            kind,
            inside,
        },
    ))
}

/// Skips this many bytes, if they are present.
pub(crate) fn skipped_if(i: &[u8], present: bool, count: usize) -> IResult<&[u8], ()>
    ensures { Gives (λ v. v) (skipped_if_layout present count) i.now result }
{
    if present {
        let (i, _) = parsed!(block(i, count));
        return Ok((i, ()));
    }
    Ok((i, ()))
}

/// Returns the EtherType of an IP version; 0 for an unknown one.
pub(crate) fn type_of_version(version: u8) -> u16
    ensures { result ≡ type_of_version_number version }
{
    match version {
        4 => IPV4,
        6 => IPV6,
        _ => 0,
    }
}

/// Returns the EtherType of the datagram at the front, by its version. It takes no bytes.
pub(crate) fn version_type(i: &[u8]) -> IResult<&[u8], u16>
    ensures { Gives (λ v. v) version_type_layout i.now result }
{
    let (_, first) = parsed!(number1(i));
    Ok((i, type_of_version(first / 16)))
}
