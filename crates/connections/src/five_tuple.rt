//! The five-tuple of a connection.
ghost use Rattle.std.specs.Prelude.{◌≡◌, ◌++◌, nat_eq};
ghost use Rattle.std.specs.Ordering.{eq_of_both, on};
ghost use Rattle.std.specs.contracts.net.ip_addr.IpAddrEq.TheImpl.Laws.{laws-law as same_addresses};
ghost use Rattle.std.specs.Cmp.Lexicographic.{pointwise};
ghost use Rattle.std.proofs.Common.{rules};
ghost use Rattle.std.specs.Cmp.Rules.{comparing, hashing};
ghost use Rattle.connections.specs.Address.{is_address};

use crate::words::{address_bits, block, both_bits, port_bits};
use std::hash::{Hash, Hasher};
use std::net::IpAddr;

/// A transport protocol.
#[derive(Clone, Copy, Debug, PartialEq, Eq)]
pub enum Protocol {
    /// TCP (RFC 9293).
    Tcp,
    /// UDP (RFC 768).
    Udp,
}

/// One end of a connection.
#[derive(Clone, Copy, Debug, PartialOrd, Ord)]
pub struct End {
    /// The address.
    pub address: IpAddr,
    /// The port.
    pub port: u16,
}

/// Returns whether four octets are equal.
#[inline(always)]
fn same_octets(one: [u8; 4], other: [u8; 4]) -> bool
    ensures { result ≡ pointwise nat_eq one other }
{
    let [a, b, c, d] = one;
    let [e, f, g, h] = other;
    a == e && b == f && c == g && d == h
}

/// Returns whether two addresses are equal. The octets of IPv4 are compared at once, without a
/// loop.
#[inline(always)]
fn same_address(one: &IpAddr, other: &IpAddr) -> bool
    ensures { result ≡ is_address one.now other.now }
{
    match (one, other) {
        (IpAddr::V4(four), IpAddr::V4(others)) => same_octets(four.octets(), others.octets()),
        _ => *one == *other,
    }
}

// By hand for speed: each packet's ends are compared several times.
impl PartialEq for End {
    ghost eq = { eq_of_both (on (λ e. e.address) is_address) (on (λ e. e.port) nat_eq) };

    ghost laws = { Prim.search (same_addresses, comparing, rules) };

    #[inline(always)]
    fn eq(&self, other: &End) -> bool {
        self.port == other.port && same_address(&self.address, &other.address)
    }
}

impl Eq for End {
    ghost laws = { Prim.search (same_addresses, comparing, rules) };
}

/// A five-tuple, the same for both directions, with the number of the network.
#[derive(Clone, Copy, Debug)]
pub struct FiveTuple {
    pub(crate) network: u64,
    pub(crate) protocol: Protocol,
    pub(crate) lower: End,
    pub(crate) upper: End,
}

// By hand for speed, as for ends: five-tuples are compared for each packet.
impl PartialEq for FiveTuple {
    ghost use Rattle.connections.specs.contracts.five_tuple.EndPartialEq.TheImpl as end_eq;
    ghost use Rattle.connections.specs.contracts.five_tuple.EndEq.TheImpl.Laws.{laws-law as same_ends};
    ghost use Rattle.connections.specs.contracts.five_tuple.ProtocolPartialEq.TheImpl as protocol_eq;
    ghost use Rattle.connections.specs.contracts.five_tuple.ProtocolEq.TheImpl.Laws.{laws-law as same_protocols};

    ghost eq = { eq_of_both (on (λ e. e.network) nat_eq)
        (eq_of_both (on (λ e. e.protocol) protocol_eq.ghosts.eq)
        (eq_of_both (on (λ e. e.lower) end_eq.ghosts.eq) (on (λ e. e.upper) end_eq.ghosts.eq))) };

    ghost laws = { Prim.search (same_ends, same_protocols, comparing, rules) depth 8 };

    #[inline(always)]
    fn eq(&self, other: &FiveTuple) -> bool {
        self.network == other.network
            && (self.protocol == other.protocol
                && (self.lower == other.lower && self.upper == other.upper))
    }
}

impl Eq for FiveTuple {
    ghost use Rattle.connections.specs.contracts.five_tuple.EndEq.TheImpl.Laws.{laws-law as same_ends};
    ghost use Rattle.connections.specs.contracts.five_tuple.ProtocolEq.TheImpl.Laws.{laws-law as same_protocols};

    ghost laws = { Prim.search (same_ends, same_protocols, comparing, rules) };
}

impl FiveTuple {
    ghost use Rattle.connections.specs.FiveTuple.{five_tuple_between};

    /// Returns the five-tuple of the packets between two ends, by this protocol and in the network
    /// of this number.
    pub fn between(network: u64, protocol: Protocol, one: End, other: End) -> FiveTuple
        ensures { result ≡ five_tuple_between network protocol one other }
    {
        if one <= other {
            FiveTuple {
                network,
                protocol,
                lower: one,
                upper: other,
            }
        } else {
            FiveTuple {
                network,
                protocol,
                lower: other,
                upper: one,
            }
        }
    }
}

// Whole words hash fastest: one block of two words for IPv4 when networks aren't distinguished.
impl Hash for FiveTuple {
    ghost use Rattle.connections.specs.FiveTuple.{ends_fed, network_fed, ports_number};

    ghost hash_input = { λ e. ends_fed e.lower.address e.upper.address
        (ports_number e.lower.port e.upper.port e.protocol) ++ network_fed e.network };

    ghost respects_eq = { Prim.search (hashing, rules) };

    fn hash<H: Hasher>(&self, state: &mut H) {
        let ports = port_bits(self.lower.port, self.upper.port, self.protocol);
        match (self.lower.address, self.upper.address) {
            (IpAddr::V4(lower), IpAddr::V4(upper)) => {
                let addresses = both_bits(lower.to_bits(), upper.to_bits());
                block(addresses, ports).hash(state);
            }
            (lower, upper) => {
                address_bits(lower).hash(state);
                address_bits(upper).hash(state);
                ports.hash(state);
            }
        }
        if self.network != 0 {
            self.network.hash(state);
        }
    }
}
