//! Parts of the connections.
ghost use Rattle.std.specs.Prelude.{◌≡◌};
ghost use Rattle.connection_parts.specs.Part.{address_bytes, end_hash as end_hash_of, ends_hash as ends_hash_of, falls_to, fnv_from, part_of};

use connections::{End, Protocol};
use std::net::IpAddr;

/// The start value of the FNV-1a hash.
const OFFSET_BASIS: u64 = 0xcbf2_9ce4_8422_2325;

/// The factor of the FNV-1a hash.
const PRIME: u64 = 0x100_0000_01b3;

/// The odd number nearest to 2^64 divided by the golden ratio. Multiplying by it spreads the low
/// bits over all others.
const GOLDEN: u64 = 0x9e37_79b9_7f4a_7c15;

/// One of several parts of the connections.
#[derive(Clone, Copy, Debug, PartialEq, Eq)]
pub struct Part {
    // The part's number, counted from 0, and the last part's number.
    number: u32,
    last: u32,
}

/// Extends a hash by these bytes.
fn hash_behind(hash: u64, bytes: &[u8]) -> u64
    ensures { result ≡ fnv_from hash bytes.now }
{
    let mut hash = hash;
    for byte in bytes {
        hash = (hash ^ u64::from(*byte)).wrapping_mul(PRIME);
    }
    hash
}

/// Extends a hash by an address.
fn hash_address(hash: u64, address: IpAddr) -> u64
    ensures { result ≡ fnv_from hash (address_bytes address) }
{
    match address {
        IpAddr::V4(four) => hash_behind(hash, &four.octets()),
        IpAddr::V6(sixteen) => hash_behind(hash, &sixteen.octets()),
    }
}

/// Returns the hash of an end.
#[tactic(auto, using(crate::proofs::HashLemmas::fnv_behind))]
fn end_hash(end: End) -> u64
    ensures { result ≡ end_hash_of end }
{
    hash_behind(
        hash_address(OFFSET_BASIS, end.address),
        &end.port.to_be_bytes(),
    )
}

/// Returns the hash of a connection, the same for both directions.
fn ends_hash(protocol: Protocol, one: End, other: End) -> u64
    ensures { result ≡ ends_hash_of protocol one other }
{
    let both = end_hash(one).wrapping_add(end_hash(other));
    match protocol {
        Protocol::Tcp => both,
        Protocol::Udp => both.wrapping_add(1),
    }
}

impl Part {
    /// Returns the part with this number, counted from 1, of `count` parts. `None` if there is no
    /// such part.
    pub fn new(number: u32, count: u32) -> Option<Part>
        ensures { result ≡ part_of number count }
    {
        if number == 0 || number > count {
            return None;
        }
        Some(Part {
            number: number - 1,
            last: count - 1,
        })
    }

    /// Returns whether connections of this protocol between these ends fall to this part. The order
    /// of the ends doesn't matter.
    pub fn has(&self, protocol: Protocol, one: End, other: End) -> bool
        ensures { result ≡ falls_to protocol one other self.now }
    {
        let spread = ends_hash(protocol, one, other).wrapping_mul(GOLDEN);
        spread / 0x1_0000_0000 % (u64::from(self.last) + 1) == u64::from(self.number)
    }
}
