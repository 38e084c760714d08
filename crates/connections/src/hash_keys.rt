//! The hash of a five-tuple under a table's keys.
ghost use Rattle.std.specs.Prelude.{◌≡◌};
ghost use Rattle.std.specs.Hash.FoldHasher.{folded_multiply};
ghost use Rattle.connections.specs.HashKeys.{after_address, hash_keys_of, hash_of, hash_of_both};

use crate::five_tuple::FiveTuple;
use crate::words::{address_bits, both_bits, port_bits};
use std::hash::{BuildHasher, RandomState};
use std::net::IpAddr;

/// The keys of a table's hashes. Peers choose their addresses and ports, but don't know the keys.
#[derive(Clone, Copy)]
pub struct HashKeys {
    first: u64,
    second: u64,
}

/// Returns the xor of both halves of a product. It depends on all bits of both factors.
#[inline(always)]
fn folded(one: u64, other: u64) -> u64
    ensures { result ≡ folded_multiply one other }
{
    let product = one as u128 * other as u128;
    (product & 0xffff_ffff_ffff_ffff) as u64 ^ (product >> 64) as u64
}

impl HashKeys {
    /// Derives two keys from those of the system's hashes.
    pub(crate) fn of(keys: &RandomState) -> HashKeys
        ensures { result ≡ hash_keys_of keys.now }
    {
        HashKeys {
            first: keys.hash_one(0_u64),
            second: keys.hash_one(1_u64),
        }
    }

    /// Extends a hash by an address.
    fn after_address(self, hash: u64, address: u128) -> u64
        ensures { result ≡ after_address self hash address }
    {
        let upper = (address >> 64) as u64;
        let lower = (address & 0xffff_ffff_ffff_ffff) as u64;
        folded(hash ^ upper, self.second ^ lower)
    }

    /// Returns the hash of two addresses, at least one of them IPv6, and of ports and protocol.
    fn hash_of_both(self, lower: u128, upper: u128, ports: u64) -> u64
        ensures { result ≡ hash_of_both self lower upper ports }
    {
        let hash = self.after_address(self.first, lower);
        let hash = self.after_address(hash, upper);
        folded(hash ^ ports, self.second)
    }

    /// Returns the hash of a five-tuple. It is a single product if both addresses are IPv4 and
    /// networks aren't distinguished.
    #[tactic(auto, unfolding(crate::specs::HashKeys::hash_of))]
    #[inline(always)]
    pub(crate) fn hash(self, five_tuple: &FiveTuple) -> u64
        ensures { result ≡ hash_of self five_tuple.now }
    {
        let (lower, upper) = (five_tuple.lower, five_tuple.upper);
        let ports = port_bits(lower.port, upper.port, five_tuple.protocol);
        let hash = match (lower.address, upper.address) {
            (IpAddr::V4(lower), IpAddr::V4(upper)) => {
                let addresses = both_bits(lower.to_bits(), upper.to_bits());
                folded(self.first ^ addresses, self.second ^ ports)
            }
            (lower, upper) => self.hash_of_both(address_bits(lower), address_bits(upper), ports),
        };
        if five_tuple.network == 0 {
            return hash;
        }
        folded(hash ^ five_tuple.network, self.second)
    }
}
