//! The keys of datagrams in reassembly.
ghost use Rattle.std.specs.Prelude.{◌≡◌, ◌++◌};
ghost use Rattle.std.proofs.Common.{rules};
ghost use Rattle.std.specs.Hash as fed;
ghost use Rattle.std.specs.Cmp.Rules.{hashing};
ghost use Rattle.ip_fragments.specs.Key.{address_fed, key_of, number_of};

use capture::{Address, IpFragment};
use std::hash::{Hash, Hasher};

/// What all fragments of a datagram have in common.
#[derive(Clone, Copy, Debug, PartialEq, Eq)]
pub struct Key {
    network: u64,
    source: Address,
    destination: Address,
    identification: u32,
    // 0 in IPv6, where the fragments of one datagram may have different ones.
    protocol: u8,
    is_header_right: bool,
}

impl Key {
    /// Returns a fragment's key: the number of its network, source, destination, identification and
    /// protocol (RFC 791, section 3.2). In IPv6 the protocol doesn't count (RFC 8200, section 4.5).
    /// Fragments with a wrong header checksum are apart from others, since a host drops them.
    pub(crate) fn of(network: u64, fragment: &IpFragment<'_>) -> Key
        ensures { result ≡ key_of network fragment.now }
    {
        let protocol = match fragment.source {
            Address::V4(_) => fragment.protocol,
            Address::V6(_, _) => 0,
        };
        Key {
            network,
            source: fragment.source,
            destination: fragment.destination,
            identification: fragment.identification,
            protocol,
            is_header_right: fragment.is_header_right,
        }
    }
}

// Whole words hash fastest.
impl Hash for Key {
    ghost hash_input = { λ k. fed.u64 k.network ++ (address_fed k.source
        ++ (address_fed k.destination ++ fed.u64 (number_of k))) };

    ghost respects_eq = { Prim.search (hashing, rules) };

    fn hash<H: Hasher>(&self, state: &mut H) {
        self.network.hash(state);
        match self.source {
            Address::V4(bits) => bits.hash(state),
            Address::V6(upper, lower) => {
                upper.hash(state);
                lower.hash(state);
            }
        }
        match self.destination {
            Address::V4(bits) => bits.hash(state),
            Address::V6(upper, lower) => {
                upper.hash(state);
                lower.hash(state);
            }
        }
        let number = u64::from(self.identification) * 256 + u64::from(self.protocol);
        number.hash(state);
    }
}
