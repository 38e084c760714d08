//! Networks and their numbers.
ghost use Rattle.std.specs.Prelude.{◌≡◌, [], IfOk, OnErr, OnOk};
ghost use Rattle.networks.specs.Networks.{IsOfTunnels, number_of, with_packet};

use capture::VlanTags;
use lru::LruCache;
use std::alloc::{AllocError, Global};
use std::hash::RandomState;
use std::marker::Model;
use std::num::NonZeroUsize;
use tunnels::Tunnels;

/// The most networks that are remembered. Beyond that the least recently used is forgotten.
pub const MAX_NETWORKS: usize = 65_536;

/// The network of a packet. Networks differ in their list of VLANs, or in the protocols, endpoints
/// or identifiers of their tunnels.
#[derive(Clone, Copy, Debug, PartialEq, Eq, Hash)]
pub struct Network {
    /// The VLAN identifiers, outermost first.
    pub vlans: VlanTags,
    /// The tunnels, outermost first.
    pub tunnels: Tunnels,
}

impl Network {
    /// Returns the network of a packet by its tunnels alone: their protocols, their endpoints in
    /// either order, and the identifiers that both directions of a conversation have.
    pub fn of_tunnels(tunnels: &Tunnels) -> Network
        ensures { IsOfTunnels tunnels.now result }
    {
        Network {
            vlans: VlanTags::new(),
            tunnels: tunnels.shared(),
        }
    }
}

/// The remembered networks and their numbers.
#[derive(Drop)]
pub struct Networks {
    held: LruCache<Network, u64, RandomState>,
    // The number that was given last.
    last: u64,
}

impl Model for Networks {
    ghost use Rattle.std.specs.Prelude.{◌≡◌};
    ghost use Rattle.networks.specs.Networks.{Numbering};

    ghost Value = { Numbering };

    ghost view = { λ t. record { held = t.held.entries; last = t.last } };

    ghost invariant = { λ t. t.held.cap ≡ 65536 };
}

impl Networks {
    /// Returns an empty table. `keys` keys its hashes, so that nobody without the keys can choose
    /// networks whose hashes collide.
    pub fn new(alloc: Global, keys: RandomState) -> Result<Networks, AllocError>
        ensures { IfOk result (λ t. t ≡ record { held = []; last = 0 }) }
    {
        let Some(most) = NonZeroUsize::new(MAX_NETWORKS) else {
            return Err(AllocError);
        };
        // (room comes with the networks: most captures have none)
        let mut held = LruCache::unbounded_with_hasher(alloc, keys)?;
        held.resize(most);
        Ok(Networks { held, last: 0 })
    }

    /// Returns the number of a packet's network: the one that it has, or else the next that was
    /// never given, from 1 on. The network becomes the most recently used.
    ///
    /// `AllocError` if there is no memory for a new network, or no number is left. Nothing changes
    /// then.
    #[tactic(auto, using(crate::proofs::NumberLemmas::put_new))]
    pub fn number(&mut self, network: Network) -> Result<u64, AllocError>
        ensures number { IfOk result (λ number. number ≡ number_of network self.old) }
        ensures held { OnOk result (self.new ≡ with_packet network self.old) }
        ensures err { OnErr result (self.new ≡ self.old) }
    {
        if let Some(number) = self.held.peek(&network) {
            let number = *number;
            self.held.promote(&network);
            return Ok(number);
        }
        let Some(number) = self.last.checked_add(1) else {
            return Err(AllocError);
        };
        self.held.put(network, number)?;
        self.last = number;
        Ok(number)
    }
}
