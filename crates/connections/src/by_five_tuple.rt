//! A table by five-tuple that hashes once when the same five-tuple is looked up several times in a
//! row.
ghost use Rattle.std.specs.Prelude.{◌≡◌, nat_eq};
ghost use Rattle.std.specs.Ordering.{eq_of_both, on};
ghost use Rattle.std.proofs.Common.{rules};
ghost use Rattle.std.specs.Cmp.Rules.{comparing};
ghost use Rattle.connections.specs.ByFiveTuple.{hashed_ends, IsHashed};
ghost use Rattle.connections.specs.FiveTuple.{is_five_tuple};
ghost use Rattle.connections.specs.contracts.five_tuple.FiveTupleEq.TheImpl.Laws.{laws-law as same_five_tuples};

use crate::five_tuple::{End, FiveTuple, Protocol};
use crate::hash_keys::HashKeys;
use lru::LruCache;
use std::alloc::{AllocError, Global};
use std::hash::{Hash, Hasher, RandomState};
use std::marker::Model;
use std::net::{IpAddr, Ipv4Addr};

/// A five-tuple with its hash under a table's keys.
#[derive(Clone, Copy)]
struct HashedEnds {
    hash: u64,
    five_tuple: FiveTuple,
}

// The hash is compared first, since it differs for almost all other five-tuples.
impl PartialEq for HashedEnds {
    ghost eq = { eq_of_both (on (λ e. e.hash) nat_eq) (on (λ e. e.five_tuple) is_five_tuple) };

    ghost laws = { Prim.search (same_five_tuples, comparing, rules) };

    #[inline(always)]
    fn eq(&self, other: &HashedEnds) -> bool {
        self.hash == other.hash && self.five_tuple == other.five_tuple
    }
}

impl Eq for HashedEnds {
    ghost laws = { Prim.search (same_five_tuples, comparing, rules) };
}

// The table hashes only this number. It is keyed already, so nobody else can choose it.
impl Hash for HashedEnds {
    ghost use Rattle.std.specs.Hash as fed;
    ghost use Rattle.std.proofs.Common.{rules};
    ghost use Rattle.std.specs.Cmp.Rules.{hashing};

    ghost hash_input = { λ e. fed.u64 e.hash };

    ghost respects_eq = { Prim.search (hashing, rules) };

    fn hash<H: Hasher>(&self, state: &mut H) {
        self.hash.hash(state);
    }
}

impl HashedEnds {
    /// Hashes a five-tuple.
    fn new(keys: HashKeys, five_tuple: &FiveTuple) -> HashedEnds
        ensures { result ≡ hashed_ends keys five_tuple.now }
    {
        HashedEnds {
            hash: keys.hash(five_tuple),
            five_tuple: *five_tuple,
        }
    }

    /// Returns a five-tuple with its hash, which isn't computed again if this is the same
    /// five-tuple.
    #[inline(always)]
    fn known(&self, keys: HashKeys, five_tuple: &FiveTuple) -> HashedEnds
        requires { IsHashed keys self.now }
        ensures { result ≡ hashed_ends keys five_tuple.now }
    {
        if self.five_tuple == *five_tuple {
            return *self;
        }
        HashedEnds::new(keys, five_tuple)
    }

    /// Replaces the five-tuple and its hash. If it is the same one, the hash isn't computed again.
    #[inline(always)]
    fn change_to(&mut self, keys: HashKeys, five_tuple: &FiveTuple)
        requires { IsHashed keys self.old }
        ensures { self.new ≡ hashed_ends keys five_tuple.now }
    {
        if self.five_tuple != *five_tuple {
            *self = HashedEnds::new(keys, five_tuple);
        }
    }
}

/// A table by five-tuple, least recently used last. In a contract its value has the entries without
/// their hashes, and the keys.
#[derive(Drop)]
pub(crate) struct ByFiveTuple<V> {
    keys: HashKeys,
    // The five-tuple that was looked up last. A packet's is looked up several times.
    latest: HashedEnds,
    table: LruCache<HashedEnds, V>,
}

impl<V> Model for ByFiveTuple<V> {
    ghost use Rattle.connections.specs.ByFiveTuple.{keyed_table, unhashed, AreHashed, IsHashed, KeyedTable};

    ghost Value = { KeyedTable V };

    ghost view = { λ b. keyed_table b.keys (unhashed b.table.entries) b.table.cap };

    ghost invariant = { λ b. AreHashed b.keys b.table.entries × IsHashed b.keys b.latest };
}

impl<V> ByFiveTuple<V> {
    ghost use Rattle.std.specs.Prelude.{◌-◌, ◌^◌, ◌<◌, [], length, take, slice_get, is_some, option_map, option_copied, IfOk, OnOk, OnErr};
    ghost use Rattle.std.specs.Borrow.{sem};
    ghost use Rattle.std.specs.Map.{lookup, remove_entry};
    ghost use Rattle.std.specs.Map.Iter.{deref_pair};
    ghost use Rattle.std.specs.Option.{option_copied_mut};
    ghost use Rattle.lru.specs.LruCache.{last_entry, lru_cache, promoted, put_entries};
    ghost use Rattle.connections.specs.ByFiveTuple.{keyed_table};
    ghost use Rattle.connections.specs.FiveTuple.{is_five_tuple};
    ghost use Rattle.connections.specs.HashKeys.{hash_keys_of};
    ghost use Rattle.connections.specs.Lends.{lends_value};

    /// Returns an empty table without a limit but memory. `keys` keys its hashes.
    pub(crate) fn new(alloc: Global, keys: RandomState) -> Result<ByFiveTuple<V>, AllocError>
        ensures { IfOk result
            (λ table. table ≡ keyed_table (hash_keys_of keys) [] (2 ^ 64 - 1)) }
    {
        // (a placeholder until the first lookup)
        let nobody = End {
            address: IpAddr::V4(Ipv4Addr::UNSPECIFIED),
            port: 0,
        };
        let five_tuple = FiveTuple::between(0, Protocol::Tcp, nobody, nobody);
        let keys = HashKeys::of(&keys);
        Ok(ByFiveTuple {
            keys,
            latest: HashedEnds::new(keys, &five_tuple),
            table: LruCache::unbounded(alloc)?,
        })
    }

    /// Returns the number of entries.
    pub(crate) fn len(&self) -> usize
        ensures len { result ≡ length self.now.entries }
        ensures fits { result < 2 ^ 63 }
    {
        self.table.len()
    }

    /// Returns the value of a five-tuple. The order of use doesn't change.
    pub(crate) fn peek(&self, five_tuple: &FiveTuple) -> Option<&V>
        ensures { option_copied result ≡ lookup (is_five_tuple five_tuple.now) self.now.entries }
    {
        let ends = self.latest.known(self.keys, five_tuple);
        self.table.peek(&ends)
    }

    /// Returns whether a five-tuple has a value.
    pub(crate) fn contains(&self, five_tuple: &FiveTuple) -> bool
        ensures { result ≡ is_some (lookup (is_five_tuple five_tuple.now) self.now.entries) }
    {
        let ends = self.latest.known(self.keys, five_tuple);
        self.table.contains(&ends)
    }

    /// Returns the value of a five-tuple for writing. The order of use doesn't change.
    pub(crate) fn peek_mut(&mut self, five_tuple: &FiveTuple) -> Option<&mut V>
        ensures* writes_back { sem 𝓛
            (lends_value V.row self.entry five_tuple.now self.old.entries result) }
        ensures value { option_copied_mut result
            ≡ lookup (is_five_tuple five_tuple.now) self.old.entries }
    {
        self.latest.change_to(self.keys, five_tuple);
        // (a copy, so that only the table is borrowed)
        let ends = self.latest;
        let value = self.table.peek_mut(&ends)?;
        Some(value)
    }

    /// Returns the value of a five-tuple for writing, and makes it the most recently used.
    pub(crate) fn get_mut(&mut self, five_tuple: &FiveTuple) -> Option<&mut V>
        ensures* writes_back { sem 𝓛 (lends_value V.row self.entry five_tuple.now
            (promoted (is_five_tuple five_tuple.now) self.old.entries) result) }
        ensures value { option_copied_mut result
            ≡ lookup (is_five_tuple five_tuple.now) self.old.entries }
    {
        self.latest.change_to(self.keys, five_tuple);
        let ends = self.latest;
        let value = self.table.get_mut(&ends)?;
        Some(value)
    }

    /// Makes a five-tuple the most recently used.
    pub(crate) fn promote(&mut self, five_tuple: &FiveTuple)
        ensures entries { self.new ≡ record self.old
            { entries = promoted (is_five_tuple five_tuple.now) self.old.entries } }
    {
        self.latest.change_to(self.keys, five_tuple);
        self.table.promote(&self.latest);
    }

    /// Returns the most recently used entry.
    pub(crate) fn peek_mru(&self) -> Option<(&FiveTuple, &V)>
        ensures { option_map deref_pair result ≡ slice_get self.now.entries 0 }
    {
        let (ends, value) = self.table.peek_mru()?;
        Some((&ends.five_tuple, value))
    }

    /// Returns the least recently used entry.
    pub(crate) fn peek_lru(&self) -> Option<(&FiveTuple, &V)>
        ensures { option_map deref_pair result ≡ last_entry self.now.entries }
    {
        let (ends, value) = self.table.peek_lru()?;
        Some((&ends.five_tuple, value))
    }

    /// Removes a five-tuple and returns its value.
    pub(crate) fn pop(&mut self, five_tuple: &FiveTuple) -> Option<V>
        ensures value { result ≡ lookup (is_five_tuple five_tuple.now) self.old.entries }
        ensures entries { self.new ≡ record self.old
            { entries = remove_entry (is_five_tuple five_tuple.now) self.old.entries } }
    {
        self.latest.change_to(self.keys, five_tuple);
        self.table.pop(&self.latest)
    }

    /// Removes the least recently used entry and returns it.
    pub(crate) fn pop_lru(&mut self) -> Option<(FiveTuple, V)>
        ensures value { result ≡ last_entry self.old.entries }
        ensures entries { self.new ≡ record self.old
            { entries = take (length self.old.entries - 1) self.old.entries } }
    {
        let (ends, value) = self.table.pop_lru()?;
        Some((ends.five_tuple, value))
    }

    /// Sets the value of a five-tuple, which becomes the most recently used.
    pub(crate) fn put(&mut self, five_tuple: FiveTuple, value: V) -> Result<(), AllocError>
    where
        V: Drop,
        ensures entries { OnOk result (self.new ≡ record self.old {
          entries = put_entries is_five_tuple
              (lru_cache self.old.entries self.old.cap) five_tuple value;
        }) }
        ensures err { OnErr result (self.new ≡ self.old) }
    {
        self.latest.change_to(self.keys, &five_tuple);
        self.table.put(self.latest, value)?;
        Ok(())
    }
}
