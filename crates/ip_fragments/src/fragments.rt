//! Datagrams in reassembly.
ghost use Rattle.std.specs.Prelude.{◌≡◌, ◌≤◌, ◌<◌, ◌+◌, ◌-◌, ◌*◌, ◌^◌, ◌==◌, [], ◌∷◌, nat_lt, length, is_some, true, false, Some, None, IfOk, IfSome, OnErr, OnOk};
ghost use Rattle.ip_fragments.specs.Waiting.{begun, counted, is_other_end, most_of as most_of_fragment, received, weight_of, Receives, Waiting};
ghost use Rattle.ip_fragments.specs.Table.{at, forgetting, is_late as is_late_datagram, its, kept, limit_of, others, ready, weight, with_other, without_late, Adds, Becomes, BeginsAt, LeavesOut, ReceivesAt};

use crate::key::Key;
use crate::outcome::FragmentOutcome;
use crate::waiting::{Waiting, most_of, refused_alone};
use capture::{Address, IpFragment};
use lru::LruCache;
use std::alloc::{AllocError, Global};
use std::hash::RandomState;
use std::marker::Model;

/// How long a datagram of IPv4 waits for fragments after its first, in nanoseconds of the capture's
/// clock: 30 seconds, as in Linux.
pub const WAIT_LIMIT: u64 = 30_000_000_000;

/// How long a datagram of IPv6 waits: 60 seconds (RFC 8200, section 4.5).
pub const WAIT_LIMIT_V6: u64 = 60_000_000_000;

/// The most memory for all datagrams in reassembly: 32 MiB.
pub const HELD_LIMIT: usize = 33_554_432;

/// The datagrams in reassembly.
#[derive(Drop)]
pub struct FragmentTable {
    alloc: Global,
    // The datagram whose first fragment arrived last comes first.
    waiting: LruCache<Key, Waiting, RandomState>,
    held: usize,
    late: u64,
    evicted: u64,
}

impl Model for FragmentTable {
    ghost use Rattle.std.specs.Prelude.{◌≡◌, ◌≤◌, ◌-◌, ◌^◌};
    ghost use Rattle.ip_fragments.specs.Table.{weight, Reassembly};

    ghost Value = { Reassembly };

    ghost view = { λ f. record {
      waiting = f.waiting.entries;
      late = f.late;
      evicted = f.evicted;
    } };

    ghost invariant = { λ f. (f.waiting.cap ≡ 2 ^ 64 - 1) × (f.held ≡ weight f.waiting.entries)
        × (f.held ≤ 33554432) };
}

/// What a fragment did to a datagram in the table: the outcome, and how much more memory the
/// datagram counts.
#[derive(Drop)]
struct Received {
    outcome: FragmentOutcome,
    added: usize,
}

/// Adds a fragment to its datagram. `None` if that isn't in the table.
#[tactic(auto, using(crate::proofs::TableLemmas::weight_at))]
fn receive_at(
    table: &mut LruCache<Key, Waiting, RandomState>,
    alloc: Global,
    key: &Key,
    fragment: &IpFragment<'_>,
) -> Result<Option<Received>, AllocError>
    requires short { length fragment.now.payload.now < 2 ^ 16 }
    requires light { weight table.old.entries ≤ 33554432 }
    ensures receives { IfOk result (λ received. ReceivesAt key.now fragment.now received
        table.old.entries table.new.entries) }
    ensures err { OnErr result (table.new ≡ table.old) }
    ensures agrees { OnErr result ((v : Waiting) × (at key.now table.old.entries ≡ Some v)
        × (is_other_end fragment.now v ≡ false)) }
    ensures cap { table.new.cap ≡ table.old.cap }
{
    let Some(waiting) = table.peek_mut(key) else {
        return Ok(None);
    };
    let before = waiting.weight();
    let outcome = waiting.receive(alloc, fragment)?;
    let added = waiting.weight() - before;
    Ok(Some(Received { outcome, added }))
}

/// Returns how long the datagrams with this source wait.
fn limit_from(source: Address) -> u64
    ensures { result ≡ limit_of source }
{
    match source {
        Address::V4(_) => WAIT_LIMIT,
        Address::V6(_, _) => WAIT_LIMIT_V6,
    }
}

/// Returns whether a fragment with this source arrives too late for its datagram.
fn is_late(time: u64, source: Address, waiting: &Waiting) -> bool
    ensures { result ≡ is_late_datagram time source waiting.now }
{
    time.saturating_sub(waiting.since()) > limit_from(source)
}

/// The memory of the datagrams in the table, and how many were dropped.
#[derive(Clone, Copy)]
struct Left {
    held: usize,
    evicted: u64,
}

/// Returns whether datagrams that hold so many bytes leave no room for `more`.
fn is_over(more: usize, held: usize) -> bool
    requires { more + held < 2 ^ 63 }
    ensures is { result ≡ nat_lt 33554432 (held + more) }
    ensures room { result ≡ false → held + more ≤ 33554432 }
{
    held + more > HELD_LIMIT
}

/// Returns one more than a count.
fn count_one(count: u64) -> u64
    ensures { result ≡ counted count 1 }
{
    count.saturating_add(1)
}

/// Drops the oldest datagrams until there is room for `more` bytes.
#[tactic(auto, using(crate::proofs::TableLemmas::weight_front))]
fn forget_over(waiting: &mut LruCache<Key, Waiting, RandomState>, before: Left, more: usize) -> Left
    requires few { more ≤ 200000 }
    requires held { before.held ≡ weight waiting.old.entries }
    requires within { before.held ≤ 33554432 }
    ensures kept { waiting.new.entries ≡ kept more waiting.old.entries }
    ensures evicted { result.evicted ≡ counted before.evicted
        (length waiting.old.entries - length (kept more waiting.old.entries)) }
    ensures held { result.held ≡ weight waiting.new.entries }
    ensures room { result.held + more ≤ 33554432 }
    ensures cap { waiting.new.cap ≡ waiting.old.cap }
{
    let (mut sum, mut evicted) = (before.held, before.evicted);
    while let Some((_, oldest)) = waiting.peek_lru() {
        if !is_over(more, sum) {
            break;
        }
        sum -= oldest.weight();
        evicted = count_one(evicted);
        waiting.pop_lru();
    }
    Left { held: sum, evicted }
}

/// Adds a datagram at the front, under a key that the table doesn't have.
fn put_in_front(
    table: &mut LruCache<Key, Waiting, RandomState>,
    key: Key,
    waiting: Waiting,
) -> Result<(), AllocError>
    requires unbounded { table.old.cap ≡ 2 ^ 64 - 1 }
    requires missing { at key table.old.entries ≡ None }
    ensures put { OnOk result (table.new.entries ≡ (key, waiting) ∷ table.old.entries) }
    ensures err { OnErr result (table.new ≡ table.old) }
    ensures cap { table.new.cap ≡ table.old.cap }
{
    prove!(table.len() < usize::MAX);
    table.put(key, waiting)?;
    Ok(())
}

impl FragmentTable {
    /// Returns an empty table. `keys` keys its hashes, so that nobody without the keys can choose
    /// datagrams whose hashes collide.
    pub fn new(alloc: Global, keys: RandomState) -> Result<FragmentTable, AllocError>
        ensures { IfOk result (λ f. f ≡ record { waiting = []; late = 0; evicted = 0 }) }
    {
        Ok(FragmentTable {
            alloc,
            waiting: LruCache::unbounded_with_hasher(alloc, keys)?,
            held: 0,
            late: 0,
            evicted: 0,
        })
    }

    /// Returns the memory of the datagrams in reassembly, in bytes: twice the bytes that arrived,
    /// 128 for each run of bytes without a gap, and 640 for each datagram. At most [`HELD_LIMIT`].
    pub fn held(&self) -> usize
        ensures is { result ≡ weight self.now.waiting }
        ensures within { result ≤ 33554432 }
    {
        self.held
    }

    /// Returns the number of datagrams in reassembly.
    pub fn len(&self) -> usize
        ensures { result ≡ length self.now.waiting }
    {
        self.waiting.len()
    }

    /// Returns whether no datagram is in reassembly.
    pub fn is_empty(&self) -> bool
        ensures { result ≡ (length self.now.waiting == 0) }
    {
        self.waiting.is_empty()
    }

    /// Returns how many datagrams were dropped because a fragment came later than [`WAIT_LIMIT`] or
    /// [`WAIT_LIMIT_V6`].
    pub fn late(&self) -> u64
        ensures { result ≡ self.now.late }
    {
        self.late
    }

    /// Returns how many datagrams were dropped because all exceeded [`HELD_LIMIT`].
    pub fn evicted(&self) -> u64
        ensures { result ≡ self.now.evicted }
    {
        self.evicted
    }

    /// Drops the datagram of a key.
    #[tactic(auto, using(crate::proofs::TableLemmas::missed, crate::proofs::TableLemmas::weight_others, crate::proofs::TableLemmas::weight_at))]
    fn drop_at(&mut self, key: &Key)
        ensures { self.new ≡ record self.old { waiting = others key.now self.old.waiting } }
    {
        if let Some(waiting) = self.waiting.pop(key) {
            self.held -= waiting.weight();
        }
    }

    /// Drops the datagram of a fragment, if the fragment arrives too late for it.
    fn drop_late(&mut self, time: u64, key: &Key, fragment: &IpFragment<'_>)
        ensures { self.new ≡ without_late time key.now fragment.now.source self.old }
    {
        let is_late = match self.waiting.peek(key) {
            Some(waiting) => is_late(time, fragment.source, waiting),
            None => false,
        };
        if is_late {
            self.drop_at(key);
            self.late = count_one(self.late);
        }
    }

    /// Drops the oldest datagrams until there is room for `more` bytes.
    fn forget(&mut self, more: usize)
        requires { more ≤ 200000 }
        ensures forgets { self.new ≡ forgetting more self.old }
        ensures room { weight self.new.waiting + more ≤ 33554432 }
    {
        let before = Left {
            held: self.held,
            evicted: self.evicted,
        };
        let left = forget_over(&mut self.waiting, before, more);
        self.held = left.held;
        self.evicted = left.evicted;
    }

    /// Adds the first fragment of a datagram.
    fn begin(
        &mut self,
        time: u64,
        key: Key,
        fragment: &IpFragment<'_>,
    ) -> Result<FragmentOutcome, AllocError>
        requires short { length fragment.now.payload.now < 2 ^ 16 }
        requires missing { at key self.old.waiting ≡ None }
        requires room { weight self.old.waiting + most_of_fragment fragment.now ≤ 33554432 }
        ensures begins { IfOk result
            (λ o. BeginsAt key fragment.now o self.old.waiting self.new.waiting
            (received fragment.now (begun time))) }
        ensures late { self.new.late ≡ self.old.late }
        ensures evicted { self.new.evicted ≡ self.old.evicted }
        ensures err { OnErr result (self.new ≡ self.old) }
    {
        let mut waiting = Waiting::new(self.alloc, time);
        let outcome = waiting.receive(self.alloc, fragment)?;
        if !outcome.is_waiting() {
            return Ok(outcome);
        }
        let weight = waiting.weight();
        put_in_front(&mut self.waiting, key, waiting)?;
        self.held += weight;
        Ok(FragmentOutcome::Waits)
    }

    /// Adds a fragment to its datagram. There is room for its bytes.
    fn put(
        &mut self,
        time: u64,
        key: Key,
        fragment: &IpFragment<'_>,
    ) -> Result<FragmentOutcome, AllocError>
        requires short { length fragment.now.payload.now < 2 ^ 16 }
        requires room { weight self.old.waiting + most_of_fragment fragment.now ≤ 33554432 }
        ensures becomes { IfOk result
            (λ o. Becomes time key fragment.now o self.old.waiting self.new.waiting) }
        ensures late { self.new.late ≡ self.old.late }
        ensures evicted { self.new.evicted ≡ self.old.evicted }
        ensures err { OnErr result (self.new ≡ self.old) }
        ensures agrees { OnErr result
            (is_other_end fragment.now (its time key self.old.waiting) ≡ false) }
    {
        let Some(received) = receive_at(&mut self.waiting, self.alloc, &key, fragment)? else {
            return self.begin(time, key, fragment);
        };
        self.held += received.added;
        if !received.outcome.is_waiting() {
            self.drop_at(&key);
        }
        Ok(received.outcome)
    }

    /// Adds a fragment that was captured at `time` in the network of this number to its datagram,
    /// and returns the datagram once it is complete. Fragments of different networks are of
    /// different datagrams. A datagram for which the fragment is too late is dropped first, and then
    /// the oldest ones if there is no room.
    ///
    /// `AllocError` if there is no memory for the fragment. It is left out then, but the datagrams
    /// dropped before stay dropped.
    pub fn add(
        &mut self,
        time: u64,
        network: u64,
        fragment: &IpFragment<'_>,
    ) -> Result<FragmentOutcome, AllocError>
        ensures adds { IfOk result (λ o. Adds time network fragment.now o self.old self.new) }
        ensures err { OnErr result (LeavesOut time network fragment.now self.old self.new) }
    {
        if let Some(refusal) = refused_alone(fragment) {
            return Ok(FragmentOutcome::Refused(refusal));
        }
        let key = Key::of(network, fragment);
        self.drop_late(time, &key, fragment);
        self.forget(most_of(fragment));
        self.put(time, key, fragment)
    }
}
