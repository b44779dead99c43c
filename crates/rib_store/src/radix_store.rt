//! A store of routes by prefix that has a radix tree for each address family. The program `bgpdump`
//! keeps the routes of each peer in one. Read [`RadixStore`] first, then `tree.rt` for the trees.

ghost use mir.Val.{bool_byte};
ghost use Rattle.std.specs.Prelude.{◌≡◌, ℕ, ◌+◌, ◌*◌, ◌≤◌, is_some, option_map, option_copied};
ghost use Rattle.std.specs.FinMap as finite;
ghost use Rattle.std.specs.FinSet as set;
ghost use Rattle.ip_prefix.specs.Network.{bit_count};
ghost use Rattle.prefix_store.specs.Stored.{Keys, saturated_count};
ghost use Rattle.prefix_store.specs.Lookups.{IsLongestMatch};
ghost use Rattle.rib_store.specs.Slots.{route_of_slot};
ghost use Rattle.rib_store.specs.Store.{trees_of, contents_of, AreRadixTrees};
ghost use Rattle.rib_store.specs.Nodes.{AreNodes, AreNodesContaining, IsOrOneMore};

use crate::tree::{DescentPosition, PrefetchDescent, PrefetchDescents, Tree};
use ip_prefix::{Addr, Family, Prefix};
use prefix_store::{GREATEST_COUNT, PrefetchBatch, PrefetchTarget, PrefixStore, V4Prefix};
use std::alloc::{AllocError, Global};
use std::marker::Model;

/// A store of routes by prefix: a path-compressed radix tree for each address family, and counts of
/// the keys (prefixes that the store keeps, with or without a route) and of the routes.
///
/// A look-up of a prefix or an address visits at most 33 nodes for IPv4 and 129 for IPv6. `after`
/// visits the path to its argument and then the path to the next route. `next_routes` begins like
/// `after`, and goes on until the vector that it fills is at its capacity. Both skip subtrees
/// without a route. `key_count` and `route_count` visit no nodes.
#[derive(Drop)]
pub struct RadixStore<R> {
    alloc: Global,
    v4: Tree<V4Prefix, R>,
    v6: Tree<Prefix, R>,
    key_count: u64,
    route_count: u64,
}

impl<R> Model for RadixStore<R> {
    ghost use Rattle.prefix_store.specs.Contents.{Contents, coded_contents};
    ghost use Rattle.rib_store.specs.Store.{trees_of, contents_of, IsConsistent};

    ghost Value = { Contents R };

    ghost coded = { coded_contents R.code };

    ghost view = { λ s. contents_of (trees_of s.v4 s.v6) };

    ghost invariant = { λ s. IsConsistent s.v4 s.v6 s.key_count s.route_count };
}

impl<R: Drop> RadixStore<R> {
    /// Returns the number of nodes of the store's two trees, for IPv4 and IPv6, together, or
    /// `u64::MAX` if there are more; for tests and statistics. There is a node for each key (a
    /// prefix that the store keeps, with or without a route) and for each branch where paths to
    /// keys part, so at most two for each key. Visits all nodes.
    pub fn nodes(&self) -> u64
        ensures nodes { (nodes : Keys) × AreNodes self.now.keys nodes ×
            (result ≡ saturated_count (set.len nodes)) }
        ensures twice { result ≤ 2 * set.len self.now.keys }
    {
        self.v4.count_nodes().saturating_add(self.v6.count_nodes())
    }

    /// Returns the route at the longest prefix that contains `addr`, with that prefix, or `None` if
    /// no prefix with a route contains it. Adds to `met` the number of nodes that the look-up
    /// visits: those whose prefixes contain the address, and at most one more. Requires that `met`
    /// is at most `u32::MAX` less 33 for an IPv4 address, or less 129 for IPv6, so that the sum
    /// doesn't overflow.
    pub fn longest_counting_nodes(&self, addr: &Addr, met: &mut u32) -> Option<(Prefix, &R)>
        requires { met.old + bit_count addr.now.family + 1 ≤ u32.MAX }
        ensures longest { IsLongestMatch self.now.routes addr.now
            (option_map (λ p. (p.0, p.1.now)) result) }
        ensures most { met.new ≤ met.old + bit_count addr.now.family + 1 }
        ensures met { (nodes : Keys) × AreNodesContaining self.now.keys addr.now nodes ×
            IsOrOneMore (met.old + set.len nodes) met.new }
    {
        let key = Prefix::host(*addr);
        match addr.family() {
            Family::V4 => self.v4.longest(&key, met),
            Family::V6 => self.v6.longest(&key, met),
        }
    }

    /// Returns what the store has at exactly `prefix`: `None` if it isn't a key (a prefix that the
    /// store keeps, with or without a route), `Some(None)` if it is a key without a route, and
    /// `Some(Some(route))` if it has one.
    #[inline]
    fn slot(&self, prefix: &Prefix) -> Option<Option<&R>>
        ensures key { is_some result ≡ set.contains self.now.keys prefix.now }
        ensures route { route_of_slot (option_map (λ slot. option_copied slot) result)
            ≡ finite.get self.now.routes prefix.now }
    {
        match prefix.family() {
            Family::V4 => self.v4.slot(prefix),
            Family::V6 => self.v6.slot(prefix),
        }
    }
}

impl<R: Drop> PrefixStore<R> for RadixStore<R> {
    ghost keys = { λ s. s.keys };

    ghost routes = { λ s. s.routes };

    fn new(alloc: Global) -> Self {
        RadixStore {
            alloc,
            v4: Tree::Empty,
            v6: Tree::Empty,
            key_count: 0,
            route_count: 0,
        }
    }

    fn ensure(&mut self, prefix: Prefix) -> Result<bool, AllocError> {
        if self.slot(&prefix).is_some() {
            return Ok(false);
        }
        let mut none = None;
        self.put(&prefix, &mut none)
    }

    fn exchange(&mut self, prefix: &Prefix, route: &mut Option<R>) {
        let brought = route.is_some();
        match prefix.family() {
            Family::V4 => self.v4.exchange(prefix, route),
            Family::V6 => self.v6.exchange(prefix, route),
        }
        let taken_out = route.is_some();
        self.route_count = route_count_after(
            self.route_count,
            brought,
            taken_out,
            &self.v4,
            &self.v6,
        );
    }

    fn put(&mut self, prefix: &Prefix, route: &mut Option<R>) -> Result<bool, AllocError> {
        let brought = route.is_some();
        let made = match prefix.family() {
            Family::V4 => self.v4.put(self.alloc, prefix, route),
            Family::V6 => self.v6.put(self.alloc, prefix, route),
        }?;
        self.key_count = self.key_count.saturating_add(u64::from(made));
        let taken_out = route.is_some();
        self.route_count = route_count_after(
            self.route_count,
            brought,
            taken_out,
            &self.v4,
            &self.v6,
        );
        Ok(made)
    }

    fn discard(&mut self, prefix: &Prefix) {
        match prefix.family() {
            Family::V4 => self.v4.discard(prefix),
            Family::V6 => self.v6.discard(prefix),
        }
        // A count that was saturated is made anew.
        self.key_count = if self.key_count == GREATEST_COUNT {
            self.v4.count_keys().saturating_add(self.v6.count_keys())
        } else {
            self.key_count - 1
        };
    }

    fn has_key(&self, prefix: &Prefix) -> bool {
        self.slot(prefix).is_some()
    }

    fn get(&self, prefix: &Prefix) -> Option<&R> {
        self.slot(prefix)?
    }

    fn longest(&self, addr: &Addr) -> Option<(Prefix, &R)> {
        let mut met = 0;
        self.longest_counting_nodes(addr, &mut met)
    }

    fn after(&self, prefix: Option<&Prefix>) -> Option<(Prefix, &R)> {
        let found = match prefix {
            None => self.v4.first(),
            Some(low) => match low.family() {
                Family::V4 => self.v4.after(low),
                Family::V6 => return self.v6.after(low),
            },
        };
        match found {
            Some(found) => Some(found),
            None => self.v6.first(),
        }
    }

    fn next_routes<'a>(&'a self, prefix: Option<&Prefix>, found: &mut Vec<(Prefix, &'a R)>) {
        found.clear();
        match prefix {
            None => self.v4.fill_with_routes(found),
            Some(low) => match low.family() {
                Family::V4 => self.v4.fill_with_routes_after(low, found),
                Family::V6 => {
                    self.v6.fill_with_routes_after(low, found);
                    return;
                }
            },
        }
        self.v6.fill_with_routes(found);
    }

    fn drain_routes(&mut self, taken: &mut Vec<R>) {
        taken.clear();
        self.v4.drain_routes(taken);
        self.v6.drain_routes(taken);
        self.route_count = 0;
    }

    fn prefetch(batch: &PrefetchBatch<'_, Self>) -> u64 {
        let mut descents = PrefetchDescents {
            first: descent_to(&batch.first),
            second: descent_to(&batch.second),
            third: descent_to(&batch.third),
            fourth: descent_to(&batch.fourth),
            fifth: descent_to(&batch.fifth),
            sixth: descent_to(&batch.sixth),
            seventh: descent_to(&batch.seventh),
            eighth: descent_to(&batch.eighth),
        };
        descents.run()
    }

    fn key_count(&self) -> u64 {
        self.key_count
    }

    fn route_count(&self) -> u64 {
        self.route_count
    }
}

/// Returns a descent to the prefix of `place`: a walk down a tree that only reads nodes, so that
/// they are in the processor's cache for a later look-up. The tree is the one for the prefix's
/// address family in the store of `place`. If `place` is `Unused`, an empty target, the descent is
/// at its end already, and reads nothing.
fn descent_to<'a, R: Drop>(place: &PrefetchTarget<'a, RadixStore<R>>) -> PrefetchDescent<'a, R> {
    let PrefetchTarget::At(store, prefix) = place else {
        return PrefetchDescent::ended();
    };
    let store: &'a RadixStore<R> = *store;
    let root = match prefix.family() {
        Family::V4 => DescentPosition::V4(&store.v4),
        Family::V6 => DescentPosition::V6(&store.v6),
    };
    PrefetchDescent::new(root, prefix)
}

/// Returns the number of routes of a store after a change at one prefix, or `u64::MAX` if there are
/// more. `count` is the number before, or `u64::MAX` if there were more. `brought` is `true` if the
/// prefix has a route now, and `taken_out` if it had one before. `v4` and `v6` are the store's
/// trees after the change; their routes are counted anew if `count` is `u64::MAX` and there is one
/// route less.
fn route_count_after<R: Drop>(
    count: u64,
    brought: bool,
    taken_out: bool,
    v4: &Tree<V4Prefix, R>,
    v6: &Tree<Prefix, R>,
) -> u64
    requires planted { AreRadixTrees (trees_of v4.now v6.now) }
    requires count { (old : ℕ) × (count ≡ saturated_count old) ×
        (finite.len (contents_of (trees_of v4.now v6.now)).routes + bool_byte taken_out
        ≡ old + bool_byte brought) }
    ensures { result ≡ saturated_count (finite.len (contents_of (trees_of v4.now v6.now)).routes) }
{
    if brought == taken_out {
        return count;
    }
    if brought {
        return count.saturating_add(1);
    }
    if count == GREATEST_COUNT {
        return v4.count_routes().saturating_add(v6.count_routes());
    }
    count - 1
}
