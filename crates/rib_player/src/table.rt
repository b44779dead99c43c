//! The routing tables of all peers, which the player changes and lends for look-ups. Read [`Table`]
//! first, then `stores.rt`.

ghost use Rattle.std.specs.Prelude.{◌≡◌, ◌<◌, ◌≤◌, cond, Some, true, false, not, slice_get, Option, None, if◌then◌else◌, map, IfSome, IfNone, IfOk, OnOk, OnErr, take, vec_capacity, option_map, option_copied};
ghost use Rattle.std.specs.Ordering.{eq_by_cmp};
ghost use Rattle.std.specs.FinMap as finite;
ghost use Rattle.std.specs.FinSet as set;
ghost use Rattle.ip_prefix.specs.Network.{Network};
ghost use Rattle.rib_player.specs.declared.pair.Pair.{Pair};
ghost use Rattle.mrt_events.specs.declared.peer.Peer.{Peer};
ghost use Rattle.mrt_events.specs.Event.{peer_cmp};
ghost use Rattle.rib_player.specs.History.{pair_of};
ghost use Rattle.prefix_store.specs.Stored.{put, saturated_count};
ghost use Rattle.rib_player.specs.Tables.{pointed_route, peer_routes};
ghost use Rattle.rib_player.specs.StoresByPeer.{stores_of};
ghost use Rattle.rib_player.specs.Lookups.{IsBest, counted_peers, pointed_routes, routes_above, routed_above, value_of};
ghost use Rattle.rib_player.specs.Representation.{routed_stores, peer_count};

use crate::numbered_peer::NO_NUMBER;
use crate::pair::Pair;
use crate::stores::Stores;
use ip_prefix::{Addr, Prefix};
use mrt_events::{Peer, Route};
use prefix_store::PrefixStore;
use std::alloc::{AllocError, Global};
use std::collections::BTreeMap;
use std::marker::Model;
use std::ops::Bound;
use std::rc::Rc;

/// The smallest number of peers with a key (a prefix with memory for a route) for which
/// [`Table::routed_peers_if_few`] returns a list. With one peer less it returns `None`.
const LEAST_PEERS: usize = 64;

/// The smallest ratio of the peers with a key (a prefix with memory for a route) to those with a
/// route for which [`Table::routed_peers_if_few`] returns a list. If one more peer has a route, it
/// returns `None`.
const FEW_OF: usize = 4;

/// A routing table for each peer: at most one route for each pair of a peer and a prefix. A pair is
/// a key if the table has memory for its route: each pair with a route is one, and so are pairs
/// without a route that undo or redo may give one. The prefixes and routes of each peer that has a
/// key are in a store of its own, of type `S`.
#[derive(Drop)]
pub struct Table<S: PrefixStore<Rc<Route>>> {
    alloc: Global,
    /// The stores of the peers that have a key.
    pub(crate) stores: Stores<S>,
    /// The number of nodes visited by prefetches, modulo 2^64. Nobody reads it; without it a
    /// compiler would remove the prefetches.
    visited: u64,
}

impl<S: PrefixStore<Rc<Route>>> Model for Table<S> {
    ghost use Rattle.rib_player.specs.Tables.{Contents, keys_in, routes_in};
    ghost use Rattle.rib_player.specs.StoresByPeer.{stores_in};
    ghost use Rattle.rib_player.specs.Noted.{routed_marks};
    ghost use Rattle.rib_player.specs.Representation.{coded_contents, AreConsistentStores};

    ghost Value = { Contents };

    ghost coded = { coded_contents };

    ghost view = { λ a. record {
      keys = keys_in S.keys (stores_in a.stores);
      routes = routes_in S.routes (stores_in a.stores);
    } };

    ghost invariant = { λ a. AreConsistentStores S.keys S.routes (stores_in a.stores)
        (routed_marks a.stores) };
}

impl<S: PrefixStore<Rc<Route>>> Table<S> {
    /// Returns a table without keys and routes, without allocating.
    pub(crate) fn new(alloc: Global) -> Self
        ensures { result ≡ record { keys = set.empty; routes = finite.empty } }
    {
        Table {
            alloc,
            stores: Stores::new(alloc),
            visited: 0,
        }
    }

    /// Adds `visited`, the number of nodes that a prefetch visited, to a count that nobody reads,
    /// so that a compiler can't remove the prefetch. The count wraps around. Keys and routes stay.
    pub(crate) fn add_prefetched_nodes(&mut self, visited: u64)
        ensures { self.new ≡ self.old }
    {
        self.visited = self.visited.wrapping_add(visited);
    }

    /// Shrinks the capacity of the lists of stores and peers, each if
    /// [`shrink_if_oversized`](crate::spare_capacity::shrink_if_oversized) finds it too large for
    /// its elements. Keys and routes stay.
    pub(crate) fn shrink_if_oversized(&mut self)
        ensures { self.new ≡ self.old }
    {
        self.stores.shrink_if_oversized();
    }

    /// Swaps the table's route of `pair`, a peer and a prefix, with `route`; either may be `None`.
    /// Requires that the pair is a key (has memory for a route). `hint` may be the index of the
    /// peer's store, and is tried first; a wrong one, such as [`NO_NUMBER`], takes only time.
    /// Allocates no memory.
    pub(crate) fn exchange(&mut self, pair: &Pair, hint: usize, route: &mut Option<Rc<Route>>)
        requires { set.contains self.old.keys pair.now ≡ true }
        ensures keys { self.new.keys ≡ self.old.keys }
        ensures routes { self.new.routes ≡ put self.old.routes pair.now (pointed_route route.old) }
        ensures taken_out { pointed_route route.new ≡ finite.get self.old.routes pair.now }
    {
        let mut number = hint;
        let Some(store) = self.stores.get_mut(&mut number, &pair.peer) else {
            unreachable!();
        };
        store.exchange(&pair.prefix, route);
        let count = store.route_count();
        self.stores.note_route_count(number, count);
    }

    /// Swaps the table's route of `pair`, a peer and a prefix, with `route`, either of which may be
    /// `None`, and makes the pair a key, which has memory for a route. Returns `true` if it wasn't
    /// a key before, `false` if it was. `hint` may be the index of the peer's store, and is tried
    /// first; a wrong one, such as [`NO_NUMBER`], takes only time. Fails if memory allocation
    /// fails; table and `route` are unchanged then.
    pub(crate) fn put(
        &mut self,
        pair: &Pair,
        hint: usize,
        route: &mut Option<Rc<Route>>,
    ) -> Result<bool, AllocError>
        ensures keys { OnOk result (self.new.keys ≡ set.insert self.old.keys pair.now) }
        ensures made { IfOk result (λ made. made ≡ not (set.contains self.old.keys pair.now)) }
        ensures routes { OnOk result
            (self.new.routes ≡ put self.old.routes pair.now (pointed_route route.old)) }
        ensures taken_out { OnOk result (pointed_route route.new
            ≡ finite.get self.old.routes pair.now) }
        ensures refused { OnErr result (self.new.keys ≡ self.old.keys) }
        ensures held { OnErr result (self.new.routes ≡ self.old.routes) }
        ensures kept { OnErr result (route.new ≡ route.old) }
    {
        // If the new store of a peer can't be inserted, it is dropped with its one key.
        let mut number = hint;
        if let Some(store) = self.stores.get_mut(&mut number, &pair.peer) {
            let made = store.put(&pair.prefix, route);
            let count = store.route_count();
            self.stores.note_route_count(number, count);
            return made;
        }
        let mut store = S::new(self.alloc);
        store.ensure(pair.prefix)?;
        self.stores.insert(pair.peer, store)?;
        self.exchange(pair, NO_NUMBER, route);
        Ok(true)
    }

    /// Removes `pair`, a peer and a prefix, from the keys of the table, the pairs with memory for a
    /// route, and frees that memory. Requires that `pair` is a key without a route. If it is the
    /// peer's last key, drops the peer's store.
    pub(crate) fn discard(&mut self, pair: &Pair)
        requires key { set.contains self.old.keys pair.now ≡ true }
        requires free { finite.get self.old.routes pair.now ≡ None }
        ensures keys { self.new.keys ≡ set.remove self.old.keys pair.now }
        ensures routes { self.new.routes ≡ self.old.routes }
    {
        let mut number = NO_NUMBER;
        let Some(store) = self.stores.get_mut(&mut number, &pair.peer) else {
            unreachable!();
        };
        store.discard(&pair.prefix);
        if store.key_count() == 0 {
            self.stores.remove(&pair.peer);
        }
    }

    /// Moves all routes of `peer` out of the table into `taken`, in ascending order of their
    /// prefixes, in place of its elements; leaves it empty if the peer has no route. The prefixes
    /// stay keys, which keep memory for a route. Requires that `taken` has capacity for all of the
    /// routes.
    pub(crate) fn drain_routes(&mut self, peer: &Peer, taken: &mut Vec<Rc<Route>>)
        requires { finite.len (peer_routes self.old.routes peer.now) ≤ vec_capacity taken.old }
        ensures keys { self.new.keys ≡ self.old.keys }
        ensures routes { (q : Pair) → finite.get self.new.routes q
            ≡ cond (eq_by_cmp peer_cmp q.peer peer.now) None (finite.get self.old.routes q) }
        ensures taken { map value_of taken.new.items
            ≡ finite.values (peer_routes self.old.routes peer.now) }
    {
        let mut number = NO_NUMBER;
        let Some(store) = self.stores.get_mut(&mut number, peer) else {
            taken.clear();
            return;
        };
        store.drain_routes(taken);
        self.stores.set_routed(number, false);
    }

    /// Returns the route of the peer to exactly this prefix, or `None` if it has none. Routes to
    /// shorter prefixes that contain it aren't looked at; for those, see [`Table::longest`].
    pub fn get(&self, peer: &Peer, prefix: &Prefix) -> Option<&Rc<Route>>
        ensures { option_map (λ route. route.now.value) result ≡
            finite.get self.now.routes (pair_of peer.now prefix.now) }
    {
        self.find_route(NO_NUMBER, peer, prefix)
    }

    /// Returns the route of the peer to exactly this prefix, or `None` if it has none. `hint` may
    /// be the index of the peer's store, and is tried first; a wrong one, such as [`NO_NUMBER`],
    /// takes only time.
    #[inline]
    pub(crate) fn find_route(&self, hint: usize, peer: &Peer, prefix: &Prefix) -> Option<&Rc<Route>>
        ensures { option_map (λ route. route.now.value) result ≡
            finite.get self.now.routes (pair_of peer.now prefix.now) }
    {
        self.find_store(hint, peer)?.get(prefix)
    }

    /// Returns the peer's route to the longest prefix that contains `addr`, with that prefix, or
    /// `None` if the peer has no route to a prefix that contains it. A router that had this peer's
    /// routes alone would forward to `addr` by this one (RFC 1812, section 5.2.4.3).
    pub fn longest(&self, peer: &Peer, addr: &Addr) -> Option<(Prefix, &Rc<Route>)>
        ensures { IsBest self.now.routes peer.now addr.now
            (option_map (λ found. (found.0, found.1.now.value)) result) }
    {
        self.store(peer)?.longest(addr)
    }

    /// Returns the peer's route to the least prefix that is greater than `prefix`, or to the least
    /// of all if `prefix` is `None`, with that prefix. Returns `None` if there is no such route.
    /// `prefix` needn't have a route itself. A walk over all routes of the peer gives each call the
    /// prefix that the call before returned.
    pub fn after(&self, peer: &Peer, prefix: Option<&Prefix>) -> Option<(Prefix, &Rc<Route>)>
        ensures { option_map (λ found. (found.0, found.1.now.value)) result ≡
            slice_get (routes_above self.now.routes peer.now (option_copied prefix.entry)) 0 }
    {
        self.store(peer)?.after(prefix)
    }

    /// Replaces the elements of `found` by the peer's routes to the next prefixes greater than
    /// `prefix`, or to its first prefixes if that is `None`. Each route is with its prefix, in
    /// ascending order of prefixes. There are as many as `found` has capacity for, or fewer if the
    /// peer has no more; none if the capacity is 0. The capacity stays, and no memory is allocated.
    /// A walk over all routes needs fewer calls of this than of [`Table::after`].
    pub fn next_routes<'a>(
        &'a self,
        peer: &Peer,
        prefix: Option<&Prefix>,
        found: &mut Vec<(Prefix, &'a Rc<Route>)>,
    )
        ensures found { pointed_routes found.new.items ≡ take (vec_capacity found.old)
            (routes_above self.now.routes peer.now (option_copied prefix.entry)) }
        ensures room { vec_capacity found.new ≡ vec_capacity found.old }
    {
        match self.store(peer) {
            Some(store) => store.next_routes(prefix, found),
            None => found.clear(),
        }
    }

    /// Returns the least peer that has a route and is greater than `peer`, or the least that has
    /// one if `peer` is `None`, and the number of its routes (`u64::MAX` if that is larger).
    /// Returns `None` if there is no such peer. A walk over all peers gives each call the peer that
    /// the call before returned.
    pub fn peer_after(&self, peer: Option<&Peer>) -> Option<(Peer, u64)>
        ensures { result ≡
            option_map (λ p. (p, saturated_count (finite.len (peer_routes self.now.routes p))))
            (slice_get (routed_above self.now.routes (option_copied peer.entry)) 0) }
    {
        let low = match peer {
            Some(peer) => Bound::Excluded(*peer),
            None => Bound::Unbounded,
        };
        let numbers = self.stores.order.range((low, Bound::Unbounded));
        'numbers: for (peer, number) in numbers {
            if let Some(store) = self.stores.at(*number) {
                let count = store.route_count();
                if count > 0 {
                    return Some((*peer, count));
                }
            }
        }
        None
    }

    /// Returns the peers that have a route, in ascending order, each with the number of its routes
    /// (`u64::MAX` if that is larger), if such a list is worth its memory. Returns `Ok(None)` if it
    /// isn't: if fewer than 64 peers have a key (a prefix with memory for a route, with or without
    /// one), or if more than a quarter of these have a route. A walk by [`Table::peer_after`],
    /// which needs no memory, then passes over few peers without a route. Fails if memory
    /// allocation for the list fails.
    pub fn routed_peers_if_few(&self) -> Result<Option<BTreeMap<Peer, u64>>, AllocError>
        ensures { IfOk result (λ few. IfSome few (λ peers.
            peers.entries ≡ counted_peers self.now.routes)) }
    {
        let numbers = self.stores.routed.numbers();
        let all = self.stores.held.len();
        if all < LEAST_PEERS || numbers.len() > all / FEW_OF {
            return Ok(None);
        }
        let mut found = BTreeMap::new(self.alloc);
        'numbers: for number in numbers {
            if let Some(named) = self.stores.peer_and_store_at(*number) {
                let count = named.1.route_count();
                if count > 0 {
                    found.insert(*named.0, count)?;
                }
            }
        }
        Ok(Some(found))
    }

    /// Returns the store with the peer's prefixes and routes, for look-ups in it, or `None` if the
    /// peer has no key. A key is a prefix for which the table has memory for a route, even if it has
    /// no route now; so a store that is returned may have no route.
    #[inline]
    pub fn store(&self, peer: &Peer) -> Option<&S>
        ensures keys { IfSome result (λ store. (n : Network) →
            set.contains (S.keys store.now) n ≡ set.contains self.now.keys (pair_of peer.now n)) }
        ensures routes { IfSome result (λ store. (n : Network) →
            option_map value_of (finite.get (S.routes store.now) n)
            ≡ finite.get self.now.routes (pair_of peer.now n)) }
        ensures some { IfSome result (λ store. 0 < set.len (S.keys store.now)) }
        ensures none { IfNone result ((n : Network) →
            set.contains self.now.keys (pair_of peer.now n) ≡ false) }
        ensures absent { IfNone result ((n : Network) →
            finite.get self.now.routes (pair_of peer.now n) ≡ None) }
    {
        self.find_store(NO_NUMBER, peer)
    }

    /// Returns the store with the peer's prefixes and routes, or `None` if the peer has no key: no
    /// prefix with memory for a route, with or without one. `hint` may be the store's index, and is
    /// tried first; a wrong one, such as [`NO_NUMBER`], takes only time.
    #[inline]
    fn find_store(&self, hint: usize, peer: &Peer) -> Option<&S>
        ensures keys { IfSome result (λ store. (n : Network) →
            set.contains (S.keys store.now) n ≡ set.contains self.now.keys (pair_of peer.now n)) }
        ensures routes { IfSome result (λ store. (n : Network) →
            option_map value_of (finite.get (S.routes store.now) n)
            ≡ finite.get self.now.routes (pair_of peer.now n)) }
        ensures some { IfSome result (λ store. 0 < set.len (S.keys store.now)) }
        ensures none { IfNone result ((n : Network) →
            set.contains self.now.keys (pair_of peer.now n) ≡ false) }
        ensures absent { IfNone result ((n : Network) →
            finite.get self.now.routes (pair_of peer.now n) ≡ None) }
    {
        self.stores.get(hint, peer)
    }
}
