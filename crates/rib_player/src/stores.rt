//! The stores of the peers that have a key, which is a prefix with memory for a route; a store has
//! the routes of one peer. Each such peer has a number, by which its store is found; the number may
//! change when another peer's store is removed. `table.rt` keeps its routes here. Read [`Stores`]
//! first.

ghost use Rattle.std.specs.Prelude.{◌≡◌, ◌≤◌, [], Some, None, true, false, IsTrue, IsSome, IfSome, IfOk, slice_get, length, ◌<◌, nat_lt, OnOk, OnErr, vec_len};
ghost use Rattle.std.specs.Option.{option_copied, option_copied_mut, option_map};
ghost use Rattle.std.specs.Borrow.{sem};
ghost use Rattle.std.specs.Map.{lookup};
ghost use Rattle.std.specs.Ordering.{eq_by_cmp};
ghost use Rattle.mrt_events.specs.Event.{peer_cmp};
ghost use Rattle.rib_player.specs.declared.stores.TheConstants.{PLACES};
ghost use Rattle.rib_player.specs.Tables.{store_at};
ghost use Rattle.rib_player.specs.Representation.{IsUpdatedAt};
ghost use Rattle.rib_player.specs.Numbered.{peers_in, AreNumbered};
ghost use Rattle.rib_player.specs.Journal.{sides_of};
ghost use Rattle.rib_player.specs.SparseSet.{choices};
ghost use Rattle.rib_player.specs.Sides.{AreDistinct};
ghost use Rattle.std.proofs.Props.{props};

use crate::entry::Entry;
use crate::numbered_peer::NumberedPeer;
use crate::seen_peers::SeenPeers;
use crate::spare_capacity::shrink_if_oversized;
use crate::sparse_set::SparseSet;
use known_routes::peer_hash;
use mrt_events::{Peer, same_peer};
use std::alloc::{AllocError, Global};
use std::collections::BTreeMap;
use std::rc::Rc;

/// The number of slots for numbers of peers, one for each value of [`slot_of`]. With one peer more
/// than slots, two share a slot, and one of the two is looked up in the ordered map, which takes
/// longer.
const PLACES: usize = 4096;

/// The number of low bits of a 64-bit hash that [`slot_of`] drops. The other 12 select one of the
/// 4,096 slots.
const LOWEST_BITS: u32 = 52;

/// A map from peers to stores of type `S`, each with the routes of one peer. Each peer with a store
/// has a number, the index of its store in a list. A store is found by this number if the caller
/// knows it, else by a hash of the peer, or in an ordered map of the peers.
#[derive(Drop)]
pub(crate) struct Stores<S> {
    alloc: Global,
    /// The number of each peer that has a store, in the order of peers.
    pub(crate) order: BTreeMap<Peer, usize>,
    /// The stores. The index of a store is the number of its peer.
    pub(crate) held: Vec<S>,
    /// The peers with their numbers, as pointers that the entries of steps (the routes that played
    /// events changed) share. The index of a peer is its number.
    pub(crate) names: Vec<Rc<NumberedPeer>>,
    /// The numbers of the stores that have a route. A caller that changes a store's routes has to
    /// call [`Stores::set_routed`] or [`Stores::note_route_count`] then.
    pub(crate) routed: SparseSet,
    /// A small hash table: for each slot ([`slot_of`]), the number that was set last for a peer of
    /// this slot, or 0. It may be another peer's, so a reader checks which peer has it; a peer that
    /// isn't found here is in `order`. Empty until the first store is added.
    places: Vec<u32>,
    // The proof after `by` shows that the claim has at most one proof, as a ghost field must.
    ghost numbered: { AreNumbered held.items (peers_in names.items) order.entries } by { Prim.hlevel props },
    ghost few: { vec_len places ≤ PLACES },
    ghost each: { length (choices routed) ≡ length held.items },
}

/// Returns the index for `peer` in `Stores::places`, a small hash table from peers to the indices
/// of their stores: the highest 12 bits of the peer's hash. Different peers may have the same
/// index.
#[inline]
fn slot_of(peer: &Peer) -> usize {
    (peer_hash(peer) >> LOWEST_BITS) as usize
}

impl<S> Stores<S> {
    ghost use Rattle.rib_player.specs.StoresByPeer.{stores_in};
    ghost use Rattle.rib_player.specs.Noted.{routed_marks};
    ghost use Rattle.rib_player.specs.Lent.{lends_store};

    /// Returns a map without stores, without allocating.
    pub(crate) fn new(alloc: Global) -> Self
        ensures stores { stores_in result ≡ [] }
        ensures routed { routed_marks result ≡ [] }
    {
        Stores {
            alloc,
            order: BTreeMap::new(alloc),
            held: Vec::new(alloc),
            names: Vec::new(alloc),
            routed: SparseSet::new(alloc),
            places: Vec::new(alloc),
        }
    }

    /// Returns `true` if `peer` has a store and `number` is its number (the index of its store),
    /// `false` if it has none or another number. Any `number` may be given.
    #[inline(always)]
    fn has_number(&self, number: usize, peer: &Peer) -> bool
        ensures { IsTrue result →
            lookup (eq_by_cmp peer_cmp peer.now) self.now.order.entries ≡ Some number }
    {
        match self.names.get(number) {
            Some(name) => same_peer(name.peer(), peer),
            None => false,
        }
    }

    /// Returns the number of `peer`, which is the index of its store, or `None` if it has no store.
    /// Looks in `places`, a hash table of numbers, first, then in the ordered map.
    #[inline(never)]
    fn find_number(&self, peer: &Peer) -> Option<usize>
        ensures { result ≡ lookup (eq_by_cmp peer_cmp peer.now) self.now.order.entries }
    {
        if let Some(number) = self.places.get(slot_of(peer)) {
            let number = *number as usize;
            if self.has_number(number, peer) {
                return Some(number);
            }
        }
        self.order.get(peer).copied()
    }

    /// Returns the number of `peer`, which is the index of its store, or `None` if it has no store.
    /// `hint` may be the number, and is tried first; a wrong one, such as
    /// [`NO_NUMBER`](crate::numbered_peer::NO_NUMBER), takes only time.
    #[inline(always)]
    fn find_number_by_hint(&self, hint: usize, peer: &Peer) -> Option<usize>
        ensures { result ≡ lookup (eq_by_cmp peer_cmp peer.now) self.now.order.entries }
    {
        if self.has_number(hint, peer) {
            return Some(hint);
        }
        self.find_number(peer)
    }

    /// Returns a shared pointer to `peer` and its number (the index of its store), or `None` if the
    /// peer has no store. Entries of steps (played events) clone the pointer. `hint` may be the
    /// number, and is tried first; a wrong one takes only time.
    #[inline]
    pub(crate) fn find_numbered_peer(&self, hint: usize, peer: &Peer) -> Option<&Rc<NumberedPeer>>
        ensures { IfSome result (λ shared. shared.now.value ≡ peer.now) }
    {
        self.names.get(self.find_number_by_hint(hint, peer)?)
    }

    /// Returns `true` if the peers of all entries (the routes that an event sets or clears) have
    /// stores and no two entries are of one peer, also if there are no entries; else `false`.
    /// `marks` is scratch memory for the indices of the stores seen; what it held is lost. Fails if
    /// memory allocation fails.
    pub(crate) fn have_distinct_stores(
        &self,
        entries: &[Entry],
        marks: &mut SeenPeers,
    ) -> Result<bool, AllocError>
        ensures { IfOk result (λ are. IsTrue are → AreDistinct (sides_of entries.now)) }
    {
        marks.clear(self.names.len());
        'entries: for entry in entries {
            let peer = entry.shared_peer();
            let Some(number) = self.find_number_by_hint(peer.number_hint(), peer.peer()) else {
                return Ok(false);
            };
            let newly_seen = marks.newly_seen(number)?;
            if !newly_seen {
                return Ok(false);
            }
        }
        Ok(true)
    }

    /// Returns the store whose index is `number`, or `None` if no store has this index.
    #[inline]
    pub(crate) fn at(&self, number: usize) -> Option<&S>
        ensures { option_copied result ≡ slice_get self.now.held.items number }
    {
        self.held.get(number)
    }

    /// Returns the store whose index is `number`, with its peer, or `None` if no store has this
    /// index.
    pub(crate) fn peer_and_store_at(&self, number: usize) -> Option<(&Peer, &S)>
        ensures store { IfSome result (λ found.
            store_at (stores_in self.now) found.0.now ≡ Some found.1.now) }
        ensures peer { (peer : Peer) →
            lookup (eq_by_cmp peer_cmp peer) self.now.order.entries ≡ Some number →
            option_map (λ found. found.0.now) result ≡ Some peer }
    {
        let name = self.names.get(number)?;
        let store = self.held.get(number)?;
        Some((name.peer(), store))
    }

    /// Returns the store with the routes of `peer`, or `None` if it has none. `hint` may be
    /// the store's index, and is tried first; a wrong one takes only time.
    #[inline]
    pub(crate) fn get(&self, hint: usize, peer: &Peer) -> Option<&S>
        ensures { option_copied result ≡ store_at (stores_in self.now) peer.now }
    {
        self.at(self.find_number_by_hint(hint, peer)?)
    }

    /// Returns a mutable reference to the store with the routes of `peer`, or `None` if it has
    /// none. A caller that gives the store its first route or takes its last one has to call
    /// [`Stores::set_routed`] then. `number` is a hint of the store's index, tried first; it is set
    /// to the index if there is a store, and unchanged otherwise.
    #[inline]
    pub(crate) fn get_mut(&mut self, number: &mut usize, peer: &Peer) -> Option<&mut S>
        ensures* writes_back { sem 𝓛 (lends_store S.row self.entry peer.now result) }
        ensures value { option_copied_mut result ≡ store_at (stores_in self.old) peer.now }
        ensures number { IfSome result (λ _.
            lookup (eq_by_cmp peer_cmp peer.now) self.old.order.entries ≡ Some number.new) }
    {
        let found = self.find_number_by_hint(*number, peer)?;
        *number = found;
        self.held.get_mut(found)
    }

    /// Records whether the store with index `number` has a route: puts it into the set of the
    /// stores that have one if `has` is `true`, or takes it out if `has` is `false`. A caller that
    /// gives a store its first route or takes its last one has to call this. Requires that `number`
    /// is the index of a store. Allocates no memory.
    #[inline]
    pub(crate) fn set_routed(&mut self, number: usize, has: bool)
        requires { number < length self.old.held.items }
        ensures stores { stores_in self.new ≡ stores_in self.old }
        ensures noted { (peer : Peer) →
            lookup (eq_by_cmp peer_cmp peer) self.old.order.entries ≡ Some number →
            IsUpdatedAt (routed_marks self.old) (routed_marks self.new) peer (Some has) }
    {
        self.routed.set_member(number, has);
    }

    /// Updates the set of the stores that have a route, after at most one route was set or cleared
    /// in the store with the index `number`, which now has `count` routes. Takes the store out of
    /// the set if `count` is 0, and puts it in if `count` is 1. A larger count changes nothing,
    /// since the store had a route before too. Requires that `number` is the index of a store, and
    /// that this store is in the set already if `count` is two or more. Allocates no memory.
    #[inline]
    pub(crate) fn note_route_count(&mut self, number: usize, count: u64)
        requires within { number < length self.old.held.items }
        requires noted { 1 < count → slice_get (choices self.old.routed) number ≡ Some true }
        ensures stores { stores_in self.new ≡ stores_in self.old }
        ensures noted { (p : Peer) →
            lookup (eq_by_cmp peer_cmp p) self.old.order.entries ≡ Some number →
            IsUpdatedAt (routed_marks self.old) (routed_marks self.new) p (Some (nat_lt 0 count)) }
    {
        if count > 1 {
            return;
        }
        self.set_routed(number, count > 0);
    }

    /// Shrinks the capacity of the list of stores, of the list of their peers, and of the set of
    /// the stores that have a route, each if the function [`shrink_if_oversized`] finds it too
    /// large for its elements. Stores and their indices stay.
    pub(crate) fn shrink_if_oversized(&mut self)
        ensures stores { stores_in self.new ≡ stores_in self.old }
        ensures routed { routed_marks self.new ≡ routed_marks self.old }
    {
        shrink_if_oversized(&mut self.held);
        shrink_if_oversized(&mut self.names);
        self.routed.shrink_if_oversized();
    }
}

impl<S: Drop> Stores<S> {
    ghost use Rattle.rib_player.specs.StoresByPeer.{stores_in};
    ghost use Rattle.rib_player.specs.Noted.{routed_marks};

    /// Adds `store`, which is taken to have no route yet, for `peer`. The store gets the next
    /// index, which is the number of stores before the call. Requires that `peer` has no store.
    /// Fails if memory allocation fails; nothing is added then, and `store` is dropped.
    pub(crate) fn insert(&mut self, peer: Peer, store: S) -> Result<(), AllocError>
        requires { store_at (stores_in self.old) peer ≡ None }
        ensures added { OnOk result
            (IsUpdatedAt (stores_in self.old) (stores_in self.new) peer (Some store)) }
        ensures noted { OnOk result
            (IsUpdatedAt (routed_marks self.old) (routed_marks self.new) peer (Some false)) }
        ensures refused { OnErr result (stores_in self.new ≡ stores_in self.old) }
        ensures kept { OnErr result (routed_marks self.new ≡ routed_marks self.old) }
    {
        self.held.reserve(1)?;
        self.names.reserve(1)?;
        self.routed.reserve()?;
        if self.places.is_empty() {
            self.places.resize(PLACES, 0)?;
        }
        let number = self.held.len();
        let name = Rc::new(self.alloc, NumberedPeer::new(peer, number))?;
        self.order.insert(peer, number)?;
        self.held.push_reserved(store);
        self.names.push_reserved(name);
        self.routed.raise_bound();
        set_slot(&mut self.places, &peer, number);
        Ok(())
    }

    /// Removes and drops the store of `peer`; does nothing if it has none. The last store gets the
    /// number (index) of the removed one, as in [`Vec::swap_remove`]. Allocates no memory.
    pub(crate) fn remove(&mut self, peer: &Peer)
        ensures stores { IsUpdatedAt (stores_in self.old) (stores_in self.new) peer.now None }
        ensures routed { IsUpdatedAt (routed_marks self.old) (routed_marks self.new) peer.now None }
    {
        let Some(number) = self.order.remove(peer) else {
            return;
        };
        self.held.swap_remove(number);
        self.names.swap_remove(number);
        self.routed.remove(number);
        if let Some(name) = self.names.get(number) {
            let moved = *name.peer();
            renumber(&mut self.order, &moved, number);
            set_slot(&mut self.places, &moved, number);
        }
    }
}

/// Sets the number (the index of the store) that `order` has for `peer` to `number`. `order` is the
/// map from peers to the indices of their stores. Requires that `peer` is in `order`.
fn renumber(order: &mut BTreeMap<Peer, usize>, peer: &Peer, number: usize)
    requires { IsSome (lookup (eq_by_cmp peer_cmp peer.now) order.old.entries) }
    ensures { IsUpdatedAt order.old.entries order.new.entries peer.now (Some number) }
{
    if let Some(held) = order.get_mut(peer) {
        *held = number;
    }
}

/// Stores in `places`, a small hash table from peers to the indices of their stores, that the store
/// of `peer` has the index `number`. Sets the element at [`slot_of`], and so replaces what another
/// peer may have there. A number above `u32::MAX` is stored as `u32::MAX`. Readers don't rely on an
/// element: they check whether the store with that index is the peer's. Does nothing if `places` is
/// empty.
fn set_slot(places: &mut Vec<u32>, peer: &Peer, number: usize)
    requires { vec_len places.old ≤ PLACES }
    ensures { vec_len places.new ≤ PLACES }
{
    if let Some(place) = places.get_mut(slot_of(peer)) {
        *place = u32::try_from(number).unwrap_or(u32::MAX);
    }
}
