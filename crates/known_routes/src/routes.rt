//! The table that interns routes, which is to share one `Rc` among equal routes. `rib_player` looks
//! up the routes of an event by [`RouteInterner::intern`], and calls [`RouteInterner::release`] for
//! the routes of events that it can no longer undo. Read [`RouteInterner`] first, then `slots.rt`.

ghost use Rattle.std.specs.Prelude.{◌≡◌, ◌≤◌, ◌+◌, ◌*◌, IfOk, IfSome, vec_len};
ghost use Rattle.known_routes.specs.declared.routes.TheConstants.{LASTS};
ghost use Rattle.known_routes.specs.declared.slots.TheConstants.{MIN_SLOTS, MAX_SLOTS, MOST_TIMES};

use crate::route_hash::{hash_route, peer_hash};
use crate::slot::Slot;
use crate::slots::{InternTable, MAX_SLOTS};
use crate::spare_room::copy_if_oversized;
use mrt_events::{Peer, Route, route_size, same_route};
use std::alloc::{AllocError, Global};
use std::rc::Rc;

/// The largest number of AS numbers, segments and communities of a route that
/// [`RouteInterner::intern_if_cheap`] always looks up. A route with one more is looked up only if
/// it has few owners ([`LOOKED_FOR_OWNERS`]).
const MOST_NUMBERS: usize = 1024;

/// The largest number of owners (`Rc`s) with which a route of more than [`MOST_NUMBERS`] numbers is
/// still looked up. With so few owners it is in few items of its event, so that all look-ups take a
/// few times as long as it took to parse the route. With one owner more it may be in many items,
/// and is used as it is.
const LOOKED_FOR_OWNERS: usize = 4;

/// The number of groups that peers are in, by their hashes. For each group, the hash table's slot
/// of the route last interned for a peer of the group is noted. Of more peers, some share a group,
/// and the slot of one replaces the slot of another.
const LASTS: usize = 4096;

/// The number of lowest bits of a peer's 64-bit hash that are dropped to get an index below
/// [`LASTS`]. With one more, only half of the indices would be used.
const LOWEST_BITS: u32 = 52;

/// The largest number of owners (`Rc`s) of a route that may soon have none but the table: the one
/// that is about to go, the table, the reader's memory for routes, and an item of an event. With
/// one more, some other owner is left.
const FEW_OWNERS: usize = 4;

/// The divisor that bounds the octets of released routes, those that may have no owner but the
/// table: a fifth of the octets of all routes, which is a quarter of what the others take. With one
/// octet more, such routes are removed.
const RELEASED_SHARE: u64 = 5;

/// The number of octets that are added to those of all routes before they are divided by
/// [`RELEASED_SHARE`], so that a large table isn't searched for a few released routes: about a
/// mebibyte more of these may be held. With four octets more here, it is one octet more.
const RELEASED_ROOM: u64 = 4 << 20;

/// A table that interns routes: for a route that equals one in the table, it returns the `Rc` that
/// the table holds, so that equal routes take memory once. It is a cache: which routes it holds is
/// unspecified, and it may drop any at any time, which costs memory only.
#[derive(Drop)]
pub struct RouteInterner {
    alloc: Global,
    /// The hash table of the routes.
    routes: InternTable,
    /// The number of routes in slots of the hash table when [`RouteInterner::prepare_for_event`]
    /// was last called, or when the table last grew since.
    stood: usize,
    /// The number of octets of released routes: those that may have lost their last owner besides
    /// the table since all routes were last checked for that.
    released_octets: u64,
    /// The number of octets of the routes that were added since
    /// [`RouteInterner::prepare_for_event`] was last called.
    added_octets: u64,
    /// For each of [`LASTS`] groups of peers, by their hashes, the index in the hash table of the
    /// slot with the route last interned for a peer of the group. An index of a slot without a
    /// route, or one out of bounds, stands for none. Empty before the table first grows.
    last_slots: Vec<u32>,
    ghost bounded: { vec_len routes.slots ≤ MAX_SLOTS },
    ghost few: { vec_len last_slots ≤ LASTS },
    ghost fitting: { vec_len routes.slots ≤ MOST_TIMES * stood + MIN_SLOTS },
}

impl RouteInterner {
    ghost use Rattle.std.specs.Prelude.{max};
    ghost use Rattle.known_routes.specs.Known.{route_count, sized_for};

    /// Returns an interner without routes. Allocates no memory.
    pub fn new(alloc: Global) -> Self
        ensures { sized_for result ≡ 0 }
    {
        RouteInterner {
            alloc,
            routes: InternTable::empty(alloc),
            stood: 0,
            released_octets: 0,
            added_octets: 0,
            last_slots: Vec::new(alloc),
        }
    }

    /// Returns the table's route that equals `route`, or else adds `route` to the table and returns
    /// it. `peer` is the peer that the route comes from: the route last interned for it is compared
    /// first, since peers often repeat one. If a new route's vectors have much unused capacity, a
    /// copy without that capacity is added and returned. Fails if memory allocation fails; `route`
    /// isn't added then, and others may be dropped.
    pub fn intern(&mut self, peer: &Peer, route: &Rc<Route>) -> Result<Rc<Route>, AllocError>
        ensures value { IfOk result (λ known. known.value ≡ route.now.value) }
        ensures stood { sized_for self.new ≤ max (sized_for self.old) (route_count self.new) }
    {
        let peer_group = (peer_hash(peer) >> LOWEST_BITS) as usize;
        if let Some(known) = self.last_route_if_equal(peer_group, route) {
            return known.clone();
        }
        let hash = hash_route(route);
        if let Some((index, found)) = self.routes.find_route(hash, route) {
            let known = found.clone()?;
            self.note_slot_of_last_route(peer_group, index);
            return Ok(known);
        }
        let octets = route_size(route);
        let kept = copy_if_oversized(self.alloc, route, octets)?;
        let index = self.insert(hash, kept.clone()?, octets)?;
        self.note_slot_of_last_route(peer_group, index);
        Ok(kept)
    }

    /// Returns the table's route that equals `route`, or else adds `route` and returns it, as
    /// [`RouteInterner::intern`] does, but returns a long route with many owners as it is. Such a
    /// route has more than [`MOST_NUMBERS`] AS numbers, segments and communities, and more than
    /// [`LOOKED_FOR_OWNERS`] owners (`Rc`s). So all look-ups for the items of an event take bounded
    /// time. `peer` is the peer that the route comes from. Fails if memory allocation fails;
    /// `route` isn't added then, and others may be dropped.
    pub fn intern_if_cheap(
        &mut self,
        peer: &Peer,
        route: &Rc<Route>,
    ) -> Result<Rc<Route>, AllocError>
        ensures value { IfOk result (λ known. known.value ≡ route.now.value) }
        ensures stood { sized_for self.new ≤ max (sized_for self.old) (route_count self.new) }
    {
        // So all items of an event together cost a bound each, and a few times what it took to make
        // their routes: a long route with few owners is at few items.
        if Rc::strong_count(route) <= LOOKED_FOR_OWNERS || has_few_numbers(route) {
            return self.intern(peer, route);
        }
        route.clone()
    }

    /// Returns the route that was last interned for a group of peers, if it equals `route` and is
    /// still in its slot, or else `None`. `peer_group` is the index of the group in `last_slots`,
    /// given by the highest bits of a peer's hash. If the slot noted there has another route by
    /// now, that one is compared, and returned if it equals `route`.
    #[inline]
    fn last_route_if_equal(&self, peer_group: usize, route: &Route) -> Option<&Rc<Route>>
        ensures { IfSome result (λ known. known.now.value ≡ route.now) }
    {
        let index = *self.last_slots.get(peer_group)? as usize;
        match self.routes.slots.get(index) {
            Some(Slot::Taken(_, known)) if same_route(known, route) => Some(known),
            _ => None,
        }
    }

    /// Notes in `last_slots` which slot of the hash table has the route that was last interned for
    /// a group of peers, so that the next look-up compares it first. `peer_group` is the index of
    /// the group in `last_slots`, given by the highest bits of a peer's hash. `index` is the index
    /// of the slot, or `usize::MAX` for a route in no slot. Does nothing if `peer_group` is out of
    /// bounds.
    fn note_slot_of_last_route(&mut self, peer_group: usize, index: usize)
        ensures routes { route_count self.new ≡ route_count self.old }
        ensures stood { sized_for self.new ≡ sized_for self.old }
    {
        if let Some(slot) = self.last_slots.get_mut(peer_group) {
            *slot = u32::try_from(index).unwrap_or(u32::MAX);
        }
    }

    /// Moves the routes to a hash table whose number of slots fits their number
    /// ([`InternTable::resize`]), and allocates `last_slots` if that is empty. Fails if memory
    /// allocation fails; the hash table then is unchanged, or has no slots and no routes any more.
    fn grow(&mut self) -> Result<(), AllocError>
        ensures { sized_for self.new ≤ max (sized_for self.old) (route_count self.new) }
    {
        if self.last_slots.is_empty() {
            self.last_slots.resize(LASTS, 0)?;
        }
        let routes = &mut self.routes;
        routes.resize(self.alloc)?;
        self.stood = routes.taken;
        Ok(())
    }

    /// Adds `route`, which a search didn't find in the table, with its hash `hash` and `octets`,
    /// the number of octets that it takes ([`route_size`]). Returns the index of its slot in the
    /// hash table, or `usize::MAX` if its slots were all taken, so that it is in the overflow list.
    /// Another route may be dropped to make room. Fails if memory allocation fails; `route` isn't
    /// added then, and others may be dropped.
    fn insert(&mut self, hash: u32, route: Rc<Route>, octets: u64) -> Result<usize, AllocError>
        ensures { sized_for self.new ≤ max (sized_for self.old) (route_count self.new) }
    {
        let count = self.routes.slots.len();
        if count < MAX_SLOTS && self.routes.taken >= count / 4 * 3 {
            self.grow()?;
        }
        let index = self.routes.put(hash, route)?;
        self.added_octets = self.added_octets.saturating_add(octets);
        self.routes.held_octets = self.routes.held_octets.saturating_add(octets);
        Ok(index)
    }

    /// Notes that the caller is about to drop `route`, one of the owners (`Rc`s) of a route. If one
    /// other owner is left, which may be the table, the table removes the route if it has it.
    /// Otherwise, if fewer than [`FEW_OWNERS`] others are left, the octets of the route are counted
    /// as released, so that [`RouteInterner::sweep_if_due`] may remove it later, if the table is
    /// then its only owner.
    pub fn release(&mut self, route: &Rc<Route>)
        ensures { sized_for self.new ≡ sized_for self.old }
    {
        // The one other owner may be this table. Few may be this table, a source and an event
        // alone, so that nobody else may hold the route soon.
        let owners = Rc::strong_count(route);
        if owners == 2 {
            self.routes.remove_route(hash_route(route), route);
        } else if owners <= FEW_OWNERS {
            self.released_octets = self.released_octets.saturating_add(route_size(route));
        }
    }

    /// Counts as released ([`RouteInterner::release`]) the octets of all routes that were added
    /// since [`RouteInterner::prepare_for_event`] was last called, as they may have no owner but
    /// the table. Callers call it if they don't use the routes that they interned, as for an event
    /// that is refused.
    pub fn release_added(&mut self)
        ensures { sized_for self.new ≡ sized_for self.old }
    {
        self.released_octets = self.released_octets.saturating_add(self.added_octets);
        self.added_octets = 0;
    }

    /// Removes the routes that have no owner (`Rc`) but the table, if enough octets were counted as
    /// released ([`RouteInterner::release`]) since the last such removal: more than the sum of a
    /// mebibyte and a quarter of the octets that the other routes take. Otherwise does nothing.
    pub fn sweep_if_due(&mut self)
        ensures { sized_for self.new ≡ sized_for self.old }
    {
        // A sweep checks all routes, so it is to be rare.
        let most = self.routes.held_octets.saturating_add(RELEASED_ROOM);
        if self.released_octets.saturating_mul(RELEASED_SHARE) > most {
            self.routes.sweep();
            self.released_octets = 0;
        }
    }

    /// Prepares the table for the next event, before its routes are interned: removes routes that
    /// have no other owner if that is due ([`RouteInterner::sweep_if_due`]), and moves the others
    /// to a smaller hash table if they have too many slots. If memory allocation for that fails,
    /// all routes are removed instead.
    pub fn prepare_for_event(&mut self)
        ensures { sized_for self.new ≡ route_count self.new }
    {
        self.sweep_if_due();
        self.added_octets = 0;
        // A smaller table takes less memory. If allocating it fails, all routes are dropped: the
        // play needs none of them, so that it gets no error.
        if !self.routes.has_few_slots() && self.routes.resize(self.alloc).is_err() {
            self.routes = InternTable::empty(self.alloc);
        }
        self.stood = self.routes.taken;
    }
}

/// Returns `true` if the route has at most [`MOST_NUMBERS`] AS numbers, segments and communities
/// together, so that a look-up, which hashes and compares it, takes little time.
fn has_few_numbers(route: &Route) -> bool {
    let attrs = &route.attrs;
    let mut numbers = attrs.communities.as_slice().len();
    'segments: for segment in attrs.path.segments.as_slice() {
        if numbers >= MOST_NUMBERS {
            return false;
        }
        numbers = numbers
            .saturating_add(segment.numbers.as_slice().len())
            .saturating_add(1);
    }
    numbers <= MOST_NUMBERS
}
