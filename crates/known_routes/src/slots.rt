//! A hash table of routes. Each route is in a slot of one of the two buckets of four slots
//! of its hash, or in an overflow, a sorted list, if these were full. `routes.rt` looks up and adds
//! routes by it. Read [`InternTable`] first, then `slot.rt`.

ghost use Rattle.std.specs.Prelude.{◌≡◌, ◌<◌, ◌≤◌, ◌+◌, ◌*◌, true, IfOk, IfSome, OnOk, OnErr, IsTrue, slice_index_or, vec_len, count_by};
ghost use Rattle.known_routes.specs.InternTable.{is_taken, is_tagged, AreTagged};
ghost use Rattle.known_routes.specs.declared.slot.TheConstants.{FREE};
ghost use Rattle.known_routes.specs.declared.slots.TheConstants.{MIN_SLOTS, MAX_SLOTS, MOST_TIMES};

use crate::ordered_routes::{HashedRoute, OverflowRoutes};
use crate::slot::{
    FREE, Slot, bucket_starts, ends_with_free_slot, find_in_bucket, index_of, is_only_owner,
    is_taken, route_size_at, slot_for, tag_of,
};
use mrt_events::{Route, route_size};
use std::alloc::{AllocError, Global};
use std::mem;
use std::rc::Rc;

/// The number of slots of the first hash table, and the smallest number of a later one. The table
/// grows when a route is added while three quarters of its slots are taken.
const MIN_SLOTS: usize = 1024;

/// The largest number of slots of a table. A table of so many doesn't grow; a route whose buckets
/// (buckets of four slots) are full goes to the overflow list, where a search takes longer.
pub(crate) const MAX_SLOTS: usize = 1 << 24;

/// The largest number of slots for each route in a slot, besides [`MIN_SLOTS`]. If the table has
/// one more than that when the next event begins, the routes move to a smaller table.
const MOST_TIMES: usize = 3;

/// The ratio of the routes in slots to those that may be in the overflow list before a search that
/// found a free slot in its bucket goes on in the overflow. With one route more there, it does.
const CROWDED_SHARE: usize = 16;

/// The ratio of the routes in slots to those that may replace another route because both buckets
/// (buckets of four slots) of their hash are full. Of routes with random hashes, fewer do. One more
/// goes to the overflow list, where a search takes longer.
const OVERWRITTEN_SHARE: usize = 12;

/// Stands in place of a slot's index for a route that is in the overflow list, in no slot. No
/// number is above it.
const IN_OVERFLOW: usize = usize::MAX;

/// A hash table of routes, which finds the `Rc` of an equal route so that equal routes share one.
/// Each route is in a slot of one of two buckets of four slots, which its 32-bit hash
/// selects, or in an overflow, a sorted list, if both were full. A route may be dropped to make
/// room for another one.
#[derive(Drop)]
pub(crate) struct InternTable {
    /// The slots. A table may have none.
    pub(crate) slots: Vec<Slot>,
    /// An octet for each slot, which a search compares first: [`tag_of`] the hash of its route, or
    /// [`FREE`] if it has no route.
    pub(crate) tags: Vec<u8>,
    /// The number of slots that have a route.
    pub(crate) taken: usize,
    /// The routes that found both buckets of their hash full.
    overflow: OverflowRoutes,
    /// The number of routes that replaced another in its slot, since they found both of their buckets
    /// full. It saturates.
    overwritten: usize,
    /// The number of octets that all routes of the table take ([`route_size`]). Whoever calls
    /// [`InternTable::put`] adds those of the route.
    pub(crate) held_octets: u64,
    ghost counted: { taken ≡ count_by is_taken slots.items },
    ghost tagged: { AreTagged slots.items tags.items },
}

impl InternTable {
    /// Returns a table without slots, which holds no routes: [`InternTable::put`] drops them.
    /// Allocates no memory.
    pub(crate) fn empty(alloc: Global) -> InternTable
        ensures { vec_len result.slots ≡ 0 }
    {
        InternTable {
            slots: Vec::new(alloc),
            tags: Vec::new(alloc),
            taken: 0,
            overflow: OverflowRoutes::empty(alloc),
            overwritten: 0,
            held_octets: 0,
        }
    }

    /// Returns a table of `count` slots, none of which has a route yet. Fails if memory allocation
    /// fails.
    pub(crate) fn with_slots(alloc: Global, count: usize) -> Result<InternTable, AllocError>
        ensures { IfOk result (λ free. vec_len free.slots ≡ count) }
    {
        let mut slots = Vec::with_capacity(alloc, count)?;
        let mut tags = Vec::with_capacity(alloc, count)?;
        'slots: for _ in 0..count {
            slots.push(Slot::Free)?;
            tags.push(FREE)?;
        }
        Ok(InternTable {
            slots,
            tags,
            taken: 0,
            overflow: OverflowRoutes::empty(alloc),
            overwritten: 0,
            held_octets: 0,
        })
    }

    /// Returns `true` if the overflow list has so many routes that no search may leave it out: more
    /// than a [`CROWDED_SHARE`]th of the number of routes in slots. Otherwise a search ends at a
    /// bucket of four slots whose last slot is free, and may miss a route that went to the
    /// list before that slot became free.
    #[inline]
    fn is_overflow_crowded(&self) -> bool {
        self.overflow.count > self.taken / CROWDED_SHARE
    }

    /// Returns `true` if a search ends at a bucket of four slots that doesn't have its
    /// route. `bucket` is the index of the bucket's first slot. The search ends there if the bucket's last
    /// slot is free, so that the route needn't have been put elsewhere, and the overflow list isn't
    /// crowded ([`InternTable::is_overflow_crowded`]). Otherwise it goes on: after the first bucket of
    /// the hash in the second one, and after that in the overflow list.
    #[inline]
    fn ends_search(&self, bucket: usize) -> bool {
        // Buckets are filled from the front.
        ends_with_free_slot(&self.tags, bucket) && !self.is_overflow_crowded()
    }

    /// Returns a route of the table that equals `route`, whose hash is `hash`, and the index of its
    /// slot, or [`IN_OVERFLOW`] if it is in the overflow list. Returns `None` if none is found. A
    /// search misses a route that was put elsewhere while a bucket of four slots was full,
    /// if it ends at that bucket now ([`InternTable::ends_search`]).
    #[inline]
    pub(crate) fn find_route(&self, hash: u32, route: &Route) -> Option<(usize, &Rc<Route>)>
        ensures { IfSome result (λ found. found.1.now.value ≡ route.now) }
    {
        let [first, second] = bucket_starts(hash, self.slots.len());
        if let Some(found) = find_in_bucket(&self.tags, &self.slots, first, hash, route) {
            return Some(found);
        }
        if self.ends_search(first) {
            return None;
        }
        if let Some(found) = find_in_bucket(&self.tags, &self.slots, second, hash, route) {
            return Some(found);
        }
        if self.ends_search(second) {
            return None;
        }
        Some((IN_OVERFLOW, self.overflow.find_route(hash, route)?))
    }

    /// Returns `true` if a new route whose two buckets of four slots are full is to replace
    /// a route in a slot, and `false` if it is to go to the overflow list. It is to replace one if
    /// the number of routes replaced so far is less than an [`OVERWRITTEN_SHARE`]th of the number
    /// of routes in slots, or if the overflow list is full.
    fn overwrites_when_full(&self) -> bool {
        self.overwritten < self.taken / OVERWRITTEN_SHARE || self.overflow.is_full()
    }

    /// Adds `route`, whose hash is `hash`, to the overflow list, and returns [`IN_OVERFLOW`] in
    /// place of the index of a slot. Fails if memory allocation fails; `route` is dropped then, and
    /// the others stay.
    #[inline(never)]
    fn put_into_overflow(&mut self, hash: u32, route: Rc<Route>) -> Result<usize, AllocError>
        ensures slots { vec_len self.new.slots ≡ vec_len self.old.slots }
        ensures taken { self.new.taken ≡ self.old.taken }
    {
        // It isn't inlined, since few routes go there.
        self.overflow.insert_route(hash, route)?;
        Ok(IN_OVERFLOW)
    }

    /// Adds `route`, whose hash is `hash`, and returns the index of its slot, or [`IN_OVERFLOW`] if
    /// it is in no slot. It is put into a free slot of its two buckets of four slots. If both are
    /// full and [`InternTable::overwrites_when_full`] is true, it replaces the route in the first
    /// slot of the first bucket, and that one is dropped; otherwise it goes to the overflow list. A
    /// table without slots drops `route`. The caller adds the octets of `route` to `held_octets`. Fails if memory
    /// allocation fails; `route` is dropped then, and the others stay.
    pub(crate) fn put(&mut self, hash: u32, route: Rc<Route>) -> Result<usize, AllocError>
        ensures slots { vec_len self.new.slots ≡ vec_len self.old.slots }
        ensures taken { self.old.taken ≤ self.new.taken }
    {
        // A free slot isn't read, since its tag shows that it is free: few slots are in the cache.
        let index = slot_for(&self.tags, hash);
        if index >= self.tags.len() {
            return Ok(IN_OVERFLOW);
        }
        if self.tags[index] == FREE {
            let slot = mem::replace(&mut self.slots[index], Slot::Taken(hash, route));
            mem::forget(slot);
            self.tags[index] = tag_of(hash);
            self.taken += 1;
            return Ok(index);
        }
        if !self.overwrites_when_full() {
            return self.put_into_overflow(hash, route);
        }
        self.overwritten = self.overwritten.saturating_add(1);
        self.held_octets = self
            .held_octets
            .saturating_sub(route_size_at(&self.slots[index]));
        self.slots[index] = Slot::Taken(hash, route);
        self.tags[index] = tag_of(hash);
        Ok(index)
    }

    /// Removes the route of the slot at the index `index`, and subtracts its octets from
    /// `held_octets`. Does nothing if the slot has no route, or if the index is out of bounds.
    pub(crate) fn clear_slot(&mut self, index: usize)
        ensures { vec_len self.new.slots ≡ vec_len self.old.slots }
    {
        if index < self.slots.len() && is_taken(&self.slots[index]) {
            self.taken -= 1;
            self.held_octets = self
                .held_octets
                .saturating_sub(route_size_at(&self.slots[index]));
            self.slots[index] = Slot::Free;
            self.tags[index] = FREE;
        }
    }

    /// Removes `route`, whose hash is `hash`, from the table: an `Rc` of this very allocation
    /// ([`Rc::ptr_eq`]), not one of an equal route. Subtracts its octets from `held_octets`. Does
    /// nothing if it isn't found.
    pub(crate) fn remove_route(&mut self, hash: u32, route: &Rc<Route>)
        ensures { vec_len self.new.slots ≡ vec_len self.old.slots }
    {
        if let Some(index) = index_of(&self.slots, hash, route) {
            self.clear_slot(index);
        } else if self.overflow.remove_route(hash, route) {
            self.held_octets = self.held_octets.saturating_sub(route_size(route));
        }
    }

    /// Puts the routes of `run` into this table, each as [`InternTable::put`] does. `run` is one of
    /// the sorted lists that the overflow list of another table is cut into. Fails if memory
    /// allocation fails; the routes put by then stay, and the others are dropped.
    fn move_from_run(&mut self, run: Vec<HashedRoute>) -> Result<(), AllocError>
        ensures { vec_len self.new.slots ≡ vec_len self.old.slots }
    {
        'routes: for hashed in run {
            self.put(hashed.hash, hashed.route)?;
        }
        Ok(())
    }

    /// Puts the routes of `overflow`, the overflow list of another table, into this table; some may
    /// be dropped where their buckets are full, as in [`InternTable::put`]. Fails if memory
    /// allocation fails; the routes put by then stay, and the others are dropped.
    fn move_from_overflow(&mut self, overflow: OverflowRoutes) -> Result<(), AllocError>
        ensures { vec_len self.new.slots ≡ vec_len self.old.slots }
    {
        'runs: for run in overflow.runs {
            self.move_from_run(run)?;
        }
        Ok(())
    }

    /// Moves the routes of `others` into this table, which is to have none yet. Some may be dropped
    /// where buckets of four slots are full, as in [`InternTable::put`]. Fails if memory
    /// allocation fails; the routes moved by then stay here, and the others are dropped.
    fn refill_from(&mut self, mut others: InternTable) -> Result<(), AllocError>
        ensures { vec_len self.new.slots ≡ vec_len self.old.slots }
    {
        // A large overflow is moved as it is, since putting its routes would take longer than
        // putting those in slots.
        if others.is_overflow_crowded() {
            mem::swap(&mut self.overflow, &mut others.overflow);
        }
        let InternTable {
            slots,
            overflow,
            overwritten,
            held_octets,
            ..
        } = others;
        self.overwritten = overwritten;
        self.held_octets = self.held_octets.saturating_add(held_octets);
        'slots: for slot in slots {
            if let Slot::Taken(hash, route) = slot {
                self.put(hash, route)?;
            }
        }
        self.move_from_overflow(overflow)
    }

    /// Moves the routes to a new table of [`MIN_SLOTS`] slots, and returns it. Routes that find no
    /// free slot there replace others or go to the overflow list, as in [`InternTable::put`]. Fails
    /// if memory allocation fails; the routes are dropped then.
    fn move_to_min_slots(self, alloc: Global) -> Result<InternTable, AllocError>
        ensures { IfOk result (λ fewest. vec_len fewest.slots ≡ MIN_SLOTS) }
    {
        let mut fewest = InternTable::with_slots(alloc, MIN_SLOTS)?;
        fewest.refill_from(self)?;
        Ok(fewest)
    }

    /// Removes the routes that have no owner (`Rc`) but this table, and subtracts their octets from
    /// `held_octets`. Allocates memory only to move parts of the overflow list that lost many
    /// routes to smaller blocks; a part stays where it is if that fails.
    pub(crate) fn sweep(&mut self)
        ensures { vec_len self.new.slots ≡ vec_len self.old.slots }
    {
        'slots: for index in 0..self.slots.len() {
            if is_only_owner(&self.slots[index]) {
                self.clear_slot(index);
            }
        }
        let octets = self.overflow.remove_unshared();
        self.held_octets = self.held_octets.saturating_sub(octets);
    }

    /// Returns `true` if the table has few enough slots for the routes in them: at most
    /// [`MOST_TIMES`] for each route, plus [`MIN_SLOTS`]. Returns `false` if a smaller table is to
    /// replace it.
    pub(crate) fn has_few_slots(&self) -> bool
        ensures { IsTrue result →
            vec_len self.now.slots ≤ MOST_TIMES * self.now.taken + MIN_SLOTS }
    {
        let most = self
            .taken
            .saturating_mul(MOST_TIMES)
            .saturating_add(MIN_SLOTS);
        self.slots.len() <= most
    }

    /// Moves the routes to a new table, with more slots or fewer: two and a third for each route in
    /// a slot, but at least [`MIN_SLOTS`] and at most [`MAX_SLOTS`]. Routes may be dropped where
    /// their buckets are full there. If the new table then has too many slots for those left
    /// ([`InternTable::has_few_slots`]), they move on to one with [`MIN_SLOTS`]. Fails if memory
    /// allocation fails; the table then is unchanged, or has no slots and no routes any more.
    pub(crate) fn resize(&mut self, alloc: Global) -> Result<(), AllocError>
        ensures most { OnOk result (vec_len self.new.slots ≤ MAX_SLOTS) }
        ensures fitting { OnOk result
            (vec_len self.new.slots ≤ MOST_TIMES * self.new.taken + MIN_SLOTS) }
        ensures refused { OnErr result (vec_len self.new.slots ≤ vec_len self.old.slots) }
    {
        let count = (self.taken.saturating_mul(7) / 3).clamp(MIN_SLOTS, MAX_SLOTS);
        let mut others = InternTable::with_slots(alloc, count)?;
        others.refill_from(mem::replace(self, InternTable::empty(alloc)))?;
        if !others.has_few_slots() {
            others = others.move_to_min_slots(alloc)?;
        }
        *self = others;
        Ok(())
    }
}
