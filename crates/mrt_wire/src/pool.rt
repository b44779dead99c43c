//! The memory that one record after the other is parsed into, so that reading mostly allocates
//! nothing, and the check that what is kept for routes of tables is bounded. A
//! [`Source`](crate::Source) has one [`Pool`] and passes it to the parser of each record. Read
//! [`Pool`] first.

ghost use Rattle.std.specs.Prelude.{◌≡◌, []};

use crate::peers::PEER_SLOTS;
use crate::route_cache::{LARGEST_SLOT, MOST_SPARES, RouteCache};
use crate::route_pool::{ELEMENT_OCTETS, FIRST_ROUTES, LARGEST_FIRST, MOST_ROOM, RoutePool};
use bgp_wire::UpdateBuffer;
use mrt_events::Item;
use std::alloc::Global;
use std::mem;

/// The largest number of octets of memory that is kept between records for routes of tables, if no
/// record needs more than `MOST_ROOM`, the bound on the counted routes of a pool. The build fails
/// if the sum of the parts exceeds it.
const MOST_OCTETS: usize = 1100 * 1024;

/// The largest number of octets of memory that the slots of the route cache take, which keep the
/// last route of each peer.
const SLOTS_OCTETS: usize = PEER_SLOTS * LARGEST_SLOT;

/// The largest number of octets of memory that the spare routes of the route cache take, which
/// replace routes with other owners.
const SPARES_OCTETS: usize = MOST_SPARES * (LARGEST_SLOT + ELEMENT_OCTETS as usize);

/// The largest number of octets of memory that the routes of table entries that aren't cached take.
const ROUTES_OCTETS: usize = FIRST_ROUTES * (LARGEST_FIRST + ELEMENT_OCTETS as usize)
    + MOST_ROOM as usize;

const _: () = prove!(SLOTS_OCTETS + SPARES_OCTETS + ROUTES_OCTETS <= MOST_OCTETS);

/// The largest capacity of a vector of items (the parts of an event) that is kept for the next
/// record, in items. A larger vector is dropped, and the next record allocates its own.
const MOST_ITEMS: usize = 4096;

/// Memory that a record is parsed into and that later records reuse: routes, the parts of an
/// UPDATE, and a vector for the items of an event (announcements and withdrawals).
#[derive(Drop)]
pub(crate) struct Pool {
    /// The routes of BGP messages.
    pub(crate) routes: RoutePool,
    /// The routes of table entries, with the octets that they were parsed from.
    pub(crate) read: RouteCache,
    /// The parts that the last UPDATE was parsed into: its prefixes and path attributes.
    pub(crate) parts: UpdateBuffer,
    /// A vector for the items (announcements, withdrawals or a state change) of the next event.
    /// What it holds is no longer needed.
    items: Vec<Item>,
}

impl Pool {
    /// Returns a pool that keeps no memory yet, without allocating any.
    pub(crate) fn new(alloc: Global) -> Pool {
        Pool {
            routes: RoutePool::new(alloc),
            read: RouteCache::new(alloc),
            parts: UpdateBuffer::empty(alloc),
            items: Vec::new(alloc),
        }
    }

    /// Frees the memory kept for BGP messages, which a long message may have made large: the routes
    /// of messages, the parts of an UPDATE, and the vector for the items of an event. The next
    /// message allocates its own. The routes of table entries are kept.
    pub(crate) fn free_message_memory(&mut self, alloc: Global) {
        self.routes = RoutePool::new(alloc);
        self.parts = UpdateBuffer::empty(alloc);
        self.items = Vec::new(alloc);
    }

    /// Prepares the pool for the next record, whose body has `octets` octets: from now on, routes
    /// of earlier records may be overwritten, except for those that have other owners. A large
    /// record raises the bound on the memory that is kept; it falls again in proportion to the
    /// lengths of later bodies ([`RoutePool::begin_record`]).
    #[inline(always)]
    pub(crate) fn begin_record(&mut self, octets: usize)
        ensures used { (self.new.routes.used ≡ 0) × (self.new.read.routes.used ≡ 0) }
    {
        self.routes.begin_record(octets);
        self.read.routes.begin_record(octets);
    }

    /// Takes out the vector that the pool keeps for the items of an event, and returns it, empty
    /// but with its capacity. Later calls return a vector without capacity until
    /// [`Pool::keep_items`] is called.
    #[inline(always)]
    pub(crate) fn take_items(&mut self, alloc: Global) -> Vec<Item>
        ensures items { result.items ≡ [] }
        ensures parts { self.new.parts ≡ self.old.parts }
    {
        let mut items = mem::replace(&mut self.items, Vec::new(alloc));
        items.clear();
        items
    }

    /// Keeps the memory of `items`, a vector of an event that is no longer needed, for the next
    /// event, if its capacity is at most [`MOST_ITEMS`] and exceeds the capacity of the vector that
    /// is kept. Otherwise drops it.
    #[inline(always)]
    pub(crate) fn keep_items(&mut self, items: Vec<Item>) {
        let most = items.capacity();
        if most > self.items.capacity() && most <= MOST_ITEMS {
            let mut emptied = items;
            emptied.clear();
            self.items = emptied;
        }
    }
}
