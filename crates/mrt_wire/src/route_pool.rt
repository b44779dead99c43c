//! A pool of routes: routes whose memory later records reuse. A route that nobody else holds any
//! more is overwritten with one of a later record, so that reading mostly allocates nothing.
//! `update.rt` calls [`RoutePool::make_route`] for each message, and `route_cache.rt` calls
//! [`RoutePool::parse_rib_route`] for each table entry that it doesn't cache. Read [`RoutePool`]
//! first.

ghost use Rattle.std.specs.Prelude.{◌≡◌, ◌≤◌, ◌<◌, ◌+◌, ◌-◌, ◌*◌, min, max, true, IfOk, IfErr, vec_len};
ghost use Rattle.mrt_wire.specs.declared.route_pool.TheConstants.{LOWERING_RATE, MOST_ROOM, MOST_ROUTES};
ghost use Rattle.mrt_wire.specs.Items.{route_of};
ghost use Rattle.mrt_wire.specs.Decoding.{IsRouteFrom, RefusesRaw};

use crate::replacing::copy_or_move_attrs;
use crate::rib_route::{RawAttrs, blank_route, fill_or_replace, new_route};
use bgp_wire::{Attrs, WireFault};
use mrt_events::{Route, max_route_size};
use std::alloc::{AllocError, Global};
use std::mem;
use std::rc::Rc;

/// The number of routes of a record, the first ones, whose memory a pool keeps for later records
/// without counting their octets, if their attributes are short ([`LONGEST_FIRST`]). Each further
/// one is counted.
pub(crate) const FIRST_ROUTES: usize = 4;

/// The largest size, in octets, of the path attributes of a route whose memory a pool keeps for
/// later records without counting its octets. A route with longer attributes is counted.
const LONGEST_FIRST: usize = 1024;

/// The largest number of octets of memory, with all its capacity, of a route that a pool keeps
/// without counting it. It was computed for the path that takes most, whose segments have one AS
/// number of two octets each. Nothing compares it at run time; the bound `MOST_OCTETS` of `pool.rt`
/// is proved with it.
pub(crate) const LARGEST_FIRST: usize = 26 * 1024;

/// The largest number of routes in a pool, whose memory later records reuse. A record has at most
/// 65,535 entries, so none needs more; further entries would all be parsed into the last route.
pub(crate) const MOST_ROUTES: usize = 1 << 16;

/// The number of octets of memory that the counted routes of a pool may take together, with all
/// their capacity. A record that needs more keeps what it needs, until enough octets of other
/// records are read ([`LOWERING_RATE`]). Where the routes would take more than they may, the last
/// ones are dropped.
pub(crate) const MOST_ROOM: u64 = 560 * 1024;

/// The largest number of octets of memory that an element of a pool's list of routes takes: a
/// pointer and a number, and as many octets again of the list's spare capacity.
pub(crate) const ELEMENT_OCTETS: u64 = 32;

// What is dropped so wasn't needed while a quarter as many octets were read. To allocate it again
// takes about as long as to read these.
/// The number of octets by which the bound of a pool (the octets that its counted routes may take)
/// falls for each octet of a record, down to what that record needed and to [`MOST_ROOM`]. So what
/// a larger record needed is freed later.
const LOWERING_RATE: u64 = 4;

/// Returns an upper estimate of the number of octets of memory that the route takes in a pool: the
/// route with the spare capacity of its lists, and its element in the pool's list of routes.
#[inline]
fn counted_octets(route: &Route) -> u64 {
    max_route_size(route).saturating_add(ELEMENT_OCTETS)
}

/// A route of a pool, whose memory a later record reuses once the pool is its only owner. The items
/// of events may own it too.
#[derive(Drop)]
struct PooledRoute {
    /// The route, which the items of events may own too.
    route: Rc<Route>,
    /// The number of octets of memory that are counted for the route, or 0 if it isn't counted.
    room: u64,
}

impl PooledRoute {
    /// Returns a new route without attributes, for which no octets of memory are counted
    /// ([`RoutePool::count_memory`] counts them). Fails if memory allocation fails.
    fn blank(alloc: Global) -> Result<PooledRoute, AllocError> {
        let route = new_route(alloc)?;
        Ok(PooledRoute { route, room: 0 })
    }

    /// Returns `true` if the route has an owner besides the pool, such as an event, so that it
    /// can't be overwritten.
    fn has_other_owner(&self) -> bool {
        Rc::strong_count(&self.route) > 1
    }
}

/// A list of routes whose memory is reused: each record is parsed into them, the first one first; a
/// route with other owners is replaced by a new one. The memory of the counted routes, those of
/// table entries without the first few small ones of a record, is bounded in octets, in sum. A
/// record that needs more raises the bound, which falls again later.
#[derive(Drop)]
pub(crate) struct RoutePool {
    /// The routes, at most [`MOST_ROUTES`].
    routes: Vec<PooledRoute>,
    /// The number of routes that the current record has used, at most [`MOST_ROUTES`] - 1: further
    /// entries are parsed into the last route.
    used: usize,
    /// The number of octets of memory counted for all routes together.
    room: u64,
    /// The number of octets of memory counted for the routes that the current record has used.
    needed: u64,
    /// The bound of the pool: the largest value that `room` may have.
    most: u64,
    /// The size of the body of the current record, in octets.
    octets: u64,
    ghost counted: { used ≤ vec_len routes },
    ghost bounded: { vec_len routes ≤ MOST_ROUTES },
    ghost below: { used < MOST_ROUTES },
    ghost fits: { room ≤ most },
}

/// Allocates a route with the attributes `attrs` and the time `time`, in seconds since 1970. If
/// `keep_attrs` is `true`, `attrs` is copied and left as it is; otherwise it is moved, and is
/// unspecified afterwards. Fails if memory allocation fails.
#[inline(never)]
fn allocate_route(
    alloc: Global,
    attrs: &mut Attrs,
    time: u32,
    keep_attrs: bool,
) -> Result<Rc<Route>, AllocError>
    ensures made { IfOk result (λ route. route.value ≡ route_of attrs.old time) }
    ensures kept { keep_attrs ≡ true → attrs.new ≡ attrs.old }
{
    let mut route = blank_route(alloc);
    copy_or_move_attrs(alloc, &mut route.attrs, attrs, keep_attrs)?;
    route.time = time;
    Ok(Rc::new(alloc, route)?)
}

impl RoutePool {
    /// Returns a pool without routes, without allocating memory.
    pub(crate) fn new(alloc: Global) -> RoutePool {
        RoutePool {
            routes: Vec::new(alloc),
            used: 0,
            room: 0,
            needed: 0,
            most: MOST_ROOM,
            octets: 0,
        }
    }

    /// Prepares the pool for the next record, whose body has `octets` octets and which may use all
    /// routes of the pool, from the first on. If an earlier record raised the bound of the pool
    /// (the octets of memory that its counted routes may take together) above [`MOST_ROOM`], lowers
    /// it in proportion to the length of the previous record's body
    /// ([`RoutePool::lower_memory_bound`]).
    #[inline(always)]
    pub(crate) fn begin_record(&mut self, octets: usize)
        ensures used { self.new.used ≡ 0 }
        ensures needed { self.new.needed ≡ 0 }
        ensures octets { self.new.octets ≡ octets }
        ensures most { self.new.most ≤ max MOST_ROOM
            (max self.old.needed (self.old.most - LOWERING_RATE * self.old.octets)) }
    {
        self.used = 0;
        if self.most > MOST_ROOM {
            self.lower_memory_bound();
        }
        self.needed = 0;
        self.octets = octets as u64;
    }

    /// Lowers the bound of the pool, the octets of memory that its counted routes (those of table
    /// entries, without the first few small ones of a record) may take together, by [`LOWERING_RATE`] octets for each octet of the last record's body. The bound
    /// doesn't fall below what that record needed, nor below [`MOST_ROOM`], the bound of a new
    /// pool. Drops routes, the last of the list first, until the counted octets of the others are
    /// within the bound.
    #[inline(never)]
    fn lower_memory_bound(&mut self)
        ensures used { self.new.used ≡ self.old.used }
        ensures most { self.new.most ≡ max MOST_ROOM
            (max self.old.needed (self.old.most - LOWERING_RATE * self.old.octets)) }
    {
        let lowered = self
            .most
            .saturating_sub(self.octets.saturating_mul(LOWERING_RATE));
        let most = lowered.max(self.needed).max(MOST_ROOM);
        if self.room > most {
            self.drop_unused(most);
        }
        self.most = most;
    }

    /// Drops routes that the current record hasn't used yet, the last of the list first, until at
    /// most `most_octets` octets of memory are counted for those that are left, or until only used
    /// ones are left. Then lowers `room`, the sum of the counted octets, to `most_octets` if it is
    /// greater; it isn't if that is at least what is counted for the used routes.
    #[inline(never)]
    fn drop_unused(&mut self, most_octets: u64)
        ensures used { self.new.used ≡ self.old.used }
        ensures needed { self.new.needed ≡ self.old.needed }
        ensures room { self.new.room ≤ most_octets }
        ensures most { self.new.most ≡ self.old.most }
    {
        'routes: while self.room > most_octets && self.routes.len() > self.used {
            if let Some(route) = self.routes.pop() {
                self.room = self.room.saturating_sub(route.room);
            }
        }
        // Where all others went, the record's own are left, which there is room for.
        self.room = self.room.min(most_octets);
        self.routes.shrink_to_fit();
    }

    /// Drops the pool's own `Rc`s of routes that have other owners, if the counted routes (those of
    /// table entries, without the first few small ones) of the last record took more than
    /// [`MOST_ROOM`] octets of memory. So the memory of these routes is
    /// freed as soon as their other owners drop them, and isn't kept for reuse.
    #[inline(always)]
    pub(crate) fn drop_shared_after_large_record(&mut self)
        ensures most { self.new.most ≡ self.old.most }
    {
        // The next record couldn't be read into these routes anyway, as long as they have other owners.
        if self.needed > MOST_ROOM {
            self.drop_shared_routes();
        }
    }

    /// Drops the pool's own `Rc`s of routes that have other owners, which can't be overwritten. The
    /// routes that are left have no other owner, and all may be used again.
    #[inline(never)]
    fn drop_shared_routes(&mut self)
        ensures used { self.new.used ≡ 0 }
        ensures most { self.new.most ≡ self.old.most }
    {
        self.used = 0;
        let mut index = 0;
        'routes: while index < self.routes.len() {
            if self.routes[index].has_other_owner() {
                let shared = self.routes.swap_remove(index);
                self.room = self.room.saturating_sub(shared.room);
            } else {
                index += 1;
            }
        }
        self.routes.shrink_to_fit();
    }

    /// Returns the index in the pool of the next route for the current record to use, and adds a
    /// route without attributes if the pool has none there. The first call for a record returns 0,
    /// and each further call the next index; after [`MOST_ROUTES`] calls, the last index is
    /// returned again and again. The route may have other owners. Fails if memory allocation fails;
    /// the next call then returns the same index.
    #[inline(always)]
    fn next_index(&mut self, alloc: Global) -> Result<usize, AllocError>
        ensures next { IfOk result (λ index. index ≡ self.old.used) }
        ensures within { IfOk result (λ index. index < vec_len self.new.routes) }
    {
        let index = self.used;
        let used = (index + 1).min(MOST_ROUTES - 1);
        if index >= self.routes.len() {
            self.routes.push(PooledRoute::blank(alloc)?)?;
        }
        self.used = used;
        Ok(index)
    }

    /// Counts the octets of memory that the route at `index` takes, in place of an earlier count
    /// for it, and adds them to those that the current record needs. Raises the bound of the pool
    /// (the octets that its counted routes may take together) to what the record needs, if that is
    /// more. If all counts together would exceed the bound, drops routes that the record hasn't
    /// used, the last of the list first, until they don't. Requires that the pool has a route at
    /// `index`.
    #[inline(never)]
    fn count_memory(&mut self, index: usize)
        requires { index < vec_len self.old.routes }
        ensures most { self.new.most ≡ max self.old.most self.new.needed }
    {
        let room = counted_octets(&self.routes[index].route);
        let before = mem::replace(&mut self.routes[index].room, room);
        let needed = self.needed.saturating_add(room);
        let most = self.most.max(needed);
        self.room = self.room.saturating_sub(before);
        if self.room.saturating_add(room) > most {
            self.drop_unused(most.saturating_sub(room));
        }
        self.room = self.room.saturating_add(room);
        self.needed = needed;
        self.most = most;
    }

    /// Counts the octets of memory of the route at `index` towards the bound of the pool
    /// ([`RoutePool::count_memory`]), unless the route is among the first, small, and not counted
    /// yet: `index` is below [`FIRST_ROUTES`], and `octets`, the number of octets that its
    /// attributes were parsed from, is at most [`LONGEST_FIRST`]. Requires that the pool has a
    /// route at `index`.
    #[inline(always)]
    fn count_memory_if_needed(&mut self, index: usize, octets: usize)
        requires { index < vec_len self.old.routes }
    {
        if index >= FIRST_ROUTES || octets > LONGEST_FIRST || self.routes[index].room > 0 {
            self.count_memory(index);
        }
    }

    /// Parses `raw`, the path attributes of a table entry, into the next route of the pool (a record
    /// takes them in the order of the list, to reuse their memory), sets its time to `time`, in seconds since 1970, and returns it. If that route has other owners, a
    /// new one takes its place in the pool. Fails with `Malformed` if the attributes are malformed,
    /// or with `Memory` if memory allocation fails.
    #[inline(never)]
    pub(crate) fn parse_rib_route(
        &mut self,
        alloc: Global,
        raw: RawAttrs<'_>,
        time: u32,
    ) -> Result<Rc<Route>, WireFault>
        ensures read { IfOk result (λ route. IsRouteFrom raw.entry time route.value) }
        ensures refused { IfErr result (RefusesRaw raw.entry) }
    {
        let index = self.next_index(alloc)?;
        let read = fill_or_replace(&mut self.routes[index].route, alloc, raw, time);
        let route: Result<_, _> = self.routes[index].route.clone();
        self.count_memory_if_needed(index, raw.octets.len());
        read?;
        Ok(route?)
    }

    /// Returns a route with the attributes `attrs` and the time `time`, in seconds since 1970: the
    /// next one of the pool, overwritten, or, if that has other owners, a new one that takes its
    /// place. If `keep_attrs` is `true`, `attrs` is copied and left as it is; otherwise it is
    /// moved, and is unspecified afterwards. Fails if memory allocation fails; `attrs` is
    /// unspecified then unless `keep_attrs`.
    #[inline(always)]
    pub(crate) fn make_route(
        &mut self,
        alloc: Global,
        attrs: &mut Attrs,
        time: u32,
        keep_attrs: bool,
    ) -> Result<Rc<Route>, AllocError>
        ensures made { IfOk result (λ route. route.value ≡ route_of attrs.old time) }
        ensures kept { keep_attrs ≡ true → attrs.new ≡ attrs.old }
    {
        let index = self.next_index(alloc)?;
        match Rc::get_mut(&mut self.routes[index].route) {
            Some(route) => {
                copy_or_move_attrs(alloc, &mut route.attrs, attrs, keep_attrs)?;
                route.time = time;
            }
            None => self.routes[index].route = allocate_route(alloc, attrs, time, keep_attrs)?,
        }
        self.routes[index].route.clone()
    }
}
