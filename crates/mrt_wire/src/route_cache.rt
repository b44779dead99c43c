//! A cache of the routes that table entries were parsed into, each with the octets that it was
//! parsed from. Peers mostly send the same attributes in record after record, which so are parsed
//! once. `rib.rt` and `table_dump.rt` call [`RouteCache::get_or_parse`] for each entry; read that
//! first, then [`CachedRoute`].

ghost use Rattle.std.specs.Prelude.{◌≡◌, ◌≤◌, ◌<◌, IsTrue, IfOk, IfErr, IfSome, OnOk, vec_len};
ghost use Rattle.bgp_wire.specs.Content.{SpellsRibAttrs};
ghost use Rattle.mrt_wire.specs.declared.peers.TheConstants.{PEER_SLOTS};
ghost use Rattle.mrt_wire.specs.declared.route_cache.TheConstants.{MOST_SPARES};
ghost use Rattle.mrt_wire.specs.Decoding.{IsRouteFrom, RefusesRaw};

use crate::peers::PEER_SLOTS;
use crate::rib_route::{RawAttrs, fill_or_replace, new_route};
use crate::route_pool::RoutePool;
use bgp_wire::{AS_PATH, AsWidth, EXTENDED_LENGTH, MP_REACH_NLRI, ORIGIN, WireFault};
use ip_prefix::Family;
use mrt_events::Route;
use std::alloc::{AllocError, Global};
use std::marker::Model;
use std::mem;
use std::rc::Rc;

/// The size of the value of the ORIGIN attribute, in octets, which is its length octet (RFC 4271,
/// section 4.3).
const ORIGIN_SIZE: u8 = 1;

/// The largest size of the path attributes of a cached route, in octets. Attributes of one octet
/// more are parsed for each entry, into a route whose memory later records reuse.
const LONGEST_CACHED: usize = 192;

/// The largest number of path segments of a cached route. A slot of the cache whose route has one
/// segment more is emptied, so that the next entry there is parsed into new memory.
const MOST_SEGMENTS: usize = 2;

/// The largest number of octets of memory that a slot of the cache takes, with all capacity of its
/// route. It was computed for the path that takes most, one of AS numbers of two octets. Nothing
/// compares it at run time; the bound `MOST_OCTETS` of `pool.rt` is proved with it.
pub(crate) const LARGEST_SLOT: usize = 1344;

/// The largest number of spare routes, which replace cached routes that have other owners. A record
/// with more entries whose routes have other owners allocates memory for the further ones.
pub(crate) const MOST_SPARES: usize = 64;

/// A ring of up to [`MOST_SPARES`] routes that replace cached routes with other owners, such as an
/// event, which can't be overwritten. A cached route with other owners goes into the ring. The
/// oldest route of a full ring takes its place in the cache, or a new one if the ring isn't full.
/// By then the other owners of the oldest route have mostly dropped it; if not, [`fill_or_replace`]
/// makes a new one.
#[derive(Drop)]
struct SpareRoutes {
    /// The routes of the ring, at most [`MOST_SPARES`].
    routes: Vec<Rc<Route>>,
    /// The index of the route that is swapped out next.
    next: usize,
    ghost few: { vec_len routes ≤ MOST_SPARES },
    ghost within: { next < MOST_SPARES },
}

impl SpareRoutes {
    /// Returns a ring without routes, without allocating memory.
    fn new(alloc: Global) -> SpareRoutes {
        SpareRoutes {
            routes: Vec::new(alloc),
            next: 0,
        }
    }

    /// Exchanges the route in `route`, which has other owners, for one that can mostly be
    /// overwritten: moves it into the ring, and sets `route` to the oldest route of the ring, or to
    /// a new one without attributes if the ring had fewer than [`MOST_SPARES`] before. The oldest
    /// may still have other owners. Fails if memory allocation fails; `route` then holds an
    /// unspecified route.
    #[inline(always)]
    fn swap_for_spare(&mut self, alloc: Global, route: &mut Rc<Route>) -> Result<(), AllocError> {
        match self.routes.get_mut(self.next) {
            Some(spare) => mem::swap(spare, route),
            None => self.swap_for_new_route(alloc, route)?,
        }
        self.next = (self.next + 1) % MOST_SPARES;
        Ok(())
    }

    /// Moves the route of `route` to the end of the ring, and puts a new one without attributes
    /// into its place. Requires that the ring has fewer than [`MOST_SPARES`] routes. Fails if
    /// memory allocation fails; `route` holds an unspecified route then.
    #[inline(never)]
    fn swap_for_new_route(&mut self, alloc: Global, route: &mut Rc<Route>) -> Result<(), AllocError>
        requires { vec_len self.old.routes < MOST_SPARES }
        ensures { self.new.next ≡ self.old.next }
    {
        let blank = new_route(alloc)?;
        self.routes.push(mem::replace(route, blank))?;
        Ok(())
    }
}

/// A route of a table entry, with the octets that its attributes were parsed from, so that a later
/// entry with equal octets needn't be parsed. In contracts, its value is the route alone.
#[derive(Drop)]
struct CachedRoute {
    /// The route, which events may share.
    route: Rc<Route>,
    /// The octets that the path attributes of `route` were parsed from, without their total length
    /// (RFC 4271, section 4.3).
    octets: Vec<u8>,
    /// The address family of the prefix of the entry that `octets` were parsed for.
    family: Family,
    /// The width of the AS numbers in `octets`, two or four octets.
    width: AsWidth,
    /// Whether `route` was parsed from `octets`: `false` before the first entry, and after an entry
    /// that couldn't be parsed.
    known: bool,
}

impl Model for CachedRoute {
    ghost use Rattle.std.specs.Prelude.{◌≡◌, true};
    ghost use Rattle.bgp_wire.specs.Content.{SpellsRibAttrs};
    ghost use Rattle.mrt_events.specs.declared.event.Route.{Route};

    ghost Value = { Route };

    ghost view = { λ a. a.route.value };

    ghost invariant = { λ a. a.known ≡ true →
        SpellsRibAttrs a.family a.width a.route.value.attrs a.octets.items };
}

impl CachedRoute {
    /// Returns a cached route without attributes, which the first entry is to be parsed into:
    /// [`CachedRoute::was_read_from`] returns `false` until then. Fails if memory allocation fails.
    fn new(alloc: Global) -> Result<CachedRoute, AllocError> {
        let route = new_route(alloc)?;
        Ok(CachedRoute {
            route,
            octets: Vec::with_capacity(alloc, LONGEST_CACHED)?,
            family: Family::V4,
            width: AsWidth::Four,
            known: false,
        })
    }

    /// Returns `true` if the route has the attributes that parsing `raw` would give: it was parsed
    /// from equal octets, for a prefix of the same family and with AS numbers of the same width.
    /// Returns `false` if `raw` has to be parsed.
    #[inline(always)]
    fn was_read_from(&self, raw: RawAttrs<'_>) -> bool
        ensures { IsTrue result → SpellsRibAttrs raw.entry.family raw.entry.width
            self.now.attrs raw.entry.octets.now }
    {
        self.known
            && self.family == raw.family
            && self.width == raw.width
            && self.octets.as_slice() == raw.octets
    }

    /// Sets the time of the route to `time`, in seconds since 1970, unless another owner has the
    /// route too. Returns `true` if the route has this time afterwards, also if it had it before.
    /// Returns `false` if the route has another time and another owner; it is unchanged then.
    #[inline(always)]
    fn try_set_time(&mut self, time: u32) -> bool
        ensures time { IsTrue result → self.new.time ≡ time }
        ensures attrs { self.new.attrs ≡ self.old.attrs }
    {
        if self.route.time == time {
            return true;
        }
        match Rc::get_mut(&mut self.route) {
            Some(route) => {
                route.time = time;
                true
            }
            None => false,
        }
    }

    /// Parses `raw`, the path attributes of a table entry, into the route, sets its time to `time`,
    /// in seconds since 1970, and returns it. Doesn't compare `raw` with the octets that the route
    /// was parsed from: callers ask [`CachedRoute::was_read_from`] first. A route with other owners
    /// isn't overwritten: it is moved into the ring `spares`, and a route of the ring or a new one
    /// takes its place. Fails with `Malformed` if the attributes are malformed, or with `Memory` if
    /// memory allocation fails; [`CachedRoute::was_read_from`] then returns `false` until a call
    /// succeeds.
    #[inline(always)]
    fn parse(
        &mut self,
        alloc: Global,
        spares: &mut SpareRoutes,
        raw: RawAttrs<'_>,
        time: u32,
    ) -> Result<Rc<Route>, WireFault>
        ensures read { IfOk result (λ route. IsRouteFrom raw.entry time route.value) }
        ensures refused { IfErr result (RefusesRaw raw.entry) }
    {
        self.known = false;
        if Rc::strong_count(&self.route) > 1 {
            spares.swap_for_spare(alloc, &mut self.route)?;
        }
        fill_or_replace(&mut self.route, alloc, raw, time)?;
        self.octets.clear();
        self.octets.extend_from_slice(raw.octets)?;
        self.family = raw.family;
        self.width = raw.width;
        self.known = true;
        Ok(self.route.clone()?)
    }
}

/// Returns `true` if the path attributes `octets` begin as most routers send them, with ORIGIN and
/// then an AS_PATH of one segment, whose AS numbers are of `width` (RFC 4271, section 5). AS_PATH
/// isn't parsed: its length is compared with the count of AS numbers in its first segment. A route
/// of this layout takes bounded memory and is cached. Returns `false` otherwise, also for an empty
/// AS_PATH.
#[inline(always)]
fn has_usual_layout(octets: &[u8], width: AsWidth) -> bool {
    let (size, count) = match octets {
        [
            _,
            ORIGIN,
            ORIGIN_SIZE,
            _,
            flags,
            AS_PATH,
            size,
            _,
            count,
            ..
        ] if flags & EXTENDED_LENGTH == 0 => { (*size, *count) }
        [_, ORIGIN, ORIGIN_SIZE, _, _, AS_PATH, 0, size, _, count, ..] => (*size, *count),
        _ => return false,
    };
    usize::from(size) == usize::from(count) * width.octets() + 2
}

/// Returns `true` if the path attributes `octets` begin with MP_REACH_NLRI, with its length in one
/// octet, and then as most routers send them: with ORIGIN and an AS_PATH of one segment, whose AS
/// numbers are of `width` ([`has_usual_layout`]). Some routers send MP_REACH_NLRI first (RFC 7606,
/// section 5.1). A route of this layout takes bounded memory and is cached. Returns `false`
/// otherwise.
#[inline(never)]
fn has_usual_layout_after_mp_reach(octets: &[u8], width: AsWidth) -> bool {
    match octets {
        [flags, MP_REACH_NLRI, size, rest @ ..] if flags & EXTENDED_LENGTH == 0 => rest
            .get(usize::from(*size)..)
            .is_some_and(|behind| has_usual_layout(behind, width)),
        _ => false,
    }
}

/// A cache of the last parsed route of each peer of a routing table, so that a later entry of the
/// peer with the same path attributes needn't be parsed. Each peer has a slot, whose index is
/// computed from its peer index for TABLE_DUMP_V2, and from its address and AS number for
/// TABLE_DUMP. Peers with the same slot overwrite each other's route.
#[derive(Drop)]
pub(crate) struct RouteCache {
    /// The slots, up to the last that was needed. A slot without a route is `None`.
    slots: Vec<Option<CachedRoute>>,
    /// Routes that take the place of cached routes which have other owners.
    spares: SpareRoutes,
    /// The routes of entries that aren't cached, whose memory later records reuse.
    pub(crate) routes: RoutePool,
    ghost bounded: { vec_len slots ≤ PEER_SLOTS },
}

impl RouteCache {
    /// Returns a cache without slots, without allocating memory.
    pub(crate) fn new(alloc: Global) -> RouteCache {
        RouteCache {
            slots: Vec::new(alloc),
            spares: SpareRoutes::new(alloc),
            routes: RoutePool::new(alloc),
        }
    }

    /// Adds slots without routes until there is one with the index `slot`, which is required to be
    /// below [`PEER_SLOTS`]. Fails if memory allocation fails; some of the slots may have been
    /// added then.
    fn ensure_slot(&mut self, slot: usize) -> Result<(), AllocError>
        requires { slot < PEER_SLOTS }
        ensures { OnOk result (slot < vec_len self.new.slots) }
    {
        'slots: while self.slots.len() <= slot {
            self.slots.push(None)?;
        }
        Ok(())
    }

    /// Removes the route of the slot with the index `slot`, if it has one. Frees the memory of the
    /// route unless that has other owners. Requires that the cache has a slot with this index.
    #[inline(never)]
    fn clear(&mut self, slot: usize)
        requires { slot < vec_len self.old.slots }
    {
        self.slots[slot] = None;
    }

    /// Parses `raw`, the path attributes of a table entry, into the slot with the index `slot`, and
    /// returns the route, with the time `time`, in seconds since 1970. Requires that the cache has
    /// a slot with this index. Fails with `Malformed` if the attributes are malformed, or with
    /// `Memory` if memory allocation fails; the slot then counts as empty, and a later entry with
    /// these attributes is parsed anew.
    #[inline(always)]
    fn parse_into_slot(
        &mut self,
        alloc: Global,
        slot: usize,
        raw: RawAttrs<'_>,
        time: u32,
    ) -> Result<Rc<Route>, WireFault>
        requires { slot < vec_len self.old.slots }
        ensures read { IfOk result (λ route. IsRouteFrom raw.entry time route.value) }
        ensures refused { IfErr result (RefusesRaw raw.entry) }
        ensures slots { vec_len self.new.slots ≡ vec_len self.old.slots }
    {
        // One call of it, so that a compiler puts it here whole.
        if self.slots[slot].is_none() {
            self.slots[slot] = Some(CachedRoute::new(alloc)?);
        }
        match &mut self.slots[slot] {
            Some(read) => read.parse(alloc, &mut self.spares, raw, time),
            None => unreachable!(),
        }
    }

    /// Returns a route with the path attributes `raw` of a table entry and the time `time`, in
    /// seconds since 1970: the cached one, or else a parsed one. The cached route is in the slot
    /// with the index `number` modulo [`PEER_SLOTS`], where `number` is the peer index or a hash of
    /// the peer. It is returned if it was parsed from equal octets, and if its time is `time`, or
    /// can be set to `time` since it has no other owner. Otherwise `raw` is parsed into the slot,
    /// or, if it is longer than [`LONGEST_CACHED`] or may make a large route, into a route that
    /// isn't cached. Fails with `Malformed` if the attributes are malformed, or with `Memory` if
    /// memory allocation fails.
    #[inline(always)]
    pub(crate) fn get_or_parse(
        &mut self,
        alloc: Global,
        number: usize,
        raw: RawAttrs<'_>,
        time: u32,
    ) -> Result<Rc<Route>, WireFault>
        ensures read { IfOk result (λ route. IsRouteFrom raw.entry time route.value) }
        ensures refused { IfErr result (RefusesRaw raw.entry) }
    {
        // Which routes are cached changes time and memory alone, so the contract doesn't tell them apart.
        if raw.octets.len() > LONGEST_CACHED {
            return self.routes.parse_rib_route(alloc, raw, time);
        }
        let slot = number % PEER_SLOTS;
        self.ensure_slot(slot)?;
        if let Some(read) = &mut self.slots[slot] {
            if read.was_read_from(raw) && read.try_set_time(time) {
                return Ok(read.route.clone()?);
            }
        }
        if !has_usual_layout(raw.octets, raw.width)
            && !has_usual_layout_after_mp_reach(raw.octets, raw.width)
        {
            return self.routes.parse_rib_route(alloc, raw, time);
        }
        let route = self.parse_into_slot(alloc, slot, raw, time)?;
        if route.attrs.path.segments.as_slice().len() > MOST_SEGMENTS {
            self.clear(slot);
        }
        Ok(route)
    }
}
