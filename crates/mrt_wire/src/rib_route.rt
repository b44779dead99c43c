//! Parsing the path attributes of a table entry into a route, whose memory is reused if nobody else
//! holds it. `route_pool.rt` and `route_cache.rt` call [`fill_or_replace`]. Read [`RawAttrs`]
//! first.

ghost use Rattle.std.specs.Prelude.{IfOk, IfErr, OnOk};
ghost use Rattle.mrt_wire.specs.Decoding.{IsRouteFrom, RefusesRaw};

use bgp_wire::{AsWidth, Attrs, WireFault, read_rib_attrs_into};
use ip_prefix::Family;
use mrt_events::Route;
use std::alloc::{AllocError, Global};
use std::rc::Rc;

/// The path attributes of a table entry, unparsed, with what is needed to parse them: the family of
/// the entry's prefix and the width of AS numbers.
#[derive(Clone, Copy)]
pub(crate) struct RawAttrs<'a> {
    /// The octets of the path attributes, without their total length (RFC 4271, section 4.3).
    pub(crate) octets: &'a [u8],
    /// The address family of the prefix of the entry, by which the attributes are parsed.
    pub(crate) family: Family,
    /// The width of AS numbers: two octets in TABLE_DUMP, and four in TABLE_DUMP_V2.
    pub(crate) width: AsWidth,
}

/// Returns a route without attributes and with time 0, for a parser to fill. Allocates no memory.
#[inline(always)]
pub(crate) fn blank_route(alloc: Global) -> Route {
    let attrs = Attrs::empty(alloc);
    Route { attrs, time: 0 }
}

/// Allocates a shared route (an `Rc`) without attributes and with time 0, for a parser to fill.
/// Fails if memory allocation fails.
pub(crate) fn new_route(alloc: Global) -> Result<Rc<Route>, AllocError> {
    Ok(Rc::new(alloc, blank_route(alloc))?)
}

/// Parses `raw`, the path attributes of a table entry, into `route` in place of what it holds, and
/// sets its time to `time`, in seconds since 1970. Fails with `Malformed` if the attributes are
/// malformed, or with `Memory` if memory allocation fails; `route` is unspecified then.
#[inline(always)]
pub(crate) fn fill_rib_route(
    route: &mut Route,
    alloc: Global,
    raw: RawAttrs<'_>,
    time: u32,
) -> Result<(), WireFault>
    ensures read { OnOk result (IsRouteFrom raw.entry time route.new) }
    ensures refused { IfErr result (RefusesRaw raw.entry) }
{
    let RawAttrs {
        octets,
        family,
        width,
    } = raw;
    read_rib_attrs_into(alloc, &mut route.attrs, family, width, octets)?;
    route.time = time;
    Ok(())
}

/// Parses `raw`, the path attributes of a table entry, into a new route with the time `time`, in
/// seconds since 1970. Fails with `Malformed` if the attributes are malformed, or with `Memory` if
/// memory allocation fails.
#[inline(always)]
fn read_rib_route(alloc: Global, raw: RawAttrs<'_>, time: u32) -> Result<Rc<Route>, WireFault>
    ensures read { IfOk result (λ route. IsRouteFrom raw.entry time route.value) }
    ensures refused { IfErr result (RefusesRaw raw.entry) }
{
    let mut shared = new_route(alloc)?;
    fill_rib_route(Rc::make_mut(&mut shared)?, alloc, raw, time)?;
    Ok(shared)
}

/// Parses `raw`, the path attributes of a table entry, into the route of `shared`, and sets its
/// time to `time`, in seconds since 1970. If the route has another owner, sets `shared` to a new
/// route instead. Fails with `Malformed` if the attributes are malformed, or with `Memory` if
/// memory allocation fails; then `shared` is unchanged if its route has another owner, and holds an
/// unspecified route if not.
#[inline(always)]
pub(crate) fn fill_or_replace(
    shared: &mut Rc<Route>,
    alloc: Global,
    raw: RawAttrs<'_>,
    time: u32,
) -> Result<(), WireFault>
    ensures read { OnOk result (IsRouteFrom raw.entry time shared.new.value) }
    ensures refused { IfErr result (RefusesRaw raw.entry) }
{
    match Rc::get_mut(shared) {
        Some(route) => fill_rib_route(route, alloc, raw, time)?,
        None => *shared = read_rib_route(alloc, raw, time)?,
    }
    Ok(())
}
