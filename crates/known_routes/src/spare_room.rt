//! Copies of routes without spare capacity. When [`RouteInterner`](crate::RouteInterner) adds a
//! route whose vectors have much spare capacity, it adds a copy, and the reader of records parses a
//! later route into the original. Read [`copy_if_oversized`] first.

ghost use Rattle.std.specs.Prelude.{◌≡◌, IfOk};

use bgp_wire::Segment;
use mrt_events::Route;
use std::alloc::{AllocError, Global};
use std::mem::size_of;
use std::rc::Rc;

/// The number of octets of spare capacity that a route may have, besides the share by
/// [`SPARE_SHARE`] of the octets that it takes. One that has an octet more is copied to blocks
/// without spare capacity.
const MOST_SPARE: u64 = 40;

/// The divisor of the octets that a route takes, which gives the octets of spare capacity that it
/// may have besides [`MOST_SPARE`]. With a number one above it, less spare capacity is left to a
/// route.
const SPARE_SHARE: u64 = 4;

/// The number of octets in memory of an AS number of a path, or of a community.
const NUMBER_OCTETS: usize = size_of::<u32>();

/// The number of octets in memory of a path segment in the list of a path, without its AS numbers.
const SEGMENT_OCTETS: usize = size_of::<Segment>();

/// Returns the number of octets of memory that unused capacity for `count` elements takes, if each
/// element takes `octets` octets.
#[inline]
fn spare_octets(count: usize, octets: usize) -> u64 {
    (count as u64).wrapping_mul(octets as u64)
}

/// Returns `true` if the spare capacity of the route's vectors is more than the sum of
/// [`MOST_SPARE`] octets and a [`SPARE_SHARE`]th of `octets`. `octets` is the number of octets that
/// the route takes without spare capacity ([`route_size`](mrt_events::route_size)).
#[inline]
fn has_much_spare(route: &Route, octets: u64) -> bool {
    let attrs = &route.attrs;
    let segments = &attrs.path.segments;
    let communities = &attrs.communities.items;
    let spare_communities = communities.capacity().wrapping_sub(communities.len());
    let mut spare = spare_octets(segments.spare_capacity(), SEGMENT_OCTETS);
    spare = spare.wrapping_add(spare_octets(spare_communities, NUMBER_OCTETS));
    'segments: for segment in segments.as_slice() {
        let spare_numbers = segment.numbers.spare_capacity();
        spare = spare.wrapping_add(spare_octets(spare_numbers, NUMBER_OCTETS));
    }
    spare > MOST_SPARE && spare - MOST_SPARE > octets / SPARE_SHARE
}

/// Returns a copy of the route in memory of its own, without spare capacity. Fails if memory
/// allocation fails.
#[inline(never)]
fn copy_route(alloc: Global, route: &Route) -> Result<Rc<Route>, AllocError>
    ensures { IfOk result (λ copy. copy.value ≡ route.now) }
{
    let copy = route.clone()?;
    Ok(Rc::new(alloc, copy)?)
}

/// Returns `route`, or a copy of it without spare capacity if its vectors have much of that: more
/// than the sum of [`MOST_SPARE`] octets and a [`SPARE_SHARE`]th of `octets`. `octets` is the
/// number of octets that the route takes without spare capacity
/// ([`route_size`](mrt_events::route_size)). Fails if memory allocation fails.
#[inline]
pub(crate) fn copy_if_oversized(
    alloc: Global,
    route: &Rc<Route>,
    octets: u64,
) -> Result<Rc<Route>, AllocError>
    ensures { IfOk result (λ copy. copy.value ≡ route.now.value) }
{
    if has_much_spare(route, octets) {
        return copy_route(alloc, route);
    }
    route.clone()
}
