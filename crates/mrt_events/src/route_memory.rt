//! An estimate of the octets of memory that a route takes. `mrt_wire` bounds the memory of the
//! unused routes that it keeps for reuse by [`max_route_size`], and `known_routes` decides by
//! [`route_size`] which routes to drop. That a route takes no more isn't proved.

use crate::event::Route;
use bgp_wire::Segment;

/// The number of octets that every route is counted with at least: its fixed path attributes, and
/// the allocator's overhead for its blocks of memory, the route and the list of communities.
const ROUTE_OCTETS: u64 = 208;

/// The number of octets that a segment of an AS path is counted with, without its AS numbers: its
/// element in the path's list, and the allocator's overhead for its block of memory and for that of
/// the list. Most segments take fewer, as up to seven AS numbers are held in the element, and a
/// single segment is held in the route and needs no list.
const SEGMENT_OCTETS: u64 = 64;

/// The number of octets that an AS number in a path, or a community, takes.
const NUMBER_OCTETS: u64 = 4;

/// The number of octets of spare capacity that a route has at most if it was parsed from octets:
/// for 4 path segments of 40 octets (`MOST_SPARE` of `segments.rt` in `bgp_paths`), for 32
/// communities (`MOST_SPARE` of `attrs.rt` in `bgp_wire`), and what the allocator rounds up. A route
/// with more takes more than is counted.
const SPARE_OCTETS: u64 = 336;

/// The number of octets of spare capacity that a path segment has at most in a route that was
/// parsed from octets: for 8 AS numbers (`MOST_SPARE` of `as_numbers.rt` in `bgp_paths`). A segment
/// with more takes more than is counted.
const SEGMENT_SPARE: u64 = 32;

/// Returns the product of `count` and `octets`, or `u64::MAX` if it is greater.
#[inline]
fn saturating_product(count: usize, octets: u64) -> u64 {
    (count as u64).saturating_mul(octets)
}

/// Returns the total number of AS numbers in `segments`.
#[inline]
fn number_count(segments: &[Segment]) -> usize {
    // The numbers are all in memory, so that the sum never wraps.
    let mut count: usize = 0;
    'segments: for segment in segments {
        count = count.wrapping_add(segment.numbers.as_slice().len());
    }
    count
}

/// Returns an estimate of the octets of memory that a route takes, computed from the lengths of its
/// AS path and communities, without the spare capacity of these lists. The estimate is `u64::MAX`
/// if it would be greater.
pub fn route_size(route: &Route) -> u64 {
    let attrs = &route.attrs;
    let segments = attrs.path.segments.as_slice();
    let numbers = saturating_product(number_count(segments), NUMBER_OCTETS);
    let communities = saturating_product(attrs.communities.as_slice().len(), NUMBER_OCTETS);
    ROUTE_OCTETS
        .saturating_add(saturating_product(segments.len(), SEGMENT_OCTETS))
        .saturating_add(numbers)
        .saturating_add(communities)
}

/// Returns an upper estimate of the octets of memory that a route takes if it was parsed from
/// octets: [`route_size`] plus the most spare capacity that the lists of such a route have. The
/// estimate is `u64::MAX` if it would be greater.
pub fn max_route_size(route: &Route) -> u64 {
    let segments = route.attrs.path.segments.as_slice().len();
    route_size(route)
        .saturating_add(SPARE_OCTETS)
        .saturating_add(saturating_product(segments, SEGMENT_SPARE))
}
