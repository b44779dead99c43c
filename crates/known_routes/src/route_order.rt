//! A total order of routes, by their times and all their attributes, for searches in the sorted
//! lists of `ordered_routes.rt` alone: it doesn't tell which route a router would prefer. Read
//! [`compare_routes`] first.

use bgp_wire::{Aggregator, Attrs, Origin, Segment};
use mrt_events::Route;
use std::cmp::Ordering;

/// The number that stands for an absent ORIGIN in comparisons, above all its codes. One above it
/// would do as well.
const NO_ORIGIN: u64 = 3;

/// Compares two lists, of AS numbers or of communities, lexicographically.
#[inline]
fn compare_numbers(one: &[u32], other: &[u32]) -> Ordering {
    one.cmp(&other)
}

/// Compares two segments of AS paths: by their kinds, in the order of
/// [`SegmentKind`](bgp_wire::SegmentKind), then by their AS numbers lexicographically.
fn compare_segments(one: &Segment, other: &Segment) -> Ordering {
    match (one.kind as u64).cmp(&(other.kind as u64)) {
        Ordering::Equal => { compare_numbers(one.numbers.as_slice(), other.numbers.as_slice()) }
        unequal => unequal,
    }
}

/// Compares two AS paths: by the number of segments, then segment by segment
/// ([`compare_segments`]).
fn compare_paths(ones: &[Segment], others: &[Segment]) -> Ordering {
    let counts = ones.len().cmp(&others.len());
    if counts != Ordering::Equal {
        return counts;
    }
    'segments: for index in 0..ones.len().min(others.len()) {
        let compared = compare_segments(&ones[index], &others[index]);
        if compared != Ordering::Equal {
            return compared;
        }
    }
    Ordering::Equal
}

/// Compares two AGGREGATOR attributes: by address, then by AS number.
fn compare_aggregators(one: &Aggregator, other: &Aggregator) -> Ordering {
    match one.addr.cmp(&other.addr) {
        Ordering::Equal => one.asn.cmp(&other.asn),
        unequal => unequal,
    }
}

/// Compares two optional AGGREGATOR attributes: by address, then by AS number. `None` is less than
/// any other.
fn compare_optional_aggregators(one: &Option<Aggregator>, other: &Option<Aggregator>) -> Ordering {
    match (one, other) {
        (Some(one), Some(other)) => compare_aggregators(one, other),
        _ => one.is_some().cmp(&other.is_some()),
    }
}

/// Compares two optional ORIGIN attributes by their codes: 0 for IGP, 1 for EGP, 2 for INCOMPLETE.
/// `None` is greater than any other.
fn compare_origins(one: Option<Origin>, other: Option<Origin>) -> Ordering {
    let one = one.map_or(NO_ORIGIN, |origin| origin as u64);
    let other = other.map_or(NO_ORIGIN, |origin| origin as u64);
    one.cmp(&other)
}

/// Compares the attributes of two routes, except for AS paths and communities: by NEXT_HOP,
/// MULTI_EXIT_DISC, LOCAL_PREF, ORIGIN, ATOMIC_AGGREGATE and AGGREGATOR, in this order. An absent
/// attribute is less than a present one, but an absent ORIGIN is greater.
fn compare_short_attributes(one: &Attrs, other: &Attrs) -> Ordering {
    one.next_hop
        .cmp(&other.next_hop)
        .then(one.med.cmp(&other.med))
        .then(one.local_pref.cmp(&other.local_pref))
        .then(compare_origins(one.origin, other.origin))
        .then(one.atomic.cmp(&other.atomic))
        .then(compare_optional_aggregators(&one.aggregator, &other.aggregator))
}

/// Compares two routes in a total order: by time, then by NEXT_HOP, MULTI_EXIT_DISC, LOCAL_PREF,
/// ORIGIN, ATOMIC_AGGREGATE and AGGREGATOR, then by communities, then by AS path. The order is for
/// sorting and searching lists of routes only; it doesn't say which route is preferred. Returns
/// `Equal` only if the routes are equal.
#[inline(never)]
pub(crate) fn compare_routes(one: &Route, other: &Route) -> Ordering {
    // It isn't inlined, since few routes have the same hash.
    let (ones, others) = (&one.attrs, &other.attrs);
    let short = one
        .time
        .cmp(&other.time)
        .then(compare_short_attributes(ones, others));
    if short != Ordering::Equal {
        return short;
    }
    let communities = compare_numbers(ones.communities.as_slice(), others.communities.as_slice());
    if communities != Ordering::Equal {
        return communities;
    }
    compare_paths(
        ones.path.segments.as_slice(),
        others.path.segments.as_slice(),
    )
}
