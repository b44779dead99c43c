//! Tests whether two routes, peers or prefixes are equal, so that one can stand for the other. The
//! printers of lines, the table of known routes and the player of routing tables call them. Read
//! [`same_route`] first.

ghost use Rattle.std.specs.Prelude.{◌≡◌, ◌↔◌, IsTrue};

use crate::event::Route;
use crate::peer::Peer;
use bgp_wire::{Aggregator, Attrs, Segment};
use ip_prefix::Prefix;

/// Returns `true` if two lists of AS numbers or of communities have equal numbers in the same
/// order.
fn same_numbers(one: &[u32], other: &[u32]) -> bool
    ensures { IsTrue result ↔ (one.now ≡ other.now) }
{
    one == other
}

/// Returns `true` if two segments of AS paths are of one kind and have equal AS numbers in the same
/// order.
fn same_segment(one: &Segment, other: &Segment) -> bool
    ensures { IsTrue result ↔ (one.now ≡ other.now) }
{
    one.kind == other.kind && same_numbers(one.numbers.as_slice(), other.numbers.as_slice())
}

/// Returns `true` if two AS paths, given by their segments, have equal segments in the same order.
fn same_segments(ones: &[Segment], others: &[Segment]) -> bool
    ensures { IsTrue result ↔ (ones.now ≡ others.now) }
{
    if ones.len() != others.len() {
        return false;
    }
    'segments: for place in 0..ones.len() {
        if !same_segment(&ones[place], &others[place]) {
            return false;
        }
    }
    true
}

/// Returns `true` if two optional values are equal: both are `None`, or both are `Some` with equal
/// values. Requires that `==` of `T` is true for identical values, and for no others.
fn same_option<T: Copy + PartialEq>(one: Option<T>, other: Option<T>) -> bool
    requires { (a b : T) → IsTrue (T.eq a b) ↔ (a ≡ b) }
    ensures { IsTrue result ↔ (one ≡ other) }
{
    one == other
}

/// Returns `true` if two optional aggregators are equal: both are `None`, or both are `Some` with
/// equal AS numbers and addresses.
#[tactic(auto, using(crate::proofs::PeerLaws::tied_addresses))]
fn same_aggregator(one: Option<Aggregator>, other: Option<Aggregator>) -> bool
    ensures { IsTrue result ↔ (one ≡ other) }
{
    match (one, other) {
        (Some(one), Some(other)) => one.asn == other.asn && one.addr == other.addr,
        (None, None) => true,
        _ => false,
    }
}

/// Returns `true` if two sets of path attributes are equal: each attribute is absent from both, or
/// has equal values in both.
fn same_attributes(one: &Attrs, other: &Attrs) -> bool
    ensures { IsTrue result ↔ (one.now ≡ other.now) }
{
    // Two routes of one peer differ in their paths more often than in anything else.
    same_segments(one.path.segments.as_slice(), other.path.segments.as_slice())
        && same_numbers(one.communities.as_slice(), other.communities.as_slice())
        && same_option(one.next_hop, other.next_hop)
        && same_option(one.origin, other.origin)
        && same_option(one.local_pref, other.local_pref)
        && same_option(one.med, other.med)
        && one.atomic == other.atomic
        && same_aggregator(one.aggregator, other.aggregator)
}

/// Returns `true` if two routes have equal times and equal path attributes, or `false` if any of
/// these differ. `Route` has no `==`.
#[inline]
pub fn same_route(one: &Route, other: &Route) -> bool
    ensures { IsTrue result ↔ (one.now ≡ other.now) }
{
    one.time == other.time && same_attributes(&one.attrs, &other.attrs)
}

/// Returns `true` if two peers have equal addresses and equal AS numbers. The AS numbers are
/// compared first, unlike in `==`.
#[inline]
#[tactic(auto, using(crate::proofs::PeerLaws::tied_addresses))]
pub fn same_peer(one: &Peer, other: &Peer) -> bool
    ensures { IsTrue result ↔ (one.now ≡ other.now) }
{
    one.asn == other.asn && one.addr == other.addr
}

/// Returns `true` if two prefixes are equal, in family, length and bits, as `==` does. The contract
/// here, unlike the one of `==`, states that their values are equal, for the proofs of callers.
#[inline]
pub fn same_prefix(one: &Prefix, other: &Prefix) -> bool
    ensures { IsTrue result ↔ (one.now ≡ other.now) }
{
    *one == *other
}
