//! Hashes of routes and of peers: equal ones have equal hashes, and others mostly don't.
//! `routes.rt` looks up routes by them, and `rib_player` looks up peers. Read [`hash_route`] first.

ghost use Rattle.std.specs.Prelude.{◌+◌, ◌≤◌};
ghost use Rattle.ip_prefix.specs.Network.{octet_count};

use bgp_wire::Attrs;
use ip_prefix::{Addr, Family};
use mrt_events::{Peer, Route};

/// The factor by which each step of a hash of a route or a peer multiplies: the odd number nearest
/// to 2^64 divided by the golden ratio. The lower half of a product depends on the lowest bits
/// most, and the upper half on the highest. An even factor would lose the highest bit.
const MULTIPLIER: u64 = 0x9e37_79b9_7f4a_7c15;

/// The number whose lowest 64 bits are set, which selects the lower half of a product of 128 bits.
/// With a bit less, that half would lose its highest bit.
const LOWER_HALF: u128 = 0xffff_ffff_ffff_ffff;

/// The number that is hashed for an absent ORIGIN, above all its codes. One above it is that of an
/// ORIGIN of 0 with ATOMIC_AGGREGATE.
const NO_ORIGIN: u32 = 3;

/// The number of bits of a list's mark, a number that tells lists of AS numbers and of communities
/// apart. With one less, a mark and the length of a list would share a bit.
const MARK_BITS: u32 = 3;

/// The mark that is hashed with a list of communities, above those of path segments, which are the
/// numbers of their kinds. One above it would do as well.
const COMMUNITIES: u64 = 4;

/// The number of lowest bits of a 64-bit hash that are dropped, so that 32 are left. With one more,
/// half of all slots of the hash table would never be taken.
const LOWEST_BITS: u32 = 32;

/// Returns the hash so far, `hash`, with `number` mixed in: one step of a multiplicative hash.
#[inline]
fn mix(hash: u64, number: u64) -> u64 {
    let product = u128::from(hash ^ number).wrapping_mul(u128::from(MULTIPLIER));
    (product >> 64) as u64 ^ (product & LOWER_HALF) as u64
}

/// Returns the number whose low 32 bits are `low` and whose high 32 bits are `high`, so that both
/// are hashed in one step.
#[inline]
fn joined(low: u32, high: u32) -> u64 {
    u64::from(low) | u64::from(high) << 32
}

/// Returns the four octets of the address from the octet at `offset` on, counted from 0, as a
/// big-endian number. Requires that the address has these octets.
#[inline]
fn be_u32_at(addr: &Addr, offset: usize) -> u32
    requires { offset + 4 ≤ octet_count addr.now.family }
{
    u32::from_be_bytes([
        addr.octet(offset),
        addr.octet(offset + 1),
        addr.octet(offset + 2),
        addr.octet(offset + 3),
    ])
}

/// Returns the hash so far, `hash`, with all octets of the address mixed in.
#[inline]
fn mix_address(hash: u64, addr: &Addr) -> u64 {
    match addr.family() {
        Family::V4 => mix(hash, u64::from(be_u32_at(addr, 0))),
        Family::V6 => {
            let first = mix(hash, joined(be_u32_at(addr, 4), be_u32_at(addr, 0)));
            mix(first, joined(be_u32_at(addr, 12), be_u32_at(addr, 8)))
        }
    }
}

/// Returns the hash so far, `hash`, with a list mixed in: its mark, its length and each of its
/// numbers. `mark`, at most 7, tells what list it is: the kind of a path segment, from 0 to 3, for
/// its AS numbers, or [`COMMUNITIES`].
#[inline]
fn mix_numbers(hash: u64, mark: u64, numbers: &[u32]) -> u64 {
    let mut hash = mix(hash, (numbers.len() as u64) << MARK_BITS | mark);
    let (pairs, rest) = numbers.as_chunks::<2>();
    'pairs: for pair in pairs {
        hash = mix(hash, joined(pair[0], pair[1]));
    }
    match rest.first() {
        Some(number) => mix(hash, u64::from(*number)),
        None => hash,
    }
}

/// Returns some attributes as bits of one number, to be hashed: ORIGIN in the two lowest bits, or 3
/// there if it is absent; ATOMIC_AGGREGATE in bit 2 (counted from 0, the lowest); and in bits 3 to
/// 6 whether NEXT_HOP, LOCAL_PREF, MULTI_EXIT_DISC and AGGREGATOR are present.
#[inline]
fn attribute_bits(attrs: &Attrs) -> u32 {
    attrs.origin.map_or(NO_ORIGIN, |origin| origin as u32)
        | u32::from(attrs.atomic) << 2
        | u32::from(attrs.next_hop.is_some()) << 3
        | u32::from(attrs.local_pref.is_some()) << 4
        | u32::from(attrs.med.is_some()) << 5
        | u32::from(attrs.aggregator.is_some()) << 6
}

/// Returns the hash of the route, from its time and all its attributes. Equal routes have equal
/// hashes, in every execution of the program.
pub(crate) fn hash_route(route: &Route) -> u32 {
    let attrs = &route.attrs;
    let numbers = joined(attrs.local_pref.unwrap_or(0), attrs.med.unwrap_or(0));
    let mut hash = mix(mix(0, joined(route.time, attribute_bits(attrs))), numbers);
    if let Some(addr) = attrs.next_hop {
        hash = mix_address(hash, &addr);
    }
    if let Some(aggregator) = attrs.aggregator {
        hash = mix(
            mix_address(hash, &aggregator.addr),
            u64::from(aggregator.asn),
        );
    }
    'segments: for segment in attrs.path.segments.as_slice() {
        hash = mix_numbers(hash, segment.kind as u64, segment.numbers.as_slice());
    }
    hash = mix_numbers(hash, COMMUNITIES, attrs.communities.as_slice());
    (hash >> LOWEST_BITS) as u32
}

/// Returns a hash of the peer's address and AS number, for callers that look up peers in a table by
/// it. They should use the highest bits, which depend on all bits of the peer. Equal peers have
/// equal hashes.
#[inline]
pub fn peer_hash(peer: &Peer) -> u64 {
    mix_address(u64::from(peer.asn) << 32, &peer.addr)
}
