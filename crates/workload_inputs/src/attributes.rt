//! The attributes of routes, as full tables show them.

ghost use Rattle.std.specs.Prelude.{◌<◌};

use crate::chance::Chance;
use crate::octets::Octets;
use crate::paths::{Path, origin};
use crate::peers::{Peer, transit};

/// The flags of an attribute with a length of one octet, and of one with two.
const FLAGS: u8 = 0x40;

const LONG_FLAGS: u8 = 0x50;

/// Appends the front of an attribute whose short value, of this length, follows.
fn put_front(octets: &mut Octets, kind: u8, len: usize) {
    octets.put(&[FLAGS, kind]);
    octets.put_len8(len);
}

/// Appends an attribute with a short value.
fn put_attribute(octets: &mut Octets, kind: u8, value: &[u8]) {
    put_front(octets, kind, value.len());
    octets.put(value);
}

/// Appends an attribute that is a path, with numbers of four octets, or of two.
fn put_path(octets: &mut Octets, kind: u8, path: &Path, wide: bool) {
    put_front(octets, kind, path.len(wide));
    path.put(octets, wide);
}

/// Appends the front of an attribute whose value, of this length, follows.
pub(crate) fn put_long_front(octets: &mut Octets, kind: u8, len: usize) {
    octets.put(&[LONG_FLAGS, kind]);
    octets.put_len16(len);
}

/// How many communities a route has: none of a fifth of them, many of a few.
fn community_count(chance: &mut Chance) -> u32 {
    match chance.below(100) {
        0..=17 => 0,
        18..=49 => 1 + chance.below(3),
        50..=84 => 4 + chance.below(4),
        85..=97 => 8 + chance.below(3),
        98 => 11 + chance.below(30),
        _ => 41 + chance.below(80),
    }
}

/// A community, some of them of those that all know.
fn community(chance: &mut Chance) -> u32 {
    if chance.happens(4) {
        0xffff_ff01 + chance.below(3)
    } else {
        (transit(chance) % 65_536) << 16 | chance.below(3_000)
    }
}

/// Appends communities, if there are any.
fn put_communities(octets: &mut Octets, chance: &mut Chance) {
    let count = community_count(chance);
    if count == 0 {
        return;
    }
    put_long_front(octets, 8, 4 * count as usize);
    for _ in 0..count {
        octets.put_u32(community(chance));
    }
}

/// Appends large communities, or extended ones, which aren't printed.
fn put_other_communities(octets: &mut Octets, kind: u8, words: u32, chance: &mut Chance) {
    let count = words.wrapping_mul(1 + chance.below(4));
    put_long_front(octets, kind, 4 * count as usize);
    for _ in 0..count {
        octets.put_u32(chance.below(400_000));
    }
}

/// Appends AGGREGATOR, in this width.
fn put_aggregator(octets: &mut Octets, wide: bool, chance: &mut Chance) {
    if wide {
        put_front(octets, 7, 8);
        octets.put_u32(origin(chance));
    } else {
        put_front(octets, 7, 6);
        octets.put_u16(1 + chance.below(64_000) as u16);
    }
    octets.put_u32(0x0a00_0000 + chance.below(1 << 24));
}

/// Appends the attributes of a route that the peer announces, with a next hop of its own where it
/// is of IPv4, and with AS numbers of four octets, or of two.
pub(crate) fn put_attributes(octets: &mut Octets, peer: &Peer, wide: bool, chance: &mut Chance) {
    let path = Path::drawn(peer, chance);
    put_attribute(octets, 1, &[if chance.happens(850) { 0 } else { 2 }]);
    put_path(octets, 2, &path, wide);
    if !peer.v6 {
        put_attribute(octets, 3, peer.address());
    }
    put_marks(octets, wide, chance);
    put_all_communities(octets, chance);
    if !wide && path.is_wide() {
        put_path(octets, 17, &path, true);
    }
}

/// Appends what some routes have behind their next hop.
fn put_marks(octets: &mut Octets, wide: bool, chance: &mut Chance) {
    if chance.happens(250) {
        put_attribute(octets, 4, &chance.below(1_000).to_be_bytes());
    }
    if chance.happens(50) {
        put_attribute(octets, 6, &[]);
    }
    if chance.happens(80) {
        put_aggregator(octets, wide, chance);
    }
}

/// Appends communities of all kinds, those that the route has.
fn put_all_communities(octets: &mut Octets, chance: &mut Chance) {
    put_communities(octets, chance);
    if chance.happens(40) {
        put_other_communities(octets, 16, 2, chance);
    }
    if chance.happens(250) {
        put_other_communities(octets, 32, 3, chance);
    }
}
