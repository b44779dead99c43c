//! The peers of a peer index table, and the hash of a peer that selects the slot of the cache of
//! `route_cache.rt` in which the peer's last route is. `table_dump.rt` calls [`peer_hash`]; an
//! entry of a RIB record gets its slot by its peer index instead. Read [`Peers`] first.

ghost use Rattle.std.specs.Prelude.{◌<◌};
ghost use Rattle.mrt_wire.specs.declared.peers.TheConstants.{PEER_SLOTS};

use bgp_paths::VecAsList;
use ip_prefix::{Addr, Family, V4_OCTETS};
use mrt_events::Peer;

/// The number of slots of the cache of parsed routes
/// ([`RouteCache`](crate::route_cache::RouteCache)) that peers are spread over. With one more peer,
/// two peers share a slot, and the route of each overwrites the other's.
pub(crate) const PEER_SLOTS: usize = 256;

/// The multiplier of the multiplicative hash of a peer: the odd number nearest to 2^32 divided by
/// the golden ratio, which spreads similar peers.
const MULTIPLIER: u32 = 0x9E37_79B9;

/// The number of low bits of the 32-bit product that are no part of the hash of a peer, which has 8
/// bits.
const LOWEST_BITS: u32 = 24;

/// Returns a peer with address 0.0.0.0 and AS number 0, for a parser to overwrite.
#[inline]
pub(crate) fn blank_peer() -> Peer {
    Peer {
        addr: Addr::v4([0; V4_OCTETS]),
        asn: 0,
    }
}

/// Returns the last four octets of `addr`, all of an IPv4 address, as a big-endian number.
#[inline]
fn last_octets(addr: &Addr) -> u32 {
    match addr.family() {
        Family::V4 => u32::from_be_bytes([
            addr.octet(0),
            addr.octet(1),
            addr.octet(2),
            addr.octet(3),
        ]),
        Family::V6 => u32::from_be_bytes([
            addr.octet(12),
            addr.octet(13),
            addr.octet(14),
            addr.octet(15),
        ]),
    }
}

/// Returns a hash of the peer's AS number and of the last four octets of its address, less than
/// [`PEER_SLOTS`]. It is the index of the slot in which the cache of parsed routes
/// ([`RouteCache`](crate::route_cache::RouteCache)) keeps the peer's last route. Several peers may
/// have the same hash.
#[inline]
pub(crate) fn peer_hash(peer: &Peer) -> usize
    ensures { result < PEER_SLOTS }
{
    // Which slot a peer has changes time and memory alone, so the contract bounds the index only.
    let first = last_octets(&peer.addr).wrapping_add(peer.asn);
    (first.wrapping_mul(MULTIPLIER) >> LOWEST_BITS) as usize
}

/// The peers of a peer index table (RFC 6396, section 4.3.1). The position of a peer, counted from
/// 0, is its peer index.
pub(crate) type Peers = VecAsList<Peer>;
