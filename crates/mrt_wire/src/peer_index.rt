//! Parsing PEER_INDEX_TABLE records (RFC 6396, section 4.3.1). Entries of RIB records refer to the
//! peers of this table by their position in it, counted from 0: the peer index. `decode_record`
//! calls [`read_peer_index`]; read that first.

ghost use Rattle.std.specs.Prelude.{◌≡◌, ℕ, List, IfSome, IfNone};
ghost use Rattle.ip_prefix.specs.Sequences.{Begins};
ghost use Rattle.ip_prefix.specs.Fronts.{BeginsWithNone};
ghost use Rattle.ip_prefix.specs.Fields.{SpellsFront};
ghost use Rattle.ip_prefix.specs.Counted.{SpellsCounted};
ghost use Rattle.bgp_wire.specs.Readers.{ParsesOrFails};
ghost use Rattle.mrt_wire.specs.Decoding.{FindsValue};
ghost use Rattle.mrt_wire.specs.Rib.{peer_family, peer_as_width, SpellsPeer, SpellsView, SpellsPeerIndex};

use crate::fields::{
    ValueAndRest, skip, split_address_and_asn, split_length_prefixed, split_octet, split_u16,
};
use crate::peers::Peers;
use bgp_wire::{AsWidth, WireFault};
use ip_prefix::Family;
use mrt_events::Peer;
use std::alloc::Global;

/// The bit of a Peer Type octet that is set if the peer has an IPv6 address, and clear if it has an
/// IPv4 address (RFC 6396, section 4.3.1).
const IPV6_PEER: u8 = 0x01;

/// The bit of a Peer Type octet that is set if the peer's AS number has four octets, and clear if
/// it has two (RFC 6396, section 4.3.1).
const AS4_PEER: u8 = 0x02;

/// The size of the BGP ID of a collector or a peer in a PEER_INDEX_TABLE, in octets (RFC 6396,
/// section 4.3.1).
const ID_SIZE: usize = 4;

/// The size of the smallest peer entry, in octets: a Peer Type, a BGP ID, an IPv4 address and an AS
/// number of two octets. It bounds the number of peers that memory is reserved for.
const SMALLEST_PEER: usize = 11;

/// Returns the family of a peer's address, by the lowest bit of its Peer Type octet, `kind`: IPv4
/// if it is 0, IPv6 if it is 1 (RFC 6396, section 4.3.1). The other bits are ignored.
fn peer_family(kind: u8) -> Family
    ensures { result ≡ peer_family kind }
{
    if kind & IPV6_PEER == 0 {
        Family::V4
    } else {
        Family::V6
    }
}

/// Returns the width of a peer's AS number, by the second lowest bit of its Peer Type octet,
/// `kind`: two octets if it is 0, four if it is 1 (RFC 6396, section 4.3.1). The other bits are
/// ignored.
fn peer_as_width(kind: u8) -> AsWidth
    ensures { result ≡ peer_as_width kind }
{
    if kind & AS4_PEER == 0 {
        AsWidth::Two
    } else {
        AsWidth::Four
    }
}

/// Parses the peer entry at the start of `octets`, ignoring its BGP ID (RFC 6396, section 4.3.1).
/// Returns the peer with the octets after the entry, or `None` if `octets` is shorter than the
/// entry.
fn split_peer(octets: &[u8]) -> Option<ValueAndRest<'_, Peer>>
    ensures { FindsValue SpellsPeer octets.now result }
{
    let kind = split_octet(octets)?;
    let after_id = skip(ID_SIZE, kind.rest)?;
    let (family, width) = (peer_family(kind.value), peer_as_width(kind.value));
    split_address_and_asn(family, width, after_id)
}

/// Parses the peers of a PEER_INDEX_TABLE (RFC 6396, section 4.3.1). `octets` is the part of its
/// body after the View Name: a big-endian 16-bit count, as many peer entries, and further octets,
/// which are ignored. Fails with `Malformed` if the count is missing or fewer entries follow than
/// it states, or with `Memory` if memory allocation fails.
fn read_peers(alloc: Global, octets: &[u8]) -> Result<Peers, WireFault>
    ensures { ParsesOrFails (SpellsFront (SpellsCounted SpellsPeer)) octets.now result }
{
    // Room is reserved for no more peers than the octets can hold, whatever the count.
    let count = split_u16(octets).ok_or(WireFault::Malformed)?;
    let most = count.rest.len() / SMALLEST_PEER;
    let mut peers = Vec::with_capacity(alloc, most.min(usize::from(count.value)))?;
    let mut rest = count.rest;
    for _ in 0..count.value {
        let Some(peer) = split_peer(rest) else {
            return Err(WireFault::Malformed);
        };
        peers.push(peer.value)?;
        rest = peer.rest;
    }
    Ok(Peers::from_vec(peers))
}

/// Parses `octets`, the body of a PEER_INDEX_TABLE record, into its peers (RFC 6396, section
/// 4.3.1). Ignores the collector's BGP ID, the View Name, and octets after the last peer entry.
/// Fails with `Malformed` if a field is missing, or with `Memory` if memory allocation fails.
pub(crate) fn read_peer_index(alloc: Global, octets: &[u8]) -> Result<Peers, WireFault>
    ensures { ParsesOrFails SpellsPeerIndex octets.now result }
{
    let after_id = skip(ID_SIZE, octets).ok_or(WireFault::Malformed)?;
    let (_, peers) = split_length_prefixed(after_id).ok_or(WireFault::Malformed)?;
    read_peers(alloc, peers)
}
