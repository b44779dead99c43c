//! The records of tables.

ghost use Rattle.std.specs.Prelude.{◌<◌};

use crate::octets::Octets;
use crate::peers::Peer;
use crate::world::{START, Side, World};

/// The types of tables (RFC 6396, sections 4.2 and 4.3).
const TABLE_DUMP: u16 = 12;

const TABLE_DUMP_V2: u16 = 13;

/// How many entries the records of a table have: of so many peers, one after the other, each with
/// this chance.
#[derive(Clone, Copy)]
pub(crate) struct Entries {
    pub(crate) v6: bool,
    pub(crate) of_thousand: u32,
}

impl World {
    /// Appends the index of all peers (RFC 6396, section 4.3.1).
    pub(crate) fn put_index(&mut self, octets: &mut Octets) {
        self.body.clear();
        self.body.put_u32(0x0a00_0001);
        self.body.put_u16(0);
        let count = self.v4.peers.len().saturating_add(self.v6.peers.len());
        self.body.put_len16(count);
        put_in_index(&mut self.body, &self.v4.peers);
        put_in_index(&mut self.body, &self.v6.peers);
        self.put_record(octets, TABLE_DUMP_V2, 1);
    }

    /// Appends the entries of the prefix with this number (RFC 6396, section 4.3.2).
    pub(crate) fn put_rib(&mut self, octets: &mut Octets, entries: Entries, number: u32) {
        self.body.clear();
        self.body.put_u32(number);
        let network = self.network(entries.v6, number);
        network.put(&mut self.body);
        self.put_entries(entries, number);
        self.put_record(octets, TABLE_DUMP_V2, if entries.v6 { 4 } else { 2 });
    }

    /// Appends how many entries the prefix has, and these, to the body.
    fn put_entries(&mut self, entries: Entries, number: u32) {
        let place = self.body.len();
        self.body.put_u16(0);
        let mut count = 0u16;
        for peer in 0..self.side(entries.v6).peer_count() {
            if self.chance.happens(entries.of_thousand) {
                self.put_entry(entries.v6, peer, number);
                count = count.wrapping_add(1);
            }
        }
        self.body.set_u16(place, count);
    }

    /// Appends the entry of a peer to the body.
    fn put_entry(&mut self, v6: bool, peer: u32, number: u32) {
        let kind = self.kind(number);
        let time = START.wrapping_sub(self.chance.below(2_000_000));
        let first = if v6 { self.v4.peers.len() } else { 0 };
        self.body.put_len16(first.saturating_add(peer as usize));
        self.body.put_u32(time);
        if v6 {
            put_entry_of(&mut self.body, &self.v6, peer, kind);
        } else {
            put_entry_of(&mut self.body, &self.v4, peer, kind);
        }
    }

    /// Appends a record with one entry (RFC 6396, section 4.2): each record has another prefix or
    /// another peer.
    pub(crate) fn put_old_entry(&mut self, octets: &mut Octets, v6: bool, number: u32) {
        let count = self.side(v6).peer_count().max(1);
        self.make_old_entry(v6, number / count, number % count, number);
        self.put_record(octets, TABLE_DUMP, if v6 { 2 } else { 1 });
    }

    /// Makes the body of such a record.
    fn make_old_entry(&mut self, v6: bool, prefix: u32, peer: u32, number: u32) {
        let kind = self.kind(prefix);
        let time = START.wrapping_sub(self.chance.below(2_000_000));
        let network = self.network(v6, prefix);
        let [_, _, high, low] = number.to_be_bytes();
        self.body.clear();
        self.body.put(&[0, 0, high, low]);
        network.put_address(&mut self.body, v6);
        self.body.put(&[network.len, 1]);
        self.body.put_u32(time);
        if v6 {
            put_old_attributes(&mut self.body, &self.v6, peer, kind);
        } else {
            put_old_attributes(&mut self.body, &self.v4, peer, kind);
        }
    }
}

/// Appends peers as an index has them.
fn put_in_index(body: &mut Octets, peers: &[Peer]) {
    for peer in peers {
        peer.put_in_index(body);
    }
}

/// Appends the attributes of the entry of a peer of this side.
fn put_entry_of(body: &mut Octets, side: &Side, number: u32, kind: u64) {
    match side.peer(number) {
        Some(peer) => put_list(body, side.wide.octets(number, kind), &peer),
        None => body.put_u16(0),
    }
}

/// Appends the peer and the attributes of an entry of its own.
fn put_old_attributes(body: &mut Octets, side: &Side, number: u32, kind: u64) {
    let Some(peer) = side.peer(number) else {
        return;
    };
    body.put(peer.address());
    body.put_u16(u16::try_from(peer.asn).unwrap_or(23_456));
    put_list(body, side.narrow.octets(number, kind), &peer);
}

/// Appends the length of attributes, and these: of IPv6 with the next hop in front.
fn put_list(body: &mut Octets, attributes: &[u8], peer: &Peer) {
    if peer.v6 {
        put_short_hop(body, attributes.len(), peer);
    } else {
        body.put_len16(attributes.len());
    }
    body.put(attributes);
}

/// Appends the length of attributes, of which so many octets follow, and MP_REACH_NLRI with the
/// next hop alone (RFC 6396, section 4.3.4).
fn put_short_hop(body: &mut Octets, rest: usize, peer: &Peer) {
    let hops = peer.hop_len();
    body.put_len16(rest.saturating_add(usize::from(hops)).saturating_add(4));
    body.put(&[0x80, 14, hops.saturating_add(1), hops]);
    peer.put_hops(body);
}
