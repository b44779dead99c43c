//! The bodies of UPDATE messages.

use crate::attributes::put_long_front;
use crate::octets::Octets;
use crate::peers::Peer;
use crate::world::World;

impl World {
    /// Makes the body of an UPDATE that withdraws the prefixes that stand there.
    pub(crate) fn withdraw(&mut self, v6: bool) {
        self.update.clear();
        if v6 {
            put_unreachable(&mut self.update, &self.spelled);
        } else {
            put_withdrawn(&mut self.update, &self.spelled);
        }
    }

    /// Makes the body of an UPDATE that announces the prefixes that stand there.
    pub(crate) fn announce(&mut self, peer: &Peer, number: u32, kind: u64) {
        self.update.clear();
        self.update.put_u16(0);
        if peer.v6 {
            let attributes = self.v6.wide.octets(number, kind);
            put_reachable(&mut self.update, peer, attributes, &self.spelled);
        } else {
            let attributes = self.v4.wide.octets(number, kind);
            put_announced(&mut self.update, attributes, &self.spelled);
        }
    }
}

/// Appends prefixes of IPv4 that are withdrawn (RFC 4271, section 4.3), and no attributes.
fn put_withdrawn(body: &mut Octets, spelled: &Octets) {
    body.put_len16(spelled.len());
    body.put_octets(spelled);
    body.put_u16(0);
}

/// Appends prefixes of IPv6 that are withdrawn (RFC 4760, section 4).
fn put_unreachable(body: &mut Octets, spelled: &Octets) {
    body.put_u16(0);
    body.put_len16(spelled.len().saturating_add(7));
    put_long_front(body, 15, spelled.len().saturating_add(3));
    body.put(&[0, 2, 1]);
    body.put_octets(spelled);
}

/// Appends attributes and the prefixes of IPv4 that are announced (RFC 4271, section 4.3).
fn put_announced(body: &mut Octets, attributes: &[u8], spelled: &Octets) {
    body.put_len16(attributes.len());
    body.put(attributes);
    body.put_octets(spelled);
}

/// Appends attributes, and that with the prefixes of IPv6 that are announced (RFC 4760, section 3).
fn put_reachable(body: &mut Octets, peer: &Peer, attributes: &[u8], spelled: &Octets) {
    let hops = peer.hop_len();
    let reach = spelled
        .len()
        .saturating_add(usize::from(hops))
        .saturating_add(5);
    let len = attributes.len().saturating_add(reach).saturating_add(4);
    body.put_len16(len);
    body.put(attributes);
    put_long_front(body, 14, reach);
    body.put(&[0, 2, 1, hops]);
    peer.put_hops(body);
    body.put(&[0]);
    body.put_octets(spelled);
}
