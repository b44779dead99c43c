//! Announcements by the hundred.

ghost use Rattle.std.specs.Prelude.{◌<◌};

use crate::attributes::put_long_front;
use crate::chance::{Chance, mixed};
use crate::octets::Octets;
use crate::peers::Peer;
use crate::prefixes::Network;
use crate::world::World;

/// How many octets a path of 24 segments has, of 250 numbers each.
const LONG_PATH: usize = 24_048;

impl World {
    /// Appends an announcement of prefixes that lie at random over all, and all of which come once:
    /// so many a message. Each pass over them has another order.
    pub(crate) fn put_flood(&mut self, octets: &mut Octets, pass: u32, number: u32, at_once: u32) {
        let Some(peer) = self.v4.peer(0) else {
            return;
        };
        self.spelled.clear();
        let order = mixed(self.salt ^ u64::from(pass));
        for place in 0..at_once {
            let turn = number.wrapping_mul(at_once).wrapping_add(place);
            let prefix = shuffled(turn, order, self.v4.prefixes);
            let network = self.network(false, prefix);
            network.put(&mut self.spelled);
        }
        self.put_spelled(octets, &peer, 0);
    }

    /// Appends an announcement of longer prefixes within those of the table, so many a message.
    pub(crate) fn put_leak(&mut self, octets: &mut Octets, at_once: u32) {
        let number = self.chance.below(self.v4.peer_count().max(1));
        let Some(peer) = self.v4.peer(number) else {
            return;
        };
        self.spelled.clear();
        for _ in 0..at_once {
            let prefix = self.chance.below(self.v4.prefixes.max(1));
            let chance = self.chance.next();
            let network = self.network(false, prefix).part(chance);
            network.put(&mut self.spelled);
        }
        self.put_spelled(octets, &peer, number);
    }

    /// Appends an announcement of the prefixes that stand there.
    fn put_spelled(&mut self, octets: &mut Octets, peer: &Peer, number: u32) {
        let kind = self.chance.next() >> 32;
        self.announce(peer, number, kind);
        self.begin(peer, false);
        self.put_message(octets, 2, false);
    }

    /// Appends an announcement of 9,000 prefixes with a path of some 6,000 numbers.
    pub(crate) fn put_large(&mut self, octets: &mut Octets) {
        let Some(peer) = self.v4.peer(0) else {
            return;
        };
        self.spelled.clear();
        for _ in 0..9_000u32 {
            spell_drawn(&mut self.spelled, &mut self.chance);
        }
        self.make_large();
        self.begin(&peer, false);
        self.put_message(octets, 2, false);
    }

    /// Makes the body of an UPDATE that announces the prefixes that stand there with a long path.
    fn make_large(&mut self) {
        self.update.clear();
        self.update.put_u16(0);
        self.update.put_len16(LONG_PATH.saturating_add(15));
        self.update.put(&[0x40, 1, 1, 0, 0x40, 3, 4, 192, 0, 2, 1]);
        put_long_front(&mut self.update, 2, LONG_PATH);
        for _ in 0..24u8 {
            put_segment(&mut self.update, &mut self.chance);
        }
        self.update.put_octets(&self.spelled);
    }
}

/// Appends a prefix of 24 bits that lies anywhere.
fn spell_drawn(spelled: &mut Octets, chance: &mut Chance) {
    let network = Network {
        first: chance.next() >> 40 << 40,
        len: 24,
    };
    network.put(spelled);
}

/// Appends a segment of 250 numbers.
fn put_segment(octets: &mut Octets, chance: &mut Chance) {
    octets.put(&[2, 250]);
    for _ in 0..250u8 {
        octets.put_u32(1 + chance.below(400_000));
    }
}

/// A number below the bound that stands at a place of an order in which each of them stands once,
/// if the bound is a power of two.
fn shuffled(place: u32, order: u64, bound: u32) -> u32 {
    let step = order >> 33 << 1 | 1;
    let number = u64::from(place).wrapping_mul(step).wrapping_add(order);
    let mixed = number ^ (number & u64::from(bound.wrapping_sub(1))) >> 7;
    (mixed % u64::from(bound.max(1))) as u32
}
