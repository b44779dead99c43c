//! A collector, its peers and what they announce.

ghost use Rattle.std.specs.Prelude.{◌<◌};

use crate::chance::{Chance, mixed};
use crate::octets::Octets;
use crate::peers::Peer;
use crate::pools::Pool;
use crate::prefixes::{Network, Space};
use std::alloc::{AllocError, Global};

/// The seconds at which the records begin.
pub(crate) const START: u32 = 1_700_000_000;

/// How many of each there are.
#[derive(Clone, Copy)]
pub(crate) struct Counts {
    /// Peers of IPv4.
    pub(crate) v4_peers: u16,
    /// Peers of IPv6.
    pub(crate) v6_peers: u16,
    /// Prefixes of IPv4.
    pub(crate) v4_prefixes: u32,
    /// Prefixes of IPv6.
    pub(crate) v6_prefixes: u32,
    /// Lists of attributes of each peer.
    pub(crate) kinds: u32,
}

/// The attributes of the peers of one family.
#[derive(Drop)]
pub(crate) struct Side {
    pub(crate) peers: Vec<Peer>,
    /// With AS numbers of four octets, and of two.
    pub(crate) wide: Pool,
    pub(crate) narrow: Pool,
    /// How many prefixes there are.
    pub(crate) prefixes: u32,
}

/// A collector, its peers and what they announce.
#[derive(Drop)]
pub(crate) struct World {
    pub(crate) chance: Chance,
    /// Hung on by what isn't drawn, so that it differs from seed to seed.
    pub(crate) salt: u64,
    pub(crate) space: Space,
    pub(crate) v4: Side,
    pub(crate) v6: Side,
    /// How many messages were made.
    pub(crate) told: u64,
    /// Microseconds since the start.
    pub(crate) micros: u64,
    /// Room for a body.
    pub(crate) body: Octets,
    /// Room for prefixes as BGP sends them.
    pub(crate) spelled: Octets,
    /// Room for the body of an UPDATE.
    pub(crate) update: Octets,
}

/// Adds peers of a family, from this number on.
fn add_peers(
    peers: &mut Vec<Peer>,
    first: u16,
    count: u16,
    v6: bool,
    chance: &mut Chance,
) -> Result<(), AllocError> {
    for number in 0..count {
        peers.push(Peer::new(first.wrapping_add(number), v6, chance))?;
    }
    Ok(())
}

impl Side {
    /// A side without peers.
    fn new(alloc: Global, prefixes: u32, kinds: u32) -> Side {
        Side {
            peers: Vec::new(alloc),
            wide: Pool::new(alloc, kinds),
            narrow: Pool::new(alloc, kinds.min(200)),
            prefixes,
        }
    }

    /// Makes what the peers announce.
    fn fill(&mut self, chance: &mut Chance) -> Result<(), AllocError> {
        self.wide.fill(&self.peers, true, chance)?;
        self.narrow.fill(&self.peers, false, chance)
    }

    /// A peer by its number.
    pub(crate) fn peer(&self, number: u32) -> Option<Peer> {
        self.peers.get(number as usize).copied()
    }

    /// How many peers there are.
    pub(crate) fn peer_count(&self) -> u32 {
        u32::try_from(self.peers.len()).unwrap_or(0)
    }
}

impl World {
    /// The world of a seed.
    pub(crate) fn new(alloc: Global, seed: u64, counts: Counts) -> Result<World, AllocError> {
        let mut world = World::empty(alloc, seed, counts);
        world.fill(counts)?;
        Ok(world)
    }

    /// A world without peers.
    fn empty(alloc: Global, seed: u64, counts: Counts) -> World {
        let mut chance = Chance::new(seed);
        let salt = chance.next();
        World {
            chance,
            salt,
            space: Space::new(counts.v4_prefixes, counts.v6_prefixes),
            v4: Side::new(alloc, counts.v4_prefixes, counts.kinds),
            v6: Side::new(alloc, counts.v6_prefixes, counts.kinds),
            told: 0,
            micros: 0,
            body: Octets::new(alloc),
            spelled: Octets::new(alloc),
            update: Octets::new(alloc),
        }
    }

    /// Makes the peers, and what they announce.
    fn fill(&mut self, counts: Counts) -> Result<(), AllocError> {
        let World { chance, v4, v6, .. } = self;
        add_peers(&mut v4.peers, 0, counts.v4_peers, false, chance)?;
        add_peers(
            &mut v6.peers,
            counts.v4_peers,
            counts.v6_peers,
            true,
            chance,
        )?;
        v4.fill(chance)?;
        v6.fill(chance)
    }

    /// The peers of a family, and what they announce.
    pub(crate) fn side(&self, v6: bool) -> &Side {
        if v6 { &self.v6 } else { &self.v4 }
    }

    /// A prefix by its number.
    pub(crate) fn network(&self, v6: bool, number: u32) -> Network {
        if v6 {
            self.space.v6(number)
        } else {
            self.space.v4(number)
        }
    }

    /// The kind of attributes with which a peer announces a prefix: that of most prefixes in a run
    /// of four, and of one run and a half.
    pub(crate) fn kind(&mut self, number: u32) -> u64 {
        if self.chance.happens(30) {
            return self.chance.next() >> 32;
        }
        mixed(self.salt ^ u64::from(number >> 2)) >> 32
    }

    /// Appends a record with the body that stands there.
    pub(crate) fn put_record(&self, octets: &mut Octets, kind: u16, subtype: u16) {
        let seconds = u32::try_from(self.micros / 1_000_000).unwrap_or(0);
        octets.put_u32(START.wrapping_add(seconds));
        octets.put_u16(kind);
        octets.put_u16(subtype);
        octets.put_len32(self.body.len());
        octets.put_octets(&self.body);
    }
}
