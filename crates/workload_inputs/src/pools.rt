//! Lists of attributes that are made once and announced over and over.

use crate::attributes::put_attributes;
use crate::chance::Chance;
use crate::octets::Octets;
use crate::peers::Peer;
use std::alloc::{AllocError, Global};

/// Attributes that peers announce: so many of each.
#[derive(Drop)]
pub(crate) struct Pool {
    lists: Vec<Vec<u8>>,
    peers: u32,
    kinds: u32,
}

/// The attributes of a route that the peer announces.
fn list(
    alloc: Global,
    peer: &Peer,
    wide: bool,
    chance: &mut Chance,
) -> Result<Vec<u8>, AllocError> {
    let mut octets = Octets::new(alloc);
    put_attributes(&mut octets, peer, wide, chance);
    octets.whole()
}

impl Pool {
    /// A pool for so many lists of each peer, which aren't made yet.
    pub(crate) fn new(alloc: Global, kinds: u32) -> Self {
        Pool {
            lists: Vec::new(alloc),
            peers: 0,
            kinds,
        }
    }

    /// Makes the attributes of each of the peers.
    pub(crate) fn fill(
        &mut self,
        peers: &[Peer],
        wide: bool,
        chance: &mut Chance,
    ) -> Result<(), AllocError> {
        self.peers = u32::try_from(peers.len()).unwrap_or(0);
        for _ in 0..self.kinds {
            self.add_kind(peers, wide, chance)?;
        }
        Ok(())
    }

    /// Makes a list of each of the peers.
    fn add_kind(
        &mut self,
        peers: &[Peer],
        wide: bool,
        chance: &mut Chance,
    ) -> Result<(), AllocError> {
        let alloc = *self.lists.allocator();
        for peer in peers {
            self.lists.push(list(alloc, peer, wide, chance)?)?;
        }
        Ok(())
    }

    /// The octets of attributes that a peer announces, of a kind.
    pub(crate) fn octets(&self, peer: u32, kind: u64) -> &[u8] {
        let kinds = u64::from(self.kinds.max(1));
        let place = (kind % kinds)
            .wrapping_mul(u64::from(self.peers))
            .wrapping_add(u64::from(peer));
        match self.lists.get(usize::try_from(place).unwrap_or(0)) {
            Some(octets) => octets,
            None => &[],
        }
    }
}
