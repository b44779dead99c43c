//! A peer with the number of its store, which is the index of the peer's routes in the player's
//! table. The entries of a step (the routes that a played event changed) share one such value for
//! each peer, and `stores.rt` finds the peer's store by the number, without a search.

ghost use Rattle.std.specs.Prelude.{◌≡◌};

use mrt_events::Peer;
use std::marker::Model;

/// The number in a [`NumberedPeer`] whose peer has no store, and the hint of a caller that has
/// none. It is never the number of a store, all of which are below it.
pub(crate) const NO_NUMBER: usize = usize::MAX;

/// A peer, and its number: the index of its store (the one with its routes) in the player's table
/// at the time when this value was made. The number is a hint: the store may have been removed or
/// renumbered since, so a caller checks which peer has the number now. In contracts, the value
/// stands for its peer alone, whatever its number.
#[derive(Drop)]
pub(crate) struct NumberedPeer {
    peer: Peer,
    number: usize,
}

impl Model for NumberedPeer {
    ghost use Rattle.mrt_events.specs.declared.peer.Peer.{Peer};

    ghost Value = { Peer };

    ghost view = { λ a. a.peer };
}

impl NumberedPeer {
    /// Returns a value of `peer` and `number`, the index of the peer's store (the one with its
    /// routes) in the player's table, or [`NO_NUMBER`] if the peer has no store.
    pub(crate) fn new(peer: Peer, number: usize) -> NumberedPeer
        ensures { result ≡ peer }
    {
        NumberedPeer { peer, number }
    }

    /// Returns the peer, which never changes.
    #[inline]
    pub(crate) fn peer(&self) -> &Peer
        ensures { result.now ≡ self.now }
    {
        &self.peer
    }

    /// Returns the index that the peer's store (the one with its routes) had in the player's table
    /// when this value was made, or [`NO_NUMBER`] if the peer had no store. By now it may be the
    /// index of another peer's store, or of none.
    #[inline]
    pub(crate) fn number_hint(&self) -> usize {
        self.number
    }
}
