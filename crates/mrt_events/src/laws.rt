//! Theorems about the order of peers, which contracts cite. The functions have no code and nothing
//! calls them: what they state is proved as the crate is checked. `docs/proved.md` names them.

ghost use Rattle.std.specs.Prelude.{◌≡◌, Some};
ghost use Rattle.std.specs.Ordering.{eq_by_cmp};
ghost use Rattle.std.specs.Cmp.{IsTotalOrder};
ghost use Rattle.std.specs.FinMap.{IsAntisymmetric};
ghost use Rattle.mrt_events.specs.declared.peer.Peer.{Peer};
ghost use Rattle.mrt_events.specs.Event.{peer_cmp};

use crate::peer::Peer;

/// States three facts about the order of [`Peer`], which is by address and then by AS number:
/// - it is total;
/// - only equal peers compare as equal;
/// - `cmp`, `partial_cmp` and `==` of [`Peer`] agree with it.
pub fn law_peer_order()
    ensures parts { (a b : Peer) → ⟦<Peer as Ord>⟧.cmp a b ≡ peer_cmp a b }
    ensures partial { (a b : Peer) →
        ⟦<Peer as PartialOrd>⟧.partial_cmp a b ≡ Some (peer_cmp a b) }
    ensures equal { (a b : Peer) → ⟦<Peer as PartialEq>⟧.eq a b ≡ eq_by_cmp peer_cmp a b }
    ensures total { IsTotalOrder peer_cmp }
    ensures ties { IsAntisymmetric peer_cmp }
{}
