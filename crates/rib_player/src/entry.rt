//! The entries of steps, in three words of memory each. A step is a played event, which undo and
//! redo go over. Its entry has a pair of a peer and a prefix, the route that the pair has on the
//! other side of the step (before it while it is applied, else after it), and whether the pair has
//! a route before the step and after it. `entry/swaps.rt` swaps the routes of entries and table.
//! Read [`Entry`] first.

ghost use Rattle.std.specs.Prelude.{◌≡◌, None, IfOk, option_copied};
ghost use Rattle.rib_player.specs.History.{pair_of};
ghost use Rattle.rib_player.specs.Representation.{unapplied_entry, entry_of_repr, HasContents};
ghost use Rattle.rib_player.specs.Sides.{mark_of, releases_claim};

mod swaps;

use crate::numbered_peer::NumberedPeer;
use crate::pair::Pair;
use ip_prefix::{Family, Prefix};
use mrt_events::{Peer, Route};
use prefix_store::{PackedPrefix, V4Prefix};
use std::alloc::{AllocError, Global};
use std::marker::Model;
use std::mem::size_of;
use std::rc::Rc;

/// What a step (a played event, which undo and redo go over) keeps of one pair of a peer and a
/// prefix: the pair, and the route, if any, that undo or redo of the step will give it. While the
/// step is applied, that is the pair's route before the step; while it isn't, the route after it.
/// Undo and redo swap it with the table's route.
#[derive(Drop)]
pub(crate) struct Entry {
    kept: EntryRepr,
}

/// Whether the peer and prefix of an [`Entry`] have a route before the step (played event) that the
/// entry belongs to, and after it. Both are false until the step is first applied; undo and redo
/// keep them.
#[derive(Clone, Copy)]
struct RoutePresence {
    /// Whether there is a route before the step.
    before: bool,
    /// Whether there is a route after the step.
    after: bool,
}

/// A played event, with what is needed to undo and redo it.
#[derive(Drop)]
pub(crate) struct Step {
    /// One [`Entry`] for each pair of a peer and a prefix that the event sets or clears and that
    /// has a route before or after it, in unspecified order. No two are of one pair.
    pub(crate) entries: Vec<Entry>,
}

/// The end of the journal (the list of the steps that can be undone or redone) at which a step is
/// removed.
#[derive(Clone, Copy)]
pub(crate) enum JournalEnd {
    /// The oldest step is removed, while it is applied: its effect stays, but it can't be undone
    /// any more.
    First,
    /// The newest step is removed after it was undone, since another event is played instead of it.
    Last,
}

/// The stored form of an [`Entry`]: one variant for each address family and for whether the entry
/// keeps a route ([`Entry::route`]). Each of these also has the prefix, a shared pointer to the
/// peer, and two flags: whether there is a route to the prefix before the entry's step (a played
/// event), and whether after it. [`EntryRepr::Taken`], which has none of these, is what is left where
/// an entry was moved out to be changed.
#[derive(Drop)]
enum EntryRepr {
    // An IPv4 prefix is stored beside the two flags, so that an entry takes three words; an IPv6
    // prefix is boxed with its peer. The entries of a peer share the peer.
    V4Absent(RoutePresence, V4Prefix, Rc<NumberedPeer>),
    V4Present(RoutePresence, V4Prefix, Rc<NumberedPeer>, Rc<Route>),
    V6Absent(RoutePresence, Box<PeerAndV6Prefix>),
    V6Present(RoutePresence, Box<PeerAndV6Prefix>, Rc<Route>),
    /// Left in an entry by [`std::mem::replace`] while its route is moved in or out; has no
    /// contents.
    Taken,
}

/// The peer and the IPv6 prefix of an [`Entry`], boxed since an IPv6 prefix is too large for an
/// entry.
#[derive(Drop)]
struct PeerAndV6Prefix {
    prefix: Prefix,
    peer: Rc<NumberedPeer>,
}

/// The largest size of an [`Entry`] in octets, without the box of an IPv6 prefix. A larger one
/// fails the check of the crate, by the next line.
const ENTRY_OCTETS: usize = 24;

const _: () = prove!(size_of::<Entry>() <= ENTRY_OCTETS);

impl Model for Entry {
    ghost use Rattle.rib_player.specs.Entries.{Entry};
    ghost use Rattle.rib_player.specs.Representation.{entry_of_repr, HasContents};

    ghost Value = { Entry };

    ghost view = { λ e. entry_of_repr e.kept };

    ghost invariant = { λ e. HasContents e.kept };
}

impl Entry {
    /// Returns an entry for `peer` and `prefix`, of a step (a played event) that isn't applied yet.
    /// `other` is the route that the step gives them, or `None` if it clears their route. `peer`
    /// also has a hint of the index of the peer's store in the table. Fails if memory allocation
    /// fails, which can happen only for an IPv6 prefix.
    pub(crate) fn unapplied(
        alloc: Global,
        peer: Rc<NumberedPeer>,
        prefix: &Prefix,
        other: Option<Rc<Route>>,
    ) -> Result<Entry, AllocError>
        ensures { IfOk result (λ entry.
            entry ≡ unapplied_entry (pair_of peer.value prefix.now) other) }
    {
        let marks = RoutePresence {
            before: false,
            after: false,
        };
        let absent = match prefix.family() {
            Family::V4 => EntryRepr::V4Absent(marks, V4Prefix::pack(prefix), peer),
            Family::V6 => {
                let pair = PeerAndV6Prefix {
                    prefix: *prefix,
                    peer,
                };
                EntryRepr::V6Absent(marks, Box::new(alloc, pair)?)
            }
        };
        Ok(Entry {
            kept: absent.with_route(other),
        })
    }

    /// Returns the peer and the prefix whose route the entry sets or clears. The peer is a pointer
    /// that entries share; it also has a hint of the index of the peer's store in the table
    /// ([`NumberedPeer::number_hint`]).
    #[inline]
    fn peer_and_prefix(&self) -> (&Rc<NumberedPeer>, Prefix)
        ensures peer { result.0.now.value ≡ self.now.pair.peer }
        ensures prefix { result.1 ≡ self.now.pair.prefix }
    {
        match &self.kept {
            EntryRepr::V4Absent(_, prefix, peer) => (peer, prefix.unpack()),
            EntryRepr::V4Present(_, prefix, peer, _) => (peer, prefix.unpack()),
            EntryRepr::V6Absent(_, pair) => (&pair.peer, pair.prefix),
            EntryRepr::V6Present(_, pair, _) => (&pair.peer, pair.prefix),
            EntryRepr::Taken => unreachable!(),
        }
    }

    /// Returns the peer and the prefix whose route the entry sets or clears.
    #[inline]
    pub(crate) fn pair(&self) -> Pair
        ensures { result ≡ self.now.pair }
    {
        let (peer, prefix) = self.peer_and_prefix();
        Pair {
            peer: *peer.peer(),
            prefix,
        }
    }

    /// Returns the peer whose route the entry sets or clears, as a pointer that entries share. It
    /// also has the index that the peer's store had in the table when the pointer was made, a hint
    /// for a quick look-up ([`NumberedPeer::number_hint`]).
    #[inline]
    pub(crate) fn shared_peer(&self) -> &Rc<NumberedPeer>
        ensures { result.now.value ≡ self.now.pair.peer }
    {
        self.peer_and_prefix().0
    }

    /// Returns the peer whose route the entry sets or clears.
    #[inline]
    pub(crate) fn peer(&self) -> &Peer
        ensures { result.now ≡ self.now.pair.peer }
    {
        self.shared_peer().peer()
    }

    /// Returns the prefix, IPv4 or IPv6, to which the entry sets or clears a route.
    #[inline]
    pub(crate) fn prefix(&self) -> Prefix
        ensures { result ≡ self.now.pair.prefix }
    {
        self.peer_and_prefix().1
    }

    /// Returns the route that the entry keeps, or `None` if it keeps none. While the entry's step
    /// (a played event) is applied, this is the route before the step, which undo puts back into
    /// the table. While the step isn't applied, it is the route after it.
    #[inline]
    pub(crate) fn route(&self) -> Option<&Rc<Route>>
        ensures { option_copied result ≡ self.now.other }
    {
        match &self.kept {
            EntryRepr::V4Present(_, _, _, route) => Some(route),
            EntryRepr::V6Present(_, _, route) => Some(route),
            _ => None,
        }
    }

    /// Returns `true` if the entry's peer and prefix lose a claim (a reason to keep them as a key
    /// of the table, with memory for a route) when the entry's step (a played event) is removed at
    /// `end` of the journal, the list of all steps. For [`JournalEnd::First`], that is if there is
    /// a route before the step and none after it; for [`JournalEnd::Last`], if there is none before
    /// it and one after it. Returns `false` otherwise, and if the step was never applied.
    #[inline]
    pub(crate) fn releases_claim(&self, end: JournalEnd) -> bool
        ensures { result ≡ releases_claim end (mark_of self.now) }
    {
        let marks = match &self.kept {
            EntryRepr::V4Absent(marks, _, _) => marks,
            EntryRepr::V4Present(marks, _, _, _) => marks,
            EntryRepr::V6Absent(marks, _) => marks,
            EntryRepr::V6Present(marks, _, _) => marks,
            EntryRepr::Taken => unreachable!(),
        };
        match end {
            JournalEnd::First => marks.before && !marks.after,
            JournalEnd::Last => !marks.before && marks.after,
        }
    }

    /// Records whether the entry's peer and prefix have a route before the entry's step (a played
    /// event) and after it. The route that the entry keeps stays.
    #[inline]
    fn set_route_presence(&mut self, new: RoutePresence)
        ensures { self.new ≡ record {
          pair = self.old.pair;
          other = self.old.other;
          before = new.before;
          after = new.after;
        } }
    {
        match &mut self.kept {
            EntryRepr::V4Absent(marks, _, _) => *marks = new,
            EntryRepr::V4Present(marks, _, _, _) => *marks = new,
            EntryRepr::V6Absent(marks, _) => *marks = new,
            EntryRepr::V6Present(marks, _, _) => *marks = new,
            EntryRepr::Taken => unreachable!(),
        }
    }
}

impl EntryRepr {
    /// Separates the contents of an entry from its route. Returns the contents without a route, and
    /// the route; if they have none, returns them unchanged, and `None`. Requires that `self` isn't
    /// [`EntryRepr::Taken`], which has no contents.
    #[inline]
    fn split_off_route(self) -> (EntryRepr, Option<Rc<Route>>)
        requires { HasContents self }
        ensures whole { HasContents result.0 }
        ensures kept { entry_of_repr result.0 ≡ record (entry_of_repr self) { other = None } }
        ensures other { result.1 ≡ (entry_of_repr self).other }
    {
        match self {
            EntryRepr::V4Present(marks, prefix, peer, route) => {
                (EntryRepr::V4Absent(marks, prefix, peer), Some(route))
            }
            EntryRepr::V6Present(marks, pair, route) => (
                EntryRepr::V6Absent(marks, pair),
                Some(route),
            ),
            absent => (absent, None),
        }
    }

    /// Returns the contents of an entry with `other` as their route, or unchanged if `other` is
    /// `None`. Requires that `self` has no route, and that it isn't [`EntryRepr::Taken`], which has
    /// no contents.
    #[inline]
    fn with_route(self, other: Option<Rc<Route>>) -> EntryRepr
        requires whole { HasContents self }
        requires absent { (entry_of_repr self).other ≡ None }
        ensures whole { HasContents result }
        ensures kept { entry_of_repr result ≡ record (entry_of_repr self) { other = other } }
    {
        let Some(route) = other else {
            return self;
        };
        match self {
            EntryRepr::V4Absent(marks, prefix, peer) => EntryRepr::V4Present(
                marks, prefix, peer, route,
            ),
            EntryRepr::V6Absent(marks, pair) => EntryRepr::V6Present(marks, pair, route),
            _ => unreachable!(),
        }
    }
}
