//! The changes that the items of an event (announcements, withdrawals and changes of a session's
//! state) make to pairs of a peer and a prefix. `steps.rt` calls [`changes_of`], and makes from the
//! result the entries of a step: the routes that a played event sets or clears, by pair. Read
//! [`Changes`] first.

ghost use Rattle.std.specs.Prelude.{◌≡◌, [], ◌∷◌, ◌≢◌, IfOk, IfSome, IfNone, OnOk, map, slice_get};
ghost use Rattle.std.specs.List.{AllByRecursion, list_any};
ghost use Rattle.std.specs.Ordering.{eq_by_cmp};
ghost use Rattle.mrt_events.specs.Event.{item_value, peer_cmp};
ghost use Rattle.mrt_events.specs.SharedRoute.{AnnounceOneRoute};
ghost use Rattle.rib_player.specs.declared.pair.Pair.{Pair};
ghost use Rattle.mrt_events.specs.declared.peer.Peer.{Peer};
ghost use Rattle.rib_player.specs.History.{pair_of, Clear, effect_if, item_effect, later, effect};
ghost use Rattle.rib_player.specs.Tables.{pointed_route};
ghost use Rattle.rib_player.specs.Changes.{effect_of_changes, effect_at, items_effect, HasRoute};

use crate::entry::Entry;
use crate::numbered_peer::{NO_NUMBER, NumberedPeer};
use crate::table::Table;
use ip_prefix::Prefix;
use known_routes::RouteInterner;
use mrt_events::{ESTABLISHED, Event, Item, Peer, Route, same_peer};
use prefix_store::PrefixStore;
use std::alloc::{AllocError, Global};
use std::collections::BTreeSet;
use std::rc::Rc;

/// The effect of the items of an event (announcements, withdrawals, changes of a session's state)
/// on a table: all routes of the peers in `lost` are cleared, then the peer and prefix of each of
/// `entries` get the entry's route, or none. Of several entries of one peer and prefix, the first
/// counts. An announcement or withdrawal is left out if a later item of the event ends its peer's
/// session, which clears the peer's routes anyway.
#[derive(Drop)]
pub(crate) struct Changes {
    // The last item of a pair decides, so items are noted from the last to the first, and those
    // before the loss of their peer's session aren't noted.
    pub(crate) alloc: Global,
    /// One [`Entry`] (a peer, a prefix, and the route that they get, or none) for each announcement
    /// and withdrawal that isn't left out, that of the event's last item first. If several are of
    /// one peer and prefix, the first counts.
    pub(crate) entries: Vec<Entry>,
    /// The peers whose session is lost: an item changes its state from Established to another one.
    /// The announcements and withdrawals of such a peer in `entries` are after the loss.
    pub(crate) lost: BTreeSet<Peer>,
}

impl Changes {
    /// Returns `true` if one of the event's items noted so far ends the session with `peer`: it
    /// changes the session's state from Established to another one.
    #[inline]
    fn is_peer_lost(&self, peer: &Peer) -> bool
        ensures { result ≡ list_any (eq_by_cmp peer_cmp peer.now) self.now.lost.keys }
    {
        !self.lost.is_empty() && self.lost.contains(peer)
    }

    /// Notes one item of an event: `peer` announces `route` for `prefix`, or withdraws its route if
    /// `route` is `None`. Items are noted from the last to the first; if a later item, noted
    /// before, ends the session with `peer`, this does nothing. `table` is searched only for the
    /// index of the store with the peer's routes. Fails if memory allocation fails; nothing is
    /// noted then.
    fn note_route<S: PrefixStore<Rc<Route>>>(
        &mut self,
        table: &Table<S>,
        peer: &Peer,
        prefix: &Prefix,
        route: Option<Rc<Route>>,
    ) -> Result<(), AllocError>
        ensures { OnOk result ((q : Pair) → effect_of_changes self.new q
            ≡ later (effect_at (pair_of peer.now prefix.now) (pointed_route route) q)
            (effect_of_changes self.old q)) }
    {
        if self.is_peer_lost(peer) {
            return Ok(());
        }
        let shared = share_numbered_peer(self.alloc, table, self.entries.last(), peer)?;
        let entry = Entry::unapplied(self.alloc, shared, prefix, route)?;
        self.entries.push(entry)?;
        Ok(())
    }

    /// Notes `items` of an event (announcements, withdrawals, changes of a session's state), from
    /// the last to the first, or does nothing if there are none. The items noted before have to be
    /// those that follow them in the event. Each announced route is replaced by an equal one in
    /// `known`, the routes that the player shares, or else added there; a long one with many owners
    /// may stay as it is ([`RouteInterner::intern_if_cheap`]). `table` is searched only for the
    /// indices of the peers' stores. Fails if memory allocation fails; some of the last items may
    /// have been noted then, and some routes added to `known`.
    #[inline(always)]
    fn note_items_if_any<S: PrefixStore<Rc<Route>>>(
        &mut self,
        table: &Table<S>,
        items: &[Item],
        known: &mut RouteInterner,
    ) -> Result<(), AllocError>
        ensures { OnOk result ((q : Pair) → effect_of_changes self.new q
            ≡ later (items_effect q items.now) (effect_of_changes self.old q)) }
    {
        // Of most events either all items share a route or none do, so that `items` is often empty.
        // This function is inlined, which saves a call then.
        if items.is_empty() {
            return Ok(());
        }
        self.note_items(table, items, known, None)
    }

    /// Notes `items` of an event (announcements, withdrawals, changes of a session's state), from
    /// the last to the first. The items noted before have to be those that follow them in the
    /// event. If `shared` is a route, it is used for each item; requires that all are announcements
    /// of routes equal to it. If it is `None`, each announced route is replaced by an equal one in
    /// `known`, the routes that the player shares, or else added there; a long one with many owners
    /// may stay as it is ([`RouteInterner::intern_if_cheap`]). `table` is searched only for the
    /// indices of the peers' stores. Fails if memory allocation fails; some of the last items may
    /// have been noted then, and some routes added to `known`.
    fn note_items<S: PrefixStore<Rc<Route>>>(
        &mut self,
        table: &Table<S>,
        items: &[Item],
        known: &mut RouteInterner,
        shared: Option<&Rc<Route>>,
    ) -> Result<(), AllocError>
        requires { IfSome shared (λ route.
            AllByRecursion (λ item. HasRoute route.now.value (item_value item)) items.now) }
        ensures { OnOk result ((q : Pair) → effect_of_changes self.new q
            ≡ later (items_effect q items.now) (effect_of_changes self.old q)) }
    {
        let mut rest = items.len();
        'items: while rest > 0 {
            rest -= 1;
            match &items[rest] {
                Item::Announce(peer, prefix, route) => {
                    let own = match shared {
                        Some(shared) => shared.clone()?,
                        None => known.intern_if_cheap(peer, route)?,
                    };
                    self.note_route(table, peer, prefix, Some(own))?;
                }
                Item::Withdraw(peer, prefix) => self.note_route(table, peer, prefix, None)?,
                Item::State(peer, old, new) => {
                    if *old == ESTABLISHED && *new != ESTABLISHED {
                        self.lost.insert(*peer)?;
                    }
                }
            }
        }
        Ok(())
    }

    /// Notes `items` of an event, from the last to the first. Requires that all are announcements
    /// by one peer of equal routes; there may be none. The items noted before have to be those that
    /// follow them in the event. The route is looked up once in `known`, the routes that the player
    /// shares, or else added there, and the one found or added is used for all prefixes. `table` is
    /// searched only for the index of the store with the peer's routes. Fails if memory allocation
    /// fails; some of the last items may have been noted then, and the route added to `known`.
    #[inline(always)]
    fn note_items_of_one_route<S: PrefixStore<Rc<Route>>>(
        &mut self,
        table: &Table<S>,
        items: &[Item],
        known: &mut RouteInterner,
    ) -> Result<(), AllocError>
        requires { AnnounceOneRoute (map item_value items.now) }
        ensures { OnOk result ((q : Pair) → effect_of_changes self.new q
            ≡ later (items_effect q items.now) (effect_of_changes self.old q)) }
    {
        let Some(Item::Announce(peer, _, route)) = items.first() else {
            return self.note_items_if_any(table, items, known);
        };
        let route = known.intern(peer, route)?;
        self.note_items(table, items, known, Some(&route))
    }
}

/// Returns what the items of `event` do: which peers and prefixes get or lose a route, and which
/// peers lose their session. Each announced route is replaced by an equal one in `known`, the
/// routes that the player shares, or else added there; a long one with many owners may stay as it
/// is ([`RouteInterner::intern_if_cheap`]). `table`, the one before the event, is searched only for
/// the indices of the peers' stores. Fails if memory allocation fails; some routes may have been
/// added to `known` then.
pub(crate) fn changes_of<S: PrefixStore<Rc<Route>>>(
    alloc: Global,
    event: &Event,
    table: &Table<S>,
    known: &mut RouteInterner,
) -> Result<Changes, AllocError>
    ensures { IfOk result (λ changes. (q : Pair) →
        effect_of_changes changes q ≡ effect q event.now) }
{
    let mut changes = Changes {
        alloc,
        entries: Vec::with_capacity(alloc, event.items.as_slice().len())?,
        lost: BTreeSet::new(alloc),
    };
    let items = event.items.as_slice();
    let shared = event.items.shared_ranges();
    changes.note_items_if_any(table, &items[shared.end..], known)?;
    changes.note_items_of_one_route(table, &items[shared.middle..shared.end], known)?;
    changes.note_items_of_one_route(table, &items[shared.start..shared.middle], known)?;
    changes.note_items_if_any(table, &items[..shared.start], known)?;
    if changes.entries.len() < items.len() {
        known.release_added();
    }
    Ok(changes)
}

/// Returns a shared pointer to `peer` and the index of its store in `table`, for a new [`Entry`].
/// The index is a hint for a quick look-up. Fails if memory allocation fails. The pointer is
/// - the one in `last`, the entry made just before, if its peer is `peer`;
/// - else the one in `table`, if the peer has a store there;
/// - else a new one, with [`NO_NUMBER`] in place of an index.
pub(crate) fn share_numbered_peer<S: PrefixStore<Rc<Route>>>(
    alloc: Global,
    table: &Table<S>,
    last: Option<&Entry>,
    peer: &Peer,
) -> Result<Rc<NumberedPeer>, AllocError>
    ensures { IfOk result (λ shared. shared.value ≡ peer.now) }
{
    // The number after the one of the last entry's peer is tried first, since peers get numbers in
    // the order of the record that names them first, and others mostly name them in that order too.
    let mut number = NO_NUMBER;
    if let Some(entry) = last {
        let before = entry.shared_peer();
        if same_peer(before.peer(), peer) {
            return before.clone();
        }
        number = before.number_hint().wrapping_add(1);
    }
    if let Some(shared) = table.stores.find_numbered_peer(number, peer) {
        return shared.clone();
    }
    Ok(Rc::new(alloc, NumberedPeer::new(*peer, NO_NUMBER))?)
}
