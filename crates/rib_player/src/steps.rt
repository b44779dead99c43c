//! The entries of the step that an event makes when it is played: one for each pair of a peer and a
//! prefix that the event sets or clears and that has a route before or after it. `player.rt` calls
//! [`entries_for_event`]; read that first, then `changes.rt`.

ghost use Rattle.std.specs.Prelude.{◌≡◌, ◌++◌, IsTrue, IfOk, OnOk, IfSome, None, false, map};
ghost use Rattle.std.specs.List.{AllByRecursion};
ghost use Rattle.std.specs.Ordering.{eq_by_cmp};
ghost use Rattle.rib_player.specs.declared.pair.Pair.{Pair};
ghost use Rattle.rib_player.specs.History.{pair_cmp};
ghost use Rattle.rib_player.specs.Changes.{found, found_with_lost};
ghost use Rattle.rib_player.specs.Journal.{sides_of};
ghost use Rattle.rib_player.specs.Sides.{cleared_side, ClearAllOf, AreDistinct, IsStepFor};

use crate::changes::{Changes, changes_of, share_numbered_peer};
use crate::entry::Entry;
use crate::numbered_peer::NumberedPeer;
use crate::seen_peers::SeenPeers;
use crate::table::Table;
use ip_prefix::Prefix;
use known_routes::RouteInterner;
use mrt_events::{Event, Peer, Route, same_peer, same_prefix};
use prefix_store::PrefixStore;
use std::alloc::{AllocError, Global};
use std::rc::Rc;

/// The largest number of routes of a lost session that are read from the store in one call.
const MANY: usize = 64;

/// Appends to `entries`, for each prefix of `found`, an [`Entry`] of a step (a played event) that
/// clears the route of `peer` to this prefix. The routes of `found` aren't used. Fails if memory
/// allocation fails; some of the entries may have been appended then.
fn push_cleared_entries(
    alloc: Global,
    peer: &Rc<NumberedPeer>,
    found: &[(Prefix, &Rc<Route>)],
    entries: &mut Vec<Entry>,
) -> Result<(), AllocError>
    ensures { OnOk result (sides_of entries.new.items ≡ sides_of entries.old.items
        ++ map (λ f. cleared_side peer.now.value f.0) found.now) }
{
    'routes: for entry in found {
        entries.push(Entry::unapplied(alloc, peer.clone()?, &entry.0, None)?)?;
    }
    Ok(())
}

/// Returns the entries (routes that an event sets or clears) for the loss of the session with
/// `peer`, which clears all its routes: one entry for each prefix to which it has a route in
/// `table`, in ascending order of prefixes, or none if it has no route. They aren't applied: the
/// table isn't changed. Fails if memory allocation fails.
fn session_loss_entries<S: PrefixStore<Rc<Route>>>(
    alloc: Global,
    peer: &Peer,
    table: &Table<S>,
) -> Result<Vec<Entry>, AllocError>
    ensures { IfOk result (λ entries.
        ClearAllOf table.now.routes peer.now (sides_of entries.items)) }
{
    let Some(store) = table.store(peer) else {
        return Ok(Vec::new(alloc));
    };
    let shared = share_numbered_peer(alloc, table, None, peer)?;
    let count = store.route_count() as usize;
    let mut entries = Vec::with_capacity(alloc, count)?;
    let mut found = Vec::with_capacity(alloc, count.min(MANY).max(1))?;
    let mut last = None;
    'routes: loop {
        store.next_routes(last.as_ref(), &mut found);
        let Some(end) = found.last() else {
            return Ok(entries);
        };
        last = Some(end.0);
        push_cleared_entries(alloc, &shared, &found, &mut entries)?;
    }
}

/// Returns all entries (routes that an event sets or clears) of one event: those in `changes`, for
/// its announcements and withdrawals, followed by those that clear the routes in `table` of each
/// peer in `changes.lost`, whose session the event ends. A pair of a peer and a prefix may have
/// several entries, of which the first counts. Fails if memory allocation fails.
fn all_entries_of_event<S: PrefixStore<Rc<Route>>>(
    changes: Changes,
    table: &Table<S>,
) -> Result<Vec<Entry>, AllocError>
    ensures { IfOk result (λ entries. (q : Pair) →
        found (sides_of entries.items) q ≡ found_with_lost changes table.now.routes q) }
{
    let Changes {
        alloc,
        mut entries,
        lost,
    } = changes;
    if lost.is_empty() {
        return Ok(entries);
    }
    'peers: for peer in lost {
        let mut absent = session_loss_entries(alloc, &peer, table)?;
        entries.append(&mut absent)?;
    }
    Ok(entries)
}

/// The largest number of entries (routes that an event sets or clears) that are compared each with
/// each for equal pairs of a peer and a prefix. More are sorted.
const FEW: usize = 8;

/// Returns `true` if one of `entries` has both the peer and the prefix of `entry`, else `false`,
/// also if there are no entries. Routes aren't compared.
fn contains_pair(entries: &[Entry], entry: &Entry) -> bool
    ensures { result ≡ false → AllByRecursion
        (λ side. eq_by_cmp pair_cmp side.0 entry.now.pair ≡ false) (sides_of entries.now) }
{
    'entries: for other in entries {
        if same_prefix(&other.prefix(), &entry.prefix()) && same_peer(other.peer(), entry.peer()) {
            return true;
        }
    }
    false
}

/// Returns `true` if no two of `entries` have both the peer and the prefix in common, also if there
/// are none; else `false`. Takes time quadratic in their number.
fn have_distinct_pairs(entries: &[Entry]) -> bool
    ensures { IsTrue result → AreDistinct (sides_of entries.now) }
{
    'entries: for index in 0..entries.len() {
        if contains_pair(&entries[..index], &entries[index]) {
            return false;
        }
    }
    true
}

/// Returns `true` if all entries are of one peer, and the prefix of each is less than the prefix of
/// the entry before it, so that no two are of one prefix. Returns `true` for no entries or one, and
/// `false` otherwise.
fn are_one_peer_descending(entries: &[Entry]) -> bool
    ensures { IsTrue result → AreDistinct (sides_of entries.now) }
{
    // This holds of a message whose prefixes are in order, since the last item is noted first.
    let Some((first, rest)) = entries.split_first() else {
        return true;
    };
    let mut last = first;
    'entries: for entry in rest {
        if !same_peer(entry.peer(), last.peer()) || entry.prefix() >= last.prefix() {
            return false;
        }
        last = entry;
    }
    true
}

/// Returns the first of the entries (routes that an event sets or clears) of each pair of a peer
/// and a prefix, in unspecified order, and drops the others. `table` is searched only for the
/// indices of the peers' stores, to compare peers quickly. `marks` is scratch memory for these
/// indices; what it held is lost. Fails if memory allocation fails; the entries are dropped then.
fn first_entry_per_pair<S: PrefixStore<Rc<Route>>>(
    entries: Vec<Entry>,
    table: &Table<S>,
    marks: &mut SeenPeers,
) -> Result<Vec<Entry>, AllocError>
    ensures distinct { IfOk result (λ once. AreDistinct (sides_of once.items)) }
    ensures found { IfOk result (λ once. (q : Pair) →
        found (sides_of once.items) q ≡ found (sides_of entries.items) q) }
{
    // The entries are sorted if two may be of one pair. In a RIB record mostly no peer comes twice;
    // in a message, whose first and last entry are of one peer, mostly no prefix does.
    let is_known = match (entries.first(), entries.last()) {
        (Some(first), Some(last)) if entries.len() == 1 || same_peer(first.peer(), last.peer()) => {
            are_one_peer_descending(&entries)
        }
        _ => table.stores.have_distinct_stores(&entries, marks)?,
    };
    if is_known || (entries.len() <= FEW && have_distinct_pairs(&entries)) {
        return Ok(entries);
    }
    let mut ordered = entries;
    ordered.sort_by_key(|entry| entry.pair())?;
    ordered.dedup_by_key(|entry| entry.pair());
    Ok(ordered)
}

/// Returns the entries of the step that playing `event` on `table` makes: one for each pair of a
/// peer and a prefix that the event sets or clears and that has a route before or after it, with
/// the route that the pair gets. They aren't applied. The second value is a peer if the event does
/// nothing but end the session with that peer: the entries clear all its routes then, in ascending
/// order of prefixes. It is `None` for other events. Each announced route is replaced by an equal
/// one in `known`, the routes that the player shares, or else added there; a long one with many
/// owners may stay as it is. `marks` is scratch memory for the peers seen; what it held is lost.
/// Fails if memory allocation fails; some routes may have been added to `known` then.
pub(crate) fn entries_for_event<S: PrefixStore<Rc<Route>>>(
    alloc: Global,
    event: &Event,
    table: &Table<S>,
    known: &mut RouteInterner,
    marks: &mut SeenPeers,
) -> Result<(Vec<Entry>, Option<Peer>), AllocError>
    ensures step { IfOk result (λ new.
        IsStepFor table.now.routes event.now (sides_of new.0.items)) }
    ensures cleared { IfOk result (λ new. IfSome new.1 (λ peer.
        ClearAllOf table.now.routes peer (sides_of new.0.items))) }
{
    // The entries of a lost session, which may be many, are read from the peer's store and aren't
    // copied.
    let changes = changes_of(alloc, event, table, known)?;
    if changes.entries.is_empty() && changes.lost.len() == 1 {
        if let Some(peer) = changes.lost.first().copied() {
            let entries = session_loss_entries(alloc, &peer, table)?;
            return Ok((entries, Some(peer)));
        }
    }
    let then = all_entries_of_event(changes, table)?;
    let noted = then.len();
    let mut routed = first_entry_per_pair(then, table, marks)?;
    if routed.len() < noted {
        known.release_added();
    }
    routed.retain(|entry| entry.route().is_some() || entry.pair_has_route_in(table));
    routed.shrink_to_fit();
    Ok((routed, None))
}
