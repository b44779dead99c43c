//! The journal of a player: its steps (played events, which undo and redo go over), and functions
//! that apply, undo, redo and drop them. `player.rt` calls these. Read [`Journal`] first, then
//! `entry.rt` for what a step keeps, and [`apply_entries`].

ghost use Rattle.std.specs.Prelude.{◌≡◌, ◌+◌, ◌<◌, ◌≤◌, ◌||◌, true, false, is_some, length, take, IfSome, OnOk, OnErr};
ghost use Rattle.std.specs.List.{AllByRecursion, sum_by};
ghost use Rattle.std.specs.VecDeque.{deque_len, deque_capacity};
ghost use Rattle.std.specs.FinMap as finite;
ghost use Rattle.prefix_store.specs.Stored.{saturated_count, ContainsDomain};
ghost use Rattle.prefix_store.specs.declared.store.TheConstants.{GREATEST_COUNT};
ghost use Rattle.rib_player.specs.declared.pair.Pair.{Pair};
ghost use Rattle.rib_player.specs.declared.entry.JournalEnd.TheVariants.{Last};
ghost use Rattle.rib_player.specs.Claims.{one_if, claims_beyond, held_claims_of, OnlyKeysHaveExtraClaims};
ghost use Rattle.rib_player.specs.Journal.{sides_of, sides_by_step, routes_across};
ghost use Rattle.rib_player.specs.Sides.{sides_at, sides_across, ClearAllOf, AreDistinctKeys, AreDistinct, marks_of, marks_by_step, any_releases_claim_of, entry_count};
ghost use Rattle.rib_player.specs.JournalState.{IsStepSwapped, AreApplied, CanDrop, ClaimsStayRightWithoutSteps};

use crate::claims::{ExtraKeyClaims, apply_entry, release_claims};
use crate::entry::{Entry, JournalEnd, Step};
use crate::prefetching::{LastPrefetchedGroups, prefetch_at_batch_start, prefetch_steps};
use crate::spare_capacity::{LEAST_ROOM, MOST_TIMES};
use crate::table::Table;
use known_routes::RouteInterner;
use mrt_events::{Peer, Route};
use prefix_store::PrefixStore;
use std::alloc::{AllocError, Global};
use std::collections::VecDeque;
use std::rc::Rc;

/// The steps (played events) that can be undone or redone, and the cursor: how many of them are
/// applied.
#[derive(Drop)]
pub(crate) struct Journal {
    /// The steps that aren't forgotten, the oldest first. Those before the cursor are applied to
    /// the table; those after it were undone.
    pub(crate) steps: VecDeque<Step>,
    /// The number of steps of `steps` that are before the cursor.
    pub(crate) cursor: usize,
    /// The number of steps that were forgotten: their effect stays in the table, but they can't be
    /// undone any more.
    pub(crate) floor: u64,
}

/// Swaps the route of each entry with the table's route of the entry's peer and prefix; either may
/// be absent. If `entries` are all entries of one step (a played event), this undoes the step if it
/// is applied, and redoes it if it isn't. Requires that the entries' pairs of a peer and a prefix
/// are distinct keys of `table` (have memory for a route). Allocates no memory.
pub(crate) fn swap_routes<S: PrefixStore<Rc<Route>>>(table: &mut Table<S>, entries: &mut [Entry])
    requires { AreDistinctKeys table.old.keys (sides_of entries.old) }
    ensures keys { table.new.keys ≡ table.old.keys }
    ensures routes { table.new.routes ≡ routes_across (sides_of entries.old) table.old.routes }
    ensures entries { sides_of entries.new ≡ sides_across table.old.routes (sides_of entries.old) }
    ensures marks { marks_of entries.new ≡ marks_of entries.old }
{
    let mut visited = 0u64;
    'entries: for index in 0..entries.len() {
        visited = visited.wrapping_add(prefetch_at_batch_start(table, entries, index));
        entries[index].exchange(table);
    }
    table.add_prefetched_nodes(visited);
}

/// Undoes the step (a played event) `steps[index]` if it is applied, and redoes it otherwise, by
/// swapping its routes with those of `table`. Before that, prefetches the memory for its group of
/// [`STEPS_TOGETHER`] steps, as [`prefetch_steps`] does: if `first` is the step's index in the
/// group, and the group isn't in `prefetched` yet, to which it is added. `first` is 0 for a caller
/// that redoes, `STEPS_TOGETHER - 1` for one that undoes. Requires that `index` is in range, and
/// that the step's pairs of a peer and a prefix are distinct keys of `table` (have memory for a
/// route).
pub(crate) fn apply_or_undo_step<S: PrefixStore<Rc<Route>>>(
    table: &mut Table<S>,
    steps: &mut VecDeque<Step>,
    prefetched: &mut LastPrefetchedGroups,
    index: usize,
    first: usize,
)
    requires within { index < length steps.old.items }
    requires kept { AreDistinctKeys table.old.keys
        (sides_at (sides_by_step steps.old.items) index) }
    ensures { IsStepSwapped table.old table.new steps.old.items steps.new.items index }
{
    let visited = prefetch_steps(table, steps, prefetched, index, first);
    table.add_prefetched_nodes(visited);
    let step = &mut steps[index];
    swap_routes(table, step.entries.as_mut_slice());
}

/// Applies a new step (a played event) that does nothing but clear all routes of `peer`: moves them
/// from the table to `entries`. Requires that `entries` has one entry, without a route, for each of
/// these routes, in ascending order of prefixes. The pairs of peer and prefix stay keys, which keep
/// memory for a route, so that undo needs none. Fails if memory allocation fails; table and entries
/// are unchanged then.
pub(crate) fn apply_session_loss<S: PrefixStore<Rc<Route>>>(
    alloc: Global,
    table: &mut Table<S>,
    peer: &Peer,
    entries: &mut [Entry],
) -> Result<(), AllocError>
    requires { ClearAllOf table.old.routes peer.now (sides_of entries.old) }
    ensures keys { table.new.keys ≡ table.old.keys }
    ensures put { OnOk result (AreApplied table.old table.new entries.old entries.new) }
    ensures unbrought { OnOk result ((q : Pair) →
        any_releases_claim_of Last (marks_of entries.new) q ≡ false) }
    ensures kept { OnErr result (table.new.routes ≡ table.old.routes) }
{
    // All routes are taken in one walk over the store, instead of one search for each.
    let mut routes = Vec::with_capacity(alloc, entries.len())?;
    table.drain_routes(peer, &mut routes);
    let mut index = 0;
    'routes: for route in routes {
        entries[index].set_cleared(route);
        index += 1;
    }
    Ok(())
}

/// Applies a new step (a played event) to the table: swaps the route of each of `entries` with the
/// table's route of the entry's peer and prefix (a pair); either may be absent. The entries then
/// have the routes that undo puts back. Each pair becomes a key of the table: it has memory for a
/// route, also while it has none. A pair that had no route and gets one also gets a claim, a reason
/// to keep it as a key, which is counted in `claims` if the pair was a key before. If `lost` is a
/// peer, requires that the entries clear all routes of that peer, in ascending order of prefixes,
/// and nothing else. Requires that no two entries are of one pair, that each pair has a route
/// before or after the step, and that all counts in `claims` are below `u64::MAX`. Fails if memory
/// allocation fails; table and claims are unchanged then, and the entries are unspecified.
pub(crate) fn apply_entries<S: PrefixStore<Rc<Route>>>(
    alloc: Global,
    table: &mut Table<S>,
    claims: &mut ExtraKeyClaims,
    lost: Option<&Peer>,
    entries: &mut [Entry],
) -> Result<(), AllocError>
    requires cleared { IfSome lost (λ peer.
        ClearAllOf table.old.routes peer.now (sides_of entries.old)) }
    requires distinct { AreDistinct (sides_of entries.old) }
    requires held { OnlyKeysHaveExtraClaims table.old.keys (claims_beyond claims.old) }
    requires among { ContainsDomain table.old.keys table.old.routes }
    requires named { AllByRecursion (λ side.
        (is_some (finite.get table.old.routes side.0) || is_some side.1) ≡ true)
        (sides_of entries.old) }
    requires few { (q : Pair) → claims_beyond claims.old q < GREATEST_COUNT }
    ensures held { OnlyKeysHaveExtraClaims table.new.keys (claims_beyond claims.new) }
    ensures claimed { OnOk result ((q : Pair) →
        held_claims_of table.new claims.new q ≡ held_claims_of table.old claims.old q
        + one_if (any_releases_claim_of Last (marks_of entries.new) q)) }
    ensures put { OnOk result (AreApplied table.old table.new entries.old entries.new) }
    ensures refused { OnErr result ((q : Pair) →
        held_claims_of table.new claims.new q ≡ held_claims_of table.old claims.old q) }
    ensures kept { OnErr result (table.new.routes ≡ table.old.routes) }
{
    if let Some(peer) = lost {
        return apply_session_loss(alloc, table, peer, entries);
    }
    let mut made = 0;
    let mut visited = 0u64;
    'entries: while made < entries.len() {
        visited = visited.wrapping_add(prefetch_at_batch_start(table, entries, made));
        if let Err(refused) = apply_entry(table, claims, &mut entries[made]) {
            let put = &mut entries[..made];
            swap_routes(table, put);
            release_claims(table, claims, put, JournalEnd::Last);
            return Err(refused);
        }
        made += 1;
    }
    table.add_prefetched_nodes(visited);
    Ok(())
}

/// Drops `step` (a played event) entry by entry. Before dropping an entry with a route, calls
/// [`RouteInterner::release`] on `known`, the routes that the player shares, so that a route with
/// no other owner is removed from these.
pub(crate) fn drop_step(known: &mut RouteInterner, step: Step) {
    // Each entry is dropped before the next is noted, since `known` looks at the number of owners,
    // and entries may share a route.
    'entries: for entry in step.entries {
        if let Some(route) = entry.route() {
            known.release(route);
        }
    }
}

/// Reserves capacity for one more step (a played event) in `steps`. Before that, shrinks a capacity
/// that is far too large: if the capacity divided by [`MOST_TIMES`], rounded down, is above the
/// number of steps, or above [`LEAST_ROOM`] if that is more, it is shrunk to this number. Fails if
/// memory allocation fails; the steps are unchanged then.
pub(crate) fn reserve_step(steps: &mut VecDeque<Step>) -> Result<(), AllocError>
    ensures room { OnOk result (deque_len steps.new < deque_capacity steps.new) }
    ensures steps { steps.new.items ≡ steps.old.items }
{
    let kept = steps.len().max(LEAST_ROOM);
    if steps.capacity() / MOST_TIMES > kept {
        steps.shrink_to(kept);
    }
    steps.reserve(1)
}

/// Drops the undone steps (played events that redo would apply again), the last first, since a new
/// event is played instead. `cursor` is the number of applied steps, which stay. The claims that
/// the dropped steps make (reasons to keep a pair of a peer and a prefix as a key of the table,
/// with memory for a route) end: they are subtracted in `claims`, and a key without another claim
/// is removed from `table`. The routes in `table` stay. Dropped routes that have no other owner are
/// removed from `known`, the routes that the player shares. Allocates no memory.
pub(crate) fn drop_steps_ahead<S: PrefixStore<Rc<Route>>>(
    steps: &mut VecDeque<Step>,
    cursor: usize,
    table: &mut Table<S>,
    claims: &mut ExtraKeyClaims,
    known: &mut RouteInterner,
)
    requires within { cursor ≤ length steps.old.items }
    requires distinct { AllByRecursion AreDistinct (sides_by_step steps.old.items) }
    requires held { OnlyKeysHaveExtraClaims table.old.keys (claims_beyond claims.old) }
    requires claimed { CanDrop (marks_by_step steps.old.items) cursor
        (held_claims_of table.old claims.old) table.old.routes }
    ensures held { OnlyKeysHaveExtraClaims table.new.keys (claims_beyond claims.new) }
    ensures claimed { ClaimsStayRightWithoutSteps cursor steps.old.items
        (held_claims_of table.old claims.old)
        steps.new.items (held_claims_of table.new claims.new) }
    ensures routes { table.new.routes ≡ table.old.routes }
    ensures steps { steps.new.items ≡ take cursor steps.old.items }
    ensures capacity { deque_capacity steps.new ≡ deque_capacity steps.old }
{
    'steps: while steps.len() > cursor {
        if let Some(step) = steps.pop_back() {
            release_claims(table, claims, &step.entries, JournalEnd::Last);
            drop_step(known, step);
        }
    }
}
