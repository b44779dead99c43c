//! Prefetches of the memory that the routes of steps (played events) need in the table, before
//! undo, redo or play swap them with the table's, so that the processor waits for the nodes (of a
//! store's tree of prefixes) of several pairs of a peer and a prefix at once. They change nothing.
//! `journal.rt` calls [`prefetch_at_batch_start`] and [`prefetch_steps`].
//!
//! Nodes are prefetched only for entries of one peer, as those of a BGP message, whose store has
//! many keys (prefixes with memory for a route). A RIB record names one prefix of many peers, and
//! needs nodes that the record before mostly needed too; the nodes of few keys are in the cache
//! anyway.

ghost use Rattle.std.specs.Prelude.{◌<◌, ◌≤◌, length};

use crate::entry::{Entry, Step};
use crate::table::Table;
use mrt_events::Route;
use prefix_store::{PREFETCH_BATCH_LEN, PrefetchBatch, PrefixStore};
use std::collections::VecDeque;
use std::rc::Rc;

/// The number of entries of one step (the routes that one played event changed) for which nodes of
/// the store's tree are prefetched at once.
const ENTRIES_AT_ONCE: usize = PREFETCH_BATCH_LEN as usize;

/// The number of steps (played events) of a group, for which nodes of stores' trees are prefetched
/// at once. A group begins at an index that is a multiple of it. Only steps of fewer than
/// [`ENTRIES_AT_ONCE`] entries are prefetched so.
pub(crate) const STEPS_TOGETHER: usize = 8;

/// The smallest number of keys (prefixes with memory for a route) of a store whose nodes are
/// prefetched. The nodes of fewer keys are in the processor's cache anyway.
const LEAST_KEYS: u64 = 4096;

/// Prefetches the memory that look-ups of the prefixes in `batch` will read, and empties `batch`.
/// Returns what [`PrefixStore::prefetch`] does, such as the number of nodes visited. The caller has
/// to use the number, since a compiler may remove the prefetches otherwise.
fn prefetch_batch<S: PrefixStore<Rc<Route>>>(batch: &mut PrefetchBatch<'_, S>) -> u64 {
    let added = batch.take_all();
    S::prefetch(&added)
}

/// Adds the prefixes of `entries` (the routes that a step changed, all of one peer) to `batch`, to
/// be looked up in `store`. Whenever `batch` is full, prefetches the memory that look-ups of its
/// prefixes will read, and empties it; it may have prefixes left at the end. Returns the number of
/// nodes visited, which the caller has to use, since a compiler may remove the prefetches
/// otherwise.
fn prefetch_full_batches<'a, S: PrefixStore<Rc<Route>>>(
    batch: &mut PrefetchBatch<'a, S>,
    store: &'a S,
    entries: &[Entry],
) -> u64 {
    let mut visited = 0u64;
    'entries: for entry in entries {
        if batch.add(store, entry.prefix()) {
            visited = visited.wrapping_add(prefetch_batch(batch));
        }
    }
    visited
}

/// Returns the store with the routes of the peer of `entries` (the routes that a step changed), or
/// `None` if prefetching doesn't pay: if there are no entries, the first and the last are of
/// different peers, the peer has no store, or its store has fewer than [`LEAST_KEYS`] keys
/// (prefixes with memory for a route). Entries between the first and the last aren't looked at.
fn store_worth_prefetching<'a, S: PrefixStore<Rc<Route>>>(
    table: &'a Table<S>,
    entries: &[Entry],
) -> Option<&'a S> {
    // The entries of a message are of one peer. If others are between, too much is prefetched.
    let peer = entries.first()?.shared_peer();
    if entries.last()?.peer() != peer.peer() {
        return None;
    }
    let store = table.stores.get(peer.number_hint(), peer.peer())?;
    if store.key_count() < LEAST_KEYS {
        return None;
    }
    Some(store)
}

/// Prefetches the memory in `table` for up to [`ENTRIES_AT_ONCE`] entries of a step (a played
/// event), from the index `index` on, and returns the number of nodes visited, which the caller has
/// to use, since a compiler may remove the prefetches otherwise. `entries` are all entries of the
/// step. Requires that `index` is at most their number. Does nothing and returns 0 unless
/// - `index` is a multiple of [`ENTRIES_AT_ONCE`],
/// - the step has at least so many entries, and
/// - the first and the last of all entries are of one peer, whose store has at least [`LEAST_KEYS`]
///   keys (prefixes with memory for a route).
#[inline]
pub(crate) fn prefetch_at_batch_start<S: PrefixStore<Rc<Route>>>(
    table: &Table<S>,
    entries: &[Entry],
    index: usize,
) -> u64
    requires { index ≤ length entries.now }
{
    if entries.len() < ENTRIES_AT_ONCE || index % ENTRIES_AT_ONCE != 0 {
        return 0;
    }
    let Some(store) = store_worth_prefetching(table, entries) else {
        return 0;
    };
    let mut batch = PrefetchBatch::new();
    let end = entries.len().min(index.saturating_add(ENTRIES_AT_ONCE));
    let visited = prefetch_full_batches(&mut batch, store, &entries[index..end]);
    visited.wrapping_add(prefetch_batch(&mut batch))
}

/// The two groups of [`STEPS_TOGETHER`] steps (played events) whose memory was prefetched last, so
/// that it isn't prefetched again. A group is given by the index of its first step in the list of
/// the steps that can be undone or redone, or is `usize::MAX` for none.
#[derive(Clone, Copy)]
pub(crate) struct LastPrefetchedGroups {
    // Two are kept, so that going back and forth over a position doesn't prefetch their nodes each
    // time.
    /// The group that was prefetched last.
    pub(crate) last: usize,
    /// The group that was prefetched before `last`.
    pub(crate) before: usize,
}

/// Prefetches the memory in `table` for the group of [`STEPS_TOGETHER`] steps (played events) that
/// `steps[next]` is in, adds the group to `prefetched`, and returns the number of nodes visited,
/// which the caller has to use, since a compiler may remove the prefetches otherwise. `steps[next]`
/// is the step that the caller undoes or redoes next. Does nothing and returns 0 if its index in
/// the group isn't `first` (0 for a caller that redoes, `STEPS_TOGETHER - 1` for one that undoes),
/// if it has no entries, or if the group is in `prefetched` already. Steps of at least
/// [`ENTRIES_AT_ONCE`] entries are left to [`prefetch_at_batch_start`]. Requires that `next` is the
/// index of a step.
pub(crate) fn prefetch_steps<S: PrefixStore<Rc<Route>>>(
    table: &Table<S>,
    steps: &VecDeque<Step>,
    prefetched: &mut LastPrefetchedGroups,
    next: usize,
    first: usize,
) -> u64
    requires { next < length steps.now.items }
{
    if next % STEPS_TOGETHER != first || steps[next].entries.is_empty() {
        return 0;
    }
    let start = next - first;
    if start == prefetched.last || start == prefetched.before {
        return 0;
    }
    prefetched.before = prefetched.last;
    prefetched.last = start;
    let end = steps.len().min(start.saturating_add(STEPS_TOGETHER));
    let mut batch = PrefetchBatch::new();
    let mut visited = 0u64;
    'steps: for index in start..end {
        let entries = &steps[index].entries;
        if entries.len() < ENTRIES_AT_ONCE {
            if let Some(store) = store_worth_prefetching(table, entries) {
                visited = visited.wrapping_add(prefetch_full_batches(&mut batch, store, entries));
            }
        }
    }
    visited.wrapping_add(prefetch_batch(&mut batch))
}
