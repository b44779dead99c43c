//! The player: a routing table for each peer, on which events of an MRT file are played, each as
//! one step, and by which the steps are undone and redone. `bgpdump_tool` runs the commands of a
//! script on it. Read [`Player`] and [`Player::play`] first, then `journal.rt`.

ghost use Rattle.std.specs.Prelude.{◌≡◌, ◌<◌, ◌↔◌, IfOk, OnOk, OnErr, IsOk, sum_by};
ghost use Rattle.std.specs.FinSet as set;
ghost use Rattle.prefix_store.specs.Stored.{saturated_count};
ghost use Rattle.prefix_store.specs.declared.store.TheConstants.{GREATEST_COUNT};
ghost use Rattle.rib_player.specs.Timeline.{ahead_of, end_of, current, after_play, fresh, after_undo, after_redo, without_first, forgotten_count, after_forget, needed_keys, IsWellFormed};

use crate::claims::{ExtraKeyClaims, release_claims};
use crate::entry::{JournalEnd, Step};
use crate::journal::{
    Journal, apply_entries, apply_or_undo_step, drop_step, drop_steps_ahead, reserve_step,
};
use crate::prefetching::{LastPrefetchedGroups, STEPS_TOGETHER};
use crate::seen_peers::SeenPeers;
use crate::steps::entries_for_event;
use crate::table::Table;
use known_routes::RouteInterner;
use mrt_events::{Event, Route};
use prefix_store::PrefixStore;
use std::alloc::{AllocError, Global};
use std::collections::VecDeque;
use std::marker::Model;
use std::rc::Rc;
use thiserror::Error;

/// The error of [`Player::play`]: memory allocation failed.
#[derive(Clone, Copy, Debug, PartialEq, Eq, Error)]
pub enum PlayFault {
    /// Memory allocation failed. The player is unchanged, including the undone steps, which can
    /// still be redone.
    #[error("out of memory")]
    Memory,
}

/// The error of [`Player::undo`] and [`Player::redo`]: there is no step (played event) to undo, or
/// none to redo.
#[derive(Clone, Copy, Debug, PartialEq, Eq)]
pub struct Nothing;

/// A routing table for each peer, the steps that led to it, and a cursor among the steps. A step is
/// an event that was played. The table is the one after all steps before the cursor;
/// [`undo`](Player::undo) and [`redo`](Player::redo) move the cursor by one step. The oldest steps
/// can be forgotten: their effect stays, but they can't be undone any more, and their memory is
/// freed. In contracts, its value is a `Timeline`: the floor, the cursor, the tables by position,
/// and the pairs of a peer and a prefix that each step names.
#[derive(Drop)]
pub struct Player<S: PrefixStore<Rc<Route>>> {
    alloc: Global,
    /// The table after the steps before the cursor.
    table: Table<S>,
    /// The steps that aren't forgotten, and the cursor.
    journal: Journal,
    /// How often each pair of a peer and a prefix is claimed beyond the first time. A claim is a
    /// reason to keep the pair as a key of the table, with memory for a route (`claims.rt`).
    claims: ExtraKeyClaims,
    /// The routes that were played, by which equal routes share memory.
    known: RouteInterner,
    /// The indices of the stores whose peers were seen in the event that is being played. Kept
    /// between plays so that its memory is used again.
    marks: SeenPeers,
    /// The groups of steps whose memory was prefetched last, by undo or redo.
    prefetched: LastPrefetchedGroups,
}

impl<S: PrefixStore<Rc<Route>>> Model for Player<S> {
    ghost use Rattle.rib_player.specs.Timeline.{Timeline};
    ghost use Rattle.rib_player.specs.Claims.{coded_timeline, claims_beyond};

    ghost Value = { Timeline };

    ghost coded = { coded_timeline };

    ghost use Rattle.std.specs.Prelude.{◌+◌, ◌≤◌, length};
    ghost use Rattle.prefix_store.specs.declared.store.TheConstants.{GREATEST_COUNT};
    ghost use Rattle.rib_player.specs.Journal.{timeline_of, sides_by_step};
    ghost use Rattle.rib_player.specs.JournalState.{IsConsistentJournal};

    ghost view = { λ a. timeline_of a.journal.floor a.journal.cursor
        (sides_by_step a.journal.steps.items) a.table.routes };

    ghost invariant = { λ a. record {
      played : IsConsistentJournal a.table (claims_beyond a.claims) a.journal.cursor
          a.journal.steps.items;
      saturated_count : a.journal.floor + length a.journal.steps.items ≤ GREATEST_COUNT;
    } };
}

impl<S: PrefixStore<Rc<Route>>> Player<S> {
    /// Returns a player with no routes and no steps, without allocating.
    pub fn new(alloc: Global) -> Self
        ensures { result ≡ fresh }
    {
        Player {
            alloc,
            table: Table::new(alloc),
            journal: Journal {
                steps: VecDeque::new(alloc),
                cursor: 0,
                floor: 0,
            },
            claims: ExtraKeyClaims::new(alloc),
            known: RouteInterner::new(alloc),
            marks: SeenPeers::new(alloc),
            prefetched: LastPrefetchedGroups {
                last: usize::MAX,
                before: usize::MAX,
            },
        }
    }

    /// Returns the position of the cursor: the number of steps (played events) before it, which are
    /// applied to the table now. Steps that were forgotten, so that they can't be undone any more,
    /// are counted too.
    pub fn at(&self) -> u64
        ensures cursor { result ≡ self.now.cursor }
        ensures well_formed { IsWellFormed self.now }
    {
        self.journal.floor + self.journal.cursor as u64
    }

    /// Returns the number of steps (played events) that were forgotten and can't be undone any
    /// more. It is the lowest position that [`undo`](Player::undo) can bring the cursor to.
    pub fn floor(&self) -> u64
        ensures { result ≡ self.now.floor }
    {
        self.journal.floor
    }

    /// Returns the number of steps after the cursor: events that were played and then undone, which
    /// [`redo`](Player::redo) would apply again.
    pub fn ahead(&self) -> u64
        ensures { result ≡ ahead_of self.now }
    {
        (self.journal.steps.len() - self.journal.cursor) as u64
    }

    /// Returns how many pairs of a peer and a prefix all steps (played events) that undo or redo
    /// can go over name in total, or `u64::MAX` if there are more. A step names each pair that its
    /// event sets or clears and that has a route before or after it; a pair counts once for each
    /// step that names it. The memory that the steps take grows with this number. Takes time linear
    /// in the number of steps.
    pub fn named(&self) -> u64
        ensures { result ≡ saturated_count (sum_by set.len self.now.steps) }
    {
        let steps = &self.journal.steps;
        let mut total = 0u64;
        'steps: for index in 0..steps.len() {
            total = total.saturating_add(steps[index].entries.len() as u64);
        }
        total
    }

    /// Returns the routing tables of all peers as of the cursor: with all steps (played events)
    /// before it applied, and none after it.
    pub fn table(&self) -> &Table<S>
        ensures keys { result.now.keys ≡ needed_keys self.now }
        ensures routes { result.now.routes ≡ current self.now }
    {
        &self.table
    }

    /// Applies `event` to the table as the next step, and moves the cursor after it. The steps
    /// after the cursor (undone events) are dropped, so that they can't be redone; returns how many
    /// these were. Requires that the position ([`Player::at`]) is below `u64::MAX`. Fails if memory
    /// allocation fails; the player is unchanged then, including the steps after the cursor.
    pub fn play(&mut self, event: &Event) -> Result<u64, PlayFault>
        requires { self.old.cursor < GREATEST_COUNT }
        ensures after_play { OnOk result (self.new ≡ after_play self.old event.now) }
        ensures dropped { IfOk result (λ dropped. dropped ≡ ahead_of self.old) }
        ensures refused { OnErr result (self.new ≡ self.old) }
    {
        self.known.prepare_for_event();
        self.table.shrink_if_oversized();
        let played = self.play_without_cleanup(event);
        if played.is_err() {
            self.known.release_added();
        }
        played
    }

    /// Undoes the step (played event) before the cursor, and moves the cursor before it, without
    /// allocating. An error means that there is no step to undo, since the cursor is at the
    /// [`floor`](Player::floor); nothing changes then.
    pub fn undo(&mut self) -> Result<(), Nothing>
        ensures after_undo { self.new ≡ after_undo self.old }
        ensures can { IsOk result ↔ (self.old.floor < self.old.cursor) }
    {
        if self.journal.cursor == 0 {
            return Err(Nothing);
        }
        self.journal.cursor -= 1;
        apply_or_undo_step(
            &mut self.table,
            &mut self.journal.steps,
            &mut self.prefetched,
            self.journal.cursor,
            STEPS_TOGETHER - 1,
        );
        Ok(())
    }

    /// Redoes the step (played event) after the cursor, which was undone, and moves the cursor
    /// after it, without allocating. An error means that there is no such step; nothing changes
    /// then.
    pub fn redo(&mut self) -> Result<(), Nothing>
        ensures after_redo { self.new ≡ after_redo self.old }
        ensures can { IsOk result ↔ (self.old.cursor < end_of self.old) }
    {
        if self.journal.cursor == self.journal.steps.len() {
            return Err(Nothing);
        }
        apply_or_undo_step(
            &mut self.table,
            &mut self.journal.steps,
            &mut self.prefetched,
            self.journal.cursor,
            0,
        );
        self.journal.cursor += 1;
        Ok(())
    }
}

impl<S: PrefixStore<Rc<Route>>> Player<S> {
    /// Plays `event` as the next step, drops the undone steps, and returns how many these were.
    /// Unlike [`Player::play`], doesn't free spare memory before. Requires that the position
    /// ([`Player::at`]) is below `u64::MAX`. Fails if memory allocation fails; table, steps and
    /// cursor are unchanged then, but some routes of the event may have been added to `known`, the
    /// routes that the player shares, and the caller has to call [`RouteInterner::release_added`].
    fn play_without_cleanup(&mut self, event: &Event) -> Result<u64, PlayFault>
        requires { self.old.cursor < GREATEST_COUNT }
        ensures after_play { OnOk result (self.new ≡ after_play self.old event.now) }
        ensures dropped { IfOk result (λ dropped. dropped ≡ ahead_of self.old) }
        ensures refused { OnErr result (self.new ≡ self.old) }
    {
        let (mut entries, lost) = entries_for_event(
            self.alloc,
            event,
            &self.table,
            &mut self.known,
            &mut self.marks,
        )?;
        reserve_step(&mut self.journal.steps)?;
        let cursor = self.journal.cursor;
        let dropped = self.journal.steps.len() - cursor;
        apply_entries(
            self.alloc,
            &mut self.table,
            &mut self.claims,
            lost.as_ref(),
            entries.as_mut_slice(),
        )?;
        drop_steps_ahead(
            &mut self.journal.steps,
            cursor,
            &mut self.table,
            &mut self.claims,
            &mut self.known,
        );
        self.journal.steps.push_back_reserved(Step { entries });
        self.journal.cursor += 1;
        Ok(dropped as u64)
    }

    /// Forgets the oldest step (played event) that isn't forgotten yet, so that it can't be undone
    /// any more. The table's routes and the cursor's position stay. Requires that there is such a
    /// step, and that it is before the cursor.
    fn forget_oldest(&mut self)
        requires { self.old.floor < self.old.cursor }
        ensures { self.new ≡ without_first 1 self.old }
    {
        if let Some(step) = self.journal.steps.pop_front() {
            release_claims(
                &mut self.table,
                &mut self.claims,
                &step.entries,
                JournalEnd::First,
            );
            self.journal.cursor -= 1;
            self.journal.floor += 1;
            drop_step(&mut self.known, step);
        }
    }

    /// Drops the routes that the player holds only to share them with later events, if they may
    /// take much memory: if the routes given up by steps and events since the last such drop take
    /// more than 1 MiB plus a quarter of the octets of all other routes. Doesn't change what any
    /// method returns. Call it after dropping the event that was given to [`play`](Player::play);
    /// without this call, such routes stay until the next play or [`forget`](Player::forget).
    pub fn drop_unused_routes(&mut self)
        ensures { self.new ≡ self.old }
    {
        self.known.sweep_if_due();
    }

    /// Forgets the oldest kept steps (played events) until at most `keep` steps before the cursor
    /// can still be undone, and returns how many it forgot: 0 if there are no more than `keep`. The
    /// steps after the cursor, the position of the cursor, and the routes stay. Allocates no
    /// memory.
    pub fn forget(&mut self, keep: u64) -> u64
        ensures after_forget { self.new ≡ after_forget self.old keep }
        ensures forgotten { result ≡ forgotten_count self.old keep }
    {
        let count = (self.journal.cursor as u64).saturating_sub(keep);
        'steps: for _ in 0..count {
            self.forget_oldest();
        }
        self.known.sweep_if_due();
        count
    }
}

impl From<AllocError> for PlayFault {
    ghost use Rattle.std.specs.Prelude.{◌≡◌};
    ghost use Rattle.rib_player.specs.declared.player.PlayFault.TheVariants.{Memory};

    ghost from_gives = { λ _ fault. fault ≡ Memory };

    fn from(_refused: AllocError) -> PlayFault {
        PlayFault::Memory
    }
}
