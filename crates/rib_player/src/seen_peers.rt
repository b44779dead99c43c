//! A set of the numbers of peers (indices of their stores in the table) that were seen so far in
//! one list of entries, such as the routes of a RIB record. `stores.rt` finds by it whether all
//! entries are of different peers. Emptying it takes constant time, apart from shrinking the list.

ghost use Rattle.std.specs.Prelude.{◌≡◌, ℕ, true, false, IsTrue, IfOk};
ghost use Rattle.rib_player.specs.Numbered.{was_seen};

use crate::spare_capacity::shrink_if_oversized;
use std::alloc::{AllocError, Global};

/// A set of peers' numbers (the indices of their stores in the table): those seen in the current
/// round. A round begins with [`clear`](SeenPeers::clear), and numbers are then added one by one.
/// For each number, the last round in which it was seen is stored. So `clear` only has to count the
/// rounds, and needn't change what is stored for each number.
#[derive(Drop)]
pub(crate) struct SeenPeers {
    /// The last round in which each number was seen, by number. Numbers past the end weren't seen
    /// in the current round.
    pub(crate) last_rounds: Vec<u64>,
    /// The current round, counted from 0, which wraps around at 2^64.
    pub(crate) round: u64,
}

impl SeenPeers {
    /// Returns an empty set, without allocating.
    pub(crate) fn new(alloc: Global) -> SeenPeers {
        SeenPeers {
            last_rounds: Vec::new(alloc),
            round: 0,
        }
    }

    /// Removes all numbers from the set. `bound` is one more than the greatest number expected to
    /// be added after this: what is stored for greater ones is dropped, but they can still be
    /// added. Frees unused capacity of the set if [`shrink_if_oversized`] finds it too large.
    pub(crate) fn clear(&mut self, bound: usize) {
        self.round = self.round.wrapping_add(1);
        self.last_rounds.truncate(bound);
        shrink_if_oversized(&mut self.last_rounds);
    }

    /// Adds `number` to the set. Returns `true` if it was added, or `false` if it was in the set
    /// already, and for `usize::MAX`, which is never added. Numbers aren't bounded, but memory
    /// grows with the greatest. Fails if memory allocation fails; the set is unchanged then.
    pub(crate) fn newly_seen(&mut self, number: usize) -> Result<bool, AllocError>
        ensures new { IfOk result (λ newly_seen. IsTrue newly_seen →
            was_seen self.old number ≡ false) }
        ensures marked { IfOk result (λ newly_seen. IsTrue newly_seen →
            was_seen self.new number ≡ true) }
        ensures others { IfOk result (λ newly_seen. (n : ℕ) → IsTrue newly_seen →
            was_seen self.old n ≡ true → was_seen self.new n ≡ true) }
    {
        if number >= self.last_rounds.len() {
            let Some(count) = number.checked_add(1) else {
                return Ok(false);
            };
            self.last_rounds.resize(count, self.round.wrapping_sub(1))?;
        }
        let newly_seen = self.last_rounds[number] != self.round;
        self.last_rounds[number] = self.round;
        Ok(newly_seen)
    }
}
