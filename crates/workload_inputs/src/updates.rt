//! What peers send in a day's course.

ghost use Rattle.std.specs.Prelude.{◌<◌};

use crate::chance::Chance;
use crate::octets::Octets;
use crate::peers::Peer;
use crate::world::World;

/// How a day goes: whether the records have microseconds, and how many of 100,000 tell of the loss
/// of a session.
#[derive(Clone, Copy)]
pub(crate) struct Course {
    pub(crate) precise: bool,
    pub(crate) losses: u32,
}

/// A change of routes that a peer tells: whether it withdraws them, the peer and its number, and
/// what the prefixes are drawn from.
#[derive(Clone, Copy)]
struct Told {
    withdraws: bool,
    peer: Peer,
    number: u32,
    chance: Chance,
}

impl World {
    /// Appends what a peer sends in a day's course: mostly an UPDATE of a few prefixes, at times
    /// one of hundreds, a keepalive, or the loss of its session. A fifth withdraw what one of the
    /// last few thousand announced.
    pub(crate) fn put_update(&mut self, octets: &mut Octets, course: Course) {
        let Some(told) = self.next_told() else {
            return;
        };
        let share = self.chance.below(100_000);
        if share < course.losses {
            return self.put_flap(octets, &told.peer, 0);
        }
        self.begin(&told.peer, course.precise);
        if share < course.losses.saturating_add(2_000) {
            self.update.clear();
            self.put_message(octets, 4, course.precise);
        } else {
            self.make_told(told);
            self.put_message(octets, 2, course.precise);
        }
    }

    /// The next change that a peer tells.
    fn next_told(&mut self) -> Option<Told> {
        let withdraws = self.chance.happens(200);
        let mut chance = self.next_chance(withdraws);
        let side = self.side(chance.happens(333));
        let number = chance.below(side.peer_count().max(1));
        let peer = side.peer(number)?;
        Some(Told {
            withdraws,
            peer,
            number,
            chance,
        })
    }

    /// What the next change is drawn from: one that withdraws, from what one of the last few
    /// thousand was.
    fn next_chance(&mut self, withdraws: bool) -> Chance {
        let back = if withdraws {
            1 + u64::from(self.chance.below(4_000))
        } else {
            0
        };
        self.told = self.told.wrapping_add(1);
        Chance::new(self.salt ^ self.told.wrapping_sub(back))
    }

    /// Makes the body of an UPDATE that tells a change.
    fn make_told(&mut self, told: Told) {
        let v6 = told.peer.v6;
        let mut chance = told.chance;
        let first = chance.below(self.side(v6).prefixes.max(1));
        self.spell(v6, first, chance);
        if told.withdraws {
            self.withdraw(v6);
        } else {
            let kind = self.kind(first);
            self.announce(&told.peer, told.number, kind);
        }
    }

    /// Makes the prefixes of an UPDATE, from the first one on in a row or nearly so.
    fn spell(&mut self, v6: bool, first: u32, chance: Chance) {
        let mut chance = chance;
        let most = if chance.happens(2) { 500 } else { 4 };
        let prefixes = self.side(v6).prefixes.max(1);
        let gap = 1 + chance.below(3);
        self.spelled.clear();
        for place in 0..1 + chance.below(most) {
            let prefix = first.wrapping_add(place.wrapping_mul(gap)) % prefixes;
            let network = self.network(v6, prefix);
            network.put(&mut self.spelled);
        }
    }
}
