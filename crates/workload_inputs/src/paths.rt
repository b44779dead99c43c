//! Paths of routes.

ghost use Rattle.std.specs.Prelude.{◌<◌};

use crate::chance::Chance;
use crate::octets::Octets;
use crate::peers::{Peer, transit};

/// What stands for a number that doesn't fit into two octets (RFC 6793, section 9).
const AS_TRANS: u32 = 23_456;

/// The kinds of segments (RFC 4271, section 4.3).
const SET: u8 = 1;

const SEQUENCE: u8 = 2;

/// How many numbers a segment may have.
const MOST: usize = 12;

/// The numbers of a segment.
#[derive(Clone, Copy)]
struct Numbers {
    numbers: [u32; MOST],
    count: u8,
}

impl Numbers {
    /// No numbers.
    fn new() -> Self {
        Numbers {
            numbers: [0; MOST],
            count: 0,
        }
    }

    /// Adds a number, if there is room.
    fn add(&mut self, number: u32) {
        let count = usize::from(self.count);
        if count < MOST {
            self.numbers[count] = number;
            self.count = self.count.saturating_add(1);
        }
    }

    /// The numbers one behind the other.
    fn listed(&self) -> &[u32] {
        &self.numbers[..usize::from(self.count).min(MOST)]
    }

    /// Whether one of them doesn't fit into two octets.
    fn are_wide(&self) -> bool {
        for number in self.listed() {
            if u16::try_from(*number).is_err() {
                return true;
            }
        }
        false
    }

    /// How many octets the segment has, which isn't there without numbers.
    fn len(&self, wide: bool) -> usize {
        if self.count == 0 {
            return 0;
        }
        let each = if wide { 4 } else { 2 };
        usize::from(self.count)
            .saturating_mul(each)
            .saturating_add(2)
    }

    /// Appends the segment, if there are numbers.
    fn put(&self, octets: &mut Octets, kind: u8, wide: bool) {
        if self.count == 0 {
            return;
        }
        octets.put(&[kind, self.count]);
        for number in self.listed() {
            put_number(octets, *number, wide);
        }
    }
}

/// Appends a number in four octets, or in two, where one that doesn't fit is replaced.
fn put_number(octets: &mut Octets, number: u32, wide: bool) {
    if wide {
        octets.put_u32(number);
    } else {
        octets.put_u16(u16::try_from(number).unwrap_or(AS_TRANS as u16));
    }
}

/// A path: a sequence, and at times a set behind it.
#[derive(Clone, Copy)]
pub(crate) struct Path {
    sequence: Numbers,
    set: Numbers,
}

impl Path {
    /// A path of three to seven hops, an eighth of them with the last one prepended.
    pub(crate) fn drawn(peer: &Peer, chance: &mut Chance) -> Self {
        let sequence = drawn_sequence(peer, chance);
        let set = drawn_set(chance);
        Path { sequence, set }
    }

    /// Whether one of its numbers doesn't fit into two octets.
    pub(crate) fn is_wide(&self) -> bool {
        self.sequence.are_wide() || self.set.are_wide()
    }

    /// How many octets it has, with numbers of four octets, or of two.
    pub(crate) fn len(&self, wide: bool) -> usize {
        self.sequence.len(wide).saturating_add(self.set.len(wide))
    }

    /// Appends it, with numbers of four octets, or of two.
    pub(crate) fn put(&self, octets: &mut Octets, wide: bool) {
        self.sequence.put(octets, SEQUENCE, wide);
        self.set.put(octets, SET, wide);
    }
}

/// The numbers of a path from the peer on.
fn drawn_sequence(peer: &Peer, chance: &mut Chance) -> Numbers {
    let mut numbers = Numbers::new();
    numbers.add(peer.asn);
    for _ in 0..1 + chance.below(5) {
        numbers.add(transit(chance));
    }
    let last = origin(chance);
    for _ in 0..drawn_times(chance) {
        numbers.add(last);
    }
    numbers
}

/// How many times the last number stands in a path.
fn drawn_times(chance: &mut Chance) -> u32 {
    if chance.happens(120) {
        2 + chance.below(4)
    } else {
        1
    }
}

/// The numbers of a set, mostly none.
fn drawn_set(chance: &mut Chance) -> Numbers {
    let mut numbers = Numbers::new();
    if chance.happens(2) {
        for _ in 0..3u8 {
            numbers.add(origin(chance));
        }
    }
    numbers
}

/// A number of an origin, a fifth of them of more than two octets.
pub(crate) fn origin(chance: &mut Chance) -> u32 {
    if chance.happens(200) {
        131_072 + chance.below(270_000)
    } else {
        1 + chance.below(64_494)
    }
}
