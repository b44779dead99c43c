//! Numbers drawn by chance.

ghost use Rattle.std.specs.Prelude.{◌<◌};

/// By how much the state goes on with each draw (splitmix64, by Steele, Lea and Flood).
const STEP: u64 = 0x9e37_79b9_7f4a_7c15;

/// A number that hangs on all bits of this one.
pub(crate) fn mixed(number: u64) -> u64 {
    let first = (number ^ number >> 30).wrapping_mul(0xbf58_476d_1ce4_e5b9);
    let second = (first ^ first >> 27).wrapping_mul(0x94d0_49bb_1331_11eb);
    second ^ second >> 31
}

/// What numbers are drawn from: the same ones for the same seed.
#[derive(Clone, Copy)]
pub(crate) struct Chance {
    state: u64,
}

impl Chance {
    /// The draws of a seed.
    pub(crate) fn new(seed: u64) -> Self {
        Chance { state: mixed(seed) }
    }

    /// The next number, any of 64 bits.
    pub(crate) fn next(&mut self) -> u64 {
        self.state = self.state.wrapping_add(STEP);
        mixed(self.state)
    }

    /// The next number below the bound.
    pub(crate) fn below(&mut self, bound: u32) -> u32
        requires { 0 < bound }
        ensures { result < bound }
    {
        (self.next() >> 32) as u32 % bound
    }

    /// Whether what happens to so many of a thousand happens.
    pub(crate) fn happens(&mut self, of_thousand: u32) -> bool {
        self.below(1_000) < of_thousand
    }
}
