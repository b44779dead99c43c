//! Prefixes of both families, in their order.

ghost use Rattle.std.specs.Prelude.{◌<◌};

use crate::chance::mixed;
use crate::octets::Octets;

/// Where the prefixes of IPv4 begin, and how many addresses they lie in.
const V4_START: u64 = 0x0100_0000;

const V4_SPAN: u64 = 0xde00_0000;

/// The same of IPv6, of the upper half of its addresses.
const V6_START: u64 = 0x2001_0200_0000_0000;

const V6_SPAN: u64 = 0x0c00_0000_0000_0000;

/// How many of a thousand prefixes of IPv4 are at most as long as this one of the row, as full
/// tables show them. No prefix is longer than 24 bits there.
const V4_LENGTHS: [(u64, u8); 12] = [
    (600, 24),
    (700, 23),
    (810, 22),
    (850, 21),
    (890, 20),
    (920, 19),
    (940, 18),
    (950, 17),
    (985, 16),
    (993, 15),
    (997, 14),
    (1_000, 13),
];

/// The same of IPv6.
const V6_LENGTHS: [(u64, u8); 11] = [
    (480, 48),
    (620, 32),
    (700, 44),
    (770, 40),
    (830, 36),
    (870, 29),
    (900, 46),
    (940, 47),
    (960, 33),
    (980, 42),
    (1_000, 48),
];

/// A prefix: the upper 64 bits of an address of IPv6, or an address of IPv4 in the upper 32 of
/// them, and a length.
#[derive(Clone, Copy)]
pub(crate) struct Network {
    pub(crate) first: u64,
    pub(crate) len: u8,
}

/// Prefixes of both families, each with a number.
#[derive(Clone, Copy)]
pub(crate) struct Space {
    v4_step: u64,
    v6_step: u64,
}

impl Space {
    /// So many prefixes of each family.
    pub(crate) fn new(v4: u32, v6: u32) -> Self {
        Space {
            v4_step: V4_SPAN / u64::from(v4.max(1)),
            v6_step: V6_SPAN / u64::from(v6.max(1)),
        }
    }

    /// The prefix of IPv4 with this number: those with greater numbers stand behind it.
    pub(crate) fn v4(&self, number: u32) -> Network {
        let place = V4_START.wrapping_add(self.v4_step.wrapping_mul(u64::from(number)));
        let chosen = length_of(&V4_LENGTHS, mixed(u64::from(number)), 24);
        in_step(place << 32, self.v4_step << 32, chosen, 24)
    }

    /// The same of IPv6.
    pub(crate) fn v6(&self, number: u32) -> Network {
        let place = V6_START.wrapping_add(self.v6_step.wrapping_mul(u64::from(number)));
        let chosen = length_of(&V6_LENGTHS, mixed(u64::from(number)), 48);
        in_step(place, self.v6_step, chosen, 48)
    }
}

/// The length that a row has for a number that chance gave.
fn length_of(row: &[(u64, u8)], chance: u64, other: u8) -> u8 {
    for (bound, len) in row {
        if chance % 1_000 < *bound {
            return *len;
        }
    }
    other
}

/// The prefix of the chosen length at a place, if it begins behind the place a step before: else
/// the longer one, so that prefixes differ and stand in their order.
fn in_step(place: u64, step: u64, chosen: u8, longer: u8) -> Network {
    let first = cut(place, chosen);
    if first.wrapping_add(step) > place {
        return Network { first, len: chosen };
    }
    Network {
        first: cut(place, longer),
        len: longer,
    }
}

/// The number with zeros behind so many bits.
fn cut(number: u64, bits: u8) -> u64 {
    number & !(u64::MAX.checked_shr(u32::from(bits)).unwrap_or(0))
}

impl Network {
    /// A longer prefix in this one.
    pub(crate) fn part(&self, chance: u64) -> Network {
        let more = self.len.saturating_add(1);
        let behind = u64::MAX.checked_shr(u32::from(self.len)).unwrap_or(0);
        Network {
            first: cut(self.first | (chance & behind), more),
            len: more,
        }
    }

    /// Appends it as BGP sends it (RFC 4271, section 4.3).
    pub(crate) fn put(&self, octets: &mut Octets) {
        octets.put(&[self.len]);
        let len = usize::from(self.len).div_ceil(8);
        octets.put_front(&self.first.to_be_bytes(), len);
    }

    /// Its first address, whole: of IPv6 with the lower half.
    pub(crate) fn put_address(&self, octets: &mut Octets, v6: bool) {
        let upper = self.first.to_be_bytes();
        if v6 {
            octets.put(&upper);
            octets.put(&[0; 8]);
        } else {
            octets.put_front(&upper, 4);
        }
    }
}
