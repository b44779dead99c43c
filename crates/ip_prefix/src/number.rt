//! 128-bit numbers stored as two halves. `addr.rt` and `prefix.rt` store the bits of addresses and
//! prefixes so, since a `u128` has an alignment of 16 octets. Read [`U128Halves`] first.

ghost use Rattle.std.specs.Prelude.{◌≡◌, ◌-◌, ◌/◌, ◌^◌, ◌<◌, ◌==◌, bit_and};
ghost use Rattle.std.specs.Ordering.{nat_cmp};

use std::cmp::Ordering;
use std::marker::Model;

/// The number of bits of a [`U128Halves`], which stores the bits of an address.
pub(crate) const NUMBER_BITS: u8 = 128;

/// The number of bits of each half of a [`U128Halves`], which stores a 128-bit number as two
/// halves.
pub(crate) const HALF_BITS: u8 = 64;

/// A 128-bit number, stored as two halves of 64 bits. So its alignment is 8 octets, and values with
/// it take less memory than with a `u128`. In contracts, its value is the number.
#[derive(Clone, Copy, Debug)]
pub(crate) struct U128Halves {
    // Two halves have an alignment of eight octets, where a `u128` has one of sixteen.
    high: u64,
    low: u64,
}

impl Model for U128Halves {
    ghost use Rattle.std.specs.Prelude.{ℕ, ◌^◌, ◌/◌, ◌%◌, ◌<◌};
    ghost use Rattle.ip_prefix.specs.declared.number.TheConstants.{HALF_BITS};
    ghost use Rattle.ip_prefix.specs.Kept.{whole, high-again, low-again};

    ghost Value = { ℕ };

    ghost view = { λ n. whole n.high n.low };

    ghost invariant = { λ n. n.low < 2 ^ HALF_BITS };

    ghost inverse = { λ number. record {
      high = number / 2 ^ HALF_BITS;
      low = number % 2 ^ HALF_BITS;
    } };

    ghost inverse_ok = { λ n h i. record {
      high = high-again n.high n.low h i;
      low = low-again n.high n.low h i;
    } };
}

impl U128Halves {
    /// Converts a `u128`, splitting it into two halves.
    #[inline]
    pub(crate) fn new(number: u128) -> Self
        ensures { result ≡ number }
    {
        U128Halves {
            high: (number >> HALF_BITS) as u64,
            low: (number % (1 << HALF_BITS)) as u64,
        }
    }

    /// Converts the two halves into a `u128`.
    #[inline]
    pub(crate) fn get(self) -> u128
        ensures { result ≡ self }
    {
        u128::from(self.high) << HALF_BITS | u128::from(self.low)
    }

    /// Returns `true` if the bit at `index` is 1, and `false` if it is 0. Index 0 is the most
    /// significant bit. Requires that `index` is below 128.
    #[inline]
    pub(crate) fn bit(self, index: u8) -> bool
        requires { index < NUMBER_BITS }
        ensures { result ≡ (bit_and (self / 2 ^ (NUMBER_BITS - 1 - index)) 1 == 1) }
    {
        // Mostly the bit is in the high half.
        if index < HALF_BITS {
            return self.high >> (HALF_BITS - 1 - index) & 1 == 1;
        }
        self.get() >> (NUMBER_BITS - 1 - index) & 1 == 1
    }

    /// Compares this number with `other`, by value.
    #[inline]
    pub(crate) fn compare(self, other: U128Halves) -> Ordering
        ensures { result ≡ nat_cmp self other }
    {
        // Mostly the high halves decide.
        if self.high != other.high {
            return self.high.cmp(&other.high);
        }
        self.low.cmp(&other.low)
    }
}
