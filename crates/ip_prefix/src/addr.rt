//! IPv4 and IPv6 addresses. Peers and next hops are addresses, and `prefix.rt` makes prefixes of
//! them. Read [`Addr`] first.

ghost use Rattle.std.specs.Prelude.{◌≡◌, ◌*◌, ◌+◌, ◌<◌, ◌≤◌, Some, slice_get, refl};
ghost use Rattle.ip_prefix.specs.Network.{IsAddress, octet_at, group_at, octet_count, bit_count, family_cmp, address_cmp};
ghost use Rattle.ip_prefix.specs.Kept.{IsAligned};
ghost use Rattle.ip_prefix.specs.Bits.{bits_of_octets, highest_bits};
ghost use Rattle.std.specs.Ordering.{eq_by_cmp, as_partial_cmp};
ghost use Rattle.std.specs.Cmp.{partial_equiv_from_equiv, eq_by_cmp_equiv, partial_order_from_total};
ghost use Rattle.ip_prefix.specs.OrderLaws.{address_cmp_total};

use crate::number::{NUMBER_BITS, U128Halves};
use std::cmp::Ordering;
use std::marker::Model;

/// The number of octets of an IPv4 address, in BGP messages and in MRT records.
pub const V4_OCTETS: usize = 4;

/// The number of octets of an IPv6 address, in BGP messages and in MRT records.
pub const V6_OCTETS: usize = 16;

/// The number of bits of an IPv4 address, and the greatest length of an IPv4 prefix.
pub const V4_BITS: u8 = 32;

/// The number of bits of an IPv6 address, and the greatest length of an IPv6 prefix.
pub const V6_BITS: u8 = 128;

/// The number of bits of an octet.
pub(crate) const OCTET_BITS: usize = 8;

/// The number of bits of a group, one of the eight numbers that colons separate in the text of an
/// IPv6 address (RFC 4291, section 2.2).
pub(crate) const GROUP_BITS: usize = 16;

/// The number of groups of an IPv6 address: the 16-bit numbers that colons separate in its text
/// (RFC 4291, section 2.2).
pub(crate) const GROUP_COUNT: usize = 8;

/// Whether an address or a prefix is of IPv4 or IPv6. `V4` is ordered before `V6`.
#[derive(Clone, Copy, Debug, PartialEq, Eq, PartialOrd, Ord)]
pub enum Family {
    /// IPv4, whose addresses have 32 bits (RFC 791).
    V4,
    /// IPv6, whose addresses have 128 bits (RFC 4291).
    V6,
}

impl Family {
    /// Returns the number of bits of an address of the family: 32 or 128. It is the greatest length
    /// of a prefix of the family.
    #[inline]
    pub fn width(self) -> u8
        ensures { result ≡ bit_count self }
    {
        match self {
            Family::V4 => V4_BITS,
            Family::V6 => V6_BITS,
        }
    }
}

/// An IPv4 or IPv6 address. Addresses are ordered by family, IPv4 first, and then by their octets.
/// An IPv4 address never equals an IPv6 address.
#[derive(Clone, Copy, Debug)]
pub struct Addr {
    // The bits of the address are the highest of the number, for either family, and the bits below
    // are 0. So masks and comparisons are single operations.
    number: U128Halves,
    family: Family,
}

impl Model for Addr {
    ghost use Rattle.ip_prefix.specs.Network.{Address, bit_count};
    ghost use Rattle.ip_prefix.specs.Bits.{highest_bits};
    ghost use Rattle.ip_prefix.specs.Kept.{number_with_high_bits, IsAligned, number-again};

    ghost Value = { Address };

    ghost view = { λ a. record {
      family = a.family;
      bits = highest_bits (bit_count a.family) a.number;
    } };

    ghost invariant = { λ a. IsAligned a.family a.number };

    ghost inverse = { λ a. record {
      number = number_with_high_bits (bit_count a.family) a.bits;
      family = a.family;
    } };

    ghost inverse_ok = { λ a h i. record {
      number = number-again a.family a.number (bit_count a.family) h i;
      family = a.family;
    } };
}

impl Addr {
    /// Returns the IPv4 address of `octets`, the most significant first: `[192, 0, 2, 1]` is
    /// `192.0.2.1`.
    #[inline]
    pub fn v4(octets: [u8; V4_OCTETS]) -> Self
        ensures { result ≡ record { family = Family.V4; bits = bits_of_octets octets } }
    {
        let number = u128::from(u32::from_be_bytes(octets)) << (NUMBER_BITS - V4_BITS);
        Addr {
            number: U128Halves::new(number),
            family: Family::V4,
        }
    }

    /// Returns the IPv6 address of `octets`, the most significant first: with 15 zeros and then 1,
    /// it is `::1`.
    #[inline]
    pub fn v6(octets: [u8; V6_OCTETS]) -> Self
        ensures { result ≡ record { family = Family.V6; bits = bits_of_octets octets } }
    {
        Addr {
            number: U128Halves::new(u128::from_be_bytes(octets)),
            family: Family::V6,
        }
    }

    /// Returns the address of `family` whose bits are the highest of `number`: for IPv4, the
    /// highest 32. Requires that the bits of `number` below them are 0.
    #[inline]
    pub(crate) fn from_high_bits(number: u128, family: Family) -> Self
        requires { IsAligned family number }
        ensures { result ≡ record {
          family = family;
          bits = highest_bits (bit_count family) number;
        } }
    {
        Addr {
            number: U128Halves::new(number),
            family,
        }
    }

    /// Returns the address as a 128-bit number: its bits are the highest, and, for IPv4, the 96
    /// bits below them are 0.
    #[inline]
    pub(crate) fn number(&self) -> u128
        ensures aligned { IsAligned self.now.family result }
        ensures bits { self.now.bits ≡ highest_bits (bit_count self.now.family) result }
    {
        self.number.get()
    }

    /// Returns whether the address is of IPv4 or of IPv6.
    #[inline]
    pub fn family(&self) -> Family
        ensures value { result ≡ self.now.family }
        ensures whole { IsAddress self.now }
    {
        self.family
    }

    /// Returns one octet of the address, where index 0 is the most significant. Requires that
    /// `index` is below 4 for IPv4, and below 16 for IPv6.
    #[inline]
    pub fn octet(&self, index: usize) -> u8
        requires { index < octet_count self.now.family }
        ensures { result ≡ octet_at self.now index }
    {
        (self.number.get() >> (NUMBER_BITS as usize - OCTET_BITS - OCTET_BITS * index) & 0xff) as u8
    }

    /// Returns the 16-bit group at `index` of the address as a number. Groups are what colons
    /// separate in the text of an IPv6 address; index 0 is the most significant. Requires that
    /// `index` is below 2 for IPv4, and below 8 for IPv6.
    #[inline]
    pub(crate) fn group(&self, index: usize) -> u16
        requires { GROUP_BITS * index + GROUP_BITS ≤ bit_count self.now.family }
        ensures { result ≡ group_at self.now index }
    {
        (self.number.get() >> (NUMBER_BITS as usize - GROUP_BITS - GROUP_BITS * index)
            & 0xffff) as u16
    }

    /// Returns `true` if the bit at `index` is 1, and `false` if it is 0. Index 0 is the most
    /// significant bit. Requires that `index` is below 32 for IPv4, and below 128 for IPv6.
    #[inline]
    pub fn bit(&self, index: usize) -> bool
        requires { index < bit_count self.now.family }
        ensures { slice_get self.now.bits index ≡ Some result }
    {
        self.number.get() >> (NUMBER_BITS as usize - 1 - index) & 1 == 1
    }
}

impl PartialEq for Addr {
    ghost eq = { eq_by_cmp address_cmp };

    ghost laws = { partial_equiv_from_equiv (eq_by_cmp_equiv address_cmp_total) };

    #[inline]
    fn eq(&self, other: &Addr) -> bool {
        self.cmp(other).is_eq()
    }
}

impl Eq for Addr {
    ghost laws = { eq_by_cmp_equiv address_cmp_total };
}

impl PartialOrd for Addr {
    ghost partial_cmp = { as_partial_cmp address_cmp };

    ghost laws = { partial_order_from_total address_cmp_total };

    #[inline]
    fn partial_cmp(&self, other: &Addr) -> Option<Ordering> {
        Some(self.cmp(other))
    }
}

impl Ord for Addr {
    ghost cmp = { address_cmp };

    ghost total = { address_cmp_total };

    ghost matches_partial_cmp = { λ x y. refl };

    ghost matches_eq = { λ x y. refl };

    #[inline]
    fn cmp(&self, other: &Addr) -> Ordering {
        if self.family != other.family {
            return self.family.cmp(&other.family);
        }
        self.number.compare(other.number)
    }
}
