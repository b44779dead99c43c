//! IPv4 and IPv6 prefixes, and the parser of prefixes as BGP sends them. `parse.rt` and `text.rt`
//! parse them from text and format them, and `turn.rt` tells where one lies as seen from another.
//! Read [`Prefix`] first.

ghost use Rattle.std.specs.Prelude.{◌≡◌, ◌-◌, ◌<◌, ◌≤◌, ◌++◌, false, Some, MatchOption, IfSome, IfNone, length, replicate, take, slice_get, refl};
ghost use Rattle.ip_prefix.specs.declared.addr.Family.{Family};
ghost use Rattle.ip_prefix.specs.Network.{IsAddress, bit_count, IsNetwork, network_of, least_address, contains, network_cmp, SpellsNetwork};
ghost use Rattle.ip_prefix.specs.Bits.{bits_of, highest_bits};
ghost use Rattle.ip_prefix.specs.Turns.{covers};
ghost use Rattle.std.specs.Ordering.{eq_by_cmp, as_partial_cmp};
ghost use Rattle.std.specs.Cmp.{partial_equiv_from_equiv, eq_by_cmp_equiv, partial_order_from_total};
ghost use Rattle.ip_prefix.specs.OrderLaws.{network_cmp_total};
ghost use Rattle.octet_forms.specs.Fronts.{BeginsWithNone};

use crate::addr::{Addr, Family, OCTET_BITS, V4_BITS};
use crate::leading_bits::{keep_highest_bits, number_with_high_octets};
use crate::number::{HALF_BITS, NUMBER_BITS, U128Halves};
use std::cmp::Ordering;
use std::marker::Model;

/// An IPv4 or IPv6 prefix: a family, and the bits with which its addresses begin, as in
/// `10.0.0.0/8`. Prefixes are ordered by family, then by the least addresses that they contain,
/// then by length.
#[derive(Clone, Copy, Debug)]
pub struct Prefix {
    // The bits of the prefix are the highest of the number, and the bits below are 0.
    number: U128Halves,
    len: u8,
    family: Family,
}

impl Model for Prefix {
    ghost use Rattle.std.specs.Prelude.{length};
    ghost use Rattle.ip_prefix.specs.Network.{Network};
    ghost use Rattle.ip_prefix.specs.Bits.{highest_bits};
    ghost use Rattle.ip_prefix.specs.Kept.{number_with_high_bits, IsMasked, number-masked, length-masked};

    ghost Value = { Network };

    ghost view = { λ p. record { family = p.family; bits = highest_bits p.len p.number } };

    ghost invariant = { λ p. IsMasked p.family p.number p.len };

    ghost inverse = { λ n. record {
      number = number_with_high_bits (length n.bits) n.bits;
      len = length n.bits;
      family = n.family;
    } };

    ghost inverse_ok = { λ p h i. record {
      number = number-masked p.family p.number p.len h i;
      len = length-masked p.number p.len i;
      family = p.family;
    } };
}

impl Prefix {
    /// Returns the prefix of the first `len` bits of `addr`; the other bits need not be 0. Returns
    /// `None` if `len` is more than 32 (IPv4) or 128 (IPv6).
    pub fn new(addr: Addr, len: u8) -> Option<Prefix>
        ensures { MatchOption result (bit_count addr.family < len)
            (λ prefix. (len ≤ bit_count addr.family) × (prefix ≡ network_of addr len)) }
    {
        let family = addr.family();
        if len > family.width() {
            return None;
        }
        Some(Prefix {
            number: U128Halves::new(keep_highest_bits(addr.number(), len)),
            len,
            family,
        })
    }

    /// Returns the prefix of all bits of `addr`, which contains `addr` alone: its length is 32 or
    /// 128.
    #[inline]
    pub fn host(addr: Addr) -> Prefix
        ensures { result ≡ record { family = addr.family; bits = addr.bits } }
    {
        let family = addr.family();
        Prefix {
            number: U128Halves::new(addr.number()),
            len: family.width(),
            family,
        }
    }

    /// Returns whether the prefix is of IPv4 or of IPv6.
    #[inline]
    pub fn family(&self) -> Family
        ensures { result ≡ self.now.family }
    {
        self.family
    }

    /// Returns the least address that the prefix contains, the one before the slash in its text:
    /// its bits after the length are 0.
    pub fn addr(&self) -> Addr
        ensures value { result ≡ least_address self.now }
        ensures whole { IsAddress result }
    {
        Addr::from_high_bits(self.number.get(), self.family)
    }

    /// Returns the bits of the prefix as the highest of a 128-bit number, whose other bits are 0.
    #[inline]
    pub(crate) fn number(&self) -> u128
        ensures { bits_of NUMBER_BITS result
            ≡ self.now.bits ++ replicate (NUMBER_BITS - length self.now.bits) false }
    {
        self.number.get()
    }

    /// Returns `true` if the bit at `index` is 1, and `false` if it is 0. Index 0 is the most
    /// significant bit. Requires that `index` is below the length of the prefix.
    #[inline]
    pub(crate) fn bit(&self, index: u8) -> bool
        requires { index < length self.now.bits }
        ensures { slice_get self.now.bits index ≡ Some result }
    {
        self.number.bit(index)
    }

    /// Returns the first 64 bits of the prefix as a number, the first bit as the most significant.
    /// If the prefix has fewer bits, the others are 0; its bits after the first 64 are dropped. So
    /// the bits of an IPv4 prefix are in the highest 32.
    #[inline]
    pub fn high_64_bits(&self) -> u64
        ensures { bits_of HALF_BITS result ≡ take HALF_BITS
            (self.now.bits ++ replicate (NUMBER_BITS - length self.now.bits) false) }
    {
        (self.number.get() >> HALF_BITS) as u64
    }

    /// Returns the least address that the prefix contains as a 32-bit number. Requires that the
    /// prefix is of IPv4.
    #[inline]
    pub(crate) fn v4_number(&self) -> u32
        requires { self.now.family ≡ Family.V4 }
        ensures { bits_of V4_BITS result
            ≡ self.now.bits ++ replicate (V4_BITS - length self.now.bits) false }
    {
        (self.number.get() >> (NUMBER_BITS - V4_BITS)) as u32
    }

    /// Returns the prefix of the first `len` bits of this one. Requires that `len` is at most its
    /// length.
    #[inline]
    pub(crate) fn shortened(&self, len: u8) -> Prefix
        requires { len ≤ length self.now.bits }
        ensures { result ≡ record { family = self.now.family; bits = take len self.now.bits } }
    {
        Prefix {
            number: U128Halves::new(keep_highest_bits(self.number.get(), len)),
            len,
            family: self.family,
        }
    }

    /// Returns `true` if the prefix contains `addr`: they are of one family, and `addr` begins with
    /// its bits. Returns `false` otherwise.
    #[inline]
    pub fn contains(&self, addr: &Addr) -> bool
        ensures { result ≡ contains self.now addr.now }
    {
        self.family == addr.family()
            && keep_highest_bits(addr.number(), self.len) == self.number.get()
    }

    /// Returns `true` if this prefix contains all addresses of `other`: they are of one family, and
    /// `other` begins with its bits. So it covers itself. Returns `false` otherwise.
    #[inline]
    pub fn covers(&self, other: &Prefix) -> bool
        ensures { result ≡ covers self.now other.now }
    {
        self.family == other.family
            && self.len <= other.len
            && keep_highest_bits(other.number.get(), self.len) == self.number.get()
    }

    /// Parses the prefix of `family` at the start of `octets`: one octet with its length in bits,
    /// and then its bits in as few octets as hold them (RFC 4271, section 4.3). Returns the prefix
    /// and the number of octets parsed, including the length octet. Returns `None` if the length is
    /// more than 32 (IPv4) or 128 (IPv6), or if `octets` ends before or inside the prefix. Bits of
    /// the last octet after the prefix are ignored.
    #[inline]
    pub fn read(family: Family, octets: &[u8]) -> Option<(Prefix, usize)>
        ensures some { IfSome result (λ found. (found.1 ≤ length octets.now)
            × SpellsNetwork family found.0 (take found.1 octets.now)) }
        ensures none { IfNone result (BeginsWithNone (SpellsNetwork family) octets.now) }
    {
        let (&len, rest) = octets.split_first()?;
        if family.width() < len {
            return None;
        }
        let size = usize::from(len).div_ceil(OCTET_BITS);
        if rest.len() < size {
            return None;
        }
        let number = keep_highest_bits(number_with_high_octets(rest, size), len);
        Some((
            Prefix {
                number: U128Halves::new(number),
                len,
                family,
            },
            size + 1,
        ))
    }

    /// Returns the length of the prefix, in bits: at most 32 for IPv4, and 128 for IPv6.
    #[inline]
    pub fn len(&self) -> u8
        ensures value { result ≡ length self.now.bits }
        ensures fits { IsNetwork self.now }
    {
        self.len
    }
}

impl PartialEq for Prefix {
    ghost eq = { eq_by_cmp network_cmp };

    ghost laws = { partial_equiv_from_equiv (eq_by_cmp_equiv network_cmp_total) };

    #[inline]
    fn eq(&self, other: &Prefix) -> bool {
        self.cmp(other).is_eq()
    }
}

impl Eq for Prefix {
    ghost laws = { eq_by_cmp_equiv network_cmp_total };
}

impl PartialOrd for Prefix {
    ghost partial_cmp = { as_partial_cmp network_cmp };

    ghost laws = { partial_order_from_total network_cmp_total };

    #[inline]
    fn partial_cmp(&self, other: &Prefix) -> Option<Ordering> {
        Some(self.cmp(other))
    }
}

impl Ord for Prefix {
    ghost cmp = { network_cmp };

    ghost total = { network_cmp_total };

    ghost matches_partial_cmp = { λ x y. refl };

    ghost matches_eq = { λ x y. refl };

    #[inline]
    fn cmp(&self, other: &Prefix) -> Ordering {
        if self.family != other.family {
            return self.family.cmp(&other.family);
        }
        match self.number.compare(other.number) {
            Ordering::Less => Ordering::Less,
            Ordering::Equal => self.len.cmp(&other.len),
            Ordering::Greater => Ordering::Greater,
        }
    }
}
