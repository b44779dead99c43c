//! Where a prefix lies as seen from another: outside it, at it, or in its left or right half. The
//! radix trees of `rib_store` decide by it in which branch of a node a prefix belongs. Read
//! [`Turn`] first.

ghost use Rattle.std.specs.Prelude.{◌≡◌, ◌≢◌, ℕ, ◌+◌, ◌≤◌, ◌++◌, Bool, true, false, List, length, replicate, take};
ghost use Rattle.ip_prefix.specs.declared.addr.Family.{Family};
ghost use Rattle.ip_prefix.specs.declared.addr.TheConstants.{V4_BITS};
ghost use Rattle.ip_prefix.specs.Bits.{bits_of_octets};
ghost use Rattle.ip_prefix.specs.Network.{Network, network_of};
ghost use Rattle.ip_prefix.specs.declared.turn.Turn.TheVariants.{Outside};
ghost use Rattle.ip_prefix.specs.Turns.{way, turn_of, common};

use crate::addr::{Family, V4_BITS, V4_OCTETS};
use crate::prefix::Prefix;

/// Where a prefix lies as seen from another prefix: outside it, at it, or in one of its two halves.
/// In a tree of prefixes, it says which way leads from a node to a prefix.
#[derive(Clone, Copy, Debug, PartialEq, Eq)]
pub enum Turn {
    /// The prefix isn't covered by the other: it is of another family, shorter, or has other
    /// leading bits.
    Outside,
    /// The two prefixes are equal.
    Here,
    /// The prefix is longer and covered by the other, and its first bit after the bits of the other
    /// is 0.
    Left,
    /// The prefix is longer and covered by the other, and its first bit after the bits of the other
    /// is 1.
    Right,
}

impl Prefix {
    /// Returns where `other` lies as seen from this prefix: `Here` if they are equal; `Left` or
    /// `Right` if this prefix covers `other`, whose first bit after the bits of this prefix is 0 or
    /// 1; or else `Outside`. As seen from `10.0.0.0/8`, `10.0.0.0/16` lies `Left`, `10.128.0.0/16`
    /// `Right`, and `10.0.0.0/7` `Outside`.
    #[inline]
    pub fn turn(&self, other: &Prefix) -> Turn
        ensures { result ≡ turn_of (way self.now) (way other.now) }
    {
        if self.covers(other) {
            return other.turn_under(self.len());
        }
        Turn::Outside
    }

    /// Returns where this prefix lies as seen from the IPv4 prefix of the first `len` bits of
    /// `octets`, an address in network byte order: `Here` if the two are equal; `Left` or `Right`
    /// if the IPv4 prefix covers this one, whose bit at index `len` is 0 or 1; or else `Outside`,
    /// as for each IPv6 prefix. The bits of `octets` after the first `len` are ignored. Requires
    /// that `len` is at most 32.
    #[inline]
    pub fn turn_from_v4(&self, octets: [u8; V4_OCTETS], len: u8) -> Turn
        requires { len ≤ V4_BITS }
        ensures { result ≡ turn_of (way (network_of
            (record { family = Family.V4; bits = bits_of_octets octets }) len)) (way self.now) }
    {
        let below = V4_BITS - len;
        if self.family() == Family::V4
            && self.len() >= len
            && u64::from(self.v4_number()) >> below
                == u64::from(u32::from_be_bytes(octets)) >> below
        {
            return self.turn_under(len);
        }
        Turn::Outside
    }

    /// Returns where this prefix lies as seen from a prefix of `len` bits that covers it, as the
    /// caller must know: `Here` if this prefix has `len` bits too, or else `Left` or `Right` if its
    /// bit at index `len` is 0 or 1. Index 0 is the most significant bit. Never returns `Outside`:
    /// if the prefix of `len` bits doesn't cover this one, the result has no meaning.
    #[inline]
    pub fn turn_under(&self, len: u8) -> Turn
        ensures { (other : Network) → length other.bits ≡ len
            → turn_of (way other) (way self.now) ≢ Outside
            → result ≡ turn_of (way other) (way self.now) }
    {
        if self.len() <= len {
            Turn::Here
        } else if self.bit(len) {
            Turn::Right
        } else {
            Turn::Left
        }
    }

    /// Returns the longest prefix that covers both this prefix and `other`: the leading bits that
    /// they share. For `10.0.0.0/16` and `10.128.0.0/16`, this is `10.0.0.0/8`. Requires that both
    /// are of one family.
    #[inline]
    pub fn common(&self, other: &Prefix) -> Prefix
        requires { self.now.family ≡ other.now.family }
        ensures { result ≡ common self.now other.now }
    {
        let shared = (self.number() ^ other.number()).leading_zeros() as u8;
        self.shortened(shared.min(self.len()).min(other.len()))
    }
}
