//! Compact forms of prefixes whose family is known from the type. The radix trees of `rib_store`
//! and the undo entries of `rib_player` keep prefixes so, to take less memory. Read
//! [`PackedPrefix`] first.

ghost use Rattle.std.specs.Prelude.{◌≡◌, ◌≢◌, ◌≤◌, length};
ghost use Rattle.ip_prefix.specs.declared.addr.Family.{Family};
ghost use Rattle.ip_prefix.specs.declared.addr.Family.TheVariants.{V4, V6};
ghost use Rattle.ip_prefix.specs.declared.addr.TheConstants.{V4_BITS};
ghost use Rattle.ip_prefix.specs.Network.{Network};
ghost use Rattle.ip_prefix.specs.Turns.{way, turn_of};
ghost use Rattle.ip_prefix.specs.declared.turn.Turn.TheVariants.{Outside};

use ip_prefix::{Addr, Prefix, Turn, V4_OCTETS};

/// A compact form of prefixes that are all of one address family, which the type determines:
/// [`V4Prefix`] for IPv4, and [`Prefix`] itself for IPv6.
pub trait PackedPrefix: Copy + Drop {
    /// The prefix that the value represents.
    ghost network: { Self → Network };

    /// The address family of all prefixes of this type.
    ghost family: { Family };

    /// Converts this value to the [`Prefix`] that it represents.
    fn unpack(&self) -> Prefix
        ensures { result ≡ network self.now };

    /// Returns the length of the prefix, in bits.
    fn len(&self) -> u8
        ensures { result ≡ length (network self.now).bits }
    {
        self.unpack().len()
    }

    /// Returns where `other` lies as seen from this prefix: `Outside` if this prefix doesn't cover
    /// it, `Here` if they are equal, or else `Left` or `Right`, if the bit of `other` after the
    /// bits of this prefix is 0 or 1.
    fn turn(&self, other: &Prefix) -> Turn
        ensures { result ≡ turn_of (way (network self.now)) (way other.now) };

    /// Returns where `other` lies as seen from this prefix: `Here` if they are equal, or else
    /// `Left` or `Right`, if the bit of `other` after the bits of this prefix is 0 or 1. Requires
    /// that this prefix covers `other`, so that an implementation needn't compare the bits that
    /// both have, as [`PackedPrefix::turn`] does.
    fn turn_covered(&self, other: &Prefix) -> Turn
        requires { turn_of (way (network self.now)) (way other.now) ≢ Outside }
        ensures { result ≡ turn_of (way (network self.now)) (way other.now) }
    {
        self.turn(other)
    }

    /// Returns the value of this type that represents `prefix`. Requires that `prefix` is of the
    /// address family of the type: IPv4 for [`V4Prefix`], and IPv6 for [`Prefix`].
    fn pack(prefix: &Prefix) -> Self
        requires { prefix.now.family ≡ family }
        ensures { network result ≡ prefix.now };
}

/// An IPv4 prefix in five octets: the octets of its network address, in network byte order, and its
/// length in bits.
#[derive(Clone, Copy, Drop)]
pub struct V4Prefix {
    octets: [u8; V4_OCTETS],
    len: u8,
    ghost within: { len ≤ V4_BITS },
}

impl PackedPrefix for V4Prefix {
    ghost use Rattle.prefix_store.specs.Contents.{v4_network};

    ghost network = { v4_network };

    ghost family = { V4 };

    #[inline]
    fn unpack(&self) -> Prefix {
        let addr = Addr::v4(self.octets);
        Prefix::new(addr, self.len).unwrap_or_else(|| Prefix::host(addr))
    }

    #[inline]
    fn len(&self) -> u8 {
        self.len
    }

    #[inline]
    fn turn(&self, other: &Prefix) -> Turn {
        other.turn_from_v4(self.octets, self.len)
    }

    #[inline]
    fn turn_covered(&self, other: &Prefix) -> Turn {
        other.turn_under(self.len)
    }

    #[inline]
    fn pack(prefix: &Prefix) -> Self {
        let addr = prefix.addr();
        V4Prefix {
            octets: [addr.octet(0), addr.octet(1), addr.octet(2), addr.octet(3)],
            len: prefix.len(),
        }
    }
}

impl PackedPrefix for Prefix {
    ghost use Rattle.prefix_store.specs.Contents.{v6_network};

    ghost network = { v6_network };

    ghost family = { V6 };

    #[inline]
    fn unpack(&self) -> Prefix {
        *self
    }

    #[inline]
    fn len(&self) -> u8 {
        Prefix::len(self)
    }

    #[inline]
    fn turn(&self, other: &Prefix) -> Turn {
        Prefix::turn(self, other)
    }

    #[inline]
    fn turn_covered(&self, other: &Prefix) -> Turn {
        other.turn_under(Prefix::len(self))
    }

    #[inline]
    fn pack(prefix: &Prefix) -> Self {
        *prefix
    }
}
