//! The peers of a collector.

ghost use Rattle.std.specs.Prelude.{◌<◌};

use crate::chance::Chance;
use crate::octets::Octets;
use std::alloc::AllocError;

/// Autonomous systems that pass on what others announce, as peers and in the middle of paths.
pub(crate) const TRANSITS: [u32; 16] = [
    174, 209, 286, 701, 1239, 1299, 2914, 3257, 3320, 3356, 6453, 6461, 6762, 6939, 9002, 199_524,
];

/// The number of the collector's own autonomous system.
const COLLECTOR: u32 = 12_654;

/// A peer.
#[derive(Clone, Copy)]
pub(crate) struct Peer {
    /// Whether its address is of IPv6.
    pub(crate) v6: bool,
    /// Its address: of IPv4 in the first four octets.
    pub(crate) octets: [u8; 16],
    /// The number of its autonomous system.
    pub(crate) asn: u32,
}

/// One of the systems of transit.
pub(crate) fn transit(chance: &mut Chance) -> u32 {
    TRANSITS[chance.below(16) as usize]
}

impl Peer {
    /// The peer with this number, which its address has at its end.
    pub(crate) fn new(number: u16, v6: bool, chance: &mut Chance) -> Self {
        let [high, low] = number.to_be_bytes();
        let octets = if v6 {
            [
                0x20, 0x01, 0x07, 0xf8, 0, 1, 0, 0, 0, 0, 0, 0, 0, 0, high, low,
            ]
        } else {
            [0xc3, 0x1a, high, low, 0, 0, 0, 0, 0, 0, 0, 0, 0, 0, 0, 0]
        };
        Peer {
            v6,
            octets,
            asn: transit(chance),
        }
    }

    /// The octets of its address.
    pub(crate) fn address(&self) -> &[u8] {
        if self.v6 {
            &self.octets
        } else {
            &self.octets[..4]
        }
    }

    /// Whether its next hop has the address of its link too.
    fn has_link(&self) -> bool {
        self.asn % 5 < 2
    }

    /// How many octets its next hop has, of IPv6.
    pub(crate) fn hop_len(&self) -> u8 {
        if self.has_link() { 32 } else { 16 }
    }

    /// Appends its address as a next hop of IPv6, with that of its link, or without.
    pub(crate) fn put_hops(&self, octets: &mut Octets) {
        octets.put(self.address());
        if self.has_link() {
            octets.put(&[0xfe, 0x80, 0, 0, 0, 0, 0, 0]);
            octets.put(&self.octets[8..]);
        }
    }

    /// Appends it as an index has it (RFC 6396, section 4.3.1).
    pub(crate) fn put_in_index(&self, octets: &mut Octets) {
        octets.put(&[if self.v6 { 3 } else { 2 }]);
        octets.put_u32(0x0a00_0001);
        octets.put(self.address());
        octets.put_u32(self.asn);
    }

    /// Appends its session in front of a message (RFC 6396, section 4.4.3).
    pub(crate) fn put_session(&self, octets: &mut Octets) {
        octets.put_u32(self.asn);
        octets.put_u32(COLLECTOR);
        octets.put_u16(0);
        octets.put_u16(if self.v6 { 2 } else { 1 });
        octets.put(self.address());
        octets.put(self.address());
    }

    /// Appends its address and number as a command of a script names them.
    pub(crate) fn put_name(&self, script: &mut String) -> Result<(), AllocError> {
        let [a, b, c, d, ..] = self.octets;
        if self.v6 {
            let low = u16::from_be_bytes([self.octets[14], self.octets[15]]);
            write!(script, "2001:7f8:1::{low:x} {}", self.asn)
        } else {
            write!(script, "{a}.{b}.{c}.{d} {}", self.asn)
        }
    }
}
