//! Formatting addresses and prefixes as text. Those who print lines and replies call it, mostly
//! through [`WriteTextAt`]. Read [`Addr::write_text`] and [`Prefix::write_text`] first.

ghost use Rattle.std.specs.Prelude.{◌≡◌, ◌+◌, ◌*◌, ◌<◌, ◌≤◌, [], ◌∷◌, ◌++◌, OnOk, OnErr, length, take, drop, replicate, decimal};
ghost use Rattle.std.specs.Net.Text as Hex;
ghost use Rattle.ip_prefix.specs.declared.addr.Family.TheVariants.{V6};
ghost use Rattle.ip_prefix.specs.declared.text.TheConstants.{ADDRESS_ROOM, PREFIX_ROOM};
ghost use Rattle.ip_prefix.specs.Text.{address_text, network_text, v6_text};
ghost use Rattle.octet_text.specs.Written.{IsWritten};

use crate::addr::{Addr, Family, GROUP_COUNT, V4_OCTETS};
use crate::prefix::Prefix;
use crate::zero_runs::ZERO_RUNS;
use octet_text::{
    HEX_PAIR, ROW, WriteTextAt, copy_octets_at, hex_pair, write_below_thousand, write_hex_octet,
};
use std::alloc::AllocError;

/// The ASCII code of a dot, the separator of the octets in the text of an IPv4 address.
pub(crate) const DOT: u8 = b'.';

/// The ASCII code of a colon, the separator of the groups in the text of an IPv6 address.
pub const COLON: u8 = b':';

/// The ASCII code of a slash, the separator of the address and the length in the text of a prefix.
pub(crate) const SLASH: u8 = b'/';

/// The greatest number of hexadecimal digits of a 16-bit group of an IPv6 address.
const GROUP_DIGITS: usize = 4;

/// The least number of consecutive groups of 0 that `::` stands for in an IPv6 address. A single
/// one is written as `0` (RFC 5952, section 4.2.2).
const LEAST_RUN: usize = 2;

/// The greatest number of octets that a group of an IPv6 address and a colon take as text.
const GROUP_ROOM: usize = GROUP_DIGITS + 1;

/// The number of octets that [`Addr::write_text`] needs in its slice from the offset on: as many as
/// eight groups of an IPv6 address, each with a colon.
pub const ADDRESS_ROOM: usize = GROUP_ROOM * GROUP_COUNT;

/// The number of octets that [`Prefix::write_text`] needs in its slice from the offset on: those of
/// an address, a slash and the length.
pub const PREFIX_ROOM: usize = ADDRESS_ROOM + 1 + ROW;

impl Addr {
    /// Writes the address as text, as in `192.0.2.1` or `2001:db8::1`, into `text` at offset `at`,
    /// and returns the offset of the octet after it. IPv6 addresses have the format of RFC 5952,
    /// section 4, and never end in dotted decimals. Requires that `text` has [`ADDRESS_ROOM`]
    /// octets from `at` on, of which those after the address are then unspecified.
    #[inline(always)]
    #[tactic(auto, unfolding(crate::specs::Text::address_text))]
    pub fn write_text(&self, text: &mut [u8], at: usize) -> usize
        requires { at + ADDRESS_ROOM ≤ length text.old }
        ensures written { IsWritten text.old at (address_text self.now) text.new result }
        ensures short { result ≤ at + ADDRESS_ROOM }
    {
        match self.family() {
            Family::V4 => {
                let second = write_octet_and_dot(self.octet(0), text, at);
                let third = write_octet_and_dot(self.octet(1), text, second);
                let fourth = write_octet_and_dot(self.octet(2), text, third);
                write_below_thousand(u32::from(self.octet(3)), text, fourth)
            }
            Family::V6 => write_v6(self, text, at),
        }
    }

    /// Appends the address as text, as in `192.0.2.1` or `2001:db8::1` (RFC 5952, section 4), to
    /// `text`. Returns `AllocError` if memory allocation fails; `text` is unchanged then.
    pub fn put_text(&self, text: &mut Vec<u8>) -> Result<(), AllocError>
        ensures appended { OnOk result (text.new.items ≡ text.old.items ++ address_text self.now) }
        ensures unchanged { OnErr result (text.new.items ≡ text.old.items) }
    {
        let mut buffer = [0; ADDRESS_ROOM];
        let end = self.write_text(&mut buffer, 0);
        text.extend_from_slice(&buffer[..end])
    }
}

impl Prefix {
    /// Writes the prefix as text, as in `10.0.0.0/8`, into `text` at offset `at`, and returns the
    /// offset of the octet after it. The text is the least address, a slash, and the length in
    /// decimal. Requires that `text` has [`PREFIX_ROOM`] octets from `at` on, of which those after
    /// the prefix are then unspecified.
    #[inline]
    pub fn write_text(&self, text: &mut [u8], at: usize) -> usize
        requires { at + PREFIX_ROOM ≤ length text.old }
        ensures written { IsWritten text.old at (network_text self.now) text.new result }
        ensures short { result ≤ at + PREFIX_ROOM }
    {
        let slash = self.addr().write_text(text, at);
        text[slash] = SLASH;
        write_below_thousand(u32::from(self.len()), text, slash + 1)
    }

    /// Appends the prefix as text, as in `10.0.0.0/8` or `2001:db8::/32`, to `text`. Returns
    /// `AllocError` if memory allocation fails; `text` is unchanged then.
    pub fn put_text(&self, text: &mut Vec<u8>) -> Result<(), AllocError>
        ensures appended { OnOk result (text.new.items ≡ text.old.items ++ network_text self.now) }
        ensures unchanged { OnErr result (text.new.items ≡ text.old.items) }
    {
        let mut buffer = [0; PREFIX_ROOM];
        let end = self.write_text(&mut buffer, 0);
        text.extend_from_slice(&buffer[..end])
    }
}

impl WriteTextAt for Addr {
    ghost shown = { address_text };

    ghost ROOM = { ADDRESS_ROOM };

    const ROOM: usize = ADDRESS_ROOM;

    #[inline(always)]
    fn write_text_at(&self, text: &mut [u8], at: usize) -> usize {
        self.write_text(text, at)
    }
}

impl WriteTextAt for Prefix {
    ghost shown = { network_text };

    ghost ROOM = { PREFIX_ROOM };

    const ROOM: usize = PREFIX_ROOM;

    #[inline(always)]
    fn write_text_at(&self, text: &mut [u8], at: usize) -> usize {
        self.write_text(text, at)
    }
}

/// Writes `octet` in decimal and then a dot, as in `192.`, into `text` at offset `at`, and returns
/// the offset of the octet after the dot. Requires that `text` has [`ROW`] octets from `at` on, of
/// which those after the dot are then unspecified.
#[inline]
fn write_octet_and_dot(octet: u8, text: &mut [u8], at: usize) -> usize
    requires { at + ROW ≤ length text.old }
    ensures written { IsWritten text.old at (decimal octet ++ DOT ∷ []) text.new result }
    ensures short { result ≤ at + ROW }
{
    let dot = write_below_thousand(u32::from(octet), text, at);
    text[dot] = DOT;
    dot + 1
}

/// Writes `address` as text, as in `2001:db8::1`, into `text` at offset `at`, and returns the
/// offset of the octet after it. The groups are joined by colons, and `::` replaces the first of
/// the longest runs of two or more groups of 0 (RFC 5952, section 4.2). Requires that `address` is
/// of IPv6, and that `text` has [`ADDRESS_ROOM`] octets from `at` on, of which those after the
/// address are then unspecified.
#[inline(never)]
fn write_v6(address: &Addr, text: &mut [u8], at: usize) -> usize
    requires { (address.now.family ≡ V6) × (at + ADDRESS_ROOM ≤ length text.old) }
    ensures written { IsWritten text.old at (v6_text address.now) text.new result }
    ensures short { result ≤ at + ADDRESS_ROOM }
{
    let groups = [
        address.group(0),
        address.group(1),
        address.group(2),
        address.group(3),
        address.group(4),
        address.group(5),
        address.group(6),
        address.group(7),
    ];
    let (first, len) = longest_zero_run(&groups);
    if len < LEAST_RUN {
        return write_groups(&groups, text, at);
    }
    let gap = write_groups(&groups[..first], text, at);
    copy_octets_at(&[COLON, COLON], text, gap);
    write_groups(&groups[first + len..], text, gap + 2)
}

/// Returns the longest run of consecutive `groups` that are 0: the index of its first group, and
/// the number of its groups. If several runs have that length, it is the first. If no group is 0,
/// both numbers are 0.
#[inline(always)]
fn longest_zero_run(groups: &[u16; GROUP_COUNT]) -> (usize, usize)
    ensures value { result ≡ Hex.longest_zero_run groups.now }
    ensures within { result.0 + result.1 ≤ length groups.now }
{
    // The mask has a bit for each group, the lowest for the first, which is 1 if the group is 0.
    let mask = usize::from(groups[0] == 0)
        + 2 * usize::from(groups[1] == 0)
        + 4 * usize::from(groups[2] == 0)
        + 8 * usize::from(groups[3] == 0)
        + 16 * usize::from(groups[4] == 0)
        + 32 * usize::from(groups[5] == 0)
        + 64 * usize::from(groups[6] == 0)
        + 128 * usize::from(groups[7] == 0);
    let row = ZERO_RUNS[mask];
    (usize::from(row[0]), usize::from(row[1]))
}

/// Writes `groups` in lower-case hexadecimal, joined by colons, as in `2001:db8`, into `text` at
/// offset `at`, and returns the offset of the octet after them, or `at` if there are none. Requires
/// that `text` has five octets ([`GROUP_ROOM`]) for each group from `at` on, of which those after
/// the groups are then unspecified.
fn write_groups(groups: &[u16], text: &mut [u8], at: usize) -> usize
    requires { at + GROUP_ROOM * length groups.now ≤ length text.old }
    ensures written { IsWritten text.old at (Hex.groups_text groups.now) text.new result }
    ensures short { result ≤ at + GROUP_ROOM * length groups.now }
{
    let Some((first, rest)) = groups.split_first() else {
        return at;
    };
    let mut place = write_group(*first, text, at);
    for group in rest {
        text[place] = COLON;
        place = write_group(*group, text, place + 1);
    }
    place
}

/// Writes `group` in lower-case hexadecimal, without leading zeros, as in `db8`, into `text` at
/// offset `at`, and returns the offset of the octet after it. Requires that `text` has four octets
/// from `at` on, of which those after the group are then unspecified.
#[inline]
fn write_group(group: u16, text: &mut [u8], at: usize) -> usize
    requires { at + GROUP_DIGITS ≤ length text.old }
    ensures written { IsWritten text.old at (Hex.hex group) text.new result }
    ensures short { result ≤ at + GROUP_DIGITS }
{
    if group < 0x100 {
        return write_group_below_256(group, text, at);
    }
    let low = write_group_below_256(group / 0x100, text, at);
    write_hex_octet(group % 0x100, text, low)
}

/// Writes `group` in lower-case hexadecimal, without leading zeros, as in `0` or `1f`, into `text`
/// at offset `at`, and returns the offset of the octet after it. Requires that `group` is below
/// 256, and that `text` has two octets from `at` on, of which those after the group are then
/// unspecified.
#[inline]
fn write_group_below_256(group: u16, text: &mut [u8], at: usize) -> usize
    requires { (group < 0x100) × (at + HEX_PAIR ≤ length text.old) }
    ensures written { IsWritten text.old at (Hex.hex group) text.new result }
    ensures short { result ≤ at + HEX_PAIR }
{
    if group < 0x10 {
        text[at] = hex_pair(group)[1];
        return at + 1;
    }
    write_hex_octet(group, text, at)
}
