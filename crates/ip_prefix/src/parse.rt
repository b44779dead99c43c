//! Parsers of addresses and prefixes from text. `bgpdump_tool` parses the words of commands in its
//! scripts with them. Read [`Addr::parse`] and [`Prefix::parse`].

ghost use Rattle.std.specs.Prelude.{◌≡◌, ◌≢◌, ℕ, ◌<◌, MatchOption, decimal};
ghost use Rattle.ip_prefix.specs.Network.{Address, Network};
ghost use Rattle.ip_prefix.specs.Text.{SpellsAddress, SpellsPrefix};
ghost use Rattle.ip_prefix.specs.Marks.{HasNoSlash, IsLastSlash};

use crate::addr::Addr;
use crate::prefix::Prefix;
use crate::text::{DOT, SLASH};
use std::net::{Ipv4Addr, Ipv6Addr};

impl Addr {
    /// Parses all of `text`, in ASCII, as an address. IPv4 is four decimals from 0 to 255 without
    /// leading zeros, joined by dots. IPv6 is groups of one to four hexadecimal digits of either
    /// case, joined by colons, with at most one `::` for one or more groups of 0. Returns `None`
    /// for other text, and so for IPv6 that ends in dotted decimals (`::ffff:192.0.2.1`).
    pub fn parse(text: &[u8]) -> Option<Addr>
        ensures { MatchOption result ((a : Address) → SpellsAddress a text.now → ⊥)
            (λ addr. SpellsAddress addr text.now) }
    {
        if let Ok(addr) = Ipv4Addr::parse_ascii(text) {
            return Some(Addr::v4(addr.octets()));
        }
        if text.contains(&DOT) {
            return None;
        }
        match Ipv6Addr::parse_ascii(text) {
            Ok(addr) => Some(Addr::v6(addr.octets())),
            Err(_) => None,
        }
    }
}

impl Prefix {
    /// Parses all of `text`, in ASCII, as a prefix: an address, a slash, and the length in decimal
    /// without leading zeros, as in `10.0.0.0/8`. Bits of the address after the length need not be
    /// 0, and are set to 0. Returns `None` for other text, and if the length is more than 32 (IPv4)
    /// or 128 (IPv6).
    pub fn parse(text: &[u8]) -> Option<Prefix>
        ensures { MatchOption result ((n : Network) → SpellsPrefix n text.now → ⊥)
            (λ prefix. SpellsPrefix prefix text.now) }
    {
        let at = last_slash(text)?;
        let addr = Addr::parse(&text[..at])?;
        let len = read_length(&text[at + 1..])?;
        Prefix::new(addr, len)
    }
}

/// Returns the index of the last slash in `text`, or `None` if `text` has no slash.
fn last_slash(text: &[u8]) -> Option<usize>
    ensures { MatchOption result (HasNoSlash text.now) (IsLastSlash text.now) }
{
    let mut at = text.len();
    while at > 0 {
        at -= 1;
        if text[at] == SLASH {
            return Some(at);
        }
    }
    None
}

/// Parses all of `text` as a decimal number from 0 to 255 without sign and leading zeros: the
/// length of a prefix. Returns `None` for other text, and so for an empty one.
fn read_length(text: &[u8]) -> Option<u8>
    ensures { MatchOption result ((n : ℕ) → n < 256 → text.now ≢ decimal n)
        (λ n. text.now ≡ decimal n) }
{
    if text.len() > 1 && text[0] < b'1' {
        return None;
    }
    match str::from_utf8(text) {
        Ok(decimal) => decimal.parse().ok(),
        Err(_) => None,
    }
}
