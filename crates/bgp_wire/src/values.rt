//! Parsers of the values of path attributes, one for each format (RFC 4271, section 4.3; RFC 6793,
//! section 3). The parser of lists (`attribute_list.rt`) calls them for the first attribute of each
//! type.

ghost use Rattle.std.specs.Prelude.{◌≡◌, ◌+◌, length, Some, None, IsSome, OnOk, OnErr};
ghost use Rattle.bgp_wire.specs.PlainValues.{lent_octets};
ghost use Rattle.bgp_wire.specs.Content.{SpellsIfWellFormed};
ghost use Rattle.bgp_paths.specs.Path.{IsNoSpelling, SpellsU32, asn_size};
ghost use Rattle.bgp_wire.specs.Attribute.{SpellsPresence, SpellsOrigin, SpellsIPv4, SpellsAggregatorAt, SpellsAggregator};
ghost use Rattle.bgp_paths.specs.Readers.{ParsesTo};

use crate::attrs::{Aggregator, Origin};
use crate::ill_formed::IllFormed;
use bgp_paths::AsWidth;
use byteorder::{BigEndian, ByteOrder};
use ip_prefix::Addr;

/// The value of ORIGIN for IGP: the route originates inside its AS (RFC 4271, section 4.3).
const ORIGIN_IGP: u8 = 0;
/// The value of ORIGIN for EGP: the route was learned through EGP (RFC 4271, section 4.3).
const ORIGIN_EGP: u8 = 1;
/// The value of ORIGIN for INCOMPLETE: the route was learned in another way (RFC 4271, section
/// 4.3).
const ORIGIN_INCOMPLETE: u8 = 2;

/// The size of an IPv4 address, in octets (RFC 791, section 3.2).
pub(crate) const IPV4_SIZE: usize = 4;

/// The size of MULTI_EXIT_DISC and of LOCAL_PREF, in octets (RFC 4271, section 4.3).
const U32_SIZE: usize = 4;

/// The size of AGGREGATOR with an AS number of two octets, in octets (RFC 4271, section 4.3).
const AGGREGATOR_SIZE: usize = 6;

/// The size of AS4_AGGREGATOR, and of AGGREGATOR with an AS number of four octets, in octets (RFC
/// 6793, section 3).
const AS4_AGGREGATOR_SIZE: usize = 8;

/// Parses `value` as the value of ORIGIN (RFC 4271, section 4.3). Returns `None` if it isn't a
/// single octet of 0, 1 or 2.
#[inline]
pub(crate) fn read_origin(value: &[u8]) -> Option<Origin>
    ensures { ParsesTo SpellsOrigin value.now result }
{
    match value {
        [ORIGIN_IGP] => Some(Origin::Igp),
        [ORIGIN_EGP] => Some(Origin::Egp),
        [ORIGIN_INCOMPLETE] => Some(Origin::Incomplete),
        _ => None,
    }
}

/// Parses `value` as the value of MULTI_EXIT_DISC or LOCAL_PREF: a 32-bit number in big-endian
/// order (RFC 4271, section 4.3). Returns `None` if it doesn't have exactly four octets.
#[inline]
pub(crate) fn read_u32(value: &[u8]) -> Option<u32>
    ensures { ParsesTo SpellsU32 value.now result }
{
    if value.len() != U32_SIZE {
        return None;
    }
    Some(AsWidth::Four.number(value))
}

/// Parses `value` as the value of NEXT_HOP: an IPv4 address (RFC 4271, section 4.3). Returns `None`
/// if it doesn't have exactly four octets.
#[inline]
pub(crate) fn read_ipv4(value: &[u8]) -> Option<Addr>
    ensures { ParsesTo SpellsIPv4 value.now result }
{
    if value.len() != IPV4_SIZE {
        return None;
    }
    Some(ipv4_addr(value))
}

/// Parses `value` as the value of AGGREGATOR: an AS number of two or four octets, and an IPv4
/// address (RFC 4271, section 4.3; RFC 6793, section 3). Its length, 6 or 8 octets, decides which.
/// Returns `None` for another length.
pub(crate) fn read_aggregator(value: &[u8]) -> Option<Aggregator>
    ensures { ParsesTo SpellsAggregator value.now result }
{
    match value.len() {
        AGGREGATOR_SIZE => Some(aggregator(AsWidth::Two, value)),
        AS4_AGGREGATOR_SIZE => Some(aggregator(AsWidth::Four, value)),
        _ => None,
    }
}

/// Sets `place` to `found`, the result of a parser, if that is `Some`. Fails with [`IllFormed`] if
/// it is `None`; `place` is then unchanged.
#[inline(always)]
pub(crate) fn set_or_fail<T: Copy>(place: &mut Option<T>, found: Option<T>) -> Result<(), IllFormed>
    ensures put { OnOk result (IsSome found × (place.new ≡ found)) }
    ensures none { OnErr result (found ≡ None) }
{
    if found.is_none() {
        return Err(IllFormed);
    }
    *place = found;
    Ok(())
}

/// Sets `atomic` to true if `value`, the value of ATOMIC_AGGREGATE, is empty, as it must be (RFC
/// 4271, section 4.3). Fails with [`IllFormed`] if it isn't; `atomic` is then unchanged.
#[inline]
pub(crate) fn set_atomic_if_empty(atomic: &mut bool, value: &[u8]) -> Result<(), IllFormed>
    ensures filled { OnOk result (SpellsPresence atomic.new (Some value.now)) }
    ensures refused { OnErr result (IsNoSpelling SpellsPresence (Some value.now)) }
{
    if !value.is_empty() {
        return Err(IllFormed);
    }
    *atomic = true;
    Ok(())
}

/// Parses `value` as the value of AS4_AGGREGATOR: an AS number of four octets, and an IPv4 address
/// (RFC 6793, section 3). Returns `None` if it is `None`, since the attribute is absent, or doesn't
/// have exactly eight octets.
pub(crate) fn read_as4_aggregator(value: Option<&[u8]>) -> Option<Aggregator>
    ensures { SpellsIfWellFormed (SpellsAggregatorAt AsWidth.Four) result
        (lent_octets value.entry) }
{
    match value {
        Some(octets) if octets.len() == AS4_AGGREGATOR_SIZE => {
            Some(aggregator(AsWidth::Four, octets))
        }
        _ => None,
    }
}

/// Parses `octets` as an aggregator: an AS number of `width`, big-endian, and an IPv4 address (RFC
/// 4271, section 4.3). Requires that `octets` has exactly the octets of both: 6 or 8.
fn aggregator(width: AsWidth, octets: &[u8]) -> Aggregator
    requires { length octets.now ≡ asn_size width + IPV4_SIZE }
    ensures { SpellsAggregatorAt width result octets.now }
{
    let (number, address) = octets.split_at(width.octets());
    let (addr, asn) = (ipv4_addr(address), width.number(number));
    Aggregator { addr, asn }
}

/// Returns the IPv4 address whose octets are `octets`, the most significant octet first. Requires
/// that there are exactly four.
#[inline]
pub(crate) fn ipv4_addr(octets: &[u8]) -> Addr
    requires { length octets.now ≡ IPV4_SIZE }
    ensures { SpellsIPv4 result octets.now }
{
    Addr::v4([octets[0], octets[1], octets[2], octets[3]])
}
