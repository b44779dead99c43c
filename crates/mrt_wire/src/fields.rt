//! Parsers of the fields that the bodies of MRT records are made of (RFC 6396, section 4). The
//! parsers of each record type call them, one field after the other: each returns the octets after
//! its field (the rest). All numbers are big-endian. Read [`ValueAndRest`] first.

ghost use Rattle.std.specs.Prelude.{◌≡◌, ℕ, List, length, IfSome, IfNone};
ghost use Rattle.ip_prefix.specs.Sequences.{Begins};
ghost use Rattle.ip_prefix.specs.Fronts.{BeginsWithNone};
ghost use Rattle.bgp_wire.specs.Path.{SpellsAsn, SpellsU32};
ghost use Rattle.mrt_wire.specs.Decoding.{FindsValue};
ghost use Rattle.mrt_wire.specs.Fields.{AreOctets, AreSized, SpellsAddressOf, SpellsOctet, SpellsPeerOf, SpellsShort};

use crate::peers::blank_peer;
use bgp_wire::AsWidth;
use byteorder::{BigEndian, ByteOrder};
use ip_prefix::{Addr, Family};
use mrt_events::Peer;

/// A value parsed from the start of a slice of octets, and `rest`, the octets after it, for the
/// parser of the next field.
#[derive(Clone, Copy)]
pub(crate) struct ValueAndRest<'a, T> {
    pub(crate) value: T,
    pub(crate) rest: &'a [u8],
}

/// Returns the octet at the start of `octets`, a number from 0 to 255, and the octets after it, or
/// `None` if `octets` is empty.
#[inline]
pub(crate) fn split_octet(octets: &[u8]) -> Option<ValueAndRest<'_, u8>>
    ensures { FindsValue SpellsOctet octets.now result }
{
    let (octet, rest) = octets.split_first()?;
    let value = *octet;
    Some(ValueAndRest { value, rest })
}

/// Returns the octets after the first `size` octets, for a field that isn't needed. Returns `None`
/// if `octets` has fewer than `size`.
#[inline]
pub(crate) fn skip(size: usize, octets: &[u8]) -> Option<&[u8]>
    ensures some { IfSome result (λ rest. (value : List ℕ)
        × Begins (AreOctets size) value rest.now octets.now) }
    ensures none { IfNone result (BeginsWithNone (AreOctets size) octets.now) }
{
    let (_, rest) = octets.split_at_checked(size)?;
    Some(rest)
}

/// Parses the big-endian 16-bit number at the start of `octets`. Returns it with the octets after
/// it, or `None` if `octets` has fewer than two octets.
#[inline]
pub(crate) fn split_u16(octets: &[u8]) -> Option<ValueAndRest<'_, u16>>
    ensures { FindsValue SpellsShort octets.now result }
{
    if octets.len() < 2 {
        return None;
    }
    let (front, rest) = octets.split_at(2);
    let value = BigEndian::read_u16(front);
    Some(ValueAndRest { value, rest })
}

/// Parses the big-endian 32-bit number at the start of `octets`. Returns it with the octets after
/// it, or `None` if `octets` has fewer than four octets.
#[inline]
pub(crate) fn split_u32(octets: &[u8]) -> Option<ValueAndRest<'_, u32>>
    ensures { FindsValue SpellsU32 octets.now result }
{
    if octets.len() < 4 {
        return None;
    }
    let (front, rest) = octets.split_at(4);
    let value = BigEndian::read_u32(front);
    Some(ValueAndRest { value, rest })
}

/// Parses the big-endian AS number at the start of `octets`, of two or four octets as `width`
/// states. Returns it with the octets after it, or `None` if `octets` has fewer.
#[inline]
pub(crate) fn split_asn(width: AsWidth, octets: &[u8]) -> Option<ValueAndRest<'_, u32>>
    ensures { FindsValue (SpellsAsn width) octets.now result }
{
    match width {
        AsWidth::Two => {
            let number = split_u16(octets)?;
            let (value, rest) = (u32::from(number.value), number.rest);
            Some(ValueAndRest { value, rest })
        }
        AsWidth::Four => split_u32(octets),
    }
}

/// Splits off a field that begins with its length in octets, a big-endian 16-bit number. Returns
/// first the octets of the field without the length, and second the octets after the field. Returns
/// `None` if `octets` is shorter than the length and the field.
#[inline]
pub(crate) fn split_length_prefixed(octets: &[u8]) -> Option<(&[u8], &[u8])>
    ensures some { IfSome result (λ found. Begins AreSized found.0.now found.1.now octets.now) }
    ensures none { IfNone result (BeginsWithNone AreSized octets.now) }
{
    let number = split_u16(octets)?;
    number.rest.split_at_checked(usize::from(number.value))
}

/// Parses the address of `family` at the start of `octets` into `addr`, in place so that it isn't
/// copied, and returns the octets after it. An IPv4 address takes 4 octets, an IPv6 address 16. If
/// `octets` has fewer, returns `None` and leaves `addr` unchanged.
#[inline]
pub(crate) fn fill_address<'a>(
    addr: &mut Addr,
    family: Family,
    octets: &'a [u8],
) -> Option<&'a [u8]>
    ensures some { IfSome result (λ rest.
        Begins (SpellsAddressOf family) addr.new rest.now octets.now) }
    ensures none { IfNone result (BeginsWithNone (SpellsAddressOf family) octets.now) }
{
    match family {
        Family::V4 => {
            let (front, rest) = octets.split_first_chunk()?;
            *addr = Addr::v4(*front);
            Some(rest)
        }
        Family::V6 => {
            let (front, rest) = octets.split_first_chunk()?;
            *addr = Addr::v6(*front);
            Some(rest)
        }
    }
}

/// Parses the peer at the start of `octets`: its address, of `family`, and then its AS number, of
/// two or four octets as `width` states. Returns the peer with the octets after it, or `None` if
/// `octets` is too short.
#[inline(always)]
pub(crate) fn split_address_and_asn(
    family: Family,
    width: AsWidth,
    octets: &[u8],
) -> Option<ValueAndRest<'_, Peer>>
    ensures { FindsValue (SpellsPeerOf family width) octets.now result }
{
    let mut peer = blank_peer();
    let after_addr = fill_address(&mut peer.addr, family, octets)?;
    let asn = split_asn(width, after_addr)?;
    peer.asn = asn.value;
    Some(ValueAndRest {
        value: peer,
        rest: asn.rest,
    })
}
