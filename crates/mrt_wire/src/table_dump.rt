//! Parsing TABLE_DUMP records, each of one peer and its route to a prefix (RFC 6396, section 4.2).
//! `decode_record` calls [`read_table_dump`]. Read [`split_table_dump_fields`] first, which splits
//! the body into its fields.

ghost use Rattle.std.specs.Prelude.{IfSome, IfNone};
ghost use Rattle.ip_prefix.specs.Fronts.{BeginsWithNone};
ghost use Rattle.bgp_wire.specs.Readers.{ParsesOrFails};
ghost use Rattle.mrt_wire.specs.Items.{table_dump_items};
ghost use Rattle.mrt_wire.specs.Decoding.{FindsValue, BeginsWithTableDumpFields, SpellsMapped};
ghost use Rattle.mrt_wire.specs.Rib.{AreTableDumpFields, SpellsTableDump, SpellsAddressAndLength};

use crate::fields::{
    ValueAndRest, fill_address, skip, split_address_and_asn, split_length_prefixed, split_octet,
    split_u32,
};
use crate::peers::peer_hash;
use crate::pool::Pool;
use crate::rib::route_time;
use crate::rib_route::RawAttrs;
use bgp_wire::{AsWidth, WireFault};
use ip_prefix::{Addr, Family, Prefix, V4_OCTETS};
use mrt_events::{Item, Items, Peer, SharedRanges, Stamp};
use std::alloc::Global;

/// The size of the View Number and the Sequence Number of a TABLE_DUMP body together, in octets
/// (RFC 6396, section 4.2).
const NUMBERS_SIZE: usize = 4;

/// The size of the Status field of a TABLE_DUMP body, in octets (RFC 6396, section 4.2).
const STATUS_SIZE: usize = 1;

/// The fields of a TABLE_DUMP body that are used, the attributes unparsed (RFC 6396, section 4.2).
#[derive(Clone, Copy)]
struct TableDumpFields<'a> {
    /// The path attributes, unparsed, without their length.
    attributes: &'a [u8],
    prefix: Prefix,
    peer: Peer,
    /// The Originated Time (when the route was received), in seconds since 1970.
    time: u32,
}

/// Parses the Prefix and the Prefix Length at the start of `octets`: an address of `family`, and
/// the number of its leading bits that make the prefix (RFC 6396, section 4.2). Returns the prefix
/// with the octets after it, or `None` if `octets` is too short, or if the length exceeds the bits
/// of an address.
#[inline(always)]
fn split_address_and_length(family: Family, octets: &[u8]) -> Option<ValueAndRest<'_, Prefix>>
    ensures { FindsValue (SpellsAddressAndLength family) octets.now result }
{
    let mut addr = Addr::v4([0; V4_OCTETS]);
    let after_addr = fill_address(&mut addr, family, octets)?;
    let len = split_octet(after_addr)?;
    let prefix = Prefix::new(addr, len.value)?;
    Some(ValueAndRest {
        value: prefix,
        rest: len.rest,
    })
}

/// Splits a TABLE_DUMP body into its fields, without parsing the attributes (RFC 6396, section
/// 4.2). Ignores the View Number, the Sequence Number, the Status and the octets after the
/// attributes. Returns `None` if a field is missing or the Prefix Length exceeds the bits of an
/// address of `family`.
#[inline(always)]
fn split_table_dump_fields(family: Family, octets: &[u8]) -> Option<TableDumpFields<'_>>
    ensures some { IfSome result (λ framed. BeginsWithTableDumpFields family framed octets.now) }
    ensures none { IfNone result (BeginsWithNone (AreTableDumpFields family) octets.now) }
{
    let after_numbers = skip(NUMBERS_SIZE, octets)?;
    let Some(prefix) = split_address_and_length(family, after_numbers) else {
        return None;
    };
    let after_status = skip(STATUS_SIZE, prefix.rest)?;
    let time = split_u32(after_status)?;
    let Some(peer) = split_address_and_asn(family, AsWidth::Two, time.rest) else {
        return None;
    };
    let (attributes, _) = split_length_prefixed(peer.rest)?;
    Some(TableDumpFields {
        attributes,
        prefix: prefix.value,
        peer: peer.value,
        time: time.value,
    })
}

/// The timestamp of a TABLE_DUMP record, and whether its route gets that time or the Originated
/// Time.
#[derive(Clone, Copy)]
pub(crate) struct TimeChoice {
    /// The timestamp of the record, in seconds since 1970.
    pub(crate) seconds: u32,
    /// Which time the route gets: the timestamp of the record, or the Originated Time of the entry.
    pub(crate) stamp: Stamp,
}

/// Parses a TABLE_DUMP body for a prefix of `family` into one announcement (RFC 6396, section 4.2).
/// [`read_table_dump`] has it compiled for each family. `choice` has the timestamp of the record,
/// and states whether the route gets that time or the Originated Time in the body. The route reuses
/// memory of earlier records in `pool`. Fails with `Malformed` if the body has another form, or with
/// `Memory` if memory allocation fails.
// Inlined, so that the compiler makes code for each family.
#[inline(always)]
fn read_table_dump_of(
    alloc: Global,
    pool: &mut Pool,
    family: Family,
    choice: TimeChoice,
    octets: &[u8],
) -> Result<Items, WireFault>
    ensures { ParsesOrFails (SpellsMapped (SpellsTableDump family)
        (table_dump_items choice.stamp choice.seconds))
        octets.now result }
{
    let Some(entry) = split_table_dump_fields(family, octets) else {
        return Err(WireFault::Malformed);
    };
    let time = route_time(choice.stamp, choice.seconds, entry.time);
    let raw = RawAttrs {
        octets: entry.attributes,
        family,
        width: AsWidth::Two,
    };
    let route = pool
        .read
        .get_or_parse(alloc, peer_hash(&entry.peer), raw, time)?;
    let mut items = pool.take_items(alloc);
    items.push(Item::Announce(entry.peer, entry.prefix, route))?;
    let (start, middle, end) = (0, 1, 1);
    Ok(Items::with_shared_ranges(items, SharedRanges { start, middle, end }))
}

/// Parses a TABLE_DUMP body for a prefix of `family` into one announcement (RFC 6396, section 4.2).
/// `choice` has the timestamp of the record, and states whether the route gets that time or the
/// Originated Time in the body. The route reuses memory of earlier records in `pool`. Fails with
/// `Malformed` if the body has another form, or with `Memory` if memory allocation fails.
pub(crate) fn read_table_dump(
    alloc: Global,
    pool: &mut Pool,
    family: Family,
    choice: TimeChoice,
    octets: &[u8],
) -> Result<Items, WireFault>
    ensures { ParsesOrFails (SpellsMapped (SpellsTableDump family)
        (table_dump_items choice.stamp choice.seconds))
        octets.now result }
{
    match family {
        Family::V4 => read_table_dump_of(alloc, pool, Family::V4, choice, octets),
        Family::V6 => read_table_dump_of(alloc, pool, Family::V6, choice, octets),
    }
}
