//! Parsing RIB_IPV4_UNICAST and RIB_IPV6_UNICAST records: the entries of a routing table for one
//! prefix (RFC 6396, sections 4.3.2 and 4.3.4). `decode_record` calls [`read_rib`]; read that
//! first, then `read_entry`.

ghost use Rattle.std.specs.Prelude.{◌≡◌, ◌∷◌, [], slice_get, OnOk, IfSome, IfNone, IfOk, IfErr};
ghost use Rattle.std.specs.Option.{option_or};
ghost use Rattle.ip_prefix.specs.Sequences.{Begins};
ghost use Rattle.ip_prefix.specs.Fronts.{BeginsWithNone};
ghost use Rattle.bgp_wire.specs.Readers.{Refuses, MayRefuseFront};
ghost use Rattle.mrt_wire.specs.Rib.{PrefixEntries, AreEntryFields, SpellsEntry, SpellsEntries, SpellsRib};
ghost use Rattle.mrt_wire.specs.Items.{entry_time, first_unknown};
ghost use Rattle.mrt_wire.specs.Decoding.{AddsItems, AreItemsOf, SpellsEntryItems, HasEntryTime, entry_value, context_items};

use crate::fields::{skip, split_length_prefixed, split_u16, split_u32};
use crate::pool::Pool;
use crate::rib_route::RawAttrs;
use bgp_wire::{AsWidth, WireFault};
use ip_prefix::{Family, Prefix};
use mrt_events::{Item, Peer, Route, Stamp};
use std::alloc::{AllocError, Global};
use std::rc::Rc;

/// The size of the Sequence Number of a RIB record, in octets (RFC 6396, section 4.3.2).
const SEQUENCE_SIZE: usize = 4;

/// The size of the smallest RIB entry, in octets: a Peer Index, an Originated Time and an Attribute
/// Length of 0 (RFC 6396, section 4.3.4). It bounds the number of entries that memory is reserved
/// for.
const SMALLEST_ENTRY: usize = 8;

/// A parsed entry of a RIB record: the route of one peer to the record's prefix (RFC 6396, section
/// 4.3.4).
#[derive(Drop)]
pub(crate) struct ParsedEntry {
    /// The route. Its time is the record's or the Originated Time, as
    /// [`TableContext::stamp`](TableContext) selects.
    pub(crate) route: Rc<Route>,
    /// The Originated Time (when the route was received), in seconds since 1970.
    pub(crate) originated: u32,
    /// The peer index: the position of the peer in the peer index table, counted from 0.
    pub(crate) index: u16,
}

/// What the items of a RIB record depend on besides the octets of its entries: the peers that the
/// entries refer to, the family of the prefix, the timestamp of the record, and which time the
/// routes get.
#[derive(Clone, Copy)]
pub(crate) struct TableContext<'a> {
    /// The peers of the last accepted peer index table, in the order of their peer indexes; empty
    /// if there is no table.
    pub(crate) peers: &'a [Peer],
    /// The address family of the prefix of the record.
    pub(crate) family: Family,
    /// The timestamp of the record, in seconds since 1970.
    pub(crate) seconds: u32,
    /// Which time the routes get: the timestamp of the record, or the Originated Time of the entry.
    pub(crate) stamp: Stamp,
}

/// The result of parsing the entries of a RIB record: the items of its event, and the first peer
/// index of an entry that isn't in the peer index table, if there is one.
#[derive(Drop)]
pub(crate) struct ParsedEntries {
    /// The announcements of the entries whose peer index is in the peer index table.
    pub(crate) items: Vec<Item>,
    /// The first peer index among the entries that isn't in the peer index table, or `None` if all
    /// are.
    pub(crate) unknown: Option<u16>,
}

/// Returns the time that the route of a table entry gets, in seconds since 1970: `seconds`, the
/// timestamp of the record, if `stamp` is `Dump`, or `originated`, the Originated Time of the
/// entry, if it is `Change`.
#[inline]
pub(crate) fn route_time(stamp: Stamp, seconds: u32, originated: u32) -> u32
    ensures { result ≡ entry_time stamp seconds originated }
{
    match stamp {
        Stamp::Dump => seconds,
        Stamp::Change => originated,
    }
}

/// The fields of a RIB entry, and `rest`, the octets after the entry (RFC 6396, section 4.3.4).
#[derive(Clone, Copy)]
struct EntryFieldsAndRest<'a> {
    /// The path attributes, unparsed, without their length.
    attributes: &'a [u8],
    rest: &'a [u8],
    /// The Originated Time, in seconds since 1970.
    time: u32,
    /// The peer index: the position of the peer in the peer index table, counted from 0.
    index: u16,
}

/// Splits the RIB entry at the start of `octets` into its fields, without parsing the attributes
/// (RFC 6396, section 4.3.4). The octets after the entry are in `rest`. Returns `None` if `octets`
/// is shorter than the entry.
#[inline]
fn split_entry_fields(octets: &[u8]) -> Option<EntryFieldsAndRest<'_>>
    ensures some { IfSome result (λ f.
        Begins AreEntryFields (f.index, (f.time, f.attributes.now)) f.rest.now octets.now) }
    ensures none { IfNone result (BeginsWithNone AreEntryFields octets.now) }
{
    let index = split_u16(octets)?;
    let time = split_u32(index.rest)?;
    let (attributes, rest) = split_length_prefixed(time.rest)?;
    Some(EntryFieldsAndRest {
        attributes,
        rest,
        time: time.value,
        index: index.value,
    })
}

/// Parses the RIB entry at the start of `octets`, and returns it with the octets after it (RFC
/// 6396, section 4.3.4). `context` has the family of the prefix, and selects the time of the route.
/// The route reuses memory of earlier records in `pool`. Fails with `Malformed` if no well-formed
/// entry is there, or with `Memory` if memory allocation fails.
#[inline]
fn read_entry<'a>(
    alloc: Global,
    pool: &mut Pool,
    context: TableContext<'_>,
    octets: &'a [u8],
) -> Result<(ParsedEntry, &'a [u8]), WireFault>
    ensures found { IfOk result (λ found.
        Begins (SpellsEntry context.entry.family) (entry_value found.0) found.1.now octets.now) }
    ensures timed { IfOk result (λ found. HasEntryTime context.entry found.0) }
    ensures refused { IfErr result (MayRefuseFront (SpellsEntry context.entry.family) octets.now) }
{
    let framed = split_entry_fields(octets).ok_or(WireFault::Malformed)?;
    let time = route_time(context.stamp, context.seconds, framed.time);
    let raw = RawAttrs {
        octets: framed.attributes,
        family: context.family,
        width: AsWidth::Four,
    };
    let route = pool
        .read
        .get_or_parse(alloc, usize::from(framed.index), raw, time)?;
    let entry = ParsedEntry {
        route,
        originated: framed.time,
        index: framed.index,
    };
    Ok((entry, framed.rest))
}

/// Returns the peer with the peer index `number`, which is its position in `peers`, counted from 0.
/// Returns `None` if `peers` has no such position.
#[inline]
fn peer_by_index(peers: &[Peer], number: u16) -> Option<Peer>
    ensures { result ≡ slice_get peers.now number }
{
    peers.get(usize::from(number)).copied()
}

impl ParsedEntries {
    /// Appends to `items` the announcement of `prefix` by the peer of `entry`, with the route of
    /// `entry`. If the peer index of `entry` isn't in the table of `context`, appends nothing and
    /// sets `unknown` to this index, unless `unknown` has an earlier one. Fails if memory
    /// allocation fails; `self` is unspecified then.
    fn add(
        &mut self,
        context: TableContext<'_>,
        prefix: Prefix,
        entry: ParsedEntry,
    ) -> Result<(), AllocError>
        requires { HasEntryTime context entry }
        ensures items { OnOk result (AddsItems self.old.items.items self.new.items.items
            (context_items context.entry prefix (entry_value entry))) }
        ensures unknown { OnOk result (self.new.unknown ≡
            option_or self.old.unknown
            (first_unknown context.entry.peers.now (entry_value entry ∷ []))) }
    {
        let Some(peer) = peer_by_index(context.peers, entry.index) else {
            self.unknown = self.unknown.or(Some(entry.index));
            return Ok(());
        };
        self.items.push(Item::Announce(peer, prefix, entry.route))?;
        Ok(())
    }
}

/// Parses a big-endian 16-bit count and as many RIB entries at the start of `octets` into
/// announcements of `prefix`, and ignores the octets after them. The routes reuse memory of earlier
/// records in `pool`. An entry whose peer index isn't in the table of `context` makes no
/// announcement; the result has the first such index as `unknown`. Fails with `Malformed` if the
/// count or an entry is missing or malformed, or with `Memory` if memory allocation fails.
fn read_entries(
    alloc: Global,
    pool: &mut Pool,
    context: TableContext<'_>,
    prefix: Prefix,
    octets: &[u8],
) -> Result<ParsedEntries, WireFault>
    ensures parsed { IfOk result (λ parsed. SpellsEntryItems context.entry prefix parsed
        octets.now) }
    ensures refused { IfErr result (Refuses (SpellsEntries context.entry.family) octets.now) }
{
    // Room is reserved for no more items than the octets can hold entries, whatever the count.
    let count = split_u16(octets).ok_or(WireFault::Malformed)?;
    let most = count.rest.len() / SMALLEST_ENTRY;
    let mut items = pool.take_items(alloc);
    items.reserve(most.min(usize::from(count.value)))?;
    let mut parsed = ParsedEntries {
        items,
        unknown: None,
    };
    let mut rest = count.rest;
    for _ in 0..count.value {
        let (entry, more) = read_entry(alloc, pool, context, rest)?;
        parsed.add(context, prefix, entry)?;
        rest = more;
    }
    Ok(parsed)
}

/// Parses the body of a RIB_IPV4_UNICAST or RIB_IPV6_UNICAST record into announcements of its
/// prefix (RFC 6396, section 4.3.2). The routes reuse memory of earlier records in `pool`. An entry
/// whose peer index isn't in the table of `context` makes no announcement and is no error here: the
/// result has the first such index as `unknown`. Fails with `Malformed` if the body has another
/// form, or with `Memory` if memory allocation fails.
pub(crate) fn read_rib(
    alloc: Global,
    pool: &mut Pool,
    context: TableContext<'_>,
    octets: &[u8],
) -> Result<ParsedEntries, WireFault>
    ensures parsed { IfOk result (λ parsed. (rib : PrefixEntries)
        × SpellsRib context.entry.family rib octets.now × AreItemsOf context.entry rib parsed) }
    ensures refused { IfErr result (Refuses (SpellsRib context.entry.family) octets.now) }
{
    let rest = skip(SEQUENCE_SIZE, octets).ok_or(WireFault::Malformed)?;
    let (prefix, size) = Prefix::read(context.family, rest).ok_or(WireFault::Malformed)?;
    let (_, entries) = rest.split_at(size);
    read_entries(alloc, pool, context, prefix, entries)
}
