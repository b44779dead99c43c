//! Parsing BGP4MP and BGP4MP_ET records: the state changes and messages of a BGP session (RFC 6396,
//! sections 3 and 4.4). `decode_record` calls [`read_session`]; read that first. `update.rt` turns
//! an UPDATE into withdrawals and announcements.

ghost use Rattle.std.specs.Prelude.{◌≡◌, ◌∷◌, [], ℕ, List, IfOk, IfSome, IfNone};
ghost use Rattle.ip_prefix.specs.Network.{octet_count};
ghost use Rattle.ip_prefix.specs.Sequences.{Begins};
ghost use Rattle.ip_prefix.specs.Fronts.{BeginsWithNone};
ghost use Rattle.bgp_wire.specs.Path.{asn_size};
ghost use Rattle.bgp_wire.specs.Readers.{ParsesTo, ParsesOrFails};
ghost use Rattle.mrt_events.specs.Event.{Changed};
ghost use Rattle.mrt_wire.specs.Items.{session_items};
ghost use Rattle.mrt_wire.specs.Decoding.{FindsValue, SpellsMapped, parsed_session};
ghost use Rattle.mrt_wire.specs.Session.{SpellsFamily, AreAsnFields, AreAddressFields, SpellsSessionPeer, SpellsPeerMessage, SpellsMicros, SpellsSessionContent, SpellsSessionBody};

use crate::fields::{ValueAndRest, fill_address, skip, split_asn, split_u16, split_u32};
use crate::peers::blank_peer;
use crate::pool::Pool;
use crate::record_types::{Bgp4mpFormat, Bgp4mpRecordKind};
use crate::update::items_of_update;
use bgp_wire::{AsWidth, MessageKind, WireFault, read_message_into};
use ip_prefix::{Addr, Family};
use mrt_events::{Item, Items, Peer};
use std::alloc::{AllocError, Global};

/// The size of the Interface Index among the session fields of a BGP4MP record, in octets (RFC
/// 6396, section 4.4.1).
const INTERFACE_SIZE: usize = 2;

/// The number of microseconds in a second: the microseconds of a BGP4MP_ET record are below it.
const MICROS_PER_SECOND: u32 = 1_000_000;

/// The largest size of a message with the session fields in front of it, in octets, after which the
/// memory that it was parsed into is kept for the next message. After one octet more that memory is
/// freed, and the next message allocates its own.
const LONGEST_KEPT: usize = 4096;

/// The result of parsing the body of a BGP4MP or BGP4MP_ET record: the items of its event, and the
/// microseconds of its timestamp.
#[derive(Debug, Drop)]
pub(crate) struct ItemsAndMicroseconds {
    /// The state change, or the withdrawals and announcements of the UPDATE; empty for another
    /// message.
    pub(crate) items: Items,
    /// The microseconds of the timestamp, or `None` if the record is of type BGP4MP (RFC 6396,
    /// section 3).
    pub(crate) micros: Option<u32>,
}

/// Returns the size of an address of `family` in a record, in octets: 4 for IPv4, and 16 for IPv6.
fn address_octets(family: Family) -> usize
    ensures { result ≡ octet_count family }
{
    match family {
        Family::V4 => 4,
        Family::V6 => 16,
    }
}

/// Parses the 16-bit address family at the start of `octets`, 1 for IPv4 or 2 for IPv6 (RFC 6396,
/// section 4.4.1). Returns it with the octets after it, or `None` for another number, or if
/// `octets` has fewer than two octets.
fn split_family(octets: &[u8]) -> Option<ValueAndRest<'_, Family>>
    ensures { FindsValue SpellsFamily octets.now result }
{
    let (front, rest) = octets.split_at_checked(2)?;
    let value = match front {
        [0, 1] => Family::V4,
        [0, 2] => Family::V6,
        _ => return None,
    };
    Some(ValueAndRest { value, rest })
}

/// Parses the session fields at the start of `octets`, from the Peer AS Number to the Local IP
/// Address (RFC 6396, section 4.4.1), with AS numbers of two or four octets as `width` states. Sets
/// `peer` to the address and AS number of the peer, and returns the octets after the fields.
/// Returns `None` if a field is missing or the address family is unknown; `peer` is unspecified
/// then.
fn fill_session_peer<'a>(peer: &mut Peer, width: AsWidth, octets: &'a [u8]) -> Option<&'a [u8]>
    ensures some { IfSome result (λ rest.
        Begins (SpellsSessionPeer width) peer.new rest.now octets.now) }
    ensures none { IfNone result (BeginsWithNone (SpellsSessionPeer width) octets.now) }
{
    let asn = split_asn(width, octets)?;
    let after_local = skip(width.octets(), asn.rest)?;
    let after_systems = skip(INTERFACE_SIZE, after_local)?;
    let family = split_family(after_systems)?;
    let after_peer = fill_address(&mut peer.addr, family.value, family.rest)?;
    let rest = skip(address_octets(family.value), after_peer)?;
    peer.asn = asn.value;
    Some(rest)
}

/// Parses the session fields (AS numbers and addresses) and the BGP message of a BGP4MP record into
/// the withdrawals and announcements of the message if it is an UPDATE, or else into no items (RFC
/// 6396, sections 4.4.2 and 4.4.3). AS numbers have two or four octets, as `width` states.
/// `seconds`, in seconds since 1970, becomes the time of the routes, which reuse memory of earlier
/// records in `pool`. Fails with `Malformed` if the octets have another form, or with `Memory` if
/// memory allocation fails.
#[inline(never)]
fn read_peer_message(
    alloc: Global,
    pool: &mut Pool,
    seconds: u32,
    width: AsWidth,
    octets: &[u8],
) -> Result<Items, WireFault>
    ensures { ParsesOrFails (SpellsMapped (SpellsSessionContent Bgp4mpRecordKind.Message width)
        (session_items seconds))
        octets.now result }
{
    let mut peer = blank_peer();
    let rest = fill_session_peer(&mut peer, width, octets).ok_or(WireFault::Malformed)?;
    let kind = read_message_into(alloc, &mut pool.parts, width, rest)?;
    match kind {
        MessageKind::Update => Ok(items_of_update(alloc, pool, &peer, seconds)?),
        MessageKind::Other(_) => Ok(Items::from_vec(Vec::new(alloc))),
    }
}

/// Parses the microseconds at the start of the body of a BGP4MP_ET record, a big-endian 32-bit
/// number (RFC 6396, section 3), and returns them with the octets after them. If `timed` is
/// `false`, for a BGP4MP record without them, the value is `None` and `rest` is all of `octets`.
/// Returns `None` if the number is missing, or if it is 1,000,000 or more.
fn split_micros(timed: bool, octets: &[u8]) -> Option<ValueAndRest<'_, Option<u32>>>
    ensures { FindsValue (SpellsMicros timed) octets.now result }
{
    if !timed {
        return Some(ValueAndRest {
            value: None,
            rest: octets,
        });
    }
    let micros = split_u32(octets)?;
    if micros.value >= MICROS_PER_SECOND {
        return None;
    }
    Some(ValueAndRest {
        value: Some(micros.value),
        rest: micros.rest,
    })
}

/// Parses the session fields (AS numbers and addresses) and the two states of a state change into
/// one item, and ignores the octets after them (RFC 6396, sections 4.4.1 and 4.4.4). AS numbers
/// have two or four octets, as `width` states. Fails with `Malformed` if a field is missing or the
/// address family is unknown, or with `Memory` if memory allocation fails.
fn read_state_change(alloc: Global, width: AsWidth, octets: &[u8]) -> Result<Items, WireFault>
    ensures { (seconds : ℕ) → ParsesOrFails (SpellsMapped
        (SpellsSessionContent Bgp4mpRecordKind.StateChange width)
        (session_items seconds)) octets.now result }
{
    let mut peer = blank_peer();
    let rest = fill_session_peer(&mut peer, width, octets).ok_or(WireFault::Malformed)?;
    let old = split_u16(rest).ok_or(WireFault::Malformed)?;
    let new = split_u16(old.rest).ok_or(WireFault::Malformed)?;
    let items = vec![in alloc; Item::State(peer, old.value, new.value)]?;
    Ok(Items::from_vec(items))
}

/// Parses the body of a BGP4MP record, or the octets after the microseconds in the body of a
/// BGP4MP_ET record, into items: a state change, or the withdrawals and announcements of an UPDATE.
/// `form` states which of the two it is, and the width of AS numbers. `seconds`, in seconds since
/// 1970, becomes the time of the routes, which reuse memory of earlier records in `pool`. Fails
/// with `Malformed` if the octets have another form, or with `Memory` if memory allocation fails.
#[inline(always)]
fn read_session_content(
    alloc: Global,
    pool: &mut Pool,
    seconds: u32,
    form: Bgp4mpFormat,
    octets: &[u8],
) -> Result<Items, WireFault>
    ensures { ParsesOrFails (SpellsMapped (SpellsSessionContent form.kind form.width)
        (session_items seconds))
        octets.now result }
{
    match form.kind {
        Bgp4mpRecordKind::StateChange => read_state_change(alloc, form.width, octets),
        Bgp4mpRecordKind::Message => {
            let result = read_peer_message(alloc, pool, seconds, form.width, octets);
            if octets.len() > LONGEST_KEPT {
                pool.free_message_memory(alloc);
            }
            result
        }
    }
}

/// Parses the body of a BGP4MP or BGP4MP_ET record into the items of its event and its
/// microseconds, which are `None` for BGP4MP. `form` is the format of the body. `seconds`, the
/// timestamp of the record in seconds since 1970, becomes the time of the routes, which reuse
/// memory of earlier records in `pool`. Fails with `Malformed` if the body has another form, or
/// with `Memory` if memory allocation fails.
#[inline(always)]
pub(crate) fn read_session(
    alloc: Global,
    pool: &mut Pool,
    seconds: u32,
    form: Bgp4mpFormat,
    octets: &[u8],
) -> Result<ItemsAndMicroseconds, WireFault>
    ensures { ParsesOrFails (SpellsMapped (SpellsSessionBody form) (parsed_session seconds))
        octets.now result }
{
    let micros = split_micros(form.timed, octets).ok_or(WireFault::Malformed)?;
    let items = read_session_content(alloc, pool, seconds, form, micros.rest)?;
    let micros = micros.value;
    Ok(ItemsAndMicroseconds { items, micros })
}
