//! A parser of lists of path attributes (RFC 4271, section 4.3). If a list has several attributes
//! of one type, the first counts. The parsers of UPDATEs and of RIB entries call
//! [`read_attribute_list`]; read that function first.

ghost use Rattle.std.specs.Prelude.{◌≡◌, ◌<◌, [], Some, OnOk, OnErr, IfErr};
ghost use Rattle.bgp_wire.specs.declared.framing.TheConstants.{KINDS};
ghost use Rattle.bgp_wire.specs.PlainValues.{AddingGives, ClearsAbsentLists, AreDeferredValuesOf, ReadSoFar, AreUnmergedAttrsOf, SpellsUnmergedAttrs, ReadsList, AreTypesOf};
ghost use Rattle.bgp_wire.specs.Content.{FirstValues, first_values};
ghost use Rattle.bgp_paths.specs.Readers.{Refuses};

use crate::attrs::{Attrs, Communities, MOST_SPARE};
use crate::framing::{
    AGGREGATOR, AS_PATH, AS4_AGGREGATOR, AS4_PATH, ATOMIC_AGGREGATE, AttributeAndRest, COMMUNITIES,
    LOCAL_PREF, MP_REACH_NLRI, MP_UNREACH_NLRI, MULTI_EXIT_DISC, NEXT_HOP, ORIGIN, split_attribute,
};
use crate::seen_types::SeenTypes;
use crate::values::{
    read_aggregator, read_ipv4, read_origin, read_u32, set_atomic_if_empty, set_or_fail,
};
use bgp_paths::{AsWidth, WireFault, fill_numbers};
use std::alloc::Global;

/// The octets of a list of path attributes, and the size of the AS numbers in its AS_PATH.
#[derive(Clone, Copy)]
pub(crate) struct AttributeListOctets<'a> {
    /// The octets of the list, without the field with their number.
    pub(crate) octets: &'a [u8],
    /// The size of the AS numbers in AS_PATH.
    pub(crate) width: AsWidth,
}

/// The values of MP_REACH_NLRI, MP_UNREACH_NLRI, AS4_PATH and AS4_AGGREGATOR in a list of path
/// attributes, as octets. They are parsed after the list, since their parsing depends on other
/// attributes or on whether the list is of an UPDATE or a RIB entry. Each is the value of the first
/// attribute of its type, or `None` if the list has none.
#[derive(Clone, Copy, Default)]
pub(crate) struct DeferredValues<'a> {
    /// The value of MP_REACH_NLRI, or `None` if it is absent.
    pub(crate) reach: Option<&'a [u8]>,
    /// The value of MP_UNREACH_NLRI, or `None` if it is absent.
    pub(crate) unreach: Option<&'a [u8]>,
    /// The value of AS4_PATH, or `None` if it is absent.
    pub(crate) as4_path: Option<&'a [u8]>,
    /// The value of AS4_AGGREGATOR, or `None` if it is absent.
    pub(crate) as4_aggregator: Option<&'a [u8]>,
}

/// Parses the value of the attribute `framed` into `attrs`, or stores its octets in `later` if
/// [`DeferredValues`] has a field for its type. `width` is the size of the AS numbers in AS_PATH.
/// Attributes of unknown types are ignored. The caller passes only the first attribute of each type
/// in a list. Fails with `Malformed` if the value doesn't have the format of its type, and with
/// `Memory` if memory allocation fails; `attrs` is then unspecified, and `later` unchanged.
#[inline(always)]
fn read_attribute<'a>(
    alloc: Global,
    width: AsWidth,
    framed: AttributeAndRest<'a>,
    attrs: &mut Attrs,
    later: &mut DeferredValues<'a>,
) -> Result<(), WireFault>
    ensures read { OnOk result (AddingGives framed.entry.kind framed.entry.value.now
        (ReadSoFar width attrs.old later.old) (ReadSoFar width attrs.new later.new)) }
    ensures refused { IfErr result (λ fault. (first : FirstValues) →
        first framed.entry.kind ≡ Some framed.entry.value.now →
        Refuses (AreUnmergedAttrsOf width) first fault) }
    ensures known { OnErr result (framed.entry.kind < KINDS) }
{
    let value = framed.value;
    match framed.kind {
        ORIGIN => set_or_fail(&mut attrs.origin, read_origin(value))?,
        AS_PATH => attrs.path.fill(alloc, width, value)?,
        NEXT_HOP => set_or_fail(&mut attrs.next_hop, read_ipv4(value))?,
        MULTI_EXIT_DISC => set_or_fail(&mut attrs.med, read_u32(value))?,
        LOCAL_PREF => set_or_fail(&mut attrs.local_pref, read_u32(value))?,
        ATOMIC_AGGREGATE => set_atomic_if_empty(&mut attrs.atomic, value)?,
        AGGREGATOR => set_or_fail(&mut attrs.aggregator, read_aggregator(value))?,
        COMMUNITIES => fill_numbers(
            &mut attrs.communities.items,
            AsWidth::Four,
            value,
            MOST_SPARE,
        )?,
        MP_REACH_NLRI => later.reach = Some(value),
        MP_UNREACH_NLRI => later.unreach = Some(value),
        AS4_PATH => later.as4_path = Some(value),
        AS4_AGGREGATOR => later.as4_aggregator = Some(value),
        _ => {}
    }
    Ok(())
}

/// Clears the AS path of `attrs` if AS_PATH isn't among `types`, and its communities if COMMUNITIES
/// isn't. `types` are the types of the list of attributes just parsed; a path or communities that
/// it doesn't have are left over in `attrs` from an earlier list. The memory of cleared communities
/// is freed if it has capacity for more than [`MOST_SPARE`] of them, or else kept.
#[inline(always)]
fn clear_absent_lists(alloc: Global, attrs: &mut Attrs, types: &SeenTypes)
    ensures { ClearsAbsentLists types.now attrs.old attrs.new }
{
    if !types.has(AS_PATH) {
        attrs.path.clear(alloc);
    }
    if !types.has(COMMUNITIES) {
        attrs.communities.items.clear();
        if attrs.communities.items.capacity() > usize::from(MOST_SPARE) {
            free_communities(&mut attrs.communities);
        }
    }
}

/// Removes all communities and frees their memory.
#[inline(never)]
fn free_communities(communities: &mut Communities)
    ensures { communities.new ≡ [] }
{
    // This isn't inlined, since few lists have much memory.
    communities.items = Vec::new(*communities.items.allocator());
}

/// Parses the list of path attributes `sent` into `attrs`, whose memory is reused. Of several
/// attributes of one type, the first is parsed. Attributes that the list doesn't have become
/// `None`, false or empty. Stores the values that [`DeferredValues`] names in `later`, unparsed,
/// and the types of all attributes in `types`. Requires that `later` and `types` are empty. Fails
/// with `Malformed` if `sent` isn't a list of attributes or if a value doesn't have the format of
/// its type, and with `Memory` if memory allocation fails; `attrs`, `later` and `types` are then
/// unspecified.
#[inline(always)]
pub(crate) fn read_attribute_list<'a>(
    alloc: Global,
    attrs: &mut Attrs,
    sent: AttributeListOctets<'a>,
    later: &mut DeferredValues<'a>,
    types: &mut SeenTypes,
) -> Result<(), WireFault>
    requires no_value { AreDeferredValuesOf later.old (first_values []) }
    requires no_type { AreTypesOf types.old [] }
    ensures read { OnOk result (ReadsList sent.entry.width attrs.new later.new types.new
        sent.entry.octets.now) }
    ensures refused { IfErr result (Refuses (SpellsUnmergedAttrs sent.entry.width)
        sent.entry.octets.now) }
{
    attrs.next_hop = None;
    attrs.aggregator = None;
    attrs.med = None;
    attrs.local_pref = None;
    attrs.origin = None;
    attrs.atomic = false;
    let mut rest = sent.octets;
    while !rest.is_empty() {
        let Some(framed) = split_attribute(rest) else {
            return Err(WireFault::Malformed);
        };
        if !types.test_and_set(framed.kind) {
            read_attribute(alloc, sent.width, framed, attrs, later)?;
        }
        rest = framed.rest;
    }
    clear_absent_lists(alloc, attrs, types);
    Ok(())
}
