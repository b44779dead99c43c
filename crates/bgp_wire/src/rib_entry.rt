//! Parsers of the path attributes of RIB entries (RFC 6396, section 4.3.4). The parser of RIB
//! records calls [`read_rib_attrs_into`]; read [`fill_rib_attrs`] first.

ghost use Rattle.std.specs.Prelude.{◌≡◌, OnOk, OnErr, IfErr};
ghost use Rattle.bgp_wire.specs.Content.{SpellsRibAttrs};
ghost use Rattle.bgp_wire.specs.Parts.{absent_attrs};
ghost use Rattle.bgp_paths.specs.Readers.{ParsesOrFails, Refuses};

use crate::as4::merge_as4;
use crate::attribute_list::{AttributeListOctets, DeferredValues, read_attribute_list};
use crate::attrs::Attrs;
use crate::framing::MP_REACH_NLRI;
use crate::next_hop::choose_rib_next_hop;
use crate::seen_types::SeenTypes;
use bgp_paths::{AsWidth, WireFault};
use ip_prefix::Family;
use std::alloc::Global;

/// Parses `octets` as the path attributes of a RIB entry for a prefix of `family` into `attrs`,
/// whose memory is reused (RFC 6396, section 4.3.4). `width` is the size of the AS numbers in
/// AS_PATH. Fails with `Malformed` if `octets` is malformed, by the rules of [`read_rib_attrs`],
/// and with `Memory` if memory allocation fails; `attrs` is then unspecified.
#[inline]
fn fill_rib_attrs(
    alloc: Global,
    attrs: &mut Attrs,
    family: Family,
    width: AsWidth,
    octets: &[u8],
) -> Result<(), WireFault>
    ensures filled { OnOk result (SpellsRibAttrs family width attrs.new octets.now) }
    ensures refused { IfErr result (Refuses (SpellsRibAttrs family width) octets.now) }
{
    let mut later = DeferredValues::default();
    let mut types = SeenTypes::empty();
    let sent = AttributeListOctets { octets, width };
    read_attribute_list(alloc, attrs, sent, &mut later, &mut types)?;
    if types.was_seen_twice(MP_REACH_NLRI) {
        return Err(WireFault::Malformed);
    }
    merge_as4(alloc, attrs, width, &later)?;
    choose_rib_next_hop(family, &mut attrs.next_hop, later.reach)?;
    Ok(())
}

/// Parses `octets` as the path attributes of a RIB entry for a prefix of `family` (RFC 6396,
/// section 4.3.4). `width` is the size of the AS numbers in AS_PATH. Fails with `Malformed` if
/// `octets` isn't a list of attributes, if the first attribute of a type is malformed (except that
/// a malformed AS4_PATH or AS4_AGGREGATOR is ignored), or if MP_REACH_NLRI is there twice. Fails
/// with `Memory` if memory allocation fails.
pub fn read_rib_attrs(
    alloc: Global,
    family: Family,
    width: AsWidth,
    octets: &[u8],
) -> Result<Attrs, WireFault>
    ensures { ParsesOrFails (SpellsRibAttrs family width) octets.now result }
{
    let mut attrs = Attrs::empty(alloc);
    fill_rib_attrs(alloc, &mut attrs, family, width, octets)?;
    Ok(attrs)
}

/// Parses `octets` as the path attributes of a RIB entry for a prefix of `family` into `attrs`,
/// whose memory is reused (RFC 6396, section 4.3.4). `width` is the size of the AS numbers in
/// AS_PATH. Fails with `Malformed` if `octets` is malformed, by the rules of [`read_rib_attrs`],
/// and with `Memory` if memory allocation fails; all attributes of `attrs` are then absent.
pub fn read_rib_attrs_into(
    alloc: Global,
    attrs: &mut Attrs,
    family: Family,
    width: AsWidth,
    octets: &[u8],
) -> Result<(), WireFault>
    ensures replaced { OnOk result (SpellsRibAttrs family width attrs.new octets.now) }
    ensures refused { IfErr result (Refuses (SpellsRibAttrs family width) octets.now) }
    ensures left { OnErr result (attrs.new ≡ absent_attrs) }
{
    let result = fill_rib_attrs(alloc, attrs, family, width, octets);
    if result.is_err() {
        *attrs = Attrs::empty(alloc);
    }
    result
}
