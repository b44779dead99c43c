//! The merge of AS4_PATH and AS4_AGGREGATOR, which have AS numbers of four octets, into path
//! attributes that were sent with AS numbers of two (RFC 6793, section 4.2.3). The parsers of
//! UPDATEs and of RIB entries call [`merge_as4`] after they have parsed a list of attributes
//! (`attribute_list.rt`).

ghost use Rattle.std.specs.Prelude.{◌≡◌, List, OnOk, IfErr};
ghost use Rattle.bgp_paths.specs.declared.numbers.AsWidth.TheVariants.{Two};
ghost use Rattle.bgp_paths.specs.declared.fault.WireFault.TheVariants.{Memory};
ghost use Rattle.bgp_wire.specs.Attribute.{Attribute};
ghost use Rattle.bgp_wire.specs.Content.{first_values, AreAttrsOf};
ghost use Rattle.bgp_wire.specs.PlainValues.{AreUnmergedAttrsOf, AreDeferredValuesOf};

use crate::attribute_list::DeferredValues;
use crate::attrs::{Aggregator, Attrs};
use crate::values::read_as4_aggregator;
use bgp_paths::{AsPath, AsWidth, WireFault, merge_paths};
use std::alloc::Global;

/// The AS number AS_TRANS, which stands for an AS number of four octets where only two are sent
/// (RFC 6793, section 9).
const AS_TRANS: u32 = 23456;

/// Merges AS4_PATH and AS4_AGGREGATOR into the AS path and the aggregator of `attrs` if `width`,
/// the size of the AS numbers in AS_PATH, is two octets (RFC 6793, section 4.2.3). If it is four,
/// `attrs` is unchanged. `later` has the values of the two attributes, each `None` if absent; a
/// malformed one counts as absent. Fails only if memory allocation fails, with `Memory`; `attrs` is
/// then unspecified except for its next hop, which never changes.
#[inline(always)]
pub(crate) fn merge_as4(
    alloc: Global,
    attrs: &mut Attrs,
    width: AsWidth,
    later: &DeferredValues,
) -> Result<(), WireFault>
    ensures said { OnOk result ((list : List Attribute) →
        AreUnmergedAttrsOf width attrs.old (first_values list) →
        AreDeferredValuesOf later.now (first_values list) →
        AreAttrsOf width attrs.new list) }
    ensures refused { IfErr result (λ fault. fault ≡ Memory) }
    ensures kept { attrs.new.next_hop ≡ attrs.old.next_hop }
{
    match width {
        AsWidth::Four => Ok(()),
        // This is the most frequent case of two octets, and needs no call.
        AsWidth::Two if later.as4_path.is_none() && later.as4_aggregator.is_none() => Ok(()),
        AsWidth::Two => merge_present_as4(alloc, attrs, later),
    }
}

/// Merges AS4_PATH and AS4_AGGREGATOR into the AS path and the aggregator of `attrs`, whose AS
/// numbers were sent in two octets (RFC 6793, section 4.2.3). `later` has the values of the two
/// attributes, each `None` if absent. A malformed one counts as absent, and so does AS4_AGGREGATOR
/// without AGGREGATOR. If both aggregators are present and the AS number of AGGREGATOR isn't
/// AS_TRANS, AS4_PATH and AS4_AGGREGATOR are ignored. Fails only if memory allocation fails, with
/// `Memory`; `attrs` is then unspecified except for its next hop, which never changes.
#[inline(never)]
fn merge_present_as4(
    alloc: Global,
    attrs: &mut Attrs,
    later: &DeferredValues,
) -> Result<(), WireFault>
    ensures said { OnOk result ((list : List Attribute) →
        AreUnmergedAttrsOf Two attrs.old (first_values list) →
        AreDeferredValuesOf later.now (first_values list) →
        AreAttrsOf Two attrs.new list) }
    ensures refused { IfErr result (λ fault. fault ≡ Memory) }
    ensures kept { attrs.new.next_hop ≡ attrs.old.next_hop }
{
    let as4 = read_as4_aggregator(later.as4_aggregator);
    // Both are ignored if the AS number of AGGREGATOR isn't AS_TRANS.
    if let (Some(own), Some(_)) = (&attrs.aggregator, &as4) {
        if own.asn != AS_TRANS {
            return Ok(());
        }
        attrs.aggregator = as4;
    }
    let Some(octets) = later.as4_path else {
        return Ok(());
    };
    // A malformed AS4_PATH is discarded.
    let mut path = AsPath::empty(alloc);
    match path.fill(alloc, AsWidth::Four, octets) {
        Ok(()) => attrs.path = merge_paths(alloc, &attrs.path, &path)?,
        Err(WireFault::Malformed) => {}
        Err(memory) => return Err(memory),
    }
    Ok(())
}
