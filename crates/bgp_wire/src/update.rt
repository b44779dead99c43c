//! A parser of the bodies of UPDATE messages (RFC 4271, section 4.3). The parser of messages
//! (`message.rt`) calls [`fill_update`]; read that function first.

ghost use Rattle.std.specs.Prelude.{◌≡◌, ℕ, ◌<◌, ◌^◌, ◌++◌, List, length, IfSome, IfNone, IfErr, OnOk};
ghost use Rattle.bgp_wire.specs.Parts.{update_of_parts, SpellsParts};
ghost use Rattle.bgp_paths.specs.Readers.{Refuses};
ghost use Rattle.bgp_wire.specs.Update.{with_u16_length, SpellsUpdate};

use crate::as4::merge_as4;
use crate::attribute_list::{AttributeListOctets, DeferredValues, read_attribute_list};
use crate::framing::{MP_REACH_NLRI, MP_UNREACH_NLRI};
use crate::lengths::{LENGTH_SIZE, read_length};
use crate::parts::UpdateBuffer;
use crate::prefixes::fill_prefixes;
use crate::reach::{fill_mp_reach, fill_mp_unreach};
use crate::seen_types::SeenTypes;
use bgp_paths::{AsWidth, WireFault};
use ip_prefix::Family;
use std::alloc::Global;

/// Splits a field off the start of `octets` that begins with its length, of two octets, big-endian.
/// Returns the octets of the field after its length, and the octets after the field. Returns `None`
/// if `octets` ends before or inside the field.
fn split_length_prefixed(octets: &[u8]) -> Option<(&[u8], &[u8])>
    ensures some { IfSome result (λ found. (length found.0.now < 2 ^ 16)
        × (octets.now ≡ with_u16_length found.0.now ++ found.1.now)) }
    ensures none { IfNone result ((front rest : List ℕ) →
        length front < 2 ^ 16 → octets.now ≡ with_u16_length front ++ rest → ⊥) }
{
    if octets.len() < LENGTH_SIZE {
        return None;
    }
    let (len, rest) = octets.split_at(LENGTH_SIZE);
    rest.split_at_checked(read_length(len))
}

/// Parses `octets`, the path attributes of an UPDATE, into `parts`: the attributes, and the
/// prefixes of MP_REACH_NLRI and MP_UNREACH_NLRI. The prefixes of the fields Withdrawn Routes and
/// NLRI are unchanged. `width` is the size of the AS numbers in AS_PATH. On an error, `parts` is
/// unspecified. Fails with `Memory` if memory allocation fails, and with `Malformed`:
/// - if `octets` isn't a list of attributes;
/// - if the first attribute of a type doesn't have the format of the type, except that such an
///   AS4_PATH or AS4_AGGREGATOR is ignored;
/// - if MP_REACH_NLRI or MP_UNREACH_NLRI is there twice.
#[inline]
fn fill_from_attributes(
    alloc: Global,
    parts: &mut UpdateBuffer,
    width: AsWidth,
    octets: &[u8],
) -> Result<(), WireFault>
    ensures filled { OnOk result (SpellsParts width parts.new octets.now) }
    ensures refused { IfErr result (Refuses (SpellsParts width) octets.now) }
{
    let mut later = DeferredValues::default();
    let mut types = SeenTypes::empty();
    let sent = AttributeListOctets { octets, width };
    read_attribute_list(alloc, &mut parts.attrs, sent, &mut later, &mut types)?;
    if types.was_seen_twice(MP_REACH_NLRI) || types.was_seen_twice(MP_UNREACH_NLRI) {
        return Err(WireFault::Malformed);
    }
    merge_as4(alloc, &mut parts.attrs, width, &later)?;
    fill_mp_reach(&mut parts.mp_hop, &mut parts.mp_announced, later.reach)?;
    fill_mp_unreach(&mut parts.mp_withdrawn, later.unreach)?;
    Ok(())
}

/// Parses `body`, the body of an UPDATE, into `parts`, whose memory is reused (RFC 4271, section
/// 4.3). `width` is the size of the AS numbers in AS_PATH. Fails with `Malformed` if `body` ends
/// before or inside the withdrawn routes or the path attributes, or if these or the prefixes after
/// them are malformed, and with `Memory` if memory allocation fails; `parts` is then unspecified.
#[inline]
pub(crate) fn fill_update(
    alloc: Global,
    parts: &mut UpdateBuffer,
    width: AsWidth,
    body: &[u8],
) -> Result<(), WireFault>
    ensures filled { OnOk result (SpellsUpdate width (update_of_parts parts.new) body.now) }
    ensures refused { IfErr result (Refuses (SpellsUpdate width) body.now) }
{
    let Some((withdrawn, rest)) = split_length_prefixed(body) else {
        return Err(WireFault::Malformed);
    };
    let Some((attributes, announced)) = split_length_prefixed(rest) else {
        return Err(WireFault::Malformed);
    };
    fill_from_attributes(alloc, parts, width, attributes)?;
    fill_prefixes(&mut parts.withdrawn, Family::V4, withdrawn)?;
    fill_prefixes(&mut parts.announced, Family::V4, announced)?;
    Ok(())
}
