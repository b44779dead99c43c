//! Appends the fields of a line after its first ones (which are in `heading.rt`), each with the bar `|`
//! ahead of it. `event_lines.rt` and `route_line.rt` call these functions; on error, each may have
//! appended a part. Read [`put_attribute_fields`] first.

ghost use Rattle.std.specs.Prelude.{◌∷◌, ◌++◌, decimal};
ghost use Rattle.ip_prefix.specs.Text.{address_text, network_text};
ghost use Rattle.bgp_wire.specs.Text.{communities_text};
ghost use Rattle.bgpdump_lines.specs.WrittenSoFar.{Prints};
ghost use Rattle.bgpdump_lines.specs.Lines.{bar, line_from_fields, origin_text, next_hop_text, number_or_zero, atomic_word, aggregator_text, attribute_fields};

use bgp_wire::{Aggregator, Attrs, Communities, Origin, append_communities};
use ip_prefix::{Addr, Prefix, SPACE, Text};
use mrt_wire::Peer;
use std::alloc::AllocError;

/// The octet `|`, which separates the fields of a line.
pub(crate) const BAR: u8 = b'|';

/// Appends a field of a line to `text`: a bar and `number` in decimal, such as `|120`. Fails if memory
/// allocation fails; `text` then ends with an unspecified part of the field.
pub fn put_u64_field(number: u64, text: &mut Text) -> Result<(), AllocError>
    ensures { Prints text.old text.new (bar ∷ decimal number) result }
{
    text.push(BAR)?;
    text.put_decimal_u64(number)
}

/// Appends the field of a number of 32 bits: a bar and `number` in decimal, such as `|120`. Fails if
/// memory allocation fails; `text` then ends with an unspecified part of the field.
#[inline(always)]
pub(crate) fn put_u32_field(number: u32, text: &mut Text) -> Result<(), AllocError>
    ensures { Prints text.old text.new (bar ∷ decimal number) result }
{
    text.put_led_decimal(BAR, number)
}

/// Appends the two fields of a BGP peer to `text`: a bar and its address, a bar and its AS number, such
/// as `|192.0.2.1|65000`. Fails if memory allocation fails; `text` then ends with an unspecified part of
/// them.
#[inline(always)]
pub fn put_peer_fields(peer: &Peer, text: &mut Text) -> Result<(), AllocError>
    ensures { Prints text.old text.new
        (bar ∷ address_text peer.now.addr ++ bar ∷ decimal peer.now.asn) result }
{
    text.put_led(BAR, &peer.addr)?;
    put_u32_field(peer.asn, text)
}

/// Appends the field of a prefix: a bar, its address, `/`, and its length in bits, such as
/// `|198.51.100.0/24`. Fails if memory allocation fails; `text` then ends with an unspecified part of the
/// field.
#[inline(always)]
pub(crate) fn put_prefix_field(prefix: &Prefix, text: &mut Text) -> Result<(), AllocError>
    ensures { Prints text.old text.new (bar ∷ network_text prefix.now) result }
{
    text.put_led(BAR, prefix)
}

/// Appends the field of ORIGIN (RFC 4271, section 5.1.1): a bar and `IGP`, `EGP` or `INCOMPLETE`, or only
/// a bar for `None`, where a route has no such attribute. Fails if memory allocation fails; `text` then
/// ends with an unspecified part of the field.
#[inline(always)]
fn put_origin_field(origin: Option<Origin>, text: &mut Text) -> Result<(), AllocError>
    ensures { Prints text.old text.new (bar ∷ origin_text origin) result }
{
    match origin {
        Some(Origin::Igp) => text.extend_from_slice(b"|IGP"),
        Some(Origin::Egp) => text.extend_from_slice(b"|EGP"),
        Some(Origin::Incomplete) => text.extend_from_slice(b"|INCOMPLETE"),
        None => text.extend_from_slice(b"|"),
    }
}

/// Appends the field of the next hop: a bar and its address, such as `|192.0.2.1`, or only a bar
/// for `None`, where a route has no next hop. Fails if memory allocation fails; `text` then ends
/// with an unspecified part of the field.
#[inline(always)]
fn put_next_hop_field(next_hop: Option<Addr>, text: &mut Text) -> Result<(), AllocError>
    ensures { Prints text.old text.new (bar ∷ next_hop_text next_hop) result }
{
    match next_hop {
        Some(addr) => text.put_led(BAR, &addr),
        None => text.push(BAR),
    }
}

/// Appends the field of LOCAL_PREF or MULTI_EXIT_DISC (RFC 4271, section 5.1): a bar and the value in
/// decimal, such as `|100`, or `|0` for `None`, where a route has no such attribute. Fails if memory
/// allocation fails; `text` then ends with an unspecified part of the field.
#[inline(always)]
fn put_optional_u32_field(number: Option<u32>, text: &mut Text) -> Result<(), AllocError>
    ensures { Prints text.old text.new (bar ∷ number_or_zero number) result }
{
    let absent = [BAR, b'0'];
    match number {
        Some(number) => put_u32_field(number, text),
        None => text.extend_from_slice(&absent),
    }
}

/// Appends the field of COMMUNITIES (RFC 1997): a bar and the communities, separated by spaces, such as
/// `|65000:1 no-export`, or only the bar if there are none. Fails if memory allocation fails; `text` then
/// ends with an unspecified part of the field.
fn put_community_field(communities: &Communities, text: &mut Text) -> Result<(), AllocError>
    ensures { Prints text.old text.new (bar ∷ communities_text communities.now) result }
{
    text.push(BAR)?;
    append_communities(communities.as_slice(), text)
}

/// Appends the field of ATOMIC_AGGREGATE (RFC 4271, section 5.1.6): `|AG` if `atomic`, that is if the
/// route has this attribute, or else `|NAG`. Fails if memory allocation fails; `text` then ends with an
/// unspecified part of the field.
#[inline(always)]
fn put_atomic_field(atomic: bool, text: &mut Text) -> Result<(), AllocError>
    ensures { Prints text.old text.new (bar ∷ atomic_word atomic) result }
{
    if atomic {
        text.extend_from_slice(b"|AG")
    } else {
        text.extend_from_slice(b"|NAG")
    }
}

/// Appends the field of AGGREGATOR (RFC 4271, section 5.1.7): a bar, its AS number, a space and its
/// address, such as `|65000 192.0.2.1`, or only a bar for `None`, where a route has no such attribute.
/// Fails if memory allocation fails; `text` then ends with an unspecified part of the field.
#[inline(always)]
fn put_aggregator_field(aggregator: Option<Aggregator>, text: &mut Text) -> Result<(), AllocError>
    ensures { Prints text.old text.new (bar ∷ aggregator_text aggregator) result }
{
    match aggregator {
        Some(found) => {
            put_u32_field(found.asn, text)?;
            text.put_led(SPACE, &found.addr)
        }
        None => text.extend_from_slice(b"|"),
    }
}

/// Appends the fields of a route's attributes, which follow the prefix in its line, then an empty field
/// and a line feed, such as `|65000 65001|IGP|192.0.2.1|100|0|65000:1|NAG||`: AS_PATH, ORIGIN, next hop,
/// LOCAL_PREF, MULTI_EXIT_DISC, COMMUNITIES, ATOMIC_AGGREGATE and AGGREGATOR. Fails if memory allocation
/// fails; `text` then ends with an unspecified part of them.
pub(crate) fn put_attribute_fields(attrs: &Attrs, text: &mut Text) -> Result<(), AllocError>
    ensures { Prints text.old text.new (bar ∷ line_from_fields (attribute_fields attrs.now))
        result }
{
    text.push(BAR)?;
    attrs.path.append_to(text)?;
    put_origin_field(attrs.origin, text)?;
    put_next_hop_field(attrs.next_hop, text)?;
    put_optional_u32_field(attrs.local_pref, text)?;
    put_optional_u32_field(attrs.med, text)?;
    put_community_field(&attrs.communities, text)?;
    put_atomic_field(attrs.atomic, text)?;
    put_aggregator_field(attrs.aggregator, text)?;
    let end = [BAR, b'\n'];
    text.extend_from_slice(&end)?;
    Ok(())
}
