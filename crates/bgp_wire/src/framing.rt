//! Splitting lists of path attributes into attributes: flags, a type, a length and a value each
//! (RFC 4271, section 4.3). The parser of lists (`attribute_list.rt`) calls [`split_attribute`];
//! read that function first.

ghost use Rattle.std.specs.Prelude.{◌≡◌, ℕ, ◌<◌, List, ◌++◌, IfSome, IfNone};
ghost use Rattle.ip_prefix.specs.Sequences.{Begins};
ghost use Rattle.ip_prefix.specs.Fronts.{BeginsWithNone};
ghost use Rattle.bgp_wire.specs.Attribute.{SpellsAttribute, is_extended, length_octets, length_limit};

use crate::lengths::{LENGTH_SIZE, read_length};

/// The bit of an attribute's flags that says that its length takes two octets (RFC 4271, section
/// 4.3).
pub const EXTENDED_LENGTH: u8 = 0x10;

/// The exclusive upper bound of the attribute types that are parsed: the greatest is 18,
/// AS4_AGGREGATOR. Attributes of this type and above are skipped, and a list may have several of
/// one such type.
pub(crate) const KINDS: usize = 19;

/// The number of the attribute type ORIGIN: how the origin AS learned of the route (RFC 4271,
/// sections 4.3 and 5.1.1).
pub const ORIGIN: u8 = 1;
/// The number of the attribute type AS_PATH: the ASes that the route has passed through (RFC 4271,
/// sections 4.3 and 5.1.2).
pub const AS_PATH: u8 = 2;
/// The number of the attribute type NEXT_HOP: the IPv4 address of the next hop (RFC 4271, sections
/// 4.3 and 5.1.3).
pub(crate) const NEXT_HOP: u8 = 3;
/// The number of the attribute type MULTI_EXIT_DISC: a metric of links between two ASes (RFC 4271,
/// sections 4.3 and 5.1.4).
pub(crate) const MULTI_EXIT_DISC: u8 = 4;
/// The number of the attribute type LOCAL_PREF: the degree of preference inside an AS (RFC 4271,
/// sections 4.3 and 5.1.5).
pub(crate) const LOCAL_PREF: u8 = 5;
/// The number of the attribute type ATOMIC_AGGREGATE, whose value is empty: an aggregate route may
/// lack ASes in its path (RFC 4271, sections 4.3 and 5.1.6).
pub(crate) const ATOMIC_AGGREGATE: u8 = 6;
/// The number of the attribute type AGGREGATOR: the speaker that formed an aggregate route (RFC
/// 4271, sections 4.3 and 5.1.7).
pub(crate) const AGGREGATOR: u8 = 7;
/// The number of the attribute type COMMUNITIES: 32-bit marks by which routes are grouped (RFC
/// 1997).
pub(crate) const COMMUNITIES: u8 = 8;
/// The number of the attribute type MP_REACH_NLRI: prefixes of any address family that are
/// announced, and their next hop (RFC 4760, section 3).
pub const MP_REACH_NLRI: u8 = 14;
/// The number of the attribute type MP_UNREACH_NLRI: prefixes of any address family that are
/// withdrawn (RFC 4760, section 4).
pub(crate) const MP_UNREACH_NLRI: u8 = 15;
/// The number of the attribute type AS4_PATH: the AS path with AS numbers of four octets, beside an
/// AS_PATH with two (RFC 6793, section 3).
pub(crate) const AS4_PATH: u8 = 17;
/// The number of the attribute type AS4_AGGREGATOR: the aggregator with an AS number of four
/// octets, beside an AGGREGATOR with two (RFC 6793, section 3).
pub(crate) const AS4_AGGREGATOR: u8 = 18;

/// A path attribute, split off the start of a slice: its value, its type (`kind`), and `rest`, the
/// octets after the attribute. Its flags are dropped.
#[derive(Clone, Copy)]
pub(crate) struct AttributeAndRest<'a> {
    /// The value of the attribute, which isn't parsed.
    pub(crate) value: &'a [u8],
    /// The octets after the attribute.
    pub(crate) rest: &'a [u8],
    /// The type of the attribute, by its number.
    pub(crate) kind: u8,
}

/// Splits the length of an attribute with these `flags` off the start of `octets`: two octets,
/// big-endian, if [`EXTENDED_LENGTH`] is set, or else one (RFC 4271, section 4.3). Returns the
/// length and the octets after it, or `None` if `octets` has too few for the length field.
fn split_length(flags: u8, octets: &[u8]) -> Option<(usize, &[u8])>
    ensures some { IfSome result (λ found. (found.0 < length_limit (is_extended flags))
        × (octets.now ≡ length_octets (is_extended flags) found.0 ++ found.1.now)) }
    ensures none { IfNone result ((n : ℕ) (rest : List ℕ) →
        octets.now ≡ length_octets (is_extended flags) n ++ rest → ⊥) }
{
    if flags & EXTENDED_LENGTH == 0 {
        let (&len, rest) = octets.split_first()?;
        return Some((usize::from(len), rest));
    }
    if octets.len() < LENGTH_SIZE {
        return None;
    }
    let (front, rest) = octets.split_at(LENGTH_SIZE);
    Some((read_length(front), rest))
}

/// Splits a path attribute off the start of `octets`: flags, type, length and value (RFC 4271,
/// section 4.3). The value isn't parsed. Returns `None` if `octets` ends before or inside the
/// attribute.
#[inline]
pub(crate) fn split_attribute(octets: &[u8]) -> Option<AttributeAndRest<'_>>
    ensures some { IfSome result (λ f. (flags : ℕ) × Begins SpellsAttribute
        record { flags = flags; kind = f.kind; value = f.value.now } f.rest.now octets.now) }
    ensures none { IfNone result (BeginsWithNone SpellsAttribute octets.now) }
{
    let (&flags, after_flags) = octets.split_first()?;
    let (&kind, after_kind) = after_flags.split_first()?;
    let (len, body) = split_length(flags, after_kind)?;
    let (value, rest) = body.split_at_checked(len)?;
    Some(AttributeAndRest { value, rest, kind })
}
