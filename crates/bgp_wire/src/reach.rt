//! Parsers of MP_REACH_NLRI and MP_UNREACH_NLRI in UPDATEs (RFC 4760, sections 3 and 4). The parser
//! of UPDATEs calls [`fill_mp_reach`] and [`fill_mp_unreach`]. Read [`AfiSafi`] first.

ghost use Rattle.std.specs.Prelude.{◌≡◌, ℕ, List, Option, IfSome, IfNone, IfErr, OnOk};
ghost use Rattle.ip_prefix.specs.Network.{Address};
ghost use Rattle.bgp_wire.specs.PlainValues.{lent_octets};
ghost use Rattle.bgp_wire.specs.Reach.{BeginsWithHop, Reach, SpellsMpReach, SpellsMpUnreach, reach_hop, reach_prefixes};
ghost use Rattle.bgp_wire.specs.Parts.{IsAfiSafiOf};
ghost use Rattle.bgp_paths.specs.Readers.{Refuses};

use crate::next_hop::{FAMILY_SIZE, read_next_hop};
use crate::prefixes::{Prefixes, fill_prefixes};
use bgp_paths::WireFault;
use ip_prefix::{Addr, Family};

/// The AFI of IPv4, which is sent in two octets (RFC 4760, section 3).
const AFI_IPV4: u8 = 1;
/// The AFI of IPv6, which is sent in two octets (RFC 4760, section 3).
const AFI_IPV6: u8 = 2;
/// The SAFI of prefixes for unicast forwarding (RFC 4760, section 6).
const SAFI_UNICAST: u8 = 1;

/// The AFI and the SAFI at the start of the value of MP_REACH_NLRI or MP_UNREACH_NLRI (RFC 4760,
/// sections 3 and 4): IPv4 or IPv6 unicast, with the octets after the SAFI, or any others, whose
/// prefixes aren't parsed.
#[derive(Clone, Copy)]
enum AfiSafi<'a> {
    /// Unicast of IPv4 or IPv6, and the octets of the value after the SAFI.
    Unicast(Family, &'a [u8]),
    /// Another AFI, or another SAFI. The rest of the value isn't parsed.
    Another,
}

/// Parses the AFI, of two octets, big-endian, and the SAFI, of one, at the start of `octets` (RFC
/// 4760, sections 3 and 4). For IPv4 or IPv6 unicast, returns the family and the octets after the
/// SAFI, and for all others [`AfiSafi::Another`]. Returns `None` if `octets` has fewer than three
/// octets.
fn read_afi_safi(octets: &[u8]) -> Option<AfiSafi<'_>>
    ensures { IsAfiSafiOf octets.now result }
{
    let (front, rest) = octets.split_at_checked(FAMILY_SIZE)?;
    match front {
        [0, AFI_IPV4, SAFI_UNICAST] => Some(AfiSafi::Unicast(Family::V4, rest)),
        [0, AFI_IPV6, SAFI_UNICAST] => Some(AfiSafi::Unicast(Family::V6, rest)),
        _ => Some(AfiSafi::Another),
    }
}

/// A next hop, split off the value of MP_REACH_NLRI, and the octets after the reserved octet that
/// follows it (RFC 4760, section 3).
#[derive(Clone, Copy)]
struct NextHopAndRest<'a> {
    /// The next hop; a link-local address after it is dropped.
    hop: Addr,
    /// The octets after the reserved octet: the prefixes.
    rest: &'a [u8],
}

/// Splits the next hop of MP_REACH_NLRI off the start of `octets`: one octet with the length of the
/// address, the address, and a reserved octet, which is ignored (RFC 4760, section 3). If the
/// length is 32, the last 16 octets are a link-local address, which is ignored too (RFC 2545,
/// section 3). Returns `None` if `octets` ends before the reserved octet, or if the length isn't 4,
/// 16 or 32.
fn split_next_hop(octets: &[u8]) -> Option<NextHopAndRest<'_>>
    ensures some { IfSome result (λ f. BeginsWithHop f.hop f.rest.now octets.now) }
    ensures none { IfNone result ((hop : Address) (rest : List ℕ) →
        BeginsWithHop hop rest octets.now → ⊥) }
{
    let (&len, after_len) = octets.split_first()?;
    let size = usize::from(len);
    if after_len.len() <= size {
        return None;
    }
    let (front, after_hop) = after_len.split_at(size);
    let hop = read_next_hop(front)?;
    let (_, rest) = after_hop.split_at(1);
    Some(NextHopAndRest { hop, rest })
}

/// Parses `value`, the value of MP_REACH_NLRI in an UPDATE (RFC 4760, section 3), and replaces
/// `next_hop` and `prefixes` with its own. If the attribute is absent (`value` is `None`), or isn't
/// of IPv4 or IPv6 unicast, `next_hop` becomes `None` and `prefixes` empty. Fails with `Malformed`
/// if the value is malformed, and with `Memory` if memory allocation fails; `next_hop` and
/// `prefixes` are then unspecified.
pub(crate) fn fill_mp_reach(
    next_hop: &mut Option<Addr>,
    prefixes: &mut Prefixes,
    value: Option<&[u8]>,
) -> Result<(), WireFault>
    ensures filled { OnOk result ((reach : Option Reach) ×
        SpellsMpReach reach (lent_octets value.entry)
        × (next_hop.new ≡ reach_hop reach) × (prefixes.new ≡ reach_prefixes reach)) }
    ensures refused { IfErr result (Refuses SpellsMpReach (lent_octets value.entry)) }
{
    *next_hop = None;
    prefixes.items.clear();
    let Some(octets) = value else {
        return Ok(());
    };
    match read_afi_safi(octets).ok_or(WireFault::Malformed)? {
        AfiSafi::Another => Ok(()),
        AfiSafi::Unicast(family, rest) => {
            let Some(framed) = split_next_hop(rest) else {
                return Err(WireFault::Malformed);
            };
            fill_prefixes(prefixes, family, framed.rest)?;
            *next_hop = Some(framed.hop);
            Ok(())
        }
    }
}

/// Parses `value`, the value of MP_UNREACH_NLRI in an UPDATE (RFC 4760, section 4), and replaces
/// `prefixes` with its own. If the attribute is absent (`value` is `None`), or isn't of IPv4 or
/// IPv6 unicast, `prefixes` becomes empty. Fails with `Malformed` if the value is malformed, and
/// with `Memory` if memory allocation fails; `prefixes` is then unspecified.
pub(crate) fn fill_mp_unreach(
    prefixes: &mut Prefixes,
    value: Option<&[u8]>,
) -> Result<(), WireFault>
    ensures filled { OnOk result (SpellsMpUnreach prefixes.new (lent_octets value.entry)) }
    ensures refused { IfErr result (Refuses SpellsMpUnreach (lent_octets value.entry)) }
{
    prefixes.items.clear();
    let Some(octets) = value else {
        return Ok(());
    };
    match read_afi_safi(octets).ok_or(WireFault::Malformed)? {
        AfiSafi::Another => Ok(()),
        AfiSafi::Unicast(family, rest) => fill_prefixes(prefixes, family, rest),
    }
}
