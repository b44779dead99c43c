//! Parsers of the next hop in MP_REACH_NLRI (RFC 4760, section 3; RFC 2545, section 3). The parser
//! of RIB entries calls [`choose_rib_next_hop`], and the parser of UPDATEs [`read_next_hop`]; read
//! that function first.

ghost use Rattle.std.specs.Prelude.{◌≡◌, if◌then◌else◌, Option, Some, length, OnOk, OnErr};
ghost use Rattle.ip_prefix.specs.Network.{Address};
ghost use Rattle.bgp_wire.specs.PlainValues.{lent_octets};
ghost use Rattle.bgp_wire.specs.Attribute.{SpellsOptional};
ghost use Rattle.bgp_wire.specs.Reach.{SpellsNextHop, SpellsSizedHop, SpellsRibHopInEitherForm, rib_hop};
ghost use Rattle.bgp_paths.specs.Path.{IsNoSpelling};
ghost use Rattle.bgp_paths.specs.Readers.{ParsesTo};

use crate::ill_formed::IllFormed;
use crate::values::{IPV4_SIZE, ipv4_addr};
use ip_prefix::{Addr, Family};

/// The size of an AFI and a SAFI together, in octets: two and one (RFC 4760, section 3).
pub(crate) const FAMILY_SIZE: usize = 3;

/// The size of an IPv6 address, and of a next hop that is one, in octets (RFC 4291, section 2).
const IPV6_SIZE: usize = 16;

/// The size of the link-local address after an IPv6 next hop, in octets (RFC 2545, section 3).
const LINK_LOCAL_SIZE: usize = 16;

/// The size of an IPv6 next hop with a link-local address after it, in octets (RFC 2545, section
/// 3).
const BOTH_SIZE: usize = 32;

/// Parses `octets` as a next hop without its length (RFC 4760, section 3; RFC 2545, section 3): 4
/// octets are an IPv4 address, 16 an IPv6 address, and 32 an IPv6 address and a link-local one,
/// which is ignored. Returns `None` if `octets` has another length.
pub(crate) fn read_next_hop(octets: &[u8]) -> Option<Addr>
    ensures { ParsesTo SpellsNextHop octets.now result }
{
    match octets.len() {
        IPV4_SIZE => Some(ipv4_addr(octets)),
        IPV6_SIZE | BOTH_SIZE => {
            let mut address = [0; IPV6_SIZE];
            address.copy_from_slice(&octets[..IPV6_SIZE]);
            Some(Addr::v6(address))
        }
        _ => None,
    }
}

/// Parses the next hop at the start of `octets`: its length in octets, of one octet, and then the
/// address. If the length is 32, the last 16 octets are a link-local address, which is ignored (RFC
/// 2545, section 3). Octets after the next hop are ignored too. Returns `None` if `octets` ends
/// before or inside the next hop, or if the length isn't 4, 16 or 32.
fn read_length_prefixed_next_hop(octets: &[u8]) -> Option<Addr>
    ensures { ParsesTo SpellsSizedHop octets.now result }
{
    let (&len, rest) = octets.split_first()?;
    let (hop, _) = rest.split_at_checked(usize::from(len))?;
    read_next_hop(hop)
}

/// Parses the next hop in `octets`, the value of MP_REACH_NLRI of a RIB entry. The value has the
/// length and the next hop alone, or is as in an UPDATE, where an AFI and a SAFI come first (RFC
/// 6396, section 4.3.4). Octets after the next hop are ignored. Returns `None` if `octets` has
/// neither format.
fn read_rib_next_hop(octets: &[u8]) -> Option<Addr>
    ensures { ParsesTo SpellsRibHopInEitherForm octets.now result }
{
    // No next hop has a length of 0, so a first octet of 0 is the first of an address family, and
    // the form is the full one.
    let (&first, _) = octets.split_first()?;
    if first != 0 {
        return read_length_prefixed_next_hop(octets);
    }
    let (_, rest) = octets.split_at_checked(FAMILY_SIZE)?;
    read_length_prefixed_next_hop(rest)
}

/// Chooses the next hop of a RIB entry for a prefix of `family` (RFC 6396, section 4.3.4). On
/// entry, `hop` is the value of NEXT_HOP, and `mp_reach` is the value of MP_REACH_NLRI, each `None`
/// if absent. If the family is IPv6 or `hop` is `None`, `hop` becomes the next hop in `mp_reach`;
/// otherwise, or if `mp_reach` is `None`, it is unchanged. Fails if `mp_reach` is malformed, even
/// if its next hop isn't needed; `hop` is then unchanged.
#[inline(always)]
pub(crate) fn choose_rib_next_hop(
    family: Family,
    hop: &mut Option<Addr>,
    mp_reach: Option<&[u8]>,
) -> Result<(), IllFormed>
    ensures filled { OnOk result ((reached : Option Address)
        × SpellsOptional SpellsRibHopInEitherForm reached (lent_octets mp_reach.entry)
        × (hop.new ≡ rib_hop family hop.old reached)) }
    ensures refused { OnErr result
        (IsNoSpelling (SpellsOptional SpellsRibHopInEitherForm) (lent_octets mp_reach.entry)) }
    ensures kept { OnErr result (hop.new ≡ hop.old) }
{
    let Some(octets) = mp_reach else {
        return Ok(());
    };
    let Some(reached) = read_rib_next_hop(octets) else {
        return Err(IllFormed);
    };
    if family == Family::V6 || hop.is_none() {
        *hop = Some(reached);
    }
    Ok(())
}
