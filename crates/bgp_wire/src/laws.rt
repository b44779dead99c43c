//! Theorems about the definitions that the contracts of this crate cite. The functions have no code
//! and nothing calls them: their `ensures` clauses are proved as the crate is checked.
//! `docs/proved.md` names them.

ghost use Rattle.std.specs.Prelude.{◌≡◌};
ghost use Rattle.ip_prefix.specs.declared.addr.Family.{Family};
ghost use Rattle.ip_prefix.specs.Sequences.{SpellsAll};
ghost use Rattle.ip_prefix.specs.Fronts.{IsUnambiguous};
ghost use Rattle.bgp_wire.specs.declared.as4.TheConstants.{AS_TRANS};
ghost use Rattle.bgp_wire.specs.declared.framing.TheConstants.{KINDS, EXTENDED_LENGTH, ORIGIN, AS_PATH, NEXT_HOP, MULTI_EXIT_DISC, LOCAL_PREF, ATOMIC_AGGREGATE, AGGREGATOR, COMMUNITIES, MP_REACH_NLRI, MP_UNREACH_NLRI, AS4_PATH, AS4_AGGREGATOR};
ghost use Rattle.bgp_wire.specs.declared.message.TheConstants.{UPDATE, HEADER_SIZE, MARKER_SIZE};
ghost use Rattle.bgp_wire.specs.declared.next_hop.TheConstants.{FAMILY_SIZE, LINK_LOCAL_SIZE};
ghost use Rattle.bgp_wire.specs.declared.reach.TheConstants.{AFI_IPV4, AFI_IPV6, SAFI_UNICAST};
ghost use Rattle.bgp_wire.specs.declared.values.TheConstants.{ORIGIN_IGP, ORIGIN_EGP, ORIGIN_INCOMPLETE};
ghost use Rattle.bgp_paths.specs.declared.numbers.AsWidth.{AsWidth};
ghost use Rattle.bgp_wire.specs.Attribute.{SpellsAttribute};
ghost use Rattle.bgp_wire.specs.Content.{SpellsRibAttrs};
ghost use Rattle.bgp_wire.specs.Update.{SpellsMessage, SpellsUpdate};

/// States that octets decode as at most one list of path attributes (RFC 4271, section 4.3), so
/// that there is one right result of parsing them.
pub fn law_octets_have_one_attribute_list()
    ensures { IsUnambiguous (SpellsAll SpellsAttribute) }
{}

/// States that octets decode as the path attributes of at most one RIB entry, for a given family of
/// its prefix and a given size of AS numbers (RFC 6396, section 4.3.4).
pub fn law_octets_have_one_rib_entry()
    ensures { (family : Family) (width : AsWidth) → IsUnambiguous (SpellsRibAttrs family width) }
{}

/// States that octets decode as at most one BGP message, and as at most one body of an UPDATE, for
/// a given size of AS numbers (RFC 4271, sections 4.1 and 4.3).
pub fn law_octets_have_one_message()
    ensures message { (width : AsWidth) → IsUnambiguous (SpellsMessage width) }
    ensures update { (width : AsWidth) → IsUnambiguous (SpellsUpdate width) }
{}

/// States the values of the constants that the theorems and contracts use by name: the Extended
/// Length flag and the types of path attributes (RFC 4271, section 4.3; RFC 1997; RFC 4760; RFC
/// 6793), the exclusive upper bound of the types that are parsed, AS_TRANS (RFC 6793, section 9),
/// the values of ORIGIN, the AFIs and the SAFI, the sizes of fields in octets, and the size of a
/// message's header and the type of UPDATE (RFC 4271, section 4.1).
pub fn law_bgp_constants()
    ensures extended_length { EXTENDED_LENGTH ≡ 16 }
    ensures kinds { KINDS ≡ 19 }
    ensures types { (ORIGIN ≡ 1) × (AS_PATH ≡ 2) × (NEXT_HOP ≡ 3) × (MULTI_EXIT_DISC ≡ 4)
        × (LOCAL_PREF ≡ 5) × (ATOMIC_AGGREGATE ≡ 6) × (AGGREGATOR ≡ 7) × (COMMUNITIES ≡ 8) }
    ensures reachability { (MP_REACH_NLRI ≡ 14) × (MP_UNREACH_NLRI ≡ 15) }
    ensures four_octets { (AS4_PATH ≡ 17) × (AS4_AGGREGATOR ≡ 18) × (AS_TRANS ≡ 23456) }
    ensures origins { (ORIGIN_IGP ≡ 0) × (ORIGIN_EGP ≡ 1) × (ORIGIN_INCOMPLETE ≡ 2) }
    ensures families { (AFI_IPV4 ≡ 1) × (AFI_IPV6 ≡ 2) × (SAFI_UNICAST ≡ 1) }
    ensures sizes { (FAMILY_SIZE ≡ 3) × (LINK_LOCAL_SIZE ≡ 16) }
    ensures messages { (MARKER_SIZE ≡ 16) × (HEADER_SIZE ≡ 19) × (UPDATE ≡ 2) }
{}
