//! Theorems about the definitions that the contracts of this crate cite. The functions have no code
//! and nothing calls them: what they state is proved as the crate is checked. `docs/proved.md`
//! names them. Read [`law_input_splits_in_one_way`] first.

ghost use Rattle.std.specs.Prelude.{◌≡◌, ℕ, List};
ghost use Rattle.mrt_events.specs.declared.stamp.Stamp.{Stamp};
ghost use Rattle.mrt_frames.specs.declared.header.TheConstants.{HEADER_SIZE, LONGEST_BODY};
ghost use Rattle.mrt_wire.specs.declared.peer_index.TheConstants.{ID_SIZE, IPV6_PEER, AS4_PEER};
ghost use Rattle.mrt_wire.specs.declared.record_types.TheConstants.{TABLE_DUMP, AFI_IPV4, AFI_IPV6, TABLE_DUMP_V2, BGP4MP, BGP4MP_ET, PEER_INDEX_TABLE, RIB_IPV4_UNICAST, RIB_IPV6_UNICAST, BGP4MP_STATE_CHANGE, BGP4MP_MESSAGE, BGP4MP_MESSAGE_AS4, BGP4MP_STATE_CHANGE_AS4};
ghost use Rattle.mrt_wire.specs.declared.rib.TheConstants.{SEQUENCE_SIZE};
ghost use Rattle.mrt_wire.specs.declared.session.TheConstants.{INTERFACE_SIZE, MICROS_PER_SECOND};
ghost use Rattle.mrt_wire.specs.declared.table_dump.TheConstants.{NUMBERS_SIZE, STATUS_SIZE};
ghost use Rattle.mrt_wire.specs.Content.{Content, IsBody};
ghost use Rattle.mrt_wire.specs.Results.{Frame, PeerTable, Splits};
ghost use Rattle.mrt_frames.specs.Taken.{IsOctets};
ghost use Rattle.mrt_wire.specs.Answered.{SplitsOneWay};

/// States that the body of a record of a given type and subtype can be parsed in at most one way:
/// what it holds (a routing table entry, the peers or entries of a table, or a BGP message or state
/// change) is determined by its octets.
pub fn law_octets_have_one_record_content()
    ensures { (kind subtype : ℕ) (body : List ℕ) (a b : Content) →
        IsBody kind subtype a body → IsBody kind subtype b body → a ≡ b }
{}

/// States that every input can be split into whole records, each with its event or the fault for
/// which it has none, and a rest, the octets after the last whole record. It is stated as a double
/// negation (there is no input without such a split), since it constructs none.
pub fn law_input_splits_into_records()
    ensures { (stamp : Stamp) (index : PeerTable) (octets : List ℕ) → IsOctets octets →
        ((frames : List Frame) (rest : List ℕ) → Splits stamp index octets frames rest → ⊥) → ⊥ }
{}

/// States that an input can be split in at most one way into whole records, each with its event or
/// the fault for which it has none, and a rest, the octets after the last whole record. So what a
/// reader is to return is determined by three things: the octets of the input, the peer index table
/// known before it, and whether routes of tables get the timestamp of the record or the Originated
/// Time of the entry.
pub fn law_input_splits_in_one_way()
    ensures { (stamp : Stamp) (index : PeerTable) (octets : List ℕ) →
        SplitsOneWay stamp index octets }
{}

/// States the values of the constants that the theorems and contracts use by name: MRT types and
/// subtypes, bits of a Peer Type, the sizes of fields in octets (RFC 6396, sections 2 to 4), the
/// greatest length of a body that is read, in octets, and the number of microseconds in a second.
pub fn law_mrt_constants()
    ensures sizes { (HEADER_SIZE ≡ 12) × (LONGEST_BODY ≡ 16777216) }
    ensures types { (TABLE_DUMP ≡ 12) × (TABLE_DUMP_V2 ≡ 13) × (BGP4MP ≡ 16)
        × (BGP4MP_ET ≡ 17) }
    ensures entry_subtypes { (AFI_IPV4 ≡ 1) × (AFI_IPV6 ≡ 2) }
    ensures table_subtypes { (PEER_INDEX_TABLE ≡ 1) × (RIB_IPV4_UNICAST ≡ 2)
        × (RIB_IPV6_UNICAST ≡ 4) }
    ensures session_subtypes { (BGP4MP_STATE_CHANGE ≡ 0) × (BGP4MP_MESSAGE ≡ 1)
        × (BGP4MP_MESSAGE_AS4 ≡ 4) × (BGP4MP_STATE_CHANGE_AS4 ≡ 5) }
    ensures peer_types { (IPV6_PEER ≡ 1) × (AS4_PEER ≡ 2) }
    ensures fields { (ID_SIZE ≡ 4) × (SEQUENCE_SIZE ≡ 4) × (INTERFACE_SIZE ≡ 2)
        × (NUMBERS_SIZE ≡ 4) × (STATUS_SIZE ≡ 1) }
    ensures microseconds { MICROS_PER_SECOND ≡ 1000000 }
{}
