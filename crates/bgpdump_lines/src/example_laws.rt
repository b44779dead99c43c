//! Theorems that evaluate the definitions of a dump on records of each kind: into which frames
//! given octets split, and which lines and reports these have. `specs/Examples.antt` has the
//! octets, field by field, and the frames. The functions have no code and nothing calls them: what
//! they state is proved as the crate is checked. Read [`law_example_state_change`] first.

ghost use Rattle.std.specs.Prelude.{◌≡◌, [], ◌∷◌, None, codes};
ghost use Rattle.mrt_events.specs.declared.stamp.Stamp.{Stamp};
ghost use Rattle.mrt_events.specs.declared.stamp.Stamp.TheVariants.{Dump, Change};
ghost use Rattle.mrt_wire.specs.Results.{Splits};
ghost use Rattle.bgpdump_lines.specs.Examples.{state_change_octets, state_change_frame, timed_state_change_octets, timed_state_change_frame, message_octets, message_frame, message_lines, table_octets, table_frames, table_dump_octets, table_dump_frame, as4_table_dump_octets, as4_table_dump_frame, as4_table_dump_line, cut_octets, faulty_input, faulty_frames, faulty_reports, too_long_octets, only_lines, only_reports};
ghost use Rattle.bgpdump_lines.specs.Ipv6Example.{ipv6_message_octets, ipv6_message_frame, ipv6_message_lines};
ghost use Rattle.bgpdump_lines.specs.Run.{all_results, dump_texts};

/// States the line printed for an example, a BGP4MP_STATE_CHANGE record with a change from
/// Established to Idle: `BGP4MP|100|STATE|192.0.2.1|64500|6|1`. Its octets are one whole record,
/// and no fault is reported. A theorem: the function has no code.
pub fn law_example_state_change()
    ensures split { (stamp : Stamp) →
        Splits stamp None state_change_octets (state_change_frame ∷ []) [] }
    ensures texts { (stamp : Stamp) → dump_texts (all_results stamp (state_change_frame ∷ []) [])
        ≡ only_lines (codes "BGP4MP|100|STATE|192.0.2.1|64500|6|1\n") }
{}

/// States the line printed for an example, a state change in a record of type BGP4MP_ET, with 5
/// microseconds in its time: `BGP4MP_ET|100.000005|STATE|192.0.2.1|64500|6|1`. Its octets are one
/// whole record, and no fault is reported. A theorem: the function has no code.
pub fn law_example_microseconds()
    ensures split { (stamp : Stamp) →
        Splits stamp None timed_state_change_octets (timed_state_change_frame ∷ []) [] }
    ensures texts { (stamp : Stamp) →
        dump_texts (all_results stamp (timed_state_change_frame ∷ []) [])
        ≡ only_lines (codes "BGP4MP_ET|100.000005|STATE|192.0.2.1|64500|6|1\n") }
{}

/// States the lines printed for an example, a BGP4MP_MESSAGE record with an UPDATE: first one for
/// the withdrawal of 198.51.100.0/24, then one for the announcement of 10.0.0.0/8. Its octets are
/// one whole record, and no fault is reported. A theorem: the function has no code.
pub fn law_example_update()
    ensures split { (stamp : Stamp) → Splits stamp None message_octets (message_frame ∷ []) [] }
    ensures texts { (stamp : Stamp) → dump_texts (all_results stamp (message_frame ∷ []) [])
        ≡ only_lines message_lines }
{}

/// States the lines printed for an example, a BGP4MP_MESSAGE_AS4 record with an UPDATE: first one
/// for the withdrawal of 2001:db9::/32, then one for the announcement of 2001:db8::/32. The UPDATE
/// has all attributes that are read, except NEXT_HOP, AS4_PATH and AS4_AGGREGATOR. Its octets are
/// one whole record, and no fault is reported. A theorem: the function has no code.
pub fn law_example_ipv6_update()
    ensures split { (stamp : Stamp) →
        Splits stamp None ipv6_message_octets (ipv6_message_frame ∷ []) [] }
    ensures texts { (stamp : Stamp) → dump_texts (all_results stamp (ipv6_message_frame ∷ []) [])
        ≡ only_lines ipv6_message_lines }
{}

/// States the line printed for an example, a PEER_INDEX_TABLE record and then a RIB_IPV4_UNICAST
/// record with one entry. The line's time is 200, the time of the record, for `Stamp::Dump`, or 50,
/// the Originated Time of the entry, for `Stamp::Change`. The octets are two whole records, and no
/// fault is reported. A theorem: the function has no code.
pub fn law_example_table()
    ensures split { (stamp : Stamp) → Splits stamp None table_octets (table_frames stamp) [] }
    ensures dump { dump_texts (all_results Dump (table_frames Dump) []) ≡ only_lines
        (codes "TABLE_DUMP2|200|B|192.0.2.1|64500|10.0.0.0/8|64500|IGP|192.0.2.9|0|0||NAG||\n") }
    ensures change { dump_texts (all_results Change (table_frames Change) []) ≡ only_lines
        (codes "TABLE_DUMP2|50|B|192.0.2.1|64500|10.0.0.0/8|64500|IGP|192.0.2.9|0|0||NAG||\n") }
{}

/// States the line printed for an example, a TABLE_DUMP record for 10.0.0.0/8. The line's time is
/// 200, the time of the record, for `Stamp::Dump`, or 50, the Originated Time, for `Stamp::Change`.
/// Its octets are one whole record, and no fault is reported. A theorem: the function has no code.
pub fn law_example_old_table()
    ensures split { (stamp : Stamp) →
        Splits stamp None table_dump_octets (table_dump_frame stamp ∷ []) [] }
    ensures dump { dump_texts (all_results Dump (table_dump_frame Dump ∷ []) []) ≡ only_lines
        (codes "TABLE_DUMP|200|B|192.0.2.1|64500|10.0.0.0/8|64500|IGP|192.0.2.9|0|0||NAG||\n") }
    ensures change { dump_texts (all_results Change (table_dump_frame Change ∷ []) []) ≡ only_lines
        (codes "TABLE_DUMP|50|B|192.0.2.1|64500|10.0.0.0/8|64500|IGP|192.0.2.9|0|0||NAG||\n") }
{}

/// States the line printed for an example, a TABLE_DUMP record with AS4_PATH and AS4_AGGREGATOR
/// (RFC 6793). For `Stamp::Dump`, the line has the time of the record, the path
/// `64500 4200000001 64501`, which is joined from AS_PATH and AS4_PATH, and the aggregator of
/// AS4_AGGREGATOR. Its octets are one whole record, and no fault is reported. A theorem: the
/// function has no code.
pub fn law_example_as4_path()
    ensures split { (stamp : Stamp) →
        Splits stamp None as4_table_dump_octets (as4_table_dump_frame stamp ∷ []) [] }
    ensures dump { dump_texts (all_results Dump (as4_table_dump_frame Dump ∷ []) [])
        ≡ only_lines as4_table_dump_line }
{}

/// States the report printed for an example, a BGP4MP_STATE_CHANGE record without its last octet:
/// `bgpdump: record 1, byte 0: cut record`. Its octets are no whole record, and no line is printed.
/// A theorem: the function has no code.
pub fn law_example_cut_record()
    ensures split { (stamp : Stamp) → Splits stamp None cut_octets [] cut_octets }
    ensures texts { (stamp : Stamp) → dump_texts (all_results stamp [] cut_octets)
        ≡ only_reports (codes "bgpdump: record 1, byte 0: cut record\n") }
{}

/// States the report printed for an example, a record header with the length 16,777,217, one more
/// than is accepted: `bgpdump: record 1, byte 0: length 16777217 too long`. Its octets are no whole
/// record, and no line is printed. A theorem: the function has no code.
pub fn law_example_too_long()
    ensures split { (stamp : Stamp) → Splits stamp None too_long_octets [] too_long_octets }
    ensures texts { (stamp : Stamp) → dump_texts (all_results stamp [] too_long_octets)
        ≡ only_reports (codes "bgpdump: record 1, byte 0: length 16777217 too long\n") }
{}

/// States what is printed for an example of seven records, most of them faulty: one line and five
/// reports. The records are, in order: one of an unsupported type, a state change with an empty
/// body, a RIB_IPV4_UNICAST before any PEER_INDEX_TABLE, a state change without a fault, which has
/// the line, a PEER_INDEX_TABLE without peers, a RIB_IPV4_UNICAST with the index of a peer that
/// this table doesn't have, and a state change without its last octet. Their octets are six whole
/// records and an incomplete one. A theorem: the function has no code.
pub fn law_example_faulty_records()
    ensures split { (stamp : Stamp) → Splits stamp None faulty_input faulty_frames cut_octets }
    ensures texts { (stamp : Stamp) → dump_texts (all_results stamp faulty_frames cut_octets)
        ≡ record { out = codes "BGP4MP|100|STATE|192.0.2.1|64500|6|1\n"; err = faulty_reports } }
{}
