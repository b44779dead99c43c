//! The MRT types and subtypes that are supported, and the format of the body of each (RFC 6396,
//! section 4). `FrameReader::take_record` asks [`SupportedTypes`] for the format of each record,
//! and `decode_record` matches on it. Read [`BodyFormat`] first.

ghost use Rattle.std.specs.Prelude.{◌≡◌};
ghost use Rattle.mrt_wire.specs.RecordTypes.{body_format, session_format};

use bgp_wire::AsWidth;
use ip_prefix::Family;
use mrt_frames::RecordTypes;

/// The MRT type of TABLE_DUMP records, each of one table entry (RFC 6396, section 4.2). Their
/// subtypes are address family numbers.
const TABLE_DUMP: u16 = 12;

/// The subtype of TABLE_DUMP records of an IPv4 prefix (RFC 6396, section 4.2).
const AFI_IPV4: u16 = 1;

/// The subtype of TABLE_DUMP records of an IPv6 prefix (RFC 6396, section 4.2).
const AFI_IPV6: u16 = 2;

/// The MRT type of TABLE_DUMP_V2 records (RFC 6396, section 4.3).
const TABLE_DUMP_V2: u16 = 13;

/// The subtype of TABLE_DUMP_V2 records that list the peers of a table (RFC 6396, section 4.3.1).
const PEER_INDEX_TABLE: u16 = 1;

/// The subtype of TABLE_DUMP_V2 records of all entries of a table for one IPv4 prefix (RFC 6396,
/// section 4.3.2).
const RIB_IPV4_UNICAST: u16 = 2;

/// The subtype of TABLE_DUMP_V2 records of all entries of a table for one IPv6 prefix (RFC 6396,
/// section 4.3.2).
const RIB_IPV6_UNICAST: u16 = 4;

/// The MRT type of BGP4MP records, of state changes and messages of BGP sessions (RFC 6396, section
/// 4.4).
const BGP4MP: u16 = 16;

/// The MRT type of records that are as BGP4MP records, but whose bodies begin with microseconds
/// (RFC 6396, section 3).
const BGP4MP_ET: u16 = 17;

/// The subtype of BGP4MP records of a state change of a session, with AS numbers of two octets (RFC
/// 6396, section 4.4.1).
const BGP4MP_STATE_CHANGE: u16 = 0;

/// The subtype of BGP4MP records of a BGP message, with AS numbers of two octets (RFC 6396, section
/// 4.4.2).
const BGP4MP_MESSAGE: u16 = 1;

/// The subtype of BGP4MP records of a BGP message, with AS numbers of four octets (RFC 6396,
/// section 4.4.3).
const BGP4MP_MESSAGE_AS4: u16 = 4;

/// The subtype of BGP4MP records of a state change of a session, with AS numbers of four octets
/// (RFC 6396, section 4.4.4).
const BGP4MP_STATE_CHANGE_AS4: u16 = 5;

/// What a BGP4MP record reports of a BGP session: a state change or a message.
#[derive(Clone, Copy)]
pub(crate) enum Bgp4mpRecordKind {
    /// A state change (RFC 6396, sections 4.4.1 and 4.4.4).
    StateChange,
    /// A BGP message from the peer (RFC 6396, sections 4.4.2 and 4.4.3).
    Message,
}

/// The format of the body of a BGP4MP or BGP4MP_ET record, which its type and subtype determine.
#[derive(Clone, Copy)]
pub(crate) struct Bgp4mpFormat {
    /// What the record reports: a state change or a BGP message.
    pub(crate) kind: Bgp4mpRecordKind,
    /// The width of AS numbers, two or four octets, both in the session fields and in the paths of
    /// an UPDATE.
    pub(crate) width: AsWidth,
    /// Whether the body begins with microseconds, as those of BGP4MP_ET do (RFC 6396, section 3).
    pub(crate) timed: bool,
}

/// The format of the body of a record of a supported type and subtype, by which its parser is
/// selected.
#[derive(Clone, Copy)]
pub(crate) enum BodyFormat {
    /// One peer and its route to a prefix of this family: TABLE_DUMP (RFC 6396, section 4.2).
    Entry(Family),
    /// The peers of a table: PEER_INDEX_TABLE (RFC 6396, section 4.3.1).
    Peers,
    /// The entries of a table for one prefix of this family: RIB_IPV4_UNICAST or RIB_IPV6_UNICAST
    /// (RFC 6396, section 4.3.2).
    Entries(Family),
    /// A state change or a message of a session: BGP4MP or BGP4MP_ET (RFC 6396, section 4.4).
    Session(Bgp4mpFormat),
}

/// The supported MRT types and subtypes, each with the [`BodyFormat`] of its bodies. The reader of
/// record headers gets them through [`RecordTypes`], and skips records of other types.
pub(crate) struct SupportedTypes;

impl RecordTypes for SupportedTypes {
    type BodyFormat = BodyFormat;

    ghost format_at = { λ _ kind subtype. body_format kind subtype };

    fn body_format(&self, kind: u16, subtype: u16) -> Option<BodyFormat> {
        match (kind, subtype) {
            (TABLE_DUMP, AFI_IPV4) => Some(BodyFormat::Entry(Family::V4)),
            (TABLE_DUMP, AFI_IPV6) => Some(BodyFormat::Entry(Family::V6)),
            (TABLE_DUMP_V2, PEER_INDEX_TABLE) => Some(BodyFormat::Peers),
            (TABLE_DUMP_V2, RIB_IPV4_UNICAST) => Some(BodyFormat::Entries(Family::V4)),
            (TABLE_DUMP_V2, RIB_IPV6_UNICAST) => Some(BodyFormat::Entries(Family::V6)),
            (BGP4MP, _) => session_format(false, subtype),
            (BGP4MP_ET, _) => session_format(true, subtype),
            _ => None,
        }
    }
}

/// Returns the format of the body of a BGP4MP or BGP4MP_ET record of the subtype `subtype`, or
/// `None` if the subtype isn't supported. `timed` is `true` for BGP4MP_ET, whose bodies begin with
/// microseconds (RFC 6396, section 3).
fn session_format(timed: bool, subtype: u16) -> Option<BodyFormat>
    ensures { result ≡ session_format timed subtype }
{
    let (kind, width) = match subtype {
        BGP4MP_STATE_CHANGE => (Bgp4mpRecordKind::StateChange, AsWidth::Two),
        BGP4MP_MESSAGE => (Bgp4mpRecordKind::Message, AsWidth::Two),
        BGP4MP_MESSAGE_AS4 => (Bgp4mpRecordKind::Message, AsWidth::Four),
        BGP4MP_STATE_CHANGE_AS4 => (Bgp4mpRecordKind::StateChange, AsWidth::Four),
        _ => return None,
    };
    Some(BodyFormat::Session(Bgp4mpFormat { kind, width, timed }))
}
