//! Parsing one MRT record into its event, or finding its fault. [`Source`](crate::Source) calls
//! [`decode_record`] for each record whose type and subtype are supported (`record_types.rt`). Read
//! that first; it calls the parser of each record type.

ghost use Rattle.std.specs.Prelude.{◌≡◌};
ghost use Rattle.mrt_wire.specs.declared.decoding.DecodeError.TheVariants.{Memory};
ghost use Rattle.mrt_frames.specs.Taken.{record_with_header};
ghost use Rattle.mrt_wire.specs.RecordTypes.{HasBodyFormat};
ghost use Rattle.mrt_wire.specs.Results.{peers_in, entries_fault, session_tag};
ghost use Rattle.mrt_wire.specs.Decoding.{Decodes, body_error};

use crate::peer_index::read_peer_index;
use crate::peers::Peers;
use crate::pool::Pool;
use crate::record_types::BodyFormat;
use crate::rib::{TableContext, read_rib};
use crate::session::read_session;
use crate::table_dump::{TimeChoice, read_table_dump};
use bgp_wire::WireFault;
use mrt_events::{Event, Items, Peer, Stamp, Tag, Time};
use mrt_frames::{Header, RecordKind};
use std::alloc::{AllocError, Global};

/// The reason why a record yields no event: a fault of the record, or a lack of memory.
#[derive(Clone, Copy)]
pub(crate) enum DecodeError {
    /// The record has this fault, which the source reports before it reads on.
    Fault(RecordKind),
    /// Memory allocation failed, which makes the source fail.
    Memory,
}

impl From<AllocError> for DecodeError {
    ghost from_gives = { λ _ refusal. refusal ≡ Memory };

    fn from(_: AllocError) -> DecodeError {
        DecodeError::Memory
    }
}

impl From<WireFault> for DecodeError {
    ghost from_gives = { λ fault refusal. refusal ≡ body_error fault };

    fn from(fault: WireFault) -> DecodeError {
        match fault {
            WireFault::Malformed => DecodeError::Fault(RecordKind::Malformed),
            WireFault::Memory => DecodeError::Memory,
        }
    }
}

/// A record of a supported type and subtype, whose body isn't parsed yet.
#[derive(Clone, Copy)]
pub(crate) struct RawRecord<'a> {
    /// The format of the body, by the type and subtype of the record.
    pub(crate) form: BodyFormat,
    /// The parsed MRT common header: timestamp, type, subtype and length (RFC 6396, section 2).
    pub(crate) header: Header,
    /// The octets after the header, as many as the header states.
    pub(crate) body: &'a [u8],
}

/// Returns the peers of the peer index table `index`, each at the position of its peer index.
/// Returns an empty slice if `index` is `None`, as no table was accepted yet.
fn peers_in(index: &Option<Peers>) -> &[Peer]
    ensures { result.now ≡ peers_in index.now }
{
    match index {
        Some(peers) => peers.as_slice(),
        None => &[],
    }
}

/// Returns the fault of a RIB record whose entries refer to peers that aren't known, or `None` if
/// it has none. `index` is the last peer index table, or `None` if none was accepted before the
/// record, for which the fault is `NoIndex`. `unknown` is the first peer index among the entries
/// that isn't in the table, for which the fault is `PeerIndex`, or `None` if all are in it.
fn entries_fault(index: &Option<Peers>, unknown: Option<u16>) -> Option<RecordKind>
    ensures { result ≡ entries_fault index.now unknown }
{
    if index.is_none() {
        return Some(RecordKind::NoIndex);
    }
    let number = unknown?;
    Some(RecordKind::PeerIndex(number))
}

/// Returns the tag (the record type that an event states) of a BGP4MP or BGP4MP_ET record:
/// `Bgp4mpEt` if it has microseconds (RFC 6396, section 3), or `Bgp4mp` if `micros` is `None`.
fn session_tag(micros: Option<u32>) -> Tag
    ensures { result ≡ session_tag micros }
{
    match micros {
        None => Tag::Bgp4mp,
        Some(_) => Tag::Bgp4mpEt,
    }
}

/// Parses the record `raw` into its event, whose routes reuse memory of earlier records in `pool`.
/// `stamp` selects the time of the routes of table entries: the timestamp of the record (`Dump`) or
/// the Originated Time of the entry (`Change`). `index` has the peers of the last accepted
/// PEER_INDEX_TABLE, or is `None` before the first; if `raw` is one, its peers replace them.
/// Requires that `raw.form` is the format of records of this type and subtype. Fails with `Fault`
/// if the record is faulty, or with `Memory` if memory allocation fails; `index` is unchanged then.
#[inline(always)]
pub(crate) fn decode_record(
    alloc: Global,
    pool: &mut Pool,
    stamp: Stamp,
    index: &mut Option<Peers>,
    raw: RawRecord<'_>,
) -> Result<Event, DecodeError>
    requires { HasBodyFormat raw.header.kind raw.header.subtype raw.form }
    ensures { Decodes stamp index.old index.new
        (record_with_header raw.entry.header raw.entry.body.now) result }
{
    let RawRecord { form, header, body } = raw;
    pool.begin_record(body.len());
    let (seconds, micros) = (header.seconds, None);
    let time = Time { seconds, micros };
    match form {
        BodyFormat::Entry(family) => {
            let tag = Tag::TableDump;
            let choice = TimeChoice { seconds, stamp };
            let items = read_table_dump(alloc, pool, family, choice, body)?;
            Ok(Event { time, tag, items })
        }
        BodyFormat::Peers => {
            let tag = Tag::TableDump2;
            *index = Some(read_peer_index(alloc, body)?);
            let items = Items::from_vec(Vec::new(alloc));
            Ok(Event { time, tag, items })
        }
        BodyFormat::Entries(family) => {
            let tag = Tag::TableDump2;
            let context = TableContext {
                peers: peers_in(index),
                family,
                seconds,
                stamp,
            };
            let parsed = read_rib(alloc, pool, context, body)?;
            if let Some(kind) = entries_fault(index, parsed.unknown) {
                return Err(DecodeError::Fault(kind));
            }
            let items = Items::from_vec(parsed.items);
            Ok(Event { time, tag, items })
        }
        BodyFormat::Session(form) => {
            let session = read_session(alloc, pool, seconds, form, body)?;
            let micros = session.micros;
            let time = Time { seconds, micros };
            let tag = session_tag(micros);
            let items = session.items;
            Ok(Event { time, tag, items })
        }
    }
}
