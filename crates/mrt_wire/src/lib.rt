//! A parser of MRT files (RFC 6396): it reads one record after the other from an input, and returns
//! for each an event (its time, its type and what it says of peers and routes) or a fault.
//! `bgpdump_lines` and `bgpdump_tool` call [`Source::next`]. Read `source.rt` first, then
//! `decoding.rt`, which parses one record, and then the parser of each record type:
//! `peer_index.rt`, `rib.rt`, `table_dump.rt` and `session.rt`.
#![tactic(auto)]

mod decoding;
mod fields;
mod laws;
mod next;
mod peer_index;
mod peers;
mod pool;
mod record_types;
mod replacing;
mod rib;
mod rib_route;
mod route_cache;
mod route_pool;
mod session;
mod source;
mod table_dump;
mod update;

pub use laws::{
    law_input_splits_in_one_way, law_input_splits_into_records, law_mrt_constants,
    law_octets_have_one_record_content,
};
pub use mrt_events::{
    ESTABLISHED, Event, Item, Items, Peer, Route, SharedRange, SharedRanges, Stamp, Tag, Time,
    route_size, same_peer, same_prefix, same_route,
};
pub use mrt_frames::{
    BufferedInput, InFault, Input, ReadInput, RecordFault, RecordKind, SourceFault,
};
pub use next::{Next, Phase};
pub use source::Source;
