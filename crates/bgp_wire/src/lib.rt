//! Parsers of BGP messages (RFC 4271, section 4) and of the path attributes of RIB entries in MRT
//! records (RFC 6396, section 4.3.4). Parsers of MRT records call [`read_message_into`] and
//! [`read_rib_attrs_into`]. Read `attrs.rt` and `parts.rt` first, for what is parsed, then
//! `attribute_list.rt`, which parses a list of attributes, then `update.rt` and `rib_entry.rt`.
#![tactic(auto)]

mod as4;
mod attribute_list;
mod attrs;
mod framing;
mod ill_formed;
mod laws;
mod lengths;
mod message;
mod next_hop;
mod parts;
mod prefixes;
mod reach;
mod rib_entry;
mod seen_types;
mod update;
mod values;

pub use attrs::{Aggregator, Attrs, Communities, Origin, clone_attrs_from};
pub use bgp_paths::{
    AsNumbers, AsPath, AsWidth, Segment, SegmentKind, Segments, WireFault, append_communities,
    law_merge_keeps_weight, law_octets_have_one_path, law_path_constants, law_paths_have_one_merge,
    law_text_punctuation, merge_paths, put_communities,
};
pub use framing::{AS_PATH, EXTENDED_LENGTH, MP_REACH_NLRI, ORIGIN};
pub use laws::{
    law_bgp_constants, law_octets_have_one_attribute_list, law_octets_have_one_message,
    law_octets_have_one_rib_entry,
};
pub use message::{Message, read_message, read_message_into};
pub use parts::{MessageKind, Update, UpdateBuffer};
pub use prefixes::Prefixes;
pub use rib_entry::{read_rib_attrs, read_rib_attrs_into};
