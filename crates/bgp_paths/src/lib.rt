//! AS numbers, AS paths and communities of BGP: their parsers, the merge of AS_PATH with AS4_PATH
//! (RFC 6793, section 4.2.3), and their formatting as text. `bgp_wire` and `bgpdump_lines` call it.
//! Read `path.rt` first, then `path_reader.rt` and `merge.rt`.
#![tactic(auto)]

mod as_numbers;
mod fault;
mod laws;
mod merge;
mod numbers;
mod path;
mod path_reader;
mod replacing;
mod segment;
mod segments;
mod text;
mod vec_as_list;

pub use as_numbers::AsNumbers;
pub use fault::WireFault;
pub use laws::{
    law_merge_keeps_weight, law_octets_have_one_path, law_path_constants, law_paths_have_one_merge,
    law_text_punctuation,
};
pub use merge::merge_paths;
pub use numbers::{AsWidth, fill_numbers};
pub use path::AsPath;
pub use replacing::{copy_numbers, copy_path};
pub use segment::{Segment, SegmentKind};
pub use segments::Segments;
pub use text::{append_communities, put_communities};
pub use vec_as_list::VecAsList;
