//! The interface of a store of routes by prefix: a set of prefixes, the keys, with a route at some
//! of them. `rib_store` implements it, and `rib_player`, which applies BGP events to routing
//! tables, keeps one such store for each peer. Read [`PrefixStore`] first.
#![tactic(auto)]

mod laws;
mod packed;
mod prefetch_batch;
mod store;

pub use laws::{law_greatest_count_is_u64_max, law_one_longest, law_put_route, law_walk};
pub use packed::{PackedPrefix, V4Prefix};
pub use prefetch_batch::{PREFETCH_BATCH_LEN, PrefetchBatch, PrefetchTarget};
pub use store::{GREATEST_COUNT, PrefixStore};
