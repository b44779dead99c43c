//! The calls of rows on stores alone, and a store that counts what a player asks of it.
#![tactic(auto)]

mod nodes;
mod store;
mod watched;

pub use nodes::HasNodes;
pub use store::{CountsMet, put_stored};
pub use watched::{IsWatched, Watched};
