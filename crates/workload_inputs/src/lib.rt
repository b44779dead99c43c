//! What the jobs of `workloads` stand on: files that are made of a seed as they are read, scripts over
//! them, and digests of what is written.
#![tactic(auto)]

mod attributes;
mod bodies;
mod chance;
mod digest;
mod file;
pub mod jobs;
mod messages;
mod octets;
mod paths;
mod peers;
mod pools;
mod prefixes;
mod script;
mod storms;
mod tables;
mod updates;
mod world;

pub use digest::{Digest, Sum};
pub use file::File;
