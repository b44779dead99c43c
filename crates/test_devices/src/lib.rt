//! Inputs and outputs for tests: some move few octets a call and fail where they are told to, some
//! count their calls, some tell what is at hand or when they pass on, some never end, and some end and go
//! on; and records that tests read.
#![tactic(auto)]

mod inputs;
mod octets;
mod outputs;

pub use inputs::{EndedInput, HandInput, LateZeros, SlowInput, WatchingInput, Zeros};
pub use octets::{MULTICAST, MULTICAST_REPORT, STATE_CHANGE, octets_of};
pub use outputs::{CountedOutput, PassingOutput, SlowOutput};
