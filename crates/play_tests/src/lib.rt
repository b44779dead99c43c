//! Tests of runs of scripts by their public call, of what rows can't say.
#![tactic(auto)]

#[cfg(test)]
mod tests;
