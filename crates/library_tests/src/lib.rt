//! Tests of the libraries by their public calls, of what rows can't say.
#![tactic(auto)]

#[cfg(test)]
mod tests;
