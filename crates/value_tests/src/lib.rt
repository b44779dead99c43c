//! Tests of the libraries whose values lines and scripts are made of, by their public calls, of what
//! rows can't say.
#![tactic(auto)]

#[cfg(test)]
mod tests;
