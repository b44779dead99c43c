//! Definitions that contracts of parsers cite: octets that encode lists, lists after their count,
//! and values one after the other. The crate has no code; read `specs/Sequences.antt` first.
#![tactic(auto)]
