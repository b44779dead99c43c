//! Plays the events of an MRT file (RFC 6396) on a routing table for each peer, and undoes and
//! redoes them. An event is what one record says: routes that are announced or withdrawn, and
//! sessions that are lost. `bgpdump_tool` runs the commands of a script on a [`Player`], which
//! keeps the steps (the played events) and a cursor among them; its [`Table`] answers look-ups of
//! routes. Read `player.rt` first, then `journal.rt`, `steps.rt` and `claims.rt`.
#![tactic(auto)]

mod changes;
mod claims;
mod entry;
mod journal;
mod key_counts;
mod laws;
mod numbered_peer;
mod pair;
mod player;
mod prefetching;
mod seen_peers;
mod spare_capacity;
mod sparse_set;
mod steps;
mod stores;
mod table;

pub use laws::{
    law_established_state_number, law_forgetting_keeps_tables, law_history_after_all_calls,
    law_history_after_one_call, law_keys_and_claim_counts, law_last_event_decides_route,
    law_one_step_back, law_pair_order, law_player_follows_history, law_routes_of_peers,
    law_steps_back_and_forth, law_table_after_one_more_event, law_walk_over_peers,
    law_which_pairs_are_keys,
};
pub use player::{Nothing, PlayFault, Player};
pub use table::Table;
