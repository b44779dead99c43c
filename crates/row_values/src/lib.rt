//! What rows are spelled with and shown by, and those of their calls that stand on values and messages
//! alone.
#![tactic(auto)]

mod again;
mod appended;
mod group;
mod items;
pub mod marks;
mod names;
mod parts;
mod paths;
mod shown;
mod spelled;
mod turns;
mod values;
mod wire;
mod words;

pub use again::{Again, put_again, put_parts};
pub use appended::{Front, put_appended};
pub use items::Brought;
pub use names::Names;
pub use paths::{put_joined, put_segment_count};
pub use shown::Shown;
pub use spelled::{Spelled, put_digits};
pub use values::put_values;
pub use wire::{put_attrs, put_entry, put_fields, put_message, put_segments, put_summary};
pub use words::{
    REFUSED, UNREAD, address_word, number_word, peer_words, prefix_word, put_count, put_peer,
    put_within, split_word,
};
