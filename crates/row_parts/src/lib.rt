//! What rows are made of, and those of their calls that read and print, and need neither a player nor
//! a store. The library `row_values` has what they are spelled with, the program `rows` the others.
#![tactic(auto)]

mod answer;
mod call;
mod devices;
mod dumped;
mod events;
mod printed;
mod reader_call;
mod routes;
mod row;
mod settings;
mod tally;

pub use answer::Answer;
pub use call::{IsCall, carry_out};
pub use devices::Devices;
pub use dumped::room_for;
pub use reader_call::{ReaderCall, reader_calls};
pub use routes::Keeping;
pub use row::Row;
pub use tally::Tally;
