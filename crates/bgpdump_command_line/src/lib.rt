//! The command line of `bgpdump`: its arguments, and a parser of them. The program calls
//! [`settings`]. Read `usage.rt` first, for what is parsed, then `arguments.rt`.
#![tactic(auto)]

mod arguments;
mod command_line;
mod usage;

pub use command_line::settings;
pub use usage::{Mode, STANDARD_INPUT, Settings, UsageFault};
