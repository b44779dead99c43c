//! Scripts that play MRT files (RFC 6396) forwards and backwards: their commands, and how they are
//! executed. The program calls [`run_play`] for `--play`; read `play.rt` first, then
//! `execution.rt`. What else the program needs is re-exported from `bgpdump_command_line` and
//! `bgpdump_lines`.
#![tactic(auto)]

mod command;
mod execution;
mod laws;
mod play;
mod replies;
mod session;
mod words;

pub use bgpdump_command_line::{Mode, STANDARD_INPUT, Settings, UsageFault, settings};
pub use bgpdump_lines::{
    BufferedOutput, OutFault, Outcome, Output, WriteOutput, law_line_constants, put_all, put_lines,
    run_dump,
};
pub use command::{Command, read_command};
pub use laws::{law_best_match, law_one_command, law_one_script, law_script_constants};
pub use play::{LONGEST_SCRIPT, run_play};
