//! The settings that a command line selects, and the reasons for which it selects none.
//! [`settings`](crate::settings) returns them.

ghost use Rattle.std.specs.Prelude.{◌≡◌};
ghost use Rattle.bgpdump_command_line.specs.declared.usage.UsageFault.TheVariants.{Memory};

use mrt_events::Stamp;
use std::alloc::AllocError;
use thiserror::Error;

/// The name by which the command line refers to standard input, as the MRT file or as the script:
/// `-`.
pub const STANDARD_INPUT: &str = "-";

/// What the program does with the MRT file that it reads.
#[derive(Debug, PartialEq, Eq, Drop)]
pub enum Mode {
    /// Writes each route, withdrawal and state change as a line (`-m`).
    Lines,
    /// Carries out the commands of the script with this file name, or `-` for standard input
    /// (`--play`).
    Play(String),
}

/// What the command line selects: what the program does, and with which files. File names are as
/// they were given.
#[derive(Debug, PartialEq, Eq, Drop)]
pub struct Settings {
    /// What the program does with the MRT file.
    pub mode: Mode,
    /// Which time the routes of a table get: when the table was dumped, or when the route last
    /// changed.
    pub stamp: Stamp,
    /// The name of the output file, or `None` for standard output.
    pub output: Option<String>,
    /// The name of the MRT file, or `-` for standard input.
    pub input: String,
}

/// The reason for which a command line selects no settings. A request of help counts as one.
#[derive(Debug, PartialEq, Eq, Drop, Error)]
pub enum UsageFault {
    /// The arguments aren't valid. The text, which is `clap`'s, says why.
    #[error("{0}")]
    Words(String),
    /// None or both of `-m` and `--play` are there; exactly one is needed.
    #[error("choose one of -m and --play")]
    Mode,
    /// The script and the input are both `-`, standard input, which can be read only once.
    #[error("standard input named twice")]
    TwoInputs,
    /// Memory allocation failed.
    #[error("out of memory")]
    Memory,
    /// Help was requested, which isn't an error. This is its text.
    #[error("{0}")]
    Help(String),
}

impl From<AllocError> for UsageFault {
    ghost from_gives = { λ _ fault. fault ≡ Memory };

    fn from(_: AllocError) -> Self {
        UsageFault::Memory
    }
}
