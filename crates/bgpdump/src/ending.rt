//! How the program ends: its exit status and its last message. `main.rt` makes an [`Ending`] of the
//! outcome of its work, and of each failure before that; read that type first.

ghost use Rattle.std.specs.Prelude.{◌≡◌, option_map};
ghost use Rattle.bgpdump.specs.declared.ending.Ending.TheVariants.{Ran};
ghost use Rattle.bgpdump_tool.specs.declared.Outcome.TheVariants.{Memory};
ghost use Rattle.bgpdump.specs.Endings.{ending_message, ending_status};

use bgpdump_tool::{Outcome, UsageFault};
use std::alloc::{AllocError, AllocFailed};
use std::io;

/// The reason for which a file isn't opened.
#[derive(Clone, Copy)]
pub enum OpenFailure {
    /// The system refused to open it, with this error.
    Refused(io::Error),
    /// It is the output, and opening it would empty the file that is also the input or the script.
    IsAlsoRead,
}

/// Which text the program couldn't read: the arguments of its command line, or the script that it
/// executes. Part of [`Ending::NotRead`].
#[derive(Clone, Copy, PartialEq, Eq)]
pub enum InstructionText {
    /// The arguments of the command line.
    Words,
    /// The script whose commands are executed (`--play`).
    Script,
}

/// The way in which the program ends, from which its exit status and its last message follow.
#[derive(Drop)]
pub enum Ending<'a> {
    /// The arguments of the command line are invalid, or ask for help.
    Usage(UsageFault),
    /// The file with this name isn't opened, for this reason.
    NotOpened(&'a str, OpenFailure),
    /// The command line or the script can't be read: an argument isn't UTF-8 text, or the system failed
    /// with this error.
    NotRead(InstructionText, io::Error),
    /// The program's work over the input ended with this outcome, or memory allocation failed before it
    /// began.
    Ran(Outcome),
}

impl From<Outcome> for Ending<'_> {
    ghost from_gives = { λ outcome ending. ending ≡ Ran outcome };

    fn from(outcome: Outcome) -> Self {
        Ending::Ran(outcome)
    }
}

impl From<AllocError> for Ending<'_> {
    ghost from_gives = { λ _ ending. ending ≡ Ran Memory };

    fn from(_: AllocError) -> Self {
        Ending::Ran(Outcome::Memory)
    }
}

impl<T: Drop> From<AllocFailed<T>> for Ending<'_> {
    ghost from_gives = { λ _ ending. ending ≡ Ran Memory };

    fn from(failed: AllocFailed<T>) -> Self {
        Ending::from(AllocError::from(failed))
    }
}

impl Ending<'_> {
    /// Returns the exit status of the program:
    /// - 0 if help was requested;
    /// - 2 for any other [`UsageFault`] but `Memory`: the command line is invalid;
    /// - 3 if a file isn't opened, or the command line or the script can't be read;
    /// - 4 if memory allocation failed while the command line was parsed;
    /// - the status of the outcome, [`Outcome::status`], if the program's work ended.
    pub fn status(&self) -> u8
        ensures { result ≡ ending_status self.now }
    {
        match self {
            Ending::Usage(UsageFault::Help(_)) => 0,
            Ending::Usage(UsageFault::Memory) => Outcome::Memory.status(),
            Ending::Usage(_) => 2,
            Ending::NotOpened(_, _) => 3,
            Ending::NotRead(_, _) => Outcome::ReadFault.status(),
            Ending::Ran(outcome) => outcome.status(),
        }
    }

    /// Prints the message with which the program ends, if there is one: help to standard output, any
    /// other message to standard error, such as `bgpdump: cannot open table.mrt`. Fails if it can't be
    /// written; a part of it may have been written then.
    pub fn print(&self, rt: &HostRuntime) -> io::Result<()> {
        match self {
            Ending::Usage(UsageFault::Help(text)) => print!(rt; "{text}"),
            Ending::Usage(UsageFault::Words(text)) => eprint!(rt; "{text}"),
            Ending::NotOpened(name, _) => eprintln!(rt; "bgpdump: cannot open {name}"),
            _ => match self.message() {
                Some(message) => eprintln!(rt; "bgpdump: {message}"),
                None => Ok(()),
            },
        }
    }

    /// Returns the message with which the program ends, without the program's name ahead of it, if
    /// its text is fixed, such as `read fault`. Returns `None` if there is no message, or if its
    /// text varies: for help and errors of the parser of the command line (`clap`), and for files
    /// that aren't opened. [`print`](Ending::print) prints those.
    pub(crate) fn message(&self) -> Option<&'static str>
        ensures { option_map (λ text. text.now) result ≡ ending_message self.now }
    {
        match self {
            Ending::Usage(UsageFault::Mode) => Some("choose one of -m and --play"),
            Ending::Usage(UsageFault::TwoInputs) => Some("standard input named twice"),
            Ending::NotRead(_, _) | Ending::Ran(Outcome::ReadFault) => Some("read fault"),
            Ending::Ran(Outcome::WriteFault) => Some("write fault"),
            Ending::Ran(Outcome::InputTooLong) => Some("input too long"),
            Ending::Ran(Outcome::ScriptTooLong) => Some("script too long"),
            Ending::Usage(UsageFault::Memory) | Ending::Ran(Outcome::Memory) => {
                Some("out of memory")
            }
            Ending::Usage(_) | Ending::NotOpened(_, _) | Ending::Ran(_) => None,
        }
    }
}
