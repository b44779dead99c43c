//! How an execution of the program ends, and its exit status. [`run_dump`](crate::run_dump) and its like
//! return an [`Outcome`]; `fault.rt` converts errors to it.

ghost use Rattle.std.specs.Prelude.{◌≡◌};
ghost use Rattle.bgpdump_lines.specs.WrittenSoFar.{exit_status};

/// How an execution of the program (`bgpdump -m`, or a script) ended, once its command line was
/// understood and its input and outputs were opened. It determines the exit status. If there is no memory
/// for the buffers of the input and outputs, so that nothing is read, the outcome is `Memory`.
#[derive(Clone, Copy, Debug, PartialEq, Eq)]
pub enum Outcome {
    /// It came to its end, and nothing was reported as faulty.
    Done,
    /// It came to its end, and at least one faulty record or bad line of a script was reported to
    /// standard error.
    Reported,
    /// Reading from the input failed.
    ReadFault,
    /// Writing to an output, or flushing it, failed.
    WriteFault,
    /// An octet, or the end of the input, was wanted after the first 2^40 octets of the input.
    InputTooLong,
    /// The script has more than 1,048,576 octets, and no line of it was executed.
    ScriptTooLong,
    /// Memory allocation failed.
    Memory,
}

impl Outcome {
    /// Returns the exit status of the program for this outcome: 0 for `Done`, 1 for `Reported`, 3
    /// for a failed read or write and for an input or script that is too long, and 4 for `Memory`.
    pub fn status(self) -> u8
        ensures { result ≡ exit_status self }
    {
        match self {
            Outcome::Done => 0,
            Outcome::Reported => 1,
            Outcome::ReadFault
            | Outcome::WriteFault
            | Outcome::InputTooLong
            | Outcome::ScriptTooLong => 3,
            Outcome::Memory => 4,
        }
    }
}
