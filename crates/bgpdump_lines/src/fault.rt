//! Errors of writing text, and the [`Outcome`] of an execution of the program that such an error ends.
//! All functions of `write.rt` fail with a [`WriteFault`]; the operator `?` converts it, and the faults
//! of a `Source` of records, to an `Outcome`.

ghost use Rattle.std.specs.Prelude.{◌≡◌};
ghost use Rattle.bgpdump_lines.specs.declared.fault.WriteFault.TheVariants.{Write, Memory};
ghost use Rattle.bgpdump_lines.specs.WrittenSoFar.{outcome_of_source_fault, outcome_of_write_fault};

use crate::outcome::Outcome;
use crate::output::OutFault;
use mrt_wire::SourceFault;
use std::alloc::AllocError;

/// The reason for which a text couldn't be assembled or written to an [`Output`](crate::Output).
#[derive(Clone, Copy, Debug, PartialEq, Eq)]
pub enum WriteFault {
    /// The output failed: a write or a flush.
    Write,
    /// Memory allocation failed while the text was assembled.
    Memory,
}

impl From<OutFault> for WriteFault {
    ghost from_gives = { λ _ fault. fault ≡ Write };

    fn from(_: OutFault) -> WriteFault {
        WriteFault::Write
    }
}

impl From<AllocError> for WriteFault {
    ghost from_gives = { λ _ fault. fault ≡ Memory };

    fn from(_: AllocError) -> WriteFault {
        WriteFault::Memory
    }
}

impl From<OutFault> for Outcome {
    ghost from_gives = { λ _ outcome. outcome ≡ outcome_of_write_fault Write };

    fn from(_: OutFault) -> Outcome {
        Outcome::WriteFault
    }
}

impl From<SourceFault> for Outcome {
    ghost from_gives = { λ fault outcome. outcome ≡ outcome_of_source_fault fault };

    fn from(fault: SourceFault) -> Outcome {
        match fault {
            SourceFault::Read => Outcome::ReadFault,
            SourceFault::InputTooLong => Outcome::InputTooLong,
            SourceFault::Memory | SourceFault::Spent => Outcome::Memory,
        }
    }
}

impl From<WriteFault> for Outcome {
    ghost from_gives = { λ fault outcome. outcome ≡ outcome_of_write_fault fault };

    fn from(fault: WriteFault) -> Outcome {
        match fault {
            WriteFault::Write => Outcome::WriteFault,
            WriteFault::Memory => Outcome::Memory,
        }
    }
}
