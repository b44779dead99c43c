//! The faults of records, and the errors that end the reading of an input. `frames.rt` and
//! `mrt_wire` return them. Read [`RecordKind`] and [`SourceFault`] first.

ghost use Rattle.std.specs.Prelude.{◌≡◌};
ghost use Rattle.mrt_frames.specs.Taken.{source_fault};
ghost use Rattle.mrt_frames.specs.declared.fault.TakeFault.TheVariants.{InputFailed};
ghost use Rattle.mrt_frames.specs.declared.fault.SourceFault.TheVariants.{Memory};

use crate::input::InFault;
use std::alloc::AllocError;
use thiserror::Error;

/// What is wrong with an MRT record, or that its type isn't supported. If several of these apply,
/// the first in the order of the variants is reported, except that `TooLong` comes before
/// `CutRecord`.
#[derive(Clone, Copy, Debug, PartialEq, Eq)]
pub enum RecordKind {
    /// The input ends inside the record: in its header or in its body.
    CutRecord,
    /// The header states a body of this length, in octets, which is greater than
    /// [`LONGEST_BODY`](crate::LONGEST_BODY).
    TooLong(u32),
    /// The record is of this type and subtype, in this order, of which records aren't parsed.
    Unsupported(u16, u16),
    /// The body doesn't have the format of the record's type and subtype (RFC 6396, section 4), or
    /// a BGP message or attributes in it are malformed.
    Malformed,
    /// The record is a RIB record, with or without entries, and no peer index table was accepted
    /// before it, so that its entries have no peers (RFC 6396, section 4.3).
    NoIndex,
    /// An entry of the RIB record names its peer by this index, which the last peer index table
    /// doesn't have. It is the first such entry of the record.
    PeerIndex(u16),
}

/// A faulty record: what is wrong with it, and where it is in the input.
#[derive(Clone, Copy, Debug, PartialEq, Eq)]
pub struct RecordFault {
    /// The number of the record in the input, where the first is 1. Faulty and unsupported records
    /// count too.
    pub number: u64,
    /// What is wrong with the record.
    pub kind: RecordKind,
    /// The number of octets in the input before the record's header.
    pub offset: u64,
}

/// The error of reading octets into memory that is already allocated: the input returned an error,
/// or more octets than the limit for the whole input would be read. It is converted into a
/// [`SourceFault`], which can also be an error of memory allocation.
#[derive(Clone, Copy)]
pub(crate) enum TakeFault {
    /// A read of the input returned an error.
    InputFailed,
    /// The limit of octets to read in all was reached and more were needed, be it only to see
    /// whether the input ends there.
    PastLimit,
}

impl From<InFault> for TakeFault {
    ghost from_gives = { λ _ fault. fault ≡ InputFailed };

    fn from(_: InFault) -> TakeFault {
        TakeFault::InputFailed
    }
}

/// An error that ends the reading of records before the end of the input. It isn't a fault of one
/// record.
#[derive(Clone, Copy, Debug, PartialEq, Eq, Error)]
pub enum SourceFault {
    /// A read of the input returned an error.
    #[error("cannot read")]
    Read,
    /// The limit of octets to read in all was reached and more were needed, be it only to see
    /// whether the input ends there.
    #[error("input too long")]
    InputTooLong,
    /// Memory allocation failed.
    #[error("out of memory")]
    Memory,
    /// An earlier call returned an error, after which nothing more is read.
    #[error("the source has stopped")]
    Spent,
}

impl From<TakeFault> for SourceFault {
    ghost from_gives = { λ taking fault. fault ≡ source_fault taking };

    fn from(fault: TakeFault) -> SourceFault {
        match fault {
            TakeFault::InputFailed => SourceFault::Read,
            TakeFault::PastLimit => SourceFault::InputTooLong,
        }
    }
}

impl From<AllocError> for SourceFault {
    ghost from_gives = { λ _ fault. fault ≡ Memory };

    fn from(_: AllocError) -> SourceFault {
        SourceFault::Memory
    }
}
