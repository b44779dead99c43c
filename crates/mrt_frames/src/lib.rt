//! A reader of MRT records (RFC 6396) that returns the header and the body of each, and parses the
//! header alone. `mrt_wire` calls [`FrameReader::take_record`], and parses the bodies. Read
//! `frames.rt` first, then `input.rt`.
#![tactic(auto)]

mod buffer;
mod fault;
mod frames;
mod header;
mod input;

pub use fault::{RecordFault, RecordKind, SourceFault};
pub use frames::{FrameReader, NextRecord, RecordTypes};
pub use header::{HEADER_SIZE, Header, LONGEST_BODY};
pub use input::{BufferedInput, InFault, Input, ReadInput};
