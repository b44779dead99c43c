//! Runs of a dump, by calls that are marked or over devices. Outputs that are written by a marked
//! call have room for what the row wants, so that they ask for no memory where they write that.

use crate::answer::Answer;
use crate::devices::Devices;
use crate::row::Row;
use bgpdump_lines::{WriteOutput, run_dump};
use mrt_wire::{ReadInput, Stamp};
use row_values::marks;
use std::alloc::{AllocError, Global};
use test_devices::{SlowInput, SlowOutput};

/// An output with room for what is wanted of it.
pub fn room_for(alloc: Global, wanted: &[u8]) -> Result<Vec<u8>, AllocError> {
    Vec::with_capacity(alloc, wanted.len().saturating_add(1))
}

/// The lines and the reports of a dump.
pub(crate) fn dump(
    alloc: Global,
    stamp: Stamp,
    octets: &[u8],
    row: &Row,
) -> Result<Answer, AllocError> {
    let mut out = room_for(alloc, &row.out)?;
    let mut err = room_for(alloc, &row.err)?;
    marks::begin(alloc);
    let outcome = run_dump(
        alloc,
        &mut ReadInput::new(octets),
        &mut WriteOutput::new(&mut out),
        &mut WriteOutput::new(&mut err),
        stamp,
    );
    marks::end(alloc);
    Ok(Answer::of_run(alloc, outcome, out, err))
}

/// The same over devices.
pub(crate) fn dump_by(
    alloc: Global,
    devices: Devices,
    stamp: Stamp,
    octets: &[u8],
) -> Result<Answer, AllocError> {
    let mut input = SlowInput::new(octets, devices.step, devices.sound);
    let mut out = SlowOutput::new(alloc, devices.step, devices.out, devices.out_finishes);
    let mut err = SlowOutput::new(alloc, devices.step, devices.err, devices.err_finishes);
    let outcome = run_dump(alloc, &mut input, &mut out, &mut err, stamp);
    Answer::of_devices(alloc, outcome, out, err)
}
