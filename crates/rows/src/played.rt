//! Runs of a script, by calls that are marked or over devices. Outputs that are written by a marked
//! call have room for what the row wants, so that they ask for no memory where they write that.

use bgpdump_tool::{WriteOutput, run_play};
use mrt_wire::{ReadInput, Route, Stamp};
use rib_store::PrefixStore;
use row_parts::{Answer, Devices, Row, room_for};
use row_values::marks;
use std::alloc::{AllocError, Global};
use std::rc::Rc;
use test_devices::{SlowInput, SlowOutput};

/// The replies and the reports of a script, with a store.
pub fn play<S: PrefixStore<Rc<Route>>>(
    alloc: Global,
    stamp: Stamp,
    octets: &[u8],
    row: &Row,
) -> Result<Answer, AllocError> {
    let mut out = room_for(alloc, &row.out)?;
    let mut err = room_for(alloc, &row.err)?;
    marks::begin(alloc);
    let outcome = run_play::<S, _, _, _>(
        alloc,
        &mut ReadInput::new(octets),
        &row.script,
        &mut WriteOutput::new(&mut out),
        &mut WriteOutput::new(&mut err),
        stamp,
    );
    marks::end(alloc);
    Ok(Answer::of_run(alloc, outcome, out, err))
}

/// The same over devices.
pub fn play_by<S: PrefixStore<Rc<Route>>>(
    alloc: Global,
    devices: Devices,
    stamp: Stamp,
    octets: &[u8],
    row: &Row,
) -> Result<Answer, AllocError> {
    let mut input = SlowInput::new(octets, devices.step, devices.sound);
    let mut out = SlowOutput::new(alloc, devices.step, devices.out, devices.out_finishes);
    let mut err = SlowOutput::new(alloc, devices.step, devices.err, devices.err_finishes);
    let outcome = run_play::<S, _, _, _>(alloc, &mut input, &row.script, &mut out, &mut err, stamp);
    Answer::of_devices(alloc, outcome, out, err)
}
