//! Scripts over inputs and outputs that count, move few octets a call or fail.

use bgpdump_tool::{Outcome, run_play};
use mrt_wire::{Route, Stamp};
use rib_store::PrefixStore;
use std::alloc::Global;
use std::process::Abort;
use std::rc::Rc;
use test_devices::{SlowInput, SlowOutput};

/// A number of octets that no test reaches.
pub(super) const MANY: usize = usize::MAX;

/// What devices do: how many octets each moves a call, after how many the input and each output
/// fail, and which outputs finish.
#[derive(Clone, Copy)]
pub(super) struct Devices {
    pub(super) step: usize,
    pub(super) input: usize,
    pub(super) out: usize,
    pub(super) err: usize,
    pub(super) out_finishes: bool,
    pub(super) err_finishes: bool,
}

/// Devices that never fail.
pub(super) const SOUND: Devices = Devices {
    step: MANY,
    input: MANY,
    out: MANY,
    err: MANY,
    out_finishes: true,
    err_finishes: true,
};

/// What outputs were given, and how a run over them ended.
#[derive(Drop)]
pub(super) struct Played {
    pub(super) out: SlowOutput,
    pub(super) err: SlowOutput,
    pub(super) outcome: Outcome,
}

/// Carries out a script over these octets and devices, with such stores.
pub(super) fn play_on<S: PrefixStore<Rc<Route>>>(
    alloc: Global,
    octets: &[u8],
    script: &[u8],
    devices: Devices,
) -> Played {
    let mut input = SlowInput::new(octets, devices.step, devices.input);
    let mut out = SlowOutput::new(alloc, devices.step, devices.out, devices.out_finishes);
    let mut err = SlowOutput::new(alloc, devices.step, devices.err, devices.err_finishes);
    let outcome = run_play::<S, _, _, _>(
        alloc,
        &mut input,
        script,
        &mut out,
        &mut err,
        Stamp::Dump,
    );
    Played { out, err, outcome }
}

/// Asserts what was written, and how often each output was finished.
pub(super) fn assert_played(
    rt: &impl Abort,
    played: &Played,
    replies: &[u8],
    reports: &[u8],
    finishes: (u64, u64),
    case: usize,
) {
    assert_eq!(rt; played.out.text.as_slice(), replies, "replies of {case}");
    assert_eq!(rt; played.err.text.as_slice(), reports, "reports of {case}");
    let finished = (played.out.finish_calls, played.err.finish_calls);
    assert_eq!(rt; finished, finishes, "outputs finished, of {case}");
}
