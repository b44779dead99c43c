//! Outputs that take few octets a call, or fail, and the statuses of runs.

use bgpdump_lines::{OutFault, Outcome, put_all};
use std::alloc::Global;
use std::process::Abort;
use test_devices::SlowOutput;

/// A number of octets that no test reaches.
const MANY: usize = usize::MAX;

/// How many octets a call moves and how many there is room for, whether all of a text are written,
/// and what is.
const ROWS: &[(usize, usize, bool, &[u8])] = &[
    (1, MANY, true, b"ten octets"),
    (3, MANY, true, b"ten octets"),
    (7, MANY, true, b"ten octets"),
    (3, 5, false, b"ten o"),
];

/// Asserts whether all of a text is written, and what of it.
fn assert_put(rt: &impl Abort, alloc: Global, row: &(usize, usize, bool, &[u8])) {
    let (step, room, is_whole, written) = row;
    let mut out = SlowOutput::new(alloc, *step, *room, true);
    let want = if *is_whole { Ok(()) } else { Err(OutFault) };
    assert_eq!(rt;
        put_all(&mut out, b"ten octets"),
        want,
        "{step} octets a call"
    );
    assert_eq!(rt; out.text.as_slice(), *written, "{step} octets a call");
}

#[test]
fn put_all_goes_on_after_a_short_write(rt: HostRuntime) {
    for row in ROWS {
        assert_put(&rt, rt.alloc(), row);
    }
}

#[test]
fn put_all_of_nothing_calls_nothing(rt: HostRuntime) {
    let mut out = SlowOutput::new(rt.alloc(), 1, 0, true);
    assert_eq!(rt; put_all(&mut out, b""), Ok(()));
    assert_eq!(rt; out.put_calls, 0);
}

/// The statuses of all outcomes.
const STATUSES: &[(Outcome, u8)] = &[
    (Outcome::Done, 0),
    (Outcome::Reported, 1),
    (Outcome::ReadFault, 3),
    (Outcome::WriteFault, 3),
    (Outcome::InputTooLong, 3),
    (Outcome::ScriptTooLong, 3),
    (Outcome::Memory, 4),
];

#[test]
fn outcomes_have_statuses(rt: HostRuntime) {
    for (outcome, want) in STATUSES {
        assert_eq!(rt; outcome.status(), *want, "of {outcome:?}");
    }
}
