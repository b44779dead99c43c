//! When a script takes records, replies and reports.

ghost use Rattle.std.specs.Prelude.{◌≡◌, None, false};

use super::Routes;
use bgpdump_tool::run_play;
use mrt_wire::Stamp;
use std::alloc::{AllocError, Global};
use std::cell::Cell;
use std::test::Fail;
use test_devices::{
    CountedOutput, MULTICAST, MULTICAST_REPORT, STATE_CHANGE, WatchingInput, octets_of,
};

/// Carries out a script over a record and a state change, and tells how much was written when the
/// second one was asked for.
fn replied_before_the_second(
    alloc: Global,
    record: &str,
    script: &str,
) -> Result<usize, AllocError> {
    let octets = octets_of(alloc, &[record, STATE_CHANGE])?;
    let written = Cell::new(0);
    let mut input = WatchingInput::new(&octets, &written);
    let mut out = CountedOutput::new(&written);
    let mut err = CountedOutput::new(&written);
    let script = script.as_bytes();
    run_play::<Routes, _, _, _>(alloc, &mut input, script, &mut out, &mut err, Stamp::Dump);
    Ok(input.seen)
}

#[test]
fn all_is_written_before_the_next_record_is_taken(rt: HostRuntime) -> Result<(), Fail> {
    let bad_line = "bgpdump: script line 2: bad command\n";
    for (record, script, want) in [
        (STATE_CHANGE, "next 2\n", 0),
        (STATE_CHANGE, "next\nnext\n", 5),
        (
            STATE_CHANGE,
            "next\nfoo\nwhere\ngoto 2\n",
            18 + bad_line.len(),
        ),
        (MULTICAST, "next 2\n", MULTICAST_REPORT.len()),
        (MULTICAST, "goto 1\n", MULTICAST_REPORT.len()),
        (MULTICAST, "next\nnext\n", 5 + MULTICAST_REPORT.len()),
    ] {
        let seen = replied_before_the_second(rt.alloc(), record, script)?;
        assert_eq!(rt; seen, want, "in {script}");
    }
    Ok(())
}
