//! What a run flushes before it waits for its input.

use super::LINE;
use bgpdump_lines::{Outcome, run_dump};
use mrt_wire::Stamp;
use std::alloc::{AllocError, Global};
use std::process::Abort;
use std::test::Fail;
use test_devices::{HandInput, PassingOutput, STATE_CHANGE, octets_of};

/// How many octets a record of the tests has.
const SIZE: usize = 32;

/// A run over three records.
#[derive(Drop)]
struct Run {
    outcome: Outcome,
    out: PassingOutput,
    err: PassingOutput,
    left: usize,
}

/// Runs with so many octets buffered, and outputs that are flushed at most so often.
fn run_over(alloc: Global, size: usize, most: (usize, usize)) -> Result<Run, AllocError> {
    let octets = octets_of(alloc, &[STATE_CHANGE, STATE_CHANGE, STATE_CHANGE])?;
    let mut input = HandInput::new(octets.as_slice(), size);
    let mut out = PassingOutput::new(alloc, most.0);
    let mut err = PassingOutput::new(alloc, most.1);
    let outcome = run_dump(alloc, &mut input, &mut out, &mut err, Stamp::Dump);
    let left = input.rest.len();
    Ok(Run {
        outcome,
        out,
        err,
        left,
    })
}

#[test]
fn lines_are_flushed_where_no_record_is_buffered(rt: HostRuntime) -> Result<(), Fail> {
    let line = LINE.len();
    for size in [0, 1, 11, 12, SIZE - 1] {
        let run = run_over(rt.alloc(), size, (9, 9))?;
        assert_eq!(rt; run.outcome, Outcome::Done);
        assert_eq!(rt;
            run.out.flushes.as_slice(),
            [0, line, 2 * line, 3 * line].as_slice()
        );
        assert_eq!(rt; run.err.flushes.as_slice(), [0, 0, 0, 0].as_slice());
    }
    Ok(())
}

#[test]
fn lines_are_kept_where_a_record_is_buffered(rt: HostRuntime) -> Result<(), Fail> {
    let line = LINE.len();
    for size in [SIZE, SIZE + 1, 2 * SIZE - 1] {
        let run = run_over(rt.alloc(), size, (9, 9))?;
        assert_eq!(rt; run.outcome, Outcome::Done);
        assert_eq!(rt;
            run.out.flushes.as_slice(),
            [line, 2 * line, 3 * line].as_slice()
        );
        assert_eq!(rt; run.err.flushes.as_slice(), [0, 0, 0].as_slice());
    }
    let run = run_over(rt.alloc(), 3 * SIZE, (9, 9))?;
    assert_eq!(rt; run.out.flushes.as_slice(), [3 * line].as_slice());
    assert_eq!(rt; run.err.flushes.as_slice(), [0].as_slice());
    Ok(())
}

#[test]
fn a_failed_flush_ends_the_run(rt: HostRuntime) -> Result<(), Fail> {
    for most in [(1, 9), (9, 1)] {
        let run = run_over(rt.alloc(), 0, most)?;
        assert_eq!(rt; run.outcome, Outcome::WriteFault);
        assert_eq!(rt; run.out.text.as_slice(), LINE.as_bytes());
        assert_eq!(rt; run.left, 2 * SIZE);
    }
    Ok(())
}
