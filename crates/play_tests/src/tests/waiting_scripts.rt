//! What a script's run flushes before it waits for its input.

use super::Routes;
use bgpdump_tool::{Outcome, run_play};
use mrt_wire::Stamp;
use std::alloc::{AllocError, Global};
use std::process::Abort;
use std::test::Fail;
use test_devices::{HandInput, PassingOutput, STATE_CHANGE, octets_of};

/// How many octets a record of the tests has.
const SIZE: usize = 32;

/// Steps over three records and then to their end, twice.
const SCRIPT: &str = "where\nnext\nnext 2\nback 1\ngoto 3\nwhere\ngoto 4\nnext\n";

/// The replies.
const REPLIES: &str = "at 0 ahead 0\nat 1\nat 3\nat 2\nat 3\nat 3 ahead 0\nat 3 end\nat 3 end\n";

/// A run of the script.
#[derive(Drop)]
struct Played {
    outcome: Outcome,
    out: PassingOutput,
    err: PassingOutput,
    left: usize,
}

/// Runs with so many octets buffered, and outputs that are flushed at most so often.
fn play_over(alloc: Global, size: usize, most: (usize, usize)) -> Result<Played, AllocError> {
    let octets = octets_of(alloc, &[STATE_CHANGE, STATE_CHANGE, STATE_CHANGE])?;
    let mut input = HandInput::new(octets.as_slice(), size);
    let mut out = PassingOutput::new(alloc, most.0);
    let mut err = PassingOutput::new(alloc, most.1);
    let script = SCRIPT.as_bytes();
    let outcome = run_play::<Routes, _, _, _>(
        alloc,
        &mut input,
        script,
        &mut out,
        &mut err,
        Stamp::Dump,
    );
    let left = input.rest.len();
    Ok(Played {
        outcome,
        out,
        err,
        left,
    })
}

/// What is written before the first record, before the second and the third, and before the end; after
/// it nothing is waited for.
#[test]
fn replies_are_flushed_where_no_record_is_buffered(rt: HostRuntime) -> Result<(), Fail> {
    for size in [0, 12, SIZE - 1] {
        let played = play_over(rt.alloc(), size, (9, 9))?;
        assert_eq!(rt; played.outcome, Outcome::Done);
        assert_eq!(rt; played.out.text.as_slice(), REPLIES.as_bytes());
        assert_eq!(rt; played.out.flushes.as_slice(), [13, 18, 18, 46].as_slice());
        assert_eq!(rt; played.err.flushes.as_slice(), [0, 0, 0, 0].as_slice());
    }
    Ok(())
}

#[test]
fn replies_are_kept_where_a_record_is_buffered(rt: HostRuntime) -> Result<(), Fail> {
    let played = play_over(rt.alloc(), SIZE, (9, 9))?;
    assert_eq!(rt; played.outcome, Outcome::Done);
    assert_eq!(rt; played.out.text.as_slice(), REPLIES.as_bytes());
    assert_eq!(rt; played.out.flushes.as_slice(), [18, 18, 46].as_slice());
    assert_eq!(rt; played.err.flushes.as_slice(), [0, 0, 0].as_slice());
    let played = play_over(rt.alloc(), 3 * SIZE, (9, 9))?;
    assert_eq!(rt; played.out.text.as_slice(), REPLIES.as_bytes());
    assert_eq!(rt; played.out.flushes.as_slice(), [46].as_slice());
    assert_eq!(rt; played.err.flushes.as_slice(), [0].as_slice());
    Ok(())
}

#[test]
fn a_failed_flush_ends_the_script(rt: HostRuntime) -> Result<(), Fail> {
    for most in [(1, 9), (9, 1)] {
        let played = play_over(rt.alloc(), 0, most)?;
        assert_eq!(rt; played.outcome, Outcome::WriteFault);
        assert_eq!(rt; played.out.text.as_slice(), &REPLIES.as_bytes()[..18]);
        assert_eq!(rt; played.left, 2 * SIZE);
    }
    Ok(())
}
