//! The lines of scripts: those that are commands, those that aren't, and too many.

use super::Routes;
use super::played_scripts::{Devices, assert_played, play_on};
use bgpdump_tool::Outcome;
use std::alloc::{AllocError, Global};
use std::process::Abort;
use std::test::Fail;

/// The longest script.
const LONGEST: usize = 1_048_576;

/// An input that fails at once, and outputs of which each `put` fails.
const STUCK: Devices = Devices {
    step: 1,
    input: 0,
    out: 0,
    err: 0,
    out_finishes: true,
    err_finishes: true,
};

/// Asserts how a run ends that neither reads nor writes, and how often it finishes each output.
fn assert_idle(rt: &impl Abort, alloc: Global, script: &[u8], want: Outcome, finishes: u64) {
    let played = play_on::<Routes>(alloc, b"", script, STUCK);
    assert_eq!(rt; played.outcome, want);
    assert_eq!(rt; (played.out.put_calls, played.err.put_calls), (0, 0));
    assert_played(rt, &played, b"", b"", (finishes, finishes), script.len());
}

/// So many line feeds.
fn line_feeds(alloc: Global, count: usize) -> Result<Vec<u8>, AllocError> {
    vec![in alloc; b'\n'; count]
}

#[test]
fn a_script_that_is_too_long_is_not_begun(rt: HostRuntime) -> Result<(), Fail> {
    let longest = line_feeds(rt.alloc(), LONGEST)?;
    assert_idle(&rt, rt.alloc(), &longest, Outcome::Done, 1);
    let longer = line_feeds(rt.alloc(), LONGEST + 1)?;
    assert_idle(&rt, rt.alloc(), &longer, Outcome::ScriptTooLong, 0);
    Ok(())
}

#[test]
fn commands_of_a_script_that_is_too_long_are_not_carried_out(rt: HostRuntime) -> Result<(), Fail> {
    let mut script = line_feeds(rt.alloc(), LONGEST - 8)?;
    script.extend_from_slice(b"foo\nnext\n")?;
    assert_idle(&rt, rt.alloc(), &script, Outcome::ScriptTooLong, 0);
    Ok(())
}
