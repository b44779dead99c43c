//! What sources answer over inputs without an end, and behind an end.

use mrt_wire::{Input, Next, Source, SourceFault, Stamp};
use std::alloc::Global;
use std::process::Abort;
use test_devices::{LateZeros, Zeros};

/// The word of what a source answers next.
fn next_word<I: Input>(source: &mut Source, input: &mut I) -> &'static str {
    word_of(&source.next(input))
}

/// The word of an answer.
fn word_of(answer: &Result<Next, SourceFault>) -> &'static str {
    match answer {
        Ok(Next::Event(_)) => "event",
        Ok(Next::Bad(_)) => "bad",
        Ok(Next::End) => "end",
        Err(SourceFault::InputTooLong) => "too long",
        Err(SourceFault::Spent) => "spent",
        Err(_) => "fault",
    }
}

/// Asserts what a source with this limit answers by and by, and how many octets it has taken then.
fn assert_answers<I: Input>(
    rt: &impl Abort,
    alloc: Global,
    limit: u64,
    input: &mut I,
    want: &[(&'static str, u64)],
) {
    let mut source = Source::new(alloc, Stamp::Dump, limit);
    for (word, taken) in want {
        assert_eq!(rt; next_word(&mut source, input), *word);
        assert_eq!(rt; source.offset(), *taken);
    }
}

/// Records of type 0 and subtype 0 without a body, up to the limit.
const ENDLESS: &[(&str, u64)] = &[("bad", 12), ("bad", 24), ("too long", 32), ("spent", 32)];

#[test]
fn an_endless_input_is_too_long(rt: HostRuntime) {
    assert_answers(&rt, rt.alloc(), 32, &mut Zeros, ENDLESS);
}

#[test]
fn an_input_is_not_asked_behind_its_end(rt: HostRuntime) {
    assert_answers(
        &rt,
        rt.alloc(),
        1 << 40,
        &mut LateZeros::new(),
        &[("end", 0), ("end", 0)],
    );
}
