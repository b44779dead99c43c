//! The lines of events, which a call of the libraries appends to a text.

use crate::events::{LIMIT, MOST_ANSWERS};
use bgpdump_lines::put_lines;
use mrt_wire::{Next, ReadInput, Source, SourceFault, Stamp};
use row_values::{Front, Shown, put_appended};
use std::alloc::Global;

/// Appends the lines of each event that a source answers.
pub(crate) fn put_printed(alloc: Global, octets: &[u8], text: &mut Shown) {
    let mut source = Source::new(alloc, Stamp::Dump, LIMIT);
    let mut input = ReadInput::new(octets);
    for _ in 0..MOST_ANSWERS {
        if !put_answer(alloc, &source.next(&mut input), text) {
            return;
        }
    }
}

/// Appends the lines of an answer, and answers whether there is more.
fn put_answer(alloc: Global, answer: &Result<Next, SourceFault>, text: &mut Shown) -> bool {
    let octets = b"before";
    match answer {
        Ok(Next::Event(event)) => {
            let front = Front { alloc, octets };
            put_appended(front, |octets| put_lines(event, octets), text);
            true
        }
        Ok(Next::Bad(_)) => true,
        _ => false,
    }
}
