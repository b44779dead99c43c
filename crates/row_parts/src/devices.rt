//! Inputs and outputs that move few octets at a time, fail or end, and calls over them. They are
//! told by words with numbers:
//!
//!     step=N          how many octets move a call
//!     sound=N         after how many octets the input fails
//!     end=N           behind how many octets it ends once, and goes on where it is asked again
//!     limit=N         how many octets a source takes at most
//!     out=N err=N     after how many octets each output fails
//!     out-fails=1 err-fails=1     an output whose finish fails

use crate::events::LIMIT;
use mrt_wire::{Input, Next, ReadInput, Source, SourceFault, Stamp};
use row_values::{Shown, put_count};
use std::alloc::Global;
use test_devices::{EndedInput, SlowInput};

/// A number of octets that no row reaches.
const MANY: usize = usize::MAX;

/// What devices do.
#[derive(Clone, Copy)]
pub struct Devices {
    /// How many octets move a call.
    pub step: usize,
    /// After how many octets the input fails, and each output.
    pub sound: usize,
    pub out: usize,
    pub err: usize,
    /// Whether the finish of each output succeeds.
    pub out_finishes: bool,
    pub err_finishes: bool,
    end: usize,
    limit: u64,
}

impl Devices {
    /// Those that the words tell.
    pub(crate) fn spelled(words: &str) -> Option<Devices> {
        let mut devices = Devices {
            step: MANY,
            sound: MANY,
            out: MANY,
            err: MANY,
            out_finishes: true,
            err_finishes: true,
            end: MANY,
            limit: LIMIT,
        };
        for word in words.split_whitespace() {
            let (name, number) = word.split_once("=")?;
            if !devices.set(name, number.parse::<usize>().ok()?) {
                return None;
            }
        }
        Some(devices)
    }

    /// Sets what a word tells, and answers whether it is known.
    fn set(&mut self, name: &str, number: usize) -> bool {
        match name {
            "step" => self.step = number,
            "sound" => self.sound = number,
            "end" => self.end = number,
            "limit" => self.limit = number as u64,
            "out" => self.out = number,
            "err" => self.err = number,
            "out-fails" => self.out_finishes = number == 0,
            "err-fails" => self.err_finishes = number == 0,
            _ => return false,
        }
        true
    }
}

/// Appends what a source answers to four calls over octets.
pub(crate) fn put_calls(alloc: Global, octets: &[u8], text: &mut Shown) {
    put_four(alloc, LIMIT, &mut ReadInput::new(octets), text);
}

/// The same over an input of devices.
pub(crate) fn put_calls_by(alloc: Global, devices: Devices, octets: &[u8], text: &mut Shown) {
    if devices.end == MANY {
        let mut input = SlowInput::new(octets, devices.step, devices.sound);
        return put_four(alloc, devices.limit, &mut input, text);
    }
    let mut input = EndedInput::new(octets, devices.step, devices.end);
    put_four(alloc, devices.limit, &mut input, text);
    if !input.ended || input.late_calls > 0 {
        text.put(b"not asked up to its end alone\n");
    }
}

/// Appends what a source answers to four calls, and how many octets it has taken after each.
fn put_four<I: Input>(alloc: Global, limit: u64, input: &mut I, text: &mut Shown) {
    let mut source = Source::new(alloc, Stamp::Dump, limit);
    for _ in 0..4 {
        put_answer(alloc, &source.next(input), text);
        put_count(b" at ", source.offset(), text);
        text.put(b"\n");
    }
}

/// Appends the words of what a source answered.
fn put_answer(alloc: Global, answer: &Result<Next, SourceFault>, text: &mut Shown) {
    text.put_made(match answer {
        Ok(Next::Event(event)) => format!(in alloc; "{} item", event.items.as_slice().len()),
        Ok(Next::Bad(fault)) => {
            format!(in alloc; "{}, {}: {:?}", fault.number, fault.offset, fault.kind)
        }
        Ok(Next::End) => format!(in alloc; "end"),
        Err(fault) => format!(in alloc; "{fault:?}"),
    });
}
