//! Outputs.

ghost use Rattle.std.specs.Prelude.{◌≡◌, None, Some, false, drop};

use bgpdump_lines::{OutFault, Output};
use std::alloc::Global;
use std::cell::Cell;

/// An output that takes at most `step` octets a call and fails after `room` of them. It counts its
/// calls.
#[derive(Drop)]
pub struct SlowOutput {
    /// What was written.
    pub text: Vec<u8>,
    step: usize,
    room: usize,
    finishes: bool,
    /// How often `put` was called.
    pub put_calls: u64,
    /// How often `finish` was called.
    pub finish_calls: u64,
    failed: bool,
}

impl SlowOutput {
    /// An output whose `finish` fails unless it `finishes`.
    pub fn new(alloc: Global, step: usize, room: usize, finishes: bool) -> Self
        ensures { ⟦<SlowOutput as Output>⟧.failed result ≡ false }
    {
        SlowOutput {
            text: Vec::new(alloc),
            step,
            room,
            finishes,
            put_calls: 0,
            finish_calls: 0,
            failed: false,
        }
    }
}

impl Output for SlowOutput {
    ghost written = { λ _. None };

    ghost failed = { λ output. output.failed };

    fn put(&mut self, octets: &[u8]) -> Result<usize, OutFault> {
        self.put_calls = self.put_calls.saturating_add(1);
        let count = self.step.min(self.room).min(octets.len());
        let is_stuck = count == 0 && !octets.is_empty();
        if is_stuck || self.text.extend_from_slice(&octets[..count]).is_err() {
            self.failed = true;
            return Err(OutFault);
        }
        self.room -= count;
        Ok(count)
    }

    fn flush(&mut self) -> Result<(), OutFault> {
        Ok(())
    }

    fn finish(&mut self) -> Result<(), OutFault> {
        self.finish_calls = self.finish_calls.saturating_add(1);
        if self.finishes {
            return Ok(());
        }
        self.failed = true;
        Err(OutFault)
    }
}

/// An output that counts what it is given where others can see it.
#[derive(Drop)]
pub struct CountedOutput<'a> {
    written: &'a Cell<usize>,
}

impl<'a> CountedOutput<'a> {
    /// One that adds to what stands in `written`.
    pub fn new(written: &'a Cell<usize>) -> Self
        ensures { ⟦<CountedOutput<'a> as Output>⟧.failed result ≡ false }
    {
        CountedOutput { written }
    }
}

impl Output for CountedOutput<'_> {
    ghost written = { λ _. None };

    ghost failed = { λ _. false };

    fn put(&mut self, octets: &[u8]) -> Result<usize, OutFault> {
        let written = self.written.get();
        self.written.set(written.saturating_add(octets.len()));
        Ok(octets.len())
    }

    fn flush(&mut self) -> Result<(), OutFault> {
        Ok(())
    }

    fn finish(&mut self) -> Result<(), OutFault> {
        Ok(())
    }
}

/// An output that notes how many octets were written at each flush, and fails at a flush once it has
/// noted so many.
#[derive(Drop)]
pub struct PassingOutput {
    /// What was written.
    pub text: Vec<u8>,
    /// The length of the text at each flush.
    pub flushes: Vec<usize>,
    /// How many octets of the text were flushed.
    sent: usize,
    most: usize,
    failed: bool,
}

impl PassingOutput {
    /// An output that is flushed at most so often.
    pub fn new(alloc: Global, most: usize) -> Self
        ensures { ⟦<PassingOutput as Output>⟧.failed result ≡ false }
    {
        PassingOutput {
            text: Vec::new(alloc),
            flushes: Vec::new(alloc),
            sent: 0,
            most,
            failed: false,
        }
    }
}

impl Output for PassingOutput {
    ghost written = { λ _. None };

    ghost failed = { λ output. output.failed };

    ghost pending = { λ output. Some (drop output.sent output.text.items) };

    fn put(&mut self, octets: &[u8]) -> Result<usize, OutFault> {
        if self.text.extend_from_slice(octets).is_err() {
            self.failed = true;
            return Err(OutFault);
        }
        Ok(octets.len())
    }

    fn flush(&mut self) -> Result<(), OutFault> {
        if self.flushes.len() < self.most && self.flushes.push(self.text.len()).is_ok() {
            self.sent = self.text.len();
            return Ok(());
        }
        self.failed = true;
        Err(OutFault)
    }

    fn finish(&mut self) -> Result<(), OutFault> {
        self.sent = self.text.len();
        Ok(())
    }
}
