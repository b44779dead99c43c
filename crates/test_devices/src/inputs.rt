//! Inputs.

ghost use Rattle.std.specs.Prelude.{◌≡◌, ◌≤◌, None, false, length};

use mrt_wire::{InFault, Input};
use std::cell::Cell;

/// An input over octets that gives at most `step` of them a call, and fails after `sound` of them.
#[derive(Drop)]
pub struct SlowInput<'a> {
    octets: &'a [u8],
    step: usize,
    sound: usize,
    failed: bool,
}

impl<'a> SlowInput<'a> {
    /// An input that hasn't failed.
    pub fn new(octets: &'a [u8], step: usize, sound: usize) -> Self
        ensures { ⟦<SlowInput<'a> as Input>⟧.failed result ≡ false }
    {
        SlowInput {
            octets,
            step,
            sound,
            failed: false,
        }
    }
}

impl Input for SlowInput<'_> {
    ghost left = { λ _. None };

    ghost failed = { λ input. input.failed };

    fn take(&mut self, buffer: &mut [u8]) -> Result<usize, InFault> {
        if self.sound == 0 {
            self.failed = true;
            return Err(InFault);
        }
        let most = self.step.min(self.sound).min(self.octets.len());
        let count = most.min(buffer.len());
        let (front, rest) = self.octets.split_at(count);
        buffer[..count].copy_from_slice(front);
        self.octets = rest;
        self.sound -= count;
        Ok(count)
    }

    fn buffer(&self) -> &[u8] {
        &[]
    }
}

/// An input of zeros without end.
#[derive(Drop)]
pub struct Zeros;

impl Input for Zeros {
    ghost left = { λ _. None };

    ghost failed = { λ _. false };

    fn take(&mut self, buffer: &mut [u8]) -> Result<usize, InFault> {
        for octet in buffer.iter_mut() {
            *octet = 0;
        }
        Ok(buffer.len())
    }

    fn buffer(&self) -> &[u8] {
        &[]
    }
}

/// An input that ends where it is first asked, and has zeros without end behind that.
#[derive(Drop)]
pub struct LateZeros {
    ended: bool,
}

impl LateZeros {
    /// One that wasn't asked yet.
    pub fn new() -> Self
        ensures { ⟦<LateZeros as Input>⟧.failed result ≡ false }
    {
        LateZeros { ended: false }
    }
}

impl Input for LateZeros {
    ghost left = { λ _. None };

    ghost failed = { λ _. false };

    fn take(&mut self, buffer: &mut [u8]) -> Result<usize, InFault> {
        if self.ended {
            return Zeros.take(buffer);
        }
        self.ended = true;
        Ok(0)
    }

    fn buffer(&self) -> &[u8] {
        &[]
    }
}

/// An input that ends once, and goes on where it is asked again. It counts the calls behind its
/// end.
#[derive(Drop)]
pub struct EndedInput<'a> {
    octets: &'a [u8],
    step: usize,
    before: usize,
    /// Whether it has told its end.
    pub ended: bool,
    /// How often it was asked behind that.
    pub late_calls: u64,
}

impl<'a> EndedInput<'a> {
    /// An input that gives at most `step` octets a call, and ends behind `before` of them.
    pub fn new(octets: &'a [u8], step: usize, before: usize) -> Self
        ensures { ⟦<EndedInput<'a> as Input>⟧.failed result ≡ false }
    {
        EndedInput {
            octets,
            step,
            before,
            ended: false,
            late_calls: 0,
        }
    }

    /// Puts the first octets, as many as are named, in front of the buffer.
    fn give(&mut self, most: usize, buffer: &mut [u8]) -> usize
        ensures { result ≤ length buffer.new }
    {
        let count = most.min(self.octets.len()).min(buffer.len());
        let (front, rest) = self.octets.split_at(count);
        buffer[..count].copy_from_slice(front);
        self.octets = rest;
        count
    }
}

impl Input for EndedInput<'_> {
    ghost left = { λ _. None };

    ghost failed = { λ _. false };

    fn take(&mut self, buffer: &mut [u8]) -> Result<usize, InFault> {
        if self.ended {
            self.late_calls = self.late_calls.saturating_add(1);
            return Ok(self.give(self.step, buffer));
        }
        let count = self.give(self.step.min(self.before), buffer);
        self.before = self.before.saturating_sub(count);
        self.ended = count == 0;
        Ok(count)
    }

    fn buffer(&self) -> &[u8] {
        &[]
    }
}

/// An input that notes how much was written when the second of its two records is asked for.
#[derive(Drop)]
pub struct WatchingInput<'a> {
    octets: &'a [u8],
    written: &'a Cell<usize>,
    /// How much that was.
    pub seen: usize,
}

impl<'a> WatchingInput<'a> {
    /// One that notes what stands in `written`, where a `CountedOutput` counts.
    pub fn new(octets: &'a [u8], written: &'a Cell<usize>) -> Self
        ensures { ⟦<WatchingInput<'a> as Input>⟧.failed result ≡ false }
    {
        WatchingInput {
            octets,
            written,
            seen: 0,
        }
    }
}

impl Input for WatchingInput<'_> {
    ghost left = { λ _. None };

    ghost failed = { λ _. false };

    fn take(&mut self, buffer: &mut [u8]) -> Result<usize, InFault> {
        if self.octets.len() == 32 {
            self.seen = self.written.get();
        }
        let count = self.octets.len().min(buffer.len());
        let (front, rest) = self.octets.split_at(count);
        buffer[..count].copy_from_slice(front);
        self.octets = rest;
        Ok(count)
    }

    fn buffer(&self) -> &[u8] {
        &[]
    }
}

/// An input with a buffer that has its first octets, and isn't filled again.
#[derive(Drop)]
pub struct HandInput<'a> {
    buffered: &'a [u8],
    /// The octets that are left after the buffered ones.
    pub rest: &'a [u8],
}

impl<'a> HandInput<'a> {
    /// Returns an input of which the first `size` octets are buffered, or all if there are fewer.
    pub fn new(octets: &'a [u8], size: usize) -> Self
        ensures { ⟦<HandInput<'a> as Input>⟧.failed result ≡ false }
    {
        let (buffered, rest) = octets.split_at(size.min(octets.len()));
        HandInput { buffered, rest }
    }
}

impl Input for HandInput<'_> {
    ghost left = { λ _. None };

    ghost failed = { λ _. false };

    ghost buffered = { λ input. input.buffered.now };

    fn take(&mut self, buffer: &mut [u8]) -> Result<usize, InFault> {
        if self.buffered.is_empty() {
            let count = self.rest.len().min(buffer.len());
            buffer[..count].copy_from_slice(&self.rest[..count]);
            self.rest = &self.rest[count..];
            return Ok(count);
        }
        if self.buffered.len() < buffer.len() {
            let count = self.buffered.len();
            buffer[..count].copy_from_slice(self.buffered);
            self.buffered = &[];
            return Ok(count);
        }
        let (front, back) = self.buffered.split_at(buffer.len());
        buffer.copy_from_slice(front);
        self.buffered = back;
        Ok(front.len())
    }

    fn buffer(&self) -> &[u8] {
        self.buffered
    }
}
