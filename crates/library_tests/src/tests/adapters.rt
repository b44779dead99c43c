//! What outputs over writers pass on, and when a run reads and writes.

ghost use Rattle.std.specs.Prelude.{◌≡◌, None, false};

use super::LINE;
use bgpdump_lines::{OutFault, Outcome, Output, WriteOutput, put_all, run_dump};
use mrt_wire::Stamp;
use std::alloc::{AllocError, Global};
use std::cell::Cell;
use std::io::{self, ErrorKind, Write};
use std::process::Abort;
use std::test::Fail;
use test_devices::{
    CountedOutput, MULTICAST, MULTICAST_REPORT, STATE_CHANGE, SlowOutput, WatchingInput, octets_of,
};

/// A writer that takes nothing, and whose `flush` fails.
#[derive(Drop)]
struct StuckWriter;

impl Write for StuckWriter {
    fn write(&mut self, octets: &[u8]) -> io::Result<usize> {
        Ok(0)
    }

    fn flush(&mut self) -> io::Result<()> {
        Err(io::Error::from(ErrorKind::BrokenPipe))
    }
}

#[test]
fn a_stuck_writer_is_a_fault(rt: HostRuntime) {
    assert_eq!(rt; WriteOutput::new(StuckWriter).put(b"text"), Err(OutFault));
    assert_eq!(rt; WriteOutput::new(StuckWriter).put(b""), Ok(0));
    assert_eq!(rt; WriteOutput::new(StuckWriter).finish(), Err(OutFault));
}

/// How the first call of a writer ends.
#[derive(Clone, Copy)]
enum First {
    Interrupted,
    Broken,
}

/// A writer whose first `write` fails and whose first `flush` does. All further calls succeed, and
/// take all that they are given.
#[derive(Drop)]
struct LateWriter {
    first: First,
    writes: u64,
    flushes: u64,
    taken: usize,
}

impl LateWriter {
    fn new(first: First) -> Self {
        LateWriter {
            first,
            writes: 0,
            flushes: 0,
            taken: 0,
        }
    }

    /// The fault of a first call.
    fn fault(&self) -> io::Error {
        io::Error::from(match self.first {
            First::Interrupted => ErrorKind::Interrupted,
            First::Broken => ErrorKind::BrokenPipe,
        })
    }
}

impl Write for LateWriter {
    fn write(&mut self, octets: &[u8]) -> io::Result<usize> {
        self.writes = self.writes.saturating_add(1);
        if self.writes == 1 {
            return Err(self.fault());
        }
        self.taken = self.taken.saturating_add(octets.len());
        Ok(octets.len())
    }

    fn flush(&mut self) -> io::Result<()> {
        self.flushes = self.flushes.saturating_add(1);
        if self.flushes == 1 {
            return Err(self.fault());
        }
        Ok(())
    }
}

/// Asserts that the first `put` and the first `finish` over such a writer are faults, and that
/// neither tries the writer again.
fn assert_not_tried_again(rt: &impl Abort, first: First) {
    let mut writer = LateWriter::new(first);
    assert_eq!(rt; WriteOutput::new(&mut writer).put(b"text"), Err(OutFault));
    assert_eq!(rt; (writer.writes, writer.flushes, writer.taken), (1, 0, 0));
    assert_eq!(rt; WriteOutput::new(&mut writer).finish(), Err(OutFault));
    assert_eq!(rt; (writer.writes, writer.flushes, writer.taken), (1, 1, 0));
}

#[test]
fn a_writer_that_fails_is_not_called_again(rt: HostRuntime) {
    for first in [First::Interrupted, First::Broken] {
        assert_not_tried_again(&rt, first);
    }
}

#[test]
fn put_all_finishes_nothing(rt: HostRuntime) {
    let mut output = SlowOutput::new(rt.alloc(), 4, 9, false);
    assert_eq!(rt; put_all(&mut output, b"nine puts"), Ok(()));
    assert_eq!(rt; output.finish_calls, 0);
}

/// Runs over a record and a state change, and tells how the run ended and how much was written
/// when the second one was asked for.
fn written_before_the_second(alloc: Global, record: &str) -> Result<(Outcome, usize), AllocError> {
    let octets = octets_of(alloc, &[record, STATE_CHANGE])?;
    let written = Cell::new(0);
    let mut input = WatchingInput::new(&octets, &written);
    let mut out = CountedOutput::new(&written);
    let mut err = CountedOutput::new(&written);
    let outcome = run_dump(alloc, &mut input, &mut out, &mut err, Stamp::Dump);
    Ok((outcome, input.seen))
}

#[test]
fn all_is_written_before_the_next_record_is_read(rt: HostRuntime) -> Result<(), Fail> {
    let line = written_before_the_second(rt.alloc(), STATE_CHANGE)?;
    assert_eq!(rt; line, (Outcome::Done, LINE.len()));
    let report = written_before_the_second(rt.alloc(), MULTICAST)?;
    assert_eq!(rt; report, (Outcome::Reported, MULTICAST_REPORT.len()));
    Ok(())
}
