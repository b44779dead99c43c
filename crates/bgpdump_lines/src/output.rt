//! Outputs of text: the trait [`Output`], which [`WriteOutput`] implements over any writer of std, and
//! [`BufferedOutput`] over a `BufWriter`. The program writes to two of them, one for lines and one for
//! reports.

ghost use Rattle.std.specs.Prelude.{◌≡◌, ◌≤◌, ◌<◌, ◌||◌, ℕ, List, [], Bool, false, Option, Some, None, length, IfOk, OnOk, is_err};
ghost use Rattle.std.specs.Io.Buffered.{writer_buffer, writer_contents};
ghost use Rattle.std.specs.Io.KnownBytes.{WriteAppends, Appends, Keeps};
ghost use Rattle.bgpdump_lines.specs.Run.{AppendsPrefix};
ghost use Rattle.bgpdump_lines.specs.Flushing.{IsFlushed, LeavesFlushed};
ghost use Rattle.bgpdump_lines.specs.WrittenSoFar.{IsReadyToRead, outcome_of_finished_run};

use crate::outcome::Outcome;
use mrt_wire::Input;
use std::io::{BufWriter, Write};

/// The error of an [`Output`]: a write or flush failed. A write that failed wrote nothing; what earlier
/// calls wrote is unaffected.
#[derive(Clone, Copy, Debug, PartialEq, Eq)]
pub struct OutFault;

/// An output of octets that may buffer them: a narrow form of `std::io::Write`, whose only error is
/// [`OutFault`].
pub trait Output {
    /// In contracts: all octets that were written, or `None` if the output can't tell.
    ghost written: { Self → Option (List ℕ) };

    /// In contracts: whether a call has failed.
    ghost failed: { Self → Bool };

    /// In contracts: the octets that were written and are still in a buffer, not passed to the device, or
    /// `None` if the output can't tell.
    ghost pending: { Self → Option (List ℕ) } = { λ _. None };

    /// Writes some of `octets`, from the first on, and returns how many: at least one, unless `octets` is
    /// empty, when it returns 0. On error, nothing was written.
    fn put(&mut self, octets: &[u8]) -> Result<usize, OutFault>
        ensures bound { IfOk result (λ count. count ≤ length octets.now) }
        ensures some { IfOk result (λ count. 0 < length octets.now → 0 < count) }
        ensures octets { WriteAppends (written self.old) (written self.new) result octets.now }
        ensures failed { failed self.new ≡ (failed self.old || is_err result) };

    /// Flushes the output: all octets that were written go to its device, such as a file or a pipe,
    /// and none waits in a buffer. Called before a wait for input that may be long. Fails
    /// if the device fails; how many of the octets it has got is unspecified then.
    fn flush(&mut self) -> Result<(), OutFault>
        ensures octets { Keeps (written self.old) (written self.new) }
        ensures flushed { OnOk result (IsFlushed (pending self.new)) }
        ensures failed { failed self.new ≡ (failed self.old || is_err result) };

    /// Flushes the output: all octets that were written go to its device, such as a file or a pipe,
    /// and none waits in a buffer. Called at the end, when nothing more is to be written.
    /// Fails if the device fails; how many of the octets it has got is unspecified then.
    fn finish(&mut self) -> Result<(), OutFault>
        ensures octets { Keeps (written self.old) (written self.new) }
        ensures flushed { OnOk result (IsFlushed (pending self.new)) }
        ensures failed { failed self.new ≡ (failed self.old || is_err result) };
}

/// An [`Output`] over a writer of std. Any error of the writer, or `Ok(0)` for a write of one octet or
/// more, is an [`OutFault`].
#[derive(Drop)]
pub struct WriteOutput<W> {
    /// The writer that octets are written to.
    writer: W,
    /// Whether a call has failed. Only contracts read it: later calls go to the writer even so.
    failed: bool,
}

impl<W: Write> WriteOutput<W> {
    /// Returns an output that writes to `writer`. Contracts count an output as failed once a call of its
    /// methods has failed; the new one doesn't count as failed, whatever happened to `writer` before.
    pub fn new(writer: W) -> Self
        ensures written { ⟦<WriteOutput<W> as Output>⟧.written result ≡ W.contents writer }
        ensures failed { ⟦<WriteOutput<W> as Output>⟧.failed result ≡ false }
    {
        WriteOutput {
            writer,
            failed: false,
        }
    }

    /// Returns the writer, to which all octets were written; nothing is flushed.
    pub fn into_inner(self) -> W
        ensures { W.contents result ≡ ⟦<WriteOutput<W> as Output>⟧.written self }
    {
        self.writer
    }
}

impl<W: Write> Output for WriteOutput<W> {
    ghost written = { λ output. W.contents output.writer };

    ghost failed = { λ output. output.failed };

    #[inline(always)]
    fn put(&mut self, octets: &[u8]) -> Result<usize, OutFault> {
        match self.writer.write(octets) {
            Ok(count) if count > 0 || octets.is_empty() => Ok(count),
            _ => {
                self.failed = true;
                Err(OutFault)
            }
        }
    }

    fn flush(&mut self) -> Result<(), OutFault> {
        match self.writer.flush() {
            Ok(()) => Ok(()),
            Err(_) => {
                self.failed = true;
                Err(OutFault)
            }
        }
    }

    fn finish(&mut self) -> Result<(), OutFault> {
        self.flush()
    }
}

/// An [`Output`] over a `BufWriter`. In contracts, the octets in its buffer count as pending:
/// written, and not yet passed to the `W` that the `BufWriter` wraps.
#[derive(Drop)]
pub struct BufferedOutput<W: Write + Drop> {
    output: WriteOutput<BufWriter<W>>,
}

impl<W: Write + Drop> BufferedOutput<W> {
    /// Returns an output that writes to `writer`. Contracts count an output as failed once a call of its
    /// methods has failed; the new one doesn't count as failed, whatever happened to `writer` before.
    pub fn new(writer: BufWriter<W>) -> Self
        ensures written { ⟦<BufferedOutput<W> as Output>⟧.written result
            ≡ writer_contents W.contents writer }
        ensures failed { ⟦<BufferedOutput<W> as Output>⟧.failed result ≡ false }
    {
        BufferedOutput {
            output: WriteOutput::new(writer),
        }
    }

    /// Returns the `BufWriter`, with the octets that are still in its buffer; nothing is flushed.
    pub fn into_inner(self) -> BufWriter<W>
        ensures { writer_contents W.contents result ≡ ⟦<BufferedOutput<W> as Output>⟧.written self }
    {
        self.output.into_inner()
    }
}

impl<W: Write + Drop> Output for BufferedOutput<W> {
    ghost written = { λ buffered. writer_contents W.contents buffered.output.writer };

    ghost failed = { λ buffered. buffered.output.failed };

    ghost pending = { λ buffered. Some (writer_buffer buffered.output.writer) };

    #[inline(always)]
    fn put(&mut self, octets: &[u8]) -> Result<usize, OutFault> {
        self.output.put(octets)
    }

    fn flush(&mut self) -> Result<(), OutFault> {
        match self.output.writer.flush() {
            Ok(()) => Ok(()),
            Err(_) => {
                self.output.failed = true;
                Err(OutFault)
            }
        }
    }

    fn finish(&mut self) -> Result<(), OutFault> {
        self.flush()
    }
}

/// Writes all of `octets` to `output`, by as many calls of [`Output::put`] as that takes. On error, some
/// of the first octets may have been written.
pub fn put_all<W: Output>(output: &mut W, octets: &[u8]) -> Result<(), OutFault>
    ensures all { OnOk result (Appends (W.written output.old) (W.written output.new) octets.now) }
    ensures front { AppendsPrefix (W.written output.old) (W.written output.new) octets.now }
    ensures failed { W.failed output.new ≡ (W.failed output.old || is_err result) }
{
    let mut rest = octets;
    while !rest.is_empty() {
        let count = output.put(rest)?;
        rest = &rest[count..];
    }
    Ok(())
}

/// Flushes `out` and then `err` before a read of `input` that may wait. Does nothing if `input` has
/// its whole next record in its buffer, so that no wait is expected. Fails if a flush fails; `err`
/// isn't flushed then if flushing `out` failed.
#[inline(always)]
pub fn flush_before_waiting<I: Input, O: Output, E: Output>(
    input: &I,
    out: &mut O,
    err: &mut E,
) -> Result<(), OutFault>
    ensures out { Keeps (O.written out.old) (O.written out.new) }
    ensures err { Keeps (E.written err.old) (E.written err.new) }
    ensures flushed { OnOk result
        (IsReadyToRead (I.buffered input.now) (O.pending out.new) (E.pending err.new)) }
    ensures failed { (O.failed out.new || E.failed err.new)
        ≡ (O.failed out.old || E.failed err.old || is_err result) }
{
    if input.has_buffered_record() {
        return Ok(());
    }
    out.flush()?;
    err.flush()
}

/// Calls [`Output::finish`] of `out` and then of `err`, and returns how the program ended:
/// `WriteFault` if a call fails, or else `Reported` if `reported`, or else `Done`. `reported` is
/// `true` if a faulty record or a bad line of a script was reported. If `out` fails, `err` isn't
/// finished. Requires that no output has failed before.
pub fn finish_outputs<O: Output, E: Output>(out: &mut O, err: &mut E, reported: bool) -> Outcome
    requires sound { (O.failed out.old || E.failed err.old) ≡ false }
    ensures outcome { result ≡ outcome_of_finished_run (O.failed out.new || E.failed err.new)
        reported }
    ensures out { Keeps (O.written out.old) (O.written out.new) }
    ensures err { Keeps (E.written err.old) (E.written err.new) }
    ensures flushed { LeavesFlushed result (O.pending out.new) (E.pending err.new) }
{
    if out.finish().is_err() || err.finish().is_err() {
        Outcome::WriteFault
    } else if reported {
        Outcome::Reported
    } else {
        Outcome::Done
    }
}
