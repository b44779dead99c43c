//! The two kinds of the program's work, [`dump`] (lines) and [`play`] (a script), over any reader and
//! writers, through buffers. `main.rt` and `in_memory.rt` call them; read [`dump`] first.

ghost use Rattle.std.specs.Prelude.{◌≡◌, ◌≤◌, ◌<◌, ◌⊎◌, ℕ, List, false, length, Some, None, IfSome, IfOk, IfErr, IsNone};
ghost use Rattle.std.specs.Io.Buffered.{writer_contents};
ghost use Rattle.std.specs.Io.KnownBytes.{Consumes, Keeps};
ghost use Rattle.bgpdump_tool.specs.Course.{HoldsForLines, texts_before_input_fault, play_texts};
ghost use Rattle.bgpdump_tool.specs.Run.{dump_texts, outputs_of};
ghost use Rattle.bgpdump.specs.Endings.{outcome_without_writers, HoldsForInput, RelatesWriters, LeavesTexts, LeavesWholeRecords, TookInputLimit, KeepsBoth, HoldsForWriters, buffered_outputs, has_failed};

use crate::files::outcome_of_setup_error;
use bgpdump_tool::{BufferedOutput, LONGEST_SCRIPT, Outcome, Output, run_dump, run_play};
use mrt_wire::{BufferedInput, Input, Route, Stamp};
use rib_store::{LeakingStore, RadixStore};
use std::alloc::Global;
use std::io::{BufReader, BufWriter, Read, Write};
use std::rc::Rc;

/// The size in octets of the buffer of the input and of each output: 65,536.
const BUFFER_SIZE: usize = 65_536;

/// The store of the player's routes, a radix tree whose memory isn't freed when it is dropped.
// The program ends soon after a run, and freeing node by node would take as long as the run. During a run
// the player drops a store only when it has no keys, and so no memory.
type Routes = LeakingStore<RadixStore<Rc<Route>>>;

/// The reader and the two writers that the program works with. `R` is the type of the reader, `O`
/// of the writer of results, and `E` of the writer of reports.
#[derive(Drop)]
pub struct Devices<R, O, E> {
    /// The reader of the MRT file.
    pub reader: R,
    /// The writer of results: the lines of records, or the replies to a script's commands.
    pub out: O,
    /// The writer of reports: of faulty records, and of bad lines of a script.
    pub err: E,
}

/// What is left after the program's work ([`dump`] or [`play`]): how it ended, the input, and the
/// writers. `R` is the type of the reader, `O` of the writer of results, and `E` of the writer of
/// reports.
#[derive(Drop)]
pub struct FinishedRun<R, O, E> {
    /// How it ended.
    pub outcome: Outcome,
    /// The input, of which what wasn't read is left, or `None` if memory allocation failed before the
    /// work began.
    pub input: Option<BufferedInput<R>>,
    /// The writer of results and the writer of reports, with all that was written, or `None` if the work
    /// didn't begin or a writer failed at the end.
    pub writers: Option<(O, E)>,
}

/// The reader of the input, the writer of results and the writer of reports, each with a buffer.
#[derive(Drop)]
struct BufferedStreams<R, O: Write + Drop, E: Write + Drop> {
    input: BufferedInput<R>,
    out: BufferedOutput<O>,
    err: BufferedOutput<E>,
}

/// Prints the MRT file in `devices.reader`: the lines of its routes, withdrawals and state changes
/// to `devices.out`, and reports of its faulty records to `devices.err`. `stamp` selects the time
/// of routes from table dumps: when the table was dumped, or when the route last changed. Returns
/// how that ended, with the input and the writers. If the buffers can't be allocated, nothing is
/// read, and the outcome is `Memory`.
pub fn dump<R: Read + Drop, O: Write + Drop, E: Write + Drop>(
    alloc: Global,
    stamp: Stamp,
    devices: Devices<R, O, E>,
) -> FinishedRun<R, O, E>
    // If the reader shows its octets, the writers have got the lines and reports of the records in
    // them, or prefixes of these texts.
    ensures text { LeavesTexts R.remaining O.contents E.contents stamp dump_texts devices result }

    // If the reader failed or has too many octets, the writers have got exactly the lines and reports
    // of the whole records read.
    ensures whole_records { LeavesWholeRecords R.remaining O.contents E.contents
        stamp dump_texts devices result }

    // The octets that are read.
    ensures taken { HoldsForInput R.remaining (λ left left_after. (taken : List ℕ)
        × Consumes left left_after taken) devices.reader result.input }
    ensures too_long { result.outcome ≡ Outcome.InputTooLong →
        HoldsForInput R.remaining TookInputLimit devices.reader result.input }

    // Which runs end with a read fault, which don't begin, and which leave no writers.
    ensures read_fault { result.outcome ≡ Outcome.ReadFault → IfSome result.input has_failed }
    ensures failed { IfSome result.input (λ input. has_failed input →
        (result.outcome ≡ Outcome.ReadFault) ⊎ IsNone result.writers) }
    ensures failed_before_run { IsNone result.input → result.outcome ≡ Outcome.Memory }
    ensures lost { IsNone result.writers →
        (result.outcome ≡ Outcome.WriteFault) ⊎ (result.outcome ≡ Outcome.Memory) }
{
    let mut streams = match buffer_devices(alloc, devices) {
        Ok(streams) => streams,
        Err(refusal) => return failed_before_run(refusal),
    };
    let outcome = run_dump(
        alloc,
        &mut streams.input,
        &mut streams.out,
        &mut streams.err,
        stamp,
    );
    close(streams, outcome)
}

/// Executes the commands of `script` over the MRT file in `devices.reader`: writes their replies to
/// `devices.out`, and reports of faulty records and bad lines to `devices.err`. `stamp` selects the
/// time of routes from table dumps: when the table was dumped, or when the route last changed.
/// Returns how that ended, with the input and the writers. If the buffers can't be allocated,
/// nothing is read, and the outcome is `Memory`.
pub fn play<R: Read + Drop, O: Write + Drop, E: Write + Drop>(
    alloc: Global,
    stamp: Stamp,
    script: &[u8],
    devices: Devices<R, O, E>,
) -> FinishedRun<R, O, E>
    // If the reader shows its octets, the writers have got the replies and reports of the script over
    // the records in them, or prefixes of these texts.
    ensures text { length script.now ≤ LONGEST_SCRIPT → HoldsForLines script.now (λ lines.
        LeavesTexts R.remaining O.contents E.contents stamp (play_texts lines) devices result) }

    // If the reader failed or has too many octets, the writers have got exactly the replies to the
    // completed commands, and the reports of the whole records read and of the bad lines before.
    ensures whole_records { HoldsForLines script.now (λ lines.
        LeavesWholeRecords R.remaining O.contents E.contents stamp (texts_before_input_fault lines)
        devices result) }

    // The octets that are read.
    ensures taken { length script.now ≤ LONGEST_SCRIPT → HoldsForInput R.remaining
        (λ left left_after. (taken : List ℕ) × Consumes left left_after taken) devices.reader
        result.input }
    ensures too_long { result.outcome ≡ Outcome.InputTooLong →
        HoldsForInput R.remaining TookInputLimit devices.reader result.input }

    // A script that is too long leaves the writers as they were.
    ensures script_too_long { LONGEST_SCRIPT < length script.now →
        IfSome result.writers (λ writers. result.outcome ≡ Outcome.ScriptTooLong) }
    ensures untouched { LONGEST_SCRIPT < length script.now →
        RelatesWriters O.contents E.contents KeepsBoth devices result }

    // Which runs end with a read fault, which don't begin, and which leave no writers.
    ensures read_fault { result.outcome ≡ Outcome.ReadFault → IfSome result.input has_failed }
    ensures failed { IfSome result.input (λ input. has_failed input →
        (result.outcome ≡ Outcome.ReadFault) ⊎ IsNone result.writers) }
    ensures failed_before_run { IsNone result.input → result.outcome ≡ Outcome.Memory }
    ensures lost { IsNone result.writers →
        (result.outcome ≡ Outcome.WriteFault) ⊎ (result.outcome ≡ Outcome.Memory) }
{
    let mut streams = match buffer_devices(alloc, devices) {
        Ok(streams) => streams,
        Err(refusal) => return failed_before_run(refusal),
    };
    let outcome = run_play::<Routes, _, _, _>(
        alloc,
        &mut streams.input,
        script,
        &mut streams.out,
        &mut streams.err,
        stamp,
    );
    close(streams, outcome)
}

/// Puts a buffer over the reader and over each writer of `devices`. Fails with [`Outcome::Memory`] if
/// memory allocation fails; the devices are dropped then.
fn buffer_devices<R: Read + Drop, O: Write + Drop, E: Write + Drop>(
    alloc: Global,
    devices: Devices<R, O, E>,
) -> Result<BufferedStreams<R, O, E>, Outcome>
    ensures left { IfOk result (λ streams.
        ⟦<BufferedInput<R> as Input>⟧.left streams.input ≡ R.remaining devices.reader) }
    ensures written { IfOk result (λ streams. buffered_outputs O.contents E.contents streams
        ≡ outputs_of O.contents E.contents devices.out devices.err) }
    ensures input { IfOk result (λ streams.
        ⟦<BufferedInput<R> as Input>⟧.failed streams.input ≡ false) }
    ensures out { IfOk result (λ streams.
        ⟦<BufferedOutput<O> as Output>⟧.failed streams.out ≡ false) }
    ensures err { IfOk result (λ streams.
        ⟦<BufferedOutput<E> as Output>⟧.failed streams.err ≡ false) }
    ensures refused { IfErr result (λ outcome. outcome ≡ Outcome.Memory) }
{
    let Devices { reader, out, err } = devices;
    let reader = BufReader::with_capacity(alloc, BUFFER_SIZE, reader).map_err(
        |error| outcome_of_setup_error(&error),
    )?;
    let out = BufWriter::with_capacity(alloc, BUFFER_SIZE, out).map_err(
        |error| outcome_of_setup_error(&error),
    )?;
    let err = BufWriter::with_capacity(alloc, BUFFER_SIZE, err).map_err(
        |error| outcome_of_setup_error(&error),
    )?;
    Ok(BufferedStreams {
        input: BufferedInput::new(reader),
        out: BufferedOutput::new(out),
        err: BufferedOutput::new(err),
    })
}

/// Returns the result of work that couldn't begin: the outcome `refusal`, and neither input nor
/// writers.
fn failed_before_run<R, O, E>(refusal: Outcome) -> FinishedRun<R, O, E>
    ensures outcome { result.outcome ≡ refusal }
    ensures input { result.input ≡ None }
    ensures writers { result.writers ≡ None }
{
    FinishedRun {
        outcome: refusal,
        input: None,
        writers: None,
    }
}

/// Flushes the buffers of both writers after the program's work ended with `outcome`, and returns
/// that outcome with the input and the writers. If a flush fails, the result has no writers, and
/// its outcome is a write fault, or `Memory` if `outcome` is `Memory`.
fn close<R: Read + Drop, O: Write + Drop, E: Write + Drop>(
    streams: BufferedStreams<R, O, E>,
    outcome: Outcome,
) -> FinishedRun<R, O, E>
    ensures input { result.input ≡ Some streams.input }
    ensures told { IfSome result.writers (λ writers. result.outcome ≡ outcome) }
    ensures kept { HoldsForWriters O.contents E.contents
        (KeepsBoth (buffered_outputs O.contents E.contents streams)) result.writers }
    ensures lost { IsNone result.writers → result.outcome ≡ outcome_without_writers outcome }
{
    match (
        flush_into_writer(streams.out.into_inner()),
        flush_into_writer(streams.err.into_inner()),
    ) {
        (Some(out), Some(err)) => FinishedRun {
            outcome,
            input: Some(streams.input),
            writers: Some((out, err)),
        },
        _ => FinishedRun {
            outcome: outcome_without_writers(outcome),
            input: Some(streams.input),
            writers: None,
        },
    }
}

/// Returns the outcome of the program if its work ended with `outcome`, and flushing a writer then
/// failed: a write fault, or `Memory` if `outcome` is `Memory`.
fn outcome_without_writers(outcome: Outcome) -> Outcome
    ensures { result ≡ outcome_without_writers outcome }
{
    match outcome {
        Outcome::Memory => outcome,
        _ => Outcome::WriteFault,
    }
}

/// Flushes `buffer` and returns the writer that it wraps, or `None` if the writer fails.
fn flush_into_writer<W: Write + Drop>(mut buffer: BufWriter<W>) -> Option<W>
    ensures { IfSome result (λ writer.
        Keeps (writer_contents W.contents buffer) (W.contents writer)) }
{
    buffer.flush().ok()?;
    buffer.into_inner().ok()
}
