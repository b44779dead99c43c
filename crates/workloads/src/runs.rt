//! Runs over files, as the program makes them: through buffers of 64 KiB.

use bgpdump_tool::{BufferedOutput, Outcome, run_dump, run_play};
use mrt_wire::{BufferedInput, Route, Stamp};
use rib_store::{LeakingStore, RadixStore};
use std::alloc::Global;
use std::io;
use std::io::{BufReader, BufWriter};
use std::rc::Rc;
use workload_inputs::{Digest, File, Sum};

/// How many octets each buffer holds.
const BUFFER: usize = 65_536;

/// The store of the program's player.
type Routes = LeakingStore<RadixStore<Rc<Route>>>;

/// A writer of what a run writes.
type Writer = BufWriter<Digest>;

/// What a run wrote, and how it ended.
#[derive(Clone, Copy)]
pub(crate) struct Ran {
    pub(crate) outcome: Outcome,
    pub(crate) lines: Sum,
    pub(crate) reports: Sum,
}

/// The writers of lines and of reports.
#[derive(Drop)]
struct Writers {
    lines: Writer,
    reports: Writer,
}

/// A writer to which nothing was written.
fn new_writer(alloc: Global) -> io::Result<Writer> {
    BufWriter::with_capacity(alloc, BUFFER, Digest::new())
}

/// Writers to which nothing was written.
fn new_writers(alloc: Global) -> io::Result<Writers> {
    let lines = new_writer(alloc)?;
    Ok(Writers {
        lines,
        reports: new_writer(alloc)?,
    })
}

/// What was written to the output; nothing where it couldn't be handed on.
fn sum_of(output: BufferedOutput<Digest>) -> Option<Sum> {
    match output.into_inner().into_inner() {
        Ok(digest) => Some(digest.sum()),
        Err(_) => None,
    }
}

/// How the run ended, with what it wrote.
fn ended(
    outcome: Outcome,
    out: BufferedOutput<Digest>,
    err: BufferedOutput<Digest>,
) -> io::Result<Ran> {
    let (Some(lines), Some(reports)) = (sum_of(out), sum_of(err)) else {
        return Err(io::ErrorKind::Other.into());
    };
    Ok(Ran {
        outcome,
        lines,
        reports,
    })
}

/// The lines of a file.
pub(crate) fn dumped(alloc: Global, file: File) -> io::Result<Ran> {
    let reader = BufReader::with_capacity(alloc, BUFFER, file)?;
    dump(alloc, reader, new_writers(alloc)?)
}

/// Dumps what is read.
fn dump(alloc: Global, reader: BufReader<File>, writers: Writers) -> io::Result<Ran> {
    let mut input = BufferedInput::new(reader);
    let mut out = BufferedOutput::new(writers.lines);
    let mut err = BufferedOutput::new(writers.reports);
    let outcome = run_dump(alloc, &mut input, &mut out, &mut err, Stamp::Dump);
    ended(outcome, out, err)
}

/// The replies to a script over a file.
pub(crate) fn played(alloc: Global, file: File, script: &str) -> io::Result<Ran> {
    let reader = BufReader::with_capacity(alloc, BUFFER, file)?;
    play(alloc, reader, new_writers(alloc)?, script)
}

/// Plays what is read.
fn play(alloc: Global, reader: BufReader<File>, writers: Writers, script: &str) -> io::Result<Ran> {
    let mut input = BufferedInput::new(reader);
    let mut out = BufferedOutput::new(writers.lines);
    let mut err = BufferedOutput::new(writers.reports);
    let outcome = run_play::<Routes, _, _, _>(
        alloc,
        &mut input,
        script.as_bytes(),
        &mut out,
        &mut err,
        Stamp::Dump,
    );
    ended(outcome, out, err)
}
