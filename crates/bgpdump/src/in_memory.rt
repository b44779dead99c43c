//! The program's work over readers and writers in memory, through all layers that lie between it and its
//! devices. The program calls none of these functions: their proofs show that no layer loses, changes or
//! hides an octet. Read [`dump_in_memory`] first.

ghost use Rattle.std.specs.Prelude.{◌≡◌, [], Some, IfOk};
ghost use Rattle.bgpdump_tool.specs.Run.{dump_texts};
ghost use Rattle.bgpdump.specs.Endings.{WritersHoldTexts, WritersHoldReplies};

use crate::hints::{DevicesAndInputNotes, NotedReader};
use crate::run::{Devices, FinishedRun, dump, play};
use bgpdump_tool::Outcome;
use mrt_wire::Stamp;
use std::alloc::{AllocError, Global};
use std::collections::VecDeque;
use std::io::{Read, Write};

/// For proofs only: returns how the program would end if it printed the MRT file that consists of
/// `octets` as `bgpdump -m` does, but to writers in memory, which are dropped with what was
/// written. `stamp` selects the time of routes from table dumps: when the table was dumped, or when
/// the route last changed. Fails if memory allocation fails before the first record is read; any
/// later failure is in the outcome.
pub fn dump_octets(alloc: Global, stamp: Stamp, octets: &[u8]) -> Result<Outcome, AllocError> {
    let mut held = Vec::new(alloc);
    held.extend_from_slice(octets)?;
    let reader: Box<dyn Read + Drop> = Box::new(alloc, VecDeque::from(held))?;
    let out: Box<dyn Write + Drop> = Box::new(alloc, Vec::<u8>::new(alloc))?;
    let err = Vec::<u8>::new(alloc);
    let ended = dump_in_memory(alloc, stamp, octets, Devices { reader, out, err })?;
    Ok(ended.outcome)
}

/// For proofs only: returns how the program would end if it executed the commands of `script` over
/// the MRT file that consists of `octets` as `bgpdump --play` does, but with writers in memory,
/// which are dropped with what was written. `stamp` selects the time of routes from table dumps:
/// when the table was dumped, or when the route last changed. Fails if memory allocation fails
/// before the first record is read; any later failure is in the outcome.
pub fn play_octets(
    alloc: Global,
    stamp: Stamp,
    script: &[u8],
    octets: &[u8],
) -> Result<Outcome, AllocError> {
    let mut held = Vec::new(alloc);
    held.extend_from_slice(octets)?;
    let reader: Box<dyn Read + Drop> = Box::new(alloc, VecDeque::from(held))?;
    let out: Box<dyn Write + Drop> = Box::new(alloc, Vec::<u8>::new(alloc))?;
    let err = Vec::<u8>::new(alloc);
    let ended = play_in_memory(alloc, stamp, script, octets, Devices { reader, out, err })?;
    Ok(ended.outcome)
}

/// Prints the MRT file in `devices.reader` as `bgpdump -m` does, to the writers in `devices`, and
/// returns the outcome with the reader and the writers. `stamp` selects the time of routes from
/// table dumps: when the table was dumped, or when the route last changed. Requires that the reader
/// yields exactly `octets`, a parameter for the contract that isn't used otherwise, and that the
/// writers are empty. Fails if memory allocation for the notes of the input (its first octets and
/// last error) fails; any later failure is in the outcome. Used for proofs only.
fn dump_in_memory<R: Read + Drop, O: Write + Drop, E: Write + Drop>(
    alloc: Global,
    stamp: Stamp,
    octets: &[u8],
    devices: Devices<R, O, E>,
) -> Result<FinishedRun<NotedReader<R>, O, E>, AllocError>
    requires reader { R.remaining devices.reader ≡ Some octets.now }
    requires out { O.contents devices.out ≡ Some [] }
    requires err { E.contents devices.err ≡ Some [] }
    ensures { IfOk result (WritersHoldTexts O.contents E.contents stamp dump_texts octets.now) }
{
    let noted = DevicesAndInputNotes::new(alloc, devices)?;
    Ok(dump(alloc, stamp, noted.devices))
}

/// Executes the commands of `script` over the MRT file in `devices.reader` as `bgpdump --play`
/// does, writes to the writers in `devices`, and returns the outcome with the reader and the
/// writers. `stamp` selects the time of routes from table dumps: when the table was dumped, or when
/// the route last changed. Requires that the reader yields exactly `octets`, a parameter for the
/// contract that isn't used otherwise, and that the writers are empty. Fails if memory allocation
/// for the notes of the input (its first octets and last error) fails; any later failure is in the
/// outcome. Used for proofs only.
fn play_in_memory<R: Read + Drop, O: Write + Drop, E: Write + Drop>(
    alloc: Global,
    stamp: Stamp,
    script: &[u8],
    octets: &[u8],
    devices: Devices<R, O, E>,
) -> Result<FinishedRun<NotedReader<R>, O, E>, AllocError>
    requires reader { R.remaining devices.reader ≡ Some octets.now }
    requires out { O.contents devices.out ≡ Some [] }
    requires err { E.contents devices.err ≡ Some [] }
    ensures { IfOk result (WritersHoldReplies O.contents E.contents stamp script.now octets.now) }
{
    let noted = DevicesAndInputNotes::new(alloc, devices)?;
    Ok(play(alloc, stamp, script, noted.devices))
}
