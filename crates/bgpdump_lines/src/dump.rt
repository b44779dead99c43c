//! An execution of `bgpdump -m`: reads MRT records until the input ends, and writes each of them as lines
//! of text. The program calls [`run_dump`]; read it first, then `write.rt`, which writes a record.

ghost use Rattle.std.specs.Prelude.{◌≡◌, ◌≢◌, ◌↔◌, ◌||◌, ℕ, List, false, IsTrue, length};
ghost use Rattle.std.specs.Io.KnownBytes.{Consumes};
ghost use Rattle.mrt_wire.specs.Results.{start_state, TakesFront};
ghost use Rattle.mrt_wire.specs.Answered.{answer_results, is_nothing};
ghost use Rattle.bgpdump_lines.specs.Run.{dump_texts, outputs_of, EndsOnKnownInput, IsTaken, SawEnd, HoldsForDevices, EndsForAllContents, WritesBeforeInputFault};
ghost use Rattle.bgpdump_lines.specs.Flushing.{AreFlushed, LeavesFlushed};
ghost use Rattle.bgpdump_lines.specs.WrittenSoFar.{is_read_fault, is_write_fault, EndsUnfinished};

use crate::line_cache::LineCache;
use crate::outcome::Outcome;
use crate::output::{Output, finish_outputs, flush_before_waiting};
use crate::write::write_lines_or_report;
use ip_prefix::Text;
use mrt_wire::{Input, Next, Source, Stamp};
use std::alloc::Global;

/// The largest number of octets that an execution of the program takes from its input: 2^40. If it
/// needs to read on after these, it ends as [`Outcome::InputTooLong`].
pub const INPUT_LIMIT: u64 = 1 << 40;

/// Writes the MRT records (RFC 6396) in `input` as text: the lines of their routes, withdrawals and
/// state changes to `out`, and a line for each faulty record to `err`. Each record is written
/// before the next one is read, and both outputs are flushed before a read that may wait. `stamp`
/// selects which time the routes of tables get: when the table was dumped, or when the route last
/// changed. Requires that neither `input` nor an output has failed before.
///
/// It stops at the end of the input, after a header with a length above 16,777,216 octets (which is
/// reported to `err`), or at the first error: a failed read, write or flush, an input that is too
/// long ([`INPUT_LIMIT`]), or a lack of memory. The [`Outcome`] says which. If there was no error,
/// it calls [`Output::finish`] of `out` and then of `err` at the end.
pub fn run_dump<I: Input, O: Output, E: Output>(
    alloc: Global,
    input: &mut I,
    out: &mut O,
    err: &mut E,
    stamp: Stamp,
) -> Outcome
    requires input_sound { I.failed input.old ≡ false }
    requires out_sound { O.failed out.old ≡ false }
    requires err_sound { E.failed err.old ≡ false }

    // Of devices that don't show their octets, clauses on octets state nothing. Written octets may
    // still be in a buffer of the output, unless `flushed` says otherwise.

    // If the input shows its octets, the lines and reports of the records in them are written: whole
    // if the run is done or has reported faults, or else prefixes of these texts.
    ensures octets { EndsOnKnownInput stamp result dump_texts (I.left input.old)
        (outputs_of O.written E.written out.old err.old)
        (outputs_of O.written E.written out.new err.new) }

    // The same holds if other octets had followed those taken: nothing that is written depends on
    // octets that weren't. But none may follow if the run has met the end of the input.
    ensures text { HoldsForDevices I.left O.written E.written
        (EndsForAllContents stamp result (SawEnd result) dump_texts)
        (input.old, out.old, err.old) (input.new, out.new, err.new) }

    // A run that ends as the input fails or is too long has written exactly the lines and reports of
    // the whole records taken.
    ensures whole_records { HoldsForDevices I.left O.written E.written
        (WritesBeforeInputFault stamp result dump_texts)
        (input.old, out.old, err.old) (input.new, out.new, err.new) }

    // No line waits: outputs that tell what they hold back hold nothing back after a run that is done
    // or has reported faults, or in which a read failed. Any read that asks the device may fail, and
    // nothing is flushed after that, so all was flushed before it.
    ensures flushed { LeavesFlushed result (O.pending out.new) (E.pending err.new) }

    // At most 2^40 octets are taken: whole records, and then the octets after them, but none after a
    // header with a length that is too great. After an error the last record may be taken in part,
    // and after `Memory` maybe a whole one that counts for nothing.
    ensures taken { (taken : List ℕ) × Consumes (I.left input.old) (I.left input.new) taken
        × IsTaken stamp result taken }

    // The faults with which the run ends, and exactly when; of `too_long` only what it implies, and
    // of `Memory` nothing.
    ensures read_fault { (result ≡ Outcome.ReadFault) ↔ IsTrue (I.failed input.new) }
    ensures write_fault { (result ≡ Outcome.WriteFault)
        ↔ IsTrue (O.failed out.new || E.failed err.new) }
    ensures too_long { result ≡ Outcome.InputTooLong → (taken after : List ℕ) →
        TakesFront (I.left input.old) (I.left input.new) taken after → length taken ≡ INPUT_LIMIT }
    ensures no_script { result ≢ Outcome.ScriptTooLong }
{
    match dump_all(alloc, input, out, err, stamp) {
        Ok(reported) => finish_outputs(out, err, reported),
        Err(outcome) => outcome,
    }
}

/// Writes the MRT records in `input` as [`run_dump`] does, but doesn't call [`Output::finish`]
/// after the last one. `stamp` selects which time the routes of tables get: when the table was
/// dumped, or when the route last changed. Returns `true` if at least one faulty record was
/// reported to `err`, and `false` if none was. Fails with the [`Outcome`] of the program: a failed
/// read or write, an input that is too long ([`INPUT_LIMIT`]), or a lack of memory.
fn dump_all<I: Input, O: Output, E: Output>(
    alloc: Global,
    input: &mut I,
    out: &mut O,
    err: &mut E,
    stamp: Stamp,
) -> Result<bool, Outcome>
    requires sound { (O.failed out.old || E.failed err.old) ≡ false }
    ensures ends { HoldsForDevices I.left O.written E.written
        (EndsUnfinished (start_state stamp INPUT_LIMIT) result)
        (input.old, out.old, err.old) (input.new, out.new, err.new) }
    ensures read { I.failed input.new ≡ (I.failed input.old || is_read_fault result) }
    ensures wrote { (O.failed out.new || E.failed err.new) ≡ is_write_fault result }
    ensures flushed { IsTrue (is_read_fault result) →
        AreFlushed (O.pending out.new) (E.pending err.new) }
{
    let mut source = Source::new(alloc, stamp, INPUT_LIMIT);
    let mut text = Text::new(alloc);
    let mut cache = LineCache::new(alloc);
    let mut reported = false;
    'steps: loop {
        flush_before_waiting(input, out, err)?;
        let next = source.next(input)?;
        if let Next::End = next {
            return Ok(reported);
        }
        reported |= write_lines_or_report(out, err, &mut text, &mut cache, &next)?;
        source.recycle(next);
    }
}
