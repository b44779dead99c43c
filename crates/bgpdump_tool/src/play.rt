//! Executing a script from its first line to its last. The program calls [`run_play`]; read that
//! first, then `execute_line`, which executes one line.

ghost use Rattle.std.specs.Prelude.{◌≡◌, ◌↔◌, ◌<◌, ◌≤◌, ◌+◌, ◌||◌, ℕ, List, false, IsTrue, length};
ghost use Rattle.std.specs.Io.KnownBytes.{Consumes};
ghost use Rattle.mrt_wire.specs.Results.{start_state, TakesFront};
ghost use Rattle.rib_player.specs.Timeline.{fresh};
ghost use Rattle.bgpdump_lines.specs.declared.dump.TheConstants.{INPUT_LIMIT};
ghost use Rattle.bgpdump_lines.specs.Flushing.{AreFlushed, LeavesFlushed};
ghost use Rattle.bgpdump_lines.specs.WrittenSoFar.{is_read_fault, is_write_fault};
ghost use Rattle.bgpdump_lines.specs.Run.{IsTaken, HoldsForDevices, outputs_of};
ghost use Rattle.bgpdump_tool.specs.Course.{ScriptEndsOnKnownInput, ScriptEndsForAllContents, BrokenOffScriptWrites, ScriptWritesBeforeInputFault, TakesOnlyWantedRecords};
ghost use Rattle.bgpdump_tool.specs.Execution.{HasRoom, HoldsForRunStates, ExecutesLine, ExecutesLines};

use crate::command::read_command;
use crate::execution::execute_command;
use crate::replies::write_labelled_numbers;
use crate::session::Session;
use crate::words::split_once;
use bgpdump_lines::{Outcome, Output, finish_outputs};
use mrt_wire::{Input, Route, Stamp};
use prefix_store::PrefixStore;
use std::alloc::Global;
use std::rc::Rc;

/// The greatest size of a script that is executed, in octets: 2^20. With more octets the program
/// ends as [`Outcome::ScriptTooLong`].
pub const LONGEST_SCRIPT: usize = 1 << 20;

/// Executes the commands of `script` over the MRT records of `input` (RFC 6396), and returns how
/// that ended. A new player applies the records' events to a routing table and undoes them; `S` is
/// the type of the stores that hold its routes. Replies go to `out`, reports of faulty records and
/// bad lines to `err`, each before the next record or line is read. Both are flushed before a read
/// that may wait. Records that no command needs aren't read. `stamp` selects the time of routes
/// from table dumps: when the table was dumped, or when the route last changed. Requires that none
/// of `input`, `out` and `err` has failed before. If nothing fails, calls [`Output::finish`], which
/// flushes, on `out` and then on `err`.
///
/// A script of more than 1,048,576 octets isn't executed: the outcome is `ScriptTooLong`.
pub fn run_play<S: PrefixStore<Rc<Route>>, I: Input, O: Output, E: Output>(
    alloc: Global,
    input: &mut I,
    script: &[u8],
    out: &mut O,
    err: &mut E,
    stamp: Stamp,
) -> Outcome
    requires input_sound { I.failed input.old ≡ false }
    requires out_sound { O.failed out.old ≡ false }
    requires err_sound { E.failed err.old ≡ false }

    // Of devices that don't show their octets, clauses on octets state nothing. Written octets may
    // still be in a buffer of the output, unless `flushed` says otherwise.

    // If the input shows its octets, the texts of the script over them are written: whole if the run
    // is done (without reports) or has reported faults or bad lines, or else prefixes of these
    // texts.
    ensures octets { ScriptEndsOnKnownInput stamp script.now result (I.left input.old)
        (outputs_of O.written E.written out.old err.old)
        (outputs_of O.written E.written out.new err.new) }

    // The same holds if other octets had followed those taken: nothing that is written depends on
    // octets that weren't. But none follow if nothing was left and the run, ended otherwise than by
    // `ReadFault` or `InputTooLong`, saw the end: the octets taken end within a record, or a line
    // that was executed (after `Memory` or `WriteFault`, any line of the script) wants more results
    // than they give.
    ensures text { HoldsForDevices I.left O.written E.written
        (ScriptEndsForAllContents stamp script.now result)
        (input.old, out.old, err.old) (input.new, out.new, err.new) }

    // What a run that is out of memory, or whose output fails, has written is the texts of some
    // first lines, and maybe a prefix of what the next line adds, whatever octets may follow those
    // taken. But none may if nothing was left and the octets taken end within a record, or one of
    // these lines, the next one executed in full, wants more results than they give.
    ensures began { HoldsForDevices I.left O.written E.written
        (BrokenOffScriptWrites stamp script.now result)
        (input.old, out.old, err.old) (input.new, out.new, err.new) }

    // A run that ends as the input fails or is too long has written exactly what the whole records
    // taken give: the replies to the commands that it completed, and the reports of faulty records
    // and of bad lines before.
    ensures whole_records { HoldsForDevices I.left O.written E.written
        (ScriptWritesBeforeInputFault stamp script.now result)
        (input.old, out.old, err.old) (input.new, out.new, err.new) }

    // In a run that is done or has reported faults, the commands take every result of the octets
    // taken. If the input failed or is too long, a command wanted more results. If memory or an
    // output failed, this states nothing.
    ensures wanted { TakesOnlyWantedRecords stamp script.now result
        (I.left input.old) (I.left input.new) }

    // No reply waits: outputs that tell what they hold back hold nothing back after a run that is
    // done or has reported faults, or in which a read failed (`ReadFault`). Any read that asks the
    // device may fail, and nothing is flushed after that, so all was flushed before it.
    ensures flushed { LeavesFlushed result (O.pending out.new) (E.pending err.new) }

    // At most 2^40 octets are taken: whole records, and then the octets after them, but none after
    // a header with a length that is too great. After an error the last record may be taken in
    // part, and after `Memory` maybe a whole one that counts for nothing.
    ensures taken { length script.now ≤ LONGEST_SCRIPT →
        (taken : List ℕ) × Consumes (I.left input.old) (I.left input.new) taken
        × IsTaken stamp result taken }

    // The faults with which the run ends, and exactly when; of `too_long` only what it implies, and
    // of `Memory` nothing.
    ensures read_fault { (result ≡ Outcome.ReadFault) ↔ IsTrue (I.failed input.new) }
    ensures write_fault { (result ≡ Outcome.WriteFault)
        ↔ IsTrue (O.failed out.new || E.failed err.new) }
    ensures too_long { result ≡ Outcome.InputTooLong → (taken after : List ℕ) →
        TakesFront (I.left input.old) (I.left input.new) taken after → length taken ≡ INPUT_LIMIT }
    ensures script_too_long { (result ≡ Outcome.ScriptTooLong)
        ↔ (LONGEST_SCRIPT < length script.now) }
    ensures untouched { result ≡ Outcome.ScriptTooLong →
        (input.new ≡ input.old) × (out.new ≡ out.old) × (err.new ≡ err.old) }
{
    if script.len() > LONGEST_SCRIPT {
        return Outcome::ScriptTooLong;
    }
    let mut session: Session<S> = Session::new(alloc, stamp);
    match execute_lines(&mut session, input, script, out, err) {
        Ok(()) => {
            let outcome = finish_outputs(out, err, session.reported);
            session.end();
            outcome
        }
        Err(outcome) => {
            session.end();
            outcome
        }
    }
}

/// Executes the lines of `script` in order. Skips empty lines, and reports a line that is no
/// command to `err` with its number, counted from 1. Requires that `session` is new, as
/// [`Session::new`] returns it, and that the script has at most [`LONGEST_SCRIPT`] octets. Fails
/// with the [`Outcome`] that ends the program: a failed read or write, an input that is too long,
/// or a lack of memory. The lines after the one that failed aren't executed then.
fn execute_lines<S: PrefixStore<Rc<Route>>, I: Input, O: Output, E: Output>(
    session: &mut Session<S>,
    input: &mut I,
    script: &[u8],
    out: &mut O,
    err: &mut E,
) -> Result<(), Outcome>
    requires short { length script.now ≤ LONGEST_SCRIPT }
    requires player { session.old.player ≡ fresh }
    requires source { session.old.source ≡ start_state session.old.source.stamp INPUT_LIMIT }
    requires reported { session.old.reported ≡ false }
    ensures plays { HoldsForRunStates I.left O.written E.written (ExecutesLines script.now)
        (session.old, input.old, out.old, err.old)
        (session.new, input.new, out.new, err.new) result }
    ensures read { I.failed input.new ≡ (I.failed input.old || is_read_fault result) }
    ensures wrote { (O.failed out.new || E.failed err.new)
        ≡ (O.failed out.old || E.failed err.old || is_write_fault result) }
    ensures flushed { IsTrue (is_read_fault result) →
        AreFlushed (O.pending out.new) (E.pending err.new) }
{
    let mut rest = script;
    let mut number: u64 = 1;
    'lines: while let Some(found) = split_once(rest, b'\n') {
        execute_line(session, input, found.0, number, out, err)?;
        number += 1;
        rest = found.1;
    }
    execute_line(session, input, rest, number, out, err)
}

/// Executes the command in a line of a script, given without its line feed; an empty line does
/// nothing. The command may read records from `input`, and its reply goes to `out`. A line that is
/// no command is reported to `err` with its `number`, counted from 1, such as
/// `bgpdump: script line 3: bad command`. Fails with the [`Outcome`] that ends the program: a
/// failed read or write, an input that is too long, or a lack of memory; how much of the line was
/// executed is unspecified then. Requires, so that no count overflows, that at most 2^40 octets
/// were taken from `input`, and that the player of `session` has at most 2^20
/// ([`LONGEST_SCRIPT`](crate::LONGEST_SCRIPT)) more steps (played events) than octets were taken.
fn execute_line<S: PrefixStore<Rc<Route>>, I: Input, O: Output, E: Output>(
    session: &mut Session<S>,
    input: &mut I,
    line: &[u8],
    number: u64,
    out: &mut O,
    err: &mut E,
) -> Result<(), Outcome>
    requires room { HasRoom session.old.player session.old.source LONGEST_SCRIPT }
    ensures carries_line { HoldsForRunStates I.left O.written E.written
        (ExecutesLine line.now number)
        (session.old, input.old, out.old, err.old)
        (session.new, input.new, out.new, err.new) result }
    ensures room { (lost : ℕ) → HasRoom session.old.player session.old.source lost →
        HasRoom session.new.player session.new.source (lost + 1) }
    ensures read { I.failed input.new ≡ (I.failed input.old || is_read_fault result) }
    ensures wrote { (O.failed out.new || E.failed err.new)
        ≡ (O.failed out.old || E.failed err.old || is_write_fault result) }
    ensures flushed { IsTrue (is_read_fault result) →
        AreFlushed (O.pending out.new) (E.pending err.new) }
{
    if line.is_empty() {
        return Ok(());
    }
    match read_command(line) {
        Some(command) => execute_command(session, input, out, err, command),
        None => {
            session.reported = true;
            let numbers: [(&[u8], u64); 1] = [(b"bgpdump: script line ", number)];
            write_labelled_numbers(&numbers, b": bad command\n", err, &mut session.text)?;
            Ok(())
        }
    }
}
