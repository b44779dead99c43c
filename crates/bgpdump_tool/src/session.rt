//! The state of the execution of a script, and its steps forward. `play.rt` makes a [`Session`] for
//! each script, and the commands of `execution.rt` act on it; read [`Session::step_forward`] first.

ghost use Rattle.std.specs.Prelude.{◌≡◌, ◌<◌, ◌+◌, ◌||◌, ℕ, false, IfOk, OnOk, IsTrue, is_err};
ghost use Rattle.std.specs.Io.KnownBytes.{Keeps};
ghost use Rattle.rib_player.specs.Timeline.{ahead_of, fresh};
ghost use Rattle.mrt_wire.specs.Results.{start_state};
ghost use Rattle.mrt_wire.specs.declared.next.Phase.{Phase};
ghost use Rattle.bgpdump_lines.specs.Flushing.{AreFlushed};
ghost use Rattle.bgpdump_lines.specs.declared.dump.TheConstants.{INPUT_LIMIT};
ghost use Rattle.bgpdump_lines.specs.WrittenSoFar.{IsReadyToRead, is_read_fault, is_write_fault};
ghost use Rattle.bgpdump_tool.specs.declared.play.TheConstants.{LONGEST_SCRIPT};
ghost use Rattle.bgpdump_tool.specs.Execution.{HasRoom, run_state_from_devices, Steps};

use bgpdump_lines::{INPUT_LIMIT, OutFault, Outcome, Output, flush_before_waiting, write_report};
use ip_prefix::Text;
use mrt_wire::{Input, Next, Route, Source, Stamp};
use prefix_store::PrefixStore;
use rib_player::Player;
use std::alloc::Global;
use std::mem;
use std::rc::Rc;

/// The state of the execution of a script: a player, which applies events to a routing table and
/// undoes them, and the source of the events that it plays next.
#[derive(Drop)]
pub(crate) struct Session<S: PrefixStore<Rc<Route>>> {
    /// The allocator of the texts and of the player.
    pub(crate) alloc: Global,
    /// The player: a routing table, the played events (steps) that led to it, and a cursor among
    /// them.
    pub(crate) player: Player<S>,
    /// The reader of the input's records, and the events that are played next.
    pub(crate) source: Source,
    /// Whether a faulty record or a bad line was reported to standard error.
    pub(crate) reported: bool,
    /// A buffer that a text is assembled in before it is written. Its contents are unspecified.
    pub(crate) text: Text,
}

impl<S: PrefixStore<Rc<Route>>> Session<S> {
    /// Returns the state before the first line of a script: nothing is played, read or reported.
    /// `stamp` selects the time of routes from table dumps: when the table was dumped, or when the
    /// route last changed.
    pub(crate) fn new(alloc: Global, stamp: Stamp) -> Self
        ensures player { result.player ≡ fresh }
        ensures source { result.source ≡ start_state stamp INPUT_LIMIT }
        ensures reported { result.reported ≡ false }
    {
        Session {
            alloc,
            player: Player::new(alloc),
            source: Source::new(alloc, stamp, INPUT_LIMIT),
            reported: false,
            text: Text::new(alloc),
        }
    }

    /// Ends the execution of a script: drops its state, or leaks it if dropping a store of type `S`
    /// leaves the memory of its routes to the system ([`PrefixStore::leaks_on_drop`]). The program
    /// ends soon after, and freeing the routes one by one would take long.
    pub(crate) fn end(self) {
        if S::leaks_on_drop() {
            mem::forget(self);
        }
    }

    /// Flushes `out` and `err` if the next read from `input` may wait. Does nothing if no further
    /// record is read, since the input has ended or failed, or if `input` has the whole next record
    /// in its buffer. Fails if a flush fails.
    fn flush_before_record<I: Input, O: Output, E: Output>(
        &self,
        input: &I,
        out: &mut O,
        err: &mut E,
    ) -> Result<(), OutFault>
        ensures out { Keeps (O.written out.old) (O.written out.new) }
        ensures err { Keeps (E.written err.old) (E.written err.new) }
        ensures flushed { OnOk result (self.now.source.phase ≡ Phase.Reading →
            IsReadyToRead (I.buffered input.now) (O.pending out.new) (E.pending err.new)) }
        ensures failed { (O.failed out.new || E.failed err.new)
            ≡ (O.failed out.old || E.failed err.old || is_err result) }
    {
        if self.source.is_reading() {
            return flush_before_waiting(input, out, err);
        }
        Ok(())
    }

    /// Moves the player one step forward: applies an undone event again, or else reads a record
    /// from `input` and plays its event. If that record is faulty, it is reported to `err` instead,
    /// and the player stays as it was. Before a read that may wait, `out` and `err` are flushed.
    /// Returns `true` if neither an undone event nor a record was left, and `false` otherwise.
    /// Fails with the [`Outcome`] that ends the program: a failed read or write, an input that is
    /// too long, or a lack of memory; the player is unchanged then. Requires, so that no count
    /// overflows, that at most 2^40 octets were taken from `input`, and that the player has at most
    /// 2^20 ([`LONGEST_SCRIPT`](crate::LONGEST_SCRIPT)) more steps (played events) than octets were
    /// taken.
    pub(crate) fn step_forward<I: Input, O: Output, E: Output>(
        &mut self,
        input: &mut I,
        out: &mut O,
        err: &mut E,
    ) -> Result<bool, Outcome>
        requires room { HasRoom self.old.player self.old.source LONGEST_SCRIPT }
        ensures steps { Steps
            (run_state_from_devices I.left E.written self.old input.old err.old)
            (run_state_from_devices I.left E.written self.new input.new err.new) result }
        ensures room { (lost : ℕ) → HasRoom self.old.player self.old.source lost →
            HasRoom self.new.player self.new.source lost }
        ensures smaller { IfOk result (λ ended. ended ≡ false →
            ahead_of self.new.player + self.old.source.offset
            < ahead_of self.old.player + self.new.source.offset) }
        ensures out { Keeps (O.written out.old) (O.written out.new) }
        ensures read { I.failed input.new ≡ (I.failed input.old || is_read_fault result) }
        ensures wrote { (O.failed out.new || E.failed err.new)
            ≡ (O.failed out.old || E.failed err.old || is_write_fault result) }
        ensures flushed { IsTrue (is_read_fault result) →
            AreFlushed (O.pending out.new) (E.pending err.new) }
    {
        if self.player.redo().is_ok() {
            return Ok(false);
        }
        self.flush_before_record(input, out, err)?;
        match self.source.next(input)? {
            Next::Event(event) => {
                self.player.play(&event).map_err(|_| Outcome::Memory)?;
                self.source.recycle(Next::Event(event));
                self.player.drop_unused_routes();
                Ok(false)
            }
            Next::Bad(fault) => {
                self.reported = true;
                write_report(err, &mut self.text, fault)?;
                Ok(false)
            }
            Next::End => Ok(true),
        }
    }
}
