//! Executing the commands of a script. `play.rt` calls [`execute_command`] for each; the commands
//! that move the player are in `execution/moves.rt`, and those that print parts of its routing
//! table in `execution/queries.rt`.

mod moves;
mod queries;

ghost use Rattle.std.specs.Prelude.{◌≡◌, ◌+◌, ◌||◌, ℕ, IsTrue};
ghost use Rattle.bgpdump_tool.specs.declared.play.TheConstants.{LONGEST_SCRIPT};
ghost use Rattle.bgpdump_lines.specs.Flushing.{AreFlushed};
ghost use Rattle.bgpdump_lines.specs.WrittenSoFar.{is_read_fault, is_write_fault};
ghost use Rattle.bgpdump_tool.specs.Execution.{HasRoom, HoldsForRunStates, ExecutesCommand};

use crate::command::Command;
use crate::replies::{replied, write_labelled_numbers};
use crate::session::Session;
use bgpdump_lines::{Outcome, Output};
use mrt_wire::{Input, Route};
use prefix_store::PrefixStore;
use std::rc::Rc;

/// Executes `command`, a command of a script, on the player of `session`: reads the records that it
/// needs from `input`, reports the faulty ones to `err`, and then writes its reply to `out`. Fails
/// with the [`Outcome`] that ends the program: a failed read or write, an input that is too long,
/// or a lack of memory; how much of the command was executed is unspecified then. Requires, so that
/// no count overflows, that at most 2^40 octets were taken from `input`, and that the player has at
/// most 2^20 ([`LONGEST_SCRIPT`](crate::LONGEST_SCRIPT)) more steps (played events) than octets
/// were taken.
pub(crate) fn execute_command<S: PrefixStore<Rc<Route>>, I: Input, O: Output, E: Output>(
    session: &mut Session<S>,
    input: &mut I,
    out: &mut O,
    err: &mut E,
    command: Command,
) -> Result<(), Outcome>
    requires room { HasRoom session.old.player session.old.source LONGEST_SCRIPT }
    ensures carries_out { HoldsForRunStates I.left O.written E.written (ExecutesCommand command)
        (session.old, input.old, out.old, err.old)
        (session.new, input.new, out.new, err.new) result }
    ensures room { (lost : ℕ) → HasRoom session.old.player session.old.source lost →
        HasRoom session.new.player session.new.source (lost + 1) }
    ensures read { I.failed input.new ≡ (I.failed input.old || is_read_fault result) }
    ensures wrote { (O.failed out.new || E.failed err.new)
        ≡ (O.failed out.old || E.failed err.old || is_write_fault result) }
    ensures flushed { IsTrue (is_read_fault result) →
        AreFlushed (O.pending out.new) (E.pending err.new) }
{
    let text = &mut session.text;
    let table = session.player.table();
    match command {
        Command::Next(count) => moves::next(session, input, out, err, count),
        Command::Back(count) => {
            replied(moves::back(&mut session.player, u64::from(count), out, text))
        }
        Command::Goto(position) => moves::goto(session, input, out, err, position),
        Command::Position => {
            let player = &session.player;
            let numbers: [(&[u8], u64); 2] = [(b"at ", player.at()), (b" ahead ", player.ahead())];
            replied(write_labelled_numbers(&numbers, b"\n", out, text))
        }
        Command::Peers => replied(queries::peers(table, out, text)),
        Command::Table(peer) => replied(queries::table(table, session.alloc, &peer, out, text)),
        Command::Route(peer, prefix) => {
            replied(queries::route(table, &peer, &prefix, out, text))
        }
        Command::Lookup(peer, addr) => { replied(queries::lookup(table, &peer, &addr, out, text)) }
        Command::Lose(peer) => {
            let player = &mut session.player;
            let dropped = moves::play_session_loss(player, session.alloc, peer)?;
            let numbers: [(&[u8], u64); 2] = [(b"at ", player.at()), (b" dropped ", dropped)];
            replied(write_labelled_numbers(&numbers, b"\n", out, text))
        }
        Command::Forget(keep) => {
            let player = &mut session.player;
            let forgotten = player.forget(u64::from(keep));
            let numbers: [(&[u8], u64); 3] = [
                (b"at ", player.at()),
                (b" floor ", player.floor()),
                (b" forgot ", forgotten),
            ];
            replied(write_labelled_numbers(&numbers, b"\n", out, text))
        }
    }
}
