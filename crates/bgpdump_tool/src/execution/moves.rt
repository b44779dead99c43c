//! The commands that move the player: `next`, `back` and `goto`, and `lose`, which plays an event
//! of its own. `execute_command` calls these functions. Read [`next`] first.

ghost use Rattle.std.specs.Prelude.{◌≡◌, ◌-◌, ◌<◌, ◌||◌, ℕ, min, false, IfOk, OnErr, Ok, Err, IsTrue};
ghost use Rattle.prefix_store.specs.declared.store.TheConstants.{GREATEST_COUNT};
ghost use Rattle.rib_player.specs.Timeline.{after_play, ahead_of, undoable};
ghost use Rattle.bgpdump_lines.specs.Flushing.{AreFlushed};
ghost use Rattle.bgpdump_lines.specs.WrittenSoFar.{is_read_fault, is_write_fault, Puts, is_output_fault};
ghost use Rattle.bgpdump_tool.specs.declared.command.Command.TheVariants.{Goto, Next};
ghost use Rattle.bgpdump_tool.specs.declared.play.TheConstants.{LONGEST_SCRIPT};
ghost use Rattle.bgpdump_tool.specs.Execution.{HasRoom, HoldsForRunStates, at_cursor, ExecutesCommand};
ghost use Rattle.bgpdump_tool.specs.Replies.{at_text};
ghost use Rattle.bgpdump_tool.specs.Meaning.{loss};

use crate::replies::{replied, write_position};
use crate::session::Session;
use bgpdump_lines::{Outcome, Output, WriteFault};
use ip_prefix::Text;
use mrt_wire::{ESTABLISHED, Event, Input, Item, Items, Peer, Route, Tag, Time};
use prefix_store::PrefixStore;
use rib_player::Player;
use std::alloc::Global;
use std::rc::Rc;

/// The number of the BGP session state Idle (RFC 6396, section 4.4.1): 1.
const IDLE: u16 = 1;

/// Executes the command `next`: moves the player of `session` forward by `count` steps (played
/// events), or as far as the input goes. Writes the position reached, the number of steps before
/// the player's cursor, to `out`: `at 5`, or `at 5 end` if the input ended first. A step redoes an
/// undone event, or else plays the next one from `input`; each faulty record is reported to `err`
/// and counts as one of the `count` steps. Fails with the [`Outcome`] that ends the program: a
/// failed read or write, an input that is too long, or a lack of memory; how far the player has
/// moved is unspecified then. Requires, so that no count overflows, that at most 2^40 octets were
/// taken from `input`, and that the player has at most 2^20
/// ([`LONGEST_SCRIPT`](crate::LONGEST_SCRIPT)) more steps (played events) than octets were taken.
pub(crate) fn next<S: PrefixStore<Rc<Route>>, I: Input, O: Output, E: Output>(
    session: &mut Session<S>,
    input: &mut I,
    out: &mut O,
    err: &mut E,
    count: u32,
) -> Result<(), Outcome>
    requires room { HasRoom session.old.player session.old.source LONGEST_SCRIPT }
    ensures carries_out { HoldsForRunStates I.left O.written E.written
        (ExecutesCommand (Next count))
        (session.old, input.old, out.old, err.old)
        (session.new, input.new, out.new, err.new) result }
    ensures room { (lost : ℕ) → HasRoom session.old.player session.old.source lost →
        HasRoom session.new.player session.new.source lost }
    ensures read { I.failed input.new ≡ (I.failed input.old || is_read_fault result) }
    ensures wrote { (O.failed out.new || E.failed err.new)
        ≡ (O.failed out.old || E.failed err.old || is_write_fault result) }
    ensures flushed { IsTrue (is_read_fault result) →
        AreFlushed (O.pending out.new) (E.pending err.new) }
{
    'steps: for _ in 0..count {
        let ended = session.step_forward(input, out, err)?;
        if ended {
            return replied(write_position(session.player.at(), ended, out, &mut session.text));
        }
    }
    replied(write_position(session.player.at(), false, out, &mut session.text))
}

/// Executes the command `goto`: undoes, redoes or plays events until `position` events are before
/// the cursor of the player in `session`, and writes the position reached to `out`, such as `at 5`.
/// A move back ends early at the oldest event that can be undone, and a move forward at the end of
/// the input (`at 5 end`). Each faulty record is reported to `err` and counts as no event. Fails
/// with the [`Outcome`] that ends the program: a failed read or write, an input that is too long,
/// or a lack of memory; how far the player has moved is unspecified then. Requires, so that no
/// count overflows, that at most 2^40 octets were taken from `input`, and that the player has at
/// most 2^20 ([`LONGEST_SCRIPT`](crate::LONGEST_SCRIPT)) more steps (played events) than octets
/// were taken.
pub(crate) fn goto<S: PrefixStore<Rc<Route>>, I: Input, O: Output, E: Output>(
    session: &mut Session<S>,
    input: &mut I,
    out: &mut O,
    err: &mut E,
    position: u32,
) -> Result<(), Outcome>
    requires room { HasRoom session.old.player session.old.source LONGEST_SCRIPT }
    ensures carries_out { HoldsForRunStates I.left O.written E.written
        (ExecutesCommand (Goto position))
        (session.old, input.old, out.old, err.old)
        (session.new, input.new, out.new, err.new) result }
    ensures room { (lost : ℕ) → HasRoom session.old.player session.old.source lost →
        HasRoom session.new.player session.new.source lost }
    ensures read { I.failed input.new ≡ (I.failed input.old || is_read_fault result) }
    ensures wrote { (O.failed out.new || E.failed err.new)
        ≡ (O.failed out.old || E.failed err.old || is_write_fault result) }
    ensures flushed { IsTrue (is_read_fault result) →
        AreFlushed (O.pending out.new) (E.pending err.new) }
{
    let at = session.player.at();
    if u64::from(position) < at {
        let count = at - u64::from(position);
        return replied(back(&mut session.player, count, out, &mut session.text));
    }
    'steps: while session.player.at() < u64::from(position) {
        if session.step_forward(input, out, err)? {
            return replied(write_position(session.player.at(), true, out, &mut session.text));
        }
    }
    replied(write_position(session.player.at(), false, out, &mut session.text))
}

/// Undoes the last `count` steps (played events) before the player's cursor, or all that can be
/// undone if these are fewer: steps that were forgotten ([`Player::forget`]) can't be.
fn undo_steps<S: PrefixStore<Rc<Route>>>(player: &mut Player<S>, count: u64)
    ensures { player.new ≡
        at_cursor (player.old.cursor - min count (undoable player.old)) player.old }
{
    'steps: for _ in 0..count {
        if player.undo().is_err() {
            return;
        }
    }
}

/// Executes the command `back`: undoes the last `count` steps (played events) before the player's
/// cursor, or all that can be undone if these are fewer. Writes the position reached, the number of
/// steps before the cursor, to `out`, such as `at 5`. Overwrites `text`, a buffer. Fails if memory
/// allocation or `out` fails; some of the reply's first octets may have been written then, and the
/// steps are undone even so.
pub(crate) fn back<S: PrefixStore<Rc<Route>>, O: Output>(
    player: &mut Player<S>,
    count: u64,
    out: &mut O,
    text: &mut Text,
) -> Result<(), WriteFault>
    ensures player { player.new ≡
        at_cursor (player.old.cursor - min count (undoable player.old)) player.old }
    ensures text { Puts (O.written out.old) (O.written out.new) (at_text player.new.cursor false)
        result }
    ensures failed { O.failed out.new ≡ (O.failed out.old || is_output_fault result) }
{
    undo_steps(player, count);
    write_position(player.at(), false, out, text)
}

/// Plays the loss of the session with `peer` as the next step, for the command `lose`: a change of
/// the session's state from Established to Idle at time 0, which removes the peer's routes. Drops
/// the steps (played events) after the player's cursor, which were undone and can't be redone any
/// more, and returns how many these were. Requires that the player's position, the number of steps
/// before its cursor, is below `u64::MAX`. Fails if memory allocation fails; `player` is unchanged
/// then.
pub(crate) fn play_session_loss<S: PrefixStore<Rc<Route>>>(
    player: &mut Player<S>,
    alloc: Global,
    peer: Peer,
) -> Result<u64, WriteFault>
    requires { player.old.cursor < GREATEST_COUNT }
    ensures played { IfOk result (λ dropped. (player.new ≡ after_play player.old (loss peer))
        × (dropped ≡ ahead_of player.old)) }
    ensures refused { OnErr result ((player.new ≡ player.old) × (result ≡ Err WriteFault.Memory)) }
{
    let mut items = Vec::with_capacity(alloc, 1)?;
    let lost = Item::State(peer, ESTABLISHED, IDLE);
    items.push_reserved(lost);
    let event = Event {
        time: Time {
            seconds: 0,
            micros: None,
        },
        tag: Tag::Bgp4mp,
        items: Items::from_vec(items),
    };
    player.play(&event).map_err(|_| WriteFault::Memory)
}
