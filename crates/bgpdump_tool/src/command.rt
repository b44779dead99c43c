//! The commands of a script, and their parser. `play.rt` calls [`read_command`] for each line of a
//! script that isn't empty; read that first.

ghost use Rattle.std.specs.Prelude.{◌∷◌, []};
ghost use Rattle.bgp_wire.specs.Readers.{ParsesTo};
ghost use Rattle.bgpdump_tool.specs.Script.{SpellsCommand, SpellsWords, SpellsPeer, SpellsStepCount};

use crate::words::{equals, parse_number, split_once};
use ip_prefix::{Addr, Prefix, SPACE};
use mrt_wire::Peer;

/// A command of a script (`--play`) to the player, which applies the events of an MRT file to a
/// routing table and undoes them: moves it, or prints parts of its table. A step is one played
/// event. The player's cursor is between two steps: those before it are applied, those after it
/// were undone.
#[derive(Clone, Copy, Debug, PartialEq, Eq)]
pub enum Command {
    /// `next`: moves the player this many steps forward, at least 1. Undone steps are applied again
    /// first; further events are read from the input.
    Next(u32),
    /// `back`: moves the player this many steps back, at least 1.
    Back(u32),
    /// `goto`: moves the player to this position, the number of steps before its cursor.
    Goto(u32),
    /// `where`: prints the position of the player, and the number of steps ahead of it, which were
    /// undone and redo would apply again.
    Position,
    /// `peers`: prints the peers that have routes, and the number of routes of each.
    Peers,
    /// `table`: prints all routes of this peer, and their number.
    Table(Peer),
    /// `route`: prints the route of this peer to this prefix.
    Route(Peer, Prefix),
    /// `lookup`: prints the route of this peer whose prefix is the longest match for this address.
    Lookup(Peer, Addr),
    /// `lose`: plays the loss of the session with this peer as a step of its own.
    Lose(Peer),
    /// `forget`: drops the oldest steps, until at most this many are left that can be undone.
    Forget(u32),
}

/// Parses a line of a script, without its line feed, as a command, such as
/// `lookup 192.0.2.1 65000 198.51.100.7`. Returns `None` if it is no command: it is empty, the name
/// is unknown, an argument is missing, malformed or one too many, or there is a space too many.
pub fn read_command(line: &[u8]) -> Option<Command>
    ensures { ParsesTo SpellsCommand line.now result }
{
    let Some((name, rest)) = split_once(line, SPACE) else {
        return parse_bare_command(line);
    };
    let Some((first, rest)) = split_once(rest, SPACE) else {
        return parse_with_one_argument(name, rest);
    };
    let Some((second, rest)) = split_once(rest, SPACE) else {
        return parse_with_two_arguments(name, first, rest);
    };
    match split_once(rest, SPACE) {
        None => parse_with_three_arguments(name, first, second, rest),
        Some(_) => None,
    }
}

/// Parses a line that consists of the name of a command alone: `next` and `back` (by one step),
/// `where` or `peers`. Returns `None` for any other name.
fn parse_bare_command(name: &[u8]) -> Option<Command>
    ensures { ParsesTo SpellsWords (name.now ∷ []) result }
{
    if equals(name, b"next") {
        Some(Command::Next(1))
    } else if equals(name, b"back") {
        Some(Command::Back(1))
    } else if equals(name, b"where") {
        Some(Command::Position)
    } else if equals(name, b"peers") {
        Some(Command::Peers)
    } else {
        None
    }
}

/// Parses a command of a name and a number, `word`: `goto`, `next`, `back` or `forget`. Returns
/// `None` for any other name, or if `word` isn't a decimal number from 0 (from 1 for `next` and
/// `back`) to 2^32 - 1 without sign or leading zeros.
fn parse_with_one_argument(name: &[u8], word: &[u8]) -> Option<Command>
    ensures { ParsesTo SpellsWords (name.now ∷ word.now ∷ []) result }
{
    if equals(name, b"goto") {
        Some(Command::Goto(parse_number(word)?))
    } else if equals(name, b"next") {
        Some(Command::Next(parse_step_count(word)?))
    } else if equals(name, b"back") {
        Some(Command::Back(parse_step_count(word)?))
    } else if equals(name, b"forget") {
        Some(Command::Forget(parse_number(word)?))
    } else {
        None
    }
}

/// Parses a number of steps: a decimal number from 1 to 2^32 - 1, without sign or leading zeros.
/// Returns `None` for any other word.
fn parse_step_count(word: &[u8]) -> Option<u32>
    ensures { ParsesTo SpellsStepCount word.now result }
{
    let number = parse_number(word)?;
    if number == 0 {
        return None;
    }
    Some(number)
}

/// Parses a command of a name and a peer, given by its `address` and AS `number`: `table` or
/// `lose`. Returns `None` for any other name, or if the address, or the number (decimal, from 0 to
/// 2^32 - 1, without leading zeros), is malformed.
fn parse_with_two_arguments(name: &[u8], address: &[u8], number: &[u8]) -> Option<Command>
    ensures { ParsesTo SpellsWords (name.now ∷ address.now ∷ number.now ∷ []) result }
{
    let peer = parse_peer(address, number)?;
    if equals(name, b"table") {
        Some(Command::Table(peer))
    } else if equals(name, b"lose") {
        Some(Command::Lose(peer))
    } else {
        None
    }
}

/// Parses a command of a name, a peer and what is sought among its routes: `route` with a prefix,
/// or `lookup` with an address. The peer is given by its `address` and AS `number`. Returns `None`
/// for any other name, or if an argument is malformed.
fn parse_with_three_arguments(
    name: &[u8],
    address: &[u8],
    number: &[u8],
    sought: &[u8],
) -> Option<Command>
    ensures { ParsesTo SpellsWords (name.now ∷ address.now ∷ number.now ∷ sought.now ∷ []) result }
{
    let peer = parse_peer(address, number)?;
    if equals(name, b"route") {
        Some(Command::Route(peer, Prefix::parse(sought)?))
    } else if equals(name, b"lookup") {
        Some(Command::Lookup(peer, Addr::parse(sought)?))
    } else {
        None
    }
}

/// Parses a peer from the words of its address (such as `192.0.2.1`) and its AS number (such as
/// `65000`, from 0 to 2^32 - 1). Returns `None` if either is malformed.
fn parse_peer(address: &[u8], number: &[u8]) -> Option<Peer>
    ensures { ParsesTo (SpellsPeer address.now) number.now result }
{
    let addr = Addr::parse(address)?;
    let asn = parse_number(number)?;
    Some(Peer { addr, asn })
}
