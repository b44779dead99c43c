//! The calls of what plays: of players, of the stores that they stand on, and of scripts.

use crate::commands::put_commands;
use crate::course::put_answers;
use crate::played::{play, play_by};
use mrt_wire::{Route, Stamp};
use rib_store::{LeakingStore, MapStore, RadixStore};
use row_parts::{Answer, Devices, IsCall, Row};
use row_stores::{Watched, put_stored};
use row_values::Shown;
use std::alloc::{AllocError, Global};
use std::rc::Rc;

/// The store of the program, and one over a map.
type Tree = RadixStore<Rc<Route>>;

type Map = MapStore<Rc<Route>>;

/// A call of what plays.
#[derive(Clone, Copy)]
pub enum PlayerCall {
    /// The replies to a script, with the program's store.
    Play(Stamp),
    /// The same with a store over a map.
    PlayOverMap(Stamp),
    /// What the lines of a script are.
    Commands,
    /// What a player answers, with the program's store.
    Player,
    /// The same with a store over a map.
    PlayerOverMap,
    /// What a store over a map answers.
    StoreOverMap,
    /// The same of trees.
    StoreOverTrees,
    /// The same of trees whose memory is left to the system.
    StoreOverLeftTrees,
}

/// The time of a table's entries: that of the dump, and that at which their routes originated.
const DUMP: Stamp = Stamp::Dump;

const CHANGE: Stamp = Stamp::Change;

/// The words that rows begin with, and what is called for them: each of these calls has to answer
/// what the row wants. Those of other calls stand in `row_parts/src/reader_call.rt`.
const PLAYER_CALLS: &[(&str, &[PlayerCall])] = &[
    (
        "play",
        &[PlayerCall::Play(DUMP), PlayerCall::PlayOverMap(DUMP)],
    ),
    (
        "play change",
        &[PlayerCall::Play(CHANGE), PlayerCall::PlayOverMap(CHANGE)],
    ),
    ("commands", &[PlayerCall::Commands]),
    ("player", &[PlayerCall::Player, PlayerCall::PlayerOverMap]),
    ("player tree", &[PlayerCall::Player]),
    (
        "store",
        &[
            PlayerCall::StoreOverMap,
            PlayerCall::StoreOverTrees,
            PlayerCall::StoreOverLeftTrees,
        ],
    ),
    ("store map", &[PlayerCall::StoreOverMap]),
    ("store tree", &[PlayerCall::StoreOverTrees]),
    (
        "store trees",
        &[PlayerCall::StoreOverTrees, PlayerCall::StoreOverLeftTrees],
    ),
];

/// What is called for these words, where they name a call of what plays.
pub fn player_calls(words: &str) -> Option<&'static [PlayerCall]> {
    for (name, calls) in PLAYER_CALLS {
        if *name == words {
            return Some(calls);
        }
    }
    None
}

impl IsCall for PlayerCall {
    fn answer(&self, alloc: Global, octets: &[u8], row: &Row) -> Result<Answer, AllocError> {
        match self {
            PlayerCall::Play(stamp) => play::<Tree>(alloc, *stamp, octets, row),
            PlayerCall::PlayOverMap(stamp) => play::<Map>(alloc, *stamp, octets, row),
            _ => {
                let mut text = Shown::new(alloc);
                self.put(alloc, &row.script, &mut text);
                Answer::written(alloc, text)
            }
        }
    }

    fn answer_by(
        &self,
        alloc: Global,
        devices: Devices,
        octets: &[u8],
        row: &Row,
    ) -> Result<Answer, AllocError> {
        match self {
            PlayerCall::Play(stamp) => play_by::<Tree>(alloc, devices, *stamp, octets, row),
            PlayerCall::PlayOverMap(stamp) => play_by::<Map>(alloc, devices, *stamp, octets, row),
            _ => self.answer(alloc, octets, row),
        }
    }
}

impl PlayerCall {
    /// Appends what a call answers that is no run.
    fn put(&self, alloc: Global, script: &[u8], text: &mut Shown) {
        match self {
            PlayerCall::Commands => put_commands(script, text),
            PlayerCall::Player => put_answers::<Watched<Tree>>(alloc, script, text),
            PlayerCall::PlayerOverMap => put_answers::<Watched<Map>>(alloc, script, text),
            PlayerCall::StoreOverMap => put_stored::<MapStore<u32>>(alloc, script, text),
            PlayerCall::StoreOverTrees => put_stored::<RadixStore<u32>>(alloc, script, text),
            PlayerCall::StoreOverLeftTrees => {
                put_stored::<LeakingStore<RadixStore<u32>>>(alloc, script, text);
            }
            PlayerCall::Play(_) | PlayerCall::PlayOverMap(_) => {}
        }
    }
}
