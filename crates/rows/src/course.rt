//! Calls of a player, and what is asked of it: a line each of a script. Peers are an address and an
//! AS number.
//!
//!     play ITEMS          an event of these items
//!     undo, redo, forget COUNT
//!     allow PEER KEYS     its store makes so many new keys at most, up to the next undo, redo or
//!                         forget, which may make none
//!     count               from here on what is asked of the stores is counted anew
//!     alive LEAST MOST    how many routes of items are alive
//!     mark                the next `play` is marked, for those who refuse memory
//!     alone               from here on each request for memory is refused
//!
//! Other lines are questions (`player.rt`). Each line is answered by one.

use crate::player::put_seen;
use mrt_wire::{Event, Item, Peer, Route};
use rib_player::{PlayFault, Player};
use rib_store::{GREATEST_COUNT, PrefixStore};
use row_stores::IsWatched;
use row_values::marks::{self, Marks};
use row_values::{
    Brought, REFUSED, Shown, UNREAD, number_word, peer_words, put_count, put_within, split_word,
};
use std::alloc::{AllocError, Global};
use std::rc::Rc;
use std::str;

/// How many peers are watched at most: the first that events name.
const MOST_WATCHED: usize = 8;

/// More octets than are answered where each request for memory is refused.
const ROOM: usize = 1 << 16;

/// A player whose stores are watched.
#[derive(Drop)]
struct Course<S: PrefixStore<Rc<Route>>> {
    alloc: Global,
    player: Player<S>,
    peers: Vec<Peer>,
    brought: Brought,
    marks: Marks,
}

/// Appends what a new player answers to the lines.
pub fn put_answers<S: PrefixStore<Rc<Route>> + IsWatched>(
    alloc: Global,
    script: &[u8],
    text: &mut Shown,
) {
    let mut course: Course<S> = Course {
        alloc,
        player: Player::new(alloc),
        peers: Vec::new(alloc),
        brought: Brought::new(alloc),
        marks: Marks::new(alloc),
    };
    for line in str::from_utf8(script).unwrap_or("").lines() {
        course.put_answer(line, text);
        text.put(b"\n");
    }
    marks::end(alloc);
}

/// The peer of an item.
fn peer_of(item: &Item) -> Peer {
    match item {
        Item::Announce(peer, _, _) | Item::Withdraw(peer, _) | Item::State(peer, _, _) => *peer,
    }
}

impl<S: PrefixStore<Rc<Route>> + IsWatched> Course<S> {
    /// Appends what the player answers to a line.
    fn put_answer(&mut self, line: &str, text: &mut Shown) {
        let (name, rest) = split_word(line);
        match name {
            "play" => self.put_played(rest, text),
            "undo" | "redo" => self.put_moved(name == "undo", text),
            "forget" => self.put_forgotten(rest, text),
            "allow" => self.put_allowed(rest, text),
            "count" | "mark" | "alone" => self.put_set(name, text),
            "alive" => put_within(self.brought.alive(), rest, text),
            _ => put_seen(&self.player, name, rest, text),
        }
    }

    /// Sets what a word tells of the lines behind it.
    fn put_set(&mut self, name: &str, text: &mut Shown) {
        match name {
            "count" => {
                self.count_anew();
                text.put(b"counted");
            }
            "mark" => {
                self.marks.mark_next();
                text.put(b"marked");
            }
            _ => {
                text.reserve(ROOM);
                text.put(b"alone");
                marks::refuse_all(self.alloc);
            }
        }
    }

    /// Plays the event of these items, and appends how many steps were dropped.
    fn put_played(&mut self, items: &str, text: &mut Shown) {
        match self.brought.event(items) {
            Some(event) => self.put_played_event(&event, text),
            None => text.put(UNREAD),
        }
    }

    /// Plays an event, and appends how many steps were dropped.
    fn put_played_event(&mut self, event: &Event, text: &mut Shown) {
        if self.watch(event).is_err() {
            return text.put(UNREAD);
        }
        match self.played(event) {
            Some(Ok(dropped)) => put_count(b"dropped ", dropped, text),
            Some(Err(PlayFault::Memory)) => text.put(REFUSED),
            None => text.put(b"too many steps"),
        }
    }

    /// Plays an event, where there is room for a step: how many steps were dropped.
    fn played(&mut self, event: &Event) -> Option<Result<u64, PlayFault>> {
        if self.player.at() >= GREATEST_COUNT {
            return None;
        }
        self.marks.begin();
        let played = self.player.play(event);
        self.marks.end();
        Some(played)
    }

    /// Goes a step back, or forth, and appends whether one was made.
    fn put_moved(&mut self, is_back: bool, text: &mut Shown) {
        self.allow(0);
        let moved = if is_back {
            self.player.undo()
        } else {
            self.player.redo()
        };
        text.put(if moved.is_ok() { b"done" } else { b"no step" });
        self.put_requests(text);
    }

    /// Forgets the steps before the cursor but for so many, and appends how many.
    fn put_forgotten(&mut self, word: &str, text: &mut Shown) {
        let Some(keep) = number_word(word) else {
            return text.put(UNREAD);
        };
        self.allow(0);
        put_count(b"forgot ", self.player.forget(keep), text);
        self.put_requests(text);
    }

    /// Rations the new keys of a peer's store.
    fn put_allowed(&self, words: &str, text: &mut Shown) {
        let Some((peer, rest)) = peer_words(words) else {
            return text.put(UNREAD);
        };
        match (self.player.table().store(&peer), number_word(rest)) {
            (Some(store), Some(keys)) => {
                store.allow(keys);
                text.put(b"allowed");
            }
            _ => text.put(b"no store"),
        }
    }

    /// Watches the peers that the event names, while there are few.
    fn watch(&mut self, event: &Event) -> Result<(), AllocError> {
        for item in event.items.as_slice() {
            let peer = peer_of(item);
            if self.peers.len() >= MOST_WATCHED {
                return Ok(());
            }
            if !self.peers.contains(&peer) {
                self.peers.push(peer)?;
            }
        }
        Ok(())
    }

    /// What is asked of the stores is counted anew.
    fn count_anew(&self) {
        for peer in &self.peers {
            if let Some(store) = self.player.table().store(peer) {
                store.count_anew();
            }
        }
    }

    /// The stores may make so many new keys.
    fn allow(&self, keys: u64) {
        for peer in &self.peers {
            if let Some(store) = self.player.table().store(peer) {
                store.allow(keys);
            }
        }
    }

    /// Appends whether keys were asked for, and lets the stores make keys again.
    fn put_requests(&self, text: &mut Shown) {
        if self.has_requests() {
            text.put(b", and asked for a key");
        }
        self.allow(u64::MAX);
    }

    /// Whether keys were asked for.
    fn has_requests(&self) -> bool {
        for peer in &self.peers {
            if let Some(store) = self.player.table().store(peer) {
                if store.requests() > 0 {
                    return true;
                }
            }
        }
        false
    }
}
