//! Items of a line of a script, by commas:
//!
//!     +PEER PREFIX TIME [OCTETS]      an announcement: a route of this time, with the attributes
//!                                     that the octets spell, as those of a table's entry
//!     *PEER PREFIX                    one of the route of the announcement before it
//!     -PEER PREFIX                    a withdrawal
//!     =PEER OLD NEW                   a change of states

use crate::names::Names;
use crate::spelled::Spelled;
use crate::words::{peer_words, prefix_word, split_word};
use bgp_wire::{AsWidth, Attrs, read_rib_attrs};
use ip_prefix::Family;
use mrt_events::{Event, Item, Items, Peer, Route, Tag, Time};
use std::alloc::Global;
use std::rc::{Rc, Weak};

/// The routes that the items of a script brought, alive or not.
#[derive(Drop)]
pub struct Brought {
    alloc: Global,
    routes: Vec<Weak<Route>>,
}

impl Brought {
    /// None yet.
    pub fn new(alloc: Global) -> Self {
        Brought {
            alloc,
            routes: Vec::new(alloc),
        }
    }

    /// How many are alive.
    pub fn alive(&self) -> u64 {
        let mut count = 0u64;
        for route in &self.routes {
            if route.strong_count() > 0 {
                count = count.saturating_add(1);
            }
        }
        count
    }

    /// The event of items, where all can be read.
    pub fn event(&mut self, words: &str) -> Option<Event> {
        Some(Event {
            time: Time {
                seconds: 100,
                micros: None,
            },
            tag: Tag::Bgp4mp,
            items: Items::from_vec(self.items(words)?),
        })
    }

    /// The items that the words spell, where all can be read.
    fn items(&mut self, words: &str) -> Option<Vec<Item>> {
        let mut items = Vec::new(self.alloc);
        let mut are_read = true;
        for part in words.split(", ") {
            are_read &= part.is_empty() || self.put_item(part, &mut items);
        }
        if are_read { Some(items) } else { None }
    }

    /// Appends the item that is spelled, and answers whether there is one.
    fn put_item(&mut self, part: &str, items: &mut Vec<Item>) -> bool {
        let Some((mark, words)) = part.split_at_checked(1) else {
            return false;
        };
        let Some((peer, rest)) = peer_words(words) else {
            return false;
        };
        match mark {
            "+" => self.put_announcement(peer, rest, items).is_some(),
            "*" => put_another(peer, rest, items).is_some(),
            "-" => put_withdrawal(peer, rest, items).is_some(),
            "=" => put_state_change(peer, rest, items).is_some(),
            _ => false,
        }
    }

    /// Appends the announcement of a route of its own.
    fn put_announcement(&mut self, peer: Peer, words: &str, items: &mut Vec<Item>) -> Option<()> {
        let (prefix, words) = words.split_once(" ")?;
        let prefix = prefix_word(prefix)?;
        let route = self.route(words)?;
        items.push(Item::Announce(peer, prefix, route)).ok()
    }

    /// The route of a time and attributes, which is known from here on.
    fn route(&mut self, words: &str) -> Option<Rc<Route>> {
        let (time, octets) = split_word(words);
        let time = time.parse::<u32>().ok()?;
        let attrs = attrs_of(self.alloc, octets)?;
        let route = Rc::new(self.alloc, Route { attrs, time }).ok()?;
        self.routes.push(Rc::downgrade(&route).ok()?).ok()?;
        Some(route)
    }
}

/// The attributes that the words spell.
fn attrs_of(alloc: Global, words: &str) -> Option<Attrs> {
    let mut octets = Spelled::new(alloc);
    if !octets.put_words(&Names::new(alloc), words) {
        return None;
    }
    read_rib_attrs(alloc, Family::V4, AsWidth::Four, octets.whole()?).ok()
}

/// Appends the announcement of the route of the one before it.
fn put_another(peer: Peer, word: &str, items: &mut Vec<Item>) -> Option<()> {
    let prefix = prefix_word(word)?;
    let Some(Item::Announce(_, _, route)) = items.last() else {
        return None;
    };
    let route: Rc<Route> = route.clone().ok()?;
    items.push(Item::Announce(peer, prefix, route)).ok()
}

fn put_withdrawal(peer: Peer, word: &str, items: &mut Vec<Item>) -> Option<()> {
    items.push(Item::Withdraw(peer, prefix_word(word)?)).ok()
}

fn put_state_change(peer: Peer, words: &str, items: &mut Vec<Item>) -> Option<()> {
    let (old, new) = words.split_once(" ")?;
    let (old, new) = (old.parse::<u16>().ok()?, new.parse::<u16>().ok()?);
    items.push(Item::State(peer, old, new)).ok()
}
