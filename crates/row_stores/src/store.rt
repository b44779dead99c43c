//! Calls of a store of numbers by prefix: a line each of a script. A route is a number or `none`.
//!
//!     ensure PREFIX                       makes it a key
//!     put PREFIX ROUTE, exchange PREFIX ROUTE
//!     discard PREFIX
//!     key PREFIX, get PREFIX, longest ADDRESS
//!     after [PREFIX], walk                the first route above a prefix, and all
//!     next ROOM [PREFIX]                  the first ones, as many as there is room for
//!     take                                takes all routes, in order
//!     counts                              of keys and routes
//!     few                                 whether there are at most two nodes a key
//!     nodes, met COUNT ADDRESS            how many there are, and a look-up meets beside a count
//!     reach WORD..                        a prefix is added, and `end` has all reached
//!     mark                                the next line is marked, for those who refuse memory
//!
//! Each is answered by a line.

use crate::nodes::HasNodes;
use ip_prefix::{Addr, Prefix};
use rib_store::{GREATEST_COUNT, LeakingStore, MapStore, PrefetchBatch, PrefixStore, RadixStore};
use row_values::marks::Marks;
use row_values::{
    REFUSED, Shown, UNREAD, address_word, number_word, prefix_word, put_count, split_word,
};
use std::alloc::{AllocError, Global};
use std::str;

/// More room than any row asks for.
const MOST_ROOM: u64 = 1_000;

/// More octets than a line is answered by that is marked.
const ROOM: usize = 1 << 10;

/// A store whose look-ups may count.
pub trait CountsMet: PrefixStore<u32> + HasNodes {
    /// The longest prefix with a route, by a look-up that adds the nodes that it meets to a count,
    /// where it counts them.
    fn longest_met(&self, addr: &Addr, met: &mut u32) -> Option<(Prefix, u32)>;
}

impl CountsMet for MapStore<u32> {
    fn longest_met(&self, addr: &Addr, _met: &mut u32) -> Option<(Prefix, u32)> {
        longest(self, addr)
    }
}

impl CountsMet for RadixStore<u32> {
    fn longest_met(&self, addr: &Addr, met: &mut u32) -> Option<(Prefix, u32)> {
        let most = u64::from(*met) + u64::from(addr.family().width()) + 1;
        if most > u64::from(u32::MAX) {
            return None;
        }
        match self.longest_counting_nodes(addr, met) {
            Some(found) => Some((found.0, *found.1)),
            None => None,
        }
    }
}

impl<S: PrefixStore<u32>> CountsMet for LeakingStore<S> {
    fn longest_met(&self, addr: &Addr, _met: &mut u32) -> Option<(Prefix, u32)> {
        longest(self, addr)
    }
}

/// The longest prefix with a route that contains the address, and a copy of its route.
fn longest<S: PrefixStore<u32>>(store: &S, addr: &Addr) -> Option<(Prefix, u32)> {
    match store.longest(addr) {
        Some(found) => Some((found.0, *found.1)),
        None => None,
    }
}

/// The least prefix with a route above the other, and a copy of its route.
fn after<S: PrefixStore<u32>>(store: &S, low: Option<&Prefix>) -> Option<(Prefix, u32)> {
    match store.after(low) {
        Some(found) => Some((found.0, *found.1)),
        None => None,
    }
}

/// Appends what a new store answers to the lines.
pub fn put_stored<S: CountsMet>(alloc: Global, script: &[u8], text: &mut Shown) {
    let mut store = S::new(alloc);
    let mut marks = Marks::new(alloc);
    for line in str::from_utf8(script).unwrap_or("").lines() {
        if line == "mark" {
            text.reserve(ROOM);
            text.put(b"marked");
            marks.mark_next();
        } else {
            marks.begin();
            put_answer(alloc, &mut store, line, text);
            marks.end();
        }
        text.put(b"\n");
    }
}

/// Appends what the store answers to a line.
fn put_answer<S: CountsMet>(alloc: Global, store: &mut S, line: &str, text: &mut Shown) {
    let (name, rest) = split_word(line);
    match name {
        "next" => put_next(alloc, store, rest, text),
        "take" => put_taken(alloc, store, text),
        "after" => put_found(after(store, prefix_word(rest).as_ref()), text),
        "longest" | "met" => put_longest(store, rest, text),
        "reach" => put_prefetched(store, rest, text),
        "walk" | "counts" | "few" | "nodes" => put_whole(store, name, text),
        _ => put_at(store, name, rest, text),
    }
}

/// Appends what is answered at a prefix.
fn put_at<S: CountsMet>(store: &mut S, name: &str, rest: &str, text: &mut Shown) {
    let (word, rest) = split_word(rest);
    let Some(prefix) = prefix_word(word) else {
        return text.put(UNREAD);
    };
    match (name, route_word(rest)) {
        ("ensure", _) => put_made(store.ensure(prefix), text),
        ("discard", _) => put_discarded(store, &prefix, text),
        ("key", _) => put_key(store.has_key(&prefix), text),
        ("get", _) => put_route(b"", store.get(&prefix).copied(), text),
        ("put", Some(route)) => put_put(store, &prefix, route, text),
        ("exchange", Some(route)) => put_exchanged(store, &prefix, route, text),
        _ => text.put(UNREAD),
    }
}

/// The route, or its absence, that a word spells.
fn route_word(word: &str) -> Option<Option<u32>> {
    if word == "none" {
        return Some(None);
    }
    Some(Some(word.parse::<u32>().ok()?))
}

/// Appends whether a key is new.
fn put_made(made: Result<bool, AllocError>, text: &mut Shown) {
    let word = match made {
        Ok(true) => "new",
        Ok(false) => "known",
        Err(_) => "refused",
    };
    text.put(word.as_bytes());
}

/// Appends whether there is a key.
fn put_key(is_key: bool, text: &mut Shown) {
    let word = if is_key { "key" } else { "no key" };
    text.put(word.as_bytes());
}

/// Appends a word and a route, or that there is none.
fn put_route(word: &[u8], route: Option<u32>, text: &mut Shown) {
    text.put(word);
    match route {
        Some(route) => put_count(b"", u64::from(route), text),
        None => text.put(b"none"),
    }
}

/// Appends a prefix and its route, or that there is none.
fn put_found(found: Option<(Prefix, u32)>, text: &mut Shown) {
    match found {
        Some((prefix, route)) => {
            text.put_prefix(&prefix);
            put_count(b" ", u64::from(route), text)
        }
        None => text.put(b"none"),
    }
}

/// Puts a route, and appends whether the key is new, and which route it had.
fn put_put<S: CountsMet>(store: &mut S, prefix: &Prefix, route: Option<u32>, text: &mut Shown) {
    let mut given = route;
    put_made(store.put(prefix, &mut given), text);
    put_route(b", had ", given, text);
}

/// Exchanges the route of a key, and appends which one it had.
fn put_exchanged<S: CountsMet>(
    store: &mut S,
    prefix: &Prefix,
    route: Option<u32>,
    text: &mut Shown,
) {
    if !store.has_key(prefix) {
        return put_key(false, text);
    }
    let mut given = route;
    store.exchange(prefix, &mut given);
    put_route(b"had ", given, text);
}

/// Discards a key that has no route, and appends whether it was one.
fn put_discarded<S: CountsMet>(store: &mut S, prefix: &Prefix, text: &mut Shown) {
    if !store.has_key(prefix) {
        return put_key(false, text);
    }
    if store.get(prefix).is_some() {
        return text.put(b"has a route");
    }
    store.discard(prefix);
    text.put(b"gone");
}

/// Appends what a look-up of an address answers, and the count where one stands before the address.
fn put_longest<S: CountsMet>(store: &S, rest: &str, text: &mut Shown) {
    if let Some(addr) = address_word(rest) {
        return put_found(longest(store, &addr), text);
    }
    let (count, rest) = split_word(rest);
    let (Some(mut met), Some(addr)) = (count.parse::<u32>().ok(), address_word(rest)) else {
        return text.put(UNREAD);
    };
    put_found(store.longest_met(&addr, &mut met), text);
    put_count(b", met ", u64::from(met), text);
}

/// Appends the next routes, as many as there is room for.
fn put_next<S: CountsMet>(alloc: Global, store: &S, rest: &str, text: &mut Shown) {
    let (word, rest) = split_word(rest);
    let room = number_word(word).unwrap_or(0).min(MOST_ROOM);
    let low = prefix_word(rest);
    match Vec::with_capacity(alloc, room as usize) {
        Ok(found) => put_next_in(store, low.as_ref(), found, text),
        Err(AllocError) => text.put(REFUSED),
    }
}

/// Appends the next routes, as many as there is room for in the list.
fn put_next_in<'a, S: CountsMet>(
    store: &'a S,
    low: Option<&Prefix>,
    found: Vec<(Prefix, &'a u32)>,
    text: &mut Shown,
) {
    let mut found = found;
    store.next_routes(low, &mut found);
    put_all(&found, text);
}

/// Appends these routes.
fn put_all(found: &[(Prefix, &u32)], text: &mut Shown) {
    text.put(b"routes");
    for (prefix, route) in found {
        text.put(b", ");
        put_found(Some((*prefix, **route)), text);
    }
}

/// Takes all routes, and appends them in order.
fn put_taken<S: CountsMet>(alloc: Global, store: &mut S, text: &mut Shown) {
    let count = store.route_count();
    if count == GREATEST_COUNT {
        return text.put(UNREAD);
    }
    let Ok(mut taken) = Vec::with_capacity(alloc, count as usize) else {
        return text.put(REFUSED);
    };
    store.drain_routes(&mut taken);
    text.put(b"taken");
    for route in taken {
        put_count(b" ", u64::from(route), text);
    }
}

/// How much is passed to reach the places that were added.
fn passed_by<S: CountsMet>(batch: &mut PrefetchBatch<'_, S>) -> u64 {
    let added = batch.take_all();
    S::prefetch(&added)
}

/// Appends how much is passed to reach prefixes, as each is added or all are reached.
fn put_prefetched<S: CountsMet>(store: &S, words: &str, text: &mut Shown) {
    let mut batch = PrefetchBatch::new();
    text.put(b"passed");
    for word in words.split(" ") {
        let is_end = match prefix_word(word) {
            Some(prefix) => batch.add(store, prefix),
            None => true,
        };
        put_count(b" ", if is_end { passed_by(&mut batch) } else { 0 }, text);
    }
}

/// Appends what is answered of the whole store.
fn put_whole<S: CountsMet>(store: &S, name: &str, text: &mut Shown) {
    match name {
        "walk" => put_walk(store, text),
        "counts" => {
            put_count(b"keys ", store.key_count(), text);
            put_count(b" routes ", store.route_count(), text)
        }
        "few" => put_few(store, text),
        _ => match store.node_count() {
            Some(nodes) => put_count(b"nodes ", nodes, text),
            None => text.put(b"no nodes"),
        },
    }
}

/// Appends each route, and one more than are counted, should there be.
fn put_walk<S: CountsMet>(store: &S, text: &mut Shown) {
    text.put(b"routes");
    let mut last = None;
    for _ in 0..=store.route_count() {
        let Some((prefix, route)) = after(store, last.as_ref()) else {
            break;
        };
        text.put(b", ");
        put_found(Some((prefix, route)), text);
        last = Some(prefix);
    }
}

/// Appends whether there are at most two nodes a key.
fn put_few<S: CountsMet>(store: &S, text: &mut Shown) {
    let most = store.key_count().saturating_mul(2);
    let is_few = store.node_count().unwrap_or(0) <= most;
    let word = if is_few { "few nodes" } else { "many nodes" };
    text.put(word.as_bytes());
}
