//! What is asked of a player: a line each of a script.
//!
//!     where, steps        the steps before and after the cursor, and also the pairs that steps name
//!     floor               how many steps were forgotten
//!     keys PEER, key PEER PREFIX          those of its store
//!     nodes PEER                          whether it has two a key at most, where it has any
//!     calls PEER LEAST MOST               how many calls of its store were counted, but for `reach`
//!     requests, reached                   how many for a key, and how many prefixes were reached
//!     route PEER PREFIX                   the time of its route
//!     shown PEER PREFIX                   the attributes of its route
//!     after PEER [PREFIX], walk PEER      its first route above a prefix, and all
//!     shared PEER PEER LEAST MOST         how many prefixes have one route of both, in one place
//!     peers, longest PEER ADDRESS

use ip_prefix::Prefix;
use mrt_wire::{Peer, Route};
use rib_player::{Player, Table};
use rib_store::PrefixStore;
use row_stores::IsWatched;
use row_values::{
    Shown, UNREAD, address_word, peer_words, prefix_word, put_count, put_fields, put_peer,
    put_within,
};
use std::rc::Rc;

/// More peers, and more routes of one, than are walked over.
const MOST_WALKED: u32 = 1_000_000;

/// Appends what is seen of the player.
pub fn put_seen<S: PrefixStore<Rc<Route>> + IsWatched>(
    player: &Player<S>,
    name: &str,
    rest: &str,
    text: &mut Shown,
) {
    match name {
        "where" => put_place(player, text),
        "steps" => put_steps(player, text),
        "floor" => put_count(b"floor ", player.floor(), text),
        "peers" => put_peers(player.table(), text),
        _ => match peer_words(rest) {
            Some((peer, rest)) => put_seen_of(player.table(), name, &peer, rest, text),
            None => text.put(UNREAD),
        },
    }
}

/// Appends the steps before and after the cursor.
fn put_place<S: PrefixStore<Rc<Route>>>(player: &Player<S>, text: &mut Shown) {
    put_count(b"at ", player.at(), text);
    put_count(b" ahead ", player.ahead(), text);
}

/// Appends the same, and the pairs that steps name.
fn put_steps<S: PrefixStore<Rc<Route>>>(player: &Player<S>, text: &mut Shown) {
    put_place(player, text);
    put_count(b" named ", player.named(), text);
}

/// Appends each peer that has routes, and how many.
fn put_peers<S: PrefixStore<Rc<Route>>>(table: &Table<S>, text: &mut Shown) {
    text.put(b"peers");
    let mut last: Option<Peer> = None;
    for _ in 0..MOST_WALKED {
        let Some((peer, count)) = table.peer_after(last.as_ref()) else {
            break;
        };
        put_count(b", ", count, text);
        text.put(b" of ");
        put_peer(&peer, text);
        last = Some(peer);
    }
}

/// Appends what is seen of a peer.
fn put_seen_of<S: PrefixStore<Rc<Route>> + IsWatched>(
    table: &Table<S>,
    name: &str,
    peer: &Peer,
    rest: &str,
    text: &mut Shown,
) {
    match name {
        "keys" | "key" | "nodes" | "calls" | "requests" | "reached" => match table.store(peer) {
            Some(store) => put_seen_in(store, name, rest, text),
            None => text.put(b"no store"),
        },
        "route" | "shown" => put_route(table, peer, rest, name == "shown", text),
        "after" => put_after(table, peer, rest, text),
        "longest" => put_longest(table, peer, rest, text),
        "walk" => put_walk(table, peer, text),
        "shared" => match peer_words(rest) {
            Some((other, bounds)) => put_within(shared(table, peer, &other), bounds, text),
            None => text.put(UNREAD),
        },
        _ => text.put(UNREAD),
    }
}

/// Appends what is seen of a store.
fn put_seen_in<S: PrefixStore<Rc<Route>> + IsWatched>(
    store: &S,
    name: &str,
    rest: &str,
    text: &mut Shown,
) {
    match name {
        "keys" => put_count(b"keys ", store.key_count(), text),
        "key" => match prefix_word(rest) {
            Some(prefix) if store.has_key(&prefix) => text.put(b"key"),
            _ => text.put(b"no key"),
        },
        "nodes" => {
            let most = store.key_count().saturating_mul(2);
            let are_few = store.node_count().unwrap_or(0) <= most;
            text.put(if are_few { b"few nodes" } else { b"many nodes" })
        }
        "calls" => put_within(store.calls(), rest, text),
        "requests" => put_within(store.requests(), rest, text),
        _ => put_within(store.prefetched(), rest, text),
    }
}

/// Appends the time of a route, or its attributes.
fn put_route<S: PrefixStore<Rc<Route>>>(
    table: &Table<S>,
    peer: &Peer,
    word: &str,
    is_shown: bool,
    text: &mut Shown,
) {
    let Some(prefix) = prefix_word(word) else {
        return text.put(UNREAD);
    };
    match table.get(peer, &prefix) {
        Some(route) if is_shown => put_fields(&route.attrs, text),
        Some(route) => put_count(b"at ", u64::from(route.time), text),
        None => text.put(b"none"),
    }
}

/// Appends the first route above a prefix, or of all.
fn put_after<S: PrefixStore<Rc<Route>>>(
    table: &Table<S>,
    peer: &Peer,
    word: &str,
    text: &mut Shown,
) {
    match table.after(peer, prefix_word(word).as_ref()) {
        Some((prefix, route)) => put_timed(&prefix, route.time, text),
        None => text.put(b"none"),
    }
}

/// Appends the longest prefix with a route that contains an address.
fn put_longest<S: PrefixStore<Rc<Route>>>(
    table: &Table<S>,
    peer: &Peer,
    word: &str,
    text: &mut Shown,
) {
    let Some(address) = address_word(word) else {
        return text.put(UNREAD);
    };
    match table.longest(peer, &address) {
        Some((prefix, route)) => put_timed(&prefix, route.time, text),
        None => text.put(b"none"),
    }
}

/// Appends a prefix and the time of its route.
fn put_timed(prefix: &Prefix, time: u32, text: &mut Shown) {
    text.put_prefix(prefix);
    put_count(b" at ", u64::from(time), text);
}

/// Appends each route of a peer.
fn put_walk<S: PrefixStore<Rc<Route>>>(table: &Table<S>, peer: &Peer, text: &mut Shown) {
    text.put(b"routes");
    let mut last = None;
    for _ in 0..MOST_WALKED {
        let Some((prefix, route)) = table.after(peer, last.as_ref()) else {
            break;
        };
        text.put(b", ");
        put_timed(&prefix, route.time, text);
        last = Some(prefix);
    }
}

/// How many prefixes have one route of both peers, in one place of memory.
fn shared<S: PrefixStore<Rc<Route>>>(table: &Table<S>, one: &Peer, other: &Peer) -> u64 {
    let mut count = 0u64;
    let mut last = None;
    for _ in 0..MOST_WALKED {
        let Some((prefix, route)) = table.after(one, last.as_ref()) else {
            break;
        };
        if is_at(table.get(other, &prefix), route) {
            count = count.saturating_add(1);
        }
        last = Some(prefix);
    }
    count
}

/// Whether a route that was found is this one, and not one that equals it.
fn is_at(found: Option<&Rc<Route>>, route: &Rc<Route>) -> bool {
    match found {
        Some(found) => Rc::ptr_eq(found, route),
        None => false,
    }
}
