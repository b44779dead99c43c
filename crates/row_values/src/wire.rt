//! What attributes and messages say, as texts.

use crate::marks;
use crate::shown::Shown;
use crate::words::{REFUSED, put_count};
use bgp_wire::{
    Aggregator, AsPath, AsWidth, Attrs, Message, Origin, Prefixes, Update, WireFault, read_message,
    read_rib_attrs,
};
use ip_prefix::{Addr, Family};
use mrt_events::Route;
use std::alloc::{AllocError, Global};

/// Appends what is written of octets that can't be read, or where memory is refused.
pub(crate) fn put_unread(fault: WireFault, text: &mut Shown) {
    text.put(match fault {
        WireFault::Malformed => b"malformed",
        WireFault::Memory => REFUSED,
    });
    text.put(b"\n");
}

/// What octets say as attributes of a table's entry, by a call that is marked.
fn entry_of(
    alloc: Global,
    family: Family,
    width: AsWidth,
    octets: &[u8],
) -> Result<Attrs, WireFault> {
    marks::begin(alloc);
    let attrs = read_rib_attrs(alloc, family, width, octets);
    marks::end(alloc);
    attrs
}

/// Appends what the octets say as attributes of a table's entry, shown of a copy of a route that has
/// them.
pub fn put_entry(alloc: Global, family: Family, width: AsWidth, octets: &[u8], text: &mut Shown) {
    match entry_of(alloc, family, width, octets) {
        Ok(attrs) => put_copy(alloc, &Route { attrs, time: 0 }, text),
        Err(fault) => put_unread(fault, text),
    }
}

/// Appends what the attributes of a copy of a route say, which a call makes that is marked.
fn put_copy(alloc: Global, route: &Route, text: &mut Shown) {
    marks::begin(alloc);
    let copied: Result<_, _> = route.clone();
    marks::end(alloc);
    match copied {
        Ok(copy) => put_attrs(&copy.attrs, text),
        Err(AllocError) => put_unread(WireFault::Memory, text),
    }
}

/// What octets say as a message, by a call that is marked.
fn message_of(alloc: Global, width: AsWidth, octets: &[u8]) -> Result<Message, WireFault> {
    marks::begin(alloc);
    let message = read_message(alloc, width, octets);
    marks::end(alloc);
    message
}

/// Appends what a message says: its prefixes and next hops, or its type where it is no UPDATE.
pub fn put_summary(alloc: Global, width: AsWidth, octets: &[u8], text: &mut Shown) {
    match message_of(alloc, width, octets) {
        Ok(message) => put_message_summary(&message, text),
        Err(fault) => put_unread(fault, text),
    }
}

/// Appends the prefixes and next hops of a message, or its type where it is no UPDATE.
fn put_message_summary(message: &Message, text: &mut Shown) {
    match message {
        Message::Update(update) => put_prefixes_and_hops(update, text),
        Message::Other(kind) => put_kind(*kind, text),
    }
}

/// Appends what the attributes of an UPDATE say, and behind them those of MP_REACH_NLRI.
pub fn put_message(alloc: Global, width: AsWidth, octets: &[u8], text: &mut Shown) {
    match message_of(alloc, width, octets) {
        Ok(message) => put_message_attrs(&message, text),
        Err(fault) => put_unread(fault, text),
    }
}

/// Appends what the attributes of a message say, or its type where it is no UPDATE.
fn put_message_attrs(message: &Message, text: &mut Shown) {
    match message {
        Message::Update(update) => {
            put_attrs(&update.attrs, text);
            if let Some(attrs) = &update.mp_attrs {
                put_attrs(attrs, text);
            }
        }
        Message::Other(kind) => put_kind(*kind, text),
    }
}

/// Appends the type of a message that is no UPDATE.
fn put_kind(kind: u8, text: &mut Shown) {
    put_count(b"type ", u64::from(kind), text);
    text.put(b"\n");
}

/// Appends the prefixes and the next hops of an UPDATE, as one line.
fn put_prefixes_and_hops(update: &Update, text: &mut Shown) {
    put_prefixes(b"-", &update.withdrawn, text);
    put_prefixes(b"mp -", &update.mp_withdrawn, text);
    put_prefixes(b"+", &update.announced, text);
    put_hop(b"via ", &update.attrs, text);
    put_prefixes(b"mp +", &update.mp_announced, text);
    if let Some(attrs) = &update.mp_attrs {
        put_hop(b"mp via ", attrs, text);
    }
    text.put(b"\n");
}

/// Appends each prefix behind a word, and a semicolon.
pub(crate) fn put_prefixes(word: &[u8], prefixes: &Prefixes, text: &mut Shown) {
    for prefix in prefixes.as_slice() {
        text.put(word);
        text.put_prefix(prefix);
        text.put(b";");
    }
}

/// Appends the next hop behind a word, and a semicolon.
fn put_hop(word: &[u8], attrs: &Attrs, text: &mut Shown) {
    text.put(word);
    if let Some(hop) = &attrs.next_hop {
        text.put_address(hop);
    }
    text.put(b";");
}

/// Appends what attributes say, as one line.
pub fn put_attrs(attrs: &Attrs, text: &mut Shown) {
    put_fields(attrs, text);
    text.put(b"\n");
}

/// Appends what attributes say: path, origin, next hop, local preference, metric, communities, AG or
/// NAG, aggregator. Nothing stands for what is absent.
pub fn put_fields(attrs: &Attrs, text: &mut Shown) {
    text.put_path(&attrs.path);
    text.put(b"|");
    text.put(origin_word(attrs.origin).as_bytes());
    text.put(b"|");
    put_address(attrs.next_hop, text);
    put_number(attrs.local_pref, text);
    put_number(attrs.med, text);
    text.put_communities(attrs.communities.as_slice());
    text.put(if attrs.atomic { b"|AG|" } else { b"|NAG|" });
    put_aggregator(attrs.aggregator, text);
}

/// The word of an origin.
fn origin_word(origin: Option<Origin>) -> &'static str {
    match origin {
        None => "",
        Some(Origin::Igp) => "IGP",
        Some(Origin::Egp) => "EGP",
        Some(Origin::Incomplete) => "INCOMPLETE",
    }
}

/// Appends an address and a bar.
fn put_address(address: Option<Addr>, text: &mut Shown) {
    if let Some(address) = address {
        text.put_address(&address);
    }
    text.put(b"|");
}

/// Appends a number and a bar.
fn put_number(number: Option<u32>, text: &mut Shown) {
    if let Some(number) = number {
        text.put_number(u64::from(number));
    }
    text.put(b"|");
}

/// Appends an aggregator: its number, a space and its address.
fn put_aggregator(aggregator: Option<Aggregator>, text: &mut Shown) {
    if let Some(aggregator) = aggregator {
        put_count(b"", u64::from(aggregator.asn), text);
        text.put(b" ");
        text.put_address(&aggregator.addr);
    }
}

/// Appends the segments of the path that the octets say: of each its kind and its numbers.
pub fn put_segments(alloc: Global, width: AsWidth, octets: &[u8], text: &mut Shown) {
    match entry_of(alloc, Family::V4, width, octets) {
        Ok(attrs) => put_path_segments(alloc, &attrs.path, text),
        Err(fault) => put_unread(fault, text),
    }
}

/// Appends the segments of a path, a line for each.
fn put_path_segments(alloc: Global, path: &AsPath, text: &mut Shown) {
    for segment in path.segments.as_slice() {
        let numbers = segment.numbers.as_slice();
        text.put_made(format!(in alloc; "{:?} {numbers:?}\n", segment.kind));
    }
}
