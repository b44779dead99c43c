//! What a source answers, as a text: a line for each answer.

use ip_prefix::Prefix;
use mrt_wire::{
    Event, Input, Item, Next, Peer, ReadInput, RecordFault, Route, Source, SourceFault, Stamp, Tag,
};
use row_values::{Shown, marks, put_count, put_peer};
use std::alloc::Global;

/// More answers than any row has.
pub(crate) const MOST_ANSWERS: u32 = 10_000;

/// More octets than any row has.
pub(crate) const LIMIT: u64 = 1 << 40;

/// Appends what a source answers up to the end, or up to a fault of its own.
pub(crate) fn put_events(alloc: Global, stamp: Stamp, octets: &[u8], text: &mut Shown) {
    let mut source = Source::new(alloc, stamp, LIMIT);
    let mut input = ReadInput::new(octets);
    for _ in 0..MOST_ANSWERS {
        let answer = next_of(alloc, &mut source, &mut input);
        if let Err(fault) = answer {
            return text.put(word_of(fault, &mut source, &mut input));
        }
        if !put_answer(alloc, &answer, text) {
            return;
        }
    }
}

/// What a source answers next, by a call that is marked.
pub(crate) fn next_of<I: Input>(
    alloc: Global,
    source: &mut Source,
    input: &mut I,
) -> Result<Next, SourceFault> {
    marks::begin(alloc);
    let answer = source.next(input);
    marks::end(alloc);
    answer
}

/// The line of a fault of the source. Where memory was refused, the source is spent behind it.
pub(crate) fn word_of<I: Input>(
    fault: SourceFault,
    source: &mut Source,
    input: &mut I,
) -> &'static [u8] {
    match fault {
        SourceFault::Memory if is_spent(source, input) => b"refused\n",
        SourceFault::Memory => b"refused, and not spent\n",
        _ => b"fault\n",
    }
}

/// Whether the next two calls answer that the source is spent.
fn is_spent<I: Input>(source: &mut Source, input: &mut I) -> bool {
    for _ in 0..2 {
        if !matches!(source.next(input), Err(SourceFault::Spent)) {
            return false;
        }
    }
    true
}

/// Appends an answer, and answers whether more may follow it.
fn put_answer(alloc: Global, answer: &Result<Next, SourceFault>, text: &mut Shown) -> bool {
    match answer {
        Ok(Next::Event(event)) => put_event(event, text),
        Ok(Next::Bad(fault)) => put_fault(alloc, fault, text),
        _ => {
            text.put(b"end\n");
            return false;
        }
    }
    text.put(b"\n");
    true
}

/// Appends an event: seconds, microseconds where it has these, the word of its tag, and its items.
fn put_event(event: &Event, text: &mut Shown) {
    text.put_number(u64::from(event.time.seconds));
    if let Some(micros) = event.time.micros {
        put_count(b".", u64::from(micros), text);
    }
    text.put(tag_word(event.tag).as_bytes());
    for item in event.items.as_slice() {
        text.put(b", ");
        put_item(item, text);
    }
}

/// The word of a tag.
fn tag_word(tag: Tag) -> &'static str {
    match tag {
        Tag::TableDump => " entry",
        Tag::TableDump2 => " table",
        Tag::Bgp4mp => " session",
        Tag::Bgp4mpEt => " timed session",
    }
}

/// Appends an item: `+` and a route, `-` and a prefix, or `=` and two states, each with its peer.
pub(crate) fn put_item(item: &Item, text: &mut Shown) {
    match item {
        Item::Announce(peer, prefix, route) => {
            put_prefix(b"+", peer, prefix, text);
            put_route(route, text);
        }
        Item::Withdraw(peer, prefix) => put_prefix(b"-", peer, prefix, text),
        Item::State(peer, old, new) => put_states(peer, *old, *new, text),
    }
}

/// Appends a mark, a peer, a space and a prefix.
pub(crate) fn put_prefix(mark: &[u8], peer: &Peer, prefix: &Prefix, text: &mut Shown) {
    text.put(mark);
    put_peer(peer, text);
    text.put(b" ");
    text.put_prefix(prefix);
}

/// Appends the time of a route, and its next hop and its path where it has these.
fn put_route(route: &Route, text: &mut Shown) {
    put_count(b" at ", u64::from(route.time), text);
    if let Some(hop) = &route.attrs.next_hop {
        text.put(b" via ");
        text.put_address(hop);
    }
    if !route.attrs.path.segments.as_slice().is_empty() {
        text.put(b" path ");
        text.put_path(&route.attrs.path);
    }
}

/// Appends `=`, a peer and two states, with spaces between them.
fn put_states(peer: &Peer, old: u16, new: u16, text: &mut Shown) {
    text.put(b"=");
    put_peer(peer, text);
    put_count(b" ", u64::from(old), text);
    put_count(b" ", u64::from(new), text);
}

/// Appends the number, the place and the kind of a faulty record.
pub(crate) fn put_fault(alloc: Global, fault: &RecordFault, text: &mut Shown) {
    text.put_made(format!(in alloc; "{} {} {:?}", fault.number, fault.offset, fault.kind));
}
