//! The routes that a source announces, in full, and which items share one.

use crate::events::{LIMIT, MOST_ANSWERS, next_of, put_fault, put_item, put_prefix, word_of};
use mrt_wire::{Event, Input, Item, Next, ReadInput, Route, Source, SourceFault, Stamp};
use row_values::{Shown, put_attrs, put_count};
use std::alloc::{AllocError, Global};
use std::rc::Rc;

/// How long answers are kept.
#[derive(Clone, Copy)]
pub enum Keeping {
    /// Each is dropped before the next.
    Dropped,
    /// Each is given back.
    Back,
    /// Each is given back, while somebody holds the routes of each so manieth one.
    Held(u32),
    /// All are held.
    Whole,
}

/// What is held of answers.
#[derive(Drop)]
struct Held {
    keeping: Keeping,
    number: u32,
    answers: Vec<Next>,
    routes: Vec<Rc<Route>>,
    /// What the routes said when they were announced.
    said: Shown,
}

impl Held {
    /// Nothing yet.
    fn new(alloc: Global, keeping: Keeping) -> Self {
        Held {
            keeping,
            number: 0,
            answers: Vec::new(alloc),
            routes: Vec::new(alloc),
            said: Shown::new(alloc),
        }
    }

    /// Holds the routes of items.
    fn hold(&mut self, items: &[Item]) -> Result<(), AllocError> {
        for item in items {
            if let Item::Announce(_, _, route) = item {
                put_route(route, &mut self.said);
                self.routes.push(route.clone()?)?;
            }
        }
        Ok(())
    }

    /// Holds what is to be held of an answer, and gives it back where it is to be.
    fn keep(&mut self, source: &mut Source, answer: Next) -> Result<(), AllocError> {
        if self.is_to_hold() {
            self.hold(items_of(&answer))?;
        }
        match self.keeping {
            Keeping::Dropped => {}
            Keeping::Whole => self.answers.push(answer)?,
            Keeping::Back | Keeping::Held(_) => source.recycle(answer),
        }
        Ok(())
    }

    /// Whether the routes of the next answer are held.
    fn is_to_hold(&mut self) -> bool {
        self.number = self.number.saturating_add(1);
        match self.keeping {
            Keeping::Dropped | Keeping::Back => false,
            Keeping::Held(step) => self.number.checked_rem(step) == Some(0),
            Keeping::Whole => true,
        }
    }

    /// Appends a line where the routes don't say any more what they said.
    fn put_changes(&self, alloc: Global, text: &mut Shown) {
        let mut said = Shown::new(alloc);
        for route in self.routes.iter() {
            put_route(route, &mut said);
        }
        if said != self.said {
            text.put(b"routes that were held changed\n");
        }
    }
}

/// The items of an answer.
fn items_of(answer: &Next) -> &[Item] {
    match answer {
        Next::Event(event) => event.items.as_slice(),
        _ => &[],
    }
}

/// Appends the time of a route, and what its attributes say.
fn put_route(route: &Route, text: &mut Shown) {
    put_count(b" at ", u64::from(route.time), text);
    text.put(b" ");
    put_attrs(&route.attrs, text);
}

/// Appends a line for each item that a source answers, or for another answer.
pub(crate) fn put_routes(alloc: Global, keeping: Keeping, octets: &[u8], text: &mut Shown) {
    let mut source = Source::new(alloc, Stamp::Change, LIMIT);
    let mut input = ReadInput::new(octets);
    let mut held = Held::new(alloc, keeping);
    for _ in 0..MOST_ANSWERS {
        if !put_next(alloc, &mut source, &mut input, &mut held, text) {
            break;
        }
    }
    held.put_changes(alloc, text);
}

/// Appends what a source answers next, keeps it, and answers whether there is more.
fn put_next<I: Input>(
    alloc: Global,
    source: &mut Source,
    input: &mut I,
    held: &mut Held,
    text: &mut Shown,
) -> bool {
    match next_of(alloc, source, input) {
        Ok(answer) => {
            let goes_on = put_answer(alloc, &answer, text);
            goes_on & held.keep(source, answer).is_ok()
        }
        Err(fault) => {
            text.put(word_of(fault, source, input));
            false
        }
    }
}

/// Appends an answer, and answers whether there is more.
fn put_answer(alloc: Global, answer: &Next, text: &mut Shown) -> bool {
    match answer {
        Next::Event(event) => put_lines(event.items.as_slice(), text),
        Next::Bad(fault) => {
            put_fault(alloc, fault, text);
            text.put(b"\n");
        }
        Next::End => {
            text.put(b"end\n");
            return false;
        }
    }
    true
}

/// Appends a line for each item.
fn put_lines(items: &[Item], text: &mut Shown) {
    for item in items {
        match item {
            Item::Announce(peer, prefix, route) => {
                put_prefix(b"+", peer, prefix, text);
                put_route(route, text);
            }
            other => {
                put_item(other, text);
                text.put(b"\n");
            }
        }
    }
}

/// Appends of each event a line: which items are known to share a route, and of each item the place
/// of the first that has its route.
pub(crate) fn put_shared(alloc: Global, octets: &[u8], text: &mut Shown) {
    let mut source = Source::new(alloc, Stamp::Dump, LIMIT);
    let mut input = ReadInput::new(octets);
    for _ in 0..MOST_ANSWERS {
        if !put_sharers(&source.next(&mut input), text) {
            return;
        }
    }
}

/// Appends the line of an answer, and answers whether there is more.
fn put_sharers(answer: &Result<Next, SourceFault>, text: &mut Shown) -> bool {
    match answer {
        Ok(Next::Event(event)) => put_sharers_of(event, text),
        Ok(Next::Bad(_)) => text.put(b"fault\n"),
        _ => return false,
    }
    true
}

/// Appends the line of an event.
fn put_sharers_of(event: &Event, text: &mut Shown) {
    let shared = event.items.longest_shared_range();
    text.put_number(shared.start as u64);
    put_count(b"..", shared.end as u64, text);
    text.put(b":");
    let items = event.items.as_slice();
    for item in items {
        match first_with(items, item) {
            Some(place) => put_count(b" ", place, text),
            None => text.put(b" -"),
        }
    }
    text.put(b"\n");
}

/// The same of all events together, whose routes are held: of each announcement the place of the
/// first one of all that has its route.
pub(crate) fn put_shared_of_all(alloc: Global, octets: &[u8], text: &mut Shown) {
    let mut source = Source::new(alloc, Stamp::Dump, LIMIT);
    let mut input = ReadInput::new(octets);
    let mut routes = Vec::new(alloc);
    for _ in 0..MOST_ANSWERS {
        let Ok(Next::Event(event)) = source.next(&mut input) else {
            return;
        };
        text.put(b"routes");
        let held = put_places(event.items.as_slice(), &mut routes, text);
        text.note(held);
        text.put(b"\n");
    }
}

/// Appends the place of the route of each announcement among these and the further ones, and holds it.
fn put_places(
    items: &[Item],
    routes: &mut Vec<Rc<Route>>,
    text: &mut Shown,
) -> Result<(), AllocError> {
    for item in items {
        if let Item::Announce(_, _, route) = item {
            routes.push(route.clone()?)?;
            put_count(b" ", place_of(routes, route), text);
        }
    }
    Ok(())
}

/// The place of the first of these routes that is this one, and not one that equals it.
fn place_of(routes: &[Rc<Route>], route: &Rc<Route>) -> u64 {
    let mut place = 0u64;
    for other in routes {
        if Rc::ptr_eq(other, route) {
            return place;
        }
        place = place.saturating_add(1);
    }
    place
}

/// The place of the first item that has the route of this one.
fn first_with(items: &[Item], item: &Item) -> Option<u64> {
    let mut place = 0u64;
    for other in items {
        if share(other, item) {
            return Some(place);
        }
        place = place.saturating_add(1);
    }
    None
}

/// Whether two announcements have one route, and not two that are equal.
fn share(item: &Item, other: &Item) -> bool {
    match (item, other) {
        (Item::Announce(_, _, route), Item::Announce(_, _, second)) => Rc::ptr_eq(route, second),
        _ => false,
    }
}
