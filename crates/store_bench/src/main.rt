//! Times a player over either store: a table of 360,000 routes of one peer is played in its order,
//! undone and redone, and a million addresses are looked up. Or it holds the keys alone, or none.
#![tactic(auto)]

ghost use Rattle.std.specs.Prelude.{◌<◌};

use bgp_wire::{AsWidth, Attrs, WireFault, read_rib_attrs};
use ip_prefix::{Addr, Family, Prefix};
use mrt_events::{Event, Item, Items, Peer, Route, Tag, Time};
use rib_player::{PlayFault, Player};
use rib_store::{MapStore, PrefixStore, RadixStore};
use std::alloc::{AllocError, Global};
use std::rc::Rc;
use std::time::Instant;
use std::{env, io};

/// How many routes the table has.
const ROUTES: u32 = 360_000;

/// How many addresses are looked up.
const LOOKUPS: u32 = 1_000_000;

/// What the program can't do.
#[derive(Drop)]
enum Fault {
    Io(io::Error),
    Memory,
}

impl From<io::Error> for Fault {
    fn from(error: io::Error) -> Fault {
        Fault::Io(error)
    }
}

impl From<AllocError> for Fault {
    fn from(_: AllocError) -> Fault {
        Fault::Memory
    }
}

impl From<WireFault> for Fault {
    fn from(_: WireFault) -> Fault {
        Fault::Memory
    }
}

impl From<PlayFault> for Fault {
    fn from(_: PlayFault) -> Fault {
        Fault::Memory
    }
}

fn main(rt: HostRuntime) -> io::Result<()> {
    match run(&rt) {
        Ok(()) => Ok(()),
        Err(Fault::Io(error)) => Err(error),
        Err(Fault::Memory) => println!(rt; "memory ran out"),
    }
}

/// Times what the words of the command line name.
fn run(rt: &HostRuntime) -> Result<(), Fault> {
    let words: Vec<String> = env::args(rt)?.collect(rt.alloc())?;
    time_words(rt, words.as_slice())
}

/// Times what the words behind the program's name tell, one by one.
fn time_words(rt: &HostRuntime, words: &[String]) -> Result<(), Fault> {
    let [_, first, others @ ..] = words else {
        println!(rt; "store_bench map | radix | map-keys | radix-keys | none ..")?;
        return Ok(());
    };
    time_word(rt, first.as_str())?;
    for other in others {
        time_word(rt, other.as_str())?;
    }
    Ok(())
}

/// Times what a word names.
fn time_word(rt: &HostRuntime, word: &str) -> Result<(), Fault> {
    let events = table(rt.alloc())?;
    time_over(rt, word, &events)
}

/// Times what a word names, over a table or beside it.
fn time_over(rt: &HostRuntime, word: &str, events: &[Event]) -> Result<(), Fault> {
    match word {
        "map" => time_store::<MapStore<Rc<Route>>>(rt, events),
        "radix" => time_store::<RadixStore<Rc<Route>>>(rt, events),
        "map-keys" => hold_keys::<MapStore<Rc<Route>>>(rt),
        "radix-keys" => hold_keys::<RadixStore<Rc<Route>>>(rt),
        _ => Ok(()),
    }
}

/// The peer whose table it is.
fn peer() -> Peer {
    Peer {
        addr: Addr::v4([192, 0, 2, 1]),
        asn: 64500,
    }
}

/// A route without attributes.
fn shared_route(alloc: Global, attrs: Attrs) -> Result<Rc<Route>, AllocError> {
    Ok(Rc::new(alloc, Route { attrs, time: 0 })?)
}

/// The announcements of the table, in its order.
fn table(alloc: Global) -> Result<Vec<Event>, Fault> {
    let attrs = read_rib_attrs(alloc, Family::V4, AsWidth::Four, &[])?;
    let route = shared_route(alloc, attrs)?;
    Ok(announcements(alloc, &route)?)
}

/// The announcements of the table, all of the one route.
fn announcements(alloc: Global, route: &Rc<Route>) -> Result<Vec<Event>, AllocError> {
    let mut events = Vec::new(alloc);
    add_announcements(&mut events, route)?;
    Ok(events)
}

/// Adds the announcements of the table.
fn add_announcements(events: &mut Vec<Event>, route: &Rc<Route>) -> Result<(), AllocError> {
    let alloc = *events.allocator();
    for number in 0..ROUTES {
        if let Some(prefix) = prefix_at(number) {
            events.push(announcement(alloc, prefix, route.clone()?)?)?;
        }
    }
    Ok(())
}

/// The prefixes of a table, in its order: most of 24 bits, side by side, every eighth of 21 bits
/// above those that follow.
fn prefix_at(number: u32) -> Option<Prefix>
    requires { number < ROUTES }
{
    let place = (1 << 16) + number;
    let addr = Addr::v4((place << 8).to_be_bytes());
    let len = if place % 8 == 0 { 21 } else { 24 };
    Prefix::new(addr, len)
}

/// What announces the prefix.
fn announcement(alloc: Global, prefix: Prefix, route: Rc<Route>) -> Result<Event, AllocError> {
    let mut items = Vec::new(alloc);
    items.push(Item::Announce(peer(), prefix, route))?;
    Ok(Event {
        time: Time {
            seconds: 0,
            micros: None,
        },
        tag: Tag::TableDump2,
        items: Items::from_vec(items),
    })
}

/// Plays, undoes and redoes the events, looks addresses up, and prints the milliseconds of each.
fn time_store<S: PrefixStore<Rc<Route>>>(rt: &HostRuntime, events: &[Event]) -> Result<(), Fault> {
    let mut player: Player<S> = Player::new(rt.alloc());
    time_player(rt, &mut player, events)
}

/// Plays, undoes and redoes the events with a new player, looks addresses up, and prints the times.
fn time_player<S: PrefixStore<Rc<Route>>>(
    rt: &HostRuntime,
    player: &mut Player<S>,
    events: &[Event],
) -> Result<(), Fault> {
    let start = Instant::now(rt)?;
    play(player, events)?;
    let played = start.elapsed(rt)?;
    undo(player, events);
    let undone = start.elapsed(rt)?;
    redo(player, events);
    let redone = start.elapsed(rt)?;
    let found = lookups(player);
    let ended = start.elapsed(rt)?;
    println!(rt;
        "{} {} {} {} {found}",
        played.as_millis(),
        undone.saturating_sub(played).as_millis(),
        redone.saturating_sub(undone).as_millis(),
        ended.saturating_sub(redone).as_millis(),
    )?;
    Ok(())
}

/// Plays the events, one after the other.
fn play<S: PrefixStore<Rc<Route>>>(player: &mut Player<S>, events: &[Event]) -> Result<(), Fault> {
    for event in events {
        if player.at() < u64::MAX {
            player.play(event)?;
        }
    }
    Ok(())
}

/// Undoes as many events.
fn undo<S: PrefixStore<Rc<Route>>>(player: &mut Player<S>, events: &[Event]) {
    for _ in events {
        let _ = player.undo();
    }
}

/// Redoes as many events.
fn redo<S: PrefixStore<Rc<Route>>>(player: &mut Player<S>, events: &[Event]) {
    for _ in events {
        let _ = player.redo();
    }
}

/// Looks addresses up, in order, over and over, and counts those that are found.
fn lookups<S: PrefixStore<Rc<Route>>>(player: &Player<S>) -> u32 {
    let peer = peer();
    let mut found = 0u32;
    for number in 0..LOOKUPS {
        let place = (1 << 16) + number % ROUTES;
        let addr = Addr::v4((place << 8 | 1).to_be_bytes());
        if player.table().longest(&peer, &addr).is_some() {
            found = found.saturating_add(1);
        }
    }
    found
}

/// Makes the prefixes of the table keys of a store, beside the events, and prints how many they
/// are.
fn hold_keys<S: PrefixStore<Rc<Route>>>(rt: &HostRuntime) -> Result<(), Fault> {
    let mut store: S = S::new(rt.alloc());
    make_keys(&mut store)?;
    println!(rt; "{}", store.key_count())?;
    Ok(())
}

/// Makes the prefixes of the table keys of a store.
fn make_keys<S: PrefixStore<Rc<Route>>>(store: &mut S) -> Result<(), AllocError> {
    for number in 0..ROUTES {
        if let Some(prefix) = prefix_at(number) {
            let mut none = None;
            store.put(&prefix, &mut none)?;
        }
    }
    Ok(())
}
