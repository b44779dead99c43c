//! The lines of events that are made here, among them some that no octets spell.

use bgp_wire::Attrs;
use bgpdump_lines::put_lines;
use ip_prefix::{Addr, Prefix};
use mrt_wire::{Event, Item, Items, Peer, Route, Tag, Time};
use std::alloc::{AllocError, Global};
use std::process::Abort;
use std::rc::Rc;
use std::test::Fail;

/// The peer 192.0.2.1 of AS 64500.
fn peer() -> Peer {
    Peer {
        addr: Addr::v4([192, 0, 2, 1]),
        asn: 64500,
    }
}

/// The prefix 10.0.0.0/8.
fn ten() -> Prefix {
    Prefix::new(Addr::v4([10, 0, 0, 0]), 8).unwrap()
}

/// A route of 50 seconds, without attributes.
fn route(alloc: Global) -> Route {
    Route {
        attrs: Attrs::empty(alloc),
        time: 50,
    }
}

/// An event of these items, at 200 seconds and so many microseconds.
fn event_with(tag: Tag, micros: Option<u32>, items: Vec<Item>) -> Event {
    Event {
        time: Time {
            seconds: 200,
            micros,
        },
        tag,
        items: Items::from_vec(items),
    }
}

/// An announcement, a withdrawal and a session's loss.
fn items_of(alloc: Global) -> Result<Vec<Item>, AllocError> {
    let mut items = Vec::new(alloc);
    items.push(Item::Announce(peer(), ten(), Rc::new(alloc, route(alloc))?))?;
    items.push(Item::Withdraw(peer(), ten()))?;
    items.push(Item::State(peer(), 6, 1))?;
    Ok(items)
}

/// The lines of these.
fn lines_of(alloc: Global, tag: Tag, micros: Option<u32>) -> Result<Vec<u8>, AllocError> {
    let event = event_with(tag, micros, items_of(alloc)?);
    let mut text = Vec::new(alloc);
    put_lines(&event, &mut text)?;
    Ok(text)
}

/// A tag and microseconds, with the lines of that event.
const LINES: &[(Tag, Option<u32>, &str)] = &[
    (
        Tag::TableDump,
        None,
        "TABLE_DUMP|50|B|192.0.2.1|64500|10.0.0.0/8||||0|0||NAG||\n\
         TABLE_DUMP|200|W|192.0.2.1|64500|10.0.0.0/8\n\
         TABLE_DUMP|200|STATE|192.0.2.1|64500|6|1\n",
    ),
    (
        Tag::TableDump2,
        None,
        "TABLE_DUMP2|50|B|192.0.2.1|64500|10.0.0.0/8||||0|0||NAG||\n\
         TABLE_DUMP2|200|W|192.0.2.1|64500|10.0.0.0/8\n\
         TABLE_DUMP2|200|STATE|192.0.2.1|64500|6|1\n",
    ),
    (
        Tag::Bgp4mp,
        None,
        "BGP4MP|200|A|192.0.2.1|64500|10.0.0.0/8||||0|0||NAG||\n\
         BGP4MP|200|W|192.0.2.1|64500|10.0.0.0/8\n\
         BGP4MP|200|STATE|192.0.2.1|64500|6|1\n",
    ),
    (
        Tag::Bgp4mpEt,
        Some(5),
        "BGP4MP_ET|200.000005|A|192.0.2.1|64500|10.0.0.0/8||||0|0||NAG||\n\
         BGP4MP_ET|200.000005|W|192.0.2.1|64500|10.0.0.0/8\n\
         BGP4MP_ET|200.000005|STATE|192.0.2.1|64500|6|1\n",
    ),
    (
        Tag::Bgp4mpEt,
        None,
        "BGP4MP_ET|200.000000|A|192.0.2.1|64500|10.0.0.0/8||||0|0||NAG||\n\
         BGP4MP_ET|200.000000|W|192.0.2.1|64500|10.0.0.0/8\n\
         BGP4MP_ET|200.000000|STATE|192.0.2.1|64500|6|1\n",
    ),
    (
        Tag::Bgp4mpEt,
        Some(1_234_567),
        "BGP4MP_ET|200.1234567|A|192.0.2.1|64500|10.0.0.0/8||||0|0||NAG||\n\
         BGP4MP_ET|200.1234567|W|192.0.2.1|64500|10.0.0.0/8\n\
         BGP4MP_ET|200.1234567|STATE|192.0.2.1|64500|6|1\n",
    ),
];

/// Asserts the lines of a row.
fn assert_lines(
    rt: &impl Abort,
    alloc: Global,
    row: &(Tag, Option<u32>, &str),
) -> Result<(), AllocError> {
    let (tag, micros, want) = row;
    let text = lines_of(alloc, *tag, *micros)?;
    assert_eq!(rt; text.as_slice(), want.as_bytes());
    Ok(())
}

#[test]
fn each_item_has_a_line(rt: HostRuntime) -> Result<(), Fail> {
    for row in LINES {
        assert_lines(&rt, rt.alloc(), row)?;
    }
    Ok(())
}

#[test]
fn no_items_have_no_lines(rt: HostRuntime) -> Result<(), Fail> {
    let mut text = Vec::from_slice(rt.alloc(), b"old text\n")?;
    put_lines(
        &event_with(Tag::Bgp4mp, None, Vec::new(rt.alloc())),
        &mut text,
    )?;
    assert_eq!(rt; text.as_slice(), b"old text\n".as_slice());
    Ok(())
}
