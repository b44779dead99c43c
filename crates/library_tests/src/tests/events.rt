//! What the events of sources say, and what inputs pass on.

use ip_prefix::Addr;
use mrt_wire::{
    Event, InFault, Input, Item, Items, Next, Peer, ReadInput, SharedRange, Source, SourceFault,
    Stamp, Tag, Time,
};
use std::alloc::Global;
use std::io::{self, ErrorKind, Read};
use std::process::Abort;
use std::test::Fail;
use test_devices::{STATE_CHANGE, octets_of};

/// The event of an answer.
fn event_of(answer: Result<Next, SourceFault>) -> Option<Event> {
    match answer {
        Ok(Next::Event(event)) => Some(event),
        _ => None,
    }
}

/// The first event that a source answers over octets.
fn first_event(alloc: Global, octets: &[u8]) -> Option<Event> {
    let mut source = Source::new(alloc, Stamp::Change, 1 << 40);
    event_of(source.next(&mut ReadInput::new(octets)))
}

/// The peer and the states of an only item, where that is a state change.
fn only_change(items: &[Item]) -> Option<(Peer, u16, u16)> {
    match items {
        [Item::State(peer, old, new)] => Some((*peer, *old, *new)),
        _ => None,
    }
}

/// Asserts what the event of the state change says.
fn assert_change(rt: &impl Abort, event: &Event) {
    let time = Time {
        seconds: 100,
        micros: None,
    };
    assert_eq!(rt; event.time, time);
    assert_eq!(rt; event.tag, Tag::Bgp4mp);
    let peer = Peer {
        addr: Addr::v4([192, 0, 2, 1]),
        asn: 64500,
    };
    let change = only_change(event.items.as_slice());
    assert_eq!(rt; change, Some((peer, 6, 1)));
}

#[test]
fn a_state_change_is_an_event(rt: HostRuntime) -> Result<(), Fail> {
    let octets = octets_of(rt.alloc(), &[STATE_CHANGE])?;
    let event = first_event(rt.alloc(), &octets).ok_or("an event was wanted")?;
    assert_change(&rt, &event);
    Ok(())
}

/// An UPDATE that announces two prefixes.
const ANNOUNCED: &str = "000000C8 0010 0001 0000002B FBF4 FBF5 0000 0001 C0000201 C0000202 \
    FFFFFFFFFFFFFFFF FFFFFFFFFFFFFFFF 001B 02 0000 0000 080A 080B";

/// What is known of the sharers of items that are put together again.
fn shared_again(items: Items) -> SharedRange {
    Items::from_vec(items.into_vec()).longest_shared_range()
}

#[test]
fn items_put_together_are_not_known_to_share_a_route(rt: HostRuntime) -> Result<(), Fail> {
    let octets = octets_of(rt.alloc(), &[ANNOUNCED])?;
    let event = first_event(rt.alloc(), &octets).ok_or("an event was wanted")?;
    assert_eq!(rt;
        event.items.longest_shared_range(),
        SharedRange { start: 0, end: 2 }
    );
    assert_eq!(rt; shared_again(event.items), SharedRange { start: 0, end: 0 });
    Ok(())
}

/// A reader whose first read is interrupted.
#[derive(Drop)]
struct InterruptedReader {
    interrupted: bool,
}

impl Read for InterruptedReader {
    fn read(&mut self, buffer: &mut [u8]) -> io::Result<usize> {
        if self.interrupted {
            return Ok(0);
        }
        self.interrupted = true;
        Err(io::Error::from(ErrorKind::Interrupted))
    }
}

#[test]
fn an_interrupted_read_is_a_fault(rt: HostRuntime) {
    let mut input = ReadInput::new(InterruptedReader { interrupted: false });
    let mut buffer = [0; 4];
    assert_eq!(rt; input.take(&mut buffer), Err(InFault));
}
