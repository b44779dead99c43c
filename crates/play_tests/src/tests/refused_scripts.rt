//! Scripts for which memory is refused.

ghost use Rattle.std.specs.Prelude.{◌≡◌, None, false};

use super::Routes;
use super::played_scripts::{Played, SOUND, assert_played, play_on};
use bgpdump_tool::{OutFault, Outcome, Output, run_play};
use ip_prefix::{Addr, Prefix};
use mrt_wire::{ReadInput, Route, Stamp};
use rib_store::PrefixStore;
use std::alloc::{AllocError, Global};
use std::process::Abort;
use std::rc::Rc;
use std::test::Fail;
use test_devices::{MULTICAST, octets_of};

/// A store that makes no new key where it has so many.
#[derive(Drop)]
struct Scarce<S, const MOST: u64> {
    inner: S,
}

impl<S: PrefixStore<Rc<Route>>, const MOST: u64> PrefixStore<Rc<Route>> for Scarce<S, MOST> {
    ghost keys = { λ s. S.keys s.inner };

    ghost routes = { λ s. S.routes s.inner };

    fn new(alloc: Global) -> Self {
        Scarce {
            inner: S::new(alloc),
        }
    }

    fn ensure(&mut self, prefix: Prefix) -> Result<bool, AllocError> {
        if self.inner.key_count() >= MOST && !self.inner.has_key(&prefix) {
            return Err(AllocError);
        }
        self.inner.ensure(prefix)
    }

    fn exchange(&mut self, prefix: &Prefix, route: &mut Option<Rc<Route>>) {
        self.inner.exchange(prefix, route);
    }

    fn discard(&mut self, prefix: &Prefix) {
        self.inner.discard(prefix);
    }

    fn has_key(&self, prefix: &Prefix) -> bool {
        self.inner.has_key(prefix)
    }

    fn get(&self, prefix: &Prefix) -> Option<&Rc<Route>> {
        self.inner.get(prefix)
    }

    fn longest(&self, addr: &Addr) -> Option<(Prefix, &Rc<Route>)> {
        self.inner.longest(addr)
    }

    fn after(&self, prefix: Option<&Prefix>) -> Option<(Prefix, &Rc<Route>)> {
        self.inner.after(prefix)
    }

    fn leaks_on_drop() -> bool {
        false
    }

    fn key_count(&self) -> u64 {
        self.inner.key_count()
    }

    fn route_count(&self) -> u64 {
        self.inner.route_count()
    }
}

/// Carries out a script over these octets, with a store that has no more keys than this.
fn play<const MOST: u64>(alloc: Global, octets: &[u8], script: &str) -> Played {
    play_on::<Scarce<Routes, MOST>>(alloc, octets, script.as_bytes(), SOUND)
}

/// Asserts what such a run wrote. It finishes its outputs unless memory was refused.
fn assert_ended(rt: &impl Abort, played: &Played, outcome: Outcome, replies: &str, reports: &str) {
    assert_eq!(rt; played.outcome, outcome);
    let finishes = u64::from(outcome != Outcome::Memory);
    let (replies, reports) = (replies.as_bytes(), reports.as_bytes());
    assert_played(
        rt,
        played,
        replies,
        reports,
        (finishes, finishes),
        replies.len(),
    );
}

/// The announcement of 10.0.0.0/8 by 192.0.2.1 of AS 64500 at 100 seconds.
const ANNOUNCED: &str = "00000064 0010 0001 0000003B FBF4 FBF5 0000 0001 C0000201 C0000202 \
    FFFFFFFFFFFFFFFF FFFFFFFFFFFFFFFF 002B 02 0000 0012 40010100 400204 0201 FBF4 \
    400304 C0000209 080A";

/// The withdrawal and the announcement of another route to it, at 101 seconds.
const REPLACED: &str = "00000065 0010 0001 0000003D FBF4 FBF5 0000 0001 C0000201 C0000202 \
    FFFFFFFFFFFFFFFF FFFFFFFFFFFFFFFF 002D 02 0002 080A 0012 40010100 400204 0201 FBF4 \
    400304 C000020A 080A";

#[test]
fn a_store_that_refuses_all_keys_ends_a_script(rt: HostRuntime) -> Result<(), Fail> {
    let octets = octets_of(rt.alloc(), &[ANNOUNCED, REPLACED])?;
    let script =
        "next 2\nroute 192.0.2.1 64500 10.0.0.0/8\nback\nroute 192.0.2.1 64500 10.0.0.0/8\n";
    let played = play::<0>(rt.alloc(), &octets, script);
    assert_ended(&rt, &played, Outcome::Memory, "", "");
    Ok(())
}

/// The announcement of that other route and of a further prefix.
const FURTHER: &str = "00000065 0010 0001 0000003E FBF4 FBF5 0000 0001 C0000201 C0000202 \
    FFFFFFFFFFFFFFFF FFFFFFFFFFFFFFFF 002E 02 0000 0012 40010100 400204 0201 FBF4 \
    400304 C000020A 080A 100A01";

/// Scripts over an announcement, a record that isn't read and the further one, whose last commands play the second announcement, in one way and another;
/// the replies that stand where it is refused, and all; and the reports, which stand in each case.
const REFUSED: &[(&str, &str, &str, &str)] = &[
    (
        "next\nfoo\nnext\nwhere\nnext\n",
        "at 1\nat 1\nat 1 ahead 0\n",
        "at 1\nat 1\nat 1 ahead 0\nat 2\n",
        "bgpdump: script line 2: bad command\n\
         bgpdump: record 2, byte 71: unsupported type 13 subtype 3\n",
    ),
    (
        "next 3\n",
        "",
        "at 2\n",
        "bgpdump: record 2, byte 71: unsupported type 13 subtype 3\n",
    ),
    (
        "goto 1\ngoto 2\n",
        "at 1\n",
        "at 1\nat 2\n",
        "bgpdump: record 2, byte 71: unsupported type 13 subtype 3\n",
    ),
];

/// Asserts the replies of a row with one key, which ends with want of memory, and with two.
fn assert_refused(rt: &impl Abort, alloc: Global, octets: &[u8], row: &(&str, &str, &str, &str)) {
    let (script, before, all, reports) = row;
    let played = play::<1>(alloc, octets, script);
    assert_ended(rt, &played, Outcome::Memory, before, reports);
    let played = play::<2>(alloc, octets, script);
    assert_ended(rt, &played, Outcome::Reported, all, reports);
}

#[test]
fn a_refused_key_leaves_the_replies_before(rt: HostRuntime) -> Result<(), Fail> {
    let octets = octets_of(rt.alloc(), &[ANNOUNCED, MULTICAST, FURTHER])?;
    for row in REFUSED {
        assert_refused(&rt, rt.alloc(), &octets, row);
    }
    Ok(())
}

#[test]
fn a_loss_wants_no_key(rt: HostRuntime) -> Result<(), Fail> {
    let octets = octets_of(rt.alloc(), &[ANNOUNCED, REPLACED])?;
    let script = "next 2\nlose 192.0.2.1 64500\npeers\nback\npeers\n";
    let played = play::<1>(rt.alloc(), &octets, script);
    let replies = "at 2\nat 3 dropped 0\nnone\nat 2\nPEER|192.0.2.1|64500|1\n";
    assert_ended(&rt, &played, Outcome::Done, replies, "");
    Ok(())
}

/// An output into room of its own, for which it takes no memory.
#[derive(Drop)]
struct Room {
    octets: [u8; 256],
    used: usize,
    failed: bool,
}

impl Room {
    fn new() -> Self
        ensures { result.failed ≡ false }
    {
        Room {
            octets: [0; 256],
            used: 0,
            failed: false,
        }
    }

    /// What was written.
    fn text(&self) -> &[u8] {
        self.octets.get(..self.used).unwrap_or(&self.octets)
    }
}

impl Output for Room {
    ghost written = { λ _. None };

    ghost failed = { λ room. room.failed };

    fn put(&mut self, octets: &[u8]) -> Result<usize, OutFault> {
        let Some(end) = self.used.checked_add(octets.len()) else {
            self.failed = true;
            return Err(OutFault);
        };
        let Some(room) = self.octets.get_mut(self.used..end) else {
            self.failed = true;
            return Err(OutFault);
        };
        room.copy_from_slice(octets);
        self.used = end;
        Ok(octets.len())
    }

    fn flush(&mut self) -> Result<(), OutFault> {
        Ok(())
    }

    fn finish(&mut self) -> Result<(), OutFault> {
        Ok(())
    }
}

/// The octets of an announcement of 10.0.0.0/8 and of another route to it.
const SPELLED: &[u8] =
    b"\x00\x00\x00\x64\x00\x10\x00\x01\x00\x00\x00\x3b\xfb\xf4\xfb\xf5\x00\x00\x00\x01\
    \xc0\x00\x02\x01\xc0\x00\x02\x02\xff\xff\xff\xff\xff\xff\xff\xff\xff\xff\xff\xff\
    \xff\xff\xff\xff\x00\x2b\x02\x00\x00\x00\x12\x40\x01\x01\x00\x40\x02\x04\x02\x01\
    \xfb\xf4\x40\x03\x04\xc0\x00\x02\x09\x08\x0a\x00\x00\x00\x65\x00\x10\x00\x01\x00\
    \x00\x00\x3d\xfb\xf4\xfb\xf5\x00\x00\x00\x01\xc0\x00\x02\x01\xc0\x00\x02\x02\xff\
    \xff\xff\xff\xff\xff\xff\xff\xff\xff\xff\xff\xff\xff\xff\xff\x00\x2d\x02\x00\x02\
    \x08\x0a\x00\x12\x40\x01\x01\x00\x40\x02\x04\x02\x01\xfb\xf4\x40\x03\x04\xc0\x00\
    \x02\x0a\x08\x0a";

/// A script over them, the replies and the reports.
const SCRIPT: &[u8] = b"next 2\nroute 192.0.2.1 64500 10.0.0.0/8\nfoo\nback\n\
                        route 192.0.2.1 64500 10.0.0.0/8\nlose 192.0.2.1 64500\npeers\n";

const REPLIES: &[u8] = b"at 2\n\
                         RIB|101|B|192.0.2.1|64500|10.0.0.0/8|64500|IGP|192.0.2.10|0|0||NAG||\n\
                         at 1\n\
                         RIB|100|B|192.0.2.1|64500|10.0.0.0/8|64500|IGP|192.0.2.9|0|0||NAG||\n\
                         at 2 dropped 1\n\
                         none\n";

const REPORTS: &[u8] = b"bgpdump: script line 3: bad command\n";

/// Where a growth is refused, as by `rt try --test --fail-alloc`, fronts of the texts are written.
#[test]
fn a_refused_growth_ends_a_script(rt: HostRuntime) {
    let mut out = Room::new();
    let mut err = Room::new();
    let mut input = ReadInput::new(SPELLED);
    let outcome = run_play::<Routes, _, _, _>(
        rt.alloc(),
        &mut input,
        SCRIPT,
        &mut out,
        &mut err,
        Stamp::Dump,
    );
    if outcome == Outcome::Memory {
        assert!(rt; REPLIES.starts_with(out.text()));
        assert!(rt; REPORTS.starts_with(err.text()));
    } else {
        assert_eq!(rt; outcome, Outcome::Reported);
        assert_eq!(rt; out.text(), REPLIES);
        assert_eq!(rt; err.text(), REPORTS);
    }
}
