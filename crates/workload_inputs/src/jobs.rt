//! What the jobs that are timed go over.

ghost use Rattle.std.specs.Prelude.{◌<◌};

use crate::chance::Chance;
use crate::file::{File, Kind, Part};
use crate::peers::Peer;
use crate::script::Script;
use crate::tables::Entries;
use crate::updates::Course;
use crate::world::{Counts, World};
use std::alloc::{AllocError, Global};

/// What a job is made of: a seed, and how large it is, in hundredths.
#[derive(Clone, Copy)]
pub struct Size {
    /// What all draws hang on.
    pub seed: u64,
    /// How many hundredths of the whole job.
    pub hundredths: u32,
}

/// A file, and the script that goes over it.
#[derive(Drop)]
pub struct Scripted {
    /// The file.
    pub file: File,
    /// The script.
    pub script: String,
}

impl Size {
    /// The part of a number that the job takes, at least one.
    fn of(self, whole: u32) -> u32 {
        let part = u64::from(whole).wrapping_mul(u64::from(self.hundredths)) / 100;
        u32::try_from(part).unwrap_or(u32::MAX).max(1)
    }
}

/// The peers of a collector, and what they announce in a day's course.
const COLLECTOR: Counts = Counts {
    v4_peers: 60,
    v6_peers: 40,
    v4_prefixes: 950_000,
    v6_prefixes: 200_000,
    kinds: 128,
};

/// The entries of a prefix at two thirds of the peers.
fn entries(v6: bool) -> Entries {
    Entries {
        v6,
        of_thousand: 667,
    }
}

/// The entries of a prefix at nearly all of the peers.
fn whole(v6: bool) -> Entries {
    Entries {
        v6,
        of_thousand: 950,
    }
}

/// How a day goes.
fn course(precise: bool, losses: u32) -> Course {
    Course { precise, losses }
}

/// The parts, as large as the job takes them.
fn parts_of(alloc: Global, size: Size, parts: &[(Kind, u32)]) -> Result<Vec<Part>, AllocError> {
    let mut listed = Vec::new(alloc);
    for (kind, records) in parts {
        listed.push(Part {
            kind: *kind,
            records: size.of(*records),
        })?;
    }
    Ok(listed)
}

/// A file of these parts.
fn file(
    alloc: Global,
    size: Size,
    counts: Counts,
    parts: &[(Kind, u32)],
) -> Result<File, AllocError> {
    let parts = parts_of(alloc, size, parts)?;
    let world = World::new(alloc, size.seed, counts)?;
    Ok(File::new(alloc, world, parts))
}

/// A file of these parts, and the script over it.
fn with_script(
    alloc: Global,
    size: Size,
    counts: Counts,
    parts: &[(Kind, u32)],
    script: String,
) -> Result<Scripted, AllocError> {
    Ok(Scripted {
        file: file(alloc, size, counts, parts)?,
        script,
    })
}

/// A collector's table.
pub fn table(alloc: Global, size: Size) -> Result<File, AllocError> {
    let mut counts = COLLECTOR;
    counts.v4_prefixes = size.of(110_000);
    counts.v6_prefixes = size.of(22_000);
    let parts = [
        (Kind::Index, 1),
        (Kind::Rib(entries(false)), 110_000),
        (Kind::Rib(entries(true)), 22_000),
    ];
    file(alloc, size, counts, &parts)
}

/// A table of the old kind.
pub fn old_table(alloc: Global, size: Size) -> Result<File, AllocError> {
    let parts = [
        (Kind::OldTable(false), 1_600_000),
        (Kind::OldTable(true), 200_000),
    ];
    file(alloc, size, COLLECTOR, &parts)
}

/// Updates, with microseconds or without.
pub fn updates(alloc: Global, size: Size, precise: bool) -> Result<File, AllocError> {
    let parts = [(Kind::Updates(course(precise, 2)), 800_000)];
    file(alloc, size, COLLECTOR, &parts)
}

/// A table, and updates behind it; the script goes back and forth over them, and asks.
pub fn play(alloc: Global, size: Size) -> Result<Scripted, AllocError> {
    let counts = Counts {
        v4_peers: 40,
        v6_peers: 20,
        v4_prefixes: size.of(12_000),
        v6_prefixes: size.of(3_000),
        kinds: size.of(2_500),
    };
    let parts = [
        (Kind::Index, 1),
        (Kind::Rib(entries(false)), 12_000),
        (Kind::Rib(entries(true)), 3_000),
        (Kind::Updates(course(false, 2)), 150_000),
    ];
    let script = way(alloc, size).whole()?;
    with_script(alloc, size, counts, &parts, script)
}

/// The commands that go over a table and updates, back and forth.
fn way(alloc: Global, size: Size) -> Script {
    let mut script = Script::new(alloc);
    script.put_counted("next", size.of(100_000));
    script.put("peers\n");
    script.put_counted("back", size.of(50_000));
    script.put_counted("next", size.of(30_000));
    script.put_counted("goto", size.of(60_000));
    script.put_counted("next", size.of(200_000));
    put_steps(&mut script, "back\n", size);
    put_steps(&mut script, "next\n", size);
    script.put("goto 1\n");
    script.put_counted("goto", size.of(40_000));
    script.put("peers\n");
    script
}

/// Appends a command over and over.
fn put_steps(script: &mut Script, line: &str, size: Size) {
    for _ in 0..size.of(5_000) {
        script.put(line);
    }
}

/// A few peers with large tables, and questions about their routes.
pub fn ask(alloc: Global, size: Size) -> Result<Scripted, AllocError> {
    let counts = Counts {
        v4_peers: 3,
        v6_peers: 1,
        v4_prefixes: size.of(120_000),
        v6_prefixes: size.of(30_000),
        kinds: size.of(10_000),
    };
    let parts = [
        (Kind::Index, 1),
        (Kind::Rib(whole(false)), 120_000),
        (Kind::Rib(whole(true)), 30_000),
        (Kind::Updates(course(false, 2)), 60_000),
    ];
    let script = questions(alloc, size, counts)?;
    with_script(alloc, size, counts, &parts, script)
}

/// A script of questions, and of steps in between.
fn questions(alloc: Global, size: Size, counts: Counts) -> Result<String, AllocError> {
    let world = World::new(alloc, size.seed, counts)?;
    let mut script = Script::new(alloc);
    script.put_counted("next", size.of(150_001));
    for _ in 0..4u8 {
        put_questions(&mut script, &world, size);
        script.put_counted("next", size.of(15_000));
    }
    script.whole()
}

/// Appends a question for the table of each peer, and some for addresses and prefixes.
fn put_questions(script: &mut Script, world: &World, size: Size) {
    put_tables(script, &world.v4.peers);
    put_tables(script, &world.v6.peers);
    let mut chance = Chance::new(size.seed ^ script.len() as u64);
    for _ in 0..size.of(2_500) {
        put_question(script, world, &mut chance);
    }
    script.put("peers\n");
}

/// Appends a question for the table of each of the peers.
fn put_tables(script: &mut Script, peers: &[Peer]) {
    for peer in peers {
        script.put_about("table", peer);
        script.put("\n");
    }
}

/// Appends a question for an address and one for a prefix of IPv4.
fn put_question(script: &mut Script, world: &World, chance: &mut Chance) {
    let Some(peer) = world.v4.peer(chance.below(world.v4.peer_count().max(1))) else {
        return;
    };
    let network = world.network(false, chance.below(world.v4.prefixes.max(1)));
    let [a, b, c, d, ..] = network.first.to_be_bytes();
    let [.., last] = chance.below(256).to_be_bytes();
    script.put_about("lookup", &peer);
    script.put_address([a, b, c, last]);
    script.put("\n");
    script.put_about("route", &peer);
    script.put_address([a, b, c, d]);
    script.put_len(network.len);
}

/// A stream of updates; the script keeps the last steps.
pub fn forget(alloc: Global, size: Size) -> Result<Scripted, AllocError> {
    let mut counts = COLLECTOR;
    counts.kinds = 400;
    let parts = [(Kind::Updates(course(true, 50)), 60_000)];
    let script = forgetting(alloc, size).whole()?;
    with_script(alloc, size, counts, &parts, script)
}

/// The commands that go on, and forget what lies long behind.
fn forgetting(alloc: Global, size: Size) -> Script {
    let mut script = Script::new(alloc);
    for _ in 0..65u8 {
        script.put_counted("next", size.of(1_000));
        script.put_counted("forget", size.of(15_000));
    }
    script
}

/// A peer that loses its session and announces all anew, a leak of longer prefixes, messages with
/// many prefixes and long paths, and records that are reported.
pub fn storm(alloc: Global, size: Size) -> Result<Scripted, AllocError> {
    let counts = Counts {
        v4_peers: 20,
        v6_peers: 10,
        v4_prefixes: 131_072,
        v6_prefixes: 10_000,
        kinds: 500,
    };
    let parts = [
        (Kind::Flood(0, 800), 164),
        (Kind::Flap, 200),
        (Kind::Flood(1, 800), 164),
        (Kind::Flap, 200),
        (Kind::Flood(2, 800), 164),
        (Kind::Leak(100), 1_000),
        (Kind::Damaged, 20_000),
        (Kind::Updates(course(false, 2)), 10_000),
        (Kind::Large, 5),
        (Kind::Flap, 200),
    ];
    let script = turns(alloc, size).whole()?;
    with_script(alloc, size, counts, &parts, script)
}

/// The commands that go on, back, and on again.
fn turns(alloc: Global, size: Size) -> Script {
    let mut script = Script::new(alloc);
    script.put_counted("next", size.of(40_000));
    script.put_counted("back", size.of(12_000));
    script.put_counted("next", size.of(40_000));
    script
}
