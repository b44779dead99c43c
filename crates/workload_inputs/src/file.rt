//! Files that are made record by record, as they are read.

ghost use Rattle.std.specs.Prelude.{◌<◌};

use crate::octets::Octets;
use crate::tables::Entries;
use crate::updates::Course;
use crate::world::World;
use std::alloc::{AllocError, Global};
use std::io;
use std::io::Read;

/// How many octets are made before they are read, and one record more.
const PIECE: usize = 65_536;

/// Records of one kind.
#[derive(Clone, Copy)]
pub(crate) enum Kind {
    /// The index of peers.
    Index,
    /// The entries of a prefix each.
    Rib(Entries),
    /// An entry each; whether of IPv6.
    OldTable(bool),
    /// What peers send in a day's course.
    Updates(Course),
    /// Announcements by the first peer of all its prefixes; in which pass, and how many a message.
    Flood(u32, u32),
    /// The loss of the first peer's session, and its return.
    Flap,
    /// Announcements of longer prefixes, so many a message.
    Leak(u32),
    /// Announcements of many prefixes with a long path.
    Large,
    /// Records that are reported.
    Damaged,
}

/// So many records of one kind.
#[derive(Clone, Copy)]
pub(crate) struct Part {
    pub(crate) kind: Kind,
    pub(crate) records: u32,
}

/// A file: parts one behind the other, each made as it is read.
#[derive(Drop)]
pub struct File {
    world: World,
    parts: Vec<Part>,
    /// The part that is made, and how many of its records are.
    part: usize,
    made: u32,
    /// What is made and not read yet, from the place on.
    octets: Octets,
    place: usize,
}

impl File {
    /// A file of which nothing is made yet.
    pub(crate) fn new(alloc: Global, world: World, parts: Vec<Part>) -> Self {
        File {
            world,
            parts,
            part: 0,
            made: 0,
            octets: Octets::new(alloc),
            place: 0,
        }
    }

    /// Makes the next record, and answers whether there was one.
    fn make(&mut self) -> bool {
        let Some(part) = self.parts.get(self.part).copied() else {
            return false;
        };
        if self.made >= part.records {
            self.part = self.part.wrapping_add(1);
            self.made = 0;
            return true;
        }
        let number = self.made;
        self.made += 1;
        self.put(part.kind, number);
        true
    }

    /// Appends the record of a kind with this number.
    fn put(&mut self, kind: Kind, number: u32) {
        let File { world, octets, .. } = self;
        match kind {
            Kind::Index => world.put_index(octets),
            Kind::Rib(entries) => world.put_rib(octets, entries, number),
            Kind::OldTable(v6) => world.put_old_entry(octets, v6, number),
            Kind::Updates(course) => world.put_update(octets, course),
            Kind::Flood(pass, at_once) => world.put_flood(octets, pass, number, at_once),
            Kind::Flap => world.put_first_flap(octets, number),
            Kind::Leak(at_once) => world.put_leak(octets, at_once),
            Kind::Large => world.put_large(octets),
            Kind::Damaged => world.put_damaged(octets),
        }
    }

    /// Makes the next piece, in place of what was read.
    fn make_piece(&mut self) -> Result<(), AllocError> {
        self.octets.clear();
        self.place = 0;
        for _ in 0..PIECE {
            if self.octets.len() >= PIECE || !self.make() {
                break;
            }
        }
        self.octets.check()
    }
}

impl Read for File {
    fn read(&mut self, buffer: &mut [u8]) -> io::Result<usize> {
        if self.place >= self.octets.len() {
            self.make_piece()?;
        }
        let rest = self.octets.behind(self.place);
        let count = rest.len().min(buffer.len());
        buffer[..count].copy_from_slice(&rest[..count]);
        self.place = self.place.wrapping_add(count);
        Ok(count)
    }
}
