//! Digests of what is written.

ghost use Rattle.std.specs.Prelude.{◌<◌};

use byteorder::{ByteOrder, LittleEndian};
use std::io;
use std::io::Write;

/// How many octets are taken in at once.
const BLOCK: usize = 32;

/// An odd number that spreads a word's bits.
const SPREAD: u64 = 0x9e37_79b9_7f4a_7c15;

/// What is kept of the words of blocks, each lane of one word of each.
#[derive(Clone, Copy)]
struct Lanes {
    first: u64,
    second: u64,
    third: u64,
    fourth: u64,
}

/// What a digest gives.
#[derive(Clone, Copy)]
pub struct Sum {
    /// A number that hangs on all octets that were written.
    pub number: u64,
    /// How many they were.
    pub length: u64,
}

/// A writer that keeps a digest and the length of what is written, however that comes in pieces.
#[derive(Drop)]
pub struct Digest {
    lanes: Lanes,
    /// The octets that aren't taken in yet.
    rest: [u8; BLOCK],
    held: usize,
    length: u64,
}

/// A lane once a word is taken in.
fn with_word(lane: u64, word: u64) -> u64 {
    (lane ^ word).wrapping_mul(SPREAD).rotate_left(29)
}

impl Lanes {
    /// The lanes once a block is taken in.
    fn with_block(self, block: &[u8]) -> Lanes {
        if block.len() < BLOCK {
            return self;
        }
        Lanes {
            first: with_word(self.first, LittleEndian::read_u64(block)),
            second: with_word(self.second, LittleEndian::read_u64(&block[8..])),
            third: with_word(self.third, LittleEndian::read_u64(&block[16..])),
            fourth: with_word(self.fourth, LittleEndian::read_u64(&block[24..])),
        }
    }

    /// The lanes once all blocks are taken in.
    fn with_blocks(self, octets: &[u8]) -> Lanes {
        let mut lanes = self;
        for block in octets.chunks_exact(BLOCK) {
            lanes = lanes.with_block(block);
        }
        lanes
    }
}

impl Digest {
    /// The digest of nothing.
    pub fn new() -> Self {
        Digest {
            lanes: Lanes {
                first: 1,
                second: 2,
                third: 3,
                fourth: 4,
            },
            rest: [0; BLOCK],
            held: 0,
            length: 0,
        }
    }

    /// What it gives for all that was written.
    pub fn sum(&self) -> Sum {
        let lanes = self.lanes.with_block(&self.rest);
        let number = with_word(with_word(self.length, lanes.first), lanes.second);
        let number = with_word(with_word(number, lanes.third), lanes.fourth);
        Sum {
            number: number ^ number >> 32,
            length: self.length,
        }
    }

    /// Fills what is held, if something is, with the first octets, and gives those behind.
    fn fill_begun<'a>(&mut self, octets: &'a [u8]) -> &'a [u8] {
        if self.held == 0 {
            return octets;
        }
        self.fill(octets)
    }

    /// Fills what is held with the first octets, and gives those behind.
    fn fill<'a>(&mut self, octets: &'a [u8]) -> &'a [u8] {
        let room = BLOCK.saturating_sub(self.held);
        let (front, behind) = octets.split_at(room.min(octets.len()));
        for (place, octet) in self.rest.iter_mut().skip(self.held).zip(front) {
            *place = *octet;
        }
        self.held = self.held.wrapping_add(front.len());
        if self.held >= BLOCK {
            self.lanes = self.lanes.with_block(&self.rest);
            self.rest = [0; BLOCK];
            self.held = 0;
        }
        behind
    }
}

impl Write for Digest {
    fn write(&mut self, octets: &[u8]) -> io::Result<usize> {
        self.length = self.length.wrapping_add(octets.len() as u64);
        let behind = self.fill_begun(octets);
        let whole = behind.len() / BLOCK * BLOCK;
        self.lanes = self.lanes.with_blocks(&behind[..whole]);
        let _ = self.fill(&behind[whole..]);
        Ok(octets.len())
    }

    fn flush(&mut self) -> io::Result<()> {
        Ok(())
    }
}
