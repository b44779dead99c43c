//! Octets that are spelled by words: hexadecimal digits, names, and groups in braces.

use crate::group::Group;
use crate::names::Names;
use std::alloc::{AllocError, Global};

/// A group that was begun, and where.
#[derive(Clone, Copy)]
struct Open {
    group: Group,
    start: usize,
}

/// Octets, and the groups among them that aren't ended yet.
#[derive(Drop)]
pub struct Spelled {
    alloc: Global,
    octets: Vec<u8>,
    open: Vec<Open>,
    /// How many octets of a `front{` stand there at most, and how many there are.
    cut: usize,
    fronts: usize,
}

/// The value of a hexadecimal digit.
fn digit_value(digit: u8) -> Option<u8> {
    match digit {
        b'0'..=b'9' => Some(digit - b'0'),
        b'A'..=b'F' => Some(digit - b'A' + 10),
        _ => None,
    }
}

/// Appends the octets that digits spell, two for each, and answers whether they do.
pub fn put_digits(word: &str, octets: &mut Vec<u8>) -> bool {
    let mut high = None;
    let mut are_digits = true;
    for digit in word.bytes() {
        let Some(value) = digit_value(digit) else {
            return false;
        };
        match high.take() {
            None => high = Some(value),
            Some(first) => are_digits &= octets.push(first << 4 | value).is_ok(),
        }
    }
    are_digits && high.is_none()
}

impl Spelled {
    /// None yet.
    pub fn new(alloc: Global) -> Self {
        Spelled::cut(alloc, usize::MAX)
    }

    /// None yet, and so many of each `front{` at most.
    pub fn cut(alloc: Global, cut: usize) -> Self {
        Spelled {
            alloc,
            octets: Vec::new(alloc),
            open: Vec::new(alloc),
            cut,
            fronts: 0,
        }
    }

    /// How many octets the longest `front{` has.
    pub fn fronts(&self) -> usize {
        self.fronts
    }

    /// Appends what the words spell, and answers whether each spells something.
    pub fn put_words(&mut self, names: &Names, words: &str) -> bool {
        let mut are_known = true;
        for word in words.split_whitespace() {
            are_known &= self.put_word(names, word);
        }
        are_known
    }

    /// Appends what a word spells, and answers whether it spells something.
    fn put_word(&mut self, names: &Names, word: &str) -> bool {
        if word == "}" {
            return self.end_group();
        }
        if let Some(group) = Group::begun_by(word) {
            let start = self.octets.len();
            return self.open.push(Open { group, start }).is_ok();
        }
        match names.get(word) {
            Some(octets) => self.octets.extend_from_slice(octets).is_ok(),
            None => put_digits(word, &mut self.octets),
        }
    }

    /// Ends the group that was begun last, and answers whether there is one.
    fn end_group(&mut self) -> bool {
        match self.open.pop() {
            Some(open) => self.put_group(open).is_ok(),
            None => false,
        }
    }

    /// Puts a group in the place of its octets.
    fn put_group(&mut self, open: Open) -> Result<(), AllocError> {
        let body = self.octets.get(open.start..).unwrap_or(&[]);
        let mut body = Vec::from_slice(self.alloc, body)?;
        if matches!(open.group, Group::Front) {
            self.fronts = self.fronts.max(body.len());
            body.truncate(self.cut);
        }
        self.octets.truncate(open.start);
        open.group.put(&body, &mut self.octets)
    }

    /// The octets so far, where each group is ended.
    pub fn whole(&self) -> Option<&[u8]> {
        if self.open.is_empty() {
            return Some(self.octets.as_slice());
        }
        None
    }
}
