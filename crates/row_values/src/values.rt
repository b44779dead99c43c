//! Calls on values: a line each of a script. `none` is answered where there is no such value. Texts
//! are appended to another one, which is `before`, or what a line names.
//!
//!     address TEXT, prefix TEXT           the text of what a text spells
//!     decimal NUMBER                      its digits
//!     path SEGMENTS, copy SEGMENTS        the text of a path, and of a copy of it and its segments
//!     communities NUMBER..                their text
//!     fault malformed, fault refused      the text of a fault of what was to be read
//!     octets OCTETS                       the address of four or sixteen octets
//!     read FAMILY OCTETS                  the prefix that octets begin with, and how many it takes
//!     behind TEXT: CALL                   the same, where what is appended stands behind the text
//!
//! `parts` has those of addresses and prefixes, and `turns` what two of them are to each other. A
//! line is answered by one.

use crate::appended::{Front, put_appended};
use crate::marks;
use crate::parts::{family_word, put_part};
use crate::paths::{numbers_of, path_of};
use crate::shown::Shown;
use crate::spelled::put_digits;
use crate::turns::put_between;
use crate::words::{NONE, REFUSED, UNREAD, address_word, number_word, prefix_word, split_word};
use bgp_wire::{AsPath, WireFault, put_communities};
use ip_prefix::{Addr, Prefix, V4_OCTETS, V6_OCTETS, put_decimal};
use std::alloc::{AllocError, Global};
use std::str;

/// What stands in front of a text where the line names nothing else.
const BEFORE: &str = "before";

/// Appends what is answered to the lines.
pub fn put_values(alloc: Global, script: &[u8], text: &mut Shown) {
    for line in str::from_utf8(script).unwrap_or("").lines() {
        put_answer(alloc, line, text);
        text.put(b"\n");
    }
}

/// Appends what is answered to a line.
fn put_answer(alloc: Global, line: &str, text: &mut Shown) {
    let behind = line
        .strip_prefix("behind ")
        .and_then(|it| it.split_once(": "));
    let (before, call) = behind.unwrap_or((BEFORE, line));
    let octets = before.as_bytes();
    put_value(Front { alloc, octets }, call, text);
}

/// Appends what a call answers, where a text stands behind this front.
fn put_value(front: Front<'_>, call: &str, text: &mut Shown) {
    let (name, rest) = split_word(call);
    match name {
        "address" | "prefix" | "decimal" => put_spelled(front, name, rest, text),
        "path" => put_path(front, path_of(front.alloc, rest), text),
        "copy" => put_path(front, copied(front.alloc, rest), text),
        "communities" => put_numbers(front, numbers_of(front.alloc, rest), text),
        "octets" => put_made(front, rest, text),
        _ => put_small(front.alloc, name, rest, text),
    }
}

/// Appends what a call answers that appends nothing.
fn put_small(alloc: Global, name: &str, rest: &str, text: &mut Shown) {
    match name {
        "fault" => put_fault(alloc, rest, text),
        "read" => put_read(alloc, rest, text),
        "turn" | "under" | "from" | "shared" | "compare" | "contains" | "covers" => {
            put_between(name, rest, text)
        }
        _ => put_part(alloc, name, rest, text),
    }
}

/// Appends the text of what a text spells.
fn put_spelled(front: Front<'_>, name: &str, word: &str, text: &mut Shown) {
    match name {
        "address" => put_address(front, address_word(word), text),
        "prefix" => match prefix_word(word) {
            Some(prefix) => put_appended(front, |octets| prefix.put_text(octets), text),
            None => text.put(NONE),
        },
        _ => match number_word(word) {
            Some(number) => put_appended(front, |octets| put_decimal(number, octets), text),
            None => text.put(UNREAD),
        },
    }
}

/// Appends the text of an address, where there is one.
fn put_address(front: Front<'_>, address: Option<Addr>, text: &mut Shown) {
    match address {
        Some(address) => put_appended(front, |octets| address.put_text(octets), text),
        None => text.put(NONE),
    }
}

/// A copy of a copy of the path that the words spell, by a call that is marked.
fn copied(alloc: Global, words: &str) -> Result<AsPath, AllocError> {
    let path = path_of(alloc, words)?;
    marks::begin(alloc);
    let copy = copy_of(&path);
    marks::end(alloc);
    copy
}

/// A copy of the segments of a copy of the path.
fn copy_of(path: &AsPath) -> Result<AsPath, AllocError> {
    let copy = path.clone()?;
    Ok(AsPath {
        segments: copy.segments.clone()?,
    })
}

/// Appends the text of a path that was made.
fn put_path(front: Front<'_>, made: Result<AsPath, AllocError>, text: &mut Shown) {
    match made {
        Ok(path) => put_appended(front, |octets| path.put_text(octets), text),
        Err(AllocError) => text.put(REFUSED),
    }
}

/// Appends the text of communities that were made.
fn put_numbers(front: Front<'_>, made: Result<Vec<u32>, AllocError>, text: &mut Shown) {
    match made {
        Ok(numbers) => put_appended(front, |octets| put_communities(&numbers, octets), text),
        Err(AllocError) => text.note(Err(AllocError)),
    }
}

/// Appends the text of a fault.
fn put_fault(alloc: Global, word: &str, text: &mut Shown) {
    let fault = match word {
        "malformed" => WireFault::Malformed,
        "refused" => WireFault::Memory,
        _ => return text.put(UNREAD),
    };
    text.put_made(format!(in alloc; "{fault}"));
}

/// Appends the address that octets are.
fn put_made(front: Front<'_>, digits: &str, text: &mut Shown) {
    let mut octets = Vec::new(front.alloc);
    if put_digits(digits, &mut octets) {
        put_address(front, address_of(&octets), text);
    } else {
        text.put(UNREAD);
    }
}

/// The address of the first sixteen octets, or of the first four of fewer.
fn address_of(octets: &[u8]) -> Option<Addr> {
    if let Some(octets) = octets.first_chunk::<V6_OCTETS>() {
        return Some(Addr::v6(*octets));
    }
    match octets.first_chunk::<V4_OCTETS>() {
        Some(octets) => Some(Addr::v4(*octets)),
        None => None,
    }
}

/// Appends the prefix of a family that octets begin with, and how many it takes.
fn put_read(alloc: Global, words: &str, text: &mut Shown) {
    let (word, digits) = split_word(words);
    let mut octets = Vec::new(alloc);
    match family_word(word) {
        Some(family) if put_digits(digits, &mut octets) => {
            put_taken(Prefix::read(family, &octets), text);
        }
        _ => text.put(UNREAD),
    }
}

/// Appends a prefix and how many octets it takes, where there is one.
fn put_taken(found: Option<(Prefix, usize)>, text: &mut Shown) {
    match found {
        Some((prefix, taken)) => {
            text.put_prefix(&prefix);
            text.put(b", octets ");
            text.put_number(taken as u64);
        }
        None => text.put(NONE),
    }
}
