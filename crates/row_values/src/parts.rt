//! Parts of addresses and prefixes: a line each of a script.
//!
//!     family ADDRESS, octet ADDRESS PLACE, bit ADDRESS PLACE
//!     new ADDRESS LENGTH                  the prefix of so many of its bits
//!     host ADDRESS                        that of all
//!     half PREFIX                         its first 64 bits
//!     width FAMILY                        how many bits an address has
//!
//! A prefix is answered with its least address, its length and its family.

use crate::shown::Shown;
use crate::words::{NONE, UNREAD, address_word, prefix_word, split_word};
use ip_prefix::{Addr, Family, Prefix, V4_OCTETS, V6_OCTETS};
use std::alloc::Global;

/// The family that a word names.
pub(crate) fn family_word(word: &str) -> Option<Family> {
    match word {
        "v4" => Some(Family::V4),
        "v6" => Some(Family::V6),
        _ => None,
    }
}

/// Appends a part that a line names.
pub(crate) fn put_part(alloc: Global, name: &str, rest: &str, text: &mut Shown) {
    let (word, number) = split_word(rest);
    match name {
        "half" => put_half(alloc, prefix_word(word), text),
        "width" => put_width(family_word(word), text),
        _ => match address_word(word) {
            Some(address) => put_part_of(name, &address, number.parse::<u8>().ok(), text),
            None => text.put(UNREAD),
        },
    }
}

/// Appends the first 64 bits of a prefix, by hexadecimal digits.
fn put_half(alloc: Global, prefix: Option<Prefix>, text: &mut Shown) {
    match prefix {
        Some(prefix) => {
            let half = prefix.high_64_bits();
            text.put_made(format!(in alloc; "{half:016x}"));
        }
        None => text.put(UNREAD),
    }
}

/// Appends how many bits an address of the family has.
fn put_width(family: Option<Family>, text: &mut Shown) {
    match family {
        Some(family) => text.put_number(u64::from(family.width())),
        None => text.put(UNREAD),
    }
}

/// Appends a part of an address, or a prefix of it.
fn put_part_of(name: &str, address: &Addr, number: Option<u8>, text: &mut Shown) {
    match (name, number) {
        ("family", _) => put_family(address.family(), text),
        ("host", _) => put_prefix(Some(Prefix::host(*address)), text),
        ("octet", Some(place)) => put_octet(address, usize::from(place), text),
        ("bit", Some(place)) => put_bit(address, usize::from(place), text),
        ("new", Some(length)) => put_prefix(Prefix::new(*address, length), text),
        _ => text.put(UNREAD),
    }
}

/// Appends the name of a family.
fn put_family(family: Family, text: &mut Shown) {
    match family {
        Family::V4 => text.put(b"v4"),
        Family::V6 => text.put(b"v6"),
    }
}

/// Appends the octet at a place.
fn put_octet(address: &Addr, place: usize, text: &mut Shown) {
    match address.family() {
        Family::V4 if place < V4_OCTETS => text.put_number(u64::from(address.octet(place))),
        Family::V6 if place < V6_OCTETS => text.put_number(u64::from(address.octet(place))),
        _ => text.put(UNREAD),
    }
}

/// Appends the bit at a place.
fn put_bit(address: &Addr, place: usize, text: &mut Shown) {
    if place >= usize::from(address.family().width()) {
        text.put(UNREAD);
    } else if address.bit(place) {
        text.put(b"1");
    } else {
        text.put(b"0");
    }
}

/// Appends a prefix, its least address, its length and its family.
fn put_prefix(prefix: Option<Prefix>, text: &mut Shown) {
    let Some(prefix) = prefix else {
        return text.put(NONE);
    };
    text.put_prefix(&prefix);
    text.put(b" from ");
    text.put_address(&prefix.addr());
    text.put(b", length ");
    text.put_number(u64::from(prefix.len()));
    text.put(b", ");
    put_family(prefix.family(), text);
}
