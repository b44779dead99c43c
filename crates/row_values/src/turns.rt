//! What addresses and prefixes are to each other: a line each of a script.
//!
//!     compare ADDRESS ADDRESS, compare PREFIX PREFIX
//!     contains PREFIX ADDRESS, covers PREFIX PREFIX
//!     turn PREFIX PREFIX                  where the second lies, seen from the first
//!     under LENGTH PREFIX                 the same from one of this length that covers it
//!     from ADDRESS/LENGTH PREFIX          the same from the first bits of an IPv4 address
//!     shared PREFIX PREFIX                the longest prefix that covers both

use crate::shown::Shown;
use crate::words::{UNREAD, address_word, prefix_word, split_word};
use ip_prefix::{Addr, Family, Prefix, Turn, V4_BITS, V4_OCTETS};

/// Appends what a line asks of two.
pub(crate) fn put_between(name: &str, rest: &str, text: &mut Shown) {
    let (one, other) = split_word(rest);
    match name {
        "compare" => put_compared(one, other, text),
        "contains" => put_contained(prefix_word(one), address_word(other), text),
        "under" => put_under(one.parse::<u8>().ok(), prefix_word(other), text),
        "from" => put_from(one, prefix_word(other), text),
        _ => match (prefix_word(one), prefix_word(other)) {
            (Some(one), Some(other)) => put_of_two(name, &one, &other, text),
            _ => text.put(UNREAD),
        },
    }
}

/// Appends how two addresses or prefixes compare.
fn put_compared(one: &str, other: &str, text: &mut Shown) {
    match (address_word(one), address_word(other)) {
        (Some(one), Some(other)) => put_order(&one, &other, text),
        _ => match (prefix_word(one), prefix_word(other)) {
            (Some(one), Some(other)) => put_order(&one, &other, text),
            _ => text.put(UNREAD),
        },
    }
}

/// Appends which of two is the less.
fn put_order<T: Ord>(one: &T, other: &T, text: &mut Shown) {
    if one == other {
        text.put(b"equal");
    } else if one < other {
        text.put(b"less");
    } else if one > other {
        text.put(b"greater");
    }
}

/// Appends whether a prefix contains an address.
fn put_contained(prefix: Option<Prefix>, address: Option<Addr>, text: &mut Shown) {
    match (prefix, address) {
        (Some(prefix), Some(address)) => put_whether(prefix.contains(&address), text),
        _ => text.put(UNREAD),
    }
}

/// Appends yes or no.
fn put_whether(is_so: bool, text: &mut Shown) {
    match is_so {
        true => text.put(b"yes"),
        false => text.put(b"no"),
    }
}

/// Appends where a prefix lies under one of this length that covers it.
fn put_under(length: Option<u8>, prefix: Option<Prefix>, text: &mut Shown) {
    match (length, prefix) {
        (Some(length), Some(prefix)) => put_turn(prefix.turn_under(length), text),
        _ => text.put(UNREAD),
    }
}

/// Appends where a prefix lies, seen from that of the first bits of an IPv4 address.
fn put_from(word: &str, prefix: Option<Prefix>, text: &mut Shown) {
    let (address, length) = word.split_once("/").unwrap_or((word, ""));
    match (address_word(address), length.parse::<u8>().ok(), prefix) {
        (Some(address), Some(length), Some(prefix)) => {
            put_from_address(&address, length, &prefix, text)
        }
        _ => text.put(UNREAD),
    }
}

/// Appends the same, where there are these bits.
fn put_from_address(address: &Addr, length: u8, prefix: &Prefix, text: &mut Shown) {
    if address.family() == Family::V4 && length <= V4_BITS {
        put_turn(prefix.turn_from_v4(first_octets(address), length), text);
    } else {
        text.put(UNREAD);
    }
}

/// The first four octets of an address.
fn first_octets(address: &Addr) -> [u8; V4_OCTETS] {
    [
        address.octet(0),
        address.octet(1),
        address.octet(2),
        address.octet(3),
    ]
}

/// Appends what a line asks of two prefixes.
fn put_of_two(name: &str, one: &Prefix, other: &Prefix, text: &mut Shown) {
    match name {
        "covers" => put_whether(one.covers(other), text),
        "turn" => put_turn(one.turn(other), text),
        _ => put_shared(one, other, text),
    }
}

/// Appends the longest prefix that covers both, of one family.
fn put_shared(one: &Prefix, other: &Prefix, text: &mut Shown) {
    if one.family() == other.family() {
        text.put_prefix(&one.common(other));
    } else {
        text.put(b"other families");
    }
}

/// Appends where a prefix lies.
fn put_turn(turn: Turn, text: &mut Shown) {
    match turn {
        Turn::Outside => text.put(b"outside"),
        Turn::Here => text.put(b"here"),
        Turn::Left => text.put(b"left"),
        Turn::Right => text.put(b"right"),
    }
}
