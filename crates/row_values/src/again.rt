//! Attributes and messages that are read into the memory of others.

use crate::shown::Shown;
use crate::wire::{put_attrs, put_prefixes, put_unread};
use bgp_wire::{
    AsWidth, Attrs, MessageKind, UpdateBuffer, WireFault, clone_attrs_from, read_message_into,
    read_rib_attrs, read_rib_attrs_into,
};
use ip_prefix::Family;
use std::alloc::Global;

/// How attributes take the place of others.
#[derive(Clone, Copy)]
pub enum Again {
    /// They are read into their place.
    Read,
    /// They are read, and copied over the others.
    Copied,
}

/// Where the length of a message stands (RFC 4271, section 4.1).
const LENGTH_PLACE: usize = 16;

/// The octets up to an end, as many as the two octets at this place tell beside others, and those
/// behind it.
fn split_sized(octets: &[u8], place: usize, beside: usize) -> Option<(&[u8], &[u8])> {
    let length = octets.get(place..)?;
    let size = u16::from_be_bytes([*length.first()?, *length.get(1)?]);
    let end = usize::from(size).saturating_add(beside);
    Some((octets.get(..end)?, octets.get(end..)?))
}

/// The first list of attributes, each of which stands behind its length, and those behind it.
fn split_list(octets: &[u8]) -> Option<(&[u8], &[u8])> {
    let (list, rest) = split_sized(octets, 0, 2)?;
    Some((list.get(2..)?, rest))
}

/// Appends what lists of attributes say, each in place of the one before.
pub fn put_again(alloc: Global, again: Again, octets: &[u8], text: &mut Shown) {
    let mut attrs = Attrs::empty(alloc);
    let mut left = octets;
    for _ in 0..octets.len() {
        let Some((list, rest)) = split_list(left) else {
            return;
        };
        let read = again.read(alloc, &mut attrs, list);
        again.put(read, &attrs, text);
        left = rest;
    }
}

impl Again {
    /// Reads a list in place of attributes. Refused by a reading in place, these have neither a path
    /// nor communities.
    fn read(self, alloc: Global, attrs: &mut Attrs, list: &[u8]) -> Result<(), WireFault> {
        match self {
            Again::Read => read_rib_attrs_into(alloc, attrs, Family::V4, AsWidth::Four, list),
            Again::Copied => copy_read(alloc, attrs, list),
        }
    }

    /// Appends what attributes say, where they were read.
    fn put(self, read: Result<(), WireFault>, attrs: &Attrs, text: &mut Shown) {
        match read {
            Ok(()) => put_attrs(attrs, text),
            Err(fault) => {
                if matches!(self, Again::Read) && has_lists(attrs) {
                    text.put(b"lists behind what is ");
                }
                put_unread(fault, text);
            }
        }
    }
}

/// Reads a list, and copies it over attributes.
fn copy_read(alloc: Global, copy: &mut Attrs, list: &[u8]) -> Result<(), WireFault> {
    let attrs = read_rib_attrs(alloc, Family::V4, AsWidth::Four, list)?;
    Ok(clone_attrs_from(alloc, copy, &attrs)?)
}

/// Whether attributes have a path or communities.
fn has_lists(attrs: &Attrs) -> bool {
    !attrs.path.segments.as_slice().is_empty() || !attrs.communities.as_slice().is_empty()
}

/// Appends what messages with AS numbers of two octets say, each read in place of the one before.
pub fn put_parts(alloc: Global, octets: &[u8], text: &mut Shown) {
    let mut parts = UpdateBuffer::empty(alloc);
    let mut left = octets;
    for _ in 0..octets.len() {
        let Some((message, rest)) = split_sized(left, LENGTH_PLACE, 0) else {
            return;
        };
        put_word(
            read_message_into(alloc, &mut parts, AsWidth::Two, message),
            text,
        );
        put_said(&parts, text);
        left = rest;
    }
}

/// Appends the word of what was read.
fn put_word(read: Result<MessageKind, WireFault>, text: &mut Shown) {
    match read {
        Ok(MessageKind::Update) => text.put(b"UPDATE "),
        Ok(MessageKind::Other(kind)) => {
            text.put(b"type ");
            text.put_number(u64::from(kind));
            text.put(b" ");
        }
        Err(_) => text.put(b"malformed "),
    }
}

/// Appends the prefixes and next hops of parts, as those of a message, and their attributes.
fn put_said(parts: &UpdateBuffer, text: &mut Shown) {
    put_prefixes(b"-", &parts.withdrawn, text);
    put_prefixes(b"mp -", &parts.mp_withdrawn, text);
    put_prefixes(b"+", &parts.announced, text);
    put_prefixes(b"mp +", &parts.mp_announced, text);
    if let Some(hop) = &parts.mp_hop {
        text.put(b"mp via ");
        text.put_address(hop);
        text.put(b";");
    }
    text.put(b" ");
    put_attrs(&parts.attrs, text);
}
