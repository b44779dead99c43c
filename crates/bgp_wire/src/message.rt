//! A parser of BGP messages (RFC 4271, section 4). Parsers of BGP4MP records call
//! [`read_message_into`], which reuses memory. Read `parts.rt`, for what is parsed, and then
//! [`fill_message`].

ghost use Rattle.std.specs.Prelude.{◌≡◌, ℕ, List, Ok, IfSome, IfNone, IfOk, IfErr, OnErr};
ghost use Rattle.bgp_wire.specs.Update.{IsMessage, SpellsMessage};
ghost use Rattle.bgp_paths.specs.Readers.{ParsesOrFails, Refuses};
ghost use Rattle.bgp_wire.specs.Parts.{message_of_parts, empty_parts};

use crate::lengths::{LENGTH_SIZE, read_length};
use crate::parts::{MessageKind, Update, UpdateBuffer};
use crate::update::fill_update;
use bgp_paths::{AsWidth, WireFault};
use std::alloc::Global;

/// A parsed BGP message (RFC 4271, section 4): an UPDATE, or only the type of any other message.
#[derive(Debug, Drop)]
pub enum Message {
    /// An UPDATE message: prefixes that are withdrawn or announced, and path attributes.
    Update(Update),
    /// A message of another type (OPEN, KEEPALIVE, NOTIFICATION and so on), with the type's number.
    /// Its body isn't parsed.
    Other(u8),
}

/// The number of the message type UPDATE (RFC 4271, section 4.1).
const UPDATE: u8 = 2;

/// The size of a message header, in octets: the marker, the length and the type (RFC 4271, section
/// 4.1).
const HEADER_SIZE: usize = 19;

/// The size of the marker with which a message begins, in octets (RFC 4271, section 4.1).
const MARKER_SIZE: usize = 16;

/// A BGP message split into the number of its type (`kind`) and its body, the octets after the
/// header, which aren't parsed (RFC 4271, section 4.1).
#[derive(Clone, Copy)]
struct RawMessage<'a> {
    /// The type of the message, by its number.
    kind: u8,
    /// The octets after the header.
    body: &'a [u8],
}

/// Splits the message `octets` into its type and its body (RFC 4271, section 4.1). Returns `None`
/// if `octets` is shorter than a header, or if its number of octets isn't the length in the header.
/// The marker isn't checked, nor whether the type is known.
fn split_message(octets: &[u8]) -> Option<RawMessage<'_>>
    ensures some { IfSome result (λ f. IsMessage f.kind f.body.now octets.now) }
    ensures none { IfNone result ((kind : ℕ) (body : List ℕ) →
        IsMessage kind body octets.now → ⊥) }
{
    if octets.len() < HEADER_SIZE {
        return None;
    }
    let (_, after_marker) = octets.split_at(MARKER_SIZE);
    let (len, rest) = after_marker.split_at(LENGTH_SIZE);
    if read_length(len) != octets.len() {
        return None;
    }
    let (&kind, body) = rest.split_first()?;
    Some(RawMessage { kind, body })
}

/// Parses `octets` as one BGP message: an UPDATE, or only the type of any other. `width` is the
/// size of the AS numbers in AS_PATH. Fails with `Malformed` if the length in the header isn't the
/// number of `octets` or if the body of an UPDATE is malformed, and with `Memory` if memory
/// allocation fails. The marker isn't checked. [`read_message_into`] reuses memory instead.
pub fn read_message(alloc: Global, width: AsWidth, octets: &[u8]) -> Result<Message, WireFault>
    ensures { ParsesOrFails (SpellsMessage width) octets.now result }
{
    let mut parts = UpdateBuffer::empty(alloc);
    match fill_message(alloc, &mut parts, width, octets)? {
        MessageKind::Update => Ok(Message::Update(parts.into_update()?)),
        MessageKind::Other(kind) => Ok(Message::Other(kind)),
    }
}

/// Parses `octets` as one BGP message, into `parts` if it is an UPDATE, and returns its type.
/// `width` is the size of the AS numbers in AS_PATH. The memory of `parts` is reused; a message of
/// another type leaves `parts` unchanged. Fails with `Malformed` if the length in the header isn't
/// the number of `octets` or if the UPDATE is malformed, and with `Memory` if memory allocation
/// fails; `parts` is then unspecified.
#[inline]
fn fill_message(
    alloc: Global,
    parts: &mut UpdateBuffer,
    width: AsWidth,
    octets: &[u8],
) -> Result<MessageKind, WireFault>
    ensures filled { IfOk result (λ kind.
        SpellsMessage width (message_of_parts kind parts.new) octets.now) }
    ensures refused { IfErr result (Refuses (SpellsMessage width) octets.now) }
    ensures other { (kind : ℕ) → result ≡ Ok (MessageKind.Other kind) → parts.new ≡ parts.old }
{
    let Some(framed) = split_message(octets) else {
        return Err(WireFault::Malformed);
    };
    if framed.kind != UPDATE {
        return Ok(MessageKind::Other(framed.kind));
    }
    fill_update(alloc, parts, width, framed.body)?;
    Ok(MessageKind::Update)
}

/// Parses `octets` as one BGP message, into `parts` if it is an UPDATE, and returns its type.
/// `width` is the size of the AS numbers in AS_PATH. The memory of `parts` is reused; a message of
/// another type leaves `parts` unchanged. Fails with `Malformed` if the length in the header isn't
/// the number of `octets` or if the UPDATE is malformed, and with `Memory` if memory allocation
/// fails; `parts` is then empty, without memory.
pub fn read_message_into(
    alloc: Global,
    parts: &mut UpdateBuffer,
    width: AsWidth,
    octets: &[u8],
) -> Result<MessageKind, WireFault>
    ensures replaced { IfOk result (λ kind.
        SpellsMessage width (message_of_parts kind parts.new) octets.now) }
    ensures refused { IfErr result (Refuses (SpellsMessage width) octets.now) }
    ensures other { (kind : ℕ) → result ≡ Ok (MessageKind.Other kind) → parts.new ≡ parts.old }
    ensures left { OnErr result (parts.new ≡ empty_parts) }
{
    let result = fill_message(alloc, parts, width, octets);
    if result.is_err() {
        *parts = UpdateBuffer::empty(alloc);
    }
    result
}
