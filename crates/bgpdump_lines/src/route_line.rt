//! Appends the lines of routes to a text. What a line has in common with the last line of the text, or
//! with a cached one, is copied instead of formatted. `event_lines.rt`, `table_lines.rt` and `write.rt`
//! call these functions; on error, each may have appended a part. Read [`put_route_line`] first.

ghost use Rattle.std.specs.Prelude.{◌≡◌, ◌≤◌, ◌++◌, take, length, IfOk, IfSome};
ghost use Rattle.mrt_events.specs.Event.{Announced};
ghost use Rattle.bgpdump_lines.specs.Heading.{peer_fields, prefix_field, fields_after_prefix, line_under_heading, AreOffsetsOrdered, HasFieldsAt, EndsInLineUnder, first_three_fields_at, front_at, prefix_at, after_prefix_at};
ghost use Rattle.bgpdump_lines.specs.CachedLines.{HoldsPrefixOf};
ghost use Rattle.bgpdump_lines.specs.CachedStarts.{start_octets, BeginsLinesOf, HasFieldsByCached};
ghost use Rattle.bgpdump_lines.specs.WrittenSoFar.{Prints};

use crate::cached_line::{CachedLine, PrefixlessLine};
use crate::fields::{put_attribute_fields, put_peer_fields, put_prefix_field};
use crate::heading::{Heading, put_first_three_fields};
use ip_prefix::{Prefix, Text};
use mrt_wire::{Peer, Route, same_peer, same_prefix, same_route};
use std::alloc::AllocError;

/// A peer and its route to a prefix, which are printed as one line: from an announcement in an
/// UPDATE, or from a table.
#[derive(Clone, Copy)]
pub(crate) struct Announcement<'a> {
    pub(crate) peer: &'a Peer,
    pub(crate) prefix: &'a Prefix,
    pub(crate) route: &'a Route,
}

/// Where the groups of fields of one route's line are in a text, so that parts of the line can be copied:
/// offsets in octets from the start of the text. The groups are the first three fields (kind, time,
/// letter), the peer's two, the prefix's, and those of the attributes with the line feed.
#[derive(Clone, Copy)]
pub(crate) struct FieldOffsets {
    /// The start of the line.
    start: usize,
    /// The end of the first three fields, where the peer's two fields begin with a bar.
    head: usize,
    /// The end of the peer's fields, where the prefix's field begins with a bar.
    front: usize,
    /// The end of the prefix's field, where the attributes' fields begin with a bar.
    tail: usize,
}

/// What is known of the last line of a text, the line of a route: where its fields are, and which
/// peer, prefix and route it was printed from. The next line is copied from it where these are
/// equal.
#[derive(Clone, Copy)]
pub(crate) struct LastLine<'a> {
    /// The peer, the prefix and the route that the line prints.
    pub(crate) announcement: Announcement<'a>,
    /// The offsets of the line's fields in the text.
    pub(crate) offsets: FieldOffsets,
}

/// Appends the line of a route, such as
/// `BGP4MP|1700000000|A|192.0.2.1|65000|198.51.100.0/24|65000|IGP|192.0.2.1|0|0||NAG||` and a line
/// feed, and copies none of it from another line. `heading` gives the kind and the time of its
/// record. Returns the offsets of the line's fields in `text`. Fails if memory allocation fails;
/// `text` then ends with an unspecified part of the line.
#[inline(always)]
pub(crate) fn put_whole_route_line(
    heading: &Heading,
    announcement: Announcement<'_>,
    text: &mut Text,
) -> Result<FieldOffsets, AllocError>
    ensures printed { Prints text.old text.new (line_under_heading heading.now
        (Announced announcement.entry.peer.now announcement.entry.prefix.now
        announcement.entry.route.now)) result }
    ensures last { IfOk result (λ offsets.
        EndsInLineUnder heading.now (record { announcement = announcement.entry; offsets = offsets })
        text.new) }
{
    let start = text.len();
    put_first_three_fields(heading, announcement.route, text)?;
    let head = text.len();
    put_peer_fields(announcement.peer, text)?;
    let front = text.len();
    put_prefix_field(announcement.prefix, text)?;
    let tail = text.len();
    put_attribute_fields(&announcement.route.attrs, text)?;
    Ok(FieldOffsets {
        start,
        head,
        front,
        tail,
    })
}

/// Appends the last line of `text` once more, with `prefix` in place of its prefix. Requires that `last`
/// has the offsets of that line's fields in `text`. Returns the offsets of the new line's fields. Fails
/// if memory allocation fails; `text` then ends with an unspecified part of the line.
#[inline(always)]
pub(crate) fn repeat_with_prefix(
    last: FieldOffsets,
    prefix: &Prefix,
    text: &mut Text,
) -> Result<FieldOffsets, AllocError>
    requires { AreOffsetsOrdered last text.old }
    ensures printed { Prints text.old text.new
        (front_at last text.old ++ (prefix_field prefix.now ++ after_prefix_at last text.old))
        result }
    ensures parts { IfOk result (HasFieldsAt text.new
        (first_three_fields_at last text.old) (front_at last text.old)
        (prefix_field prefix.now) (after_prefix_at last text.old)) }
{
    let start = text.len();
    text.extend_from_within(last.start, last.front)?;
    let front = text.len();
    put_prefix_field(prefix, text)?;
    let tail = text.len();
    text.extend_from_within(last.tail, start)?;
    let head = start + (last.head - last.start);
    Ok(FieldOffsets {
        start,
        head,
        front,
        tail,
    })
}

/// Appends the last line of `text` once more, with `peer` and the attributes of `route` in place of
/// its own; the first three fields (kind, time, letter) and the prefix are copied. The copied time
/// isn't compared with the time of `route`: callers pass a route with an equal one. Requires that
/// `last` has the offsets of the copied line's fields in `text`. Returns the offsets of the new
/// line's fields. Fails if memory allocation fails; `text` then ends with an unspecified part of
/// the line.
#[inline(always)]
fn repeat_with_peer_and_route(
    last: FieldOffsets,
    peer: &Peer,
    route: &Route,
    text: &mut Text,
) -> Result<FieldOffsets, AllocError>
    requires { AreOffsetsOrdered last text.old }
    ensures printed { Prints text.old text.new
        ((first_three_fields_at last text.old ++ peer_fields peer.now)
        ++ (prefix_at last text.old ++ fields_after_prefix route.now)) result }
    ensures parts { IfOk result (HasFieldsAt text.new
        (first_three_fields_at last text.old)
        (first_three_fields_at last text.old ++ peer_fields peer.now)
        (prefix_at last text.old) (fields_after_prefix route.now)) }
{
    let start = text.len();
    text.extend_from_within(last.start, last.head)?;
    let head = text.len();
    put_peer_fields(peer, text)?;
    let front = text.len();
    text.extend_from_within(last.front, last.tail)?;
    let tail = text.len();
    put_attribute_fields(&route.attrs, text)?;
    Ok(FieldOffsets {
        start,
        head,
        front,
        tail,
    })
}

/// Returns the octets of the last line of `text` without its prefix's field. Requires that `last` has the
/// offsets of that line's fields in `text`.
#[inline(always)]
pub(crate) fn prefixless_last_line(text: &Text, last: FieldOffsets) -> PrefixlessLine<'_>
    requires { AreOffsetsOrdered last text.now }
    ensures within { result.head ≤ length result.front.now }
    ensures head { take result.head result.front.now ≡ first_three_fields_at last text.now }
    ensures front { result.front.now ≡ front_at last text.now }
    ensures tail { result.tail.now ≡ after_prefix_at last text.now }
{
    let octets = text.as_slice();
    PrefixlessLine {
        front: &octets[last.start..last.front],
        head: last.head - last.start,
        tail: &octets[last.tail..],
    }
}

/// Appends the field of `prefix`, such as `|198.51.100.0/24`. `last`, if given, describes an
/// earlier line of `text`, from which the field is copied if its prefix is equal; otherwise the
/// field is formatted. Fails if memory allocation fails; `text` then ends with an unspecified part
/// of the field.
#[inline(always)]
fn copy_or_put_prefix_field(
    prefix: &Prefix,
    last: Option<LastLine<'_>>,
    text: &mut Text,
) -> Result<(), AllocError>
    requires { IfSome last (λ line. HoldsPrefixOf line text.old) }
    ensures { Prints text.old text.new (prefix_field prefix.now) result }
{
    match last {
        Some(line) if same_prefix(line.announcement.prefix, prefix) => {
            text.extend_from_within(line.offsets.front, line.offsets.tail)
        }
        _ => put_prefix_field(prefix, text),
    }
}

/// Appends the fields after the prefix of the line of `route`, with the line feed. They are copied from
/// `line`, a cached line, if that was printed for an equal route, and otherwise formatted. Returns `true`
/// if they were copied, and `false` if they were formatted. Fails if memory allocation fails; `text` then
/// ends with an unspecified part of them.
#[inline(always)]
fn copy_or_put_tail(line: &CachedLine, route: &Route, text: &mut Text) -> Result<bool, AllocError>
    ensures { Prints text.old text.new (fields_after_prefix route.now) result }
{
    if let Some(tail) = line.tail_if_equal(route) {
        text.extend_from_slice(tail)?;
        return Ok(true);
    }
    put_attribute_fields(&route.attrs, text)?;
    Ok(false)
}

/// Appends the line of `announcement`, a route of a table. The octets before the prefix are copied
/// from `line`, a cached line. Those after the prefix are copied from `line` if its route is equal,
/// and formatted if not. Requires that the octets before the prefix of `line` were printed for the
/// announcement's peer and the time of its route. `last`, if given, describes the last line of
/// `text`, from which the prefix's field is copied if its prefix is equal. Returns the offsets of
/// the new line's fields in `text`, and `true` if the octets after the prefix were copied, or
/// `false` if they were formatted. Fails if memory allocation fails; `text` then ends with an
/// unspecified part of the line.
#[inline(always)]
pub(crate) fn put_line_from_cached(
    line: &CachedLine,
    announcement: Announcement<'_>,
    last: Option<LastLine<'_>>,
    text: &mut Text,
) -> Result<(FieldOffsets, bool), AllocError>
    requires start { BeginsLinesOf line.now announcement.peer.now announcement.route.now.time }
    requires last { IfSome last (λ line. HoldsPrefixOf line text.old) }
    ensures printed { Prints text.old text.new (start_octets line.now
        ++ (prefix_field announcement.entry.prefix.now
        ++ fields_after_prefix announcement.entry.route.now)) result }
    ensures parts { IfOk result (λ put. HasFieldsByCached text.new line.now announcement.entry
        put.0) }
{
    let start = text.len();
    text.extend_from_padded(&line.start.octets, line.start.size)?;
    let front = text.len();
    copy_or_put_prefix_field(announcement.prefix, last, text)?;
    let tail = text.len();
    let is_copied = copy_or_put_tail(line, announcement.route, text)?;
    let head = start + line.start.head;
    let offsets = FieldOffsets {
        start,
        head,
        front,
        tail,
    };
    Ok((offsets, is_copied))
}

/// Appends the line of a route, such as
/// `BGP4MP|1700000000|A|192.0.2.1|65000|198.51.100.0/24|65000|IGP|192.0.2.1|0|0||NAG||` and a line
/// feed. `heading` gives the kind and the time of its record. `last`, if given, describes the last
/// line of `text`, from which fields that are equal in the new line are copied. Requires that this
/// is the line of a route, printed with `heading`. Returns a description of the new line, to be
/// passed as `last` to the next call. Fails if memory allocation fails; `text` then ends with an
/// unspecified part of the line.
#[inline(always)]
pub(crate) fn put_route_line<'a>(
    heading: &Heading,
    announcement: Announcement<'a>,
    last: Option<LastLine<'a>>,
    text: &mut Text,
) -> Result<LastLine<'a>, AllocError>
    requires { IfSome last (λ line. EndsInLineUnder heading.now line text.old) }
    ensures printed { Prints text.old text.new (line_under_heading heading.now
        (Announced announcement.entry.peer.now announcement.entry.prefix.now
        announcement.entry.route.now)) result }
    ensures announcement { IfOk result (λ line. line.announcement ≡ announcement.entry) }
    ensures last { IfOk result (λ line. EndsInLineUnder heading.now line text.new) }
{
    let offsets = match last {
        Some(line)
            if same_prefix(line.announcement.prefix, announcement.prefix)
                && line.announcement.route.time == announcement.route.time => {
            repeat_with_peer_and_route(line.offsets, announcement.peer, announcement.route, text)?
        }
        Some(line)
            if same_peer(line.announcement.peer, announcement.peer)
                && same_route(line.announcement.route, announcement.route) => {
            repeat_with_prefix(line.offsets, announcement.prefix, text)?
        }
        _ => put_whole_route_line(heading, announcement, text)?,
    };
    Ok(LastLine {
        announcement,
        offsets,
    })
}
