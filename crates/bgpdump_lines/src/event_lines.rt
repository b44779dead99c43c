//! Appends the lines of an event to a text, one for each item. An event is what an MRT record reports;
//! its items are announcements, withdrawals and state changes. [`put_lines`] is for users of the library;
//! `write.rt` calls the parts of it, and writes a text that gets long before it goes on. On error, each
//! function but `append_lines` and `put_lines` may have appended a part. Read [`put_item_line`] first.

ghost use Rattle.std.specs.Prelude.{◌≡◌, ◌++◌, ◌∷◌, [], map, All, OnOk, OnErr, IfOk, IfSome, IfNone};
ghost use Rattle.mrt_events.specs.Event.{Announced, item_value};
ghost use Rattle.mrt_events.specs.SharedRoute.{Announces, AnnounceOneRoute};
ghost use Rattle.bgpdump_lines.specs.Lines.{event_lines};
ghost use Rattle.bgpdump_lines.specs.Heading.{line_under_heading, lines_under_heading, EndsInLineUnder, EndsInLineOfRoute};
ghost use Rattle.bgpdump_lines.specs.WrittenSoFar.{Prints};

use crate::fields::{put_peer_fields, put_prefix_field, put_u32_field};
use crate::heading::{Heading, put_kind_and_time};
use crate::route_line::{
    Announcement, FieldOffsets, LastLine, put_route_line, put_whole_route_line, repeat_with_prefix,
};
use ip_prefix::Text;
use mrt_wire::{Event, Item};
use std::alloc::AllocError;

/// Appends the line of `item`, an announcement, withdrawal or state change, to `text`, such as
/// `BGP4MP|1700000000|W|192.0.2.1|65000|198.51.100.0/24` and a line feed. `heading` gives the kind
/// and the time of the item's record. `last`, if given, describes the last line of `text`, from
/// which an announcement's line copies the fields that are equal. Requires that this last line
/// prints an announcement with `heading`. Returns a description of the new line, to be passed as
/// `last` to the next call, or `None` if `item` isn't an announcement. Fails if memory allocation
/// fails; `text` then ends with an unspecified part of the line.
#[inline(always)]
pub(crate) fn put_item_line<'a>(
    heading: &Heading,
    item: &'a Item,
    last: Option<LastLine<'a>>,
    text: &mut Text,
) -> Result<Option<LastLine<'a>>, AllocError>
    requires { IfSome last (λ line. EndsInLineUnder heading.now line text.old) }
    ensures printed { Prints text.old text.new
        (line_under_heading heading.now (item_value item.now)) result }
    ensures last { IfOk result (λ last. IfSome last
        (λ line. EndsInLineUnder heading.now line text.new)) }
{
    match item {
        Item::Announce(peer, prefix, route) => {
            let announcement = Announcement {
                peer,
                prefix,
                route,
            };
            Ok(Some(put_route_line(heading, announcement, last, text)?))
        }
        Item::Withdraw(peer, prefix) => {
            put_kind_and_time(heading, text)?;
            text.extend_from_slice(b"|W")?;
            put_peer_fields(peer, text)?;
            put_prefix_field(prefix, text)?;
            text.push(b'\n')?;
            Ok(None)
        }
        Item::State(peer, old, new) => {
            put_kind_and_time(heading, text)?;
            text.extend_from_slice(b"|STATE")?;
            put_peer_fields(peer, text)?;
            put_u32_field(u32::from(*old), text)?;
            put_u32_field(u32::from(*new), text)?;
            text.push(b'\n')?;
            Ok(None)
        }
    }
}

/// Appends a line for each of `items` (announcements, withdrawals, state changes) in order. `heading`
/// gives the kind and the time of their record. Fails if memory allocation fails; `text` then ends with
/// an unspecified part of the lines.
#[inline(always)]
fn put_item_lines(heading: &Heading, items: &[Item], text: &mut Text) -> Result<(), AllocError>
    ensures { Prints text.old text.new (lines_under_heading heading.now (map item_value items.now))
        result }
{
    // This is inlined, since in most events all items share a route or none do, so that `items` is often
    // empty.
    if items.is_empty() {
        return Ok(());
    }
    put_each_item_line(heading, items, text)
}

/// Appends a line for each of `items` (announcements, withdrawals, state changes) in order, or
/// nothing if there are none. `heading` gives the kind and the time of their record. In the line of
/// an announcement right after another one's, fields that are equal are copied. Fails if memory
/// allocation fails; `text` then ends with an unspecified part of the lines.
#[inline(never)]
fn put_each_item_line(heading: &Heading, items: &[Item], text: &mut Text) -> Result<(), AllocError>
    ensures { Prints text.old text.new (lines_under_heading heading.now (map item_value items.now))
        result }
{
    // This is out of line, since in most events all items share a route or none do.
    let mut last = None;
    'items: for item in items {
        last = put_item_line(heading, item, last, text)?;
    }
    Ok(())
}

/// Appends the line of `item`, an announcement, to `text`: a copy of the last line of `text` with
/// another prefix. Requires that `item` announces the peer and the route of `first`, that the last
/// line of `text` prints this peer and route, with `heading`, and that `last` has the offsets of
/// that line's fields in `text`. Returns the offsets of the new line's fields in `text`. Fails if
/// memory allocation fails; `text` then ends with an unspecified part of the line.
#[inline(always)]
pub(crate) fn put_another_prefix(
    heading: &Heading,
    first: Announcement<'_>,
    last: FieldOffsets,
    item: &Item,
    text: &mut Text,
) -> Result<FieldOffsets, AllocError>
    requires last { EndsInLineOfRoute heading.now first.peer.now first.route.now last text.old }
    requires alike { Announces first.peer.now first.route.now (item_value item.now) }
    ensures printed { Prints text.old text.new
        (line_under_heading heading.now (item_value item.now)) result }
    ensures last { IfOk result (λ offsets.
        EndsInLineOfRoute heading.now first.entry.peer.now first.entry.route.now offsets text.new) }
{
    match item {
        Item::Announce(_, prefix, _) => repeat_with_prefix(last, prefix, text),
        Item::Withdraw(_, _) => unreachable!(),
        Item::State(_, _, _) => unreachable!(),
    }
}

/// Appends a line for each of `items`, announcements, to `text`: a copy of the line before it with
/// another prefix. Requires that each item announces the peer and the route of `first`, that the
/// last line of `text` prints this peer and route, with `heading`, and that `offsets` has the
/// offsets of that line's fields in `text`. Fails if memory allocation fails; `text` then ends with
/// an unspecified part of the lines.
#[inline(always)]
fn put_other_prefixes(
    heading: &Heading,
    first: Announcement<'_>,
    offsets: FieldOffsets,
    items: &[Item],
    text: &mut Text,
) -> Result<(), AllocError>
    requires last { EndsInLineOfRoute heading.now first.peer.now first.route.now offsets text.old }
    requires alike { All (Announces first.peer.now first.route.now) (map item_value items.now) }
    ensures { Prints text.old text.new (lines_under_heading heading.now (map item_value items.now))
        result }
{
    let mut offsets = offsets;
    'items: for item in items {
        offsets = put_another_prefix(heading, first, offsets, item, text)?;
    }
    Ok(())
}

/// Splits announcements into the first one and the items after it. Returns `None` if `items` is empty.
/// Requires that all items are announcements of one route of one peer.
#[inline(always)]
pub(crate) fn split_first_announcement(items: &[Item]) -> Option<(Announcement<'_>, &[Item])>
    requires { AnnounceOneRoute (map item_value items.now) }
    ensures first { IfSome result (λ found. map item_value items.now ≡
        Announced found.0.peer.now found.0.prefix.now found.0.route.now ∷
        map item_value found.1.now) }
    ensures none { IfNone result (items.now ≡ []) }
{
    let [Item::Announce(peer, prefix, route), rest @ ..] = items else {
        return None;
    };
    let first = Announcement {
        peer,
        prefix,
        route,
    };
    Some((first, rest))
}

/// Appends a line for each of `items`, or nothing if there are none. Requires that all are announcements
/// of one route of one peer, so that their lines differ in the prefix alone. `heading` gives the kind and
/// the time of their record. Fails if memory allocation fails; `text` then ends with an unspecified part
/// of the lines.
#[inline(always)]
fn put_shared_route_lines(
    heading: &Heading,
    items: &[Item],
    text: &mut Text,
) -> Result<(), AllocError>
    requires { AnnounceOneRoute (map item_value items.now) }
    ensures { Prints text.old text.new (lines_under_heading heading.now (map item_value items.now))
        result }
{
    let Some((first, rest)) = split_first_announcement(items) else {
        return Ok(());
    };
    let offsets = put_whole_route_line(heading, first, text)?;
    put_other_prefixes(heading, first, offsets, rest, text)
}

/// Appends the lines of `event`, what an MRT record reports, to `text`: one for each of its items
/// (announcements, withdrawals, state changes) in order. Fails if memory allocation fails; `text`
/// then ends with an unspecified part of the lines.
#[inline(always)]
fn put_event_lines(event: &Event, text: &mut Text) -> Result<(), AllocError>
    ensures { Prints text.old text.new (event_lines event.now) result }
{
    let heading = Heading::of(event);
    let items = event.items.as_slice();
    let shared = event.items.longest_shared_range();
    put_item_lines(&heading, &items[..shared.start], text)?;
    put_shared_route_lines(&heading, &items[shared.start..shared.end], text)?;
    put_item_lines(&heading, &items[shared.end..], text)?;
    Ok(())
}

/// Appends the lines of `event`, what an MRT record reports, to `text`: one for each of its items
/// (announcements, withdrawals, state changes) in order. Fails if memory allocation fails; `text` is
/// unchanged then.
#[inline(always)]
pub(crate) fn append_lines(event: &Event, text: &mut Text) -> Result<(), AllocError>
    ensures appended { OnOk result (text.new ≡ text.old ++ event_lines event.now) }
    ensures unchanged { OnErr result (text.new ≡ text.old) }
{
    let before = text.len();
    let result = put_event_lines(event, text);
    if result.is_err() {
        text.truncate(before);
    }
    result
}

/// Appends the lines of `event`, what an MRT record reports, to `text`: one for each of its items
/// (announcements, withdrawals, state changes) in order, as `bgpdump -m` writes them, such as
/// `BGP4MP|1700000000|W|192.0.2.1|65000|198.51.100.0/24` and a line feed. Fails if memory allocation
/// fails; `text` is unchanged then.
pub fn put_lines(event: &Event, text: &mut Vec<u8>) -> Result<(), AllocError>
    ensures appended { OnOk result (text.new.items ≡ text.old.items ++ event_lines event.now) }
    ensures unchanged { OnErr result (text.new.items ≡ text.old.items) }
{
    let mut longer = Text::taken_from(text);
    let result = append_lines(event, &mut longer);
    *text = longer.into_vec();
    result
}
