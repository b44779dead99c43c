//! Appends the lines of TABLE_DUMP_V2 records (RFC 6396, section 4.3) to a text, mostly copied from a
//! [`LineCache`], which keeps a printed line for each peer. `write.rt` calls [`put_table_item_line`];
//! read that first. On error, each function may have appended a part.

ghost use Rattle.std.specs.Prelude.{◌≡◌, IfOk, IfSome};
ghost use Rattle.mrt_events.specs.Event.{Announced, item_value};
ghost use Rattle.bgpdump_lines.specs.Heading.{line_under_heading, EndsInLineUnder};
ghost use Rattle.bgpdump_lines.specs.CachedLines.{IsTableHeading};
ghost use Rattle.bgpdump_lines.specs.WrittenSoFar.{Prints};

use crate::event_lines::put_item_line;
use crate::heading::Heading;
use crate::line_cache::LineCache;
use crate::route_line::{
    Announcement, LastLine, prefixless_last_line, put_line_from_cached, put_route_line,
};
use ip_prefix::Text;
use mrt_wire::{Item, Route};
use std::alloc::AllocError;
use std::rc::Rc;

/// Appends the line of `announcement`, a route of a table, to `text`, and inserts it into `cache`,
/// which may leave it out ([`LineCache::insert`]). What the line has in common with the line that
/// `last` describes is copied. Requires that `last`, if given, describes the last line of `text`,
/// the line of a route printed with `heading`, that `heading` is of a TABLE_DUMP_V2 record, and
/// that `route`, which the cache keeps, equals `announcement.route`. Returns a description of the
/// new line, to be passed as `last` to the next call. Fails if memory allocation fails; `text` then
/// ends with an unspecified part of the line, and at most the octets before its prefix are cached.
#[inline(always)]
fn put_and_cache<'a>(
    heading: &Heading,
    announcement: Announcement<'a>,
    route: &Rc<Route>,
    last: Option<LastLine<'a>>,
    cache: &mut LineCache,
    text: &mut Text,
) -> Result<LastLine<'a>, AllocError>
    requires tables { IsTableHeading heading.now }
    requires same { route.now.value ≡ announcement.route.now }
    requires last { IfSome last (λ line. EndsInLineUnder heading.now line text.old) }
    ensures printed { Prints text.old text.new (line_under_heading heading.now
        (Announced announcement.entry.peer.now announcement.entry.prefix.now
        announcement.entry.route.now)) result }
    ensures last { IfOk result (λ line. EndsInLineUnder heading.now line text.new) }
{
    let line = put_route_line(heading, announcement, last, text)?;
    cache.insert(
        announcement.peer,
        route,
        prefixless_last_line(text, line.offsets),
        heading.time.seconds,
    )?;
    Ok(line)
}

/// Appends the line of `announcement`, a route of a table, to `text`. If `cache` has a printed line
/// for this peer and the route's time, the octets before the prefix are copied from it, and those
/// after the prefix too if its route is equal. If it has none, what the new line has in common with
/// the line that `last` describes is copied. What wasn't copied from the cache is inserted into it,
/// unless it refuses the line ([`LineCache::insert`]). Requires that `last`, if given, describes
/// the last line of `text`, the line of a route printed with `heading`, that `heading` is of a
/// TABLE_DUMP_V2 record, and that `route`, which the cache keeps, equals `announcement.route`.
/// Returns a description of the new line, to be passed as `last` to the next call. Fails if memory
/// allocation fails; `text` then ends with an unspecified part of the line.
#[inline(always)]
fn put_entry_line<'a>(
    heading: &Heading,
    announcement: Announcement<'a>,
    route: &Rc<Route>,
    last: Option<LastLine<'a>>,
    cache: &mut LineCache,
    text: &mut Text,
) -> Result<LastLine<'a>, AllocError>
    requires tables { IsTableHeading heading.now }
    requires same { route.now.value ≡ announcement.route.now }
    requires last { IfSome last (λ line. EndsInLineUnder heading.now line text.old) }
    ensures printed { Prints text.old text.new (line_under_heading heading.now
        (Announced announcement.entry.peer.now announcement.entry.prefix.now
        announcement.entry.route.now)) result }
    ensures last { IfOk result (λ line. EndsInLineUnder heading.now line text.new) }
{
    let Some((index, line)) = cache.line_of(announcement.peer, announcement.route.time) else {
        return put_and_cache(heading, announcement, route, last, cache, text);
    };
    let (offsets, is_copied) = put_line_from_cached(line, announcement, last, text)?;
    if !is_copied {
        let tail = prefixless_last_line(text, offsets).tail;
        cache.replace_tail(index, route, tail, heading.time.seconds)?;
    }
    Ok(LastLine {
        announcement,
        offsets,
    })
}

/// Appends the line of `item` from a TABLE_DUMP_V2 record, a route of a table (or a withdrawal or
/// state change), to `text`. Parts of a route's line that are equal in an earlier line are copied,
/// and the others printed: from the peer's line in `cache` if the time is equal (the part before
/// the prefix, and the part after it if the route is equal), or else from the line that `last`
/// describes. A part that wasn't copied from the cache is inserted into it, unless it refuses the
/// line ([`LineCache::insert`]). Requires that `last`, if given, describes the last line of `text`, the
/// line of a route printed with `heading`, and that `heading` is of a TABLE_DUMP_V2 record. Returns
/// a description of the new line, to be passed as `last` to the next call, or `None` if `item`
/// isn't a route. Fails if memory allocation fails; `text` then ends with an unspecified part of
/// the line.
#[inline(always)]
pub(crate) fn put_table_item_line<'a>(
    heading: &Heading,
    item: &'a Item,
    last: Option<LastLine<'a>>,
    cache: &mut LineCache,
    text: &mut Text,
) -> Result<Option<LastLine<'a>>, AllocError>
    requires tables { IsTableHeading heading.now }
    requires last { IfSome last (λ line. EndsInLineUnder heading.now line text.old) }
    ensures printed { Prints text.old text.new
        (line_under_heading heading.now (item_value item.now)) result }
    ensures last { IfOk result (λ last. IfSome last
        (λ line. EndsInLineUnder heading.now line text.new)) }
{
    match item {
        Item::Announce(peer, prefix, route) => {
            let announcement = Announcement {
                peer,
                prefix,
                route,
            };
            Ok(Some(put_entry_line(heading, announcement, route, last, cache, text)?))
        }
        Item::Withdraw(_, _) | Item::State(_, _, _) => put_item_line(heading, item, last, text),
    }
}
