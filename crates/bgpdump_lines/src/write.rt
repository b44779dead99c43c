//! Writes the lines and reports of records, and the lines of peers' tables, to outputs. Their `text` is
//! a buffer: lines are appended to it, and it is written and cleared when it gets long. Read
//! [`write_lines_or_report`] first.

ghost use Rattle.std.specs.Prelude.{◌≡◌, ◌||◌, ◌≤◌, [], false, All, map, take, drop, length, IfOk, OnOk, flat_map};
ghost use Rattle.mrt_events.specs.declared.event.Route.{Route};
ghost use Rattle.mrt_events.specs.declared.peer.Peer.{Peer};
ghost use Rattle.mrt_events.specs.declared.event.Tag.TheVariants.{TableDump2};
ghost use Rattle.mrt_events.specs.Event.{item_value};
ghost use Rattle.mrt_events.specs.SharedRoute.{Announces, AnnounceOneRoute};
ghost use Rattle.mrt_wire.specs.Answered.{answer_results};
ghost use Rattle.bgpdump_lines.specs.Heading.{EndsInLineOfRoute, lines_under_heading};
ghost use Rattle.bgpdump_lines.specs.declared.heading.Heading.{Heading};
ghost use Rattle.bgpdump_lines.specs.CachedLines.{IsTableHeading};
ghost use Rattle.bgpdump_lines.specs.Lines.{event_lines, rib_reply_line};
ghost use Rattle.bgpdump_lines.specs.Run.{fault_report, outputs_of};
ghost use Rattle.bgpdump_lines.specs.WrittenSoFar.{PutsThroughBufferOrFront, Puts, PutsResults, PutsAllOrFront, is_output_fault, has_fault};

use crate::event_lines::{put_another_prefix, put_item_line, split_first_announcement};
use crate::fault::WriteFault;
use crate::heading::Heading;
use crate::line_cache::LineCache;
use crate::output::{Output, put_all};
use crate::reports::put_report;
use crate::route_line::{Announcement, FieldOffsets, put_route_line, put_whole_route_line};
use crate::table_lines::put_table_item_line;
use ip_prefix::{Prefix, Text};
use mrt_wire::{Event, Item, Next, Peer, RecordFault, Route};
use std::rc::Rc;

/// The size in octets, 2^16, up to which another line is appended to a text before it is written to an
/// output. A longer text is written first, so that it never has more than this many octets and two lines.
const LONG_TEXT: usize = 1 << 16;

/// Writes `text`, which holds lines, to `out` and clears it, if it has more than [`LONG_TEXT`]
/// octets. Returns `true` if it was written, and `false` if it was left as it is. Fails if `out`
/// fails; some of the first octets may have been written then, and `text` is unchanged.
#[inline(always)]
fn write_if_long<O: Output>(out: &mut O, text: &mut Text) -> Result<bool, WriteFault>
    ensures text { PutsThroughBufferOrFront (O.written out.old) (O.written out.new) text.old
        text.new [] result }
    ensures short { IfOk result (λ was_long. was_long ≡ false → text.new ≡ text.old) }
    ensures failed { O.failed out.new ≡ (O.failed out.old || is_output_fault result) }
{
    if text.len() <= LONG_TEXT {
        return Ok(false);
    }
    put_all(out, text.as_slice())?;
    text.clear();
    Ok(true)
}

/// Appends a line for each of `items` (announcements, withdrawals, state changes), or nothing if there
/// are none, to `text`, which holds lines that are still to be written to `out`. Whenever `text` has more
/// than [`LONG_TEXT`] octets, it is written to `out` and cleared before the next line; the last lines are
/// left in it for the caller to write. `heading` gives the kind and the time of the items' record. Fails
/// if memory allocation or `out` fails; some of the first lines may have been written to `out` then, and
/// `text` holds unspecified octets.
#[inline(never)]
fn buffer_each_item_line<O: Output>(
    out: &mut O,
    heading: &Heading,
    items: &[Item],
    text: &mut Text,
) -> Result<(), WriteFault>
    ensures text { PutsThroughBufferOrFront (O.written out.old) (O.written out.new) text.old
        text.new
        (lines_under_heading heading.now (map item_value items.now)) result }
    ensures failed { O.failed out.new ≡ (O.failed out.old || is_output_fault result) }
{
    let mut last = None;
    'items: for item in items {
        if write_if_long(out, text)? {
            last = None;
        }
        last = put_item_line(heading, item, last, text)?;
    }
    Ok(())
}

/// Appends a line for each of `items` (announcements, withdrawals, state changes), or nothing if there
/// are none, to `text`, which holds lines that are still to be written to `out`. Whenever `text` has more
/// than [`LONG_TEXT`] octets, it is written to `out` and cleared before the next line; the last lines are
/// left in it for the caller to write. `heading` gives the kind and the time of the items' record. Fails
/// if memory allocation or `out` fails; some of the first lines may have been written to `out` then, and
/// `text` holds unspecified octets.
#[inline(always)]
fn buffer_item_lines<O: Output>(
    out: &mut O,
    heading: &Heading,
    items: &[Item],
    text: &mut Text,
) -> Result<(), WriteFault>
    ensures text { PutsThroughBufferOrFront (O.written out.old) (O.written out.new) text.old
        text.new
        (lines_under_heading heading.now (map item_value items.now)) result }
    ensures failed { O.failed out.new ≡ (O.failed out.old || is_output_fault result) }
{
    // In most events all items share a route or none do, so that `items` is often empty.
    if items.is_empty() {
        return Ok(());
    }
    buffer_each_item_line(out, heading, items, text)
}

/// Writes the octets of `text` from offset `end` on to `out`, and truncates `text` to `end`, if
/// these octets are more than [`LONG_TEXT`]; otherwise does nothing. The octets before `end` are
/// one line that isn't written, a template for later lines, with its fields at the offsets
/// `template`. `last` has the offsets of the fields of the last line of `text`. Requires that `end`
/// isn't above the length of `text`. Returns the offsets of the fields of the line that is the last
/// one of `text` afterwards: `template` if octets were written, or else `last`. Fails if `out`
/// fails; some of the octets may have been written then, and `text` is unchanged.
fn write_rest_if_long<O: Output>(
    out: &mut O,
    template: FieldOffsets,
    end: usize,
    last: FieldOffsets,
    text: &mut Text,
) -> Result<FieldOffsets, WriteFault>
    requires { end ≤ length text.old }
    ensures text { PutsThroughBufferOrFront (O.written out.old) (O.written out.new)
        (drop end text.old) (drop end text.new) [] result }
    ensures kept { OnOk result (take end text.new ≡ take end text.old) }
    ensures within { OnOk result (end ≤ length text.new) }
    ensures last { (heading : Heading) (peer : Peer) (route : Route) →
        EndsInLineOfRoute heading peer route template (take end text.old) →
        EndsInLineOfRoute heading peer route last text.old →
        IfOk result (λ offsets. EndsInLineOfRoute heading peer route offsets text.new) }
    ensures failed { O.failed out.new ≡ (O.failed out.old || is_output_fault result) }
{
    if text.len() - end <= LONG_TEXT {
        return Ok(last);
    }
    put_all(out, &text.as_slice()[end..])?;
    text.truncate(end);
    Ok(template)
}

/// Writes first `text`, which holds lines that are still to be written, and then a line for each of
/// `items` to `out`, and leaves `text` empty. Requires that each item announces the peer and the
/// route of `first`, so that its line differs from the line of `first` in the prefix alone and is
/// copied from it. The line of `first` itself isn't written, as it is in `text` or was written
/// before. `heading` gives the kind and the time of their record. Fails if memory allocation or
/// `out` fails; some of the first lines may have been written to `out` then, and `text` holds
/// unspecified octets.
#[cold]
#[inline(never)]
fn write_remaining_prefixes<O: Output>(
    out: &mut O,
    heading: &Heading,
    first: Announcement<'_>,
    items: &[Item],
    text: &mut Text,
) -> Result<(), WriteFault>
    requires { All (Announces first.peer.now first.route.now) (map item_value items.now) }
    ensures text { PutsThroughBufferOrFront (O.written out.old) (O.written out.new) text.old
        text.new
        (lines_under_heading heading.now (map item_value items.now)) result }
    ensures failed { O.failed out.new ≡ (O.failed out.old || is_output_fault result) }
{
    put_all(out, text.as_slice())?;
    text.clear();
    // The line of `first` stays at the start of the text and isn't written, so that after each write the
    // next line has one to be copied from.
    let template = put_whole_route_line(heading, first, text)?;
    let end = text.len();
    let mut last = template;
    'items: for item in items {
        let offsets = write_rest_if_long(out, template, end, last, text)?;
        last = put_another_prefix(heading, first, offsets, item, text)?;
    }
    put_all(out, &text.as_slice()[end..])?;
    text.clear();
    Ok(())
}

/// Appends a line for each of `items`, announcements, to `text`, which holds lines that are still
/// to be written to `out`. If `text` has more than [`LONG_TEXT`] octets before a line, it is
/// written to `out` with that line and all after it, and left empty; otherwise nothing is written.
/// Requires that each item announces the peer and the route of `first`, and that the last line of
/// `text` prints this peer and route, with `heading` and any prefix, and has its fields at
/// `offsets`: it is copied with the other prefixes. Fails if memory allocation or `out` fails; some
/// of the first lines may have been written to `out` then, and `text` holds unspecified octets.
#[inline(always)]
fn buffer_other_prefixes<O: Output>(
    out: &mut O,
    heading: &Heading,
    first: Announcement<'_>,
    offsets: FieldOffsets,
    items: &[Item],
    text: &mut Text,
) -> Result<(), WriteFault>
    requires last { EndsInLineOfRoute heading.now first.peer.now first.route.now offsets text.old }
    requires alike { All (Announces first.peer.now first.route.now) (map item_value items.now) }
    ensures text { PutsThroughBufferOrFront (O.written out.old) (O.written out.new) text.old
        text.new
        (lines_under_heading heading.now (map item_value items.now)) result }
    ensures failed { O.failed out.new ≡ (O.failed out.old || is_output_fault result) }
{
    let mut offsets = offsets;
    'items: for place in 0..items.len() {
        if text.len() > LONG_TEXT {
            return write_remaining_prefixes(out, heading, first, &items[place..], text);
        }
        offsets = put_another_prefix(heading, first, offsets, &items[place], text)?;
    }
    Ok(())
}

/// Appends a line for each of `items` to `text`, which holds lines that are still to be written to
/// `out`. Requires that all items are announcements of one route of one peer. `heading` gives the
/// kind and the time of their record. Whenever `text` has more than [`LONG_TEXT`] octets, it is
/// written to `out` and cleared before the next line; the last lines may be left in it for the
/// caller to write. Fails if memory allocation or `out` fails; some of the first lines may have
/// been written to `out` then, and `text` holds unspecified octets.
#[inline(always)]
fn buffer_shared_route_lines<O: Output>(
    out: &mut O,
    heading: &Heading,
    items: &[Item],
    text: &mut Text,
) -> Result<(), WriteFault>
    requires { AnnounceOneRoute (map item_value items.now) }
    ensures text { PutsThroughBufferOrFront (O.written out.old) (O.written out.new) text.old
        text.new
        (lines_under_heading heading.now (map item_value items.now)) result }
    ensures failed { O.failed out.new ≡ (O.failed out.old || is_output_fault result) }
{
    let Some((first, rest)) = split_first_announcement(items) else {
        return Ok(());
    };
    write_if_long(out, text)?;
    let offsets = put_whole_route_line(heading, first, text)?;
    buffer_other_prefixes(out, heading, first, offsets, rest, text)
}

/// Writes the lines of `event`, what an MRT record reports, to `out`: one for each announcement,
/// withdrawal or state change. `text` is a buffer: its octets are discarded, and unspecified
/// afterwards. Fails if memory allocation or `out` fails; some of the first lines may have been
/// written to `out` then.
#[inline(always)]
fn write_event_lines<O: Output>(
    out: &mut O,
    text: &mut Text,
    event: &Event,
) -> Result<(), WriteFault>
    ensures text { PutsAllOrFront (O.written out.old) (O.written out.new) (event_lines event.now)
        result }
    ensures failed { O.failed out.new ≡ (O.failed out.old || is_output_fault result) }
{
    text.clear();
    let heading = Heading::of(event);
    let items = event.items.as_slice();
    let shared = event.items.longest_shared_range();
    buffer_item_lines(out, &heading, &items[..shared.start], text)?;
    buffer_shared_route_lines(out, &heading, &items[shared.start..shared.end], text)?;
    buffer_item_lines(out, &heading, &items[shared.end..], text)?;
    put_all(out, text.as_slice())?;
    Ok(())
}

/// Appends a line for each of `items`, which are from a TABLE_DUMP_V2 record, to `text`, which
/// holds lines that are still to be written to `out`. Whenever `text` has more than [`LONG_TEXT`]
/// octets, it is written to `out` and cleared before the next line; the last lines are left in it
/// for the caller to write. What is equal in a line of `cache`, a cache of printed lines, is copied
/// from it, and other lines are inserted into it. Requires that `heading` is of a TABLE_DUMP_V2
/// record. Fails if memory allocation or `out` fails; some of the first lines may have been written
/// to `out` then, and `text` holds unspecified octets.
#[inline(never)]
fn buffer_table_items<O: Output>(
    out: &mut O,
    heading: &Heading,
    items: &[Item],
    cache: &mut LineCache,
    text: &mut Text,
) -> Result<(), WriteFault>
    requires { IsTableHeading heading.now }
    ensures text { PutsThroughBufferOrFront (O.written out.old) (O.written out.new) text.old
        text.new
        (lines_under_heading heading.now (map item_value items.now)) result }
    ensures failed { O.failed out.new ≡ (O.failed out.old || is_output_fault result) }
{
    let mut last = None;
    'items: for item in items {
        if write_if_long(out, text)? {
            last = None;
        }
        last = put_table_item_line(heading, item, last, cache, text)?;
    }
    Ok(())
}

/// Writes the lines of `event`, what an MRT record reports, to `out`. Requires that it is from a
/// TABLE_DUMP_V2 record. What is equal in a line of `cache`, a cache of printed lines, is copied
/// from it, and other lines are inserted into it. `text` is a buffer: its octets are discarded, and
/// unspecified afterwards. Fails if memory allocation or `out` fails; some of the first lines may
/// have been written to `out` then.
#[inline(always)]
fn write_table_event<O: Output>(
    out: &mut O,
    text: &mut Text,
    cache: &mut LineCache,
    event: &Event,
) -> Result<(), WriteFault>
    requires { event.now.tag ≡ TableDump2 }
    ensures text { PutsAllOrFront (O.written out.old) (O.written out.new) (event_lines event.now)
        result }
    ensures failed { O.failed out.new ≡ (O.failed out.old || is_output_fault result) }
{
    text.clear();
    let heading = Heading::of(event);
    let items = event.items.as_slice();
    buffer_table_items(out, &heading, items, cache, text)?;
    cache.end(items.len());
    put_all(out, text.as_slice())?;
    Ok(())
}

/// Writes the lines of `event`, what an MRT record reports, to `out`: one for each announcement,
/// withdrawal or state change. `cache`, which holds printed lines, is used if
/// [`LineCache::decide_use_for`] returns `true` for the event: for TABLE_DUMP_V2 records, as long
/// as that saves work. `text` is a buffer: its octets are discarded, and unspecified afterwards.
/// Fails if memory allocation or `out` fails; some of the first lines may have been written to
/// `out` then.
#[inline(always)]
fn write_event<O: Output>(
    out: &mut O,
    text: &mut Text,
    cache: &mut LineCache,
    event: &Event,
) -> Result<(), WriteFault>
    ensures text { PutsAllOrFront (O.written out.old) (O.written out.new) (event_lines event.now)
        result }
    ensures failed { O.failed out.new ≡ (O.failed out.old || is_output_fault result) }
{
    if cache.decide_use_for(event) {
        write_table_event(out, text, cache, event)
    } else {
        write_event_lines(out, text, event)
    }
}

/// Writes a line for each of `routes`, routes of `peer` with their prefixes, to `out` in order,
/// such as `RIB|1700000000|B|192.0.2.1|65000|198.51.100.0/24|65000|IGP|192.0.2.1|0|0||NAG||` and a
/// line feed. `text` is a buffer: its octets are discarded, and unspecified afterwards. Fails if
/// memory allocation or `out` fails; some of the first lines may have been written to `out` then.
pub fn write_rib_lines<O: Output>(
    out: &mut O,
    peer: &Peer,
    routes: &[(Prefix, &Rc<Route>)],
    text: &mut Text,
) -> Result<(), WriteFault>
    ensures text { PutsAllOrFront (O.written out.old) (O.written out.new)
        (flat_map (λ f. rib_reply_line peer.now (f.0, f.1.now.value)) routes.now) result }
    ensures failed { O.failed out.new ≡ (O.failed out.old || is_output_fault result) }
{
    let heading = Heading::for_rib_lines();
    let mut last = None;
    text.clear();
    'routes: for entry in routes {
        let announcement = Announcement {
            peer,
            prefix: &entry.0,
            route: entry.1,
        };
        if write_if_long(out, text)? {
            last = None;
        }
        last = Some(put_route_line(&heading, announcement, last, text)?);
    }
    put_all(out, text.as_slice())?;
    Ok(())
}

/// Writes the line of `peer`'s route to `prefix` to `out`, such as
/// `RIB|1700000000|B|192.0.2.1|65000|198.51.100.0/24|65000|IGP|192.0.2.1|0|0||NAG||` and a line
/// feed. `text` is a buffer: its octets are discarded, and unspecified afterwards. If memory
/// allocation fails, nothing is written; if `out` fails, some of the line's first octets may have
/// been written.
pub fn write_rib_line<O: Output>(
    out: &mut O,
    peer: &Peer,
    prefix: &Prefix,
    route: &Route,
    text: &mut Text,
) -> Result<(), WriteFault>
    ensures text { Puts (O.written out.old) (O.written out.new)
        (rib_reply_line peer.now (prefix.now, route.now)) result }
    ensures failed { O.failed out.new ≡ (O.failed out.old || is_output_fault result) }
{
    let announcement = Announcement {
        peer,
        prefix,
        route,
    };
    text.clear();
    put_route_line(&Heading::for_rib_lines(), announcement, None, text)?;
    put_all(out, text.as_slice())?;
    Ok(())
}

/// Writes the report of a faulty record to `err`, such as `bgpdump: record 3, byte 120: cut record`
/// and a line feed. `text` is a buffer: its octets are discarded, and unspecified afterwards. If
/// memory allocation fails, nothing is written; if `err` fails, some of the report's first octets
/// may have been written.
pub fn write_report<E: Output>(
    err: &mut E,
    text: &mut Text,
    fault: RecordFault,
) -> Result<(), WriteFault>
    ensures text { Puts (E.written err.old) (E.written err.new) (fault_report fault) result }
    ensures failed { E.failed err.new ≡ (E.failed err.old || is_output_fault result) }
{
    text.clear();
    put_report(fault, text)?;
    put_all(err, text.as_slice())?;
    Ok(())
}

/// Writes what `next`, the result of reading a record, holds: the lines of an event to `out`, the
/// report of a faulty record to `err`, or nothing at the end of the input. Returns `true` if a
/// report was written, and `false` otherwise. `cache` holds lines of tables printed before, which
/// are copied where they fit, and gets those printed now. `text` is scratch memory: what it holds is
/// discarded, and unspecified afterwards. Fails if
/// memory allocation or an output fails; some of the first lines, or a part of the report, may have
/// been written then.
#[inline(always)]
pub(crate) fn write_lines_or_report<O: Output, E: Output>(
    out: &mut O,
    err: &mut E,
    text: &mut Text,
    cache: &mut LineCache,
    next: &Next,
) -> Result<bool, WriteFault>
    ensures found { PutsResults (answer_results next.now)
        (outputs_of O.written E.written out.old err.old)
        (outputs_of O.written E.written out.new err.new) result }
    ensures reported { IfOk result (λ reported. reported ≡ has_fault (answer_results next.now)) }
    ensures failed { (O.failed out.new || E.failed err.new) ≡
        (O.failed out.old || E.failed err.old || is_output_fault result) }
{
    match next {
        Next::Event(event) => {
            write_event(out, text, cache, event)?;
            Ok(false)
        }
        Next::Bad(fault) => {
            write_report(err, text, *fault)?;
            Ok(true)
        }
        Next::End => Ok(false),
    }
}
