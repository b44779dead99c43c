//! Appends the first fields of a line: the kind of the record, the time, and the letter that tells a
//! route of a table (`B`) from an announcement (`A`). `event_lines.rt` and `route_line.rt` call these
//! functions with the [`Heading`] of a record or of a table; read that type first. On error, each
//! function may have appended a part.

ghost use Rattle.std.specs.Prelude.{◌≡◌, ◌∷◌, ◌++◌};
ghost use Rattle.bgpdump_lines.specs.WrittenSoFar.{Prints};
ghost use Rattle.bgpdump_lines.specs.Lines.{bar, micros_text, time_text, item_line, rib_reply_line};
ghost use Rattle.bgpdump_lines.specs.Heading.{first_field, first_three_fields, line_under_heading};
ghost use Rattle.bgpdump_lines.specs.CachedLines.{IsTableHeading};
ghost use Rattle.ip_prefix.specs.Network.{Network};
ghost use Rattle.mrt_events.specs.declared.event.Route.{Route};
ghost use Rattle.mrt_events.specs.declared.peer.Peer.{Peer};
ghost use Rattle.mrt_events.specs.Event.{Announced};
ghost use Rattle.mrt_events.specs.declared.event.Tag.TheVariants.{TableDump2};

use crate::fields::put_u32_field;
use ip_prefix::Text;
use mrt_wire::{Event, Route, Tag, Time};
use std::alloc::AllocError;

/// The least number of decimal digits that the microseconds of a time are written with: 6, with leading
/// zeros.
const MICROS_DIGITS: usize = 6;

/// The choice of a line's first field: the type of the MRT record that the line is from, or `RIB`
/// for a route in a table that the player (`bgpdump --play`) keeps.
#[derive(Clone, Copy)]
pub(crate) enum FirstField {
    /// The kind of the record that the line is from: `TABLE_DUMP`, `TABLE_DUMP2`, `BGP4MP` or
    /// `BGP4MP_ET`.
    Record,
    /// `RIB`, for a route in the table of a peer that the player of a script keeps.
    Rib,
}

/// What the first fields of lines are made from, such as `BGP4MP|1700000000`: the type and the time
/// of the MRT record that the lines are from, or `RIB` for the lines of a peer's table.
#[derive(Clone, Copy)]
pub(crate) struct Heading {
    /// The choice of the first field: the kind of the record, or `RIB`.
    pub(crate) first: FirstField,
    /// The time of the record. It isn't written in the lines of routes of a table, which have a time
    /// each.
    pub(crate) time: Time,
    /// The kind of the record, by its MRT type, which also selects the form of the time and the letter.
    pub(crate) tag: Tag,
}

impl Heading {
    /// Returns the heading of the lines of `event`, the content of an MRT record: the type and the
    /// timestamp of that record.
    #[inline(always)]
    pub(crate) fn of(event: &Event) -> Heading
        ensures line { line_under_heading result ≡ item_line event.now.time event.now.tag }
        ensures tables { event.now.tag ≡ TableDump2 → IsTableHeading result }
    {
        Heading {
            first: FirstField::Record,
            time: event.time,
            tag: event.tag,
        }
    }

    /// Returns the heading of the lines of a peer's table, which begin like `RIB|1700000000|B`:
    /// with the word `RIB`, the time of the route ([`Route::time`]) and the letter of a table's
    /// route. The time of the heading is 0 and isn't written.
    #[inline(always)]
    pub(crate) fn for_rib_lines() -> Heading
        ensures { (peer : Peer) (prefix : Network) (route : Route) →
            line_under_heading result (Announced peer prefix route)
            ≡ rib_reply_line peer (prefix, route) }
    {
        Heading {
            first: FirstField::Rib,
            time: Time {
                seconds: 0,
                micros: None,
            },
            tag: Tag::TableDump2,
        }
    }
}

/// Appends the first field of a line, without a bar: `RIB` if `heading.first` is [`FirstField::Rib`], or
/// else the kind of the record, `TABLE_DUMP`, `TABLE_DUMP2`, `BGP4MP` or `BGP4MP_ET`. Fails if memory
/// allocation fails; `text` then ends with an unspecified part of the field.
#[inline(always)]
fn put_first_field(heading: &Heading, text: &mut Text) -> Result<(), AllocError>
    ensures { Prints text.old text.new (first_field heading.now) result }
{
    match (heading.first, heading.tag) {
        (FirstField::Rib, _) => text.extend_from_slice(b"RIB"),
        (FirstField::Record, Tag::TableDump) => text.extend_from_slice(b"TABLE_DUMP"),
        (FirstField::Record, Tag::TableDump2) => text.extend_from_slice(b"TABLE_DUMP2"),
        (FirstField::Record, Tag::Bgp4mp) => text.extend_from_slice(b"BGP4MP"),
        (FirstField::Record, Tag::Bgp4mpEt) => text.extend_from_slice(b"BGP4MP_ET"),
    }
}

/// Appends the microseconds of a time in decimal, with leading zeros up to 6 digits ([`MICROS_DIGITS`]),
/// such as `000250`. A number of more digits, which a faulty record may have, is written in full. Fails
/// if memory allocation fails; `text` then ends with an unspecified part of them.
fn put_micros(micros: u32, text: &mut Text) -> Result<(), AllocError>
    ensures { Prints text.old text.new (micros_text micros) result }
{
    // They are printed twice, to see how many digits they have.
    let front = text.len();
    text.put_decimal(micros)?;
    let missing = MICROS_DIGITS.saturating_sub(text.len() - front);
    text.truncate(front);
    text.extend_from_slice(&[b'0'; MICROS_DIGITS][..missing])?;
    text.put_decimal(micros)?;
    Ok(())
}

/// Appends the field of a record's time: a bar and the seconds since 1970, such as `|1700000000`.
/// For BGP4MP_ET (RFC 6396, section 3), a dot and the microseconds follow, such as
/// `|1700000000.000250`; they are 0 if `heading.time` has none. Fails if memory allocation fails;
/// `text` then ends with an unspecified part of the field.
#[inline(always)]
fn put_time_field(heading: &Heading, text: &mut Text) -> Result<(), AllocError>
    ensures { Prints text.old text.new (bar ∷ time_text heading.now.tag heading.now.time) result }
{
    put_u32_field(heading.time.seconds, text)?;
    if let Tag::Bgp4mpEt = heading.tag {
        text.push(b'.')?;
        put_micros(heading.time.micros.unwrap_or(0), text)?;
    }
    Ok(())
}

/// Appends the first two fields of the line of a withdrawal or a state change: the kind of the record,
/// and its time, such as `BGP4MP|1700000000`. Fails if memory allocation fails; `text` then ends with an
/// unspecified part of them.
#[inline(always)]
pub(crate) fn put_kind_and_time(heading: &Heading, text: &mut Text) -> Result<(), AllocError>
    ensures { Prints text.old text.new
        (first_field heading.now ++ bar ∷ time_text heading.now.tag heading.now.time) result }
{
    put_first_field(heading, text)?;
    put_time_field(heading, text)
}

/// Appends the first three fields of a route's line, such as `TABLE_DUMP2|1700000000|B`: the kind of the
/// record or `RIB`, a time, and `B` for a route of a table or `A` for an announcement. The time is
/// `route.time` for a route of a table, and the time of the record for an announcement. Fails if memory
/// allocation fails; `text` then ends with an unspecified part of them.
#[inline(always)]
pub(crate) fn put_first_three_fields(
    heading: &Heading,
    route: &Route,
    text: &mut Text,
) -> Result<(), AllocError>
    ensures { Prints text.old text.new (first_three_fields heading.now route.now) result }
{
    put_first_field(heading, text)?;
    match heading.tag {
        Tag::TableDump | Tag::TableDump2 => {
            put_u32_field(route.time, text)?;
            text.extend_from_slice(b"|B")
        }
        Tag::Bgp4mp | Tag::Bgp4mpEt => {
            put_time_field(heading, text)?;
            text.extend_from_slice(b"|A")
        }
    }
}
