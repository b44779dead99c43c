//! A parser of AS paths (RFC 4271, section 4.3; RFC 5065, section 3). `AsPath::fill` calls
//! [`fill_segments`]; read that function first.

ghost use Rattle.std.specs.Prelude.{◌≡◌, ℕ, [], ◌∷◌, ◌++◌, OnOk, IfErr, IfSome, IfNone};
ghost use Rattle.ip_prefix.specs.Sequences.{SpellsAll};
ghost use Rattle.ip_prefix.specs.Fronts.{BeginsWithNone};
ghost use Rattle.bgp_paths.specs.Path.{SpellsAsn, SpellsSegment};
ghost use Rattle.bgp_paths.specs.Readers.{IsSplitSegment, Refuses};

use crate::fault::WireFault;
use crate::numbers::AsWidth;
use crate::segment::{Segment, SegmentKind};
use crate::segments::{Held, Segments, shrink_if_much_spare};
use std::alloc::{AllocError, Global};

/// The number of the segment type AS_SET, a set of ASes (RFC 4271, section 4.3).
const AS_SET: u8 = 1;
/// The number of the segment type AS_SEQUENCE, an ordered list of ASes (RFC 4271, section 4.3).
const AS_SEQUENCE: u8 = 2;
/// The number of the segment type AS_CONFED_SEQUENCE, an ordered list of member ASes of a
/// confederation (RFC 5065, section 3).
const AS_CONFED_SEQUENCE: u8 = 3;
/// The number of the segment type AS_CONFED_SET, a set of member ASes of a confederation (RFC 5065,
/// section 3).
const AS_CONFED_SET: u8 = 4;

/// A segment of an AS path, split off the start of a slice: its kind, the octets of its AS numbers
/// (RFC 4271, section 4.3; RFC 5065, section 3), and `rest`, the octets after the segment.
#[derive(Clone, Copy)]
struct SegmentAndRest<'a> {
    /// The kind of the segment.
    kind: SegmentKind,
    /// The octets of the segment's AS numbers, without its type and count.
    body: &'a [u8],
    /// The octets after the segment.
    rest: &'a [u8],
}

/// Splits a segment with AS numbers of `width` off the start of `octets`. Its AS numbers aren't
/// parsed. Returns `None` if its type isn't 1, 2, 3 or 4 (RFC 4271, section 4.3; RFC 5065, section
/// 3), if its count of AS numbers is 0, or if `octets` ends inside it or is empty.
#[inline(always)]
fn split_segment(width: AsWidth, octets: &[u8]) -> Option<SegmentAndRest<'_>>
    ensures some { IfSome result (λ f. (count : ℕ)
        × IsSplitSegment width f.kind count f.body.now f.rest.now octets.now) }
    ensures none { IfNone result (BeginsWithNone (SpellsSegment width) octets.now) }
{
    let (&code, after_code) = octets.split_first()?;
    let (&count, numbers) = after_code.split_first()?;
    let kind = match code {
        AS_SET => SegmentKind::AsSet,
        AS_SEQUENCE => SegmentKind::AsSequence,
        AS_CONFED_SEQUENCE => SegmentKind::ConfedSequence,
        AS_CONFED_SET => SegmentKind::ConfedSet,
        _ => return None,
    };
    if count == 0 {
        return None;
    }
    let size = usize::from(count) * width.octets();
    let (body, rest) = numbers.split_at_checked(size)?;
    Some(SegmentAndRest { kind, body, rest })
}

/// Splits `octets` that are one segment with AS numbers of `width`, and nothing else, into its kind
/// and the octets of its AS numbers, which aren't parsed. Returns `None` if the octets are anything
/// else, several segments for example.
#[inline(always)]
fn split_only_segment(width: AsWidth, octets: &[u8]) -> Option<SegmentAndRest<'_>>
    ensures { IfSome result (λ f. (count : ℕ)
        × IsSplitSegment width f.kind count f.body.now [] octets.now) }
{
    let framed = split_segment(width, octets)?;
    if framed.rest.is_empty() {
        Some(framed)
    } else {
        None
    }
}

/// Parses `body` as AS numbers of `width`, and replaces `segment` with them and `kind`, reusing its
/// memory. Fails with `Malformed` if `body` ends inside a number, and with `Memory` if memory
/// allocation fails; `segment` is then unspecified.
#[inline(always)]
fn fill_segment(
    alloc: Global,
    segment: &mut Segment,
    kind: SegmentKind,
    width: AsWidth,
    body: &[u8],
) -> Result<(), WireFault>
    ensures kind { segment.new.kind ≡ kind }
    ensures filled { OnOk result (SpellsAll (SpellsAsn width) segment.new.numbers body.now) }
    ensures refused { IfErr result (Refuses (SpellsAll (SpellsAsn width)) body.now) }
{
    segment.kind = kind;
    segment.numbers.fill(alloc, width, body)
}

/// Appends a sequence without AS numbers to `list`, for the caller to fill in. Fails if memory
/// allocation fails; `list` is then unspecified.
#[inline(never)]
pub(crate) fn push_empty_segment(alloc: Global, list: &mut Vec<Segment>) -> Result<(), AllocError>
    ensures { OnOk result (list.new.items ≡ list.old.items
        ++ record { numbers = []; kind = SegmentKind.AsSequence } ∷ []) }
{
    // Most paths that need a list have two segments, so the first capacity is two.
    if list.capacity() == 0 {
        list.reserve_exact(2)?;
    }
    list.push(Segment::empty())?;
    Ok(())
}

/// Parses `octets` as segments with AS numbers of `width`, and replaces those of `list` with them,
/// reusing their memory. Fails with `Malformed` if `octets` isn't a list of segments, each of a
/// known type and with at least one AS number, and with `Memory` if memory allocation fails. On
/// error, `list` is unspecified.
#[inline(always)]
fn replace_segments(
    alloc: Global,
    list: &mut Vec<Segment>,
    width: AsWidth,
    octets: &[u8],
) -> Result<(), WireFault>
    ensures filled { OnOk result (SpellsAll (SpellsSegment width) list.new.items octets.now) }
    ensures refused { IfErr result (Refuses (SpellsAll (SpellsSegment width)) octets.now) }
{
    // It is inlined, so that there is a loop for each width.
    let mut count = 0;
    let mut rest = octets;
    while !rest.is_empty() {
        let Some(framed) = split_segment(width, rest) else {
            return Err(WireFault::Malformed);
        };
        if count == list.len() {
            push_empty_segment(alloc, list)?;
        }
        fill_segment(alloc, &mut list[count], framed.kind, width, framed.body)?;
        count += 1;
        rest = framed.rest;
    }
    list.truncate(count);
    shrink_if_much_spare(list);
    Ok(())
}

/// Parses `octets` as segments with AS numbers of `width`, and replaces `segments` with them,
/// reusing their memory. A single segment is held in the value itself if `segments` was empty,
/// without memory; otherwise the segments are in a vector. Fails with `Malformed` if `octets` isn't
/// a list of segments, each of a known type and with at least one AS number, and with `Memory` if
/// memory allocation fails. On error, `segments` is unspecified.
#[inline(never)]
fn refill_segments(
    alloc: Global,
    segments: &mut Segments,
    width: AsWidth,
    octets: &[u8],
) -> Result<(), WireFault>
    ensures filled { OnOk result (SpellsAll (SpellsSegment width) segments.new octets.now) }
    ensures refused { IfErr result (Refuses (SpellsAll (SpellsSegment width)) octets.now) }
{
    if octets.is_empty() {
        segments.clear(alloc);
        return Ok(());
    }
    if segments.is_unallocated()
        && let Some(framed) = split_only_segment(width, octets)
    {
        let mut only = Segment::empty();
        fill_segment(alloc, &mut only, framed.kind, width, framed.body)?;
        segments.held = Held::One(only);
        return Ok(());
    }
    let mut list = segments.take_list(alloc)?;
    let result = match width {
        AsWidth::Two => replace_segments(alloc, &mut list, AsWidth::Two, octets),
        AsWidth::Four => replace_segments(alloc, &mut list, AsWidth::Four, octets),
    };
    segments.held = Held::Listed(list);
    result
}

/// Parses `octets` as segments with AS numbers of `width`, and replaces `segments` with them,
/// reusing their memory. Fails with `Malformed` if `octets` isn't a list of segments, each of a
/// known type and with at least one AS number, and with `Memory` if memory allocation fails. On
/// error, `segments` is unspecified.
#[inline(always)]
pub(crate) fn fill_segments(
    alloc: Global,
    segments: &mut Segments,
    width: AsWidth,
    octets: &[u8],
) -> Result<(), WireFault>
    ensures filled { OnOk result (SpellsAll (SpellsSegment width) segments.new octets.now) }
    ensures refused { IfErr result (Refuses (SpellsAll (SpellsSegment width)) octets.now) }
{
    // Nearly all paths have one segment, and so has the one before, which is replaced in place.
    if let Some(framed) = split_only_segment(width, octets) {
        match &mut segments.held {
            Held::One(only) => return fill_segment(alloc, only, framed.kind, width, framed.body),
            Held::Listed(list) => {
                if list.len() == 1 {
                    return fill_segment(alloc, &mut list[0], framed.kind, width, framed.body);
                }
            }
        }
    }
    refill_segments(alloc, segments, width, octets)
}
