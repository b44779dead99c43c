//! Copies of AS paths and of numbers that reuse the memory of others. `bgp_wire` calls
//! [`copy_path`] and [`copy_numbers`] to copy the attributes of a route over those of another.

ghost use Rattle.std.specs.Prelude.{◌≡◌, IfOk};

use crate::numbers::clear_and_reserve;
use crate::path::AsPath;
use crate::path_reader::push_empty_segment;
use crate::segment::Segment;
use crate::segments::{Held, Segments, shrink_if_much_spare};
use std::alloc::{AllocError, Global};
use std::mem;

/// Returns a copy of `numbers` in the memory of `old`, whose own numbers are dropped. Memory is
/// allocated only if the capacity of `old` is too small, or more than `max_spare` numbers above the
/// length of `numbers`. Returns `AllocError` if memory allocation fails.
pub fn copy_numbers(old: Vec<u32>, numbers: &[u32], max_spare: u8) -> Result<Vec<u32>, AllocError>
    ensures { IfOk result (λ copy. copy.items ≡ numbers.now) }
{
    let mut copy = old;
    clear_and_reserve(&mut copy, numbers.len(), max_spare)?;
    copy.extend_from_slice(numbers)?;
    Ok(copy)
}

/// Returns a copy of `segment` in the memory of `old`, whose own AS numbers are dropped. Returns
/// `AllocError` if memory allocation fails.
#[inline]
fn copy_segment(old: Segment, segment: &Segment) -> Result<Segment, AllocError>
    ensures { IfOk result (λ copy. copy ≡ segment.now) }
{
    Ok(Segment {
        numbers: old.numbers.replaced_by(&segment.numbers)?,
        kind: segment.kind,
    })
}

/// Returns a copy of `segments` that reuses the memory of `old`, whose own segments are dropped.
/// Memory is allocated where `old` has too little for the copy, or much more than it needs. Returns
/// `AllocError` if memory allocation fails.
#[inline(never)]
fn copy_list(
    alloc: Global,
    old: Vec<Segment>,
    segments: &[Segment],
) -> Result<Vec<Segment>, AllocError>
    ensures { IfOk result (λ copy. copy.items ≡ segments.now) }
{
    let mut list = old;
    if list.is_empty() {
        list = Vec::with_capacity(alloc, segments.len())?;
    }
    let mut count = 0;
    for segment in segments {
        if count == list.len() {
            push_empty_segment(alloc, &mut list)?;
        }
        let old = mem::replace(&mut list[count], Segment::empty());
        list[count] = copy_segment(old, segment)?;
        count += 1;
    }
    list.truncate(count);
    shrink_if_much_spare(&mut list);
    Ok(list)
}

/// Returns a copy of `segments` that reuses the memory of the segment `old`, whose own AS numbers
/// are dropped. A vector of segments is allocated only if there are several. Returns `AllocError`
/// if memory allocation fails.
fn copy_over_one(alloc: Global, old: Segment, segments: &[Segment]) -> Result<Segments, AllocError>
    ensures { IfOk result (λ copy. copy ≡ segments.now) }
{
    match segments {
        [] => Ok(Segments::empty(alloc)),
        [only] => Ok(Segments::of_one(copy_segment(old, only)?)),
        _ => {
            let mut list = Vec::with_capacity(alloc, segments.len())?;
            list.push_reserved(old);
            let list = copy_list(alloc, list, segments)?;
            Ok(Segments::of_list(list))
        }
    }
}

/// Returns a copy of `segments` that reuses the memory of the vector `old`, whose own segments are
/// dropped. A single segment is held in the value itself, without a vector, if `old` has no
/// segments. Returns `AllocError` if memory allocation fails.
fn copy_over_list(
    alloc: Global,
    old: Vec<Segment>,
    segments: &[Segment],
) -> Result<Segments, AllocError>
    ensures { IfOk result (λ copy. copy ≡ segments.now) }
{
    if old.is_empty() && segments.len() == 1 {
        return copy_over_one(alloc, Segment::empty(), segments);
    }
    let list = copy_list(alloc, old, segments)?;
    Ok(Segments::of_list(list))
}

/// Returns a copy of `path` that reuses the memory of `old`, whose own segments are dropped. Memory
/// is allocated where `old` has too little for the copy, or much more than it needs. Returns
/// `AllocError` if memory allocation fails.
pub fn copy_path(alloc: Global, old: AsPath, path: &AsPath) -> Result<AsPath, AllocError>
    ensures { IfOk result (λ copy. copy ≡ path.now) }
{
    let segments = path.segments.as_slice();
    let segments = match old.segments.into_held() {
        Held::One(old) => copy_over_one(alloc, old, segments)?,
        Held::Listed(old) => copy_over_list(alloc, old, segments)?,
    };
    Ok(AsPath { segments })
}
