//! The merge of an AS_PATH, whose AS numbers have two octets, with the AS4_PATH sent with it, whose
//! AS numbers have four (RFC 6793, section 4.2.3). `bgp_wire` calls [`merge_paths`] for the
//! attributes of a route; read that function first.

ghost use Rattle.std.specs.Prelude.{◌≡◌, ℕ, ◌≤◌, List, ◌++◌, IfOk, OnOk, sum_by};
ghost use Rattle.bgp_paths.specs.Merge.{IsMerge, IsLongest, path_weight, segment_weight, PathUnit, units_from, segments_of};
ghost use Rattle.bgp_paths.specs.Readers.{segment_unless_empty};
ghost use Rattle.bgp_paths.specs.declared.path.AsPath.{AsPath};

use crate::as_numbers::AsNumbers;
use crate::path::AsPath;
use crate::segment::{Segment, SegmentKind};
use crate::segments::{Segments, shrink_if_much_spare};
use std::alloc::{AllocError, Global};

/// Merges the AS_PATH `first` with the AS4_PATH `second` (RFC 6793, section 4.2.3). If `first`
/// counts n ASes more than `second` (n may be 0), the result is the first n ASes of `first`, and
/// then `second` without its confederation segments. Each AS number of a sequence counts, a set
/// counts as one AS, and confederation segments don't count: those of `first` up to its next AS
/// that counts are in the result too. If `first` counts fewer ASes than `second`, the result is a
/// copy of `first`. Returns `AllocError` if memory allocation fails.
pub fn merge_paths(alloc: Global, first: &AsPath, second: &AsPath) -> Result<AsPath, AllocError>
    ensures { IfOk result (IsMerge first.now second.now) }
{
    let total = count_ases(first);
    let replaced = count_ases(second);
    if total < replaced {
        return first.clone();
    }
    let front = first.segments.as_slice();
    let back = second.segments.as_slice();
    let mut segments = Vec::with_capacity(alloc, front.len().saturating_add(back.len()))?;
    push_leading_segments(alloc, front, total - replaced, &mut segments)?;
    for segment in back {
        match segment.kind {
            SegmentKind::AsSequence | SegmentKind::AsSet => segments.push(segment.clone()?)?,
            SegmentKind::ConfedSequence | SegmentKind::ConfedSet => {}
        }
    }
    shrink_if_much_spare(&mut segments);
    Ok(AsPath {
        segments: Segments::from_vec(segments),
    })
}

/// Returns the number of ASes that `path` counts (RFC 6793, section 4.2.3): each AS number of a
/// sequence, one for each set, and none for a confederation segment.
fn count_ases(path: &AsPath) -> u128
    ensures { result ≡ path_weight path.now }
{
    let mut total = 0;
    for segment in path.segments.as_slice() {
        total += count_ases_of_segment(segment) as u128;
    }
    total
}

/// Returns the number of ASes that `segment` counts when paths are compared by length: each AS
/// number of a sequence, one for a set, and none for a confederation segment (RFC 4271, section
/// 9.1.2.2; RFC 5065, section 5.3).
fn count_ases_of_segment(segment: &Segment) -> usize
    ensures { result ≡ segment_weight segment.now }
{
    match segment.kind {
        SegmentKind::AsSequence => segment.numbers.as_slice().len(),
        SegmentKind::AsSet => 1,
        SegmentKind::ConfedSequence | SegmentKind::ConfedSet => 0,
    }
}

/// Appends the first `weight` ASes of `segments` to `path`, in their segments. Each AS number of a
/// sequence counts, a set counts as one AS, and confederation segments don't count: those up to the
/// next AS that counts are appended too. The last sequence is cut if it has more ASes than needed.
/// Requires that `segments` counts at least `weight` ASes. Fails if memory allocation fails; `path`
/// is then unspecified.
fn push_leading_segments(
    alloc: Global,
    segments: &[Segment],
    weight: u128,
    path: &mut Vec<Segment>,
) -> Result<(), AllocError>
    requires { weight ≤ sum_by segment_weight segments.now }
    ensures { OnOk result ((front : List PathUnit) ×
        IsLongest weight (units_from 0 segments.now) front
        × (path.new.items ≡ path.old.items ++ segments_of front)) }
{
    let mut left = weight;
    for segment in segments {
        let numbers = segment.numbers.as_slice();
        let needed = count_ases_of_segment(segment) as u128;
        if left < needed {
            // Only a sequence is cut. A set counts one AS, so nothing of it is left.
            return push_segment(
                alloc,
                SegmentKind::AsSequence,
                &numbers[..left as usize],
                path,
            );
        }
        push_segment(alloc, segment.kind, numbers, path)?;
        left -= needed;
    }
    Ok(())
}

/// Appends a segment of `kind` and `numbers` to `path`, or nothing if it would be a sequence
/// without AS numbers. Fails if memory allocation fails; `path` is then unspecified.
fn push_segment(
    alloc: Global,
    kind: SegmentKind,
    numbers: &[u32],
    path: &mut Vec<Segment>,
) -> Result<(), AllocError>
    ensures { OnOk result (path.new.items ≡ path.old.items
        ++ segment_unless_empty kind numbers.now) }
{
    if kind == SegmentKind::AsSequence && numbers.is_empty() {
        return Ok(());
    }
    let numbers = AsNumbers::from_slice(alloc, numbers)?;
    path.push(Segment { numbers, kind })?;
    Ok(())
}
