//! The types that hold lists.

use bgp_paths::{AsNumbers, Segment, SegmentKind, Segments};
use std::alloc::{AllocError, Global};
use std::process::Abort;
use std::test::Fail;

/// Asserts what numbers are.
fn assert_list(rt: &impl Abort, numbers: &[u32], want: &[u32]) {
    assert_eq!(rt; numbers, want);
}

/// Asserts that AS numbers are as they were made, a copy of them, and what is left of both.
fn assert_numbers(rt: &impl Abort, alloc: Global, numbers: &[u32]) -> Result<(), AllocError> {
    let own = AsNumbers::from_vec(Vec::from_slice(alloc, numbers)?);
    assert_list(rt, own.as_slice(), numbers);
    assert_list(rt, own.clone()?.as_slice(), numbers);
    assert_eq!(rt; own.spare_capacity(), 0);
    assert_list(rt, &own.into_vec(alloc)?, numbers);
    Ok(())
}

#[test]
fn lists_are_as_made(rt: HostRuntime) -> Result<(), Fail> {
    let eight = [1, 2, 3, 4, 5, 6, 7, 4_294_967_295];
    for numbers in [
        &eight[..2],
        &[],
        &[0, 4_294_967_295, 0],
        &eight[..7],
        &eight,
    ] {
        assert_numbers(&rt, rt.alloc(), numbers)?;
    }
    Ok(())
}

/// As many segments {7,8}.
fn pairs(alloc: Global, count: usize) -> Result<Segments, AllocError> {
    let mut segments = Vec::new(alloc);
    for _ in 0..count {
        segments.push(Segment {
            numbers: AsNumbers::from_vec(Vec::from_slice(alloc, &[7, 8])?),
            kind: SegmentKind::AsSet,
        })?;
    }
    Ok(Segments::from_vec(segments))
}

/// Asserts that segments are so many, each {7,8}.
fn assert_pairs(rt: &impl Abort, segments: &[Segment], count: usize) {
    assert_eq!(rt; segments.len(), count);
    for segment in segments {
        assert_eq!(rt; segment.kind, SegmentKind::AsSet);
        assert_eq!(rt; segment.numbers.as_slice(), [7, 8].as_slice());
    }
}

#[test]
fn segments_are_as_made(rt: HostRuntime) -> Result<(), Fail> {
    for count in 0..4 {
        let made = pairs(rt.alloc(), count)?;
        assert_pairs(&rt, made.as_slice(), count);
        let copy = made.clone()?;
        assert_pairs(&rt, copy.as_slice(), count);
        assert_eq!(rt; copy.spare_capacity(), 0);
        assert_pairs(&rt, &made.into_vec(rt.alloc())?, count);
    }
    Ok(())
}
