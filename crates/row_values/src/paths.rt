//! Paths that are joined, by their texts. Segments stand behind one another with bars between them:
//! `1 2` a sequence, `{1,2}` a set, `(1 2)` and `[1,2]` those of confederations, `-` a sequence
//! without numbers.

use crate::marks;
use crate::shown::Shown;
use crate::words::{REFUSED, put_count};
use bgp_wire::{AsNumbers, AsPath, Segment, SegmentKind, Segments, merge_paths};
use std::alloc::{AllocError, Global};
use std::str;

/// Appends the text of two paths joined, which stand in the lines of a script.
pub fn put_joined(alloc: Global, script: &[u8], text: &mut Shown) {
    match joined(alloc, script) {
        Ok(path) => text.put_path(&path),
        Err(AllocError) => text.put(REFUSED),
    }
    text.put(b"\n");
}

/// Appends how many segments they have joined.
pub fn put_segment_count(alloc: Global, script: &[u8], text: &mut Shown) {
    match joined(alloc, script) {
        Ok(path) => put_count(b"", path.segments.as_slice().len() as u64, text),
        Err(AllocError) => text.put(REFUSED),
    }
    text.put(b" segments\n");
}

/// The paths in the two lines of a script, joined.
fn joined(alloc: Global, script: &[u8]) -> Result<AsPath, AllocError> {
    let mut lines = str::from_utf8(script).unwrap_or("").lines();
    let first = path_of(alloc, lines.next().unwrap_or(""))?;
    let second = path_of(alloc, lines.next().unwrap_or(""))?;
    marks::begin(alloc);
    let joined = merge_paths(alloc, &first, &second);
    marks::end(alloc);
    joined
}

/// The path that a line spells.
pub(crate) fn path_of(alloc: Global, line: &str) -> Result<AsPath, AllocError> {
    let mut segments = Vec::new(alloc);
    for part in line.split("|") {
        if !part.trim().is_empty() {
            segments.push(segment_of(alloc, part.trim())?)?;
        }
    }
    Ok(AsPath {
        segments: Segments::from_vec(segments),
    })
}

/// The segment that a text spells.
fn segment_of(alloc: Global, text: &str) -> Result<Segment, AllocError> {
    let kind = match text.as_bytes().first() {
        Some(b'{') => SegmentKind::AsSet,
        Some(b'(') => SegmentKind::ConfedSequence,
        Some(b'[') => SegmentKind::ConfedSet,
        _ => SegmentKind::AsSequence,
    };
    Ok(Segment {
        numbers: AsNumbers::from_vec(numbers_of(alloc, text)?),
        kind,
    })
}

/// The numbers that a text spells, with anything between them.
pub(crate) fn numbers_of(alloc: Global, text: &str) -> Result<Vec<u32>, AllocError> {
    let mut numbers = Vec::new(alloc);
    for word in text.split(|letter: char| !letter.is_ascii_digit()) {
        if let Ok(number) = word.parse::<u32>() {
            numbers.push(number)?;
        }
    }
    Ok(numbers)
}
