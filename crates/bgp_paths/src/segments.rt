//! The list of the segments of an AS path. Nearly all paths have one segment, which is held in
//! place, without a block of memory for the list. Read [`Segments`] first.

ghost use Rattle.std.specs.Prelude.{◌≡◌, [], ◌∷◌, IfOk};
ghost use Rattle.bgp_paths.specs.Segments.{held_segments};

use crate::segment::Segment;
use std::alloc::{AllocError, Global};
use std::marker::Model;
use std::{mem, slice};

/// The greatest number of segments by which the capacity of a path's list may exceed its length. At
/// one more, the capacity is shrunk to the length, so that stored paths take little memory.
const MOST_SPARE: usize = 4;

/// Where the segments of a [`Segments`] are: one in the value itself, or any number in a vector.
#[derive(Debug, Drop)]
pub(crate) enum Held {
    /// The only segment, in place.
    One(Segment),
    /// Any number of segments, in a vector.
    Listed(Vec<Segment>),
}

/// The segments of an AS path, in the order in which they are sent. A single segment is mostly held
/// in the value itself, so that the list needs no vector. In contracts, the value is the list of
/// the segments; where they are held doesn't show.
#[derive(Debug)]
pub struct Segments {
    /// The segments, in place or in a vector.
    pub(crate) held: Held,
}

impl Model for Segments {
    ghost use Rattle.std.specs.Prelude.{List};
    ghost use Rattle.bgp_paths.specs.declared.segment.Segment.{Segment};

    ghost Value = { List Segment };

    ghost use Rattle.bgp_paths.specs.Segments.{held_segments};

    ghost view = { λ a. held_segments a.held };
}

impl Segments {
    /// Returns an empty list, without allocating memory. `alloc` is the allocator of its vector.
    #[inline]
    pub fn empty(alloc: Global) -> Segments
        ensures { result ≡ [] }
    {
        Segments::of_list(Vec::new(alloc))
    }

    /// Returns a list with the segment `only`, held in the value itself, without allocating memory.
    #[inline]
    pub(crate) fn of_one(only: Segment) -> Segments
        ensures { result ≡ only ∷ [] }
    {
        let held = Held::One(only);
        Segments { held }
    }

    /// Converts a vector into a list of its segments, which stay in the vector, also if there is
    /// only one.
    #[inline]
    pub(crate) fn of_list(items: Vec<Segment>) -> Segments
        ensures { result ≡ items.items }
    {
        let held = Held::Listed(items);
        Segments { held }
    }

    /// Returns the segments as they are held, a single one or a vector.
    #[inline]
    pub(crate) fn into_held(self) -> Held
        ensures { held_segments result ≡ self }
    {
        let Segments { held: kept } = self;
        kept
    }

    /// Converts a vector into a list of its segments, without allocating memory. A single segment
    /// is moved into the list itself, and the vector's memory is freed; several, or none, stay in
    /// the vector.
    pub fn from_vec(items: Vec<Segment>) -> Segments
        ensures { result ≡ items.items }
    {
        let mut items = items;
        if items.len() == 1
            && let Some(only) = items.pop()
        {
            return Segments::of_one(only);
        }
        Segments::of_list(items)
    }

    /// Converts the list into a vector of its segments, without copying their AS numbers. The
    /// vector may have spare capacity. Allocates memory only if a segment is held in the list
    /// itself. Returns `AllocError` if memory allocation fails.
    pub fn into_vec(self, alloc: Global) -> Result<Vec<Segment>, AllocError>
        ensures { IfOk result (λ items. items.items ≡ self) }
    {
        match self.into_held() {
            Held::One(only) => {
                let mut items = Vec::with_capacity(alloc, 1)?;
                items.push_reserved(only);
                Ok(items)
            }
            Held::Listed(items) => Ok(items),
        }
    }

    /// Returns the segments as a slice, in order.
    #[inline]
    pub fn as_slice(&self) -> &[Segment]
        ensures { result.now ≡ self.now }
    {
        match &self.held {
            Held::One(only) => slice::from_ref(only),
            Held::Listed(items) => items.as_slice(),
        }
    }

    /// Returns the number of further segments that the list's vector has memory for, or 0 if a
    /// segment is held in the list itself.
    #[inline]
    pub fn spare_capacity(&self) -> usize {
        match &self.held {
            Held::One(_) => 0,
            Held::Listed(items) => items.capacity() - items.len(),
        }
    }

    /// Returns `true` if the list is empty and its vector has no memory, as in a list that
    /// [`Segments::empty`] returned. Returns `false` if it has a segment, or memory for one.
    #[inline]
    pub(crate) fn is_unallocated(&self) -> bool {
        match &self.held {
            Held::One(_) => false,
            Held::Listed(items) => items.capacity() == 0,
        }
    }

    /// Moves the segments out of the list into a vector, and leaves the list empty, without memory.
    /// If the list has a vector, returns that. For a segment that is held in the list itself,
    /// allocates a vector with capacity for two. Returns `AllocError` if memory allocation fails;
    /// the list is then empty, and the segment is lost.
    pub(crate) fn take_list(&mut self, alloc: Global) -> Result<Vec<Segment>, AllocError>
        ensures { IfOk result (λ items. items.items ≡ self.old) }
    {
        match mem::replace(&mut self.held, Held::Listed(Vec::new(alloc))) {
            Held::One(only) => {
                let mut items = Vec::with_capacity(alloc, 2)?;
                items.push_reserved(only);
                Ok(items)
            }
            Held::Listed(items) => Ok(items),
        }
    }

    /// Removes all segments, without allocating memory. Keeps the memory of the list's vector for
    /// later segments, or frees it if it has capacity for more than four ([`MOST_SPARE`]). `alloc`
    /// is the allocator for later segments.
    #[inline(never)]
    pub(crate) fn clear(&mut self, alloc: Global)
        ensures { self.new ≡ [] }
    {
        // It is out of line, since few routes have an empty path.
        match &mut self.held {
            Held::One(_) => self.held = Held::Listed(Vec::new(alloc)),
            Held::Listed(items) => {
                items.clear();
                shrink_if_much_spare(items);
            }
        }
    }
}

// Written by hand, so that a function that drops a path has a call, and no case for each variant.
impl Drop for Segments {
    #[inline]
    fn drop(self) {
        let Segments { held: _held } = self;
    }
}

impl Clone for Segments {
    ghost is_clone = { λ segments copy. copy ≡ segments };

    fn clone(&self) -> Result<Segments, AllocError> {
        let items = match &self.held {
            Held::One(only) => return Ok(Segments::of_one(only.clone()?)),
            Held::Listed(items) => items,
        };
        if let [only] = items.as_slice() {
            return Ok(Segments::of_one(only.clone()?));
        }
        Ok(Segments::of_list(items.clone()?))
    }
}

/// Shrinks the capacity of `segments` to the number of its elements. If memory allocation fails,
/// leaves it as it is; that isn't an error.
#[inline(never)]
fn shrink(segments: &mut Vec<Segment>)
    ensures { segments.new.items ≡ segments.old.items }
{
    // It is out of line, since few paths have much spare capacity.
    segments.shrink_to_fit();
}

/// Shrinks the capacity of `segments` to the number of its elements if it has spare capacity for
/// more than four ([`MOST_SPARE`]). If memory allocation fails, leaves it as it is; that isn't an
/// error.
#[inline(always)]
pub(crate) fn shrink_if_much_spare(segments: &mut Vec<Segment>)
    ensures { segments.new.items ≡ segments.old.items }
{
    if segments.capacity() - segments.len() > MOST_SPARE {
        shrink(segments);
    }
}
