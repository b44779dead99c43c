//! Shrinks lists whose capacity is far more than their length. Each call of
//! [`Player::play`](crate::Player::play) shrinks the list of steps, and those of stores and of seen
//! numbers, with the bounds below, so that memory follows a table that gets smaller.

ghost use Rattle.std.specs.Prelude.{◌≡◌};

/// The largest factor by which the capacity of a list may exceed its length. A list is shrunk if
/// its capacity divided by this factor, rounded down, is above its length.
pub(crate) const MOST_TIMES: usize = 4;

/// The length, in elements, that is assumed for shorter lists when their capacity is judged: lists
/// of up to so many elements may have capacity for [`MOST_TIMES`] times as many.
pub(crate) const LEAST_ROOM: usize = 1024;

/// Shrinks the capacity of `list` if it is far too large for the elements, which stay. What they
/// need is taken as their number, or as [`LEAST_ROOM`] if that is more. If the capacity divided by
/// [`MOST_TIMES`], rounded down, is above this number, it is shrunk to it. Does nothing if memory
/// allocation for the smaller block fails.
pub(crate) fn shrink_if_oversized<T>(list: &mut Vec<T>)
    ensures { list.new.items ≡ list.old.items }
{
    let kept = list.len().max(LEAST_ROOM);
    if list.capacity() / MOST_TIMES > kept {
        list.shrink_to(kept);
    }
}
