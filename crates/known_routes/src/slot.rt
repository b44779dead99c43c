//! The slots of the hash table of `slots.rt`, which calls the searches here. A bucket has
//! four slots, and a hash has two buckets, in which its route may be. Each slot has a tag, an octet of
//! the hash of its route, which a search compares first. Read [`Slot`] first, then [`find_in_bucket`].

ghost use Rattle.std.specs.Prelude.{◌≡◌, true, IfSome};
ghost use Rattle.known_routes.specs.InternTable.{is_taken, is_tagged};

use mrt_events::{Route, route_size, same_route};
use std::rc::Rc;

/// The number of slots in a bucket of the hash table. A route may be in two buckets, so in
/// eight slots. With one more, a bucket would begin in one line of the cache and end in the next.
const SLOTS_PER_BUCKET: usize = 4;

/// The number of slots of a table before its first bucket of four slots; they have no
/// route. A large block begins 16 octets after the start of a page, the size of one slot, so that
/// each bucket is in one line of the cache. With one more, none would be.
const BEFORE_BUCKETS: usize = 3;

/// The factor by which a hash is multiplied to select the second of its two buckets of four
/// slots: the prime nearest to 2^32 divided by the golden ratio. An even factor would lose the
/// highest bit of the hash.
const SECOND_BUCKET: u32 = 0x9e37_79b1;

/// The number of bits of the hash of a route. With one more, only buckets of four slots of
/// the first half of a table would be taken.
const HASH_BITS: u32 = 32;

/// The tag (the octet for a slot that a search compares first) of a slot without a route. The
/// numbers above it are tags of slots with a route.
pub(crate) const FREE: u8 = 0;

/// A slot of the hash table of routes: either free, or with one route and its hash.
#[derive(Drop)]
pub(crate) enum Slot {
    /// No route.
    Free,
    /// The hash of a route, and the route.
    Taken(u32, Rc<Route>),
}

/// Returns `true` if the slot of the hash table has a route.
#[inline]
pub(crate) fn is_taken(slot: &Slot) -> bool
    ensures { result ≡ is_taken slot.now }
{
    matches!(slot, Slot::Taken(_, _))
}

/// Returns `true` if the slot has a route that nothing else owns: no other `Rc` shares it. Returns
/// `false` if it has none.
pub(crate) fn is_only_owner(slot: &Slot) -> bool {
    matches!(slot, Slot::Taken(_, route) if Rc::strong_count(route) == 1)
}

/// Returns the number of octets that the route of the slot takes ([`route_size`]), or 0 if it has
/// none.
pub(crate) fn route_size_at(slot: &Slot) -> u64 {
    match slot {
        Slot::Free => 0,
        Slot::Taken(_, route) => route_size(route),
    }
}

/// Returns the tag of a slot whose route has the hash `hash`: an octet that searches compare before
/// the whole hash. It is the lowest octet of the hash, or 1 if that is 0, so that it is never
/// [`FREE`], the tag of a slot without a route.
#[inline]
pub(crate) fn tag_of(hash: u32) -> u8
    ensures { is_tagged result ≡ true }
{
    // The lowest bits have the least influence on the bucket. Tags lie together, so that a search
    // mostly reads them alone.
    hash.to_le_bytes()[0].max(FREE + 1)
}

/// Returns `true` if the slot at the index `index` has the tag `tag`, and `false` if it has another
/// one, or if the index is out of bounds. `tags` has an octet for each slot: [`tag_of`] the hash of
/// its route, or [`FREE`] if it has none.
#[inline]
fn has_tag(tags: &[u8], index: usize, tag: u8) -> bool {
    tags.get(index).is_some_and(|other| *other == tag)
}

/// Returns the index of the first slot of the bucket of four slots that the hash `hash`
/// selects in a table of `count` slots. The index is out of bounds if the table has no slots.
#[inline]
fn bucket_start(hash: u32, count: usize) -> usize {
    let buckets = (count.saturating_sub(BEFORE_BUCKETS) / SLOTS_PER_BUCKET) as u64;
    let bucket = (u64::from(hash).wrapping_mul(buckets) >> HASH_BITS) as usize;
    bucket
        .wrapping_mul(SLOTS_PER_BUCKET)
        .wrapping_add(BEFORE_BUCKETS)
}

/// Returns the indices of the first slots of the two buckets of four slots in which a route
/// with the hash `hash` may be, in a table of `count` slots. They are out of bounds if the table
/// has no slots.
#[inline]
pub(crate) fn bucket_starts(hash: u32, count: usize) -> [usize; 2] {
    [
        bucket_start(hash, count),
        bucket_start(hash.wrapping_mul(SECOND_BUCKET), count),
    ]
}

/// Returns a route that equals `route`, whose hash is `hash`, and the index of its slot, from one
/// bucket of four slots, or `None` if the bucket has no such route or is out of bounds.
/// `start` is the index of the bucket's first slot. `tags` has an octet for each of `slots`:
/// [`tag_of`] the hash of its route, or [`FREE`] if it has none.
#[inline]
pub(crate) fn find_in_bucket<'a>(
    tags: &[u8],
    slots: &'a [Slot],
    start: usize,
    hash: u32,
    route: &Route,
) -> Option<(usize, &'a Rc<Route>)>
    ensures { IfSome result (λ found. found.1.now.value ≡ route.now) }
{
    let tag = tag_of(hash);
    'slots: for index in start..start.saturating_add(SLOTS_PER_BUCKET) {
        if has_tag(tags, index, tag) {
            if let Some(Slot::Taken(other, known)) = slots.get(index) {
                if *other == hash && same_route(known, route) {
                    return Some((index, known));
                }
            }
        }
    }
    None
}

/// Returns `true` if the last slot of a bucket of four slots is free, so that the bucket isn't
/// full, and `false` if it has a route or is out of bounds. `start` is the index of the bucket's first
/// slot. `tags` has an octet for each slot: [`tag_of`] the hash of its route, or [`FREE`] if it has
/// none.
#[inline]
pub(crate) fn ends_with_free_slot(tags: &[u8], start: usize) -> bool {
    has_tag(tags, start.saturating_add(SLOTS_PER_BUCKET - 1), FREE)
}

/// Returns the index of the first free slot of a bucket of four slots, or `None` if the bucket
/// is full or out of bounds. `start` is the index of the bucket's first slot. `tags` has an octet for
/// each slot: [`tag_of`] the hash of its route, or [`FREE`] if it has none.
#[inline]
fn find_free_in_bucket(tags: &[u8], start: usize) -> Option<usize> {
    (start..start.saturating_add(SLOTS_PER_BUCKET)).find(|index| has_tag(tags, *index, FREE))
}

/// Returns the index of the slot that a route with the hash `hash` is to be put into: the first
/// free one of its two buckets of four slots, or the first slot of its first bucket if both are
/// full. `tags` has an octet for each slot: [`tag_of`] the hash of its route, or [`FREE`] if it has
/// none. If it is empty, the index is out of bounds.
#[inline]
pub(crate) fn slot_for(tags: &[u8], hash: u32) -> usize {
    let [first, second] = bucket_starts(hash, tags.len());
    find_free_in_bucket(tags, first)
        .or_else(|| find_free_in_bucket(tags, second))
        .unwrap_or(first)
}

/// Returns the index of the slot that has `route`, an `Rc` of this very allocation ([`Rc::ptr_eq`])
/// and not one of an equal route, in one bucket of four slots. `start` is the index of the
/// bucket's first slot. Returns `None` if the bucket doesn't have it.
#[inline]
fn index_in_bucket(slots: &[Slot], start: usize, route: &Rc<Route>) -> Option<usize> {
    (start..start.saturating_add(SLOTS_PER_BUCKET)).find(|index| {
        matches!(slots.get(*index), Some(Slot::Taken(_, known)) if Rc::ptr_eq(known, route))
    })
}

/// Returns the index of the slot that has `route`: an `Rc` of this very allocation
/// ([`Rc::ptr_eq`]), not one of an equal route. Searches the two buckets of four slots of
/// `hash`, which is the hash of the route. Returns `None` if neither bucket has it.
pub(crate) fn index_of(slots: &[Slot], hash: u32, route: &Rc<Route>) -> Option<usize> {
    let [first, second] = bucket_starts(hash, slots.len());
    index_in_bucket(slots, first, route).or_else(|| index_in_bucket(slots, second, route))
}
