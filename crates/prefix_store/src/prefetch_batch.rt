//! Batches of eight prefixes whose nodes in stores are prefetched together: read before they are
//! needed, so that the processor waits for all of them at once. `rib_player` collects them and
//! passes them to [`PrefixStore::prefetch`](crate::PrefixStore::prefetch). Read [`PrefetchBatch`]
//! first.

use ip_prefix::Prefix;
use std::mem;

/// The number of prefixes of a full batch, whose memory is prefetched together. One more waits for
/// the next batch.
pub const PREFETCH_BATCH_LEN: u8 = 8;

/// One of the eight slots of a [`PrefetchBatch`]: nothing, or a prefix and the store whose memory
/// for this prefix is to be prefetched (read early, so that it is in the processor's cache).
#[derive(Drop)]
pub enum PrefetchTarget<'a, S> {
    /// A slot without a prefix.
    Unused,
    /// This prefix in this store, whose memory is to be prefetched.
    At(&'a S, Prefix),
}

/// A batch of up to eight prefixes, each with the store that it will be looked up in.
/// [`PrefixStore::prefetch`](crate::PrefixStore::prefetch) reads the memory for all of them
/// together beforehand. `first` has the prefix that was added last, `second` the one before, and so
/// on; the slots after the oldest prefix are `Unused`.
#[derive(Drop)]
pub struct PrefetchBatch<'a, S> {
    pub first: PrefetchTarget<'a, S>,
    pub second: PrefetchTarget<'a, S>,
    pub third: PrefetchTarget<'a, S>,
    pub fourth: PrefetchTarget<'a, S>,
    pub fifth: PrefetchTarget<'a, S>,
    pub sixth: PrefetchTarget<'a, S>,
    pub seventh: PrefetchTarget<'a, S>,
    pub eighth: PrefetchTarget<'a, S>,
    count: u8,
}

impl<'a, S> PrefetchBatch<'a, S> {
    /// Returns a batch without prefixes: all eight slots are `Unused`.
    pub fn new() -> Self {
        PrefetchBatch {
            first: PrefetchTarget::Unused,
            second: PrefetchTarget::Unused,
            third: PrefetchTarget::Unused,
            fourth: PrefetchTarget::Unused,
            fifth: PrefetchTarget::Unused,
            sixth: PrefetchTarget::Unused,
            seventh: PrefetchTarget::Unused,
            eighth: PrefetchTarget::Unused,
            count: 0,
        }
    }

    /// Adds `prefix`, whose memory in `store` is to be prefetched, as `first`, and moves the other
    /// prefixes on by one slot. Returns `true` if the batch is full then, with
    /// [`PREFETCH_BATCH_LEN`] prefixes, and `false` if it has room for more. Take a full batch out
    /// ([`PrefetchBatch::take_all`]) before the next call, which would drop its oldest prefix.
    pub fn add(&mut self, store: &'a S, prefix: Prefix) -> bool {
        let second = mem::replace(&mut self.first, PrefetchTarget::At(store, prefix));
        let third = mem::replace(&mut self.second, second);
        let fourth = mem::replace(&mut self.third, third);
        let fifth = mem::replace(&mut self.fourth, fourth);
        let sixth = mem::replace(&mut self.fifth, fifth);
        let seventh = mem::replace(&mut self.sixth, sixth);
        self.eighth = mem::replace(&mut self.seventh, seventh);
        self.count = self.count.wrapping_add(1);
        self.count >= PREFETCH_BATCH_LEN
    }

    /// Returns the batch with its prefixes, to be prefetched, and leaves an empty one in its place.
    pub fn take_all(&mut self) -> Self {
        mem::replace(self, PrefetchBatch::new())
    }
}
