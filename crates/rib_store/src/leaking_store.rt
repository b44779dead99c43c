//! A wrapper of a store of routes that frees no memory when it is dropped. The program `bgpdump`
//! keeps its routing tables in such stores, since it ends soon after it drops them, and the
//! operating system takes the memory then. Read [`LeakingStore`] first.

ghost use Rattle.std.specs.Prelude.{◌≡◌};
ghost use Rattle.std.specs.Mem.{manually_drop_value};

use ip_prefix::{Addr, Prefix};
use prefix_store::{PrefetchBatch, PrefetchTarget, PrefixStore};
use std::alloc::{AllocError, Global};
use std::mem::ManuallyDrop;

/// A store of routes by prefix that does what the wrapped store `S` does, but whose memory isn't
/// freed when it is dropped: the operating system takes it when the program ends. So a program that
/// ends soon saves the time to free it. In another program, dropping the store leaks its memory and
/// that of the routes in it.
#[derive(Drop)]
pub struct LeakingStore<S> {
    store: ManuallyDrop<S>,
}

impl<R: Drop, S: PrefixStore<R>> PrefixStore<R> for LeakingStore<S> {
    ghost keys = { λ s. S.keys (manually_drop_value s.store) };

    ghost routes = { λ s. S.routes (manually_drop_value s.store) };

    fn new(alloc: Global) -> Self {
        LeakingStore {
            store: ManuallyDrop::new(S::new(alloc)),
        }
    }

    fn ensure(&mut self, prefix: Prefix) -> Result<bool, AllocError> {
        self.store.ensure(prefix)
    }

    fn exchange(&mut self, prefix: &Prefix, route: &mut Option<R>) {
        self.store.exchange(prefix, route);
    }

    fn put(&mut self, prefix: &Prefix, route: &mut Option<R>) -> Result<bool, AllocError> {
        self.store.put(prefix, route)
    }

    fn discard(&mut self, prefix: &Prefix) {
        self.store.discard(prefix);
    }

    fn has_key(&self, prefix: &Prefix) -> bool {
        self.store.has_key(prefix)
    }

    fn get(&self, prefix: &Prefix) -> Option<&R> {
        self.store.get(prefix)
    }

    fn longest(&self, addr: &Addr) -> Option<(Prefix, &R)> {
        self.store.longest(addr)
    }

    fn after(&self, prefix: Option<&Prefix>) -> Option<(Prefix, &R)> {
        self.store.after(prefix)
    }

    fn next_routes<'a>(&'a self, prefix: Option<&Prefix>, found: &mut Vec<(Prefix, &'a R)>) {
        self.store.next_routes(prefix, found);
    }

    fn drain_routes(&mut self, taken: &mut Vec<R>) {
        self.store.drain_routes(taken);
    }

    fn prefetch(batch: &PrefetchBatch<'_, Self>) -> u64 {
        let mut inner = PrefetchBatch::new();
        inner.first = inner_target(&batch.first);
        inner.second = inner_target(&batch.second);
        inner.third = inner_target(&batch.third);
        inner.fourth = inner_target(&batch.fourth);
        inner.fifth = inner_target(&batch.fifth);
        inner.sixth = inner_target(&batch.sixth);
        inner.seventh = inner_target(&batch.seventh);
        inner.eighth = inner_target(&batch.eighth);
        S::prefetch(&inner)
    }

    fn leaks_on_drop() -> bool {
        true
    }

    fn key_count(&self) -> u64 {
        self.store.key_count()
    }

    fn route_count(&self) -> u64 {
        self.store.route_count()
    }
}

/// Converts a prefetch target (a store and a prefix whose memory there is to be read in advance) to
/// one for the wrapped store, with the prefix of `place` and the store inside its [`LeakingStore`].
/// `Unused`, an empty target, stays `Unused`.
fn inner_target<'a, S>(place: &PrefetchTarget<'a, LeakingStore<S>>) -> PrefetchTarget<'a, S> {
    match place {
        PrefetchTarget::Unused => PrefetchTarget::Unused,
        PrefetchTarget::At(left, prefix) => PrefetchTarget::At(&left.store, *prefix),
    }
}
