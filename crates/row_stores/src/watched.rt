//! A store that is watched: it makes as many new keys as it may, and counts what is asked of it.

use crate::nodes::HasNodes;
use ip_prefix::{Addr, Prefix};
use mrt_events::Route;
use rib_store::{PrefetchBatch, PrefetchTarget, PrefixStore};
use std::alloc::{AllocError, Global};
use std::cell::Cell;
use std::rc::Rc;

/// What is seen of a store from outside.
pub trait IsWatched {
    /// From here on it makes so many new keys, and requests for keys are counted anew.
    fn allow(&self, keys: u64);

    /// From here on what is asked of it is counted anew.
    fn count_anew(&self);

    /// How many calls there were since then, but for `prefetch`.
    fn calls(&self) -> u64;

    /// How many of them asked for a key, new or not.
    fn requests(&self) -> u64;

    /// How many prefixes were reached.
    fn prefetched(&self) -> u64;

    /// How many nodes it has, where it has any.
    fn node_count(&self) -> Option<u64>;
}

/// A store that makes as many new keys as it was allowed to, at first any, and none of an IPv4 prefix
/// whose address begins with 66.
#[derive(Drop)]
pub struct Watched<S> {
    inner: S,
    left: Cell<u64>,
    calls: Cell<u64>,
    requests: Cell<u64>,
    prefetched: Cell<u64>,
}

impl<S: HasNodes> IsWatched for Watched<S> {
    fn allow(&self, keys: u64) {
        self.left.set(keys);
        self.requests.set(0);
    }

    fn count_anew(&self) {
        self.calls.set(0);
        self.requests.set(0);
        self.prefetched.set(0);
    }

    fn calls(&self) -> u64 {
        self.calls.get()
    }

    fn requests(&self) -> u64 {
        self.requests.get()
    }

    fn prefetched(&self) -> u64 {
        self.prefetched.get()
    }

    fn node_count(&self) -> Option<u64> {
        self.inner.node_count()
    }
}

/// One more.
fn count(cell: &Cell<u64>) {
    cell.set(cell.get().saturating_add(1));
}

/// Whether no key is made of a prefix.
fn is_refused(prefix: &Prefix) -> bool {
    let least = Addr::v4([66, 0, 0, 0]);
    let greatest = Addr::v4([66, 255, 255, 255]);
    let addr = prefix.addr();
    least <= addr && addr <= greatest
}

impl<S> Watched<S> {
    /// Counts that a new key is made, and answers whether it may be.
    fn may_make(&self, prefix: &Prefix) -> bool {
        match self.left.get().checked_sub(1) {
            Some(left) if !is_refused(prefix) => {
                self.left.set(left);
                true
            }
            _ => false,
        }
    }
}

impl<S: PrefixStore<Rc<Route>>> PrefixStore<Rc<Route>> for Watched<S> {
    ghost keys = { λ s. S.keys s.inner };

    ghost routes = { λ s. S.routes s.inner };

    fn new(alloc: Global) -> Self {
        Watched {
            inner: S::new(alloc),
            left: Cell::new(u64::MAX),
            calls: Cell::new(0),
            requests: Cell::new(0),
            prefetched: Cell::new(0),
        }
    }

    fn ensure(&mut self, prefix: Prefix) -> Result<bool, AllocError> {
        count(&self.calls);
        count(&self.requests);
        if !self.inner.has_key(&prefix) && !self.may_make(&prefix) {
            return Err(AllocError);
        }
        self.inner.ensure(prefix)
    }

    fn exchange(&mut self, prefix: &Prefix, route: &mut Option<Rc<Route>>) {
        count(&self.calls);
        self.inner.exchange(prefix, route);
    }

    fn put(&mut self, prefix: &Prefix, route: &mut Option<Rc<Route>>) -> Result<bool, AllocError> {
        count(&self.calls);
        count(&self.requests);
        if !self.inner.has_key(prefix) && !self.may_make(prefix) {
            return Err(AllocError);
        }
        self.inner.put(prefix, route)
    }

    fn discard(&mut self, prefix: &Prefix) {
        count(&self.calls);
        self.inner.discard(prefix);
    }

    fn has_key(&self, prefix: &Prefix) -> bool {
        count(&self.calls);
        self.inner.has_key(prefix)
    }

    fn get(&self, prefix: &Prefix) -> Option<&Rc<Route>> {
        count(&self.calls);
        self.inner.get(prefix)
    }

    fn longest(&self, addr: &Addr) -> Option<(Prefix, &Rc<Route>)> {
        count(&self.calls);
        self.inner.longest(addr)
    }

    fn after(&self, prefix: Option<&Prefix>) -> Option<(Prefix, &Rc<Route>)> {
        count(&self.calls);
        self.inner.after(prefix)
    }

    fn next_routes<'a>(
        &'a self,
        prefix: Option<&Prefix>,
        found: &mut Vec<(Prefix, &'a Rc<Route>)>,
    ) {
        count(&self.calls);
        self.inner.next_routes(prefix, found);
    }

    fn drain_routes(&mut self, taken: &mut Vec<Rc<Route>>) {
        count(&self.calls);
        self.inner.drain_routes(taken);
    }

    fn prefetch(batch: &PrefetchBatch<'_, Self>) -> u64 {
        let mut inner = PrefetchBatch::new();
        inner.first = counted_target(&batch.first);
        inner.second = counted_target(&batch.second);
        inner.third = counted_target(&batch.third);
        inner.fourth = counted_target(&batch.fourth);
        inner.fifth = counted_target(&batch.fifth);
        inner.sixth = counted_target(&batch.sixth);
        inner.seventh = counted_target(&batch.seventh);
        inner.eighth = counted_target(&batch.eighth);
        S::prefetch(&inner)
    }

    fn key_count(&self) -> u64 {
        count(&self.calls);
        self.inner.key_count()
    }

    fn route_count(&self) -> u64 {
        count(&self.calls);
        self.inner.route_count()
    }
}

/// The place in the store that is watched, which is counted.
fn counted_target<'a, S>(place: &PrefetchTarget<'a, Watched<S>>) -> PrefetchTarget<'a, S> {
    match place {
        PrefetchTarget::Unused => PrefetchTarget::Unused,
        PrefetchTarget::At(watched, prefix) => {
            count(&watched.prefetched);
            PrefetchTarget::At(&watched.inner, *prefix)
        }
    }
}
