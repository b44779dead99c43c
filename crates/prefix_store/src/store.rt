//! The interface of a store of routes by prefix. `rib_store` implements it, and `rib_player`, which
//! applies BGP events to routing tables, calls it. Read [`PrefixStore`], then [`PrefixStore::put`].

ghost use Rattle.std.specs.Prelude.{◌≡◌, ◌≤◌, true, false, not, Option, None, slice_get, take, vec_capacity, IfOk, OnOk, OnErr, option_map, option_copied};
ghost use Rattle.std.specs.FinMap as finite;
ghost use Rattle.std.specs.FinSet as set;
ghost use Rattle.prefix_store.specs.Stored.{Keys, Routes, put, saturated_count, ContainsDomain};
ghost use Rattle.prefix_store.specs.Lookups.{IsLongestMatch, above, dereferenced};

use crate::prefetch_batch::PrefetchBatch;
use ip_prefix::{Addr, Prefix};
use std::alloc::{AllocError, Global};

/// The number that stands for all counts of keys or of routes that are as great or greater:
/// `u64::MAX`.
pub const GREATEST_COUNT: u64 = u64::MAX;

/// A store of routes by prefix: a set of prefixes, the keys, with a route of type `R` at some of
/// them.
///
/// Only [`PrefixStore::ensure`] and [`PrefixStore::put`] may allocate memory. A key has memory for
/// a route until it is discarded, so that routes are put there and taken without allocation, which
/// can't fail.
pub trait PrefixStore<R: Drop>: Sized + Drop {
    /// The keys: the prefixes that have memory for a route.
    ghost keys: { Self → Keys };

    /// The routes by prefix: some of the keys have one.
    ghost routes: { Self → Routes R };

    /// Returns a store without keys and routes. Allocates no memory.
    fn new(alloc: Global) -> Self
        ensures keys { keys result ≡ set.empty }
        ensures routes { routes result ≡ finite.empty };

    /// Makes `prefix` a key, a prefix with memory for a route, if it isn't one, and leaves all
    /// routes as they are: a new key has none. Returns `true` if `prefix` wasn't a key before, and
    /// `false` if nothing changed. Fails if memory allocation fails, which happens for new keys
    /// only; the store is unchanged then.
    fn ensure(&mut self, prefix: Prefix) -> Result<bool, AllocError>
        ensures keys { OnOk result (keys self.new ≡ set.insert (keys self.old) prefix) }
        ensures made { IfOk result (λ made. made ≡ not (set.contains (keys self.old) prefix)) }
        ensures routes { routes self.new ≡ routes self.old }
        ensures refused { OnErr result (keys self.new ≡ keys self.old) }
        ensures known { OnErr result (set.contains (keys self.old) prefix ≡ false) };

    /// Swaps the route at `prefix` and `route`, either of which may be `None`: `route` holds the
    /// old route afterwards. The routes at other prefixes stay. Requires that `prefix` is a key: a
    /// prefix that [`PrefixStore::ensure`] or [`PrefixStore::put`] gave memory for a route. Allocates
    /// no memory.
    fn exchange(&mut self, prefix: &Prefix, route: &mut Option<R>)
        requires { set.contains (keys self.old) prefix.now ≡ true }
        ensures keys { keys self.new ≡ keys self.old }
        ensures routes { routes self.new ≡ put (routes self.old) prefix.now route.old }
        ensures taken_out { route.new ≡ finite.get (routes self.old) prefix.now };

    /// Swaps the route at `prefix` and `route`, either of which may be `None`: `route` holds the
    /// old route afterwards. Makes `prefix` a key, a prefix with memory for a route, and returns
    /// `true` if it wasn't one before. Fails if memory allocation fails, which happens for new keys
    /// only; the store and `route` are unchanged then.
    fn put(&mut self, prefix: &Prefix, route: &mut Option<R>) -> Result<bool, AllocError>
        ensures keys { OnOk result (keys self.new ≡ set.insert (keys self.old) prefix.now) }
        ensures made { IfOk result (λ made. made ≡ not (set.contains (keys self.old) prefix.now)) }
        ensures routes { OnOk result (routes self.new ≡
            put (routes self.old) prefix.now route.old) }
        ensures taken_out { OnOk result (route.new ≡ finite.get (routes self.old) prefix.now) }
        ensures refused { OnErr result (keys self.new ≡ keys self.old) }
        ensures held { OnErr result (routes self.new ≡ routes self.old) }
        ensures kept { OnErr result (route.new ≡ route.old) }
        ensures known { OnErr result (set.contains (keys self.old) prefix.now ≡ false) }
    {
        let made = self.ensure(*prefix)?;
        self.exchange(prefix, route);
        Ok(made)
    }

    /// Removes `prefix` from the keys, the prefixes with memory for a route. Requires that it is a
    /// key, and that it has no route.
    fn discard(&mut self, prefix: &Prefix)
        requires key { set.contains (keys self.old) prefix.now ≡ true }
        requires free { finite.get (routes self.old) prefix.now ≡ None }
        ensures keys { keys self.new ≡ set.remove (keys self.old) prefix.now }
        ensures routes { routes self.new ≡ routes self.old };

    /// Returns `true` if `prefix` is a key: a prefix that has memory for a route in the store,
    /// whether it has a route or not.
    fn has_key(&self, prefix: &Prefix) -> bool
        ensures { result ≡ set.contains (keys self.now) prefix.now };

    /// Returns the route at `prefix` itself. Returns `None` if there is none: `prefix` is a key (a
    /// prefix with memory for a route) without a route, or isn't a key.
    fn get(&self, prefix: &Prefix) -> Option<&R>
        ensures { option_copied result ≡ finite.get (routes self.now) prefix.now };

    /// Returns the longest prefix that has a route and contains `addr`, with its route. Returns
    /// `None` if no prefix with a route contains it. By this route a router forwards (RFC 1812,
    /// section 5.2.4.3).
    fn longest(&self, addr: &Addr) -> Option<(Prefix, &R)>
        ensures { IsLongestMatch (routes self.now) addr.now
            (option_map (λ p. (p.0, p.1.now)) result) };

    /// Returns the least prefix greater than `prefix` that has a route, with its route, or the
    /// least of all with a route if `prefix` is `None`. Returns `None` if there is no such prefix.
    /// Prefixes are ordered by family (IPv4 first), address and length. `prefix` needn't be in the
    /// store, so a walk over all routes needs no state but the last prefix.
    fn after(&self, prefix: Option<&Prefix>) -> Option<(Prefix, &R)>
        ensures { option_map (λ p. (p.0, p.1.now)) result ≡
            slice_get (above (option_copied prefix.entry) (finite.entries (routes self.now))) 0 };

    /// Replaces the elements of `found` by the next prefixes after `prefix` that have a route, each
    /// with its route, in ascending order (by family, IPv4 first, then address and length). If
    /// `prefix` is `None`, starts at the least prefix that has a route. `prefix` needn't be in the
    /// store. Fills `found` up to its capacity; if it isn't full then, there are no more routes.
    /// Allocates no memory.
    fn next_routes<'a>(&'a self, prefix: Option<&Prefix>, found: &mut Vec<(Prefix, &'a R)>)
        ensures found { dereferenced found.new.items ≡ take (vec_capacity found.old)
            (above (option_copied prefix.entry) (finite.entries (routes self.now))) }
        ensures room { vec_capacity found.new ≡ vec_capacity found.old }
    {
        found.clear();
        let mut last = prefix.copied();
        'routes: while found.len() < found.capacity() {
            let Some(next) = self.after(last.as_ref()) else {
                break;
            };
            last = Some(next.0);
            found.push_reserved(next);
        }
    }

    /// Moves all routes out of the store into `taken`, in ascending order of their prefixes. The
    /// elements that `taken` had are dropped. The keys (the prefixes with memory for a route) stay,
    /// without routes. Requires that the capacity of `taken` is at least the number of routes.
    /// Allocates no memory.
    fn drain_routes(&mut self, taken: &mut Vec<R>)
        requires { finite.len (routes self.old) ≤ vec_capacity taken.old }
        ensures keys { keys self.new ≡ keys self.old }
        ensures routes { routes self.new ≡ finite.empty }
        ensures taken { taken.new.items ≡ finite.values (routes self.old) }
    {
        taken.clear();
        if self.key_count() == 0 {
            return;
        }
        let mut last = None;
        'routes: while let Some(next) = self.after(last.as_ref()) {
            let prefix = next.0;
            let mut route = None;
            self.exchange(&prefix, &mut route);
            if let Some(route) = route {
                taken.push_reserved(route);
            }
            last = Some(prefix);
        }
    }

    /// Reads the memory that later calls for the prefixes of the batch will read, for all prefixes
    /// at once, so that it is in the processor's cache then. Changes nothing. Returns a number
    /// without meaning that depends on what was read; a caller that uses it keeps the compiler from
    /// removing the reads. The provided method reads nothing and returns 0.
    fn prefetch(_batch: &PrefetchBatch<'_, Self>) -> u64 {
        0
    }

    /// Returns `true` if dropping a store of this type doesn't free its memory, which the operating
    /// system takes when the program ends. A program that ends then needn't free what else it holds
    /// either. Returns `false` if dropping frees it, as the provided method does.
    fn leaks_on_drop() -> bool {
        false
    }

    /// Returns the number of keys (prefixes with memory for a route, whether they have one or not),
    /// or `u64::MAX` if there are more.
    fn key_count(&self) -> u64
        ensures count { result ≡ saturated_count (set.len (keys self.now)) }
        ensures among { ContainsDomain (keys self.now) (routes self.now) };

    /// Returns the number of prefixes that have a route, or `u64::MAX` if there are more.
    fn route_count(&self) -> u64
        ensures { result ≡ saturated_count (finite.len (routes self.now)) };
}
