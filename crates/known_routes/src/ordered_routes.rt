//! A sorted list of routes: the overflow of the hash table of `slots.rt`, for routes whose slots
//! are all taken. It is cut into runs, short sorted lists. A search takes logarithmic time, even if
//! all routes have one hash. Read [`OverflowRoutes`] first.

ghost use Rattle.std.specs.Prelude.{◌≡◌, ◌≤◌, ◌<◌, IfSome, length, vec_len};

use crate::route_order::compare_routes;
use mrt_events::{Route, route_size, same_route};
use std::alloc::{AllocError, Global};
use std::cmp::Ordering;
use std::rc::Rc;

/// The largest number of routes in a run, one of the short lists that the sorted list is cut into.
/// A full run is split into two before it takes one more.
const LONGEST_RUN: usize = 64;

/// The largest number of routes in the sorted list, the overflow of the hash table. Each further
/// one is put into a slot of the hash table in place of the route that is there, which isn't found
/// any more.
const MOST_ORDERED: usize = 1 << 22;

/// The largest ratio of the capacity of a vector to its length after routes were removed. A vector
/// whose capacity divided by it, rounded down, is above the length is moved to a smaller block.
const MOST_TIMES: usize = 4;

/// A route with its 32-bit hash ([`hash_route`](crate::route_hash)), so that comparisons begin with
/// the hash.
#[derive(Drop)]
pub(crate) struct HashedRoute {
    pub(crate) hash: u32,
    pub(crate) route: Rc<Route>,
}

/// A sorted list of the routes that found no free slot in the hash table: in ascending order of
/// their hashes and, for equal hashes, of [`compare_routes`]. It is cut into runs, sorted lists of
/// at most [`LONGEST_RUN`] routes each.
#[derive(Drop)]
pub(crate) struct OverflowRoutes {
    // A search halves first the runs and then one run, and a route that comes or goes moves one run
    // alone.
    /// The runs (sorted lists of at most [`LONGEST_RUN`] routes), in order. None is empty, unless
    /// memory allocation failed.
    pub(crate) runs: Vec<Vec<HashedRoute>>,
    /// The number of routes in all runs together, at most [`MOST_ORDERED`].
    pub(crate) count: usize,
}

impl HashedRoute {
    /// Compares this route with `route`, whose hash is `hash`: by hash, and if those are equal by
    /// [`compare_routes`], an arbitrary total order.
    #[inline]
    fn compare_to(&self, hash: u32, route: &Route) -> Ordering {
        if self.hash != hash {
            return self.hash.cmp(&hash);
        }
        compare_routes(&self.route, route)
    }

    /// Returns `true` if nothing else owns the route: no other `Rc` shares it.
    fn is_only_owner(&self) -> bool {
        Rc::strong_count(&self.route) == 1
    }
}

/// Returns the index in `run` of the first route that isn't less than `route`, or the length of
/// `run` if all are less. `hash` is the hash of `route`. `run` is sorted by hash and then by
/// [`compare_routes`].
fn insertion_index(run: &[HashedRoute], hash: u32, route: &Route) -> usize
    ensures { result ≤ length run.now }
{
    run.partition_point(|hashed| hashed.compare_to(hash, route) == Ordering::Less)
}

/// Returns `true` if the first route of `run` is greater than `route`, by hash and then by
/// [`compare_routes`]. Returns `false` if it isn't, or if `run` is empty. `hash` is the hash of
/// `route`.
#[inline]
fn starts_after(run: &[HashedRoute], hash: u32, route: &Route) -> bool {
    match run.first() {
        Some(first) => first.compare_to(hash, route) == Ordering::Greater,
        None => false,
    }
}

/// Shrinks the capacity of the vector to its length if the capacity, divided by [`MOST_TIMES`] and
/// rounded down, is greater than the length. If memory allocation for the smaller block fails, the
/// vector is unchanged.
fn shrink_if_oversized<T: Drop>(list: &mut Vec<T>)
    ensures { list.new.items ≡ list.old.items }
{
    if list.capacity() / MOST_TIMES > list.len() {
        list.shrink_to_fit();
    }
}

/// Removes the routes of `run` that nothing else owns (no other `Rc` shares them), and returns the
/// number of octets that they took ([`route_size`]), or 0 if there were none. The others stay in
/// order, but move to a smaller block of memory if [`shrink_if_oversized`] finds `run` too large.
fn remove_unshared_from(run: &mut Vec<HashedRoute>) -> u64 {
    let mut octets = 0u64;
    'routes: for hashed in run.iter() {
        if hashed.is_only_owner() {
            octets = octets.saturating_add(route_size(&hashed.route));
        }
    }
    if octets > 0 {
        run.retain(|hashed| !hashed.is_only_owner());
        shrink_if_oversized(run);
    }
    octets
}

/// Removes the second half of `run`, the larger one if its length is odd, and returns it, in order.
/// Fails if memory allocation fails; `run` is unchanged then.
fn split_off_half(
    alloc: Global,
    run: &mut Vec<HashedRoute>,
) -> Result<Vec<HashedRoute>, AllocError> {
    let kept = run.len() / 2;
    let mut half = Vec::with_capacity(alloc, run.len() - kept)?;
    'routes: for _ in kept..run.len() {
        if let Some(hashed) = run.pop() {
            half.push(hashed)?;
        }
    }
    half.reverse();
    Ok(half)
}

impl OverflowRoutes {
    /// Returns a list without routes. Allocates no memory.
    pub(crate) fn empty(alloc: Global) -> OverflowRoutes {
        OverflowRoutes {
            runs: Vec::new(alloc),
            count: 0,
        }
    }

    /// Returns `true` if the list has as many routes as it may have ([`MOST_ORDERED`]), so that the
    /// caller is to add none.
    pub(crate) fn is_full(&self) -> bool {
        self.count >= MOST_ORDERED
    }

    /// Returns the index in `runs` of the run (a sorted list of routes) that `route` is in or would
    /// be inserted into: the last one whose first route isn't greater than `route`, or 0 if there
    /// is none. `hash` is the hash of `route`.
    fn find_run(&self, hash: u32, route: &Route) -> usize {
        self.runs
            .partition_point(|run| !starts_after(run, hash, route))
            .saturating_sub(1)
    }

    /// Returns a route of the list that equals `route`, or `None` if there is none. `hash` is the
    /// hash of `route` by [`hash_of`](crate::route_hash::hash_of); with another number the route
    /// may not be found.
    pub(crate) fn find_route(&self, hash: u32, route: &Route) -> Option<&Rc<Route>>
        ensures { IfSome result (λ known. known.now.value ≡ route.now) }
    {
        let run = self.runs.get(self.find_run(hash, route))?;
        let hashed = run.get(insertion_index(run, hash, route))?;
        if hashed.hash == hash && same_route(&hashed.route, route) {
            return Some(&hashed.route);
        }
        None
    }

    /// Splits the run (a sorted list of routes) whose index in `runs` is `index` into two halves.
    /// The second half follows the first in `runs`. Fails if memory allocation fails; the runs are
    /// unchanged then.
    fn split_run(&mut self, index: usize) -> Result<(), AllocError>
        requires { index < vec_len self.old.runs }
    {
        self.runs.reserve(1)?;
        let half = split_off_half(*self.runs.allocator(), &mut self.runs[index])?;
        self.runs.insert(index + 1, half)?;
        Ok(())
    }

    /// Returns the index in `runs` of the run (a sorted list of routes) that `route`, whose hash is
    /// `hash`, is to be inserted into, or 0 if there are no runs. If that run has [`LONGEST_RUN`]
    /// routes, splits it into two first. Fails if memory allocation fails; the runs are unchanged
    /// then.
    fn find_run_with_room(&mut self, hash: u32, route: &Route) -> Result<usize, AllocError> {
        let index = self.find_run(hash, route);
        if index >= self.runs.len() || self.runs[index].len() < LONGEST_RUN {
            return Ok(index);
        }
        self.split_run(index)?;
        Ok(self.find_run(hash, route))
    }

    /// Inserts `route`, whose hash is `hash`, so that the list stays sorted by hash and then by
    /// [`compare_routes`]. Fails if memory allocation fails; `route` is dropped then, and the
    /// others stay.
    pub(crate) fn insert_route(&mut self, hash: u32, route: Rc<Route>) -> Result<(), AllocError> {
        if self.runs.is_empty() {
            let first = Vec::new(*self.runs.allocator());
            self.runs.push(first)?;
        }
        let index = self.find_run_with_room(hash, &route)?;
        if let Some(run) = self.runs.get_mut(index) {
            let position = insertion_index(run, hash, &route);
            run.insert(position, HashedRoute { hash, route })?;
            self.count = self.count.saturating_add(1);
        }
        Ok(())
    }

    /// Removes `route`, whose hash is `hash`: an `Rc` of this very allocation ([`Rc::ptr_eq`]), not
    /// one of an equal route. Returns `true` if it was found, and `false` if the list is unchanged.
    pub(crate) fn remove_route(&mut self, hash: u32, route: &Rc<Route>) -> bool {
        let index = self.find_run(hash, route);
        if index >= self.runs.len() {
            return false;
        }
        let run = &mut self.runs[index];
        let position = insertion_index(run, hash, route);
        if position >= run.len() || !Rc::ptr_eq(&run[position].route, route) {
            return false;
        }
        let _gone = run.remove(position);
        shrink_if_oversized(run);
        if run.is_empty() {
            let _run = self.runs.remove(index);
            shrink_if_oversized(&mut self.runs);
        }
        self.count = self.count.saturating_sub(1);
        true
    }

    /// Removes the routes that have no owner (`Rc`) but this list, and returns the number of octets
    /// that they took ([`route_size`]). The list is kept in runs, each a vector of routes in order;
    /// a run that lost routes, and the vector of runs, give up memory as [`shrink_if_oversized`]
    /// does.
    pub(crate) fn remove_unshared(&mut self) -> u64 {
        let mut octets = 0u64;
        let mut count = 0usize;
        'runs: for run in self.runs.iter_mut() {
            octets = octets.saturating_add(remove_unshared_from(run));
            count = count.saturating_add(run.len());
        }
        self.count = count;
        self.runs.retain(|run| !run.is_empty());
        shrink_if_oversized(&mut self.runs);
        octets
    }
}
