//! A sparse set: the numbers below a bound in a list in which the members come first, so that they
//! are listed without a look at the others. `stores.rt` has one of the indices of the stores that
//! have a route. Read [`SparseSet`] first.

ghost use Rattle.std.specs.Prelude.{◌≡◌, ◌<◌, ◌≤◌, ◌++◌, ◌∷◌, ℕ, [], false, not, Some, length, OnOk, slice_get, vec_len, vec_capacity};
ghost use Rattle.rib_player.specs.Indices.{AreInverse, IsSetAt, IsSwapRemoved, ContainsEachChosen, swapped_index};
ghost use Rattle.std.proofs.Props.{props};

use crate::spare_capacity::shrink_if_oversized;
use std::alloc::{AllocError, Global};

/// A set of numbers below a bound, the least number that can't be a member. Making a number a
/// member, or no member, takes constant time and no memory ([`SparseSet::set_member`]); listing the
/// members takes no time for the others. [`SparseSet::raise_bound`] raises the bound by one,
/// without a new member. [`SparseSet::remove`] lowers it by one: the greatest number below it is
/// renamed to the removed one, as [`Vec::swap_remove`] does with indices.
#[derive(Drop)]
pub(crate) struct SparseSet {
    /// All numbers below the bound, the members first.
    numbers: Vec<usize>,
    /// For each number below the bound, its index in `numbers`.
    places: Vec<usize>,
    /// The number of members.
    count: usize,
    ghost inverse: { AreInverse numbers.items places.items } by { Prim.hlevel props },
    ghost within: { count ≤ vec_len numbers },
}

/// Swaps the elements of `numbers` at the indices `one` and `other`, and adjusts `places`. Requires
/// that `places` is the inverse of `numbers` (`places[numbers[i]] == i`), as it is afterwards, and
/// that both indices are in range; they may be equal.
fn swap_numbers(numbers: &mut Vec<usize>, places: &mut Vec<usize>, one: usize, other: usize)
    requires inverse { AreInverse numbers.old.items places.old.items }
    requires one { one < vec_len numbers.old }
    requires other { other < vec_len numbers.old }
    ensures inverse { AreInverse numbers.new.items places.new.items }
    ensures numbers { (n : ℕ) → slice_get numbers.new.items (swapped_index one other n)
        ≡ slice_get numbers.old.items n }
    ensures numbers_len { vec_len numbers.new ≡ vec_len numbers.old }
    ensures places_len { vec_len places.new ≡ vec_len places.old }
{
    let first = numbers[one];
    let second = numbers[other];
    numbers[one] = second;
    numbers[other] = first;
    places[second] = one;
    places[first] = other;
}

impl SparseSet {
    ghost use Rattle.rib_player.specs.SparseSet.{HasRoom, choices};

    /// Returns a set without members, without allocating. Its bound, the least number that can't be
    /// a member, is 0.
    pub(crate) fn new(alloc: Global) -> SparseSet
        ensures { choices result ≡ [] }
    {
        SparseSet {
            numbers: Vec::new(alloc),
            places: Vec::new(alloc),
            count: 0,
        }
    }

    /// Reserves capacity for one call of [`SparseSet::raise_bound`], which raises the set's bound
    /// by one. Fails if memory allocation fails; bound and members are unchanged then.
    pub(crate) fn reserve(&mut self) -> Result<(), AllocError>
        ensures room { OnOk result (HasRoom self.new) }
        ensures kept { choices self.new ≡ choices self.old }
    {
        self.numbers.reserve(1)?;
        self.places.reserve(1)
    }

    /// Raises the set's bound, the least number that can't be a member, by one. The number that may
    /// be a member from now on, the bound before, isn't one yet. Requires that there is capacity
    /// for it, as [`SparseSet::reserve`] makes it, so that this can't fail.
    pub(crate) fn raise_bound(&mut self)
        requires { HasRoom self.old }
        ensures { choices self.new ≡ choices self.old ++ false ∷ [] }
    {
        let number = self.numbers.len();
        self.numbers.push_reserved(number);
        self.places.push_reserved(number);
    }

    /// Makes `number` a member of the set if `is` is `true`, or no member if it is `false`; does
    /// nothing if it is so already. Requires that `number` is below the set's bound. Allocates no
    /// memory.
    #[inline]
    pub(crate) fn set_member(&mut self, number: usize, is: bool)
        requires { number < length (choices self.old) }
        ensures { IsSetAt (choices self.old) (choices self.new) number is }
    {
        if (self.places[number] < self.count) != is {
            self.set_membership(number, is);
        }
    }

    /// Makes `number` a member of the set if `is` is `true`, or no member if it is `false`.
    /// Requires that `number` is below the set's bound, and that this is a change: it isn't a
    /// member yet if `is` is `true`, and is one if `is` is `false`. Allocates no memory.
    fn set_membership(&mut self, number: usize, is: bool)
        requires { slice_get (choices self.old) number ≡ Some (not is) }
        ensures { IsSetAt (choices self.old) (choices self.new) number is }
    {
        let place = self.places[number];
        if is {
            swap_numbers(&mut self.numbers, &mut self.places, place, self.count);
            self.count += 1;
        } else {
            self.count -= 1;
            swap_numbers(&mut self.numbers, &mut self.places, place, self.count);
        }
    }

    /// Removes `number`, a member or not, from the numbers below the set's bound, and lowers the
    /// bound by one, as [`Vec::swap_remove`] removes an index of a list. The greatest number below
    /// the bound, if it isn't `number`, is renamed to `number`, which is a member afterwards if
    /// that one was. Requires that `number` is below the bound. Allocates no memory.
    pub(crate) fn remove(&mut self, number: usize)
        requires { number < length (choices self.old) }
        ensures { IsSwapRemoved (choices self.old) (choices self.new) number }
    {
        self.set_member(number, false);
        let end = self.numbers.len() - 1;
        let place = self.places[number];
        swap_numbers(&mut self.numbers, &mut self.places, place, end);
        swap_numbers(&mut self.places, &mut self.numbers, number, end);
        self.numbers.pop();
        self.places.pop();
    }

    /// Returns the members, each once, in unspecified order.
    pub(crate) fn numbers(&self) -> &[usize]
        ensures { ContainsEachChosen (choices self.now) result.now }
    {
        &self.numbers[..self.count]
    }

    /// Frees spare capacity of the set's lists if it is much more than they need, by the rule of
    /// the function [`shrink_if_oversized`]. Each list has one element for each number below the
    /// bound. The bound and the members stay.
    pub(crate) fn shrink_if_oversized(&mut self)
        ensures { choices self.new ≡ choices self.old }
    {
        shrink_if_oversized(&mut self.numbers);
        shrink_if_oversized(&mut self.places);
    }
}
