//! Look-ups in a tree: of a prefix itself, of the longest prefix that covers another, and of the
//! routes after a prefix, in the order of prefixes. `radix_store.rt` calls them. Read
//! [`Tree::slot`] first.

ghost use Rattle.std.specs.Prelude.{◌≡◌, ◌+◌, ◌≤◌, Some, None, MatchOption, vec_capacity, option_map, option_copied};
ghost use Rattle.ip_prefix.specs.Turns.{way};
ghost use Rattle.rib_store.specs.Tree.{shape_of, HasCorrectMarks, IsRadixTree, at};
ghost use Rattle.prefix_store.specs.Lookups.{dereferenced};
ghost use Rattle.rib_store.specs.Walks.{deepest_route, visit_count, first, first_after, all_routes, all_after, filled};

use crate::tree::{Tree, add_route};
use ip_prefix::{Prefix, Turn};
use prefix_store::PackedPrefix;

impl<K: PackedPrefix, R> Tree<K, R> {
    /// Returns what the tree has at exactly the prefix `key`: `None` if it doesn't keep that
    /// prefix, `Some(None)` if it keeps it without a route, and `Some(Some(route))` if it has a
    /// route there.
    #[tactic(auto, using(crate::proofs::TreeLaws::at_left_under, crate::proofs::TreeLaws::at_right_under))]
    pub(crate) fn slot(&self, key: &Prefix) -> Option<Option<&R>>
        requires { IsRadixTree (shape_of K.network self.now) }
        ensures { option_map (λ slot. option_copied slot) result
            ≡ at (shape_of K.network self.now) (way key.now) }
    {
        // One bit is read for each node on the way down, and the whole prefix is compared where it
        // ends.
        match self {
            Tree::Empty => None,
            Tree::Bare(prefix) => match prefix.turn(key) {
                Turn::Here => Some(None),
                _ => None,
            },
            Tree::Leaf(prefix, route) => match prefix.turn(key) {
                Turn::Here => Some(Some(route)),
                _ => None,
            },
            Tree::Rooted(_, prefix, node) => match key.turn_under(prefix.len()) {
                Turn::Left => node.left.slot(key),
                Turn::Right => node.right.slot(key),
                _ => match prefix.turn(key) {
                    Turn::Here => node.slot.route_if_key(),
                    _ => None,
                },
            },
            Tree::Forked(_, prefix, fork) => match key.turn_under(prefix.len()) {
                Turn::Left => fork.left.slot(key),
                Turn::Right => fork.right.slot(key),
                _ => None,
            },
        }
    }

    /// Returns the route at the longest prefix that covers the prefix `key` (an address is looked
    /// up as a prefix of full length), with that prefix. Returns `None` if no prefix with a route
    /// covers `key`. Adds the number of nodes that it visits to `met`; requires that the sum can't
    /// overflow.
    pub(crate) fn longest(&self, key: &Prefix, met: &mut u32) -> Option<(Prefix, &R)>
        requires { met.old + visit_count (shape_of K.network self.now) (way key.now) ≤ u32.MAX }
        ensures found { option_map (λ p. (p.0, p.1.now)) result
            ≡ deepest_route (shape_of K.network self.now) (way key.now) }
        ensures met { met.new ≡ met.old + visit_count (shape_of K.network self.now) (way key.now) }
    {
        match self {
            Tree::Empty => None,
            Tree::Bare(_) => {
                *met += 1;
                None
            }
            Tree::Leaf(prefix, route) => {
                *met += 1;
                match prefix.turn(key) {
                    Turn::Outside => None,
                    _ => Some((prefix.unpack(), route)),
                }
            }
            Tree::Rooted(_, prefix, node) => {
                *met += 1;
                let below = match prefix.turn(key) {
                    Turn::Outside => return None,
                    Turn::Here => None,
                    Turn::Left => node.left.longest(key, met),
                    Turn::Right => node.right.longest(key, met),
                };
                match below {
                    Some(found) => Some(found),
                    None => node.slot.route_with_prefix(prefix.unpack()),
                }
            }
            Tree::Forked(_, prefix, fork) => {
                *met += 1;
                match prefix.turn(key) {
                    Turn::Left => fork.left.longest(key, met),
                    Turn::Right => fork.right.longest(key, met),
                    _ => None,
                }
            }
        }
    }

    /// Returns the first route in the order of prefixes, with its prefix, or `None` if the tree has
    /// no routes. Prefixes are ordered by address and then by length. Skips subtrees without a
    /// route.
    pub(crate) fn first(&self) -> Option<(Prefix, &R)>
        requires { HasCorrectMarks self.now }
        ensures { MatchOption result (first (shape_of K.network self.now) ≡ None)
            (λ found. first (shape_of K.network self.now) ≡ Some (found.0, found.1.now)) }
    {
        match self {
            Tree::Empty | Tree::Bare(_) => None,
            Tree::Leaf(prefix, route) => Some((prefix.unpack(), route)),
            Tree::Rooted(routed, prefix, node) => {
                if !*routed {
                    return None;
                }
                match node.slot.route_with_prefix(prefix.unpack()) {
                    Some(found) => Some(found),
                    None => match node.left.first() {
                        Some(found) => Some(found),
                        None => node.right.first(),
                    },
                }
            }
            Tree::Forked(routed, _, fork) => {
                if !*routed {
                    return None;
                }
                match fork.left.first() {
                    Some(found) => Some(found),
                    None => fork.right.first(),
                }
            }
        }
    }

    /// Returns the route at the least prefix that is greater than `low`, with that prefix, or
    /// `None` if there is none. `low` needn't be in the tree. Prefixes are ordered by address and
    /// then by length.
    pub(crate) fn after(&self, low: &Prefix) -> Option<(Prefix, &R)>
        requires { HasCorrectMarks self.now }
        ensures { MatchOption result (first_after (shape_of K.network self.now) low.now ≡ None)
            (λ found. first_after (shape_of K.network self.now) low.now
            ≡ Some (found.0, found.1.now)) }
    {
        match self {
            Tree::Empty | Tree::Bare(_) => None,
            Tree::Leaf(prefix, route) => {
                let wide = prefix.unpack();
                match prefix.turn(low) {
                    Turn::Outside if *low < wide => Some((wide, route)),
                    _ => None,
                }
            }
            Tree::Rooted(_, prefix, node) => match prefix.turn(low) {
                Turn::Outside if *low < prefix.unpack() => self.first(),
                Turn::Outside => None,
                Turn::Here => match node.left.first() {
                    Some(found) => Some(found),
                    None => node.right.first(),
                },
                Turn::Left => match node.left.after(low) {
                    Some(found) => Some(found),
                    None => node.right.first(),
                },
                Turn::Right => node.right.after(low),
            },
            Tree::Forked(_, prefix, fork) => match prefix.turn(low) {
                Turn::Outside if *low < prefix.unpack() => self.first(),
                Turn::Outside => None,
                Turn::Here => match fork.left.first() {
                    Some(found) => Some(found),
                    None => fork.right.first(),
                },
                Turn::Left => match fork.left.after(low) {
                    Some(found) => Some(found),
                    None => fork.right.first(),
                },
                Turn::Right => fork.right.after(low),
            },
        }
    }

    /// Appends all routes with their prefixes to `found`, in ascending order of prefixes (by
    /// address and then by length), and stops when the capacity of `found` is used up. So it
    /// allocates no memory. Skips subtrees without a route.
    pub(crate) fn fill_with_routes<'a>(&'a self, found: &mut Vec<(Prefix, &'a R)>)
        requires { HasCorrectMarks self.now }
        ensures found { dereferenced found.new.items ≡
            filled (vec_capacity found.old) (dereferenced found.old.items)
            (all_routes (shape_of K.network self.now)) }
        ensures room { vec_capacity found.new ≡ vec_capacity found.old }
    {
        match self {
            Tree::Empty | Tree::Bare(_) => {}
            Tree::Leaf(prefix, route) => add_route(prefix.unpack(), route, found),
            Tree::Rooted(any, prefix, node) => {
                if !*any {
                    return;
                }
                if found.len() == found.capacity() {
                    return;
                }
                node.slot.add_route_if_any(prefix.unpack(), found);
                node.left.fill_with_routes(found);
                node.right.fill_with_routes(found);
            }
            Tree::Forked(any, _, fork) => {
                if !*any {
                    return;
                }
                if found.len() == found.capacity() {
                    return;
                }
                fork.left.fill_with_routes(found);
                fork.right.fill_with_routes(found);
            }
        }
    }

    /// Appends the routes at prefixes greater than `low`, with these prefixes, to `found`, in
    /// ascending order of prefixes (by address and then by length), and stops when the capacity of
    /// `found` is used up. So it allocates no memory. `low` needn't be in the tree.
    pub(crate) fn fill_with_routes_after<'a>(
        &'a self,
        low: &Prefix,
        found: &mut Vec<(Prefix, &'a R)>,
    )
        requires { HasCorrectMarks self.now }
        ensures found { dereferenced found.new.items ≡
            filled (vec_capacity found.old) (dereferenced found.old.items)
            (all_after (shape_of K.network self.now) low.now) }
        ensures room { vec_capacity found.new ≡ vec_capacity found.old }
    {
        match self {
            Tree::Empty | Tree::Bare(_) => {}
            Tree::Leaf(prefix, route) => match prefix.turn(low) {
                Turn::Outside if *low < prefix.unpack() => add_route(prefix.unpack(), route, found),
                _ => {}
            },
            Tree::Rooted(_, prefix, node) => match prefix.turn(low) {
                Turn::Outside if *low < prefix.unpack() => self.fill_with_routes(found),
                Turn::Outside => {}
                Turn::Here => {
                    node.left.fill_with_routes(found);
                    node.right.fill_with_routes(found);
                }
                Turn::Left => {
                    node.left.fill_with_routes_after(low, found);
                    node.right.fill_with_routes(found);
                }
                Turn::Right => node.right.fill_with_routes_after(low, found),
            },
            Tree::Forked(_, prefix, fork) => match prefix.turn(low) {
                Turn::Outside if *low < prefix.unpack() => self.fill_with_routes(found),
                Turn::Outside => {}
                Turn::Here => {
                    fork.left.fill_with_routes(found);
                    fork.right.fill_with_routes(found);
                }
                Turn::Left => {
                    fork.left.fill_with_routes_after(low, found);
                    fork.right.fill_with_routes(found);
                }
                Turn::Right => fork.right.fill_with_routes_after(low, found),
            },
        }
    }
}
