//! Putting and taking the routes of prefixes that the tree keeps already, without allocating
//! memory. `RadixStore::exchange` calls [`Tree::exchange`]; read that first.

ghost use Rattle.std.specs.Prelude.{◌≡◌, ◌+◌, ◌<◌, ◌≤◌, ◌⊎◌, ◌++◌, Some, None, true, false, is_some, not, option_to_list, IsSome, length, map, vec_capacity};
ghost use Rattle.ip_prefix.specs.Turns.{way};
ghost use Rattle.rib_store.specs.Tree.{shape_of, leaf_route, is_filled, has_routes, IsSingleKey, HasCorrectMarks, at, root, slot_of, vacated, without_routes, IsRadixTree, IsUpdatedAt};
ghost use Rattle.rib_store.specs.Slots.{route_of_slot};
ghost use Rattle.rib_store.specs.Walks.{all_routes};

use crate::tree::nodes::new_leaf;
use crate::tree::{KeySlot, Tree};
use ip_prefix::{Prefix, Turn};
use prefix_store::PackedPrefix;
use std::mem;

impl<K: PackedPrefix, R: Drop> Tree<K, R> {
    /// Swaps the route at the prefix `key` and `route`, either of which may be `None`: `route`
    /// holds the old route afterwards. Requires that the tree keeps `key`, with or without a route.
    /// Allocates no memory.
    #[cycle(exchange)]
    pub(crate) fn exchange(&mut self, key: &Prefix, route: &mut Option<R>)
        requires shaped { IsRadixTree (shape_of K.network self.old) }
        requires marked { HasCorrectMarks self.old }
        requires key { IsSome (at (shape_of K.network self.old) (way key.now)) }
        ensures shaped { IsRadixTree (shape_of K.network self.new) }
        ensures marked { HasCorrectMarks self.new }
        ensures slots { IsUpdatedAt (at (shape_of K.network self.old)) (way key.now)
            (Some route.old)
            (at (shape_of K.network self.new)) }
        ensures taken_out { at (shape_of K.network self.old) (way key.now) ≡ Some route.new }
        ensures brought { is_some route.old ≡ true → has_routes self.new ≡ true }
        ensures root { root (shape_of K.network self.new) ≡ root (shape_of K.network self.old) }
    {
        // Where the mark of a node stays, the call for the child comes last, so that the compiler
        // makes a loop of it.
        match self {
            Tree::Empty => {}
            Tree::Bare(prefix) => {
                let prefix = *prefix;
                exchange_leaf(self, prefix, route);
            }
            Tree::Leaf(prefix, _) => {
                let prefix = *prefix;
                exchange_leaf(self, prefix, route);
            }
            Tree::Rooted(routed, prefix, node) => {
                let node = &mut **node;
                match prefix.turn_covered(key) {
                    Turn::Outside => {}
                    Turn::Here => {
                        node.slot.exchange(route);
                        *routed = node.has_routes();
                    }
                    Turn::Left => {
                        if node.has_routes_after_change(*routed, route.is_some(), Turn::Left) {
                            return node.left.exchange(key, route);
                        }
                        exchange_and_update_mark(routed, &mut node.left, key, route);
                    }
                    Turn::Right => {
                        if node.has_routes_after_change(*routed, route.is_some(), Turn::Right) {
                            return node.right.exchange(key, route);
                        }
                        exchange_and_update_mark(routed, &mut node.right, key, route);
                    }
                }
            }
            Tree::Forked(routed, prefix, fork) => {
                let fork = &mut **fork;
                match prefix.turn_covered(key) {
                    Turn::Left => {
                        if fork.has_routes_after_change(*routed, route.is_some(), Turn::Left) {
                            return fork.left.exchange(key, route);
                        }
                        exchange_and_update_mark(routed, &mut fork.left, key, route);
                    }
                    Turn::Right => {
                        if fork.has_routes_after_change(*routed, route.is_some(), Turn::Right) {
                            return fork.right.exchange(key, route);
                        }
                        exchange_and_update_mark(routed, &mut fork.right, key, route);
                    }
                    _ => {}
                }
            }
        }
    }
}

impl<K: PackedPrefix, R: Drop> Tree<K, R> {
    /// Moves all routes to the end of `taken`, in ascending order of their prefixes. The tree keeps
    /// the prefixes, without routes. Requires that `taken` has spare capacity for all routes. Skips
    /// subtrees without a route. Allocates no memory.
    pub(crate) fn drain_routes(&mut self, taken: &mut Vec<R>)
        requires marked { HasCorrectMarks self.old }
        requires room { length taken.old.items + length (all_routes (shape_of K.network self.old))
            ≤ vec_capacity taken.old }
        ensures taken { taken.new.items ≡ taken.old.items
            ++ map (λ found. found.1) (all_routes (shape_of K.network self.old)) }
        ensures room { vec_capacity taken.new ≡ vec_capacity taken.old }
        ensures shape { shape_of K.network self.new ≡ without_routes (shape_of K.network self.old) }
        ensures marked { HasCorrectMarks self.new }
        ensures routed { has_routes self.new ≡ false }
    {
        match self {
            Tree::Empty | Tree::Bare(_) => {}
            Tree::Leaf(prefix, _) => {
                let bare = Tree::Bare(*prefix);
                if let Tree::Leaf(_, route) = mem::replace(self, bare) {
                    taken.push_reserved(route);
                }
            }
            Tree::Rooted(routed, _, node) => {
                if !*routed {
                    return;
                }
                *routed = false;
                let node = &mut **node;
                node.slot.drain_route(taken);
                node.left.drain_routes(taken);
                node.right.drain_routes(taken);
            }
            Tree::Forked(routed, _, fork) => {
                if !*routed {
                    return;
                }
                *routed = false;
                let fork = &mut **fork;
                fork.left.drain_routes(taken);
                fork.right.drain_routes(taken);
            }
        }
    }
}

/// Swaps the route at the prefix `key` in `below` and `route`, as [`Tree::exchange`] does, and sets
/// `routed` to `true` if `below` then has a route, or else to `false`. `below` is a child of some
/// node, and `routed` the node's mark: whether its subtree has a route. So callers make sure that
/// this subtree has no routes outside `below`. Requires that `below` keeps `key`, with or without a
/// route.
#[cycle(exchange)]
#[inline(never)]
fn exchange_and_update_mark<K: PackedPrefix, R: Drop>(
    routed: &mut bool,
    below: &mut Tree<K, R>,
    key: &Prefix,
    route: &mut Option<R>,
)
    requires shaped { IsRadixTree (shape_of K.network below.old) }
    requires marked { HasCorrectMarks below.old }
    requires key { IsSome (at (shape_of K.network below.old) (way key.now)) }
    ensures shaped { IsRadixTree (shape_of K.network below.new) }
    ensures marked { HasCorrectMarks below.new }
    ensures slots { IsUpdatedAt (at (shape_of K.network below.old)) (way key.now) (Some route.old)
        (at (shape_of K.network below.new)) }
    ensures taken_out { at (shape_of K.network below.old) (way key.now) ≡ Some route.new }
    ensures brought { is_some route.old ≡ true → has_routes below.new ≡ true }
    ensures root { root (shape_of K.network below.new) ≡ root (shape_of K.network below.old) }
    ensures routed { routed.new ≡ has_routes below.new }
{
    below.exchange(key, route);
    *routed = below.has_routes();
}

/// Swaps the route at `prefix`, the only prefix that the tree keeps, and `route`, either of which
/// may be `None`: `route` holds the old route afterwards. Requires that the tree has no other node.
pub(crate) fn exchange_leaf<K: PackedPrefix, R: Drop>(
    tree: &mut Tree<K, R>,
    prefix: K,
    route: &mut Option<R>,
)
    requires { IsSingleKey prefix tree.old }
    ensures leaf { IsSingleKey prefix tree.new }
    ensures marked { HasCorrectMarks tree.new }
    ensures slot { leaf_route tree.new ≡ route.old }
    ensures taken_out { leaf_route tree.old ≡ route.new }
{
    let new = new_leaf(prefix, route);
    if let Tree::Leaf(_, old) = mem::replace(tree, new) {
        *route = Some(old);
    }
}

impl<R: Drop> KeySlot<R> {
    /// Swaps the route in the slot and `route`, either of which may be `None`: `route` holds the
    /// old route afterwards. Requires that the node's prefix is a key (a prefix that the tree
    /// keeps).
    pub(crate) fn exchange(&mut self, route: &mut Option<R>)
        requires { IsSome (slot_of self.old) }
        ensures slot { slot_of self.new ≡ Some route.old }
        ensures taken_out { slot_of self.old ≡ Some route.new }
    {
        let new = match route.take() {
            Some(route) => KeySlot::Filled(route),
            None => KeySlot::Vacant,
        };
        if let KeySlot::Filled(old) = mem::replace(self, new) {
            *route = Some(old);
        }
    }

    /// Swaps the route in the slot and `route`, either of which may be `None`, and makes the node's
    /// prefix a key (a prefix that the tree keeps). Returns `true` if it wasn't a key before;
    /// `route` is `None` then. Otherwise returns `false`, and `route` holds the old route, if any.
    pub(crate) fn put(&mut self, route: &mut Option<R>) -> bool
        ensures slot { slot_of self.new ≡ Some route.old }
        ensures taken_out { route.new ≡ route_of_slot (slot_of self.old) }
        ensures made { result ≡ not (is_some (slot_of self.old)) }
    {
        let made = self.route_if_key().is_none();
        if made {
            *self = KeySlot::Vacant;
        }
        self.exchange(route);
        made
    }

    /// Moves the route in the slot, if there is one, to the end of `taken`. Requires that `taken`
    /// has spare capacity for it. The node's prefix stays a key (one that the tree keeps, with or
    /// without a route).
    fn drain_route(&mut self, taken: &mut Vec<R>)
        requires { length taken.old.items < vec_capacity taken.old ⊎ is_filled self.old ≡ false }
        ensures taken { taken.new.items ≡ taken.old.items
            ++ option_to_list (route_of_slot (slot_of self.old)) }
        ensures room { vec_capacity taken.new ≡ vec_capacity taken.old }
        ensures slot { self.new ≡ vacated self.old }
    {
        if let KeySlot::Filled(_) = self {
            if let KeySlot::Filled(route) = mem::replace(self, KeySlot::Vacant) {
                taken.push_reserved(route);
            }
        }
    }

    /// Makes the slot `NoKey`, so that the tree no longer keeps the node's prefix, and drops the
    /// route there if there is one.
    pub(crate) fn remove_key(&mut self)
        ensures { slot_of self.new ≡ None }
    {
        *self = KeySlot::NoKey;
    }
}
