//! Putting a route at a prefix that the tree may not keep yet. [`RadixStore`](crate::RadixStore)
//! calls [`Tree::put`]; read that first.

ghost use Rattle.std.specs.Prelude.{◌≡◌, ◌≢◌, ◌||◌, Some, None, true, is_some, not, OnOk, OnErr, IfOk};
ghost use Rattle.ip_prefix.specs.Turns.{way, turn_of};
ghost use Rattle.ip_prefix.specs.declared.turn.Turn.TheVariants.{Outside, Here};
ghost use Rattle.rib_store.specs.Tree.{shape_of, has_routes, IsSingleKey, IsFork, IsAtRoot, HasCorrectMarks, at, root, IsOfFamily, IsRadixTree, IsInserted, IsInsertedAt};
ghost use Rattle.rib_store.specs.Slots.{route_of_slot};

use crate::tree::nodes::{
    insert_fork_above, leaf_to_route, leaf_to_slot, new_leaf, new_node, set_root_with_child,
};
use crate::tree::routes::exchange_leaf;
use crate::tree::{Node, Tree};
use ip_prefix::{Prefix, Turn};
use prefix_store::PackedPrefix;
use std::alloc::{AllocError, Global};
use std::mem;

impl<K: PackedPrefix, R: Drop> Tree<K, R> {
    /// Swaps the route at the prefix `key` and `route`, either of which may be `None`: `route`
    /// holds the old route afterwards. The tree keeps `key` after this, even without a route.
    /// Returns `true` if it didn't keep `key` before, and `false` if it did. Fails if memory
    /// allocation fails; the tree and `route` are unchanged then.
    #[cycle(put)]
    pub(crate) fn put(
        &mut self,
        alloc: Global,
        key: &Prefix,
        route: &mut Option<R>,
    ) -> Result<bool, AllocError>
        requires shaped { IsRadixTree (shape_of K.network self.old) }
        requires marked { HasCorrectMarks self.old }
        requires family { IsOfFamily key.now.family (shape_of K.network self.old) }
        requires kind { key.now.family ≡ K.family }
        ensures made { IfOk result (λ made. made ≡
            not (is_some (at (shape_of K.network self.old) (way key.now)))) }
        ensures placed { OnOk result (IsInserted (way key.now) (Some route.old)
            (shape_of K.network self.old) (shape_of K.network self.new)) }
        ensures taken_out { OnOk result
            (route.new ≡ route_of_slot (at (shape_of K.network self.old) (way key.now))) }
        ensures marked { OnOk result (HasCorrectMarks self.new) }
        ensures brought { OnOk result (is_some route.old ≡ true → has_routes self.new ≡ true) }
        ensures refused { OnErr result (self.new ≡ self.old) }
        ensures kept { OnErr result (route.new ≡ route.old) }
        ensures known { OnErr result (at (shape_of K.network self.old) (way key.now) ≡ None) }
    {
        // Where the mark of a node stays, the call for the child comes last, so that the compiler
        // makes a loop of it.
        match self {
            Tree::Rooted(routed, prefix, node) => {
                let node = &mut **node;
                match prefix.turn(key) {
                    Turn::Left => {
                        if node.has_routes_after_change(*routed, route.is_some(), Turn::Left) {
                            return node.left.put(alloc, key, route);
                        }
                        put_and_update_mark(routed, &mut node.left, alloc, key, route)
                    }
                    Turn::Right => {
                        if node.has_routes_after_change(*routed, route.is_some(), Turn::Right) {
                            return node.right.put(alloc, key, route);
                        }
                        put_and_update_mark(routed, &mut node.right, alloc, key, route)
                    }
                    _ => put_without_descent(self, alloc, key, route),
                }
            }
            Tree::Forked(routed, prefix, fork) => {
                let fork = &mut **fork;
                match prefix.turn(key) {
                    Turn::Left => {
                        if fork.has_routes_after_change(*routed, route.is_some(), Turn::Left) {
                            return fork.left.put(alloc, key, route);
                        }
                        put_and_update_mark(routed, &mut fork.left, alloc, key, route)
                    }
                    Turn::Right => {
                        if fork.has_routes_after_change(*routed, route.is_some(), Turn::Right) {
                            return fork.right.put(alloc, key, route);
                        }
                        put_and_update_mark(routed, &mut fork.right, alloc, key, route)
                    }
                    _ => put_without_descent(self, alloc, key, route),
                }
            }
            _ => put_without_descent(self, alloc, key, route),
        }
    }
}

/// Swaps the route at the prefix `key` in `below` and `route`, as [`Tree::put`] does, and sets
/// `routed` to `true` if `below` then has a route, or else to `false`. `below` is a child of some
/// node, and `routed` the node's mark: whether its subtree has a route. So callers make sure that
/// this subtree has no routes outside `below`. Returns `true` if `below` didn't keep `key` before.
/// Fails if memory allocation fails; `routed`, `below` and `route` are unchanged then.
#[cycle(put)]
#[inline(never)]
fn put_and_update_mark<K: PackedPrefix, R: Drop>(
    routed: &mut bool,
    below: &mut Tree<K, R>,
    alloc: Global,
    key: &Prefix,
    route: &mut Option<R>,
) -> Result<bool, AllocError>
    requires shaped { IsRadixTree (shape_of K.network below.old) }
    requires marked { HasCorrectMarks below.old }
    requires family { IsOfFamily key.now.family (shape_of K.network below.old) }
    requires kind { key.now.family ≡ K.family }
    ensures made { IfOk result (λ made. made ≡
        not (is_some (at (shape_of K.network below.old) (way key.now)))) }
    ensures placed { OnOk result (IsInserted (way key.now) (Some route.old)
        (shape_of K.network below.old) (shape_of K.network below.new)) }
    ensures taken_out { OnOk result
        (route.new ≡ route_of_slot (at (shape_of K.network below.old) (way key.now))) }
    ensures marked { OnOk result (HasCorrectMarks below.new) }
    ensures brought { OnOk result (is_some route.old ≡ true → has_routes below.new ≡ true) }
    ensures routed { OnOk result (routed.new ≡ has_routes below.new) }
    ensures refused { OnErr result (below.new ≡ below.old) }
    ensures same { OnErr result (routed.new ≡ routed.old) }
    ensures kept { OnErr result (route.new ≡ route.old) }
    ensures known { OnErr result (at (shape_of K.network below.old) (way key.now) ≡ None) }
{
    let made = below.put(alloc, key, route)?;
    *routed = below.has_routes();
    Ok(made)
}

/// Swaps the route at the prefix `key` and `route`, as [`Tree::put`] does, without going down to a
/// child of the root. Requires that the root has no children, or that its prefix is `key` or
/// doesn't cover `key`. Makes the nodes that a new prefix needs. Returns `true` if the tree didn't
/// keep `key` before. Fails if memory allocation fails; the tree and `route` are unchanged then.
#[inline(never)]
fn put_without_descent<K: PackedPrefix, R: Drop>(
    tree: &mut Tree<K, R>,
    alloc: Global,
    key: &Prefix,
    route: &mut Option<R>,
) -> Result<bool, AllocError>
    requires at_root { IsAtRoot K.network key.now tree.old }
    requires shaped { IsRadixTree (shape_of K.network tree.old) }
    requires marked { HasCorrectMarks tree.old }
    requires family { IsOfFamily key.now.family (shape_of K.network tree.old) }
    requires kind { key.now.family ≡ K.family }
    ensures made { IfOk result (λ made. made ≡
        not (is_some (at (shape_of K.network tree.old) (way key.now)))) }
    ensures placed { OnOk result (IsInserted (way key.now) (Some route.old)
        (shape_of K.network tree.old) (shape_of K.network tree.new)) }
    ensures taken_out { OnOk result
        (route.new ≡ route_of_slot (at (shape_of K.network tree.old) (way key.now))) }
    ensures marked { OnOk result (HasCorrectMarks tree.new) }
    ensures brought { OnOk result (is_some route.old ≡ true → has_routes tree.new ≡ true) }
    ensures refused { OnErr result (tree.new ≡ tree.old) }
    ensures kept { OnErr result (route.new ≡ route.old) }
    ensures known { OnErr result (at (shape_of K.network tree.old) (way key.now) ≡ None) }
{
    // This isn't inlined, so that the way down takes few instructions for each node.
    match tree {
        Tree::Empty => {
            *tree = new_leaf(K::pack(key), route);
            Ok(true)
        }
        Tree::Bare(prefix) => {
            let prefix = *prefix;
            put_at_leaf(tree, prefix, alloc, key, route)
        }
        Tree::Leaf(prefix, _) => {
            let prefix = *prefix;
            put_at_leaf(tree, prefix, alloc, key, route)
        }
        Tree::Rooted(routed, prefix, node) => {
            let prefix = *prefix;
            let node = &mut **node;
            let brought = route.is_some();
            match prefix.turn(key) {
                Turn::Outside => insert_above_root(tree, &prefix.unpack(), alloc, key, route),
                Turn::Here => {
                    let made = node.slot.put(route);
                    *routed = node.has_routes();
                    Ok(made)
                }
                _ => unreachable!(),
            }
        }
        Tree::Forked(_, prefix, _) => {
            let prefix = *prefix;
            match prefix.turn(key) {
                Turn::Outside => insert_above_root(tree, &prefix.unpack(), alloc, key, route),
                Turn::Here => make_fork_a_key(tree, prefix, alloc, route),
                _ => unreachable!(),
            }
        }
    }
}

/// Adds the prefix `key`, which the tree doesn't keep, with the route in `route`, or without one if
/// that is `None`. `prefix` is the prefix of the root; requires that it doesn't cover `key`. If
/// `key` covers `prefix`, its node becomes the root; otherwise the new root is a fork (a node whose
/// prefix the tree doesn't keep) above both. Leaves `None` in `route`, and returns `true`, for
/// callers that return whether `key` is new. Fails if memory allocation fails; the tree and `route`
/// are unchanged then.
fn insert_above_root<K: PackedPrefix, R: Drop>(
    tree: &mut Tree<K, R>,
    prefix: &Prefix,
    alloc: Global,
    key: &Prefix,
    route: &mut Option<R>,
) -> Result<bool, AllocError>
    requires root { root (shape_of K.network tree.old) ≡ Some (way prefix.now) }
    requires shaped { IsRadixTree (shape_of K.network tree.old) }
    requires marked { HasCorrectMarks tree.old }
    requires family { prefix.now.family ≡ key.now.family }
    requires kind { key.now.family ≡ K.family }
    requires outside { turn_of (way prefix.now) (way key.now) ≡ Outside }
    ensures made { IfOk result (λ made. made ≡ true) }
    ensures placed { OnOk result (IsInserted (way key.now) (Some route.old)
        (shape_of K.network tree.old) (shape_of K.network tree.new)) }
    ensures marked { OnOk result (HasCorrectMarks tree.new) }
    ensures routed { OnOk result
        (has_routes tree.new ≡ (is_some route.old || has_routes tree.old)) }
    ensures taken { OnOk result (route.new ≡ None) }
    ensures refused { OnErr result (tree.new ≡ tree.old) }
    ensures kept { OnErr result (route.new ≡ route.old) }
{
    let common = prefix.common(key);
    let side = common.turn_covered(prefix);
    if let Turn::Here = common.turn_covered(key) {
        let mut node = new_node(alloc)?;
        node.slot = leaf_to_slot(new_leaf(K::pack(key), route));
        let below = mem::replace(tree, Tree::Empty);
        set_root_with_child(tree, K::pack(&common), node, below, side);
        return Ok(true);
    }
    let leaf = new_leaf(K::pack(key), route);
    match insert_fork_above(tree, K::pack(&common), alloc, leaf, side) {
        Ok(()) => Ok(true),
        Err((leaf, refused)) => {
            *route = leaf_to_route(leaf);
            Err(refused)
        }
    }
}

/// Makes the tree keep `prefix`, the prefix of its root, with the route in `route`, or without one
/// if that is `None`. Requires that the root is a fork: a node whose prefix the tree doesn't keep.
/// Leaves `None` in `route`, and returns `true`, for callers that return whether the tree keeps a
/// new prefix. Fails if memory allocation fails; the tree and `route` are unchanged then.
fn make_fork_a_key<K: PackedPrefix, R: Drop>(
    tree: &mut Tree<K, R>,
    prefix: K,
    alloc: Global,
    route: &mut Option<R>,
) -> Result<bool, AllocError>
    requires fork { IsFork prefix tree.old }
    requires shaped { IsRadixTree (shape_of K.network tree.old) }
    requires marked { HasCorrectMarks tree.old }
    ensures made { IfOk result (λ made. made ≡ true) }
    ensures placed { OnOk result (IsInsertedAt (K.network prefix) (Some route.old)
        (shape_of K.network tree.old) (shape_of K.network tree.new)) }
    ensures marked { OnOk result (HasCorrectMarks tree.new) }
    ensures routed { OnOk result
        (has_routes tree.new ≡ (is_some route.old || has_routes tree.old)) }
    ensures taken { OnOk result (route.new ≡ None) }
    ensures refused { OnErr result (tree.new ≡ tree.old) }
    ensures kept { OnErr result (route.new ≡ route.old) }
{
    let mut node = new_node(alloc)?;
    if let Tree::Forked(_, _, fork) = tree {
        let left = mem::replace(&mut fork.left, Tree::Empty);
        let right = mem::replace(&mut fork.right, Tree::Empty);
        let slot = leaf_to_slot(new_leaf(prefix, route));
        *node = Node { slot, left, right };
        let routed = node.has_routes();
        *tree = Tree::Rooted(routed, prefix, node);
    }
    Ok(true)
}

/// Swaps the route at the prefix `key` and `route`, as [`Tree::put`] does, in a tree that keeps one
/// prefix, `prefix`. Returns `false` if `key` is that prefix. Otherwise the tree keeps both
/// afterwards, and `true` is returned. Fails if memory allocation fails; the tree and `route` are
/// unchanged then.
fn put_at_leaf<K: PackedPrefix, R: Drop>(
    tree: &mut Tree<K, R>,
    prefix: K,
    alloc: Global,
    key: &Prefix,
    route: &mut Option<R>,
) -> Result<bool, AllocError>
    requires leaf { IsSingleKey prefix tree.old }
    requires family { (K.network prefix).family ≡ key.now.family }
    requires kind { key.now.family ≡ K.family }
    ensures made { IfOk result (λ made. made ≡
        not (is_some (at (shape_of K.network tree.old) (way key.now)))) }
    ensures placed { OnOk result (IsInserted (way key.now) (Some route.old)
        (shape_of K.network tree.old) (shape_of K.network tree.new)) }
    ensures taken_out { OnOk result
        (route.new ≡ route_of_slot (at (shape_of K.network tree.old) (way key.now))) }
    ensures marked { OnOk result (HasCorrectMarks tree.new) }
    ensures quiet { OnOk result (route.old ≡ None →
        turn_of (way (K.network prefix)) (way key.now) ≢ Here →
        has_routes tree.new ≡ has_routes tree.old) }
    ensures brought { OnOk result (is_some route.old ≡ true → has_routes tree.new ≡ true) }
    ensures refused { OnErr result (tree.new ≡ tree.old) }
    ensures kept { OnErr result (route.new ≡ route.old) }
    ensures known { OnErr result (at (shape_of K.network tree.old) (way key.now) ≡ None) }
{
    let side = prefix.turn(key);
    match side {
        Turn::Outside => insert_above_root(tree, &prefix.unpack(), alloc, key, route),
        Turn::Here => {
            exchange_leaf(tree, prefix, route);
            Ok(false)
        }
        Turn::Left | Turn::Right => {
            let mut node = new_node(alloc)?;
            node.slot = leaf_to_slot(mem::replace(tree, Tree::Empty));
            set_root_with_child(tree, prefix, node, new_leaf(K::pack(key), route), side);
            Ok(true)
        }
    }
}
