//! Constructors of the nodes of a tree, which `puts.rt` and `routes.rt` call. Read [`new_leaf`]
//! first.

ghost use Rattle.std.specs.Prelude.{◌≡◌, ◌⊎◌, ◌||◌, Some, None, false, is_some, IfOk, IfErr, OnOk, OnErr};
ghost use Rattle.ip_prefix.specs.Turns.{way};
ghost use Rattle.rib_store.specs.declared.tree.KeySlot.TheVariants.{NoKey};
ghost use Rattle.ip_prefix.specs.declared.turn.Turn.TheVariants.{Left, Right};
ghost use Rattle.rib_store.specs.Tree.{Empty, shape_of, leaf_route, is_filled, has_routes, any_has_routes, IsSingleKey, HasCorrectMarks, slot_of, IsRootedOver};

use crate::tree::{Fork, KeySlot, Node, Tree};
use ip_prefix::Turn;
use prefix_store::PackedPrefix;
use std::alloc::{AllocError, Global};
use std::mem;

/// Returns a tree that keeps one prefix, `prefix`, with the route that `route` holds, or without a
/// route if that is `None`. Leaves `None` in `route`. Allocates no memory.
pub(crate) fn new_leaf<K: PackedPrefix, R: Drop>(prefix: K, route: &mut Option<R>) -> Tree<K, R>
    ensures leaf { IsSingleKey prefix result }
    ensures marked { HasCorrectMarks result }
    ensures slot { leaf_route result ≡ route.old }
    ensures routed { has_routes result ≡ is_some route.old }
    ensures taken { route.new ≡ None }
{
    match route.take() {
        Some(route) => Tree::Leaf(prefix, route),
        None => Tree::Bare(prefix),
    }
}

/// Returns the route of a tree that keeps one prefix, or `None` if it has none. Any other tree than
/// [`Tree::Leaf`] and [`Tree::Bare`] gives `None`, and is dropped.
pub(crate) fn leaf_to_route<K: PackedPrefix, R: Drop>(tree: Tree<K, R>) -> Option<R>
    ensures { result ≡ leaf_route tree }
{
    match tree {
        Tree::Leaf(_, route) => Some(route),
        _ => None,
    }
}

/// Converts a tree that keeps one prefix to the slot of a heap node for that prefix: `Filled` with
/// the route of the tree, or `Vacant` if it has none. The prefix itself isn't in the slot. Any
/// other tree than [`Tree::Leaf`] and [`Tree::Bare`] gives `Vacant`, and is dropped.
pub(crate) fn leaf_to_slot<K: PackedPrefix, R: Drop>(tree: Tree<K, R>) -> KeySlot<R>
    ensures slot { slot_of result ≡ Some (leaf_route tree) }
    ensures filled { is_filled result ≡ is_some (leaf_route tree) }
{
    match tree {
        Tree::Leaf(_, route) => KeySlot::Filled(route),
        _ => KeySlot::Vacant,
    }
}

/// Allocates a heap node without children whose prefix isn't a key (a prefix that the tree keeps),
/// for the caller to fill. Fails if memory allocation fails.
pub(crate) fn new_node<K: PackedPrefix, R: Drop>(
    alloc: Global,
) -> Result<Box<Node<K, R>>, AllocError>
    ensures slot { IfOk result (λ node. slot_of node.value.slot ≡ None) }
    ensures filled { IfOk result (λ node. is_filled node.value.slot ≡ false) }
{
    let node = Box::new(
        alloc,
        Node {
            slot: KeySlot::NoKey,
            left: Tree::Empty,
            right: Tree::Empty,
        },
    )?;
    Ok(node)
}

/// Puts a fork (a node whose prefix the tree doesn't keep) with the prefix `prefix` above the root.
/// The old tree becomes its child on the side `tree_side`, which is `Left` or `Right`, and `leaf`,
/// a tree of one prefix, its child on the other side. If memory allocation fails, the tree is
/// unchanged, and `leaf` is returned with the error.
pub(crate) fn insert_fork_above<K: PackedPrefix, R: Drop>(
    tree: &mut Tree<K, R>,
    prefix: K,
    alloc: Global,
    leaf: Tree<K, R>,
    tree_side: Turn,
) -> Result<(), (Tree<K, R>, AllocError)>
    requires leaf { HasCorrectMarks leaf }
    requires below { HasCorrectMarks tree.old }
    ensures marked { OnOk result (HasCorrectMarks tree.new) }
    ensures routed { OnOk result (has_routes tree.new ≡ any_has_routes NoKey leaf tree.old) }
    ensures rooted { OnOk result (IsRootedOver (K.network prefix) None tree_side
        (shape_of K.network leaf) (shape_of K.network tree.old) (shape_of K.network tree.new)) }
    ensures refused { OnErr result (tree.new ≡ tree.old) }
    ensures kept { IfErr result (λ refused. refused.0 ≡ leaf) }
{
    let below = mem::replace(tree, Tree::Empty);
    let (left, right) = match tree_side {
        Turn::Left => (below, leaf),
        _ => (leaf, below),
    };
    match Box::new(alloc, Fork { left, right }) {
        Ok(fork) => {
            let routed = fork.has_routes();
            *tree = Tree::Forked(routed, prefix, fork);
            Ok(())
        }
        Err(refused) => {
            let mut refused = refused;
            let none = Fork {
                left: Tree::Empty,
                right: Tree::Empty,
            };
            let Fork { left, right } = mem::replace(&mut refused.value, none);
            let (below, leaf) = match tree_side {
                Turn::Left => (left, right),
                _ => (right, left),
            };
            *tree = below;
            Err((leaf, AllocError::from(refused)))
        }
    }
}

/// Replaces the tree by `node` with the prefix `prefix`, and with `below` as its only child, on the
/// side `side`: left if that is `Left`, and otherwise right. The old tree, and children that `node`
/// had, are dropped. The slot of `node`, which holds its route, is kept.
pub(crate) fn set_root_with_child<K: PackedPrefix, R: Drop>(
    tree: &mut Tree<K, R>,
    prefix: K,
    node: Box<Node<K, R>>,
    below: Tree<K, R>,
    side: Turn,
)
    requires { HasCorrectMarks below }
    ensures marked { HasCorrectMarks tree.new }
    ensures routed { has_routes tree.new ≡ (is_filled node.value.slot || has_routes below) }
    ensures rooted { IsRootedOver (K.network prefix) (slot_of node.value.slot) side
        Empty (shape_of K.network below) (shape_of K.network tree.new) }
{
    let mut node = node;
    let (left, right) = match side {
        Turn::Left => (below, Tree::Empty),
        _ => (Tree::Empty, below),
    };
    node.left = left;
    node.right = right;
    let routed = node.has_routes();
    *tree = Tree::Rooted(routed, prefix, node);
}
