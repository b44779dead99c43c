//! Removing a key (a prefix that the tree keeps, with or without a route), and the nodes that
//! aren't needed without it. `RadixStore::discard` calls [`Tree::discard`]; read that first.

ghost use Rattle.std.specs.Prelude.{◌≡◌, None, List, Bool};
ghost use Rattle.ip_prefix.specs.Turns.{way};
ghost use Rattle.rib_store.specs.Tree.{shape_of, IsSingleKey, HasCorrectMarks, at, RootIsOnSide, IsRadixTree, IsRadixTreeBelowRoot, IsUpdatedAt};

use crate::tree::{KeySlot, Tree};
use ip_prefix::{Prefix, Turn};
use prefix_store::PackedPrefix;
use std::mem;

impl<K: PackedPrefix, R: Drop> Tree<K, R> {
    /// Removes the prefix `key` from the keys that the tree keeps, drops its route if it has one,
    /// and removes the nodes that aren't needed without it. Does nothing if the tree doesn't keep
    /// `key`. Allocates no memory.
    pub(crate) fn discard(&mut self, key: &Prefix)
        requires shaped { IsRadixTree (shape_of K.network self.old) }
        requires marked { HasCorrectMarks self.old }
        ensures shaped { IsRadixTree (shape_of K.network self.new) }
        ensures marked { HasCorrectMarks self.new }
        ensures slots { IsUpdatedAt (at (shape_of K.network self.old)) (way key.now) None
            (at (shape_of K.network self.new)) }
        ensures sides { (from : List Bool) (bit : Bool) →
            RootIsOnSide from bit (shape_of K.network self.old) →
            RootIsOnSide from bit (shape_of K.network self.new) }
    {
        match self {
            Tree::Empty => {}
            Tree::Bare(prefix) => {
                let prefix = *prefix;
                discard_leaf(self, prefix, key);
            }
            Tree::Leaf(prefix, _) => {
                let prefix = *prefix;
                discard_leaf(self, prefix, key);
            }
            Tree::Rooted(routed, prefix, node) => {
                let node = &mut **node;
                match prefix.turn(key) {
                    Turn::Outside => return,
                    Turn::Here => node.slot.remove_key(),
                    Turn::Left => node.left.discard(key),
                    Turn::Right => node.right.discard(key),
                }
                *routed = node.has_routes();
                drop_needless_root(self);
                unbox_leaf(self);
            }
            Tree::Forked(routed, prefix, fork) => {
                let fork = &mut **fork;
                match prefix.turn(key) {
                    Turn::Left => fork.left.discard(key),
                    Turn::Right => fork.right.discard(key),
                    _ => return,
                }
                *routed = fork.has_routes();
                drop_needless_root(self);
            }
        }
    }
}

/// Makes a tree of one node empty, and drops the route there, if the node's prefix is `key`.
/// Otherwise does nothing. `prefix` is the node's prefix; requires that the tree has this node
/// only.
fn discard_leaf<K: PackedPrefix, R: Drop>(tree: &mut Tree<K, R>, prefix: K, key: &Prefix)
    requires { IsSingleKey prefix tree.old }
    ensures shaped { IsRadixTree (shape_of K.network tree.new) }
    ensures marked { HasCorrectMarks tree.new }
    ensures slots { IsUpdatedAt (at (shape_of K.network tree.old)) (way key.now) None
        (at (shape_of K.network tree.new)) }
    ensures sides { (from : List Bool) (bit : Bool) →
        RootIsOnSide from bit (shape_of K.network tree.old)
        → RootIsOnSide from bit (shape_of K.network tree.new) }
{
    if let Turn::Here = prefix.turn(key) {
        *tree = Tree::Empty;
    }
}

/// Removes the root if its prefix isn't a key (a prefix that the tree keeps) and it has fewer than
/// two children: its only child becomes the root, or the tree becomes empty. Otherwise does
/// nothing. Keys and routes stay as they are.
fn drop_needless_root<K: PackedPrefix, R: Drop>(tree: &mut Tree<K, R>)
    requires shaped { IsRadixTreeBelowRoot (shape_of K.network tree.old) }
    requires marked { HasCorrectMarks tree.old }
    ensures shaped { IsRadixTree (shape_of K.network tree.new) }
    ensures marked { HasCorrectMarks tree.new }
    ensures slots { (q : List Bool) → at (shape_of K.network tree.new) q
        ≡ at (shape_of K.network tree.old) q }
    ensures sides { (from : List Bool) (bit : Bool) →
        RootIsOnSide from bit (shape_of K.network tree.old)
        → RootIsOnSide from bit (shape_of K.network tree.new) }
{
    match tree {
        Tree::Rooted(_, _, node) => {
            if let KeySlot::NoKey = node.slot {
                if let Tree::Empty = node.left {
                    let child = mem::replace(&mut node.right, Tree::Empty);
                    *tree = child;
                } else if let Tree::Empty = node.right {
                    let child = mem::replace(&mut node.left, Tree::Empty);
                    *tree = child;
                }
            }
        }
        Tree::Forked(_, _, fork) => {
            if let Tree::Empty = fork.left {
                let child = mem::replace(&mut fork.right, Tree::Empty);
                *tree = child;
            } else if let Tree::Empty = fork.right {
                let child = mem::replace(&mut fork.left, Tree::Empty);
                *tree = child;
            }
        }
        _ => {}
    }
}

/// Moves the root out of its heap node, and frees that node, if the root's prefix is a key (a
/// prefix that the tree keeps) and has no keys below it any more. Otherwise does nothing. Keys and
/// routes stay as they are.
fn unbox_leaf<K: PackedPrefix, R: Drop>(tree: &mut Tree<K, R>)
    requires { HasCorrectMarks tree.old }
    ensures marked { HasCorrectMarks tree.new }
    ensures shape { shape_of K.network tree.new ≡ shape_of K.network tree.old }
{
    if let Tree::Rooted(_, prefix, node) = tree {
        let prefix = *prefix;
        if let Tree::Empty = node.left {
            if let Tree::Empty = node.right {
                match mem::replace(&mut node.slot, KeySlot::NoKey) {
                    KeySlot::NoKey => {}
                    KeySlot::Vacant => *tree = Tree::Bare(prefix),
                    KeySlot::Filled(route) => *tree = Tree::Leaf(prefix, route),
                }
            }
        }
    }
}
