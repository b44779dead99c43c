//! Counts of the nodes, the keys (prefixes that the tree keeps, with or without a route) and the
//! routes of a tree. Each visits all nodes. `radix_store.rt` keeps counts of keys and routes
//! itself, and calls these only if its own count was above `u64::MAX`. Read [`Tree::count_nodes`]
//! first.

ghost use Rattle.std.specs.Prelude.{◌≡◌, length};
ghost use Rattle.rib_store.specs.Tree.{shape_of, slots_of};
ghost use Rattle.prefix_store.specs.Stored.{saturated_count};
ghost use Rattle.rib_store.specs.Walks.{all_routes, node_count};

use crate::tree::{KeySlot, Tree};
use prefix_store::PackedPrefix;

impl<K: PackedPrefix, R> Tree<K, R> {
    /// Returns the number of nodes of the tree, or `u64::MAX` if there are more: one for each key
    /// (a prefix that the tree keeps, with or without a route), and one for each branch whose
    /// prefix isn't a key. Visits all nodes.
    pub(crate) fn count_nodes(&self) -> u64
        ensures { result ≡ saturated_count (node_count (shape_of K.network self.now)) }
    {
        match self {
            Tree::Empty => 0,
            Tree::Bare(_) | Tree::Leaf(_, _) => 1,
            Tree::Rooted(_, _, node) => node
                .left
                .count_nodes()
                .saturating_add(node.right.count_nodes())
                .saturating_add(1),
            Tree::Forked(_, _, fork) => fork
                .left
                .count_nodes()
                .saturating_add(fork.right.count_nodes())
                .saturating_add(1),
        }
    }

    /// Returns the number of keys of the tree (prefixes that it keeps, with or without a route), or
    /// `u64::MAX` if there are more. Visits all nodes.
    pub(crate) fn count_keys(&self) -> u64
        ensures { result ≡ saturated_count (length (slots_of (shape_of K.network self.now))) }
    {
        match self {
            Tree::Empty => 0,
            Tree::Bare(_) | Tree::Leaf(_, _) => 1,
            Tree::Rooted(_, _, node) => {
                let below = node
                    .left
                    .count_keys()
                    .saturating_add(node.right.count_keys());
                match node.slot {
                    KeySlot::NoKey => below,
                    _ => below.saturating_add(1),
                }
            }
            Tree::Forked(_, _, fork) => fork
                .left
                .count_keys()
                .saturating_add(fork.right.count_keys()),
        }
    }

    /// Returns the number of routes in the tree, at most one for each prefix, or `u64::MAX` if
    /// there are more. Visits all nodes.
    #[tactic(auto, using(crate::proofs::FillLaws::count_rooted))]
    pub(crate) fn count_routes(&self) -> u64
        ensures { result ≡ saturated_count (length (all_routes (shape_of K.network self.now))) }
    {
        match self {
            Tree::Empty | Tree::Bare(_) => 0,
            Tree::Leaf(_, _) => 1,
            Tree::Rooted(_, _, node) => {
                let below = node
                    .left
                    .count_routes()
                    .saturating_add(node.right.count_routes());
                match node.slot {
                    KeySlot::Filled(_) => below.saturating_add(1),
                    _ => below,
                }
            }
            Tree::Forked(_, _, fork) => fork
                .left
                .count_routes()
                .saturating_add(fork.right.count_routes()),
        }
    }
}
