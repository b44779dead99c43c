//! Descents: walks down the trees towards eight prefixes at once, which only read the nodes, before
//! routes are put or taken there. So the processor fetches the nodes of all eight into its cache
//! together, and doesn't wait for one after the other. `RadixStore::prefetch` calls
//! [`PrefetchDescents::run`]; read [`PrefetchDescent`] first.

use crate::tree::Tree;
use ip_prefix::Prefix;
use prefix_store::{PackedPrefix, V4Prefix};

/// The greatest number of leading bits of a prefix that a descent (a walk that reads nodes into the
/// processor's cache) reads. It doesn't go on below nodes whose prefixes have as many bits or more.
const MOST_BITS: u8 = 64;

/// The greatest number of nodes that a descent (a walk that reads nodes into the processor's cache)
/// passes: more than lie above the prefixes of the Internet's tables. A node below these isn't read
/// in advance, and the call after the descent waits for it.
const MOST_NODES: u8 = 32;

/// A walk down a tree towards a prefix that only reads nodes, so that they are in the processor's
/// cache for a later look-up. At each node, one bit of the prefix selects the left or the right
/// child; prefixes aren't compared. It ends at a node without children, or at one whose own prefix
/// is at least as long as the prefix of the walk or has at least [`MOST_BITS`] bits.
#[derive(Drop)]
pub(crate) struct PrefetchDescent<'a, R> {
    /// The subtree that the descent has come to.
    root: DescentPosition<'a, R>,
    /// The first 64 bits of the prefix, the first one highest, filled up with zeros.
    bits: u64,
    /// The number of leading bits of the prefix that may be read: its length, but at most
    /// [`MOST_BITS`]. The descent doesn't go below a node whose prefix has as many bits or more.
    usable_bits: u8,
}

/// The place that a [`PrefetchDescent`], a walk that reads nodes into the processor's cache, has
/// come to: a subtree whose root it reads next, or its end.
#[derive(Drop)]
pub(crate) enum DescentPosition<'a, R> {
    /// No subtree: the descent reads nothing.
    Ended,
    /// A subtree of IPv4 prefixes, whose root is to be read next.
    V4(&'a Tree<V4Prefix, R>),
    /// A subtree of IPv6 prefixes, whose root is to be read next.
    V6(&'a Tree<Prefix, R>),
}

impl<'a, R> PrefetchDescent<'a, R> {
    /// Returns a descent (a walk that reads nodes into the processor's cache) that is at its end
    /// already, and reads no node.
    pub(crate) fn ended() -> Self {
        PrefetchDescent {
            root: DescentPosition::Ended,
            bits: 0,
            usable_bits: 0,
        }
    }

    /// Returns a descent (a walk that reads nodes into the processor's cache) that starts at
    /// `root`, the root of a tree, and goes towards `prefix`. Expects the tree to be for the
    /// prefix's address family; otherwise the nodes that it reads are of no use for a look-up of
    /// `prefix`.
    pub(crate) fn new(root: DescentPosition<'a, R>, prefix: &Prefix) -> Self {
        PrefetchDescent {
            root,
            bits: prefix.high_64_bits(),
            usable_bits: prefix.len().min(MOST_BITS),
        }
    }

    /// Moves the descent from its node to the child on the way to its target prefix, and returns
    /// `true`: the left one if the target has a 0 after as many bits as the node's prefix has, the
    /// right one for a 1. Returns `false`, and stays, if the descent is at its end, the node has no
    /// children, or its prefix has `usable_bits` bits or more, as many as the target has or a
    /// prefetch reads.
    #[inline]
    fn advance(&mut self) -> bool {
        let next = match &self.root {
            DescentPosition::Ended => return false,
            DescentPosition::V4(tree) => match child_towards(tree, self.bits, self.usable_bits) {
                Some(next) => DescentPosition::V4(next),
                None => return false,
            },
            DescentPosition::V6(tree) => match child_towards(tree, self.bits, self.usable_bits) {
                Some(next) => DescentPosition::V6(next),
                None => return false,
            },
        };
        self.root = next;
        true
    }
}

/// Returns the child of the root of `tree` on the way to a prefix, or `None` if a descent (a walk
/// that reads nodes into the processor's cache) ends at the root. `bits` has the first 64 bits of
/// the prefix, the first one highest. If the root's own prefix has n bits, bit n (counted from 0)
/// selects the child: the left one if it is 0, the right one if it is 1. `usable_bits`, at most 64,
/// is the number of bits that may be read: the descent ends if n isn't less, or if the root has no
/// children.
#[inline]
fn child_towards<'a, K: PackedPrefix, R>(
    tree: &'a Tree<K, R>,
    bits: u64,
    usable_bits: u8,
) -> Option<&'a Tree<K, R>> {
    let (prefix, left, right) = match tree {
        Tree::Forked(_, prefix, fork) => (prefix, &fork.left, &fork.right),
        Tree::Rooted(_, prefix, node) => (prefix, &node.left, &node.right),
        _ => return None,
    };
    if prefix.len() >= usable_bits {
        return None;
    }
    let is_right = bits.wrapping_shl(u32::from(prefix.len())) >> (u64::BITS - 1) == 1;
    Some(if is_right { right } else { left })
}

/// Eight walks down trees, each towards a prefix of its own, which read nodes into the processor's
/// cache. They advance together, so that the processor fetches their nodes at the same time.
#[derive(Drop)]
pub(crate) struct PrefetchDescents<'a, R> {
    pub(crate) first: PrefetchDescent<'a, R>,
    pub(crate) second: PrefetchDescent<'a, R>,
    pub(crate) third: PrefetchDescent<'a, R>,
    pub(crate) fourth: PrefetchDescent<'a, R>,
    pub(crate) fifth: PrefetchDescent<'a, R>,
    pub(crate) sixth: PrefetchDescent<'a, R>,
    pub(crate) seventh: PrefetchDescent<'a, R>,
    pub(crate) eighth: PrefetchDescent<'a, R>,
}

impl<'a, R> PrefetchDescents<'a, R> {
    /// Advances the eight descents (walks that read nodes into the processor's cache) by one node
    /// each, again and again, until none can go on, but at most [`MOST_NODES`] times. Returns the
    /// number of nodes by which the longest one advanced. Callers use that number, since the
    /// compiler may otherwise remove the reads.
    pub(crate) fn run(&mut self) -> u64 {
        'nodes: for passed in 0..MOST_NODES {
            if !self.advance_all() {
                return u64::from(passed);
            }
        }
        u64::from(MOST_NODES)
    }

    /// Moves each of the eight descents (walks that read nodes into the processor's cache) from its
    /// node to a child, if it can go on. Returns `true` if at least one of them moved, and `false`
    /// if none can.
    #[inline]
    fn advance_all(&mut self) -> bool {
        let first_four = self.first.advance()
            | self.second.advance()
            | self.third.advance()
            | self.fourth.advance();
        let last_four = self.fifth.advance()
            | self.sixth.advance()
            | self.seventh.advance()
            | self.eighth.advance();
        first_four | last_four
    }
}
