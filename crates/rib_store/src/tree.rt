//! A path-compressed radix tree of the prefixes of one address family.
//! [`RadixStore`](crate::RadixStore) has one for each family. Read [`Tree`] first. Its operations
//! are in the modules below: look-ups in `lookups.rt`, new keys (prefixes that the tree keeps) in
//! `puts.rt`, routes in `routes.rt`, and removed keys in `keys.rt`.

ghost use Rattle.std.specs.Prelude.{◌≡◌, true, false, Some, None, is_some, MatchOption, [], ◌∷◌, vec_capacity, option_copied, option_map, option_to_list};
ghost use Rattle.prefix_store.specs.Lookups.{dereferenced};
ghost use Rattle.rib_store.specs.declared.tree.KeySlot.TheVariants.{NoKey};
ghost use Rattle.rib_store.specs.Tree.{slot_of, has_routes, is_filled, any_has_routes, any_routes_elsewhere};
ghost use Rattle.rib_store.specs.Walks.{routed_at, filled};

mod counts;
mod descents;
mod keys;
mod lookups;
mod nodes;
mod puts;
mod routes;

pub(crate) use descents::{DescentPosition, PrefetchDescent, PrefetchDescents};
use ip_prefix::{Prefix, Turn};
use prefix_store::V4Prefix;
use std::mem::size_of;
use std::rc::Rc;

/// A path-compressed radix tree, or a subtree of one, of keys: prefixes that it keeps, with or
/// without a route. A prefix below a node is in its left child if the first bit after the node's
/// own prefix is 0, and in its right child if that bit is 1. A key without keys below it is stored
/// in its parent; every other node is on the heap. `K` is the type of the prefixes, of one address
/// family, and `R` the type of the routes.
#[cycle(tree)]
#[derive(Drop)]
pub(crate) enum Tree<K, R> {
    /// No node.
    Empty,
    /// A key (a prefix that the tree keeps) without a route and without keys below it.
    Bare(K),
    /// A key (a prefix that the tree keeps) with this route and without keys below it.
    Leaf(K, R),
    /// A fork: a branch, whose prefix isn't a key but covers keys on both sides. It has its mark,
    /// which is whether some key below it has a route, its prefix, and its children. Walks over the
    /// routes skip a node whose mark is `false` without visiting its children.
    Forked(bool, K, Box<Fork<K, R>>),
    /// A key with keys below it, or a branch that was such a key before: its mark, which is whether
    /// it or some key below it has a route; its prefix; and its slot and its children. Removing a
    /// key with two children leaves such a branch, since making another node would allocate memory.
    Rooted(bool, K, Box<Node<K, R>>),
}

/// The two children of a fork: a node whose prefix isn't a key (a prefix that the tree keeps), but
/// covers keys on both sides. The prefix itself is in [`Tree::Forked`].
#[cycle(tree)]
#[derive(Drop)]
pub(crate) struct Fork<K, R> {
    left: Tree<K, R>,
    right: Tree<K, R>,
}

/// The slot and the two children of a node whose prefix is a key (a prefix that the tree keeps,
/// with or without a route), or was one before. The slot tells whether it is a key, and holds its
/// route. The prefix itself is in [`Tree::Rooted`]. A node whose prefix never was a key has a
/// [`Fork`] instead.
#[cycle(tree)]
#[derive(Drop)]
pub(crate) struct Node<K, R> {
    slot: KeySlot<R>,
    left: Tree<K, R>,
    right: Tree<K, R>,
}

/// The greatest size of an IPv4 [`Fork`], in octets, if a route is a pointer. The build fails if a
/// [`Fork`] is greater.
const V4_FORK_OCTETS: usize = 32;

/// The greatest size of an IPv6 [`Fork`], in octets, if a route is a pointer. The build fails if a
/// [`Fork`] is greater.
const V6_FORK_OCTETS: usize = 80;

const _: () = prove!(size_of::<Fork<V4Prefix, Rc<u32>>>() <= V4_FORK_OCTETS);

const _: () = prove!(size_of::<Fork<Prefix, Rc<u32>>>() <= V6_FORK_OCTETS);

/// The greatest size of an IPv4 [`Node`], in octets, if a route is a pointer. The build fails if a
/// [`Node`] is greater.
const V4_NODE_OCTETS: usize = 48;

/// The greatest size of an IPv6 [`Node`], in octets, if a route is a pointer. The build fails if a
/// [`Node`] is greater.
const V6_NODE_OCTETS: usize = 96;

const _: () = prove!(size_of::<Node<V4Prefix, Rc<u32>>>() <= V4_NODE_OCTETS);

const _: () = prove!(size_of::<Node<Prefix, Rc<u32>>>() <= V6_NODE_OCTETS);

/// What a node of a tree holds of its prefix: whether it is a key (a prefix that the tree keeps,
/// with or without a route), and its route.
#[derive(Drop)]
pub(crate) enum KeySlot<R> {
    /// The prefix of the node isn't a key. The node is there for its two children.
    NoKey,
    /// The prefix is a key without a route.
    Vacant,
    /// The prefix is a key with this route.
    Filled(R),
}

impl<K, R> Tree<K, R> {
    /// Returns `true` if the tree has at least one route. Visits the root only, which has a mark
    /// that tells it for the whole tree.
    fn has_routes(&self) -> bool
        ensures { result ≡ has_routes self.now }
    {
        match self {
            Tree::Empty => false,
            Tree::Bare(_) => false,
            Tree::Leaf(_, _) => true,
            Tree::Rooted(routed, _, _) => *routed,
            Tree::Forked(routed, _, _) => *routed,
        }
    }
}

impl<K, R> Fork<K, R> {
    /// Returns `true` if at least one prefix below the fork has a route. Reads it from the marks of
    /// the two children (each tells whether that subtree has a route), and visits nothing below
    /// them.
    fn has_routes(&self) -> bool
        ensures { result ≡ any_has_routes NoKey self.now.left self.now.right }
    {
        self.left.has_routes() || self.right.has_routes()
    }

    /// Returns `true` if a subtree below the fork other than the child on the side `turn` has a
    /// route: the right child if `turn` is `Left`, the left one if it is `Right`, or either if it
    /// is `Here` or `Outside`. Reads it from the marks of the two children (each tells whether that
    /// subtree has a route), and visits nothing below them.
    fn has_routes_elsewhere(&self, turn: Turn) -> bool
        ensures { result ≡ any_routes_elsewhere turn NoKey self.now.left self.now.right }
    {
        match turn {
            Turn::Left => self.right.has_routes(),
            Turn::Right => self.left.has_routes(),
            _ => self.has_routes(),
        }
    }

    /// Returns `true` if the fork's mark (whether some prefix below it has a route) is `true` and
    /// surely stays so after a change in the child on the side `turn`, `Left` or `Right`. `routed`
    /// is the mark before the change. `adds_route` is `true` if the change puts a route there, and
    /// `false` if it may take one away. If `false` is returned, the other child has no route, and
    /// the caller sets the mark to whether the changed child has one.
    #[inline]
    #[tactic(auto, using(crate::proofs::MarkLaws::none_beside))]
    fn has_routes_after_change(&self, routed: bool, adds_route: bool, turn: Turn) -> bool
        requires { routed ≡ any_has_routes NoKey self.now.left self.now.right }
        ensures routed { result ≡ true → routed ≡ true }
        ensures beside { result ≡ true → adds_route ≡ false →
            any_routes_elsewhere turn NoKey self.now.left self.now.right ≡ true }
        ensures alone { result ≡ false →
            any_routes_elsewhere turn NoKey self.now.left self.now.right ≡ false }
    {
        if adds_route {
            return routed;
        }
        self.has_routes_elsewhere(turn)
    }
}

impl<K, R> Node<K, R> {
    /// Returns `true` if the node's own prefix or some prefix below it has a route. Reads it from
    /// the slot and the marks of the two children (each tells whether that subtree has a route),
    /// and visits nothing below them.
    fn has_routes(&self) -> bool
        ensures { result ≡ any_has_routes self.now.slot self.now.left self.now.right }
    {
        self.left.has_routes() || self.right.has_routes() || self.slot.is_filled()
    }

    /// Returns `true` if the node's own prefix or some prefix below it has a route, leaving out one
    /// part: the child on the side `turn` if that is `Left` or `Right`, or the node's own prefix if
    /// it is `Here` or `Outside`. Reads it from the slot and the marks of the two children (each
    /// tells whether that subtree has a route), and visits nothing below them.
    fn has_routes_elsewhere(&self, turn: Turn) -> bool
        ensures { result ≡
            any_routes_elsewhere turn self.now.slot self.now.left self.now.right }
    {
        match turn {
            Turn::Left => self.slot.is_filled() || self.right.has_routes(),
            Turn::Right => self.slot.is_filled() || self.left.has_routes(),
            _ => self.left.has_routes() || self.right.has_routes(),
        }
    }

    /// Returns `true` if the node's mark (whether its own prefix or some prefix below it has a
    /// route) is `true` and surely stays so after a change in one part: the child on the side
    /// `turn`, or the node's own slot if that is neither `Left` nor `Right`. `routed` is the mark
    /// before the change. `adds_route` is `true` if the change puts a route there, and `false` if
    /// it may take one away. If `false` is returned, the other parts have no route, and the caller
    /// sets the mark to whether the changed part has one.
    #[inline]
    #[tactic(auto, using(crate::proofs::MarkLaws::none_beside))]
    fn has_routes_after_change(&self, routed: bool, adds_route: bool, turn: Turn) -> bool
        requires { routed ≡ any_has_routes self.now.slot self.now.left self.now.right }
        ensures routed { result ≡ true → routed ≡ true }
        ensures beside { result ≡ true → adds_route ≡ false →
            any_routes_elsewhere turn self.now.slot self.now.left self.now.right ≡ true }
        ensures alone { result ≡ false →
            any_routes_elsewhere turn self.now.slot self.now.left self.now.right ≡ false }
    {
        if adds_route {
            return routed;
        }
        self.has_routes_elsewhere(turn)
    }
}

impl<R> KeySlot<R> {
    /// Returns `true` if the slot has a route, and `false` if the node's prefix has none, whether
    /// or not it is a key (a prefix that the tree keeps).
    fn is_filled(&self) -> bool
        ensures { result ≡ is_filled self.now }
    {
        matches!(self, KeySlot::Filled(_))
    }

    /// Returns what the slot tells of the node's prefix: `None` if it isn't a key (a prefix that
    /// the tree keeps, with or without a route), `Some(None)` if it is a key without a route, and
    /// `Some(Some(route))` if it has one.
    pub(crate) fn route_if_key(&self) -> Option<Option<&R>>
        ensures { option_map (λ slot. option_copied slot) result ≡ slot_of self.now }
    {
        match self {
            KeySlot::NoKey => None,
            KeySlot::Vacant => Some(None),
            KeySlot::Filled(route) => Some(Some(route)),
        }
    }

    /// Returns the route in the slot together with `prefix`, the prefix of the node, or `None` if
    /// there is no route.
    fn route_with_prefix(&self, prefix: Prefix) -> Option<(Prefix, &R)>
        ensures { MatchOption result (routed_at prefix (slot_of self.now) ≡ None)
            (λ found. routed_at prefix (slot_of self.now) ≡ Some (found.0, found.1.now)) }
    {
        match self {
            KeySlot::Filled(route) => Some((prefix, route)),
            _ => None,
        }
    }

    /// Appends the route in the slot, together with `prefix`, the prefix of the node, to `found`.
    /// Does nothing if there is no route, or if `found` has no spare capacity; so it allocates no
    /// memory.
    fn add_route_if_any<'a>(&'a self, prefix: Prefix, found: &mut Vec<(Prefix, &'a R)>)
        ensures found { dereferenced found.new.items ≡ filled (vec_capacity found.old)
            (dereferenced found.old.items) (option_to_list (routed_at prefix (slot_of self.now))) }
        ensures room { vec_capacity found.new ≡ vec_capacity found.old }
    {
        match self {
            KeySlot::Filled(route) => add_route(prefix, route, found),
            _ => {}
        }
    }
}

/// Appends `prefix` and `route` to `found`, without allocating memory. Does nothing if `found` has
/// no spare capacity.
fn add_route<'a, R>(prefix: Prefix, route: &'a R, found: &mut Vec<(Prefix, &'a R)>)
    ensures found { dereferenced found.new.items ≡ filled (vec_capacity found.old)
        (dereferenced found.old.items) ((prefix, route.now) ∷ []) }
    ensures room { vec_capacity found.new ≡ vec_capacity found.old }
{
    if found.len() < found.capacity() {
        found.push_reserved((prefix, route));
    }
}
