//! A peer and a prefix, at which a player's table has at most one route. Steps (played events) keep
//! the routes that they replace by pair.

use ip_prefix::Prefix;
use mrt_events::Peer;

/// A peer and a prefix. The player's table has at most one route for each pair: the one that the
/// peer announced last for the prefix and neither withdrew nor lost with its session. Pairs are
/// ordered by peer, then by prefix.
#[derive(Clone, Copy, Debug, PartialEq, Eq, PartialOrd, Ord)]
pub(crate) struct Pair {
    /// The peer that announces and withdraws routes to the prefix.
    pub(crate) peer: Peer,
    /// The destination of the routes, an IPv4 or IPv6 prefix.
    pub(crate) prefix: Prefix,
}
