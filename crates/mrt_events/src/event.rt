//! Events, which are the contents of MRT records, and their parts: items, routes and times.
//! `mrt_wire` makes an [`Event`] of each record that it accepts; printers and the player of routing
//! tables go through its items. Read [`Event`] first, then [`Item`].

ghost use Rattle.std.specs.Prelude.{◌≡◌};

use crate::peer::Peer;
use bgp_wire::Attrs;
use ip_prefix::Prefix;
use std::alloc::AllocError;
use std::marker::Model;
use std::rc::Rc;

/// The timestamp of an MRT record, in seconds since 1970, with microseconds if the record is a
/// BGP4MP_ET one (RFC 6396, sections 2 and 3).
#[derive(Clone, Copy, Debug, PartialEq, Eq)]
pub struct Time {
    /// Seconds since 1970-01-01 00:00:00 UTC.
    pub seconds: u32,
    /// Microseconds after `seconds`, below 1,000,000. `None` if the record's type has none: only
    /// those of BGP4MP_ET do (RFC 6396, section 3).
    pub micros: Option<u32>,
}

/// The type of MRT record that an [`Event`] was made from.
#[derive(Clone, Copy, Debug, PartialEq, Eq)]
pub enum Tag {
    /// An entry of a routing table, of one peer and one prefix: a TABLE_DUMP record (RFC 6396,
    /// section 4.2).
    TableDump,
    /// Entries of a routing table, of several peers for one prefix, or the table of the peers that
    /// such entries refer to, which makes no items: a TABLE_DUMP_V2 record (RFC 6396, section 4.3).
    TableDump2,
    /// A BGP message of a peer, or a change of its session's state: a BGP4MP record (RFC 6396,
    /// section 4.4).
    Bgp4mp,
    /// A BGP message of a peer, or a change of its session's state, with microseconds: a BGP4MP_ET
    /// record (RFC 6396, section 3).
    Bgp4mpEt,
}

/// The path attributes and the time of a route. Its peer and its prefix aren't in it, so that one
/// value can be shared by many prefixes; they are beside it, as in [`Item::Announce`].
#[derive(Debug, Drop)]
pub struct Route {
    /// The path attributes, with the next hop.
    pub attrs: Attrs,
    /// The time of the route, in seconds since 1970: the timestamp of its record or, for an entry
    /// of a routing table, the one that a [`Stamp`](crate::Stamp) chooses: when the table was
    /// dumped, or when the route last changed.
    pub time: u32,
}

impl Clone for Route {
    ghost is_clone = { λ route copy. copy ≡ route };

    fn clone(&self) -> Result<Route, AllocError> {
        Ok(Route {
            attrs: self.attrs.clone()?,
            time: self.time,
        })
    }
}

/// The number of the session state Established, in which peers exchange routes (RFC 6396, section
/// 4.4.1).
pub const ESTABLISHED: u16 = 6;

/// One change that an MRT record reports: of a peer's route to a prefix, or of the state of the
/// session with a peer.
#[derive(Debug, Drop)]
pub enum Item {
    /// The peer announces the prefix with this route, which replaces the route that it had. Entries
    /// of routing tables are announcements too. Items with equal routes may share one `Rc`.
    Announce(Peer, Prefix, Rc<Route>),
    /// The peer withdraws the prefix: from now on it has no route to it.
    Withdraw(Peer, Prefix),
    /// The session with the peer went from the first state to the second, by their numbers (1 for
    /// Idle to 6 for Established: RFC 4271, section 8.2.2; RFC 6396, section 4.4.1).
    State(Peer, u16, u16),
}

/// A range of the items of an [`Event`], all of which are announcements by one peer with equal
/// routes. So a user may handle peer and route once for all of them. The range may be empty.
#[derive(Clone, Copy, Debug, PartialEq, Eq)]
pub struct SharedRange {
    /// The index of the first item of the range.
    pub start: usize,
    /// The index after the last item of the range. It equals `start` if the range is empty.
    pub end: usize,
}

/// Two adjacent ranges of the items of an [`Event`]. In each range, all items are announcements by
/// one peer with equal routes; the second range may have another peer or route than the first. So a
/// user may handle peer and route once per range. Either may be empty.
#[derive(Clone, Copy, Debug, PartialEq, Eq)]
pub struct SharedRanges {
    /// The index of the first item of the first range.
    pub start: usize,
    /// The index after the last item of the first range, at which the second range begins.
    pub middle: usize,
    /// The index after the last item of the second range.
    pub end: usize,
}

/// The items of an event, in order, and two adjacent ranges of them, of which either may be empty
/// ([`SharedRanges`]). In each range, all items are announcements by one peer with equal routes.
/// Contracts regard the value as the list of the items, with the route itself in place of each
/// `Rc`, and without the ranges.
#[derive(Debug, Drop)]
pub struct Items {
    items: Vec<Item>,
    shared: SharedRanges,
}

impl Model for Items {
    ghost use Rattle.std.specs.Prelude.{List, map};
    ghost use Rattle.mrt_events.specs.Event.{ItemValue, item_value};
    ghost use Rattle.mrt_events.specs.SharedRoute.{AreSharedRanges};

    ghost Value = { List ItemValue };

    ghost view = { λ a. map item_value a.items.items };

    ghost invariant = { λ a. AreSharedRanges a.shared (map item_value a.items.items) };
}

impl Items {
    ghost use Rattle.std.specs.Prelude.{◌≤◌, length, map, slice_range};
    ghost use Rattle.mrt_events.specs.Event.{item_value};
    ghost use Rattle.mrt_events.specs.SharedRoute.{AnnounceOneRoute, AreSharedRanges};

    /// Converts a vector into items, in its order. It doesn't look for items that share a route:
    /// [`Items::shared_ranges`] returns two empty ranges for them, which is always right.
    pub fn from_vec(items: Vec<Item>) -> Items
        ensures { result ≡ map item_value items.items }
    {
        Items {
            items,
            shared: SharedRanges {
                start: 0,
                middle: 0,
                end: 0,
            },
        }
    }

    /// Converts a vector into items, in its order, of which the ranges `start..middle` and
    /// `middle..end` of `shared` each share a route, so that users can handle these faster.
    /// Requires that `start <= middle <= end`, that `end` is at most the number of items, and that
    /// in each of the two ranges all items are announcements of one peer with equal routes. The two
    /// ranges may have different peers and routes.
    pub fn with_shared_ranges(items: Vec<Item>, shared: SharedRanges) -> Items
        requires { AreSharedRanges shared (map item_value items.items) }
        ensures { result ≡ map item_value items.items }
    {
        Items { items, shared }
    }

    /// Converts the items into a vector, in order. The shared ranges are lost.
    pub fn into_vec(self) -> Vec<Item>
        ensures { map item_value result.items ≡ self }
    {
        let Items { items, .. } = self;
        items
    }

    /// Returns the items as a slice, in order.
    pub fn as_slice(&self) -> &[Item]
        ensures { map item_value result.now ≡ self.now }
    {
        &self.items
    }

    /// Returns the longer of the two ranges of [`Items::shared_ranges`], or the first if both are
    /// equally long. All its items are announcements by one peer with equal routes. It may be
    /// empty, and items outside of it may have this peer and route too. Its indices are at most the
    /// number of items.
    pub fn longest_shared_range(&self) -> SharedRange
        ensures ordered { result.start ≤ result.end }
        ensures within { result.end ≤ length self.now }
        ensures alike { AnnounceOneRoute (slice_range self.now result.start result.end) }
    {
        let SharedRanges { start, middle, end } = self.shared;
        if end.saturating_sub(middle) > middle.saturating_sub(start) {
            return SharedRange { start: middle, end };
        }
        SharedRange { start, end: middle }
    }

    /// Returns two ranges of the indices of items, the second of which begins where the first ends.
    /// In each, all items are announcements by one peer with equal routes. Either range may be
    /// empty, and items outside of both may share a route too. The indices are in ascending order,
    /// and at most the number of items.
    pub fn shared_ranges(&self) -> SharedRanges
        ensures { AreSharedRanges result self.now }
    {
        self.shared
    }
}

/// The content of an MRT record: its type, its time, and the changes that it reports.
#[derive(Debug, Drop)]
pub struct Event {
    // In this order of the fields no padding is before the items, so that an event is moved in
    // whole words.
    /// The type of the record.
    pub tag: Tag,
    /// The timestamp of the record: when it was written.
    pub time: Time,
    /// The changes that the record reports, in order. There are none for some records, such as a
    /// KEEPALIVE or a table of peers.
    pub items: Items,
}
