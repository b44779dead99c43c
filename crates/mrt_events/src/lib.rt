//! What MRT records (RFC 6396) say: announcements, withdrawals and state changes of peers, as
//! events. `mrt_wire` makes an event of each record, `bgpdump_lines` prints events, and
//! `rib_player` applies them to tables of routes. Read [`Event`] first, then [`Item`].
#![tactic(auto)]

mod event;
mod laws;
mod peer;
mod route_memory;
mod same;
mod stamp;

pub use event::{ESTABLISHED, Event, Item, Items, Route, SharedRange, SharedRanges, Tag, Time};
pub use laws::law_peer_order;
pub use peer::Peer;
pub use route_memory::{max_route_size, route_size};
pub use same::{same_peer, same_prefix, same_route};
pub use stamp::Stamp;
