//! A table that interns routes: of routes that are equal, it keeps one shared `Rc` and returns it
//! for the others, so that equal routes take memory once. `rib_player`, which applies BGP events to
//! routing tables, looks up the routes of each event in it. Read `routes.rt` first, then the hash
//! table in `slots.rt`, and its slots in `slot.rt`.
#![tactic(auto)]

mod ordered_routes;
mod route_hash;
mod route_order;
mod routes;
mod slot;
mod slots;
mod spare_room;

pub use route_hash::peer_hash;
pub use routes::RouteInterner;
