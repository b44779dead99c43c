//! Turning the parsed parts of an UPDATE into items: withdrawals and announcements. `session.rt`
//! calls [`items_of_update`] once `read_message_into` of `bgp_wire` has parsed an UPDATE into
//! `Pool::parts`; read that first.

ghost use Rattle.std.specs.Prelude.{◌≡◌, ◌++◌, ◌∷◌, [], true, map, OnOk, IfOk};
ghost use Rattle.bgp_wire.specs.Parts.{update_of_parts};
ghost use Rattle.mrt_events.specs.Event.{Withdrawn, item_value};
ghost use Rattle.mrt_wire.specs.Items.{update_items};
ghost use Rattle.mrt_wire.specs.Decoding.{AddsItems, announced_with};

use crate::pool::Pool;
use crate::route_pool::RoutePool;
use bgp_wire::{Attrs, Prefixes, UpdateBuffer};
use ip_prefix::Addr;
use mrt_events::{Item, Items, Peer, Route, SharedRanges};
use std::alloc::{AllocError, Global};
use std::rc::Rc;

/// Prefixes that an UPDATE announces with the same attributes: those of its NLRI field, or those of
/// MP_REACH_NLRI.
#[derive(Clone, Copy)]
struct AnnouncedPrefixes<'a, 'b> {
    /// The peer that sent the UPDATE.
    peer: &'a Peer,
    /// The prefixes, which the one route is for. There may be none.
    prefixes: &'b Prefixes,
    /// The time of the route, in seconds since 1970.
    seconds: u32,
    /// Whether the attributes are needed again, for other prefixes of the UPDATE, so that they are
    /// copied into the route and not moved.
    keep_attrs: bool,
}

/// Appends a withdrawal by `peer` of each of `prefixes` to `items`, in order. Fails if memory
/// allocation fails; `items` has some of the withdrawals then.
fn add_withdrawals(
    items: &mut Vec<Item>,
    peer: &Peer,
    prefixes: &Prefixes,
) -> Result<(), AllocError>
    ensures { OnOk result (AddsItems items.old.items items.new.items
        (map (Withdrawn peer.now) prefixes.now)) }
{
    for prefix in prefixes.as_slice() {
        items.push(Item::Withdraw(*peer, *prefix))?;
    }
    Ok(())
}

/// Appends an announcement of each prefix of `announcement` to `items`, all with one shared route,
/// which is made from `attrs` in the memory of `routes`. Does nothing if there are no prefixes. If
/// `announcement.keep_attrs` is `true`, `attrs` is left as it is, on an error too; otherwise it may
/// be moved into the route, and is unspecified afterwards. Fails if memory allocation fails;
/// `items` may have some of the announcements then.
#[inline(always)]
fn add_announcements(
    alloc: Global,
    routes: &mut RoutePool,
    items: &mut Vec<Item>,
    announcement: AnnouncedPrefixes<'_, '_>,
    attrs: &mut Attrs,
) -> Result<(), AllocError>
    ensures added { OnOk result (AddsItems items.old.items items.new.items
        (announced_with announcement.entry attrs.old)) }
    ensures kept { announcement.entry.keep_attrs ≡ true → attrs.new ≡ attrs.old }
{
    let AnnouncedPrefixes {
        peer,
        prefixes,
        seconds,
        keep_attrs,
    } = announcement;
    if prefixes.as_slice().is_empty() {
        return Ok(());
    }
    let route = routes.make_route(alloc, attrs, seconds, keep_attrs)?;
    for prefix in prefixes.as_slice() {
        let shared = route.clone()?;
        items.push(Item::Announce(*peer, *prefix, shared))?;
    }
    Ok(())
}

/// Returns the number of prefixes that `parts` withdraws and announces together, or `usize::MAX` if
/// there are more. An event has one item for each of them.
#[inline]
fn prefix_count(parts: &UpdateBuffer) -> usize {
    let withdrawn = parts.withdrawn.as_slice().len();
    let mp_withdrawn = parts.mp_withdrawn.as_slice().len();
    let announced = parts.announced.as_slice().len();
    let mp_announced = parts.mp_announced.as_slice().len();
    withdrawn
        .saturating_add(mp_withdrawn)
        .saturating_add(announced)
        .saturating_add(mp_announced)
}

/// Returns the items of the UPDATE from `peer` that was parsed into `pool.parts`: its withdrawals,
/// those of MP_UNREACH_NLRI last, and then its announcements, those of MP_REACH_NLRI last (RFC
/// 4760, sections 3 and 4). `seconds`, in seconds since 1970, becomes the time of the routes. Fails
/// if memory allocation fails. The attributes in `pool.parts` are unspecified afterwards.
#[inline]
pub(crate) fn items_of_update(
    alloc: Global,
    pool: &mut Pool,
    peer: &Peer,
    seconds: u32,
) -> Result<Items, AllocError>
    ensures { IfOk result (λ items.
        items ≡ update_items peer.now seconds (update_of_parts pool.old.parts)) }
{
    let count = prefix_count(&pool.parts);
    let mut items = pool.take_items(alloc);
    items.reserve(count)?;
    add_withdrawals(&mut items, peer, &pool.parts.withdrawn)?;
    add_withdrawals(&mut items, peer, &pool.parts.mp_withdrawn)?;
    let start = items.len();
    let keep_attrs = !pool.parts.mp_announced.as_slice().is_empty();
    add_announcements(
        alloc,
        &mut pool.routes,
        &mut items,
        AnnouncedPrefixes {
            peer,
            prefixes: &pool.parts.announced,
            seconds,
            keep_attrs,
        },
        &mut pool.parts.attrs,
    )?;
    let middle = items.len();
    pool.parts.attrs.next_hop = pool.parts.mp_hop;
    add_announcements(
        alloc,
        &mut pool.routes,
        &mut items,
        AnnouncedPrefixes {
            peer,
            prefixes: &pool.parts.mp_announced,
            seconds,
            keep_attrs: false,
        },
        &mut pool.parts.attrs,
    )?;
    let end = items.len();
    Ok(Items::with_shared_ranges(items, SharedRanges { start, middle, end }))
}
