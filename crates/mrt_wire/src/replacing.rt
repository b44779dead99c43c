//! Moving or copying the path attributes of a message into a route whose memory is reused.
//! `route_pool.rt` calls [`copy_or_move_attrs`]; read that first.

ghost use Rattle.std.specs.Prelude.{◌≡◌, true, OnOk};

use bgp_wire::{Attrs, clone_attrs_from};
use std::alloc::{AllocError, Global};
use std::mem;

/// Sets `attrs` to the value of `source`. `source` gets the AS path and the communities that
/// `attrs` had, so that the next message is parsed into their memory; its other fields are
/// unchanged.
#[inline(always)]
fn move_attrs(attrs: &mut Attrs, source: &mut Attrs)
    ensures { attrs.new ≡ source.old }
{
    // Only paths and communities own memory. To exchange all fields takes a hundred instructions
    // more.
    mem::swap(&mut attrs.path, &mut source.path);
    mem::swap(&mut attrs.communities, &mut source.communities);
    attrs.next_hop = source.next_hop;
    attrs.aggregator = source.aggregator;
    attrs.med = source.med;
    attrs.local_pref = source.local_pref;
    attrs.origin = source.origin;
    attrs.atomic = source.atomic;
}

/// Sets `attrs` to the value of `source`. If `keep_source` is `true`, `source` is copied and left
/// as it is; otherwise it is moved, and holds unspecified attributes afterwards. Fails if memory
/// allocation for the copy fails; `attrs` is unspecified then.
#[inline(always)]
pub(crate) fn copy_or_move_attrs(
    alloc: Global,
    attrs: &mut Attrs,
    source: &mut Attrs,
    keep_source: bool,
) -> Result<(), AllocError>
    ensures put { OnOk result (attrs.new ≡ source.old) }
    ensures kept { keep_source ≡ true → source.new ≡ source.old }
{
    if keep_source {
        return clone_attrs_from(alloc, attrs, source);
    }
    move_attrs(attrs, source);
    Ok(())
}
