//! A parsed UPDATE (RFC 4271, section 4.3), in two types. Messages are parsed into [`UpdateBuffer`],
//! whose memory is reused for the next message; [`Update`] is for a caller that keeps it.

ghost use Rattle.std.specs.Prelude.{◌≡◌, IfOk};
ghost use Rattle.bgp_wire.specs.Reach.{attrs_with_next_hop};
ghost use Rattle.bgp_wire.specs.Parts.{empty_parts, update_of_parts};

use crate::attrs::Attrs;
use crate::prefixes::Prefixes;
use ip_prefix::Addr;
use std::alloc::{AllocError, Global};

/// An UPDATE message: the prefixes that a peer withdraws, those that it announces, and the path
/// attributes of the latter (RFC 4271, section 4.3; RFC 4760). The attributes of the prefixes in
/// its NLRI field and of those in MP_REACH_NLRI are in two fields, since the next hops differ.
#[derive(Debug, Drop)]
pub struct Update {
    /// The IPv4 prefixes in the Withdrawn Routes field (RFC 4271, section 4.3).
    pub withdrawn: Prefixes,
    /// The IPv4 or IPv6 unicast prefixes that MP_UNREACH_NLRI withdraws (RFC 4760, section 4).
    /// Empty if that attribute is absent or for another address family.
    pub mp_withdrawn: Prefixes,
    /// The path attributes of the prefixes in `announced`, with the next hop of NEXT_HOP. They are
    /// there even if no prefix is announced.
    pub attrs: Attrs,
    /// The IPv4 prefixes in the Network Layer Reachability Information (NLRI) field, which are
    /// announced (RFC 4271, section 4.3).
    pub announced: Prefixes,
    /// The path attributes of the prefixes in `mp_announced`: `attrs` with the next hop of
    /// MP_REACH_NLRI. `None` if `mp_announced` is empty.
    pub mp_attrs: Option<Attrs>,
    /// The IPv4 or IPv6 unicast prefixes that MP_REACH_NLRI announces (RFC 4760, section 3). Empty
    /// if that attribute is absent or for another address family.
    pub mp_announced: Prefixes,
}

/// The contents of a parsed UPDATE message. The next message is parsed into the same value, so that
/// its memory is reused. The path attributes are stored once, as `attrs`. They apply as they are to
/// the prefixes of the NLRI field, and with `mp_hop` as the next hop to the prefixes of
/// MP_REACH_NLRI. [`UpdateBuffer::into_update`] makes a second copy for the latter.
#[derive(Debug, Drop)]
pub struct UpdateBuffer {
    /// The IPv4 prefixes in the Withdrawn Routes field (RFC 4271, section 4.3).
    pub withdrawn: Prefixes,
    /// The IPv4 or IPv6 unicast prefixes that MP_UNREACH_NLRI withdraws (RFC 4760, section 4).
    /// Empty if that attribute is absent or for another address family.
    pub mp_withdrawn: Prefixes,
    /// The path attributes of the prefixes in `announced`, with the next hop of NEXT_HOP. They are
    /// there even if no prefix is announced.
    pub attrs: Attrs,
    /// The IPv4 prefixes in the Network Layer Reachability Information (NLRI) field, which are
    /// announced (RFC 4271, section 4.3).
    pub announced: Prefixes,
    /// The next hop of MP_REACH_NLRI, or `None` if that attribute is absent or is for an address
    /// family other than IPv4 and IPv6 unicast.
    pub mp_hop: Option<Addr>,
    /// The IPv4 or IPv6 unicast prefixes that MP_REACH_NLRI announces (RFC 4760, section 3). Empty
    /// if that attribute is absent or for another address family.
    pub mp_announced: Prefixes,
}

/// The type of a BGP message: an UPDATE, or another (OPEN, KEEPALIVE, NOTIFICATION and so on).
/// [`read_message_into`](crate::read_message_into) returns it, and parses only UPDATEs, into an
/// [`UpdateBuffer`].
#[derive(Clone, Copy, Debug)]
pub enum MessageKind {
    /// An UPDATE, which was parsed into the [`UpdateBuffer`].
    Update,
    /// A message of another type, with the number of its type (RFC 4271, section 4.1). Its body
    /// wasn't parsed, and the [`UpdateBuffer`] is as it was.
    Other(u8),
}

impl UpdateBuffer {
    /// Returns a buffer without prefixes and path attributes, into which messages can be parsed.
    /// Allocates no memory.
    pub fn empty(alloc: Global) -> UpdateBuffer
        ensures { result ≡ empty_parts }
    {
        UpdateBuffer {
            withdrawn: Prefixes::empty(alloc),
            mp_withdrawn: Prefixes::empty(alloc),
            attrs: Attrs::empty(alloc),
            announced: Prefixes::empty(alloc),
            mp_hop: None,
            mp_announced: Prefixes::empty(alloc),
        }
    }

    /// Converts the buffer into an [`Update`]. If `mp_announced` has prefixes, the path attributes
    /// are copied for them. Returns `AllocError` if memory allocation for that copy fails.
    pub fn into_update(self) -> Result<Update, AllocError>
        ensures { IfOk result (λ update. update ≡ update_of_parts self) }
    {
        let UpdateBuffer {
            withdrawn,
            mp_withdrawn,
            attrs,
            announced,
            mp_hop,
            mp_announced,
        } = self;
        let mut mp_attrs = None;
        if !mp_announced.as_slice().is_empty() {
            let mut copy = attrs.clone()?;
            copy.next_hop = mp_hop;
            mp_attrs = Some(copy);
        }
        Ok(Update {
            withdrawn,
            mp_withdrawn,
            attrs,
            announced,
            mp_attrs,
            mp_announced,
        })
    }
}
