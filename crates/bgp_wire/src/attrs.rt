//! The path attributes of a route (RFC 4271, section 5), which the parsers of UPDATEs and of RIB
//! entries set. Read [`Attrs`] first.

ghost use Rattle.std.specs.Prelude.{◌≡◌, OnOk, OnErr};
ghost use Rattle.bgp_wire.specs.Parts.{absent_attrs, without_path_and_communities};
ghost use Rattle.bgp_paths.specs.Readers.{empty_path};

use bgp_paths::{AsPath, VecAsList, copy_numbers, copy_path};
use ip_prefix::Addr;
use std::alloc::{AllocError, Global};
use std::mem;

/// The greatest spare capacity of a route's list of communities, in communities. A list with
/// capacity for one more than this above what is needed is reallocated or freed, so that stored
/// routes take little memory.
pub(crate) const MOST_SPARE: u8 = 32;

/// The origin of a route: how its AS learned of it (RFC 4271, section 5.1.1).
#[derive(Clone, Copy, Debug, PartialEq, Eq)]
pub enum Origin {
    /// The route originates inside its AS.
    Igp,
    /// The route was learned through EGP (RFC 904).
    Egp,
    /// The route was learned in another way, such as by configuration.
    Incomplete,
}

/// The BGP speaker that formed an aggregate route: the value of AGGREGATOR (RFC 4271, section
/// 5.1.7).
#[derive(Clone, Copy, Debug)]
pub struct Aggregator {
    /// The IP address of the speaker, which is of IPv4 if it was parsed.
    pub addr: Addr,
    /// The AS number of the speaker. One of two octets is widened.
    pub asn: u32,
}

/// The communities of a route (RFC 1997), each a 32-bit number, in the order in which they are
/// sent.
pub type Communities = VecAsList<u32>;

/// The path attributes of a route that this crate parses (RFC 4271, section 5; RFC 1997). Absent
/// attributes are `None`, false or empty. Attributes of other types are dropped.
#[derive(Debug, Drop)]
pub struct Attrs {
    /// The next hop, from NEXT_HOP (RFC 4271, section 5.1.3) or from MP_REACH_NLRI (RFC 4760,
    /// section 3). `None` if there is none.
    pub next_hop: Option<Addr>,
    /// The value of AGGREGATOR (RFC 4271, section 5.1.7), or of AS4_AGGREGATOR if that replaced it
    /// (RFC 6793, section 4.2.3).
    pub aggregator: Option<Aggregator>,
    /// The AS path (RFC 4271, section 5.1.2), after AS4_PATH was merged into it. It has no segments
    /// if AS_PATH is absent or empty.
    pub path: AsPath,
    /// The communities (RFC 1997), in the order in which they are sent. Empty if COMMUNITIES is
    /// absent.
    pub communities: Communities,
    /// The value of MULTI_EXIT_DISC (RFC 4271, section 5.1.4), or `None` if it is absent.
    pub med: Option<u32>,
    /// The value of LOCAL_PREF (RFC 4271, section 5.1.5), or `None` if it is absent.
    pub local_pref: Option<u32>,
    /// The value of ORIGIN (RFC 4271, section 5.1.1), or `None` if it is absent.
    pub origin: Option<Origin>,
    /// True if ATOMIC_AGGREGATE is present (RFC 4271, section 5.1.6).
    pub atomic: bool,
}

impl Attrs {
    /// Returns a set of path attributes that are all absent, without allocating memory.
    pub fn empty(alloc: Global) -> Attrs
        ensures { result ≡ absent_attrs }
    {
        Attrs {
            next_hop: None,
            aggregator: None,
            path: AsPath::empty(alloc),
            communities: Communities::empty(alloc),
            med: None,
            local_pref: None,
            origin: None,
            atomic: false,
        }
    }
}

/// Replaces `attrs` with a copy of `other`, and reuses the memory of its lists. If memory
/// allocation fails, returns `AllocError`; the path and the communities of `attrs` are then empty,
/// and its other attributes are unchanged.
pub fn clone_attrs_from(alloc: Global, attrs: &mut Attrs, other: &Attrs) -> Result<(), AllocError>
    ensures replaced { OnOk result (attrs.new ≡ other.now) }
    ensures left { OnErr result (attrs.new ≡ without_path_and_communities attrs.old) }
{
    let none = Communities::empty(alloc);
    let path = mem::replace(&mut attrs.path, AsPath::empty(alloc));
    let communities = mem::replace(&mut attrs.communities, none).into_vec();
    let path = copy_path(alloc, path, &other.path)?;
    let communities = copy_numbers(communities, other.communities.as_slice(), MOST_SPARE)?;
    *attrs = Attrs {
        path,
        communities: Communities::from_vec(communities),
        ..*other
    };
    Ok(())
}

impl Clone for Attrs {
    ghost is_clone = { λ attrs copy. copy ≡ attrs };

    fn clone(&self) -> Result<Attrs, AllocError> {
        Ok(Attrs {
            path: self.path.clone()?,
            communities: self.communities.clone()?,
            ..*self
        })
    }
}
