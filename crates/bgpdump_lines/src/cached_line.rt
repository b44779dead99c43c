//! A printed line of a table, without the field of its prefix, as [`LineCache`](crate::line_cache)
//! keeps one for each peer. `route_line.rt` copies from it the octets before the prefix, which all
//! lines of the peer share, and those after it if the route is equal. Read [`CachedLine`] first.

ghost use Rattle.std.specs.Prelude.{◌≡◌, ◌≤◌, true, take, length, IfSome, IsTrue, vec_len};
ghost use Rattle.std.proofs.Props.{props};
ghost use Rattle.bgpdump_lines.specs.declared.cached_line.TheConstants.{START_ROOM, LONGEST_TAIL};
ghost use Rattle.bgpdump_lines.specs.CachedLines.{IsLineStart, IsPrefixlessLine};
ghost use Rattle.bgpdump_lines.specs.Heading.{fields_after_prefix};

use mrt_wire::{Peer, Route, same_peer, same_route};
use std::alloc::{AllocError, Global};
use std::rc::Rc;

/// The number of octets that are copied for the start of a line, whatever its length: 80. The longest
/// start, with an IPv6 address and ten digits for the time and the AS number, has 76, so each fits.
pub(crate) const START_ROOM: usize = 80;

/// The largest number of octets after the prefix in a cached line: 448. A line with more isn't cached.
pub(crate) const LONGEST_TAIL: usize = 448;

/// The printed line of a route without the field of its prefix: the octets before that field and those
/// after it.
#[derive(Clone, Copy)]
pub(crate) struct PrefixlessLine<'a> {
    /// The octets before the prefix's field, such as `TABLE_DUMP2|1700000000|B|192.0.2.1|65000`.
    pub(crate) front: &'a [u8],
    /// The end of the first three fields (kind, time, letter), in octets from the start of `front`.
    pub(crate) head: usize,
    /// The octets after the prefix's field: the fields of the attributes, with the line feed.
    pub(crate) tail: &'a [u8],
}

/// The octets before the prefix in the lines of a peer's routes in a TABLE_DUMP_V2 record, such as
/// `TABLE_DUMP2|1700000000|B|192.0.2.1|65000`, with the peer and the time that they were printed for.
#[derive(Drop)]
pub(crate) struct LineStart {
    /// The octets of the start, and zeros after them.
    pub(crate) octets: [u8; START_ROOM],
    /// The number of octets of the start, at most [`START_ROOM`].
    pub(crate) size: usize,
    /// The end of the first three fields (kind, time, letter), in octets from the start.
    pub(crate) head: usize,
    /// The peer of the lines.
    peer: Peer,
    /// The time of the routes, in seconds since 1970.
    time: u32,
    ghost within: { size ≤ START_ROOM },
    // The term after `by` shows that the statement has at most one proof, as a ghost field must.
    ghost printed: { IsLineStart (take size octets) head peer time } by { Prim.hlevel props },
}

impl LineStart {
    /// Returns the octets before the prefix in the lines of `peer` for routes with the time `time`,
    /// in seconds since 1970, as a copy of `octets`. `head` is the offset in `octets` at which the
    /// first three fields (kind, time, letter) end. Requires that `octets` were printed for `peer`
    /// and `time`, and that they are at most [`START_ROOM`].
    fn of(peer: &Peer, time: u32, octets: &[u8], head: usize) -> LineStart
        requires printed { IsLineStart octets.now head peer.now time }
        requires short { length octets.now ≤ START_ROOM }
    {
        let mut padded = [0; START_ROOM];
        padded[..octets.len()].copy_from_slice(octets);
        LineStart {
            octets: padded,
            size: octets.len(),
            head,
            peer: *peer,
            time,
        }
    }
}

/// The printed line of a peer's route in a table, without the prefix: the octets before it, such as
/// `TABLE_DUMP2|1700000000|B|192.0.2.1|65000`, and those after it, such as
/// `|65000|IGP|192.0.2.1|0|0||NAG||` and a line feed. They are copied into lines of this peer with
/// other prefixes: the octets before the prefix if the time is equal, and those after it if the
/// route is.
#[derive(Drop)]
pub(crate) struct CachedLine {
    /// The octets before the prefix, with the peer.
    pub(crate) start: LineStart,
    /// The route that the line was printed for.
    route: Rc<Route>,
    /// The octets after the prefix.
    tail: Vec<u8>,
    /// Whether `tail` was printed for `route`. It is `false` after an allocation error while the tail was
    /// replaced; the tail is never used then.
    is_valid: bool,
    ghost short: { vec_len tail ≤ LONGEST_TAIL },
    ghost printed: { is_valid ≡ true → tail.items ≡ fields_after_prefix route.value } by { Prim.hlevel props },
}

impl CachedLine {
    ghost use Rattle.bgpdump_lines.specs.CachedStarts.{BeginsLinesOf};

    /// Returns a cached line of `route` from `peer`. `ends` are the octets of the line before and after
    /// the prefix. Requires that they were printed for `peer` and `route`, with at most [`START_ROOM`]
    /// octets before the prefix and [`LONGEST_TAIL`] after it. Fails if memory allocation fails.
    pub(crate) fn of(
        alloc: Global,
        peer: &Peer,
        route: &Rc<Route>,
        ends: PrefixlessLine<'_>,
    ) -> Result<CachedLine, AllocError>
        requires printed { IsPrefixlessLine ends.front.now ends.head ends.tail.now peer.now
            route.now.value }
        requires start { length ends.front.now ≤ START_ROOM }
        requires tail { length ends.tail.now ≤ LONGEST_TAIL }
    {
        let mut line = CachedLine {
            start: LineStart::of(peer, route.time, ends.front, ends.head),
            route: route.clone()?,
            tail: Vec::with_capacity(alloc, LONGEST_TAIL)?,
            is_valid: false,
        };
        line.replace_tail(route, ends.tail)?;
        Ok(line)
    }

    /// Replaces this line by the line of `route` from `peer`. `ends` are the octets of the new line
    /// before and after the prefix. Requires that they were printed for `peer` and `route`, with at
    /// most [`START_ROOM`] octets before the prefix and [`LONGEST_TAIL`] after it. Fails if memory
    /// allocation fails; the octets before the prefix are then the new ones, and
    /// [`CachedLine::tail_if_equal`] returns `None`.
    pub(crate) fn replace(
        &mut self,
        peer: &Peer,
        route: &Rc<Route>,
        ends: PrefixlessLine<'_>,
    ) -> Result<(), AllocError>
        requires printed { IsPrefixlessLine ends.front.now ends.head ends.tail.now peer.now
            route.now.value }
        requires start { length ends.front.now ≤ START_ROOM }
        requires tail { length ends.tail.now ≤ LONGEST_TAIL }
    {
        self.start = LineStart::of(peer, route.time, ends.front, ends.head);
        self.replace_tail(route, ends.tail)
    }

    /// Replaces the octets after the prefix by `tail`, and the route that they were printed for by
    /// `route`. Requires that `tail` was printed for `route`, and that it has at most
    /// [`LONGEST_TAIL`] octets. Fails if memory allocation fails; [`CachedLine::tail_if_equal`]
    /// then returns `None`, and the octets before the prefix are unchanged.
    #[inline]
    pub(crate) fn replace_tail(&mut self, route: &Rc<Route>, tail: &[u8]) -> Result<(), AllocError>
        requires printed { tail.now ≡ fields_after_prefix route.now.value }
        requires short { length tail.now ≤ LONGEST_TAIL }
    {
        self.is_valid = false;
        self.tail.clear();
        self.tail.extend_from_slice(tail)?;
        self.route = route.clone()?;
        self.is_valid = true;
        Ok(())
    }

    /// Returns `true` if the octets before the prefix were printed for `peer` and the time `time`, in
    /// seconds since 1970, so that all lines of this peer for routes of this time begin with them.
    /// Returns `false` if they were printed for another peer or time.
    #[inline(always)]
    pub(crate) fn begins_lines_of(&self, peer: &Peer, time: u32) -> bool
        ensures { IsTrue result → BeginsLinesOf self.now peer.now time }
    {
        same_peer(&self.start.peer, peer) && self.start.time == time
    }

    /// Returns the octets after the prefix if they were printed for a route that is equal to `route`.
    /// Returns `None` if they were printed for another, or if replacing them failed.
    #[inline(always)]
    pub(crate) fn tail_if_equal(&self, route: &Route) -> Option<&[u8]>
        ensures { IfSome result (λ tail. tail.now ≡ fields_after_prefix route.now) }
    {
        if self.is_valid && same_route(&self.route, route) {
            return Some(&self.tail);
        }
        None
    }
}
