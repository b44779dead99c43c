//! A cache of the printed lines of TABLE_DUMP_V2 records (RFC 6396, section 4.3), one for each peer.
//! Mostly a peer has a route with equal attributes in the next record, so that all of its line but the
//! prefix is copied. `table_lines.rt` looks lines up and inserts them, and `write.rt` counts records;
//! read [`LineCache`] first.

ghost use Rattle.std.specs.Prelude.{◌≡◌, ◌≤◌, IfSome, IsTrue, vec_len};
ghost use Rattle.mrt_events.specs.declared.event.Tag.TheVariants.{TableDump2};
ghost use Rattle.bgpdump_lines.specs.declared.line_cache.TheConstants.{MOST_LINES, HASH_COUNT};
ghost use Rattle.bgpdump_lines.specs.CachedLines.{IsPrefixlessLine};
ghost use Rattle.bgpdump_lines.specs.CachedStarts.{BeginsLinesOf};
ghost use Rattle.bgpdump_lines.specs.Heading.{fields_after_prefix};

use crate::cached_line::{CachedLine, LONGEST_TAIL, PrefixlessLine, START_ROOM};
use ip_prefix::{Addr, Family};
use mrt_wire::{Event, Peer, Route, Tag};
use std::alloc::{AllocError, Global};
use std::rc::Rc;

/// The largest number of lines in a [`LineCache`]: 512. When it is full, the lines of further peers
/// aren't cached.
const MOST_LINES: usize = 512;

// With so few segments, a route takes little more memory than its line.
/// The largest number of AS_PATH segments of a route whose line is cached: 2. The line of a route with
/// more isn't cached.
const MOST_SEGMENTS: usize = 2;

/// The number of different hashes of peers: 2^12. Of two peers with one hash, only the one printed last
/// has its line in the cache.
const HASH_COUNT: usize = 1 << 12;

/// The number of low bits of a 32-bit product that the hash of a peer leaves out: 20, so that 12 bits are
/// left.
const LOWEST_BITS: u32 = 20;

/// The factor in the hash of a peer: the odd number next to 2^32 divided by the golden ratio, which
/// spreads numbers that lie close together.
const MULTIPLIER: u32 = 0x9E37_79B9;

/// The value in the table of line indexes for a hash of peers that has no line.
const NO_LINE: u16 = u16::MAX;

// Of tables as routers send them, of which three of five lines are copied, 512 lines in a row may be
// mostly new ones; 4,096 aren't.
/// The number of lines, 2^12, after which a [`LineCache`] decides whether it saves enough, see
/// [`LineCache::end_trial`]. These lines are a trial.
const TRIAL_LINES: usize = 1 << 12;

/// The number of lines for which a [`LineCache`] isn't used after a trial in which it saved little, as a
/// multiple of the number of lines in that trial: 32.
const PAUSE_FACTOR: usize = 32;

/// Returns the last two octets of an address, IPv4 or IPv6, as a big-endian number. In them the addresses
/// of peers differ most.
#[inline(always)]
fn last_two_octets(addr: &Addr) -> u32 {
    match addr.family() {
        Family::V4 => u32::from(addr.octet(2)) << 8 | u32::from(addr.octet(3)),
        Family::V6 => u32::from(addr.octet(14)) << 8 | u32::from(addr.octet(15)),
    }
}

/// Returns a hash of a peer's address and AS number, below 2^12 ([`HASH_COUNT`]): an index in the cache's
/// table of lines.
#[inline(always)]
fn peer_hash(peer: &Peer) -> usize {
    let first = last_two_octets(&peer.addr).wrapping_add(peer.asn);
    (first.wrapping_mul(MULTIPLIER) >> LOWEST_BITS) as usize
}

/// Returns `true` if the line of `route` may be cached: its AS_PATH has at most two segments
/// ([`MOST_SEGMENTS`]), and its time is `time`, the time of its record in seconds since 1970.
/// Returns `false` for a route that has more segments or a time of its own, as its line is hardly
/// ever met again.
#[inline]
fn is_cacheable(route: &Route, time: u32) -> bool {
    // The line of a route with a time of its own would be cached in vain: in the next record the time is
    // mostly another one. And the reader reuses a route for another time only if nothing else holds it.
    route.time == time && route.attrs.path.segments.as_slice().len() <= MOST_SEGMENTS
}

/// A cache of printed lines of tables, at most one for each peer, which are copied from if the peer
/// has an equal route to another prefix. It has at most [`MOST_LINES`] lines, each with room for
/// [`START_ROOM`] octets before the prefix and [`LONGEST_TAIL`] after it, and keeps the routes of
/// these lines. If it saved little during some thousands of lines (a trial), it is emptied and not
/// used for many more lines (a pause); then the next trial begins.
#[derive(Drop)]
pub(crate) struct LineCache {
    /// The allocator of the lines.
    alloc: Global,
    /// The cached lines, in the order in which their peers were first met.
    lines: Vec<CachedLine>,
    /// For each hash of a peer, the index of its line in `lines`, or [`NO_LINE`] if it has none. Empty
    /// until the first line is inserted.
    line_indexes: Vec<u16>,
    /// The number of lines in the current trial so far, see [`LineCache::end_trial`].
    printed: usize,
    /// The number of lines in the current trial that were neither copied from the cache nor inserted as
    /// the first one of their hash: lines for which it was of no use.
    missed: usize,
    /// The number of lines that are still to be printed without the cache, or 0 if it is in use.
    pause: usize,
    ghost few: { vec_len lines ≤ MOST_LINES },
    ghost spread: { vec_len line_indexes ≤ HASH_COUNT },
}

impl LineCache {
    /// Returns an empty cache at the start of a trial (see [`LineCache::end_trial`]), so that it is in
    /// use. Allocates no memory.
    pub(crate) fn new(alloc: Global) -> LineCache {
        LineCache {
            alloc,
            lines: Vec::new(alloc),
            line_indexes: Vec::new(alloc),
            printed: 0,
            missed: 0,
            pause: 0,
        }
    }

    /// Returns `true` if the lines of `event`, the content of an MRT record, are to be copied from
    /// the cache or else inserted into it. Returns `false` if the record isn't of type
    /// TABLE_DUMP_V2 (RFC 6396, section 4.3), or during a pause, in which the cache isn't used
    /// because it saved little before. Each call for a TABLE_DUMP_V2 record shortens the pause by
    /// the record's lines, so this is called once for each event.
    #[inline(always)]
    pub(crate) fn decide_use_for(&mut self, event: &Event) -> bool
        ensures { IsTrue result → event.now.tag ≡ TableDump2 }
    {
        match event.tag {
            Tag::TableDump2 => self.begin(event.items.as_slice().len()),
            Tag::TableDump | Tag::Bgp4mp | Tag::Bgp4mpEt => false,
        }
    }

    /// Returns `true` if the cache is to be used for a record of `lines` lines, which are printed next.
    /// Returns `false` during a pause, in which it isn't used because it saved little before; the record
    /// then shortens the pause by its lines, or by one if it has none.
    #[inline(always)]
    fn begin(&mut self, lines: usize) -> bool {
        if self.pause == 0 {
            return true;
        }
        self.pause = self.pause.saturating_sub(lines.max(1));
        false
    }

    /// Counts the lines of a record that was printed by use of the cache: adds `lines` to those of the
    /// current trial, in which the cache is judged. If these are [`TRIAL_LINES`] or more, ends the trial
    /// by [`LineCache::end_trial`], after which a pause may follow. Called once for each such record,
    /// after its lines.
    #[inline(always)]
    pub(crate) fn end(&mut self, lines: usize) {
        self.printed = self.printed.saturating_add(lines);
        if self.printed >= TRIAL_LINES {
            self.end_trial();
        }
    }

    /// Ends a trial, in which the cache is judged, and begins the next one. If more than half of
    /// the trial's lines neither found an equal route of their peer in the cache nor filled a free
    /// place in it, empties the cache and begins a pause, in which it isn't used: of 32 times
    /// ([`PAUSE_FACTOR`]) as many lines as the trial had.
    #[inline(never)]
    fn end_trial(&mut self) {
        if self.missed > self.printed / 2 {
            self.lines.clear();
            self.line_indexes.clear();
            self.pause = self.printed.saturating_mul(PAUSE_FACTOR);
        }
        self.printed = 0;
        self.missed = 0;
    }

    /// Returns the cached line of `peer` and its index, which [`LineCache::replace_tail`] takes, if
    /// the octets before the prefix were printed for this peer and the time `time`, in seconds
    /// since 1970. Returns `None` if they were printed for another peer or time, or if there is no
    /// cached line for the hash of the peer ([`peer_hash`]). The octets after the prefix may be of
    /// any route.
    #[inline(always)]
    pub(crate) fn line_of(&self, peer: &Peer, time: u32) -> Option<(usize, &CachedLine)>
        ensures { IfSome result (λ found. BeginsLinesOf found.1.now peer.now time) }
    {
        let index = usize::from(*self.line_indexes.get(peer_hash(peer))?);
        let line = self.lines.get(index)?;
        if line.begins_lines_of(peer, time) {
            return Some((index, line));
        }
        None
    }

    /// Replaces the octets after the prefix of the cached line with the index `index`, which
    /// [`LineCache::line_of`] returned, by `tail`. `time` is the time of the record, in seconds
    /// since 1970. From now on `tail` is copied into lines of routes that equal `route`. The line is
    /// left unchanged if `tail` has more than [`LONGEST_TAIL`] octets, or if [`is_cacheable`]
    /// returns `false` for `route` and `time`. Requires that `tail` was printed for `route`. Fails
    /// if memory allocation fails; the line then keeps the octets before the prefix and has no
    /// tail.
    #[inline(never)]
    pub(crate) fn replace_tail(
        &mut self,
        index: usize,
        route: &Rc<Route>,
        tail: &[u8],
        time: u32,
    ) -> Result<(), AllocError>
        requires { tail.now ≡ fields_after_prefix route.now.value }
    {
        self.missed = self.missed.saturating_add(1);
        if tail.len() > LONGEST_TAIL || !is_cacheable(route, time) {
            return Ok(());
        }
        match self.lines.get_mut(index) {
            Some(line) => line.replace_tail(route, tail),
            None => Ok(()),
        }
    }

    /// Inserts the line of `route` from `peer`. `ends` are the octets of the line before and after the
    /// prefix. The cache has at most one line for each hash of a peer ([`peer_hash`]): one that is there
    /// already, of this peer or of another one, is replaced. `time` is the time of the record, in seconds
    /// since 1970. The line isn't inserted if [`is_cacheable`] refuses the route for that time, if it has
    /// more than [`START_ROOM`] octets before the prefix or [`LONGEST_TAIL`] after it, or if the cache is
    /// full and the line replaces none. Requires that `ends` were printed for `peer` and `route`. Fails
    /// if memory allocation fails; at most the start of the line is then in the cache.
    #[inline(never)]
    pub(crate) fn insert(
        &mut self,
        peer: &Peer,
        route: &Rc<Route>,
        ends: PrefixlessLine<'_>,
        time: u32,
    ) -> Result<(), AllocError>
        requires { IsPrefixlessLine ends.front.now ends.head ends.tail.now peer.now
            route.now.value }
    {
        if ends.front.len() > START_ROOM
            || ends.tail.len() > LONGEST_TAIL
            || !is_cacheable(route, time)
        {
            self.missed = self.missed.saturating_add(1);
            return Ok(());
        }
        if self.line_indexes.is_empty() {
            self.line_indexes.resize(HASH_COUNT, NO_LINE)?;
        }
        let Some(number) = self.line_indexes.get_mut(peer_hash(peer)) else {
            return Ok(());
        };
        let count = self.lines.len();
        if usize::from(*number) >= count && count < MOST_LINES {
            let line = CachedLine::of(self.alloc, peer, route, ends)?;
            *number = u16::try_from(count).unwrap_or(NO_LINE);
            self.lines.push(line)?;
            return Ok(());
        }
        self.missed = self.missed.saturating_add(1);
        match self.lines.get_mut(usize::from(*number)) {
            Some(line) => line.replace(peer, route, ends),
            None => Ok(()),
        }
    }
}
