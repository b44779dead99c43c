//! Claims: reasons to keep a pair of a peer and a prefix as a key of the player's table, which
//! means to keep memory for its route. A pair has one claim if it has a route at the floor (before
//! all steps that can be undone), and one for each kept step (played event that undo and redo go
//! over) before which it has no route and after which it has one. The pair stays a key as long as
//! it has a claim. The first claim is the key itself; the others are counted here. `journal.rt`
//! calls [`apply_entry`] and [`release_claims`].

ghost use Rattle.std.specs.Prelude.{◌≡◌, ◌+◌, ◌<◌, ◌≤◌, ◌||◌, ◌&&◌, true, false, is_some, length, nat_lt, [], ◌∷◌, None, OnOk, OnErr};
ghost use Rattle.std.specs.FinMap as finite;
ghost use Rattle.std.specs.FinSet as set;
ghost use Rattle.std.specs.Ordering.{eq_by_cmp};
ghost use Rattle.ip_prefix.specs.Network.{Network, network_cmp};
ghost use Rattle.ip_prefix.specs.declared.addr.Family.TheVariants.{V4};
ghost use Rattle.ip_prefix.specs.declared.addr.TheConstants.{V4_BITS};
ghost use Rattle.prefix_store.specs.Stored.{ContainsDomain};
ghost use Rattle.prefix_store.specs.declared.store.TheConstants.{GREATEST_COUNT};
ghost use Rattle.rib_player.specs.declared.pair.Pair.{Pair};
ghost use Rattle.rib_player.specs.declared.entry.JournalEnd.TheVariants.{Last};
ghost use Rattle.rib_player.specs.History.{pair_cmp};
ghost use Rattle.rib_player.specs.Tables.{pointed_route};
ghost use Rattle.rib_player.specs.Journal.{sides_of};
ghost use Rattle.rib_player.specs.Sides.{AreDistinct, mark_of, marks_of, releases_claim_of, any_releases_claim_of};
ghost use Rattle.rib_player.specs.JournalState.{AreApplied};
ghost use Rattle.rib_player.specs.Claims.{one_if, count_of, v4_prefix_number, claims_beyond, held_claims_of, OnlyKeysHaveExtraClaims};

use crate::entry::{Entry, JournalEnd};
use crate::key_counts::KeyCounts;
use crate::pair::Pair;
use crate::table::Table;
use ip_prefix::{Family, Prefix};
use mrt_events::{Peer, Route};
use prefix_store::PrefixStore;
use std::alloc::{AllocError, Global};
use std::collections::BTreeMap;
use std::mem::size_of;
use std::rc::Rc;

/// For each pair of a peer and a prefix, the number of its claims beyond the first. A claim is a
/// reason to keep the pair as a key of the table, with memory for its route. A pair has one if it has a
/// route before all kept steps (played events that undo or redo can go over), and one for each kept
/// step that gives it a route when it has none. The first claim isn't counted, since a pair is a
/// key if, and only if, it has one. So only pairs that lost their route and got one again in the
/// kept steps have a count above 0.
#[derive(Drop)]
pub(crate) struct ExtraKeyClaims {
    // The counts of a peer are boxed, so that free slots of the map take little memory.
    alloc: Global,
    /// The counts of a peer's prefixes, for each peer that has a count above 0.
    pub(crate) peers: BTreeMap<Peer, Box<ExtraKeyClaimsOfPeer>>,
}

impl ExtraKeyClaims {
    /// Returns counts that are all 0: no pair of a peer and a prefix has a claim (a reason to keep
    /// it as a key of the table) beyond its first. Doesn't allocate.
    pub(crate) fn new(alloc: Global) -> ExtraKeyClaims
        ensures { (q : Pair) → claims_beyond result q ≡ 0 }
    {
        ExtraKeyClaims {
            alloc,
            peers: BTreeMap::new(alloc),
        }
    }

    /// Adds one to the count of `pair`: the number of its claims beyond the first. A claim is a
    /// reason to keep the pair as a key of the table: a route that it has before all kept steps, or
    /// a kept step that gives it a route when it has none. The count is 0 for a pair that isn't
    /// counted yet. It isn't checked that the pair has a first claim. Requires that the count is
    /// below `u64::MAX`. Fails if memory allocation fails; the counts are unchanged then.
    fn increment(&mut self, pair: &Pair) -> Result<(), AllocError>
        requires { claims_beyond self.old pair.now < GREATEST_COUNT }
        ensures counted { OnOk result ((q : Pair) → claims_beyond self.new q
            ≡ claims_beyond self.old q + one_if (eq_by_cmp pair_cmp q pair.now)) }
        ensures refused { OnErr result ((q : Pair) →
            claims_beyond self.new q ≡ claims_beyond self.old q) }
    {
        if let Some(counts) = self.peers.get_mut(&pair.peer) {
            return counts.increment(self.alloc, &pair.prefix);
        }
        let mut counts = ExtraKeyClaimsOfPeer::new();
        counts.increment(self.alloc, &pair.prefix)?;
        let counts = Box::new(self.alloc, counts)?;
        self.peers.insert(pair.peer, counts)?;
        Ok(())
    }

    /// Subtracts one from the number of claims of `pair` (reasons to keep it as a key of the table)
    /// beyond the first. Returns `true` if it did. Returns `false`, with nothing changed, if the
    /// number is 0: only the first claim is left then, which isn't counted, and the caller removes
    /// the key. Allocates no memory.
    fn try_decrement(&mut self, pair: &Pair) -> bool
        ensures some { result ≡ nat_lt 0 (claims_beyond self.old pair.now) }
        ensures counted { (q : Pair) → claims_beyond self.new q
            + one_if (result && eq_by_cmp pair_cmp q pair.now) ≡ claims_beyond self.old q }
    {
        let Some(counts) = self.peers.get_mut(&pair.peer) else {
            return false;
        };
        let taken = counts.try_decrement(&pair.prefix);
        if counts.is_empty() {
            self.peers.remove(&pair.peer);
        }
        taken
    }
}

/// Applies one entry of a new step (a played event): swaps the entry's route with the table's route
/// of the entry's peer and prefix (a pair); either may be absent. A pair that had no route and gets
/// one also gets a claim, a reason to keep it as a key of the table (with memory for a route): it
/// becomes a key or, if it is one already, is counted in `claims`. Requires that the pair has a
/// route before or after the step, and that its count in `claims` is below `u64::MAX`. Fails if
/// memory allocation fails; table and claims are unchanged then, and the entry is unspecified.
pub(crate) fn apply_entry<S: PrefixStore<Rc<Route>>>(
    table: &mut Table<S>,
    claims: &mut ExtraKeyClaims,
    entry: &mut Entry,
) -> Result<(), AllocError>
    requires held { OnlyKeysHaveExtraClaims table.old.keys (claims_beyond claims.old) }
    requires among { ContainsDomain table.old.keys table.old.routes }
    requires named { (is_some (finite.get table.old.routes entry.old.pair)
        || is_some (pointed_route entry.old.other)) ≡ true }
    requires few { claims_beyond claims.old entry.old.pair < GREATEST_COUNT }
    ensures held { OnlyKeysHaveExtraClaims table.new.keys (claims_beyond claims.new) }
    ensures keys { OnOk result (table.new.keys ≡ set.insert table.old.keys entry.old.pair) }
    ensures claimed { OnOk result ((q : Pair) →
        held_claims_of table.new claims.new q ≡ held_claims_of table.old claims.old q
        + one_if (releases_claim_of Last (mark_of entry.new) q)) }
    ensures put { OnOk result (AreApplied table.old table.new (entry.old ∷ []) (entry.new ∷ [])) }
    ensures refused { OnErr result ((q : Pair) →
        held_claims_of table.new claims.new q ≡ held_claims_of table.old claims.old q) }
    ensures kept { OnErr result (table.new.routes ≡ table.old.routes) }
{
    let made = entry.put(table)?;
    if made || !entry.releases_claim(JournalEnd::Last) {
        return Ok(());
    }
    if let Err(refused) = claims.increment(&entry.pair()) {
        entry.exchange(table);
        return Err(refused);
    }
    Ok(())
}

/// Releases the claims (reasons to keep a pair of a peer and a prefix as a key of the table) that
/// end when a step is removed at `end` of the journal, the list of the steps (played events).
/// `entries` are all entries of the step; each for which [`Entry::releases_claim`] returns `true`
/// releases one claim of its pair. The pair's count in `claims`, of the claims beyond the first,
/// goes down by one. If it is 0, the pair is removed from the keys of `table` instead. Requires
/// that no two entries are of one pair, that each such pair is a key, and that one whose count is 0
/// has no route. Allocates no memory.
pub(crate) fn release_claims<S: PrefixStore<Rc<Route>>>(
    table: &mut Table<S>,
    claims: &mut ExtraKeyClaims,
    entries: &[Entry],
    end: JournalEnd,
)
    requires held { OnlyKeysHaveExtraClaims table.old.keys (claims_beyond claims.old) }
    requires distinct { AreDistinct (sides_of entries.now) }
    requires keys { (q : Pair) → any_releases_claim_of end (marks_of entries.now) q ≡ true →
        set.contains table.old.keys q ≡ true }
    requires free { (q : Pair) → any_releases_claim_of end (marks_of entries.now) q ≡ true →
        claims_beyond claims.old q ≡ 0 → finite.get table.old.routes q ≡ None }
    ensures held { OnlyKeysHaveExtraClaims table.new.keys (claims_beyond claims.new) }
    ensures claimed { (q : Pair) → held_claims_of table.new claims.new q
        + one_if (any_releases_claim_of end (marks_of entries.now) q)
        ≡ held_claims_of table.old claims.old q }
    ensures routes { table.new.routes ≡ table.old.routes }
{
    'entries: for entry in entries {
        if entry.releases_claim(end) {
            let pair = entry.pair();
            if !claims.try_decrement(&pair) {
                table.discard(&pair);
            }
        }
    }
}

/// The number of IPv4 addresses, by which [`v4_prefix_number`] multiplies the length of a prefix:
/// each address, as a number, is below it. With a smaller one, prefixes of different lengths would
/// get the same number.
const ADDRESSES: u64 = 1 << 32;

/// The number of bits to the right of an IPv4 address in the 64 bits that [`Prefix::high_64_bits`]
/// returns, which begin with the address.
const BELOW: u32 = 32;

/// For each prefix of one peer, the number of its claims beyond the first. A claim is a reason to
/// keep the peer and the prefix as a key of the player's table, with memory for a route. A prefix has a
/// claim if the peer has a route to it before all kept steps (played events that undo or redo can
/// go over), and one for each kept step that gives the peer a route to it when there is none. A
/// prefix with one claim, or with none, has the count 0, and isn't stored.
#[derive(Drop)]
pub(crate) struct ExtraKeyClaimsOfPeer {
    /// The counts of IPv4 prefixes, each prefix as a number ([`v4_prefix_number`]).
    v4: KeyCounts<u64>,
    /// The counts of IPv6 prefixes.
    v6: KeyCounts<Prefix>,
}

/// The largest size of [`ExtraKeyClaimsOfPeer`] in octets, without the lists and maps that a family
/// gets once two of its prefixes are counted. A larger one fails the check of the crate, by the
/// next line.
const COUNTS_OCTETS: usize = 72;

const _: () = prove!(size_of::<ExtraKeyClaimsOfPeer>() <= COUNTS_OCTETS);

/// Returns a number that no other IPv4 prefix has: 2^32 times the length of `prefix`, plus its
/// address as a number. For 10.0.0.0/8 that is `0x8_0a00_0000`. Requires that `prefix` is IPv4.
#[inline]
fn v4_prefix_number(prefix: &Prefix) -> u64
    requires { prefix.now.family ≡ V4 }
    ensures key { result ≡ v4_prefix_number prefix.now }
    ensures within { length prefix.now.bits ≤ V4_BITS }
{
    u64::from(prefix.len()) * ADDRESSES + (prefix.high_64_bits() >> BELOW)
}

impl ExtraKeyClaimsOfPeer {
    /// Returns the counts for a peer without extra claims: all are 0. A claim is a reason to keep a
    /// prefix as a key of the table; the first one of a prefix isn't counted. Doesn't allocate.
    fn new() -> ExtraKeyClaimsOfPeer
        ensures { (n : Network) → count_of result n ≡ 0 }
    {
        ExtraKeyClaimsOfPeer {
            v4: KeyCounts::None,
            v6: KeyCounts::None,
        }
    }

    /// Returns `true` if no prefix of the peer has a claim (a reason to keep it as a key of the
    /// table) beyond its first, so that all counts are 0 and nothing is lost if they are dropped.
    fn is_empty(&self) -> bool
        ensures { result ≡ true → (n : Network) → count_of self.now n ≡ 0 }
    {
        self.v4.is_empty() && self.v6.is_empty()
    }

    /// Adds one to the count of `prefix`: the number of its claims beyond the first. A claim is a
    /// reason to keep the peer and the prefix as a key of the table: a route of the peer to the
    /// prefix before all kept steps, or a kept step that gives the peer a route to it when there is
    /// none. The count is 0 for a prefix that isn't counted yet. Requires that it is below
    /// `u64::MAX`. Fails if memory allocation fails; the counts are unchanged then.
    fn increment(&mut self, alloc: Global, prefix: &Prefix) -> Result<(), AllocError>
        requires { count_of self.old prefix.now < GREATEST_COUNT }
        ensures counted { OnOk result ((n : Network) → count_of self.new n
            ≡ count_of self.old n + one_if (eq_by_cmp network_cmp n prefix.now)) }
        ensures refused { OnErr result ((n : Network) →
            count_of self.new n ≡ count_of self.old n) }
    {
        match prefix.family() {
            Family::V4 => self.v4.increment(alloc, v4_prefix_number(prefix)),
            Family::V6 => self.v6.increment(alloc, *prefix),
        }
    }

    /// Subtracts one from the count of `prefix`: the number of its claims (reasons to keep the peer
    /// and the prefix as a key of the table) beyond the first. Returns `true` if it did, or
    /// `false`, with nothing changed, if the count is 0. Allocates no memory.
    fn try_decrement(&mut self, prefix: &Prefix) -> bool
        ensures some { result ≡ nat_lt 0 (count_of self.old prefix.now) }
        ensures counted { (n : Network) → count_of self.new n
            + one_if (result && eq_by_cmp network_cmp n prefix.now) ≡ count_of self.old n }
    {
        match prefix.family() {
            Family::V4 => self.v4.try_decrement(&v4_prefix_number(prefix)),
            Family::V6 => self.v6.try_decrement(prefix),
        }
    }
}
