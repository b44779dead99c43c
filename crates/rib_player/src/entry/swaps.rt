//! Swaps of the route of an entry with the table's route of the entry's peer and prefix, by which
//! steps (played events) are applied, undone and redone. `journal.rt` and `claims.rt` call them.

ghost use Rattle.std.specs.Prelude.{◌≡◌, [], ◌∷◌, true, not, is_some, IfOk, OnOk, OnErr};
ghost use Rattle.std.specs.FinMap as finite;
ghost use Rattle.std.specs.FinSet as set;
ghost use Rattle.prefix_store.specs.Stored.{put};
ghost use Rattle.rib_player.specs.Representation.{cleared_entry};
ghost use Rattle.rib_player.specs.JournalState.{AreApplied};
ghost use Rattle.rib_player.specs.Tables.{pointed_route};

use crate::entry::{Entry, EntryRepr, RoutePresence};
use crate::table::Table;
use mrt_events::Route;
use prefix_store::PrefixStore;
use std::alloc::AllocError;
use std::mem::replace;
use std::rc::Rc;

impl Entry {
    /// Returns `true` if `table` has a route for the entry's peer and prefix.
    #[inline]
    pub(crate) fn pair_has_route_in<S: PrefixStore<Rc<Route>>>(&self, table: &Table<S>) -> bool
        ensures { result ≡ is_some (finite.get table.now.routes self.now.pair) }
    {
        let (peer, prefix) = self.peer_and_prefix();
        table
            .find_route(peer.number_hint(), peer.peer(), &prefix)
            .is_some()
    }

    /// Swaps the route that the entry keeps with the table's route of the entry's peer and prefix;
    /// either may be absent, so that the other is moved. This undoes what the entry's step (a
    /// played event) did to the pair if the step is applied, and redoes it if it is undone. Doing
    /// it twice changes nothing. Requires that peer and prefix are a key of the table (have memory
    /// for a route). Allocates no memory.
    #[inline(always)]
    pub(crate) fn exchange<S: PrefixStore<Rc<Route>>>(&mut self, table: &mut Table<S>)
        requires { set.contains table.old.keys self.old.pair ≡ true }
        ensures keys { table.new.keys ≡ table.old.keys }
        ensures routes { table.new.routes ≡
            put table.old.routes self.old.pair (pointed_route self.old.other) }
        ensures taken_out { pointed_route self.new.other
            ≡ finite.get table.old.routes self.old.pair }
        ensures pair { self.new.pair ≡ self.old.pair }
        ensures before { self.new.before ≡ self.old.before }
        ensures after { self.new.after ≡ self.old.after }
    {
        let pair = self.pair();
        let number = self.shared_peer().number_hint();
        let (absent, mut other) = replace(&mut self.kept, EntryRepr::Taken).split_off_route();
        table.exchange(&pair, number, &mut other);
        self.kept = absent.with_route(other);
    }

    /// Records in the entry that its step (a played event) cleared the route of its peer and
    /// prefix: the entry keeps `route`, the one before the step, for undo. Doesn't change the
    /// table; the caller has to take `route` out of it.
    #[inline]
    pub(crate) fn set_cleared(&mut self, route: Rc<Route>)
        ensures { self.new ≡ cleared_entry self.old route }
    {
        let (absent, _) = replace(&mut self.kept, EntryRepr::Taken).split_off_route();
        self.kept = absent.with_route(Some(route));
        self.set_route_presence(RoutePresence {
            before: true,
            after: false,
        });
    }

    /// Applies the entry of a new step (a played event) to the table: makes the entry's peer and
    /// prefix a key, with memory for a route, swaps the entry's route with the table's, and records
    /// in the entry whether there is a route before the step and after it. Returns `true` if peer
    /// and prefix weren't a key before, `false` if they were. Fails if memory allocation fails;
    /// entry and table are unchanged then.
    #[inline]
    pub(crate) fn put<S: PrefixStore<Rc<Route>>>(
        &mut self,
        table: &mut Table<S>,
    ) -> Result<bool, AllocError>
        ensures keys { OnOk result (table.new.keys ≡ set.insert table.old.keys self.old.pair) }
        ensures made { IfOk result (λ made.
            made ≡ not (set.contains table.old.keys self.old.pair)) }
        ensures put { OnOk result (AreApplied table.old table.new (self.old ∷ []) (self.new ∷ [])) }
        ensures pair { self.new.pair ≡ self.old.pair }
        ensures refused { OnErr result (table.new.keys ≡ table.old.keys) }
        ensures held { OnErr result (table.new.routes ≡ table.old.routes) }
        ensures kept { OnErr result (self.new ≡ self.old) }
    {
        let pair = self.pair();
        let number = self.shared_peer().number_hint();
        let (absent, mut other) = replace(&mut self.kept, EntryRepr::Taken).split_off_route();
        let after = other.is_some();
        let put = table.put(&pair, number, &mut other);
        let before = other.is_some();
        self.kept = absent.with_route(other);
        let made = put?;
        self.set_route_presence(RoutePresence { before, after });
        Ok(made)
    }
}
