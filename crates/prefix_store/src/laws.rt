//! Theorems about the definitions that the contracts of [`PrefixStore`](crate::PrefixStore) cite.
//! The functions have no code and nothing calls them: what they state is proved as the crate is
//! checked. `docs/proved.md` names them. Read [`law_put_route`] first.

ghost use Rattle.std.specs.Prelude.{◌≡◌, ◌≢◌, ◌+◌, ◌^◌, ◌∷◌, [], Option, Some, None};
ghost use Rattle.std.specs.FinMap as finite;
ghost use Rattle.std.specs.List.Sorted.{IsStrictlySortedBy};
ghost use Rattle.ip_prefix.specs.Network.{Address, Network, network_cmp};
ghost use Rattle.prefix_store.specs.declared.store.TheConstants.{GREATEST_COUNT};
ghost use Rattle.prefix_store.specs.Stored.{Routes, put};
ghost use Rattle.prefix_store.specs.Contents.{first_above, routes_above};
ghost use Rattle.prefix_store.specs.Lookups.{IsLongestMatch};

/// States that [`GREATEST_COUNT`](crate::GREATEST_COUNT) is `u64::MAX`. A store that has more keys
/// (prefixes with memory for a route) or routes than this number returns this number as their
/// count.
pub fn law_greatest_count_is_u64_max()
    ensures { GREATEST_COUNT + 1 ≡ 2 ^ 64 }
{}

/// States what a store of routes by prefix holds after a route was put at a prefix, or the route
/// there was removed:
/// - At that prefix, it has that route, or none.
/// - At each other prefix, it has what it had before.
pub fn law_put_route<R>()
    ensures there { (routes : Routes R) (n : Network) (new : Option R)
        → finite.get (put routes n new) n ≡ new }
    ensures others { (routes : Routes R) (m n : Network) (new : Option R)
        → m ≢ n → finite.get (put routes n new) m ≡ finite.get routes m }
{}

/// States that a store of routes by prefix has at most one route whose prefix is the longest that
/// contains a given address. So the contract of a look-up determines which route it finds, or that
/// it finds none.
pub fn law_one_longest<R>()
    ensures { (routes : Routes R) (address : Address) (one other : Option (Network × R))
        → IsLongestMatch routes address one → IsLongestMatch routes address other → one ≡ other }
{}

/// States that a walk over a store, from the least prefix with a route to the next greater one and
/// so on, meets every route once:
/// - Without a prefix to start after, the routes to come are all routes.
/// - If a next route is found, the routes to come are this one, and then those at greater prefixes.
/// - If no next route is found, no routes are to come.
/// - The prefixes ascend, so that no route is met twice.
pub fn law_walk<R>()
    ensures all { (routes : Routes R)
        → routes_above routes None ≡ finite.entries routes }
    ensures next { (routes : Routes R) (low : Option Network) (e : Network × R)
        → first_above routes low ≡ Some e
        → routes_above routes low ≡ e ∷ routes_above routes (Some e.0) }
    ensures end { (routes : Routes R) (low : Option Network)
        → first_above routes low ≡ None
        → routes_above routes low ≡ [] }
    ensures order { (routes : Routes R) → IsStrictlySortedBy network_cmp (finite.keys routes) }
{}
