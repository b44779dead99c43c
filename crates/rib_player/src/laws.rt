//! Theorems about the definitions that the contracts of [`Player`](crate::Player) and
//! [`Table`](crate::Table) cite. The functions here have no code and nothing calls them: each is a
//! statement, its `ensures` clauses, that is proved when the crate is checked. A step is a played
//! event, a position is a number of steps, the cursor is the position of the table now, and the
//! floor is the lowest position that undo can reach. Read [`law_player_follows_history`] first;
//! `docs/proved.md` names them all.
#![tactic(auto, using(crate::proofs::LawRules::law_lemmas))]

ghost use Rattle.std.specs.Prelude.{◌≡◌, ℕ, ◌≤◌, ◌<◌, ◌+◌, ◌-◌, ◌++◌, ◌∷◌, ◌||◌, [], List, is_some, length, take, slice_get, nat_lt, min, Option, Some, None};
ghost use Rattle.std.specs.List.{list_any};
ghost use Rattle.std.specs.List.Sorted.{IsStrictlySortedBy};
ghost use Rattle.std.specs.Ordering.{eq_by_cmp};
ghost use Rattle.std.specs.Cmp.{IsTotalOrder};
ghost use Rattle.std.specs.FinMap.{IsAntisymmetric};
ghost use Rattle.std.specs.FinMap as finite;
ghost use Rattle.std.specs.FinSet as set;
ghost use Rattle.ip_prefix.specs.Network.{Network};
ghost use Rattle.mrt_events.specs.declared.event.Event.{Event};
ghost use Rattle.mrt_events.specs.declared.peer.Peer.{Peer};
ghost use Rattle.mrt_events.specs.Event.{peer_cmp};
ghost use Rattle.rib_player.specs.declared.pair.Pair.{Pair};
ghost use Rattle.mrt_events.specs.declared.event.TheConstants.{ESTABLISHED};
ghost use Rattle.rib_player.specs.History.{pair_cmp, pair_of, effect, route_after, route};
ghost use Rattle.rib_player.specs.Tables.{Routes, table, table_after, is_named, named_pairs, peer_routes, routed_peers};
ghost use Rattle.rib_player.specs.Lookups.{routed_above};
ghost use Rattle.rib_player.specs.Timeline.{Timeline, end_of, table_at, current, after_play, forgotten_count, after_forget, fresh, after_undo, after_redo, without_first, needed_keys, IsWellFormed};
ghost use Rattle.rib_player.specs.Calls.{Call, StandsFor, named_pairs_at, play_undo_calls, play_undo_redo_calls, after_call, after_calls, history_after, history_after_calls};
ghost use Rattle.rib_player.specs.Claims.{one_if, claims, first_clears, last_brings, event_brings, without_last};

/// States that `ESTABLISHED` is 6, the number of the BGP session state Established (RFC 6396,
/// section 4.4.1). A session is lost when its state changes from this one to another.
pub fn law_established_state_number()
    ensures established { ESTABLISHED ≡ 6 }
{}

/// States that the order of pairs of a peer and a prefix is total, and that only equal pairs
/// compare equal, so that tables and sets can be ordered by pair.
pub fn law_pair_order()
    ensures total { IsTotalOrder pair_cmp }
    ensures ties { IsAntisymmetric pair_cmp }
{}

/// States which route a table has at each pair of a peer and a prefix, and which pairs an event
/// names:
/// - After a list of events, the table has at a pair what the last event that sets or clears the
///   pair left there: a route or none. It has none if there is no such event.
/// - After one more event, the table has what that event sets or clears at the pair. If it does
///   neither, the table has the route before.
/// - An event names a pair if it sets or clears it and the pair has a route before or after the
///   event. A player keeps memory for these pairs as long as undo or redo can go over the event
///   ([`law_which_pairs_are_keys`]).
pub fn law_last_event_decides_route()
    ensures table { (history : List Event) (pair : Pair) →
        finite.get (table history) pair ≡ route pair history }
    ensures table_after { (routes : Routes) (event : Event) (pair : Pair) →
        finite.get (table_after routes event) pair
        ≡ route_after (finite.get routes pair) (effect pair event) }
    ensures named_pairs { (routes : Routes) (event : Event) (pair : Pair) →
        set.contains (named_pairs routes event) pair
        ≡ is_named (finite.get routes pair) (effect pair event) }
{}

/// States how one peer's routes, and the list of the peers that have a route, follow from the
/// routes at all pairs of a peer and a prefix:
/// - The peer's route to a prefix is the one at the pair of the two.
/// - The list of peers that have a route has a peer if, and only if, the peer has at least one
///   route.
/// - That list is in strictly ascending order, so it has each of them once.
pub fn law_routes_of_peers()
    ensures routes { (routes : Routes) (peer : Peer) (prefix : Network) →
        finite.get (peer_routes routes peer) prefix ≡ finite.get routes (pair_of peer prefix) }
    ensures peers { (routes : Routes) (peer : Peer) →
        list_any (eq_by_cmp peer_cmp peer) (routed_peers routes)
        ≡ nat_lt 0 (finite.len (peer_routes routes peer)) }
    ensures order { (routes : Routes) → IsStrictlySortedBy peer_cmp (routed_peers routes) }
{}

/// States that a walk by [`Table::peer_after`](crate::Table::peer_after), which begins with `None`
/// and goes on with each peer that it returns until it returns `None`, meets all peers that have a
/// route, each once, in ascending order.
pub fn law_walk_over_peers()
    ensures all { (routes : Routes) →
        routed_above routes None ≡ routed_peers routes }
    ensures next { (routes : Routes) (low : Option Peer) (p : Peer)
        → slice_get (routed_above routes low) 0 ≡ Some p
        → routed_above routes low ≡ p ∷ routed_above routes (Some p) }
    ensures end { (routes : Routes) (low : Option Peer)
        → slice_get (routed_above routes low) 0 ≡ None
        → routed_above routes low ≡ [] }
{}

/// States which pairs of a peer and a prefix are the keys of a player's table, for which it keeps
/// memory for a route: those that have a route at the cursor (in the table now), and those that a
/// kept step (a played event that undo or redo can go over) names, before or after the cursor; and
/// no others. A step names a pair if its event sets or clears it and the pair has a route before or
/// after the step.
pub fn law_which_pairs_are_keys()
    ensures { (t : Timeline) (pair : Pair) → set.contains (needed_keys t) pair
        ≡ (is_some (finite.get (current t) pair)
        || list_any (λ step. set.contains step pair) t.steps) }
{}

/// States that a pair of a peer and a prefix is a key of a player's table (keeps memory for a
/// route) if, and only if, it has a claim. Its claims are its route before the first kept step (a
/// played event that undo or redo can go over), if it has one there, and each kept step that gives
/// it a route when it has none. Their number changes so:
/// - Forgetting the first kept step, so that it can't be undone any more, takes one if the pair has
///   a route before that step and none after it.
/// - Dropping the last kept step takes one if the pair has none before that step and one after it.
/// - Playing an event when no step is undone adds one if the pair has none before the event and one
///   after it.
pub fn law_keys_and_claim_counts()
    ensures needed_keys { (t : Timeline) (history : List Event) (pair : Pair) →
        StandsFor t history →
        set.contains (needed_keys t) pair ≡ nat_lt 0 (claims t pair) }
    ensures forgotten { (t : Timeline) (pair : Pair) → IsWellFormed t → 0 < length t.steps →
        claims t pair ≡ claims (without_first 1 t) pair
        + one_if (first_clears t pair) }
    ensures dropped { (t : Timeline) (pair : Pair) → IsWellFormed t → 0 < length t.steps →
        claims t pair ≡ claims (without_last t) pair
        + one_if (last_brings t pair) }
    ensures played { (t : Timeline) (e : Event) (pair : Pair) → IsWellFormed t →
        t.cursor ≡ end_of t →
        claims (after_play t e) pair ≡ claims t pair + one_if (event_brings t e pair) }
{}

/// States that the table of a list of events followed by one more event is the table of the list,
/// changed by that event. So a table can be computed event by event.
pub fn law_table_after_one_more_event()
    ensures { (history : List Event) (event : Event) →
        table (history ++ event ∷ []) ≡ table_after (table history) event }
{}

/// States that the tables and steps of a player are those that its history makes. The history is
/// the list of the events that were played, in order. It has those that undo can't reach any more
/// too, but not those that a play after an undo dropped. Each player has one
/// ([`law_history_after_all_calls`]). A position is a number of events, from the start of the
/// history.
/// - At each position from the lowest that undo can reach, the table is the one that the events
///   before the position make.
/// - For each event after that lowest position, the player keeps a step. The step names the pairs
///   (of a peer and a prefix) that the event sets or clears, except those that have no route before
///   it and none after it.
/// - The last position, the greatest that redo can reach, is the length of the history.
/// - In the table at the cursor, the current position, the last event before the cursor that sets
///   or clears a pair decides the pair's route.
pub fn law_player_follows_history()
    ensures tables { (t : Timeline) (history : List Event) → StandsFor t history →
        (i : ℕ) → t.floor ≤ i → i ≤ length history → table_at t i ≡ table (take i history) }
    ensures steps { (t : Timeline) (history : List Event) → StandsFor t history →
        (i : ℕ) → t.floor ≤ i →
        slice_get t.steps (i - t.floor) ≡ named_pairs_at history i }
    ensures end { (t : Timeline) (history : List Event) → StandsFor t history →
        end_of t ≡ length history }
    ensures routes { (t : Timeline) (history : List Event) → StandsFor t history →
        (pair : Pair) → finite.get (current t) pair ≡ route pair (take t.cursor history) }
{}

/// States how one call changes the history of a player: the list of the events that were played,
/// including those that can't be undone any more, without those dropped by a play after an undo.
/// After a play that succeeds, the history is the events before the cursor, and the new one. Any
/// other call, and any that fails, leaves it as it was. A list of events is the history of a player
/// if the cursor is at most its length and, from the lowest position that undo can reach, the
/// tables and steps are those that the events make.
pub fn law_history_after_one_call()
    ensures { (t : Timeline) (history : List Event) (call : Call) → StandsFor t history →
        StandsFor (after_call t call) (history_after t.cursor history call) }
{}

/// States that the calls made on a player, failed ones too, determine its history: the list of the
/// events that were played, including those that can't be undone any more, without those dropped by
/// a play after an undo. The history is what `history_after_calls` (`specs/Calls.antt`) computes
/// from the calls for a new player; for a player that isn't new, from the calls and a history before
/// them. A list of events is a history of a player if the cursor (the number of events that are
/// applied) is at most its length, and if the table at each position that undo can reach, and all
/// kept steps (played events that undo and redo go over), are those that its events make.
pub fn law_history_after_all_calls()
    ensures new { (calls : List Call) →
        StandsFor (after_calls fresh calls) (history_after_calls fresh [] calls) }
    ensures any { (t : Timeline) (history : List Event) (calls : List Call) → StandsFor t history →
        StandsFor (after_calls t calls) (history_after_calls t history calls) }
{}

/// States that undo takes back a play, and redo an undo. Playing an event and undoing it gives the
/// table before the play. Undoing a step (a played event), if there is one to undo, and redoing it
/// gives the whole player as before: table, steps and cursor. This holds of a player that has a
/// history of events, as each player has ([`law_history_after_all_calls`]).
pub fn law_one_step_back()
    ensures undo { (t : Timeline) (history : List Event) (event : Event) → StandsFor t history →
        current (after_undo (after_play t event)) ≡ current t }
    ensures redo { (t : Timeline) (history : List Event) → StandsFor t history →
        t.floor < t.cursor → after_redo (after_undo t) ≡ t }
{}

/// States what [`Player::forget`](crate::Player::forget) does, which forgets steps (played events),
/// so that at most a given number can still be undone:
/// - The tables at the cursor and at each position that undo and redo can still reach stay.
/// - Nothing changes if at most the given number can be undone anyway.
/// - Forgetting twice is forgetting once with the smaller of the two numbers.
pub fn law_forgetting_keeps_tables()
    ensures tables { (t : Timeline) (keep : ℕ) → (i : ℕ) → (after_forget t keep).floor ≤ i →
        table_at (after_forget t keep) i ≡ table_at t i }
    ensures current { (t : Timeline) (keep : ℕ) → t.floor ≤ t.cursor →
        current (after_forget t keep) ≡ current t }
    ensures none { (t : Timeline) (keep : ℕ) → forgotten_count t keep ≡ 0 →
        after_forget t keep ≡ t }
    ensures twice { (t : Timeline) (keep less : ℕ) → t.floor ≤ t.cursor →
        after_forget (after_forget t keep) less ≡ after_forget t (min keep less) }
{}

/// States that playing a list of events and undoing all of them gives the table before the first
/// play, and that redoing them after that gives the table of the history up to the cursor followed
/// by the list. This holds of a player that has a history of events, as each player has
/// ([`law_history_after_all_calls`]).
pub fn law_steps_back_and_forth()
    ensures back { (t : Timeline) (history events : List Event) → StandsFor t history →
        current (after_calls t (play_undo_calls events)) ≡ current t }
    ensures forth { (t : Timeline) (history events : List Event) → StandsFor t history →
        current (after_calls t (play_undo_redo_calls events))
        ≡ table (take t.cursor history ++ events) }
{}
