//! A multiset of keys (values of an ordered type) in little memory: in place for one key, in a list
//! for a few, and in a map for more. `claims.rt` has one for each peer and family, with the peer's
//! prefixes as keys. Read [`KeyCounts`] first.

ghost use Rattle.std.specs.Prelude.{◌≡◌, [], ◌∷◌, ◌+◌, ◌<◌, ◌&&◌, true, nat_lt, length, take, drop, Some, None, IfOk, IfSome, IfNone, OnOk, OnErr};
ghost use Rattle.std.specs.Map.{lookup};
ghost use Rattle.std.specs.BTreeMap as tree;
ghost use Rattle.std.specs.Ordering.{eq_by_cmp};
ghost use Rattle.prefix_store.specs.declared.store.TheConstants.{GREATEST_COUNT};
ghost use Rattle.rib_player.specs.Claims.{one_if};
ghost use Rattle.rib_player.specs.KeyCounts.{count_at, count_in, IsFirst};

use std::alloc::{AllocError, Global};
use std::collections::BTreeMap;

/// The largest number of keys in a list. When one is added to a full list, all counts move to a
/// map, also if the key is in the list. Measured: the first node of the map takes 248 octets for
/// numbers, where the list has 128, and 488 for prefixes, where it has 256; it has room for fifteen
/// keys.
const FEW: usize = 8;

/// A multiset of keys: how often each value of `K` is counted. It takes 32 octets if keys are `u64`
/// numbers, or 40 if they are prefixes, and no other memory for one key. Beside these, a list of a
/// few keys takes 16 octets (or 32 for prefixes) for each key, by the most keys that it ever had,
/// and a map of several nodes at most 39 octets (or 74) for each key.
#[derive(Drop)]
pub(crate) enum KeyCounts<K: Ord> {
    /// No key is counted.
    None,
    /// One key and its count.
    One(K, u64),
    /// A few keys, each once, with their counts, in unspecified order.
    Few(Vec<(K, u64)>),
    /// The keys and their counts, once there were more than a list holds ([`FEW`]). Stays a map
    /// until no key is left.
    Many(BTreeMap<K, u64>),
}

/// Returns the index in `counts` of the first element whose key equals `key`, or `None` if there is
/// none.
fn position_of_key<K: Ord + Copy>(counts: &[(K, u64)], key: &K) -> Option<usize>
    ensures some { IfSome result (λ place. IsFirst K.cmp key.now counts.now place) }
    ensures none { IfNone result (lookup (tree.is_at (K.cmp key.now)) counts.now ≡ None) }
{
    'counts: for place in 0..counts.len() {
        if key.cmp(&counts[place].0).is_eq() {
            return Some(place);
        }
    }
    None
}

/// Adds one to the count of `key` in `counts`, a list of keys with their counts, in any order;
/// appends `key` with the count 1 if it isn't there. Of several elements with `key`, the first is
/// taken. Requires that its count is below `u64::MAX`. Fails if memory allocation fails; the list
/// is unchanged then.
fn increment_in_list<K: Ord + Copy>(counts: &mut Vec<(K, u64)>, key: K) -> Result<(), AllocError>
    requires { count_in K.cmp counts.old.items key < GREATEST_COUNT }
    ensures counted { OnOk result ((k : K) → count_in K.cmp counts.new.items k
        ≡ count_in K.cmp counts.old.items k + one_if (eq_by_cmp K.cmp k key)) }
    ensures refused { OnErr result (counts.new.items ≡ counts.old.items) }
{
    if let Some(place) = position_of_key(counts, &key) {
        counts[place].1 += 1;
        return Ok(());
    }
    counts.reserve_exact(1)?;
    counts.push_reserved((key, 1));
    Ok(())
}

/// Subtracts one from the count of `key` in `counts`, a list of keys with their counts, in any
/// order. Of several elements with `key`, the first has the count. Returns `true` if the count was
/// above 0, or `false` if it was 0 or `key` isn't in the list. If the count is 0 afterwards, all
/// elements with `key` are removed. The other elements keep their order, and the list its capacity.
fn try_decrement_in_list<K: Ord + Copy + Drop>(counts: &mut Vec<(K, u64)>, key: &K) -> bool
    ensures some { result ≡ nat_lt 0 (count_in K.cmp counts.old.items key.now) }
    ensures counted { (k : K) → count_in K.cmp counts.new.items k
        + one_if (result && eq_by_cmp K.cmp k key.now) ≡ count_in K.cmp counts.old.items k }
{
    let Some(place) = position_of_key(counts, key) else {
        return false;
    };
    let count = counts[place].1;
    if count > 1 {
        counts[place].1 = count - 1;
        return true;
    }
    counts.retain(|entry| !key.cmp(&entry.0).is_eq());
    count > 0
}

/// Returns a map with the keys and counts of the list `counts`. Of several elements with equal
/// keys, the first is taken. Fails if memory allocation fails.
fn map_of_list<K: Ord + Copy + Drop>(
    alloc: Global,
    counts: &[(K, u64)],
) -> Result<BTreeMap<K, u64>, AllocError>
    ensures { IfOk result (λ made. (k : K) → tree.get K.cmp made k
        ≡ lookup (tree.is_at (K.cmp k)) counts.now) }
{
    let mut made = BTreeMap::new(alloc);
    let mut rest = counts.len();
    'counts: while rest > 0 {
        rest -= 1;
        let entry = counts[rest];
        made.insert(entry.0, entry.1)?;
    }
    Ok(made)
}

/// Adds one to the count of `key` in the map `counts`, or inserts `key` with the count 1 if it
/// isn't there. Requires that its count is below `u64::MAX`. Fails if memory allocation fails; the
/// map is unchanged then.
fn increment_in_map<K: Ord + Copy + Drop>(
    counts: &mut BTreeMap<K, u64>,
    key: K,
) -> Result<(), AllocError>
    requires { count_in K.cmp counts.old.entries key < GREATEST_COUNT }
    ensures counted { OnOk result ((k : K) → count_in K.cmp counts.new.entries k
        ≡ count_in K.cmp counts.old.entries k + one_if (eq_by_cmp K.cmp k key)) }
    ensures refused { OnErr result ((k : K) →
        count_in K.cmp counts.new.entries k ≡ count_in K.cmp counts.old.entries k) }
{
    let count = counts.entry(key)?.or_insert(0);
    *count += 1;
    Ok(())
}

/// Subtracts one from the count of `key` in the map `counts`. Returns `true` if it did, or `false`
/// if `key` isn't there or its count is 0. A key whose count is 0 afterwards is removed.
fn try_decrement_in_map<K: Ord + Copy + Drop>(counts: &mut BTreeMap<K, u64>, key: &K) -> bool
    ensures some { result ≡ nat_lt 0 (count_in K.cmp counts.old.entries key.now) }
    ensures counted { (k : K) → count_in K.cmp counts.new.entries k
        + one_if (result && eq_by_cmp K.cmp k key.now) ≡ count_in K.cmp counts.old.entries k }
{
    let Some(count) = counts.get_mut(key) else {
        return false;
    };
    if *count > 1 {
        *count -= 1;
        return true;
    }
    let some = *count > 0;
    counts.remove(key);
    some
}

/// Returns a map with the keys and counts of the list `counts`, and with one more for `key`, which
/// may be in the list or not. Of several elements with equal keys, the first is taken. Requires
/// that the count of `key` in the list is below `u64::MAX`. Fails if memory allocation fails.
fn map_of_list_and_one<K: Ord + Copy + Drop>(
    alloc: Global,
    counts: &[(K, u64)],
    key: K,
) -> Result<BTreeMap<K, u64>, AllocError>
    requires { count_in K.cmp counts.now key < GREATEST_COUNT }
    ensures { IfOk result (λ made. (k : K) → count_in K.cmp made.entries k
        ≡ count_in K.cmp counts.now k + one_if (eq_by_cmp K.cmp k key)) }
{
    let mut made = map_of_list(alloc, counts)?;
    increment_in_map(&mut made, key)?;
    Ok(made)
}

/// Adds one to the count of `key` in the list `counts`, and returns `None`. If the list is full
/// (has [`FEW`] keys), leaves it unchanged instead, and returns a map with its counts and one more
/// for `key`, which the caller has to keep in place of the list. Requires that the count of `key`
/// is below `u64::MAX`. Fails if memory allocation fails; the list is unchanged then.
fn increment_or_move<K: Ord + Copy + Drop>(
    alloc: Global,
    counts: &mut Vec<(K, u64)>,
    key: K,
) -> Result<Option<BTreeMap<K, u64>>, AllocError>
    requires { count_in K.cmp counts.old.items key < GREATEST_COUNT }
    ensures counted { IfOk result (λ many. IfNone many ((k : K) → count_in K.cmp counts.new.items k
        ≡ count_in K.cmp counts.old.items k + one_if (eq_by_cmp K.cmp k key))) }
    ensures moved { IfOk result (λ many. IfSome many (λ made. (k : K) →
        count_in K.cmp made.entries k
        ≡ count_in K.cmp counts.old.items k + one_if (eq_by_cmp K.cmp k key))) }
    ensures refused { OnErr result (counts.new.items ≡ counts.old.items) }
{
    if counts.len() < FEW {
        increment_in_list(counts, key)?;
        return Ok(None);
    }
    Ok(Some(map_of_list_and_one(alloc, counts, key)?))
}

/// Returns a multiset in which `only` is counted `count` times, and `key` once more; the two may be
/// equal, which gives one key with `count + 1`. Requires that this doesn't overflow. Fails if
/// memory allocation fails, which can happen only if the keys are different.
fn increment_single<K: Ord + Copy + Drop>(
    alloc: Global,
    only: K,
    count: u64,
    key: K,
) -> Result<KeyCounts<K>, AllocError>
    requires { count_in K.cmp ((only, count) ∷ []) key < GREATEST_COUNT }
    ensures { IfOk result (λ new. (k : K) → count_at K.cmp new k
        ≡ count_in K.cmp ((only, count) ∷ []) k + one_if (eq_by_cmp K.cmp k key)) }
{
    if key.cmp(&only).is_eq() {
        return Ok(KeyCounts::One(only, count + 1));
    }
    let mut both = Vec::with_capacity(alloc, 2)?;
    both.push_reserved((only, count));
    both.push_reserved((key, 1));
    Ok(KeyCounts::Few(both))
}

/// Returns a multiset in which `only` is counted `count` times, less one if `key` equals `only` and
/// `count` isn't 0. The second value is `true` if one was subtracted, `false` if not.
fn decrement_single<K: Ord + Copy + Drop>(only: K, count: u64, key: &K) -> (KeyCounts<K>, bool)
    ensures some { result.1 ≡ nat_lt 0 (count_in K.cmp ((only, count) ∷ []) key.now) }
    ensures counted { (k : K) → count_at K.cmp result.0 k
        + one_if (result.1 && eq_by_cmp K.cmp k key.now) ≡ count_in K.cmp ((only, count) ∷ []) k }
{
    if !key.cmp(&only).is_eq() {
        return (KeyCounts::One(only, count), false);
    }
    if count > 1 {
        return (KeyCounts::One(only, count - 1), true);
    }
    (KeyCounts::None, count > 0)
}

impl<K: Ord + Copy + Drop> KeyCounts<K> {
    /// Returns `true` if no key is counted: every count is 0.
    pub(crate) fn is_empty(&self) -> bool
        ensures { result ≡ true → (k : K) → count_at K.cmp self.now k ≡ 0 }
    {
        matches!(self, KeyCounts::None)
    }

    /// Adds one to the count of `key`, which is 0 for a key that isn't there. Requires that it is
    /// below `u64::MAX`. Fails if memory allocation fails; the counts are unchanged then.
    pub(crate) fn increment(&mut self, alloc: Global, key: K) -> Result<(), AllocError>
        requires { count_at K.cmp self.old key < GREATEST_COUNT }
        ensures counted { OnOk result ((k : K) → count_at K.cmp self.new k
            ≡ count_at K.cmp self.old k + one_if (eq_by_cmp K.cmp k key)) }
        ensures refused { OnErr result ((k : K) →
            count_at K.cmp self.new k ≡ count_at K.cmp self.old k) }
    {
        match self {
            KeyCounts::None => *self = KeyCounts::One(key, 1),
            KeyCounts::One(only, count) => *self = increment_single(alloc, *only, *count, key)?,
            KeyCounts::Few(counts) => {
                if let Some(many) = increment_or_move(alloc, counts, key)? {
                    *self = KeyCounts::Many(many);
                }
            }
            KeyCounts::Many(counts) => return increment_in_map(counts, key),
        }
        Ok(())
    }

    /// Subtracts one from the count of `key`. Returns `true` if it did, or `false`, without a
    /// change, if the count is 0. Allocates no memory.
    pub(crate) fn try_decrement(&mut self, key: &K) -> bool
        ensures some { result ≡ nat_lt 0 (count_at K.cmp self.old key.now) }
        ensures counted { (k : K) → count_at K.cmp self.new k
            + one_if (result && eq_by_cmp K.cmp k key.now) ≡ count_at K.cmp self.old k }
    {
        match self {
            KeyCounts::None => false,
            KeyCounts::One(only, count) => {
                let (new, taken) = decrement_single(*only, *count, key);
                *self = new;
                taken
            }
            KeyCounts::Few(counts) => {
                let taken = try_decrement_in_list(counts, key);
                if counts.is_empty() {
                    *self = KeyCounts::None;
                }
                taken
            }
            KeyCounts::Many(counts) => {
                let taken = try_decrement_in_map(counts, key);
                if counts.is_empty() {
                    *self = KeyCounts::None;
                }
                taken
            }
        }
    }
}
