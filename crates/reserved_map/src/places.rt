//! Places with a value and vacant ones.
ghost use Rattle.std.specs.Prelude.{◌≡◌, ◌+◌, ◌<◌, ◌^◌, true, false, OnOk, IfSome, is_some, if◌then◌else◌, ◌&&◌, not};
ghost use Rattle.std.specs.FinMap as map;
ghost use Rattle.std.specs.BTreeMap as tree;
ghost use Rattle.std.specs.Ordering.{eq_by_cmp};
ghost use Rattle.reserved_map.specs.Values.{values_at};
ghost use Rattle.reserved_map.specs.Lends.{lends_value};
ghost use Rattle.std.specs.Borrow.{sem};
ghost use Rattle.std.specs.Option.{option_copied_mut, option_map};
ghost use Rattle.std.specs.Range.Bound.{bound_map};
ghost use Rattle.reserved_map.specs.Order.{first_from};

use crate::ExactKey;
use hb_wire::NoMemory;
use std::alloc::{AllocError, Allocator};
use std::collections::BTreeMap;
use std::mem::replace;
use std::ops::Bound;

/// Adds a vacant place for a key that has none.
pub(crate) fn add_place<K: ExactKey, V: Drop>(
    places: &mut BTreeMap<K, Option<V>>,
    key: K,
) -> Result<(), NoMemory>
    requires { is_some (tree.get K.cmp places.old key) ≡ false }
    ensures added { OnOk result (is_some (tree.get K.cmp places.new key) ≡ true) }
    ensures values { values_at K.cmp places.new.entries ≡ values_at K.cmp places.old.entries }
    ensures kept { (q : _) → is_some (tree.get K.cmp places.old q) ≡ true → is_some (tree.get K.cmp places.new q) ≡ true }
{
    match places.insert(key, None) {
        Ok(_) => Ok(()),
        Err(_) => Err(AllocError),
    }
}

/// Sets the value at a place, and answers the one before.
pub(crate) fn fill_place<K: ExactKey, V: Drop>(
    places: &mut BTreeMap<K, Option<V>>,
    key: &K,
    value: V,
) -> Option<V>
    requires { is_some (tree.get K.cmp places.old key.now) ≡ true }
    ensures before { result ≡ map.get (values_at K.cmp places.old.entries) key.now }
    ensures values { values_at K.cmp places.new.entries ≡ map.insert (values_at K.cmp places.old.entries) key.now value }
    ensures kept { (q : _) → is_some (tree.get K.cmp places.new q) ≡ is_some (tree.get K.cmp places.old q) }
{
    match places.get_mut(key) {
        Some(place) => replace(place, Some(value)),
        None => None,
    }
}

/// Takes the value out of a place.
pub(crate) fn empty_place<K: ExactKey, V: Drop>(
    places: &mut BTreeMap<K, Option<V>>,
    key: &K,
) -> Option<V>
    ensures before { result ≡ map.get (values_at K.cmp places.old.entries) key.now }
    ensures values { values_at K.cmp places.new.entries ≡ map.remove (values_at K.cmp places.old.entries) key.now }
    ensures kept { (q : _) → is_some (tree.get K.cmp places.new q) ≡ is_some (tree.get K.cmp places.old q) }
    ensures stands { IfSome result (λ _. is_some (tree.get K.cmp places.new key.now) ≡ true) }
{
    match places.get_mut(key) {
        Some(place) => replace(place, None),
        None => None,
    }
}

/// Takes a place away, and answers its value.
pub(crate) fn remove_place<K: ExactKey, V: Drop>(
    places: &mut BTreeMap<K, Option<V>>,
    key: &K,
) -> Option<V>
    ensures before { result ≡ map.get (values_at K.cmp places.old.entries) key.now }
    ensures values { values_at K.cmp places.new.entries ≡ map.remove (values_at K.cmp places.old.entries) key.now }
    ensures kept { (q : _) → is_some (tree.get K.cmp places.new q) ≡ (not (eq_by_cmp K.cmp key.now q) && is_some (tree.get K.cmp places.old q)) }
{
    match places.remove(key) {
        Some(place) => place,
        None => None,
    }
}

/// Takes a vacant place away.
pub(crate) fn drop_vacant<K: ExactKey, V: Drop>(places: &mut BTreeMap<K, Option<V>>, key: &K)
    ensures values { values_at K.cmp places.new.entries ≡ values_at K.cmp places.old.entries }
    ensures back { is_some (tree.get K.cmp places.new key.now) ≡ map.contains_key (values_at K.cmp places.old.entries) key.now }
    ensures others { (q : _) → eq_by_cmp K.cmp key.now q ≡ false → is_some (tree.get K.cmp places.new q) ≡ is_some (tree.get K.cmp places.old q) }
{
    match places.get(key) {
        Some(None) => {
            places.remove(key);
        }
        Some(Some(_)) => (),
        None => (),
    }
}

/// The value at a key, for writing.
pub(crate) fn value_mut<'a, K: ExactKey, V: Drop, A: Allocator>(
    places: &'a mut BTreeMap<K, Option<V>, A>,
    key: &K,
) -> Option<&'a mut V>
    ensures* writes_back { sem 𝓛 (lends_value K.row V.row A.row K.Ord A.Allocator places.entry key.now result) }
    ensures value { option_copied_mut result ≡ map.get (values_at K.cmp places.old.entries) key.now }
{
    match places.get_mut(key) {
        Some(place) => place.as_mut(),
        None => None,
    }
}

/// The value of the least key from a bound on, with its key.
pub(crate) fn first_value<'a, K: ExactKey, V: Drop>(
    places: &'a BTreeMap<K, Option<V>>,
    start: Bound<&K>,
) -> Option<(&'a K, &'a V)>
    ensures { option_map (λ e. (e.0.now, e.1.now)) result ≡ first_from K.cmp (bound_map (λ k. k.now) start.entry) (values_at K.cmp places.now.entries) }
{
    for (key, place) in places.range((start, Bound::Unbounded)) {
        if let Some(value) = place {
            return Some((key, value));
        }
    }
    None
}
