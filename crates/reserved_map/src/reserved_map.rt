//! A map with reserved places.
ghost use Rattle.std.specs.Prelude.{◌≡◌, true, false, IfOk, OnOk, IfSome, option_copied, ◌&&◌, not};
ghost use Rattle.std.specs.Borrow.{sem};
ghost use Rattle.std.specs.Option.{option_copied_mut, option_map};
ghost use Rattle.std.specs.Range.Bound.{bound_map};
ghost use Rattle.reserved_map.specs.Order.{first_from};
ghost use Rattle.std.specs.List.{All};
ghost use Rattle.std.specs.FinMap as map;
ghost use Rattle.std.specs.Ordering.{eq_by_cmp};
ghost use Rattle.reserved_map.specs.Filled.{filled, is_reserved};
ghost use Rattle.reserved_map.specs.LendsMap.{lends_at};
ghost use Rattle.reserved_map.specs.Changes.{with_first};

use crate::ExactKey;
use crate::places::{
    add_place, drop_vacant, empty_place, fill_place, first_value, remove_place, value_mut,
};
use hb_wire::{Copied, Items, NoMemory};
use std::alloc::Global;
use std::collections::BTreeMap;
use std::ops::Bound;

/// A map from keys to values. A key that memory was taken for has a place, with a value or vacant.
#[derive(Drop)]
pub struct ReservedMap<K: Ord, V> {
    places: BTreeMap<K, Option<V>>,
}

impl<K: ExactKey, V: Drop> ReservedMap<K, V> {
    /// The map of no values, with no place.
    pub fn new(alloc: Global) -> ReservedMap<K, V>
        ensures { filled K.cmp result ≡ map.empty }
    {
        ReservedMap {
            places: BTreeMap::new(alloc),
        }
    }

    /// The map of these values: of two at one key the first.
    pub fn from_pairs(alloc: Global, pairs: Vec<(K, V)>) -> Result<ReservedMap<K, V>, NoMemory>
    where
        K: Copied,
        ensures { IfOk result (λ found. filled K.cmp found ≡ map.from_entries pairs.items) }
    {
        let mut found = ReservedMap::new(alloc);
        for (key, value) in pairs {
            found.add_first(&key, value)?;
        }
        Ok(found)
    }

    /// Sets the value at a key that has none.
    fn add_first(&mut self, key: &K, value: V) -> Result<(), NoMemory>
    where
        K: Copied,
        ensures { OnOk result (filled K.cmp self.new ≡ with_first (filled K.cmp self.old) key.now value) }
    {
        if self.contains_key(key) {
            return Ok(());
        }
        self.reserve(key)?;
        self.put(key, value);
        Ok(())
    }

    /// The value at a key.
    pub fn get(&self, key: &K) -> Option<&V>
        ensures { option_copied result ≡ map.get (filled K.cmp self.now) key.now }
    {
        match self.places.get(key) {
            Some(place) => place.as_ref(),
            None => None,
        }
    }

    /// Whether there is a value at a key.
    pub fn contains_key(&self, key: &K) -> bool
        ensures { result ≡ map.contains_key (filled K.cmp self.now) key.now }
    {
        self.get(key).is_some()
    }

    /// Whether memory was taken for a value at a key.
    pub fn is_reserved(&self, key: &K) -> bool
        ensures { result ≡ is_reserved K.cmp self.now key.now }
    {
        self.places.contains_key(key)
    }

    /// Takes the memory that a value at a key needs.
    pub fn reserve(&mut self, key: &K) -> Result<(), NoMemory>
    where
        K: Copied,
        ensures reserved { OnOk result (is_reserved K.cmp self.new key.now ≡ true) }
        ensures filled { filled K.cmp self.new ≡ filled K.cmp self.old }
        ensures kept { (q : _) → is_reserved K.cmp self.old q ≡ true → is_reserved K.cmp self.new q ≡ true }
    {
        if self.is_reserved(key) {
            return Ok(());
        }
        add_place(&mut self.places, key.copy()?)
    }

    /// Takes the memory that a value at a key needs, where the key is not needed any more.
    pub fn reserve_owned(&mut self, key: K) -> Result<(), NoMemory>
        ensures reserved { OnOk result (is_reserved K.cmp self.new key ≡ true) }
        ensures filled { filled K.cmp self.new ≡ filled K.cmp self.old }
        ensures kept { (q : _) → is_reserved K.cmp self.old q ≡ true → is_reserved K.cmp self.new q ≡ true }
    {
        if self.is_reserved(&key) {
            return Ok(());
        }
        add_place(&mut self.places, key)
    }

    /// Takes the memory that values at some keys need.
    pub fn reserve_all(&mut self, keys: &[K]) -> Result<(), NoMemory>
    where
        K: Copied,
        ensures reserved { OnOk result (All (λ key. is_reserved K.cmp self.new key ≡ true) keys.now) }
        ensures filled { filled K.cmp self.new ≡ filled K.cmp self.old }
        ensures kept { (q : _) → is_reserved K.cmp self.old q ≡ true → is_reserved K.cmp self.new q ≡ true }
    {
        for key in keys {
            self.reserve(key)?;
        }
        Ok(())
    }

    /// Sets the value at a key, and answers the one before. It takes no memory.
    pub fn put(&mut self, key: &K, value: V) -> Option<V>
        requires { is_reserved K.cmp self.old key.now ≡ true }
        ensures before { result ≡ map.get (filled K.cmp self.old) key.now }
        ensures filled { filled K.cmp self.new ≡ map.insert (filled K.cmp self.old) key.now value }
        ensures reserved { (q : _) → is_reserved K.cmp self.new q ≡ is_reserved K.cmp self.old q }
    {
        fill_place(&mut self.places, key, value)
    }

    /// The value at a key, for writing. It takes no memory.
    pub fn get_mut(&mut self, key: &K) -> Option<&mut V>
        ensures* writes_back { sem 𝓛 (lends_at K.row V.row K.Ord self.entry key.now result) }
        ensures value { option_copied_mut result ≡ map.get (filled K.cmp self.old) key.now }
    {
        value_mut(&mut self.places, key)
    }

    /// Takes the value at a key out, and keeps its place. It takes no memory.
    pub fn take(&mut self, key: &K) -> Option<V>
        ensures before { result ≡ map.get (filled K.cmp self.old) key.now }
        ensures filled { filled K.cmp self.new ≡ map.remove (filled K.cmp self.old) key.now }
        ensures reserved { (q : _) → is_reserved K.cmp self.new q ≡ is_reserved K.cmp self.old q }
        ensures stands { IfSome result (λ _. is_reserved K.cmp self.new key.now ≡ true) }
    {
        empty_place(&mut self.places, key)
    }

    /// Takes the value at a key out, and gives its place's memory back.
    pub fn remove(&mut self, key: &K) -> Option<V>
        ensures before { result ≡ map.get (filled K.cmp self.old) key.now }
        ensures filled { filled K.cmp self.new ≡ map.remove (filled K.cmp self.old) key.now }
        ensures reserved { (q : _) → is_reserved K.cmp self.new q ≡ (not (eq_by_cmp K.cmp key.now q) && is_reserved K.cmp self.old q) }
    {
        remove_place(&mut self.places, key)
    }

    /// Gives the memory of a key without a value back.
    pub fn release(&mut self, key: &K)
        ensures filled { filled K.cmp self.new ≡ filled K.cmp self.old }
        ensures back { is_reserved K.cmp self.new key.now ≡ map.contains_key (filled K.cmp self.old) key.now }
        ensures others { (q : _) → eq_by_cmp K.cmp key.now q ≡ false → is_reserved K.cmp self.new q ≡ is_reserved K.cmp self.old q }
    {
        drop_vacant(&mut self.places, key)
    }

    /// The value of the least key from a bound on, with its key. It passes over the vacant places there.
    pub fn first_from(&self, start: Bound<&K>) -> Option<(&K, &V)>
        ensures { option_map (λ e. (e.0.now, e.1.now)) result ≡ first_from K.cmp (bound_map (λ k. k.now) start.entry) (filled K.cmp self.now) }
    {
        first_value(&self.places, start)
    }

    /// The keys that have a value, in order.
    pub fn keys(&self, alloc: Global) -> Result<Items<K>, NoMemory>
    where
        K: Copied,
        ensures { IfOk result (λ keys. keys ≡ map.keys (filled K.cmp self.now)) }
    {
        let mut keys = Vec::with_capacity(alloc, self.places.len())?;
        for (key, place) in &self.places {
            if place.is_some() {
                keys.push(key.copy()?)?;
            }
        }
        Ok(Items::from_vec(keys))
    }
}
