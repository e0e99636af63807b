//! An ordered map with byte strings as keys. Its model is a finite map from lists of bytes.
ghost use Rattle.std.specs.Prelude.{◌≡◌, ◌^◌, ◌<◌, ◌↔◌, IsTrue, IfOk, IfErr, OnOk, OnErr, length, map as map_each};
ghost use Rattle.std.specs.declared.option.Option.TheVariants.{None, Some};
ghost use Rattle.std.specs.Option.{option_copied, option_copied_mut};
ghost use Rattle.std.specs.Borrow.{LendsIf, sem};
ghost use Rattle.jc_base.specs.contracts.byte_map.ByteMap.{the_row};
ghost use Rattle.std.specs.Iterator.{YieldsFirstBy, YieldsFirstRef, item_count};
ghost use Rattle.std.specs.Map.Iter.{deref_pair};
ghost use Rattle.std.specs.FinMap as map;

use crate::no_memory::NoMemory;
use std::alloc::{AllocFailed, Global};
use std::collections::{BTreeMap, btree_map};
use std::marker::Model;

/// A map from byte strings to values, in the order of the bytes of its keys. Look-up, insertion and removal compare a
/// logarithmic number of keys.
#[derive(Drop)]
pub struct ByteMap<V> {
    entries: BTreeMap<Vec<u8>, V>,
}

impl<V> Model for ByteMap<V> {
    ghost use Rattle.std.specs.Prelude.{ℕ, List};
    ghost use Rattle.std.specs.Coded.{coded_list, coded_ℕ};
    ghost use Rattle.std.specs.FinMap as map;
    ghost use Rattle.jc_base.specs.Bytes.{bytes_cmp};

    ghost Value = { map.FinMap bytes_cmp V };

    ghost coded = { map.code (coded_list coded_ℕ) V.code };

    ghost use Rattle.jc_base.specs.inside.ByteMap.{byte_entries};

    ghost view = { λ a. map.from_entries (byte_entries a.entries.entries) };
}

impl<V> ByteMap<V> {
    /// Creates an empty map. Does not allocate.
    pub fn new(alloc: Global) -> ByteMap<V>
        ensures { result ≡ map.empty }
    {
        ByteMap {
            entries: BTreeMap::new(alloc),
        }
    }

    /// Returns the number of keys.
    pub fn len(&self) -> usize
        ensures len { result ≡ map.len self.now }
        ensures small { result < 2 ^ 63 }
    {
        self.entries.len()
    }

    /// Returns whether the map has no keys.
    pub fn is_empty(&self) -> bool
        ensures { IsTrue result ↔ (self.now ≡ map.empty) }
    {
        self.len() == 0
    }

    /// Returns the value at the key.
    pub fn get(&self, key: &[u8]) -> Option<&V>
        ensures { option_copied result ≡ map.get self.now key.now }
    {
        self.entries.get(key)
    }

    /// Returns whether the map has the key.
    pub fn contains_key(&self, key: &[u8]) -> bool
        ensures { result ≡ map.contains_key self.now key.now }
    {
        self.entries.contains_key(key)
    }

    /// Inserts the value at the key, and returns the previous value, if there was one.
    ///
    /// If the map has the key already, the map keeps its own key and drops the new one. Fails only when an allocation
    /// for a new key fails, and then returns the key and the value.
    pub fn insert(&mut self, key: Vec<u8>, value: V) -> Result<Option<V>, AllocFailed<(Vec<u8>, V)>>
        ensures before { IfOk result (λ before. before ≡ map.get self.old key.items) }
        ensures ok { OnOk result (self.new ≡ map.insert self.old key.items value) }
        ensures absent { OnErr result (map.get self.old key.items ≡ None) }
        ensures value_returned { IfErr result (λ refused. refused.value ≡ (key, value)) }
        ensures err { OnErr result (self.new ≡ self.old) }
    {
        self.entries.insert(key, value)
    }

    /// Removes the key, and returns its value, if the map has the key. Does not allocate.
    pub fn remove(&mut self, key: &[u8]) -> Option<V>
        ensures before { result ≡ map.get self.old key.now }
        ensures removed { self.new ≡ map.remove self.old key.now }
    {
        self.entries.remove(key)
    }

    /// Returns a mutable reference to the value at the key. Does not allocate.
    pub fn get_mut(&mut self, key: &[u8]) -> Option<&mut V>
        ensures value { option_copied_mut result ≡ map.get self.old key.now }
        ensures* writes_back { sem 𝓛 (LendsIf (the_row V.row) V.row self.entry result
            (map.insert self.entry.now key.now) self.entry.now) }
    {
        self.entries.get_mut(key)
    }

    /// Returns an iterator over the entries, in the order of their keys.
    pub fn iter(&self) -> Iter<'_, V>
        ensures entries { result ≡ map.entries self.now }
        ensures len { length result ≡ map.len self.now }
        ensures small { length result < 2 ^ 63 }
    {
        Iter {
            entries: self.entries.iter(),
        }
    }

    /// Returns an iterator over the keys, in their order.
    pub fn keys(&self) -> Keys<'_, V>
        ensures keys { result ≡ map.keys self.now }
        ensures len { length result ≡ map.len self.now }
        ensures small { length result < 2 ^ 63 }
    {
        Keys {
            keys: self.entries.keys(),
        }
    }

    /// Moves the keys out of the map, in their order. Allocates only the list. Returns `NoMemory` only when an
    /// allocation fails.
    pub fn into_keys(self, alloc: Global) -> Result<Vec<Vec<u8>>, NoMemory>
    where
        V: Drop,
        ensures { IfOk result (λ keys. map_each (λ k. k.items) keys.items ≡ map.keys self) }
    {
        let mut keys = Vec::new(alloc);
        for key in self.entries.into_keys() {
            keys.push(key)?;
        }
        Ok(keys)
    }
}

impl<'a, V> IntoIterator for &'a ByteMap<V> {
    type Item = (&'a [u8], &'a V);

    type IntoIter = Iter<'a, V>;

    ghost into_iter_gives = { λ m it. (it ≡ map.entries m.now)
        × (length it ≡ map.len m.now) × (length it < 2 ^ 63) };

    fn into_iter(self) -> Iter<'a, V> {
        self.iter()
    }
}

/// An iterator over the entries of a [`ByteMap`], in the order of their keys. Its model is the list of those that are
/// left.
#[derive(Drop)]
pub struct Iter<'a, V> {
    entries: btree_map::Iter<'a, Vec<u8>, V>,
}

impl<'a, V> Model for Iter<'a, V> {
    ghost use Rattle.std.specs.Prelude.{ℕ, List};
    ghost use Rattle.jc_base.specs.inside.ByteMap.{byte_entries};

    ghost Value = { List (List ℕ × V) };

    ghost view = { λ a. byte_entries a.entries };
}

impl<'a, V> Iterator for Iter<'a, V> {
    type Item = (&'a [u8], &'a V);

    ghost next_gives = { YieldsFirstBy deref_pair (λ left. left) };

    ghost remaining = { item_count (λ left. left) };

    fn next(&mut self) -> Option<(&'a [u8], &'a V)> {
        let (key, value) = self.entries.next()?;
        Some((key.as_slice(), value))
    }
}

/// An iterator over the keys of a [`ByteMap`], in their order. Its model is the list of those that are left.
#[derive(Drop)]
pub struct Keys<'a, V> {
    keys: btree_map::Keys<'a, Vec<u8>, V>,
}

impl<'a, V> Model for Keys<'a, V> {
    ghost use Rattle.std.specs.Prelude.{ℕ, List};
    ghost use Rattle.jc_base.specs.inside.ByteMap.{byte_keys};

    ghost Value = { List (List ℕ) };

    ghost view = { λ a. byte_keys a.keys };
}

impl<'a, V> Iterator for Keys<'a, V> {
    type Item = &'a [u8];

    ghost next_gives = { YieldsFirstRef (λ left. left) };

    ghost remaining = { item_count (λ left. left) };

    fn next(&mut self) -> Option<&'a [u8]> {
        let key = self.keys.next()?;
        Some(key.as_slice())
    }
}
