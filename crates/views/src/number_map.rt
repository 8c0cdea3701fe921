ghost use Rattle.std.specs.Prelude.{◌≡◌, ◌↔◌, is_some, find, IsTrue, IfOk, OnOk, OnErr};
ghost use Rattle.std.specs.Option.{option_copied, option_copied_mut};
ghost use Rattle.std.specs.Ordering.{nat_cmp};
ghost use Rattle.std.specs.Borrow.{sem};
ghost use Rattle.std.specs.FinMap as map;
ghost use Rattle.views.specs.NumberMap.{LendsValue, is_above, bound_above};

use crate::duplicate::{Duplicate, duplicate_tree};
use std::alloc::{AllocError, Global};
use std::collections::BTreeMap;
use std::collections::btree_map::{Iter, Keys, Values};
use std::marker::Model;
use std::ops::Bound;

/// A map from numbers to values, in the order of the numbers.
#[derive(Drop)]
pub struct NumberMap<V> {
    tree: BTreeMap<u32, V>,
}

impl<V> Model for NumberMap<V> {
    ghost use Rattle.std.specs.Ordering.{nat_cmp};
    ghost use Rattle.std.specs.FinMap as map;
    ghost use Rattle.std.specs.Coded.{coded_ℕ};

    ghost Value = { map.FinMap nat_cmp V };

    ghost coded = { map.code coded_ℕ V.code };

    ghost view = { λ m. map.from_entries m.tree.entries };
}

impl<V> NumberMap<V> {
    /// The empty map, which holds no memory yet.
    pub fn new(alloc: Global) -> Self
        ensures { result ≡ map.empty }
    {
        NumberMap {
            tree: BTreeMap::new(alloc),
        }
    }

    pub fn len(&self) -> usize
        ensures { result ≡ map.len self.now }
    {
        self.tree.len()
    }

    pub fn is_empty(&self) -> bool
        ensures { IsTrue result ↔ (self.now ≡ map.empty) }
    {
        self.tree.len() == 0
    }

    pub fn get(&self, key: u32) -> Option<&V>
        ensures { option_copied result ≡ map.get self.now key }
    {
        self.tree.get(&key)
    }

    pub fn get_mut(&mut self, key: u32) -> Option<&mut V>
        ensures* writes_back { sem 𝓛 (LendsValue V.row self.entry key result) }
        ensures value { option_copied_mut result ≡ map.get self.old key }
    {
        self.tree.get_mut(&key)
    }

    pub fn contains_key(&self, key: u32) -> bool
        ensures { result ≡ is_some (map.get self.now key) }
    {
        self.tree.contains_key(&key)
    }

    /// Puts the value at the key, and returns the one that stood there. After a failed allocation the
    /// map is as before, and the value is dropped.
    pub fn insert(&mut self, key: u32, value: V) -> Result<Option<V>, AllocError>
    where
        V: Drop,
        ensures before { IfOk result (λ before. before ≡ map.get self.old key) }
        ensures ok { OnOk result (self.new ≡ map.insert self.old key value) }
        ensures err { OnErr result (self.new ≡ self.old) }
    {
        Ok(self.tree.insert(key, value)?)
    }

    /// Takes out the value at the key.
    pub fn remove(&mut self, key: u32) -> Option<V>
        ensures before { result ≡ map.get self.old key }
        ensures removed { self.new ≡ map.remove self.old key }
    {
        self.tree.remove(&key)
    }

    /// The least key above this one, or the least of all where none is given.
    pub fn next_above(&self, key: Option<u32>) -> Option<u32>
        ensures { result ≡ find (is_above key) (map.keys self.now) }
    {
        match self.tree.range((start_above(key), Bound::Unbounded)).next() {
            Some((next, _)) => Some(*next),
            None => None,
        }
    }

    /// The entries, in the order of their keys.
    pub fn iter(&self) -> Iter<'_, u32, V>
        ensures { result ≡ map.entries self.now }
    {
        self.tree.iter()
    }

    /// The keys, in order.
    pub fn keys(&self) -> Keys<'_, u32, V>
        ensures { result ≡ map.keys self.now }
    {
        self.tree.keys()
    }

    /// The values, in the order of their keys.
    pub fn values(&self) -> Values<'_, u32, V>
        ensures { result ≡ map.values self.now }
    {
        self.tree.values()
    }
}

fn start_above(key: Option<u32>) -> Bound<u32>
    ensures { result ≡ bound_above key }
{
    match key {
        Some(key) => Bound::Excluded(key),
        None => Bound::Unbounded,
    }
}

impl<V: Duplicate> Duplicate for NumberMap<V> {
    fn duplicate(&self, alloc: Global) -> Result<Self, AllocError> {
        Ok(NumberMap {
            tree: duplicate_tree(&self.tree, alloc)?,
        })
    }
}
