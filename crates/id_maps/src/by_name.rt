ghost use Rattle.std.specs.Prelude.{◌≡◌, ◌↔◌, is_some, IsTrue, IfOk, OnOk, OnErr};
ghost use Rattle.std.specs.Option.{option_copied};
ghost use Rattle.std.specs.FinMap as map;
ghost use Rattle.conn_maps.specs.OfSysAbi.Names.{by_name};

use conn_maps::views::duplicate::{Duplicate, duplicate_items};
use conn_maps::views::list_of::ListOf;
use std::alloc::{AllocError, Global};
use std::collections::BTreeMap;
use std::collections::btree_map::{Iter, Values};
use std::marker::Model;

/// A map from byte strings, which contracts see as a finite map in the order of their bytes.
#[derive(Drop)]
pub struct ByName<V> {
    entries: BTreeMap<Vec<u8>, V>,
}

impl<V> Model for ByName<V> {
    ghost use Rattle.std.specs.FinMap as map;
    ghost use Rattle.std.specs.Coded.{coded_ℕ, coded_list};
    ghost use Rattle.conn_maps.specs.OfSysAbi.Names.{name_cmp, by_name};

    ghost Value = { map.FinMap name_cmp V };

    ghost coded = { map.code (coded_list coded_ℕ) V.code };

    ghost view = { λ a. map.from_entries (by_name a.entries.entries) };
}

impl<V> ByName<V> {
    /// The empty map, which holds no memory yet.
    pub fn new(alloc: Global) -> Self
        ensures { result ≡ map.empty }
    {
        ByName {
            entries: BTreeMap::new(alloc),
        }
    }

    pub fn len(&self) -> usize
        ensures { result ≡ map.len self.now }
    {
        self.entries.len()
    }

    pub fn is_empty(&self) -> bool
        ensures { IsTrue result ↔ (self.now ≡ map.empty) }
    {
        self.entries.len() == 0
    }

    pub fn get(&self, name: &[u8]) -> Option<&V>
        ensures { option_copied result ≡ map.get self.now name.now }
    {
        self.entries.get(name)
    }

    pub fn contains_key(&self, name: &[u8]) -> bool
        ensures { result ≡ is_some (map.get self.now name.now) }
    {
        self.entries.contains_key(name)
    }

    /// Puts the value under the name, and returns the one that stood there. After a failed allocation
    /// the map is as before, and the name and the value are dropped.
    pub fn insert(&mut self, name: ListOf<u8>, value: V) -> Result<Option<V>, AllocError>
    where
        V: Drop,
        ensures before { IfOk result (λ before. before ≡ map.get self.old name) }
        ensures ok { OnOk result (self.new ≡ map.insert self.old name value) }
        ensures err { OnErr result (self.new ≡ self.old) }
    {
        Ok(self.entries.insert(name.into_vec(), value)?)
    }

    /// Takes out the value under the name.
    pub fn remove(&mut self, name: &[u8]) -> Option<V>
        ensures before { result ≡ map.get self.old name.now }
        ensures removed { self.new ≡ map.remove self.old name.now }
    {
        self.entries.remove(name)
    }

    /// The names and what stands under them, in the order of the names.
    pub fn iter(&self) -> Iter<'_, Vec<u8>, V>
        ensures { by_name result ≡ map.entries self.now }
    {
        self.entries.iter()
    }

    /// The values, in the order of their names.
    pub fn values(&self) -> Values<'_, Vec<u8>, V>
        ensures { result ≡ map.values self.now }
    {
        self.entries.values()
    }
}

impl<V: Duplicate> Duplicate for ByName<V> {
    fn duplicate(&self, alloc: Global) -> Result<Self, AllocError> {
        Ok(ByName {
            entries: duplicate_names(&self.entries, alloc)?,
        })
    }
}

fn duplicate_names<V: Duplicate>(
    names: &BTreeMap<Vec<u8>, V>,
    alloc: Global,
) -> Result<BTreeMap<Vec<u8>, V>, AllocError>
    ensures { IfOk result (λ copy. by_name copy.entries ≡ by_name names.now.entries) }
{
    let mut copy = BTreeMap::new(alloc);
    for (name, value) in names.iter().rev() {
        copy.insert(
            duplicate_items(name.as_slice(), alloc)?,
            value.duplicate(alloc)?,
        )?;
    }
    Ok(copy)
}
