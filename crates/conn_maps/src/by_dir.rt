ghost use Rattle.std.specs.Prelude.{◌≡◌, ◌↔◌, Bool, is_some, IsTrue, IfOk, OnOk, OnErr};
ghost use Rattle.std.specs.Option.{option_copied, option_copied_mut};
ghost use Rattle.std.specs.Borrow.{sem};
ghost use Rattle.std.specs.FinMap as map;
ghost use Rattle.conn_maps.specs.LentValues.{LendsByDir};

use std::alloc::{AllocError, Global};
use std::collections::BTreeMap;
use std::collections::btree_map::{Iter, Keys, Values};
use std::marker::Model;
use sys_abi::Dir;
use sys_abi::views::duplicate::{Duplicate, duplicate_tree};

/// A map from directions of channels, which contracts see as a finite map in the order of `Dir`.
#[derive(Drop)]
pub struct ByDir<V> {
    entries: BTreeMap<Dir, V>,
}

impl<V> Model for ByDir<V> {
    ghost use Rattle.std.specs.FinMap as map;
    ghost use Rattle.sys_abi.specs.Orders.{dir_cmp, coded_dir};

    ghost Value = { map.FinMap dir_cmp V };

    ghost coded = { map.code coded_dir V.code };

    ghost view = { λ a. map.from_entries a.entries.entries };
}

impl<V> ByDir<V> {
    /// The empty map, which holds no memory yet.
    pub fn new(alloc: Global) -> Self
        ensures { result ≡ map.empty }
    {
        ByDir {
            entries: BTreeMap::new(alloc),
        }
    }

    pub fn len(&self) -> usize
        ensures { result ≡ map.len self.now }
    {
        self.entries.len()
    }

    pub fn is_empty(&self) -> bool
        ensures { IsTrue result ↔ (self.now ≡ map.empty) }
    {
        self.entries.len() == 0
    }

    pub fn get(&self, key: Dir) -> Option<&V>
        ensures { option_copied result ≡ map.get self.now key }
    {
        self.entries.get(&key)
    }

    pub fn get_mut(&mut self, key: Dir) -> Option<&mut V>
        ensures* writes_back { sem 𝓛 (LendsByDir V.row self.entry key result) }
        ensures value { option_copied_mut result ≡ map.get self.old key }
    {
        self.entries.get_mut(&key)
    }

    pub fn contains_key(&self, key: Dir) -> bool
        ensures { result ≡ is_some (map.get self.now key) }
    {
        self.entries.contains_key(&key)
    }

    /// Puts the value at the key, and returns the one that stood there. After a failed allocation the
    /// map is as before, and the value is dropped.
    pub fn insert(&mut self, key: Dir, value: V) -> Result<Option<V>, AllocError>
    where
        V: Drop,
        ensures before { IfOk result (λ before. before ≡ map.get self.old key) }
        ensures ok { OnOk result (self.new ≡ map.insert self.old key value) }
        ensures err { OnErr result (self.new ≡ self.old) }
    {
        Ok(self.entries.insert(key, value)?)
    }

    /// Takes out the value at the key.
    pub fn remove(&mut self, key: Dir) -> Option<V>
        ensures before { result ≡ map.get self.old key }
        ensures removed { self.new ≡ map.remove self.old key }
    {
        self.entries.remove(&key)
    }

    /// Keeps the entries at whose keys the closure answers true. Takes no memory.
    pub fn retain<F: Fn(Dir) -> bool>(&mut self, keep: F)
    where
        V: Drop,
        requires { F.IsAlwaysCallable keep }
        ensures { (test : Dir → Bool) → ((key : Dir) (kept : Bool) → F.post keep key kept → kept ≡ test key)
            → self.new ≡ map.retain_keys self.old test }
    {
        self.entries.retain(|key, _| keep(*key));
    }

    /// The entries, in the order of their keys.
    pub fn iter(&self) -> Iter<'_, Dir, V>
        ensures { result ≡ map.entries self.now }
    {
        self.entries.iter()
    }

    /// The keys, in order.
    pub fn keys(&self) -> Keys<'_, Dir, V>
        ensures { result ≡ map.keys self.now }
    {
        self.entries.keys()
    }

    /// The values, in the order of their keys.
    pub fn values(&self) -> Values<'_, Dir, V>
        ensures { result ≡ map.values self.now }
    {
        self.entries.values()
    }
}

impl<V: Duplicate> Duplicate for ByDir<V> {
    fn duplicate(&self, alloc: Global) -> Result<Self, AllocError> {
        Ok(ByDir {
            entries: duplicate_tree(&self.entries, alloc)?,
        })
    }
}
