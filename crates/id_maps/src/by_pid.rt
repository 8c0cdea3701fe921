ghost use Rattle.std.specs.Prelude.{◌≡◌, ◌↔◌, Bool, is_some, IsTrue, IfOk, OnOk, OnErr};
ghost use Rattle.std.specs.Option.{option_copied, option_copied_mut};
ghost use Rattle.std.specs.Borrow.{sem};
ghost use Rattle.std.specs.FinMap as map;
ghost use Rattle.std.specs.Map.Calls.{CalledAtPair, RetainsPairs};
ghost use Rattle.id_maps.specs.LentValues.{LendsByPid};

use conn_maps::sys_abi::VPid;
use conn_maps::views::duplicate::{Duplicate, duplicate_tree};
use std::alloc::{AllocError, Global};
use std::collections::BTreeMap;
use std::collections::btree_map::{Iter, Keys, Values};
use std::marker::Model;

/// A map from processes, which contracts see as a finite map in the order of `VPid`.
#[derive(Drop)]
pub struct ByPid<V> {
    entries: BTreeMap<VPid, V>,
}

impl<V> Model for ByPid<V> {
    ghost use Rattle.std.specs.FinMap as map;
    ghost use Rattle.conn_maps.specs.OfSysAbi.Orders.{vpid_cmp, coded_vpid};

    ghost Value = { map.FinMap vpid_cmp V };

    ghost coded = { map.code coded_vpid V.code };

    ghost view = { λ a. map.from_entries a.entries.entries };
}

impl<V> ByPid<V> {
    /// The empty map, which holds no memory yet.
    pub fn new(alloc: Global) -> Self
        ensures { result ≡ map.empty }
    {
        ByPid {
            entries: BTreeMap::new(alloc),
        }
    }

    pub fn len(&self) -> usize
        ensures { result ≡ map.len self.now }
    {
        self.entries.len()
    }

    pub fn is_empty(&self) -> bool
        ensures { IsTrue result ↔ (self.now ≡ map.empty) }
    {
        self.entries.len() == 0
    }

    pub fn get(&self, key: VPid) -> Option<&V>
        ensures { option_copied result ≡ map.get self.now key }
    {
        self.entries.get(&key)
    }

    pub fn get_mut(&mut self, key: VPid) -> Option<&mut V>
        ensures* writes_back { sem 𝓛 (LendsByPid V.row self.entry key result) }
        ensures value { option_copied_mut result ≡ map.get self.old key }
    {
        self.entries.get_mut(&key)
    }

    pub fn contains_key(&self, key: VPid) -> bool
        ensures { result ≡ is_some (map.get self.now key) }
    {
        self.entries.contains_key(&key)
    }

    /// Puts the value at the key, and returns the one that stood there. After a failed allocation the
    /// map is as before, and the value is dropped.
    pub fn insert(&mut self, key: VPid, value: V) -> Result<Option<V>, AllocError>
    where
        V: Drop,
        ensures before { IfOk result (λ before. before ≡ map.get self.old key) }
        ensures ok { OnOk result (self.new ≡ map.insert self.old key value) }
        ensures err { OnErr result (self.new ≡ self.old) }
    {
        Ok(self.entries.insert(key, value)?)
    }

    /// Takes out the value at the key.
    pub fn remove(&mut self, key: VPid) -> Option<V>
        ensures before { result ≡ map.get self.old key }
        ensures removed { self.new ≡ map.remove self.old key }
    {
        self.entries.remove(&key)
    }

    /// Keeps the entries at whose keys the closure answers true. Takes no memory.
    pub fn retain<F: Fn(VPid) -> bool>(&mut self, keep: F)
    where
        V: Drop,
        requires { F.IsAlwaysCallable keep }
        ensures { (test : VPid → Bool) → ((key : VPid) (kept : Bool) → F.post keep key kept → kept ≡ test key)
            → self.new ≡ map.retain_keys self.old test }
    {
        self.entries.retain(|key, _| keep(*key));
    }

    /// Keeps the entries at whose values the closure answers true, each with the value that the closure
    /// leaves there. Takes no memory.
    pub fn retain_values<F: FnMut(&VPid, &mut V) -> bool>(&mut self, keep: F)
    where
        V: Drop,
        requires { F.IsAlwaysCallable keep }
        ensures { RetainsPairs (CalledAtPair F.FnMut) keep (map.entries self.old) (map.entries self.new) }
    {
        self.entries.retain(keep);
    }

    /// The entries, in the order of their keys.
    pub fn iter(&self) -> Iter<'_, VPid, V>
        ensures { result ≡ map.entries self.now }
    {
        self.entries.iter()
    }

    /// The keys, in order.
    pub fn keys(&self) -> Keys<'_, VPid, V>
        ensures { result ≡ map.keys self.now }
    {
        self.entries.keys()
    }

    /// The values, in the order of their keys.
    pub fn values(&self) -> Values<'_, VPid, V>
        ensures { result ≡ map.values self.now }
    {
        self.entries.values()
    }
}

impl<V: Duplicate> Duplicate for ByPid<V> {
    fn duplicate(&self, alloc: Global) -> Result<Self, AllocError> {
        Ok(ByPid {
            entries: duplicate_tree(&self.entries, alloc)?,
        })
    }
}
