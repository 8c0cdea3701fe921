ghost use Rattle.std.specs.Prelude.{◌≡◌, is_some, IfOk, OnOk, OnErr};
ghost use Rattle.std.specs.Option.{option_copied, option_copied_mut};
ghost use Rattle.std.specs.Borrow.{sem};
ghost use Rattle.std.specs.FinMap as map;
ghost use Rattle.std.specs.Map.Calls.{CalledAtPair, RetainsPairs};
ghost use Rattle.virt_ids.specs.LentValues.{LendsByRealPid};

use id_maps::sys_abi::RealPid;
use std::alloc::{AllocError, Global};
use std::collections::BTreeMap;
use std::collections::btree_map::{Iter, Keys, Values};
use std::marker::Model;

/// A map from process numbers that nodes handed out, which contracts see as a finite map in the order of
/// `RealPid`.
#[derive(Drop)]
pub struct ByRealPid<V> {
    entries: BTreeMap<RealPid, V>,
}

impl<V> Model for ByRealPid<V> {
    ghost use Rattle.std.specs.FinMap as map;
    ghost use Rattle.id_maps.specs.OfSysAbi.Orders.{real_pid_cmp, coded_real_pid};

    ghost Value = { map.FinMap real_pid_cmp V };

    ghost coded = { map.code coded_real_pid V.code };

    ghost view = { λ a. map.from_entries a.entries.entries };
}

impl<V> ByRealPid<V> {
    /// The empty map, which holds no memory yet.
    pub fn new(alloc: Global) -> Self
        ensures { result ≡ map.empty }
    {
        ByRealPid {
            entries: BTreeMap::new(alloc),
        }
    }

    pub fn len(&self) -> usize
        ensures { result ≡ map.len self.now }
    {
        self.entries.len()
    }

    pub fn get(&self, key: RealPid) -> Option<&V>
        ensures { option_copied result ≡ map.get self.now key }
    {
        self.entries.get(&key)
    }

    pub fn get_mut(&mut self, key: RealPid) -> Option<&mut V>
        ensures* writes_back { sem 𝓛 (LendsByRealPid V.row self.entry key result) }
        ensures value { option_copied_mut result ≡ map.get self.old key }
    {
        self.entries.get_mut(&key)
    }

    pub fn contains_key(&self, key: RealPid) -> bool
        ensures { result ≡ is_some (map.get self.now key) }
    {
        self.entries.contains_key(&key)
    }

    /// Puts the value at the key, and returns the one that stood there. After a failed allocation the
    /// map is as before, and the value is dropped.
    pub fn insert(&mut self, key: RealPid, value: V) -> Result<Option<V>, AllocError>
    where
        V: Drop,
        ensures before { IfOk result (λ before. before ≡ map.get self.old key) }
        ensures ok { OnOk result (self.new ≡ map.insert self.old key value) }
        ensures err { OnErr result (self.new ≡ self.old) }
    {
        Ok(self.entries.insert(key, value)?)
    }

    /// Takes out the value at the key.
    pub fn remove(&mut self, key: RealPid) -> Option<V>
        ensures before { result ≡ map.get self.old key }
        ensures removed { self.new ≡ map.remove self.old key }
    {
        self.entries.remove(&key)
    }

    /// Keeps the entries at whose values the closure answers true, each with the value that the closure
    /// leaves there. Takes no memory.
    pub fn retain_values<F: FnMut(&RealPid, &mut V) -> bool>(&mut self, keep: F)
    where
        V: Drop,
        requires { F.IsAlwaysCallable keep }
        ensures { RetainsPairs (CalledAtPair F.FnMut) keep (map.entries self.old) (map.entries self.new) }
    {
        self.entries.retain(keep);
    }

    /// The entries, in the order of their keys.
    pub fn iter(&self) -> Iter<'_, RealPid, V>
        ensures { result ≡ map.entries self.now }
    {
        self.entries.iter()
    }

    /// The keys, in order.
    pub fn keys(&self) -> Keys<'_, RealPid, V>
        ensures { result ≡ map.keys self.now }
    {
        self.entries.keys()
    }

    /// The values, in the order of their keys.
    pub fn values(&self) -> Values<'_, RealPid, V>
        ensures { result ≡ map.values self.now }
    {
        self.entries.values()
    }
}
