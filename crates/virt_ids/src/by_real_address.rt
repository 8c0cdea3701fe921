ghost use Rattle.std.specs.Prelude.{◌≡◌, is_some, IfOk, OnOk, OnErr};
ghost use Rattle.std.specs.Option.{option_copied, option_copied_mut};
ghost use Rattle.std.specs.Borrow.{sem};
ghost use Rattle.std.specs.FinMap as map;
ghost use Rattle.virt_ids.specs.LentValues.{LendsByRealAddress};

use id_maps::sys_abi::RealAddr;
use std::alloc::{AllocError, Global};
use std::collections::BTreeMap;
use std::marker::Model;

/// A map from ports that nodes handed out, which contracts see as a finite map in the order of `RealAddr`.
#[derive(Drop)]
pub struct ByRealAddress<V> {
    entries: BTreeMap<RealAddr, V>,
}

impl<V> Model for ByRealAddress<V> {
    ghost use Rattle.std.specs.FinMap as map;
    ghost use Rattle.id_maps.specs.OfSysAbi.Orders.{real_address_cmp, coded_real_address};

    ghost Value = { map.FinMap real_address_cmp V };

    ghost coded = { map.code coded_real_address V.code };

    ghost view = { λ a. map.from_entries a.entries.entries };
}

impl<V> ByRealAddress<V> {
    /// The empty map, which holds no memory yet.
    pub fn new(alloc: Global) -> Self
        ensures { result ≡ map.empty }
    {
        ByRealAddress {
            entries: BTreeMap::new(alloc),
        }
    }

    pub fn get(&self, key: RealAddr) -> Option<&V>
        ensures { option_copied result ≡ map.get self.now key }
    {
        self.entries.get(&key)
    }

    pub fn get_mut(&mut self, key: RealAddr) -> Option<&mut V>
        ensures* writes_back { sem 𝓛 (LendsByRealAddress V.row self.entry key result) }
        ensures value { option_copied_mut result ≡ map.get self.old key }
    {
        self.entries.get_mut(&key)
    }

    pub fn contains_key(&self, key: RealAddr) -> bool
        ensures { result ≡ is_some (map.get self.now key) }
    {
        self.entries.contains_key(&key)
    }

    /// Puts the value at the key, and returns the one that stood there. After a failed allocation the
    /// map is as before, and the value is dropped.
    pub fn insert(&mut self, key: RealAddr, value: V) -> Result<Option<V>, AllocError>
    where
        V: Drop,
        ensures before { IfOk result (λ before. before ≡ map.get self.old key) }
        ensures ok { OnOk result (self.new ≡ map.insert self.old key value) }
        ensures err { OnErr result (self.new ≡ self.old) }
    {
        Ok(self.entries.insert(key, value)?)
    }

    /// Takes out the value at the key.
    pub fn remove(&mut self, key: RealAddr) -> Option<V>
        ensures before { result ≡ map.get self.old key }
        ensures removed { self.new ≡ map.remove self.old key }
    {
        self.entries.remove(&key)
    }
}
