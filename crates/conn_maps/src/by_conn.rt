ghost use Rattle.std.specs.Prelude.{◌≡◌, ◌↔◌, Bool, find, is_some, IsTrue, IfOk, OnOk, OnErr};
ghost use Rattle.std.specs.Option.{option_copied, option_copied_mut};
ghost use Rattle.std.specs.Borrow.{sem};
ghost use Rattle.std.specs.FinMap as map;
ghost use Rattle.conn_maps.specs.LentValues.{LendsByConn};
ghost use Rattle.conn_maps.specs.NextConns.{is_above, bound_above};

use std::alloc::{AllocError, Global};
use std::collections::BTreeMap;
use std::collections::btree_map::{Iter, Keys, Values};
use std::marker::Model;
use std::ops::Bound;
use sys_abi::ConnId;
use sys_abi::views::duplicate::{Duplicate, duplicate_tree};

/// A map from channels, which contracts see as a finite map in the order of `ConnId`.
#[derive(Drop)]
pub struct ByConn<V> {
    entries: BTreeMap<ConnId, V>,
}

impl<V> Model for ByConn<V> {
    ghost use Rattle.std.specs.FinMap as map;
    ghost use Rattle.sys_abi.specs.Orders.{conn_cmp, coded_conn};

    ghost Value = { map.FinMap conn_cmp V };

    ghost coded = { map.code coded_conn V.code };

    ghost view = { λ a. map.from_entries a.entries.entries };
}

impl<V> ByConn<V> {
    /// The empty map, which holds no memory yet.
    pub fn new(alloc: Global) -> Self
        ensures { result ≡ map.empty }
    {
        ByConn {
            entries: BTreeMap::new(alloc),
        }
    }

    pub fn len(&self) -> usize
        ensures { result ≡ map.len self.now }
    {
        self.entries.len()
    }

    pub fn is_empty(&self) -> bool
        ensures { IsTrue result ↔ (self.now ≡ map.empty) }
    {
        self.entries.len() == 0
    }

    pub fn get(&self, key: ConnId) -> Option<&V>
        ensures { option_copied result ≡ map.get self.now key }
    {
        self.entries.get(&key)
    }

    pub fn get_mut(&mut self, key: ConnId) -> Option<&mut V>
        ensures* writes_back { sem 𝓛 (LendsByConn V.row self.entry key result) }
        ensures value { option_copied_mut result ≡ map.get self.old key }
    {
        self.entries.get_mut(&key)
    }

    pub fn contains_key(&self, key: ConnId) -> bool
        ensures { result ≡ is_some (map.get self.now key) }
    {
        self.entries.contains_key(&key)
    }

    /// Puts the value at the key, and returns the one that stood there. After a failed allocation the
    /// map is as before, and the value is dropped.
    pub fn insert(&mut self, key: ConnId, value: V) -> Result<Option<V>, AllocError>
    where
        V: Drop,
        ensures before { IfOk result (λ before. before ≡ map.get self.old key) }
        ensures ok { OnOk result (self.new ≡ map.insert self.old key value) }
        ensures err { OnErr result (self.new ≡ self.old) }
    {
        Ok(self.entries.insert(key, value)?)
    }

    /// Takes out the value at the key.
    pub fn remove(&mut self, key: ConnId) -> Option<V>
        ensures before { result ≡ map.get self.old key }
        ensures removed { self.new ≡ map.remove self.old key }
    {
        self.entries.remove(&key)
    }

    /// Keeps the entries at whose keys the closure answers true. Takes no memory.
    pub fn retain<F: Fn(ConnId) -> bool>(&mut self, keep: F)
    where
        V: Drop,
        requires { F.IsAlwaysCallable keep }
        ensures { (test : ConnId → Bool) → ((key : ConnId) (kept : Bool) → F.post keep key kept → kept ≡ test key)
            → self.new ≡ map.retain_keys self.old test }
    {
        self.entries.retain(|key, _| keep(*key));
    }

    /// The least channel above this one, or the least of all where none is given.
    pub fn next_above(&self, above: Option<ConnId>) -> Option<ConnId>
        ensures { result ≡ find (is_above above) (map.keys self.now) }
    {
        match self
            .entries
            .range((start_above(above), Bound::Unbounded))
            .next()
        {
            Some((id, _)) => Some(*id),
            None => None,
        }
    }

    /// The entries, in the order of their keys.
    pub fn iter(&self) -> Iter<'_, ConnId, V>
        ensures { result ≡ map.entries self.now }
    {
        self.entries.iter()
    }

    /// The keys, in order.
    pub fn keys(&self) -> Keys<'_, ConnId, V>
        ensures { result ≡ map.keys self.now }
    {
        self.entries.keys()
    }

    /// The values, in the order of their keys.
    pub fn values(&self) -> Values<'_, ConnId, V>
        ensures { result ≡ map.values self.now }
    {
        self.entries.values()
    }
}

fn start_above(above: Option<ConnId>) -> Bound<ConnId>
    ensures { result ≡ bound_above above }
{
    match above {
        Some(id) => Bound::Excluded(id),
        None => Bound::Unbounded,
    }
}

impl<V: Duplicate> Duplicate for ByConn<V> {
    fn duplicate(&self, alloc: Global) -> Result<Self, AllocError> {
        Ok(ByConn {
            entries: duplicate_tree(&self.entries, alloc)?,
        })
    }
}
