ghost use Rattle.std.specs.Prelude.{◌≡◌, ◌+◌, ◌^◌, ◌<◌, true, map as mapped, cond, None, Some, length, find, is_some, count_by, IsSome, OnOk, OnErr};
ghost use Rattle.std.specs.Option.{option_copied, option_map};
ghost use Rattle.std.specs.List.{list_any};
ghost use Rattle.std.specs.FinMap as map;
ghost use Rattle.sys_abi.specs.OfViews.Maps.{map_values};
ghost use Rattle.sys_abi.specs.Orders.{desc_cmp};
ghost use Rattle.sys_abi.specs.declared.identity.DescId.{DescId};
ghost use Rattle.sys_abi.specs.declared.descriptor.Descriptor.{Descriptor};
ghost use Rattle.fd_tables.specs.declared.open.Open.{Open};
ghost use Rattle.slab.specs.Slab.{get, Updates};
ghost use Rattle.fd_tables.specs.Parts.{is_after, bound_above, is_of_file};
ghost use Rattle.fd_tables.specs.Descriptions.{kept_at};
ghost use Rattle.fd_tables.specs.Counts.{disowned_open, after_retain, after_release, lost_by_release, after_place, after_retains};

use crate::open::Open;
use slab::Slab;
use std::alloc::{AllocError, Global};
use std::collections::BTreeMap;
use std::collections::btree_map::Values;
use std::marker::Model;
use std::ops::Bound;
use sys_abi::{DescId, Descriptor, RealPid};

/// The open descriptions by their names.
#[derive(Drop)]
pub struct Descriptions {
    /// The key in the slab of each description.
    index: BTreeMap<DescId, usize>,
    slab: Slab<Open>,
}

impl Model for Descriptions {
    ghost use Rattle.std.specs.FinMap as map;
    ghost use Rattle.sys_abi.specs.Orders.{desc_cmp, coded_desc};
    ghost use Rattle.fd_tables.specs.declared.open.Open.{Open};
    ghost use Rattle.fd_tables.specs.contracts.open.Open as open_row;
    ghost use Rattle.fd_tables.specs.Descriptions.{descriptions_of, IsIndex};

    ghost Value = { map.FinMap desc_cmp Open };

    ghost coded = { map.code coded_desc open_row.the_row.coded };

    ghost view = { λ d. descriptions_of (map.from_entries d.index.entries) d.slab };

    ghost invariant = { λ d. IsIndex (map.from_entries d.index.entries) d.slab };
}

impl Descriptions {
    /// No description, and no memory yet.
    pub fn new(alloc: Global) -> Descriptions
        ensures { result ≡ map.empty }
    {
        Descriptions {
            index: BTreeMap::new(alloc),
            slab: Slab::new(alloc),
        }
    }

    /// The description of that name, with the number of descriptors that are counted of it.
    pub fn get(&self, id: DescId) -> Option<&Open>
        ensures { option_copied result ≡ map.get self.now id }
    {
        match self.index.get(&id) {
            Some(key) => self.slab.get(*key),
            None => None,
        }
    }

    /// The least name above this one, or the least of all where none is given.
    pub fn next_above(&self, above: Option<DescId>) -> Option<DescId>
        ensures { result ≡ find (is_after above) (map.keys self.now) }
    {
        match self
            .index
            .range((start_above(above), Bound::Unbounded))
            .next()
        {
            Some((id, _)) => Some(*id),
            None => None,
        }
    }

    /// Whether some description is of the file of that number.
    pub fn has_file(&self, number: u32) -> bool
        ensures { result ≡ list_any (λ o. is_of_file number o.desc) (map.values self.now) }
    {
        has_file_among(&self.index, &self.slab, number)
    }

    /// Takes the process away as an owner wherever it is one. Takes no memory.
    pub fn disown(&mut self, p: RealPid)
        ensures { self.new ≡ map_values (disowned_open p) self.old }
    {
        disown_all(&mut self.slab, p);
    }

    /// Adds a description. After a failed allocation all is as before.
    pub fn add(&mut self, id: DescId, value: Open) -> Result<(), AllocError>
        requires { map.get self.old id ≡ None }
        ensures ok { OnOk result (self.new ≡ map.insert self.old id value) }
        ensures err { OnErr result (self.new ≡ self.old) }
    {
        self.slab.reserve(1)?;
        self.index.insert(id, self.slab.vacant_key())?;
        self.slab.insert_reserved(value);
        Ok(())
    }

    /// Changes a description that is there. Takes no memory.
    pub fn set(&mut self, id: DescId, value: Open)
        requires { IsSome (map.get self.old id) }
        ensures { self.new ≡ map.insert self.old id value }
    {
        if let Some(key) = self.index.get(&id) {
            set_value(&mut self.slab, *key, value);
        }
    }

    /// Takes out a description. Takes no memory.
    pub fn take(&mut self, id: DescId)
        ensures { self.new ≡ map.remove self.old id }
    {
        if let Some(key) = self.index.remove(&id) {
            self.slab.try_remove(key);
        }
    }

    /// Counts one descriptor more of the description.
    #[tactic(auto, unfolding(crate::specs::Counts::after_retain))]
    pub fn retain(&mut self, id: DescId)
        requires { (o : Open) → map.get self.old id ≡ Some o → o.holders + 1 < 2 ^ 64 }
        ensures { self.new ≡ after_retain self.old id }
    {
        if let Some(open) = self.get(id).copied() {
            self.set(
                id,
                Open {
                    desc: open.desc,
                    holders: open.holders + 1,
                },
            );
        }
    }

    /// Counts one descriptor less of the description, and takes it out where that was the last one.
    #[tactic(auto, unfolding(crate::specs::Counts::after_release, crate::specs::Counts::lost_by_release))]
    pub fn release(&mut self, id: DescId) -> Option<DescId>
        requires { (o : Open) → map.get self.old id ≡ Some o → 0 < o.holders }
        ensures left { self.new ≡ after_release self.old id }
        ensures lost { result ≡ lost_by_release self.old id }
    {
        let open = *self.get(id)?;
        if open.holders == 1 {
            self.take(id);
            return Some(id);
        }
        self.set(
            id,
            Open {
                desc: open.desc,
                holders: open.holders - 1,
            },
        );
        None
    }

    /// Counts one descriptor more for each of these, and tells how many they are.
    pub fn retain_all(&mut self, places: &[Option<Descriptor>]) -> u64
        requires { (id : DescId) (o : Open) → map.get self.old id ≡ Some o → o.holders + length places.now < 2 ^ 64 }
        ensures retained { self.new ≡ after_retains self.old places.now }
        ensures number { result ≡ count_by is_some places.now }
    {
        let mut count = 0;
        for place in places {
            count += self.retain_place(place);
        }
        count
    }

    /// Counts one descriptor more, if one stands at the place, and tells how many that are.
    fn retain_place(&mut self, place: &Option<Descriptor>) -> u64
        requires { (id : DescId) (o : Open) → map.get self.old id ≡ Some o → o.holders + 1 < 2 ^ 64 }
        ensures retained { self.new ≡ after_place self.old place.now }
        ensures number { result ≡ cond (is_some place.now) 1 0 }
    {
        match place {
            Some(descriptor) => {
                self.retain(descriptor.desc);
                1
            }
            None => 0,
        }
    }
}

fn has_file_among(index: &BTreeMap<DescId, usize>, slab: &Slab<Open>, number: u32) -> bool
    ensures { result ≡ list_any (λ key. is_of_file number (kept_at slab.now key).desc)
        (map.values (map.from_entries {R = desc_cmp} index.now.entries)) }
{
    slab_keys(index).any(|key| is_of_file_at(slab, *key, number))
}

/// The keys in the slab, in the order of the descriptions.
fn slab_keys(index: &BTreeMap<DescId, usize>) -> Values<'_, DescId, usize>
    ensures { result ≡ map.values (map.from_entries {R = desc_cmp} index.now.entries) }
{
    index.values()
}

fn is_of_file_at(slab: &Slab<Open>, key: usize, number: u32) -> bool
    ensures { result ≡ is_of_file number (kept_at slab.now key).desc }
{
    match slab.get(key) {
        Some(open) => open.desc.object.is_file(number),
        None => false,
    }
}

fn disown_all(slab: &mut Slab<Open>, p: RealPid)
    ensures { slab.new.slots ≡ mapped (option_map (disowned_open p)) slab.old.slots }
{
    slab.retain(|_, open| disown_one(open, p));
}

/// Takes the process away as an owner, if it is the description's. Always answers true.
#[tactic(auto, unfolding(crate::specs::Counts::disowned_open))]
fn disown_one(open: &mut Open, p: RealPid) -> bool
    ensures yes { result ≡ true }
    ensures disowned { open.new ≡ disowned_open p open.old }
{
    if let Some(owner) = open.desc.owner {
        if p.cmp(&owner).is_eq() {
            open.desc.owner = None;
        }
    }
    true
}

fn start_above(above: Option<DescId>) -> Bound<DescId>
    ensures { result ≡ bound_above above }
{
    match above {
        Some(id) => Bound::Excluded(id),
        None => Bound::Unbounded,
    }
}

/// Puts the value under the key, which has one.
fn set_value(slab: &mut Slab<Open>, key: usize, value: Open)
    requires { IsSome (get slab.old key) }
    ensures { Updates slab.old slab.new key (Some value) }
{
    if let Some(place) = slab.get_mut(key) {
        *place = value;
    }
}
