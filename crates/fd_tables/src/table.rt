ghost use Rattle.std.specs.Prelude.{◌≡◌, ◌≢◌, ℕ, ◌≤◌, ◌<◌, None, length, IsSome, IfOk, IfSome, IfNone, OnSome};
ghost use Rattle.std.specs.List.{list_any};
ghost use Rattle.fd_tables.specs.Tables.{at_place, free_places, place_refers};

use std::alloc::{AllocError, Global};
use std::marker::Model;
use sys_abi::{DescId, Descriptor};

/// The descriptors of one process, each at the place of its number: 256 places, made at once.
#[derive(Drop)]
pub struct Table {
    places: Vec<Option<Descriptor>>,
}

impl Model for Table {
    ghost use Rattle.std.specs.Prelude.{◌≡◌, List, Option, vec_len};
    ghost use Rattle.sys_abi.specs.declared.descriptor.Descriptor.{Descriptor};

    ghost Value = { List (Option Descriptor) };

    ghost view = { λ t. t.places.items };

    ghost invariant = { λ t. vec_len t.places ≡ 256 };
}

impl Table {
    /// A table with no descriptor.
    pub fn new(alloc: Global) -> Result<Table, AllocError>
        ensures { IfOk result (λ table. (fd : ℕ) → at_place table fd ≡ None) }
    {
        Ok(Table {
            places: Vec::from_slice(alloc, [None; 256].as_slice())?,
        })
    }

    pub fn try_clone(&self) -> Result<Table, AllocError>
        ensures { IfOk result (λ table. table ≡ self.now) }
    {
        Ok(Table {
            places: Vec::from_slice(*self.places.allocator(), self.places.as_slice())?,
        })
    }

    pub fn get(&self, fd: u32) -> Option<Descriptor>
        ensures at { result ≡ at_place self.now fd }
        ensures in_range { OnSome result (fd < 256) }
    {
        match self.places.get(fd as usize) {
            Some(place) => *place,
            None => None,
        }
    }

    pub fn as_slice(&self) -> &[Option<Descriptor>]
        ensures value { result.now ≡ self.now }
        ensures size { length result.now ≡ 256 }
    {
        self.places.as_slice()
    }

    pub fn set(&mut self, fd: u32, place: Option<Descriptor>)
        requires { fd < 256 }
        ensures here { at_place self.new fd ≡ place }
        ensures others { (q : ℕ) → q ≢ fd → at_place self.new q ≡ at_place self.old q }
    {
        self.places[fd as usize] = place;
    }

    /// The lowest place from a number on that has a descriptor.
    pub fn next_open(&self, from: u32) -> Option<u32>
        ensures some { IfSome result (λ fd. (from ≤ fd) × (fd < 256) × IsSome (at_place self.now fd)
            × ((q : ℕ) → from ≤ q → q < fd → at_place self.now q ≡ None)) }
        ensures none { IfNone result ((q : ℕ) → from ≤ q → at_place self.now q ≡ None) }
    {
        let _full = &self.places;
        for fd in from..256 {
            if self.get(fd).is_some() {
                return Some(fd);
            }
        }
        None
    }

    /// The lowest place from a number on that has none.
    pub fn lowest_free(&self, from: u32) -> Option<u32>
        ensures some { IfSome result (λ fd. (from ≤ fd) × (fd < 256) × (at_place self.now fd ≡ None)
            × ((q : ℕ) → from ≤ q → q < fd → IsSome (at_place self.now q))) }
        ensures none { IfNone result ((q : ℕ) → from ≤ q → q < 256 → IsSome (at_place self.now q)) }
    {
        let _full = &self.places;
        for fd in from..256 {
            if self.get(fd).is_none() {
                return Some(fd);
            }
        }
        None
    }

    /// How many places have none.
    #[tactic(auto, unfolding(crate::specs::Tables::free_places))]
    pub fn free(&self) -> u32
        ensures { result ≡ free_places self.now 256 }
    {
        let mut count = 0;
        for fd in 0..256 {
            if self.get(fd).is_none() {
                count += 1;
            }
        }
        count
    }

    /// Whether some place holds a descriptor of the description.
    pub fn holds(&self, id: DescId) -> bool
        ensures { result ≡ list_any (place_refers id) self.now }
    {
        self.places.iter().any(|place| refers(place, id))
    }
}

fn refers(place: &Option<Descriptor>, id: DescId) -> bool
    ensures { result ≡ place_refers id place.now }
{
    match place {
        Some(descriptor) => id.cmp(&descriptor.desc).is_eq(),
        None => false,
    }
}
