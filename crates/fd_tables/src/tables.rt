ghost use Rattle.std.specs.Prelude.{◌≡◌, ◌≢◌, ◌↔◌, ℕ, ◌≤◌, ◌<◌, cond, Some, None, length, IsSome, IfOk, IfSome, IfNone, OnOk, OnErr, OnSome, Contains, option_and_then};
ghost use Rattle.std.specs.Bool.{OnTrue, OnFalse};
ghost use Rattle.std.specs.List.Sorted.{IsStrictlySortedBy};
ghost use Rattle.std.specs.Ordering.{eq_by_cmp};
ghost use Rattle.std.specs.FinMap as map;
ghost use Rattle.sys_abi.specs.declared.identity.RealPid.{RealPid};
ghost use Rattle.fd_tables.specs.declared.real_slot.RealSlot.{RealSlot};
ghost use Rattle.fd_tables.specs.Orders.{real_slot_cmp};
ghost use Rattle.sys_abi.specs.Orders.{real_pid_cmp};
ghost use Rattle.fd_tables.specs.Slots.{slot, AreInRange, IsHolder};
ghost use Rattle.fd_tables.specs.Numbers.{AllUsed, IsLowestFree, NoneOpen, IsLowestOpen, free_below};
ghost use Rattle.fd_tables.specs.Tables.{at_place, descriptors_of};

use crate::table::Table;
use std::alloc::{AllocError, Global};
use std::collections::BTreeMap;
use std::marker::Model;
use sys_abi::{DescId, Descriptor, RealPid};

/// The descriptors of all processes.
#[derive(Drop)]
pub struct Tables {
    alloc: Global,
    tables: BTreeMap<RealPid, Table>,
}

impl Model for Tables {
    ghost use Rattle.std.specs.FinMap as map;
    ghost use Rattle.sys_abi.specs.declared.descriptor.Descriptor.{Descriptor};
    ghost use Rattle.sys_abi.specs.contracts.descriptor.Descriptor as descriptor;
    ghost use Rattle.fd_tables.specs.Orders.{real_slot_cmp, coded_real_slot};
    ghost use Rattle.fd_tables.specs.Slots.{AreInRange};
    ghost use Rattle.fd_tables.specs.Tables.{descriptors_of};

    ghost Value = { map.FinMap real_slot_cmp Descriptor };

    ghost coded = { map.code coded_real_slot descriptor.the_row.coded };

    ghost view = { λ t. descriptors_of (map.from_entries t.tables.entries) };

    ghost invariant = { λ t. AreInRange (descriptors_of (map.from_entries t.tables.entries)) };
}

/// Puts what is to stand at a place of a process's table, if it has one.
fn set_place(
    tables: &mut BTreeMap<RealPid, Table>,
    p: RealPid,
    fd: u32,
    place: Option<Descriptor>,
) -> bool
    requires { fd < 256 }
    ensures set { OnTrue result ((q : RealSlot) →
        map.get (descriptors_of (map.from_entries tables.new.entries)) q
        ≡ cond (eq_by_cmp real_slot_cmp q (slot p fd)) place
        (map.get (descriptors_of (map.from_entries tables.old.entries)) q)) }
    ensures absent { OnFalse result (tables.new.entries ≡ tables.old.entries) }
    ensures no_table { OnFalse result ((number : ℕ) →
        map.get (descriptors_of (map.from_entries tables.old.entries)) (slot p number) ≡ None) }
{
    match tables.get_mut(&p) {
        Some(table) => {
            table.set(fd, place);
            true
        }
        None => false,
    }
}

impl Tables {
    /// No table, and no memory yet.
    pub fn new(alloc: Global) -> Tables
        ensures { result ≡ map.empty }
    {
        Tables {
            alloc,
            tables: BTreeMap::new(alloc),
        }
    }

    /// Each descriptor has one of the 256 numbers. It does nothing.
    pub fn in_range(&self)
        ensures { AreInRange self.now }
    {
        let _ = &self.tables;
    }

    /// The descriptor of that number of the process.
    pub fn get(&self, p: RealPid, fd: u32) -> Option<Descriptor>
        ensures at { result ≡ map.get self.now (slot p fd) }
        ensures in_range { OnSome result (fd < 256) }
    {
        match self.tables.get(&p) {
            Some(table) => table.get(fd),
            None => None,
        }
    }

    /// The places of a process's table.
    pub fn places(&self, p: RealPid) -> Option<&[Option<Descriptor>]>
        ensures at { (fd : ℕ) → map.get self.now (slot p fd)
            ≡ option_and_then (λ places. at_place places.now fd) result }
        ensures size { IfSome result (λ places. length places.now ≡ 256) }
    {
        match self.tables.get(&p) {
            Some(table) => Some(table.as_slice()),
            None => None,
        }
    }

    /// Puts the descriptor at its number. After a failed allocation all is as before.
    pub fn put(&mut self, p: RealPid, fd: u32, descriptor: Descriptor) -> Result<(), AllocError>
        requires { fd < 256 }
        ensures ok { OnOk result (self.new ≡ map.insert self.old (slot p fd) descriptor) }
        ensures err { OnErr result (self.new ≡ self.old) }
    {
        if set_place(&mut self.tables, p, fd, Some(descriptor)) {
            return Ok(());
        }
        let mut table = Table::new(self.alloc)?;
        table.set(fd, Some(descriptor));
        self.tables.insert(p, table)?;
        Ok(())
    }

    /// Puts the descriptor in the place of the one that is there. Takes no memory.
    pub fn replace(&mut self, p: RealPid, fd: u32, descriptor: Descriptor)
        requires in_range { fd < 256 }
        requires there { IsSome (map.get self.old (slot p fd)) }
        ensures { self.new ≡ map.insert self.old (slot p fd) descriptor }
    {
        set_place(&mut self.tables, p, fd, Some(descriptor));
    }

    /// Takes out the descriptor. Takes no memory.
    pub fn clear(&mut self, p: RealPid, fd: u32)
        requires { fd < 256 }
        ensures { self.new ≡ map.remove self.old (slot p fd) }
    {
        set_place(&mut self.tables, p, fd, None);
    }

    /// Gives the child, which has no descriptor, the descriptors of the process. After a failed allocation
    /// all is as before.
    pub fn copy(&mut self, p: RealPid, child: RealPid) -> Result<(), AllocError>
        requires { NoneOpen self.old child 0 }
        ensures same { OnOk result ((fd : ℕ) → map.get self.new (slot child fd) ≡ map.get self.old (slot p fd)) }
        ensures others { OnOk result ((q : RealSlot) → q.pid ≢ child → map.get self.new q ≡ map.get self.old q) }
        ensures err { OnErr result (self.new ≡ self.old) }
    {
        let Some(table) = self.tables.get(&p) else {
            return Ok(());
        };
        let copy = table.try_clone()?;
        self.tables.insert(child, copy)?;
        Ok(())
    }

    /// Gives back the memory of a table that has no descriptor.
    pub fn drop_table(&mut self, p: RealPid)
        requires { NoneOpen self.old p 0 }
        ensures { self.new ≡ self.old }
    {
        self.tables.remove(&p);
    }

    /// The lowest number from one on that is free.
    pub fn lowest_free(&self, p: RealPid, from: u32) -> Option<u32>
        ensures some { IfSome result (λ fd. IsLowestFree self.now p from fd) }
        ensures none { IfNone result (AllUsed self.now p from) }
    {
        match self.tables.get(&p) {
            Some(table) => table.lowest_free(from),
            None if from < 256 => Some(from),
            None => None,
        }
    }

    /// The lowest number from one on that is open.
    pub fn next_open(&self, p: RealPid, from: u32) -> Option<u32>
        ensures some { IfSome result (λ fd. IsLowestOpen self.now p from fd) }
        ensures none { IfNone result (NoneOpen self.now p from) }
    {
        match self.tables.get(&p) {
            Some(table) => table.next_open(from),
            None => None,
        }
    }

    /// How many numbers are free.
    pub fn free(&self, p: RealPid) -> u32
        ensures { result ≡ free_below self.now p 256 }
    {
        match self.tables.get(&p) {
            Some(table) => table.free(),
            None => 256,
        }
    }

    /// The processes that have a descriptor of the description, in the order of their numbers.
    pub fn holders(&self, alloc: Global, id: DescId) -> Result<Vec<RealPid>, AllocError>
        ensures sorted { IfOk result (λ list. IsStrictlySortedBy real_pid_cmp list.items) }
        ensures listed { IfOk result (λ list.
            (p : RealPid) → Contains list.items p ↔ IsHolder self.now id p) }
    {
        let mut list = Vec::new(alloc);
        for (p, table) in self.tables.iter() {
            if table.holds(id) {
                list.push(*p)?;
            }
        }
        Ok(list)
    }
}
