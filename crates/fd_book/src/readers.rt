ghost use Rattle.std.specs.Prelude.{◌≡◌, ◌↔◌, ◌-◌, ◌^◌, ◌<◌, min, find, IfOk, IfSome, OnSome, Contains, MatchOption, IsSome, IsTrue, option_map, option_and_then};
ghost use Rattle.std.specs.Option.{option_copied};
ghost use Rattle.std.specs.List.{list_any};
ghost use Rattle.std.specs.List.Sorted.{IsStrictlySortedBy};
ghost use Rattle.std.specs.FinMap as map;
ghost use Rattle.fd_tables.specs.OfSysAbi.declared.identity.RealPid.{RealPid};
ghost use Rattle.fd_tables.specs.OfSysAbi.Orders.{real_pid_cmp};
ghost use Rattle.fd_tables.specs.Slots.{slot, IsHolder};
ghost use Rattle.fd_tables.specs.Parts.{is_after, is_of_file};
ghost use Rattle.fd_book.specs.Books.{is_held, IsWhole};
ghost use Rattle.fd_tables.specs.Numbers.{NoneOpen, IsLowestOpen, free_below, first_above};

use crate::book::Book;
use fd_tables::Desc;
use fd_tables::sys_abi::{DescId, Fd, RealPid};
use std::alloc::{AllocError, Global};

impl Book {
    /// What is always true of a book. It does nothing.
    pub fn whole(&self)
        ensures { IsWhole self.now }
    {
        self.tables.in_range();
    }

    /// The description to which the descriptor refers, which is there.
    pub fn get(&self, p: RealPid, fd: Fd) -> Option<DescId>
        ensures at { result ≡ option_map (λ d. d.desc) (map.get self.now.descriptors (slot p fd.0)) }
        ensures there { IfSome result (λ id. IsSome (map.get self.now.descriptions id)) }
        ensures in_range { OnSome result (fd.0 < 256) }
    {
        match self.tables.get(p, fd.0) {
            Some(descriptor) => Some(descriptor.desc),
            None => None,
        }
    }

    /// The close-on-exec flag of the descriptor.
    pub fn cloexec(&self, p: RealPid, fd: Fd) -> Option<bool>
        ensures { result ≡ option_map (λ d. d.cloexec) (map.get self.now.descriptors (slot p fd.0)) }
    {
        match self.tables.get(p, fd.0) {
            Some(descriptor) => Some(descriptor.cloexec),
            None => None,
        }
    }

    /// The open description, to which some descriptor refers.
    pub fn desc(&self, id: DescId) -> Option<&Desc>
        ensures at { option_copied result ≡ map.get self.now.descriptions id }
        ensures held { OnSome result (IsTrue (is_held self.now.descriptors id)) }
    {
        match self.descriptions.get(id) {
            Some(open) => Some(&open.desc),
            None => None,
        }
    }

    /// The owner of the description, where it is there and has one.
    pub fn owner(&self, id: DescId) -> Option<RealPid>
        ensures { result ≡ option_and_then (λ d. d.owner) (map.get self.now.descriptions id) }
    {
        match self.descriptions.get(id) {
            Some(open) => open.desc.owner,
            None => None,
        }
    }

    /// Whether some description is of the file of that number.
    pub fn has_file(&self, number: u32) -> bool
        ensures { result ≡ list_any (is_of_file number) (map.values self.now.descriptions) }
    {
        self.descriptions.has_file(number)
    }

    /// The processes that have a descriptor of the description, each once, in the order of their numbers.
    pub fn holders(&self, alloc: Global, id: DescId) -> Result<Vec<RealPid>, AllocError>
        ensures sorted { IfOk result (λ list. IsStrictlySortedBy real_pid_cmp list.items) }
        ensures listed { IfOk result (λ list.
            (p : RealPid) → Contains list.items p ↔ IsHolder self.now.descriptors id p) }
    {
        self.tables.holders(alloc, id)
    }

    /// How many of the 256 numbers are free.
    pub fn free(&self, p: RealPid) -> u32
        ensures { result ≡ free_below self.now.descriptors p 256 }
    {
        self.tables.free(p)
    }

    /// The least description above this one, or the least of all where none is given.
    pub fn next_desc(&self, above: Option<DescId>) -> Option<DescId>
        ensures { result ≡ find (is_after above) (map.keys self.now.descriptions) }
    {
        self.descriptions.next_above(above)
    }

    /// The least descriptor above this one, or the least of all where none is given.
    pub fn next_fd(&self, p: RealPid, above: Option<Fd>) -> Option<Fd>
        ensures { MatchOption result (NoneOpen self.now.descriptors p (first_above above))
            (λ fd. IsLowestOpen self.now.descriptors p (first_above above) fd.0) }
    {
        match self.tables.next_open(p, start_above(above)) {
            Some(fd) => Some(Fd(fd)),
            None => None,
        }
    }
}

fn start_above(above: Option<Fd>) -> u32
    ensures { result ≡ min (first_above above) (2 ^ 32 - 1) }
{
    match above {
        None => 0,
        Some(fd) => fd.0.saturating_add(1),
    }
}
