ghost use Rattle.std.specs.Prelude.{◌≡◌};
ghost use Rattle.std.specs.FinMap as map;
ghost use Rattle.fd_tables.specs.OfViews.Maps.{map_values};
ghost use Rattle.fd_book.specs.Books.{with_changed, with_cloexec};
ghost use Rattle.fd_tables.specs.Parts.{with_object, with_flags, with_owner, disowned};
ghost use Rattle.fd_tables.specs.Slots.{slot};

use fd_tables::sys_abi::{DescId, Descriptor, Fd, RealPid};
use fd_tables::{Desc, Descriptions, Object, Open, Tables};
use std::alloc::Global;
use std::marker::Model;

/// The descriptors of all processes and the open descriptions that they refer to.
#[derive(Drop)]
pub struct Book {
    pub(crate) tables: Tables,
    pub(crate) descriptions: Descriptions,
    /// How many descriptors there are. At the greatest number of 64 bits a further one is answered as want of
    /// memory, which no machine has.
    pub(crate) count: u64,
}

impl Model for Book {
    ghost use Rattle.fd_book.specs.Books.{Books, coded_books};
    ghost use Rattle.fd_book.specs.Counted.{IsBook, desc_of};
    ghost use Rattle.fd_tables.specs.OfViews.Maps.{map_values};

    ghost Value = { Books };

    ghost coded = { coded_books };

    ghost view = { λ b. record { descriptions = map_values desc_of b.descriptions; descriptors = b.tables } };

    ghost invariant = { λ b. IsBook b.tables b.descriptions b.count };
}

impl Book {
    /// No description, no descriptor, and no memory yet.
    pub fn new(alloc: Global) -> Book
        ensures { result ≡ record { descriptions = map.empty; descriptors = map.empty } }
    {
        Book {
            tables: Tables::new(alloc),
            descriptions: Descriptions::new(alloc),
            count: 0,
        }
    }

    /// Sets what the description stands for. Where there is none of that name, nothing changes. Takes no
    /// memory.
    #[tactic(auto, unfolding(crate::specs::Books::with_changed))]
    pub fn set_object(&mut self, id: DescId, object: Object)
        ensures { self.new ≡ with_changed (with_object object) self.old id }
    {
        if let Some(open) = self.descriptions.get(id).copied() {
            let desc = Desc {
                object,
                flags: open.desc.flags,
                owner: open.desc.owner,
            };
            let holders = open.holders;
            self.descriptions.set(id, Open { desc, holders });
        }
    }

    /// Sets the access mode and status flags of the description. Where there is none of that name, nothing
    /// changes. Takes no memory.
    #[tactic(auto, unfolding(crate::specs::Books::with_changed))]
    pub fn set_flags(&mut self, id: DescId, flags: u32)
        ensures { self.new ≡ with_changed (with_flags flags) self.old id }
    {
        if let Some(open) = self.descriptions.get(id).copied() {
            let desc = Desc {
                object: open.desc.object,
                flags,
                owner: open.desc.owner,
            };
            let holders = open.holders;
            self.descriptions.set(id, Open { desc, holders });
        }
    }

    /// Sets the owner of the description (`man 2 fcntl`, F_SETOWN). Where there is none of that name, nothing
    /// changes. Takes no memory.
    #[tactic(auto, unfolding(crate::specs::Books::with_changed))]
    pub fn set_owner(&mut self, id: DescId, owner: Option<RealPid>)
        ensures { self.new ≡ with_changed (with_owner owner) self.old id }
    {
        if let Some(open) = self.descriptions.get(id).copied() {
            let desc = Desc {
                object: open.desc.object,
                flags: open.desc.flags,
                owner,
            };
            let holders = open.holders;
            self.descriptions.set(id, Open { desc, holders });
        }
    }

    /// Takes the process away as an owner wherever it is one. Takes no memory.
    pub fn disown(&mut self, p: RealPid)
        ensures { self.new ≡ record self.old { descriptions = map_values (disowned p) self.old.descriptions } }
    {
        self.descriptions.disown(p);
    }

    /// Sets the close-on-exec flag of the descriptor. Where it is not open, nothing changes. Takes no memory.
    #[tactic(auto, unfolding(crate::specs::Books::with_cloexec))]
    pub fn set_cloexec(&mut self, p: RealPid, fd: Fd, on: bool)
        ensures { self.new ≡ with_cloexec self.old (slot p fd.0) on }
    {
        if let Some(descriptor) = self.tables.get(p, fd.0) {
            let changed = Descriptor {
                desc: descriptor.desc,
                cloexec: on,
            };
            self.tables.replace(p, fd.0, changed);
        }
    }
}
