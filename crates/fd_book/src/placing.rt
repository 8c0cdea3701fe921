ghost use Rattle.std.specs.Prelude.{◌≡◌, ◌≢◌, ◌↔◌, false, ◌<◌, Some, None, Err, IsSome, IsTrue, IfOk, OnOk, OnErr};
ghost use Rattle.std.specs.FinMap as map;
ghost use Rattle.fd_tables.specs.OfSysAbi.declared.descriptor.Descriptor.{Descriptor};
ghost use Rattle.fd_tables.specs.Slots.{slot};
ghost use Rattle.fd_book.specs.Books.{is_held, with_descriptor, with_new, after_close, lost_by_close};
ghost use Rattle.fd_tables.specs.Numbers.{AllUsed, IsLowestFree};

use crate::book::Book;
use crate::book_fault::BookFault;
use fd_tables::sys_abi::{DescId, Descriptor, Fd, RealPid};
use fd_tables::{Desc, Open};
use std::alloc::AllocError;

impl Book {
    /// Makes a description, and a descriptor of it at the lowest free number.
    ///
    /// # Errors
    /// `TooMany` where no number is free. After an error all is as before.
    pub fn place(
        &mut self,
        p: RealPid,
        id: DescId,
        desc: Desc,
        cloexec: bool,
    ) -> Result<Fd, BookFault>
        requires { map.get self.old.descriptions id ≡ None }
        ensures too_many { (result ≡ Err BookFault.TooMany) ↔ AllUsed self.old.descriptors p 0 }
        ensures never_bad { result ≢ Err BookFault.BadFd }
        ensures lowest { IfOk result (λ fd. IsLowestFree self.old.descriptors p 0 fd.0) }
        ensures ok { IfOk result (λ fd. self.new
            ≡ with_descriptor (record self.old { descriptions = map.insert self.old.descriptions id desc }) (slot p fd.0) id cloexec) }
        ensures err { OnErr result (self.new ≡ self.old) }
    {
        let Some(fd) = self.tables.lowest_free(p, 0) else {
            return Err(BookFault::TooMany);
        };
        self.put_new(p, fd, id, desc, cloexec)?;
        Ok(Fd(fd))
    }

    /// Puts a descriptor of the description at a number that is free. Where there is no description of that
    /// name, it is made; else it stays as it is. After a failed allocation all is as before.
    #[tactic(auto, unfolding(crate::specs::Books::with_new))]
    pub fn place_at(
        &mut self,
        p: RealPid,
        fd: Fd,
        id: DescId,
        desc: Desc,
        cloexec: bool,
    ) -> Result<(), AllocError>
        requires free { map.get self.old.descriptors (slot p fd.0) ≡ None }
        requires in_range { fd.0 < 256 }
        ensures ok { OnOk result (self.new ≡ with_descriptor (with_new self.old id desc) (slot p fd.0) id cloexec) }
        ensures err { OnErr result (self.new ≡ self.old) }
    {
        match self.descriptions.get(id) {
            Some(_) => self.put_same(p, fd.0, id, cloexec),
            None => self.put_new(p, fd.0, id, desc, cloexec),
        }
    }

    /// Puts a second descriptor of the same description at the lowest free number, without close-on-exec
    /// (`man 2 dup`).
    ///
    /// # Errors
    /// `BadFd` where the descriptor is not open, else `TooMany` where no number is free. After an error all
    /// is as before.
    pub fn dup(&mut self, p: RealPid, fd: Fd) -> Result<Fd, BookFault>
        ensures bad { (result ≡ Err BookFault.BadFd) ↔ (map.get self.old.descriptors (slot p fd.0) ≡ None) }
        ensures too_many { (result ≡ Err BookFault.TooMany)
            ↔ (IsSome (map.get self.old.descriptors (slot p fd.0)) × AllUsed self.old.descriptors p 0) }
        ensures lowest { IfOk result (λ to. IsLowestFree self.old.descriptors p 0 to.0) }
        ensures ok { (d : Descriptor) → map.get self.old.descriptors (slot p fd.0) ≡ Some d
            → IfOk result (λ to. self.new ≡ with_descriptor self.old (slot p to.0) d.desc false) }
        ensures err { OnErr result (self.new ≡ self.old) }
    {
        self.dup_from(p, fd, 0, false)
    }

    /// Puts a second descriptor of the same description at the lowest free number from `min` on
    /// (`man 2 fcntl`, F_DUPFD).
    ///
    /// # Errors
    /// `BadFd` where the descriptor is not open, else `TooMany` where no number from `min` on is free. After
    /// an error all is as before.
    pub fn dup_from(&mut self, p: RealPid, fd: Fd, min: u32, cloexec: bool) -> Result<Fd, BookFault>
        ensures bad { (result ≡ Err BookFault.BadFd) ↔ (map.get self.old.descriptors (slot p fd.0) ≡ None) }
        ensures too_many { (result ≡ Err BookFault.TooMany)
            ↔ (IsSome (map.get self.old.descriptors (slot p fd.0)) × AllUsed self.old.descriptors p min) }
        ensures lowest { IfOk result (λ to. IsLowestFree self.old.descriptors p min to.0) }
        ensures ok { (d : Descriptor) → map.get self.old.descriptors (slot p fd.0) ≡ Some d
            → IfOk result (λ to. self.new ≡ with_descriptor self.old (slot p to.0) d.desc cloexec) }
        ensures err { OnErr result (self.new ≡ self.old) }
    {
        let Some(descriptor) = self.tables.get(p, fd.0) else {
            return Err(BookFault::BadFd);
        };
        let Some(to) = self.tables.lowest_free(p, min) else {
            return Err(BookFault::TooMany);
        };
        self.put_same(p, to, descriptor.desc, cloexec)?;
        Ok(Fd(to))
    }

    /// Puts a second descriptor of the same description at the number `to`, where what was open there is
    /// closed first (`man 2 dup3`). Tells the description that lost its last descriptor by that.
    ///
    /// # Errors
    /// `BadFd` where the descriptor is not open. After an error all is as before.
    pub fn dup_to(
        &mut self,
        p: RealPid,
        fd: Fd,
        to: Fd,
        cloexec: bool,
    ) -> Result<Option<DescId>, BookFault>
        requires in_range { to.0 < 256 }
        requires apart { to.0 ≢ fd.0 }
        ensures bad { (result ≡ Err BookFault.BadFd) ↔ (map.get self.old.descriptors (slot p fd.0) ≡ None) }
        ensures never_many { result ≢ Err BookFault.TooMany }
        ensures lost { IfOk result (λ lost. lost ≡ lost_by_close self.old (slot p to.0)) }
        ensures ok { (d : Descriptor) → map.get self.old.descriptors (slot p fd.0) ≡ Some d
            → OnOk result (self.new ≡ with_descriptor (after_close self.old (slot p to.0)) (slot p to.0) d.desc cloexec) }
        ensures err { OnErr result (self.new ≡ self.old) }
    {
        let Some(descriptor) = self.tables.get(p, fd.0) else {
            return Err(BookFault::BadFd);
        };
        let Some(before) = self.tables.get(p, to.0) else {
            self.put_same(p, to.0, descriptor.desc, cloexec)?;
            return Ok(None);
        };
        Ok(self.put_over(p, to.0, before, descriptor.desc, cloexec))
    }

    /// A descriptor of a new description at a free number.
    fn put_new(
        &mut self,
        p: RealPid,
        fd: u32,
        id: DescId,
        desc: Desc,
        cloexec: bool,
    ) -> Result<(), AllocError>
        requires new_description { map.get self.old.descriptions id ≡ None }
        requires free { map.get self.old.descriptors (slot p fd) ≡ None }
        requires in_range { fd < 256 }
        ensures ok { OnOk result (self.new
            ≡ with_descriptor (record self.old { descriptions = map.insert self.old.descriptions id desc }) (slot p fd) id cloexec) }
        ensures err { OnErr result (self.new ≡ self.old) }
    {
        if self.count == u64::MAX {
            return Err(AllocError);
        }
        self.tables.put(p, fd, Descriptor { desc: id, cloexec })?;
        let Ok(()) = self.descriptions.add(id, Open { desc, holders: 1 }) else {
            self.tables.clear(p, fd);
            return Err(AllocError);
        };
        self.count += 1;
        Ok(())
    }

    /// One more descriptor of a description that is there, at a free number.
    fn put_same(&mut self, p: RealPid, fd: u32, id: DescId, cloexec: bool) -> Result<(), AllocError>
        requires there { IsSome (map.get self.old.descriptions id) }
        requires free { map.get self.old.descriptors (slot p fd) ≡ None }
        requires in_range { fd < 256 }
        ensures ok { OnOk result (self.new ≡ with_descriptor self.old (slot p fd) id cloexec) }
        ensures err { OnErr result (self.new ≡ self.old) }
    {
        if self.count == u64::MAX {
            return Err(AllocError);
        }
        self.tables.put(p, fd, Descriptor { desc: id, cloexec })?;
        self.descriptions.retain(id);
        self.count += 1;
        Ok(())
    }

    /// A descriptor of another description in the place of one that is open. Takes no memory.
    fn put_over(
        &mut self,
        p: RealPid,
        fd: u32,
        before: Descriptor,
        id: DescId,
        cloexec: bool,
    ) -> Option<DescId>
        requires there { map.get self.old.descriptors (slot p fd) ≡ Some before }
        requires held { IsTrue (is_held (map.remove self.old.descriptors (slot p fd)) id) }
        requires in_range { fd < 256 }
        ensures lost { result ≡ lost_by_close self.old (slot p fd) }
        ensures put { self.new ≡ with_descriptor (after_close self.old (slot p fd)) (slot p fd) id cloexec }
    {
        self.tables.replace(p, fd, Descriptor { desc: id, cloexec });
        let lost = self.descriptions.release(before.desc);
        self.descriptions.retain(id);
        lost
    }
}
