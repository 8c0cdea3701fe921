ghost use Rattle.std.specs.Prelude.{◌≡◌, ◌≢◌, ◌<◌, ℕ, Some, None, IfSome, IfNone, OnOk, OnErr, MatchOption, option_map};
ghost use Rattle.std.specs.Option.{ok_or};
ghost use Rattle.std.specs.FinMap as map;
ghost use Rattle.fd_tables.specs.declared.real_slot.RealSlot.{RealSlot};
ghost use Rattle.fd_tables.specs.Slots.{slot};
ghost use Rattle.fd_book.specs.Books.{after_close, lost_by_close};
ghost use Rattle.fd_tables.specs.Numbers.{NoneOpen, IsLowestOpen};

use crate::book::Book;
use crate::book_fault::BookFault;
use fd_tables::sys_abi::{DescId, Descriptor, Fd, RealPid};
use std::alloc::AllocError;

impl Book {
    /// Closes the descriptor, and tells the description that lost its last one by that, which is gone
    /// (`man 2 close`). Takes no memory.
    ///
    /// # Errors
    /// `BadFd` where the descriptor is not open.
    pub fn close(&mut self, p: RealPid, fd: Fd) -> Result<Option<DescId>, BookFault>
        ensures closed { self.new ≡ after_close self.old (slot p fd.0) }
        ensures lost { result ≡ ok_or
            (option_map (λ _. lost_by_close self.old (slot p fd.0)) (map.get self.old.descriptors (slot p fd.0)))
            BookFault.BadFd }
    {
        match self.tables.get(p, fd.0) {
            Some(descriptor) => Ok(self.close_open(p, fd.0, descriptor)),
            None => Err(BookFault::BadFd),
        }
    }

    /// Gives the child, which has no descriptor, the descriptors of the process, which refer to the same
    /// descriptions (`man 2 fork`). After a failed allocation all is as before.
    pub fn fork_table(&mut self, p: RealPid, child: RealPid) -> Result<(), AllocError>
        requires { NoneOpen self.old.descriptors child 0 }
        ensures same { OnOk result ((fd : ℕ) →
            map.get self.new.descriptors (slot child fd) ≡ map.get self.old.descriptors (slot p fd)) }
        ensures others { OnOk result ((at : RealSlot) → at.pid ≢ child →
            map.get self.new.descriptors at ≡ map.get self.old.descriptors at) }
        ensures descriptions { OnOk result (self.new.descriptions ≡ self.old.descriptions) }
        ensures err { OnErr result (self.new ≡ self.old) }
    {
        if self.count > u64::MAX - 256 {
            return Err(AllocError);
        }
        self.tables.copy(p, child)?;
        if let Some(places) = self.tables.places(child) {
            self.count += self.descriptions.retain_all(places);
        }
        Ok(())
    }

    /// Closes the lowest descriptor of the process, and tells it with the description that lost its last one
    /// by that, which is gone. Takes no memory.
    pub fn end_table(&mut self, p: RealPid) -> Option<(Fd, Option<DescId>)>
        ensures lowest { MatchOption result (NoneOpen self.old.descriptors p 0)
            (λ closed. IsLowestOpen self.old.descriptors p 0 closed.0.0) }
        ensures lost { IfSome result (λ closed. closed.1 ≡ lost_by_close self.old (slot p closed.0.0)) }
        ensures closed { IfSome result (λ closed. self.new ≡ after_close self.old (slot p closed.0.0)) }
        ensures none { IfNone result (self.new ≡ self.old) }
    {
        let Some(fd) = self.tables.next_open(p, 0) else {
            self.tables.drop_table(p);
            return None;
        };
        let Some(descriptor) = self.tables.get(p, fd) else {
            return None;
        };
        Some((Fd(fd), self.close_open(p, fd, descriptor)))
    }

    /// Closes a descriptor that is open.
    fn close_open(&mut self, p: RealPid, fd: u32, descriptor: Descriptor) -> Option<DescId>
        requires there { map.get self.old.descriptors (slot p fd) ≡ Some descriptor }
        requires in_range { fd < 256 }
        ensures closed { self.new ≡ after_close self.old (slot p fd) }
        ensures lost { result ≡ lost_by_close self.old (slot p fd) }
    {
        self.tables.clear(p, fd);
        self.count -= 1;
        self.descriptions.release(descriptor.desc)
    }
}
