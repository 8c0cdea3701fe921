//! The end of a process (`man 2 exit`).
ghost use Rattle.std.specs.Prelude.{◌≡◌, true, IfSome, IfNone, MatchOption};
ghost use Rattle.views.specs.Limits as limits;
ghost use Rattle.fd_tables.specs.Slots as slots;
ghost use Rattle.fd_tables.specs.Numbers.{NoneOpen, IsLowestOpen};
ghost use Rattle.proc_book.specs.Ends.{is_live_at};
ghost use Rattle.plain_machine.specs.Closing.{close_fd};
ghost use Rattle.plain_machine.specs.Ends as plain;
ghost use Rattle.host_descriptors.specs.LetGo.{IsToldClose};
ghost use Rattle.host_descriptors.specs.OfHostTables.Serves.{Through};
ghost use Rattle.host_descriptors.specs.OfHostTables.Stands.{Stands};
ghost use Rattle.host_processes.specs.Leaves.{after_leave};

use fd_book::Book;
use host_descriptors::{Closed, Kernel, close_one};
use plain_machine::end::DESCRIPTOR_LIMIT;
use sys_abi::{Fd, RealPid};

/// Closes the lowest descriptor of the process (`man 2 close`), and tells its number and the description that
/// lost its last one by that. None where no descriptor is left. Takes no memory.
pub fn close_lowest(kernel: &mut Kernel, who: RealPid) -> Option<(Fd, Option<Closed>)>
    ensures lowest { MatchOption result (NoneOpen kernel.old.book.descriptors who 0)
        (λ closed. IsLowestOpen kernel.old.book.descriptors who 0 closed.0.0) }
    ensures closed { IfSome result (λ closed.
        Through kernel.old who (λ g k p. Stands g None kernel.new (close_fd k p closed.0.0))) }
    ensures told { IfSome result (λ closed. IsToldClose kernel.old.book (slots.slot who closed.0.0) closed.1) }
    ensures none { IfNone result (kernel.new ≡ kernel.old) }
{
    let Some(fd) = kernel.book.next_fd(who, None) else {
        give_back(&mut kernel.book, who);
        return None;
    };
    let closed = close_one(kernel, who, fd.0);
    Some((fd, closed))
}

/// The room for the descriptors of a process that has none is given back.
fn give_back(book: &mut Book, who: RealPid)
    requires none { NoneOpen book.old.descriptors who 0 }
    ensures { book.new ≡ book.old }
{
    let _ = book.end_table(who);
}

/// Closes all descriptors of the process.
fn close_all(kernel: &mut Kernel, who: RealPid)
    ensures { Through kernel.old who (λ g k p.
        Stands g None kernel.new (plain.closed_below k p limits.DESCRIPTOR_LIMIT)) }
{
    for _ in 0..=DESCRIPTOR_LIMIT {
        let Some(_) = close_lowest(kernel, who) else {
            return;
        };
    }
}

/// What a process leaves that has ended: what it owned has no owner, its children have no parent and its
/// zombies are gone; its live parent gets a signal and it stays as a zombie, without a live parent it is gone.
/// Takes no memory.
pub fn leave(kernel: &mut Kernel, who: RealPid, status: u32)
    ensures { is_live_at kernel.old.procs.processes who ≡ true → Through kernel.old who (λ g k p.
        Stands g None kernel.new (after_leave k p status)) }
{
    kernel.book.disown(who);
    kernel.procs.end_process(who, status);
}

/// Ends a process (`man 2 exit`): its descriptors close, and it leaves. Takes no memory.
pub fn end_process(kernel: &mut Kernel, who: RealPid, status: u32)
    requires alive { is_live_at kernel.old.procs.processes who ≡ true }
    ensures { Through kernel.old who (λ g k p. Stands g None kernel.new (plain.after_end k p status)) }
{
    close_all(kernel, who);
    leave(kernel, who, status);
}
