//! The descriptors of a process close, the lowest first.
ghost use Rattle.std.specs.Prelude.{◌≡◌, ℕ, Some};
ghost use Rattle.std.specs.FinMap as map;
ghost use Rattle.views.specs.Limits as limits;
ghost use Rattle.sys_abi.specs.declared.identity.VPid.{VPid};
ghost use Rattle.fd_tables.specs.Numbers.{NoneOpen};
ghost use Rattle.plain_machine.specs.declared.kernel.PlainKernel.{PlainKernel};
ghost use Rattle.plain_machine.specs.Ends.{closed_below};
ghost use Rattle.wrap_names.specs.Wrapping.{IsWrapped};

use crate::close_at;
use fd_book::Book;
use host_tables::System;
use plain_machine::end::DESCRIPTOR_LIMIT;
use sys_abi::RealPid;

/// Closes all descriptors of the process.
pub(crate) fn close_all(system: &mut System, who: RealPid)
    ensures closed { (k : PlainKernel) (next_id : ℕ) (p : VPid) → IsWrapped system.old next_id k
        → map.get system.old.ids.pids p.0 ≡ Some who
        → IsWrapped system.new next_id (closed_below k p limits.DESCRIPTOR_LIMIT) }
    ensures pids { system.new.ids.pids ≡ system.old.ids.pids }
{
    for _ in 0..=DESCRIPTOR_LIMIT {
        let Some(fd) = system.kernel.book.next_fd(who, None) else {
            give_back(&mut system.kernel.book, who);
            return;
        };
        close_at(system, who, fd.0);
    }
}

/// The room for the descriptors of a process that has none is given back.
fn give_back(book: &mut Book, who: RealPid)
    requires none { NoneOpen book.old.descriptors who 0 }
    ensures { book.new ≡ book.old }
{
    let _ = book.end_table(who);
}
