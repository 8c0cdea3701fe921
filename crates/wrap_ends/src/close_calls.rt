//! A descriptor closes, and another may take its place (`man 2 close`, `man 2 dup`).
ghost use Rattle.std.specs.Prelude.{◌≡◌, ◌≢◌, ◌<◌, ℕ, Some};
ghost use Rattle.std.specs.FinMap as map;
ghost use Rattle.views.specs.Limits as limits;
ghost use Rattle.sys_abi.specs.declared.identity.VPid.{VPid};
ghost use Rattle.plain_process.specs.Attempts.{and_then};
ghost use Rattle.plain_machine.specs.declared.kernel.PlainKernel.{PlainKernel};
ghost use Rattle.plain_machine.specs.Attempts.{replied};
ghost use Rattle.plain_machine.specs.Closing.{close_fd};
ghost use Rattle.plain_machine.specs.Kernel.{held};
ghost use Rattle.plain_machine.specs.Rows.Descriptors as rows;
ghost use Rattle.wrap_names.specs.Wrapping.{IsWrapped};
ghost use Rattle.wrap_ends.specs.Serving.{ServesRow};

use crate::forgetting::release;
use fd_book::BookFault;
use host_descriptors::object_at;
use host_tables::{KernelReply, System};
use sys_abi::errors::EBADF;
use sys_abi::{Errno, Fd, RealPid};

/// Closes a descriptor of the process, if it is open (`man 2 close`). Takes no memory.
pub fn close_at(system: &mut System, who: RealPid, fd: u32)
    ensures closed { (k : PlainKernel) (next_id : ℕ) (p : VPid) → IsWrapped system.old next_id k
        → map.get system.old.ids.pids p.0 ≡ Some who → IsWrapped system.new next_id (close_fd k p fd) }
    ensures pids { system.new.ids.pids ≡ system.old.ids.pids }
{
    system.kernel.book.whole();
    let object = object_at(&system.kernel.book, who, fd);
    let Ok(lost) = system.kernel.book.close(who, Fd(fd)) else {
        return;
    };
    release(system, lost, object);
}

/// The descriptor `to` closes, if it is open, and then refers to the description of `fd`.
pub(crate) fn move_to(
    system: &mut System,
    who: RealPid,
    fd: u32,
    to: u32,
    cloexec: bool,
) -> KernelReply
    requires in_range { to < limits.DESCRIPTOR_LIMIT }
    requires apart { to ≢ fd }
    ensures { ServesRow system.old system.new who result
        (λ k p. and_then (held k p fd) (λ h. replied (rows.moved_to k p h to cloexec) to)) }
{
    system.kernel.book.whole();
    let before = object_at(&system.kernel.book, who, to);
    match system.kernel.book.dup_to(who, Fd(fd), Fd(to), cloexec) {
        Ok(lost) => {
            release(system, lost, before);
            KernelReply::Done(to)
        }
        Err(BookFault::BadFd) => KernelReply::Error(Errno(EBADF)),
        Err(BookFault::TooMany | BookFault::Memory) => KernelReply::Memory,
    }
}
