//! A descriptor more to a description, and one less (`man 2 dup`, `man 2 close`).
ghost use Rattle.std.specs.Prelude.{◌≡◌, ◌≤◌, List, IfOk, OnErr};
ghost use Rattle.views.specs.Numbers.{Byte};
ghost use Rattle.views.specs.Limits.{DESCRIPTOR_LIMIT};
ghost use Rattle.fd_tables.specs.Slots as slots;
ghost use Rattle.plain_process.specs.Attempts.{and_then};
ghost use Rattle.host_tables.specs.OfPlainMachine.Kernel.{held};
ghost use Rattle.host_tables.specs.OfPlainMachine.Rows.Descriptors as rows;
ghost use Rattle.host_tables.specs.Serves.{Through, Serves, ByNumber, same};
ghost use Rattle.host_descriptors.specs.LetGo.{IsToldClose};

use crate::{Closed, close_one};
use fd_book::BookFault;
use host_tables::{Attempt, Kernel, RowResult};
use std::alloc::AllocError;
use sys_abi::errors::{EBADF, EMFILE};
use sys_abi::{Errno, Fd, RealPid};

/// dup (`man 2 dup`).
#[tactic(auto, unfolding(host_tables::specs::HandedOn::dup_row))]
pub fn dup(kernel: &mut Kernel, who: RealPid, fd: u32) -> RowResult
    ensures ok { IfOk result (λ a. Through kernel.old who (λ g k p. (x : List Byte)
        → Serves ByNumber same g kernel.old kernel.new x x a (rows.dup_row k p fd))) }
    ensures err { OnErr result (kernel.new ≡ kernel.old) }
{
    dup_from(kernel, who, fd, 0, false)
}

/// The free descriptor from a number on refers to the same description.
pub(crate) fn dup_from(
    kernel: &mut Kernel,
    who: RealPid,
    fd: u32,
    from: u32,
    cloexec: bool,
) -> RowResult
    ensures ok { IfOk result (λ a. Through kernel.old who (λ g k p. (x : List Byte) → from ≤ DESCRIPTOR_LIMIT
        → Serves ByNumber same g kernel.old kernel.new x x a
        (and_then (held k p fd) (λ h. rows.dup_from k p h from cloexec)))) }
    ensures err { OnErr result (kernel.new ≡ kernel.old) }
{
    kernel.book.whole();
    match kernel.book.dup_from(who, Fd(fd), from, cloexec) {
        Ok(to) => Ok(Attempt::Gives(to.0)),
        Err(BookFault::BadFd) => Ok(Attempt::Fails(Errno(EBADF))),
        Err(BookFault::TooMany) => Ok(Attempt::Fails(Errno(EMFILE))),
        Err(BookFault::Memory) => Err(AllocError),
    }
}

/// close (`man 2 close`). Tells the description that lost its last descriptor by that. Takes no memory.
pub fn close(kernel: &mut Kernel, who: RealPid, fd: u32) -> (Attempt, Option<Closed>)
    ensures row { Through kernel.old who (λ g k p. (x : List Byte)
        → Serves ByNumber same g kernel.old kernel.new x x result.0 (rows.close_row k p fd)) }
    ensures told { IsToldClose kernel.old.book (slots.slot who fd) result.1 }
{
    kernel.book.whole();
    let Some(_) = kernel.book.get(who, Fd(fd)) else {
        return (Attempt::Fails(Errno(EBADF)), None);
    };
    let closed = close_one(kernel, who, fd);
    (Attempt::Gives(0), closed)
}
