//! A descriptor at a number that the caller picks (`man 2 dup3`).
ghost use Rattle.std.specs.Prelude.{◌≡◌, ◌≢◌, ◌<◌, List, None, IfOk, OnErr};
ghost use Rattle.views.specs.Numbers.{Byte};
ghost use Rattle.views.specs.Limits as limits;
ghost use Rattle.fd_tables.specs.Slots as slots;
ghost use Rattle.plain_process.specs.Attempts.{and_then};
ghost use Rattle.host_tables.specs.OfPlainMachine.Attempts.{replied};
ghost use Rattle.host_tables.specs.OfPlainMachine.Kernel.{held};
ghost use Rattle.host_tables.specs.OfPlainMachine.Rows.Descriptors as rows;
ghost use Rattle.host_tables.specs.declared.attempt.Attempt.TheVariants.{Fails};
ghost use Rattle.host_tables.specs.Serves.{Through, Serves, ByNumber, same};
ghost use Rattle.host_descriptors.specs.Moves.{IsTold};

use crate::{Closed, finish, object_at};
use fd_book::BookFault;
use host_tables::{Attempt, DESCRIPTOR_LIMIT, Kernel};
use std::alloc::AllocError;
use sys_abi::errors::{EBADF, EINVAL};
use sys_abi::flags::O_CLOEXEC;
use sys_abi::{Errno, Fd, RealPid};

/// What a move came to.
#[derive(Clone, Copy)]
pub struct Moved {
    pub answer: Attempt,
    /// The description that lost its last descriptor where another was put, with what it was of.
    pub closed: Option<Closed>,
}

/// dup3 (`man 2 dup`). Tells the description that lost its last descriptor by that.
pub fn dup3(
    kernel: &mut Kernel,
    who: RealPid,
    fd: u32,
    to: u32,
    flags: u32,
) -> Result<Moved, AllocError>
    ensures ok { IfOk result (λ moved. Through kernel.old who (λ g k p. (x : List Byte)
        → Serves ByNumber same g kernel.old kernel.new x x moved.answer (rows.dup3_row k p fd to flags))) }
    ensures told { IfOk result (λ moved. IsTold kernel.old.book (slots.slot who to) moved.answer moved.closed) }
    ensures err { OnErr result (kernel.new ≡ kernel.old) }
{
    kernel.book.whole();
    let Some(_) = kernel.book.get(who, Fd(fd)) else {
        return Ok(refused(EBADF));
    };
    if to == fd {
        return Ok(refused(EINVAL));
    }
    if !is_cloexec_at_most(flags) {
        return Ok(refused(EINVAL));
    }
    if to >= DESCRIPTOR_LIMIT {
        return Ok(refused(EBADF));
    }
    move_to(kernel, who, fd, to, flags == O_CLOEXEC)
}

fn is_cloexec_at_most(flags: u32) -> bool
    ensures { result ≡ rows.is_cloexec_at_most flags }
{
    flags == 0 || flags == O_CLOEXEC
}

fn refused(error: u16) -> Moved
    ensures { result ≡ record { answer = Fails (record { 0 = error }); closed = None } }
{
    Moved {
        answer: Attempt::Fails(Errno(error)),
        closed: None,
    }
}

/// The descriptor `to` closes, if it is open, and then refers to the description of `fd`.
fn move_to(
    kernel: &mut Kernel,
    who: RealPid,
    fd: u32,
    to: u32,
    cloexec: bool,
) -> Result<Moved, AllocError>
    requires in_range { to < limits.DESCRIPTOR_LIMIT }
    requires apart { to ≢ fd }
    ensures ok { IfOk result (λ moved. Through kernel.old who (λ g k p. (x : List Byte)
        → Serves ByNumber same g kernel.old kernel.new x x moved.answer
        (and_then (held k p fd) (λ h. replied (rows.moved_to k p h to cloexec) to)))) }
    ensures told { IfOk result (λ moved. IsTold kernel.old.book (slots.slot who to) moved.answer moved.closed) }
    ensures err { OnErr result (kernel.new ≡ kernel.old) }
{
    kernel.book.whole();
    let before = object_at(&kernel.book, who, to);
    match kernel.book.dup_to(who, Fd(fd), Fd(to), cloexec) {
        Ok(lost) => {
            let closed = finish(kernel, lost, before);
            Ok(Moved {
                answer: Attempt::Gives(to),
                closed,
            })
        }
        Err(BookFault::BadFd) => Ok(refused(EBADF)),
        Err(BookFault::TooMany | BookFault::Memory) => Err(AllocError),
    }
}
