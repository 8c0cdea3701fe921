//! close and dup3 (`man 2 close`, `man 2 dup`).
ghost use Rattle.std.specs.Prelude.{◌≡◌, true};
ghost use Rattle.plain_machine.specs.RowLaws.{IsAsked};
ghost use Rattle.plain_machine.specs.Rows.Descriptors as rows;
ghost use Rattle.plain_machine.specs.Serve.{row};
ghost use Rattle.wrap_names.specs.Wrapping.{IsWrapped, StandsAfter};
ghost use Rattle.wrap_ends.specs.Serving.{ServesRow, is_closing};

use crate::close_calls::{close_at, move_to};
use call_table::Request;
use host_tables::{KernelReply, System};
use plain_machine::end::DESCRIPTOR_LIMIT;
use sys_abi::errors::{EBADF, EINVAL};
use sys_abi::flags::O_CLOEXEC;
use sys_abi::transfer::Transfer;
use sys_abi::{Errno, Fd, RealPid, Tid, VPid};
use wrap_names::numbers::caller_of;
use wrap_names::stood::Stood;

/// A call that closes a descriptor. Only a dup3 may want for memory.
pub fn serve_closing(
    system: &mut System,
    stood: &Stood,
    next_id: u32,
    p: VPid,
    t: Tid,
    request: &Request,
    transfer: &mut Transfer,
) -> KernelReply
    requires wrapped { IsWrapped system.old next_id stood.now.kernel }
    requires asked { IsAsked stood.now.kernel p t.0 request.now transfer.old }
    requires closing { is_closing request.now ≡ true }
    ensures { StandsAfter system.new next_id stood.now.kernel transfer.old transfer.new result
        (row stood.now.kernel p t.0 request.now transfer.old) }
{
    let _ = stood;
    let _ = next_id;
    let _ = &*transfer;
    let Some(caller) = caller_of(&system.ids, p, t) else {
        unreachable!();
    };
    match *request {
        Request::Close { fd } => close(system, caller.who, fd),
        Request::Dup3 { fd, to, flags } => dup3(system, caller.who, fd, to, flags),
        _ => unreachable!(),
    }
}

/// Whether it is such a call.
#[tactic(auto, unfolding(crate::specs::Serving::is_closing))]
pub fn serves(request: &Request) -> bool
    ensures { result ≡ is_closing request.now }
{
    match *request {
        Request::Close { .. } | Request::Dup3 { .. } => true,
        _ => false,
    }
}

/// close (`man 2 close`). Takes no memory.
fn close(system: &mut System, who: RealPid, fd: u32) -> KernelReply
    ensures { ServesRow system.old system.new who result (λ k p. rows.close_row k p fd) }
{
    system.kernel.book.whole();
    let Some(_) = system.kernel.book.get(who, Fd(fd)) else {
        return KernelReply::Error(Errno(EBADF));
    };
    close_at(system, who, fd);
    KernelReply::Done(0)
}

/// dup3 (`man 2 dup`).
fn dup3(system: &mut System, who: RealPid, fd: u32, to: u32, flags: u32) -> KernelReply
    ensures { ServesRow system.old system.new who result (λ k p. rows.dup3_row k p fd to flags) }
{
    system.kernel.book.whole();
    let Some(_) = system.kernel.book.get(who, Fd(fd)) else {
        return KernelReply::Error(Errno(EBADF));
    };
    if to == fd {
        return KernelReply::Error(Errno(EINVAL));
    }
    if !is_cloexec_at_most(flags) {
        return KernelReply::Error(Errno(EINVAL));
    }
    if to >= DESCRIPTOR_LIMIT {
        return KernelReply::Error(Errno(EBADF));
    }
    move_to(system, who, fd, to, flags == O_CLOEXEC)
}

/// No flag but O_CLOEXEC.
fn is_cloexec_at_most(flags: u32) -> bool
    ensures { result ≡ rows.is_cloexec_at_most flags }
{
    flags == 0 || flags == O_CLOEXEC
}
