//! clone (`man 2 clone`), by what its flags make.
ghost use Rattle.std.specs.Prelude.{◌≡◌, ◌<◌, ◌^◌, ℕ, nat_lt, true, List, length, IfOk, OnErr};
ghost use Rattle.views.specs.Numbers.{Byte, Flags};
ghost use Rattle.proc_book.specs.Ends.{is_live_at};
ghost use Rattle.proc_book.specs.Procs.{next_of};
ghost use Rattle.plain_machine.specs.Rows.Clone as rows;
ghost use Rattle.plain_machine.specs.Rows.Clone.{LAST_ID};
ghost use Rattle.host_descriptors.specs.OfHostTables.Conditions.{IsSound};
ghost use Rattle.host_descriptors.specs.OfHostTables.Requests.{AreBelow};
ghost use Rattle.host_descriptors.specs.OfHostTables.Serves.{Through, Serves, ByPid, silent};
ghost use Rattle.host_processes.specs.Forks.{paired_with, IsNext};

use crate::forking::start_child;
use host_descriptors::{Attempt, Kernel, RowResult};
use proc_book::ProcFault;
use std::alloc::AllocError;
use sys_abi::errors::{EAGAIN, EINVAL};
use sys_abi::{CloneForm, Errno, RealPid, clone_form};

/// clone (`man 2 clone`): a child, or a thread of the caller. Answers its real number, the next one of its
/// node, which is paired with the plain machine's next one then, and gives no bytes.
pub fn clone(kernel: &mut Kernel, who: RealPid, flags: u32) -> RowResult
    requires sound { IsSound kernel.old }
    requires node { who.node < length kernel.old.procs.next }
    requires below { who.pid < next_of kernel.old.procs who.node }
    requires alive { is_live_at kernel.old.procs.processes who ≡ true }
    requires left { next_of kernel.old.procs who.node < 2 ^ 32 }
    ensures ok { IfOk result (λ a. Through kernel.old who (λ g k p. (x : List Byte)
        → nat_lt k.next_id LAST_ID ≡ true → AreBelow g k.next_id
        → Serves (ByPid who) (paired_with who) g kernel.old kernel.new x x a
        (silent (rows.clone_row k p flags)))) }
    ensures number { IfOk result (IsNext (next_of kernel.old.procs who.node)) }
    ensures err { OnErr result (kernel.new ≡ kernel.old) }
{
    match clone_form(flags) {
        None => Ok(Attempt::Fails(Errno(EINVAL))),
        Some(CloneForm::Fork) => fork(kernel, who),
        Some(CloneForm::Thread) => add_thread(kernel, who),
    }
}

/// A child more, with the caller's descriptors (`man 2 fork`).
fn fork(kernel: &mut Kernel, who: RealPid) -> RowResult
    requires sound { IsSound kernel.old }
    requires node { who.node < length kernel.old.procs.next }
    requires below { who.pid < next_of kernel.old.procs who.node }
    requires alive { is_live_at kernel.old.procs.processes who ≡ true }
    requires left { next_of kernel.old.procs who.node < 2 ^ 32 }
    ensures ok { IfOk result (λ a. Through kernel.old who (λ g k p. (flags : Flags) (x : List Byte)
        → nat_lt k.next_id LAST_ID ≡ true → AreBelow g k.next_id
        → Serves (ByPid who) (paired_with who) g kernel.old kernel.new x x a
        (silent (rows.clone_process k p flags)))) }
    ensures number { IfOk result (IsNext (next_of kernel.old.procs who.node)) }
    ensures err { OnErr result (kernel.new ≡ kernel.old) }
{
    if kernel.procs.is_full() {
        return Ok(Attempt::Fails(Errno(EAGAIN)));
    }
    let pid = kernel.procs.next_real(who.node);
    let child = RealPid {
        node: who.node,
        pid,
    };
    start_child(&mut kernel.book, &mut kernel.procs, who, child)?;
    Ok(Attempt::Gives(pid))
}

/// A thread more of the caller's process.
fn add_thread(kernel: &mut Kernel, who: RealPid) -> RowResult
    requires node { who.node < length kernel.old.procs.next }
    requires alive { is_live_at kernel.old.procs.processes who ≡ true }
    requires left { next_of kernel.old.procs who.node < 2 ^ 32 }
    ensures ok { IfOk result (λ a. Through kernel.old who (λ g k p. (flags : Flags) (x : List Byte)
        → nat_lt k.next_id LAST_ID ≡ true → AreBelow g k.next_id
        → Serves (ByPid who) (paired_with who) g kernel.old kernel.new x x a
        (silent (rows.clone_thread k p flags)))) }
    ensures number { IfOk result (IsNext (next_of kernel.old.procs who.node)) }
    ensures err { OnErr result (kernel.new ≡ kernel.old) }
{
    match kernel.procs.add_thread(who) {
        Ok(thread) => Ok(Attempt::Gives(thread)),
        Err(ProcFault::Full) => Ok(Attempt::Fails(Errno(EAGAIN))),
        Err(_) => Err(AllocError),
    }
}
