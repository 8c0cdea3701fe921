//! A wait for a child (`man 2 wait4`).
ghost use Rattle.std.specs.Prelude.{◌≡◌};
ghost use Rattle.proc_book.specs.Procs.{wait_for};
ghost use Rattle.plain_machine.specs.Rows.Wait as rows;
ghost use Rattle.plain_tables.specs.Waits as waits;
ghost use Rattle.host_descriptors.specs.OfHostTables.Requests.{neighbour_of};
ghost use Rattle.host_descriptors.specs.OfHostTables.Serves.{Through, Serves, ByPidOr, same};
ghost use Rattle.host_processes.specs.Waits as words;
ghost use Rattle.host_processes.specs.Waits.{wait_answer, wait_bytes, with_waited};

use host_descriptors::{Attempt, Kernel};
use proc_book::{ProcFault, Waiting};
use sys_abi::errors::{ECHILD, EINVAL};
use sys_abi::transfer::Transfer;
use sys_abi::{Errno, RealPid};

/// The number that stands for any child: -1.
const ANY_CHILD: u32 = 0xFFFF_FFFF;

/// The option to answer at once.
const WNOHANG: u32 = 1;

/// wait4 (`man 2 wait4`): the least child of those asked for that has ended is gone, and its status stands in
/// the transfer. `target` is the real number of the process of the caller's host that the number names, None
/// where it names none. Takes no memory.
pub fn wait4(
    kernel: &mut Kernel,
    who: RealPid,
    number: u32,
    options: u32,
    usage: u32,
    target: Option<RealPid>,
    transfer: &mut Transfer,
) -> Attempt
    ensures { Through kernel.old who (λ g k p. target ≡ neighbour_of g.pids k p number
        → Serves (ByPidOr 0 who) same g kernel.old kernel.new transfer.old transfer.new result
        (rows.wait4_row k p number options usage)) }
{
    if !may_be_asked(number, options, usage) {
        return Attempt::Fails(Errno(EINVAL));
    }
    if number == ANY_CHILD {
        return wait(kernel, who, None, options, transfer);
    }
    let Some(child) = target else {
        return Attempt::Fails(Errno(ECHILD));
    };
    wait(kernel, who, Some(child), options, transfer)
}

/// Whether a wait4 doesn't wait. `target` is as that of [`wait4`].
#[tactic(auto, unfolding(plain_machine::specs::Rows::Wait::is_wait4_ready))]
pub fn is_wait4_ready(
    kernel: &Kernel,
    who: RealPid,
    number: u32,
    options: u32,
    usage: u32,
    target: Option<RealPid>,
) -> bool
    ensures { Through kernel.now who (λ g k p. target ≡ neighbour_of g.pids k p number
        → result ≡ rows.is_wait4_ready k p number options usage) }
{
    if !may_be_asked(number, options, usage) || options == WNOHANG {
        return true;
    }
    is_told(kernel, who, number, target)
}

/// Whether a child that was asked for has ended, or none is there.
fn is_told(kernel: &Kernel, who: RealPid, number: u32, target: Option<RealPid>) -> bool
    ensures { Through kernel.now who (λ g k p. target ≡ neighbour_of g.pids k p number
        → result ≡ waits.is_answered (waits.wait_for k.processes p (rows.child_of_number number))) }
{
    if number == ANY_CHILD {
        return is_answered(kernel.procs.look(who, None));
    }
    let Some(child) = target else {
        return true;
    };
    is_answered(kernel.procs.look(who, Some(child)))
}

fn is_answered(found: Waiting) -> bool
    ensures { result ≡ words.is_answered found }
{
    match found {
        Waiting::NotReady => false,
        Waiting::NoChild | Waiting::Ended(_, _) => true,
    }
}

fn may_be_asked(number: u32, options: u32, usage: u32) -> bool
    ensures { result ≡ rows.may_be_asked number options usage }
{
    usage == 0
        && options <= WNOHANG
        && (number == ANY_CHILD || (1 <= number && number < 0x8000_0000))
}

/// Waits for this child, or for any, and gives the status of the one that has ended.
fn wait(
    kernel: &mut Kernel,
    who: RealPid,
    child: Option<RealPid>,
    options: u32,
    transfer: &mut Transfer,
) -> Attempt
    ensures answer { result ≡ wait_answer options (wait_for kernel.old.procs.processes who child) }
    ensures bytes { transfer.new ≡ wait_bytes transfer.old (wait_for kernel.old.procs.processes who child) }
    ensures gone { kernel.new ≡ with_waited kernel.old (wait_for kernel.old.procs.processes who child) }
{
    match reap(kernel, who, child) {
        Waiting::NoChild => Attempt::Fails(Errno(ECHILD)),
        Waiting::NotReady if options == WNOHANG => Attempt::Gives(0),
        Waiting::NotReady => Attempt::NotReady,
        Waiting::Ended(r, status) => {
            transfer.clear();
            transfer.put(&status.to_le_bytes());
            Attempt::Gives(r.pid)
        }
    }
}

/// What the wait finds. A child that has ended is gone then.
fn reap(kernel: &mut Kernel, who: RealPid, child: Option<RealPid>) -> Waiting
    ensures found { result ≡ wait_for kernel.old.procs.processes who child }
    ensures gone { kernel.new ≡ with_waited kernel.old (wait_for kernel.old.procs.processes who child) }
{
    match kernel.procs.wait(who, child) {
        Ok((r, status)) => Waiting::Ended(r, status),
        Err(ProcFault::NotReady) => Waiting::NotReady,
        Err(_) => Waiting::NoChild,
    }
}
