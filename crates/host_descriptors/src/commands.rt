//! fcntl (`man 2 fcntl`).
ghost use Rattle.std.specs.Prelude.{◌≡◌, ◌==◌, ◌%◌, List, Some, IfOk, OnErr, if◌then◌else◌};
ghost use Rattle.std.specs.FinMap as map;
ghost use Rattle.views.specs.Numbers.{Byte};
ghost use Rattle.sys_abi.specs.declared.identity.VPid.{VPid};
ghost use Rattle.fd_tables.specs.Slots as slots;
ghost use Rattle.host_tables.specs.OfPlainMachine.declared.kernel.PlainKernel.{PlainKernel};
ghost use Rattle.plain_process.specs.Commands.{fcntl_command};
ghost use Rattle.host_tables.specs.OfPlainMachine.Kernel.{with_descriptor};
ghost use Rattle.host_tables.specs.OfPlainMachine.Kernels.{IsKernel};
ghost use Rattle.host_tables.specs.OfPlainMachine.Rows.Descriptors as rows;
ghost use Rattle.host_tables.specs.declared.attempt.Attempt.TheVariants.{Gives};
ghost use Rattle.host_tables.specs.Numbers.{number_of, IsKnown};
ghost use Rattle.host_tables.specs.Requests.{neighbour_of};
ghost use Rattle.host_tables.specs.Serves.{Through, Serves, ByNumber, ValueOfCommand, same};
ghost use Rattle.host_tables.specs.Stands.{Given, Stands};
ghost use Rattle.host_descriptors.specs.Held.{held_in, seen_held, owner_value};

use crate::copies::dup_from;
use crate::held::{Held, held_at};
use host_tables::{Attempt, DESCRIPTOR_LIMIT, Kernel, RowResult};
use plain_process::commands::FcntlCommand;
use sys_abi::errors::{EBADF, EINVAL, ESRCH};
use sys_abi::{Errno, Fd, RealPid};

/// fcntl (`man 2 fcntl`). `target` is the real number of the process of the caller's host that the argument
/// names, None where it names none.
pub fn fcntl(
    kernel: &mut Kernel,
    who: RealPid,
    fd: u32,
    number: u32,
    argument: u32,
    target: Option<RealPid>,
) -> RowResult
    ensures ok { IfOk result (λ a. Through kernel.old who (λ g k p. (x : List Byte)
        → target ≡ neighbour_of g.pids k p argument
        → Serves (ValueOfCommand who (fcntl_command number)) same g kernel.old kernel.new x x a
        (rows.fcntl_row k p fd number argument))) }
    ensures err { OnErr result (kernel.new ≡ kernel.old) }
{
    let Some(held) = held_at(&kernel.book, who, fd) else {
        kernel.book.whole();
        return Ok(Attempt::Fails(Errno(EBADF)));
    };
    match FcntlCommand::of(number) {
        None => Ok(Attempt::Fails(Errno(EINVAL))),
        Some(FcntlCommand::DupFd) => dup_above(kernel, who, fd, held, argument, false),
        Some(FcntlCommand::DupFdCloexec) => dup_above(kernel, who, fd, held, argument, true),
        Some(FcntlCommand::GetFd) => Ok(cloexec_flag(held)),
        Some(FcntlCommand::SetFd) => {
            set_cloexec(kernel, who, fd, held, argument);
            Ok(Attempt::Gives(0))
        }
        Some(FcntlCommand::GetFl) => Ok(Attempt::Gives(held.description.flags)),
        Some(FcntlCommand::SetFl) => {
            set_status(kernel, held, argument);
            Ok(Attempt::Gives(0))
        }
        Some(FcntlCommand::SetOwn) => Ok(set_owner(kernel, held, argument, target)),
        Some(FcntlCommand::GetOwn) => Ok(owner_number(held)),
    }
}

/// A descriptor more, at the lowest free number from the argument on.
fn dup_above(
    kernel: &mut Kernel,
    who: RealPid,
    fd: u32,
    held: Held,
    argument: u32,
    cloexec: bool,
) -> RowResult
    requires held { held_in kernel.old.book (slots.slot who fd) ≡ Some held }
    ensures ok { IfOk result (λ a. Through kernel.old who (λ g k p. (x : List Byte)
        → Serves ByNumber same g kernel.old kernel.new x x a
        (rows.dup_above k p (seen_held g kernel.old held) argument cloexec))) }
    ensures err { OnErr result (kernel.new ≡ kernel.old) }
{
    if argument >= DESCRIPTOR_LIMIT {
        return Ok(Attempt::Fails(Errno(EINVAL)));
    }
    let _ = held;
    dup_from(kernel, who, fd, argument, cloexec)
}

fn cloexec_flag(held: Held) -> Attempt
    ensures { result ≡ Gives (if held.cloexec then 1 else 0) }
{
    if held.cloexec {
        return Attempt::Gives(1);
    }
    Attempt::Gives(0)
}

/// Whether exec closes the descriptor, by the argument's lowest bit.
fn set_cloexec(kernel: &mut Kernel, who: RealPid, fd: u32, held: Held, argument: u32)
    requires held { held_in kernel.old.book (slots.slot who fd) ≡ Some held }
    ensures { Through kernel.old who (λ g k p. Stands g None kernel.new (with_descriptor k p fd
        (record { desc = held.desc; cloexec = argument % 2 == 1 }))) }
{
    let _ = held;
    kernel.book.set_cloexec(who, Fd(fd), argument % 2 == 1);
}

/// O_APPEND and O_NONBLOCK.
const SETTABLE_FLAGS: u32 = 0xC00;

/// The flags with O_APPEND and O_NONBLOCK as the argument has them.
fn set_flags(flags: u32, argument: u32) -> u32
    ensures { result ≡ rows.set_flags flags argument }
{
    flags & (0xFFFF_FFFF - SETTABLE_FLAGS) | argument & SETTABLE_FLAGS
}

/// The description's status flags, as the argument has them.
fn set_status(kernel: &mut Kernel, held: Held, argument: u32)
    requires there { map.get kernel.old.book.descriptions held.desc ≡ Some held.description }
    ensures { (g : Given) (k : PlainKernel) → Stands g None kernel.old k
        → Stands g None kernel.new (rows.with_flags k (seen_held g kernel.old held)
        (rows.set_flags held.description.flags argument)) }
{
    let flags = set_flags(held.description.flags, argument);
    kernel.book.set_flags(held.desc, flags);
}

/// The description's owner: nobody where the argument is 0, else the process that it names, if it lives.
fn set_owner(kernel: &mut Kernel, held: Held, argument: u32, target: Option<RealPid>) -> Attempt
    requires there { map.get kernel.old.book.descriptions held.desc ≡ Some held.description }
    ensures { (g : Given) (k : PlainKernel) (p : VPid) (x : List Byte) → IsKernel k → Stands g None kernel.old k
        → target ≡ neighbour_of g.pids k p argument
        → Serves ByNumber same g kernel.old kernel.new x x result
        (rows.set_owner k p (seen_held g kernel.old held) argument) }
{
    if argument == 0 {
        own(kernel, held, None);
        return Attempt::Gives(0);
    }
    let Some(owner) = target else {
        return Attempt::Fails(Errno(ESRCH));
    };
    if !kernel.procs.is_live(owner) {
        return Attempt::Fails(Errno(ESRCH));
    }
    own(kernel, held, Some(owner));
    Attempt::Gives(0)
}

/// The description's owner is this one, or nobody.
fn own(kernel: &mut Kernel, held: Held, owner: Option<RealPid>)
    requires there { map.get kernel.old.book.descriptions held.desc ≡ Some held.description }
    ensures { (g : Given) (k : PlainKernel) → Stands g None kernel.old k → IsKnown g.virts owner
        → Stands g None kernel.new (rows.with_owner k (seen_held g kernel.old held) (number_of g.virts 0 owner)) }
{
    kernel.book.set_owner(held.desc, owner);
}

/// The real number of the owner, 0 where there is none.
fn owner_number(held: Held) -> Attempt
    ensures { result ≡ Gives (owner_value held.description.owner) }
{
    match held.description.owner {
        None => Attempt::Gives(0),
        Some(owner) => Attempt::Gives(owner.pid),
    }
}
