ghost use Rattle.std.specs.Prelude.{◌≡◌, Some, IfOk, IsOk, if◌then◌else◌};
ghost use Rattle.plain_machine.specs.Answers.{RowTold, KeepsUnlessGives};
ghost use Rattle.plain_machine.specs.Attempts.{replied};
ghost use Rattle.plain_machine.specs.HeldTold.{held_of};
ghost use Rattle.plain_machine.specs.Kernel as words;
ghost use Rattle.plain_machine.specs.Rows.Descriptors as rows;

use plain_machine::PlainKernel;
use plain_machine::descriptors::Held;
use plain_machine::end::DESCRIPTOR_LIMIT;
use plain_process::commands::FcntlCommand;
use plain_tables::answer::{Attempt, RowResult};
use plain_tables::description::Description;
use std::alloc::Global;
use sys_abi::errors::{EBADF, EINVAL, EMFILE, ESRCH};
use sys_abi::flags::O_CLOEXEC;
use sys_abi::{Descriptor, VPid};

/// dup (`man 2 dup`).
#[tactic(auto, unfolding(plain_machine::specs::Rows::Descriptors::dup_row, plain_process::specs::Attempts::and_then))]
pub fn dup(kernel: &mut PlainKernel, alloc: Global, p: VPid, fd: u32) -> RowResult
    ensures row { IfOk result (RowTold (rows.dup_row kernel.old p fd) kernel.new) }
    ensures kept { IfOk result (λ attempt. KeepsUnlessGives attempt kernel.old kernel.new) }
{
    match kernel.held_at(p, fd) {
        None => Ok(Attempt::fails(EBADF)),
        Some(held) => dup_from(kernel, alloc, p, held, 0, false),
    }
}

/// The free descriptor from a number on refers to the same description.
#[tactic(auto, unfolding(plain_process::specs::Attempts::and_then, plain_process::specs::Attempts::found))]
fn dup_from(
    kernel: &mut PlainKernel,
    alloc: Global,
    p: VPid,
    held: Held,
    from: u32,
    cloexec: bool,
) -> RowResult
    ensures row { IfOk result (RowTold (rows.dup_from kernel.old p (held_of held) from cloexec) kernel.new) }
    ensures kept { IfOk result (λ attempt. KeepsUnlessGives attempt kernel.old kernel.new) }
{
    let Some(fd) = kernel.free_from(p, from) else {
        return Ok(Attempt::fails(EMFILE));
    };
    let desc = held.0.desc;
    kernel.put_descriptor(p, fd, Descriptor { desc, cloexec })?;
    Ok(Attempt::value(alloc, fd))
}

/// dup3 (`man 2 dup`).
#[tactic(auto, unfolding(plain_machine::specs::Rows::Descriptors::dup3_row, plain_process::specs::Attempts::and_then, plain_process::specs::Attempts::need))]
pub fn dup3(
    kernel: &mut PlainKernel,
    alloc: Global,
    p: VPid,
    fd: u32,
    to: u32,
    flags: u32,
) -> RowResult
    ensures row { IfOk result (RowTold (rows.dup3_row kernel.old p fd to flags) kernel.new) }
    ensures kept { IfOk result (λ attempt. KeepsUnlessGives attempt kernel.old kernel.new) }
{
    let Some((descriptor, _)) = kernel.held_at(p, fd) else {
        return Ok(Attempt::fails(EBADF));
    };
    if to == fd || !is_cloexec_at_most(flags) {
        return Ok(Attempt::fails(EINVAL));
    }
    if to >= DESCRIPTOR_LIMIT {
        return Ok(Attempt::fails(EBADF));
    }
    kernel.close_descriptor(alloc, p, to);
    let desc = descriptor.desc;
    let cloexec = flags == O_CLOEXEC;
    kernel.put_descriptor(p, to, Descriptor { desc, cloexec })?;
    Ok(Attempt::value(alloc, to))
}

fn is_cloexec_at_most(flags: u32) -> bool
    ensures { result ≡ rows.is_cloexec_at_most flags }
{
    flags == 0 || flags == O_CLOEXEC
}

/// close (`man 2 close`). Takes no memory.
#[tactic(auto, unfolding(plain_machine::specs::Rows::Descriptors::close_row, plain_process::specs::Attempts::and_then))]
pub fn close(kernel: &mut PlainKernel, alloc: Global, p: VPid, fd: u32) -> RowResult
    ensures row { IfOk result (RowTold (rows.close_row kernel.old p fd) kernel.new) }
    ensures kept { IfOk result (λ attempt. KeepsUnlessGives attempt kernel.old kernel.new) }
    ensures memory { IsOk result }
{
    let Some(_) = kernel.held_at(p, fd) else {
        return Ok(Attempt::fails(EBADF));
    };
    kernel.close_descriptor(alloc, p, fd);
    Ok(Attempt::value(alloc, 0))
}

/// fcntl (`man 2 fcntl`).
#[tactic(auto, unfolding(plain_machine::specs::Rows::Descriptors::fcntl_row, plain_process::specs::Attempts::and_then))]
pub fn fcntl(
    kernel: &mut PlainKernel,
    alloc: Global,
    p: VPid,
    fd: u32,
    command: u32,
    argument: u32,
) -> RowResult
    ensures row { IfOk result (RowTold (rows.fcntl_row kernel.old p fd command argument) kernel.new) }
    ensures kept { IfOk result (λ attempt. KeepsUnlessGives attempt kernel.old kernel.new) }
{
    let Some(held) = kernel.held_at(p, fd) else {
        return Ok(Attempt::fails(EBADF));
    };
    let Some(command) = FcntlCommand::of(command) else {
        return Ok(Attempt::fails(EINVAL));
    };
    obey(kernel, alloc, p, fd, held, command, argument)
}

/// fcntl of a descriptor that is there: each arm is one command.
fn obey(
    kernel: &mut PlainKernel,
    alloc: Global,
    p: VPid,
    fd: u32,
    held: Held,
    command: FcntlCommand,
    argument: u32,
) -> RowResult
    ensures row { IfOk result (RowTold
        (rows.fcntl_by kernel.old p fd (held_of held) argument (Some command)) kernel.new) }
    ensures kept { IfOk result (λ attempt. KeepsUnlessGives attempt kernel.old kernel.new) }
{
    match command {
        FcntlCommand::DupFd => dup_above(kernel, alloc, p, held, argument, false),
        FcntlCommand::DupFdCloexec => dup_above(kernel, alloc, p, held, argument, true),
        FcntlCommand::GetFd => Ok(Attempt::value(alloc, bit(held.0.cloexec))),
        FcntlCommand::SetFd => mark(kernel, alloc, p, fd, held, argument % 2 == 1),
        FcntlCommand::GetFl => Ok(Attempt::value(alloc, held.1.flags)),
        FcntlCommand::SetFl => set_status(kernel, alloc, held, argument),
        FcntlCommand::SetOwn => set_owner(kernel, alloc, p, held, argument),
        FcntlCommand::GetOwn => Ok(Attempt::value(alloc, held.1.owner)),
    }
}

fn bit(is_set: bool) -> u32
    ensures { result ≡ (if is_set then 1 else 0) }
{
    if is_set { 1 } else { 0 }
}

/// The descriptor is closed by exec, or isn't.
fn mark(
    kernel: &mut PlainKernel,
    alloc: Global,
    p: VPid,
    fd: u32,
    held: Held,
    cloexec: bool,
) -> RowResult
    ensures row { IfOk result (RowTold
        (replied (words.with_descriptor kernel.old p fd (record { desc = held.0.desc; cloexec = cloexec })) 0)
        kernel.new) }
    ensures kept { IfOk result (λ attempt. KeepsUnlessGives attempt kernel.old kernel.new) }
{
    let desc = held.0.desc;
    kernel.put_descriptor(p, fd, Descriptor { desc, cloexec })?;
    Ok(Attempt::value(alloc, 0))
}

#[tactic(auto, unfolding(plain_machine::specs::Rows::Descriptors::dup_above, plain_process::specs::Attempts::and_then, plain_process::specs::Attempts::need))]
fn dup_above(
    kernel: &mut PlainKernel,
    alloc: Global,
    p: VPid,
    held: Held,
    argument: u32,
    cloexec: bool,
) -> RowResult
    ensures row { IfOk result (RowTold
        (rows.dup_above kernel.old p (held_of held) argument cloexec) kernel.new) }
    ensures kept { IfOk result (λ attempt. KeepsUnlessGives attempt kernel.old kernel.new) }
{
    if argument >= DESCRIPTOR_LIMIT {
        return Ok(Attempt::fails(EINVAL));
    }
    dup_from(kernel, alloc, p, held, argument, cloexec)
}

/// The flags with O_APPEND and O_NONBLOCK as the argument has them.
fn set_flags(flags: u32, argument: u32) -> u32
    ensures { result ≡ rows.set_flags flags argument }
{
    flags & (0xFFFF_FFFF - SETTABLE_FLAGS) | argument & SETTABLE_FLAGS
}

/// O_APPEND and O_NONBLOCK.
const SETTABLE_FLAGS: u32 = 0xC00;

fn set_status(kernel: &mut PlainKernel, alloc: Global, held: Held, argument: u32) -> RowResult
    ensures row { IfOk result (RowTold
        (replied (rows.with_flags kernel.old (held_of held) (rows.set_flags held.1.flags argument)) 0)
        kernel.new) }
    ensures kept { IfOk result (λ attempt. KeepsUnlessGives attempt kernel.old kernel.new) }
{
    let (descriptor, description) = held;
    let flags = set_flags(description.flags, argument);
    kernel.put_description(
        descriptor.desc,
        Description {
            flags,
            ..description
        },
    )?;
    Ok(Attempt::value(alloc, 0))
}

fn may_own(kernel: &PlainKernel, p: VPid, owner: u32) -> bool
    ensures { result ≡ rows.may_own kernel.now p owner }
{
    owner == 0 || kernel.is_neighbour(p, owner)
}

#[tactic(auto, unfolding(plain_machine::specs::Rows::Descriptors::set_owner, plain_process::specs::Attempts::and_then, plain_process::specs::Attempts::need))]
fn set_owner(kernel: &mut PlainKernel, alloc: Global, p: VPid, held: Held, owner: u32) -> RowResult
    ensures row { IfOk result (RowTold (rows.set_owner kernel.old p (held_of held) owner) kernel.new) }
    ensures kept { IfOk result (λ attempt. KeepsUnlessGives attempt kernel.old kernel.new) }
{
    if !may_own(kernel, p, owner) {
        return Ok(Attempt::fails(ESRCH));
    }
    let (descriptor, description) = held;
    kernel.put_description(
        descriptor.desc,
        Description {
            owner,
            ..description
        },
    )?;
    Ok(Attempt::value(alloc, 0))
}
