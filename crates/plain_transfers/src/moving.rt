//! What reads and writes have in common: who may, what they answer, and a pipe that is broken.
ghost use Rattle.std.specs.Prelude.{◌≡◌, ◌≤◌, ◌-◌, false, length, min, IfOk, OnOk};
ghost use Rattle.sys_abi.specs.declared.reply.Reply.TheVariants.{Value};
ghost use Rattle.sys_abi.specs.declared.transfer.TheConstants.{TRANSFER_LIMIT};
ghost use Rattle.sys_abi.specs.declared.flags.TheConstants.{O_NONBLOCK};
ghost use Rattle.sys_abi.specs.Flags.{has_flag};
ghost use Rattle.plain_machine.specs.OfPlainTables.Tables.{changed_at, raised_at};
ghost use Rattle.plain_machine.specs.OfPlainTables.declared.answer.Attempt.TheVariants as an_attempt;
ghost use Rattle.plain_machine.specs.Answers.{RowTold, KeepsUnlessGives};
ghost use Rattle.plain_machine.specs.Kernel.{after_raise};
ghost use Rattle.plain_machine.specs.Transfers.Answers as words;

use id_maps::ByPid;
use plain_machine::PlainKernel;
use plain_machine::plain_tables::answer::{Answer, Attempt, RowResult};
use plain_machine::plain_tables::{Description, Process};
use std::alloc::{AllocError, Global};
use sys_abi::errors::EPIPE;
use sys_abi::flags::O_NONBLOCK;
use sys_abi::signals::{SIGPIPE, with_signal};
use sys_abi::transfer::TRANSFER_LIMIT;
use sys_abi::{Errno, Reply, Signal, Tid, VPid};
use views::list_of::ListOf;

/// How many bytes a call that asks for so many moves at most.
pub fn limited(count: u32) -> u32
    ensures { result ≡ min count TRANSFER_LIMIT }
{
    count.min(TRANSFER_LIMIT as u32)
}

/// The side across: 1 for side 0.
pub fn across(side: u8) -> u8
    ensures { result ≡ 1 - side }
{
    if side == 0 { 1 } else { 0 }
}

/// Whether the description's access mode lets it be read from (`man 2 open`).
pub fn may_read(description: &Description) -> bool
    ensures { result ≡ words.may_read description.now.flags }
{
    description.flags % 4 == 0 || description.flags % 4 == 2
}

/// Whether a call on the description fails in place of waiting (`man 2 open`).
pub fn is_nonblocking(description: &Description) -> bool
    ensures { result ≡ has_flag description.now.flags O_NONBLOCK }
{
    description.flags / O_NONBLOCK % 2 == 1
}

/// A read that gives these bytes, and answers how many they are.
pub fn gift(bytes: ListOf<u8>) -> Attempt
    requires { length bytes ≤ TRANSFER_LIMIT }
    ensures { result ≡ an_attempt.Gives (record { reply = Value (length bytes); bytes = bytes; is_shown = false }) }
{
    Attempt::Gives(Answer {
        reply: Reply::Value(bytes.len() as u32),
        bytes,
        is_shown: false,
    })
}

/// EPIPE, and its signal is pending for the thread. After want of memory the kernel part may be any.
#[tactic(auto, unfolding(plain_machine::specs::Kernel::after_raise))]
pub fn break_pipe(kernel: &mut PlainKernel, alloc: Global, p: VPid, t: Tid) -> RowResult
    ensures row { IfOk result (RowTold (words.broken_pipe kernel.old p t.0) kernel.new) }
    ensures kept { IfOk result (λ attempt. KeepsUnlessGives attempt kernel.old kernel.new) }
{
    raise_at(kernel, p, t, Signal(SIGPIPE))?;
    Ok(Attempt::Gives(Answer {
        reply: Reply::Error(Errno(EPIPE)),
        bytes: ListOf::new(alloc),
        is_shown: false,
    }))
}

fn raise_at(kernel: &mut PlainKernel, p: VPid, t: Tid, s: Signal) -> Result<(), AllocError>
    ensures { OnOk result (kernel.new ≡ record kernel.old { processes = changed_at kernel.old.processes p (raised_at t.0 s.0) }) }
{
    raise_in(&mut kernel.processes, p, t.0, s)
}

fn raise_in(processes: &mut ByPid<Process>, p: VPid, t: u32, s: Signal) -> Result<(), AllocError>
    ensures { OnOk result (processes.new ≡ changed_at processes.old p (raised_at t s.0)) }
{
    match processes.get_mut(p) {
        None => Ok(()),
        Some(process) => raise(process, t, s),
    }
}

fn raise(process: &mut Process, t: u32, s: Signal) -> Result<(), AllocError>
    ensures { OnOk result (process.new ≡ raised_at t s.0 process.old) }
{
    let signals = with_signal(process.signals_of(t), s);
    process.threads.insert(t, signals)?;
    Ok(())
}
