ghost use Rattle.std.specs.Prelude.{◌≡◌, IfOk};
ghost use Rattle.plain_process.specs.Attempts.{Gives};
ghost use Rattle.plain_machine.specs.Answers.{RowTold, KeepsUnlessGives};
ghost use Rattle.plain_machine.specs.Rows.Wait as rows;

use plain_machine::{PlainKernel, Waiting};
use plain_tables::answer::{Answer, Attempt, RowResult};
use std::alloc::Global;
use sys_abi::errors::{ECHILD, EINVAL};
use sys_abi::{Reply, VPid};
use views::list_of::ListOf;

/// The number that stands for any child: -1.
const ANY_CHILD: u32 = 0xFFFF_FFFF;

/// The option to answer at once.
const WNOHANG: u32 = 1;

/// wait4 (`man 2 wait4`): the least child of those asked for that has ended is gone, and its status is told.
#[tactic(auto, unfolding(plain_machine::specs::Rows::Wait::wait4_row, plain_process::specs::Attempts::and_then, plain_process::specs::Attempts::need))]
pub fn wait4(
    kernel: &mut PlainKernel,
    alloc: Global,
    p: VPid,
    number: u32,
    options: u32,
    usage: u32,
) -> RowResult
    ensures row { IfOk result (RowTold (rows.wait4_row kernel.old p number options usage) kernel.new) }
    ensures kept { IfOk result (λ attempt. KeepsUnlessGives attempt kernel.old kernel.new) }
{
    if !may_be_asked(number, options, usage) {
        return Ok(Attempt::fails(EINVAL));
    }
    let found = kernel.wait_for(p, child_of_number(number));
    wait4_by(kernel, alloc, options, found)
}

fn wait4_by(kernel: &mut PlainKernel, alloc: Global, options: u32, found: Waiting) -> RowResult
    ensures row { IfOk result (RowTold (rows.wait4_by kernel.old options found) kernel.new) }
    ensures kept { IfOk result (λ attempt. KeepsUnlessGives attempt kernel.old kernel.new) }
{
    match found {
        Waiting::NoChild => Ok(Attempt::fails(ECHILD)),
        Waiting::NotReady if options == WNOHANG => Ok(Attempt::value(alloc, 0)),
        Waiting::NotReady => Ok(Attempt::NotReady),
        Waiting::Ended(q, status) => reap(kernel, alloc, q, status),
    }
}

/// A child that has ended is gone.
fn reap(kernel: &mut PlainKernel, alloc: Global, q: VPid, status: u32) -> RowResult
    ensures row { IfOk result (RowTold (Gives (rows.reaped kernel.old q status)) kernel.new) }
    ensures kept { IfOk result (λ attempt. KeepsUnlessGives attempt kernel.old kernel.new) }
{
    let mut bytes = Vec::new(alloc);
    bytes.extend_from_slice(&status.to_le_bytes())?;
    kernel.processes.remove(q);
    kernel.makers.remove(q);
    Ok(Attempt::Gives(Answer {
        reply: Reply::Value(q.0),
        bytes: ListOf::from_vec(bytes),
        is_shown: false,
    }))
}

/// Whether a wait4 doesn't wait.
#[tactic(auto, unfolding(plain_machine::specs::Rows::Wait::is_wait4_ready))]
pub fn is_wait4_ready(kernel: &PlainKernel, p: VPid, number: u32, options: u32, usage: u32) -> bool
    ensures { result ≡ rows.is_wait4_ready kernel.now p number options usage }
{
    !may_be_asked(number, options, usage)
        || options == WNOHANG
        || kernel.wait_for(p, child_of_number(number)).is_answered()
}

fn may_be_asked(number: u32, options: u32, usage: u32) -> bool
    ensures { result ≡ rows.may_be_asked number options usage }
{
    usage == 0
        && options <= WNOHANG
        && (number == ANY_CHILD || (1 <= number && number < 0x8000_0000))
}

/// The child of which a wait speaks, or none for any.
fn child_of_number(number: u32) -> Option<VPid>
    ensures { result ≡ rows.child_of_number number }
{
    if number == ANY_CHILD {
        None
    } else {
        Some(VPid(number))
    }
}
