//! Whether a call waits of a process that has no real number. It has no descriptor, and no child but where it
//! is nobody: whose parent is nobody lives.
ghost use Rattle.std.specs.Prelude.{◌≡◌, Some, None, not};
ghost use Rattle.std.specs.FinMap as map;
ghost use Rattle.plain_machine.specs.declared.kernel.PlainKernel.{PlainKernel};
ghost use Rattle.plain_machine.specs.Rows.Wait as rows;
ghost use Rattle.plain_machine.specs.Serve as words;
ghost use Rattle.plain_tables.specs.Tables.{NOBODY as NO_PROCESS, pid};
ghost use Rattle.plain_tables.specs.Waits as waits;
ghost use Rattle.wrap_passing.specs.OfWrapNames.Wrapping.{IsWrapped};

use crate::living::has_life;
use call_table::Request;
use host_tables::System;
use sys_abi::VPid;

/// The parent of a process that nobody waits for.
const NOBODY: u32 = 1;

/// The number that stands for any child: -1.
const ANY_CHILD: u32 = 0xFFFF_FFFF;

/// The option to answer at once.
const WNOHANG: u32 = 1;

/// Whether a call of a process that has no real number doesn't wait.
pub(crate) fn is_stranger_ready(system: &System, p: VPid, request: &Request) -> bool
    requires { map.get system.now.ids.pids p.0 ≡ None }
    ensures { (k : PlainKernel) (next_id : _) → IsWrapped system.now next_id k → (t : _) (front : _)
        → result ≡ words.is_ready k p t request.now front }
{
    match *request {
        Request::Wait4 {
            pid,
            options,
            usage,
            ..
        } => is_wait_ready(system, p, pid, options, usage),
        _ => true,
    }
}

/// Whether a wait for a child of the process doesn't wait.
#[tactic(auto, unfolding(plain_machine::specs::Rows::Wait::is_wait4_ready))]
fn is_wait_ready(system: &System, p: VPid, number: u32, options: u32, usage: u32) -> bool
    requires { map.get system.now.ids.pids p.0 ≡ None }
    ensures { (k : PlainKernel) (next_id : _) → IsWrapped system.now next_id k
        → result ≡ rows.is_wait4_ready k p number options usage }
{
    if !may_be_asked(number, options, usage) || options == WNOHANG {
        return true;
    }
    is_told(system, p, number)
}

/// Whether a child that was asked for has ended, or none is there.
fn is_told(system: &System, p: VPid, number: u32) -> bool
    requires { map.get system.now.ids.pids p.0 ≡ None }
    ensures { (k : PlainKernel) (next_id : _) → IsWrapped system.now next_id k
        → result ≡ waits.is_answered (waits.wait_for k.processes p (rows.child_of_number number)) }
{
    if p.0 != NOBODY {
        return true;
    }
    if number == ANY_CHILD {
        return !has_life(system);
    }
    !is_orphan(system, number)
}

/// Whether the number is that of a live process for which nobody waits.
fn is_orphan(system: &System, number: u32) -> bool
    ensures { (k : PlainKernel) (next_id : _) → IsWrapped system.now next_id k
        → not result ≡ waits.is_answered (waits.wait_for k.processes (pid NO_PROCESS) (Some (pid number))) }
{
    let Ok(real) = system.ids.real_pid(number) else {
        return false;
    };
    if !system.kernel.procs.is_live(real) {
        return false;
    }
    system.kernel.procs.parent(real).is_none()
}

fn may_be_asked(number: u32, options: u32, usage: u32) -> bool
    ensures { result ≡ rows.may_be_asked number options usage }
{
    usage == 0
        && options <= WNOHANG
        && (number == ANY_CHILD || (1 <= number && number < 0x8000_0000))
}
