//! The end of a process (`man 2 exit`).
ghost use Rattle.std.specs.Prelude.{◌≡◌, ℕ, ◌<◌, ◌≤◌, ◌^◌, true, Some};
ghost use Rattle.std.specs.FinMap as map;
ghost use Rattle.sys_abi.specs.declared.identity.VPid.{VPid};
ghost use Rattle.plain_machine.specs.declared.kernel.PlainKernel.{PlainKernel};
ghost use Rattle.plain_machine.specs.Ends.{after_end};
ghost use Rattle.plain_machine.specs.Kernel.{is_live, thread_count};
ghost use Rattle.plain_machine.specs.Kernels.{IsKernel};
ghost use Rattle.wrap_names.specs.OfHostProcesses.Leaves.{after_leave};
ghost use Rattle.wrap_names.specs.Wrapping.{IsWrapped};
ghost use Rattle.wrap_ends.specs.Ending.{HasNoZombie};

use crate::closing::close_all;
use crate::reaping::reap_all;
use crate::threads::{end_threads, forget_thread};
use host_tables::System;
use sys_abi::{RealPid, VPid};
use wrap_names::leave;
use wrap_names::stood::Stood;

/// Ends a process: its descriptors close, what it owned has no owner, its children have no parent and its
/// zombies are gone; then it is a zombie with this status, of which its live parent hears, or it is gone.
/// Takes no memory.
pub fn end_process(system: &mut System, stood: &Stood, next_id: u32, p: VPid, status: u32)
    requires wrapped { IsWrapped system.old next_id stood.now.kernel }
    requires alive { is_live stood.now.kernel p ≡ true }
    ensures { IsWrapped system.new next_id (after_end stood.now.kernel p status) }
{
    let _ = stood;
    let _ = next_id;
    let Ok(who) = system.ids.real_pid(p.0) else {
        unreachable!();
    };
    end(system, p, who, status);
}

/// The end of a process with this real number.
pub(crate) fn end(system: &mut System, p: VPid, who: RealPid, status: u32)
    ensures { (k : PlainKernel) (next_id : ℕ) → IsWrapped system.old next_id k
        → map.get system.old.ids.pids p.0 ≡ Some who → is_live k p ≡ true
        → IsWrapped system.new next_id (after_end k p status) }
{
    close_all(system, who);
    end_threads(system, p, who);
    reap_all(system, who);
    leave_alone(system, p, who, status);
}

/// The process leaves, that has one thread and neither descriptors nor zombies.
fn leave_alone(system: &mut System, p: VPid, who: RealPid, status: u32)
    ensures { (k : PlainKernel) (next_id : ℕ) → IsWrapped system.old next_id k
        → map.get system.old.ids.pids p.0 ≡ Some who → is_live k p ≡ true
        → thread_count k p ≤ 1 → HasNoZombie k p → IsKernel (after_leave k p status)
        → IsWrapped system.new next_id (after_leave k p status) }
{
    let Some(last) = system.kernel.procs.next_real_thread(who, 0) else {
        return;
    };
    leave(&mut system.kernel, who, status);
    forget_thread(&mut system.ids, p, who, last);
    if system.kernel.procs.status(who).is_some() {
        return;
    }
    system.conns.drop_maker(p);
    system.ids.drop_pid(p.0);
}
