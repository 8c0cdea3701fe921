//! The threads of a process end one by one, all but the last.
ghost use Rattle.std.specs.Prelude.{◌≡◌, ℕ, ◌≤◌, true, Some};
ghost use Rattle.std.specs.FinMap as map;
ghost use Rattle.sys_abi.specs.declared.identity.VPid.{VPid};
ghost use Rattle.plain_machine.specs.declared.kernel.PlainKernel.{PlainKernel};
ghost use Rattle.plain_machine.specs.Kernel.{has_thread, is_live, thread_count};
ghost use Rattle.host_tables.specs.Numbers.{real};
ghost use Rattle.wrap_names.specs.Wrapping.{IsWrapped};
ghost use Rattle.wrap_ends.specs.Ending.{EndsAs, EndsOne, EndsThread, without_thread};

use host_tables::System;
use sys_abi::{RealPid, VPid};
use virt_ids::Ids;
use wrap_names::exit_thread;

/// How many threads a process has at most.
const THREAD_LIMIT: u32 = 64;

/// All threads of the process but one end, with their pairs.
pub(crate) fn end_threads(system: &mut System, p: VPid, who: RealPid)
    ensures { (k : PlainKernel) (next_id : ℕ) → IsWrapped system.old next_id k
        → map.get system.old.ids.pids p.0 ≡ Some who → is_live k p ≡ true
        → EndsAs system.new next_id k p who (λ kernel. thread_count kernel p ≤ 1) }
{
    for _ in 0..=THREAD_LIMIT {
        if !end_one(system, p, who) {
            return;
        }
    }
}

/// A thread of the process ends, if it has several. Answers whether it had.
fn end_one(system: &mut System, p: VPid, who: RealPid) -> bool
    ensures { (k : PlainKernel) (next_id : ℕ) → IsWrapped system.old next_id k
        → map.get system.old.ids.pids p.0 ≡ Some who → is_live k p ≡ true
        → EndsOne system.new next_id k p who result }
{
    let Some(thread) = system.kernel.procs.next_real_thread(who, 0) else {
        return false;
    };
    end_thread(system, p, who, thread)
}

/// The thread ends, unless it is its process's last, and its pair goes unless it has its process's number.
/// Answers whether it has ended.
pub(crate) fn end_thread(system: &mut System, p: VPid, who: RealPid, thread: u32) -> bool
    ensures { (k : PlainKernel) (next_id t : ℕ) → IsWrapped system.old next_id k
        → map.get system.old.ids.pids p.0 ≡ Some who → is_live k p ≡ true
        → map.get system.old.ids.pids t ≡ Some (real who.node thread) → has_thread k p t ≡ true
        → EndsThread system.old system.new next_id k p who t result }
{
    if !exit_thread(&mut system.kernel, who, thread) {
        return false;
    }
    forget_thread(&mut system.ids, p, who, thread);
    true
}

/// The pair of a thread goes, unless it has its process's number.
pub(crate) fn forget_thread(ids: &mut Ids, p: VPid, who: RealPid, thread: u32)
    ensures { (t : ℕ) → map.get ids.old.pids t ≡ Some (real who.node thread)
        → ids.new ≡ without_thread ids.old p.0 t }
{
    ids.whole();
    let Ok(number) = ids.virt_pid(RealPid {
        node: who.node,
        pid: thread,
    }) else {
        return;
    };
    if number == p.0 {
        return;
    }
    ids.drop_pid(number);
}
