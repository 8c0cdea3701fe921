//! A process, or a thread of one, under the next number of its node.
ghost use Rattle.std.specs.Prelude.{◌≡◌, ◌<◌, ◌^◌, true, length, IfOk};
ghost use Rattle.std.specs.FinMap as map;
ghost use Rattle.proc_book.specs.Ends.{is_live_at};
ghost use Rattle.proc_book.specs.Procs.{next_of};
ghost use Rattle.rebuild_processes.specs.Steps.{HasBegun, HasThread};

use crate::numbered::Numbered;
use std::alloc::AllocError;
use sys_abi::{RealPid, VPid};
use virt_ids::Ids;

/// The real number of a parent, None where nobody waits for its child.
pub(crate) fn parent_of(ids: &Ids, parent: u32) -> Option<RealPid>
    ensures { result ≡ map.get ids.now.pids parent }
{
    match ids.real_pid(parent) {
        Ok(r) => Some(r),
        Err(_) => None,
    }
}

/// Starts a process on the node, with one thread of its own number, and pairs the number.
pub(crate) fn begin(
    m: &mut Numbered,
    node: u32,
    p: VPid,
    parent: u32,
) -> Result<RealPid, AllocError>
    requires node { node < length m.old.procs.next }
    requires left { next_of m.old.procs node < 2 ^ 32 }
    ensures { IfOk result (λ r. HasBegun node p.0 parent r m.old m.new) }
{
    let parent = parent_of(&m.ids, parent);
    let Ok(r) = m.procs.start(node, parent) else {
        return Err(AllocError);
    };
    let Ok(()) = m.ids.add_pid(p.0, r) else {
        return Err(AllocError);
    };
    Ok(r)
}

/// Adds a thread of this number to a process that lives. Answers its real number.
pub(crate) fn begin_thread(m: &mut Numbered, r: RealPid, t: u32) -> Result<u32, AllocError>
    requires node { r.node < length m.old.procs.next }
    requires left { next_of m.old.procs r.node < 2 ^ 32 }
    requires lives { is_live_at m.old.procs.processes r ≡ true }
    ensures { IfOk result (λ n. HasThread r t n m.old m.new) }
{
    let Ok(pid) = m.procs.add_thread(r) else {
        return Err(AllocError);
    };
    let Ok(()) = m.ids.add_pid(t, RealPid { node: r.node, pid }) else {
        return Err(AllocError);
    };
    Ok(pid)
}
