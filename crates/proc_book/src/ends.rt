//! The end of a process.
ghost use Rattle.std.specs.Prelude.{◌≡◌, not};
ghost use Rattle.views.specs.Maps.{map_values, retain};
ghost use Rattle.virt_ids.specs.Changes.{at_key};
ghost use Rattle.proc_book.specs.Processes as process;
ghost use Rattle.proc_book.specs.Ends as words;

use crate::process::Process;
use std::alloc::Global;
use virt_ids::ByRealPid;
use virt_ids::sys_abi::signals::SIGCHLD;
use virt_ids::sys_abi::{RealPid, Signal};

pub(crate) fn is_live_at(processes: &ByRealPid<Process>, p: RealPid) -> bool
    ensures { result ≡ words.is_live_at processes.now p }
{
    match processes.get(p) {
        None => false,
        Some(process) => process.is_live(),
    }
}

/// Makes the signal pending for a process, or for this thread of it, if it is there.
pub(crate) fn raise_at(processes: &mut ByRealPid<Process>, p: RealPid, t: Option<u32>, s: Signal)
    ensures { processes.new ≡ at_key processes.old p (process.raised t s.0) }
{
    if let Some(process) = processes.get_mut(p) {
        process.raise(t, s);
    }
}

fn make_zombie(processes: &mut ByRealPid<Process>, alloc: Global, p: RealPid, status: u32)
    ensures { processes.new ≡ at_key processes.old p (process.zombie status) }
{
    if let Some(process) = processes.get_mut(p) {
        process.end(alloc, status);
    }
}

/// Drops the zombies among the children of a process.
fn drop_zombies_of(processes: &mut ByRealPid<Process>, p: RealPid)
    ensures { processes.new ≡ retain (λ r process. not (words.is_zombie_child p process)) processes.old }
{
    processes.retain_values(|_, process| !process.is_zombie_child_of(p));
}

/// Leaves the children of a process without a parent.
fn orphan_children_of(processes: &mut ByRealPid<Process>, p: RealPid)
    ensures { processes.new ≡ map_values (words.orphan p) processes.old }
{
    processes.retain_values(|_, process| process.orphan(p));
}

fn orphan(processes: &mut ByRealPid<Process>, p: RealPid)
    ensures { processes.new ≡ words.orphaned p processes.old }
{
    drop_zombies_of(processes, p);
    orphan_children_of(processes, p);
}

/// Leaves the process as a zombie for its live parent, which gets a signal; without one it is gone.
fn leave(
    processes: &mut ByRealPid<Process>,
    alloc: Global,
    p: RealPid,
    status: u32,
    parent: Option<RealPid>,
)
    ensures { processes.new ≡ words.left_by p status parent processes.old }
{
    let Some(parent) = parent else {
        processes.remove(p);
        return;
    };
    if !is_live_at(processes, parent) {
        processes.remove(p);
        return;
    }
    raise_at(processes, parent, None, Signal(SIGCHLD));
    make_zombie(processes, alloc, p, status);
}

/// The process ends, if it lives.
pub(crate) fn end(processes: &mut ByRealPid<Process>, alloc: Global, p: RealPid, status: u32)
    ensures { processes.new ≡ words.after_end processes.old p status }
{
    let Some(process) = processes.get(p) else {
        return;
    };
    if !process.is_live() {
        return;
    }
    let parent = process.parent;
    orphan(processes, p);
    leave(processes, alloc, p, status, parent);
}
