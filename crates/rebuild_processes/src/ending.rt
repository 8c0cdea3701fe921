//! A process that has ended and was not waited for (`man 2 exit`, `man 2 wait4`).
ghost use Rattle.std.specs.Prelude.{◌≡◌, ◌≢◌, Some, None, true};
ghost use Rattle.std.specs.FinMap as map;
ghost use Rattle.proc_book.specs.Processes.{zombie};
ghost use Rattle.proc_book.specs.Ends.{is_live_at};
ghost use Rattle.proc_book.specs.Procs.{pending_of};
ghost use Rattle.proc_book.specs.Waits.{IsChildless};
ghost use Rattle.virt_ids.specs.Changes.{at_key};
ghost use Rattle.rebuild_processes.specs.Making.{IsLiveChild};

use proc_book::Procs;
use sys_abi::signals::{SIGCHLD, has_signal};
use sys_abi::{RealPid, Signal};

/// Ends a process that has no child, so that its live parent can wait for it. The parent's pending signals,
/// to which an end adds one, are as before.
pub(crate) fn leave_zombie(procs: &mut Procs, r: RealPid, parent: RealPid, status: u32)
    requires child { IsLiveChild procs.old.processes r parent }
    requires childless { IsChildless procs.old.processes r }
    requires apart { parent ≢ r }
    requires lives { is_live_at procs.old.processes parent ≡ true }
    requires none { pending_of (Some 0) (map.get procs.old.processes parent) ≡ 0 }
    ensures { procs.new ≡ record procs.old { processes = at_key procs.old.processes r (zombie status) } }
{
    let had = has_signal(procs.pending_of(parent, None), Signal(SIGCHLD));
    procs.end_process(r, status);
    if !had {
        let _ = procs.take(parent, 0, Signal(SIGCHLD));
    }
}
