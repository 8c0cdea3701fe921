//! Sets of pending signals made again (`man 7 signal`).
ghost use Rattle.std.specs.Prelude.{◌≡◌, ◌<◌, ◌^◌, true};
ghost use Rattle.std.specs.FinMap as map;
ghost use Rattle.virt_ids.specs.Changes.{at_key};
ghost use Rattle.proc_book.specs.Procs.{can_raise, pending_of};
ghost use Rattle.rebuild_processes.specs.Making.{with_set};

use proc_book::Procs;
use sys_abi::signals::has_signal;
use sys_abi::{RealPid, Signal};

/// Makes each signal of the set pending for a process that lives, or for this thread of it, for which none is.
pub(crate) fn raise_set(procs: &mut Procs, r: RealPid, t: Option<u32>, set: u32)
    requires small { set < 2 ^ 31 }
    requires alive { can_raise procs.old.processes r t ≡ true }
    requires none { pending_of t (map.get procs.old.processes r) ≡ 0 }
    ensures { procs.new ≡ record procs.old { processes = at_key procs.old.processes r (with_set t set) } }
{
    for s in 1..32 {
        if has_signal(set, Signal(s)) {
            let _ = procs.raise(r, t, Signal(s));
        }
    }
}
