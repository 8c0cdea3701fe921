//! The end of a thread, and of a process with all its threads (`man 2 exit`, `man 2 exit_group`).
ghost use Rattle.std.specs.Prelude.{◌≡◌, true, Some, List};
ghost use Rattle.std.specs.FinMap as map;
ghost use Rattle.views.specs.Numbers.{Byte, ThreadNumber};
ghost use Rattle.proc_book.specs.Ends.{is_live_at};
ghost use Rattle.plain_machine.specs.Rows.End as rows;
ghost use Rattle.host_descriptors.specs.OfHostTables.Numbers.{real};
ghost use Rattle.host_descriptors.specs.OfHostTables.Serves.{Through, Serves, ByNumber, same};

use crate::exit_thread;
use crate::process_ends::end_process;
use host_descriptors::{Attempt, Kernel};
use plain_machine::end::exit_status;
use sys_abi::RealPid;

/// exit_group (`man 2 exit_group`). Takes no memory.
pub fn exit_group(kernel: &mut Kernel, who: RealPid, code: u32) -> Attempt
    requires alive { is_live_at kernel.old.procs.processes who ≡ true }
    ensures { Through kernel.old who (λ g k p. (x : List Byte)
        → Serves ByNumber same g kernel.old kernel.new x x result (rows.exit_group_row k p code)) }
{
    end_process(kernel, who, exit_status(code));
    Attempt::Gives(0)
}

/// exit (`man 2 exit`): the thread ends, and the last one takes its process with it. Takes no memory.
pub fn exit(kernel: &mut Kernel, who: RealPid, thread: u32, code: u32) -> Attempt
    requires alive { is_live_at kernel.old.procs.processes who ≡ true }
    ensures { Through kernel.old who (λ g k p. (t : ThreadNumber) (x : List Byte)
        → map.get g.pids t ≡ Some (real who.node thread)
        → Serves ByNumber same g kernel.old kernel.new x x result (rows.exit_row k p t code)) }
{
    if exit_thread(kernel, who, thread) {
        return Attempt::Gives(0);
    }
    exit_group(kernel, who, code)
}
