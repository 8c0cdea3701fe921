//! The end of a thread whose process goes on (`man 2 exit`).
ghost use Rattle.std.specs.Prelude.{◌≡◌, ℕ, nat_lt, true, false, Some, List};
ghost use Rattle.std.specs.FinMap as map;
ghost use Rattle.views.specs.Numbers.{Byte, ThreadNumber};
ghost use Rattle.proc_book.specs.Procs.{threads_at};
ghost use Rattle.plain_machine.specs.Rows.End as rows;
ghost use Rattle.host_descriptors.specs.OfHostTables.declared.attempt.Attempt.TheVariants.{Gives};
ghost use Rattle.host_descriptors.specs.OfHostTables.Numbers.{real};
ghost use Rattle.host_descriptors.specs.OfHostTables.Serves.{Through, Serves, ByNumber, same};

use host_descriptors::Kernel;
use sys_abi::RealPid;

/// exit (`man 2 exit`) of a thread whose process has others: the thread is gone, and the call gives 0.
/// Answers whether it has others. The last thread takes its process with it, and nothing is changed here for
/// it.
pub fn exit_thread(kernel: &mut Kernel, who: RealPid, thread: u32) -> bool
    ensures others { result ≡ nat_lt 1 (threads_at kernel.old.procs.processes who) }
    ensures row { result ≡ true → Through kernel.old who (λ g k p. (t : ThreadNumber) (code : ℕ)
        (x : List Byte) → map.get g.pids t ≡ Some (real who.node thread)
        → Serves ByNumber same g kernel.old kernel.new x x (Gives 0) (rows.exit_row k p t code)) }
    ensures kept { result ≡ false → kernel.new ≡ kernel.old }
{
    if kernel.procs.thread_count(who) <= 1 {
        return false;
    }
    kernel.procs.end_thread(who, thread);
    true
}
