//! A write that nobody will read.
ghost use Rattle.std.specs.Prelude.{◌≡◌, List, Some};
ghost use Rattle.std.specs.FinMap as map;
ghost use Rattle.views.specs.Numbers.{ThreadNumber, Byte};
ghost use Rattle.plain_machine.specs.Transfers.Answers as words;
ghost use Rattle.host_processes.specs.OfHostTables.Conditions.{IsAsking};
ghost use Rattle.host_processes.specs.OfHostTables.Numbers.{real};
ghost use Rattle.host_processes.specs.OfHostTables.Serves.{Through, Serves, ByNumber, same};

use host_processes::{Attempt, Kernel};
use sys_abi::errors::EPIPE;
use sys_abi::signals::SIGPIPE;
use sys_abi::{Errno, RealPid, Signal};

/// EPIPE, and its signal is pending for the thread (`man 2 write`). Takes no memory.
pub fn broken_pipe(kernel: &mut Kernel, who: RealPid, thread: u32) -> Attempt
    requires { IsAsking kernel.old.procs who thread }
    ensures row { Through kernel.old who (λ g k p. (t : ThreadNumber) (x : List Byte)
        → map.get g.pids t ≡ Some (real who.node thread)
        → Serves ByNumber same g kernel.old kernel.new x x result (words.broken_pipe k p t)) }
    ensures nodes { kernel.new.net.nodes ≡ kernel.old.net.nodes }
    ensures next { kernel.new.procs.next ≡ kernel.old.procs.next }
{
    let _ = kernel.procs.raise(who, Some(thread), Signal(SIGPIPE));
    Attempt::Fails(Errno(EPIPE))
}
