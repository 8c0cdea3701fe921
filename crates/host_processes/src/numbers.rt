//! The numbers of a process and of its parent (`man 2 getpid`).
ghost use Rattle.std.specs.Prelude.{◌≡◌, List};
ghost use Rattle.views.specs.Numbers.{Byte};
ghost use Rattle.plain_tables.specs.Tables.{NOBODY};
ghost use Rattle.plain_machine.specs.Rows.Numbers as rows;
ghost use Rattle.host_descriptors.specs.OfHostTables.declared.kernel.Kernel.{Kernel};
ghost use Rattle.host_descriptors.specs.OfHostTables.Serves.{Through, Serves, ByPid, ByPidOr, same};
ghost use Rattle.host_processes.specs.Parents.{parent_value};

use host_descriptors::{Attempt, Kernel};
use sys_abi::RealPid;

/// getpid (`man 2 getpid`).
pub fn getpid(who: RealPid) -> Attempt
    ensures { (kernel : Kernel) → Through kernel who (λ g k p. (x : List Byte)
        → Serves (ByPid who) same g kernel kernel x x result (rows.getpid_row k p)) }
{
    Attempt::Gives(who.pid)
}

/// getppid (`man 2 getppid`). Answers 0 where there is no parent.
pub fn getppid(kernel: &Kernel, who: RealPid) -> Attempt
    ensures { Through kernel.now who (λ g k p. (x : List Byte)
        → Serves (ByPidOr NOBODY who) same g kernel.now kernel.now x x result (rows.getppid_row k p)) }
{
    Attempt::Gives(number_of(kernel.procs.parent(who)))
}

/// The real number of a parent, 0 for nobody.
fn number_of(parent: Option<RealPid>) -> u32
    ensures { result ≡ parent_value parent }
{
    match parent {
        None => 0,
        Some(parent) => parent.pid,
    }
}
