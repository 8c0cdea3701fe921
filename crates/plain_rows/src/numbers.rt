ghost use Rattle.std.specs.Prelude.{◌≡◌};
ghost use Rattle.std.specs.FinMap as map;
ghost use Rattle.plain_machine.specs.Rows.Numbers as rows;
ghost use Rattle.plain_machine.specs.Answers.{RowTold, KeepsUnlessGives};

use plain_machine::{NOBODY, PlainKernel};
use plain_tables::answer::Attempt;
use std::alloc::Global;
use sys_abi::VPid;

/// getpid (`man 2 getpid`). Takes no memory.
#[tactic(auto, unfolding(plain_machine::specs::Rows::Numbers::getpid_row))]
pub(crate) fn getpid(kernel: &mut PlainKernel, alloc: Global, p: VPid) -> Attempt
    ensures row { RowTold (rows.getpid_row kernel.old p) kernel.new result }
    ensures kept { KeepsUnlessGives result kernel.old kernel.new }
{
    Attempt::value(alloc, p.0)
}

/// getppid (`man 2 getppid`). Takes no memory.
#[tactic(auto, unfolding(plain_machine::specs::Rows::Numbers::getppid_row))]
pub(crate) fn getppid(kernel: &mut PlainKernel, alloc: Global, p: VPid) -> Attempt
    ensures row { RowTold (rows.getppid_row kernel.old p) kernel.new result }
    ensures kept { KeepsUnlessGives result kernel.old kernel.new }
{
    Attempt::value(alloc, parent(kernel, p))
}

/// The number of the process's parent, or nobody's where that has ended.
fn parent(kernel: &PlainKernel, p: VPid) -> u32
    ensures { result ≡ rows.parent_in kernel.now (map.get kernel.now.processes p) }
{
    let Some(process) = kernel.processes.get(p) else {
        return NOBODY;
    };
    if kernel.is_live(VPid(process.parent)) {
        process.parent
    } else {
        NOBODY
    }
}
