ghost use Rattle.std.specs.Prelude.{};
ghost use Rattle.plain_machine.specs.Rows.End as rows;
ghost use Rattle.plain_machine.specs.Answers.{RowTold, KeepsUnlessGives};

use plain_machine::PlainKernel;
use plain_machine::end::exit_status;
use plain_tables::answer::Attempt;
use std::alloc::Global;
use sys_abi::{Tid, VPid};

/// exit_group (`man 2 exit_group`). Takes no memory.
#[tactic(auto, unfolding(plain_machine::specs::Rows::End::exit_group_row))]
pub fn exit_group(kernel: &mut PlainKernel, alloc: Global, p: VPid, code: u32) -> Attempt
    ensures row { RowTold (rows.exit_group_row kernel.old p code) kernel.new result }
    ensures kept { KeepsUnlessGives result kernel.old kernel.new }
{
    kernel.end_process(alloc, p, exit_status(code));
    Attempt::value(alloc, 0)
}

/// exit (`man 2 exit`): the thread ends, and the last one takes its process with it. Takes no memory.
#[tactic(auto, unfolding(plain_machine::specs::Rows::End::exit_row))]
pub fn exit(kernel: &mut PlainKernel, alloc: Global, p: VPid, t: Tid, code: u32) -> Attempt
    ensures row { RowTold (rows.exit_row kernel.old p t.0 code) kernel.new result }
    ensures kept { KeepsUnlessGives result kernel.old kernel.new }
{
    kernel.end_thread(alloc, p, t, exit_status(code));
    Attempt::value(alloc, 0)
}
