ghost use Rattle.std.specs.Prelude.{IfOk};
ghost use Rattle.plain_machine.specs.Rows.Counters as rows;
ghost use Rattle.plain_machine.specs.Answers.{RowTold, KeepsUnlessGives};

use crate::made::{are_making_flags, has_cloexec, status_flags};
use plain_machine::PlainKernel;
use plain_tables::Object;
use plain_tables::answer::{Attempt, RowResult};
use std::alloc::Global;
use sys_abi::errors::{EINVAL, EMFILE, ENFILE};
use sys_abi::flags::O_RDWR;
use sys_abi::{DescId, Descriptor, VPid};

/// eventfd2 (`man 2 eventfd`).
#[tactic(auto, unfolding(plain_machine::specs::Rows::Counters::eventfd2_row, plain_process::specs::Attempts::and_then, plain_process::specs::Attempts::need, plain_process::specs::Attempts::found))]
pub fn eventfd2(
    kernel: &mut PlainKernel,
    alloc: Global,
    p: VPid,
    value: u32,
    flags: u32,
) -> RowResult
    ensures row { IfOk result (RowTold (rows.eventfd2_row kernel.old p value flags) kernel.new) }
    ensures kept { IfOk result (λ attempt. KeepsUnlessGives attempt kernel.old kernel.new) }
{
    if !are_making_flags(flags) {
        return Ok(Attempt::fails(EINVAL));
    }
    if !kernel.has_numbers(p) {
        return Ok(Attempt::fails(ENFILE));
    }
    let Some(fd) = kernel.free_from(p, 0) else {
        return Ok(Attempt::fails(EMFILE));
    };
    let num = kernel.made_of(p);
    let descriptor = Descriptor {
        desc: DescId { pid: p, num },
        cloexec: has_cloexec(flags),
    };
    let object = Object::Counter {
        value: value as u64,
    };
    kernel.count_made(p, 1)?;
    kernel.place(p, fd, descriptor, object, status_flags(O_RDWR, flags))?;
    Ok(Attempt::value(alloc, fd))
}
