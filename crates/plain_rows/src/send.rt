ghost use Rattle.std.specs.Prelude.{◌≡◌};
ghost use Rattle.plain_machine.specs.Rows.Send as rows;
ghost use Rattle.plain_machine.specs.Answers.{RowTold, KeepsUnlessGives};

use plain_machine::PlainKernel;
use plain_tables::answer::Attempt;
use std::alloc::Global;
use sys_abi::errors::{EINVAL, ESRCH};
use sys_abi::{Signal, Tid, VPid};

/// kill (`man 2 kill`). Takes no memory.
#[tactic(auto, unfolding(plain_machine::specs::Rows::Send::kill_row, plain_process::specs::Attempts::and_then, plain_process::specs::Attempts::need))]
pub(crate) fn kill(kernel: &mut PlainKernel, alloc: Global, p: VPid, number: u32, s: u32) -> Attempt
    ensures row { RowTold (rows.kill_row kernel.old p number s) kernel.new result }
    ensures kept { KeepsUnlessGives result kernel.old kernel.new }
{
    if !is_above_zero(number) || !may_be_sent(s) {
        return Attempt::fails(EINVAL);
    }
    if !kernel.is_neighbour(p, number) {
        return Attempt::fails(ESRCH);
    }
    kernel.raise_for_all(VPid(number), Signal(s));
    Attempt::value(alloc, 0)
}

/// tgkill (`man 2 tgkill`). Takes no memory.
#[tactic(auto, unfolding(plain_machine::specs::Rows::Send::tgkill_row, plain_process::specs::Attempts::and_then, plain_process::specs::Attempts::need))]
pub(crate) fn tgkill(
    kernel: &mut PlainKernel,
    alloc: Global,
    p: VPid,
    number: u32,
    t: u32,
    s: u32,
) -> Attempt
    ensures row { RowTold (rows.tgkill_row kernel.old p number t s) kernel.new result }
    ensures kept { KeepsUnlessGives result kernel.old kernel.new }
{
    if !is_above_zero(number) || !may_be_sent(s) {
        return Attempt::fails(EINVAL);
    }
    if !kernel.is_neighbour(p, number) || !kernel.has_thread(VPid(number), t) {
        return Attempt::fails(ESRCH);
    }
    kernel.raise(VPid(number), Tid(t), Signal(s));
    Attempt::value(alloc, 0)
}

/// Whether it is above zero as a signed number.
fn is_above_zero(number: u32) -> bool
    ensures { result ≡ rows.is_above_zero number }
{
    1 <= number && number < 0x8000_0000
}

/// Whether a call can send it: no signal that stops or goes on can be sent.
fn may_be_sent(s: u32) -> bool
    ensures { result ≡ rows.may_be_sent s }
{
    s <= 31 && !(18 <= s && s <= 22)
}
