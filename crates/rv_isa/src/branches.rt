ghost use Rattle.std.specs.Prelude.{◌≡◌, ◌≢◌, ℕ, ◌<◌};
ghost use Rattle.plain_process.specs.Instructions.{jumps, branches};
ghost use Rattle.plain_process.specs.Memory.{Memory};
ghost use Rattle.rv_isa.specs.Outcomes.{IsOutcome, KeepsUnlessNext};

use crate::outcome::Outcome;
use crate::registers::{pass, write};
use plain_process::Regs;
use sys_abi::Signal;

/// The signal of a jump to an address that is no multiple of 4: SIGBUS (`man 7 signal`).
pub const MISALIGNED: Signal = Signal(7);

/// JAL, JALR: goes to `target`, with the address of the next instruction in register `rd`.
#[inline]
pub fn jump(regs: &mut Regs, rd: u8, target: u32) -> Outcome
    ensures outcome { (memory : Memory) → IsOutcome result (jumps regs.old memory rd target) regs.new memory }
    ensures stays { KeepsUnlessNext result regs.old regs.new }
    ensures no_want { result ≢ Outcome.Memory }
{
    if target % 4 != 0 {
        return Outcome::Trap(MISALIGNED);
    }
    let link = regs.pc.wrapping_add(4);
    write(regs, rd, link);
    regs.pc = target;
    Outcome::Next
}

/// A branch to `target`, where it is taken.
#[inline]
pub fn branch(regs: &mut Regs, is_taken: bool, target: u32) -> Outcome
    ensures outcome { (memory : Memory) → IsOutcome result (branches regs.old memory is_taken target) regs.new memory }
    ensures stays { KeepsUnlessNext result regs.old regs.new }
    ensures no_want { result ≢ Outcome.Memory }
{
    if !is_taken {
        return pass(regs);
    }
    if target % 4 != 0 {
        return Outcome::Trap(MISALIGNED);
    }
    regs.pc = target;
    Outcome::Next
}
