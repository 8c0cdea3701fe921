ghost use Rattle.std.specs.Prelude.{◌≡◌};
ghost use Rattle.plain_process.specs.Instructions.{effect};
ghost use Rattle.rv_isa.specs.Computing.{effect_of_computed};
ghost use Rattle.rv_isa.specs.Outcomes.{IsOutcome, KeepsUnlessNext};

use crate::accesses::{load, load_signed_byte, load_signed_half, store};
use crate::branches::{branch, jump};
use crate::computing::{Computed, compute};
use crate::outcome::Outcome;
use crate::registers::{pass, set};
use plain_process::{Insn, Regs};
use rv_words::GuestMemory;
use sys_abi::Signal;

/// The signal of EBREAK: SIGTRAP (`man 7 signal`).
pub const BREAKPOINT: Signal = Signal(5);

/// Does one instruction: registers and memory are then those of its effect, and the program counter stands at
/// the next one. A call, a trap and want of memory leave both as they were. An instruction that has no word
/// is done all the same.
#[inline]
pub fn exec<M: GuestMemory>(insn: Insn, regs: &mut Regs, memory: &mut M) -> Outcome
    ensures outcome { IsOutcome result (effect insn regs.old (M.memory memory.old)) regs.new (M.memory memory.new) }
    ensures stays { KeepsUnlessNext result regs.old regs.new }
    ensures memory_stays { KeepsUnlessNext result (M.memory memory.old) (M.memory memory.new) }
    ensures want { result ≡ Outcome.Memory → M.may_want memory.old }
{
    finish(compute(&insn, regs), regs, memory, insn.rd)
}

/// Does what was computed, with destination `rd`.
#[inline]
fn finish<M: GuestMemory>(computed: Computed, regs: &mut Regs, memory: &mut M, rd: u8) -> Outcome
    ensures outcome { IsOutcome result (effect_of_computed computed rd regs.old (M.memory memory.old)) regs.new
        (M.memory memory.new) }
    ensures stays { KeepsUnlessNext result regs.old regs.new }
    ensures memory_stays { KeepsUnlessNext result (M.memory memory.old) (M.memory memory.new) }
    ensures want { result ≡ Outcome.Memory → M.may_want memory.old }
{
    match computed {
        Computed::Value(value) => set(regs, rd, value),
        Computed::Jump(target) => jump(regs, rd, target),
        Computed::Branch { is_taken, target } => branch(regs, is_taken, target),
        Computed::SignedByte(address) => load_signed_byte(regs, memory, rd, address),
        Computed::SignedHalf(address) => load_signed_half(regs, memory, rd, address),
        Computed::Load { address, width } => load(regs, memory, rd, address, width.size()),
        Computed::Store {
            address,
            width,
            value,
        } => store(regs, memory, address, width.size(), value),
        Computed::Fence => pass(regs),
        Computed::Call => Outcome::Call,
        Computed::Break => Outcome::Trap(BREAKPOINT),
    }
}
