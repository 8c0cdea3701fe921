ghost use Rattle.std.specs.Prelude.{◌≡◌, ◌*◌, ◌≤◌, ◌⊎◌};
ghost use Rattle.plain_process.specs.Memory.{Memory, load, store};
ghost use Rattle.plain_process.specs.Registers as registers;
ghost use Rattle.plain_process.specs.Instructions as words;
ghost use Rattle.plain_steps.specs.Results.{effect_told, KeepsUnlessNext};

use crate::computing::{Computed, compute, size};
use crate::decoder::sign_extended;
use crate::effect::Effect;
use plain_memory::memory::{Denied, load, store};
use plain_memory::registers::{next_pc, set_reg};
use plain_process::instruction::Insn;
use plain_process::memory::Frame;
use plain_process::regs::Regs;
use sys_abi::Signal;
use views::number_map::NumberMap;

/// SIGTRAP (`man 7 signal`).
pub const BREAKPOINT: Signal = Signal(5);

/// SIGBUS.
pub const MISALIGNED: Signal = Signal(7);

/// SIGSEGV.
pub const FAULT: Signal = Signal(11);

/// Does one instruction. A call and a trap leave registers and memory as they were.
pub fn effect(insn: Insn, regs: &mut Regs, memory: &mut NumberMap<Frame>) -> Effect
    ensures effect { words.effect insn regs.old memory.old ≡ effect_told result regs.new memory.new }
    ensures regs { KeepsUnlessNext result regs.old regs.new }
    ensures memory { KeepsUnlessNext result memory.old memory.new }
{
    let rd = insn.rd;
    match compute(insn, regs) {
        Computed::Value(value) => writes(regs, rd, value),
        Computed::Jump(target) => jumps(regs, rd, target),
        Computed::Branch { is_taken, target } => branches(regs, is_taken, target),
        Computed::SignedByte(address) => loads_signed(regs, memory, rd, address, 1),
        Computed::SignedHalf(address) => loads_signed(regs, memory, rd, address, 2),
        Computed::Load { address, width } => loads(regs, memory, rd, address, size(width)),
        Computed::Store {
            address,
            width,
            value,
        } => stores(regs, memory, address, size(width), value),
        Computed::Nothing => passes(regs),
        Computed::Call => Effect::Calls,
        Computed::Break => Effect::Traps(BREAKPOINT),
    }
}

/// Goes on at the next instruction.
fn passes(regs: &mut Regs) -> Effect
    ensures goes_on { result ≡ Effect.Next }
    ensures next { regs.new ≡ registers.at_pc regs.old (registers.next_pc regs.old) }
{
    regs.pc = next_pc(regs);
    Effect::Next
}

/// Writes a register and goes on at the next instruction.
fn writes(regs: &mut Regs, rd: u8, value: u32) -> Effect
    ensures goes_on { result ≡ Effect.Next }
    ensures next { regs.new ≡ registers.at_pc (registers.with_reg regs.old rd value) (registers.next_pc regs.old) }
{
    set_reg(regs, rd, value);
    passes(regs)
}

/// Goes to a target, with the address of the next instruction in a register.
fn jumps(regs: &mut Regs, rd: u8, target: u32) -> Effect
    ensures effect { (memory : Memory) → words.jumps regs.old memory rd target ≡ effect_told result regs.new memory }
    ensures stays { KeepsUnlessNext result regs.old regs.new }
{
    if target % 4 != 0 {
        return Effect::Traps(MISALIGNED);
    }
    let link = next_pc(regs);
    set_reg(regs, rd, link);
    regs.pc = target;
    Effect::Next
}

/// Goes to a target where the branch is taken.
fn branches(regs: &mut Regs, is_taken: bool, target: u32) -> Effect
    ensures effect { (memory : Memory) → words.branches regs.old memory is_taken target ≡ effect_told result regs.new memory }
    ensures stays { KeepsUnlessNext result regs.old regs.new }
{
    if !is_taken {
        return passes(regs);
    }
    if target % 4 != 0 {
        return Effect::Traps(MISALIGNED);
    }
    regs.pc = target;
    Effect::Next
}

/// Loads a number of `size` bytes into a register.
fn loads(regs: &mut Regs, memory: &NumberMap<Frame>, rd: u8, address: u32, size: u32) -> Effect
    requires { size ≤ 4 }
    ensures effect { words.loads regs.old memory.now rd words.same (load memory.now address size) ≡ effect_told result regs.new memory.now }
    ensures stays { KeepsUnlessNext result regs.old regs.new }
{
    match load(memory, address, size) {
        Some(value) => writes(regs, rd, value),
        None => Effect::Traps(FAULT),
    }
}

/// Loads a number of `size` bytes, with its sign, into a register.
fn loads_signed(
    regs: &mut Regs,
    memory: &NumberMap<Frame>,
    rd: u8,
    address: u32,
    size: u32,
) -> Effect
    requires { (size ≡ 1) ⊎ (size ≡ 2) }
    ensures effect { words.loads regs.old memory.now rd (words.sign_extended (8 * size)) (load memory.now address size)
        ≡ effect_told result regs.new memory.now }
    ensures stays { KeepsUnlessNext result regs.old regs.new }
{
    match load(memory, address, size) {
        Some(value) => writes(regs, rd, sign_extended(8 * size, value)),
        None => Effect::Traps(FAULT),
    }
}

/// Stores the lowest `size` bytes of a number.
fn stores(
    regs: &mut Regs,
    memory: &mut NumberMap<Frame>,
    address: u32,
    size: u32,
    value: u32,
) -> Effect
    ensures effect { words.stores regs.old (store memory.old address size value) ≡ effect_told result regs.new memory.new }
    ensures regs { KeepsUnlessNext result regs.old regs.new }
    ensures memory { KeepsUnlessNext result memory.old memory.new }
{
    match store(memory, address, size, value) {
        Ok(()) => passes(regs),
        Err(Denied) => Effect::Traps(FAULT),
    }
}
