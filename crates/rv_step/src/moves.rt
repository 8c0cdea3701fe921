ghost use Rattle.std.specs.Prelude.{◌≡◌, ◌<◌, ◌+◌, ◌%◌, ◌^◌, ℕ, List, Some, None};
ghost use Rattle.plain_process.specs.Instructions.{jumps, branches, loads, stores, same, sign_extended};
ghost use Rattle.plain_process.specs.Memory.{Memory, load, store};
ghost use Rattle.plain_process.specs.Registers.{reg, with_reg};
ghost use Rattle.rv_words.specs.Accesses.{IsAccessSize};
ghost use Rattle.rv_step.specs.Steps.{IsStep, IsZeroHeld, regs_at};

use rv_words::GuestMemory;
use rv_words::extension::{sign_extended_byte, sign_extended_half};

/// The value of register `index`, where the place of x0 holds 0.
#[inline(always)]
#[tactic(auto, using(crate::proofs::StepLaws::read_held))]
pub fn get(x: &[u32; 32], index: u32) -> u32
    requires index { index < 32 }
    requires zero { IsZeroHeld x.now }
    ensures { result ≡ reg (regs_at x.now 0) index }
{
    x[index as usize]
}

/// Writes register `index`. A write of x0 is lost.
#[inline(always)]
#[tactic(auto, using(crate::proofs::StepLaws::zero_kept))]
pub fn put(x: &mut [u32; 32], index: u32, value: u32)
    requires index { index < 32 }
    requires zero { IsZeroHeld x.old }
    ensures put { (pc : ℕ) → regs_at x.new pc ≡ with_reg (regs_at x.old pc) index value }
    ensures zero { IsZeroHeld x.new }
{
    if index != 0 {
        x[index as usize] = value;
    }
}

/// Writes register `index` and goes on at the next instruction.
#[inline(always)]
pub fn set(x: &mut [u32; 32], pc: u32, index: u32, value: u32) -> Option<u32>
    requires index { index < 32 }
    requires zero { IsZeroHeld x.old }
    ensures step { result ≡ Some ((pc + 4) % 2 ^ 32) }
    ensures x { (at : ℕ) → regs_at x.new at ≡ with_reg (regs_at x.old at) index value }
    ensures zero { IsZeroHeld x.new }
{
    put(x, index, value);
    Some(pc.wrapping_add(4))
}

/// JAL, JALR: goes to `target`, with the address of the next instruction in register `index`.
#[inline(always)]
pub fn jump(x: &mut [u32; 32], pc: u32, index: u32, target: u32) -> Option<u32>
    requires index { index < 32 }
    requires zero { IsZeroHeld x.old }
    ensures step { (memory : Memory) →
        IsStep result (jumps (regs_at x.old pc) memory index target) x.old x.new memory }
    ensures zero { IsZeroHeld x.new }
{
    if target % 4 != 0 {
        return None;
    }
    put(x, index, pc.wrapping_add(4));
    Some(target)
}

/// A branch to `target`, where it is taken.
#[inline(always)]
pub fn branch(pc: u32, is_taken: bool, target: u32) -> Option<u32>
    ensures { (x : List ℕ) (memory : Memory) →
        IsStep result (branches (regs_at x pc) memory is_taken target) x x memory }
{
    if !is_taken {
        return Some(pc.wrapping_add(4));
    }
    if target % 4 != 0 {
        return None;
    }
    Some(target)
}

/// LBU, LHU, LW: loads a number of `size` bytes into register `rd`.
#[inline(always)]
pub fn load<M: GuestMemory>(
    x: &mut [u32; 32],
    pc: u32,
    memory: &M,
    rd: u32,
    address: u32,
    size: u32,
) -> Option<u32>
    requires size { IsAccessSize size }
    requires rd { rd < 32 }
    requires zero { IsZeroHeld x.old }
    ensures step { IsStep result
        (loads (regs_at x.old pc) (M.memory memory.now) rd same (load (M.memory memory.now) address size))
        x.old x.new (M.memory memory.now) }
    ensures zero { IsZeroHeld x.new }
{
    match memory.load(address, size) {
        Ok(value) => set(x, pc, rd, value),
        Err(_) => None,
    }
}

/// LB: loads a byte with its sign into register `rd`.
#[inline(always)]
pub fn load_signed_byte<M: GuestMemory>(
    x: &mut [u32; 32],
    pc: u32,
    memory: &M,
    rd: u32,
    address: u32,
) -> Option<u32>
    requires rd { rd < 32 }
    requires zero { IsZeroHeld x.old }
    ensures step { IsStep result
        (loads (regs_at x.old pc) (M.memory memory.now) rd (sign_extended 8) (load (M.memory memory.now) address 1))
        x.old x.new (M.memory memory.now) }
    ensures zero { IsZeroHeld x.new }
{
    match memory.load(address, 1) {
        Ok(value) => set(x, pc, rd, sign_extended_byte(value)),
        Err(_) => None,
    }
}

/// LH: loads a half-word with its sign into register `rd`.
#[inline(always)]
pub fn load_signed_half<M: GuestMemory>(
    x: &mut [u32; 32],
    pc: u32,
    memory: &M,
    rd: u32,
    address: u32,
) -> Option<u32>
    requires rd { rd < 32 }
    requires zero { IsZeroHeld x.old }
    ensures step { IsStep result
        (loads (regs_at x.old pc) (M.memory memory.now) rd (sign_extended 16) (load (M.memory memory.now) address 2))
        x.old x.new (M.memory memory.now) }
    ensures zero { IsZeroHeld x.new }
{
    match memory.load(address, 2) {
        Ok(value) => set(x, pc, rd, sign_extended_half(value)),
        Err(_) => None,
    }
}

/// SB, SH, SW: stores the lowest `size` bytes of a number.
#[inline(always)]
pub fn store<M: GuestMemory>(
    pc: u32,
    memory: &mut M,
    address: u32,
    size: u32,
    value: u32,
) -> Option<u32>
    requires { IsAccessSize size }
    ensures step { (x : List ℕ) → IsStep result
        (stores (regs_at x pc) (store (M.memory memory.old) address size value)) x x (M.memory memory.new) }
    ensures memory { result ≡ None → M.memory memory.new ≡ M.memory memory.old }
{
    match memory.store(address, size, value) {
        Ok(()) => Some(pc.wrapping_add(4)),
        Err(_) => None,
    }
}
