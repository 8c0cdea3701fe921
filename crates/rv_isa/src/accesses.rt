ghost use Rattle.std.specs.Prelude.{◌≡◌};
ghost use Rattle.plain_process.specs.Instructions.{loads, stores, sign_extended, same};
ghost use Rattle.plain_process.specs.Memory.{load, store};
ghost use Rattle.rv_words.specs.Accesses.{IsAccessSize};
ghost use Rattle.rv_isa.specs.Outcomes.{IsOutcome, KeepsUnlessNext};

use crate::outcome::Outcome;
use crate::registers::{pass, set};
use plain_process::Regs;
use rv_words::extension::{sign_extended_byte, sign_extended_half};
use rv_words::{AccessFault, GuestMemory};
use sys_abi::Signal;

/// The signal of an access to a page that is missing or lacks the right: SIGSEGV (`man 7 signal`).
pub const FAULT: Signal = Signal(11);

/// LBU, LHU, LW: loads a number of `size` bytes into register `rd`.
#[inline]
pub fn load<M: GuestMemory>(regs: &mut Regs, memory: &M, rd: u8, address: u32, size: u32) -> Outcome
    requires { IsAccessSize size }
    ensures outcome { IsOutcome result (loads regs.old (M.memory memory.now) rd same (load (M.memory memory.now) address size))
        regs.new (M.memory memory.now) }
    ensures stays { KeepsUnlessNext result regs.old regs.new }
    ensures want { result ≡ Outcome.Memory → M.may_want memory.now }
{
    match memory.load(address, size) {
        Ok(value) => set(regs, rd, value),
        Err(AccessFault::Fault) => Outcome::Trap(FAULT),
        Err(AccessFault::Memory) => Outcome::Memory,
    }
}

/// LB: loads a byte with its sign into register `rd`.
#[inline]
pub fn load_signed_byte<M: GuestMemory>(
    regs: &mut Regs,
    memory: &M,
    rd: u8,
    address: u32,
) -> Outcome
    ensures outcome { IsOutcome result (loads regs.old (M.memory memory.now) rd (sign_extended 8) (load (M.memory memory.now) address 1))
        regs.new (M.memory memory.now) }
    ensures stays { KeepsUnlessNext result regs.old regs.new }
    ensures want { result ≡ Outcome.Memory → M.may_want memory.now }
{
    match memory.load(address, 1) {
        Ok(value) => set(regs, rd, sign_extended_byte(value)),
        Err(AccessFault::Fault) => Outcome::Trap(FAULT),
        Err(AccessFault::Memory) => Outcome::Memory,
    }
}

/// LH: loads a half-word with its sign into register `rd`.
#[inline]
pub fn load_signed_half<M: GuestMemory>(
    regs: &mut Regs,
    memory: &M,
    rd: u8,
    address: u32,
) -> Outcome
    ensures outcome { IsOutcome result (loads regs.old (M.memory memory.now) rd (sign_extended 16) (load (M.memory memory.now) address 2))
        regs.new (M.memory memory.now) }
    ensures stays { KeepsUnlessNext result regs.old regs.new }
    ensures want { result ≡ Outcome.Memory → M.may_want memory.now }
{
    match memory.load(address, 2) {
        Ok(value) => set(regs, rd, sign_extended_half(value)),
        Err(AccessFault::Fault) => Outcome::Trap(FAULT),
        Err(AccessFault::Memory) => Outcome::Memory,
    }
}

/// SB, SH, SW: stores the lowest `size` bytes of `value`.
#[inline(always)]
pub fn store<M: GuestMemory>(
    regs: &mut Regs,
    memory: &mut M,
    address: u32,
    size: u32,
    value: u32,
) -> Outcome
    requires { IsAccessSize size }
    ensures outcome { IsOutcome result (stores regs.old (store (M.memory memory.old) address size value)) regs.new (M.memory memory.new) }
    ensures stays { KeepsUnlessNext result regs.old regs.new }
    ensures memory_stays { KeepsUnlessNext result (M.memory memory.old) (M.memory memory.new) }
    ensures want { result ≡ Outcome.Memory → M.may_want memory.old }
{
    match memory.store(address, size, value) {
        Ok(()) => pass(regs),
        Err(AccessFault::Fault) => Outcome::Trap(FAULT),
        Err(AccessFault::Memory) => Outcome::Memory,
    }
}
