ghost use Rattle.std.specs.Prelude.{◌≡◌, ◌≢◌, ◌↔◌, ◌≤◌};
ghost use Rattle.plain_process.specs.Steps.{effect_at};
ghost use Rattle.guest_start.specs.Running.{HasRun, IsStop};
ghost use Rattle.rv_isa.specs.Outcomes.{IsOutcome, KeepsUnlessNext};

use crate::ram::Ram;
use crate::stretch::stretch;
use plain_process::Regs;
use rv_isa::{Outcome, decode, exec};
use sys_abi::Signal;

/// SIGILL and SIGSEGV (`man 7 signal`).
pub const SIGNAL_ILLEGAL: u32 = 4;

pub const SIGNAL_FAULT: u32 = 11;

/// Why a run of instructions stopped.
#[derive(Clone, Copy)]
pub enum Stop {
    Quantum,
    Call,
    Trap(Signal),
}

/// One instruction at the program counter.
#[cold]
#[tactic(auto, unfolding(plain_process::specs::Steps::effect_at))]
fn instruction(regs: &mut Regs, ram: &mut Ram) -> Outcome
    ensures outcome { IsOutcome result (effect_at regs.old ram.old) regs.new ram.new }
    ensures regs { KeepsUnlessNext result regs.old regs.new }
    ensures ram { KeepsUnlessNext result ram.old ram.new }
    ensures no_want { result ≢ Outcome.Memory }
{
    let Some(word) = ram.fetch(regs.pc) else {
        return Outcome::Trap(Signal(SIGNAL_FAULT));
    };
    let Some(insn) = decode(word) else {
        return Outcome::Trap(Signal(SIGNAL_ILLEGAL));
    };
    exec(insn, regs, ram)
}

/// One instruction at the program counter, on a copy of the registers, so that those of the loop are lent to
/// nothing else.
#[inline(always)]
fn instruction_apart(regs: &mut Regs, ram: &mut Ram) -> Outcome
    ensures outcome { IsOutcome result (effect_at regs.old ram.old) regs.new ram.new }
    ensures regs { KeepsUnlessNext result regs.old regs.new }
    ensures ram { KeepsUnlessNext result ram.old ram.new }
    ensures no_want { result ≢ Outcome.Memory }
{
    let mut apart = *regs;
    let outcome = instruction(&mut apart, ram);
    *regs = apart;
    outcome
}

/// Instructions in a row, until one does not go on or there were `quantum`.
pub fn run_instructions(regs: &mut Regs, ram: &mut Ram, quantum: u32) -> (u32, Stop)
    ensures run { HasRun result.0 regs.old ram.old regs.new ram.new }
    ensures stop { IsStop result.1 (effect_at regs.new ram.new) }
    ensures whole { (result.1 ≡ Stop.Quantum) ↔ (result.0 ≡ quantum) }
    ensures count { result.0 ≤ quantum }
{
    let mut hart = *regs;
    let told = run_hart(&mut hart, ram, quantum);
    *regs = hart;
    told
}

/// The same on registers of its own, to which nothing else has a way.
#[inline(always)]
fn run_hart(hart: &mut Regs, ram: &mut Ram, quantum: u32) -> (u32, Stop)
    ensures run { HasRun result.0 hart.old ram.old hart.new ram.new }
    ensures stop { IsStop result.1 (effect_at hart.new ram.new) }
    ensures whole { (result.1 ≡ Stop.Quantum) ↔ (result.0 ≡ quantum) }
    ensures count { result.0 ≤ quantum }
{
    let mut count = 0;
    while count < quantum {
        count += stretch(hart, ram, quantum - count);
        if count == quantum {
            break;
        }
        match instruction_apart(hart, ram) {
            Outcome::Next => count += 1,
            Outcome::Call => return (count, Stop::Call),
            Outcome::Trap(signal) => return (count, Stop::Trap(signal)),
            Outcome::Memory => unreachable!(),
        }
    }
    (quantum, Stop::Quantum)
}
