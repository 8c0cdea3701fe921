ghost use Rattle.std.specs.Prelude.{◌≡◌, ℕ, ◌<◌};
ghost use Rattle.rv_isa.specs.declared.outcome.Outcome as Outcome;
ghost use Rattle.plain_process.specs.Registers.{reg, with_reg, at_pc, next_pc};

use crate::outcome::Outcome;
use plain_process::Regs;

/// The value of register `index`. x0 reads 0, as does an index past the last register.
#[inline]
pub fn read(regs: &Regs, index: u8) -> u32
    ensures { result ≡ reg regs.now index }
{
    match index {
        1..32 => regs.x[index as usize],
        _ => 0,
    }
}

/// Writes register `index`. A write of x0 is lost, as is one past the last register.
#[inline]
pub fn write(regs: &mut Regs, index: u8, value: u32)
    ensures { regs.new ≡ with_reg regs.old index value }
{
    if 0 < index && index < 32 {
        regs.x[index as usize] = value;
    }
}

/// Goes on at the next instruction.
#[inline]
pub fn pass(regs: &mut Regs) -> Outcome
    ensures outcome { result ≡ Outcome.Next }
    ensures next { regs.new ≡ at_pc regs.old (next_pc regs.old) }
{
    regs.pc = regs.pc.wrapping_add(4);
    Outcome::Next
}

/// Writes register `index` and goes on at the next instruction.
#[inline]
pub fn set(regs: &mut Regs, index: u8, value: u32) -> Outcome
    ensures outcome { result ≡ Outcome.Next }
    ensures next { regs.new ≡ at_pc (with_reg regs.old index value) (next_pc regs.old) }
{
    write(regs, index, value);
    pass(regs)
}
