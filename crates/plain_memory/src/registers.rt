ghost use Rattle.std.specs.Prelude.{◌≡◌};
ghost use Rattle.plain_process.specs.Registers as words;

use plain_process::regs::Regs;

/// The value of a register. x0 reads 0, as does an index past the last register.
pub fn reg(regs: &Regs, index: u8) -> u32
    ensures { result ≡ words.reg regs.now index }
{
    match index {
        1..32 => regs.x[index as usize],
        _ => 0,
    }
}

/// Writes a register. A write of x0 is lost, as is one past the last register.
pub fn set_reg(regs: &mut Regs, index: u8, value: u32)
    ensures { regs.new ≡ words.with_reg regs.old index value }
{
    if 0 < index && index < 32 {
        regs.x[index as usize] = value;
    }
}

/// The address of the next instruction.
pub fn next_pc(regs: &Regs) -> u32
    ensures { result ≡ words.next_pc regs.now }
{
    regs.pc.wrapping_add(4)
}
