ghost use Rattle.std.specs.Prelude.{◌≡◌, ◌≤◌, ℕ};
ghost use Rattle.plain_process.specs.Memory.{Memory};
ghost use Rattle.plain_process.specs.Instructions.{effect, effect_by, writes};
ghost use Rattle.plain_steps.specs.Computing.{effect_of, size_of, OnlyWrites};

use crate::arithmetic::{
    high_of_mixed, high_of_product, high_of_signed, is_below, one_if, quotient, quotient_of_signed,
    remainder, remainder_of_signed, shift_down, shift_left, shift_right,
};
use plain_memory::registers::reg;
use plain_process::instruction::{Insn, Op};
use plain_process::regs::Regs;

/// How many bytes an access has.
#[derive(Clone, Copy)]
pub enum Width {
    Byte,
    Half,
    Word,
}

/// A width in bytes.
pub fn size(width: Width) -> u32
    ensures size { result ≡ size_of width }
    ensures most { result ≤ 4 }
{
    match width {
        Width::Byte => 1,
        Width::Half => 2,
        Width::Word => 4,
    }
}

/// What an instruction computes of its operands.
#[derive(Clone, Copy)]
pub enum Computed {
    /// A value for the destination.
    Value(u32),
    /// The target of a jump.
    Jump(u32),
    Branch {
        is_taken: bool,
        target: u32,
    },
    /// The address of a load with its sign.
    SignedByte(u32),
    SignedHalf(u32),
    Load {
        address: u32,
        width: Width,
    },
    Store {
        address: u32,
        width: Width,
        value: u32,
    },
    Nothing,
    Call,
    Break,
}

/// What each instruction computes.
#[tactic(auto, unfolding(plain_process::specs::Instructions::effect, plain_process::specs::Instructions::effect_by))]
pub fn compute(insn: Insn, regs: &Regs) -> Computed
    ensures { (memory : Memory) → effect insn regs.now memory ≡ effect_of result insn.rd regs.now memory }
{
    let a = reg(regs, insn.rs1);
    let b = reg(regs, insn.rs2);
    let i = insn.imm.cast_unsigned();
    let target = regs.pc.wrapping_add(i);
    let address = a.wrapping_add(i);
    match insn.op {
        Op::Jal => Computed::Jump(target),
        Op::Jalr => Computed::Jump(2 * (address / 2)),
        Op::Beq => branch(a == b, target),
        Op::Bne => branch(a != b, target),
        Op::Blt => branch(is_below(a, b), target),
        Op::Bge => branch(!is_below(a, b), target),
        Op::Bltu => branch(a < b, target),
        Op::Bgeu => branch(!(a < b), target),
        Op::Lb => Computed::SignedByte(address),
        Op::Lh => Computed::SignedHalf(address),
        Op::Lw => load(address, Width::Word),
        Op::Lbu => load(address, Width::Byte),
        Op::Lhu => load(address, Width::Half),
        Op::Sb => store(address, Width::Byte, b),
        Op::Sh => store(address, Width::Half, b),
        Op::Sw => store(address, Width::Word, b),
        Op::Fence => Computed::Nothing,
        Op::Ecall => Computed::Call,
        Op::Ebreak => Computed::Break,
        op => Computed::Value(value(op, i, a, b, regs.pc)),
    }
}

/// The value that an instruction computes which writes its destination and does nothing else.
#[tactic(auto, unfolding(plain_process::specs::Instructions::effect_by))]
fn value(op: Op, i: u32, a: u32, b: u32, pc: u32) -> u32
    requires { OnlyWrites op }
    ensures { (regs : Regs) (memory : Memory) (rd : ℕ) → regs.pc ≡ pc
        → effect_by op rd i a b regs memory ≡ writes regs memory rd result }
{
    match op {
        Op::Lui => i,
        Op::Auipc => pc.wrapping_add(i),
        Op::Addi => a.wrapping_add(i),
        Op::Slti => one_if(is_below(a, i)),
        Op::Sltiu => one_if(a < i),
        Op::Xori => a ^ i,
        Op::Ori => a | i,
        Op::Andi => a & i,
        Op::Slli => shift_left(a, i),
        Op::Srli => shift_right(a, i),
        Op::Srai => shift_down(a, i),
        Op::Add => a.wrapping_add(b),
        Op::Sub => a.wrapping_sub(b),
        Op::Sll => shift_left(a, b % 32),
        Op::Slt => one_if(is_below(a, b)),
        Op::Sltu => one_if(a < b),
        Op::Xor => a ^ b,
        Op::Srl => shift_right(a, b % 32),
        Op::Sra => shift_down(a, b % 32),
        Op::Or => a | b,
        Op::And => a & b,
        Op::Mul => a.wrapping_mul(b),
        Op::Mulh => high_of_signed(a, b),
        Op::Mulhsu => high_of_mixed(a, b),
        Op::Mulhu => high_of_product(a, b),
        Op::Div => quotient_of_signed(a, b),
        Op::Divu => quotient(a, b),
        Op::Rem => remainder_of_signed(a, b),
        Op::Remu => remainder(a, b),
        _ => 0,
    }
}

fn branch(is_taken: bool, target: u32) -> Computed
    ensures { result ≡ Computed.Branch is_taken target }
{
    Computed::Branch { is_taken, target }
}

fn load(address: u32, width: Width) -> Computed
    ensures { result ≡ Computed.Load address width }
{
    Computed::Load { address, width }
}

fn store(address: u32, width: Width, value: u32) -> Computed
    ensures { result ≡ Computed.Store address width value }
{
    Computed::Store {
        address,
        width,
        value,
    }
}
