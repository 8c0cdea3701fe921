ghost use Rattle.std.specs.Prelude.{◌≡◌};
ghost use Rattle.plain_process.specs.Instructions.{effect};
ghost use Rattle.plain_process.specs.Memory.{Memory};
ghost use Rattle.rv_isa.specs.Computing.{effect_of_computed, size_of};
ghost use Rattle.rv_words.specs.Accesses.{IsAccessSize};

use crate::registers::read;
use plain_process::{Insn, Op, Regs};
use rv_words::arithmetic::{
    divide, divide_signed, is_below, multiply_high, multiply_high_mixed, multiply_high_signed,
    remainder, remainder_signed, set_if, shift_left, shift_right, shift_right_signed,
};

/// How many bytes an access has.
#[derive(Clone, Copy)]
pub enum Width {
    Byte,
    Half,
    Word,
}

impl Width {
    /// In bytes.
    #[inline]
    pub fn size(self) -> u32
        ensures size { result ≡ size_of self }
        ensures access { IsAccessSize result }
    {
        match self {
            Width::Byte => 1,
            Width::Half => 2,
            Width::Word => 4,
        }
    }
}

/// What an instruction computes of its operands, before it touches memory or a register.
#[derive(Clone, Copy)]
pub enum Computed {
    /// A value for the destination.
    Value(u32),
    /// The target of a jump.
    Jump(u32),
    Branch {
        is_taken: bool,
        target: u32,
    },
    /// The address of a load with a sign.
    SignedByte(u32),
    SignedHalf(u32),
    Load {
        address: u32,
        width: Width,
    },
    Store {
        address: u32,
        width: Width,
        value: u32,
    },
    Fence,
    Call,
    Break,
}

/// The table of instructions: what each computes.
#[inline]
#[tactic(auto, unfolding(plain_process::specs::Instructions::effect, plain_process::specs::Instructions::effect_by))]
pub fn compute(insn: &Insn, regs: &Regs) -> Computed
    ensures { (memory : Memory) → effect insn.now regs.now memory ≡ effect_of_computed result insn.now.rd regs.now memory }
{
    let a = read(regs, insn.rs1);
    let b = read(regs, insn.rs2);
    let i = insn.imm.cast_unsigned();
    let target = regs.pc.wrapping_add(i);
    let address = a.wrapping_add(i);
    match insn.op {
        Op::Lui => Computed::Value(i),
        Op::Auipc => Computed::Value(target),
        Op::Jal => Computed::Jump(target),
        Op::Jalr => Computed::Jump(2 * (address / 2)),
        Op::Beq => branch(a == b, target),
        Op::Bne => branch(a != b, target),
        Op::Blt => branch(is_below(a, b), target),
        Op::Bge => branch(!is_below(a, b), target),
        Op::Bltu => branch(a < b, target),
        Op::Bgeu => branch(!(a < b), target),
        Op::Lb => Computed::SignedByte(address),
        Op::Lh => Computed::SignedHalf(address),
        Op::Lw => load(address, Width::Word),
        Op::Lbu => load(address, Width::Byte),
        Op::Lhu => load(address, Width::Half),
        Op::Sb => store(address, Width::Byte, b),
        Op::Sh => store(address, Width::Half, b),
        Op::Sw => store(address, Width::Word, b),
        Op::Addi => Computed::Value(address),
        Op::Slti => Computed::Value(set_if(is_below(a, i))),
        Op::Sltiu => Computed::Value(set_if(a < i)),
        Op::Xori => Computed::Value(a ^ i),
        Op::Ori => Computed::Value(a | i),
        Op::Andi => Computed::Value(a & i),
        Op::Slli => Computed::Value(shift_left(a, i)),
        Op::Srli => Computed::Value(shift_right(a, i)),
        Op::Srai => Computed::Value(shift_right_signed(a, i)),
        Op::Add => Computed::Value(a.wrapping_add(b)),
        Op::Sub => Computed::Value(a.wrapping_sub(b)),
        Op::Sll => Computed::Value(shift_left(a, b % 32)),
        Op::Slt => Computed::Value(set_if(is_below(a, b))),
        Op::Sltu => Computed::Value(set_if(a < b)),
        Op::Xor => Computed::Value(a ^ b),
        Op::Srl => Computed::Value(shift_right(a, b % 32)),
        Op::Sra => Computed::Value(shift_right_signed(a, b % 32)),
        Op::Or => Computed::Value(a | b),
        Op::And => Computed::Value(a & b),
        Op::Mul => Computed::Value(a.wrapping_mul(b)),
        Op::Mulh => Computed::Value(multiply_high_signed(a, b)),
        Op::Mulhsu => Computed::Value(multiply_high_mixed(a, b)),
        Op::Mulhu => Computed::Value(multiply_high(a, b)),
        Op::Div => Computed::Value(divide_signed(a, b)),
        Op::Divu => Computed::Value(divide(a, b)),
        Op::Rem => Computed::Value(remainder_signed(a, b)),
        Op::Remu => Computed::Value(remainder(a, b)),
        Op::Fence => Computed::Fence,
        Op::Ecall => Computed::Call,
        Op::Ebreak => Computed::Break,
    }
}

#[inline]
fn branch(is_taken: bool, target: u32) -> Computed
    ensures { result ≡ Computed.Branch is_taken target }
{
    Computed::Branch { is_taken, target }
}

#[inline]
fn load(address: u32, width: Width) -> Computed
    ensures { result ≡ Computed.Load address width }
{
    Computed::Load { address, width }
}

#[inline]
fn store(address: u32, width: Width, value: u32) -> Computed
    ensures { result ≡ Computed.Store address width value }
{
    Computed::Store {
        address,
        width,
        value,
    }
}
