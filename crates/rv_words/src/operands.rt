ghost use Rattle.std.specs.Prelude.{◌≡◌, ℕ, ◌<◌};
ghost use Rattle.plain_process.specs.Instructions.{Format, R, I, S, B, U, J, Shift, Whole, bits, insn_of};

use crate::immediates::{
    field, immediate_b, immediate_i, immediate_j, immediate_s, immediate_u, shift_amount,
};
use plain_process::{Insn, Op};

#[inline]
fn rd(word: u32) -> u8
    ensures { result ≡ bits 7 5 word }
{
    field(word, 7, 5) as u8
}

#[inline]
fn rs1(word: u32) -> u8
    ensures { result ≡ bits 15 5 word }
{
    field(word, 15, 5) as u8
}

#[inline]
fn rs2(word: u32) -> u8
    ensures { result ≡ bits 20 5 word }
{
    field(word, 20, 5) as u8
}

/// Format R: two registers and a destination.
#[inline]
#[tactic(auto, unfolding(plain_process::specs::Instructions::insn_of, plain_process::specs::Instructions::immediate))]
pub fn of_registers(op: Op, word: u32) -> Insn
    ensures { result ≡ insn_of op R word }
{
    Insn {
        op,
        rd: rd(word),
        rs1: rs1(word),
        rs2: rs2(word),
        imm: 0,
    }
}

/// Format I: a register, an immediate and a destination.
#[inline]
#[tactic(auto, unfolding(plain_process::specs::Instructions::insn_of))]
pub fn of_immediate(op: Op, word: u32) -> Insn
    ensures { result ≡ insn_of op I word }
{
    Insn {
        op,
        rd: rd(word),
        rs1: rs1(word),
        rs2: 0,
        imm: immediate_i(word),
    }
}

/// Format S: two registers and an immediate.
#[inline]
#[tactic(auto, unfolding(plain_process::specs::Instructions::insn_of))]
pub fn of_store(op: Op, word: u32) -> Insn
    ensures { result ≡ insn_of op S word }
{
    Insn {
        op,
        rd: 0,
        rs1: rs1(word),
        rs2: rs2(word),
        imm: immediate_s(word),
    }
}

/// Format B: two registers and the distance to the target.
#[inline]
#[tactic(auto, unfolding(plain_process::specs::Instructions::insn_of))]
pub fn of_branch(op: Op, word: u32) -> Insn
    ensures { result ≡ insn_of op B word }
{
    Insn {
        op,
        rd: 0,
        rs1: rs1(word),
        rs2: rs2(word),
        imm: immediate_b(word),
    }
}

/// Format U: a destination and the upper bits of a word.
#[inline]
#[tactic(auto, unfolding(plain_process::specs::Instructions::insn_of))]
pub fn of_upper(op: Op, word: u32) -> Insn
    ensures { result ≡ insn_of op U word }
{
    Insn {
        op,
        rd: rd(word),
        rs1: 0,
        rs2: 0,
        imm: immediate_u(word),
    }
}

/// Format J: a destination and the distance to the target.
#[inline]
#[tactic(auto, unfolding(plain_process::specs::Instructions::insn_of))]
pub fn of_jump(op: Op, word: u32) -> Insn
    ensures { result ≡ insn_of op J word }
{
    Insn {
        op,
        rd: rd(word),
        rs1: 0,
        rs2: 0,
        imm: immediate_j(word),
    }
}

/// A shift by an immediate: format I with the amount in the place of rs2.
#[inline]
#[tactic(auto, unfolding(plain_process::specs::Instructions::insn_of))]
pub fn of_shift(op: Op, word: u32) -> Insn
    ensures { result ≡ insn_of op Shift word }
{
    Insn {
        op,
        rd: rd(word),
        rs1: rs1(word),
        rs2: 0,
        imm: shift_amount(word),
    }
}

/// A whole word: no operands.
#[inline]
#[tactic(auto, unfolding(plain_process::specs::Instructions::insn_of, plain_process::specs::Instructions::immediate))]
pub fn without_operands(op: Op) -> Insn
    ensures { (word : ℕ) → result ≡ insn_of op Whole word }
{
    Insn {
        op,
        rd: 0,
        rs1: 0,
        rs2: 0,
        imm: 0,
    }
}
