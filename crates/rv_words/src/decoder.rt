ghost use Rattle.std.specs.Prelude.{◌≡◌, ◌==◌, ◌%◌, ℕ, ◌<◌, ◌^◌, Some, IfSome, IsTrue, if◌then◌else◌};
ghost use Rattle.plain_process.specs.Instructions.{decoded, encoding, has_match, row_of, Format, R, I, S, B, Shift, Whole};
ghost use Rattle.rv_words.specs.Fields.{row_at, with_operands};
ghost use Rattle.rv_words.specs.Validity.{IsValid};
ghost use Rattle.std.specs.Option.{option_map};

use crate::operands::{
    of_branch, of_immediate, of_jump, of_registers, of_shift, of_store, of_upper, without_operands,
};
use plain_process::{Insn, Op};

/// The instruction of a word, or none where the table has no row for it.
#[inline(always)]
pub fn decode(word: u32) -> Option<Insn>
    ensures instruction { result ≡ decoded word }

    ensures valid { IfSome result IsValid }

    // No other row of the table matches the word.
    ensures only_row { (op : Op) → IsTrue (has_match word op) → row_of word ≡ Some op }
{
    instruction_at(word % 128, (word >> 12) % 8, word >> 25, word)
}

/// The instruction of a word with these fields.
#[inline]
fn instruction_at(opcode: u32, funct3: u32, funct7: u32, word: u32) -> Option<Insn>
    ensures { result ≡ option_map (with_operands word) (row_at opcode funct3 funct7 word) }
{
    match opcode {
        0x37 => Some(of_upper(Op::Lui, word)),
        0x17 => Some(of_upper(Op::Auipc, word)),
        0x6F => Some(of_jump(Op::Jal, word)),
        0x67 => Some(of_immediate(jump_row(funct3)?, word)),
        0x63 => Some(of_branch(branch_row(funct3)?, word)),
        0x03 => Some(of_immediate(load_row(funct3)?, word)),
        0x23 => Some(of_store(store_row(funct3)?, word)),
        0x13 => {
            let op = immediate_row(funct3, funct7)?;
            Some(if funct3 % 4 == 1 {
                of_shift(op, word)
            } else {
                of_immediate(op, word)
            })
        }
        0x33 => Some(of_registers(register_row(funct3, funct7)?, word)),
        0x0F => Some(of_immediate(fence_row(funct3)?, word)),
        0x73 => Some(without_operands(system_row(word)?)),
        _ => None,
    }
}

#[inline]
#[tactic(auto, unfolding(crate::specs::Fields::row_at, plain_process::specs::Instructions::encoding))]
fn jump_row(funct3: u32) -> Option<Op>
    ensures row { (g w : ℕ) → row_at 0x67 funct3 g w ≡ result }
    ensures format { IfSome result (λ op. (encoding op).format ≡ I) }
{
    match funct3 {
        0 => Some(Op::Jalr),
        _ => None,
    }
}

#[inline]
#[tactic(auto, unfolding(crate::specs::Fields::row_at, plain_process::specs::Instructions::encoding))]
fn branch_row(funct3: u32) -> Option<Op>
    ensures row { (g w : ℕ) → row_at 0x63 funct3 g w ≡ result }
    ensures format { IfSome result (λ op. (encoding op).format ≡ B) }
{
    match funct3 {
        0 => Some(Op::Beq),
        1 => Some(Op::Bne),
        4 => Some(Op::Blt),
        5 => Some(Op::Bge),
        6 => Some(Op::Bltu),
        7 => Some(Op::Bgeu),
        _ => None,
    }
}

#[inline]
#[tactic(auto, unfolding(crate::specs::Fields::row_at, plain_process::specs::Instructions::encoding))]
fn load_row(funct3: u32) -> Option<Op>
    ensures row { (g w : ℕ) → row_at 0x03 funct3 g w ≡ result }
    ensures format { IfSome result (λ op. (encoding op).format ≡ I) }
{
    match funct3 {
        0 => Some(Op::Lb),
        1 => Some(Op::Lh),
        2 => Some(Op::Lw),
        4 => Some(Op::Lbu),
        5 => Some(Op::Lhu),
        _ => None,
    }
}

#[inline]
#[tactic(auto, unfolding(crate::specs::Fields::row_at, plain_process::specs::Instructions::encoding))]
fn store_row(funct3: u32) -> Option<Op>
    ensures row { (g w : ℕ) → row_at 0x23 funct3 g w ≡ result }
    ensures format { IfSome result (λ op. (encoding op).format ≡ S) }
{
    match funct3 {
        0 => Some(Op::Sb),
        1 => Some(Op::Sh),
        2 => Some(Op::Sw),
        _ => None,
    }
}

#[inline]
#[tactic(auto, unfolding(crate::specs::Fields::row_at, plain_process::specs::Instructions::encoding))]
fn immediate_row(funct3: u32, funct7: u32) -> Option<Op>
    ensures row { (w : ℕ) → row_at 0x13 funct3 funct7 w ≡ result }
    ensures format { IfSome result (λ op. (encoding op).format ≡ (if funct3 % 4 == 1 then Shift else I)) }
{
    match (funct3, funct7) {
        (0, _) => Some(Op::Addi),
        (1, 0) => Some(Op::Slli),
        (2, _) => Some(Op::Slti),
        (3, _) => Some(Op::Sltiu),
        (4, _) => Some(Op::Xori),
        (5, 0) => Some(Op::Srli),
        (5, 0x20) => Some(Op::Srai),
        (6, _) => Some(Op::Ori),
        (7, _) => Some(Op::Andi),
        _ => None,
    }
}

#[inline]
#[tactic(auto, unfolding(crate::specs::Fields::row_at, plain_process::specs::Instructions::encoding))]
fn register_row(funct3: u32, funct7: u32) -> Option<Op>
    ensures row { (w : ℕ) → row_at 0x33 funct3 funct7 w ≡ result }
    ensures format { IfSome result (λ op. (encoding op).format ≡ R) }
{
    match (funct7, funct3) {
        (0, 0) => Some(Op::Add),
        (0, 1) => Some(Op::Sll),
        (0, 2) => Some(Op::Slt),
        (0, 3) => Some(Op::Sltu),
        (0, 4) => Some(Op::Xor),
        (0, 5) => Some(Op::Srl),
        (0, 6) => Some(Op::Or),
        (0, 7) => Some(Op::And),
        (0x20, 0) => Some(Op::Sub),
        (0x20, 5) => Some(Op::Sra),
        (1, 0) => Some(Op::Mul),
        (1, 1) => Some(Op::Mulh),
        (1, 2) => Some(Op::Mulhsu),
        (1, 3) => Some(Op::Mulhu),
        (1, 4) => Some(Op::Div),
        (1, 5) => Some(Op::Divu),
        (1, 6) => Some(Op::Rem),
        (1, 7) => Some(Op::Remu),
        _ => None,
    }
}

#[inline]
#[tactic(auto, unfolding(crate::specs::Fields::row_at, plain_process::specs::Instructions::encoding))]
fn fence_row(funct3: u32) -> Option<Op>
    ensures row { (g w : ℕ) → row_at 0x0F funct3 g w ≡ result }
    ensures format { IfSome result (λ op. (encoding op).format ≡ I) }
{
    match funct3 {
        0 => Some(Op::Fence),
        _ => None,
    }
}

#[inline]
#[tactic(auto, unfolding(crate::specs::Fields::row_at, plain_process::specs::Instructions::encoding))]
fn system_row(word: u32) -> Option<Op>
    ensures row { (f g : ℕ) → row_at 0x73 f g word ≡ result }
    ensures format { IfSome result (λ op. (encoding op).format ≡ Whole) }
{
    match word {
        0x0000_0073 => Some(Op::Ecall),
        0x0010_0073 => Some(Op::Ebreak),
        _ => None,
    }
}
