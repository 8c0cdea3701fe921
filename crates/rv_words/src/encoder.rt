ghost use Rattle.std.specs.Prelude.{◌≡◌, ◌↔◌, ℕ, ◌+◌, ◌*◌, ◌%◌, ◌^◌, ◌<◌, Some, IsTrue};
ghost use Rattle.plain_process.specs.Instructions.{decoded, as_encoding, word, Format, R, I, S, B, U, J, Shift};
ghost use Rattle.rv_words.specs.Validity.{IsValid};
ghost use Rattle.rv_words.specs.Words.{filled, joined, word_of};

use crate::decoder::decode;
use crate::immediates::field;
use plain_process::{Insn, Op};

/// A word of these fields.
#[inline]
fn joined(opcode: u32, rd: u32, funct3: u32, rs1: u32, rs2: u32, funct7: u32) -> u32
    requires opcode { opcode < 128 }
    requires rd { rd < 32 }
    requires funct3 { funct3 < 8 }
    requires rs1 { rs1 < 32 }
    requires rs2 { rs2 < 32 }
    requires funct7 { funct7 < 128 }
    ensures { result ≡ joined opcode rd funct3 rs1 rs2 funct7 }
{
    opcode + (rd << 7) + (funct3 << 12) + (rs1 << 15) + (rs2 << 20) + (funct7 << 25)
}

/// The low five bits of a register's number.
#[inline]
fn place(register: u8) -> u32
    ensures value { result ≡ register % 32 }
    ensures fits { result < 32 }
{
    (register % 32) as u32
}

#[inline]
fn register_word(insn: &Insn, funct3: u32, funct7: u32) -> u32
    requires funct3 { funct3 < 8 }
    requires funct7 { funct7 < 128 }
    ensures { result ≡ filled R (as_encoding R 0x33 funct3 funct7) insn.now (word insn.now.imm) }
{
    joined(
        0x33,
        place(insn.rd),
        funct3,
        place(insn.rs1),
        place(insn.rs2),
        funct7,
    )
}

#[inline]
fn immediate_word(insn: &Insn, opcode: u32, funct3: u32) -> u32
    requires opcode { opcode < 128 }
    requires funct3 { funct3 < 8 }
    ensures { result ≡ filled I (as_encoding I opcode funct3 0) insn.now (word insn.now.imm) }
{
    let i = insn.imm.cast_unsigned();
    joined(
        opcode,
        place(insn.rd),
        funct3,
        place(insn.rs1),
        field(i, 0, 5),
        field(i, 5, 7),
    )
}

#[inline]
fn store_word(insn: &Insn, funct3: u32) -> u32
    requires { funct3 < 8 }
    ensures { result ≡ filled S (as_encoding S 0x23 funct3 0) insn.now (word insn.now.imm) }
{
    let i = insn.imm.cast_unsigned();
    joined(
        0x23,
        field(i, 0, 5),
        funct3,
        place(insn.rs1),
        place(insn.rs2),
        field(i, 5, 7),
    )
}

#[inline]
fn branch_word(insn: &Insn, funct3: u32) -> u32
    requires { funct3 < 8 }
    ensures { result ≡ filled B (as_encoding B 0x63 funct3 0) insn.now (word insn.now.imm) }
{
    let i = insn.imm.cast_unsigned();
    let low = field(i, 11, 1) + 2 * field(i, 1, 4);
    let high = field(i, 5, 6) + 64 * field(i, 12, 1);
    joined(0x63, low, funct3, place(insn.rs1), place(insn.rs2), high)
}

#[inline]
fn upper_word(insn: &Insn, opcode: u32) -> u32
    requires { opcode < 128 }
    ensures { result ≡ filled U (as_encoding U opcode 0 0) insn.now (word insn.now.imm) }
{
    let i = insn.imm.cast_unsigned();
    joined(
        opcode,
        place(insn.rd),
        field(i, 12, 3),
        field(i, 15, 5),
        field(i, 20, 5),
        field(i, 25, 7),
    )
}

#[inline]
fn jump_word(insn: &Insn) -> u32
    ensures { result ≡ filled J (as_encoding J 0x6F 0 0) insn.now (word insn.now.imm) }
{
    let i = insn.imm.cast_unsigned();
    let low = field(i, 11, 1) + 2 * field(i, 1, 4);
    let high = field(i, 5, 6) + 64 * field(i, 20, 1);
    joined(
        0x6F,
        place(insn.rd),
        field(i, 12, 3),
        field(i, 15, 5),
        low,
        high,
    )
}

#[inline]
fn shift_word(insn: &Insn, funct3: u32, funct7: u32) -> u32
    requires funct3 { funct3 < 8 }
    requires funct7 { funct7 < 128 }
    ensures { result ≡ filled Shift (as_encoding Shift 0x13 funct3 funct7) insn.now (word insn.now.imm) }
{
    let i = insn.imm.cast_unsigned();
    joined(
        0x13,
        place(insn.rd),
        funct3,
        place(insn.rs1),
        field(i, 0, 5),
        funct7,
    )
}

/// The word that an instruction's operands fill in, each cut to the width of its place.
#[tactic(auto, unfolding(crate::specs::Words::word_of, plain_process::specs::Instructions::encoding))]
fn filled_word(insn: &Insn) -> u32
    ensures { result ≡ word_of insn.now }
{
    match insn.op {
        Op::Lui => upper_word(insn, 0x37),
        Op::Auipc => upper_word(insn, 0x17),
        Op::Jal => jump_word(insn),
        Op::Jalr => immediate_word(insn, 0x67, 0),
        Op::Beq => branch_word(insn, 0),
        Op::Bne => branch_word(insn, 1),
        Op::Blt => branch_word(insn, 4),
        Op::Bge => branch_word(insn, 5),
        Op::Bltu => branch_word(insn, 6),
        Op::Bgeu => branch_word(insn, 7),
        Op::Lb => immediate_word(insn, 0x03, 0),
        Op::Lh => immediate_word(insn, 0x03, 1),
        Op::Lw => immediate_word(insn, 0x03, 2),
        Op::Lbu => immediate_word(insn, 0x03, 4),
        Op::Lhu => immediate_word(insn, 0x03, 5),
        Op::Sb => store_word(insn, 0),
        Op::Sh => store_word(insn, 1),
        Op::Sw => store_word(insn, 2),
        Op::Addi => immediate_word(insn, 0x13, 0),
        Op::Slti => immediate_word(insn, 0x13, 2),
        Op::Sltiu => immediate_word(insn, 0x13, 3),
        Op::Xori => immediate_word(insn, 0x13, 4),
        Op::Ori => immediate_word(insn, 0x13, 6),
        Op::Andi => immediate_word(insn, 0x13, 7),
        Op::Slli => shift_word(insn, 1, 0),
        Op::Srli => shift_word(insn, 5, 0),
        Op::Srai => shift_word(insn, 5, 0x20),
        Op::Add => register_word(insn, 0, 0),
        Op::Sub => register_word(insn, 0, 0x20),
        Op::Sll => register_word(insn, 1, 0),
        Op::Slt => register_word(insn, 2, 0),
        Op::Sltu => register_word(insn, 3, 0),
        Op::Xor => register_word(insn, 4, 0),
        Op::Srl => register_word(insn, 5, 0),
        Op::Sra => register_word(insn, 5, 0x20),
        Op::Or => register_word(insn, 6, 0),
        Op::And => register_word(insn, 7, 0),
        Op::Mul => register_word(insn, 0, 1),
        Op::Mulh => register_word(insn, 1, 1),
        Op::Mulhsu => register_word(insn, 2, 1),
        Op::Mulhu => register_word(insn, 3, 1),
        Op::Div => register_word(insn, 4, 1),
        Op::Divu => register_word(insn, 5, 1),
        Op::Rem => register_word(insn, 6, 1),
        Op::Remu => register_word(insn, 7, 1),
        Op::Fence => immediate_word(insn, 0x0F, 0),
        Op::Ecall => 0x0000_0073,
        Op::Ebreak => 0x0010_0073,
    }
}

/// The word of an instruction.
pub fn encode(insn: Insn) -> u32
    requires { IsValid insn }
    ensures decodes { decoded result ≡ Some insn }

    // It is the only one, so a word that was decoded comes back.
    ensures only { (w : ℕ) → w < 2 ^ 32 → decoded w ≡ Some insn → result ≡ w }
{
    filled_word(&insn)
}

/// Whether an instruction has a word: its operands fit their places, and those that its format doesn't have
/// are 0.
pub fn is_valid(insn: Insn) -> bool
    ensures { IsTrue result ↔ IsValid insn }
{
    match decode(filled_word(&insn)) {
        Some(found) => found == insn,
        None => false,
    }
}
