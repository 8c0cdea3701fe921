ghost use Rattle.std.specs.Prelude.{◌≡◌, ◌<◌, ◌^◌, find};
ghost use Rattle.plain_process.specs.Instructions as words;
ghost use Rattle.plain_steps.specs.Results.{format_told, encoding_told};

use crate::format::{Encoding, Format};
use plain_process::instruction::Op;

/// The instructions, in the table's order.
const ROWS: [Op; 48] = [
    Op::Lui,
    Op::Auipc,
    Op::Jal,
    Op::Jalr,
    Op::Beq,
    Op::Bne,
    Op::Blt,
    Op::Bge,
    Op::Bltu,
    Op::Bgeu,
    Op::Lb,
    Op::Lh,
    Op::Lw,
    Op::Lbu,
    Op::Lhu,
    Op::Sb,
    Op::Sh,
    Op::Sw,
    Op::Addi,
    Op::Slti,
    Op::Sltiu,
    Op::Xori,
    Op::Ori,
    Op::Andi,
    Op::Slli,
    Op::Srli,
    Op::Srai,
    Op::Add,
    Op::Sub,
    Op::Sll,
    Op::Slt,
    Op::Sltu,
    Op::Xor,
    Op::Srl,
    Op::Sra,
    Op::Or,
    Op::And,
    Op::Mul,
    Op::Mulh,
    Op::Mulhsu,
    Op::Mulhu,
    Op::Div,
    Op::Divu,
    Op::Rem,
    Op::Remu,
    Op::Fence,
    Op::Ecall,
    Op::Ebreak,
];

/// The row of an instruction.
pub fn encoding(op: Op) -> Encoding
    ensures row { encoding_told result ≡ words.encoding op }
    ensures opcode { result.opcode < 2 ^ 24 }
    ensures funct3 { result.funct3 < 8 }
    ensures funct7 { result.funct7 < 2 ^ 7 }
{
    fixed_fields(op)
}

#[tactic(auto, unfolding(plain_process::specs::Instructions::encoding))]
fn fixed_fields(op: Op) -> Encoding
    ensures { encoding_told result ≡ words.encoding op }
{
    match op {
        Op::Lui => row(Format::U, 0x37, 0, 0),
        Op::Auipc => row(Format::U, 0x17, 0, 0),
        Op::Jal => row(Format::J, 0x6F, 0, 0),
        Op::Jalr => row(Format::I, 0x67, 0, 0),
        Op::Beq => row(Format::B, 0x63, 0, 0),
        Op::Bne => row(Format::B, 0x63, 1, 0),
        Op::Blt => row(Format::B, 0x63, 4, 0),
        Op::Bge => row(Format::B, 0x63, 5, 0),
        Op::Bltu => row(Format::B, 0x63, 6, 0),
        Op::Bgeu => row(Format::B, 0x63, 7, 0),
        Op::Lb => row(Format::I, 0x03, 0, 0),
        Op::Lh => row(Format::I, 0x03, 1, 0),
        Op::Lw => row(Format::I, 0x03, 2, 0),
        Op::Lbu => row(Format::I, 0x03, 4, 0),
        Op::Lhu => row(Format::I, 0x03, 5, 0),
        Op::Sb => row(Format::S, 0x23, 0, 0),
        Op::Sh => row(Format::S, 0x23, 1, 0),
        Op::Sw => row(Format::S, 0x23, 2, 0),
        Op::Addi => row(Format::I, 0x13, 0, 0),
        Op::Slti => row(Format::I, 0x13, 2, 0),
        Op::Sltiu => row(Format::I, 0x13, 3, 0),
        Op::Xori => row(Format::I, 0x13, 4, 0),
        Op::Ori => row(Format::I, 0x13, 6, 0),
        Op::Andi => row(Format::I, 0x13, 7, 0),
        Op::Slli => row(Format::Shift, 0x13, 1, 0),
        Op::Srli => row(Format::Shift, 0x13, 5, 0),
        Op::Srai => row(Format::Shift, 0x13, 5, 0x20),
        Op::Add => row(Format::R, 0x33, 0, 0),
        Op::Sub => row(Format::R, 0x33, 0, 0x20),
        Op::Sll => row(Format::R, 0x33, 1, 0),
        Op::Slt => row(Format::R, 0x33, 2, 0),
        Op::Sltu => row(Format::R, 0x33, 3, 0),
        Op::Xor => row(Format::R, 0x33, 4, 0),
        Op::Srl => row(Format::R, 0x33, 5, 0),
        Op::Sra => row(Format::R, 0x33, 5, 0x20),
        Op::Or => row(Format::R, 0x33, 6, 0),
        Op::And => row(Format::R, 0x33, 7, 0),
        Op::Mul => row(Format::R, 0x33, 0, 1),
        Op::Mulh => row(Format::R, 0x33, 1, 1),
        Op::Mulhsu => row(Format::R, 0x33, 2, 1),
        Op::Mulhu => row(Format::R, 0x33, 3, 1),
        Op::Div => row(Format::R, 0x33, 4, 1),
        Op::Divu => row(Format::R, 0x33, 5, 1),
        Op::Rem => row(Format::R, 0x33, 6, 1),
        Op::Remu => row(Format::R, 0x33, 7, 1),
        Op::Fence => row(Format::I, 0x0F, 0, 0),
        Op::Ecall => row(Format::Whole, 0x73, 0, 0),
        Op::Ebreak => row(Format::Whole, 0x0010_0073, 0, 0),
    }
}

fn row(format: Format, opcode: u32, funct3: u32, funct7: u32) -> Encoding
    ensures { result ≡ record { format = format; opcode = opcode; funct3 = funct3; funct7 = funct7 } }
{
    Encoding {
        format,
        opcode,
        funct3,
        funct7,
    }
}

/// The bits that a format fixes.
fn fixed_bits(format: Format) -> u32
    ensures { result ≡ words.fixed_bits (format_told format) }
{
    match format {
        Format::U | Format::J => 0x7F,
        Format::I | Format::S | Format::B => 0x707F,
        Format::R | Format::Shift => 0xFE00_707F,
        Format::Whole => 0xFFFF_FFFF,
    }
}

/// Whether the word has the fixed bits of the row.
#[tactic(auto, unfolding(plain_process::specs::Instructions::mask_of, plain_process::specs::Instructions::match_of))]
fn has_match(word: u32, op: Op) -> bool
    ensures { result ≡ words.has_match word op }
{
    let row = encoding(op);
    let bits = row.opcode + 4096 * row.funct3 + 0x0200_0000 * row.funct7;
    word & fixed_bits(row.format) == bits
}

/// The first row whose fixed bits the word has.
#[tactic(auto, unfolding(plain_process::specs::Instructions::row_of))]
pub fn row_of(word: u32) -> Option<Op>
    ensures { result ≡ words.row_of word }
{
    first_match(&ROWS, word)
}

fn first_match(rows: &[Op], word: u32) -> Option<Op>
    ensures { result ≡ find (words.has_match word) rows.now }
{
    rows.iter().copied().find(|op| has_match(word, *op))
}
