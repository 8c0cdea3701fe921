ghost use Rattle.std.specs.Prelude.{◌≡◌, ◌+◌, ◌*◌, ◌<◌, ◌≤◌, ◌^◌, if◌then◌else◌};
ghost use Rattle.plain_process.specs.Instructions as words;
ghost use Rattle.plain_steps.specs.Results.{format_told};

use crate::format::Format;
use crate::table::{encoding, row_of};
use plain_process::instruction::{Insn, Op};

/// The instruction of a word, or none where no row of the table has its fixed bits.
#[tactic(auto, unfolding(plain_process::specs::Instructions::decoded))]
pub fn decoded(word: u32) -> Option<Insn>
    ensures { result ≡ words.decoded word }
{
    let op = row_of(word)?;
    Some(insn_of(op, encoding(op).format, word))
}

/// An instruction with the operands of a word.
#[tactic(auto, unfolding(plain_process::specs::Instructions::insn_of))]
fn insn_of(op: Op, format: Format, word: u32) -> Insn
    ensures { result ≡ words.insn_of op (format_told format) word }
{
    Insn {
        op,
        rd: register_if(has_rd(format), 7, word),
        rs1: register_if(has_rs1(format), 15, word),
        rs2: register_if(has_rs2(format), 20, word),
        imm: immediate(format, word).cast_signed(),
    }
}

fn has_rd(format: Format) -> bool
    ensures { result ≡ words.has_rd (format_told format) }
{
    !matches!(format, Format::S | Format::B | Format::Whole)
}

fn has_rs1(format: Format) -> bool
    ensures { result ≡ words.has_rs1 (format_told format) }
{
    !matches!(format, Format::U | Format::J | Format::Whole)
}

fn has_rs2(format: Format) -> bool
    ensures { result ≡ words.has_rs2 (format_told format) }
{
    matches!(format, Format::R | Format::S | Format::B)
}

/// The number of a register at these bits of a word, or 0 where the format has none there.
fn register_if(is_there: bool, low: u32, word: u32) -> u8
    requires { low < 32 }
    ensures { result ≡ (if is_there then words.bits low 5 word else 0) }
{
    if is_there {
        bits(low, 5, word) as u8
    } else {
        0
    }
}

/// `count` bits of a word, from bit `low` on.
fn bits(low: u32, count: u32, word: u32) -> u32
    requires low { low < 32 }
    requires count { count < 32 }
    ensures value { result ≡ words.bits low count word }
    ensures fits { result < 2 ^ count }
{
    word / (1 << low) % (1 << count)
}

/// A number of `count` bits, extended to 32 by its highest bit.
pub fn sign_extended(count: u32, value: u32) -> u32
    requires some { 1 ≤ count }
    requires count { count < 32 }
    requires fits { value < 2 ^ count }
    ensures { result ≡ words.sign_extended count value }
{
    if value < 1 << (count - 1) {
        value
    } else {
        value + (u32::MAX - ((1 << count) - 1))
    }
}

/// The immediate of a word of a format, modulo 2^32.
#[tactic(auto, unfolding(plain_process::specs::Instructions::immediate))]
fn immediate(format: Format, word: u32) -> u32
    ensures { result ≡ words.immediate (format_told format) word }
{
    match format {
        Format::R | Format::Whole => 0,
        Format::I => sign_extended(12, bits(20, 12, word)),
        Format::S => sign_extended(12, 32 * bits(25, 7, word) + bits(7, 5, word)),
        Format::B => sign_extended(13, branch_bits(word)),
        Format::U => 4096 * bits(12, 20, word),
        Format::J => sign_extended(21, jump_bits(word)),
        Format::Shift => bits(20, 5, word),
    }
}

/// The distance of a branch, an even number of 13 bits.
fn branch_bits(word: u32) -> u32
    ensures value { result ≡ 2 ^ 12 * words.bits 31 1 word + 2 ^ 11 * words.bits 7 1 word + 2 ^ 5 * words.bits 25 6 word + 2 * words.bits 8 4 word }
    ensures fits { result < 2 ^ 13 }
{
    let high = 4096 * bits(31, 1, word) + 2048 * bits(7, 1, word);
    high + 32 * bits(25, 6, word) + 2 * bits(8, 4, word)
}

/// The distance of a jump, an even number of 21 bits.
fn jump_bits(word: u32) -> u32
    ensures value { result ≡ 2 ^ 20 * words.bits 31 1 word + 2 ^ 12 * words.bits 12 8 word + 2 ^ 11 * words.bits 20 1 word + 2 * words.bits 21 10 word }
    ensures fits { result < 2 ^ 21 }
{
    let high = 1_048_576 * bits(31, 1, word) + 4096 * bits(12, 8, word);
    high + 2048 * bits(20, 1, word) + 2 * bits(21, 10, word)
}
