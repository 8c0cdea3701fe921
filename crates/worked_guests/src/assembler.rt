use crate::fault::CaseFault;
use crate::mnemonics::{MNEMONICS, Operands, REGISTERS};
use crate::numbers::Numbers;
use rv_words::{Insn, Op, encode, is_valid};

/// The word of the instruction that these words spell: a mnemonic, and operands with or without
/// commas between them.
pub fn assembled(numbers: &Numbers, words: &[String]) -> Result<u32, CaseFault> {
    let [mnemonic, operands @ ..] = words else {
        return Err(CaseFault::Unclear);
    };
    let (op, shape) = row_of(&MNEMONICS, mnemonic.as_str())?;
    let insn = instruction(numbers, op, shape, operands)?;
    if !is_valid(insn) {
        return Err(CaseFault::Unclear);
    }
    Ok(encode(insn))
}

fn row_of(rows: &[(&str, Op, Operands)], mnemonic: &str) -> Result<(Op, Operands), CaseFault> {
    for (name, op, operands) in rows {
        if *name == mnemonic {
            return Ok((*op, *operands));
        }
    }
    Err(CaseFault::Unclear)
}

fn instruction(
    numbers: &Numbers,
    op: Op,
    shape: Operands,
    words: &[String],
) -> Result<Insn, CaseFault> {
    match shape {
        Operands::Registers => of_registers(op, words),
        Operands::Immediate => of_immediate(numbers, op, words),
        Operands::Load => of_load(numbers, op, words),
        Operands::Store => of_store(numbers, op, words),
        Operands::Branch => of_branch(numbers, op, words),
        Operands::Upper => of_upper(numbers, op, words),
        Operands::Nothing => Ok(bare(op)),
    }
}

/// An instruction without operands.
fn bare(op: Op) -> Insn {
    Insn {
        op,
        rd: 0,
        rs1: 0,
        rs2: 0,
        imm: 0,
    }
}

fn of_registers(op: Op, words: &[String]) -> Result<Insn, CaseFault> {
    let [rd, rs1, rs2] = words else {
        return Err(CaseFault::Unclear);
    };
    Ok(Insn {
        rd: register(rd.as_str())?,
        rs1: register(rs1.as_str())?,
        rs2: register(rs2.as_str())?,
        ..bare(op)
    })
}

fn of_immediate(numbers: &Numbers, op: Op, words: &[String]) -> Result<Insn, CaseFault> {
    let [rd, rs1, imm] = words else {
        return Err(CaseFault::Unclear);
    };
    Ok(Insn {
        rd: register(rd.as_str())?,
        rs1: register(rs1.as_str())?,
        imm: immediate(numbers, imm.as_str())?,
        ..bare(op)
    })
}

fn of_load(numbers: &Numbers, op: Op, words: &[String]) -> Result<Insn, CaseFault> {
    let [rd, place] = words else {
        return Err(CaseFault::Unclear);
    };
    let (imm, rs1) = offset_and_base(numbers, place.as_str())?;
    Ok(Insn {
        rd: register(rd.as_str())?,
        rs1,
        imm,
        ..bare(op)
    })
}

fn of_store(numbers: &Numbers, op: Op, words: &[String]) -> Result<Insn, CaseFault> {
    let [rs2, place] = words else {
        return Err(CaseFault::Unclear);
    };
    let (imm, rs1) = offset_and_base(numbers, place.as_str())?;
    Ok(Insn {
        rs1,
        rs2: register(rs2.as_str())?,
        imm,
        ..bare(op)
    })
}

fn of_branch(numbers: &Numbers, op: Op, words: &[String]) -> Result<Insn, CaseFault> {
    let [rs1, rs2, imm] = words else {
        return Err(CaseFault::Unclear);
    };
    Ok(Insn {
        rs1: register(rs1.as_str())?,
        rs2: register(rs2.as_str())?,
        imm: immediate(numbers, imm.as_str())?,
        ..bare(op)
    })
}

fn of_upper(numbers: &Numbers, op: Op, words: &[String]) -> Result<Insn, CaseFault> {
    let [rd, imm] = words else {
        return Err(CaseFault::Unclear);
    };
    Ok(Insn {
        rd: register(rd.as_str())?,
        imm: immediate(numbers, imm.as_str())?,
        ..bare(op)
    })
}

/// The operand `imm(rs1)`.
fn offset_and_base(numbers: &Numbers, word: &str) -> Result<(i32, u8), CaseFault> {
    let Some((offset, base)) = word.split_once('(') else {
        return Err(CaseFault::Unclear);
    };
    let base = base.strip_suffix(')').unwrap_or(base);
    Ok((immediate(numbers, offset)?, register(base)?))
}

fn immediate(numbers: &Numbers, word: &str) -> Result<i32, CaseFault> {
    Ok(numbers.read(without_comma(word))?.cast_signed())
}

/// The number of the register of this name.
fn register(word: &str) -> Result<u8, CaseFault> {
    number_of(&REGISTERS, without_comma(word))
}

fn number_of(registers: &[&str], name: &str) -> Result<u8, CaseFault> {
    let mut number: u8 = 0;
    for register in registers {
        if *register == name {
            return Ok(number);
        }
        number = number.saturating_add(1);
    }
    Err(CaseFault::Unclear)
}

fn without_comma(word: &str) -> &str {
    word.strip_suffix(',').unwrap_or(word)
}
