ghost use Rattle.std.specs.Prelude.{◌≡◌, pos};
ghost use Rattle.std.specs.Option.{option_map};
ghost use Rattle.asm_parts.specs.Texts.{behind};
ghost use Rattle.asm_lines.specs.Lines.{insn, bare, instruction};
ghost use Rattle.asm_lines.specs.Mnemonics.{operands_of};
ghost use Rattle.asm_lines.specs.declared.mnemonic.Operands.TheVariants.{Registers, Immediate, Load, Store, Branch, Upper, Jump, Nothing};
ghost use Rattle.asm_lines.specs.Statements.{meant};

use crate::mnemonic::{Operands, operands_of};
use crate::statement::Statement;
use asm_parts::number::{signed_number, upper_number};
use asm_parts::operands::{based, three, two};
use asm_parts::register::register;
use asm_parts::text::name_in;
use plain_process::{Insn, Op};

/// An instruction with these registers and no immediate.
pub(crate) fn of_registers(op: Op, rd: u8, rs1: u8, rs2: u8) -> Insn
    ensures { result ≡ insn op rd rs1 rs2 (pos 0) }
{
    Insn {
        op,
        rd,
        rs1,
        rs2,
        imm: 0,
    }
}

/// An instruction without operands.
fn bare(op: Op) -> Insn
    ensures { result ≡ bare op }
{
    let imm = match op {
        Op::Fence => 0xFF,
        _ => 0,
    };
    Insn {
        op,
        rd: 0,
        rs1: 0,
        rs2: 0,
        imm,
    }
}

/// What a line with this instruction's name says, where this stands behind it.
pub(crate) fn instruction(op: Op, rest: Option<&str>) -> Option<Statement<'_>>
    ensures { option_map meant result ≡ instruction op (operands_of op) (behind rest.entry) }
{
    match operands_of(op) {
        Operands::Registers => registers(op, rest),
        Operands::Immediate => immediate(op, rest),
        Operands::Load => load(op, rest),
        Operands::Store => store(op, rest),
        Operands::Branch => branch(op, rest),
        Operands::Upper => upper(op, rest),
        Operands::Jump => jump(op, rest),
        Operands::Nothing => nothing(op, rest),
    }
}

/// `rd, rs1, rs2`
#[tactic(auto, unfolding(crate::specs::Lines::instruction))]
fn registers(op: Op, rest: Option<&str>) -> Option<Statement<'_>>
    ensures { option_map meant result ≡ instruction op Registers (behind rest.entry) }
{
    let (rd, rs1, rs2) = three(rest)?;
    let rd = register(rd)?;
    let rs1 = register(rs1)?;
    let rs2 = register(rs2)?;
    Some(Statement::One(of_registers(op, rd, rs1, rs2)))
}

/// `rd, rs1, n`
#[tactic(auto, unfolding(crate::specs::Lines::instruction))]
fn immediate(op: Op, rest: Option<&str>) -> Option<Statement<'_>>
    ensures { option_map meant result ≡ instruction op Immediate (behind rest.entry) }
{
    let (rd, rs1, imm) = three(rest)?;
    let rd = register(rd)?;
    let rs1 = register(rs1)?;
    let imm = signed_number(imm)?;
    Some(Statement::One(Insn {
        op,
        rd,
        rs1,
        rs2: 0,
        imm,
    }))
}

/// `rd, n(rs1)`
#[tactic(auto, unfolding(crate::specs::Lines::instruction))]
fn load(op: Op, rest: Option<&str>) -> Option<Statement<'_>>
    ensures { option_map meant result ≡ instruction op Load (behind rest.entry) }
{
    let (rd, at) = two(rest)?;
    let rd = register(rd)?;
    let (imm, rs1) = based(at)?;
    Some(Statement::One(Insn {
        op,
        rd,
        rs1,
        rs2: 0,
        imm,
    }))
}

/// `rs2, n(rs1)`
#[tactic(auto, unfolding(crate::specs::Lines::instruction))]
fn store(op: Op, rest: Option<&str>) -> Option<Statement<'_>>
    ensures { option_map meant result ≡ instruction op Store (behind rest.entry) }
{
    let (rs2, at) = two(rest)?;
    let rs2 = register(rs2)?;
    let (imm, rs1) = based(at)?;
    Some(Statement::One(Insn {
        op,
        rd: 0,
        rs1,
        rs2,
        imm,
    }))
}

/// `rs1, rs2, label`
#[tactic(auto, unfolding(crate::specs::Lines::instruction))]
fn branch(op: Op, rest: Option<&str>) -> Option<Statement<'_>>
    ensures { option_map meant result ≡ instruction op Branch (behind rest.entry) }
{
    let (rs1, rs2, label) = three(rest)?;
    let rs1 = register(rs1)?;
    let rs2 = register(rs2)?;
    let label = name_in(label)?;
    Some(Statement::Aimed(of_registers(op, 0, rs1, rs2), label))
}

/// `rd, n`
#[tactic(auto, unfolding(crate::specs::Lines::instruction))]
fn upper(op: Op, rest: Option<&str>) -> Option<Statement<'_>>
    ensures { option_map meant result ≡ instruction op Upper (behind rest.entry) }
{
    let (rd, imm) = two(rest)?;
    let rd = register(rd)?;
    let imm = upper_number(imm)?;
    Some(Statement::One(Insn {
        op,
        rd,
        rs1: 0,
        rs2: 0,
        imm,
    }))
}

/// `rd, label`
#[tactic(auto, unfolding(crate::specs::Lines::instruction))]
fn jump(op: Op, rest: Option<&str>) -> Option<Statement<'_>>
    ensures { option_map meant result ≡ instruction op Jump (behind rest.entry) }
{
    let (rd, label) = two(rest)?;
    let rd = register(rd)?;
    let label = name_in(label)?;
    Some(Statement::Aimed(of_registers(op, rd, 0, 0), label))
}

/// No operands.
#[tactic(auto, unfolding(crate::specs::Lines::instruction))]
fn nothing(op: Op, rest: Option<&str>) -> Option<Statement<'_>>
    ensures { option_map meant result ≡ instruction op Nothing (behind rest.entry) }
{
    match rest {
        None => Some(Statement::One(bare(op))),
        Some(_) => None,
    }
}
