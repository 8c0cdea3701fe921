ghost use Rattle.std.specs.Prelude.{◌≡◌};
ghost use Rattle.std.specs.Option.{option_map};
ghost use Rattle.asm_parts.specs.Texts.{behind};
ghost use Rattle.asm_lines.specs.Lines.{formed, jump, alone};
ghost use Rattle.asm_lines.specs.declared.form.Form.TheVariants.{Li, La, Mv, Word, Byte, Zero, Ascii};
ghost use Rattle.asm_lines.specs.Statements.{meant};

use crate::form::Form;
use crate::instruction::of_registers;
use crate::statement::Statement;
use asm_parts::number::{byte_number, word_number, zeros_number};
use asm_parts::operands::{one, two};
use asm_parts::quoted::quoted;
use asm_parts::register::register;
use asm_parts::text::{name_in, without_spaces};
use plain_process::Op;

/// The register of return addresses.
const RA: u8 = 1;

/// What a line of this form says, where this stands behind its word.
#[tactic(auto, unfolding(crate::specs::Lines::formed))]
pub(crate) fn formed(form: Form, rest: Option<&str>) -> Option<Statement<'_>>
    ensures { option_map meant result ≡ formed form (behind rest.entry) }
{
    match form {
        Form::Li => constant(rest),
        Form::La => address(rest),
        Form::Mv => copied(rest),
        Form::J => jump(0, rest),
        Form::Call => jump(RA, rest),
        Form::Ret => alone(Statement::One(of_registers(Op::Jalr, 0, RA, 0)), rest),
        Form::Nop => alone(Statement::One(of_registers(Op::Addi, 0, 0, 0)), rest),
        Form::Word => word(rest),
        Form::Byte => byte(rest),
        Form::Zero => zeros(rest),
        Form::Ascii => ascii(rest),
        Form::Align => alone(Statement::Align, rest),
    }
}

/// The statement, where nothing stands behind its word.
fn alone<'a>(statement: Statement<'a>, rest: Option<&'a str>) -> Option<Statement<'a>>
    ensures { option_map meant result ≡ alone (meant statement.entry) (behind rest.entry) }
{
    match rest {
        None => Some(statement),
        Some(_) => None,
    }
}

/// `li rd, n`
#[tactic(auto, unfolding(crate::specs::Lines::formed))]
fn constant(rest: Option<&str>) -> Option<Statement<'_>>
    ensures { option_map meant result ≡ formed Li (behind rest.entry) }
{
    let (rd, value) = two(rest)?;
    let rd = register(rd)?;
    let value = word_number(value)?;
    Some(Statement::Constant(rd, value))
}

/// `la rd, label`
#[tactic(auto, unfolding(crate::specs::Lines::formed))]
fn address(rest: Option<&str>) -> Option<Statement<'_>>
    ensures { option_map meant result ≡ formed La (behind rest.entry) }
{
    let (rd, label) = two(rest)?;
    let rd = register(rd)?;
    let label = name_in(label)?;
    Some(Statement::Address(rd, label))
}

/// `mv rd, rs1`
#[tactic(auto, unfolding(crate::specs::Lines::formed))]
fn copied(rest: Option<&str>) -> Option<Statement<'_>>
    ensures { option_map meant result ≡ formed Mv (behind rest.entry) }
{
    let (rd, rs1) = two(rest)?;
    let rd = register(rd)?;
    let rs1 = register(rs1)?;
    Some(Statement::One(of_registers(Op::Addi, rd, rs1, 0)))
}

/// `j label`, `call label`
fn jump(rd: u8, rest: Option<&str>) -> Option<Statement<'_>>
    ensures { option_map meant result ≡ jump rd (behind rest.entry) }
{
    let label = name_in(one(rest)?)?;
    Some(Statement::Aimed(of_registers(Op::Jal, rd, 0, 0), label))
}

/// `.word n`
#[tactic(auto, unfolding(crate::specs::Lines::formed))]
fn word(rest: Option<&str>) -> Option<Statement<'_>>
    ensures { option_map meant result ≡ formed Word (behind rest.entry) }
{
    let value = word_number(one(rest)?)?;
    Some(Statement::Word(value))
}

/// `.byte n`
#[tactic(auto, unfolding(crate::specs::Lines::formed))]
fn byte(rest: Option<&str>) -> Option<Statement<'_>>
    ensures { option_map meant result ≡ formed Byte (behind rest.entry) }
{
    let value = byte_number(one(rest)?)?;
    Some(Statement::Byte(value))
}

/// `.zero n`
#[tactic(auto, unfolding(crate::specs::Lines::formed))]
fn zeros(rest: Option<&str>) -> Option<Statement<'_>>
    ensures { option_map meant result ≡ formed Zero (behind rest.entry) }
{
    let count = zeros_number(one(rest)?)?;
    Some(Statement::Zeros(count))
}

/// `.ascii "text"`
#[tactic(auto, unfolding(crate::specs::Lines::formed))]
fn ascii(rest: Option<&str>) -> Option<Statement<'_>>
    ensures { option_map meant result ≡ formed Ascii (behind rest.entry) }
{
    let inside = quoted(without_spaces(rest?))?;
    Some(Statement::Ascii(inside))
}
