ghost use Rattle.std.specs.Prelude.{◌≡◌, Option, Some, map, IfOk};
ghost use Rattle.std.specs.Option.{option_map};
ghost use Rattle.asm_lines.specs.Lines.{command, commanded, statement_of, statements_of, labelled_or_commanded};
ghost use Rattle.asm_parts.specs.Texts.{behind, cut, without_last, name_in, SPACE, COLON};
ghost use Rattle.asm_lines.specs.Statements.{meant, label};

use crate::form::form_named;
use crate::formed::formed;
use crate::instruction::instruction;
use crate::mnemonic::op_named;
use crate::statement::Statement;
use asm_parts::text::{cut, name_in, without_last, without_spaces};
use std::alloc::{AllocError, Global};

/// What each line of a text says, in order; `None` for a line that is none of the language.
///
/// # Errors
///
/// Where memory is wanted.
pub fn read_text(alloc: Global, text: &str) -> Result<Vec<Option<Statement<'_>>>, AllocError>
    ensures { IfOk result (λ list. map (option_map meant) list.items ≡ statements_of text.now) }
{
    text.split('\n').map(statement_of).collect(alloc)
}

/// What a line says.
#[tactic(auto, unfolding(crate::specs::Lines::statement_of))]
fn statement_of(line: &str) -> Option<Statement<'_>>
    ensures { option_map meant result ≡ statement_of line.now }
{
    let text = without_spaces(line);
    match text.as_bytes() {
        [] | [b'#', ..] => Some(Statement::Nothing),
        _ => labelled_or_commanded(text),
    }
}

/// What a line says that is neither empty nor a comment.
fn labelled_or_commanded(text: &str) -> Option<Statement<'_>>
    ensures { option_map meant result ≡ labelled_or_commanded text.now (without_last COLON text.now) }
{
    match without_last(text, ':') {
        Some(name) => labelled(name),
        None => commanded(text),
    }
}

fn labelled(name: &str) -> Option<Statement<'_>>
    ensures { option_map meant result ≡ option_map label (name_in name.now) }
{
    let name = name_in(name)?;
    Some(Statement::Label(name))
}

/// What a word says with what stands behind it.
fn commanded(text: &str) -> Option<Statement<'_>>
    ensures { option_map meant result ≡ commanded text.now (cut SPACE text.now) }
{
    match cut(text, ' ') {
        Some((word, rest)) => command(word, Some(rest)),
        None => command(text, None),
    }
}

#[tactic(auto, unfolding(crate::specs::Lines::command))]
fn command<'a>(word: &str, rest: Option<&'a str>) -> Option<Statement<'a>>
    ensures { option_map meant result ≡ command word.now (behind rest.entry) }
{
    match form_named(word) {
        Some(form) => formed(form, rest),
        None => instruction(op_named(word)?, rest),
    }
}
