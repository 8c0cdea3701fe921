ghost use Rattle.std.specs.Prelude.{◌≡◌, [], ◌∷◌, Some, is_some, unwrap_or};
ghost use Rattle.std.specs.Prelude.{replicate};
ghost use Rattle.std.specs.Option.{option_map};
ghost use Rattle.asm_parts.specs.Quotes.{spelled};
ghost use Rattle.asm_lines.specs.Statements.{meant};
ghost use Rattle.rv_asm.specs.Labels.{Adds, labels_in, label_seen};
ghost use Rattle.rv_asm.specs.Layout.{label_in};
ghost use Rattle.rv_asm.specs.Pieces.{is_entry, label_at, aimed_at, address_at, statement_at, piece};

use crate::labels::{Label, Layout, label_in};
use crate::layout::{MOST_BYTES, padding, placed_after};
use crate::words::{distance, is_aligned, put_insn, put_two_parts, put_word, with_immediate};
use asm_lines::Statement;
use asm_parts::quoted::put_spelled;
use rv_words::{Insn, Op};
use std::alloc::AllocError;

/// The label at which a program starts.
pub(crate) const ENTRY_LABEL: &str = "_start";

/// The size of a page.
const PAGE_SIZE: u32 = 4096;

/// Where a line stands.
#[derive(Clone, Copy)]
pub(crate) struct Position {
    /// The line, counted from 0.
    pub(crate) line: usize,
    /// Its place in the file.
    pub(crate) place: u32,
}

/// Whether an instruction may begin at this place of a file with this end, in a page with a byte of it.
fn is_entry(end: u32, place: u32) -> bool
    ensures { result ≡ is_entry end place }
{
    is_aligned(place) && (place < end || place % PAGE_SIZE != 0)
}

/// Whether a label of this name may stand here.
fn may_stand(layout: &Layout<'_>, at: Position, name: &str) -> bool
    ensures { let first = label_in (labels_in layout.now.labels.items) name.now in
        result ≡ is_some (label_at first layout.now.end at.line at.place name.now) }
{
    let Some(first) = label_in(layout.labels.as_slice(), name) else {
        return false;
    };
    first.line == at.line && (name != ENTRY_LABEL || is_entry(layout.end, at.place))
}

/// Puts a jump or a branch to a label.
fn put_aimed(
    out: &mut Vec<u8>,
    place: u32,
    insn: Insn,
    label: Option<Label<'_>>,
) -> Result<bool, AllocError>
    ensures { Adds result out.old.items out.new.items
        (aimed_at place insn (option_map label_seen label.entry)) }
{
    match label {
        Some(label) => put_insn(
            out,
            place,
            with_immediate(insn, distance(place, label.place)),
        ),
        None => Ok(false),
    }
}

/// Puts the two instructions that take a label's address.
fn put_address(
    out: &mut Vec<u8>,
    place: u32,
    rd: u8,
    label: Option<Label<'_>>,
) -> Result<bool, AllocError>
    ensures { Adds result out.old.items out.new.items
        (address_at place rd (option_map label_seen label.entry)) }
{
    match label {
        Some(label) => put_two_parts(out, place, Op::Auipc, rd, distance(place, label.place)),
        None => Ok(false),
    }
}

fn put_zeros(out: &mut Vec<u8>, count: u32) -> Result<bool, AllocError>
    ensures { Adds result out.old.items out.new.items (Some (replicate count 0)) }
{
    let end = out.len() + count as usize;
    out.resize(end, 0)?;
    Ok(true)
}

fn put_byte(out: &mut Vec<u8>, byte: u8) -> Result<bool, AllocError>
    ensures { Adds result out.old.items out.new.items (Some (byte ∷ [])) }
{
    out.push(byte)?;
    Ok(true)
}

fn put_text(out: &mut Vec<u8>, inside: &str) -> Result<bool, AllocError>
    ensures { Adds result out.old.items out.new.items (Some (unwrap_or (spelled inside.now) [])) }
{
    put_spelled(out, inside)?;
    Ok(true)
}

/// Puts the bytes of a statement behind others. `false` where it breaks a rule.
#[tactic(auto, unfolding(crate::specs::Pieces::statement_at, crate::specs::Layout::size_at))]
fn put_statement(
    out: &mut Vec<u8>,
    layout: &Layout<'_>,
    at: Position,
    statement: &Statement<'_>,
) -> Result<bool, AllocError>
    ensures { Adds result out.old.items out.new.items
        (statement_at (labels_in layout.now.labels.items) layout.now.end at.line at.place
        (meant statement.now)) }
{
    let labels = layout.labels.as_slice();
    match statement {
        Statement::Nothing => Ok(true),
        Statement::Label(name) => Ok(may_stand(layout, at, name)),
        Statement::One(insn) => put_insn(out, at.place, *insn),
        Statement::Aimed(insn, name) => put_aimed(out, at.place, *insn, label_in(labels, name)),
        Statement::Constant(rd, value) => put_two_parts(out, at.place, Op::Lui, *rd, *value),
        Statement::Address(rd, name) => put_address(out, at.place, *rd, label_in(labels, name)),
        Statement::Word(word) => put_word(out, at.place, *word),
        Statement::Byte(byte) => put_byte(out, *byte),
        Statement::Zeros(count) => put_zeros(out, *count),
        Statement::Ascii(inside) => put_text(out, inside),
        Statement::Align => put_zeros(out, padding(at.place)),
    }
}

/// Puts the bytes of a line behind others. `false` where it breaks a rule.
#[tactic(auto, unfolding(crate::specs::Pieces::piece))]
pub(crate) fn put_piece(
    out: &mut Vec<u8>,
    layout: &Layout<'_>,
    at: Position,
    line: &Option<Statement<'_>>,
) -> Result<bool, AllocError>
    ensures { Adds result out.old.items out.new.items
        (piece (labels_in layout.now.labels.items) layout.now.end at.line at.place
        (option_map meant line.now)) }
{
    let Some(statement) = line else {
        return Ok(false);
    };
    if placed_after(at.place, line) > MOST_BYTES {
        return Ok(false);
    }
    put_statement(out, layout, at, statement)
}
