ghost use Rattle.std.specs.Prelude.{◌≡◌, ◌+◌, ◌≤◌, IfOk, IfErr, None};
ghost use Rattle.elf32.specs.Rules.{first_fault};
ghost use Rattle.asm_lines.specs.Lines.{statements_of};
ghost use Rattle.rv_asm.specs.Answers.{Refuses, number_of};
ghost use Rattle.rv_asm.specs.Files.{IsFile, entry_by};
ghost use Rattle.rv_asm.specs.Pieces.{START};
ghost use Rattle.rv_asm.specs.Labels.{lines_in, labels_in, IsBody};
ghost use Rattle.rv_asm.specs.Layout.{labels_of, end_of, label_in, BASE, FAR};

use crate::asm_fault::AsmFault;
use crate::elf_file::file_of;
use crate::labels::{Layout, label_in, layout_of};
use crate::layout::{HEADERS_LEN, LOAD_ADDRESS, placed_after};
use crate::piece::{ENTRY_LABEL, Position, put_piece};
use asm_lines::{Statement, read_text};
use std::alloc::Global;

/// The ELF file of a program's text.
///
/// # Errors
///
/// `Line`, the first line that breaks a rule, or `Memory`, which may come in place of any other answer.
pub fn assemble(alloc: Global, text: &str) -> Result<Vec<u8>, AsmFault>
    ensures file { IfOk result (λ file. IsFile (statements_of text.now) file.items) }
    ensures line { IfErr result (Refuses (statements_of text.now)) }

    // What follows for each file that is made.
    ensures accepted { IfOk result (λ file. first_fault file.items ≡ None) }
{
    let lines = read_text(alloc, text)?;
    let layout = layout_of(alloc, lines.as_slice())?;
    let body = body_of(alloc, &layout, lines.as_slice())?;
    let size = HEADERS_LEN + body.len() as u32;
    let file = file_of(alloc, entry_of(&layout), size, body.as_slice())?;
    Ok(file)
}

/// The address of the first instruction.
fn entry_of(layout: &Layout<'_>) -> u32
    requires { entry_by (label_in (labels_in layout.now.labels.items) START) ≤ FAR }
    ensures { result ≡ BASE + entry_by (label_in (labels_in layout.now.labels.items) START) }
{
    match label_in(layout.labels.as_slice(), ENTRY_LABEL) {
        Some(label) => LOAD_ADDRESS + label.place,
        None => LOAD_ADDRESS + HEADERS_LEN,
    }
}

/// The bytes of the lines behind one another.
fn body_of(
    alloc: Global,
    layout: &Layout<'_>,
    lines: &[Option<Statement<'_>>],
) -> Result<Vec<u8>, AsmFault>
    requires labels { labels_in layout.now.labels.items ≡ labels_of (lines_in lines.now) }
    requires end { layout.now.end ≡ end_of (lines_in lines.now) }
    ensures body { IfOk result (λ body. IsBody (lines_in lines.now) body.items) }
    ensures line { IfErr result (Refuses (lines_in lines.now)) }
{
    let mut body = Vec::new(alloc);
    let mut place = HEADERS_LEN;
    for (line, statement) in lines.iter().enumerate() {
        let at = Position { line, place };
        if !put_piece(&mut body, layout, at, statement)? {
            return Err(AsmFault::Line(number_of(line)));
        }
        place = placed_after(place, statement);
    }
    Ok(body)
}

/// The number of a line, counted from 1.
fn number_of(line: usize) -> u32
    ensures { result ≡ number_of line }
{
    line.saturating_add(1).min(u32::MAX as usize) as u32
}
