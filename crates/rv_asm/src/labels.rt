ghost use Rattle.std.specs.Prelude.{◌≡◌, ◌++◌, IfOk, OnOk, find};
ghost use Rattle.std.specs.Option.{option_map};
ghost use Rattle.std.specs.Str.{bytes_eq};
ghost use Rattle.asm_lines.specs.Statements.{meant};
ghost use Rattle.rv_asm.specs.Labels.{lines_in, labels_in, label_seen};
ghost use Rattle.rv_asm.specs.Layout.{labels_of, labels_at, end_of, label_in};

use crate::layout::{HEADERS_LEN, placed_after};
use asm_lines::Statement;
use std::alloc::{AllocError, Global};

/// A label.
#[derive(Clone, Copy)]
pub(crate) struct Label<'a> {
    name: &'a str,
    /// Where it stands in the file.
    pub(crate) place: u32,
    /// Its line, counted from 0.
    pub(crate) line: usize,
}

/// The labels of a text, in their order, and the end of its file.
#[derive(Drop)]
pub(crate) struct Layout<'a> {
    pub(crate) labels: Vec<Label<'a>>,
    pub(crate) end: u32,
}

/// The layout of these lines.
pub(crate) fn layout_of<'a>(
    alloc: Global,
    lines: &[Option<Statement<'a>>],
) -> Result<Layout<'a>, AllocError>
    ensures labels { IfOk result (λ layout. labels_in layout.labels.items ≡ labels_of (lines_in lines.now)) }
    ensures end { IfOk result (λ layout. layout.end ≡ end_of (lines_in lines.now)) }
{
    let mut labels = Vec::new(alloc);
    let mut place = HEADERS_LEN;
    for (line, statement) in lines.iter().enumerate() {
        add_label(&mut labels, place, line, statement)?;
        place = placed_after(place, statement);
    }
    Ok(Layout { labels, end: place })
}

/// Puts the label of a line behind others, where it has one.
fn add_label<'a>(
    labels: &mut Vec<Label<'a>>,
    place: u32,
    line: usize,
    statement: &Option<Statement<'a>>,
) -> Result<(), AllocError>
    ensures { OnOk result (labels_in labels.new.items ≡ labels_in labels.old.items
        ++ labels_at place line (option_map meant statement.now)) }
{
    match statement {
        Some(Statement::Label(name)) => Ok(labels.push(Label { name, place, line })?),
        _ => Ok(()),
    }
}

/// The first label of this name.
pub(crate) fn label_in<'a>(labels: &[Label<'a>], name: &str) -> Option<Label<'a>>
    ensures { option_map label_seen result ≡ label_in (labels_in labels.now) name.now }
{
    first_named(labels, name)
}

fn first_named<'a>(labels: &[Label<'a>], name: &str) -> Option<Label<'a>>
    ensures { result ≡ find (λ label. bytes_eq label.name.now name.now) labels.now }
{
    labels.iter().copied().find(|label| label.name == name)
}
