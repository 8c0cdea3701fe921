ghost use Rattle.std.specs.Prelude.{◌≡◌, ◌+◌, ◌-◌, ◌%◌, ◌^◌, ◌≤◌, min};
ghost use Rattle.std.specs.Option.{option_map};
ghost use Rattle.asm_lines.specs.Statements.{meant};
ghost use Rattle.rv_asm.specs.Layout.{size_at, placed_after, FAR};

use asm_lines::Statement;
use asm_parts::quoted::spelled_len;

/// The size of the headers of a file.
pub(crate) const HEADERS_LEN: u32 = 84;

/// The address at which a file is loaded.
pub(crate) const LOAD_ADDRESS: u32 = 0x1_0000;

/// The greatest size of a file.
pub(crate) const MOST_BYTES: u32 = 4_194_304;

/// The last place, which stands for those past it too.
const LAST_PLACE: usize = 0x7FFF_FFFF;

/// How many bytes a statement has at this place.
#[tactic(auto, unfolding(crate::specs::Layout::size_at))]
fn size_at(place: u32, statement: &Statement<'_>) -> usize
    ensures { result ≡ size_at place (meant statement.now) }
{
    match statement {
        Statement::Nothing | Statement::Label(_) => 0,
        Statement::One(_) | Statement::Aimed(_, _) | Statement::Word(_) => 4,
        Statement::Constant(_, _) | Statement::Address(_, _) => 8,
        Statement::Byte(_) => 1,
        Statement::Zeros(count) => *count as usize,
        Statement::Ascii(inside) => spelled_len(inside).unwrap_or(0),
        Statement::Align => padding(place) as usize,
    }
}

/// How many bytes there are from a place up to the next multiple of 4.
pub(crate) fn padding(place: u32) -> u32
    ensures { result ≡ (2 ^ 32 - place) % 4 }
{
    place.wrapping_neg() % 4
}

/// The place behind a line.
pub(crate) fn placed_after(place: u32, line: &Option<Statement<'_>>) -> u32
    ensures { result ≡ placed_after place (option_map meant line.now) }
{
    match line {
        Some(statement) => end_at(place, size_at(place, statement)),
        None => place,
    }
}

fn end_at(place: u32, size: usize) -> u32
    ensures { result ≡ min (place + size) FAR }
{
    (place as usize).saturating_add(size).min(LAST_PLACE) as u32
}
