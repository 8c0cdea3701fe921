ghost use Rattle.std.specs.Prelude.{◌≡◌, ◌<◌, Option, Some, None, option_and_then};
ghost use Rattle.std.specs.Option.{option_map};
ghost use Rattle.asm_parts.specs.Texts.{behind};
ghost use Rattle.asm_parts.specs.Operands.{operands, one, two, three, based};

use crate::number::signed_number;
use crate::register::register;
use crate::text::{cut, without_last, without_spaces};

/// The one operand of a line with this rest behind its word.
#[tactic(auto, unfolding(crate::specs::Operands::one))]
pub fn one(rest: Option<&str>) -> Option<&str>
    ensures { option_map (λ a. a.now) result ≡ one (operands (behind rest.entry)) }
{
    match rest {
        Some(text) => one_in(text),
        None => None,
    }
}

fn one_in(text: &str) -> Option<&str>
    ensures { option_map (λ a. a.now) result ≡ one (operands (Some text.now)) }
{
    match cut(text, ',') {
        Some(_) => None,
        None => Some(without_spaces(text)),
    }
}

/// The two operands of a line with this rest behind its word.
#[tactic(auto, unfolding(crate::specs::Operands::two))]
pub fn two(rest: Option<&str>) -> Option<(&str, &str)>
    ensures { option_map (λ t. (t.0.now, t.1.now)) result ≡ two (operands (behind rest.entry)) }
{
    match rest {
        Some(text) => two_in(text),
        None => None,
    }
}

fn two_in(text: &str) -> Option<(&str, &str)>
    ensures { option_map (λ t. (t.0.now, t.1.now)) result ≡ two (operands (Some text.now)) }
{
    let (first, more) = cut(text, ',')?;
    let second = one_in(more)?;
    Some((without_spaces(first), second))
}

/// The three operands of a line with this rest behind its word.
#[tactic(auto, unfolding(crate::specs::Operands::three))]
pub fn three(rest: Option<&str>) -> Option<(&str, &str, &str)>
    ensures { option_map (λ t. (t.0.now, t.1.now, t.2.now)) result ≡ three (operands (behind rest.entry)) }
{
    match rest {
        Some(text) => three_in(text),
        None => None,
    }
}

fn three_in(text: &str) -> Option<(&str, &str, &str)>
    ensures { option_map (λ t. (t.0.now, t.1.now, t.2.now)) result ≡ three (operands (Some text.now)) }
{
    let (first, more) = cut(text, ',')?;
    let (second, third) = two_in(more)?;
    Some((without_spaces(first), second, third))
}

/// The offset and the register of an operand `n(rs1)`.
#[tactic(auto, unfolding(crate::specs::Operands::based))]
pub fn based(text: &str) -> Option<(i32, u8)>
    ensures { result ≡ based text.now }
{
    let (offset, base) = cut(text, '(')?;
    let offset = signed_number(offset)?;
    let base = register(without_last(base, ')')?)?;
    Some((offset, base))
}
