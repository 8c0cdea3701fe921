ghost use Rattle.std.specs.Prelude.{◌≡◌, ◌<◌, ◌++◌, [], ◌∷◌, IfSome, IfNone, IsSome, OnOk, Option, Some, None, length, unwrap_or};
ghost use Rattle.std.specs.Option.{option_map};
ghost use Rattle.asm_parts.specs.Quotes.{escaped, plain, spelled, quoted, put_first};

use crate::text::{without_first, without_last};
use std::alloc::AllocError;

/// The byte that a character stands for behind a backslash.
#[tactic(auto, unfolding(crate::specs::Quotes::escaped))]
fn escaped(character: u8) -> Option<u8>
    ensures { result ≡ escaped character }
{
    match character {
        b'n' => Some(b'\n'),
        b'0' => Some(0),
        b'\\' | b'"' => Some(character),
        _ => None,
    }
}

/// The byte of a character that stands for itself.
#[tactic(auto, unfolding(crate::specs::Quotes::plain))]
fn plain(character: u8) -> Option<u8>
    ensures { result ≡ plain character }
{
    match character {
        b'\\' | b'"' => None,
        b' '..=b'~' => Some(character),
        _ => None,
    }
}

/// The byte that a text spells first, and the text behind it. `None` exactly where it spells none.
#[tactic(auto, unfolding(crate::specs::Quotes::spelled))]
fn next(inside: &[u8]) -> Option<(u8, &[u8])>
    requires { 0 < length inside.now }
    ensures some { IfSome result (λ found.
        spelled inside.now ≡ put_first (Some found.0) (spelled found.1.now)) }
    ensures shorter { IfSome result (λ found. length found.1.now < length inside.now) }
    ensures none { IfNone result (spelled inside.now ≡ None) }
{
    match inside {
        [b'\\', character, rest @ ..] => Some((escaped(*character)?, rest)),
        [character, rest @ ..] => Some((plain(*character)?, rest)),
        [] => None,
    }
}

/// How many bytes the inside of a quoted text spells. `None` where it spells none.
pub fn spelled_len(inside: &str) -> Option<usize>
    ensures { result ≡ option_map length (spelled inside.now) }
{
    let mut rest = inside.as_bytes();
    let mut count = 0;
    while !rest.is_empty() {
        let (_, behind) = next(rest)?;
        rest = behind;
        count += 1;
    }
    Some(count)
}

/// Puts the bytes that the inside of a quoted text spells behind others; none where it spells none.
///
/// # Errors
///
/// Where memory is wanted.
pub fn put_spelled(out: &mut Vec<u8>, inside: &str) -> Result<(), AllocError>
    ensures { OnOk result (out.new.items ≡ out.old.items ++ unwrap_or (spelled inside.now) []) }
{
    if spelled_len(inside).is_none() {
        return Ok(());
    }
    let mut rest = inside.as_bytes();
    while !rest.is_empty() {
        let Some((byte, behind)) = next(rest) else {
            unreachable!()
        };
        out.push(byte)?;
        rest = behind;
    }
    Ok(())
}

/// The inside of a quoted text that spells bytes.
#[tactic(auto, unfolding(crate::specs::Quotes::quoted))]
pub fn quoted(text: &str) -> Option<&str>
    ensures value { IfSome result (λ inside. quoted text.now ≡ spelled inside.now) }
    ensures some { IfSome result (λ inside. IsSome (spelled inside.now)) }
    ensures none { IfNone result (quoted text.now ≡ None) }
{
    let inside = without_last(without_first(text, '"')?, '"')?;
    spelled_len(inside)?;
    Some(inside)
}
