ghost use Rattle.std.specs.Prelude.{◌≡◌, ◌≤◌, ◌⊎◌, ◌≤ℤ◌, pos, negsuc, IfSome};
ghost use Rattle.std.specs.Option.{option_map};
ghost use Rattle.std.specs.Int.{w8, cast_unsigned};
ghost use Rattle.plain_process.specs.Instructions.{word};
ghost use Rattle.asm_parts.specs.Numbers.{numeral, unsigned_by, behind_0x, number_of, number_in, signed_number, upper_number, word_number, byte_number, zeros_number};

use crate::text::without_first;

/// The number that these digits spell, of at most 32 bits.
fn numeral(digits: &str, base: u32) -> Option<u32>
    requires { (base ≡ 10) ⊎ (base ≡ 16) }
    ensures { result ≡ numeral base digits.now }
{
    // `from_str_radix` takes a sign too.
    if digits.starts_with('+') {
        return None;
    }
    u32::from_str_radix(digits, base).ok()
}

/// The number of a text: decimal with an optional `-`, or hexadecimal behind `0x`.
#[tactic(auto, unfolding(crate::specs::Numbers::number_of))]
fn number_of(text: &str) -> Option<i64>
    ensures { result ≡ number_of text.now }
{
    match without_first(text, '-') {
        Some(digits) => Some(-i64::from(numeral(digits, 10)?)),
        None => unsigned(text),
    }
}

/// The number of a text without a sign.
fn unsigned(text: &str) -> Option<i64>
    ensures { result ≡ unsigned_by (behind_0x text.now) text.now }
{
    match behind_0x(text) {
        Some(digits) => Some(i64::from(numeral(digits, 16)?)),
        None => Some(i64::from(numeral(text, 10)?)),
    }
}

/// What stands behind `0x`.
fn behind_0x(text: &str) -> Option<&str>
    ensures { option_map (λ digits. digits.now) result ≡ behind_0x text.now }
{
    without_first(without_first(text, '0')?, 'x')
}

/// The number of a text, if it is from `low` to `high`.
#[tactic(auto, unfolding(crate::specs::Numbers::number_in))]
fn number_in(text: &str, low: i64, high: i64) -> Option<i64>
    ensures value { result ≡ number_in low high text.now }
    ensures low { IfSome result (λ number. low ≤ℤ number) }
    ensures high { IfSome result (λ number. number ≤ℤ high) }
{
    let number = number_of(text)?;
    if number < low {
        return None;
    }
    if high < number {
        return None;
    }
    Some(number)
}

/// An immediate with its sign.
#[tactic(auto, unfolding(crate::specs::Numbers::signed_number))]
pub fn signed_number(text: &str) -> Option<i32>
    ensures { result ≡ signed_number text.now }
{
    let number = number_in(text, -0x8000_0000, 0x7FFF_FFFF)?;
    Some(number as i32)
}

/// A word, signed or unsigned.
#[tactic(auto, unfolding(crate::specs::Numbers::word_number))]
pub fn word_number(text: &str) -> Option<u32>
    ensures { result ≡ word_number text.now }
{
    let number = number_in(text, -0x8000_0000, 0xFFFF_FFFF)?;
    Some(word_of(number))
}

/// The word of a number that is signed or unsigned.
fn word_of(number: i64) -> u32
    requires low { negsuc 0x7FFF_FFFF ≤ℤ number }
    requires high { number ≤ℤ pos 0xFFFF_FFFF }
    ensures { result ≡ word number }
{
    if number < 0 {
        (number as i32).cast_unsigned()
    } else {
        number as u32
    }
}

/// A byte, signed or unsigned.
#[tactic(auto, unfolding(crate::specs::Numbers::byte_number))]
pub fn byte_number(text: &str) -> Option<u8>
    ensures { result ≡ byte_number text.now }
{
    let number = number_in(text, -128, 255)?;
    Some(byte_of(number))
}

/// The byte of a number that is signed or unsigned.
fn byte_of(number: i64) -> u8
    requires low { negsuc 127 ≤ℤ number }
    requires high { number ≤ℤ pos 255 }
    ensures { result ≡ cast_unsigned w8 number }
{
    if number < 0 {
        (number as i8).cast_unsigned()
    } else {
        number as u8
    }
}

/// A number from 0 to this one.
fn count_to(text: &str, most: u32) -> Option<u32>
    ensures value { result ≡ option_map word (number_in (pos 0) (pos most) text.now) }
    ensures most { IfSome result (λ count. count ≤ most) }
{
    let number = number_in(text, 0, i64::from(most))?;
    Some(number as u32)
}

/// A word whose upper 20 bits the text has.
#[tactic(auto, unfolding(crate::specs::Numbers::upper_number))]
pub fn upper_number(text: &str) -> Option<i32>
    ensures { result ≡ upper_number text.now }
{
    let upper = count_to(text, 0xF_FFFF)?;
    Some((upper * 0x1000).cast_signed())
}

/// How many zeros a line has.
#[tactic(auto, unfolding(crate::specs::Numbers::zeros_number))]
pub fn zeros_number(text: &str) -> Option<u32>
    ensures { result ≡ zeros_number text.now }
{
    count_to(text, 1_048_576)
}
