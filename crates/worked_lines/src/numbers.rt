//! The numbers of a case.

/// The number of hex digits.
pub fn hex(text: &str) -> Option<u32> {
    u32::from_str_radix(text, 16).ok()
}

/// A first word, and the text behind the space after it.
pub fn first_of(text: &str) -> (&str, &str) {
    text.split_once(' ').unwrap_or((text, ""))
}
