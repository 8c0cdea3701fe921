// The bytes that the words of a case make.
use std::alloc::Global;
use std::io;

pub fn unreadable() -> io::Error {
    io::ErrorKind::InvalidData.into()
}

/// The text before the first of these separators, and the text after it.
pub fn parted<'a>(text: &'a str, separator: &str) -> io::Result<(&'a str, &'a str)> {
    text.split_once(separator).ok_or_else(unreadable)
}

pub fn number(digits: &str) -> io::Result<usize> {
    let number = digits.parse::<u32>().map_err(|_| unreadable())?;
    Ok(number as usize)
}

fn digit(byte: u8) -> io::Result<u8> {
    match byte {
        b'0'..=b'9' => Ok(byte - b'0'),
        b'A'..=b'F' => Ok(byte - b'A' + 10),
        _ => Err(unreadable()),
    }
}

/// The bytes of these words.
pub fn of_words(alloc: Global, words: &str) -> io::Result<Vec<u8>> {
    let mut bytes = Vec::new(alloc);
    for word in words.split_whitespace() {
        add_word(&mut bytes, word)?;
    }
    Ok(bytes)
}

fn add_word(bytes: &mut Vec<u8>, word: &str) -> io::Result<()> {
    match word.split_once("*") {
        None => add_digits(bytes, word),
        Some((count, digits)) => add_times(bytes, number(count)?, digits),
    }
}

fn add_times(bytes: &mut Vec<u8>, count: usize, digits: &str) -> io::Result<()> {
    for _ in 0..count {
        add_digits(bytes, digits)?;
    }
    Ok(())
}

fn add_digits(bytes: &mut Vec<u8>, digits: &str) -> io::Result<()> {
    for pair in digits.as_bytes().chunks(2) {
        let [high, low] = pair else {
            return Err(unreadable());
        };
        bytes.push((digit(*high)? << 4) | digit(*low)?)?;
    }
    Ok(())
}

/// The base after these edits.
pub fn edited(alloc: Global, base: &[u8], edits: &str) -> io::Result<Vec<u8>> {
    let mut bytes = Vec::from_slice(alloc, base)?;
    for edit in edits.split_whitespace() {
        bytes = edited_once(alloc, bytes.as_slice(), edit)?;
    }
    Ok(bytes)
}

fn edited_once(alloc: Global, bytes: &[u8], edit: &str) -> io::Result<Vec<u8>> {
    let (place, rest) = parted(edit, ":")?;
    let (count, digits) = parted(rest, ":")?;
    let new = of_words(alloc, digits)?;
    spliced(alloc, bytes, number(place)?, number(count)?, new.as_slice())
}

/// The bytes with new ones in the place of so many.
fn spliced(
    alloc: Global,
    bytes: &[u8],
    place: usize,
    count: usize,
    new: &[u8],
) -> io::Result<Vec<u8>> {
    let front = bytes.get(..place).ok_or_else(unreadable)?;
    let rest = bytes.get(place..).ok_or_else(unreadable)?;
    let back = rest.get(count..).ok_or_else(unreadable)?;
    let mut spliced = Vec::from_slice(alloc, front)?;
    spliced.extend_from_slice(new)?;
    spliced.extend_from_slice(back)?;
    Ok(spliced)
}

/// The base with a number in a field of so many bytes.
pub fn with_number(
    alloc: Global,
    base: &[u8],
    place: usize,
    size: usize,
    number: usize,
) -> io::Result<Vec<u8>> {
    let bytes = number.to_le_bytes();
    let new = bytes.get(..size).ok_or_else(unreadable)?;
    spliced(alloc, base, place, size, new)
}

/// The base with these bits of one byte turned.
pub fn turned(alloc: Global, base: &[u8], place: usize, bits: u8) -> io::Result<Vec<u8>> {
    let byte = base.get(place).ok_or_else(unreadable)?;
    spliced(alloc, base, place, 1, &[*byte ^ bits])
}
