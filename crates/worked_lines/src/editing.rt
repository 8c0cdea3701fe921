use std::alloc::Global;
use std::io;

/// How many bytes the header of a file has.
const FILE_HEADER: usize = 52;

/// How many bytes a program header has.
const PROGRAM_HEADER: usize = 32;

fn unreadable() -> io::Error {
    io::ErrorKind::InvalidData.into()
}

/// The text before the first of these separators, and the text after it.
pub fn parted<'a>(text: &'a str, separator: &str) -> io::Result<(&'a str, &'a str)> {
    text.split_once(separator).ok_or_else(unreadable)
}

/// The file that these words make of the base.
pub fn edited(alloc: Global, base: &[u8], how: &str) -> io::Result<Vec<u8>> {
    let (verb, rest) = parted(how, " ")?;
    match verb {
        "bytes" => of_digits(alloc, rest),
        "first" => of_first(alloc, base, rest),
        "turn" => turned(alloc, base, rest),
        "headers" => of_headers(alloc, base, rest),
        _ => Err(unreadable()),
    }
}

fn digit(byte: u8) -> io::Result<u8> {
    match byte {
        b'0'..=b'9' => Ok(byte - b'0'),
        b'A'..=b'F' => Ok(byte - b'A' + 10),
        _ => Err(unreadable()),
    }
}

fn number(digits: &str) -> io::Result<u32> {
    let mut number = 0;
    for byte in digits.as_bytes() {
        number = (number << 4) | u32::from(digit(*byte)?);
    }
    Ok(number)
}

fn of_digits(alloc: Global, digits: &str) -> io::Result<Vec<u8>> {
    let mut bytes = Vec::new(alloc);
    for pair in digits.as_bytes().chunks(2) {
        if let [high, low] = pair {
            bytes.push((digit(*high)? << 4) | digit(*low)?)?;
        }
    }
    Ok(bytes)
}

fn of_first(alloc: Global, base: &[u8], count: &str) -> io::Result<Vec<u8>> {
    let first = base.get(..number(count)? as usize).ok_or_else(unreadable)?;
    Ok(Vec::from_slice(alloc, first)?)
}

fn turned(alloc: Global, base: &[u8], rest: &str) -> io::Result<Vec<u8>> {
    let (place, bits) = parted(rest, " ")?;
    let place = number(place)? as usize;
    let bits = u8::try_from(number(bits)?).map_err(|_| unreadable())?;
    let mut file = Vec::from_slice(alloc, base)?;
    let byte = file.get_mut(place).ok_or_else(unreadable)?;
    *byte ^= bits;
    Ok(file)
}

fn of_headers(alloc: Global, base: &[u8], rest: &str) -> io::Result<Vec<u8>> {
    let (entry, headers) = parted(rest, " ")?;
    let entry = number(entry)?;
    let table = table(alloc, headers)?;
    let mut file = file_header(alloc, base, entry, table.len() / PROGRAM_HEADER)?;
    file.extend_from_slice(table.as_slice())?;
    Ok(file)
}

/// The header of the base with another entry and another count of program headers.
fn file_header(alloc: Global, base: &[u8], entry: u32, count: usize) -> io::Result<Vec<u8>> {
    let count = u16::try_from(count).map_err(|_| unreadable())?;
    let header = base.get(..FILE_HEADER).ok_or_else(unreadable)?;
    let mut file = Vec::from_slice(alloc, header)?;
    replace(&mut file, 24, &entry.to_le_bytes())?;
    replace(&mut file, 44, &count.to_le_bytes())?;
    Ok(file)
}

fn replace(file: &mut [u8], place: usize, bytes: &[u8]) -> io::Result<()> {
    let end = place.checked_add(bytes.len()).ok_or_else(unreadable)?;
    let old = file.get_mut(place..end).ok_or_else(unreadable)?;
    old.copy_from_slice(bytes);
    Ok(())
}

fn table(alloc: Global, headers: &str) -> io::Result<Vec<u8>> {
    let mut table = Vec::new(alloc);
    for header in headers.split_whitespace() {
        add_header(alloc, &mut table, header)?;
    }
    Ok(table)
}

/// Adds the program header of these five fields.
fn add_header(alloc: Global, table: &mut Vec<u8>, fields: &str) -> io::Result<()> {
    let mut numbers = Vec::new(alloc);
    for field in fields.split(':') {
        numbers.push(number(field)?)?;
    }
    let [kind, address, bytes, memory, flags] = numbers.as_slice() else {
        return Err(unreadable());
    };
    for word in [
        *kind, 0, *address, *address, *bytes, *memory, *flags, 0x1000,
    ] {
        table.extend_from_slice(&word.to_le_bytes())?;
    }
    Ok(())
}
