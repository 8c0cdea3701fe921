use crate::printing::put_hexadecimal;
use set_disk::{FileName, Folder, MemFolder};
use std::alloc::Global;
use std::fmt::Write;
use worked_guests::fault::CaseFault;
use worked_guests::numbers::{Numbers, long, unsigned};

/// How many bytes of a file are printed.
const MOST_SHOWN: usize = 64;

/// The folder that a crash right after a call of this number may leave, by one of three patterns: 0
/// without what no sync has made sure, 1 with all of it, 2 with other bytes in its place.
pub fn after_crash(
    alloc: Global,
    disk: &MemFolder,
    call: u64,
    pattern: u8,
) -> Result<MemFolder, CaseFault> {
    if call == 0 || disk.calls() < call || 3 <= pattern {
        return Err(CaseFault::Unclear);
    }
    Ok(disk.crash_image(alloc, call, pattern)?)
}

/// A folder with the same files, in which no call was made.
pub fn copied(alloc: Global, disk: &MemFolder) -> Result<MemFolder, CaseFault> {
    match disk.calls() {
        0 => Ok(MemFolder::new(alloc, &[])?),
        calls => after_crash(alloc, disk, calls, 1),
    }
}

/// Does a file harm: cuts it to so many bytes, or writes a byte or a number of four bytes at a place.
pub fn harm(disk: &mut MemFolder, numbers: &Numbers, words: &[String]) -> Result<(), CaseFault> {
    let [slot, index, how, rest @ ..] = words else {
        return Err(CaseFault::Unclear);
    };
    let name = file_name(slot.as_str(), index.as_str())?;
    match rest {
        [length] if how.as_str() == "cut" => Ok(disk.cut(name, long(length.as_str())?)?),
        [at, value] => {
            let number = numbers.read(value.as_str())?.to_le_bytes();
            Ok(disk.write_at(name, long(at.as_str())?, written(how.as_str(), &number)?)?)
        }
        _ => Err(CaseFault::Unclear),
    }
}

/// What is written of a number.
fn written<'n>(how: &str, number: &'n [u8; 4]) -> Result<&'n [u8], CaseFault> {
    match (how, number) {
        ("byte", [_, 0, 0, 0]) => Ok(&number[..1]),
        ("number", _) => Ok(number),
        _ => Err(CaseFault::Unclear),
    }
}

/// The name of a file by its slot and its index.
pub fn file_name(slot: &str, index: &str) -> Result<FileName, CaseFault> {
    Ok(FileName {
        slot: unsigned(slot)?,
        index: unsigned(index)?,
    })
}

/// Prints the lengths of each slot's files.
pub fn put_sets(text: &mut String, disk: &mut MemFolder) -> Result<(), CaseFault> {
    for slot in 0..2_u32 {
        write!(text, "  slot {slot}:")?;
        for index in 0..4_u32 {
            put_length(text, disk, FileName { slot, index })?;
        }
        text.push('\n')?;
    }
    Ok(())
}

fn put_length(text: &mut String, disk: &mut MemFolder, name: FileName) -> Result<(), CaseFault> {
    match disk.len(name)? {
        Some(length) => Ok(write!(text, " {length}")?),
        None => Ok(text.push_str(" -")?),
    }
}

/// Prints the first bytes of a file.
pub fn put_file(text: &mut String, disk: &mut MemFolder, name: FileName) -> Result<(), CaseFault> {
    let mut bytes = [0; MOST_SHOWN];
    let count = disk.read_at(name, 0, &mut bytes)?;
    match bytes.get(..count) {
        Some(read) => Ok(put_hexadecimal(text, read)?),
        None => Err(CaseFault::Unclear),
    }
}
