//! Cases of ELF files: what each file describes, or the first rule that it breaks.
//!
//! A case is a line `NAME: HOW`, its numbers in hex digits, and HOW is one of these:
//! - `bytes DIGITS`: the file has these bytes, and the lines below it edit this file;
//! - `first COUNT`: it has the first bytes of the edited file;
//! - `turn PLACE BITS`: it is the edited file with these bits of one byte turned;
//! - `headers ENTRY HEADER..`: it has the edited file's first 52 bytes, with this entry, and program headers
//!   `KIND:ADDRESS:BYTES:MEMORY:FLAGS`, each of a segment that begins with the file's first byte.
//!
//! The file that the stored cases edit has, from its byte 0x54 on, at 0x10054:
//!
//! ```text
//! li    a0, 1
//! auipc a1, 0
//! addi  a1, a1, 0x20
//! li    a2, 6
//! li    a7, 64       # write(1, "hello\n", 6)
//! ecall
//! li    a0, 0
//! li    a7, 94       # exit_group(0)
//! ecall
//! .ascii "hello\n"
//! ```
//!
//! The answer to a case is a line with the entry, and of each segment its size, address, rights and bytes.
use crate::editing::{edited, parted};
use elf32::{Program, Segment, read_elf};
use std::alloc::{AllocError, Global};
use std::io;

/// The line's name and what its file describes. The cases below a file's bytes edit that file, the base.
pub fn answer(alloc: Global, line: &str, base: &mut Vec<u8>) -> io::Result<String> {
    let (name, how) = parted(line, ": ")?;
    let file = edited(alloc, base.as_slice(), how)?;
    let text = described(alloc, file.as_slice())?;
    if how.starts_with("bytes") {
        *base = file;
    }
    Ok(format!(in alloc; "{name}: {text}")?)
}

fn described(alloc: Global, file: &[u8]) -> Result<String, AllocError> {
    match read_elf(alloc, file) {
        Ok(program) => shown(alloc, file, &program),
        Err(fault) => format!(in alloc; "{fault}"),
    }
}

fn shown(alloc: Global, file: &[u8], program: &Program) -> Result<String, AllocError> {
    let mut text = format!(in alloc; "entry {:x}", program.entry)?;
    for segment in &program.segments {
        add_segment(alloc, &mut text, file, segment)?;
    }
    Ok(text)
}

fn add_segment(
    alloc: Global,
    text: &mut String,
    file: &[u8],
    segment: &Segment,
) -> Result<(), AllocError> {
    let bytes = segment.bytes.as_slice();
    let whose = if file.starts_with(bytes) {
        "first"
    } else {
        "other"
    };
    let more = format!(in alloc;
        ", {:x} at {:x} with rights {} and the {whose} {:x} bytes",
        segment.memsz,
        segment.vaddr,
        segment.rights,
        bytes.len()
    )?;
    text.push_str(more.as_str())
}
