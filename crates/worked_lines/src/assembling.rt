//! Texts for the assembler: the file's bytes behind its headers, or the line that breaks a rule.
//!
//! A line `= NAME` begins a case, whose text is the lines up to the next one; `- NAME` begins one whose last
//! line has no newline at its end. A file of more than 400 bytes behind the headers is told by the sum of its
//! bytes, and that of `ring_program`, whose text is `examples/ring.s`, is told to be it. What is expected was
//! made by `tools/assembling`, a model written from the words of the documentation, which
//! `tools/compare_with_binutils.py` compares with the GNU assembler.

use rv_asm::{AsmFault, assemble, ring_program};
use std::alloc::{AllocError, Global};

/// The size of a file's headers.
const HEADERS: usize = 84;

/// The longest body that is shown byte by byte.
const SHOWN: usize = 400;

/// A case: its name, its text, and whether its last newline is left out.
#[derive(Drop)]
pub struct Case {
    name: String,
    text: String,
    is_cut: bool,
}

impl Case {
    pub fn new(alloc: Global, name: &str, is_cut: bool) -> Result<Self, AllocError> {
        Ok(Case {
            name: String::from_str(alloc, name)?,
            text: String::new(alloc),
            is_cut,
        })
    }

    fn add(&mut self, line: &str) -> Result<(), AllocError> {
        self.text.push_str(line)?;
        self.text.push('\n')
    }

    fn text(&self) -> &str {
        let text = self.text.as_str();
        if self.is_cut {
            text.strip_suffix('\n').unwrap_or(text)
        } else {
            text
        }
    }

    /// The line that tells what the text makes; nothing of the case before the first.
    pub fn told(&self, alloc: Global) -> Result<String, AllocError> {
        if self.name.is_empty() {
            return Ok(String::new(alloc));
        }
        match assemble(alloc, self.text()) {
            Ok(file) => shown(alloc, self.name.as_str(), file.as_slice()),
            Err(AsmFault::Line(line)) => format!(in alloc; "{}: line {line}\n", self.name),
            Err(AsmFault::Memory) => format!(in alloc; "{}: memory\n", self.name),
        }
    }
}

fn shown(alloc: Global, name: &str, file: &[u8]) -> Result<String, AllocError> {
    let body = file.get(HEADERS..).unwrap_or(file);
    let bytes = if body.len() <= SHOWN {
        digits(alloc, body)?
    } else {
        format!(in alloc; "sum {}", sum(body))?
    };
    let named = if file == ring_program(alloc)?.as_slice() {
        ", the ring's program"
    } else {
        ""
    };
    format!(in alloc;
        "{name}: {} bytes, entry {:x}: {bytes}{named}\n",
        file.len(),
        entry(file)
    )
}

fn digits(alloc: Global, bytes: &[u8]) -> Result<String, AllocError> {
    let mut text = String::new(alloc);
    for byte in bytes {
        text.push_str(format!(in alloc; "{byte:02x}")?.as_str())?;
    }
    Ok(text)
}

fn sum(bytes: &[u8]) -> u64 {
    let mut sum: u64 = 0;
    for byte in bytes {
        sum = sum.wrapping_add(u64::from(*byte));
    }
    sum
}

fn entry(file: &[u8]) -> u32 {
    match file.get(24..28) {
        Some([a, b, c, d]) => u32::from_le_bytes([*a, *b, *c, *d]),
        _ => 0,
    }
}

/// The name of the case that a line begins, and whether its last newline is left out.
fn begun(line: &str) -> Option<(&str, bool)> {
    if let Some(name) = line.strip_prefix("= ") {
        return Some((name, false));
    }
    let name = line.strip_prefix("- ")?;
    Some((name, true))
}

/// What is to be told once the line is read: where it begins a case, what the one before it makes.
pub fn answer(alloc: Global, line: &str, case: &mut Case) -> Result<String, AllocError> {
    let Some((name, is_cut)) = begun(line) else {
        case.add(line)?;
        return Ok(String::new(alloc));
    };
    let told = case.told(alloc)?;
    *case = Case::new(alloc, name, is_cut)?;
    Ok(told)
}
