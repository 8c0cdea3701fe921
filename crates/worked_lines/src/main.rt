//! Worked cases, one a line: reads them from standard input, and writes what comes of each.
//!
//! A line `== PART` begins a part: words of instructions, ELF files, command lines of larger jobs, or, as the
//! last one, texts for the assembler. The module of each says how its lines read. `stdin` has the cases, and
//! `stdout` what comes of them, worked out elsewhere: by the manual, from the rules of the format, from the
//! grammar, and by a model. Nothing is proved here but that the program is safe and ends.
#![tactic(auto)]

mod assembling;
mod command_lines;
mod editing;
mod effects;
mod elf_files;
mod four_bytes;
mod instructions;
mod numbers;
mod words;

use crate::assembling::Case;
use std::io;

/// What the lines of a part are of.
#[derive(Clone, Copy)]
enum Part {
    Instructions,
    ElfFiles,
    CommandLines,
    Texts,
}

/// The part that the line begins, if it begins one.
fn begun(line: &str) -> Option<Part> {
    match line {
        "== what words are and do" => Some(Part::Instructions),
        "== what ELF files describe" => Some(Part::ElfFiles),
        "== what command lines ask for" => Some(Part::CommandLines),
        "== what texts assemble to" => Some(Part::Texts),
        _ => None,
    }
}

/// What earlier lines leave for the next one: the file that is edited, and the text that is read.
#[derive(Drop)]
struct Left {
    base: Vec<u8>,
    case: Case,
}

fn print_answer(
    rt: &(impl Print + AllocGlobal),
    part: Part,
    line: &str,
    left: &mut Left,
) -> io::Result<()> {
    match part {
        Part::Instructions => instructions::print_line(rt, line),
        Part::ElfFiles => {
            let text = elf_files::answer(rt.alloc(), line, &mut left.base)?;
            println!(rt; "{text}")
        }
        Part::CommandLines => {
            let text = command_lines::answer(rt.alloc(), line)?;
            println!(rt; "{text}")
        }
        Part::Texts => {
            let text = assembling::answer(rt.alloc(), line, &mut left.case)?;
            print!(rt; "{text}")
        }
    }
}

fn main(rt: HostRuntime) -> io::Result<()> {
    let mut part = Part::Instructions;
    let mut left = Box::new(
        rt.alloc(),
        Left {
            base: Vec::new(rt.alloc()),
            case: Case::new(rt.alloc(), "", false)?,
        },
    )?;
    for line in rt.lines(rt.alloc()) {
        let line = line?;
        match begun(line.as_str()) {
            Some(next) => {
                part = next;
                println!(rt; "{line}")?;
            }
            None => print_answer(&rt, part, line.as_str(), &mut left)?,
        }
    }
    let told = left.case.told(rt.alloc())?;
    print!(rt; "{told}")
}
