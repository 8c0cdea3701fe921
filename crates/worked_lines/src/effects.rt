//! What words do.
use crate::four_bytes::FourBytes;
use crate::numbers::{first_of, hex};
use rv_isa::{Outcome, Regs, decode, exec};
use std::io;

/// A word, and what it is done on.
#[derive(Clone, Copy)]
struct Case {
    word: u32,
    regs: Regs,
    memory: FourBytes,
}

pub fn print_effect(rt: &impl Print, text: &str) -> io::Result<()> {
    match case_of(text) {
        Some(case) => print_done(rt, &case),
        None => print!(rt; ": unreadable"),
    }
}

fn case_of(text: &str) -> Option<Case> {
    let (word, rest) = first_of(text);
    let (a1, rest) = first_of(rest);
    let (a2, bytes) = first_of(rest);
    let mut x = [0; 32];
    x[11] = hex(a1)?;
    x[12] = hex(a2)?;
    Some(Case {
        word: hex(word)?,
        regs: Regs { x, pc: 0x10000 },
        memory: FourBytes {
            bytes: hex(bytes)?.to_le_bytes(),
        },
    })
}

/// Does the instruction of the case's word, and prints what it comes to and what it changes.
fn print_done(rt: &impl Print, case: &Case) -> io::Result<()> {
    let Some(insn) = decode(case.word) else {
        return print!(rt; ": no row");
    };
    let mut regs = case.regs;
    let mut memory = case.memory;
    print_outcome(rt, exec(insn, &mut regs, &mut memory))?;
    print_registers(rt, &case.regs, &regs)?;
    print_memory(rt, &case.memory, &memory)
}

fn print_outcome(rt: &impl Print, outcome: Outcome) -> io::Result<()> {
    match outcome {
        Outcome::Next => print!(rt; ": next"),
        Outcome::Call => print!(rt; ": call"),
        Outcome::Trap(signal) => print!(rt; ": trap {}", signal.0),
        Outcome::Memory => print!(rt; ": out of memory"),
    }
}

/// The program counter and the registers that have changed.
fn print_registers(rt: &impl Print, before: &Regs, after: &Regs) -> io::Result<()> {
    let pc = after.pc;
    if pc != before.pc {
        print!(rt; ", pc {pc:x}")?;
    }
    for (number, (was, value)) in before.x.iter().zip(after.x.iter()).enumerate() {
        if was != value {
            print!(rt; ", x{number} {value:x}")?;
        }
    }
    Ok(())
}

/// The bytes of memory, if they have changed.
fn print_memory(rt: &impl Print, before: &FourBytes, after: &FourBytes) -> io::Result<()> {
    if before.bytes == after.bytes {
        return Ok(());
    }
    let bytes = u32::from_le_bytes(after.bytes);
    print!(rt; ", memory {bytes:08x}")
}
