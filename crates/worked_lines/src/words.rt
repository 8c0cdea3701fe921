//! Which words are which instructions.
use crate::numbers::{first_of, hex};
use rv_isa::{Insn, decode, encode, is_valid};
use std::io;

pub fn print_word(rt: &impl Print, text: &str) -> io::Result<()> {
    let Some(insn) = decoded(text) else {
        return print!(rt; ": no row");
    };
    let Insn {
        op,
        rd,
        rs1,
        rs2,
        imm,
    } = insn;
    print!(rt; ": {op:?} {rd} {rs1} {rs2} {imm}, ")?;
    print_word_of(rt, insn)
}

pub fn print_immediate(rt: &impl Print, text: &str) -> io::Result<()> {
    let Some(insn) = decoded(text) else {
        return print!(rt; ": no row");
    };
    let imm = insn.imm;
    print!(rt; ": {imm}, ")?;
    print_word_of(rt, insn)
}

pub fn print_spelling(rt: &impl Print, text: &str) -> io::Result<()> {
    match with_operands(text) {
        Some(insn) => {
            print!(rt; ": ")?;
            print_word_of(rt, insn)
        }
        None => print!(rt; ": unreadable"),
    }
}

pub fn print_row_count(rt: &impl Print) -> io::Result<()> {
    let mut rows = 0u32;
    for opcode in 0..128 {
        for funct3 in 0..8 {
            rows = rows.saturating_add(rows_of(opcode + 4096 * funct3));
        }
    }
    print!(rt; ": {rows}")
}

/// How many words with a funct7 added to this one have a row.
fn rows_of(word: u32) -> u32 {
    let mut rows = 0u32;
    for funct7 in 0..128 {
        let found = decode(word.wrapping_add(33_554_432 * funct7));
        rows = rows.saturating_add(found.is_some() as u32);
    }
    rows
}

fn decoded(text: &str) -> Option<Insn> {
    let word = hex(text)?;
    decode(word)
}

/// The word of an instruction, where it has one.
fn print_word_of(rt: &impl Print, insn: Insn) -> io::Result<()> {
    if !is_valid(insn) {
        return print!(rt; "no word");
    }
    let word = encode(insn);
    print!(rt; "{word:08x}")
}

/// The instruction of a word's row with other operands.
fn with_operands(text: &str) -> Option<Insn> {
    let (word, rest) = first_of(text);
    let (rd, rest) = first_of(rest);
    let (rs1, rest) = first_of(rest);
    let (rs2, imm) = first_of(rest);
    let row = decoded(word)?;
    Some(Insn {
        op: row.op,
        rd: rd.parse::<u8>().ok()?,
        rs1: rs1.parse::<u8>().ok()?,
        rs2: rs2.parse::<u8>().ok()?,
        imm: imm.parse::<i32>().ok()?,
    })
}
