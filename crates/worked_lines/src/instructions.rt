//! Cases of instructions: each line is written with what the processor makes of it.
//!
//! `word W` tells the row of a word, its operands and the word of that instruction, `immediate W` its
//! immediate, `row of W` with four operands the word of that row's instruction, `rows` how many words of
//! the three opcode fields have a row, and `do W` with a1, a2 and the first bytes of memory what the word
//! comes to and what it changes. A line may end with the word's assembly in brackets, which is for the
//! reader. Other lines are remarks.

use crate::effects::print_effect;
use crate::words::{print_immediate, print_row_count, print_spelling, print_word};
use std::io;

/// The case without its assembly.
fn case_of(line: &str) -> &str {
    match line.split_once(" (") {
        Some((case, _)) => case,
        None => line,
    }
}

/// Writes the line with what the processor makes of it.
pub fn print_line(rt: &impl Print, line: &str) -> io::Result<()> {
    print!(rt; "{line}")?;
    print_answer(rt, case_of(line))?;
    println!(rt)
}

fn print_answer(rt: &impl Print, line: &str) -> io::Result<()> {
    if let Some(word) = line.strip_prefix("word ") {
        return print_word(rt, word);
    }
    if let Some(word) = line.strip_prefix("immediate ") {
        return print_immediate(rt, word);
    }
    if let Some(instruction) = line.strip_prefix("row of ") {
        return print_spelling(rt, instruction);
    }
    if let Some(case) = line.strip_prefix("do ") {
        return print_effect(rt, case);
    }
    if line == "rows" {
        return print_row_count(rt);
    }
    Ok(())
}
