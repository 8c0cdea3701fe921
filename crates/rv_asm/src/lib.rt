//! An assembler for the machine's programs: the ELF file of a text.
//!
//! [`assemble`] takes a text of lines, with instructions of RV32IM, pseudo-instructions, data and labels, and
//! gives the file, or the first line that breaks a rule. `asm_lines` says what each line says,
//! `specs/Layout.antt` where lines and labels are, `specs/Pieces.antt` which bytes a line has and which rules
//! it keeps, and `specs/Files.antt` what the file is. `docs/PROGRAMS.md` has the language in words.
//!
//! Proved: where each line keeps the rules the file is the one of its lines, and `elf32` finds no fault in
//! it; `Line` names the least line that breaks a rule, and comes only where there is one. An instruction's
//! word is the one of `rv_words`, so that it is decoded as that instruction, and the two of `li` and `la`
//! always fit and add up to their number ([`word_laws`]). Not proved: that memory is wanted only where there
//! is none (`worked_lines` has ample memory).
//!
//! Source: RISC-V unprivileged manual, chapters 2, 13 and 35; System V ABI, chapters 4 and 5.
#![tactic(auto)]

mod asm_fault;
mod assembler;
mod elf_file;
mod labels;
mod layout;
mod piece;
mod ring;
mod words;

pub use asm_fault::AsmFault;
pub use assembler::assemble;
pub use ring::ring_program;
pub use words::word_laws;
