//! The lines of a program's text, as an assembler for RV32IM reads them.
//!
//! [`read_text`] takes a text apart at its newlines and gives what each line says: a [`Statement`], or
//! `None` for a line that is none of the language. A name is a part of the text, and so is what stands
//! between the quotes of `.ascii`. `specs/Lines.antt` says what a line says, `specs/Statements.antt` what a
//! statement is.
//!
//! Proved: the statements are those of the definitions, line by line; where a line has none it is none of
//! the language. Whether operands fit their fields, and where labels are, is left to who makes words of
//! them. Not proved: that memory is wanted only where there is none (`worked_lines` reads texts with ample
//! memory). The language is a part of the GNU assembler's, with rules of its own where `docs/PROGRAMS.md`
//! says so.
//!
//! Source: RISC-V unprivileged manual, chapters 2, 13 and 35; RISC-V assembly programmer's handbook.
#![tactic(auto)]

mod form;
mod formed;
mod instruction;
mod mnemonic;
mod reader;
mod statement;

pub use reader::read_text;
pub use statement::Statement;
